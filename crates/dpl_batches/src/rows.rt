// The turns of a row, made a strip of them after another: each strip begins where the one before it ends, in rooms that all of them share.

ghost use Rattle.std.specs.Prelude.{◌≡◌, ◌≤◌, length, IfOk};
ghost use Rattle.dpl_standing.specs.Standing.{Standing};
ghost use Rattle.dpl_loop.specs.Runs.{AreDone};
ghost use Rattle.dpl_readings.specs.Readings.{steps_in};
ghost use Rattle.dpl_elements.specs.Turns.{index_turn};

use crate::batch::{made, make_batch};
use crate::store::{Store, begin_again};
use crate::turn::{assign_row, fold_row, truth_row};
use dpl_frame::{Arrays, Frame};
use dpl_loop::{Row, Strip};
use dpl_nodes::{Names, Step, TruthTarget};
use dpl_strips::rest_of;
use std::alloc::AllocError;

// Makes turns of a row's first indices, as many as a strip has and at most so many; how many. A body of one assignment to an element, or of
// one int's fold, needs no store.
fn make_strip<'t, A: Arrays>(
    names: &Names<'t>,
    body: &[Step<'t>],
    row: Row,
    most: usize,
    strip: &mut Strip,
    stores: &mut [Store],
    frame: &mut Frame<A>,
) -> Result<usize, AllocError>
    requires { length stores.old ≤ 4 }
    ensures most { IfOk result (λ made. made ≤ most) }
    ensures cap { IfOk result (λ made. made ≤ 64) }
    ensures few { length stores.new ≤ 4 }
    ensures done { (w : Standing) → IfOk result (λ made.
        AreDone (index_turn frame.old.limits names.now (steps_in w body.now)) row made frame.old.memory frame.new.memory) }
    ensures limits { frame.new.limits ≡ frame.old.limits }
{
    let [step] = body else {
        return made(names, body, row, most, strip, stores, frame);
    };
    match step {
        Step::SetElement(..) => Ok(assign_row(step, names, row, most, strip, frame)),
        Step::Truth(..) => Ok(truth_row(step, names, row, most, strip, frame)),
        Step::Int(..) => Ok(fold_row(step, names, row, most, strip, frame)),
        _ => made(names, body, row, most, strip, stores, frame),
    }
}

/// Makes the turns of a row's indices, a strip of them after another, at most so many; how many.
///
/// # Errors
/// Out of memory for a copy of an array that isn't the frame's own; then nothing is said of the frame.
pub(crate) fn make_strips<'t, A: Arrays>(
    names: &Names<'t>,
    body: &[Step<'t>],
    row: Row,
    most: usize,
    stores: &mut [Store],
    frame: &mut Frame<A>,
) -> Result<usize, AllocError>
    requires { length stores.old ≤ 4 }
    ensures most { IfOk result (λ made. made ≤ most) }
    ensures done { (w : Standing) → IfOk result (λ made.
        AreDone (index_turn frame.old.limits names.now (steps_in w body.now)) row made frame.old.memory frame.new.memory) }
    ensures limits { frame.new.limits ≡ frame.old.limits }
{
    let mut strip = Strip::none(row);
    let mut here = row;
    let mut all = 0;
    while all < most {
        let Ok(size) = make_strip(names, body, here, most - all, &mut strip, stores, frame) else {
            return Err(AllocError);
        };
        if size == 0 {
            break;
        }
        all += size;
        let Some(rest) = rest_of(here, size) else {
            break;
        };
        here = rest;
        begin_again(stores, size);
    }
    Ok(all)
}

// Whether a body is one statement that needs no store.
fn is_single(body: &[Step<'_>]) -> bool {
    let [step] = body else {
        return false;
    };
    match step {
        Step::SetElement(..) | Step::Int(..) => true,
        Step::Truth(TruthTarget::Element(..), _) => true,
        _ => false,
    }
}

/// Makes the turns of a row's indices, at most so many, where their statements are found several turns at once; how many. They are what they are
/// wherever the loop stands.
///
/// # Errors
/// Out of memory for a copy of an array that isn't the frame's own; then nothing is said of the frame.
pub fn make_row<'t, A: Arrays>(
    names: &Names<'t>,
    body: &[Step<'t>],
    row: Row,
    most: usize,
    frame: &mut Frame<A>,
) -> Result<usize, AllocError>
    ensures most { IfOk result (λ made. made ≤ most) }
    ensures done { (w : Standing) → IfOk result (λ made.
        AreDone (index_turn frame.old.limits names.now (steps_in w body.now)) row made frame.old.memory frame.new.memory) }
    ensures limits { frame.new.limits ≡ frame.old.limits }
{
    if !is_single(body) {
        return make_batch(names, body, row, most, frame);
    }
    let mut none: [Store; 0] = [];
    make_strips(names, body, row, most, &mut none, frame)
}
