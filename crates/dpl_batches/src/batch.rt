// Bodies of several statements, and of `if`s, whose turns are made at once: each statement is found for all turns of a row before the next one
// is, and what it leaves in variables is kept back (store.rt, keep.rt). At the end that is put, for as many turns as every statement was found.

ghost use Rattle.std.specs.Prelude.{◌≡◌, ◌≤◌, length, IfSome, IfOk};
ghost use Rattle.dpl_language.specs.Tree.{NoStmts, Then};
ghost use Rattle.dpl_standing.specs.Standing.{Standing};
ghost use Rattle.dpl_loop.specs.Runs.{AreDone};
ghost use Rattle.dpl_readings.specs.Readings.{step_in, steps_in};
ghost use Rattle.dpl_elements.specs.Turns.{index_turn};
ghost use Rattle.dpl_batches.specs.Stores.{AreApart};
ghost use Rattle.dpl_batches.specs.Lanes.{AreFoundIn};

use crate::fold::fold_of;
use crate::keep::{Lanes, found_truths, narrow, plain, turn_over};
use crate::rows::make_strips;
use crate::store::{MOST, Store, Variable, are_apart, put_all};
use crate::turn::{behind, has_room};
use crate::variables::bind;
use dpl_frame::{Arrays, Frame};
use dpl_loop::{Row, STRIP, Strip};
use dpl_nodes::{Else, IndexExpr, Names, Step, TruthTarget};
use dpl_strips::turn_row;
use std::alloc::AllocError;

// The elements of an array that an assignment writes. The variables that turns write may stand in the index all the same: that is asked for
// when the statement is found (keep.rt).
fn element_of<'t, A: Arrays>(
    slot: usize,
    index: &IndexExpr<'t>,
    names: &Names<'t>,
    row: Row,
    frame: &Frame<A>,
) -> Option<Variable> {
    match turn_row(index, names, &[], row, frame) {
        Some(at) => Some(Variable { slot, at }),
        None => None,
    }
}

// What a statement that holds no other writes, as far as that is seen from it alone.
fn written_by<'t, A: Arrays>(
    step: &Step<'t>,
    names: &Names<'t>,
    row: Row,
    frame: &Frame<A>,
) -> Option<Variable> {
    match step {
        Step::Int(deed, slot, _) => match fold_of(deed, frame.operator(*slot)) {
            Some(_) => Some(Variable {
                slot: *slot,
                at: row,
            }),
            None => None,
        },
        Step::SetElement(name, index, _, _, _) => element_of(name.slot, index, names, row, frame),
        Step::Truth(TruthTarget::Element(name, index), _) => element_of(
            name.slot, index, names, row, frame,
        ),
        _ => None,
    }
}

// Whether a variable is among these.
fn is_among(found: &[Variable], slot: usize) -> bool {
    for k in 0..found.len() {
        if found[k].slot == slot {
            return true;
        }
    }
    false
}

// A variable more that turns write, unless it is among them. None where they are too many.
fn with_variable(variable: Variable, found: &mut [Variable; MOST], count: usize) -> Option<usize>
    requires { count ≤ 4 }
    ensures { IfSome result (λ n. n ≤ 4) }
{
    if is_among(&found[..count], variable.slot) {
        return Some(count);
    }
    if count == MOST {
        return None;
    }
    found[count] = variable;
    Some(count + 1)
}

// What statements write, behind what is found already; how many variables. None where a statement isn't one that is kept back.
#[cycle(writes)]
fn all_written<'t, A: Arrays>(
    body: &[Step<'t>],
    names: &Names<'t>,
    row: Row,
    frame: &Frame<A>,
    found: &mut [Variable; MOST],
    count: usize,
) -> Option<usize>
    requires { count ≤ 4 }
    ensures { IfSome result (λ n. n ≤ 4) }
{
    let mut all = count;
    for k in 0..body.len() {
        let Some(more) = also_written(&body[k], names, row, frame, found, all) else {
            return None;
        };
        all = more;
    }
    Some(all)
}

// What a statement writes.
#[cycle(writes)]
fn also_written<'t, A: Arrays>(
    step: &Step<'t>,
    names: &Names<'t>,
    row: Row,
    frame: &Frame<A>,
    found: &mut [Variable; MOST],
    count: usize,
) -> Option<usize>
    requires { count ≤ 4 }
    ensures { IfSome result (λ n. n ≤ 4) }
{
    match step {
        Step::Nothing => Some(count),
        Step::Block(body) => all_written(body, names, row, frame, found, count),
        Step::If {
            body,
            otherwise,
            ..
        } => {
            let Some(all) = all_written(body, names, row, frame, found, count) else {
                return None;
            };
            match otherwise {
                Else::Absent => Some(all),
                Else::Do(step) => also_written(step, names, row, frame, found, all),
            }
        }
        _ => match written_by(step, names, row, frame) {
            Some(variable) => with_variable(variable, found, count),
            None => None,
        },
    }
}

// Statements one after another, in turns of which so many were found; how many are found by now.
#[cycle(found)]
fn statements<'t, A: Arrays>(
    body: &[Step<'t>],
    lanes: &Lanes<'_, '_, 't>,
    frame: &Frame<A>,
    strip: &mut Strip,
    stores: &mut [Store],
    size: usize,
) -> usize
    requires few { length stores.old ≤ 4 }
    requires apart { AreApart lanes.now.names.now stores.old }
    ensures most { result ≤ size }
    ensures few { length stores.new ≤ 4 }
    ensures apart { AreApart lanes.now.names.now stores.new }
    ensures found { (w : Standing) → AreFoundIn lanes.now frame.now (steps_in w body.now) result stores.old stores.new }
{
    let mut left = size;
    for k in 0..body.len() {
        left = statement(&body[k], lanes, frame, strip, stores, left);
        if left == 0 {
            return 0;
        }
    }
    left
}

// A statement.
#[cycle(found)]
fn statement<'t, A: Arrays>(
    step: &Step<'t>,
    lanes: &Lanes<'_, '_, 't>,
    frame: &Frame<A>,
    strip: &mut Strip,
    stores: &mut [Store],
    size: usize,
) -> usize
    requires few { length stores.old ≤ 4 }
    requires apart { AreApart lanes.now.names.now stores.old }
    ensures most { result ≤ size }
    ensures few { length stores.new ≤ 4 }
    ensures apart { AreApart lanes.now.names.now stores.new }
    ensures found { (w : Standing) → AreFoundIn lanes.now frame.now (Then (step_in w step.now) NoStmts) result stores.old stores.new }
{
    match step {
        Step::Nothing => size,
        Step::Block(body) => statements(body, lanes, frame, strip, stores, size),
        Step::If { .. } => branches(step, lanes, frame, strip, stores, size),
        _ => plain(step, lanes, frame, strip, stores, size),
    }
}

// An `if`: its first branch counts where the condition holds, and then its other one where it doesn't. The condition's words are the mask.
#[cycle(found)]
#[inline(never)]
fn branches<'t, A: Arrays>(
    step: &Step<'t>,
    lanes: &Lanes<'_, '_, 't>,
    frame: &Frame<A>,
    strip: &mut Strip,
    stores: &mut [Store],
    size: usize,
) -> usize
    requires few { length stores.old ≤ 4 }
    requires apart { AreApart lanes.now.names.now stores.old }
    ensures most { result ≤ size }
    ensures few { length stores.new ≤ 4 }
    ensures apart { AreApart lanes.now.names.now stores.new }
    ensures found { (w : Standing) → AreFoundIn lanes.now frame.now (Then (step_in w step.now) NoStmts) result stores.old stores.new }
{
    let Step::If {
        condition,
        body,
        otherwise,
    } = step
    else {
        return 0;
    };
    let mut holds = Strip::none(lanes.row);
    holds.size = size;
    found_truths(condition, lanes, stores, frame, &mut holds);
    let known = size.min(holds.size);
    narrow(lanes.mask, &mut holds);
    let mask = Some(&holds.words);
    let met = Lanes {
        names: lanes.names,
        row: lanes.row,
        mask,
    };
    let left = statements(body, &met, frame, strip, stores, known);
    let Else::Do(step) = otherwise else {
        return left;
    };
    turn_over(lanes.mask, &mut holds);
    let mask = Some(&holds.words);
    let unmet = Lanes {
        names: lanes.names,
        row: lanes.row,
        mask,
    };
    statement(step, &unmet, frame, strip, stores, left)
}

/// Makes turns of a row's first indices by these stores, as many as a strip has and at most so many; how many. The strip is lent.
///
/// # Errors
/// Out of memory for a copy of an array that isn't the frame's own; then nothing is said of the frame.
pub(crate) fn made<'t, A: Arrays>(
    names: &Names<'t>,
    body: &[Step<'t>],
    row: Row,
    most: usize,
    strip: &mut Strip,
    stores: &mut [Store],
    frame: &mut Frame<A>,
) -> Result<usize, AllocError>
    requires { length stores.old ≤ 4 }
    ensures most { IfOk result (λ made. made ≤ most) }
    ensures cap { IfOk result (λ made. made ≤ 64) }
    ensures few { length stores.new ≤ 4 }
    ensures done { (w : Standing) → IfOk result (λ made.
        AreDone (index_turn frame.old.limits names.now (steps_in w body.now)) row made frame.old.memory frame.new.memory) }
    ensures limits { frame.new.limits ≡ frame.old.limits }
{
    if !has_room(row) || !are_apart(names, stores) {
        return Ok(0);
    }
    let lanes = Lanes {
        names,
        row,
        mask: None,
    };
    let size = statements(body, &lanes, frame, strip, stores, most.min(STRIP));
    if size == 0 {
        return Ok(0);
    }
    put_all(stores, size, frame)?;
    bind(names, behind(row, size - 1), frame);
    Ok(size)
}

// The turns of a row by one store. The room for stores is cleared at the entry of the function that has it, so there are two of them.
#[inline(never)]
fn by_one<'t, A: Arrays>(
    names: &Names<'t>,
    body: &[Step<'t>],
    row: Row,
    most: usize,
    variable: Variable,
    frame: &mut Frame<A>,
) -> Result<usize, AllocError>
    ensures most { IfOk result (λ made. made ≤ most) }
    ensures done { (w : Standing) → IfOk result (λ made.
        AreDone (index_turn frame.old.limits names.now (steps_in w body.now)) row made frame.old.memory frame.new.memory) }
    ensures limits { frame.new.limits ≡ frame.old.limits }
{
    let mut stores = [Store::unmade(variable)];
    make_strips(names, body, row, most, &mut stores, frame)
}

// And by the first of these variables, so many.
#[inline(never)]
fn by_some<'t, A: Arrays>(
    names: &Names<'t>,
    body: &[Step<'t>],
    row: Row,
    most: usize,
    found: &[Variable; MOST],
    count: usize,
    frame: &mut Frame<A>,
) -> Result<usize, AllocError>
    requires { count ≤ 4 }
    ensures most { IfOk result (λ made. made ≤ most) }
    ensures done { (w : Standing) → IfOk result (λ made.
        AreDone (index_turn frame.old.limits names.now (steps_in w body.now)) row made frame.old.memory frame.new.memory) }
    ensures limits { frame.new.limits ≡ frame.old.limits }
{
    let mut stores = [Store::unmade(found[0]); MOST];
    for k in 1..MOST {
        stores[k].slot = found[k].slot;
        stores[k].at = found[k].at;
    }
    make_strips(names, body, row, most, &mut stores[..count], frame)
}

/// Makes the turns of a row's indices, at most so many, where each of their statements is found several turns at once; how many.
///
/// # Errors
/// Out of memory for a copy of an array that isn't the frame's own; then nothing is said of the frame.
pub(crate) fn make_batch<'t, A: Arrays>(
    names: &Names<'t>,
    body: &[Step<'t>],
    row: Row,
    most: usize,
    frame: &mut Frame<A>,
) -> Result<usize, AllocError>
    ensures most { IfOk result (λ made. made ≤ most) }
    ensures done { (w : Standing) → IfOk result (λ made.
        AreDone (index_turn frame.old.limits names.now (steps_in w body.now)) row made frame.old.memory frame.new.memory) }
    ensures limits { frame.new.limits ≡ frame.old.limits }
{
    let mut found = [Variable { slot: 0, at: row }; MOST];
    let Some(count) = all_written(body, names, row, frame, &mut found, 0) else {
        return Ok(0);
    };
    if count == 1 {
        by_one(names, body, row, most, found[0], frame)
    } else {
        by_some(names, body, row, most, &found, count, frame)
    }
}
