// Turns of a loop that are made at once, along a row of indices: those whose body is one assignment to an element, or folds an int onto
// one that is no variable of the loop. The right sides are evaluated for several turns, and then put along a row, or folded one after another.

ghost use Rattle.std.specs.Prelude.{◌≡◌, ◌≤◌, true, false, IfSome};
ghost use Rattle.dpl_array.specs.Elements.{behind};
ghost use Rattle.dpl_language.specs.Tree.{NoStmts, Then};
ghost use Rattle.dpl_standing.specs.Standing.{Standing};
ghost use Rattle.dpl_loop.specs.Runs.{AreDone};
ghost use Rattle.dpl_readings.specs.Readings.{step_in};
ghost use Rattle.dpl_strips.specs.Strips.{one_written, GoesFrom};
ghost use Rattle.dpl_elements.specs.Turns.{HasRoom, IsApart, index_turn};

use crate::fold::{fold_of, folded};
use crate::variables::bind;
use dpl_arithmetic::index::{coordinate, plane, space};
use dpl_domain::Index;
use dpl_elements::put_row;
use dpl_frame::{Arrays, Frame};
use dpl_loop::{Row, STRIP, Strip};
use dpl_nodes::{IndexExpr, Names, Step, TruthTarget};
use dpl_strips::{Target, turn_ints, turn_row, turn_truths};
use dpl_tree::Assign;

/// Whether the last coordinate of a row's indices stays in its word through a whole strip.
pub(crate) fn has_room(row: Row) -> bool
    ensures { result ≡ true → HasRoom row 64 }
{
    let first = row.first();
    // Nothing is read here: that an index has coordinates is a clause of this call.
    let _ = first.rank();
    let (_, _, inner) = first.numbers();
    let Some(more) = row.step().checked_mul(STRIP as i64) else {
        return false;
    };
    let Some(_last) = inner.checked_add(more) else {
        return false;
    };
    true
}

/// The index of a row that stands so many behind its first.
pub(crate) fn behind(row: Row, k: usize) -> Index
    requires most { k ≤ 64 }
    requires room { HasRoom row 64 }
    ensures { result ≡ behind k row }
{
    let first = row.first();
    let (outer, middle, inner) = first.numbers();
    let last = inner + row.step() * k as i64;
    match first.rank() {
        1 => coordinate(last),
        2 => plane(middle, last),
        _ => space(outer, middle, last),
    }
}

// The row of the elements of an array that the turns write, by their index. It is told without them, so any row stands for it here.
fn element_row<A: Arrays>(
    index: &IndexExpr<'_>,
    names: &Names<'_>,
    slot: usize,
    row: Row,
    frame: &Frame<A>,
) -> Option<Row>
    ensures { IfSome result (λ at. GoesFrom frame.now.limits names.now (one_written slot row) row frame.now.memory index.now at) }
{
    let targets = [Target {
        slot,
        at: row,
        words: None,
    }];
    turn_row(index, names, &targets, row, frame)
}

/// An assignment to an element that is an int, in turns of a row's first indices, as many as a strip has and at most so many; how many. The
/// strip is lent.
pub(crate) fn assign_row<'t, A: Arrays>(
    step: &Step<'t>,
    names: &Names<'t>,
    row: Row,
    most: usize,
    strip: &mut Strip,
    frame: &mut Frame<A>,
) -> usize
    ensures most { result ≤ most }
    ensures cap { result ≤ 64 }
    ensures done { (w : Standing)
        → AreDone (index_turn frame.old.limits names.now (Then (step_in w step.now) NoStmts)) row result frame.old.memory frame.new.memory }
    ensures limits { frame.new.limits ≡ frame.old.limits }
{
    let Step::SetElement(name, index, op, sign, e) = step else {
        return 0;
    };
    if !has_room(row) {
        return 0;
    }
    let Some(at) = element_row(index, names, name.slot, row, frame) else {
        return 0;
    };
    let targets = [Target {
        slot: name.slot,
        at,
        words: None,
    }];
    strip.row = row;
    strip.size = most.min(STRIP);
    turn_ints(e, names, &targets, frame, strip);
    let made = put_row(name, *op, sign, at, strip, most, frame);
    if made > 0 {
        bind(names, behind(row, made - 1), frame);
    }
    made
}

/// The same of an element that is a truth value.
pub(crate) fn truth_row<'t, A: Arrays>(
    step: &Step<'t>,
    names: &Names<'t>,
    row: Row,
    most: usize,
    strip: &mut Strip,
    frame: &mut Frame<A>,
) -> usize
    ensures most { result ≤ most }
    ensures cap { result ≤ 64 }
    ensures done { (w : Standing)
        → AreDone (index_turn frame.old.limits names.now (Then (step_in w step.now) NoStmts)) row result frame.old.memory frame.new.memory }
    ensures limits { frame.new.limits ≡ frame.old.limits }
{
    let Step::Truth(target, e) = step else {
        return 0;
    };
    let TruthTarget::Element(name, index) = target else {
        return 0;
    };
    if !has_room(row) {
        return 0;
    }
    let Some(at) = element_row(index, names, name.slot, row, frame) else {
        return 0;
    };
    let targets = [Target {
        slot: name.slot,
        at,
        words: None,
    }];
    strip.row = row;
    strip.size = most.min(STRIP);
    turn_truths(e, names, &targets, frame, strip);
    let made = put_row(name, Assign::Set, name.at, at, strip, most, frame);
    if made > 0 {
        bind(names, behind(row, made - 1), frame);
    }
    made
}

/// Whether a variable of the loop is the int in a slot.
pub(crate) fn is_variable(names: &Names<'_>, slot: usize) -> bool
    ensures { result ≡ false → IsApart names.now slot }
{
    match names {
        Names::Int(variable) => *variable == slot,
        Names::Tuple(_) => false,
        Names::Each(variable, others) => *variable == slot || others.contains(&slot),
    }
}

/// What is done to an int, in turns of a row's first indices, where each folds its right side onto it; how many, as before.
pub(crate) fn fold_row<'t, A: Arrays>(
    step: &Step<'t>,
    names: &Names<'t>,
    row: Row,
    most: usize,
    strip: &mut Strip,
    frame: &mut Frame<A>,
) -> usize
    ensures most { result ≤ most }
    ensures cap { result ≤ 64 }
    ensures done { (w : Standing)
        → AreDone (index_turn frame.old.limits names.now (Then (step_in w step.now) NoStmts)) row result frame.old.memory frame.new.memory }
    ensures limits { frame.new.limits ≡ frame.old.limits }
{
    let Step::Int(deed, slot, e) = step else {
        return 0;
    };
    let slot = *slot;
    if !has_room(row) || is_variable(names, slot) || !frame.has_number(slot) {
        return 0;
    }
    let Some(fold) = fold_of(deed, frame.operator(slot)) else {
        return 0;
    };
    let targets = [Target {
        slot,
        at: row,
        words: None,
    }];
    strip.row = row;
    strip.size = most.min(STRIP);
    turn_ints(e, names, &targets, frame, strip);
    let made = strip.size.min(most).min(STRIP);
    if made > 0 {
        let word = folded(fold, frame.number(slot), &strip.words, made);
        bind(names, behind(row, made - 1), frame);
        frame.set_number(slot, word);
    }
    made
}
