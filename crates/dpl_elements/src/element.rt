// Elements of arrays: one is put by `=`, and goes into what the other operators make of it.
// The index is tested before the divisor.

ghost use Rattle.std.specs.Prelude.{◌≡◌, ◌≢◌, true, false, pos, None};
ghost use Rattle.dpl_syntax.specs.declared.place.Place.{Place};
ghost use Rattle.dpl_language.specs.Tree.{IntKind, BoolKind, Set};
ghost use Rattle.dpl_language.specs.Values.{Value, Int, Truth, index_of, kept_number};
ghost use Rattle.dpl_language.specs.Arithmetic.{assigned, assign_divides};
ghost use Rattle.dpl_language.specs.Outcome.{Deeds, with_ok};
ghost use Rattle.dpl_language.specs.Expressions.{values_of};
ghost use Rattle.dpl_language.specs.Assignments.{change};
ghost use Rattle.dpl_language.specs.Statements.{exec};
ghost use Rattle.dpl_lowered.specs.Shapes.{nowhere};
ghost use Rattle.dpl_memory.specs.Memory.{in_memory};
ghost use Rattle.dpl_nodes.specs.Typed.{int_view, truth_view, index_exprs};
ghost use Rattle.dpl_frame.specs.Faults.{Tells};
ghost use Rattle.dpl_nodes.specs.Steps.{array_leaf, element_set};
ghost use Rattle.dpl_loop.specs.Entries.{MayRefuseSome};
ghost use Rattle.dpl_loop.specs.Runs.{RunsTo, RunEnds};
ghost use Rattle.dpl_loop.specs.Values.{Gives};
ghost use Rattle.dpl_elements.specs.Changes.{signed, if_there, put_memory};

use dpl_arithmetic::number::{difference, product, quotient, remainder, sum};
use dpl_domain::Index;
use dpl_frame::{Alarm, Arrays, FaultCode, Frame, Trap, Turn};
use dpl_loop::RunStop;
use dpl_loop::stop::told as ended;
use dpl_nodes::{ArrayName, BoolExpr, IndexExpr, IntExpr, Spot};
use dpl_tree::Assign;
use dpl_values::{Team, coordinate_value, index_value, int_value, truth_value};

/// Whether an operator divides.
#[inline(always)]
pub(crate) fn divides(op: Assign) -> bool
    ensures { result ≡ assign_divides op }
{
    match op {
        Assign::SetDivide | Assign::SetRemainder => true,
        Assign::Set
        | Assign::SetAdd
        | Assign::SetSubtract
        | Assign::SetMultiply
        | Assign::SetReduce => false,
    }
}

/// What an operator makes of an element. Outside foralls, and of an element always, `reduce=` is `=`.
#[inline(always)]
pub(crate) fn assigned(op: Assign, old: i64, value: i64) -> i64
    requires { assign_divides op ≡ true → value ≢ pos 0 }
    ensures { Int result ≡ assigned op None (Int old) (Int value) }
{
    match op {
        Assign::Set | Assign::SetReduce => value,
        Assign::SetAdd => sum(old, value),
        Assign::SetSubtract => difference(old, value),
        Assign::SetMultiply => product(old, value),
        Assign::SetDivide => quotient(old, value),
        Assign::SetRemainder => remainder(old, value),
    }
}

/// Whether an operator has no use for the old value.
#[inline(always)]
pub(crate) fn replaces(op: Assign) -> bool
    ensures value { (result ≡ true) → (old new : Value) → assigned op None old new ≡ new }
    ensures divides { (result ≡ true) → assign_divides op ≡ false }
{
    match op {
        Assign::Set | Assign::SetReduce => true,
        Assign::SetAdd
        | Assign::SetSubtract
        | Assign::SetMultiply
        | Assign::SetDivide
        | Assign::SetRemainder => false,
    }
}

// A truth value as an element's word.
#[inline(always)]
fn word_of(value: bool) -> i64
    ensures { result ≡ kept_number (Truth value) }
{
    i64::from(value)
}

// What is told of an index that an array hasn't got.
#[inline(always)]
fn told(name: &ArrayName<'_>, there: bool) -> Result<(), Trap>
    ensures { result ≡ if_there name.now.at.now there }
{
    if there {
        Ok(())
    } else {
        Err(Trap::new(FaultCode::Outside, *name.at))
    }
}

// An element goes into what an operator makes of it.
fn combine<A: Arrays>(
    name: &ArrayName<'_>,
    op: Assign,
    sign: &Spot,
    index: Index,
    value: i64,
    frame: &mut Frame<A>,
) -> Result<(), RunStop>
    ensures ends { (done : Deeds) → RunEnds result frame.new.memory done
        (change frame.old.limits in_memory (array_leaf IntKind name.now) (signed op sign.now) index (Int value) frame.old.memory done) }
    ensures limits { frame.new.limits ≡ frame.old.limits }
{
    let Some(old) = frame.element(name.slot, index) else {
        return ended(Err(Trap::new(FaultCode::Outside, *name.at)));
    };
    if divides(op) && value == 0 {
        return ended(Err(Trap::new(FaultCode::ZeroDivisor, *sign)));
    }
    frame.put(name.slot, index, assigned(op, old, value))?;
    Ok(())
}

/// An element is changed.
///
/// # Errors
/// `F1` at the array's name for an index outside it; `F2` at the operator for a division by zero; or out of memory.
pub(crate) fn change<A: Arrays>(
    name: &ArrayName<'_>,
    op: Assign,
    sign: &Spot,
    index: Index,
    value: i64,
    frame: &mut Frame<A>,
) -> Result<(), RunStop>
    ensures ends { (done : Deeds) → RunEnds result frame.new.memory done
        (change frame.old.limits in_memory (array_leaf IntKind name.now) (signed op sign.now) index (Int value) frame.old.memory done) }
    ensures limits { frame.new.limits ≡ frame.old.limits }
{
    if replaces(op) {
        let there = frame.put(name.slot, index, value)?;
        return ended(told(name, there));
    }
    combine(name, op, sign, index, value, frame)
}

/// An element that is a truth value is set.
///
/// # Errors
/// `F1` at the array's name for an index outside it; or out of memory.
pub(crate) fn change_truth<A: Arrays>(
    name: &ArrayName<'_>,
    index: Index,
    value: bool,
    frame: &mut Frame<A>,
) -> Result<(), RunStop>
    ensures ends { (at : Place) (done : Deeds) → RunEnds result frame.new.memory done
        (change frame.old.limits in_memory (array_leaf BoolKind name.now) (signed Set at) index (Truth value) frame.old.memory done) }
    ensures limits { frame.new.limits ≡ frame.old.limits }
{
    let there = frame.put(name.slot, index, i64::from(value))?;
    ended(told(name, there))
}

// The same, for a caller that has a place for the turn of a fault.
#[inline(always)]
fn told_in(name: &ArrayName<'_>, there: bool, turn: &mut Turn) -> Result<(), Alarm>
    ensures { Tells ⊥ (λ v. v) turn.new result (if_there name.now.at.now there) }
{
    if there {
        Ok(())
    } else {
        Err(Alarm::new(FaultCode::Outside, *name.at, turn))
    }
}

// Puts a word at an index, whose coordinates are evaluated from left to right. No index is made of coordinates.
#[inline(always)]
fn put_word<G: Team>(
    name: &ArrayName<'_>,
    t: &IndexExpr<'_>,
    word: i64,
    frame: &mut Frame<G::Kept>,
    gate: &G,
    turn: &mut Turn,
) -> Result<(), Alarm>
    requires ready { G.is_ready gate.now }
    ensures ends { Tells (MayRefuseSome (G.may_refuse gate.now)) (λ v. frame.new.memory) turn.new result
        (with_ok (values_of frame.old.limits in_memory (index_exprs t.now) frame.old.memory)
        (λ vs. put_memory name.now.at.now name.now.slot (index_of vs) word frame.old.memory)) }
    ensures limits { frame.new.limits ≡ frame.old.limits }
{
    match t {
        IndexExpr::Line(i) => {
            let i = coordinate_value(i, frame, gate, turn)?;
            let there = frame.put_line(name.slot, i, word)?;
            told_in(name, there, turn)
        }
        IndexExpr::Plane(i, j) => {
            let i = coordinate_value(i, frame, gate, turn)?;
            let j = coordinate_value(j, frame, gate, turn)?;
            let there = frame.put_plane(name.slot, i, j, word)?;
            told_in(name, there, turn)
        }
        IndexExpr::Space(i, j, k) => {
            let i = coordinate_value(i, frame, gate, turn)?;
            let j = coordinate_value(j, frame, gate, turn)?;
            let k = coordinate_value(k, frame, gate, turn)?;
            let there = frame.put_space(name.slot, i, j, k, word)?;
            told_in(name, there, turn)
        }
        IndexExpr::Tuple(tuple) => {
            let index = frame.tuple(*tuple);
            let there = frame.put(name.slot, index, word)?;
            told_in(name, there, turn)
        }
    }
}

// The same, whose fault has its turn.
#[inline(always)]
fn put_at<G: Team>(
    name: &ArrayName<'_>,
    t: &IndexExpr<'_>,
    word: i64,
    frame: &mut Frame<G::Kept>,
    gate: &G,
) -> Result<(), RunStop>
    requires ready { G.is_ready gate.now }
    ensures ends { Gives (MayRefuseSome (G.may_refuse gate.now)) (λ v. frame.new.memory) result
        (with_ok (values_of frame.old.limits in_memory (index_exprs t.now) frame.old.memory)
        (λ vs. put_memory name.now.at.now name.now.slot (index_of vs) word frame.old.memory)) }
    ensures limits { frame.new.limits ≡ frame.old.limits }
{
    let mut turn = Turn::Absent;
    match put_word(name, t, word, frame, gate, &mut turn) {
        Ok(()) => Ok(()),
        Err(alarm) => Err(RunStop::of(alarm, &turn)),
    }
}

/// An assignment to an element: the right side, then the indices, then the change.
///
/// # Errors
/// The fault of a part; `F1` at the array's name; `F2` at the operator; or out of memory.
#[inline(always)]
pub fn set_element<G: Team>(
    name: &ArrayName<'_>,
    t: &IndexExpr<'_>,
    op: Assign,
    sign: &Spot,
    e: &IntExpr<'_>,
    frame: &mut Frame<G::Kept>,
    gate: &G,
) -> Result<(), RunStop>
    requires ready { G.is_ready gate.now }
    ensures ends { (done : Deeds)
        → RunsTo (MayRefuseSome (G.may_refuse gate.now)) result frame.new.memory done
        (exec frame.old.limits in_memory (element_set (array_leaf IntKind name.now) t.now op sign.now (int_view e.now)) frame.old.memory done) }
    ensures limits { frame.new.limits ≡ frame.old.limits }
{
    let value = int_value(e, frame, gate)?;
    if replaces(op) {
        return put_at(name, t, value, frame, gate);
    }
    let index = index_value(t, frame, gate)?;
    combine(name, op, sign, index, value, frame)
}

/// The same of an element that is a truth value.
///
/// # Errors
/// The fault of a part; `F1` at the array's name; or out of memory.
#[inline(always)]
pub fn set_truth_element<G: Team>(
    name: &ArrayName<'_>,
    t: &IndexExpr<'_>,
    e: &BoolExpr<'_>,
    frame: &mut Frame<G::Kept>,
    gate: &G,
) -> Result<(), RunStop>
    requires ready { G.is_ready gate.now }
    ensures ends { (done : Deeds)
        → RunsTo (MayRefuseSome (G.may_refuse gate.now)) result frame.new.memory done
        (exec frame.old.limits in_memory (element_set (array_leaf BoolKind name.now) t.now Set nowhere (truth_view e.now)) frame.old.memory done) }
    ensures limits { frame.new.limits ≡ frame.old.limits }
{
    let value = truth_value(e, frame, gate)?.get();
    put_at(name, t, word_of(value), frame, gate)
}
