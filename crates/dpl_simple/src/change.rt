// Declarations and assignments: a right side is evaluated, and its value goes into a slot.
// They print nothing and take no memory.

ghost use Rattle.std.specs.Prelude.{◌≡◌, Ok, IfSome, option_map};
ghost use Rattle.dpl_language.specs.Values.{Int};
ghost use Rattle.dpl_lowered.specs.Shapes.{nowhere};
ghost use Rattle.dpl_language.specs.Tree.{One, SetDivide, SetRemainder, SetReduce};
ghost use Rattle.dpl_words.specs.Words.{IntLeaf};
ghost use Rattle.dpl_memory.specs.Memory.{PlainKind, int_leaf, truth_leaf, range_leaf, with_value_in, in_memory};
ghost use Rattle.dpl_nodes.specs.Typed.{int_view, truth_view, range_item};
ghost use Rattle.dpl_loop.specs.Entries.{MayRefuseSome};
ghost use Rattle.dpl_loop.specs.Values.{Gives};
ghost use Rattle.dpl_elements.specs.Changes.{declared_memory, given_memory, assigned_memory, int_given, int_put, int_memory, truth_memory, updated_by, memory_after};

use crate::reduce::{reduced_int, reduced_truth};
use dpl_arithmetic::number::{difference, product, quotient, remainder, sum};
use dpl_frame::{Arrays, FaultCode, Frame, Trap};
use dpl_loop::RunStop;
use dpl_loop::stop::told;
use dpl_nodes::{BoolExpr, IntDeed, IntExpr, RangeExpr, Spot, TruthDeed};
use dpl_values::{Team, direct_int, int_value, range_value, truth_value};

// A truth value's.
fn declare_truth<G: Team>(
    slot: usize,
    e: &BoolExpr<'_>,
    frame: &mut Frame<G::Kept>,
    gate: &G,
) -> Result<(), RunStop>
    requires ready { G.is_ready gate.now }
    ensures memory { Gives (MayRefuseSome (G.may_refuse gate.now)) (λ v. frame.new.memory) result
        (declared_memory frame.old.limits (truth_leaf slot) (One (truth_view e.now)) frame.old.memory) }
    ensures limits { frame.new.limits ≡ frame.old.limits }
{
    let value = truth_value(e, frame, gate)?.get();
    frame.set_number(slot, i64::from(value));
    Ok(())
}

/// A range's.
#[inline(always)]
pub(crate) fn declare_range<G: Team>(
    slot: usize,
    e: &RangeExpr<'_>,
    frame: &mut Frame<G::Kept>,
    gate: &G,
) -> Result<(), RunStop>
    requires ready { G.is_ready gate.now }
    ensures memory { Gives (MayRefuseSome (G.may_refuse gate.now)) (λ v. frame.new.memory) result
        (declared_memory frame.old.limits (range_leaf slot) (range_item e.now) frame.old.memory) }
    ensures limits { frame.new.limits ≡ frame.old.limits }
{
    let value = range_value(e, frame, gate)?;
    frame.set_range(slot, value);
    Ok(())
}

// A `config const` that is a truth value.
fn config_truth<G: Team>(
    slot: usize,
    e: &BoolExpr<'_>,
    frame: &mut Frame<G::Kept>,
    gate: &G,
) -> Result<(), RunStop>
    requires ready { G.is_ready gate.now }
    ensures memory { Gives (MayRefuseSome (G.may_refuse gate.now)) (λ v. frame.new.memory) result
        (given_memory frame.old.limits (truth_leaf slot) (One (truth_view e.now)) (in_memory.given (truth_leaf slot) frame.old.memory) frame.old.memory) }
    ensures limits { frame.new.limits ≡ frame.old.limits }
{
    match frame.given(slot) {
        None => declare_truth(slot, e, frame, gate),
        Some(number) => {
            frame.set_number(slot, i64::from(number != 0));
            Ok(())
        }
    }
}

// What the command line gives to an int, if it is declared so.
#[inline(always)]
fn given<A: Arrays>(deed: &IntDeed<'_>, slot: usize, frame: &Frame<A>) -> Option<i64>
    ensures { option_map Int result ≡ int_given deed.now slot frame.now.memory }
{
    match deed {
        IntDeed::Config => frame.given(slot),
        IntDeed::Declare => None,
        IntDeed::Set => None,
        IntDeed::Add => None,
        IntDeed::Subtract => None,
        IntDeed::Multiply => None,
        IntDeed::Divide(_) => None,
        IntDeed::Remainder(_) => None,
        IntDeed::Reduce => None,
    }
}

// `/=`
fn divide<A: Arrays>(slot: usize, at: &Spot, value: i64, frame: &mut Frame<A>) -> Result<(), Trap>
    ensures memory { updated_by (int_leaf slot) SetDivide at.now (Int value) frame.old.memory ≡ memory_after result frame.new.memory }
    ensures limits { frame.new.limits ≡ frame.old.limits }
{
    if value == 0 {
        return Err(Trap::new(FaultCode::ZeroDivisor, *at));
    }
    frame.set_number(slot, quotient(frame.number(slot), value));
    Ok(())
}

// `%=`
fn rest<A: Arrays>(slot: usize, at: &Spot, value: i64, frame: &mut Frame<A>) -> Result<(), Trap>
    ensures memory { updated_by (int_leaf slot) SetRemainder at.now (Int value) frame.old.memory ≡ memory_after result frame.new.memory }
    ensures limits { frame.new.limits ≡ frame.old.limits }
{
    if value == 0 {
        return Err(Trap::new(FaultCode::ZeroDivisor, *at));
    }
    frame.set_number(slot, remainder(frame.number(slot), value));
    Ok(())
}

// `reduce=`
#[inline(never)]
fn reduce_int<A: Arrays>(slot: usize, value: i64, frame: &mut Frame<A>)
    ensures memory { updated_by (int_leaf slot) SetReduce nowhere (Int value) frame.old.memory ≡ Ok frame.new.memory }
    ensures limits { frame.new.limits ≡ frame.old.limits }
{
    let number = reduced_int(frame.operator(slot), frame.number(slot), value);
    frame.set_number(slot, number);
}

// A value goes into an int, or into what an operator makes of it.
#[inline(always)]
fn put<A: Arrays>(
    deed: &IntDeed<'_>,
    slot: usize,
    value: i64,
    frame: &mut Frame<A>,
) -> Result<(), Trap>
    ensures memory { int_put deed.now slot (Int value) frame.old.memory ≡ memory_after result frame.new.memory }
    ensures limits { frame.new.limits ≡ frame.old.limits }
{
    match deed {
        IntDeed::Declare => frame.set_number(slot, value),
        IntDeed::Config => frame.set_number(slot, value),
        IntDeed::Set => frame.set_number(slot, value),
        IntDeed::Add => frame.set_number(slot, sum(frame.number(slot), value)),
        IntDeed::Subtract => frame.set_number(slot, difference(frame.number(slot), value)),
        IntDeed::Multiply => frame.set_number(slot, product(frame.number(slot), value)),
        IntDeed::Divide(at) => return divide(slot, at, value, frame),
        IntDeed::Remainder(at) => return rest(slot, at, value, frame),
        IntDeed::Reduce => reduce_int(slot, value, frame),
    }
    Ok(())
}

/// The number that an int has after what is done to it, where that is found directly: its right side is, and nothing has a fault. A
/// `config const` and `reduce=` are never done so, nor a division by zero.
#[inline(always)]
pub(crate) fn direct_number<A: Arrays>(
    deed: &IntDeed<'_>,
    slot: usize,
    e: &IntExpr<'_>,
    frame: &Frame<A>,
) -> Option<i64>
    ensures { IfSome result (λ n. int_memory frame.now.limits deed.now slot (One (int_view e.now)) frame.now.memory
        ≡ Ok (with_value_in (PlainKind IntLeaf) slot (Int n) frame.now.memory)) }
{
    let value = direct_int(e, frame)?;
    match deed {
        IntDeed::Declare => Some(value),
        IntDeed::Set => Some(value),
        IntDeed::Add => Some(sum(frame.number(slot), value)),
        IntDeed::Subtract => Some(difference(frame.number(slot), value)),
        IntDeed::Multiply => Some(product(frame.number(slot), value)),
        IntDeed::Divide(_) if value != 0 => Some(quotient(frame.number(slot), value)),
        IntDeed::Remainder(_) if value != 0 => Some(remainder(frame.number(slot), value)),
        _ => None,
    }
}

// `reduce=` to a truth value
fn reduce_truth<G: Team>(
    slot: usize,
    e: &BoolExpr<'_>,
    frame: &mut Frame<G::Kept>,
    gate: &G,
) -> Result<(), RunStop>
    requires ready { G.is_ready gate.now }
    ensures memory { Gives (MayRefuseSome (G.may_refuse gate.now)) (λ v. frame.new.memory) result
        (assigned_memory frame.old.limits (truth_leaf slot) SetReduce nowhere (One (truth_view e.now)) frame.old.memory) }
    ensures limits { frame.new.limits ≡ frame.old.limits }
{
    let value = truth_value(e, frame, gate)?.get();
    let number = reduced_truth(frame.operator(slot), frame.number(slot) != 0, value);
    frame.set_number(slot, number);
    Ok(())
}

/// What is done to an int: its right side is evaluated in one place, whatever is done with the value.
#[inline(always)]
pub(crate) fn change_int<G: Team>(
    deed: &IntDeed<'_>,
    slot: usize,
    e: &IntExpr<'_>,
    frame: &mut Frame<G::Kept>,
    gate: &G,
) -> Result<(), RunStop>
    requires ready { G.is_ready gate.now }
    ensures memory { Gives (MayRefuseSome (G.may_refuse gate.now)) (λ v. frame.new.memory) result
        (int_memory frame.old.limits deed.now slot (One (int_view e.now)) frame.old.memory) }
    ensures limits { frame.new.limits ≡ frame.old.limits }
{
    if let Some(number) = given(deed, slot, frame) {
        frame.set_number(slot, number);
        return Ok(());
    }
    let value = int_value(e, frame, gate)?;
    told(put(deed, slot, value, frame))
}

/// What is done to a truth value.
#[inline(always)]
pub(crate) fn change_truth<G: Team>(
    deed: TruthDeed,
    slot: usize,
    e: &BoolExpr<'_>,
    frame: &mut Frame<G::Kept>,
    gate: &G,
) -> Result<(), RunStop>
    requires ready { G.is_ready gate.now }
    ensures memory { Gives (MayRefuseSome (G.may_refuse gate.now)) (λ v. frame.new.memory) result
        (truth_memory frame.old.limits deed slot (One (truth_view e.now)) frame.old.memory) }
    ensures limits { frame.new.limits ≡ frame.old.limits }
{
    match deed {
        TruthDeed::Declare => declare_truth(slot, e, frame, gate),
        TruthDeed::Config => config_truth(slot, e, frame, gate),
        TruthDeed::Set => declare_truth(slot, e, frame, gate),
        TruthDeed::Reduce => reduce_truth(slot, e, frame, gate),
    }
}
