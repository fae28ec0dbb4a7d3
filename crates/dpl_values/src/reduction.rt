// Reductions: the values of a promoted expression at all indices of its domain, put together by a team that has workers, and else in their
// order by the loop of reductions. The domain and the map are those of the first whole array in the expression.

ghost use Rattle.std.specs.Prelude.{◌≡◌, ◌⊎◌, Some, Result};
ghost use Rattle.dpl_language.specs.Values.{Value, Fault, Index as IndexValue, Int, Truth as TruthValue};
ghost use Rattle.dpl_language.specs.Expressions.{fold_over};
ghost use Rattle.dpl_memory.specs.Memory.{array_at};
ghost use Rattle.dpl_nodes.specs.Typed.{int_fold_view, truth_fold_view};
ghost use Rattle.dpl_frame.specs.Frames.{owned_by};
ghost use Rattle.dpl_frame.specs.Faults.{Tells};
ghost use Rattle.dpl_loop.specs.Entries.{MayRefuse};
ghost use Rattle.dpl_loop.specs.Values.{AnswersTell, MayAnswerRefused, HoldsStrip, StripsTell};
ghost use Rattle.dpl_values.specs.Reductions.{MayRefuseReduction, EachInInts, EachInTruths};
ghost use Rattle.dpl_values.specs.Meanings.{int_at, truth_at};
ghost use Rattle.dpl_values.specs.Teams.{TellsInts, TellsTruths};

use crate::budget::within_turns;
use crate::fold::{combined_ints, combined_truths, int_over_none, truth_over_none};
use crate::promoted::{int_array, operand, promoted_truth_value, truth_array};
use crate::team::Team;
use dpl_domain::Index;
use dpl_frame::{Alarm, Arrays, Frame, Truth, Turn};
use dpl_loop::{Gate, Operator, Row, Strip, reduce, reduce_ints};
use dpl_nodes::{IntFold, PromotedInt, PromotedTruth, Spot, TruthFold};

/// An operator on ints.
#[derive(Clone, Copy)]
pub struct Ints {
    pub fold: IntFold,
}

impl Operator for Ints {
    type Item = i64;

    ghost value = { Int };

    ghost op = { λ o. int_fold_view o.fold };

    #[inline(always)]
    fn over_none(&self) -> i64 {
        int_over_none(self.fold)
    }

    #[inline(always)]
    fn combined(&self, a: i64, b: i64) -> i64 {
        combined_ints(self.fold, a, b)
    }
}

// An operator on truth values. All of them are looked at, whatever the first are.
#[derive(Clone, Copy)]
struct Truths {
    fold: TruthFold,
}

impl Operator for Truths {
    type Item = Truth;

    ghost value = { TruthValue };

    ghost op = { λ o. truth_fold_view o.fold };

    #[inline(always)]
    fn over_none(&self) -> Truth {
        Truth::new(truth_over_none(self.fold))
    }

    #[inline(always)]
    fn combined(&self, a: Truth, b: Truth) -> Truth {
        Truth::new(combined_truths(self.fold, a.get(), b.get()))
    }
}

// The items at the indices of the array in a slot put together; its map tells who enters.
#[inline(always)]
fn folded<A: Arrays, O: Operator, F: Fn(Index, &mut Turn) -> Result<O::Item, Alarm>, G: Gate>(
    operator: &O,
    slot: usize,
    frame: &Frame<A>,
    item_at: F,
    gate: &G,
    turn: &mut Turn,
) -> Result<O::Item, Alarm>
    requires { F.IsAlwaysCallable item_at }
    ensures { (meaning : IndexValue → Result Value Fault) → AnswersTell O.value (F.post item_at) meaning
        → Tells (MayRefuse (G.may_refuse gate.now) (owned_by frame.now slot) (array_at slot frame.now.memory).ranges ⊎ MayAnswerRefused
        (F.post item_at)) O.value turn.new result (fold_over (O.op operator.now) meaning (array_at slot frame.now.memory).ranges) }
{
    let map = frame.owner(slot);
    reduce(
        operator,
        frame.array_domain(slot),
        &map,
        item_at,
        gate,
        turn,
    )
}

// The same of ints, several of which may be evaluated at once.
#[inline(always)]
fn folded_ints<
    A: Arrays,
    F: Fn(Index, &mut Turn) -> Result<i64, Alarm>,
    S: Fn(Row) -> Strip,
    G: Gate,
>(
    operator: &Ints,
    slot: usize,
    frame: &Frame<A>,
    item_at: F,
    strip_at: S,
    gate: &G,
    turn: &mut Turn,
) -> Result<i64, Alarm>
    requires items { F.IsAlwaysCallable item_at }
    requires strips { S.IsAlwaysCallable strip_at }
    ensures { (meaning : IndexValue → Result Value Fault) → AnswersTell Int (F.post item_at) meaning → StripsTell Int (S.post strip_at) meaning
        → Tells (MayRefuse (G.may_refuse gate.now) (owned_by frame.now slot) (array_at slot frame.now.memory).ranges ⊎ MayAnswerRefused
        (F.post item_at)) Int turn.new result (fold_over (int_fold_view operator.now.fold) meaning (array_at slot frame.now.memory).ranges) }
{
    let domain = frame.array_domain(slot);
    reduce_ints(
        operator,
        domain,
        &frame.owner(slot),
        item_at,
        strip_at,
        gate,
        turn,
    )
}

/// The ints of a promoted int put together. Without a whole array in it, which no checked program reduces, there are none.
///
/// # Errors
/// `F5` at `reduce` for more indices than the budget, before the first is looked at; the fault of an index, in its turn; or the
/// gate refused the entry of an index's owner. No gate is asked for the value at an index.
#[cycle(walk)]
#[inline(never)]
pub(crate) fn reduced_int<G: Team>(
    fold: IntFold,
    e: &PromotedInt<'_>,
    at: &Spot,
    frame: &Frame<G::Kept>,
    gate: &G,
    turn: &mut Turn,
) -> Result<i64, Alarm>
    requires ready { G.is_ready gate.now }
    ensures { TellsInts (G.may_refuse gate.now) frame.now fold e.now at.now turn.new result }
{
    if let Some(reduced) = gate.reduced_int(fold, e, at, frame, turn) {
        return reduced;
    }
    reduced_int_here(fold, e, at, frame, gate, turn)
}

// The same by whoever walks.
#[cycle(walk)]
#[inline(never)]
fn reduced_int_here<G: Team>(
    fold: IntFold,
    e: &PromotedInt<'_>,
    at: &Spot,
    frame: &Frame<G::Kept>,
    gate: &G,
    turn: &mut Turn,
) -> Result<i64, Alarm>
    requires ready { G.is_ready gate.now }
    ensures { TellsInts (G.may_refuse gate.now) frame.now fold e.now at.now turn.new result }
{
    let Some(slot) = int_array(e) else {
        return Ok(int_over_none(fold));
    };
    let domain = frame.array_domain(slot);
    within_turns(&domain, at, frame, turn)?;
    let item_at = |index: Index, turn: &mut Turn| -> Result<i64, Alarm>
        requires { G.is_ready gate.now }
        ensures { Tells (MayRefuseReduction (G.may_refuse gate.entry.now) frame.entry.now (EachInInts e.entry.now)) Int turn.new result
            (int_at frame.entry.now e.entry.now index) }
    { operand(e, &index, frame, gate, turn) };
    let strip_at = |row: Row| -> Strip
        ensures { (result.row ≡ row) × HoldsStrip Int (λ i. int_at frame.entry.now e.entry.now i) result }
    { gate.promoted_strip(e, row, frame) };
    folded_ints(&Ints { fold }, slot, frame, item_at, strip_at, gate, turn)
}

/// The truth values of a promoted truth value put together.
///
/// # Errors
/// As for ints.
#[cycle(truth)]
#[inline(never)]
pub(crate) fn reduced_truth<G: Team>(
    fold: TruthFold,
    e: &PromotedTruth<'_>,
    at: &Spot,
    frame: &Frame<G::Kept>,
    gate: &G,
    turn: &mut Turn,
) -> Result<Truth, Alarm>
    requires ready { G.is_ready gate.now }
    ensures { TellsTruths (G.may_refuse gate.now) frame.now fold e.now at.now turn.new result }
{
    if let Some(reduced) = gate.reduced_truth(fold, e, at, frame, turn) {
        return reduced;
    }
    reduced_truth_here(fold, e, at, frame, gate, turn)
}

// The same by whoever walks.
#[cycle(truth)]
#[inline(never)]
fn reduced_truth_here<G: Team>(
    fold: TruthFold,
    e: &PromotedTruth<'_>,
    at: &Spot,
    frame: &Frame<G::Kept>,
    gate: &G,
    turn: &mut Turn,
) -> Result<Truth, Alarm>
    requires ready { G.is_ready gate.now }
    ensures { TellsTruths (G.may_refuse gate.now) frame.now fold e.now at.now turn.new result }
{
    let Some(slot) = truth_array(e) else {
        return Ok(Truth::new(truth_over_none(fold)));
    };
    let domain = frame.array_domain(slot);
    within_turns(&domain, at, frame, turn)?;
    let item_at = |index: Index, turn: &mut Turn| -> Result<Truth, Alarm>
        requires { G.is_ready gate.now }
        ensures { Tells (MayRefuseReduction (G.may_refuse gate.entry.now) frame.entry.now (EachInTruths e.entry.now)) TruthValue turn.new result
            (truth_at frame.entry.now e.entry.now index) }
    { promoted_truth_value(e, &index, frame, gate, turn) };
    folded(&Truths { fold }, slot, frame, item_at, gate, turn)
}
