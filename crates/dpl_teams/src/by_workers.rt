// Reductions of values by workers, over the frames of a program. Within an item no worker is started: a reduction in it, which no checked
// program has, would be made by the item's worker, and ask the same gate.

ghost use Rattle.std.specs.Prelude.{◌≡◌};
ghost use Rattle.dpl_language.specs.Values.{Int};
ghost use Rattle.dpl_words.specs.Words.{is_true};
ghost use Rattle.dpl_nodes.specs.Typed.{truth_fold_view};
ghost use Rattle.dpl_frame.specs.Faults.{Tells};
ghost use Rattle.dpl_loop.specs.Values.{HoldsStrip};
ghost use Rattle.dpl_values.specs.Reductions.{MayRefuseReduction, EachInInts, EachInTruths};
ghost use Rattle.dpl_values.specs.Meanings.{int_at, truth_at};
ghost use Rattle.dpl_values.specs.Teams.{TellsInts, TellsTruths};

use crate::alone::Alone;
use dpl_domain::Index;
use dpl_frame::{Alarm, Frame, Truth, Turn};
use dpl_loop::{Gate, Operator, Row, Strip};
use dpl_nodes::{IntFold, PromotedInt, PromotedTruth, Spot, TruthFold};
use dpl_strips::promoted_strip;
use dpl_values::Ints;
use dpl_values::budget::within_turns;
use dpl_values::fold::{combined_truths, int_over_none, truth_over_none};
use dpl_values::promoted::{int_array, operand, promoted_truth_value, truth_array};
use dpl_workers::{Dealt, reduce_by_workers};
use std::thread::Threads;

// An operator on truth values, each in a word, since a worker hands back words.
#[derive(Clone, Copy)]
struct TruthWords {
    fold: TruthFold,
}

impl Operator for TruthWords {
    type Item = i64;

    ghost value = { is_true };

    ghost op = { λ o. truth_fold_view o.fold };

    #[inline(always)]
    fn over_none(&self) -> i64 {
        i64::from(truth_over_none(self.fold))
    }

    #[inline(always)]
    fn combined(&self, a: i64, b: i64) -> i64 {
        i64::from(combined_truths(self.fold, a != 0, b != 0))
    }
}

/// The ints of a promoted int put together, by workers where they serve. Without a whole array in it, which no checked program reduces,
/// there are none.
///
/// # Errors
/// `F5` at `reduce` for more indices than the budget, before the first is looked at; the fault of an index, in its turn; out of memory; or
/// the gate refused the entry of an index's owner. No gate is asked for the value at an index.
pub fn reduced_int_by_workers<R: Threads + Sync, G: Gate + Sync>(
    rt: &R,
    fold: IntFold,
    e: &PromotedInt<'_>,
    at: &Spot,
    frame: &Frame,
    gate: &G,
    turn: &mut Turn,
) -> Result<i64, Alarm>
    ensures { TellsInts (G.may_refuse gate.now) frame.now fold e.now at.now turn.new result }
{
    let Some(slot) = int_array(e) else {
        return Ok(int_over_none(fold));
    };
    let over = frame.array_domain(slot);
    within_turns(&over, at, frame, turn)?;
    let item_at = |index: Index, turn: &mut Turn| -> Result<i64, Alarm>
        ensures { Tells (MayRefuseReduction (G.may_refuse gate.entry.now) frame.entry.now (EachInInts e.entry.now)) Int turn.new result
            (int_at frame.entry.now e.entry.now index) }
    { operand(e, &index, frame, &Alone::at(gate), turn) };
    let strip_at = |row: Row| -> Strip
        ensures { (result.row ≡ row) × HoldsStrip Int (λ i. int_at frame.entry.now e.entry.now i) result }
    { promoted_strip(e, row, frame) };
    let map = frame.owner(slot);
    let dealt = Dealt {
        over,
        map: &map,
        gate,
    };
    reduce_by_workers(
        rt,
        frame.alloc(),
        &Ints { fold },
        &dealt,
        item_at,
        strip_at,
        turn,
    )
}

/// The truth values of a promoted truth value put together, by workers where they serve.
///
/// # Errors
/// As for ints.
pub fn reduced_truth_by_workers<R: Threads + Sync, G: Gate + Sync>(
    rt: &R,
    fold: TruthFold,
    e: &PromotedTruth<'_>,
    at: &Spot,
    frame: &Frame,
    gate: &G,
    turn: &mut Turn,
) -> Result<Truth, Alarm>
    ensures { TellsTruths (G.may_refuse gate.now) frame.now fold e.now at.now turn.new result }
{
    let Some(slot) = truth_array(e) else {
        return Ok(Truth::new(truth_over_none(fold)));
    };
    let over = frame.array_domain(slot);
    within_turns(&over, at, frame, turn)?;
    let item_at = |index: Index, turn: &mut Turn| -> Result<i64, Alarm>
        ensures { Tells (MayRefuseReduction (G.may_refuse gate.entry.now) frame.entry.now (EachInTruths e.entry.now)) is_true turn.new result
            (truth_at frame.entry.now e.entry.now index) }
    {
        match promoted_truth_value(e, &index, frame, &Alone::at(gate), turn) {
            Ok(truth) => Ok(i64::from(truth.get())),
            Err(alarm) => Err(alarm),
        }
    };
    let strip_at = |row: Row| -> Strip
        ensures { (result.row ≡ row) × (result.size ≡ 0) }
    { Strip::none(row) };
    let map = frame.owner(slot);
    let dealt = Dealt {
        over,
        map: &map,
        gate,
    };
    match reduce_by_workers(
        rt,
        frame.alloc(),
        &TruthWords { fold },
        &dealt,
        item_at,
        strip_at,
        turn,
    ) {
        Ok(word) => Ok(Truth::new(word != 0)),
        Err(alarm) => Err(alarm),
    }
}
