// Reductions by workers: one for each locale whose part of the domain isn't empty. A level starts the worker of a locale, goes down for the
// locales behind it, then joins the worker and puts the two ends together. Where no thread can be made, the caller folds the part.

ghost use Rattle.std.specs.Prelude.{◌≡◌, ◌-◌, ◌⊎◌, length, Result, IfOk, IfSome};
ghost use Rattle.dpl_sets.specs.Indices.{indices};
ghost use Rattle.dpl_language.specs.Values.{Value, Fault, Index as IndexValue};
ghost use Rattle.dpl_language.specs.Expressions.{fold_over};
ghost use Rattle.dpl_frame.specs.Faults.{Tells};
ghost use Rattle.dpl_loop.specs.Entries.{MayRefuse};
ghost use Rattle.dpl_loop.specs.Values.{AnswersTell, MayAnswerRefused, StripsTell, MayRefuseAmong};
ghost use Rattle.dpl_workers.specs.PartFolds.{FoldsTell, MayEndRefused};
ghost use Rattle.dpl_workers.specs.Parts.{AreParts, indices_of};
ghost use Rattle.dpl_loop.specs.Folds.{in_turns, FoldEnds};
ghost use Rattle.dpl_workers.specs.PartFolds.{PartsEnd, parts_ran, ArePartOperands};

use crate::ended::{Ended, both};
use crate::fold_owned::fold_owned;
use crate::part::PartGate;
use crate::parts::{Part, parts};
use crate::plan::serve;
use crate::words::{OnWords, Words};
use dpl_array::Row;
use dpl_contents::DomainWord;
use dpl_domain::{Domain, Index};
use dpl_frame::{Alarm, Turn};
use dpl_loop::{Gate, Operator, Strip, fold_strips};
use dpl_map::Map;
use std::alloc::Global;
use std::thread::{self, Threads};

/// A domain, the map by which it is dealt out, and the gate that is asked for its indices.
#[derive(Drop)]
pub struct Dealt<'a, G> {
    pub over: DomainWord,
    pub map: &'a Map,
    pub gate: &'a G,
}

// What the items of a part come to.
fn fold_part<
    O: Operator<Item = i64>,
    F: Fn(Index, &mut Turn) -> Result<i64, Alarm>,
    S: Fn(Row) -> Strip,
    G: Gate,
>(
    operator: &O,
    dealt: &Dealt<'_, G>,
    whole: &Domain,
    part: Part,
    locale: usize,
    item_at: &F,
    strip_at: &S,
) -> Ended
    requires items { F.IsAlwaysCallable item_at.now }
    requires strips { S.IsAlwaysCallable strip_at.now }
    ensures { (meaning : IndexValue → Result Value Fault) → AnswersTell O.value (F.post item_at.now) meaning
        → StripsTell O.value (S.post strip_at.now) meaning
        → FoldEnds (MayRefuseAmong (G.may_refuse dealt.now.gate.now) dealt.now.map.now (indices whole.now) ⊎ MayAnswerRefused (F.post item_at.now))
        O.value (O.op operator.now) (in_turns meaning) (indices_of part whole.now dealt.now.map.now locale) result.turn result.item }
{
    let mut turn = Turn::Absent;
    let item = match part {
        Part::Sole(part) => {
            let gate = PartGate {
                gate: dealt.gate,
                part: &part,
                whole,
            };
            fold_strips(
                operator, &part, dealt.map, item_at, strip_at, &gate, &mut turn,
            )
        }
        Part::Owned => fold_owned(operator, dealt, whole, locale, item_at, strip_at, &mut turn),
    };
    Ended { item, turn }
}

// What the workers of a reduction share. What folds a part is one function here, since calls in a cycle take none with a reference.
#[derive(Drop)]
struct Shared<'a, W, P> {
    operator: &'a W,
    whole: &'a Domain,
    map: &'a Map,
    parts: &'a [Option<Part>],
    fold: &'a P,
}

// What the parts of the locales from one on come to together.
fn spread<R: Threads + Sync, W: OnWords + Sync, P: Fn(Part, usize) -> Ended + Sync>(
    rt: &R,
    shared: &Shared<'_, W, P>,
    locale: usize,
) -> Ended
    requires folds { P.IsAlwaysCallable shared.now.fold.now }
    requires parts { AreParts shared.now.whole.now shared.now.map.now shared.now.parts.now }
    ensures { (meaning : IndexValue → Result Value Fault) → FoldsTell W.value (W.op shared.now.operator.now) meaning
        shared.now.whole.now shared.now.map.now (P.post shared.now.fold.now)
        → PartsEnd (MayEndRefused (P.post shared.now.fold.now)) W.value (indices shared.now.whole.now)
        (parts_ran (W.op shared.now.operator.now) (in_turns meaning) shared.now.whole.now shared.now.map.now locale
        (length shared.now.parts.now - locale))
        (ArePartOperands (W.op shared.now.operator.now) (in_turns meaning) shared.now.whole.now shared.now.map.now locale
        (length shared.now.parts.now - locale)) result.turn result.item }
{
    let Some(part) = shared.parts.get(locale) else {
        return Ended::none(shared.operator);
    };
    let Some(part) = part else {
        let behind = spread(rt, shared, locale + 1);
        return both(
            shared.operator,
            shared.whole,
            Ended::none(shared.operator),
            behind,
        );
    };
    let own = move || -> Ended
        requires { P.IsAlwaysCallable shared.now.fold.now }
        ensures { P.post shared.entry.now.fold.now part.entry.now locale result }
    { (shared.fold)(*part, locale) };
    let next = locale + 1;
    let others = move || -> Ended
        requires folds { P.IsAlwaysCallable shared.now.fold.now }
        requires parts { AreParts shared.now.whole.now shared.now.map.now shared.now.parts.now }
        ensures { (meaning : IndexValue → Result Value Fault)
            → FoldsTell W.value (W.op shared.entry.now.operator.now) meaning shared.entry.now.whole.now shared.entry.now.map.now
            (P.post shared.entry.now.fold.now)
            → PartsEnd (MayEndRefused (P.post shared.entry.now.fold.now)) W.value (indices shared.entry.now.whole.now)
            (parts_ran (W.op shared.entry.now.operator.now) (in_turns meaning) shared.entry.now.whole.now shared.entry.now.map.now next
            (length shared.entry.now.parts.now - next))
            (ArePartOperands (W.op shared.entry.now.operator.now) (in_turns meaning) shared.entry.now.whole.now shared.entry.now.map.now next
            (length shared.entry.now.parts.now - next)) result.turn result.item }
    { spread(rt, shared, next) };
    let (first, behind) = thread::join(rt, own, others);
    both(shared.operator, shared.whole, first, behind)
}

/// The ints of a domain's indices put together, as [`reduce_ints`](dpl_loop::reduce_ints) does it: by workers, one for each locale whose part
/// of the domain isn't empty, where they serve, and else by the caller. All workers are joined before it answers. Where no thread can be
/// made for a part, the caller folds it.
///
/// # Errors
/// The first of these that came up in a part: out of memory; the gate refused the entry of an index's owner, which it may, or an item's own
/// walk was refused; or the fault of the first index whose item has one, in the turn of that index.
pub fn reduce_by_workers<
    R: Threads + Sync,
    O: Operator<Item = i64> + Sync,
    F: Fn(Index, &mut Turn) -> Result<i64, Alarm> + Sync,
    S: Fn(Row) -> Strip + Sync,
    G: Gate + Sync,
>(
    rt: &R,
    alloc: Global,
    operator: &O,
    dealt: &Dealt<'_, G>,
    item_at: F,
    strip_at: S,
    turn: &mut Turn,
) -> Result<i64, Alarm>
    requires items { F.IsAlwaysCallable item_at }
    requires strips { S.IsAlwaysCallable strip_at }
    ensures { (meaning : IndexValue → Result Value Fault) → AnswersTell O.value (F.post item_at) meaning → StripsTell O.value (S.post strip_at) meaning
        → Tells (MayRefuse (G.may_refuse dealt.now.gate.now) dealt.now.map.now dealt.now.over ⊎ MayAnswerRefused (F.post item_at)) O.value
        turn.new result (fold_over (O.op operator.now) meaning dealt.now.over) }
{
    let whole = dealt.over.domain();
    if !serve(&whole, dealt.map, dealt.gate) {
        return fold_strips(
            operator, &whole, dealt.map, &item_at, &strip_at, dealt.gate, turn,
        );
    }
    let Ok(parts) = parts(alloc, dealt.map, &whole) else {
        return Err(Alarm::out_of_memory());
    };
    let fold = |part: Part, locale: usize| -> Ended
        requires items { F.IsAlwaysCallable item_at }
        requires strips { S.IsAlwaysCallable strip_at }
        ensures { (meaning : IndexValue → Result Value Fault) → AnswersTell O.value (F.post item_at) meaning → StripsTell O.value (S.post strip_at) meaning
            → FoldEnds (MayRefuseAmong (G.may_refuse dealt.entry.now.gate.now) dealt.entry.now.map.now (indices whole) ⊎ MayAnswerRefused (F.post item_at))
            O.value (O.op operator.entry.now) (in_turns meaning) (indices_of part whole dealt.entry.now.map.now locale) result.turn result.item }
    { fold_part(operator, dealt, &whole, part, locale, &item_at, &strip_at) };
    let shared = Shared {
        operator: &Words { operator },
        whole: &whole,
        map: dealt.map,
        parts: &parts,
        fold: &fold,
    };
    let ended = spread(rt, &shared, 0);
    *turn = ended.turn;
    ended.item
}
