// Reductions of ints that are evaluated strip by strip: several indices at once where that is found to serve, and else index by index.
// What is put together, in which order, and which gate is asked is as for `reduce`.

ghost use Rattle.std.specs.Prelude.{◌≡◌, ◌+◌, ◌≤◌, ◌<◌, ◌^◌, ℕ, List, Some, false, Result, ◌⊎◌, drop, length, slice_get, IfOk};
ghost use Rattle.dpl_sets.specs.Indices.{indices};
ghost use Rattle.dpl_array.specs.Elements.{behind};
ghost use Rattle.dpl_language.specs.Values.{Value, Fault, Index as IndexValue};
ghost use Rattle.dpl_language.specs.Expressions.{folded, fold_over};
ghost use Rattle.dpl_frame.specs.Faults.{Tells};
ghost use Rattle.dpl_loop.specs.Entries.{MayRefuse};
ghost use Rattle.dpl_loop.specs.Values.{AnswersTell, MayAnswerRefused, HoldsStrip, StripsTell, GoesOn, MayRefuseAmong};
ghost use Rattle.dpl_loop.specs.Folds.{in_turns, AreOperands, FoldEnds};

use crate::gate::{Gate, enters};
use crate::reduction::{Operator, entered, fold};
use crate::strip::{STRIP, Strip};
use dpl_array::Row;
use dpl_contents::DomainWord;
use dpl_domain::{Domain, Index};
use dpl_frame::{Alarm, Turn};
use dpl_map::Map;

// The fewest ints in the first strip for which others are asked for: one with fewer costs more than it serves.
const FEW: usize = 16;

// Whether the owners of so many indices may enter, from a place on.
fn all_enter<G: Gate>(gate: &G, map: &Map, domain: &Domain, place: u64, size: u64) -> bool
    requires within { place + size ≤ length (indices domain.now) }
    requires fits { place + size < 2 ^ 64 }
    ensures { result ≡ false → MayRefuseAmong (G.may_refuse gate.now) map.now (indices domain.now) }
{
    if gate.is_open() {
        return true;
    }
    for k in place..place + size {
        let Some(index) = domain.nth(k) else {
            unreachable!()
        };
        if !enters(gate, map, index, k) {
            return false;
        }
    }
    true
}

// So many ints of a strip put to what was put together before them.
fn put_together<O: Operator<Item = i64>>(
    operator: &O,
    before: i64,
    strip: &Strip,
    size: usize,
) -> i64
    requires { size ≤ 64 }
    ensures folds { (meaning : IndexValue → Result Value Fault) (ts : List IndexValue) (place : ℕ) → size ≤ strip.now.size
        → HoldsStrip O.value meaning strip.now → ((k : ℕ) → k < size → slice_get ts (place + k) ≡ Some (behind k strip.now.row))
        → folded (O.op operator.now) (in_turns meaning) (drop (place + size) ts) (O.value result)
        ≡ folded (O.op operator.now) (in_turns meaning) (drop place ts) (O.value before) }
    ensures operands { (meaning : IndexValue → Result Value Fault) (ts : List IndexValue) (place : ℕ) → size ≤ strip.now.size
        → HoldsStrip O.value meaning strip.now → ((k : ℕ) → k < size → slice_get ts (place + k) ≡ Some (behind k strip.now.row))
        → AreOperands (O.op operator.now) (in_turns meaning) (drop (place + size) ts)
        → AreOperands (O.op operator.now) (in_turns meaning) (drop place ts) }
{
    let mut so_far = before;
    for k in 0..size {
        so_far = operator.combined(so_far, strip.words[k]);
    }
    so_far
}

// The ints from a place on put to what was put together before it, as many as a strip has in the row of the place, or that of the place alone;
// and the next place.
fn gone_on<
    O: Operator<Item = i64>,
    F: Fn(Index, &mut Turn) -> Result<i64, Alarm>,
    S: Fn(Row) -> Strip,
    G: Gate,
>(
    operator: &O,
    domain: &Domain,
    place: u64,
    before: i64,
    map: &Map,
    item_at: &F,
    strip_at: &S,
    gate: &G,
    turn: &mut Turn,
) -> Result<(i64, u64), Alarm>
    requires place { place < length (indices domain.now) }
    requires small { length (indices domain.now) < 2 ^ 64 }
    requires items { F.IsAlwaysCallable item_at.now }
    requires strips { S.IsAlwaysCallable strip_at.now }
    ensures next { IfOk result (λ r. (place < r.1) × (r.1 ≤ length (indices domain.now))) }
    ensures folds { (meaning : IndexValue → Result Value Fault) → AnswersTell O.value (F.post item_at.now) meaning
        → StripsTell O.value (S.post strip_at.now) meaning
        → GoesOn (MayRefuseAmong (G.may_refuse gate.now) map.now (indices domain.now) ⊎ MayAnswerRefused (F.post item_at.now)) O.value (O.op operator.now)
        (in_turns meaning) (indices domain.now) place before turn.new result }
{
    let Some(index) = domain.nth(place) else {
        unreachable!()
    };
    let (row, left) = Row::of(domain, index, place);
    let strip = strip_at(row);
    let size = strip.size.min(STRIP).min(left as usize);
    if size == 0 {
        let item = entered(item_at, index, place, map, gate, turn)?;
        return Ok((operator.combined(before, item), place + 1));
    }
    if !all_enter(gate, map, domain, place, size as u64) {
        return Err(Alarm::refused());
    }
    Ok((
        put_together(operator, before, &strip, size),
        place + size as u64,
    ))
}

// The ints of a domain's indices put together, as `fold` does it, with what answers for several at once.
pub fn fold_strips<
    O: Operator<Item = i64>,
    F: Fn(Index, &mut Turn) -> Result<i64, Alarm>,
    S: Fn(Row) -> Strip,
    G: Gate,
>(
    operator: &O,
    domain: &Domain,
    map: &Map,
    item_at: &F,
    strip_at: &S,
    gate: &G,
    turn: &mut Turn,
) -> Result<i64, Alarm>
    requires items { F.IsAlwaysCallable item_at.now }
    requires strips { S.IsAlwaysCallable strip_at.now }
    ensures { (meaning : IndexValue → Result Value Fault) → AnswersTell O.value (F.post item_at.now) meaning
        → StripsTell O.value (S.post strip_at.now) meaning
        → FoldEnds (MayRefuseAmong (G.may_refuse gate.now) map.now (indices domain.now) ⊎ MayAnswerRefused (F.post item_at.now)) O.value
        (O.op operator.now) (in_turns meaning) (indices domain.now) turn.new result }
{
    let serves = match domain.nth(0) {
        Some(first) => FEW <= strip_at(Row::of(domain, first, 0).0).size,
        None => false,
    };
    if !serves {
        return fold(operator, domain, map, item_at, gate, turn);
    }
    let mut so_far = operator.over_none();
    let mut place = 0;
    while place < domain.size() {
        (so_far, place) = gone_on(
            operator, domain, place, so_far, map, item_at, strip_at, gate, turn,
        )?;
    }
    Ok(so_far)
}

/// The ints of a domain's indices put together, as [`reduce`](crate::reduce) does it. Beside what answers for one index stands what answers
/// for several: a strip has ints of the first indices of a row, and may have none.
///
/// # Errors
/// As for [`reduce`](crate::reduce).
pub fn reduce_ints<
    O: Operator<Item = i64>,
    F: Fn(Index, &mut Turn) -> Result<i64, Alarm>,
    S: Fn(Row) -> Strip,
    G: Gate,
>(
    operator: &O,
    over: DomainWord,
    map: &Map,
    item_at: F,
    strip_at: S,
    gate: &G,
    turn: &mut Turn,
) -> Result<i64, Alarm>
    requires items { F.IsAlwaysCallable item_at }
    requires strips { S.IsAlwaysCallable strip_at }
    ensures { (meaning : IndexValue → Result Value Fault) → AnswersTell O.value (F.post item_at) meaning → StripsTell O.value (S.post strip_at) meaning
        → Tells (MayRefuse (G.may_refuse gate.now) map.now over ⊎ MayAnswerRefused (F.post item_at)) O.value turn.new result
        (fold_over (O.op operator.now) meaning over) }
{
    let domain = over.domain();
    fold_strips(operator, &domain, map, &item_at, &strip_at, gate, turn)
}
