// The fold of all indices that a locale owns, where its part is several domains: the whole domain is gone through in its order, and to an index
// of another locale the operator's value over nothing is put. Of a row that is so many of these at once.

ghost use Rattle.std.specs.Prelude.{◌≡◌, Result, ◌⊎◌};
ghost use Rattle.dpl_map.specs.Maps.{owner};
ghost use Rattle.dpl_map.specs.Parts.{part};
ghost use Rattle.dpl_sets.specs.Indices.{indices};
ghost use Rattle.dpl_language.specs.Values.{Value, Fault, Index as IndexValue};
ghost use Rattle.dpl_frame.specs.Faults.{Tells};
ghost use Rattle.dpl_workers.specs.Owned.{owned_value};
ghost use Rattle.dpl_loop.specs.Values.{AnswersTell, MayAnswerRefused, HoldsStrip, StripsTell, MayRefuseAmong};
ghost use Rattle.dpl_loop.specs.Folds.{in_turns, FoldEnds};

use crate::fold_parts::Dealt;
use crate::owned::OwnGate;
use crate::steady::steady;
use dpl_array::Row;
use dpl_domain::{Domain, Index};
use dpl_frame::{Alarm, Turn};
use dpl_loop::{Gate, Operator, STRIP, Strip, fold_strips};
use dpl_map::Map;

// The item of an index, or what the operator gives over nothing.
fn own_item<O: Operator<Item = i64>, F: Fn(Index, &mut Turn) -> Result<i64, Alarm>>(
    operator: &O,
    map: &Map,
    locale: usize,
    item_at: &F,
    index: Index,
    turn: &mut Turn,
) -> Result<i64, Alarm>
    requires { F.IsAlwaysCallable item_at.now }
    ensures { (meaning : IndexValue → Result Value Fault) → AnswersTell O.value (F.post item_at.now) meaning
        → Tells (MayAnswerRefused (F.post item_at.now)) O.value turn.new result
        (owned_value (owner map.now) locale (O.op operator.now) meaning index) }
{
    if map.owner(index) as usize != locale {
        return Ok(operator.over_none());
    }
    match item_at(index, turn) {
        Ok(item) => Ok(item),
        Err(alarm) => Err(alarm),
    }
}

// The ints at a row's first indices, as many as surely have one owner.
fn own_strip<O: Operator<Item = i64>, S: Fn(Row) -> Strip>(
    operator: &O,
    map: &Map,
    locale: usize,
    strip_at: &S,
    row: Row,
) -> Strip
    requires { S.IsAlwaysCallable strip_at.now }
    ensures row { (meaning : IndexValue → Result Value Fault) → StripsTell O.value (S.post strip_at.now) meaning → result.row ≡ row }
    ensures holds { (meaning : IndexValue → Result Value Fault) → StripsTell O.value (S.post strip_at.now) meaning
        → HoldsStrip O.value (owned_value (owner map.now) locale (O.op operator.now) meaning) result }
{
    let size = steady(map, &row, STRIP);
    if map.owner(row.first()) as usize != locale {
        return Strip {
            row,
            words: [operator.over_none(); STRIP],
            size,
        };
    }
    let mut strip = strip_at(row);
    strip.size = strip.size.min(size);
    strip
}

/// The ints at all indices that a locale owns put together, in the order of the whole domain.
///
/// # Errors
/// As for [`reduce`](dpl_loop::reduce).
pub(crate) fn fold_owned<
    O: Operator<Item = i64>,
    F: Fn(Index, &mut Turn) -> Result<i64, Alarm>,
    S: Fn(Row) -> Strip,
    G: Gate,
>(
    operator: &O,
    dealt: &Dealt<'_, G>,
    whole: &Domain,
    locale: usize,
    item_at: &F,
    strip_at: &S,
    turn: &mut Turn,
) -> Result<i64, Alarm>
    requires items { F.IsAlwaysCallable item_at.now }
    requires strips { S.IsAlwaysCallable strip_at.now }
    ensures { (meaning : IndexValue → Result Value Fault) → AnswersTell O.value (F.post item_at.now) meaning
        → StripsTell O.value (S.post strip_at.now) meaning
        → FoldEnds (MayRefuseAmong (G.may_refuse dealt.now.gate.now) dealt.now.map.now (indices whole.now) ⊎ MayAnswerRefused (F.post item_at.now))
        O.value (O.op operator.now) (in_turns meaning) (part whole.now dealt.now.map.now locale) turn.new result }
{
    let map = dealt.map;
    let item = |index: Index, turn: &mut Turn| -> Result<i64, Alarm>
        requires { F.IsAlwaysCallable item_at.now }
        ensures { (meaning : IndexValue → Result Value Fault) → AnswersTell O.value (F.post item_at.entry.now) meaning
            → Tells (MayAnswerRefused (F.post item_at.entry.now)) O.value turn.new result
            (owned_value (owner map.entry.now) locale (O.op operator.entry.now) meaning index) }
    { own_item(operator, map, locale, item_at, index, turn) };
    let strip = |row: Row| -> Strip
        requires { S.IsAlwaysCallable strip_at.now }
        ensures { (meaning : IndexValue → Result Value Fault) → StripsTell O.value (S.post strip_at.entry.now) meaning → (result.row ≡ row)
            × HoldsStrip O.value (owned_value (owner map.entry.now) locale (O.op operator.entry.now) meaning) result }
    { own_strip(operator, map, locale, strip_at, row) };
    let gate = OwnGate {
        gate: dealt.gate,
        locale,
    };
    fold_strips(operator, whole, map, &item, &strip, &gate, turn)
}
