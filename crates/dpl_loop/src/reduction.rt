// Reductions: the values at all indices of a domain are put together in their order. Each index asks the gate first, unless it is open:
// a worker enters for an index as the locale that owns it.

ghost use Rattle.std.specs.Prelude.{◌≡◌, Result, ◌⊎◌};
ghost use Rattle.dpl_sets.specs.Indices.{indices};
ghost use Rattle.dpl_language.specs.Tree.{Op};
ghost use Rattle.dpl_language.specs.Values.{Value, Fault, Index as IndexValue};
ghost use Rattle.dpl_language.specs.Arithmetic.{combined as combined_of, unit_of};
ghost use Rattle.dpl_language.specs.Outcome.{naming_value};
ghost use Rattle.dpl_language.specs.Expressions.{fold_over};
ghost use Rattle.dpl_map.specs.Maps.{owner};
ghost use Rattle.dpl_apart.specs.Operands.{IsOperand};
ghost use Rattle.dpl_frame.specs.Faults.{Tells};
ghost use Rattle.dpl_loop.specs.Entries.{MayRefuse};
ghost use Rattle.dpl_loop.specs.Values.{AnswersTell, MayAnswerRefused, MayRefuseAmong};
ghost use Rattle.dpl_loop.specs.Folds.{in_turns, FoldEnds};

use crate::gate::{Gate, enters};
use dpl_contents::DomainWord;
use dpl_domain::{Domain, Index};
use dpl_frame::{Alarm, Turn};
use dpl_map::Map;

/// The operator of a reduction, on values of one type.
pub trait Operator {
    /// What it takes and gives.
    type Item: Copy;

    // What an item stands for, and which operator it is.
    ghost value: { Self.Item → Value };

    ghost op: { Self → Op };

    /// What the operator gives over nothing.
    fn over_none(&self) -> Self::Item
        ensures { value result ≡ unit_of (op self.now) };

    /// Two items put together, of which the second is an operand: what the operator gives over nothing adds nothing to it.
    fn combined(&self, a: Self::Item, b: Self::Item) -> Self::Item
        ensures combined { value result ≡ combined_of (op self.now) (value a) (value b) }
        ensures operand { IsOperand (op self.now) (value b) };
}

// The item of an index. Its fault names it.
#[inline(always)]
pub(crate) fn named<V, F: Fn(Index, &mut Turn) -> Result<V, Alarm>>(
    item_at: &F,
    index: Index,
    turn: &mut Turn,
) -> Result<V, Alarm>
    requires { F.IsAlwaysCallable item_at.now }
    ensures { (value : V → Value) (meaning : IndexValue → Result Value Fault) → AnswersTell value (F.post item_at.now) meaning
        → Tells (MayAnswerRefused (F.post item_at.now)) value turn.new result (naming_value index (meaning index)) }
{
    match item_at(index, turn) {
        Ok(item) => Ok(item),
        Err(alarm) => {
            *turn = Turn::of(index);
            Err(alarm)
        }
    }
}

// The item of an index at a place, once its owner has entered.
#[inline(always)]
pub(crate) fn entered<V, F: Fn(Index, &mut Turn) -> Result<V, Alarm>, G: Gate>(
    item_at: &F,
    index: Index,
    place: u64,
    map: &Map,
    gate: &G,
    turn: &mut Turn,
) -> Result<V, Alarm>
    requires { F.IsAlwaysCallable item_at.now }
    ensures { (value : V → Value) (meaning : IndexValue → Result Value Fault) → AnswersTell value (F.post item_at.now) meaning
        → Tells (G.may_refuse gate.now (owner map.now index) place ⊎ MayAnswerRefused (F.post item_at.now)) value turn.new result
        (naming_value index (meaning index)) }
{
    if !enters(gate, map, index, place) {
        return Err(Alarm::refused());
    }
    named(item_at, index, turn)
}

// The items of a domain's indices put together, in their order.
pub(crate) fn fold<O: Operator, F: Fn(Index, &mut Turn) -> Result<O::Item, Alarm>, G: Gate>(
    operator: &O,
    domain: &Domain,
    map: &Map,
    item_at: &F,
    gate: &G,
    turn: &mut Turn,
) -> Result<O::Item, Alarm>
    requires { F.IsAlwaysCallable item_at.now }
    ensures { (meaning : IndexValue → Result Value Fault) → AnswersTell O.value (F.post item_at.now) meaning
        → FoldEnds (MayRefuseAmong (G.may_refuse gate.now) map.now (indices domain.now) ⊎ MayAnswerRefused (F.post item_at.now)) O.value
        (O.op operator.now) (in_turns meaning) (indices domain.now) turn.new result }
{
    let mut left = domain.cursor();
    let mut so_far = operator.over_none();
    for place in 0..domain.size() {
        let Some(index) = left.next() else {
            unreachable!()
        };
        let item = entered(item_at, index, place, map, gate, turn)?;
        so_far = operator.combined(so_far, item);
    }
    Ok(so_far)
}

/// The items of a domain's indices put together, in their order. For each index its owner enters the gate, unless it is open. An item is
/// what `item_at` answers; it is handed a place for the turn that its fault names.
///
/// # Errors
/// The fault of the first index whose item has one, in the turn of that index; or the gate refused the entry of an index's owner,
/// which it may, or an item's own walk was refused.
pub fn reduce<O: Operator, F: Fn(Index, &mut Turn) -> Result<O::Item, Alarm>, G: Gate>(
    operator: &O,
    over: DomainWord,
    map: &Map,
    item_at: F,
    gate: &G,
    turn: &mut Turn,
) -> Result<O::Item, Alarm>
    requires { F.IsAlwaysCallable item_at }
    ensures { (meaning : IndexValue → Result Value Fault) → AnswersTell O.value (F.post item_at) meaning
        → Tells (MayRefuse (G.may_refuse gate.now) map.now over ⊎ MayAnswerRefused (F.post item_at)) O.value turn.new result
        (fold_over (O.op operator.now) meaning over) }
{
    let domain = over.domain();
    fold(operator, &domain, map, &item_at, gate, turn)
}
