// What the turns of a forall may do with variables and elements.

ghost use Rattle.std.specs.Prelude.{◌≡◌, true, false, Some, map};
ghost use Rattle.dpl_words.specs.Words.{IntLeaf, TruthLeaf, intent_at};
ghost use Rattle.dpl_language.specs.Tree.{SetReduce};
ghost use Rattle.dpl_memory.specs.Memory.{PlainKind, is_among, intents_by_slot};
ghost use Rattle.dpl_nodes.specs.Typed.{index_items};
ghost use Rattle.dpl_nodes.specs.Steps.{intent_view};
ghost use Rattle.dpl_turns.specs.Alongside.{slots_of};
ghost use Rattle.dpl_turns.specs.Bodies.{own_slots, IsOwn, adds_by, may_assign};
ghost use Rattle.dpl_dependence.specs.Turns.{own_in, changes_by};

use crate::names::{is_among, is_own, is_variable};
use dpl_nodes::{IndexExpr, Intent, Names};
use dpl_tree::{Assign, Op};

/// A forall: the rank of its indices, its variables, the arrays of which its turns may write elements, and its reduce variables. An assignment
/// to a whole array has no variables.
#[derive(Clone, Copy)]
pub(crate) struct TurnRules<'b> {
    pub(crate) rank: u32,
    pub(crate) names: Option<Names<'b>>,
    pub(crate) written: &'b [usize],
    pub(crate) reduced: &'b [Intent],
}

// The operator by which the reduce variable in a slot is added to, if there is one.
fn operator_at(slot: usize, intents: &[Intent]) -> Option<Op>
    ensures { result ≡ intent_at slot (intents_by_slot (map intent_view intents.now)) }
{
    for intent in intents {
        if slot == intent.slot {
            return Some(intent.op);
        }
    }
    None
}

// Whether an assignment adds to an int by this operator, in whatever order.
fn adds_ints(op: Assign, by: Op) -> bool
    ensures { result ≡ true → adds_by IntLeaf op (Some by) ≡ true }
{
    match (op, by) {
        (Assign::SetAdd, Op::Sum) => true,
        (Assign::SetMultiply, Op::Product) => true,
        (Assign::SetReduce, Op::Sum | Op::Product | Op::Least | Op::Greatest) => true,
        _ => false,
    }
}

impl<'b> TurnRules<'b> {
    // Whether a slot is that of one of the variables.
    fn has_variable(&self, slot: usize) -> bool
        ensures { result ≡ is_among slot (own_slots (own_in self.now)) }
    {
        match &self.names {
            Some(names) => is_variable(slot, names),
            None => false,
        }
    }

    // Whether an index is told to be the turn's own one: by its variables, in their order.
    fn tells_own(&self, index: &IndexExpr<'_>) -> bool
        ensures { result ≡ true → IsOwn (own_in self.now) (index_items index.now) }
    {
        match &self.names {
            Some(names) => is_own(names, index),
            None => false,
        }
    }

    /// Whether turns may read the number in a slot: it is no reduce variable.
    pub(crate) fn may_read(&self, slot: usize) -> bool
        ensures { result ≡ true → is_among slot (slots_of (intents_by_slot (map intent_view self.now.reduced.now))) ≡ false }
    {
        operator_at(slot, self.reduced).is_none()
    }

    /// Whether turns may read elements of the array in a slot at any index: they write none.
    pub(crate) fn may_read_all(&self, slot: usize) -> bool
        ensures { result ≡ true → is_among slot self.now.written.now ≡ false }
    {
        !is_among(slot, self.written)
    }

    /// Whether turns may read the element of the array in a slot at this index.
    pub(crate) fn may_read_at(&self, slot: usize, index: &IndexExpr<'_>) -> bool
        ensures { result ≡ true → is_among slot self.now.written.now ≡ true → IsOwn (own_in self.now) (index_items index.now) }
    {
        self.may_read_all(slot) || self.tells_own(index)
    }

    /// Whether turns may write it.
    pub(crate) fn may_write_at(&self, slot: usize, index: &IndexExpr<'_>) -> bool
        ensures written { result ≡ true → is_among slot self.now.written.now ≡ true }
        ensures own { result ≡ true → IsOwn (own_in self.now) (index_items index.now) }
    {
        is_among(slot, self.written) && self.tells_own(index)
    }

    /// Whether turns may change the int in a slot so: it is a reduce variable, and this adds to it.
    pub(crate) fn may_add(&self, slot: usize, op: Assign) -> bool
        ensures { result ≡ true → may_assign (changes_by self.now) (own_in self.now) (PlainKind IntLeaf) slot op ≡ true }
    {
        match operator_at(slot, self.reduced) {
            Some(by) => adds_ints(op, by) && !self.has_variable(slot),
            None => false,
        }
    }

    /// Whether turns may put a truth value to that in a slot.
    pub(crate) fn may_add_truth(&self, slot: usize) -> bool
        ensures { result ≡ true → may_assign (changes_by self.now) (own_in self.now) (PlainKind TruthLeaf) slot SetReduce ≡ true }
    {
        match operator_at(slot, self.reduced) {
            Some(Op::AllOf | Op::AnyOf) => !self.has_variable(slot),
            _ => false,
        }
    }
}
