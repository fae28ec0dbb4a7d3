// Statements that make no turns, as runs: a fault is told as what ended the run.
// Each is a function of its own, so that a statement keeps no room for the ends of others.

ghost use Rattle.std.specs.Prelude.{◌≡◌};
ghost use Rattle.dpl_language.specs.Tree.{IntKind, One};
ghost use Rattle.dpl_language.specs.Outcome.{Deeds};
ghost use Rattle.dpl_language.specs.Statements.{exec};
ghost use Rattle.dpl_memory.specs.Memory.{range_leaf, in_memory};
ghost use Rattle.dpl_nodes.specs.Typed.{int_view, truth_view, range_item};
ghost use Rattle.dpl_nodes.specs.Steps.{array_leaf, element_set, int_changed, truth_stated};
ghost use Rattle.dpl_elements.specs.Changes.{declared_memory, ends_as};
ghost use Rattle.dpl_loop.specs.Entries.{MayRefuseSome};
ghost use Rattle.dpl_loop.specs.Runs.{RunsTo};

use crate::change::{change_int, change_truth, declare_range};
use dpl_elements::{set_element, set_truth_element};
use dpl_frame::Frame;
use dpl_loop::RunStop;
use dpl_nodes::{ArrayName, BoolExpr, IndexExpr, IntDeed, IntExpr, RangeExpr, Spot, TruthTarget};
use dpl_tree::Assign;
use dpl_values::Team;

/// What is done to an int.
#[inline(never)]
pub fn int<G: Team>(
    deed: &IntDeed<'_>,
    slot: usize,
    e: &IntExpr<'_>,
    frame: &mut Frame<G::Kept>,
    gate: &G,
) -> Result<(), RunStop>
    requires ready { G.is_ready gate.now }
    ensures ends { (done : Deeds) → RunsTo (MayRefuseSome (G.may_refuse gate.now)) result frame.new.memory done
        (exec frame.old.limits in_memory (int_changed deed.now slot (One (int_view e.now))) frame.old.memory done) }
    ensures limits { frame.new.limits ≡ frame.old.limits }
{
    change_int(deed, slot, e, frame, gate)
}

/// A range's declaration, or an assignment to it.
#[inline(never)]
pub fn range<G: Team>(
    slot: usize,
    e: &RangeExpr<'_>,
    frame: &mut Frame<G::Kept>,
    gate: &G,
) -> Result<(), RunStop>
    requires ready { G.is_ready gate.now }
    ensures ends { (done : Deeds)
        → RunsTo (MayRefuseSome (G.may_refuse gate.now)) result frame.new.memory done
        (ends_as (declared_memory frame.old.limits (range_leaf slot) (range_item e.now) frame.old.memory) done) }
    ensures limits { frame.new.limits ≡ frame.old.limits }
{
    declare_range(slot, e, frame, gate)
}

/// What is done to a truth value, or to an element that is one.
#[inline(never)]
pub fn truth<G: Team>(
    target: &TruthTarget<'_>,
    e: &BoolExpr<'_>,
    frame: &mut Frame<G::Kept>,
    gate: &G,
) -> Result<(), RunStop>
    requires ready { G.is_ready gate.now }
    ensures ends { (done : Deeds) → RunsTo (MayRefuseSome (G.may_refuse gate.now)) result frame.new.memory done
        (exec frame.old.limits in_memory (truth_stated target.now (truth_view e.now)) frame.old.memory done) }
    ensures limits { frame.new.limits ≡ frame.old.limits }
{
    match target {
        TruthTarget::Slot(deed, slot) => change_truth(*deed, *slot, e, frame, gate),
        TruthTarget::Element(name, t) => set_truth_element(name, t, e, frame, gate),
    }
}

/// An assignment to an element.
#[inline(never)]
pub fn element<G: Team>(
    name: &ArrayName<'_>,
    t: &IndexExpr<'_>,
    op: Assign,
    sign: &Spot,
    e: &IntExpr<'_>,
    frame: &mut Frame<G::Kept>,
    gate: &G,
) -> Result<(), RunStop>
    requires ready { G.is_ready gate.now }
    ensures ends { (done : Deeds)
        → RunsTo (MayRefuseSome (G.may_refuse gate.now)) result frame.new.memory done
        (exec frame.old.limits in_memory (element_set (array_leaf IntKind name.now) t.now op sign.now (int_view e.now)) frame.old.memory done) }
    ensures limits { frame.new.limits ≡ frame.old.limits }
{
    set_element(name, t, op, sign, e, frame, gate)
}
