// Statements in turns: they write elements at their own index and add to reduce variables, and declare nothing.

ghost use Rattle.std.specs.Prelude.{◌≡◌, true, [], map};
ghost use Rattle.dpl_memory.specs.Memory.{intents_by_slot};
ghost use Rattle.dpl_standing.specs.Standing.{InTurn};
ghost use Rattle.dpl_nodes.specs.Steps.{int_changed, truth_stated, intent_view};
ghost use Rattle.dpl_readings.specs.Readings.{step_in, else_in, steps_in};
ghost use Rattle.dpl_turns.specs.Bodies.{KeepsApart};
ghost use Rattle.dpl_turns.specs.Typed.{own_of};
ghost use Rattle.dpl_dependence.specs.Turns.{MayTakeInts, MayTakeTruths, MayStand, AllMayStand, ElseMayStand};

use crate::expression::{may_index, may_int, may_truth};
use crate::names::are_of_rank;
use crate::turn::TurnRules;
use dpl_nodes::step::Else;
use dpl_nodes::{IntDeed, Intent, Names, Step, TruthDeed, TruthTarget};
use dpl_tree::Assign;

// Whether each turn may do this to an int, whichever int that it may evaluate is taken: it adds to a reduce variable.
fn may_take_int(deed: &IntDeed<'_>, slot: usize, rules: &TurnRules<'_>) -> bool
    ensures { result ≡ true → MayTakeInts rules.now (int_changed deed.now slot) }
{
    match deed {
        IntDeed::Add => rules.may_add(slot, Assign::SetAdd),
        IntDeed::Multiply => rules.may_add(slot, Assign::SetMultiply),
        IntDeed::Reduce => rules.may_add(slot, Assign::SetReduce),
        IntDeed::Declare
        | IntDeed::Config
        | IntDeed::Set
        | IntDeed::Subtract
        | IntDeed::Divide(_)
        | IntDeed::Remainder(_) => false,
    }
}

// Whether each turn may do this to a truth value: it is put to a reduce variable, or is an element at the turn's own index.
fn may_take_truth(target: &TruthTarget<'_>, rules: &TurnRules<'_>) -> bool
    ensures { result ≡ true → MayTakeTruths rules.now (truth_stated target.now) }
{
    match target {
        TruthTarget::Slot(TruthDeed::Reduce, slot) => rules.may_add_truth(*slot),
        TruthTarget::Slot(_, _) => false,
        TruthTarget::Element(name, index) => {
            rules.may_write_at(name.slot, index) && may_index(index, rules)
        }
    }
}

// Whether statements may stand in each turn.
#[cycle(statements)]
fn all_may_stand(steps: &[Step<'_>], rules: &TurnRules<'_>) -> bool
    ensures { result ≡ true → AllMayStand rules.now (steps_in InTurn steps.now) }
{
    for step in steps {
        if !may_stand(step, rules) {
            return false;
        }
    }
    true
}

// Whether one statement may.
#[cycle(statements)]
fn may_stand(step: &Step<'_>, rules: &TurnRules<'_>) -> bool
    ensures { result ≡ true → MayStand rules.now (step_in InTurn step.now) }
{
    match step {
        Step::Nothing => true,
        Step::Int(deed, slot, e) => may_take_int(deed, *slot, rules) && may_int(e, rules),
        Step::Truth(target, e) => may_take_truth(target, rules) && may_truth(e, rules),
        Step::SetElement(name, index, _, _, e) => {
            rules.may_write_at(name.slot, index) && (may_index(index, rules) && may_int(e, rules))
        }
        Step::Block(body) => all_may_stand(body, rules),
        Step::If {
            condition,
            body,
            otherwise,
        } => {
            may_truth(condition, rules)
                && (all_may_stand(body, rules) && else_may_stand(otherwise, rules))
        }
        Step::Headed {
            condition,
            body,
            ..
        } => may_truth(condition, rules) && all_may_stand(body, rules),
        Step::DeclareRange(_, _)
        | Step::SetRange(_, _)
        | Step::DeclareDomain(_, _, _)
        | Step::SetDomain(_, _)
        | Step::DeclareArray(_)
        | Step::SetArray(_, _, _, _)
        | Step::SetTruthArray(_, _, _)
        | Step::Write { .. }
        | Step::For { .. }
        | Step::ForEach { .. }
        | Step::Forall { .. }
        | Step::ForallEach { .. } => false,
    }
}

// Whether what stands behind `else` may.
#[cycle(statements)]
fn else_may_stand(otherwise: &Else<'_>, rules: &TurnRules<'_>) -> bool
    ensures { result ≡ true → ElseMayStand rules.now (else_in InTurn otherwise.now) }
{
    match otherwise {
        Else::Absent => true,
        Else::Do(step) => may_stand(step, rules),
    }
}

/// Whether the turns of a forall over indices of a rank may be made apart, by its variables, the arrays of which its body may write
/// elements, its reduce variables and its body.
pub fn are_independent(
    rank: u32,
    names: &Names<'_>,
    written: &[usize],
    reduced: &[Intent],
    body: &[Step<'_>],
) -> bool
    ensures { result ≡ true
        → KeepsApart rank (own_of names.now) [] written.now (intents_by_slot (map intent_view reduced.now)) (steps_in InTurn body.now) }
{
    let rules = TurnRules {
        rank,
        names: Some(*names),
        written,
        reduced,
    };
    are_of_rank(names, rank) && all_may_stand(body, &rules)
}
