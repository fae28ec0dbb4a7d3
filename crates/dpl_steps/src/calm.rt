// Statements that are known to be calm by their forms: they operate on no cell, and start no tasks and no forall.
// Only forms are looked into of which turns are made at once (dpl_batches); of others it isn't known.

ghost use Rattle.std.specs.Prelude.{◌≡◌, true};
ghost use Rattle.dpl_standing.specs.Standing.{Standing};
ghost use Rattle.dpl_readings.specs.Readings.{step_in, else_in, steps_in};
ghost use Rattle.dpl_coming.specs.Calm.{IsCalm, AreCalm, ElseCalmIf};

use dpl_nodes::{Else, Step};

/// Whether statements are known to be calm.
#[cycle(calm)]
pub(crate) fn are_calm(steps: &[Step<'_>]) -> bool
    ensures { result ≡ true → (w : Standing) → AreCalm (steps_in w steps.now) }
{
    for step in steps {
        if !is_calm(step) {
            return false;
        }
    }
    true
}

// One statement.
#[cycle(calm)]
fn is_calm(step: &Step<'_>) -> bool
    ensures { result ≡ true → (w : Standing) → IsCalm (step_in w step.now) }
{
    match step {
        Step::Nothing => true,
        Step::Int(..) => true,
        Step::Truth(..) => true,
        Step::SetElement(..) => true,
        Step::Block(body) => are_calm(body),
        Step::If {
            body,
            otherwise,
            ..
        } => are_calm(body) && else_is_calm(otherwise),
        _ => false,
    }
}

// What stands behind `else`.
#[cycle(calm)]
fn else_is_calm(otherwise: &Else<'_>) -> bool
    ensures { result ≡ true → (w : Standing) → ElseCalmIf ⊥ (else_in w otherwise.now) }
{
    match otherwise {
        Else::Absent => true,
        Else::Do(step) => is_calm(step),
    }
}
