// Which array a forall's body writes first, in the order of its text.

ghost use Rattle.std.specs.Prelude.{◌≡◌};
ghost use Rattle.dpl_standing.specs.Standing.{InTurn};
ghost use Rattle.dpl_readings.specs.Readings.{step_in, else_in, steps_in};
ghost use Rattle.dpl_readings.specs.Written.{written_by, written_else, written_among};

use dpl_nodes::step::Else;
use dpl_nodes::{Step, TruthTarget};

/// The slot of the first array of which statements write an element, in the order of their text.
#[cycle(written)]
pub(crate) fn written(steps: &[Step<'_>]) -> Option<usize>
    ensures { result ≡ written_among (steps_in InTurn steps.now) }
{
    for step in steps {
        if let Some(slot) = written_by(step) {
            return Some(slot);
        }
    }
    None
}

// The same of one statement.
#[cycle(written)]
fn written_by(step: &Step<'_>) -> Option<usize>
    ensures { result ≡ written_by (step_in InTurn step.now) }
{
    match step {
        Step::SetElement(name, _, _, _, _) => Some(name.slot),
        Step::Truth(TruthTarget::Element(name, _), _) => Some(name.slot),
        Step::Block(body) => written(body),
        Step::If {
            body,
            otherwise,
            ..
        } => match written(body) {
            Some(slot) => Some(slot),
            None => written_else(otherwise),
        },
        Step::Headed { body, .. } => written(body),
        Step::For { body, .. } => written(body),
        Step::ForEach { body, .. } => written(body),
        Step::Nothing
        | Step::Int(_, _, _)
        | Step::DeclareRange(_, _)
        | Step::SetRange(_, _)
        | Step::Truth(TruthTarget::Slot(_, _), _)
        | Step::DeclareDomain(_, _, _)
        | Step::SetDomain(_, _)
        | Step::DeclareArray(_)
        | Step::SetArray(_, _, _, _)
        | Step::SetTruthArray(_, _, _)
        | Step::Write { .. }
        | Step::Forall { .. }
        | Step::ForallEach { .. } => None,
    }
}

// And of what stands behind `else`.
#[cycle(written)]
fn written_else(otherwise: &Else<'_>) -> Option<usize>
    ensures { result ≡ written_else (else_in InTurn otherwise.now) }
{
    match otherwise {
        Else::Absent => None,
        Else::Do(step) => written_by(step),
    }
}
