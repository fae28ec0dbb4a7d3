// How many turns a loop may have.
// Loops, whole arrays and reductions all test it before their first turn.

ghost use Rattle.std.specs.Prelude.{◌≡◌};
ghost use Rattle.dpl_frame.specs.Faults.{Tells};
ghost use Rattle.dpl_values.specs.Elements.{within_at};

use dpl_frame::{Alarm, Arrays, DomainWord, FaultCode, Frame, Trap, Turn};
use dpl_nodes::Spot;

/// A domain whose indices a loop may go through.
///
/// # Errors
/// `F5` at a place for more than the budget.
pub fn within_budget<A: Arrays>(
    domain: &DomainWord,
    at: &Spot,
    frame: &Frame<A>,
) -> Result<(), Trap>
    ensures { result ≡ within_at frame.now.limits at.now domain.now }
{
    if frame.budget() < domain.size() {
        return Err(Trap::new(FaultCode::Budget, *at));
    }
    Ok(())
}

/// The same of a reduction.
///
/// # Errors
/// `F5` at a place for more than the budget.
pub fn within_turns<A: Arrays>(
    domain: &DomainWord,
    at: &Spot,
    frame: &Frame<A>,
    turn: &mut Turn,
) -> Result<(), Alarm>
    ensures { Tells ⊥ (λ v. v) turn.new result (within_at frame.now.limits at.now domain.now) }
{
    if frame.budget() < domain.size() {
        return Err(Alarm::new(FaultCode::Budget, *at, turn));
    }
    Ok(())
}
