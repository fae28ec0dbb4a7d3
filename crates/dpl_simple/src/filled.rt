// Arrays that are declared with an initial value, whose turns enter the gate.
// A declaration with an initial value is the declaration followed by that assignment. Where the value is evaluated once all elements get it as
// they are made, so that its turns have nothing left to do: they enter behind that, made by a crew as those of any assignment to a whole array.

ghost use Rattle.std.specs.Prelude.{◌≡◌};
ghost use Rattle.dpl_language.specs.Outcome.{Deeds};
ghost use Rattle.dpl_language.specs.Statements.{exec};
ghost use Rattle.dpl_memory.specs.Memory.{in_memory};
ghost use Rattle.dpl_nodes.specs.Steps.{array_declared};
ghost use Rattle.dpl_loop.specs.Runs.{RunsTo};
ghost use Rattle.dpl_simple.specs.Refusals.{fills, MayRefuseDeclared};

use crate::declare::declare_array;
use dpl_elements::{Crew, enter_array};
use dpl_frame::{Arrays, Frame};
use dpl_loop::RunStop;
use dpl_nodes::{ArrayDeclaration, Initial};
use dpl_values::{int_domain, truth_domain};

// Whether an initial value is evaluated once, and so fills the array.
fn fills<A: Arrays>(initial: &Initial<'_>, frame: &Frame<A>) -> bool
    ensures { result ≡ fills frame.now.limits initial.now frame.now.memory }
{
    match initial {
        Initial::Zeros | Initial::Falses => false,
        Initial::Ints(_, e) => int_domain(e, frame).is_none(),
        Initial::Truths(_, e) => truth_domain(e, frame).is_none(),
    }
}

/// The declaration of an array, and the turns of its initial value.
///
/// # Errors
/// As for [`declare_array`]; a worker was not started; or the gate refused the entry of the owner of an index of the array that was filled.
#[inline(never)]
pub fn declare_array_by<C: Crew>(
    d: &ArrayDeclaration<'_>,
    frame: &mut Frame<C::Kept>,
    crew: &C,
) -> Result<(), RunStop>
    requires ready { C.is_ready crew.now }
    ensures ends { (done : Deeds) → RunsTo (MayRefuseDeclared (C.may_refuse crew.now) frame.old d.now) result frame.new.memory done
        (exec frame.old.limits in_memory (array_declared d.now) frame.old.memory done) }
    ensures limits { frame.new.limits ≡ frame.old.limits }
{
    if crew.is_open() || !fills(&d.initial, frame) {
        return declare_array(d, frame, crew);
    }
    declare_array(d, frame, crew)?;
    enter_array(d.slot, frame, crew)
}
