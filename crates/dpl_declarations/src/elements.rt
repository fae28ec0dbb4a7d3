// What the elements of an array begin with: 0 or false, or a value that is written, evaluated at each index.
// A value that no element may be given is none.

ghost use Rattle.std.specs.Prelude.{◌≡◌, true, IfOk, Some, None};
ghost use Rattle.dpl_lowered.specs.LoweredExpressions.{EachTurn};
ghost use Rattle.dpl_lowered.specs.LoweredStatements.{written_initial};
ghost use Rattle.dpl_nodes.specs.Spots.{IsNear};
ghost use Rattle.dpl_rules.specs.Types.{Over as OverOf, fits_array};
ghost use Rattle.dpl_tree.specs.Declarations.{optional, initial_view};
ghost use Rattle.dpl_typed.specs.Typed.{type_of_typed, typed_item};
ghost use Rattle.dpl_declarations.specs.Made.{Fits, elements_tree, AreBegun};

use dpl_assignments::elements::{given_ints, given_truths};
use dpl_nodes::step::Initial as Begun;
use dpl_syntax::Place;
use dpl_tree::{Arena, Initial, ScalarKind};
use dpl_typed::Typed;
use dpl_typed::node::spot;
use std::alloc::AllocError;

// What the elements of a kind are where no value is written.
fn zeros<'t>(kind: ScalarKind) -> Begun<'t>
    ensures { AreBegun kind None (Some result) }
{
    match kind {
        ScalarKind::Int => Begun::Zeros,
        ScalarKind::Bool => Begun::Falses,
    }
}

// What they are given behind `=`.
fn given<'t>(
    arena: Arena<'t>,
    kind: ScalarKind,
    equals: Place,
    value: Typed<'t>,
) -> Result<Option<Begun<'t>>, AllocError>
    ensures { IfOk result (λ b. (over : OverOf) → fits_array kind over (type_of_typed value.entry) ≡ true → IsNear equals
        → AreBegun kind (Some (written_initial equals (typed_item EachTurn value.entry))) b) }
{
    let Ok(at) = spot(arena, equals) else {
        return Err(AllocError);
    };
    match kind {
        ScalarKind::Int => {
            let Ok(ints) = given_ints(arena, value) else {
                return Err(AllocError);
            };
            match ints {
                Some(e) => Ok(Some(Begun::Ints(at, e))),
                None => Ok(None),
            }
        }
        ScalarKind::Bool => {
            let Ok(truths) = given_truths(arena, value) else {
                return Err(AllocError);
            };
            match truths {
                Some(e) => Ok(Some(Begun::Truths(at, e))),
                None => Ok(None),
            }
        }
    }
}

/// What the elements of an array of a kind begin with, if each may be given it.
///
/// # Errors
/// Out of memory.
pub(crate) fn elements<'t>(
    arena: Arena<'t>,
    kind: ScalarKind,
    written: &Option<Initial<'_>>,
    value: Option<Typed<'t>>,
) -> Result<Option<Begun<'t>>, AllocError>
    ensures { IfOk result (λ b. Fits kind (optional initial_view written.now) value.entry
        → AreBegun kind (elements_tree (optional initial_view written.now) value.entry) b) }
{
    match written {
        None => Ok(Some(zeros(kind))),
        Some(initial) => match value {
            None => Ok(None),
            Some(value) => given(arena, kind, initial.equals, value),
        },
    }
}
