// What the elements of an array are given: ints or truth values, evaluated at each index.
// An array takes arrays of its own kind, promoted or not, and whatever one of its elements takes.

ghost use Rattle.std.specs.Prelude.{IfOk};
ghost use Rattle.dpl_assignments.specs.Made.{AreInts, AreTruths};

use dpl_nodes::{PromotedInt, PromotedTruth};
use dpl_tree::{Arena, ScalarKind};
use dpl_typed::Typed;
use std::alloc::AllocError;

/// Ints at each index, if each element of an array may be given them.
///
/// # Errors
/// Out of memory.
pub fn given_ints<'t>(
    arena: Arena<'t>,
    value: Typed<'t>,
) -> Result<Option<&'t PromotedInt<'t>>, AllocError>
    ensures { IfOk result (λ r. AreInts value.entry r) }
{
    match value {
        Typed::Int(e) => match arena.node(PromotedInt::Scalar(e)) {
            Ok(node) => Ok(Some(node)),
            Err(_) => Err(AllocError),
        },
        Typed::Ints(_, e) => Ok(Some(e)),
        Typed::Array {
            kind: ScalarKind::Int,
            slot,
            at,
            ..
        } => match arena.node(PromotedInt::Element(slot, at)) {
            Ok(node) => Ok(Some(node)),
            Err(_) => Err(AllocError),
        },
        _ => Ok(None),
    }
}

/// Truth values at each index, if each element of an array may be given them.
///
/// # Errors
/// Out of memory.
pub fn given_truths<'t>(
    arena: Arena<'t>,
    value: Typed<'t>,
) -> Result<Option<&'t PromotedTruth<'t>>, AllocError>
    ensures { IfOk result (λ r. AreTruths value.entry r) }
{
    match value {
        Typed::Truth(e) => match arena.node(PromotedTruth::Scalar(e)) {
            Ok(node) => Ok(Some(node)),
            Err(_) => Err(AllocError),
        },
        Typed::Truths(_, e) => Ok(Some(e)),
        Typed::Array {
            kind: ScalarKind::Bool,
            slot,
            at,
            ..
        } => match arena.node(PromotedTruth::Element(slot, at)) {
            Ok(node) => Ok(Some(node)),
            Err(_) => Err(AllocError),
        },
        _ => Ok(None),
    }
}
