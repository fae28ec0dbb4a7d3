// Assignments to whole arrays: each element is given what is evaluated at its index.
// Truth values take no arithmetic.

ghost use Rattle.std.specs.Prelude.{◌≡◌, true, IfOk};
ghost use Rattle.dpl_language.specs.Tree.{IntKind, BoolKind, Set};
ghost use Rattle.dpl_lowered.specs.LoweredExpressions.{EachTurn};
ghost use Rattle.dpl_nodes.specs.Spots.{IsNear};
ghost use Rattle.dpl_nodes.specs.Steps.{step_view, array_leaf};
ghost use Rattle.dpl_rules.specs.Types.{Over as OverOf, fits_array};
ghost use Rattle.dpl_typed.specs.Typed.{type_of_typed, typed_item};
ghost use Rattle.dpl_assignments.specs.Made.{whole_changed};
ghost use Rattle.dpl_assignments.specs.Takes.{element_by};

use crate::elements::{given_ints, given_truths};
use dpl_nodes::{ArrayName, Step};
use dpl_syntax::Place;
use dpl_tree::{Arena, Assign, AssignSign, ScalarKind};
use dpl_typed::Typed;
use dpl_typed::node::spot;
use std::alloc::AllocError;

/// The name of an array that is assigned.
///
/// # Errors
/// Out of memory.
pub(crate) fn array_name<'t>(
    arena: Arena<'t>,
    at: Place,
    slot: usize,
) -> Result<&'t ArrayName<'t>, AllocError>
    ensures slot { IfOk result (λ x. x.now.slot ≡ slot) }
    ensures at { IfOk result (λ x. IsNear at → x.now.at.now ≡ at) }
{
    let Ok(at) = spot(arena, at) else {
        return Err(AllocError);
    };
    arena.node(ArrayName { at, slot })
}

// What a whole array of ints is assigned.
fn set_ints<'t>(
    arena: Arena<'t>,
    x: &'t ArrayName<'t>,
    sign: AssignSign,
    value: Typed<'t>,
) -> Result<Step<'t>, AllocError>
    ensures { IfOk result (λ s. (over : OverOf) → fits_array IntKind over (type_of_typed value.entry) ≡ true → IsNear sign.at
        → step_view s ≡ whole_changed (array_leaf IntKind x.now) sign.op sign.at (typed_item EachTurn value.entry)) }
{
    let Ok(given) = given_ints(arena, value) else {
        return Err(AllocError);
    };
    let Some(elements) = given else {
        return Ok(Step::Nothing);
    };
    let Ok(at) = spot(arena, sign.at) else {
        return Err(AllocError);
    };
    Ok(Step::SetArray(x, sign.op, at, elements))
}

// What a whole array of truth values is assigned, by `=`.
fn set_truths<'t>(
    arena: Arena<'t>,
    x: &'t ArrayName<'t>,
    at: Place,
    value: Typed<'t>,
) -> Result<Step<'t>, AllocError>
    ensures { IfOk result (λ s. (over : OverOf) → fits_array BoolKind over (type_of_typed value.entry) ≡ true → IsNear at
        → step_view s ≡ whole_changed (array_leaf BoolKind x.now) Set at (typed_item EachTurn value.entry)) }
{
    let Ok(given) = given_truths(arena, value) else {
        return Err(AllocError);
    };
    let Some(elements) = given else {
        return Ok(Step::Nothing);
    };
    let Ok(at) = spot(arena, at) else {
        return Err(AllocError);
    };
    Ok(Step::SetTruthArray(x, at, elements))
}

// Truth values take no arithmetic.
fn truths<'t>(
    arena: Arena<'t>,
    x: &'t ArrayName<'t>,
    sign: AssignSign,
    value: Typed<'t>,
) -> Result<Step<'t>, AllocError>
    ensures { IfOk result (λ s. (over : OverOf) → fits_array BoolKind over (type_of_typed value.entry) ≡ true → element_by BoolKind sign.op ≡ true
        → IsNear sign.at → step_view s ≡ whole_changed (array_leaf BoolKind x.now) sign.op sign.at (typed_item EachTurn value.entry)) }
{
    match sign.op {
        Assign::Set => set_truths(arena, x, sign.at, value),
        Assign::SetAdd
        | Assign::SetSubtract
        | Assign::SetMultiply
        | Assign::SetDivide
        | Assign::SetRemainder
        | Assign::SetReduce => Ok(Step::Nothing),
    }
}

/// What a whole array of a kind is assigned.
///
/// # Errors
/// Out of memory.
pub(crate) fn array<'t>(
    arena: Arena<'t>,
    x: &'t ArrayName<'t>,
    kind: ScalarKind,
    sign: AssignSign,
    value: Typed<'t>,
) -> Result<Step<'t>, AllocError>
    ensures { IfOk result (λ s. (over : OverOf) → fits_array kind over (type_of_typed value.entry) ≡ true → element_by kind sign.op ≡ true → IsNear sign.at
        → step_view s ≡ whole_changed (array_leaf kind x.now) sign.op sign.at (typed_item EachTurn value.entry)) }
{
    match kind {
        ScalarKind::Int => set_ints(arena, x, sign, value),
        ScalarKind::Bool => truths(arena, x, sign, value),
    }
}
