// Assignments to names: an int, a truth value, a domain or a whole array is given a value of its kind.
// What its type doesn't take is no step: a rule refuses it, and `Step::Nothing` stands for it.

ghost use Rattle.std.specs.Prelude.{◌≡◌, ℕ, true, Bool, IfOk, Some, option_map};
ghost use Rattle.dpl_language.specs.Arithmetic.{assign_divides};
ghost use Rattle.dpl_language.specs.Tree.{BoolKind, One};
ghost use Rattle.dpl_lowered.specs.LoweredExpressions.{Once};
ghost use Rattle.dpl_lowered.specs.Shapes.{kept};
ghost use Rattle.dpl_memory.specs.Memory.{VariableKind, DomainKind, int_leaf, truth_leaf};
ghost use Rattle.dpl_nodes.specs.Spots.{IsNear};
ghost use Rattle.dpl_nodes.specs.Steps.{step_view, assigned_to, scalar_leaf};
ghost use Rattle.dpl_nodes.specs.Typed.{int_view, truth_view};
ghost use Rattle.dpl_rules.specs.Sights.{type_declared};
ghost use Rattle.dpl_rules.specs.Types.{ValueType as TypeOf, is_scalar, is_domain_of};
ghost use Rattle.dpl_scopes.specs.Types.{type_view};
ghost use Rattle.dpl_scopes.specs.View.{declared_view};
ghost use Rattle.dpl_typed.specs.declared.typed.Typed.{Typed as TypedNode};
ghost use Rattle.dpl_typed.specs.Leaves.{value_kind};
ghost use Rattle.dpl_typed.specs.Typed.{type_of_typed, typed_item};
ghost use Rattle.dpl_assignments.specs.Made.{given_to, SetsDomain};
ghost use Rattle.dpl_assignments.specs.Takes.{scalar_by, domain_by, Takes};

use crate::overs::arrays_over;
use crate::whole::{array, array_name};
use dpl_nodes::step::DomainName;
use dpl_nodes::{BoolExpr, DomainExpr, IntDeed, IntExpr, Step, TruthDeed, TruthTarget};
use dpl_scopes::{Declared, Scopes, ValueType};
use dpl_syntax::Place;
use dpl_tree::{Arena, Assign, AssignSign, Name, ScalarKind};
use dpl_typed::Typed;
use dpl_typed::node::spot;
use std::alloc::AllocError;

// What an int is assigned.
fn of_int<'t>(
    arena: Arena<'t>,
    sign: AssignSign,
    slot: usize,
    e: &'t IntExpr<'t>,
) -> Result<Step<'t>, AllocError>
    ensures { IfOk result (λ s. IsNear sign.at
        → step_view s ≡ assigned_to (int_leaf slot) sign.op (kept (assign_divides sign.op) sign.at) (One (int_view e.now))) }
{
    match sign.op {
        Assign::Set => Ok(Step::Int(IntDeed::Set, slot, e)),
        Assign::SetAdd => Ok(Step::Int(IntDeed::Add, slot, e)),
        Assign::SetSubtract => Ok(Step::Int(IntDeed::Subtract, slot, e)),
        Assign::SetMultiply => Ok(Step::Int(IntDeed::Multiply, slot, e)),
        Assign::SetDivide => {
            let Ok(at) = spot(arena, sign.at) else {
                return Err(AllocError);
            };
            Ok(Step::Int(IntDeed::Divide(at), slot, e))
        }
        Assign::SetRemainder => {
            let Ok(at) = spot(arena, sign.at) else {
                return Err(AllocError);
            };
            Ok(Step::Int(IntDeed::Remainder(at), slot, e))
        }
        Assign::SetReduce => Ok(Step::Int(IntDeed::Reduce, slot, e)),
    }
}

// What a truth value is assigned: arithmetic doesn't take it.
fn of_truth<'t>(sign: AssignSign, slot: usize, e: &'t BoolExpr<'t>) -> Step<'t>
    ensures { scalar_by BoolKind sign.op ≡ true
        → step_view result ≡ assigned_to (truth_leaf slot) sign.op (kept (assign_divides sign.op) sign.at) (One (truth_view e.now)) }
{
    match sign.op {
        Assign::Set => Step::Truth(TruthTarget::Slot(TruthDeed::Set, slot), e),
        Assign::SetReduce => Step::Truth(TruthTarget::Slot(TruthDeed::Reduce, slot), e),
        Assign::SetAdd
        | Assign::SetSubtract
        | Assign::SetMultiply
        | Assign::SetDivide
        | Assign::SetRemainder => Step::Nothing,
    }
}

// What an int or a truth value is assigned.
fn scalar<'t>(
    arena: Arena<'t>,
    kind: ScalarKind,
    sign: AssignSign,
    slot: usize,
    value: Typed<'t>,
) -> Result<Step<'t>, AllocError>
    ensures { IfOk result (λ s. is_scalar kind (type_of_typed value.entry) ≡ true → scalar_by kind sign.op ≡ true → IsNear sign.at
        → step_view s ≡ assigned_to (scalar_leaf kind slot) sign.op (kept (assign_divides sign.op) sign.at) (typed_item Once value.entry)) }
{
    match kind {
        ScalarKind::Int => match value {
            Typed::Int(e) => of_int(arena, sign, slot, e),
            _ => Ok(Step::Nothing),
        },
        ScalarKind::Bool => match value {
            Typed::Truth(e) => Ok(of_truth(sign, slot, e)),
            _ => Ok(Step::Nothing),
        },
    }
}

// A domain is assigned a domain, with the arrays in sight that are declared over it.
fn set_domain<'t>(
    arena: Arena<'t>,
    scopes: &Scopes<'_>,
    at: Place,
    slot: usize,
    e: &'t DomainExpr<'t>,
) -> Result<Step<'t>, AllocError>
    ensures { IfOk result (SetsDomain scopes.now at slot e.now) }
{
    let Ok(at) = spot(arena, at) else {
        return Err(AllocError);
    };
    let Ok(arrays) = arrays_over(arena, scopes, slot) else {
        return Err(AllocError);
    };
    let Ok(name) = arena.node(DomainName { at, slot, arrays }) else {
        return Err(AllocError);
    };
    Ok(Step::SetDomain(name, e))
}

// What a domain is assigned: a domain, by `=` alone.
fn domain<'t>(
    arena: Arena<'t>,
    scopes: &Scopes<'_>,
    at: Place,
    sign: AssignSign,
    slot: usize,
    value: Typed<'t>,
) -> Result<Step<'t>, AllocError>
    ensures { IfOk result (λ s. (rank : ℕ) (may_stride : Bool)
        → is_domain_of rank may_stride (type_of_typed value.entry) ≡ true → domain_by sign.op ≡ true → IsNear at
        → step_view s ≡ given_to scopes.now at DomainKind slot sign.op sign.at (λ m. typed_item m value.entry)) }
{
    match value {
        Typed::Domain { node, .. } => match sign.op {
            Assign::Set => set_domain(arena, scopes, at, slot, node),
            Assign::SetAdd
            | Assign::SetSubtract
            | Assign::SetMultiply
            | Assign::SetDivide
            | Assign::SetRemainder
            | Assign::SetReduce => Ok(Step::Nothing),
        },
        _ => Ok(Step::Nothing),
    }
}

// A name of a type, which has a slot, is given a value.
fn given<'t>(
    arena: Arena<'t>,
    scopes: &Scopes<'_>,
    name: &Name<'_>,
    sign: AssignSign,
    slot: usize,
    target: ValueType<'_>,
    value: Typed<'t>,
) -> Result<Step<'t>, AllocError>
    ensures { IfOk result (λ s. (k : VariableKind) → value_kind (type_view target.entry) ≡ Some k
        → Takes sign.op (type_view target.entry) (type_of_typed value.entry) → IsNear sign.at → IsNear name.now.at
        → step_view s ≡ given_to scopes.now name.now.at k slot sign.op sign.at (λ m. typed_item m value.entry)) }
{
    match target {
        ValueType::Scalar(kind) => scalar(arena, kind, sign, slot, value),
        ValueType::Domain { .. } => domain(arena, scopes, name.at, sign, slot, value),
        ValueType::Array(kind, _) => {
            let Ok(x) = array_name(arena, name.at, slot) else {
                return Err(AllocError);
            };
            array(arena, x, kind, sign, value)
        }
        ValueType::Range { .. }
        | ValueType::Promoted(_, _)
        | ValueType::Tuple(_)
        | ValueType::Locale
        | ValueType::AllLocales
        | ValueType::Cell(_) => Ok(Step::Nothing),
    }
}

/// A name is given a value, where what declares the name and the value have types.
///
/// # Errors
/// Out of memory.
pub(crate) fn given_to_name<'t>(
    arena: Arena<'t>,
    scopes: &Scopes<'_>,
    name: &Name<'_>,
    sign: AssignSign,
    declared: Option<Declared<'_>>,
    value: Option<Typed<'t>>,
) -> Result<Step<'t>, AllocError>
    ensures { IfOk result (λ s. (t : TypeOf) (u : TypedNode) (k : VariableKind) (slot : ℕ)
        → type_declared (option_map declared_view declared.entry) ≡ Some t → value.entry ≡ Some u → value_kind t ≡ Some k
        → option_map (λ d. d.slot) declared.entry ≡ Some slot → Takes sign.op t (type_of_typed u) → IsNear sign.at → IsNear name.now.at
        → step_view s ≡ given_to scopes.now name.now.at k slot sign.op sign.at (λ m. typed_item m u)) }
{
    let Some(declared) = declared else {
        return Ok(Step::Nothing);
    };
    let Some(target) = declared.value_type else {
        return Ok(Step::Nothing);
    };
    let Some(value) = value else {
        return Ok(Step::Nothing);
    };
    given(arena, scopes, name, sign, declared.slot, target, value)
}
