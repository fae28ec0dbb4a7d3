// Assignments to elements of arrays: which element is written, and what it is given.
// Only an array has elements; an index outside it is told at its name.

ghost use Rattle.std.specs.Prelude.{◌≡◌, ◌<◌, ◌++◌, true, IfOk, OnOk, IfSome, Some, length, map};
ghost use Rattle.dpl_language.specs.Tree.{BoolKind, IntKind, ExprTree, One, Exprs};
ghost use Rattle.dpl_lowered.specs.LoweredExpressions.{Times, Once};
ghost use Rattle.dpl_memory.specs.Memory.{Variable};
ghost use Rattle.dpl_nodes.specs.Spots.{IsNear};
ghost use Rattle.dpl_nodes.specs.Steps.{step_view};
ghost use Rattle.dpl_nodes.specs.Typed.{int_view, truth_view, index_exprs};
ghost use Rattle.dpl_rules.specs.Deeds.{exprs_deeds};
ghost use Rattle.dpl_rules.specs.Expressions.{exprs_breaches};
ghost use Rattle.dpl_rules.specs.Operators.{round_verdict, element_verdict as element_of};
ghost use Rattle.dpl_rules.specs.Types.{is_scalar};
ghost use Rattle.dpl_rules.specs.Verdicts.{type_by, broken_by, with_type};
ghost use Rattle.dpl_scopes.specs.Types.{of_type};
ghost use Rattle.dpl_scopes.specs.View.{IsSighted};
ghost use Rattle.dpl_tree.specs.View.{exprs_view};
ghost use Rattle.dpl_typed.specs.declared.typed.Typed.{Typed as TypedNode};
ghost use Rattle.dpl_deeds.specs.View.{Adds};
ghost use Rattle.dpl_typed.specs.Leaves.{IsFound};
ghost use Rattle.dpl_typed.specs.Stands.{StandsFor, AreArguments};
ghost use Rattle.dpl_typed.specs.Typed.{type_of_typed, types_of, part_view, typed_item, is_rank};
ghost use Rattle.dpl_typed.specs.Where.{WhereSimpleExprs};
ghost use Rattle.dpl_brackets.specs.Parts.{are_index};
ghost use Rattle.dpl_assignments.specs.declared.element.Indexed.{Indexed as IndexedNode};
ghost use Rattle.dpl_assignments.specs.Made.{changed_as, changed_at, IsAt, IsElement, IsIndexed};
ghost use Rattle.dpl_assignments.specs.Takes.{element_by};
ghost use Rattle.dpl_assignments.specs.Told.{element_verdict, indexed_types, TellsElement};

use dpl_brackets::coordinates::index_of;
use dpl_brackets::index::is_index;
use dpl_deeds::Deed;
use dpl_elaborator::expression::exprs;
use dpl_nodes::{ArrayName, BoolExpr, IndexExpr, IntExpr, Step, TruthTarget};
use dpl_scopes::{Declared, Scopes, ValueType};
use dpl_syntax::{Breach, Code, Place};
use dpl_tree::{Arena, Assign, AssignSign, Element, ScalarKind};
use dpl_typed::name::named;
use dpl_typed::node::spot;
use dpl_typed::{Part, Typed};
use dpl_types::note;
use std::alloc::AllocError;

/// An element that is written: the kind of the array's elements, the array by its name, and the index.
#[derive(Clone, Copy)]
pub(crate) struct Indexed<'t> {
    pub kind: ScalarKind,
    pub array: &'t ArrayName<'t>,
    pub index: &'t IndexExpr<'t>,
}

// An array by its name, at an index.
fn at_index<'t>(
    arena: Arena<'t>,
    kind: ScalarKind,
    name: ArrayName<'t>,
    parts: &[Part<'t>],
) -> Result<Indexed<'t>, AllocError>
    requires { are_index (map part_view parts.now) ≡ true }
    ensures kind { IfOk result (λ x. x.kind ≡ kind) }
    ensures name { IfOk result (λ x. x.array.now ≡ name.entry) }
    ensures index { IfOk result (λ x. (es : Exprs Variable) → length parts.now < 4 → AreArguments parts.now es → index_exprs x.index.now ≡ es) }
{
    let Ok(index) = index_of(arena, parts) else {
        return Err(AllocError);
    };
    let Ok(array) = arena.node(name) else {
        return Err(AllocError);
    };
    Ok(Indexed { kind, array, index })
}

// An element of an array of a rank; where the parts are no index of it, that is told.
fn of_array<'t>(
    arena: Arena<'t>,
    last: Place,
    kind: ScalarKind,
    rank: usize,
    name: ArrayName<'t>,
    parts: &[Part<'t>],
    first: &mut Option<Breach>,
) -> Result<Option<Indexed<'t>>, AllocError>
    ensures told { IfOk result (λ r. TellsElement (type_by (element_of last kind rank (map part_view parts.now)))
        (broken_by (element_of last kind rank (map part_view parts.now))) r first.old first.new) }
    ensures node { IfOk result (λ r. (es : Exprs Variable) → is_rank rank ≡ true → AreArguments parts.now es → IfSome r (IsAt kind name.entry es)) }
{
    if !is_index(last, rank, parts, first) {
        return Ok(None);
    }
    match at_index(arena, kind, name, parts) {
        Ok(x) => Ok(Some(x)),
        Err(_) => Err(AllocError),
    }
}

// An element of what stands before the brackets: only an array has some.
fn of_value<'t>(
    arena: Arena<'t>,
    last: Place,
    from: Place,
    array: Option<Typed<'t>>,
    parts: &[Part<'t>],
    first: &mut Option<Breach>,
) -> Result<Option<Indexed<'t>>, AllocError>
    ensures told { IfOk result (λ r. TellsElement (type_by (with_type (types_of array.entry) (round_verdict last from (map part_view parts.now))))
        (broken_by (with_type (types_of array.entry) (round_verdict last from (map part_view parts.now)))) r first.old first.new) }
    ensures node { IfOk result (λ r. (f : Times → ExprTree Variable) (es : Exprs Variable) → StandsFor array.entry f → AreArguments parts.now es
        → IfSome r (IsElement f es)) }
{
    let Some(array) = array else {
        return Ok(None);
    };
    match array {
        Typed::Array {
            kind,
            over,
            slot,
            at,
        } => of_array(
            arena,
            last,
            kind,
            over.rank,
            ArrayName { at, slot },
            parts,
            first,
        ),
        Typed::Int(_)
        | Typed::Truth(_)
        | Typed::Range { .. }
        | Typed::Domain { .. }
        | Typed::Ints(_, _)
        | Typed::Truths(_, _)
        | Typed::Tuple { .. }
        | Typed::Locale
        | Typed::AllLocales
        | Typed::Cell(_) => {
            note(first, from, Code::WrongType);
            Ok(None)
        }
    }
}

/// An element that is written, by the declaration of its array's name, if it is one.
///
/// # Errors
/// Out of memory; of what was told and done then nothing is said.
#[tactic(auto, using(dpl_types::proofs::Breaches::least_from_append))]
pub(crate) fn element<'t>(
    arena: Arena<'t>,
    scopes: &Scopes<'t>,
    written: &Element<'_>,
    declared: Option<Declared<'t>>,
    deeds: &mut Vec<Deed<'t>>,
    first: &mut Option<Breach>,
) -> Result<Option<Indexed<'t>>, AllocError>
    ensures told { IfOk result (λ r. IsSighted scopes.now written.now.name.text.now declared.entry
        → TellsElement (type_by (element_verdict scopes.now written.now))
        (exprs_breaches scopes.now (exprs_view written.now.exprs) ++ broken_by (element_verdict scopes.now written.now)) r first.old first.new) }
    ensures node { IfOk result (λ r. IsSighted scopes.now written.now.name.text.now declared.entry → IsFound scopes.now written.now.name.text.now
        → IsNear written.now.name.at → WhereSimpleExprs scopes.now (exprs_view written.now.exprs) (IfSome r (IsIndexed scopes.now written.now))) }
    ensures deeds { OnOk result (Adds (exprs_deeds scopes.now (exprs_view written.now.exprs)) deeds.old.items deeds.new.items) }
{
    let Ok(parts) = exprs(arena, scopes, &written.exprs, deeds, first) else {
        return Err(AllocError);
    };
    let mut untold = None;
    let Ok(array) = named(arena, written.name.at, declared, &mut untold) else {
        return Err(AllocError);
    };
    of_value(arena, written.name.at, written.from, array, &parts, first)
}

/// The type of an element.
pub(crate) fn element_type<'t>(x: Option<Indexed<'_>>) -> Option<ValueType<'t>>
    ensures { of_type result ≡ indexed_types x.entry }
{
    match x {
        Some(x) => Some(ValueType::Scalar(x.kind)),
        None => None,
    }
}

// What an element that is an int is assigned.
fn set_int<'t>(
    arena: Arena<'t>,
    x: Indexed<'t>,
    sign: AssignSign,
    e: &'t IntExpr<'t>,
) -> Result<Step<'t>, AllocError>
    ensures { IfOk result (λ s. IsNear sign.at
        → step_view s ≡ changed_as IntKind x.entry sign.op sign.at (One (int_view e.now))) }
{
    let Ok(at) = spot(arena, sign.at) else {
        return Err(AllocError);
    };
    Ok(Step::SetElement(x.array, x.index, sign.op, at, e))
}

// What an element that is a truth value is assigned: arithmetic doesn't take it.
fn set_truth<'t>(x: Indexed<'t>, sign: AssignSign, e: &'t BoolExpr<'t>) -> Step<'t>
    ensures { element_by BoolKind sign.op ≡ true
        → step_view result ≡ changed_as BoolKind x.entry sign.op sign.at (One (truth_view e.now)) }
{
    match sign.op {
        Assign::Set => Step::Truth(TruthTarget::Element(x.array, x.index), e),
        Assign::SetAdd
        | Assign::SetSubtract
        | Assign::SetMultiply
        | Assign::SetDivide
        | Assign::SetRemainder
        | Assign::SetReduce => Step::Nothing,
    }
}

// What an element is assigned.
fn given<'t>(
    arena: Arena<'t>,
    x: Indexed<'t>,
    sign: AssignSign,
    value: Typed<'t>,
) -> Result<Step<'t>, AllocError>
    ensures { IfOk result (λ s. is_scalar x.entry.kind (type_of_typed value.entry) ≡ true → element_by x.entry.kind sign.op ≡ true → IsNear sign.at
        → step_view s ≡ changed_at x.entry sign.op sign.at (typed_item Once value.entry)) }
{
    match x.kind {
        ScalarKind::Int => match value {
            Typed::Int(e) => set_int(arena, x, sign, e),
            _ => Ok(Step::Nothing),
        },
        ScalarKind::Bool => match value {
            Typed::Truth(e) => Ok(set_truth(x, sign, e)),
            _ => Ok(Step::Nothing),
        },
    }
}

/// An element is given a value, where there are both.
///
/// # Errors
/// Out of memory.
pub(crate) fn given_to_element<'t>(
    arena: Arena<'t>,
    x: Option<Indexed<'t>>,
    sign: AssignSign,
    value: Option<Typed<'t>>,
) -> Result<Step<'t>, AllocError>
    ensures { IfOk result (λ s. (y : IndexedNode) (u : TypedNode) → x.entry ≡ Some y → value.entry ≡ Some u
        → is_scalar y.kind (type_of_typed u) ≡ true → element_by y.kind sign.op ≡ true → IsNear sign.at
        → step_view s ≡ changed_at y sign.op sign.at (typed_item Once u)) }
{
    let Some(x) = x else {
        return Ok(Step::Nothing);
    };
    let Some(value) = value else {
        return Ok(Step::Nothing);
    };
    given(arena, x, sign, value)
}
