// Numbers, truth words, and the variable that a name is, by its type.
// A variable is its slot; an array has its name's place too.

ghost use Rattle.std.specs.Prelude.{◌≡◌, IfOk, Some};
ghost use Rattle.dpl_language.specs.Tree.{Number, TruthWord};
ghost use Rattle.dpl_lowered.specs.Shapes.{nowhere};
ghost use Rattle.dpl_memory.specs.Memory.{VariableKind};
ghost use Rattle.dpl_rules.specs.Types.{an_int, a_bool, Array, Promoted};
ghost use Rattle.dpl_scopes.specs.Types.{type_view, over_view};
ghost use Rattle.dpl_nodes.specs.Spots.{IsNear};
ghost use Rattle.dpl_typed.specs.Typed.{types_of};
ghost use Rattle.dpl_typed.specs.Leaves.{value_kind, leaf_view};
ghost use Rattle.dpl_typed.specs.Stands.{StandsFor};

use crate::node::{domain, int, ints, range, spot, truth, truths};
use crate::typed::{Made, Typed};
use dpl_nodes::{BoolExpr, DomainExpr, IntExpr, PromotedInt, PromotedTruth, RangeExpr};
use dpl_scopes::{Over, ValueType};
use dpl_syntax::Place;
use dpl_tree::{Arena, ScalarKind};
use std::alloc::AllocError;

/// A number.
///
/// # Errors
/// Out of memory.
pub fn number<'t>(arena: Arena<'t>, n: i64) -> Made<'t>
    ensures typed { IfOk result (λ r. types_of r ≡ Some an_int) }
    ensures node { IfOk result (λ r. StandsFor r (λ m. Number nowhere n)) }
{
    int(arena, IntExpr::Number(n))
}

/// `true` or `false`.
///
/// # Errors
/// Out of memory.
pub fn truth_word<'t>(arena: Arena<'t>, b: bool) -> Made<'t>
    ensures typed { IfOk result (λ r. types_of r ≡ Some a_bool) }
    ensures node { IfOk result (λ r. StandsFor r (λ m. TruthWord nowhere b)) }
{
    truth(arena, BoolExpr::Truth(b))
}

// A whole array by its name.
fn array<'t>(arena: Arena<'t>, kind: ScalarKind, over: Over<'t>, slot: usize, at: Place) -> Made<'t>
    ensures typed { IfOk result (λ r. types_of r ≡ Some (Array kind (over_view over.entry))) }
    ensures node { IfOk result (λ r. (k : VariableKind) → value_kind (Array kind (over_view over.entry)) ≡ Some k → IsNear at
        → StandsFor r (λ m. leaf_view m at k slot)) }
{
    let Ok(at) = spot(arena, at) else {
        return Err(AllocError);
    };
    Ok(Some(Typed::Array {
        kind,
        over,
        slot,
        at,
    }))
}

// A name of the type of promoted expressions, which no declaration has. It would stand for an array's elements.
fn promoted<'t>(
    arena: Arena<'t>,
    kind: ScalarKind,
    over: Over<'t>,
    slot: usize,
    at: Place,
) -> Made<'t>
    ensures typed { IfOk result (λ r. types_of r ≡ Some (Promoted kind (over_view over.entry))) }
    ensures node { IfOk result (λ r. (k : VariableKind) → value_kind (Promoted kind (over_view over.entry)) ≡ Some k → IsNear at
        → StandsFor r (λ m. leaf_view m at k slot)) }
{
    let Ok(at) = spot(arena, at) else {
        return Err(AllocError);
    };
    match kind {
        ScalarKind::Int => ints(arena, over, PromotedInt::Element(slot, at)),
        ScalarKind::Bool => truths(arena, over, PromotedTruth::Element(slot, at)),
    }
}

/// The variable of a type, in a slot.
///
/// # Errors
/// Out of memory.
pub fn variable<'t>(arena: Arena<'t>, t: ValueType<'t>, slot: usize, at: Place) -> Made<'t>
    ensures typed { IfOk result (λ r. types_of r ≡ Some (type_view t.entry)) }
    ensures node { IfOk result (λ r. (k : VariableKind) → value_kind (type_view t.entry) ≡ Some k → IsNear at
        → StandsFor r (λ m. leaf_view m at k slot)) }
{
    match t {
        ValueType::Scalar(ScalarKind::Int) => int(arena, IntExpr::Local(slot)),
        ValueType::Scalar(ScalarKind::Bool) => truth(arena, BoolExpr::Local(slot)),
        ValueType::Range { strided } => range(arena, strided, RangeExpr::Local(slot)),
        ValueType::Domain { rank, strided } => domain(
            arena,
            rank,
            strided,
            DomainExpr::Local(slot),
        ),
        ValueType::Array(kind, over) => array(arena, kind, over, slot, at),
        ValueType::Promoted(kind, over) => promoted(arena, kind, over, slot, at),
        ValueType::Tuple(rank) => Ok(Some(Typed::Tuple { rank, slot })),
        ValueType::Locale => Ok(Some(Typed::Locale)),
        ValueType::AllLocales => Ok(Some(Typed::AllLocales)),
        ValueType::Cell(kind) => Ok(Some(Typed::Cell(kind))),
    }
}
