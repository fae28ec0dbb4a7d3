// Nodes in the arena, each as a typed expression; and the places of faults.
// What is made of a node stands for what the node does.

ghost use Rattle.std.specs.Prelude.{◌≡◌, true, IfOk, Some};
ghost use Rattle.dpl_rules.specs.Types.{an_int, a_bool, Range, Domain, Promoted};
ghost use Rattle.dpl_language.specs.Tree.{IntKind, BoolKind};
ghost use Rattle.dpl_scopes.specs.Types.{over_view};
ghost use Rattle.dpl_nodes.specs.Spots.{IsNear};
ghost use Rattle.dpl_nodes.specs.Typed.{int_view, truth_view, range_view, range_item, domain_view, promoted_int, promoted_truth};
ghost use Rattle.dpl_typed.specs.Typed.{types_of, is_rank};
ghost use Rattle.dpl_typed.specs.Stands.{StandsFor, StandsForItem};

use crate::typed::{Made, Typed};
use dpl_nodes::{BoolExpr, DomainExpr, IntExpr, PromotedInt, PromotedTruth, RangeExpr, Spot};
use dpl_scopes::Over;
use dpl_syntax::Place;
use dpl_tree::Arena;
use std::alloc::AllocError;

// The place, or 0:0 in the stead of one past 2^21, which no text has.
fn near(at: Place) -> Place
    ensures same { IsNear at → result ≡ at }
    ensures near { IsNear result }
{
    if at.line < 2_097_152 && at.column < 2_097_152 {
        at
    } else {
        Place { line: 0, column: 0 }
    }
}

/// The place of a fault, in the arena. Of a place past 2^21, which no text has, nothing is promised.
///
/// # Errors
/// Out of memory.
pub fn spot<'t>(arena: Arena<'t>, at: Place) -> Result<&'t Spot, AllocError>
    ensures { IfOk result (λ s. IsNear at → s.now ≡ at) }
{
    arena.node(Spot::new(near(at)).unwrap())
}

/// An int.
///
/// # Errors
/// Out of memory.
pub fn int<'t>(arena: Arena<'t>, node: IntExpr<'t>) -> Made<'t>
    ensures typed { IfOk result (λ r. types_of r ≡ Some an_int) }
    ensures node { IfOk result (λ r. StandsFor r (λ m. int_view node.entry)) }
{
    match arena.node(node) {
        Ok(node) => Ok(Some(Typed::Int(node))),
        Err(_) => Err(AllocError),
    }
}

/// A truth value.
///
/// # Errors
/// Out of memory.
pub fn truth<'t>(arena: Arena<'t>, node: BoolExpr<'t>) -> Made<'t>
    ensures typed { IfOk result (λ r. types_of r ≡ Some a_bool) }
    ensures node { IfOk result (λ r. StandsFor r (λ m. truth_view node.entry)) }
{
    match arena.node(node) {
        Ok(node) => Ok(Some(Typed::Truth(node))),
        Err(_) => Err(AllocError),
    }
}

/// A range.
///
/// # Errors
/// Out of memory.
pub fn range<'t>(arena: Arena<'t>, strided: bool, node: RangeExpr<'t>) -> Made<'t>
    ensures typed { IfOk result (λ r. types_of r ≡ Some (Range strided)) }
    ensures node { IfOk result (λ r. StandsFor r (λ m. range_view node.entry)) }
    ensures item { IfOk result (λ r. StandsForItem r (λ m. range_item node.entry)) }
{
    match arena.node(node) {
        Ok(node) => Ok(Some(Typed::Range { strided, node })),
        Err(_) => Err(AllocError),
    }
}

/// A domain.
///
/// # Errors
/// Out of memory.
pub fn domain<'t>(arena: Arena<'t>, rank: usize, strided: bool, node: DomainExpr<'t>) -> Made<'t>
    ensures typed { IfOk result (λ r. types_of r ≡ Some (Domain rank strided)) }
    ensures node { IfOk result (λ r. is_rank rank ≡ true → StandsFor r (λ m. domain_view node.entry)) }
{
    match arena.node(node) {
        Ok(node) => Ok(Some(Typed::Domain {
            rank,
            strided,
            node,
        })),
        Err(_) => Err(AllocError),
    }
}

/// Ints at each index of the arrays in them.
///
/// # Errors
/// Out of memory.
pub fn ints<'t>(arena: Arena<'t>, over: Over<'t>, node: PromotedInt<'t>) -> Made<'t>
    ensures typed { IfOk result (λ r. types_of r ≡ Some (Promoted IntKind (over_view over.entry))) }
    ensures node { IfOk result (λ r. StandsFor r (λ m. promoted_int m node.entry)) }
{
    match arena.node(node) {
        Ok(node) => Ok(Some(Typed::Ints(over, node))),
        Err(_) => Err(AllocError),
    }
}

/// Truth values at each index of the arrays in them.
///
/// # Errors
/// Out of memory.
pub fn truths<'t>(arena: Arena<'t>, over: Over<'t>, node: PromotedTruth<'t>) -> Made<'t>
    ensures typed { IfOk result (λ r. types_of r ≡ Some (Promoted BoolKind (over_view over.entry))) }
    ensures node { IfOk result (λ r. StandsFor r (λ m. promoted_truth m node.entry)) }
{
    match arena.node(node) {
        Ok(node) => Ok(Some(Typed::Truths(over, node))),
        Err(_) => Err(AllocError),
    }
}
