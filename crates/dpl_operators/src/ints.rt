// Operators between ints, and between ints at each index.
// `+ - * / %` give ints and the comparisons truth values; a division by zero is told at its operator.

ghost use Rattle.std.specs.Prelude.{◌≡◌, IfOk, Some};
ghost use Rattle.dpl_language.specs.Arithmetic.{divides};
ghost use Rattle.dpl_language.specs.Tree.{IntKind, BoolKind};
ghost use Rattle.dpl_lowered.specs.LoweredExpressions.{Times};
ghost use Rattle.dpl_lowered.specs.Shapes.{nowhere, kept, two};
ghost use Rattle.dpl_nodes.specs.Spots.{IsNear};
ghost use Rattle.dpl_nodes.specs.Typed.{comparison_view, int_infix, int_place, int_view, promoted_int};
ghost use Rattle.dpl_rules.specs.Operators.{taking, taken};
ghost use Rattle.dpl_rules.specs.Types.{an_int, a_bool, Promoted};
ghost use Rattle.dpl_scopes.specs.Types.{over_view};
ghost use Rattle.dpl_typed.specs.Typed.{types_of};
ghost use Rattle.dpl_typed.specs.Stands.{StandsFor};
ghost use Rattle.dpl_typed.specs.Told.{Judges};

use dpl_nodes::{
    BoolExpr, Comparison, IntExpr, IntOperator, PromotedInt, PromotedIntLink, PromotedTruth,
};
use dpl_scopes::Over;
use dpl_syntax::{Breach, Place};
use dpl_tree::{Arena, Infix};
use dpl_typed::Made;
use dpl_typed::node::{int, ints, spot, truth, truths};
use dpl_typed::verdict::mistyped;
use std::alloc::AllocError;

// A comparison of two ints.
fn compared<'t>(
    arena: Arena<'t>,
    comparison: Comparison,
    left: &'t IntExpr<'t>,
    right: &'t IntExpr<'t>,
) -> Made<'t>
    ensures typed { IfOk result (λ r. types_of r ≡ Some a_bool) }
    ensures node { IfOk result (λ r. StandsFor r (λ m. two (int_view left.now) nowhere (comparison_view comparison) (int_view right.now))) }
{
    truth(arena, BoolExpr::Compare(comparison, left, right))
}

/// An operator between two ints.
///
/// # Errors
/// Out of memory; of what was told then nothing is said.
pub fn of_ints<'t>(
    arena: Arena<'t>,
    at: Place,
    op: Infix,
    left: &'t IntExpr<'t>,
    right: &'t IntExpr<'t>,
    first: &mut Option<Breach>,
) -> Made<'t>
    ensures told { IfOk result (λ r. Judges (taking (taken op) at an_int an_int) r first.old first.new) }
    ensures node { IfOk result (λ r. IsNear at → StandsFor r (λ m. two (int_view left.now) (kept (divides op) at) op (int_view right.now))) }
{
    match op {
        Infix::Add => int(arena, IntExpr::Sum(left, right)),
        Infix::Subtract => int(arena, IntExpr::Difference(left, right)),
        Infix::Multiply => int(arena, IntExpr::Product(left, right)),
        Infix::Divide => match spot(arena, at) {
            Ok(at) => int(arena, IntExpr::Quotient(left, right, at)),
            Err(_) => Err(AllocError),
        },
        Infix::Remainder => match spot(arena, at) {
            Ok(at) => int(arena, IntExpr::Remainder(left, right, at)),
            Err(_) => Err(AllocError),
        },
        Infix::Less => compared(arena, Comparison::Less, left, right),
        Infix::LessEqual => compared(arena, Comparison::AtMost, left, right),
        Infix::Greater => compared(arena, Comparison::Greater, left, right),
        Infix::GreaterEqual => compared(arena, Comparison::AtLeast, left, right),
        Infix::Equal => compared(arena, Comparison::Equal, left, right),
        Infix::NotEqual => compared(arena, Comparison::Unequal, left, right),
        Infix::And | Infix::Or => Ok(mistyped(at, first)),
    }
}

// A comparison of ints at each index.
fn promoted_compared<'t>(
    arena: Arena<'t>,
    comparison: Comparison,
    over: Over<'t>,
    left: &'t PromotedInt<'t>,
    right: &'t PromotedInt<'t>,
) -> Made<'t>
    ensures typed { IfOk result (λ r. types_of r ≡ Some (Promoted BoolKind (over_view over.entry))) }
    ensures node { IfOk result (λ r. StandsFor r (λ m. two (promoted_int m left.now) nowhere (comparison_view comparison) (promoted_int m right.now))) }
{
    truths(arena, over, PromotedTruth::Compare(comparison, left, right))
}

// Ints at each index, as a chain of one operator.
fn promoted_joined<'t>(
    arena: Arena<'t>,
    op: IntOperator<'t>,
    over: Over<'t>,
    left: &'t PromotedInt<'t>,
    right: &'t PromotedInt<'t>,
) -> Made<'t>
    ensures typed { IfOk result (λ r. types_of r ≡ Some (Promoted IntKind (over_view over.entry))) }
    ensures node { IfOk result (λ r. StandsFor r (λ m. two (promoted_int m left.now) (int_place op.entry) (int_infix op.entry) (promoted_int m right.now))) }
{
    match arena.node([PromotedIntLink { op, right }]) {
        Ok(links) => ints(arena, over, PromotedInt::Chain(left, links)),
        Err(_) => Err(AllocError),
    }
}

/// An operator between ints at each index; one that is repeated there is an int by its type.
///
/// # Errors
/// Out of memory; of what was told then nothing is said.
pub fn of_promoted_ints<'t>(
    arena: Arena<'t>,
    at: Place,
    op: Infix,
    over: Over<'t>,
    left: &'t PromotedInt<'t>,
    right: &'t PromotedInt<'t>,
    first: &mut Option<Breach>,
) -> Made<'t>
    ensures told { IfOk result (λ r. Judges (taking (taken op) at (Promoted IntKind (over_view over.entry)) an_int) r first.old first.new) }
    ensures node { IfOk result (λ r. IsNear at → StandsFor r (λ m. two (promoted_int m left.now) (kept (divides op) at) op (promoted_int m right.now))) }
{
    match op {
        Infix::Add => promoted_joined(arena, IntOperator::Sum, over, left, right),
        Infix::Subtract => promoted_joined(arena, IntOperator::Difference, over, left, right),
        Infix::Multiply => promoted_joined(arena, IntOperator::Product, over, left, right),
        Infix::Divide => match spot(arena, at) {
            Ok(at) => promoted_joined(arena, IntOperator::Quotient(at), over, left, right),
            Err(_) => Err(AllocError),
        },
        Infix::Remainder => match spot(arena, at) {
            Ok(at) => promoted_joined(arena, IntOperator::Remainder(at), over, left, right),
            Err(_) => Err(AllocError),
        },
        Infix::Less => promoted_compared(arena, Comparison::Less, over, left, right),
        Infix::LessEqual => promoted_compared(arena, Comparison::AtMost, over, left, right),
        Infix::Greater => promoted_compared(arena, Comparison::Greater, over, left, right),
        Infix::GreaterEqual => promoted_compared(arena, Comparison::AtLeast, over, left, right),
        Infix::Equal => promoted_compared(arena, Comparison::Equal, over, left, right),
        Infix::NotEqual => promoted_compared(arena, Comparison::Unequal, over, left, right),
        Infix::And | Infix::Or => Ok(mistyped(at, first)),
    }
}

/// An int beside a whole array: it is evaluated at each index anew.
///
/// # Errors
/// Out of memory.
pub fn repeated_int<'t>(
    arena: Arena<'t>,
    e: &'t IntExpr<'t>,
) -> Result<&'t PromotedInt<'t>, AllocError>
    ensures { IfOk result (λ r. (m : Times) → promoted_int m r.now ≡ int_view e.now) }
{
    arena.node(PromotedInt::Scalar(e))
}
