// An operator between two operands: its rule, and its node, promoted if an operand is.
// C3 stands at the operator that doesn't take its operands.

ghost use Rattle.std.specs.Prelude.{IfOk, Some};
ghost use Rattle.dpl_language.specs.Arithmetic.{divides};
ghost use Rattle.dpl_language.specs.Tree.{IntKind, BoolKind, ExprTree};
ghost use Rattle.dpl_lowered.specs.LoweredExpressions.{Times};
ghost use Rattle.dpl_lowered.specs.Shapes.{nowhere, kept, two};
ghost use Rattle.dpl_memory.specs.Memory.{Variable};
ghost use Rattle.dpl_nodes.specs.Spots.{IsNear};
ghost use Rattle.dpl_nodes.specs.Typed.{int_view, truth_view, promoted_int, promoted_truth};
ghost use Rattle.dpl_rules.specs.Operators.{taking, taken, infix_verdict};
ghost use Rattle.dpl_rules.specs.Types.{an_int, a_bool, Promoted};
ghost use Rattle.dpl_scopes.specs.Types.{over_view};
ghost use Rattle.dpl_typed.specs.Typed.{types_of};
ghost use Rattle.dpl_typed.specs.Stands.{StandsFor};
ghost use Rattle.dpl_typed.specs.Told.{Judges};
ghost use Rattle.dpl_operators.specs.Operands.{operand_type, operand_tree};

use crate::ints::{of_ints, of_promoted_ints, repeated_int};
use crate::operand::{Operand, as_operand};
use crate::truths::{of_promoted_truths, of_truths, repeated_truth};
use dpl_nodes::{BoolExpr, IntExpr, PromotedInt, PromotedTruth};
use dpl_scopes::Over;
use dpl_syntax::{Breach, Place};
use dpl_tree::{Arena, Infix};
use dpl_typed::verdict::mistyped;
use dpl_typed::{Made, Typed};
use std::alloc::AllocError;

// An operator behind an int.
fn behind_int<'t>(
    arena: Arena<'t>,
    at: Place,
    op: Infix,
    left: &'t IntExpr<'t>,
    right: Operand<'t>,
    first: &mut Option<Breach>,
) -> Made<'t>
    ensures told { IfOk result (λ r. Judges (taking (taken op) at an_int (operand_type right.entry)) r first.old first.new) }
    ensures node { IfOk result (λ r. IsNear at → StandsFor r (λ m. two (int_view left.now) (kept (divides op) at) op (operand_tree m right.entry))) }
{
    match right {
        Operand::Int(right) => of_ints(arena, at, op, left, right, first),
        Operand::Ints(over, right) => match repeated_int(arena, left) {
            Ok(left) => of_promoted_ints(arena, at, op, over, left, right, first),
            Err(_) => Err(AllocError),
        },
        Operand::Truth(_) | Operand::Truths(_, _) => Ok(mistyped(at, first)),
    }
}

// An operator behind ints at each index.
fn behind_ints<'t>(
    arena: Arena<'t>,
    at: Place,
    op: Infix,
    over: Over<'t>,
    left: &'t PromotedInt<'t>,
    right: Operand<'t>,
    first: &mut Option<Breach>,
) -> Made<'t>
    ensures told { IfOk result (λ r. Judges (taking (taken op) at (Promoted IntKind (over_view over.entry)) (operand_type right.entry)) r first.old first.new) }
    ensures node { IfOk result (λ r. IsNear at → StandsFor r (λ m. two (promoted_int m left.now) (kept (divides op) at) op (operand_tree m right.entry))) }
{
    match right {
        Operand::Int(right) => match repeated_int(arena, right) {
            Ok(right) => of_promoted_ints(arena, at, op, over, left, right, first),
            Err(_) => Err(AllocError),
        },
        Operand::Ints(other, right) => {
            if over.agrees(Some(other)) {
                of_promoted_ints(arena, at, op, over, left, right, first)
            } else {
                Ok(mistyped(at, first))
            }
        }
        Operand::Truth(_) | Operand::Truths(_, _) => Ok(mistyped(at, first)),
    }
}

// An operator behind a truth value.
fn behind_truth<'t>(
    arena: Arena<'t>,
    at: Place,
    op: Infix,
    left: &'t BoolExpr<'t>,
    right: Operand<'t>,
    first: &mut Option<Breach>,
) -> Made<'t>
    ensures told { IfOk result (λ r. Judges (taking (taken op) at a_bool (operand_type right.entry)) r first.old first.new) }
    ensures node { IfOk result (λ r. StandsFor r (λ m. two (truth_view left.now) nowhere op (operand_tree m right.entry))) }
{
    match right {
        Operand::Truth(right) => of_truths(arena, at, op, left, right, first),
        Operand::Truths(over, right) => match repeated_truth(arena, left) {
            Ok(left) => of_promoted_truths(arena, at, op, over, left, right, first),
            Err(_) => Err(AllocError),
        },
        Operand::Int(_) | Operand::Ints(_, _) => Ok(mistyped(at, first)),
    }
}

// An operator behind truth values at each index.
fn behind_truths<'t>(
    arena: Arena<'t>,
    at: Place,
    op: Infix,
    over: Over<'t>,
    left: &'t PromotedTruth<'t>,
    right: Operand<'t>,
    first: &mut Option<Breach>,
) -> Made<'t>
    ensures told { IfOk result (λ r. Judges (taking (taken op) at (Promoted BoolKind (over_view over.entry)) (operand_type right.entry)) r
        first.old first.new) }
    ensures node { IfOk result (λ r. StandsFor r (λ m. two (promoted_truth m left.now) nowhere op (operand_tree m right.entry))) }
{
    match right {
        Operand::Truth(right) => match repeated_truth(arena, right) {
            Ok(right) => of_promoted_truths(arena, at, op, over, left, right, first),
            Err(_) => Err(AllocError),
        },
        Operand::Truths(other, right) => {
            if over.agrees(Some(other)) {
                of_promoted_truths(arena, at, op, over, left, right, first)
            } else {
                Ok(mistyped(at, first))
            }
        }
        Operand::Int(_) | Operand::Ints(_, _) => Ok(mistyped(at, first)),
    }
}

// An operator between two operands.
fn between<'t>(
    arena: Arena<'t>,
    at: Place,
    op: Infix,
    left: Operand<'t>,
    right: Operand<'t>,
    first: &mut Option<Breach>,
) -> Made<'t>
    ensures told { IfOk result (λ r. Judges (taking (taken op) at (operand_type left.entry) (operand_type right.entry)) r first.old first.new) }
    ensures node { IfOk result (λ r. IsNear at
        → StandsFor r (λ m. two (operand_tree m left.entry) (kept (divides op) at) op (operand_tree m right.entry))) }
{
    match left {
        Operand::Int(left) => behind_int(arena, at, op, left, right, first),
        Operand::Truth(left) => behind_truth(arena, at, op, left, right, first),
        Operand::Ints(over, left) => behind_ints(arena, at, op, over, left, right, first),
        Operand::Truths(over, left) => behind_truths(arena, at, op, over, left, right, first),
    }
}

/// An operator between two typed expressions: `+ - * / %` take ints, `< <= > >=` ints and give truth values, `== !=` two ints
/// or two truth values, and `&& ||` truth values. All but `&& ||` take whole arrays and promoted operands, over one index set.
///
/// # Errors
/// Out of memory; of what was told then nothing is said.
pub fn infix<'t>(
    arena: Arena<'t>,
    at: Place,
    op: Infix,
    a: Option<Typed<'t>>,
    b: Option<Typed<'t>>,
    first: &mut Option<Breach>,
) -> Made<'t>
    ensures told { IfOk result (λ r. Judges (infix_verdict at op (types_of a.entry) (types_of b.entry)) r first.old first.new) }
    ensures node { IfOk result (λ r. (f g : Times → ExprTree Variable) → StandsFor a.entry f → StandsFor b.entry g → IsNear at
        → StandsFor r (λ m. two (f m) (kept (divides op) at) op (g m))) }
{
    let (Some(a), Some(b)) = (a, b) else {
        return Ok(None);
    };
    let Ok(left) = as_operand(arena, a) else {
        return Err(AllocError);
    };
    let Ok(right) = as_operand(arena, b) else {
        return Err(AllocError);
    };
    match (left, right) {
        (Some(left), Some(right)) => between(arena, at, op, left, right, first),
        (None, _) | (Some(_), None) => Ok(mistyped(at, first)),
    }
}
