// Reductions: an operator puts together what a whole array or a promoted expression has at its indices.
// `&& ||` take truth values and the others ints. C3 stands at the operator that doesn't take its operand.

ghost use Rattle.std.specs.Prelude.{IfOk, Some};
ghost use Rattle.dpl_language.specs.Tree.{Reduced, ExprTree, IntKind, BoolKind};
ghost use Rattle.dpl_lowered.specs.LoweredExpressions.{Times, EachTurn};
ghost use Rattle.dpl_lowered.specs.Shapes.{nowhere};
ghost use Rattle.dpl_memory.specs.Memory.{Variable};
ghost use Rattle.dpl_nodes.specs.Spots.{IsNear};
ghost use Rattle.dpl_nodes.specs.Typed.{int_fold_view, truth_fold_view};
ghost use Rattle.dpl_rules.specs.Operators.{reduced, reduction_verdict};
ghost use Rattle.dpl_rules.specs.Types.{operand_of};
ghost use Rattle.dpl_typed.specs.Typed.{types_of};
ghost use Rattle.dpl_typed.specs.Stands.{StandsFor};
ghost use Rattle.dpl_typed.specs.Told.{Judges};
ghost use Rattle.dpl_operators.specs.Operands.{operand_type, operand_tree};

use crate::operand::{Operand, as_operand};
use dpl_nodes::{BoolExpr, Fold, IntExpr, IntFold, TruthFold};
use dpl_syntax::{Breach, Place};
use dpl_tree::{Arena, Op};
use dpl_typed::node::{int, spot, truth};
use dpl_typed::verdict::mistyped;
use dpl_typed::{Made, Typed};
use std::alloc::AllocError;

// Ints put together.
fn of_ints<'t>(
    arena: Arena<'t>,
    at: Place,
    fold: IntFold,
    word: Place,
    operand: Operand<'t>,
    first: &mut Option<Breach>,
) -> Made<'t>
    ensures told { IfOk result (λ r. Judges (reduced at IntKind (operand_of (operand_type operand.entry))) r first.old first.new) }
    ensures node { IfOk result (λ r. IsNear word
        → StandsFor r (λ m. Reduced nowhere (int_fold_view fold) word (operand_tree EachTurn operand.entry))) }
{
    match operand {
        Operand::Ints(_, e) => match spot(arena, word) {
            Ok(word) => int(arena, IntExpr::Reduced(fold, e, word)),
            Err(_) => Err(AllocError),
        },
        Operand::Int(_) | Operand::Truth(_) | Operand::Truths(_, _) => Ok(mistyped(at, first)),
    }
}

// Truth values put together.
fn of_truths<'t>(
    arena: Arena<'t>,
    at: Place,
    fold: TruthFold,
    word: Place,
    operand: Operand<'t>,
    first: &mut Option<Breach>,
) -> Made<'t>
    ensures told { IfOk result (λ r. Judges (reduced at BoolKind (operand_of (operand_type operand.entry))) r first.old first.new) }
    ensures node { IfOk result (λ r. IsNear word
        → StandsFor r (λ m. Reduced nowhere (truth_fold_view fold) word (operand_tree EachTurn operand.entry))) }
{
    match operand {
        Operand::Truths(_, e) => match spot(arena, word) {
            Ok(word) => truth(arena, BoolExpr::Reduced(fold, e, word)),
            Err(_) => Err(AllocError),
        },
        Operand::Int(_) | Operand::Truth(_) | Operand::Ints(_, _) => Ok(mistyped(at, first)),
    }
}

/// A reduction; that its indices are too many is told at the word `reduce`.
///
/// # Errors
/// Out of memory; of what was told then nothing is said.
pub fn reduction<'t>(
    arena: Arena<'t>,
    at: Place,
    op: Op,
    word: Place,
    e: Option<Typed<'t>>,
    first: &mut Option<Breach>,
) -> Made<'t>
    ensures told { IfOk result (λ r. Judges (reduction_verdict at op (types_of e.entry)) r first.old first.new) }
    ensures node { IfOk result (λ r. (f : Times → ExprTree Variable) → StandsFor e.entry f → IsNear word
        → StandsFor r (λ m. Reduced nowhere op word (f EachTurn))) }
{
    let Some(e) = e else {
        return Ok(None);
    };
    let Ok(operand) = as_operand(arena, e) else {
        return Err(AllocError);
    };
    let Some(operand) = operand else {
        return Ok(mistyped(at, first));
    };
    match Fold::of(op) {
        Fold::Ints(fold) => of_ints(arena, at, fold, word, operand, first),
        Fold::Truths(fold) => of_truths(arena, at, fold, word, operand, first),
    }
}
