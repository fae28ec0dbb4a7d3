// An operator before its operand: `-` takes an int and `!` a truth value, and both take them at each index too.
// C3 stands at the operator that doesn't take its operand.

ghost use Rattle.std.specs.Prelude.{IfOk, Some};
ghost use Rattle.dpl_language.specs.Tree.{Prefixed, ExprTree};
ghost use Rattle.dpl_lowered.specs.LoweredExpressions.{Times};
ghost use Rattle.dpl_lowered.specs.Shapes.{nowhere};
ghost use Rattle.dpl_memory.specs.Memory.{Variable};
ghost use Rattle.dpl_rules.specs.Operators.{prefixed, prefix_kind, prefix_verdict};
ghost use Rattle.dpl_rules.specs.Types.{operand_of};
ghost use Rattle.dpl_typed.specs.Typed.{types_of};
ghost use Rattle.dpl_typed.specs.Stands.{StandsFor};
ghost use Rattle.dpl_typed.specs.Told.{Judges};
ghost use Rattle.dpl_operators.specs.Operands.{operand_type, operand_tree};

use crate::operand::{Operand, as_operand};
use dpl_nodes::{BoolExpr, IntExpr, PromotedInt, PromotedTruth};
use dpl_syntax::{Breach, Place};
use dpl_tree::{Arena, Prefix};
use dpl_typed::node::{int, ints, truth, truths};
use dpl_typed::verdict::mistyped;
use dpl_typed::{Made, Typed};
use std::alloc::AllocError;

// An operator before an operand.
fn before<'t>(
    arena: Arena<'t>,
    at: Place,
    op: Prefix,
    operand: Operand<'t>,
    first: &mut Option<Breach>,
) -> Made<'t>
    ensures told { IfOk result (λ r. Judges (prefixed at (prefix_kind op) (operand_of (operand_type operand.entry))) r first.old first.new) }
    ensures node { IfOk result (λ r. StandsFor r (λ m. Prefixed nowhere op (operand_tree m operand.entry))) }
{
    match (op, operand) {
        (Prefix::Minus, Operand::Int(e)) => int(arena, IntExpr::Negative(e)),
        (Prefix::Minus, Operand::Ints(over, e)) => ints(arena, over, PromotedInt::Negative(e)),
        (Prefix::Not, Operand::Truth(e)) => truth(arena, BoolExpr::Not(e)),
        (Prefix::Not, Operand::Truths(over, e)) => truths(arena, over, PromotedTruth::Not(e)),
        (Prefix::Minus, Operand::Truth(_) | Operand::Truths(_, _))
        | (Prefix::Not, Operand::Int(_) | Operand::Ints(_, _)) => Ok(mistyped(at, first)),
    }
}

/// An operator before a typed expression.
///
/// # Errors
/// Out of memory; of what was told then nothing is said.
pub fn prefix<'t>(
    arena: Arena<'t>,
    at: Place,
    op: Prefix,
    e: Option<Typed<'t>>,
    first: &mut Option<Breach>,
) -> Made<'t>
    ensures told { IfOk result (λ r. Judges (prefix_verdict at op (types_of e.entry)) r first.old first.new) }
    ensures node { IfOk result (λ r. (f : Times → ExprTree Variable) → StandsFor e.entry f → StandsFor r (λ m. Prefixed nowhere op (f m))) }
{
    let Some(e) = e else {
        return Ok(None);
    };
    match as_operand(arena, e) {
        Ok(Some(operand)) => before(arena, at, op, operand, first),
        Ok(None) => Ok(mistyped(at, first)),
        Err(_) => Err(AllocError),
    }
}
