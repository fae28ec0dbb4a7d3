// What an operator sees of a typed expression: an int or a truth value, by itself or at each index of whole arrays.
// specs/Operands.antt gives the type and the tree of each.

ghost use Rattle.std.specs.Prelude.{IfOk};
ghost use Rattle.dpl_language.specs.Tree.{IntKind, BoolKind};
ghost use Rattle.dpl_operators.specs.Operands.{IsOperandOf};
ghost use Rattle.dpl_typed.specs.declared.typed.Typed.TheVariants.{Array};

use dpl_nodes::{BoolExpr, IntExpr, PromotedInt, PromotedTruth, Spot};
use dpl_scopes::Over;
use dpl_tree::{Arena, ScalarKind};
use dpl_typed::Typed;
use std::alloc::AllocError;

/// An operand of an operator; with what its arrays are over, where it has some.
#[derive(Clone, Copy)]
pub enum Operand<'t> {
    Int(&'t IntExpr<'t>),
    Truth(&'t BoolExpr<'t>),
    Ints(Over<'t>, &'t PromotedInt<'t>),
    Truths(Over<'t>, &'t PromotedTruth<'t>),
}

/// An operand, or nothing where the type is none of one; or out of memory.
pub type Seen<'t> = Result<Option<Operand<'t>>, AllocError>;

// The elements of a whole array of ints.
fn int_elements<'t>(arena: Arena<'t>, over: Over<'t>, slot: usize, at: &'t Spot) -> Seen<'t>
    ensures { IfOk result (λ o. IsOperandOf (Array IntKind over.entry slot at.entry) o) }
{
    match arena.node(PromotedInt::Element(slot, at)) {
        Ok(node) => Ok(Some(Operand::Ints(over, node))),
        Err(_) => Err(AllocError),
    }
}

// The elements of a whole array of truth values.
fn truth_elements<'t>(arena: Arena<'t>, over: Over<'t>, slot: usize, at: &'t Spot) -> Seen<'t>
    ensures { IfOk result (λ o. IsOperandOf (Array BoolKind over.entry slot at.entry) o) }
{
    match arena.node(PromotedTruth::Element(slot, at)) {
        Ok(node) => Ok(Some(Operand::Truths(over, node))),
        Err(_) => Err(AllocError),
    }
}

/// What an operator sees of a typed expression.
///
/// # Errors
/// Out of memory.
pub fn as_operand<'t>(arena: Arena<'t>, t: Typed<'t>) -> Seen<'t>
    ensures { IfOk result (λ o. IsOperandOf t.entry o) }
{
    match t {
        Typed::Int(e) => Ok(Some(Operand::Int(e))),
        Typed::Truth(e) => Ok(Some(Operand::Truth(e))),
        Typed::Ints(over, e) => Ok(Some(Operand::Ints(over, e))),
        Typed::Truths(over, e) => Ok(Some(Operand::Truths(over, e))),
        Typed::Array {
            kind: ScalarKind::Int,
            over,
            slot,
            at,
        } => int_elements(arena, over, slot, at),
        Typed::Array {
            kind: ScalarKind::Bool,
            over,
            slot,
            at,
        } => truth_elements(arena, over, slot, at),
        Typed::Range { .. }
        | Typed::Domain { .. }
        | Typed::Tuple { .. }
        | Typed::Locale
        | Typed::AllLocales
        | Typed::Cell(_) => Ok(None),
    }
}
