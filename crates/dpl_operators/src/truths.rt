// Operators between truth values, and between truth values at each index.
// `== !=` take both, and `&& ||` none that are promoted.

ghost use Rattle.std.specs.Prelude.{◌≡◌, IfOk, Some};
ghost use Rattle.dpl_language.specs.Tree.{BoolKind};
ghost use Rattle.dpl_lowered.specs.LoweredExpressions.{Times};
ghost use Rattle.dpl_lowered.specs.Shapes.{nowhere, two};
ghost use Rattle.dpl_nodes.specs.Typed.{junction_view, truth_view, promoted_truth};
ghost use Rattle.dpl_rules.specs.Operators.{taking, taken};
ghost use Rattle.dpl_rules.specs.Types.{a_bool, Promoted};
ghost use Rattle.dpl_scopes.specs.Types.{over_view};
ghost use Rattle.dpl_typed.specs.Typed.{types_of};
ghost use Rattle.dpl_typed.specs.Stands.{StandsFor};
ghost use Rattle.dpl_typed.specs.Told.{Judges};

use dpl_nodes::{BoolExpr, Junction, PromotedTruth, PromotedTruthLink, TruthLink};
use dpl_scopes::Over;
use dpl_syntax::{Breach, Place};
use dpl_tree::{Arena, Infix};
use dpl_typed::Made;
use dpl_typed::node::{truth, truths};
use dpl_typed::verdict::mistyped;
use std::alloc::AllocError;

// Two truth values, as a chain of one operator.
fn joined<'t>(
    arena: Arena<'t>,
    op: Junction,
    left: &'t BoolExpr<'t>,
    right: &'t BoolExpr<'t>,
) -> Made<'t>
    ensures typed { IfOk result (λ r. types_of r ≡ Some a_bool) }
    ensures node { IfOk result (λ r. StandsFor r (λ m. two (truth_view left.now) nowhere (junction_view op) (truth_view right.now))) }
{
    match arena.node([TruthLink { op, right }]) {
        Ok(links) => truth(arena, BoolExpr::Chain(left, links)),
        Err(_) => Err(AllocError),
    }
}

/// An operator between two truth values.
///
/// # Errors
/// Out of memory; of what was told then nothing is said.
pub fn of_truths<'t>(
    arena: Arena<'t>,
    at: Place,
    op: Infix,
    left: &'t BoolExpr<'t>,
    right: &'t BoolExpr<'t>,
    first: &mut Option<Breach>,
) -> Made<'t>
    ensures told { IfOk result (λ r. Judges (taking (taken op) at a_bool a_bool) r first.old first.new) }
    ensures node { IfOk result (λ r. StandsFor r (λ m. two (truth_view left.now) nowhere op (truth_view right.now))) }
{
    match op {
        Infix::Equal => joined(arena, Junction::Same, left, right),
        Infix::NotEqual => joined(arena, Junction::Differ, left, right),
        Infix::And => joined(arena, Junction::And, left, right),
        Infix::Or => joined(arena, Junction::Or, left, right),
        Infix::Add
        | Infix::Subtract
        | Infix::Multiply
        | Infix::Divide
        | Infix::Remainder
        | Infix::Less
        | Infix::LessEqual
        | Infix::Greater
        | Infix::GreaterEqual => Ok(mistyped(at, first)),
    }
}

// Truth values at each index, as a chain of one operator.
fn promoted_joined<'t>(
    arena: Arena<'t>,
    op: Junction,
    over: Over<'t>,
    left: &'t PromotedTruth<'t>,
    right: &'t PromotedTruth<'t>,
) -> Made<'t>
    ensures typed { IfOk result (λ r. types_of r ≡ Some (Promoted BoolKind (over_view over.entry))) }
    ensures node { IfOk result (λ r. StandsFor r (λ m. two (promoted_truth m left.now) nowhere (junction_view op) (promoted_truth m right.now))) }
{
    match arena.node([PromotedTruthLink { op, right }]) {
        Ok(links) => truths(arena, over, PromotedTruth::Chain(left, links)),
        Err(_) => Err(AllocError),
    }
}

/// An operator between truth values at each index; one that is repeated there is a truth value by its type.
///
/// # Errors
/// Out of memory; of what was told then nothing is said.
pub fn of_promoted_truths<'t>(
    arena: Arena<'t>,
    at: Place,
    op: Infix,
    over: Over<'t>,
    left: &'t PromotedTruth<'t>,
    right: &'t PromotedTruth<'t>,
    first: &mut Option<Breach>,
) -> Made<'t>
    ensures told { IfOk result (λ r. Judges (taking (taken op) at (Promoted BoolKind (over_view over.entry)) a_bool) r first.old first.new) }
    ensures node { IfOk result (λ r. StandsFor r (λ m. two (promoted_truth m left.now) nowhere op (promoted_truth m right.now))) }
{
    match op {
        Infix::Equal => promoted_joined(arena, Junction::Same, over, left, right),
        Infix::NotEqual => promoted_joined(arena, Junction::Differ, over, left, right),
        Infix::Add
        | Infix::Subtract
        | Infix::Multiply
        | Infix::Divide
        | Infix::Remainder
        | Infix::Less
        | Infix::LessEqual
        | Infix::Greater
        | Infix::GreaterEqual
        | Infix::And
        | Infix::Or => Ok(mistyped(at, first)),
    }
}

/// A truth value beside a whole array.
///
/// # Errors
/// Out of memory.
pub fn repeated_truth<'t>(
    arena: Arena<'t>,
    e: &'t BoolExpr<'t>,
) -> Result<&'t PromotedTruth<'t>, AllocError>
    ensures { IfOk result (λ r. (m : Times) → promoted_truth m r.now ≡ truth_view e.now) }
{
    arena.node(PromotedTruth::Scalar(e))
}
