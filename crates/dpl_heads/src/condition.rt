// The expressions of `if`, `while` and `on`: a truth value, and a locale.
// A condition that breaks no rule is a truth value's node. No program with `on` is run.

ghost use Rattle.std.specs.Prelude.{◌≡◌, Bool, None, Option, IfOk, OnOk};
ghost use Rattle.dpl_lowered.specs.LoweredExpressions.{Once};
ghost use Rattle.dpl_rules.specs.Assignments.{condition_breaches, on_breaches};
ghost use Rattle.dpl_rules.specs.Breaches.{least_from};
ghost use Rattle.dpl_rules.specs.Deeds.{expr_deeds};
ghost use Rattle.dpl_rules.specs.Expressions.{type_of};
ghost use Rattle.dpl_rules.specs.Sights.{Reducing};
ghost use Rattle.dpl_tree.specs.View.{expr_view};
ghost use Rattle.dpl_deeds.specs.View.{Adds};
ghost use Rattle.dpl_typed.specs.Lowered.{leaves_of};
ghost use Rattle.dpl_typed.specs.Stands.{IsArgument};
ghost use Rattle.dpl_typed.specs.Told.{Tells};
ghost use Rattle.dpl_typed.specs.Where.{WhereSimple};
ghost use Rattle.dpl_heads.specs.Plain.{IsPlainExpr};
ghost use Rattle.dpl_heads.specs.Made.{IsTruth, IsTruthOf};
ghost use Rattle.dpl_heads.specs.Told.{within, wanted_told};

use dpl_deeds::Deed;
use dpl_elaborator::expression::part;
use dpl_nodes::BoolExpr;
use dpl_scopes::Scopes;
use dpl_syntax::Breach;
use dpl_tree::{Arena, Expr};
use dpl_typed::part::wanted;
use dpl_typed::{Made, Typed};
use dpl_types::Want;
use std::alloc::AllocError;

// An expression of a wanted type.
#[tactic(auto, using(dpl_types::proofs::Breaches::least_from_append))]
fn wanted_expr<'t>(
    arena: Arena<'t>,
    scopes: &Scopes<'t>,
    want: Want<'t>,
    e: &Expr<'_>,
    deeds: &mut Vec<Deed<'t>>,
    first: &mut Option<Breach>,
) -> Made<'t>
    ensures told { IfOk result (λ r. Tells (type_of scopes.now (expr_view e.now)) (wanted_told scopes.now want.entry (expr_view e.now)) r first.old first.new) }
    ensures node { IfOk result (λ r. WhereSimple scopes.now (expr_view e.now) (IsArgument r (leaves_of scopes.now Once (expr_view e.now)))) }
    ensures deeds { OnOk result (Adds (expr_deeds scopes.now (expr_view e.now)) deeds.old.items deeds.new.items) }
{
    let Ok(part) = part(arena, scopes, e, deeds, first) else {
        return Err(AllocError);
    };
    wanted(want, part, first);
    Ok(part.found)
}

// The node of a truth value.
fn truth_of<'t>(found: Option<Typed<'t>>) -> Option<&'t BoolExpr<'t>>
    ensures { IsTruthOf found.entry result }
{
    match found {
        Some(Typed::Truth(e)) => Some(e),
        _ => None,
    }
}

/// The condition of an `if` or a `while`: a truth value. Where it breaks a rule, and where it doesn't run, there may be none.
///
/// # Errors
/// Out of memory; of what was told and done then nothing is said.
pub fn condition<'t>(
    arena: Arena<'t>,
    scopes: &Scopes<'t>,
    e: &Expr<'_>,
    deeds: &mut Vec<Deed<'t>>,
    first: &mut Option<Breach>,
) -> Result<Option<&'t BoolExpr<'t>>, AllocError>
    ensures told { (forall : Option Reducing) (in_task : Bool)
        → OnOk result (first.new ≡ least_from first.old (condition_breaches (within scopes.now forall in_task) (expr_view e.now))) }
    ensures node { IfOk result (λ b. first.new ≡ None → IsPlainExpr scopes.now (expr_view e.now)
        → IsTruth (leaves_of scopes.now Once (expr_view e.now)) b) }
    ensures deeds { OnOk result (Adds (expr_deeds scopes.now (expr_view e.now)) deeds.old.items deeds.new.items) }
{
    let Ok(found) = wanted_expr(arena, scopes, Want::Bool, e, deeds, first) else {
        return Err(AllocError);
    };
    Ok(truth_of(found))
}

/// What `on` stands before: a locale.
///
/// # Errors
/// Out of memory; of what was told and done then nothing is said.
pub fn on<'t>(
    arena: Arena<'t>,
    scopes: &Scopes<'t>,
    e: &Expr<'_>,
    deeds: &mut Vec<Deed<'t>>,
    first: &mut Option<Breach>,
) -> Result<(), AllocError>
    ensures told { (forall : Option Reducing) (in_task : Bool)
        → OnOk result (first.new ≡ least_from first.old (on_breaches (within scopes.now forall in_task) (expr_view e.now))) }
    ensures deeds { OnOk result (Adds (expr_deeds scopes.now (expr_view e.now)) deeds.old.items deeds.new.items) }
{
    match wanted_expr(arena, scopes, Want::Locale, e, deeds, first) {
        Ok(_) => Ok(()),
        Err(_) => Err(AllocError),
    }
}
