// What may be printed: texts, ints, bools, arrays by their names and, outside tasks, cell reads.
// Anything else is C3 at its first token.

ghost use Rattle.std.specs.Prelude.{◌≡◌, None, IfOk, OnOk};
ghost use Rattle.dpl_language.specs.Phrases.{bare_name as bare_name_of};
ghost use Rattle.dpl_language.specs.Tree.{ExprArgument};
ghost use Rattle.dpl_lowered.specs.LoweredExpressions.{Once};
ghost use Rattle.dpl_rules.specs.Assignments.{is_printed};
ghost use Rattle.dpl_rules.specs.Breaches.{least_from};
ghost use Rattle.dpl_rules.specs.Deeds.{expr_deeds};
ghost use Rattle.dpl_rules.specs.Types.{ValueType};
ghost use Rattle.dpl_syntax.specs.Text.{text_value};
ghost use Rattle.dpl_tree.specs.Statements.{argument_view};
ghost use Rattle.dpl_tree.specs.View.{expr_view};
ghost use Rattle.dpl_types.specs.Wants.{takes};
ghost use Rattle.dpl_deeds.specs.View.{Adds};
ghost use Rattle.dpl_typed.specs.Lowered.{leaves_of};
ghost use Rattle.dpl_typed.specs.Stands.{IsArgument};
ghost use Rattle.dpl_typed.specs.Told.{TellsPart};
ghost use Rattle.dpl_typed.specs.Where.{WhereSimple};
ghost use Rattle.dpl_bound.specs.Sights.{AreKnownScopes};
ghost use Rattle.dpl_prints.specs.Plain.{IsPlainArgument};
ghost use Rattle.dpl_prints.specs.Told.{argument_part_in, argument_in, argument_told};
ghost use Rattle.dpl_prints.specs.Made.{shown_of, IsArgumentAs};
ghost use Rattle.dpl_prints.specs.Done.{argument_deeds};

use dpl_assignments::side::side;
use dpl_deeds::Deed;
use dpl_elaborator::expression::part;
use dpl_lexer::text_bytes;
use dpl_nodes::step::Argument as Shown;
use dpl_scopes::Scopes;
use dpl_syntax::{Breach, Bytes};
use dpl_tree::{Arena, Argument, Expr, Item};
use dpl_typed::part::wanted;
use dpl_typed::{Part, Typed};
use dpl_types::Want;
use std::alloc::AllocError;

// A text, by the bytes that its escapes mean.
fn text<'t>(arena: Arena<'t>, bytes: &[u8]) -> Result<&'t [u8], AllocError>
    ensures { IfOk result (λ meant. meant.now ≡ text_value bytes.now) }
{
    match text_bytes(arena.alloc(), &Bytes::new(bytes)) {
        Ok(meant) => arena.list(meant),
        Err(_) => Err(AllocError),
    }
}

// An expression that is printed, as a part of its form. In a task a cell read is none.
fn printed_part<'t>(
    arena: Arena<'t>,
    scopes: &Scopes<'t>,
    in_task: bool,
    e: &Expr<'_>,
    deeds: &mut Vec<Deed<'t>>,
    first: &mut Option<Breach>,
) -> Result<Part<'t>, AllocError>
    ensures told { IfOk result (λ p. TellsPart (argument_part_in scopes.now in_task (expr_view e.now))
        (argument_in scopes.now in_task (expr_view e.now)) p first.old first.new) }
    ensures node { IfOk result (λ p. WhereSimple scopes.now (expr_view e.now) (IsArgument p.found (leaves_of scopes.now Once (expr_view e.now)))) }
    ensures deeds { OnOk result (Adds (expr_deeds scopes.now (expr_view e.now)) deeds.old.items deeds.new.items) }
{
    if in_task {
        part(arena, scopes, e, deeds, first)
    } else {
        side(arena, scopes, &Item::One(e), deeds, first)
    }
}

// What a printed expression may be: by its bare name an array too.
fn printed_want<'t>(e: &Expr<'_>) -> Want<'t>
    ensures { (t : ValueType) → takes result t ≡ is_printed (bare_name_of (expr_view e.now)) t }
{
    match e.bare_name() {
        None => Want::AnyScalar,
        Some(_) => Want::Printed,
    }
}

// What is shown of what was found.
fn shown<'t>(found: Option<Typed<'t>>) -> Option<Shown<'t>>
    ensures { result ≡ shown_of found.entry }
{
    let Some(t) = found else {
        return None;
    };
    match t {
        Typed::Int(e) => Some(Shown::Int(e)),
        Typed::Truth(e) => Some(Shown::Truth(e)),
        Typed::Array { kind, slot, .. } => Some(Shown::Array(kind, slot)),
        Typed::Range { .. }
        | Typed::Domain { .. }
        | Typed::Ints(_, _)
        | Typed::Truths(_, _)
        | Typed::Tuple { .. }
        | Typed::Locale
        | Typed::AllLocales
        | Typed::Cell(_) => None,
    }
}

// An expression.
#[tactic(auto, using(dpl_types::proofs::Breaches::least_from_append))]
fn value<'t>(
    arena: Arena<'t>,
    scopes: &Scopes<'t>,
    in_task: bool,
    e: &Expr<'_>,
    deeds: &mut Vec<Deed<'t>>,
    first: &mut Option<Breach>,
) -> Result<Option<Shown<'t>>, AllocError>
    ensures told { IfOk result (λ r. first.new ≡ least_from first.old (argument_told scopes.now in_task (ExprArgument (expr_view e.now)))) }
    ensures node { IfOk result (λ r. first.new ≡ None → AreKnownScopes scopes.now
        → WhereSimple scopes.now (expr_view e.now) (IsArgumentAs scopes.now (ExprArgument (expr_view e.now)) r)) }
    ensures deeds { OnOk result (Adds (expr_deeds scopes.now (expr_view e.now)) deeds.old.items deeds.new.items) }
{
    let Ok(part) = printed_part(arena, scopes, in_task, e, deeds, first) else {
        return Err(AllocError);
    };
    wanted(printed_want(e), part, first);
    Ok(shown(part.found))
}

/// An argument, and what is shown of it; of one that is broken, or doesn't run, nothing is.
///
/// # Errors
/// Out of memory; of what was told and done then nothing is said.
pub(crate) fn argument<'t>(
    arena: Arena<'t>,
    scopes: &Scopes<'t>,
    in_task: bool,
    written: &Argument<'_>,
    deeds: &mut Vec<Deed<'t>>,
    first: &mut Option<Breach>,
) -> Result<Option<Shown<'t>>, AllocError>
    ensures told { IfOk result (λ r. first.new ≡ least_from first.old (argument_told scopes.now in_task (argument_view written.now))) }
    ensures node { IfOk result (λ r. first.new ≡ None → AreKnownScopes scopes.now → IsPlainArgument scopes.now (argument_view written.now)
        → IsArgumentAs scopes.now (argument_view written.now) r) }
    ensures deeds { OnOk result (Adds (argument_deeds scopes.now (argument_view written.now)) deeds.old.items deeds.new.items) }
{
    match written {
        Argument::Text(_, bytes) => match text(arena, bytes) {
            Ok(meant) => Ok(Some(Shown::Text(meant))),
            Err(_) => Err(AllocError),
        },
        Argument::Expr(e) => value(arena, scopes, in_task, e, deeds, first),
    }
}
