// Where a map starts, and how large its blocks are: an int, the least members of a domain, or a tuple of as many ints as the rank.
// C5 stands at the word of the map.

ghost use Rattle.std.specs.Prelude.{◌≡◌, ◌<◌, None, IfOk, OnOk, length, map};
ghost use Rattle.dpl_rules.specs.Breaches.{least_from};
ghost use Rattle.dpl_rules.specs.Deeds.{expr_deeds, exprs_deeds, start_deeds};
ghost use Rattle.dpl_rules.specs.Maps.{plain_start as plain_start_of, low_start as low_start_of, low_of, start_breaches};
ghost use Rattle.dpl_rules.specs.Types.{is_int};
ghost use Rattle.dpl_rules.specs.Verdicts.{all_known as all_known_of, each_wanted as each_wanted_of};
ghost use Rattle.dpl_tree.specs.Declarations.{start_view as start_tree};
ghost use Rattle.dpl_tree.specs.View.{expr_view, exprs_view};
ghost use Rattle.dpl_typed.specs.Typed.{part_view};
ghost use Rattle.dpl_typed.specs.Where.{WhereSimpleExprs};
ghost use Rattle.dpl_deeds.specs.View.{Adds};
ghost use Rattle.dpl_brackets.specs.Parts.{Passes};
ghost use Rattle.dpl_mapped.specs.Named.{IsKnownRank};
ghost use Rattle.dpl_mapped.specs.Told.{tuple_told};
ghost use Rattle.dpl_mapped.specs.Made.{AreInts, IsIndexOf, IsStartAs, IsPlainStart, MakesStart};

use crate::low::{ends_low, low_start};
use crate::rank::{int_start, owed_rank};
use dpl_brackets::coordinates::index_of;
use dpl_deeds::Deed;
use dpl_elaborator::expression::{exprs, part};
use dpl_nodes::{IndexExpr, StartExpr};
use dpl_scopes::Scopes;
use dpl_syntax::{Breach, Place};
use dpl_tree::{Arena, Expr, Exprs, Start};
use dpl_typed::Part;
use dpl_typed::part::{all_known, each_wanted};
use dpl_types::Want;
use std::alloc::AllocError;

// An expression that ends in neither `low` nor `lowBound`.
#[tactic(auto, using(dpl_types::proofs::Breaches::least_from_append))]
fn plain_start<'t>(
    arena: Arena<'t>,
    scopes: &Scopes<'t>,
    rank: Option<usize>,
    word: Place,
    e: &Expr<'_>,
    deeds: &mut Vec<Deed<'t>>,
    first: &mut Option<Breach>,
) -> Result<Option<StartExpr<'t>>, AllocError>
    ensures told { IfOk result (λ r. first.new ≡ least_from first.old (plain_start_of scopes.now rank word (expr_view e.now))) }
    ensures node { IfOk result (MakesStart scopes.now (expr_view e.now) first.new) }
    ensures deeds { OnOk result (Adds (expr_deeds scopes.now (expr_view e.now)) deeds.old.items deeds.new.items) }
{
    let Ok(part) = part(arena, scopes, e, deeds, first) else {
        return Err(AllocError);
    };
    int_start(arena, rank, word, part, first)
}

// An expression.
#[tactic(auto, using(dpl_tree::proofs::Fields::expr_view_postfixed))]
fn expr_start<'t>(
    arena: Arena<'t>,
    scopes: &Scopes<'t>,
    rank: Option<usize>,
    word: Place,
    e: &Expr<'_>,
    deeds: &mut Vec<Deed<'t>>,
    first: &mut Option<Breach>,
) -> Result<Option<StartExpr<'t>>, AllocError>
    ensures told { IfOk result (λ r. first.new ≡ least_from first.old (low_start_of scopes.now rank word (expr_view e.now) (low_of (expr_view e.now)))) }
    ensures node { IfOk result (MakesStart scopes.now (expr_view e.now) first.new) }
    ensures deeds { OnOk result (Adds (expr_deeds scopes.now (expr_view e.now)) deeds.old.items deeds.new.items) }
{
    match e {
        Expr::Postfixed(postfixed) => match ends_low(postfixed.base, postfixed.posts) {
            None => plain_start(arena, scopes, rank, word, e, deeds, first),
            Some(ends) => low_start(arena, scopes, rank, word, ends, deeds, first),
        },
        Expr::Number(_, _)
        | Expr::Truth(_, _)
        | Expr::Named(_)
        | Expr::Locales(_)
        | Expr::LocaleCount(_)
        | Expr::Here(_)
        | Expr::Grouped { .. }
        | Expr::Domain { .. }
        | Expr::Prefixed { .. }
        | Expr::Reduced(_)
        | Expr::Chain(_) => plain_start(arena, scopes, rank, word, e, deeds, first),
    }
}

// Whether all parts are ints; else what they break is told.
fn are_ints(parts: &[Part<'_>], first: &mut Option<Breach>) -> bool
    ensures { Passes (all_known_of (map part_view parts.now)) (each_wanted_of is_int (map part_view parts.now)) result first.old first.new }
{
    let holds = each_wanted(Want::Int, parts, first);
    all_known(parts) && holds
}

// The index that ints are.
fn ints<'t>(
    arena: Arena<'t>,
    parts: &[Part<'t>],
    first: &mut Option<Breach>,
) -> Result<Option<&'t IndexExpr<'t>>, AllocError>
    requires { 0 < length parts.now }
    ensures told { IfOk result (λ r. first.new ≡ least_from first.old (each_wanted_of is_int (map part_view parts.now))) }
    ensures node { IfOk result (λ r. AreInts parts.now r) }
{
    if !are_ints(parts, first) {
        return Ok(None);
    }
    match index_of(arena, parts) {
        Ok(index) => Ok(Some(index)),
        Err(_) => Err(AllocError),
    }
}

// A tuple: ints, as many as the rank.
fn tuple<'t>(
    arena: Arena<'t>,
    scopes: &Scopes<'t>,
    rank: Option<usize>,
    word: Place,
    written: &Exprs<'_>,
    deeds: &mut Vec<Deed<'t>>,
    first: &mut Option<Breach>,
) -> Result<Option<StartExpr<'t>>, AllocError>
    ensures told { IfOk result (λ r. first.new ≡ least_from first.old (tuple_told scopes.now rank word (exprs_view written.now))) }
    ensures node { IfOk result (λ r. first.new ≡ None → IsKnownRank rank
        → WhereSimpleExprs scopes.now (exprs_view written.now) (IsIndexOf scopes.now (exprs_view written.now) r)) }
    ensures deeds { OnOk result (Adds (exprs_deeds scopes.now (exprs_view written.now)) deeds.old.items deeds.new.items) }
{
    let Ok(parts) = exprs(arena, scopes, written, deeds, first) else {
        return Err(AllocError);
    };
    let Ok(index) = ints(arena, &parts, first) else {
        return Err(AllocError);
    };
    owed_rank(rank, parts.len(), word, first);
    match index {
        Some(index) => Ok(Some(StartExpr::Index(index))),
        None => Ok(None),
    }
}

/// Where a map starts.
///
/// # Errors
/// Out of memory; of what was told and done then nothing is said.
pub(crate) fn start<'t>(
    arena: Arena<'t>,
    scopes: &Scopes<'t>,
    rank: Option<usize>,
    word: Place,
    written: &Start<'_>,
    deeds: &mut Vec<Deed<'t>>,
    first: &mut Option<Breach>,
) -> Result<Option<StartExpr<'t>>, AllocError>
    ensures told { IfOk result (λ r. first.new ≡ least_from first.old (start_breaches scopes.now rank word (start_tree written.now))) }
    ensures node { IfOk result (λ r. first.new ≡ None → IsPlainStart scopes.now rank (start_tree written.now)
        → IsStartAs scopes.now (start_tree written.now) r) }
    ensures deeds { OnOk result (Adds (start_deeds scopes.now (start_tree written.now)) deeds.old.items deeds.new.items) }
{
    match written {
        Start::Expr(e) => expr_start(arena, scopes, rank, word, e, deeds, first),
        Start::Tuple {
            first: head,
            others,
            ..
        } => {
            let written = Exprs::new(head, others);
            tuple(arena, scopes, rank, word, &written, deeds, first)
        }
    }
}
