// Right sides, which may be a cell read as a whole; it gives what the cell holds.
// `x = c.readFE();` reads a cell c, which is no method of a value anywhere else.

ghost use Rattle.std.specs.Prelude.{◌≡◌, is_some, option_map, IfOk, OnOk, IfSome};
ghost use Rattle.dpl_language.specs.Phrases.{posts_read, post_read, cell_read as cell_read_of, item_read};
ghost use Rattle.dpl_tree.specs.View.{expr_view, item_view, post_view, posts_of};
ghost use Rattle.dpl_rules.specs.Sights.{type_declared};
ghost use Rattle.dpl_rules.specs.Deeds.{ACellCall, held as held_of, expr_deeds, item_deeds};
ghost use Rattle.dpl_rules.specs.Expressions.{cell_declared, kind_read as kind_read_of, read_or_type, item_type, side_part, side_breaches};
ghost use Rattle.dpl_scopes.specs.View.{declared_view};
ghost use Rattle.dpl_deeds.specs.View.{Adds};
ghost use Rattle.dpl_typed.specs.Stands.{StandsForItem};
ghost use Rattle.dpl_typed.specs.Told.{Tells, TellsPart};
ghost use Rattle.dpl_typed.specs.Where.{WhereSimpleItem};
ghost use Rattle.dpl_bound.specs.Run.{side_leaves};

use dpl_deeds::{Deed, Holding, held};
use dpl_elaborator::expression::item;
use dpl_scopes::{Declared, Scopes};
use dpl_syntax::{Breach, Place};
use dpl_tree::{Arena, Expr, Item, Method, Post, ScalarKind};
use dpl_typed::leaves::{number, truth_word};
use dpl_typed::{Made, Part};
use dpl_types::place::first_of_item;
use std::alloc::AllocError;

// Whether what stands behind a base is a cell's read.
fn is_post_read(post: &Post<'_>) -> bool
    ensures { result ≡ is_some (post_read (post_view post.now)) }
{
    match post {
        Post::Dotted(_, Method::CellRead { .. }) => true,
        Post::Dotted(_, Method::Plain(_, _))
        | Post::Dotted(_, Method::Dim(_))
        | Post::Dotted(_, Method::Contains(_))
        | Post::Dotted(_, Method::Expand(_))
        | Post::Brackets { .. }
        | Post::Rounds { .. } => false,
    }
}

// Whether a cell's read is all that stands behind a base.
fn is_read(posts: &[Post<'_>]) -> bool
    ensures { result ≡ is_some (posts_read (posts_of posts.now)) }
{
    match posts {
        [] => false,
        [post] => is_post_read(post),
        [_, _, ..] => false,
    }
}

/// The kind of what a cell holds, where a declaration is of one.
pub fn cell_in(declared: Option<Declared<'_>>) -> Option<ScalarKind>
    ensures { result ≡ cell_declared (type_declared (option_map declared_view declared.entry)) }
{
    declared?.value_type?.cell()
}

// A cell that is read as a whole: where its name stands, and the kind of what it holds.
#[derive(Clone, Copy)]
struct CellRead {
    at: Place,
    kind: ScalarKind,
}

// The cell that an expression reads as a whole.
#[tactic(auto, using(dpl_tree::proofs::Fields::expr_view_postfixed))]
fn expr_read(scopes: &Scopes<'_>, e: &Expr<'_>) -> Option<CellRead>
    ensures kind { option_map (λ r. r.kind) result ≡ kind_read_of scopes.now (cell_read_of (expr_view e.now)) }
    ensures deeds { IfSome result (λ r. expr_deeds scopes.now (expr_view e.now) ≡ held_of r.at ACellCall) }
{
    match e {
        Expr::Postfixed(postfixed) => {
            let name = postfixed.base.bare_name()?;
            if is_read(postfixed.posts) {
                let kind = cell_in(scopes.lookup(name.text))?;
                Some(CellRead { at: name.at, kind })
            } else {
                None
            }
        }
        Expr::Number(_, _)
        | Expr::Truth(_, _)
        | Expr::Named(_)
        | Expr::Locales(_)
        | Expr::LocaleCount(_)
        | Expr::Here(_)
        | Expr::Grouped { .. }
        | Expr::Domain { .. }
        | Expr::Prefixed { .. }
        | Expr::Reduced(_)
        | Expr::Chain(_) => None,
    }
}

// The same of an item.
fn cell_read(scopes: &Scopes<'_>, item: &Item<'_>) -> Option<CellRead>
    ensures kind { option_map (λ r. r.kind) result ≡ kind_read_of scopes.now (item_read (item_view item.now)) }
    ensures deeds { IfSome result (λ r. item_deeds scopes.now (item_view item.now) ≡ held_of r.at ACellCall) }
{
    match item {
        Item::One(e) => expr_read(scopes, e),
        Item::Range(_) => None,
    }
}

// What a right side is. No program that reads a cell is run; 0, or false, stands for what it holds.
#[tactic(auto, using(crate::proofs::Sides::read_unsimple))]
fn value<'t>(
    arena: Arena<'t>,
    scopes: &Scopes<'t>,
    written: &Item<'_>,
    deeds: &mut Vec<Deed<'t>>,
    first: &mut Option<Breach>,
) -> Made<'t>
    ensures told { IfOk result (λ r. Tells
        (read_or_type (kind_read_of scopes.now (item_read (item_view written.now))) (item_type scopes.now (item_view written.now)))
        (side_breaches scopes.now (item_view written.now)) r first.old first.new) }
    ensures node { IfOk result (λ r. WhereSimpleItem scopes.now (item_view written.now)
        (StandsForItem r (λ m. side_leaves scopes.now m (item_view written.now)))) }
    ensures deeds { OnOk result (Adds (item_deeds scopes.now (item_view written.now)) deeds.old.items deeds.new.items) }
{
    let Some(read) = cell_read(scopes, written) else {
        return item(arena, scopes, written, deeds, first);
    };
    let Ok(()) = held(read.at, Holding::CellCall, deeds) else {
        return Err(AllocError);
    };
    match read.kind {
        ScalarKind::Int => number(arena, 0),
        ScalarKind::Bool => truth_word(arena, false),
    }
}

/// A right side, as a part of its form.
///
/// # Errors
/// Out of memory; of what was told and done then nothing is said.
pub fn side<'t>(
    arena: Arena<'t>,
    scopes: &Scopes<'t>,
    written: &Item<'_>,
    deeds: &mut Vec<Deed<'t>>,
    first: &mut Option<Breach>,
) -> Result<Part<'t>, AllocError>
    ensures told { IfOk result (λ p. TellsPart (side_part scopes.now (item_view written.now))
        (side_breaches scopes.now (item_view written.now)) p first.old first.new) }
    ensures node { IfOk result (λ p. WhereSimpleItem scopes.now (item_view written.now)
        (StandsForItem p.found (λ m. side_leaves scopes.now m (item_view written.now)))) }
    ensures deeds { OnOk result (Adds (item_deeds scopes.now (item_view written.now)) deeds.old.items deeds.new.items) }
{
    let Ok(found) = value(arena, scopes, written, deeds, first) else {
        return Err(AllocError);
    };
    let at = first_of_item(written);
    Ok(Part { at, found })
}
