// Expressions and items: what each is, its breaches, and what it does.
// A form's own breaches come from the one rule of that form, behind those of its parts; so does its node, made of theirs. What it does
// stands in the order of the text, an element that is read before what its indices do.

ghost use Rattle.std.specs.Prelude.{◌++◌, map, IfOk, OnOk};
ghost use Rattle.dpl_language.specs.Arithmetic.{divides};
ghost use Rattle.dpl_language.specs.Phrases.{Base, base_of};
ghost use Rattle.dpl_language.specs.Spelled.{HasPosts};
ghost use Rattle.dpl_language.specs.Tree.{ExprTree, DomainLiteral, Named};
ghost use Rattle.dpl_lowered.specs.LoweredExpressions.{Times, Once};
ghost use Rattle.dpl_lowered.specs.Shapes.{nowhere, kept, two, grouped};
ghost use Rattle.dpl_memory.specs.Memory.{Variable};
ghost use Rattle.dpl_nodes.specs.Spots.{IsNear};
ghost use Rattle.dpl_nodes.specs.Typed.{dotted};
ghost use Rattle.dpl_tree.specs.View.{expr_view, chain_view, item_view, items_view, exprs_view, post_view, method_view, name_view};
ghost use Rattle.dpl_tree.specs.View.{links_of, posts_of, more_items_of, more_exprs_of};
ghost use Rattle.dpl_rules.specs.Verdicts.{part as part_of, type_by, broken_by, with_type, mistyped as mistyped_of};
ghost use Rattle.dpl_rules.specs.Places.{first_of as first_of_expr, first_of_item as first_of_item_tree};
ghost use Rattle.dpl_rules.specs.Sights.{lookup};
ghost use Rattle.dpl_rules.specs.Deeds.{declared_deeds, base_deeds, expr_deeds, item_deeds, links_deeds, posts_deeds, post_deeds, method_deeds};
ghost use Rattle.dpl_rules.specs.Deeds.{items_deeds, more_items_deeds, exprs_deeds, more_exprs_deeds};
ghost use Rattle.dpl_rules.specs.Expressions.{name_verdict, bare_locales, locales_or, none_where, type_of, item_type, chain_type, posts_type, post_verdict};
ghost use Rattle.dpl_rules.specs.Expressions.{item_parts, more_item_parts, expr_parts, more_expr_parts};
ghost use Rattle.dpl_rules.specs.Expressions.{expr_breaches, item_breaches, chain_breaches, posts_breaches, items_breaches};
ghost use Rattle.dpl_rules.specs.Expressions.{more_items_breaches, exprs_breaches, more_exprs_breaches};
ghost use Rattle.dpl_rules.specs.Operators.{ranges_verdict};
ghost use Rattle.dpl_typed.specs.Typed.{types_of, part_view};
ghost use Rattle.dpl_typed.specs.Lowered.{leaves_of, item_leaves, links_leaves, items_leaves, exprs_leaves};
ghost use Rattle.dpl_typed.specs.Told.{Judges, Tells, TellsPart, TellsParts};
ghost use Rattle.dpl_typed.specs.Stands.{StandsFor, StandsForItem, IsArgument, IsItem, AreArguments, AreItems};
ghost use Rattle.dpl_typed.specs.Where.{WhereSimple, WhereSimpleItem, WhereSimpleLinks, WhereSimplePosts, WhereSimplePost, WhereSimpleMethod};
ghost use Rattle.dpl_typed.specs.Where.{WhereSimpleItems, WhereSimpleExprs};
ghost use Rattle.dpl_typed.specs.Leaves.{IsFound};
ghost use Rattle.dpl_deeds.specs.View.{deed_view, Adds};
ghost use Rattle.dpl_elaborator.specs.Inside.{Reaches};
ghost use Rattle.dpl_elaborator.specs.Forms.{range_tree, link_verdict, post_told, called, called_told};
ghost use Rattle.dpl_elaborator.specs.Built.{StandsAt, method_leaves, behind, built};
ghost use Rattle.dpl_elaborator.specs.SoFar.{AreItemsBehind, AreExprsBehind};

use crate::inside::{reached, tell_inner};
use dpl_brackets::Bounds;
use dpl_brackets::asked::{contains, dim, expand};
use dpl_brackets::behind::{round, square};
use dpl_brackets::domains::literal;
use dpl_brackets::method::word;
use dpl_brackets::ranges::{plain_range, strided_range};
use dpl_deeds::name::declared_deeds;
use dpl_deeds::{Deed, Holding, held};
use dpl_operators::infix::infix;
use dpl_operators::prefix::prefix;
use dpl_operators::reduction::reduction;
use dpl_scopes::Scopes;
use dpl_syntax::{Breach, Place};
use dpl_tree::{
    Arena, Chain, Expr, Exprs, Item, Items, Link, Method, Name, NextExpr, NextItem, Post, Range,
    Stride,
};
use dpl_typed::flat::flat;
use dpl_typed::leaves::{number, truth_word};
use dpl_typed::name::named;
use dpl_typed::verdict::mistyped;
use dpl_typed::{Made, Part, Typed};
use dpl_types::place::{first_of, first_of_item, last_of, last_of_post};
use std::alloc::AllocError;

// The further operands of a chain: what it is with them, and how many deeds there were behind its last promoted pair, if one is promoted.
#[derive(Clone, Copy)]
struct Linked<'t> {
    found: Option<Typed<'t>>,
    promoted: Option<usize>,
}

/// An expression, if it has a type. Its breaches are told, and what it does is put behind the deeds so far.
///
/// # Errors
/// Out of memory; of what was told and done then nothing is said.
#[cycle(expression)]
#[tactic(auto, using(dpl_tree::proofs::Fields::chain_view_fields, dpl_tree::proofs::Fields::expr_view_postfixed, dpl_types::proofs::Breaches::least_from_append, dpl_deeds::proofs::Steps::added_then))]
pub fn expr<'t>(
    arena: Arena<'t>,
    scopes: &Scopes<'t>,
    e: &Expr<'_>,
    deeds: &mut Vec<Deed<'t>>,
    first: &mut Option<Breach>,
) -> Made<'t>
    ensures told { IfOk result (λ r. Tells (type_of scopes.now (expr_view e.now)) (expr_breaches scopes.now (expr_view e.now)) r first.old first.new) }
    ensures node { IfOk result (λ r. WhereSimple scopes.now (expr_view e.now) (StandsFor r (λ m. leaves_of scopes.now m (expr_view e.now)))) }
    ensures deeds { OnOk result (Adds (expr_deeds scopes.now (expr_view e.now)) deeds.old.items deeds.new.items) }
{
    match e {
        Expr::Number(_, n) => number(arena, *n),
        Expr::Truth(_, b) => truth_word(arena, *b),
        Expr::Named(name) => name_before(arena, scopes, name, &[], deeds, first),
        Expr::Locales(at) => Ok(mistyped(*at, first)),
        // No program that asks for the number of locales is run; 0 stands for it.
        Expr::LocaleCount(_) => number(arena, 0),
        Expr::Here(at) => match held(*at, Holding::Here, deeds) {
            Ok(()) => Ok(Some(Typed::Locale)),
            Err(_) => Err(AllocError),
        },
        Expr::Grouped { item: inner, .. } => item(arena, scopes, inner, deeds, first),
        Expr::Domain {
            from,
            items: inner,
            ..
        } => domain(arena, scopes, *from, inner, deeds, first),
        Expr::Prefixed { at, op, operand } => {
            let Ok(operand) = expr(arena, scopes, operand, deeds, first) else {
                return Err(AllocError);
            };
            prefix(arena, *at, *op, operand, first)
        }
        Expr::Reduced(reduced) => {
            let Ok(()) = held(reduced.at, Holding::Reduction, deeds) else {
                return Err(AllocError);
            };
            let Ok(operand) = expr(arena, scopes, reduced.operand, deeds, first) else {
                return Err(AllocError);
            };
            reduction(
                arena,
                reduced.at,
                reduced.op,
                reduced.reduce,
                operand,
                first,
            )
        }
        Expr::Chain(whole) => chain(arena, scopes, whole, deeds, first),
        Expr::Postfixed(postfixed) => {
            let Ok(t) = base(arena, scopes, postfixed.base, postfixed.posts, deeds, first) else {
                return Err(AllocError);
            };
            let last = last_of(postfixed.base);
            posts(arena, scopes, last, t, postfixed.posts, deeds, first)
        }
    }
}

/// An item.
///
/// # Errors
/// Out of memory; of what was told and done then nothing is said.
#[cycle(expression)]
pub fn item<'t>(
    arena: Arena<'t>,
    scopes: &Scopes<'t>,
    item: &Item<'_>,
    deeds: &mut Vec<Deed<'t>>,
    first: &mut Option<Breach>,
) -> Made<'t>
    ensures told { IfOk result (λ r. Tells (item_type scopes.now (item_view item.now)) (item_breaches scopes.now (item_view item.now)) r first.old first.new) }
    ensures node { IfOk result (λ r. WhereSimpleItem scopes.now (item_view item.now) (StandsForItem r (λ m. item_leaves scopes.now m (item_view item.now)))) }
    ensures deeds { OnOk result (Adds (item_deeds scopes.now (item_view item.now)) deeds.old.items deeds.new.items) }
{
    match item {
        Item::One(e) => expr(arena, scopes, e, deeds, first),
        Item::Range(range) => range_item(arena, scopes, range, deeds, first),
    }
}

/// An expression as a part of a form.
///
/// # Errors
/// Out of memory; of what was told and done then nothing is said.
#[cycle(expression)]
pub fn part<'t>(
    arena: Arena<'t>,
    scopes: &Scopes<'t>,
    e: &Expr<'_>,
    deeds: &mut Vec<Deed<'t>>,
    first: &mut Option<Breach>,
) -> Result<Part<'t>, AllocError>
    ensures told { IfOk result (λ p. TellsPart (part_of (first_of_expr (expr_view e.now)) (type_of scopes.now (expr_view e.now)))
        (expr_breaches scopes.now (expr_view e.now)) p first.old first.new) }
    ensures node { IfOk result (λ p. WhereSimple scopes.now (expr_view e.now) (IsArgument p.found (leaves_of scopes.now Once (expr_view e.now)))) }
    ensures deeds { OnOk result (Adds (expr_deeds scopes.now (expr_view e.now)) deeds.old.items deeds.new.items) }
{
    let Ok(found) = expr(arena, scopes, e, deeds, first) else {
        return Err(AllocError);
    };
    let at = first_of(e);
    Ok(Part { at, found })
}

// A domain by its ranges.
#[cycle(expression)]
#[tactic(auto, using(dpl_types::proofs::Breaches::least_from_append))]
fn domain<'t>(
    arena: Arena<'t>,
    scopes: &Scopes<'t>,
    from: Place,
    written: &Items<'_>,
    deeds: &mut Vec<Deed<'t>>,
    first: &mut Option<Breach>,
) -> Made<'t>
    ensures told { IfOk result (λ r. Tells (type_by (ranges_verdict from (item_parts scopes.now (items_view written.now))))
        (items_breaches scopes.now (items_view written.now) ++ broken_by (ranges_verdict from (item_parts scopes.now (items_view written.now)))) r
        first.old first.new) }
    ensures node { IfOk result (λ r. IsNear from → WhereSimpleItems scopes.now (items_view written.now)
        (StandsFor r (λ m. DomainLiteral from (items_leaves scopes.now (items_view written.now)) nowhere))) }
    ensures deeds { OnOk result (Adds (items_deeds scopes.now (items_view written.now)) deeds.old.items deeds.new.items) }
{
    let Ok(parts) = items(arena, scopes, written, deeds, first) else {
        return Err(AllocError);
    };
    literal(arena, from, &parts, first)
}

// A range that is written as an item.
#[cycle(expression)]
#[tactic(auto, using(dpl_types::proofs::Breaches::least_from_append, dpl_deeds::proofs::Steps::added_then))]
fn range_item<'t>(
    arena: Arena<'t>,
    scopes: &Scopes<'t>,
    written: &Range<'_>,
    deeds: &mut Vec<Deed<'t>>,
    first: &mut Option<Breach>,
) -> Made<'t>
    ensures told { IfOk result (λ r. Tells (item_type scopes.now (range_tree written.now)) (item_breaches scopes.now (range_tree written.now)) r
        first.old first.new) }
    ensures node { IfOk result (λ r. WhereSimpleItem scopes.now (range_tree written.now)
        (StandsForItem r (λ m. item_leaves scopes.now m (range_tree written.now)))) }
    ensures deeds { OnOk result (Adds (item_deeds scopes.now (range_tree written.now)) deeds.old.items deeds.new.items) }
{
    let Ok(low) = part(arena, scopes, written.low, deeds, first) else {
        return Err(AllocError);
    };
    let Ok(high) = part(arena, scopes, written.high, deeds, first) else {
        return Err(AllocError);
    };
    let bounds = Bounds {
        low,
        at: written.at,
        dots: written.dots,
        high,
    };
    match &written.by {
        Stride::Absent => plain_range(arena, bounds, first),
        Stride::By(at, e) => {
            let Ok(by) = part(arena, scopes, e, deeds, first) else {
                return Err(AllocError);
            };
            strided_range(arena, bounds, *at, by, first)
        }
    }
}

// A chain. Where a pair of it is promoted, no reduction stands in its operands up to there (C9).
#[cycle(expression)]
#[tactic(auto, using(dpl_types::proofs::Breaches::least_from_append, dpl_deeds::proofs::Steps::added_then))]
fn chain<'t>(
    arena: Arena<'t>,
    scopes: &Scopes<'t>,
    chain: &Chain<'_>,
    deeds: &mut Vec<Deed<'t>>,
    first: &mut Option<Breach>,
) -> Made<'t>
    ensures told { IfOk result (λ r. Tells (type_of scopes.now (chain_view chain.now)) (expr_breaches scopes.now (chain_view chain.now)) r
        first.old first.new) }
    ensures node { IfOk result (λ r. WhereSimple scopes.now (chain_view chain.now) (StandsFor r (λ m. leaves_of scopes.now m (chain_view chain.now)))) }
    ensures deeds { OnOk result (Adds (expr_deeds scopes.now (chain_view chain.now)) deeds.old.items deeds.new.items) }
{
    let start = deeds.len();
    let Ok(begin) = expr(arena, scopes, chain.first, deeds, first) else {
        return Err(AllocError);
    };
    let Ok(linked) = links(arena, scopes, begin, chain.links, deeds, first) else {
        return Err(AllocError);
    };
    tell_inner(deeds.as_slice(), start, linked.promoted, first);
    flat(arena, linked.found)
}

// The further operands of a chain, from what stands before them.
#[cycle(expression)]
#[tactic(auto, using(dpl_types::proofs::Breaches::least_from_append))]
fn links<'t>(
    arena: Arena<'t>,
    scopes: &Scopes<'t>,
    t: Option<Typed<'t>>,
    links: &[Link<'_>],
    deeds: &mut Vec<Deed<'t>>,
    first: &mut Option<Breach>,
) -> Result<Linked<'t>, AllocError>
    ensures told { IfOk result (λ r. Tells (chain_type scopes.now (types_of t.entry) (links_of links.now))
        (chain_breaches scopes.now (types_of t.entry) (links_of links.now)) r.found first.old first.new) }
    ensures node { IfOk result (λ r. (f : Times → ExprTree Variable) → StandsFor t.entry f
        → WhereSimpleLinks scopes.now (links_of links.now) (StandsFor r.found (λ m. grouped (f m) (links_leaves scopes.now m (links_of links.now))))) }
    ensures deeds { OnOk result (Adds (links_deeds scopes.now (links_of links.now)) deeds.old.items deeds.new.items) }
    ensures promoted { IfOk result (λ r. Reaches scopes.now (types_of t.entry) (links_of links.now) (map deed_view deeds.old.items)
        (map deed_view deeds.new.items) r.promoted) }
{
    let mut t = t;
    let mut promoted = None;
    for next in links {
        let Ok(more) = link(arena, scopes, t, next, deeds, first) else {
            return Err(AllocError);
        };
        t = more;
        promoted = reached(t, deeds.len(), promoted);
    }
    Ok(Linked { found: t, promoted })
}

// A further operand of a chain, behind its operator.
#[cycle(expression)]
#[tactic(auto, using(dpl_types::proofs::Breaches::least_from_append))]
fn link<'t>(
    arena: Arena<'t>,
    scopes: &Scopes<'t>,
    t: Option<Typed<'t>>,
    link: &Link<'_>,
    deeds: &mut Vec<Deed<'t>>,
    first: &mut Option<Breach>,
) -> Made<'t>
    ensures told { IfOk result (λ r. Tells (type_by (link_verdict scopes.now (types_of t.entry) link.now))
        (expr_breaches scopes.now (expr_view link.now.right.now) ++ broken_by (link_verdict scopes.now (types_of t.entry) link.now)) r first.old first.new) }
    ensures node { IfOk result (λ r. (f : Times → ExprTree Variable) → StandsFor t.entry f → IsNear link.now.at
        → WhereSimple scopes.now (expr_view link.now.right.now)
        (StandsFor r (λ m. two (f m) (kept (divides link.now.op) link.now.at) link.now.op (leaves_of scopes.now m (expr_view link.now.right.now))))) }
    ensures deeds { OnOk result (Adds (expr_deeds scopes.now (expr_view link.now.right.now)) deeds.old.items deeds.new.items) }
{
    let Ok(right) = expr(arena, scopes, link.right, deeds, first) else {
        return Err(AllocError);
    };
    infix(arena, link.at, link.op, t, right, first)
}

// A name, before what stands behind it, if anything does.
fn name_before<'t>(
    arena: Arena<'t>,
    scopes: &Scopes<'t>,
    name: &Name<'_>,
    posts: &[Post<'_>],
    deeds: &mut Vec<Deed<'t>>,
    first: &mut Option<Breach>,
) -> Made<'t>
    ensures told { IfOk result (λ r. Judges (name_verdict name.now.at (lookup scopes.now name.now.text.now)) r first.old first.new) }
    ensures node { IfOk result (λ r. IsFound scopes.now name.now.text.now → IsNear name.now.at
        → StandsFor r (λ m. leaves_of scopes.now m (Named (name_view name.now)))) }
    ensures deeds { OnOk result (Adds (declared_deeds scopes.now name.now.at (posts_of posts.now) (lookup scopes.now name.now.text.now))
        deeds.old.items deeds.new.items) }
{
    let declared = scopes.lookup(name.text);
    let Ok(()) = declared_deeds(arena, scopes, name.at, declared, posts, deeds) else {
        return Err(AllocError);
    };
    named(arena, name.at, declared, first)
}

// An expression, before what stands behind it: a name, perhaps in brackets itself, does what it does by the first of that.
#[cycle(expression)]
#[tactic(auto, using(dpl_tree::proofs::Fields::chain_view_fields, dpl_tree::proofs::Fields::expr_view_postfixed))]
fn expr_before<'t>(
    arena: Arena<'t>,
    scopes: &Scopes<'t>,
    e: &Expr<'_>,
    posts: &[Post<'_>],
    deeds: &mut Vec<Deed<'t>>,
    first: &mut Option<Breach>,
) -> Made<'t>
    ensures told { IfOk result (λ r. Tells (type_of scopes.now (expr_view e.now)) (expr_breaches scopes.now (expr_view e.now)) r first.old first.new) }
    ensures node { IfOk result (λ r. WhereSimple scopes.now (expr_view e.now) (StandsFor r (λ m. leaves_of scopes.now m (expr_view e.now)))) }
    ensures deeds { OnOk result (Adds (base_deeds scopes.now (base_of (expr_view e.now)) (posts_of posts.now)
        (expr_deeds scopes.now (expr_view e.now))) deeds.old.items deeds.new.items) }
{
    match e {
        Expr::Named(name) => name_before(arena, scopes, name, posts, deeds, first),
        Expr::Grouped { item, .. } => match item {
            Item::One(inner) => expr_before(arena, scopes, inner, posts, deeds, first),
            Item::Range(_) => expr(arena, scopes, e, deeds, first),
        },
        Expr::Number(_, _)
        | Expr::Truth(_, _)
        | Expr::Locales(_)
        | Expr::LocaleCount(_)
        | Expr::Here(_)
        | Expr::Domain { .. }
        | Expr::Prefixed { .. }
        | Expr::Reduced(_)
        | Expr::Chain(_)
        | Expr::Postfixed(_) => expr(arena, scopes, e, deeds, first),
    }
}

/// What stands before brackets and dots, which may be the word `Locales`.
///
/// # Errors
/// Out of memory; of what was told and done then nothing is said.
#[cycle(expression)]
pub fn base<'t>(
    arena: Arena<'t>,
    scopes: &Scopes<'t>,
    e: &Expr<'_>,
    posts: &[Post<'_>],
    deeds: &mut Vec<Deed<'t>>,
    first: &mut Option<Breach>,
) -> Made<'t>
    ensures told { IfOk result (λ r. Tells (locales_or (bare_locales (expr_view e.now)) (type_of scopes.now (expr_view e.now)))
        (none_where (bare_locales (expr_view e.now)) (expr_breaches scopes.now (expr_view e.now))) r first.old first.new) }
    ensures node { IfOk result (λ r. WhereSimple scopes.now (expr_view e.now) (StandsFor r (λ m. leaves_of scopes.now m (expr_view e.now)))) }
    ensures deeds { OnOk result (Adds (base_deeds scopes.now (base_of (expr_view e.now)) (posts_of posts.now)
        (expr_deeds scopes.now (expr_view e.now))) deeds.old.items deeds.new.items) }
{
    match e {
        Expr::Locales(_) => Ok(Some(Typed::AllLocales)),
        Expr::Number(_, _)
        | Expr::Truth(_, _)
        | Expr::Named(_)
        | Expr::LocaleCount(_)
        | Expr::Here(_)
        | Expr::Grouped { .. }
        | Expr::Domain { .. }
        | Expr::Prefixed { .. }
        | Expr::Reduced(_)
        | Expr::Chain(_)
        | Expr::Postfixed(_) => expr_before(arena, scopes, e, posts, deeds, first),
    }
}

/// A base with what stands behind it, from what stands before; `last` is the last token of that.
///
/// # Errors
/// Out of memory; of what was told and done then nothing is said.
#[cycle(expression)]
#[tactic(auto, using(dpl_types::proofs::Breaches::least_from_append))]
pub fn posts<'t>(
    arena: Arena<'t>,
    scopes: &Scopes<'t>,
    last: Place,
    t: Option<Typed<'t>>,
    posts: &[Post<'_>],
    deeds: &mut Vec<Deed<'t>>,
    first: &mut Option<Breach>,
) -> Made<'t>
    ensures told { IfOk result (λ r. Tells (posts_type scopes.now last (types_of t.entry) (posts_of posts.now))
        (posts_breaches scopes.now last (types_of t.entry) (posts_of posts.now)) r first.old first.new) }
    ensures node { IfOk result (λ r. (f : Times → ExprTree Variable) (b : Base Variable) → StandsFor t.entry f → StandsAt f b
        → HasPosts (posts_of posts.now)
        → WhereSimplePosts scopes.now (posts_of posts.now) (StandsFor r (λ m. built scopes.now b (posts_of posts.now) (f Once)))) }
    ensures deeds { OnOk result (Adds (posts_deeds scopes.now (posts_of posts.now)) deeds.old.items deeds.new.items) }
{
    let mut last = last;
    let mut t = t;
    for next in posts {
        let Ok(more) = post(arena, scopes, last, t, next, deeds, first) else {
            return Err(AllocError);
        };
        t = more;
        last = last_of_post(next);
    }
    flat(arena, t)
}

/// One bracket, or one method, behind a value.
///
/// # Errors
/// Out of memory; of what was told and done then nothing is said.
#[cycle(expression)]
#[tactic(auto, using(dpl_types::proofs::Breaches::least_from_append))]
pub fn post<'t>(
    arena: Arena<'t>,
    scopes: &Scopes<'t>,
    last: Place,
    t: Option<Typed<'t>>,
    post: &Post<'_>,
    deeds: &mut Vec<Deed<'t>>,
    first: &mut Option<Breach>,
) -> Made<'t>
    ensures told { IfOk result (λ r. Tells (type_by (post_verdict scopes.now last (post_view post.now) (types_of t.entry)))
        (post_told scopes.now last (post_view post.now) (types_of t.entry)) r first.old first.new) }
    ensures node { IfOk result (λ r. (f : Times → ExprTree Variable) (b : Base Variable) → StandsFor t.entry f → StandsAt f b
        → WhereSimplePost scopes.now (post_view post.now) (StandsFor r (λ m. behind scopes.now b (post_view post.now) (f Once)))) }
    ensures deeds { OnOk result (Adds (post_deeds scopes.now (post_view post.now)) deeds.old.items deeds.new.items) }
{
    match post {
        Post::Brackets {
            from,
            items: inner,
            ..
        } => {
            let Ok(parts) = items(arena, scopes, inner, deeds, first) else {
                return Err(AllocError);
            };
            square(arena, last, *from, &parts, t, first)
        }
        Post::Rounds {
            from,
            exprs: inner,
            ..
        } => {
            let Ok(parts) = exprs(arena, scopes, inner, deeds, first) else {
                return Err(AllocError);
            };
            round(arena, last, *from, &parts, t, first)
        }
        Post::Dotted(_, called) => method(arena, scopes, t, called, deeds, first),
    }
}

// A cell read behind a value, which is no method of one.
fn cell_read<'t>(at: Place, t: Option<Typed<'t>>, first: &mut Option<Breach>) -> Option<Typed<'t>>
    ensures { Judges (with_type (types_of t.entry) (λ t. mistyped_of at)) result first.old first.new }
{
    match t {
        None => None,
        Some(_) => mistyped(at, first),
    }
}

// A method of a value.
#[cycle(expression)]
#[tactic(auto, using(dpl_tree::proofs::Fields::method_view_contains, dpl_types::proofs::Breaches::least_from_append))]
fn method<'t>(
    arena: Arena<'t>,
    scopes: &Scopes<'t>,
    t: Option<Typed<'t>>,
    method: &Method<'_>,
    deeds: &mut Vec<Deed<'t>>,
    first: &mut Option<Breach>,
) -> Made<'t>
    ensures told { IfOk result (λ r. Tells (type_by (called scopes.now (method_view method.now) (types_of t.entry)))
        (called_told scopes.now (method_view method.now) (types_of t.entry)) r first.old first.new) }
    ensures node { IfOk result (λ r. (f : Times → ExprTree Variable) → StandsFor t.entry f
        → WhereSimpleMethod scopes.now (method_view method.now) (StandsFor r (λ m. dotted (f Once) (method_leaves scopes.now (method_view method.now))))) }
    ensures deeds { OnOk result (Adds (method_deeds scopes.now (method_view method.now)) deeds.old.items deeds.new.items) }
{
    match method {
        Method::Plain(at, called) => word(arena, *at, *called, t, first),
        Method::Dim(called) => dim(arena, called.at, called.number_at, called.number, t, first),
        Method::Contains(called) => {
            let Ok(parts) = exprs(arena, scopes, &called.exprs, deeds, first) else {
                return Err(AllocError);
            };
            contains(arena, called.at, &parts, t, first)
        }
        Method::Expand(called) => {
            let Ok(by) = part(arena, scopes, called.by, deeds, first) else {
                return Err(AllocError);
            };
            expand(arena, called.at, by, t, first)
        }
        Method::CellRead { at, .. } => Ok(cell_read(*at, t, first)),
    }
}

/// Items between commas, as parts of a form.
///
/// # Errors
/// Out of memory; of what was told and done then nothing is said.
#[cycle(expression)]
#[tactic(auto, using(dpl_tree::proofs::Fields::items_view_fields, dpl_types::proofs::Breaches::least_from_append, dpl_deeds::proofs::Steps::added_then))]
pub fn items<'t>(
    arena: Arena<'t>,
    scopes: &Scopes<'t>,
    items: &Items<'_>,
    deeds: &mut Vec<Deed<'t>>,
    first: &mut Option<Breach>,
) -> Result<Vec<Part<'t>>, AllocError>
    ensures told { IfOk result (λ ps. TellsParts (item_parts scopes.now (items_view items.now))
        (items_breaches scopes.now (items_view items.now)) ps.items first.old first.new) }
    ensures node { IfOk result (λ ps. WhereSimpleItems scopes.now (items_view items.now) (AreItems ps.items (items_leaves scopes.now (items_view items.now)))) }
    ensures deeds { OnOk result (Adds (items_deeds scopes.now (items_view items.now)) deeds.old.items deeds.new.items) }
{
    let mut parts = Vec::new(arena.alloc());
    parts.push(item_part(arena, scopes, &items.first, deeds, first)?)?;
    more_items(arena, scopes, parts, items.others, deeds, first)
}

/// An item as a part of a form.
///
/// # Errors
/// Out of memory; of what was told and done then nothing is said.
#[cycle(expression)]
pub fn item_part<'t>(
    arena: Arena<'t>,
    scopes: &Scopes<'t>,
    written: &Item<'_>,
    deeds: &mut Vec<Deed<'t>>,
    first: &mut Option<Breach>,
) -> Result<Part<'t>, AllocError>
    ensures told { IfOk result (λ p. TellsPart (part_of (first_of_item_tree (item_view written.now)) (item_type scopes.now (item_view written.now)))
        (item_breaches scopes.now (item_view written.now)) p first.old first.new) }
    ensures node { IfOk result (λ p. WhereSimpleItem scopes.now (item_view written.now)
        (IsItem p.found (item_leaves scopes.now Once (item_view written.now)))) }
    ensures deeds { OnOk result (Adds (item_deeds scopes.now (item_view written.now)) deeds.old.items deeds.new.items) }
{
    let Ok(found) = item(arena, scopes, written, deeds, first) else {
        return Err(AllocError);
    };
    let at = first_of_item(written);
    Ok(Part { at, found })
}

// Further items, behind the parts so far.
#[cycle(expression)]
#[tactic(auto, using(dpl_types::proofs::Breaches::least_from_append))]
fn more_items<'t>(
    arena: Arena<'t>,
    scopes: &Scopes<'t>,
    parts: Vec<Part<'t>>,
    others: &[NextItem<'_>],
    deeds: &mut Vec<Deed<'t>>,
    first: &mut Option<Breach>,
) -> Result<Vec<Part<'t>>, AllocError>
    ensures told { IfOk result (λ ps. TellsParts (map part_view parts.entry.items ++ more_item_parts scopes.now (more_items_of others.now))
        (more_items_breaches scopes.now (more_items_of others.now)) ps.items first.old first.new) }
    ensures node { IfOk result (λ ps. AreItemsBehind scopes.now parts.entry.items (more_items_of others.now) ps.items) }
    ensures deeds { OnOk result (Adds (more_items_deeds scopes.now (more_items_of others.now)) deeds.old.items deeds.new.items) }
{
    let mut parts = parts;
    for next in others {
        parts.push(item_part(arena, scopes, &next.item, deeds, first)?)?;
    }
    Ok(parts)
}

/// Expressions between commas, as parts of a form.
///
/// # Errors
/// Out of memory; of what was told and done then nothing is said.
#[cycle(expression)]
#[tactic(auto, using(dpl_tree::proofs::Fields::exprs_view_fields, dpl_types::proofs::Breaches::least_from_append, dpl_deeds::proofs::Steps::added_then))]
pub fn exprs<'t>(
    arena: Arena<'t>,
    scopes: &Scopes<'t>,
    exprs: &Exprs<'_>,
    deeds: &mut Vec<Deed<'t>>,
    first: &mut Option<Breach>,
) -> Result<Vec<Part<'t>>, AllocError>
    ensures told { IfOk result (λ ps. TellsParts (expr_parts scopes.now (exprs_view exprs.now))
        (exprs_breaches scopes.now (exprs_view exprs.now)) ps.items first.old first.new) }
    ensures node { IfOk result (λ ps. WhereSimpleExprs scopes.now (exprs_view exprs.now)
        (AreArguments ps.items (exprs_leaves scopes.now (exprs_view exprs.now)))) }
    ensures deeds { OnOk result (Adds (exprs_deeds scopes.now (exprs_view exprs.now)) deeds.old.items deeds.new.items) }
{
    let mut parts = Vec::new(arena.alloc());
    parts.push(part(arena, scopes, exprs.first, deeds, first)?)?;
    more_exprs(arena, scopes, parts, exprs.others, deeds, first)
}

// Further expressions, behind the parts so far.
#[cycle(expression)]
#[tactic(auto, using(dpl_types::proofs::Breaches::least_from_append))]
fn more_exprs<'t>(
    arena: Arena<'t>,
    scopes: &Scopes<'t>,
    parts: Vec<Part<'t>>,
    others: &[NextExpr<'_>],
    deeds: &mut Vec<Deed<'t>>,
    first: &mut Option<Breach>,
) -> Result<Vec<Part<'t>>, AllocError>
    ensures told { IfOk result (λ ps. TellsParts (map part_view parts.entry.items ++ more_expr_parts scopes.now (more_exprs_of others.now))
        (more_exprs_breaches scopes.now (more_exprs_of others.now)) ps.items first.old first.new) }
    ensures node { IfOk result (λ ps. AreExprsBehind scopes.now parts.entry.items (more_exprs_of others.now) ps.items) }
    ensures deeds { OnOk result (Adds (more_exprs_deeds scopes.now (more_exprs_of others.now)) deeds.old.items deeds.new.items) }
{
    let mut parts = parts;
    for next in others {
        parts.push(part(arena, scopes, next.expr, deeds, first)?)?;
    }
    Ok(parts)
}
