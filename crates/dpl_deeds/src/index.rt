// Indices of elements, as far as the text tells them: a name, a name and a number, or anything else.
// Brackets round an index change nothing; inside it they do.

ghost use Rattle.std.specs.Prelude.{◌≡◌, ◌++◌, IfOk, map, option_map, option_and_then};
ghost use Rattle.dpl_tree.specs.View.{expr_view, item_view, items_view, exprs_view, links_of, more_items_of, more_exprs_of};
ghost use Rattle.dpl_language.specs.Tree.{Chain as ChainTree};
ghost use Rattle.dpl_language.specs.Phrases.{bare_name};
ghost use Rattle.dpl_rules.specs.Deeds.{literal_of, added_by, shifted_by, at_name as at_name_of, name_declared, index_of as index_of_expr};
ghost use Rattle.dpl_rules.specs.Deeds.{item_index as index_of_item, items_index as items_index_of, exprs_index as exprs_index_of};
ghost use Rattle.dpl_rules.specs.Deeds.{more_items_index as more_items_index_of, more_exprs_index as more_exprs_index_of};
ghost use Rattle.dpl_scopes.specs.View.{declared_view};
ghost use Rattle.dpl_deeds.specs.View.{index_view};

use crate::deed::IndexPart;
use dpl_scopes::{Declared, Scopes};
use dpl_tree::{Arena, Expr, Exprs, Infix, Item, Items, Link, NextExpr, NextItem};
use std::alloc::AllocError;

/// The indices of an element in the arena, or out of memory.
pub type Indices<'t> = Result<&'t [IndexPart<'t>], AllocError>;

// The number that an expression is.
#[tactic(auto, using(dpl_tree::proofs::Fields::chain_view_fields, dpl_tree::proofs::Fields::expr_view_postfixed))]
fn literal(e: &Expr<'_>) -> Option<i64>
    ensures { result ≡ literal_of (expr_view e.now) }
{
    match e {
        Expr::Number(_, number) => Some(*number),
        Expr::Truth(_, _)
        | Expr::Named(_)
        | Expr::Locales(_)
        | Expr::LocaleCount(_)
        | Expr::Here(_)
        | Expr::Grouped { .. }
        | Expr::Domain { .. }
        | Expr::Prefixed { .. }
        | Expr::Reduced(_)
        | Expr::Chain(_)
        | Expr::Postfixed(_) => None,
    }
}

// A name, and what stands behind it: an operator and perhaps a number.
fn shifted<'t>(declared: Declared<'t>, op: Infix, number: Option<i64>) -> IndexPart<'t>
    ensures { index_view result ≡ shifted_by (Some (declared_view declared.entry)) (option_and_then (added_by op) number) }
{
    match number {
        None => IndexPart::Elsewhere,
        Some(n) => match op {
            Infix::Add => IndexPart::Ahead(declared, n),
            Infix::Subtract => IndexPart::Behind(declared, n),
            Infix::Multiply
            | Infix::Divide
            | Infix::Remainder
            | Infix::Less
            | Infix::LessEqual
            | Infix::Greater
            | Infix::GreaterEqual
            | Infix::Equal
            | Infix::NotEqual
            | Infix::And
            | Infix::Or => IndexPart::Elsewhere,
        },
    }
}

// The declaration of the name that an expression is.
fn declared<'t>(scopes: &Scopes<'t>, e: &Expr<'_>) -> Option<Declared<'t>>
    ensures { option_map declared_view result ≡ name_declared scopes.now (bare_name (expr_view e.now)) }
{
    scopes.lookup(e.bare_name()?.text)
}

// Two operands and what stands between them, as an index.
fn linked<'t>(scopes: &Scopes<'t>, first: &Expr<'_>, link: &Link<'_>) -> IndexPart<'t>
    ensures { index_view result ≡ shifted_by (name_declared scopes.now (bare_name (expr_view first.now)))
        (option_and_then (added_by link.now.op) (literal_of (expr_view link.now.right.now))) }
{
    match declared(scopes, first) {
        None => IndexPart::Elsewhere,
        Some(declared) => shifted(declared, link.op, literal(link.right)),
    }
}

// A chain as an index: it has two operands.
fn chain_index<'t>(scopes: &Scopes<'t>, first: &Expr<'_>, links: &[Link<'_>]) -> IndexPart<'t>
    ensures { index_view result ≡ index_of_expr scopes.now (ChainTree (expr_view first.now) (links_of links.now)) }
{
    match links {
        [] => IndexPart::Elsewhere,
        [only] => linked(scopes, first, only),
        [_, _, ..] => IndexPart::Elsewhere,
    }
}

// A name as an index.
fn at_name<'t>(declared: Option<Declared<'t>>) -> IndexPart<'t>
    ensures { index_view result ≡ at_name_of (option_map declared_view declared.entry) }
{
    match declared {
        None => IndexPart::Elsewhere,
        Some(declared) => IndexPart::AtName(declared),
    }
}

// An expression as an index.
#[cycle(index)]
#[tactic(auto, using(dpl_tree::proofs::Fields::chain_view_fields, dpl_tree::proofs::Fields::expr_view_postfixed))]
fn index_of<'t>(scopes: &Scopes<'t>, e: &Expr<'_>) -> IndexPart<'t>
    ensures { index_view result ≡ index_of_expr scopes.now (expr_view e.now) }
{
    match e {
        Expr::Named(name) => at_name(scopes.lookup(name.text)),
        Expr::Grouped { item, .. } => item_index(scopes, item),
        Expr::Chain(chain) => chain_index(scopes, chain.first, chain.links),
        Expr::Number(_, _)
        | Expr::Truth(_, _)
        | Expr::Locales(_)
        | Expr::LocaleCount(_)
        | Expr::Here(_)
        | Expr::Domain { .. }
        | Expr::Prefixed { .. }
        | Expr::Reduced(_)
        | Expr::Postfixed(_) => IndexPart::Elsewhere,
    }
}

// An item as an index.
#[cycle(index)]
fn item_index<'t>(scopes: &Scopes<'t>, item: &Item<'_>) -> IndexPart<'t>
    ensures { index_view result ≡ index_of_item scopes.now (item_view item.now) }
{
    match item {
        Item::One(e) => index_of(scopes, e),
        Item::Range(_) => IndexPart::Elsewhere,
    }
}

/// Items as indices, in the arena.
///
/// # Errors
/// Out of memory.
#[tactic(auto, using(dpl_tree::proofs::Fields::items_view_fields))]
pub fn items_index<'t>(arena: Arena<'t>, scopes: &Scopes<'t>, items: &Items<'_>) -> Indices<'t>
    ensures { IfOk result (λ is. map index_view is.now ≡ items_index_of scopes.now (items_view items.now)) }
{
    let mut parts = Vec::new(arena.alloc());
    parts.push(item_index(scopes, &items.first))?;
    arena.list(more_items_index(scopes, parts, items.others)?)
}

// Further items, behind the indices so far.
fn more_items_index<'t>(
    scopes: &Scopes<'t>,
    parts: Vec<IndexPart<'t>>,
    others: &[NextItem<'_>],
) -> Result<Vec<IndexPart<'t>>, AllocError>
    ensures { IfOk result (λ is. map index_view is.items ≡ map index_view parts.entry.items ++ more_items_index_of scopes.now (more_items_of others.now)) }
{
    let mut parts = parts;
    for next in others {
        parts.push(item_index(scopes, &next.item))?;
    }
    Ok(parts)
}

/// Expressions as indices, in the arena.
///
/// # Errors
/// Out of memory.
#[tactic(auto, using(dpl_tree::proofs::Fields::exprs_view_fields))]
pub fn exprs_index<'t>(arena: Arena<'t>, scopes: &Scopes<'t>, exprs: &Exprs<'_>) -> Indices<'t>
    ensures { IfOk result (λ is. map index_view is.now ≡ exprs_index_of scopes.now (exprs_view exprs.now)) }
{
    let mut parts = Vec::new(arena.alloc());
    parts.push(index_of(scopes, exprs.first))?;
    arena.list(more_exprs_index(scopes, parts, exprs.others)?)
}

// Further expressions, behind the indices so far.
fn more_exprs_index<'t>(
    scopes: &Scopes<'t>,
    parts: Vec<IndexPart<'t>>,
    others: &[NextExpr<'_>],
) -> Result<Vec<IndexPart<'t>>, AllocError>
    ensures { IfOk result (λ is. map index_view is.items ≡ map index_view parts.entry.items ++ more_exprs_index_of scopes.now (more_exprs_of others.now)) }
{
    let mut parts = parts;
    for next in others {
        parts.push(index_of(scopes, next.expr))?;
    }
    Ok(parts)
}
