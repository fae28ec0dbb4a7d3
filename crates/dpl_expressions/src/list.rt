// Lists of items and of expressions with commas between them.
// Their callers have gone one level deeper, into a bracket.

ghost use Rattle.std.specs.Prelude.{◌+◌, ◌<◌, ◌≤◌, length, map, IfOk};
ghost use Rattle.dpl_grammar.specs.Gives.{Gives};
ghost use Rattle.dpl_grammar.specs.Rule.{below, many};
ghost use Rattle.dpl_tree.specs.View.{items_view, exprs_view, next_expr_view};
ghost use Rattle.dpl_spelling.specs.Nested.{ItemBelow, ExpressionBelow};
ghost use Rattle.dpl_spelling.specs.Expressions.{after_comma, items as items_rule, exprs as exprs_rule};
ghost use Rattle.dpl_spelling.specs.Reading.{at};
ghost use Rattle.dpl_expressions.specs.Levels.{next_item_view};

use crate::chain::expression;
use crate::item::item;
use crate::token::{Parsed, Tokens, is_sign, passed_on, sign};
use dpl_syntax::Sign;
use dpl_tree::{Arena, Exprs, Items, NextExpr, NextItem};

/// item { "," item }, in a bracket in which there is so much room
#[cycle(expression)]
#[tactic(auto, using(dpl_spelling::proofs::Below::below_item, crate::proofs::Lists::more_items_of_nodes), unfolding(dpl_spelling::specs::Expressions::items, dpl_spelling::specs::Expressions::listed))]
pub fn items<'t>(arena: Arena<'t>, room: u32, tokens: Tokens<'t>) -> Parsed<'t, Items<'t>>
    ensures gives { Gives (λ x. (items_view x.0, x.1.now)) result (at items_rule (room + 1) tokens.now) }
    ensures shorter { IfOk result (λ x. length x.1.now < length tokens.now) }
{
    let (first, rest) = item(arena, room, tokens)?;
    let (others, rest) = more_items(arena, room, rest)?;
    Ok((Items::new(first, others), rest))
}

/// { "," item }
#[cycle(expression)]
fn more_items<'t>(arena: Arena<'t>, room: u32, tokens: Tokens<'t>) -> Parsed<'t, &'t [NextItem<'t>]>
    ensures gives { Gives (λ x. (map next_item_view x.0.now, x.1.now)) result (at (many (after_comma (below ItemBelow))) (room + 1) tokens.now) }
    ensures shorter { IfOk result (λ x. length x.1.now ≤ length tokens.now) }
{
    let mut others = Vec::new(arena.alloc());
    let mut rest = tokens;
    'each: while is_sign(rest, Sign::Comma) {
        let (next, after) = next_item(arena, room, rest)?;
        others.push(next)?;
        rest = passed_on(after);
    }
    Ok((arena.list(others)?, rest))
}

/// "," item
#[cycle(expression)]
#[tactic(auto, using(dpl_spelling::proofs::Below::below_item), unfolding(dpl_spelling::specs::Expressions::after_comma))]
fn next_item<'t>(arena: Arena<'t>, room: u32, tokens: Tokens<'t>) -> Parsed<'t, NextItem<'t>>
    ensures gives { Gives (λ x. (next_item_view x.0, x.1.now)) result (at (after_comma (below ItemBelow)) (room + 1) tokens.now) }
    ensures shorter { IfOk result (λ x. length x.1.now < length tokens.now) }
{
    let (comma, rest) = sign(Sign::Comma, tokens)?;
    let (item, rest) = item(arena, room, rest)?;
    Ok((
        NextItem {
            comma: comma.at,
            item,
        },
        rest,
    ))
}

/// expr { "," expr }, in a bracket in which there is so much room
#[cycle(expression)]
#[tactic(auto, using(dpl_spelling::proofs::Below::below_expression, crate::proofs::Lists::more_exprs_of_nodes), unfolding(dpl_spelling::specs::Expressions::exprs, dpl_spelling::specs::Expressions::listed))]
pub fn exprs<'t>(arena: Arena<'t>, room: u32, tokens: Tokens<'t>) -> Parsed<'t, Exprs<'t>>
    ensures gives { Gives (λ x. (exprs_view x.0, x.1.now)) result (at exprs_rule (room + 1) tokens.now) }
    ensures shorter { IfOk result (λ x. length x.1.now < length tokens.now) }
{
    let (first, rest) = expression(arena, room, tokens)?;
    let (others, rest) = more_exprs(arena, room, rest)?;
    Ok((Exprs::new(first, others), rest))
}

/// { "," expr }
#[cycle(expression)]
fn more_exprs<'t>(arena: Arena<'t>, room: u32, tokens: Tokens<'t>) -> Parsed<'t, &'t [NextExpr<'t>]>
    ensures gives { Gives (λ x. (map next_expr_view x.0.now, x.1.now)) result (at (many (after_comma (below ExpressionBelow))) (room + 1) tokens.now) }
    ensures shorter { IfOk result (λ x. length x.1.now ≤ length tokens.now) }
{
    let mut others = Vec::new(arena.alloc());
    let mut rest = tokens;
    'each: while is_sign(rest, Sign::Comma) {
        let (next, after) = next_expr(arena, room, rest)?;
        others.push(next)?;
        rest = passed_on(after);
    }
    Ok((arena.list(others)?, rest))
}

/// "," expr
#[cycle(expression)]
#[tactic(auto, using(dpl_spelling::proofs::Below::below_expression), unfolding(dpl_spelling::specs::Expressions::after_comma))]
fn next_expr<'t>(arena: Arena<'t>, room: u32, tokens: Tokens<'t>) -> Parsed<'t, NextExpr<'t>>
    ensures gives { Gives (λ x. (next_expr_view x.0, x.1.now)) result (at (after_comma (below ExpressionBelow)) (room + 1) tokens.now) }
    ensures shorter { IfOk result (λ x. length x.1.now < length tokens.now) }
{
    let (comma, rest) = sign(Sign::Comma, tokens)?;
    let (expr, rest) = expression(arena, room, rest)?;
    Ok((
        NextExpr {
            comma: comma.at,
            expr,
        },
        rest,
    ))
}
