// Where a map starts: an expression, or a tuple of two or three.
// A bracket may begin either; what it holds tells which.

ghost use Rattle.std.specs.Prelude.{◌≡◌, ◌<◌, ◌≤◌, length, map, IfOk};
ghost use Rattle.dpl_grammar.specs.Gives.{Gives};
ghost use Rattle.dpl_grammar.specs.Rule.{◌⟶◌, ◌∎};
ghost use Rattle.dpl_language.specs.Tree.{StartExpr};
ghost use Rattle.dpl_tree.specs.View.{expr_view, next_expr_view};
ghost use Rattle.dpl_tree.specs.Declarations.{start_view};
ghost use Rattle.dpl_spelling.specs.Expressions.{after_comma, expression as expression_rule};
ghost use Rattle.dpl_spelling.specs.Declarations.{start as start_rule, inside as inside_rule, expression_end};
ghost use Rattle.dpl_statements.specs.Insides.{inside_view};
ghost use Rattle.dpl_spelling.specs.Reading.{at};

use dpl_expressions::chain::{chained, expression, links};
use dpl_expressions::factor::factors;
use dpl_expressions::item::item;
use dpl_expressions::level::Level;
use dpl_expressions::postfix::{postfixed, posts};
use dpl_expressions::token::{Parsed, Tokens, deeper, is_sign, sign};
use dpl_syntax::{Place, Sign, Stop, Token};
use dpl_tree::{Arena, Expr, Item, NextExpr, Start};

/// What a bracket holds that begins where a map starts.
#[derive(Clone, Copy)]
pub enum Contents<'t> {
    Item(Item<'t>),
    /// Two or three expressions: the first, and the others behind their commas.
    Tuple(&'t Expr<'t>, &'t [NextExpr<'t>]),
}

/// start = expr | "(" expr "," expr [ "," expr ] ")"
#[tactic(auto, using(dpl_spelling::proofs::Starts::expression_unbracketed, dpl_spelling::proofs::Below::below_inside), unfolding(dpl_spelling::specs::Declarations::start, dpl_spelling::specs::Declarations::bracket))]
pub fn start<'t>(arena: Arena<'t>, room: u32, tokens: Tokens<'t>) -> Parsed<'t, Start<'t>>
    ensures gives { Gives (λ x. (start_view x.0, x.1.now)) result (at start_rule room tokens.now) }
    ensures shorter { IfOk result (λ x. length x.1.now < length tokens.now) }
{
    if !is_sign(tokens, Sign::OpenRound) {
        let (expr, rest) = expression(arena, room, tokens)?;
        return Ok((Start::Expr(expr), rest));
    }
    let (from, below, rest) = deeper(room, Sign::OpenRound, tokens)?;
    let (inside, rest) = inside(arena, below, rest)?;
    let (upto, rest) = sign(Sign::CloseRound, rest)?;
    match inside {
        Contents::Tuple(first, others) => Ok((
            Start::Tuple {
                from: from.at,
                first,
                others,
                upto: upto.at,
            },
            rest,
        )),
        Contents::Item(item) => {
            let base = Expr::Grouped {
                from: from.at,
                item: arena.node(item)?,
                upto: upto.at,
            };
            let (expr, rest) = expression_from(arena, room, arena.node(base)?, rest)?;
            Ok((Start::Expr(expr), rest))
        }
    }
}

/// item | expr "," expr [ "," expr ]
#[tactic(auto, unfolding(dpl_spelling::specs::Declarations::inside, dpl_spelling::specs::Declarations::tuple_end, dpl_spelling::specs::Expressions::after_comma))]
fn inside<'t>(arena: Arena<'t>, room: u32, tokens: Tokens<'t>) -> Parsed<'t, Contents<'t>>
    ensures gives { Gives (λ x. (inside_view x.0, x.1.now)) result (at inside_rule room tokens.now) }
    ensures shorter { IfOk result (λ x. length x.1.now < length tokens.now) }
{
    let (item, rest) = item(arena, room, tokens)?;
    let first = match item {
        Item::One(first) => first,
        Item::Range(range) => return Ok((Contents::Item(Item::Range(range)), rest)),
    };
    if !is_sign(rest, Sign::Comma) {
        return Ok((Contents::Item(Item::One(first)), rest));
    }
    let mut others = Vec::new(arena.alloc());
    let (second, rest) = after_comma(arena, room, rest)?;
    others.push(second)?;
    if !is_sign(rest, Sign::Comma) {
        return Ok((Contents::Tuple(first, arena.list(others)?), rest));
    }
    let (third, rest) = after_comma(arena, room, rest)?;
    others.push(third)?;
    Ok((Contents::Tuple(first, arena.list(others)?), rest))
}

/// "," expr
#[tactic(auto, unfolding(dpl_spelling::specs::Expressions::after_comma))]
fn after_comma<'t>(arena: Arena<'t>, room: u32, tokens: Tokens<'t>) -> Parsed<'t, NextExpr<'t>>
    ensures gives { Gives (λ x. (next_expr_view x.0, x.1.now)) result (at (after_comma expression_rule) room tokens.now) }
    ensures shorter { IfOk result (λ x. length x.1.now < length tokens.now) }
{
    let (comma, rest) = sign(Sign::Comma, tokens)?;
    let (expr, rest) = expression(arena, room, rest)?;
    Ok((
        NextExpr {
            comma: comma.at,
            expr,
        },
        rest,
    ))
}

/// What an expression goes on with behind its base, by the levels of operators.
#[tactic(auto, unfolding(dpl_spelling::specs::Declarations::expression_end))]
fn expression_from<'t>(
    arena: Arena<'t>,
    room: u32,
    base: &'t Expr<'t>,
    tokens: Tokens<'t>,
) -> Parsed<'t, &'t Expr<'t>>
    ensures gives { Gives (λ x. (StartExpr (expr_view x.0.now), x.1.now)) result (at (expression_end ∎ ⟶ λ h. h (expr_view base.now)) room tokens.now) }
    ensures shorter { IfOk result (λ x. length x.1.now ≤ length tokens.now) }
{
    let (posts, rest) = posts(arena, room, tokens)?;
    let whole = postfixed(arena, base, posts)?;
    let (factors, rest) = factors(arena, room, rest)?;
    let whole = chained(arena, whole, factors)?;
    let (sums, rest) = links(arena, Level::Sum, room, rest)?;
    let whole = chained(arena, whole, sums)?;
    let (relations, rest) = links(arena, Level::Relation, room, rest)?;
    let whole = chained(arena, whole, relations)?;
    let (equalities, rest) = links(arena, Level::Equality, room, rest)?;
    let whole = chained(arena, whole, equalities)?;
    let (ands, rest) = links(arena, Level::And, room, rest)?;
    let whole = chained(arena, whole, ands)?;
    let (ors, rest) = links(arena, Level::Or, room, rest)?;
    let whole = chained(arena, whole, ors)?;
    Ok((whole, rest))
}
