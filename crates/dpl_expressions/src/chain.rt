// Expressions: operands of a level with its operators between them.
// `room` is how many levels of nesting are left; each recursion that goes deeper takes one.

ghost use Rattle.std.specs.Prelude.{◌≡◌, ◌<◌, ◌≤◌, length, map, IfOk, OnErr, IsErrOf};
ghost use Rattle.dpl_grammar.specs.Gives.{Gives};
ghost use Rattle.dpl_grammar.specs.Rule.{many};
ghost use Rattle.dpl_grammar.specs.Reading.{first};
ghost use Rattle.dpl_tree.specs.View.{expr_view};
ghost use Rattle.dpl_spelling.specs.Expressions.{chain_of, base as base_rule, expression as expression_rule};
ghost use Rattle.dpl_spelling.specs.Reading.{at};
ghost use Rattle.dpl_expressions.specs.Levels.{level_rule, operand_rule, further_rule, further_view};

use crate::factor::neg;
use crate::level::Level;
use crate::token::{Parsed, Tokens, passed_on};
use dpl_syntax::Stop;
use dpl_tree::{Arena, Expr, Link};

/// expr = and { "||" and }
#[cycle(expression)]
pub fn expression<'t>(arena: Arena<'t>, room: u32, tokens: Tokens<'t>) -> Parsed<'t, &'t Expr<'t>>
    ensures gives { Gives (λ x. (expr_view x.0.now, x.1.now)) result (at expression_rule room tokens.now) }
    ensures shorter { IfOk result (λ x. length x.1.now < length tokens.now) }
{
    chain(arena, Level::Or, room, tokens)
}

/// operand { operator operand }
#[cycle(expression)]
#[tactic(auto, using(crate::proofs::Levels::at_level))]
pub fn chain<'t>(
    arena: Arena<'t>,
    level: Level,
    room: u32,
    tokens: Tokens<'t>,
) -> Parsed<'t, &'t Expr<'t>>
    ensures gives { Gives (λ x. (expr_view x.0.now, x.1.now)) result (at (level_rule level base_rule) room tokens.now) }
    ensures shorter { IfOk result (λ x. length x.1.now < length tokens.now) }
{
    let (first, rest) = operand(arena, level, room, tokens)?;
    if !level.is_next(rest) {
        return Ok((first, rest));
    }
    let (links, rest) = links(arena, level, room, rest)?;
    let whole = chained(arena, first, links)?;
    Ok((whole, rest))
}

/// What stands between the operators of a level.
#[cycle(expression)]
fn operand<'t>(
    arena: Arena<'t>,
    level: Level,
    room: u32,
    tokens: Tokens<'t>,
) -> Parsed<'t, &'t Expr<'t>>
    ensures gives { Gives (λ x. (expr_view x.0.now, x.1.now)) result (at (operand_rule level base_rule) room tokens.now) }
    ensures shorter { IfOk result (λ x. length x.1.now < length tokens.now) }
{
    match level {
        Level::Sum => neg(arena, room, tokens),
        Level::Relation => chain(arena, Level::Sum, room, tokens),
        Level::Equality => chain(arena, Level::Relation, room, tokens),
        Level::And => chain(arena, Level::Equality, room, tokens),
        Level::Or => chain(arena, Level::And, room, tokens),
    }
}

/// operator operand
#[cycle(expression)]
#[tactic(auto, unfolding(dpl_spelling::specs::Expressions::further))]
fn further<'t>(
    arena: Arena<'t>,
    level: Level,
    room: u32,
    tokens: Tokens<'t>,
) -> Parsed<'t, Link<'t>>
    ensures gives { Gives (λ x. (further_view x.0, x.1.now)) result (at (further_rule level) room tokens.now) }
    ensures shorter { IfOk result (λ x. length x.1.now < length tokens.now) }
{
    let ((at, op), rest) = level.operator(room, tokens)?;
    let (right, rest) = operand(arena, level, room, rest)?;
    Ok((Link { at, op, right }, rest))
}

/// { operator operand }
#[cycle(expression)]
pub fn links<'t>(
    arena: Arena<'t>,
    level: Level,
    room: u32,
    tokens: Tokens<'t>,
) -> Parsed<'t, &'t [Link<'t>]>
    ensures gives { Gives (λ x. (map further_view x.0.now, x.1.now)) result (at (many (further_rule level)) room tokens.now) }
    ensures shorter { IfOk result (λ x. length x.1.now ≤ length tokens.now) }
{
    let mut links = Vec::new(arena.alloc());
    let mut rest = tokens;
    'each: while level.is_next(rest) {
        let (link, after) = further(arena, level, room, rest)?;
        links.push(link)?;
        rest = passed_on(after);
    }
    Ok((arena.list(links)?, rest))
}

/// The first operand with all others, or alone where there are no others.
#[tactic(auto, unfolding(dpl_spelling::specs::Expressions::chain_of))]
pub fn chained<'t>(
    arena: Arena<'t>,
    first: &'t Expr<'t>,
    links: &'t [Link<'t>],
) -> Result<&'t Expr<'t>, Stop>
    ensures made { IfOk result (λ x. expr_view x.now ≡ chain_of (expr_view first.now) (map further_view links.now)) }
    ensures memory { OnErr result (IsErrOf result Stop.Memory) }
{
    if links.is_empty() {
        return Ok(first);
    }
    Ok(Expr::chain(arena, first, links)?)
}
