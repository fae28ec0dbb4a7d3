// Items: expressions and ranges.
// Only a sum is the low end of a range.

ghost use Rattle.std.specs.Prelude.{◌≡◌, ◌<◌, ◌≤◌, length, cond, IfOk};
ghost use Rattle.dpl_grammar.specs.Gives.{Gives};
ghost use Rattle.dpl_grammar.specs.Reader.{next_in};
ghost use Rattle.dpl_grammar.specs.Rule.{Whole, Begun};
ghost use Rattle.dpl_grammar.specs.Reading.{first};
ghost use Rattle.dpl_tree.specs.View.{expr_view, item_view, stride_view};
ghost use Rattle.dpl_language.specs.Tree.{One};
ghost use Rattle.dpl_spelling.specs.Expressions.{after_first, is_in_sum, item as item_rule, range_end as range_end_rule, range_dots as range_dots_rule};
ghost use Rattle.dpl_spelling.specs.Expressions.{stride as stride_rule};
ghost use Rattle.dpl_spelling.specs.Reading.{at};

use crate::chain::{chain, expression};
use crate::level::Level;
use crate::token::{Parsed, Tokens, is_keyword, is_sign, keyword, means, sign};
use dpl_syntax::{Keyword, Kind, Place, Sign};
use dpl_tree::{Arena, Dots, Expr, Infix, Item, Range, Stride};

/// item = expr | sum ( ".." sum | ".." "#" sum | "..<" sum ) [ "by" sum ]
#[cycle(expression)]
#[tactic(auto, unfolding(dpl_spelling::specs::Expressions::item, dpl_spelling::specs::Expressions::range_end))]
pub fn item<'t>(arena: Arena<'t>, room: u32, tokens: Tokens<'t>) -> Parsed<'t, Item<'t>>
    ensures gives { Gives (λ x. (item_view x.0, x.1.now)) result (at item_rule room tokens.now) }
    ensures shorter { IfOk result (λ x. length x.1.now < length tokens.now) }
{
    let (low, rest) = expression(arena, room, tokens)?;
    if !is_sum(low) || !begins_range_end(rest) {
        return Ok((Item::One(low), rest));
    }
    let ((at, dots), rest) = range_dots(room, rest)?;
    let (high, rest) = chain(arena, Level::Sum, room, rest)?;
    let (by, rest) = stride(arena, room, rest)?;
    let range = Range {
        low,
        at,
        dots,
        high,
        by,
    };
    Ok((Item::Range(arena.node(range)?), rest))
}

/// Whether the next token makes a sum the low end of a range.
#[tactic(auto, unfolding(dpl_spelling::specs::Expressions::range_end, dpl_spelling::specs::Expressions::range_dots))]
fn begins_range_end(tokens: Tokens<'_>) -> bool
    ensures { result ≡ next_in (first range_end_rule) tokens.now }
{
    match tokens {
        [next, ..] => matches!(next.kind, Kind::Sign(Sign::DotDot | Sign::DotDotLess)),
        [] => false,
    }
}

/// ".." | ".." "#" | "..<"
#[tactic(auto, unfolding(dpl_spelling::specs::Expressions::range_dots))]
fn range_dots(room: u32, tokens: Tokens<'_>) -> Parsed<'_, (Place, Dots)>
    ensures gives { Gives (λ x. (x.0, x.1.now)) result (at range_dots_rule room tokens.now) }
    ensures shorter { IfOk result (λ x. length x.1.now < length tokens.now) }
{
    if !is_sign(tokens, Sign::DotDot) {
        return means(Sign::DotDotLess, Dots::HalfOpen, tokens);
    }
    let (dots, rest) = sign(Sign::DotDot, tokens)?;
    if !is_sign(rest, Sign::Hash) {
        return Ok(((dots.at, Dots::Closed), rest));
    }
    let (hash, rest) = sign(Sign::Hash, rest)?;
    Ok(((dots.at, Dots::Counted(hash.at)), rest))
}

/// [ "by" sum ]
#[cycle(expression)]
#[tactic(auto, unfolding(dpl_spelling::specs::Expressions::stride))]
fn stride<'t>(arena: Arena<'t>, room: u32, tokens: Tokens<'t>) -> Parsed<'t, Stride<'t>>
    ensures gives { Gives (λ x. (stride_view x.0, x.1.now)) result (at stride_rule room tokens.now) }
    ensures shorter { IfOk result (λ x. length x.1.now ≤ length tokens.now) }
{
    if !is_keyword(tokens, Keyword::By) {
        return Ok((Stride::Absent, tokens));
    }
    let (by, rest) = keyword(Keyword::By, tokens)?;
    let (step, rest) = chain(arena, Level::Sum, room, rest)?;
    Ok((Stride::By(by.at, step), rest))
}

/// Whether the expression is a sum, so that a range may begin with it.
fn is_sum(expr: &Expr<'_>) -> bool
    ensures { after_first (expr_view expr.now) ≡ cond result (Begun (expr_view expr.now)) (Whole (One (expr_view expr.now))) }
{
    match expr {
        Expr::Chain(chain) => match chain.links {
            [link, ..] => is_in_sum(link.op),
            [] => true,
        },
        _ => true,
    }
}

/// Whether the operator stands between sums' own operands.
fn is_in_sum(op: Infix) -> bool
    ensures { result ≡ is_in_sum op }
{
    matches!(
        op,
        Infix::Add | Infix::Subtract | Infix::Multiply | Infix::Divide | Infix::Remainder
    )
}
