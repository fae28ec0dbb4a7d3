// Reductions: an operator, `reduce`, and what is reduced.
// The operator goes one level deeper, as a prefix does.

ghost use Rattle.std.specs.Prelude.{◌≡◌, ◌+◌, ◌<◌, length, IfOk};
ghost use Rattle.dpl_grammar.specs.Gives.{Gives};
ghost use Rattle.dpl_grammar.specs.Reader.{next_in};
ghost use Rattle.dpl_grammar.specs.Rule.{below};
ghost use Rattle.dpl_grammar.specs.Reading.{first};
ghost use Rattle.dpl_tree.specs.View.{expr_view};
ghost use Rattle.dpl_spelling.specs.Expressions.{base as base_rule, reduction_by, reduction as reduction_rule, red as red_rule};
ghost use Rattle.dpl_spelling.specs.Reading.{at, deeper_at};
ghost use Rattle.dpl_expressions.specs.Levels.{op_class};

use crate::postfix::postfix;
use crate::token::{Parsed, Tokens, deeper, deeper_word, keyword, unexpected};
use dpl_syntax::{Keyword, Kind, Sign, Stop, Token};
use dpl_tree::{Arena, Expr, Op, Reduction};

/// red = redop "reduce" red | postfix
#[cycle(expression)]
#[tactic(auto, unfolding(dpl_spelling::specs::Expressions::red))]
pub fn red<'t>(arena: Arena<'t>, room: u32, tokens: Tokens<'t>) -> Parsed<'t, &'t Expr<'t>>
    ensures gives { Gives (λ x. (expr_view x.0.now, x.1.now)) result (at (red_rule base_rule) room tokens.now) }
    ensures shorter { IfOk result (λ x. length x.1.now < length tokens.now) }
{
    if is_reduce_operator(tokens) {
        reduction(arena, room, tokens)
    } else {
        postfix(arena, room, tokens)
    }
}

/// Whether the next token is an operator of reductions.
#[tactic(auto, unfolding(dpl_spelling::specs::Expressions::reduction))]
fn is_reduce_operator(tokens: Tokens<'_>) -> bool
    ensures { result ≡ next_in (first reduction_rule) tokens.now }
{
    match tokens {
        [next, ..] => matches!(
            next.kind,
            Kind::Sign(
                Sign::Plus
                    | Sign::Star
                    | Sign::AndAnd
                    | Sign::OrOr
                    | Sign::And
                    | Sign::Or
                    | Sign::Caret
            ) | Kind::Keyword(Keyword::Min | Keyword::Max)
        ),
        [] => false,
    }
}

/// redop "reduce" red
#[cycle(expression)]
#[tactic(auto, unfolding(dpl_spelling::specs::Expressions::reduction))]
fn reduction<'t>(arena: Arena<'t>, room: u32, tokens: Tokens<'t>) -> Parsed<'t, &'t Expr<'t>>
    ensures gives { Gives (λ x. (expr_view x.0.now, x.1.now)) result (at reduction_rule room tokens.now) }
    ensures shorter { IfOk result (λ x. length x.1.now < length tokens.now) }
{
    match tokens {
        [next, ..] => match next.kind {
            Kind::Sign(Sign::Plus) => reduced(arena, room, Op::Sum, tokens),
            Kind::Sign(Sign::Star) => reduced(arena, room, Op::Product, tokens),
            Kind::Sign(Sign::AndAnd) => reduced(arena, room, Op::AllOf, tokens),
            Kind::Sign(Sign::OrOr) => reduced(arena, room, Op::AnyOf, tokens),
            Kind::Sign(Sign::And) => reduced(arena, room, Op::BitAnd, tokens),
            Kind::Sign(Sign::Or) => reduced(arena, room, Op::BitOr, tokens),
            Kind::Sign(Sign::Caret) => reduced(arena, room, Op::BitXor, tokens),
            Kind::Keyword(Keyword::Min) => reduced(arena, room, Op::Least, tokens),
            _ => reduced(arena, room, Op::Greatest, tokens),
        },
        [] => Err(unexpected(tokens)),
    }
}

/// redop "reduce" red, for one operator
#[cycle(expression)]
#[tactic(auto, using(dpl_spelling::proofs::Below::below_red))]
fn reduced<'t>(arena: Arena<'t>, room: u32, op: Op, tokens: Tokens<'t>) -> Parsed<'t, &'t Expr<'t>>
    ensures gives { Gives (λ x. (expr_view x.0.now, x.1.now)) result (at (reduction_by (op_class op) op) room tokens.now) }
    ensures shorter { IfOk result (λ x. length x.1.now < length tokens.now) }
{
    let (next, room, rest) = deeper_by(room, op, tokens)?;
    let (word, rest) = keyword(Keyword::Reduce, rest)?;
    let (operand, rest) = red(arena, room, rest)?;
    let reduction = Reduction {
        at: next.at,
        op,
        reduce: word.at,
        operand,
    };
    let reduced = Expr::Reduced(arena.node(reduction)?);
    Ok((arena.node(reduced)?, rest))
}

/// An operator of a reduction, which goes one level deeper.
fn deeper_by(room: u32, op: Op, tokens: Tokens<'_>) -> Result<(&Token<'_>, u32, Tokens<'_>), Stop>
    ensures gives { Gives (λ x. (x.0.now, x.2.now)) result (deeper_at room (op_class op) tokens.now) }
    ensures shorter { IfOk result (λ x. length x.2.now < length tokens.now) }
    ensures below { IfOk result (λ x. x.1 + 1 ≡ room) }
{
    match op {
        Op::Sum => deeper(room, Sign::Plus, tokens),
        Op::Product => deeper(room, Sign::Star, tokens),
        Op::AllOf => deeper(room, Sign::AndAnd, tokens),
        Op::AnyOf => deeper(room, Sign::OrOr, tokens),
        Op::BitAnd => deeper(room, Sign::And, tokens),
        Op::BitOr => deeper(room, Sign::Or, tokens),
        Op::BitXor => deeper(room, Sign::Caret, tokens),
        Op::Least => deeper_word(room, Keyword::Min, tokens),
        Op::Greatest => deeper_word(room, Keyword::Max, tokens),
    }
}
