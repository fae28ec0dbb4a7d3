// Products and what is prefixed by a minus or a `!`.
// A negated factor is a product's last one: `a * -b * c` is `a * (-(b * c))`.

ghost use Rattle.std.specs.Prelude.{◌≡◌, ◌<◌, ◌≤◌, length, map, IfOk};
ghost use Rattle.dpl_grammar.specs.Gives.{Gives};
ghost use Rattle.dpl_grammar.specs.Reader.{next_in};
ghost use Rattle.dpl_grammar.specs.Rule.{run};
ghost use Rattle.dpl_grammar.specs.Reading.{first_late};
ghost use Rattle.dpl_tree.specs.View.{expr_view};
ghost use Rattle.dpl_spelling.specs.Expressions.{factor as factor_rule, base as base_rule, not as not_rule, is_negated, further_factor};
ghost use Rattle.dpl_spelling.specs.Expressions.{product_operator as product_operator_rule, product as product_rule, negated as negated_rule};
ghost use Rattle.dpl_spelling.specs.Expressions.{neg as neg_rule};
ghost use Rattle.dpl_spelling.specs.Reading.{at, late_at};
ghost use Rattle.dpl_expressions.specs.Levels.{further_view};

use crate::chain::chained;
use crate::reduction::red;
use crate::token::{Parsed, Tokens, deeper, is_sign, means, passed_on};
use dpl_syntax::{Place, Sign};
use dpl_tree::{Arena, Expr, Infix, Link, Prefix};

/// neg = "-" neg | mul
#[cycle(expression)]
#[tactic(auto, unfolding(dpl_spelling::specs::Expressions::neg))]
pub fn neg<'t>(arena: Arena<'t>, room: u32, tokens: Tokens<'t>) -> Parsed<'t, &'t Expr<'t>>
    ensures gives { Gives (λ x. (expr_view x.0.now, x.1.now)) result (at (neg_rule base_rule) room tokens.now) }
    ensures shorter { IfOk result (λ x. length x.1.now < length tokens.now) }
{
    if is_sign(tokens, Sign::Minus) {
        negated(arena, room, tokens)
    } else {
        product(arena, room, tokens)
    }
}

/// "-" neg
#[cycle(expression)]
#[tactic(auto, using(dpl_spelling::proofs::Below::below_neg))]
fn negated<'t>(arena: Arena<'t>, room: u32, tokens: Tokens<'t>) -> Parsed<'t, &'t Expr<'t>>
    ensures gives { Gives (λ x. (expr_view x.0.now, x.1.now)) result (at negated_rule room tokens.now) }
    ensures shorter { IfOk result (λ x. length x.1.now < length tokens.now) }
{
    let (minus, room, rest) = deeper(room, Sign::Minus, tokens)?;
    let (operand, rest) = neg(arena, room, rest)?;
    let negated = Expr::Prefixed {
        at: minus.at,
        op: Prefix::Minus,
        operand,
    };
    Ok((arena.node(negated)?, rest))
}

/// mul = not { mulop not } [ mulop "-" neg ]
#[cycle(expression)]
#[tactic(auto, unfolding(dpl_spelling::specs::Expressions::product))]
fn product<'t>(arena: Arena<'t>, room: u32, tokens: Tokens<'t>) -> Parsed<'t, &'t Expr<'t>>
    ensures gives { Gives (λ x. (expr_view x.0.now, x.1.now)) result (at (product_rule base_rule) room tokens.now) }
    ensures shorter { IfOk result (λ x. length x.1.now < length tokens.now) }
{
    let (first, rest) = not(arena, room, tokens)?;
    if !is_product_operator(rest) {
        return Ok((first, rest));
    }
    let (factors, rest) = factors(arena, room, rest)?;
    let whole = chained(arena, first, factors)?;
    Ok((whole, rest))
}

/// Whether the next token is an operator between factors.
#[tactic(auto, using(dpl_grammar::proofs::Classes::next_in_either), unfolding(dpl_spelling::specs::Expressions::further_factor))]
fn is_product_operator(tokens: Tokens<'_>) -> bool
    ensures { result ≡ next_in (first_late further_factor) tokens.now }
{
    is_sign(tokens, Sign::Star) || is_sign(tokens, Sign::Slash) || is_sign(tokens, Sign::Percent)
}

/// mulop = "*" | "/" | "%"
fn product_operator(room: u32, tokens: Tokens<'_>) -> Parsed<'_, (Place, Infix)>
    ensures gives { Gives (λ x. (x.0, x.1.now)) result (at product_operator_rule room tokens.now) }
    ensures shorter { IfOk result (λ x. length x.1.now < length tokens.now) }
{
    if is_sign(tokens, Sign::Star) {
        means(Sign::Star, Infix::Multiply, tokens)
    } else if is_sign(tokens, Sign::Slash) {
        means(Sign::Slash, Infix::Divide, tokens)
    } else {
        means(Sign::Percent, Infix::Remainder, tokens)
    }
}

/// { mulop not } [ mulop "-" neg ]
#[cycle(expression)]
pub fn factors<'t>(arena: Arena<'t>, room: u32, tokens: Tokens<'t>) -> Parsed<'t, &'t [Link<'t>]>
    ensures gives { Gives (λ x. (map further_view x.0.now, x.1.now)) result (at (run (λ f. is_negated f.right) further_factor) room tokens.now) }
    ensures shorter { IfOk result (λ x. length x.1.now ≤ length tokens.now) }
{
    let (factors, rest) = further_factors(arena, room, tokens)?;
    Ok((arena.list(factors)?, rest))
}

/// The same, before they lie in the arena.
#[cycle(expression)]
fn further_factors<'t>(arena: Arena<'t>, room: u32, tokens: Tokens<'t>) -> Parsed<'t, Vec<Link<'t>>>
    ensures gives { Gives (λ x. (map further_view x.0.items, x.1.now)) result (at (run (λ f. is_negated f.right) further_factor) room tokens.now) }
    ensures shorter { IfOk result (λ x. length x.1.now ≤ length tokens.now) }
{
    let mut factors = Vec::new(arena.alloc());
    let mut rest = tokens;
    'each: while is_product_operator(rest) {
        let (factor, after) = further_factor(arena, room, rest)?;
        let last = is_negated(factor.right);
        factors.push(factor)?;
        rest = passed_on(after);
        if last {
            return Ok((factors, rest));
        }
    }
    Ok((factors, rest))
}

/// mulop not | mulop "-" neg
#[cycle(expression)]
#[tactic(auto, unfolding(dpl_spelling::specs::Expressions::further_factor))]
fn further_factor<'t>(arena: Arena<'t>, room: u32, tokens: Tokens<'t>) -> Parsed<'t, Link<'t>>
    ensures gives { Gives (λ x. (further_view x.0, x.1.now)) result (late_at further_factor room tokens.now) }
    ensures shorter { IfOk result (λ x. length x.1.now < length tokens.now) }
{
    let ((at, op), rest) = product_operator(room, tokens)?;
    let (right, rest) = factor(arena, room, rest)?;
    Ok((Link { at, op, right }, rest))
}

/// "-" neg | not
#[cycle(expression)]
fn factor<'t>(arena: Arena<'t>, room: u32, tokens: Tokens<'t>) -> Parsed<'t, &'t Expr<'t>>
    ensures gives { Gives (λ x. (expr_view x.0.now, x.1.now)) result (late_at factor_rule room tokens.now) }
    ensures shorter { IfOk result (λ x. length x.1.now < length tokens.now) }
{
    if is_sign(tokens, Sign::Minus) {
        negated(arena, room, tokens)
    } else {
        not(arena, room, tokens)
    }
}

/// Whether the expression is a negated one, which lets no factor follow.
fn is_negated(expr: &Expr<'_>) -> bool
    ensures { result ≡ is_negated (expr_view expr.now) }
{
    match expr {
        Expr::Prefixed { op, .. } => *op == Prefix::Minus,
        _ => false,
    }
}

/// not = "!" not | red
#[cycle(expression)]
#[tactic(auto, using(dpl_spelling::proofs::Below::below_not), unfolding(dpl_spelling::specs::Expressions::not, dpl_spelling::specs::Expressions::complement))]
fn not<'t>(arena: Arena<'t>, room: u32, tokens: Tokens<'t>) -> Parsed<'t, &'t Expr<'t>>
    ensures gives { Gives (λ x. (expr_view x.0.now, x.1.now)) result (at (not_rule base_rule) room tokens.now) }
    ensures shorter { IfOk result (λ x. length x.1.now < length tokens.now) }
{
    if !is_sign(tokens, Sign::Not) {
        return red(arena, room, tokens);
    }
    let (sign, room, rest) = deeper(room, Sign::Not, tokens)?;
    let (operand, rest) = not(arena, room, rest)?;
    let complement = Expr::Prefixed {
        at: sign.at,
        op: Prefix::Not,
        operand,
    };
    Ok((arena.node(complement)?, rest))
}
