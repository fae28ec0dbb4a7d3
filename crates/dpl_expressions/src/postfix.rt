// What stands behind a base: index lists, slices and methods.
// Brackets go one level deeper.

ghost use Rattle.std.specs.Prelude.{◌≡◌, ◌<◌, ◌≤◌, length, map, IfOk, OnErr, IsErrOf};
ghost use Rattle.dpl_grammar.specs.Gives.{Gives};
ghost use Rattle.dpl_grammar.specs.Reader.{next_in};
ghost use Rattle.dpl_grammar.specs.Rule.{many};
ghost use Rattle.dpl_grammar.specs.Reading.{first};
ghost use Rattle.dpl_tree.specs.View.{expr_view, post_view};
ghost use Rattle.dpl_spelling.specs.Expressions.{postfixed, post as post_rule, brackets as brackets_rule, rounds as rounds_rule, dotted as dotted_rule};
ghost use Rattle.dpl_spelling.specs.Expressions.{base as base_rule, postfix as postfix_rule};
ghost use Rattle.dpl_spelling.specs.Reading.{at};

use crate::base::base;
use crate::list::{exprs, items};
use crate::method::method;
use crate::token::{Parsed, Tokens, deeper, is_sign, passed_on, sign};
use dpl_syntax::{Kind, Sign, Stop};
use dpl_tree::{Arena, Expr, Post};

/// postfix = base { "[" .. "]" | "(" .. ")" | "." method }
#[cycle(expression)]
#[tactic(auto, unfolding(dpl_spelling::specs::Expressions::postfix))]
pub fn postfix<'t>(arena: Arena<'t>, room: u32, tokens: Tokens<'t>) -> Parsed<'t, &'t Expr<'t>>
    ensures gives { Gives (λ x. (expr_view x.0.now, x.1.now)) result (at (postfix_rule base_rule) room tokens.now) }
    ensures shorter { IfOk result (λ x. length x.1.now < length tokens.now) }
{
    let (base, rest) = base(arena, room, tokens)?;
    if !begins_post(rest) {
        return Ok((base, rest));
    }
    let (posts, rest) = posts(arena, room, rest)?;
    let whole = postfixed(arena, base, posts)?;
    Ok((whole, rest))
}

/// The base with what stands behind it, or alone where nothing does.
#[tactic(auto, unfolding(dpl_spelling::specs::Expressions::postfixed))]
pub fn postfixed<'t>(
    arena: Arena<'t>,
    base: &'t Expr<'t>,
    posts: &'t [Post<'t>],
) -> Result<&'t Expr<'t>, Stop>
    ensures made { IfOk result (λ x. expr_view x.now ≡ postfixed (expr_view base.now) (map post_view posts.now)) }
    ensures memory { OnErr result (IsErrOf result Stop.Memory) }
{
    if posts.is_empty() {
        return Ok(base);
    }
    Ok(Expr::postfixed(arena, base, posts)?)
}

/// Whether the next token goes on with a base.
#[tactic(auto, unfolding(dpl_spelling::specs::Expressions::post, dpl_spelling::specs::Expressions::brackets, dpl_spelling::specs::Expressions::rounds, dpl_spelling::specs::Expressions::dotted))]
fn begins_post(tokens: Tokens<'_>) -> bool
    ensures { result ≡ next_in (first post_rule) tokens.now }
{
    match tokens {
        [next, ..] => matches!(
            next.kind,
            Kind::Sign(Sign::OpenSquare | Sign::OpenRound | Sign::Dot)
        ),
        [] => false,
    }
}

/// { "[" .. "]" | "(" .. ")" | "." method }
#[cycle(expression)]
pub fn posts<'t>(arena: Arena<'t>, room: u32, tokens: Tokens<'t>) -> Parsed<'t, &'t [Post<'t>]>
    ensures gives { Gives (λ x. (map post_view x.0.now, x.1.now)) result (at (many post_rule) room tokens.now) }
    ensures shorter { IfOk result (λ x. length x.1.now ≤ length tokens.now) }
{
    let mut posts = Vec::new(arena.alloc());
    let mut rest = tokens;
    'each: while begins_post(rest) {
        let (post, after) = post(arena, room, rest)?;
        posts.push(post)?;
        rest = passed_on(after);
    }
    Ok((arena.list(posts)?, rest))
}

/// "[" .. "]" | "(" .. ")" | "." method
#[cycle(expression)]
#[tactic(auto, unfolding(dpl_spelling::specs::Expressions::post, dpl_spelling::specs::Expressions::brackets, dpl_spelling::specs::Expressions::rounds))]
fn post<'t>(arena: Arena<'t>, room: u32, tokens: Tokens<'t>) -> Parsed<'t, Post<'t>>
    ensures gives { Gives (λ x. (post_view x.0, x.1.now)) result (at post_rule room tokens.now) }
    ensures shorter { IfOk result (λ x. length x.1.now < length tokens.now) }
{
    if is_sign(tokens, Sign::OpenSquare) {
        brackets(arena, room, tokens)
    } else if is_sign(tokens, Sign::OpenRound) {
        rounds(arena, room, tokens)
    } else {
        dotted(arena, room, tokens)
    }
}

/// "[" item { "," item } "]"
#[cycle(expression)]
#[tactic(auto, unfolding(dpl_spelling::specs::Expressions::brackets))]
fn brackets<'t>(arena: Arena<'t>, room: u32, tokens: Tokens<'t>) -> Parsed<'t, Post<'t>>
    ensures gives { Gives (λ x. (post_view x.0, x.1.now)) result (at brackets_rule room tokens.now) }
    ensures shorter { IfOk result (λ x. length x.1.now < length tokens.now) }
{
    let (from, room, rest) = deeper(room, Sign::OpenSquare, tokens)?;
    let (items, rest) = items(arena, room, rest)?;
    let (upto, rest) = sign(Sign::CloseSquare, rest)?;
    Ok((
        Post::Brackets {
            from: from.at,
            items: arena.node(items)?,
            upto: upto.at,
        },
        rest,
    ))
}

/// "(" expr { "," expr } ")"
#[cycle(expression)]
#[tactic(auto, unfolding(dpl_spelling::specs::Expressions::rounds))]
fn rounds<'t>(arena: Arena<'t>, room: u32, tokens: Tokens<'t>) -> Parsed<'t, Post<'t>>
    ensures gives { Gives (λ x. (post_view x.0, x.1.now)) result (at rounds_rule room tokens.now) }
    ensures shorter { IfOk result (λ x. length x.1.now < length tokens.now) }
{
    let (from, room, rest) = deeper(room, Sign::OpenRound, tokens)?;
    let (exprs, rest) = exprs(arena, room, rest)?;
    let (upto, rest) = sign(Sign::CloseRound, rest)?;
    Ok((
        Post::Rounds {
            from: from.at,
            exprs: arena.node(exprs)?,
            upto: upto.at,
        },
        rest,
    ))
}

/// "." method
#[cycle(expression)]
#[tactic(auto, unfolding(dpl_spelling::specs::Expressions::dotted))]
fn dotted<'t>(arena: Arena<'t>, room: u32, tokens: Tokens<'t>) -> Parsed<'t, Post<'t>>
    ensures gives { Gives (λ x. (post_view x.0, x.1.now)) result (at dotted_rule room tokens.now) }
    ensures shorter { IfOk result (λ x. length x.1.now < length tokens.now) }
{
    let (dot, rest) = sign(Sign::Dot, tokens)?;
    let (method, rest) = method(arena, room, rest)?;
    Ok((Post::Dotted(dot.at, method), rest))
}
