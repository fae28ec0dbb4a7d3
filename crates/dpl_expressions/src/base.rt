// Bases: names, literals, and what stands in brackets of its own.
// Brackets go one level deeper.

ghost use Rattle.std.specs.Prelude.{◌≡◌, ◌<◌, length, IfOk, OnErr, IsErrOf};
ghost use Rattle.dpl_language.specs.Tree.{Named as NamedTree};
ghost use Rattle.dpl_grammar.specs.Rule.{◌⟶◌, ◌∎};
ghost use Rattle.dpl_grammar.specs.Gives.{Gives};
ghost use Rattle.dpl_tree.specs.View.{expr_view};
ghost use Rattle.dpl_spelling.specs.Expressions.{domain_literal as domain_literal_rule, grouped as grouped_rule, name as name_rule, base as base_rule};
ghost use Rattle.dpl_spelling.specs.Reading.{at};

use crate::item::item;
use crate::list::items;
use crate::token::{Parsed, Tokens, deeper, name, sign, unexpected};
use dpl_syntax::{Keyword, Kind, Sign, Stop};
use dpl_tree::{Arena, Expr};

/// base = name | number | "true" | "false" | "(" item ")" | "{" item { "," item } "}" | "Locales" | "numLocales" | "here"
#[cycle(expression)]
#[tactic(auto, unfolding(dpl_spelling::specs::Expressions::base, dpl_spelling::specs::Expressions::simple_base, dpl_spelling::specs::Expressions::domain_literal, dpl_spelling::specs::Expressions::grouped))]
pub fn base<'t>(arena: Arena<'t>, room: u32, tokens: Tokens<'t>) -> Parsed<'t, &'t Expr<'t>>
    ensures gives { Gives (λ x. (expr_view x.0.now, x.1.now)) result (at base_rule room tokens.now) }
    ensures shorter { IfOk result (λ x. length x.1.now < length tokens.now) }
{
    match tokens {
        [next, rest @ ..] => match next.kind {
            Kind::Name(_) | Kind::Contextual(_) => named(arena, tokens),
            Kind::Number(value) => made(arena, Expr::Number(next.at, value), rest),
            Kind::Keyword(Keyword::True) => made(arena, Expr::Truth(next.at, true), rest),
            Kind::Keyword(Keyword::False) => made(arena, Expr::Truth(next.at, false), rest),
            Kind::Keyword(Keyword::Locales) => made(arena, Expr::Locales(next.at), rest),
            Kind::Keyword(Keyword::NumLocales) => made(arena, Expr::LocaleCount(next.at), rest),
            Kind::Keyword(Keyword::Here) => made(arena, Expr::Here(next.at), rest),
            Kind::Sign(Sign::OpenCurly) => domain_literal(arena, room, tokens),
            _ => grouped(arena, room, tokens),
        },
        [] => Err(unexpected(tokens)),
    }
}

/// name
fn named<'t>(arena: Arena<'t>, tokens: Tokens<'t>) -> Parsed<'t, &'t Expr<'t>>
    ensures gives { Gives (λ x. (expr_view x.0.now, x.1.now)) result (at (name_rule ∎ ⟶ λ x. NamedTree x) 0 tokens.now) }
    ensures shorter { IfOk result (λ x. length x.1.now < length tokens.now) }
{
    let (name, rest) = name(tokens)?;
    Ok((arena.node(Expr::Named(name))?, rest))
}

/// The node in the arena, and the tokens after it.
fn made<'t>(arena: Arena<'t>, expr: Expr<'t>, rest: Tokens<'t>) -> Parsed<'t, &'t Expr<'t>>
    ensures made { IfOk result (λ x. (x.0.now ≡ expr.entry) × (x.1.now ≡ rest.now)) }
    ensures memory { OnErr result (IsErrOf result Stop.Memory) }
{
    Ok((arena.node(expr)?, rest))
}

/// "{" item { "," item } "}"
#[cycle(expression)]
#[tactic(auto, unfolding(dpl_spelling::specs::Expressions::domain_literal))]
fn domain_literal<'t>(arena: Arena<'t>, room: u32, tokens: Tokens<'t>) -> Parsed<'t, &'t Expr<'t>>
    ensures gives { Gives (λ x. (expr_view x.0.now, x.1.now)) result (at domain_literal_rule room tokens.now) }
    ensures shorter { IfOk result (λ x. length x.1.now < length tokens.now) }
{
    let (from, room, rest) = deeper(room, Sign::OpenCurly, tokens)?;
    let (items, rest) = items(arena, room, rest)?;
    let (upto, rest) = sign(Sign::CloseCurly, rest)?;
    let domain = Expr::Domain {
        from: from.at,
        items: arena.node(items)?,
        upto: upto.at,
    };
    Ok((arena.node(domain)?, rest))
}

/// "(" item ")"
#[cycle(expression)]
#[tactic(auto, using(dpl_spelling::proofs::Below::below_item), unfolding(dpl_spelling::specs::Expressions::grouped))]
fn grouped<'t>(arena: Arena<'t>, room: u32, tokens: Tokens<'t>) -> Parsed<'t, &'t Expr<'t>>
    ensures gives { Gives (λ x. (expr_view x.0.now, x.1.now)) result (at grouped_rule room tokens.now) }
    ensures shorter { IfOk result (λ x. length x.1.now < length tokens.now) }
{
    let (from, room, rest) = deeper(room, Sign::OpenRound, tokens)?;
    let (item, rest) = item(arena, room, rest)?;
    let (upto, rest) = sign(Sign::CloseRound, rest)?;
    let grouped = Expr::Grouped {
        from: from.at,
        item: arena.node(item)?,
        upto: upto.at,
    };
    Ok((arena.node(grouped)?, rest))
}
