// Methods, with their arguments.
// After a dot, any word is read as a method's name.

ghost use Rattle.std.specs.Prelude.{◌<◌, length, IfOk};
ghost use Rattle.dpl_grammar.specs.Gives.{Gives};
ghost use Rattle.dpl_tree.specs.View.{method_view};
ghost use Rattle.dpl_spelling.specs.Expressions.{method as method_rule, dim as dim_rule, contains as contains_rule, expand as expand_rule};
ghost use Rattle.dpl_spelling.specs.Expressions.{plain_methods, cell_read as cell_read_rule};
ghost use Rattle.dpl_spelling.specs.Reading.{at};
ghost use Rattle.dpl_expressions.specs.Levels.{read_class};

use crate::chain::expression;
use crate::list::exprs;
use crate::token::{Parsed, Tokens, contextual, deeper, is_contextual, number, sign, unexpected};
use dpl_syntax::{Contextual, Keyword, Kind, Sign};
use dpl_tree::{Arena, Contains, Dim, Expand, Method, ReadWord, Word};

/// method = "dim" .. | "contains" .. | "expand" .. | ("readFE" | "readFF") "(" ")" | "size" | "first" | "last" | "low" | "high" | "lowBound" | "domain" | "id"
#[cycle(expression)]
#[tactic(auto, unfolding(dpl_spelling::specs::Expressions::method, dpl_spelling::specs::Expressions::dim, dpl_spelling::specs::Expressions::contains, dpl_spelling::specs::Expressions::expand))]
pub fn method<'t>(arena: Arena<'t>, room: u32, tokens: Tokens<'t>) -> Parsed<'t, Method<'t>>
    ensures gives { Gives (λ x. (method_view x.0, x.1.now)) result (at method_rule room tokens.now) }
    ensures shorter { IfOk result (λ x. length x.1.now < length tokens.now) }
{
    if is_contextual(tokens, Contextual::Dim) {
        dim(arena, room, tokens)
    } else if is_contextual(tokens, Contextual::Contains) {
        contains(arena, room, tokens)
    } else if is_contextual(tokens, Contextual::Expand) {
        expand(arena, room, tokens)
    } else if is_contextual(tokens, Contextual::ReadFE) {
        cell_read(room, ReadWord::ReadFE, tokens)
    } else if is_contextual(tokens, Contextual::ReadFF) {
        cell_read(room, ReadWord::ReadFF, tokens)
    } else {
        plain_method(room, tokens)
    }
}

/// "size" | "first" | "last" | "low" | "high" | "lowBound" | "domain" | "id"
#[tactic(auto, unfolding(dpl_spelling::specs::Expressions::plain_methods))]
fn plain_method<'t>(room: u32, tokens: Tokens<'t>) -> Parsed<'t, Method<'t>>
    ensures gives { Gives (λ x. (method_view x.0, x.1.now)) result (at plain_methods room tokens.now) }
    ensures shorter { IfOk result (λ x. length x.1.now < length tokens.now) }
{
    match tokens {
        [next, rest @ ..] => match next.kind {
            Kind::Contextual(Contextual::Size) => Ok((Method::Plain(next.at, Word::Size), rest)),
            Kind::Contextual(Contextual::First) => Ok((Method::Plain(next.at, Word::First), rest)),
            Kind::Contextual(Contextual::Last) => Ok((Method::Plain(next.at, Word::Last), rest)),
            Kind::Contextual(Contextual::Low) => Ok((Method::Plain(next.at, Word::Low), rest)),
            Kind::Contextual(Contextual::High) => Ok((Method::Plain(next.at, Word::High), rest)),
            Kind::Contextual(Contextual::LowBound) => {
                Ok((Method::Plain(next.at, Word::LowBound), rest))
            }
            Kind::Keyword(Keyword::Domain) => Ok((Method::Plain(next.at, Word::DomainOf), rest)),
            Kind::Contextual(Contextual::Id) => Ok((Method::Plain(next.at, Word::Id), rest)),
            _ => Err(unexpected(tokens)),
        },
        [] => Err(unexpected(tokens)),
    }
}

/// "dim" "(" number ")"
#[tactic(auto, unfolding(dpl_spelling::specs::Expressions::dim))]
fn dim<'t>(arena: Arena<'t>, room: u32, tokens: Tokens<'t>) -> Parsed<'t, Method<'t>>
    ensures gives { Gives (λ x. (method_view x.0, x.1.now)) result (at dim_rule room tokens.now) }
    ensures shorter { IfOk result (λ x. length x.1.now < length tokens.now) }
{
    let (word, rest) = contextual(Contextual::Dim, tokens)?;
    let (from, _, rest) = deeper(room, Sign::OpenRound, rest)?;
    let ((number_at, number), rest) = number(rest)?;
    let (upto, rest) = sign(Sign::CloseRound, rest)?;
    let dim = Dim {
        at: word.at,
        from: from.at,
        number_at,
        number,
        upto: upto.at,
    };
    Ok((Method::Dim(arena.node(dim)?), rest))
}

/// "contains" "(" expr { "," expr } ")"
#[cycle(expression)]
#[tactic(auto, unfolding(dpl_spelling::specs::Expressions::contains))]
fn contains<'t>(arena: Arena<'t>, room: u32, tokens: Tokens<'t>) -> Parsed<'t, Method<'t>>
    ensures gives { Gives (λ x. (method_view x.0, x.1.now)) result (at contains_rule room tokens.now) }
    ensures shorter { IfOk result (λ x. length x.1.now < length tokens.now) }
{
    let (word, rest) = contextual(Contextual::Contains, tokens)?;
    let (from, room, rest) = deeper(room, Sign::OpenRound, rest)?;
    let (exprs, rest) = exprs(arena, room, rest)?;
    let (upto, rest) = sign(Sign::CloseRound, rest)?;
    let contains = Contains {
        at: word.at,
        from: from.at,
        exprs,
        upto: upto.at,
    };
    Ok((Method::Contains(arena.node(contains)?), rest))
}

/// "expand" "(" expr ")"
#[cycle(expression)]
#[tactic(auto, using(dpl_spelling::proofs::Below::below_expression), unfolding(dpl_spelling::specs::Expressions::expand))]
fn expand<'t>(arena: Arena<'t>, room: u32, tokens: Tokens<'t>) -> Parsed<'t, Method<'t>>
    ensures gives { Gives (λ x. (method_view x.0, x.1.now)) result (at expand_rule room tokens.now) }
    ensures shorter { IfOk result (λ x. length x.1.now < length tokens.now) }
{
    let (word, rest) = contextual(Contextual::Expand, tokens)?;
    let (from, room, rest) = deeper(room, Sign::OpenRound, rest)?;
    let (by, rest) = expression(arena, room, rest)?;
    let (upto, rest) = sign(Sign::CloseRound, rest)?;
    let expand = Expand {
        at: word.at,
        from: from.at,
        by,
        upto: upto.at,
    };
    Ok((Method::Expand(arena.node(expand)?), rest))
}

/// "readFE" "(" ")" or "readFF" "(" ")"
fn cell_read<'t>(room: u32, word: ReadWord, tokens: Tokens<'t>) -> Parsed<'t, Method<'t>>
    ensures gives { Gives (λ x. (method_view x.0, x.1.now)) result (at (cell_read_rule (read_class word) word) room tokens.now) }
    ensures shorter { IfOk result (λ x. length x.1.now < length tokens.now) }
{
    let wanted = match word {
        ReadWord::ReadFE => Contextual::ReadFE,
        ReadWord::ReadFF => Contextual::ReadFF,
    };
    let (next, rest) = contextual(wanted, tokens)?;
    let (from, _, rest) = deeper(room, Sign::OpenRound, rest)?;
    let (upto, rest) = sign(Sign::CloseRound, rest)?;
    let read = Method::CellRead {
        at: next.at,
        word,
        from: from.at,
        upto: upto.at,
    };
    Ok((read, rest))
}
