// Output, and what is handed to it: a function for each rule of the grammar.
// The arguments stand in a bracket; their functions take the room that is left inside it.

ghost use Rattle.std.specs.Prelude.{◌≡◌, ◌+◌, ◌++◌, ◌<◌, ◌≤◌, length, map, IfOk};
ghost use Rattle.dpl_grammar.specs.Classes.{texts};
ghost use Rattle.dpl_grammar.specs.Reader.{next_in};
ghost use Rattle.dpl_grammar.specs.Gives.{Gives};
ghost use Rattle.dpl_grammar.specs.Rule.{many, maybe};
ghost use Rattle.dpl_tree.specs.Declarations.{optional};
ghost use Rattle.dpl_tree.specs.Statements.{argument_view, next_argument_view, arguments_view, stmt_view};
ghost use Rattle.dpl_spelling.specs.Nested.{begins_expression};
ghost use Rattle.dpl_spelling.specs.Expressions.{after_comma, listed};
ghost use Rattle.dpl_spelling.specs.Statements.{argument as argument_rule, output as output_rule};
ghost use Rattle.dpl_spelling.specs.Parts.{text_argument as text_argument_rule};
ghost use Rattle.dpl_spelling.specs.Reading.{at};

use crate::begins::begins_expression;
use dpl_expressions::chain::expression;
use dpl_expressions::token::{Parsed, Tokens, deeper, is_sign, passed_on, sign, unexpected};
use dpl_expressions::word::write_word;
use dpl_syntax::{Kind, Sign, Token};
use dpl_tree::{Arena, Argument, Arguments, NextArgument, Stmt, Write};

/// Whether the next token is a text.
fn is_text(tokens: Tokens<'_>) -> bool
    ensures { result ≡ next_in texts tokens.now }
{
    match tokens {
        [next, ..] => matches!(next.kind, Kind::Text(_)),
        [] => false,
    }
}

/// Whether the next token begins an argument.
#[tactic(auto, using(dpl_grammar::proofs::Classes::next_in_either))]
fn begins_argument(tokens: Tokens<'_>) -> bool
    ensures { result ≡ next_in (texts ++ begins_expression) tokens.now }
{
    is_text(tokens) || begins_expression(tokens)
}

/// text
fn text_argument(tokens: Tokens<'_>) -> Parsed<'_, Argument<'_>>
    ensures gives { Gives (λ x. (argument_view x.0, x.1.now)) result (at text_argument_rule 0 tokens.now) }
    ensures shorter { IfOk result (λ x. length x.1.now < length tokens.now) }
{
    match tokens {
        [next, rest @ ..] => match &next.kind {
            Kind::Text(bytes) => Ok((Argument::Text(next.at, bytes.as_bytes()), rest)),
            _ => Err(unexpected(tokens)),
        },
        [] => Err(unexpected(tokens)),
    }
}

/// arg = text | expr
#[tactic(auto, using(dpl_spelling::proofs::Below::below_expression), unfolding(dpl_spelling::specs::Statements::argument))]
fn argument<'t>(arena: Arena<'t>, room: u32, tokens: Tokens<'t>) -> Parsed<'t, Argument<'t>>
    ensures gives { Gives (λ x. (argument_view x.0, x.1.now)) result (at argument_rule (room + 1) tokens.now) }
    ensures shorter { IfOk result (λ x. length x.1.now < length tokens.now) }
{
    if is_text(tokens) {
        return text_argument(tokens);
    }
    let (value, rest) = expression(arena, room, tokens)?;
    Ok((Argument::Expr(value), rest))
}

/// "," arg
#[tactic(auto, unfolding(dpl_spelling::specs::Expressions::after_comma))]
fn next_argument<'t>(
    arena: Arena<'t>,
    room: u32,
    tokens: Tokens<'t>,
) -> Parsed<'t, NextArgument<'t>>
    ensures gives { Gives (λ x. (next_argument_view x.0, x.1.now)) result (at (after_comma argument_rule) (room + 1) tokens.now) }
    ensures shorter { IfOk result (λ x. length x.1.now < length tokens.now) }
{
    let (comma, rest) = sign(Sign::Comma, tokens)?;
    let (argument, rest) = argument(arena, room, rest)?;
    Ok((
        NextArgument {
            comma: comma.at,
            argument,
        },
        rest,
    ))
}

/// { "," arg }
fn other_arguments<'t>(
    arena: Arena<'t>,
    room: u32,
    tokens: Tokens<'t>,
) -> Parsed<'t, &'t [NextArgument<'t>]>
    ensures gives { Gives (λ x. (map next_argument_view x.0.now, x.1.now)) result (at (many (after_comma argument_rule)) (room + 1) tokens.now) }
    ensures shorter { IfOk result (λ x. length x.1.now ≤ length tokens.now) }
{
    let mut others = Vec::new(arena.alloc());
    let mut rest = tokens;
    'each: while is_sign(rest, Sign::Comma) {
        let (other, after) = next_argument(arena, room, rest)?;
        others.push(other)?;
        rest = passed_on(after);
    }
    Ok((arena.list(others)?, rest))
}

/// [ arg { "," arg } ]
#[tactic(auto, unfolding(dpl_spelling::specs::Expressions::listed, dpl_spelling::specs::Statements::argument))]
fn arguments<'t>(
    arena: Arena<'t>,
    room: u32,
    tokens: Tokens<'t>,
) -> Parsed<'t, Option<Arguments<'t>>>
    ensures gives { Gives (λ x. (optional arguments_view x.0, x.1.now)) result (at (maybe (listed argument_rule)) (room + 1) tokens.now) }
    ensures shorter { IfOk result (λ x. length x.1.now ≤ length tokens.now) }
{
    if !begins_argument(tokens) {
        return Ok((None, tokens));
    }
    let (first, rest) = argument(arena, room, tokens)?;
    let (others, rest) = other_arguments(arena, room, rest)?;
    Ok((Some(Arguments { first, others }), rest))
}

/// ("write" | "writeln") "(" [ arg { "," arg } ] ")" ";"
#[tactic(auto, unfolding(dpl_spelling::specs::Statements::output))]
pub fn output<'t>(arena: Arena<'t>, room: u32, tokens: Tokens<'t>) -> Parsed<'t, Stmt<'t>>
    ensures gives { Gives (λ x. (stmt_view x.0, x.1.now)) result (at output_rule room tokens.now) }
    ensures shorter { IfOk result (λ x. length x.1.now < length tokens.now) }
{
    let ((at, ends_line), rest) = write_word(tokens)?;
    let (open, room, rest) = deeper(room, Sign::OpenRound, rest)?;
    let (arguments, rest) = arguments(arena, room, rest)?;
    let (close, rest) = sign(Sign::CloseRound, rest)?;
    let (semicolon, rest) = sign(Sign::Semicolon, rest)?;
    let write = Write {
        at,
        ends_line,
        from: open.at,
        arguments,
        upto: close.at,
        semicolon: semicolon.at,
    };
    Ok((Stmt::Write(arena.node(write)?), rest))
}
