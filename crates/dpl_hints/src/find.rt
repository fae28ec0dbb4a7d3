// The line of the table for a refusal, by the tokens round its place.

ghost use Rattle.std.specs.Prelude.{IfSome};
ghost use Rattle.dpl_hints.specs.Hints.{Holds, rows_of};

use crate::fits::{begins_with, ends_with};
use crate::table::rows_of;
use dpl_lexer::lex;
use dpl_syntax::{Code, Token};
use std::alloc::Global;

// What stands round a place: the tokens before it, once with the end of their last line where the place is on a later one, the tokens from
// the place on, and the text from there on.
#[derive(Clone, Copy)]
struct Around<'a> {
    before: &'a [Token<'a>],
    ended: &'a [Token<'a>],
    behind: &'a [Token<'a>],
    text: &'a [u8],
}

// The tokens of a text; none where it has none.
fn tokens_of(alloc: Global, text: &[u8]) -> Vec<Token<'_>> {
    match lex(alloc, text) {
        Ok(tokens) => tokens,
        Err(_) => Vec::new(alloc),
    }
}

// The tokens without the end, and with it where it is on a later line.
fn with_end<'a>(tokens: &'a [Token<'a>]) -> (&'a [Token<'a>], &'a [Token<'a>]) {
    let Some((end, before)) = tokens.split_last() else {
        return (tokens, tokens);
    };
    match before.last() {
        Some(last) if last.at.line < end.at.line => (before, tokens),
        _ => (before, before),
    }
}

// Whether what a row says stands at the place. Where no token does, the text is asked.
fn stands(at: &str, around: &Around<'_>) -> bool {
    if around.behind.is_empty() {
        around.text.starts_with(at.as_bytes())
    } else {
        begins_with(around.behind, at)
    }
}

// The line of a row, if what it says stands round the place.
fn told(row: &'static str, around: &Around<'_>) -> Option<&'static str>
    ensures { IfSome result (λ line. Holds row.now line.now) }
{
    let (seen, line) = row.split_once(" => ")?;
    let (before, at) = seen.split_once('@')?;
    let is_round = stands(at.trim(), around)
        && (ends_with(around.before, before) || ends_with(around.ended, before));
    if is_round { Some(line) } else { None }
}

// The line of the first row that fits.
fn first_told(rows: &'static str, around: &Around<'_>) -> Option<&'static str>
    ensures { IfSome result (λ line. Holds rows.now line.now) }
{
    let mut rest = rows;
    'rows: while let Some((row, others)) = rest.split_once("\n") {
        let line = told(row, around);
        if line.is_some() {
            return line;
        }
        rest = others;
    }
    None
}

/// The line for a refusal by this code, where the text before its place and the text from there on are these; none where no row fits, or
/// memory is refused.
pub fn hint(alloc: Global, code: Code, before: &[u8], behind: &[u8]) -> Option<&'static str>
    ensures { IfSome result (λ line. Holds (rows_of code) line.now) }
{
    let left = tokens_of(alloc, before);
    // By L2 no token stands at the place, and what follows may be one: `e5` in `1e5`.
    let right = if code == Code::BadCharacter {
        Vec::new(alloc)
    } else {
        tokens_of(alloc, behind)
    };
    let (before, ended) = with_end(&left);
    let around = Around {
        before,
        ended,
        behind: &right,
        text: behind,
    };
    first_told(rows_of(code), &around)
}
