// Whether tokens are what a row of the table says.

ghost use Rattle.std.specs.Prelude.{◌<◌, length, IfSome};

use crate::spelled::is_seen;
use dpl_syntax::{Kind, Sign, Token};

// Whether the tokens begin with these words.
pub(crate) fn begins_with(tokens: &[Token<'_>], words: &str) -> bool {
    for (i, word) in words.split_whitespace().enumerate() {
        match tokens.get(i) {
            Some(token) if is_seen(&token.kind, word) => {}
            _ => return false,
        }
    }
    true
}

// How deep in brackets the tokens before this one are, as seen from the right; none before what opens the brackets round all of it, nor before
// the `;` that ends the statement before.
fn level(kind: &Kind<'_>, depth: usize) -> Option<usize> {
    match kind {
        Kind::Sign(Sign::CloseRound | Sign::CloseSquare | Sign::CloseCurly) => depth.checked_add(1),
        Kind::Sign(Sign::OpenRound | Sign::OpenSquare | Sign::OpenCurly) => depth.checked_sub(1),
        Kind::Sign(Sign::Semicolon) if depth == 0 => None,
        _ => Some(depth),
    }
}

// Where the nearest token of this word stands, in the same brackets or as the one that opens them.
fn nearest(tokens: &[Token<'_>], word: &str) -> Option<usize>
    ensures { IfSome result (λ i. i < length tokens.now) }
{
    let mut depth: usize = 0;
    for i in (0..tokens.len()).rev() {
        let kind = &tokens[i].kind;
        if depth == 0 && is_seen(kind, word) {
            return Some(i);
        }
        match level(kind, depth) {
            Some(next) => depth = next,
            None => return None,
        }
    }
    None
}

// Where the last token stands, if it is this word.
fn last(tokens: &[Token<'_>], word: &str) -> Option<usize>
    ensures { IfSome result (λ i. i < length tokens.now) }
{
    match tokens.split_last() {
        Some((last, others)) if is_seen(&last.kind, word) => Some(others.len()),
        _ => None,
    }
}

// Whether the tokens end with these words; any tokens of one level may stand for `<..>`.
pub(crate) fn ends_with(tokens: &[Token<'_>], words: &str) -> bool {
    let mut left = tokens;
    let mut is_far = false;
    for word in words.rsplit(' ') {
        if word == "<..>" {
            is_far = true;
        } else if !word.is_empty() {
            let found = if is_far {
                nearest(left, word)
            } else {
                last(left, word)
            };
            let Some(at) = found else {
                return false;
            };
            left = &left[..at];
            is_far = false;
        }
    }
    true
}
