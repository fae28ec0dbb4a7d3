// Texts in quotes, and what their bytes stand for.
// The definition of both stands in specs/Text.antt.

ghost use Rattle.std.specs.Prelude.{◌≡◌, ◌<◌, ◌≤◌, length, take, drop, slice_index, true, Some, None, IfOk, IfErr, IfSome, IfNone};
ghost use Rattle.dpl_syntax.specs.Gaps.{next_is};
ghost use Rattle.dpl_syntax.specs.Text.{is_quote, after_quote, between, well_escaped, text_value};
ghost use Rattle.dpl_lexer.specs.Scan.{IsLexemeAt, IsFlawAt};

use crate::ascii::{escaped, is_escaped};
use crate::scan::{Flaw, Lexeme, LexemeKind};
use dpl_syntax::{Bytes, Code};
use std::alloc::{AllocError, Global};

/// How many bytes the text in quotes at the front has, if it is ended.
fn quoted_len(bytes: &[u8]) -> Option<usize>
    requires { 0 < length bytes.now }
    ensures some { IfSome result (λ n. (2 ≤ n) × (n ≤ length bytes.now)
        × (after_quote (slice_index bytes.now 0) (drop 1 bytes.now) ≡ Some (drop n bytes.now))) }
    ensures none { IfNone result (after_quote (slice_index bytes.now 0) (drop 1 bytes.now) ≡ None) }
{
    let quote = bytes[0];
    let mut n = 1;
    'text: while n < bytes.len() {
        let byte = bytes[n];
        n += 1;
        if byte == b'\n' {
            return None;
        }
        if byte == quote {
            return Some(n);
        }
        if byte == b'\\' {
            if n == bytes.len() || bytes[n] == b'\n' {
                return None;
            }
            n += 1;
        }
    }
    None
}

/// The bytes between the quotes.
pub fn between(bytes: &[u8]) -> &[u8]
    requires { 2 ≤ length bytes.now }
    ensures { result.now ≡ between bytes.now }
{
    let (_, left) = bytes.split_at(1);
    let (inner, _) = left.split_at(bytes.len() - 2);
    inner
}

/// How many bytes stand before the first bad escape, if there is one.
fn bad_escape(bytes: &[u8]) -> Option<usize>
    ensures some { IfSome result (λ n. (n < length bytes.now) × (well_escaped bytes.now ≡ take n bytes.now)) }
    ensures none { IfNone result (well_escaped bytes.now ≡ bytes.now) }
{
    let mut n = 0;
    'escape: while n < bytes.len() {
        if bytes[n] == b'\\' {
            if bytes.len() - n < 2 || !is_escaped(bytes[n + 1]) {
                return Some(n);
            }
            n += 1;
        }
        n += 1;
    }
    None
}

/// The text in quotes at the front, whose first byte is a quote.
pub fn quoted(bytes: &[u8]) -> Result<Lexeme, Flaw>
    requires { next_is is_quote bytes.now ≡ true }
    ensures ok { IfOk result (IsLexemeAt bytes.now) }
    ensures err { IfErr result (IsFlawAt bytes.now) }
{
    let Some(len) = quoted_len(bytes) else {
        return Err(Flaw {
            code: Code::BadCharacter,
            offset: 0,
        });
    };
    let (used, _) = bytes.split_at(len);
    match bad_escape(between(used)) {
        Some(n) => Err(Flaw {
            code: Code::BadCharacter,
            offset: n + 1,
        }),
        None => Ok(Lexeme {
            shape: LexemeKind::Text,
            len,
        }),
    }
}

/// What the bytes between the quotes of a text stand for: each escape is the byte that it means.
///
/// # Errors
/// Out of memory for them.
pub fn text_bytes(alloc: Global, text: &Bytes<'_>) -> Result<Vec<u8>, AllocError>
    ensures { IfOk result (λ value. value.items ≡ text_value text.now) }
{
    let bytes = text.as_bytes();
    let mut value = Vec::new(alloc);
    let mut n = 0;
    'bytes: while n < bytes.len() {
        if bytes[n] != b'\\' {
            value.push(bytes[n])?;
        } else if bytes.len() - n >= 2 {
            n += 1;
            value.push(escaped(bytes[n]))?;
        }
        n += 1;
    }
    Ok(value)
}
