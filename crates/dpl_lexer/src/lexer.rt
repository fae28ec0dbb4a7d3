// The lexer: the tokens of a text, each with its place.
// The definition of both stands in specs/Text.antt, and that of the refusals in specs/Refused.antt.

ghost use Rattle.std.specs.Prelude.{true, ◌≡◌, ◌⊎◌, ◌+◌, ◌^◌, ◌<◌, ◌≤◌, List, length, IsOk, IfOk, IfErr, Err};
ghost use Rattle.dpl_syntax.specs.Text.{is_word, IsLexeme, IsText, Lexes, EndsOnce, after};
ghost use Rattle.dpl_syntax.specs.Refused.{LexRefuses};
ghost use Rattle.dpl_syntax.specs.Stops.{Tells};
ghost use Rattle.dpl_lexer.specs.Scan.{IsOfKind};
ghost use Rattle.dpl_syntax.specs.declared.token.Token.{Token};
ghost use Rattle.dpl_syntax.specs.declared.refusal.Refusal.{Refusal};
ghost use Rattle.dpl_syntax.specs.declared.stop.Stop.TheVariants.{Refused, Memory};

use crate::gap::piece_len;
use crate::keyword::{Special, special_of};
use crate::quoted::between;
use crate::scan::{LexemeKind, scan};
use dpl_syntax::{Bytes, Code, Kind, LexStop, Place, Refusal, Stop, Token};
use std::alloc::Global;

/// The greatest length of a text, in bytes.
const LONGEST_TEXT: usize = 1048576;

/// Where a text begins.
const START: Place = Place { line: 1, column: 1 };

/// The place after the bytes.
fn after(at: Place, bytes: &[u8]) -> Place
    requires line_fits { at.line + length bytes.now < 2 ^ 32 }
    requires column_fits { at.column + length bytes.now < 2 ^ 32 }
    ensures is { result ≡ after at bytes.now }
    ensures line { result.line ≤ at.line + length bytes.now }
    ensures column { result.column ≤ at.column + length bytes.now }
{
    let mut line = at.line;
    let mut column = at.column;
    for byte in bytes {
        if *byte == b'\n' {
            line += 1;
            column = 1;
        } else {
            column += 1;
        }
    }
    Place { line, column }
}

/// The kind of a token with these bytes, whose shape is known.
fn kind_of(shape: LexemeKind, bytes: &[u8]) -> Kind<'_>
    requires { IsOfKind shape bytes.now }
    ensures { IsLexeme result bytes.now }
{
    match shape {
        LexemeKind::Word => word_kind(bytes),
        LexemeKind::Number(n) => Kind::Number(n),
        LexemeKind::Text => Kind::Text(Bytes::new(between(bytes))),
        LexemeKind::Sign(sign) => Kind::Sign(sign),
    }
}

/// The kind of a word.
fn word_kind(bytes: &[u8]) -> Kind<'_>
    requires { is_word bytes.now ≡ true }
    ensures { IsLexeme result bytes.now }
{
    match special_of(bytes) {
        Some(Special::Keyword(keyword)) => Kind::Keyword(keyword),
        Some(Special::Contextual(word)) => Kind::Contextual(word),
        None => Kind::Name(Bytes::new(bytes)),
    }
}

/// The tokens of a text that isn't too long and is UTF-8.
fn tokens_of(alloc: Global, text: &[u8]) -> Result<Vec<Token<'_>>, Stop>
    requires { IsText text.now }
    ensures found { IfOk result (λ v. Lexes text.now v.items) }
    ensures refused { IfErr result (Tells text.now) }
{
    let mut tokens = Vec::new(alloc);
    let mut at = START;
    let mut rest = text;
    'tokens: while !rest.is_empty() {
        match piece_len(rest) {
            Some(len) => {
                let (gap, left) = rest.split_at(len);
                at = after(at, gap);
                rest = left;
            }
            None => match scan(rest) {
                Ok(found) => {
                    let (used, left) = rest.split_at(found.len);
                    let kind = kind_of(found.shape, used);
                    tokens.push(Token { kind, at })?;
                    at = after(at, used);
                    rest = left;
                }
                Err(flaw) => {
                    let (before, _) = rest.split_at(flaw.offset);
                    return Err(Stop::Refused(Refusal {
                        code: flaw.code,
                        place: Some(after(at, before)),
                    }));
                }
            },
        }
    }
    tokens.push(Token {
        kind: Kind::End,
        at,
    })?;
    Ok(tokens)
}

/// Whether the text is short enough and UTF-8, or else its refusal.
fn check_text(text: &[u8]) -> Result<(), Refusal>
    ensures ok { IfOk result (λ _. IsText text.now) }
    ensures err { IfErr result (LexRefuses text.now) }
{
    if text.len() > LONGEST_TEXT {
        return Err(Refusal {
            code: Code::NotText,
            place: Some(START),
        });
    }
    match std::str::from_utf8(text) {
        Ok(_) => Ok(()),
        Err(error) => {
            let (valid, _) = text.split_at(error.valid_up_to());
            Err(Refusal {
                code: Code::NotText,
                place: Some(after(START, valid)),
            })
        }
    }
}

/// The tokens of a text; the last one is its end.
///
/// # Errors
/// The text's refusal: `L1` at 1:1 if it is longer than 1,048,576 bytes; else `L1` at the first byte that begins no
/// UTF-8 character; else whichever comes first of `L2` at a bad character, at a `/*` or a quote that isn't ended, at
/// the backslash of a bad escape, or at a letter or `$` straight after a number, and `L3` at a number past the greatest
/// one. Or memory ran out.
pub fn lex(alloc: Global, text: &[u8]) -> Result<Vec<Token<'_>>, LexStop>
    // The tokens are those of the text, up to its end; the text has no others and no refusal.
    ensures found { IfOk result (λ v. Lexes text.now v.items) }
    ensures only { IfOk result (λ v. (tokens : List Token) → Lexes text.now tokens → tokens ≡ v.items) }
    ensures ended { IfOk result (λ v. EndsOnce v.items) }
    ensures unrefused { IsOk result → (refusal : Refusal) → ¬ (LexRefuses text.now refusal) }

    // A refusal is the text's own, and the text has no other.
    ensures refused { IfErr result (Tells text.now) }
    ensures one_refusal { (told refusal : Refusal) → result ≡ Err (Refused told) → LexRefuses text.now refusal → refusal ≡ told }

    // For a text that has tokens the only error is that memory ran out.
    ensures complete { (tokens : List Token) → Lexes text.now tokens → IfErr result (λ stop. stop ≡ Memory) }
{
    if let Err(refusal) = check_text(text) {
        return Err(Stop::Refused(refusal));
    }
    tokens_of(alloc, text)
}
