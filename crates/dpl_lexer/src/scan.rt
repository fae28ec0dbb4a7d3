// What stands at the front of a text: a word, a number, a text in quotes or a sign, each as long as it can be.
// Nothing here takes memory.

ghost use Rattle.std.specs.Prelude.{◌≡◌, ◌≢◌, ◌<◌, ◌≤◌, ◌∷◌, [], length, take, drop, true, false, codes, eqb, IfOk, IfErr, IfSome, IfNone};
ghost use Rattle.std.specs.List.{starts_with};
ghost use Rattle.dpl_syntax.specs.Tokens.{sign_text};
ghost use Rattle.dpl_syntax.specs.Gaps.{all_are, next_is};
ghost use Rattle.dpl_syntax.specs.Text.{goes_on};
ghost use Rattle.dpl_lexer.specs.Scan.{IsDark, IsBare, IsLexemeAt, IsFlawAt, IsSignAt};
ghost use Rattle.dpl_syntax.specs.declared.token.Sign.{Sign};

use crate::ascii::{begins_with, goes_on, is_digit, is_letter, is_quote};
use crate::number::number;
use crate::quoted::quoted;
use dpl_syntax::{Code, Sign};

/// What a token looks like.
#[derive(Clone, Copy)]
pub enum LexemeKind {
    /// A word, reserved or not.
    Word,
    /// A number, at most the greatest one.
    Number(i64),
    /// A text in quotes, whose escapes are good.
    Text,
    /// A sign.
    Sign(Sign),
}

/// A token at the front of a text.
#[derive(Clone, Copy)]
pub struct Lexeme {
    pub shape: LexemeKind,
    /// How many bytes it has.
    pub len: usize,
}

/// What keeps a text from being read on.
#[derive(Clone, Copy)]
pub struct Flaw {
    pub code: Code,
    /// How many bytes stand before its place.
    pub offset: usize,
}

/// How many bytes there are that a word goes on with.
fn word_len(bytes: &[u8]) -> usize
    ensures within { result ≤ length bytes.now }
    ensures all { all_are goes_on (take result bytes.now) ≡ true }
    ensures ended { next_is goes_on (drop result bytes.now) ≡ false }
{
    let mut n = 0;
    while n < bytes.len() && goes_on(bytes[n]) {
        n += 1;
    }
    n
}

/// The sign of two bytes.
#[tactic(auto, unfolding(dpl_syntax::specs::Tokens::sign_text))]
fn pair(first: u8, second: u8) -> Option<Sign>
    ensures some { IfSome result (λ s. sign_text s ≡ first ∷ second ∷ []) }
    ensures none { IfNone result ((s : Sign) → sign_text s ≢ first ∷ second ∷ []) }
{
    match (first, second) {
        (b'.', b'.') => Some(Sign::DotDot),
        (b'=', b'=') => Some(Sign::Equal),
        (b'!', b'=') => Some(Sign::NotEqual),
        (b'<', b'=') => Some(Sign::LessEqual),
        (b'>', b'=') => Some(Sign::GreaterEqual),
        (b'&', b'&') => Some(Sign::AndAnd),
        (b'|', b'|') => Some(Sign::OrOr),
        (b'+', b'=') => Some(Sign::PlusAssign),
        (b'-', b'=') => Some(Sign::MinusAssign),
        (b'*', b'=') => Some(Sign::StarAssign),
        (b'/', b'=') => Some(Sign::SlashAssign),
        (b'%', b'=') => Some(Sign::PercentAssign),
        _ => None,
    }
}

/// The sign of one byte.
#[tactic(auto, unfolding(dpl_syntax::specs::Tokens::sign_text))]
fn single(byte: u8) -> Option<Sign>
    ensures some { IfSome result (λ s. sign_text s ≡ byte ∷ []) }
    ensures none { IfNone result ((s : Sign) → sign_text s ≢ byte ∷ []) }
{
    match byte {
        b'.' => Some(Sign::Dot),
        b'=' => Some(Sign::Assign),
        b'<' => Some(Sign::Less),
        b'>' => Some(Sign::Greater),
        b'!' => Some(Sign::Not),
        b'+' => Some(Sign::Plus),
        b'-' => Some(Sign::Minus),
        b'*' => Some(Sign::Star),
        b'/' => Some(Sign::Slash),
        b'%' => Some(Sign::Percent),
        b'&' => Some(Sign::And),
        b'|' => Some(Sign::Or),
        b'^' => Some(Sign::Caret),
        b'#' => Some(Sign::Hash),
        b'(' => Some(Sign::OpenRound),
        b')' => Some(Sign::CloseRound),
        b'[' => Some(Sign::OpenSquare),
        b']' => Some(Sign::CloseSquare),
        b'{' => Some(Sign::OpenCurly),
        b'}' => Some(Sign::CloseCurly),
        b',' => Some(Sign::Comma),
        b';' => Some(Sign::Semicolon),
        b':' => Some(Sign::Colon),
        _ => None,
    }
}

/// Whether the sign of three bytes stands at the front.
fn begins_triple(bytes: &[u8]) -> bool
    ensures { result ≡ starts_with eqb bytes.now (codes "..<") }
{
    bytes.starts_with(b"..<")
}

/// The longest sign at the front.
fn sign(bytes: &[u8]) -> Option<Sign>
    ensures { IsSignAt bytes.now result }
{
    if begins_triple(bytes) {
        return Some(Sign::DotDotLess);
    }
    match bytes {
        [first, second, ..] => match pair(*first, *second) {
            Some(sign) => Some(sign),
            None => single(*first),
        },
        [first] => single(*first),
        [] => None,
    }
}

/// How many bytes a sign has.
#[tactic(auto, unfolding(dpl_syntax::specs::Tokens::sign_text))]
fn sign_len(sign: Sign) -> usize
    ensures { result ≡ length (sign_text sign) }
{
    match sign {
        Sign::DotDotLess => 3,
        Sign::DotDot
        | Sign::Equal
        | Sign::NotEqual
        | Sign::LessEqual
        | Sign::GreaterEqual
        | Sign::AndAnd
        | Sign::OrOr
        | Sign::PlusAssign
        | Sign::MinusAssign
        | Sign::StarAssign
        | Sign::SlashAssign
        | Sign::PercentAssign => 2,
        Sign::Dot
        | Sign::Assign
        | Sign::Less
        | Sign::Greater
        | Sign::Not
        | Sign::Plus
        | Sign::Minus
        | Sign::Star
        | Sign::Slash
        | Sign::Percent
        | Sign::And
        | Sign::Or
        | Sign::Caret
        | Sign::Hash
        | Sign::OpenRound
        | Sign::CloseRound
        | Sign::OpenSquare
        | Sign::CloseSquare
        | Sign::OpenCurly
        | Sign::CloseCurly
        | Sign::Comma
        | Sign::Semicolon
        | Sign::Colon => 1,
    }
}

/// The sign at the front, or what keeps the text from being read on. Neither a word, a number nor a text in quotes
/// stands there.
fn signed(bytes: &[u8]) -> Result<Lexeme, Flaw>
    requires dark { IsDark bytes.now }
    requires bare { IsBare bytes.now }
    ensures ok { IfOk result (IsLexemeAt bytes.now) }
    ensures err { IfErr result (IsFlawAt bytes.now) }
{
    if begins_with(bytes, b'/', b'*') {
        return Err(Flaw {
            code: Code::BadCharacter,
            offset: 0,
        });
    }
    match sign(bytes) {
        Some(sign) => Ok(Lexeme {
            shape: LexemeKind::Sign(sign),
            len: sign_len(sign),
        }),
        None => Err(Flaw {
            code: Code::BadCharacter,
            offset: 0,
        }),
    }
}

/// The token at the front, or what keeps the text from being read on. No gap stands there.
pub fn scan(bytes: &[u8]) -> Result<Lexeme, Flaw>
    requires some { 0 < length bytes.now }
    requires dark { IsDark bytes.now }
    ensures ok { IfOk result (IsLexemeAt bytes.now) }
    ensures err { IfErr result (IsFlawAt bytes.now) }
{
    let first = bytes[0];
    if is_letter(first) {
        return Ok(Lexeme {
            shape: LexemeKind::Word,
            len: word_len(bytes),
        });
    }
    if is_digit(first) {
        return number(bytes);
    }
    if is_quote(first) {
        return quoted(bytes);
    }
    signed(bytes)
}
