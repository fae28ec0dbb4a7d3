// How a token is spelled, and of what class it is.

use dpl_syntax::{Kind, Sign};

// How a sign is spelled.
fn sign_text(sign: Sign) -> &'static [u8] {
    match sign {
        Sign::DotDotLess => b"..<",
        Sign::DotDot => b"..",
        Sign::Dot => b".",
        Sign::Equal => b"==",
        Sign::NotEqual => b"!=",
        Sign::LessEqual => b"<=",
        Sign::GreaterEqual => b">=",
        Sign::AndAnd => b"&&",
        Sign::OrOr => b"||",
        Sign::PlusAssign => b"+=",
        Sign::MinusAssign => b"-=",
        Sign::StarAssign => b"*=",
        Sign::SlashAssign => b"/=",
        Sign::PercentAssign => b"%=",
        Sign::Assign => b"=",
        Sign::Less => b"<",
        Sign::Greater => b">",
        Sign::Not => b"!",
        Sign::Plus => b"+",
        Sign::Minus => b"-",
        Sign::Star => b"*",
        Sign::Slash => b"/",
        Sign::Percent => b"%",
        Sign::And => b"&",
        Sign::Or => b"|",
        Sign::Caret => b"^",
        Sign::Hash => b"#",
        Sign::OpenRound => b"(",
        Sign::CloseRound => b")",
        Sign::OpenSquare => b"[",
        Sign::CloseSquare => b"]",
        Sign::OpenCurly => b"{",
        Sign::CloseCurly => b"}",
        Sign::Comma => b",",
        Sign::Semicolon => b";",
        Sign::Colon => b":",
    }
}

// How a token is spelled, where that tells what it is.
fn spelled<'a>(kind: &Kind<'a>) -> &'a [u8] {
    match kind {
        Kind::Name(name) => name.as_bytes(),
        Kind::Contextual(word) => word.text(),
        Kind::Keyword(keyword) => keyword.text(),
        Kind::Sign(sign) => sign_text(*sign),
        Kind::Number(_) | Kind::Text(_) | Kind::End => b"",
    }
}

// The class of a token; a sign has none.
fn class_of(kind: &Kind<'_>) -> &'static [u8] {
    match kind {
        Kind::Name(_) | Kind::Contextual(_) => b"<name>",
        Kind::Keyword(_) => b"<reserved>",
        Kind::Number(_) => b"<number>",
        Kind::Text(_) => b"<text>",
        Kind::End => b"<end>",
        Kind::Sign(_) => b"",
    }
}

// Whether a token is what a word of the table says.
pub(crate) fn is_seen(kind: &Kind<'_>, word: &str) -> bool {
    let word = word.as_bytes();
    word == b"<any>".as_slice() || word == class_of(kind) || word == spelled(kind)
}
