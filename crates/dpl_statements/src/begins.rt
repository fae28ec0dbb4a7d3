// What the next token may begin, where more than one token tells it.
// Each test is of all tokens that the rule begins with.

ghost use Rattle.std.specs.Prelude.{◌≡◌};
ghost use Rattle.dpl_grammar.specs.Classes.{has};
ghost use Rattle.dpl_grammar.specs.Numbers.{sign_number, keyword_number};
ghost use Rattle.dpl_grammar.specs.Reader.{next_in};
ghost use Rattle.dpl_spelling.specs.Nested.{begins, begins_expression, begins_plain, StatementBelow};
ghost use Rattle.dpl_spelling.specs.Parts.{begins_simple};

use dpl_expressions::token::{Tokens, is_sign};
use dpl_syntax::{Keyword, Kind, Sign};

/// Whether the next token begins an expression.
pub fn begins_expression(tokens: Tokens<'_>) -> bool
    ensures { result ≡ next_in begins_expression tokens.now }
{
    match tokens {
        [next, ..] => match next.kind {
            Kind::Name(_) | Kind::Contextual(_) | Kind::Number(_) => true,
            Kind::Keyword(word) => word_begins_expression(word),
            Kind::Sign(sign) => sign_begins_expression(sign),
            Kind::Text(_) | Kind::End => false,
        },
        [] => false,
    }
}

/// Whether the word begins an expression.
fn word_begins_expression(word: Keyword) -> bool
    ensures { result ≡ has begins_expression (keyword_number word) }
{
    matches!(
        word,
        Keyword::True
            | Keyword::False
            | Keyword::Locales
            | Keyword::NumLocales
            | Keyword::Here
            | Keyword::Min
            | Keyword::Max
    )
}

/// Whether the sign begins an expression.
fn sign_begins_expression(sign: Sign) -> bool
    ensures { result ≡ has begins_expression (sign_number sign) }
{
    matches!(
        sign,
        Sign::OpenRound
            | Sign::OpenCurly
            | Sign::Minus
            | Sign::Not
            | Sign::Plus
            | Sign::Star
            | Sign::AndAnd
            | Sign::OrOr
            | Sign::And
            | Sign::Or
            | Sign::Caret
    )
}

/// Whether the next token begins a statement.
#[tactic(auto, using(dpl_grammar::proofs::Classes::next_in_either))]
pub fn begins_statement(tokens: Tokens<'_>) -> bool
    ensures { result ≡ next_in (begins StatementBelow) tokens.now }
{
    is_sign(tokens, Sign::OpenCurly) || begins_plain(tokens)
}

/// Whether the next token begins a statement that is no block.
pub fn begins_plain(tokens: Tokens<'_>) -> bool
    ensures { result ≡ next_in begins_plain tokens.now }
{
    match tokens {
        [next, ..] => match next.kind {
            Kind::Name(_) | Kind::Contextual(_) => true,
            Kind::Keyword(word) => word_begins_plain(word),
            Kind::Sign(sign) => sign == Sign::Semicolon,
            Kind::Number(_) | Kind::Text(_) | Kind::End => false,
        },
        [] => false,
    }
}

/// Whether the word begins a statement that is no block.
fn word_begins_plain(word: Keyword) -> bool
    ensures { result ≡ has begins_plain (keyword_number word) }
{
    matches!(
        word,
        Keyword::Const
            | Keyword::Var
            | Keyword::Write
            | Keyword::Writeln
            | Keyword::If
            | Keyword::While
            | Keyword::For
            | Keyword::Forall
            | Keyword::Coforall
            | Keyword::On
    )
}

/// Whether the next token begins a statement that is no block and has no body.
pub fn begins_simple(tokens: Tokens<'_>) -> bool
    ensures { result ≡ next_in begins_simple tokens.now }
{
    match tokens {
        [next, ..] => match next.kind {
            Kind::Name(_) | Kind::Contextual(_) => true,
            Kind::Keyword(word) => word_begins_simple(word),
            Kind::Sign(sign) => sign == Sign::Semicolon,
            Kind::Number(_) | Kind::Text(_) | Kind::End => false,
        },
        [] => false,
    }
}

/// Whether the word begins a statement that has no body.
fn word_begins_simple(word: Keyword) -> bool
    ensures { result ≡ has begins_simple (keyword_number word) }
{
    matches!(
        word,
        Keyword::Const | Keyword::Var | Keyword::Write | Keyword::Writeln
    )
}
