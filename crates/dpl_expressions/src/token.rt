// One token at a time: what the parser asks of the next token, and what it takes.
// Each function gives what the reader of its class gives, and refuses at the next token.

ghost use Rattle.std.specs.Prelude.{◌≡◌, ◌<◌, ◌+◌, length, IfOk, IfErr};
ghost use Rattle.dpl_grammar.specs.Classes.{sign, keyword, contextual, names, end};
ghost use Rattle.dpl_grammar.specs.Reader.{next_in, token_at, means_at};
ghost use Rattle.dpl_grammar.specs.Gives.{Gives, place_of};
ghost use Rattle.dpl_tree.specs.View.{name_view};
ghost use Rattle.dpl_spelling.specs.Expressions.{name as name_rule, number_token};
ghost use Rattle.dpl_spelling.specs.Reading.{at, deeper_at};

use dpl_syntax::{Code, Contextual, Keyword, Kind, Place, Refusal, Sign, Stop, Token};
use dpl_tree::Name;

/// The tokens that are left.
pub type Tokens<'a> = &'a [Token<'a>];

/// A value and the tokens after it, or why there is none.
pub type Parsed<'a, T> = Result<(T, Tokens<'a>), Stop>;

/// The same tokens. A loop's variable takes tokens that came in a pair only from a call, since the borrow checker
/// follows what such a pair borrows no further than to the next call.
pub fn passed_on(tokens: Tokens<'_>) -> Tokens<'_>
    ensures { result.now ≡ tokens.now }
{
    tokens
}

/// The refusal at the next token.
fn refused(code: Code, tokens: Tokens<'_>) -> Stop
    ensures { result ≡ Stop.Refused (record { code = code; place = place_of tokens.now }) }
{
    let place = match tokens {
        [next, ..] => Some(next.at),
        [] => None,
    };
    Stop::Refused(Refusal { code, place })
}

/// The refusal of the next token: no program goes on with it.
pub fn unexpected(tokens: Tokens<'_>) -> Stop
    ensures { result ≡ Stop.Refused (record { code = Code.Unexpected; place = place_of tokens.now }) }
{
    refused(Code::Unexpected, tokens)
}

/// Whether the next token is the sign.
pub fn is_sign(tokens: Tokens<'_>, wanted: Sign) -> bool
    ensures { result ≡ next_in (sign wanted) tokens.now }
{
    match tokens {
        [next, ..] => match next.kind {
            Kind::Sign(found) => found == wanted,
            _ => false,
        },
        [] => false,
    }
}

/// Whether the next token is the reserved word.
pub fn is_keyword(tokens: Tokens<'_>, wanted: Keyword) -> bool
    ensures { result ≡ next_in (keyword wanted) tokens.now }
{
    match tokens {
        [next, ..] => match next.kind {
            Kind::Keyword(found) => found == wanted,
            _ => false,
        },
        [] => false,
    }
}

/// Whether the next token is the contextual word.
pub fn is_contextual(tokens: Tokens<'_>, wanted: Contextual) -> bool
    ensures { result ≡ next_in (contextual wanted) tokens.now }
{
    match tokens {
        [next, ..] => match next.kind {
            Kind::Contextual(found) => found == wanted,
            _ => false,
        },
        [] => false,
    }
}

/// The sign, and the tokens after it.
pub fn sign(wanted: Sign, tokens: Tokens<'_>) -> Parsed<'_, &Token<'_>>
    ensures gives { Gives (λ x. (x.0.now, x.1.now)) result (token_at (sign wanted) tokens.now) }
    ensures shorter { IfOk result (λ x. length x.1.now < length tokens.now) }
{
    match tokens {
        [next, rest @ ..] if is_sign(tokens, wanted) => Ok((next, rest)),
        _ => Err(unexpected(tokens)),
    }
}

/// The reserved word, and the tokens after it.
pub fn keyword(wanted: Keyword, tokens: Tokens<'_>) -> Parsed<'_, &Token<'_>>
    ensures gives { Gives (λ x. (x.0.now, x.1.now)) result (token_at (keyword wanted) tokens.now) }
    ensures shorter { IfOk result (λ x. length x.1.now < length tokens.now) }
{
    match tokens {
        [next, rest @ ..] if is_keyword(tokens, wanted) => Ok((next, rest)),
        _ => Err(unexpected(tokens)),
    }
}

/// The contextual word, and the tokens after it.
pub fn contextual(wanted: Contextual, tokens: Tokens<'_>) -> Parsed<'_, &Token<'_>>
    ensures gives { Gives (λ x. (x.0.now, x.1.now)) result (token_at (contextual wanted) tokens.now) }
    ensures shorter { IfOk result (λ x. length x.1.now < length tokens.now) }
{
    match tokens {
        [next, rest @ ..] if is_contextual(tokens, wanted) => Ok((next, rest)),
        _ => Err(unexpected(tokens)),
    }
}

/// A number with its place, and the tokens after it.
pub fn number(tokens: Tokens<'_>) -> Parsed<'_, (Place, i64)>
    ensures gives { Gives (λ x. ((x.0.0, x.0.1), x.1.now)) result (at number_token 0 tokens.now) }
    ensures shorter { IfOk result (λ x. length x.1.now < length tokens.now) }
{
    match tokens {
        [next, rest @ ..] => match next.kind {
            Kind::Number(value) => Ok(((next.at, value), rest)),
            _ => Err(unexpected(tokens)),
        },
        [] => Err(unexpected(tokens)),
    }
}

/// The end of the text, and the tokens after it.
pub fn end(tokens: Tokens<'_>) -> Parsed<'_, &Token<'_>>
    ensures { Gives (λ x. (x.0.now, x.1.now)) result (token_at end tokens.now) }
{
    match tokens {
        [next, rest @ ..] if matches!(next.kind, Kind::End) => Ok((next, rest)),
        _ => Err(unexpected(tokens)),
    }
}

/// The room that is left one level deeper, where the next token goes. With no room it is refused as too deep.
pub fn descend(room: u32, tokens: Tokens<'_>) -> Result<u32, Stop>
    ensures below { IfOk result (λ below. below + 1 ≡ room) }
    ensures refused { IfErr result (λ stop. (room ≡ 0) × (stop ≡ Stop.Refused (record { code = Code.TooDeep; place = place_of tokens.now }))) }
{
    if room == 0 {
        return Err(refused(Code::TooDeep, tokens));
    }
    Ok(room - 1)
}

/// A sign that goes one level deeper, the room that is left there, and the tokens after it.
#[tactic(auto, using(dpl_spelling::proofs::Below::deeper_with_room, dpl_spelling::proofs::Below::deeper_without_room))]
pub fn deeper(
    room: u32,
    wanted: Sign,
    tokens: Tokens<'_>,
) -> Result<(&Token<'_>, u32, Tokens<'_>), Stop>
    ensures gives { Gives (λ x. (x.0.now, x.2.now)) result (deeper_at room (sign wanted) tokens.now) }
    ensures shorter { IfOk result (λ x. length x.2.now < length tokens.now) }
    ensures below { IfOk result (λ x. x.1 + 1 ≡ room) }
{
    if !is_sign(tokens, wanted) {
        return Err(unexpected(tokens));
    }
    let room = descend(room, tokens)?;
    let (next, rest) = sign(wanted, tokens)?;
    Ok((next, room, rest))
}

/// A reserved word that goes one level deeper, the room that is left there, and the tokens after it.
#[tactic(auto, using(dpl_spelling::proofs::Below::deeper_with_room, dpl_spelling::proofs::Below::deeper_without_room))]
pub fn deeper_word(
    room: u32,
    wanted: Keyword,
    tokens: Tokens<'_>,
) -> Result<(&Token<'_>, u32, Tokens<'_>), Stop>
    ensures gives { Gives (λ x. (x.0.now, x.2.now)) result (deeper_at room (keyword wanted) tokens.now) }
    ensures shorter { IfOk result (λ x. length x.2.now < length tokens.now) }
    ensures below { IfOk result (λ x. x.1 + 1 ≡ room) }
{
    if !is_keyword(tokens, wanted) {
        return Err(unexpected(tokens));
    }
    let room = descend(room, tokens)?;
    let (next, rest) = keyword(wanted, tokens)?;
    Ok((next, room, rest))
}

/// Whether the next token is a name.
pub fn is_name(tokens: Tokens<'_>) -> bool
    ensures { result ≡ next_in names tokens.now }
{
    match tokens {
        [next, ..] => matches!(next.kind, Kind::Name(_) | Kind::Contextual(_)),
        [] => false,
    }
}

/// A name, and the tokens after it.
pub fn name<'a>(tokens: Tokens<'a>) -> Parsed<'a, Name<'a>>
    ensures gives { Gives (λ x. (name_view x.0, x.1.now)) result (at name_rule 0 tokens.now) }
    ensures shorter { IfOk result (λ x. length x.1.now < length tokens.now) }
{
    match tokens {
        [next, rest @ ..] => match &next.kind {
            Kind::Name(text) => Ok((named(next.at, text.as_bytes()), rest)),
            Kind::Contextual(word) => Ok((named(next.at, word.text()), rest)),
            _ => Err(unexpected(tokens)),
        },
        [] => Err(unexpected(tokens)),
    }
}

/// The name with these bytes.
fn named<'a>(at: Place, text: &'a [u8]) -> Name<'a>
    ensures { name_view result ≡ record { at = at; name = text.now } }
{
    Name { at, text }
}

/// A sign that stands for a value: its place with the value, and the tokens after it.
pub fn means<T: Copy>(wanted: Sign, value: T, tokens: Tokens<'_>) -> Parsed<'_, (Place, T)>
    ensures gives { Gives (λ x. (x.0, x.1.now)) result (means_at (sign wanted) value tokens.now) }
    ensures shorter { IfOk result (λ x. length x.1.now < length tokens.now) }
{
    let (next, rest) = sign(wanted, tokens)?;
    Ok(((next.at, value), rest))
}
