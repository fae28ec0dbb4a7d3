// Numbers, decimal or with a base.
// Nothing here takes memory.

ghost use Rattle.std.specs.Prelude.{◌≡◌, ◌<◌, ◌≤◌, length, take, drop, true, false, pos, IfOk, IfErr, IfSome, IfNone};
ghost use Rattle.dpl_syntax.specs.Gaps.{all_are, next_is};
ghost use Rattle.dpl_syntax.specs.Text.{is_digit, goes_on_in, value_after, greatest};
ghost use Rattle.dpl_lexer.specs.Scan.{starts_based, IsStart, IsLexemeAt, IsFlawAt};

use crate::ascii::{base_named, digit_value, goes_on_in, is_digit_of, next_sticks};
use crate::scan::{Flaw, Lexeme, LexemeKind};
use dpl_syntax::Code;

/// The greatest number.
const GREATEST: u128 = 9223372036854775807;

/// Whether 0 stands at the front, a base's letter and a digit of that base.
fn starts_based(bytes: &[u8]) -> bool
    ensures { result ≡ starts_based bytes.now }
{
    match bytes {
        [zero, letter, digit, ..] => *zero == b'0' && is_digit_of(base_named(*letter), *digit),
        _ => false,
    }
}

/// How many bytes there are that digits of the base go on with.
fn digits_len(base: u8, bytes: &[u8]) -> usize
    ensures within { result ≤ length bytes.now }
    ensures all { all_are (goes_on_in base) (take result bytes.now) ≡ true }
    ensures ended { next_is (goes_on_in base) (drop result bytes.now) ≡ false }
{
    let mut n = 0;
    while n < bytes.len() && goes_on_in(base, bytes[n]) {
        n += 1;
    }
    n
}

/// The value of digits, if it isn't past the greatest number.
fn value_of(base: u8, digits: &[u8]) -> Option<i64>
    requires some { 0 < base }
    requires small { base ≤ 16 }
    ensures some { IfSome result (λ n. (n ≡ pos (value_after base 0 digits.now)) × (value_after base 0 digits.now ≤ greatest)) }
    ensures none { IfNone result (greatest < value_after base 0 digits.now) }
{
    let mut value: u64 = 0;
    for byte in digits {
        if *byte != b'_' {
            let longer = u128::from(value) * u128::from(base) + u128::from(digit_value(*byte));
            if longer > GREATEST {
                return None;
            }
            value = longer as u64;
        }
    }
    Some(value as i64)
}

/// The number at the front, whose digits, of this base, stand after so many bytes.
fn number_from(bytes: &[u8], base: u8, skipped: usize) -> Result<Lexeme, Flaw>
    requires { IsStart bytes.now base skipped }
    ensures ok { IfOk result (IsLexemeAt bytes.now) }
    ensures err { IfErr result (IsFlawAt bytes.now) }
{
    let (_, left) = bytes.split_at(skipped);
    let len = digits_len(base, left);
    let (digits, rest) = left.split_at(len);
    let Some(value) = value_of(base, digits) else {
        return Err(Flaw {
            code: Code::NumberTooLarge,
            offset: 0,
        });
    };
    if next_sticks(rest) {
        return Err(Flaw {
            code: Code::BadCharacter,
            offset: skipped + len,
        });
    }
    Ok(Lexeme {
        shape: LexemeKind::Number(value),
        len: skipped + len,
    })
}

/// The number at the front, whose first byte is a digit.
pub fn number(bytes: &[u8]) -> Result<Lexeme, Flaw>
    requires { next_is is_digit bytes.now ≡ true }
    ensures ok { IfOk result (IsLexemeAt bytes.now) }
    ensures err { IfErr result (IsFlawAt bytes.now) }
{
    if starts_based(bytes) {
        number_from(bytes, base_named(bytes[1]), 2)
    } else {
        number_from(bytes, 10, 0)
    }
}
