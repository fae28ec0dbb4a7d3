// Sets in their text: a name, `=` and a value of a kind.
// An int is decimal digits, with a minus or without, that fit into 64 bits.

ghost use Rattle.std.specs.Prelude.{◌≡◌, ◌+◌, ◌*◌, ◌≤◌, ◌&&◌, true, false, nat_le, option_map, IfSome, IfNone};
ghost use Rattle.dpl_syntax.specs.Text.{is_digit, digit_value};
ghost use Rattle.dpl_rules.specs.Sound.{is_decimal, is_number_text, is_value_of, name_and_value};
ghost use Rattle.dpl_limits.specs.Numbers.{IsDecimal, IsInt};

use dpl_tree::ScalarKind;

// The greatest number.
const GREATEST: u64 = 9223372036854775807;

/// A set's name and its value, which stand before its first `=` and behind it.
pub fn name_and_value(set: &[u8]) -> Option<(&[u8], &[u8])>
    ensures { option_map (λ p. (p.0.now, p.1.now)) result ≡ name_and_value set.now }
{
    let mut len = 0;
    while len < set.len() {
        if set[len] == b'=' {
            return Some((&set[..len], &set[len + 1..]));
        }
        len += 1;
    }
    None
}

// A number with one more digit, if the byte is one and the number isn't past the greatest.
fn with_digit(most: u64, number: u64, byte: u8) -> Option<u64>
    ensures some { IfSome result (λ n. (is_digit byte ≡ true) × (n ≡ number * 10 + digit_value byte) × (n ≤ most)) }
    ensures none { IfNone result ((is_digit byte && nat_le (number * 10 + digit_value byte) most) ≡ false) }
{
    if byte < b'0' || b'9' < byte {
        return None;
    }
    let longer = u128::from(number) * 10 + u128::from(byte - b'0');
    if longer > u128::from(most) {
        return None;
    }
    Some(longer as u64)
}

// The number that decimal digits are, if they are all digits and it isn't past the greatest.
fn decimal_in(most: u64, digits: &[u8]) -> Option<u64>
    ensures some { IfSome result (λ n. IsDecimal most digits.now n) }
    ensures none { IfNone result (is_decimal most digits.now ≡ false) }
{
    if digits.is_empty() {
        return None;
    }
    let mut number = 0;
    for byte in digits {
        match with_digit(most, number, *byte) {
            None => return None,
            Some(longer) => number = longer,
        }
    }
    Some(number)
}

/// The int that a text is, if it is one: decimal digits that fit, with a minus or without.
pub fn int_in(text: &[u8]) -> Option<i64>
    ensures some { IfSome result (λ n. IsInt text.now n) }
    ensures none { IfNone result (is_number_text text.now ≡ false) }
{
    match text {
        [b'-', digits @ ..] => {
            let number = decimal_in(GREATEST + 1, digits)?;
            Some(-i128::from(number) as i64)
        }
        _ => {
            let number = decimal_in(GREATEST, text)?;
            Some(number as i64)
        }
    }
}

/// Whether a text is a value of a kind.
pub fn is_value_of(kind: ScalarKind, text: &[u8]) -> bool
    ensures { result ≡ is_value_of kind text.now }
{
    match kind {
        ScalarKind::Int => int_in(text).is_some(),
        ScalarKind::Bool => text == "true".as_bytes() || text == "false".as_bytes(),
    }
}
