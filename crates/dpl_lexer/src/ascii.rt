// Tests of one byte, as the definition of tokens has them.
// Nothing here takes memory.

ghost use Rattle.std.specs.Prelude.{◌≡◌, ◌≤◌};
ghost use Rattle.dpl_syntax.specs.Gaps.{is_space, next_is, begins_with};
ghost use Rattle.dpl_syntax.specs.Text.{is_letter, is_digit, goes_on, digit_value, is_digit_of, goes_on_in, base_named, sticks, is_quote, is_escaped, escaped};

/// Whether the byte is white space.
pub fn is_space(byte: u8) -> bool
    ensures { result ≡ is_space byte }
{
    byte == b' ' || byte == b'\t' || byte == b'\n' || byte == b'\r'
}

pub fn is_letter(byte: u8) -> bool
    ensures { result ≡ is_letter byte }
{
    (b'a' <= byte && byte <= b'z') || (b'A' <= byte && byte <= b'Z') || byte == b'_'
}

pub fn is_digit(byte: u8) -> bool
    ensures { result ≡ is_digit byte }
{
    b'0' <= byte && byte <= b'9'
}

/// Whether a word goes on with the byte.
pub fn goes_on(byte: u8) -> bool
    ensures { result ≡ goes_on byte }
{
    is_letter(byte) || is_digit(byte) || byte == b'$'
}

/// The value of a digit of any base; 16 for what is none.
pub fn digit_value(byte: u8) -> u8
    ensures is { result ≡ digit_value byte }
    ensures small { result ≤ 16 }
{
    if is_digit(byte) {
        byte - b'0'
    } else if b'a' <= byte && byte <= b'f' {
        byte - 87
    } else if b'A' <= byte && byte <= b'F' {
        byte - 55
    } else {
        16
    }
}

pub fn is_digit_of(base: u8, byte: u8) -> bool
    ensures { result ≡ is_digit_of base byte }
{
    digit_value(byte) < base
}

/// Whether digits of the base go on with the byte.
pub fn goes_on_in(base: u8, byte: u8) -> bool
    ensures { result ≡ goes_on_in base byte }
{
    is_digit_of(base, byte) || byte == b'_'
}

/// The base that a letter after 0 stands for; 0 for another byte.
pub fn base_named(letter: u8) -> u8
    ensures is { result ≡ base_named letter }
    ensures small { result ≤ 16 }
{
    if letter == b'x' || letter == b'X' {
        16
    } else if letter == b'o' || letter == b'O' {
        8
    } else if letter == b'b' || letter == b'B' {
        2
    } else {
        0
    }
}

/// Whether the byte may not stand straight after a number.
pub fn sticks(byte: u8) -> bool
    ensures { result ≡ sticks byte }
{
    is_letter(byte) || byte == b'$'
}

pub fn is_quote(byte: u8) -> bool
    ensures { result ≡ is_quote byte }
{
    byte == b'"' || byte == b'\''
}

/// Whether the byte may follow a backslash.
pub fn is_escaped(byte: u8) -> bool
    ensures { result ≡ is_escaped byte }
{
    byte == b'n' || byte == b't' || is_quote(byte) || byte == b'\\'
}

/// What the byte after a backslash stands for.
pub fn escaped(byte: u8) -> u8
    ensures { result ≡ escaped byte }
{
    if byte == b'n' {
        b'\n'
    } else if byte == b't' {
        b'\t'
    } else {
        byte
    }
}

/// Whether white space comes.
pub fn next_is_space(bytes: &[u8]) -> bool
    ensures { result ≡ next_is is_space bytes.now }
{
    match bytes {
        [first, ..] => is_space(*first),
        [] => false,
    }
}

/// Whether a byte comes that may not stand straight after a number.
pub fn next_sticks(bytes: &[u8]) -> bool
    ensures { result ≡ next_is sticks bytes.now }
{
    match bytes {
        [first, ..] => sticks(*first),
        [] => false,
    }
}

/// Whether these two bytes come.
pub fn begins_with(bytes: &[u8], first: u8, second: u8) -> bool
    ensures { result ≡ begins_with first second bytes.now }
{
    match bytes {
        [a, b, ..] => *a == first && *b == second,
        _ => false,
    }
}
