// The operators on numbers, which wrap.
// Each result is brought into 64 bits modulo 2^64.

ghost use Rattle.std.specs.Prelude.{◌≡◌, ◌≢◌, pos, ◌+ℤ◌, ◌-ℤ◌, ◌*ℤ◌, neg_ℤ, int_div, int_rem};
ghost use Rattle.dpl_language.specs.Arithmetic.{wrap};

/// `+` of numbers.
pub fn sum(a: i64, b: i64) -> i64
    ensures { result ≡ wrap (a +ℤ b) }
{
    a.wrapping_add(b)
}

/// `-` of numbers.
pub fn difference(a: i64, b: i64) -> i64
    ensures { result ≡ wrap (a -ℤ b) }
{
    a.wrapping_sub(b)
}

/// `*` of numbers.
pub fn product(a: i64, b: i64) -> i64
    ensures { result ≡ wrap (a *ℤ b) }
{
    a.wrapping_mul(b)
}

/// `-` before a number.
pub fn negative(a: i64) -> i64
    ensures { result ≡ wrap (neg_ℤ a) }
{
    a.wrapping_neg()
}

/// `/` of numbers: towards zero. The least int divided by -1 is itself.
pub fn quotient(a: i64, b: i64) -> i64
    requires { b ≢ pos 0 }
    ensures { result ≡ wrap (int_div a b) }
{
    a.wrapping_div(b)
}

/// `%` of numbers: `a - b * (a / b)`.
pub fn remainder(a: i64, b: i64) -> i64
    requires { b ≢ pos 0 }
    ensures { result ≡ wrap (int_rem a b) }
{
    a.wrapping_rem(b)
}
