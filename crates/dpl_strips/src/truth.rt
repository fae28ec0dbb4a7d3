// Operators on truth values that are kept as words, and comparisons, which give such words: 1 is true and 0 is false, as elements are written.
// Two words are put together whether the left one decides or not: a strip has no fault on the right either.

ghost use Rattle.std.specs.Prelude.{◌≡◌, Bool, pos, ◌&&◌, ◌||◌, not, int_lt, int_le};
ghost use Rattle.std.specs.Ordering.{int_eq};
ghost use Rattle.dpl_language.specs.Values.{Truth, kept_number};
ghost use Rattle.dpl_words.specs.Words.{is_true};

/// The word of the truth value that any word is: all but 0 are true.
pub(crate) fn truth(word: i64) -> i64
    ensures { result ≡ kept_number (is_true word) }
{
    i64::from(word != 0)
}

/// `!` of a truth value.
pub(crate) fn opposite(word: i64) -> i64
    ensures { (x : Bool) → word ≡ kept_number (Truth x) → result ≡ kept_number (Truth (not x)) }
{
    i64::from(word == 0)
}

/// `&&` of truth values.
pub(crate) fn all_of(a: i64, b: i64) -> i64
    ensures { (x y : Bool) → a ≡ kept_number (Truth x) → b ≡ kept_number (Truth y) → result ≡ kept_number (Truth (x && y)) }
{
    if a == 0 { 0 } else { b }
}

/// `||` of truth values.
pub(crate) fn any_of(a: i64, b: i64) -> i64
    ensures { (x y : Bool) → a ≡ kept_number (Truth x) → b ≡ kept_number (Truth y) → result ≡ kept_number (Truth (x || y)) }
{
    if a == 0 { b } else { 1 }
}

/// `==` of words, and so of truth values.
pub(crate) fn equal(a: i64, b: i64) -> i64
    ensures { result ≡ kept_number (Truth (int_eq a b)) }
{
    i64::from(a == b)
}

/// `!=` of words.
pub(crate) fn unequal(a: i64, b: i64) -> i64
    ensures { result ≡ kept_number (Truth (not (int_eq a b))) }
{
    i64::from(a != b)
}

/// `<` of numbers.
pub(crate) fn less(a: i64, b: i64) -> i64
    ensures { result ≡ kept_number (Truth (int_lt a b)) }
{
    i64::from(a < b)
}

/// `<=` of numbers.
pub(crate) fn at_most(a: i64, b: i64) -> i64
    ensures { result ≡ kept_number (Truth (int_le a b)) }
{
    i64::from(a <= b)
}

/// `>` of numbers.
pub(crate) fn greater(a: i64, b: i64) -> i64
    ensures { result ≡ kept_number (Truth (int_lt b a)) }
{
    i64::from(a > b)
}

/// `>=` of numbers.
pub(crate) fn at_least(a: i64, b: i64) -> i64
    ensures { result ≡ kept_number (Truth (int_le b a)) }
{
    i64::from(a >= b)
}
