// What is made of the ints of a strip, in the strip itself: other signs, sums, differences and products, quotients and remainders.
// Operators that divide have a function each, for a divisor that isn't 0; the others have no fault, and one function for all.

ghost use Rattle.std.specs.Prelude.{◌≡◌, ◌≢◌, ◌≤◌, ◌<◌, ℕ, pos, neg_ℤ, int_div, int_rem, Some, get_or, length, slice_get};
ghost use Rattle.dpl_language.specs.Arithmetic.{wrap};
ghost use Rattle.dpl_strips.specs.Strips.{made_by, right_size, right_word};

use dpl_arithmetic::number::{difference, negative, product, quotient, remainder, sum};
use dpl_loop::{STRIP, Strip};

/// An operator on two ints that wraps around, and so has no fault.
#[derive(Clone, Copy)]
pub(crate) enum Wrapping {
    Sum,
    Difference,
    Product,
}

/// What stands on the right of an operator and needs no strip: one int for all indices, or words where they lie, one for each.
#[derive(Clone, Copy)]
pub(crate) enum Right<'w> {
    Int(i64),
    Words(&'w [i64]),
}

/// One int at all indices of a strip's row.
pub fn repeat(strip: &mut Strip, word: i64)
    ensures row { strip.new.row ≡ strip.old.row }
    ensures words { (k : ℕ) → k < 64 → get_or strip.new.words k (pos 0) ≡ word }
{
    strip.words = [word; STRIP];
    strip.size = STRIP;
}

/// Words that stand side by side.
pub(crate) fn copy(strip: &mut Strip, words: &[i64])
    ensures row { strip.new.row ≡ strip.old.row }
    ensures words { (k : ℕ) → k < strip.new.size → k < 64 → slice_get words.now k ≡ Some (get_or strip.new.words k (pos 0)) }
{
    let size = words.len().min(STRIP);
    for k in 0..size {
        strip.words[k] = words[k];
    }
    strip.size = size;
}

/// What a function makes of each int of a strip. It is inlined with that function, so the loop calls nothing.
#[inline(always)]
pub(crate) fn each<F: Fn(i64) -> i64>(strip: &mut Strip, apply: F)
    requires { F.IsAlwaysCallable apply }
    ensures row { strip.new.row ≡ strip.old.row }
    ensures size { strip.new.size ≡ strip.old.size }
    ensures words { (k : ℕ) → k < 64 → F.post apply (get_or strip.old.words k (pos 0)) (get_or strip.new.words k (pos 0)) }
{
    for k in 0..STRIP {
        strip.words[k] = apply(strip.words[k]);
    }
}

/// The ints of a strip with the other sign.
pub(crate) fn negate(strip: &mut Strip)
    ensures row { strip.new.row ≡ strip.old.row }
    ensures size { strip.new.size ≡ strip.old.size }
    ensures words { (k : ℕ) → k < 64 → get_or strip.new.words k (pos 0) ≡ wrap (neg_ℤ (get_or strip.old.words k (pos 0))) }
{
    each(strip, negative);
}

/// The ints of a strip, each divided by one int.
pub(crate) fn divide(strip: &mut Strip, by: i64)
    requires { by ≢ pos 0 }
    ensures row { strip.new.row ≡ strip.old.row }
    ensures size { strip.new.size ≡ strip.old.size }
    ensures words { (k : ℕ) → k < 64 → get_or strip.new.words k (pos 0) ≡ wrap (int_div (get_or strip.old.words k (pos 0)) by) }
{
    let quotients = move |n: i64| -> i64
        requires { by ≢ pos 0 }
        ensures { result ≡ wrap (int_div n by) }
    { quotient(n, by) };
    each(strip, quotients);
}

/// What each int of a strip leaves when it is divided by one int.
pub(crate) fn leave(strip: &mut Strip, by: i64)
    requires { by ≢ pos 0 }
    ensures row { strip.new.row ≡ strip.old.row }
    ensures size { strip.new.size ≡ strip.old.size }
    ensures words { (k : ℕ) → k < 64 → get_or strip.new.words k (pos 0) ≡ wrap (int_rem (get_or strip.old.words k (pos 0)) by) }
{
    let remainders = move |n: i64| -> i64
        requires { by ≢ pos 0 }
        ensures { result ≡ wrap (int_rem n by) }
    { remainder(n, by) };
    each(strip, remainders);
}

// What an operator makes of the ints of a strip, each with one int on its right.
#[inline(always)]
fn with_int<F: Fn(i64, i64) -> i64>(strip: &mut Strip, right: i64, apply: F)
    requires { F.IsAlwaysCallable apply }
    ensures row { strip.new.row ≡ strip.old.row }
    ensures size { strip.new.size ≡ strip.old.size }
    ensures words { (k : ℕ) → k < 64 → F.post apply (get_or strip.old.words k (pos 0)) right (get_or strip.new.words k (pos 0)) }
{
    let made = move |left: i64| -> i64
        requires { F.IsAlwaysCallable apply }
        ensures { F.post apply left right result }
    { apply(left, right) };
    each(strip, made);
}

/// What an operator makes of the ints of a strip, each with the word at the same place on its right.
#[inline(always)]
pub(crate) fn with_words<F: Fn(i64, i64) -> i64>(strip: &mut Strip, right: &[i64], apply: F)
    requires { F.IsAlwaysCallable apply }
    ensures row { strip.new.row ≡ strip.old.row }
    ensures left { strip.new.size ≤ strip.old.size }
    ensures right { strip.new.size ≤ length right.now }
    ensures words { (k : ℕ) → k < strip.new.size → k < 64
        → F.post apply (get_or strip.old.words k (pos 0)) (get_or right.now k (pos 0)) (get_or strip.new.words k (pos 0)) }
{
    let size = strip.size.min(right.len()).min(STRIP);
    for k in 0..size {
        strip.words[k] = apply(strip.words[k], right[k]);
    }
    strip.size = size;
}

/// What an operator makes of the ints of a strip and of what stands on its right.
pub(crate) fn apply(op: Wrapping, strip: &mut Strip, right: Right<'_>)
    ensures row { strip.new.row ≡ strip.old.row }
    ensures left { strip.new.size ≤ strip.old.size }
    ensures right { (k : ℕ) → k < strip.new.size → k < 64 → k < right_size right.entry }
    ensures words { (k : ℕ) → k < strip.new.size → k < 64
        → get_or strip.new.words k (pos 0) ≡ made_by op (get_or strip.old.words k (pos 0)) (right_word right.entry k) }
{
    match (op, right) {
        (Wrapping::Sum, Right::Int(n)) => with_int(strip, n, sum),
        (Wrapping::Sum, Right::Words(words)) => with_words(strip, words, sum),
        (Wrapping::Difference, Right::Int(n)) => with_int(strip, n, difference),
        (Wrapping::Difference, Right::Words(words)) => with_words(strip, words, difference),
        (Wrapping::Product, Right::Int(n)) => with_int(strip, n, product),
        (Wrapping::Product, Right::Words(words)) => with_words(strip, words, product),
    }
}
