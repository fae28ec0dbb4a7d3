// `reduce=`: two values put together by the operator of the forall's intent.
// An operator on values that it doesn't take, which no sound program has, gives 0 or false as the language's meaning does.

ghost use Rattle.std.specs.Prelude.{◌≡◌};
ghost use Rattle.dpl_language.specs.Values.{number, kept_number, Int, Truth};
ghost use Rattle.dpl_language.specs.Arithmetic.{combined as combined_of, by_intent};

use dpl_nodes::Fold;
use dpl_tree::Op;
use dpl_values::fold::{combined_ints, combined_truths};

// Two ints.
fn two_ints(op: Op, a: i64, b: i64) -> i64
    ensures { result ≡ number (combined_of op (Int a) (Int b)) }
{
    match Fold::of(op) {
        Fold::Ints(fold) => combined_ints(fold, a, b),
        Fold::Truths(_) => 0,
    }
}

// Two truth values, as a number.
fn two_truths(op: Op, a: bool, b: bool) -> i64
    ensures { result ≡ kept_number (combined_of op (Truth a) (Truth b)) }
{
    match Fold::of(op) {
        Fold::Truths(fold) => i64::from(combined_truths(fold, a, b)),
        Fold::Ints(_) => 0,
    }
}

/// What an int is after `reduce=`; without an intent it is the right side.
pub(crate) fn reduced_int(op: Option<Op>, old: i64, value: i64) -> i64
    ensures { result ≡ number (by_intent op (Int old) (Int value)) }
{
    match op {
        None => value,
        Some(op) => two_ints(op, old, value),
    }
}

/// The same of a truth value, as a number.
pub(crate) fn reduced_truth(op: Option<Op>, old: bool, value: bool) -> i64
    ensures { result ≡ kept_number (by_intent op (Truth old) (Truth value)) }
{
    match op {
        None => i64::from(value),
        Some(op) => two_truths(op, old, value),
    }
}
