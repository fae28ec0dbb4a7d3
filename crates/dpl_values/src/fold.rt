// The operators of reductions on two values, and what each gives over nothing.
// Sums and products wrap.

ghost use Rattle.std.specs.Prelude.{◌≡◌};
ghost use Rattle.dpl_language.specs.Values.{Int, Truth};
ghost use Rattle.dpl_language.specs.Arithmetic.{combined, unit_of};
ghost use Rattle.dpl_nodes.specs.Typed.{int_fold_view, truth_fold_view};

use dpl_arithmetic::number::{product, sum};
use dpl_nodes::{IntFold, TruthFold};

/// Two ints put together.
pub fn combined_ints(fold: IntFold, a: i64, b: i64) -> i64
    ensures { Int result ≡ combined (int_fold_view fold) (Int a) (Int b) }
{
    match fold {
        IntFold::Sum => sum(a, b),
        IntFold::Product => product(a, b),
        IntFold::BitAnd => a & b,
        IntFold::BitOr => a | b,
        IntFold::BitXor => a ^ b,
        IntFold::Least => a.min(b),
        IntFold::Greatest => a.max(b),
    }
}

/// Two truth values put together.
pub fn combined_truths(fold: TruthFold, a: bool, b: bool) -> bool
    ensures { Truth result ≡ combined (truth_fold_view fold) (Truth a) (Truth b) }
{
    match fold {
        TruthFold::AllOf => a && b,
        TruthFold::AnyOf => a || b,
    }
}

/// What an operator on ints gives over none: `min` the greatest int, and `max` the least.
pub fn int_over_none(fold: IntFold) -> i64
    ensures { Int result ≡ unit_of (int_fold_view fold) }
{
    match fold {
        IntFold::Sum | IntFold::BitOr | IntFold::BitXor => 0,
        IntFold::Product => 1,
        IntFold::BitAnd => -1,
        IntFold::Least => i64::MAX,
        IntFold::Greatest => i64::MIN,
    }
}

/// What an operator on truth values gives over none.
pub fn truth_over_none(fold: TruthFold) -> bool
    ensures { Truth result ≡ unit_of (truth_fold_view fold) }
{
    match fold {
        TruthFold::AllOf => true,
        TruthFold::AnyOf => false,
    }
}
