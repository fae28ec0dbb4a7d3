// Operators of chains on two values.
// Which one it is stands in the link, so that a walk has one call for all of them.

ghost use Rattle.std.specs.Prelude.{◌≡◌, Ok};
ghost use Rattle.dpl_language.specs.Values.{Int, Truth};
ghost use Rattle.dpl_language.specs.Arithmetic.{infix_of, divides, tested_divisor, decides as decides_of};
ghost use Rattle.dpl_language.specs.Outcome.{with_ok};
ghost use Rattle.dpl_nodes.specs.Typed.{int_infix, int_place, junction_view};
ghost use Rattle.dpl_frame.specs.Faults.{Tells};

use dpl_arithmetic::number::{difference, product, quotient, remainder, sum};
use dpl_frame::{Alarm, FaultCode, Turn};
use dpl_nodes::{IntOperator, Junction};

/// What an operator gives of two ints.
///
/// # Errors
/// `F2` at a division by zero.
#[inline(always)]
pub(crate) fn operated(
    op: IntOperator<'_>,
    left: i64,
    right: i64,
    turn: &mut Turn,
) -> Result<i64, Alarm>
    ensures { Tells ⊥ Int turn.new result
        (with_ok (tested_divisor (divides (int_infix op.entry)) (int_place op.entry) (Int right)) (λ w. Ok (infix_of (int_infix op.entry) (Int left) w))) }
{
    match op {
        IntOperator::Sum => Ok(sum(left, right)),
        IntOperator::Difference => Ok(difference(left, right)),
        IntOperator::Product => Ok(product(left, right)),
        IntOperator::Quotient(at) => {
            if right == 0 {
                return Err(Alarm::new(FaultCode::ZeroDivisor, *at, turn));
            }
            Ok(quotient(left, right))
        }
        IntOperator::Remainder(at) => {
            if right == 0 {
                return Err(Alarm::new(FaultCode::ZeroDivisor, *at, turn));
            }
            Ok(remainder(left, right))
        }
    }
}

/// Whether the left side decides: `&&` behind false and `||` behind true keep it, and don't look at their right side.
#[inline(always)]
pub(crate) fn decides(op: Junction, left: bool) -> bool
    ensures { result ≡ decides_of (junction_view op) (Truth left) }
{
    match op {
        Junction::And => !left,
        Junction::Or => left,
        Junction::Same | Junction::Differ => false,
    }
}

/// What an operator gives of two truth values.
#[inline(always)]
pub(crate) fn joined(op: Junction, left: bool, right: bool) -> bool
    ensures { Truth result ≡ infix_of (junction_view op) (Truth left) (Truth right) }
{
    match op {
        Junction::And => left && right,
        Junction::Or => left || right,
        Junction::Same => left == right,
        Junction::Differ => left != right,
    }
}
