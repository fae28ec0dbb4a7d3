// Comparisons of two ints.
// Which one it is stands in the node, so that a walk has one arm for all of them.

ghost use Rattle.std.specs.Prelude.{◌≡◌};
ghost use Rattle.dpl_language.specs.Values.{Int, Truth};
ghost use Rattle.dpl_language.specs.Arithmetic.{infix_of};
ghost use Rattle.dpl_nodes.specs.Typed.{comparison_view};

use dpl_nodes::Comparison;

/// Whether two ints are as they are said to be.
#[inline(always)]
pub fn holds(comparison: Comparison, left: i64, right: i64) -> bool
    ensures { Truth result ≡ infix_of (comparison_view comparison) (Int left) (Int right) }
{
    match comparison {
        Comparison::Equal => left == right,
        Comparison::Unequal => left != right,
        Comparison::Less => left < right,
        Comparison::AtMost => left <= right,
        Comparison::Greater => left > right,
        Comparison::AtLeast => left >= right,
    }
}
