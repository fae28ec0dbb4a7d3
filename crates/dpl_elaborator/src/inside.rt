// The rule C9 on chains: in promoted pairs no reduction stands, at whatever depth.
// What stands before an operator is one operand of its pair, so that all operands up to the last promoted pair stand in one.

ghost use Rattle.std.specs.Prelude.{◌≡◌, if◌then◌else◌, map, Some};
ghost use Rattle.dpl_rules.specs.Breaches.{least_from};
ghost use Rattle.dpl_rules.specs.Deeds.{inner_reductions as inner_reductions_of};
ghost use Rattle.dpl_rules.specs.Types.{has, is_promoted as is_promoted_by};
ghost use Rattle.dpl_deeds.specs.View.{deed_view};
ghost use Rattle.dpl_typed.specs.Typed.{types_of};
ghost use Rattle.dpl_elaborator.specs.Inside.{between};

use dpl_deeds::inner::inner_reductions;
use dpl_deeds::{Deed, before, behind};
use dpl_syntax::Breach;
use dpl_typed::Typed;
use dpl_typed::found::is_promoted;

/// Where the deeds of operands in promoted pairs end, by a pair with which so many deeds end, and by the pairs before it.
pub(crate) fn reached(pair: Option<Typed<'_>>, len: usize, before: Option<usize>) -> Option<usize>
    ensures { result ≡ (if has is_promoted_by (types_of pair.entry) then Some len else before) }
{
    if is_promoted(pair) { Some(len) } else { before }
}

/// Tells the reductions among the deeds from a start to where those of operands in promoted pairs end, if there are any.
#[tactic(auto, using(crate::proofs::Promoted::between_view))]
pub(crate) fn tell_inner(
    deeds: &[Deed<'_>],
    start: usize,
    upto: Option<usize>,
    first: &mut Option<Breach>,
)
    ensures { first.new ≡ least_from first.old (inner_reductions_of (between start upto (map deed_view deeds.now))) }
{
    if let Some(upto) = upto {
        inner_reductions(behind(before(deeds, upto), start), first);
    }
}
