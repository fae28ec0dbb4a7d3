// The rule C9 on expressions: no reduction stands in a promoted expression, or in a map's argument.
// Both are told by what is done there.

ghost use Rattle.std.specs.Prelude.{◌≡◌, map};
ghost use Rattle.dpl_rules.specs.Breaches.{least_from};
ghost use Rattle.dpl_rules.specs.Deeds.{inner_reduction as inner_reduction_of, inner_reductions as inner_reductions_of};
ghost use Rattle.dpl_deeds.specs.View.{deed_view};

use crate::deed::{Deed, Holding};
use dpl_syntax::{Breach, Code};
use dpl_types::note;

// C9: a reduction where none may stand.
fn inner_reduction(deed: &Deed<'_>, first: &mut Option<Breach>)
    ensures { first.new ≡ least_from first.old (inner_reduction_of (deed_view deed.now)) }
{
    match deed {
        Deed::Holds(at, Holding::Reduction) => note(first, *at, Code::NotInForall),
        Deed::Holds(_, Holding::Print)
        | Deed::Holds(_, Holding::Forall)
        | Deed::Holds(_, Holding::Coforall)
        | Deed::Holds(_, Holding::CellCall)
        | Deed::Holds(_, Holding::On)
        | Deed::Holds(_, Holding::Here)
        | Deed::Holds(_, Holding::Declaration)
        | Deed::Holds(_, Holding::ReduceIntent)
        | Deed::Reads(_, _)
        | Deed::ReadsAt(_, _, _)
        | Deed::Writes(_, _, _)
        | Deed::WritesAt(_, _, _, _) => {}
    }
}

/// Tells each reduction among what operands in promoted pairs do, or the arguments of a map.
#[tactic(auto, using(dpl_types::proofs::Breaches::least_from_append))]
pub fn inner_reductions(deeds: &[Deed<'_>], first: &mut Option<Breach>)
    ensures { first.new ≡ least_from first.old (inner_reductions_of (map deed_view deeds.now)) }
{
    for deed in deeds {
        inner_reduction(deed, first);
    }
}
