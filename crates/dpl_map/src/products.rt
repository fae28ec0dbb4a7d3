// Products of ranges that are cut out of the dimensions of a domain: domains that are cut out of it.

ghost use Rattle.std.specs.Prelude.{◌≡◌, ◌≢◌, ◌≤◌, ◌<◌, ◌*◌, ◌/◌, ◌%◌, ℕ, ℤ, List, [], length, slice_get, Some, All, IfOk};
ghost use Rattle.dpl_sets.specs.Ranges.{RangeValue, members_of};
ghost use Rattle.dpl_sets.specs.Indices.{tuples, indices, IsSmall};
ghost use Rattle.dpl_domain.specs.Ranks.{last_of};
ghost use Rattle.dpl_map.specs.Orders.{AreProducts};

use dpl_domain::Domain;
use dpl_range::Range;
use std::alloc::{AllocError, Global};

/// The products of one range of each list, as domains of a rank, row by row. Below rank 3 the lists in front have one
/// range, which no domain shows. Of ranges that each have a member, each product has an index.
///
/// # Errors
/// Out of memory.
pub fn products(
    alloc: Global,
    rank: u32,
    outers: &[Range],
    middles: &[Range],
    inners: &[Range],
) -> Result<Vec<Domain>, AllocError>
    requires from_one { 1 ≤ rank }
    requires to_three { rank ≤ 3 }
    requires one_outer { rank < 3 → length outers.now ≡ 1 }
    requires one_middle { rank < 2 → length middles.now ≡ 1 }
    requires small { (a b c : ℕ) (o m i : RangeValue) → slice_get outers.now a ≡ Some o → slice_get middles.now b ≡ Some m → slice_get inners.now c ≡ Some i
        → IsSmall (last_of rank o m i) }
    ensures cut { IfOk result (λ v. AreProducts rank outers.now middles.now inners.now v.items) }
    ensures some { All (λ r. members_of r ≢ []) outers.now → All (λ r. members_of r ≢ []) middles.now → All (λ r. members_of r ≢ []) inners.now
        → IfOk result (λ v. All (λ domain. indices domain ≢ []) v.items) }
    ensures count { IfOk result (λ v. length v.items ≡ length outers.now * length middles.now * length inners.now) }
{
    let (rows, row) = (middles.len(), inners.len());
    let count = count_of(outers.len(), rows, row)?;
    let mut domains = Vec::with_capacity(alloc, count)?;
    for k in 0..count {
        let domain = Domain::last_of(
            rank,
            outers[k / row / rows],
            middles[k / row % rows],
            inners[k % row],
        );
        domains.push(domain)?;
    }
    Ok(domains)
}

// How many products there are. More than can be counted are more than there is memory for.
fn count_of(outers: usize, middles: usize, inners: usize) -> Result<usize, AllocError>
    ensures { IfOk result (λ n. n ≡ outers * middles * inners) }
{
    let rows = outers.checked_mul(middles).ok_or(AllocError)?;
    rows.checked_mul(inners).ok_or(AllocError)
}
