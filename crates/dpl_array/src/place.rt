// Where an index stands in the row of a part's domains.
// The row has the indices of the first domain, then those of the second, and so on; each domain has its start.

ghost use Rattle.std.specs.Prelude.{◌≡◌, ◌≤◌, ◌<◌, ◌+◌, ◌^◌, ◌↔◌, ◌*ℤ◌, ℕ, pos, Some, IfOk, IfSome, slice_get, length};
ghost use Rattle.dpl_map.specs.Orders.{ArePart};
ghost use Rattle.dpl_sets.specs.Indices.{indices};
ghost use Rattle.dpl_array.specs.Elements.{behind};
ghost use Rattle.dpl_array.specs.Rows.{apart_by, row_of, AreStarts, IsDistinct};

use crate::row::Row;
use dpl_domain::{Domain, Index};
use dpl_map::Map;
use std::alloc::{AllocError, Global};

/// No index of a domain stands at two places. It says so, and does nothing.
pub(crate) fn each_once(domain: &Domain)
    ensures { IsDistinct (indices domain.now) }
{
    // That the numbers of a range are within their limits is a clause of its size.
    let (outer, middle, inner) = domain.ranges();
    let _ = (outer.size(), middle.size(), inner.size());
}

/// The place of an index in the row of a part's domains, if one of them has it.
pub(crate) fn place_in(map: &Map, parts: &[Domain], starts: &[usize], index: Index) -> Option<usize>
    requires rows { ArePart map.now parts.now }
    requires starts { AreStarts parts.now starts.now }
    requires small { length (row_of parts.now) ≤ 2 ^ 24 }
    ensures { (k : ℕ) → (result ≡ Some k) ↔ (slice_get (row_of parts.now) k ≡ Some index) }
{
    if let [part] = parts {
        return Some(part.place(index)? as usize);
    }
    let (number, place) = map.find(parts, index)?;
    Some(starts[number] + place as usize)
}

/// The place of an index in the row of a part that is one domain, if that one has it. None where there are more.
#[inline(always)]
pub(crate) fn place_alone(parts: &[Domain], index: Index) -> Option<usize>
    ensures { IfSome result (λ k. slice_get (row_of parts.now) k ≡ Some index) }
{
    let [part] = parts else {
        return None;
    };
    Some(part.place(index)? as usize)
}

/// The place of a row's first index in the row of a part that is one domain, and in how many places from it on stand the indices of the row,
/// one after another. None where the part has more domains, or its last dimension another stride than the row's step.
pub(crate) fn run_in(parts: &[Domain], row: Row) -> (usize, usize)
    ensures { (k : ℕ) → k < result.1 → slice_get (row_of parts.now) (result.0 + k) ≡ Some (behind k row) }
{
    let [part] = parts else {
        return (0, 0);
    };
    let Some(place) = part.place(row.first()) else {
        return (0, 0);
    };
    let (own, left) = Row::of(part, row.first(), place);
    if own.step() != row.step() {
        return (0, 0);
    }
    (place as usize, left as usize)
}

// How often a stride goes into a step of its own direction, if it does so a whole number of times.
fn times(step: i64, stride: i64) -> Option<u64>
    ensures { IfSome result (λ n. (0 < n) × (stride *ℤ pos n ≡ step)) }
{
    let Some(n) = step.checked_div(stride) else {
        return None;
    };
    if n < 1 {
        return None;
    }
    match stride.checked_mul(n) {
        Some(product) if product == step => Some(n as u64),
        _ => None,
    }
}

/// The same of a row whose step is some strides of the part's last dimension: the place of its first index, how far apart the places of its
/// indices lie, and at how many of them they stand.
pub(crate) fn run_apart(parts: &[Domain], row: Row) -> (usize, usize, usize)
    ensures { (k : ℕ) → k < result.2 → slice_get (row_of parts.now) (apart_by result.1 result.0 k) ≡ Some (behind k row) }
{
    let [part] = parts else {
        return (0, 0, 0);
    };
    let Some(place) = part.place(row.first()) else {
        return (0, 0, 0);
    };
    let (own, left) = Row::of(part, row.first(), place);
    let Some(pace) = times(row.step(), own.step()) else {
        return (0, 0, 0);
    };
    if left == 0 {
        return (0, 0, 0);
    }
    let size = (left - 1) / pace + 1;
    (place as usize, pace as usize, size as usize)
}

/// Where the indices of each domain begin in the row of a part's domains, and how long the row is.
pub(crate) fn starts_of(alloc: Global, parts: &[Domain]) -> Result<(Vec<usize>, usize), AllocError>
    requires small { length (row_of parts.now) ≤ 2 ^ 24 }
    ensures starts { IfOk result (λ row. AreStarts parts.now row.0.items) }
    ensures size { IfOk result (λ row. row.1 ≡ length (row_of parts.now)) }
{
    let mut starts = Vec::with_capacity(alloc, parts.len())?;
    let mut size: usize = 0;
    for part in parts {
        starts.push(size)?;
        size += part.size() as usize;
    }
    Ok((starts, size))
}
