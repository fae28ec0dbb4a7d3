// Some of a loop's turns: those whose reads may lie outside a locale's own part, and those whose reads all lie in it.
// The turns in between are told by their two corners, so that nobody has to look at each of them.

ghost use Rattle.std.specs.Prelude.{◌≡◌, ◌≤◌, ◌<◌, ℤ, List, pos, slice_index_or, length, IsTrue, IfSome};
ghost use Rattle.dpl_sets.specs.Ranges.{IsBound};
ghost use Rattle.dpl_sets.specs.Indices.{indices};
ghost use Rattle.dpl_domain.specs.Ranks.{last_of};
ghost use Rattle.dpl_map.specs.Maps.{owner};
ghost use Rattle.dpl_array.specs.Rows.{StandsIn};
ghost use Rattle.dpl_halo.specs.Shifts.{shifted};
ghost use Rattle.dpl_halo.specs.Turns.{IsNarrowed, AreCorners, AreCutPoints};

use crate::Shift;
use crate::shift::{line, plane, space};
use dpl_domain::{Domain, Index};
use dpl_map::Map;
use dpl_range::{LIMIT, Range};

/// The turns whose coordinate `d`, counted from 0, lies between two numbers.
pub(crate) fn narrowed(turns: &Domain, d: u32, low: i64, high: i64) -> Domain
    requires dimension { d < length turns.now }
    requires low_is_bound { IsBound low }
    requires high_is_bound { IsBound high }
    ensures rank { length result ≡ length turns.now }
    ensures narrowed { IsNarrowed d low high turns.now result }
    ensures bounded { (t : List ℤ) → StandsIn (indices turns.now) t → IsBound (slice_index_or t d (pos 0)) }
{
    let (outer, middle, inner) = turns.ranges();
    // That the numbers of a range are within their limits is a clause of its size.
    let _ = (outer.size(), middle.size(), inner.size());
    let rank = turns.rank();
    match rank - d {
        1 => Domain::last_of(rank, outer, middle, inner.slice(low, high)),
        2 => Domain::last_of(rank, outer, middle.slice(low, high), inner),
        _ => Domain::last_of(rank, outer.slice(low, high), middle, inner),
    }
}

/// Between which numbers coordinate `d` of a turn has to lie for the reads of a shift to lie in a box. It is a guess, so that more or
/// fewer turns are looked at: which of them read what is asked of the turns.
pub(crate) fn reach(shift: &Shift, own: &Domain, d: u32) -> (i64, i64)
    ensures { AreCutPoints result.0 result.1 }
{
    let (mut low, mut high) = (-LIMIT, LIMIT);
    for k in 0..own.rank() {
        if let (Some(offset), Some(range)) = (shift.offset(k, d), own.dim(k)) {
            let (from, to) = moved_back(&range, offset);
            low = low.max(from);
            high = high.min(to);
        }
    }
    cut_points(low, high)
}

// The least and the greatest member of a range, moved back by an offset.
fn moved_back(range: &Range, offset: i64) -> (i64, i64) {
    let low = range.low().unwrap_or(range.low_bound());
    let high = range.high().unwrap_or(range.high_bound());
    (low.saturating_sub(offset), high.saturating_sub(offset))
}

// Two numbers as bounds, with room for one more on either side.
fn cut_points(low: i64, high: i64) -> (i64, i64)
    ensures { AreCutPoints result.0 result.1 }
{
    let low = low.clamp(-LIMIT + 1, LIMIT);
    let high = high.clamp(low - 1, LIMIT - 1);
    (low, high)
}

/// Whether a locale owns whatever a shifted read names in some turns, where that can be told by their corners.
pub(crate) fn are_owned(map: &Map, locale: u32, turns: &Domain, shift: &Shift) -> bool
    ensures { IsTrue result → (t : List ℤ) → StandsIn (indices turns.now) t → owner map.now (shifted shift.now t) ≡ locale }
{
    let Some((low, high)) = corners(turns) else {
        return false;
    };
    if !shift.keeps(low, high) {
        return false;
    }
    map.owns_between(shift.index(low), shift.index(high), locale)
}

// The least and the greatest number of each dimension of some turns. None where there is no turn.
fn corners(turns: &Domain) -> Option<(Index, Index)>
    ensures { IfSome result (λ corners. AreCorners turns.now corners.0 corners.1) }
{
    let (outer, middle, inner) = turns.ranges();
    let low = index(turns.rank(), outer.low()?, middle.low()?, inner.low()?);
    let high = index(turns.rank(), outer.high()?, middle.high()?, inner.high()?);
    Some((low, high))
}

// The index with the last `rank` of three coordinates.
fn index(rank: u32, outer: i64, middle: i64, inner: i64) -> Index
    requires from_one { 1 ≤ rank }
    requires to_three { rank ≤ 3 }
    ensures { result ≡ last_of rank outer middle inner }
{
    match rank {
        1 => line(inner),
        2 => plane(middle, inner),
        _ => space(outer, middle, inner),
    }
}
