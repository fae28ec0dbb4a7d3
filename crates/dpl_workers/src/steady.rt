// How many of a row's indices have one owner, as far as that is told by the first and the last of them.

ghost use Rattle.std.specs.Prelude.{◌≡◌, ◌≤◌, ◌<◌, ◌≤ℤ◌, ◌<ℤ◌, ℕ, pos, IfSome};
ghost use Rattle.dpl_domain.specs.Ranks.{last_of};
ghost use Rattle.dpl_map.specs.Maps.{owner};
ghost use Rattle.dpl_array.specs.Elements.{behind};

use dpl_array::Row;
use dpl_domain::Index;
use dpl_map::Map;

// The index with the last `rank` of three coordinates.
fn of_rank(rank: u32, outer: i64, middle: i64, inner: i64) -> Option<Index>
    requires from_one { 1 ≤ rank }
    requires to_three { rank ≤ 3 }
    ensures { IfSome result (λ t. t ≡ last_of rank outer middle inner) }
{
    match rank {
        1 => Index::new(&[inner]),
        2 => Index::new(&[middle, inner]),
        _ => Index::new(&[outer, middle, inner]),
    }
}

// The index that stands so many behind the first of a row. None where its last coordinate would be too great.
fn ahead(row: &Row, k: u64) -> Option<Index>
    ensures { IfSome result (λ t. t ≡ behind k row.now) }
{
    let first = row.first();
    let (outer, middle, inner) = first.numbers();
    let Ok(steps) = i64::try_from(k) else {
        return None;
    };
    let Some(distance) = row.step().checked_mul(steps) else {
        return None;
    };
    let Some(last) = inner.checked_add(distance) else {
        return None;
    };
    of_rank(first.rank(), outer, middle, last)
}

// The first and the last index of a row's first ones, the one with the lesser coordinates first.
fn in_order(row: &Row, last: Index) -> (Index, Index)
    ensures rising { pos 0 ≤ℤ row.now.step → (result.0 ≡ row.now.first) × (result.1 ≡ last) }
    ensures falling { row.now.step <ℤ pos 0 → (result.0 ≡ last) × (result.1 ≡ row.now.first) }
{
    if row.step() < 0 {
        (last, row.first())
    } else {
        (row.first(), last)
    }
}

/// How many of a row's first indices have the owner of the first one: at most so many, and there may be more of them.
pub(crate) fn steady(map: &Map, row: &Row, most: usize) -> usize
    ensures most { result ≤ most }
    ensures same { (k : ℕ) → k < result → owner map.now (behind k row.now) ≡ owner map.now row.now.first }
{
    let first = row.first();
    let size = map.likely(first, row.step()).min(most as u64);
    if size <= 1 {
        return size as usize;
    }
    let Some(last) = ahead(row, size - 1) else {
        return 1;
    };
    let (low, high) = in_order(row, last);
    if map.owns_between(low, high, map.owner(first)) {
        size as usize
    } else {
        1
    }
}
