// The block-cyclic rule along one dimension: the members of a range that a coordinate gets, as ranges.
// Blocks are counted from an origin at which a round of them begins, one block for each coordinate.

ghost use Rattle.std.specs.Prelude.{◌≡◌, ◌≢◌, ◌≤◌, ◌<◌, ◌+◌, ◌-◌, ◌*◌, ◌/◌, ◌%◌, ◌==◌, ◌&&◌, ◌^◌, ℕ, pos, ◌≤ℤ◌, ◌+ℤ◌, ◌-ℤ◌, neg_ℤ, int_le, [], filter, length};
ghost use Rattle.std.specs.Prelude.{IfOk, IfSome, IsNone, OnOk, All};
ghost use Rattle.std.specs.Int.{int_div_euclid};
ghost use Rattle.dpl_sets.specs.Ranges.{members_of, IsBound};
ghost use Rattle.dpl_map.specs.Grids.{IsGridSize};
ghost use Rattle.dpl_map.specs.Maps.{BlockCyclic};
ghost use Rattle.dpl_map.specs.Axes.{block_cyclic_axis, owned_of};
ghost use Rattle.dpl_map.specs.Cuts.{behind};
ghost use Rattle.dpl_map.specs.Orders.{AreListed};
ghost use Rattle.dpl_map.specs.Counts.{IsWithinValues, rule_block};
ghost use Rattle.dpl_map.specs.Blocks.{past, BeginsRound, IsDeal};

use dpl_range::Range;
use std::alloc::{AllocError, Global};

/// The members of a range that the block-cyclic rule deals to a coordinate, as ranges: one for each of the coordinate's
/// blocks that has members, or one for each offset in a block at which some lie. Each has a member, and they are no more
/// than these blocks, and no more than a block has offsets.
///
/// # Errors
/// Out of memory.
pub fn dealt(
    alloc: Global,
    range: &Range,
    start: i64,
    size: i64,
    extent: u32,
    coordinate: u32,
) -> Result<Vec<Range>, AllocError>
    requires start_is_bound { IsBound start }
    requires some { pos 1 ≤ℤ size }
    requires extent { IsGridSize extent }
    requires coordinate { coordinate < extent }
    ensures cut { IfOk result (λ v. AreListed (BlockCyclic start size) (owned_of (block_cyclic_axis start size extent) coordinate range.now) v.items) }
    ensures some { IfOk result (λ v. All (λ r. members_of r ≢ []) v.items) }
    ensures few { IfOk result (λ v. pos (length v.items) ≤ℤ size) }
    ensures blocks { IfOk result (λ v. IsWithinValues (rule_block (BlockCyclic start size))
        (owned_of (block_cyclic_axis start size extent) coordinate range.now) (length v.items)) }
{
    if range.size() == 0 {
        return Ok(Vec::new(alloc));
    }
    let deal = Deal::new(*range, start, size as u64, extent as u64, coordinate as u64);
    let rounds = deal.rounds();
    // Where a stride passes over more than a block, no block has two members: the offsets at which some lie are no more than
    // the blocks that have some. Where these may be many, going through the offsets takes fewer steps.
    if deal.size < rounds && deal.size < range.size() && deal.size < range.stride().unsigned_abs() {
        return deal.by_offsets(alloc, start);
    }
    match deal.by_blocks(alloc, rounds)? {
        Some(pieces) => Ok(pieces),
        None => deal.by_offsets(alloc, start),
    }
}

// Where the round begins that has `low`, of rounds that begin at `start`, after it and before it.
fn round_of(low: i64, start: i64, round: i128) -> i128
    requires low_limit { IsBound low }
    requires start_limit { IsBound start }
    requires some { pos 1 ≤ℤ round }
    requires short { round ≤ℤ pos (2 ^ 69) }
    ensures begins { (n : ℕ) → round ≡ pos n → BeginsRound start n result }
    ensures low { result ≤ℤ low }
    ensures soon { low ≤ℤ (result +ℤ round) }
{
    let low = low as i128;
    low - (low - start as i128).rem_euclid(round)
}

// The members between two whole numbers, which may lie outside the limits of bounds.
fn between(range: &Range, low: i128, high: i128) -> Range
    ensures { members_of result ≡ filter (λ i. int_le low i && int_le i high) (members_of range.now) }
{
    let low = (range.low_bound() as i128).max(low);
    let high = (range.high_bound() as i128).min(high);
    if high < low {
        return range.slice(1, 0);
    }
    range.slice(low as i64, high as i64)
}

/// Puts a range behind others, if it has members.
///
/// # Errors
/// Out of memory.
pub fn keep(pieces: &mut Vec<Range>, piece: Range) -> Result<(), AllocError>
    ensures { OnOk result (pieces.new.items ≡ behind (members_of piece) piece pieces.old.items) }
{
    if piece.size() == 0 {
        return Ok(());
    }
    pieces.push(piece)?;
    Ok(())
}

// A range, and the blocks of it that a coordinate gets: those number `coordinate`, `coordinate + extent` and so on from the
// origin, which is the beginning of the round that has the range's low bound.
#[derive(Clone, Copy)]
struct Deal {
    range: Range,
    origin: i128,
    size: u64,
    extent: u64,
    coordinate: u64,
    ghost deal: { IsDeal range origin size extent coordinate },
}

impl Deal {
    ghost use Rattle.dpl_map.specs.Deals.{number_in, last_in, offset_in, round_in, turn_in, dealt_of, AreCutBy};

    // The deal of a coordinate, from the beginning of the round that has the range's low bound.
    fn new(range: Range, start: i64, size: u64, extent: u64, coordinate: u64) -> Deal
        requires start_limit { IsBound start }
        requires some { 0 < size }
        requires machine { size < 2 ^ 63 }
        requires extent { extent ≤ 64 }
        requires coordinate { coordinate < extent }
        ensures begins { BeginsRound start (result.extent * result.size) result.origin }
        ensures range { result.range ≡ range }
        ensures size { result.size ≡ size }
        ensures extent { result.extent ≡ extent }
        ensures coordinate { result.coordinate ≡ coordinate }
    {
        let round = extent as u128 * size as u128;
        Deal {
            range,
            origin: round_of(range.low_bound(), start, round as i128),
            size,
            extent,
            coordinate,
        }
    }

    // How far an integer between the range's bounds lies past the origin.
    fn way(&self, i: i64) -> u128
        requires low { self.now.range.low ≤ℤ i }
        requires high { i ≤ℤ self.now.range.high }
        ensures way { result ≡ past self.now.origin i }
        ensures near { result ≤ 2 ^ 61 + self.now.extent * self.now.size }
    {
        (i as i128 - self.origin) as u128
    }

    // The number of the block that has an integer between the range's bounds.
    fn number(&self, i: i64) -> u64
        requires low { self.now.range.low ≤ℤ i }
        requires high { i ≤ℤ self.now.range.high }
        ensures number { result ≡ number_in self.now i }
        ensures near { result ≤ 2 ^ 61 + 64 }
    {
        (self.way(i) / self.size as u128) as u64
    }

    // The number of the block that has the range's high bound.
    fn last(&self) -> u64
        requires ordered { self.now.range.low ≤ℤ self.now.range.high }
        ensures number { result ≡ last_in self.now }
        ensures near { result ≤ 2 ^ 61 + 64 }
    {
        self.number(self.range.high_bound())
    }

    // How many of the coordinate's blocks begin at the range's high bound or before it.
    fn rounds(&self) -> u64
        requires ordered { self.now.range.low ≤ℤ self.now.range.high }
        ensures all { (j : ℕ) → j < result → turn_in self.now j ≤ last_in self.now }
        ensures enough { (j : ℕ) → turn_in self.now j ≤ last_in self.now → j < result }
        ensures near { last_in self.now ≤ 2 ^ 61 + 64 }
        ensures short { self.now.size < result → self.now.extent * self.now.size ≤ 2 ^ 61 }
    {
        let last = self.last();
        if last < self.coordinate {
            return 0;
        }
        (last - self.coordinate) / self.extent + 1
    }

    // Where the block of a number begins.
    fn begin(&self, number: u64) -> i128
        requires near { number ≤ 2 ^ 62 }
        ensures begin { result ≡ self.now.origin +ℤ pos (number * self.now.size) }
        ensures limit { result ≤ℤ pos (2 ^ 126) }
    {
        self.origin + (number as u128 * self.size as u128) as i128
    }

    // Where the block of a number ends.
    fn end(&self, number: u64) -> i128
        requires near { number ≤ 2 ^ 62 }
        ensures { result ≡ self.now.origin +ℤ pos (number * self.now.size) +ℤ pos (self.now.size - 1) }
    {
        self.begin(number) + (self.size - 1) as i128
    }

    // The members in the block of a number.
    fn block(&self, number: u64) -> Range
        requires near { number ≤ 2 ^ 62 }
        ensures { members_of result ≡ filter (λ i. number_in self.now i == number) (members_of self.now.range) }
    {
        between(&self.range, self.begin(number), self.end(number))
    }

    // The first of the coordinate's rounds, from this one on, whose block has the least member that is left or begins behind it. None
    // where the coordinate has no member left.
    fn next_round(&self, round: u64) -> Option<u64>
        requires ordered { self.now.range.low ≤ℤ self.now.range.high }
        requires near { turn_in self.now round ≤ 2 ^ 62 }
        ensures later { IfSome result (λ found. round ≤ found) }
        ensures within { IfSome result (λ found. turn_in self.now found ≤ last_in self.now) }
        ensures passed { IfSome result (λ found. All (λ i. round_in self.now i < found → round_in self.now i < round) (dealt_of self.now)) }
        ensures none { IsNone result → All (λ i. round_in self.now i < round) (dealt_of self.now) }
    {
        let begin = self.begin(round * self.extent + self.coordinate);
        let left = between(&self.range, begin, self.range.high_bound() as i128);
        let least = left.low()?;
        let found = (self.number(least) + (self.extent - 1 - self.coordinate)) / self.extent;
        if self.last() < found * self.extent + self.coordinate {
            return None;
        }
        Some(found)
    }

    // The members in each of the coordinate's blocks, one block after another. There is no such list where more of the blocks
    // have members than a block has offsets.
    fn by_blocks(&self, alloc: Global, rounds: u64) -> Result<Option<Vec<Range>>, AllocError>
        requires ordered { self.now.range.low ≤ℤ self.now.range.high }
        requires enough { (j : ℕ) → turn_in self.now j ≤ last_in self.now → j < rounds }
        requires near { last_in self.now ≤ 2 ^ 61 + 64 }
        ensures cut { IfOk result (λ found. IfSome found (λ v. AreCutBy self.now (round_in self.now) v.items)) }
        ensures few { IfOk result (λ found. IfSome found (λ v. length v.items ≤ self.now.size)) }
        ensures some { IfOk result (λ found. IfSome found (λ v. All (λ r. members_of r ≢ []) v.items)) }
        ensures blocks { IfOk result (λ found. IfSome found (λ v. IsWithinValues (round_in self.now) (dealt_of self.now) (length v.items))) }
        ensures many { IfOk result (λ found. IsNone found → IsWithinValues (round_in self.now) (dealt_of self.now) (self.now.size + 1)) }
        ensures later { IfOk result (λ found. IsNone found → self.now.size < rounds) }
    {
        let mut pieces = Vec::new(alloc);
        let mut round = 0;
        'rounds: while let Some(found) = self.next_round(round) {
            keep(
                &mut pieces,
                self.block(found * self.extent + self.coordinate),
            )?;
            if self.size < pieces.len() as u64 {
                return Ok(None);
            }
            round = found + 1;
        }
        Ok(Some(pieces))
    }

    // The members of the coordinate's blocks by their offsets: those of one offset are a class of congruence.
    fn by_offsets(&self, alloc: Global, start: i64) -> Result<Vec<Range>, AllocError>
        requires start_is_bound { IsBound start }
        requires short { self.now.extent * self.now.size ≤ 2 ^ 61 }
        requires begins { BeginsRound start (self.now.extent * self.now.size) self.now.origin }
        ensures cut { IfOk result (λ v. AreCutBy self.now (offset_in self.now) v.items) }
        ensures few { IfOk result (λ v. length v.items ≤ self.now.size) }
        ensures some { IfOk result (λ v. All (λ r. members_of r ≢ []) v.items) }
        ensures offsets { IfOk result (λ v. IsWithinValues (offset_in self.now) (dealt_of self.now) (length v.items)) }
    {
        let mut pieces = Vec::new(alloc);
        for offset in 0..self.size {
            keep(&mut pieces, self.offset(start, offset))?;
        }
        Ok(pieces)
    }

    // The members of the coordinate's blocks that lie at an offset in them.
    fn offset(&self, start: i64, offset: u64) -> Range
        requires start_is_bound { IsBound start }
        requires within { offset < self.now.size }
        requires short { self.now.extent * self.now.size ≤ 2 ^ 61 }
        requires begins { BeginsRound start (self.now.extent * self.now.size) self.now.origin }
        ensures { members_of result ≡ filter (λ i. offset_in self.now i == offset) (dealt_of self.now) }
    {
        let before = self.coordinate * self.size;
        self.range
            .class(start, self.extent * self.size, before + offset)
    }
}
