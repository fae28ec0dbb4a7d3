// One dimension of a map: by which rule its indices are dealt out over how many coordinates.

ghost use Rattle.std.specs.Prelude.{◌≡◌, ◌≢◌, ◌↔◌, ◌+◌, ◌*◌, ◌^◌, ◌≤◌, ◌<◌, ◌≤ℤ◌, ◌-ℤ◌, ◌==◌, ◌&&◌, ℕ, ℤ, pos, neg_ℤ, int_le};
ghost use Rattle.std.specs.Prelude.{IsTrue, [], filter, length, All, Some, IfOk};
ghost use Rattle.std.specs.Int.{int_div_euclid, int_rem_euclid};
ghost use Rattle.dpl_sets.specs.Ranges.{members_of, IsBound};
ghost use Rattle.dpl_range.specs.Invariant.{IsRange};
ghost use Rattle.dpl_map.specs.AxisFields.{IsAxis};
ghost use Rattle.dpl_map.specs.Grids.{IsGridSize};
ghost use Rattle.dpl_map.specs.Orders.{AreListed, rule_key};
ghost use Rattle.dpl_map.specs.Axes.{IsSingle, cut_rule, owned_of};
ghost use Rattle.dpl_map.specs.Boxes.{IsSteady};
ghost use Rattle.dpl_map.specs.Counts.{AreFewRanges};
ghost use Rattle.dpl_map.specs.Cuts.{behind};
ghost use Rattle.dpl_map.specs.Maps.{axis_coordinate, IsBoxed, Block, Cyclic, BlockCyclic};
ghost use Rattle.dpl_map.specs.Places.{block_place, cyclic_place, block_cyclic_place};

use crate::blocks::{dealt, keep};
use crate::find::Order;
use dpl_domain::Unused;
use dpl_range::{LIMIT, Range};
use std::alloc::{AllocError, Global};
use std::marker::Model;

#[derive(Clone, Copy, Debug, PartialEq, Eq)]
enum Rule {
    Block { low: i64, high: i64 },
    Cyclic { start: i64 },
    BlockCyclic { start: i64, size: i64 },
}

impl Rule {
    // Whether two rules are the same.
    fn is(&self, other: &Rule) -> bool
        ensures { IsTrue result ↔ (self.now ≡ other.now) }
    {
        match (self, other) {
            (
                Rule::Block { low, high },
                Rule::Block {
                    low: from,
                    high: to,
                },
            ) => { low == from && high == to }
            (Rule::Cyclic { start }, Rule::Cyclic { start: from }) => start == from,
            (
                Rule::BlockCyclic { start, size },
                Rule::BlockCyclic {
                    start: from,
                    size: of,
                },
            ) => { start == from && size == of }
            _ => false,
        }
    }
}

/// A rule and an extent: 1 to 64 coordinates, and numbers of the rule within the limits of ranges.
#[derive(Clone, Copy, Debug, PartialEq, Eq)]
pub struct Axis {
    rule: Rule,
    extent: u32,
}

impl Model for Axis {
    ghost use Rattle.dpl_map.specs.Maps.{AxisValue};

    ghost Value = { AxisValue };

    ghost use Rattle.dpl_map.specs.AxisFields.{IsAxis, axis_of, kept_axis, kept_axis-axis_of};

    ghost view = { axis_of };

    ghost invariant = { λ a. IsAxis (axis_of a) };

    ghost inverse = { kept_axis };

    ghost inverse_ok = { kept_axis-axis_of };
}

/// An axis that a map does not have has one coordinate, so that it has no part in the number of locales.
impl Unused for Axis {
    ghost use Rattle.dpl_map.specs.MapFields.{idle};

    ghost unused = { idle };

    fn unused() -> Axis {
        Axis::cyclic(0, 1)
    }
}

impl Axis {
    /// Whether two axes are the same.
    pub fn is(&self, other: &Axis) -> bool
        ensures { IsTrue result ↔ (self.now ≡ other.now) }
    {
        if self.extent != other.extent {
            return false;
        }
        self.rule.is(&other.rule)
    }

    /// The coordinates of a box, cut into blocks that are as equal as can be.
    pub fn block(low: i64, high: i64, extent: u32) -> Axis
        requires low_is_bound { IsBound low }
        requires high_is_bound { IsBound high }
        requires ordered { low ≤ℤ high }
        requires extent { IsGridSize extent }
        ensures axis { result ≡ record { rule = Block low high; extent = extent } }
        ensures limits { IsAxis result }
    {
        Axis {
            rule: Rule::Block { low, high },
            extent,
        }
    }

    /// The coordinates of the box from a range's least member to its greatest.
    pub fn boxed(range: &Range, extent: u32) -> Axis
        requires some { members_of range.now ≢ [] }
        requires extent { IsGridSize extent }
        ensures box_is { IsBoxed range.now extent result }
        ensures limits { IsAxis result }
    {
        let low = range.low().unwrap_or(range.low_bound());
        let high = range.high().unwrap_or(range.high_bound());
        Axis::block(low, high, extent)
    }

    /// The coordinates that go round from a start.
    pub fn cyclic(start: i64, extent: u32) -> Axis
        requires start_is_bound { IsBound start }
        requires extent { IsGridSize extent }
        ensures axis { result ≡ record { rule = Cyclic start; extent = extent } }
        ensures limits { IsAxis result }
    {
        Axis {
            rule: Rule::Cyclic { start },
            extent,
        }
    }

    /// The coordinates that go round from a start, each with a block of a size at a time.
    pub fn block_cyclic(start: i64, size: i64, extent: u32) -> Axis
        requires start_is_bound { IsBound start }
        requires size { pos 1 ≤ℤ size }
        requires extent { IsGridSize extent }
        ensures axis { result ≡ record { rule = BlockCyclic start size; extent = extent } }
        ensures limits { IsAxis result }
    {
        Axis {
            rule: Rule::BlockCyclic { start, size },
            extent,
        }
    }

    /// Over how many coordinates the indices are dealt out.
    pub fn extent(&self) -> u32
        ensures extent { result ≡ self.now.extent }
        ensures limits { IsAxis self.now }
    {
        self.extent
    }

    /// The members of a range that a coordinate owns, as ranges that each have members, in the order of the range. That is one
    /// range, or by the block-cyclic rule no more than a block has offsets, and no more than there are blocks with members
    /// of the coordinate; and it is none where the coordinate owns no member. An axis of one coordinate gives it the whole range,
    /// by each rule as one range.
    ///
    /// # Errors
    /// Out of memory.
    pub fn parts(
        &self,
        alloc: Global,
        range: &Range,
        coordinate: u32,
    ) -> Result<Vec<Range>, AllocError>
        requires { coordinate < self.now.extent }
        ensures cut { IfOk result (λ v. AreListed (cut_rule self.now) (owned_of self.now coordinate range.now) v.items) }
        ensures some { IfOk result (λ v. All (λ r. members_of r ≢ []) v.items) }
        ensures few { IfOk result (λ v. AreFewRanges (cut_rule self.now) (owned_of self.now coordinate range.now) (length v.items)) }
    {
        if self.extent == 1 {
            return sole(alloc, *range);
        }
        if let Rule::BlockCyclic { start, size } = self.rule {
            return dealt(alloc, range, start, size, self.extent, coordinate);
        }
        sole(alloc, self.part(range, coordinate))
    }

    // The members of a range that a coordinate owns by a rule that gives it one range.
    fn part(&self, range: &Range, coordinate: u32) -> Range
        requires coordinate { coordinate < self.now.extent }
        requires single { IsSingle self.now.rule }
        ensures members { members_of result ≡ owned_of self.now coordinate range.now }
        ensures limits { IsRange result }
    {
        if range.size() == 0 {
            return *range;
        }
        match self.rule {
            Rule::Block { low, high } => block_part(range, low, high, self.extent, coordinate),
            Rule::Cyclic { start } => range.class(start, self.extent as u64, coordinate as u64),
            Rule::BlockCyclic { .. } => unreachable!(),
        }
    }

    /// The box, as its low and its high bound, by the block rule. None by another one.
    pub fn bounds(&self) -> Option<(i64, i64)>
        ensures { (low high : ℤ) → (result ≡ Some (low, high)) ↔ (self.now.rule ≡ Block low high) }
    {
        let Rule::Block { low, high } = self.rule else {
            return None;
        };
        Some((low, high))
    }

    /// Where the coordinates begin to go round, by the cyclic rule. None by another one.
    pub fn start(&self) -> Option<i64>
        ensures { (start : ℤ) → (result ≡ Some start) ↔ (self.now.rule ≡ Cyclic start) }
    {
        let Rule::Cyclic { start } = self.rule else {
            return None;
        };
        Some(start)
    }

    /// Whether all integers between two have one coordinate, where that can be told by the two.
    pub fn is_steady(&self, low: i64, high: i64) -> bool
        ensures { IsTrue result → IsSteady self.now low high }
    {
        if self.extent == 1 {
            return true;
        }
        if low == high {
            return true;
        }
        match self.rule {
            Rule::Block { .. } => self.coordinate(low) == self.coordinate(high),
            Rule::Cyclic { .. } => false,
            Rule::BlockCyclic { start, size } => {
                block_of(start, size, low) == block_of(start, size, high)
            }
        }
    }

    /// How many indices from one on, each so far from the one before it, are likely to have one coordinate: those of the block-cyclic rule's
    /// block that has the first one. This is where to look first, and says nothing by itself; `is_steady` tells whether they have.
    pub fn likely(&self, i: i64, step: i64) -> u64 {
        if self.extent == 1 {
            return u64::MAX;
        }
        let Rule::BlockCyclic { start, size } = self.rule else {
            return u64::MAX;
        };
        let below = offset_of(start, size, i) as u64;
        let left = if step < 0 {
            below
        } else {
            (size as u64).saturating_sub(below).saturating_sub(1)
        };
        (left / step.unsigned_abs().max(1)).saturating_add(1)
    }

    /// The coordinate of an index, which may be any number.
    pub fn coordinate(&self, i: i64) -> u32
        ensures coordinate { result ≡ axis_coordinate self.now i }
        ensures below { result < self.now.extent }
        ensures limits { IsAxis self.now }
    {
        if self.extent == 1 {
            return 0;
        }
        match self.rule {
            Rule::Block { low, high } => block_place(low, high, self.extent, i),
            Rule::Cyclic { start } => cyclic_place(start, self.extent, i),
            Rule::BlockCyclic { start, size } => block_cyclic_place(start, size, self.extent, i),
        }
    }

    /// Whether each coordinate has its indices of a range in one range.
    pub fn is_single(&self) -> bool
        ensures { IsTrue result ↔ IsSingle (cut_rule self.now) }
    {
        if self.extent == 1 {
            return true;
        }
        !matches!(self.rule, Rule::BlockCyclic { .. })
    }

    /// The number by which the range of an index stands in the list of ranges that a coordinate has.
    pub fn key(&self, order: Order, i: i64) -> i128
        ensures { result ≡ rule_key order (cut_rule self.now) i }
    {
        if self.extent == 1 {
            return 0;
        }
        let Rule::BlockCyclic { start, size } = self.rule else {
            return 0;
        };
        match order {
            Order::Blocks => block_of(start, size, i),
            Order::Offsets => offset_of(start, size, i),
        }
    }
}

// One range as a list, if it has members.
fn sole(alloc: Global, range: Range) -> Result<Vec<Range>, AllocError>
    ensures { IfOk result (λ v. v.items ≡ behind (members_of range) range []) }
{
    let mut parts = Vec::new(alloc);
    keep(&mut parts, range)?;
    Ok(parts)
}

// The coordinate of an index by the block rule. A box may hold 2^61 + 1 indices, so that the product needs more
// than 64 bits.
fn block_place(low: i64, high: i64, extent: u32, i: i64) -> u32
    requires low_is_bound { IsBound low }
    requires high_is_bound { IsBound high }
    requires ordered { low ≤ℤ high }
    requires extent { IsGridSize extent }
    ensures coordinate { result ≡ block_place low high extent i }
    ensures below { result < extent }
{
    if i < low {
        return 0;
    }
    if high < i {
        return extent - 1;
    }
    let offset = (i - low) as u128;
    let size = (high - low) as u128 + 1;
    (offset * extent as u128 / size) as u32
}

// The members of a range that a coordinate owns by the block rule.
fn block_part(range: &Range, low: i64, high: i64, extent: u32, coordinate: u32) -> Range
    requires low_is_bound { IsBound low }
    requires high_is_bound { IsBound high }
    requires ordered { low ≤ℤ high }
    requires extent { IsGridSize extent }
    requires coordinate { coordinate < extent }
    requires range_limits { IsRange range.now }
    ensures members { members_of result ≡ filter (λ i. block_place low high extent i == coordinate) (members_of range.now) }
    ensures limits { IsRange result }
{
    let from = block_from(low, high, extent, coordinate);
    let to = block_to(low, high, extent, coordinate);
    between(range, from, to)
}

// From which integer on the bounds of ranges go to a coordinate or to a later one by the block rule. What lies
// below the box goes to the first coordinate.
fn block_from(low: i64, high: i64, extent: u32, coordinate: u32) -> i64
    requires low_is_bound { IsBound low }
    requires high_is_bound { IsBound high }
    requires ordered { low ≤ℤ high }
    requires extent { IsGridSize extent }
    requires coordinate { coordinate < extent }
    ensures from { neg_ℤ (pos (2 ^ 60)) ≤ℤ result }
    ensures to { result ≤ℤ pos (2 ^ 60 + 1) }
    ensures owned { (i : ℤ) → IsBound i → (coordinate ≤ block_place low high extent i) ↔ (result ≤ℤ i) }
{
    if coordinate == 0 {
        return -LIMIT;
    }
    let size = (high - low) as u64 + 1;
    low + block_start(size, extent, coordinate) as i64
}

// Up to which integer the bounds of ranges go to a coordinate or to an earlier one by the block rule. What lies
// above the box goes to the last coordinate.
fn block_to(low: i64, high: i64, extent: u32, coordinate: u32) -> i64
    requires low_is_bound { IsBound low }
    requires high_is_bound { IsBound high }
    requires ordered { low ≤ℤ high }
    requires extent { IsGridSize extent }
    requires coordinate { coordinate < extent }
    ensures to { result ≤ℤ pos (2 ^ 60) }
    ensures owned { (i : ℤ) → IsBound i → (block_place low high extent i ≤ coordinate) ↔ (i ≤ℤ result) }
{
    if coordinate + 1 == extent {
        return LIMIT;
    }
    block_from(low, high, extent, coordinate + 1) - 1
}

// How far above the low bound of a box the block of a coordinate begins.
fn block_start(size: u64, extent: u32, coordinate: u32) -> u64
    requires size { size ≤ 2 ^ 61 + 1 }
    requires extent { IsGridSize extent }
    requires coordinate { coordinate ≤ extent }
    ensures reached { coordinate * size ≤ result * extent }
    ensures least { (d : ℕ) → coordinate * size ≤ d * extent → result ≤ d }
    ensures within { result ≤ size }
{
    (coordinate as u128 * size as u128).div_ceil(extent as u128) as u64
}

// The members of a range between two integers, of which one may be past the limits where none are left.
fn between(range: &Range, from: i64, to: i64) -> Range
    requires from { neg_ℤ (pos (2 ^ 60)) ≤ℤ from }
    requires to { to ≤ℤ pos (2 ^ 60) }
    ensures members { members_of result ≡ filter (λ i. int_le from i && int_le i to) (members_of range.now) }
    ensures limits { IsRange result }
{
    if to < from {
        range.slice(1, 0)
    } else {
        range.slice(from, to)
    }
}

// The coordinate of an index by the cyclic rule. An index may be any number, so that the difference needs more
// than 64 bits.
fn cyclic_place(start: i64, extent: u32, i: i64) -> u32
    requires start_is_bound { IsBound start }
    requires extent { IsGridSize extent }
    ensures coordinate { result ≡ cyclic_place start extent i }
    ensures below { result < extent }
{
    (i as i128 - start as i128).rem_euclid(extent as i128) as u32
}

// The block that has an index by the block-cyclic rule, counted from the start.
fn block_of(start: i64, size: i64, i: i64) -> i128
    requires start_is_bound { IsBound start }
    requires size { pos 1 ≤ℤ size }
    ensures { result ≡ int_div_euclid (i -ℤ start) size }
{
    (i as i128 - start as i128).div_euclid(size as i128)
}

// Where an index lies in its block by the block-cyclic rule.
fn offset_of(start: i64, size: i64, i: i64) -> i128
    requires start_is_bound { IsBound start }
    requires size { pos 1 ≤ℤ size }
    ensures { result ≡ int_rem_euclid (i -ℤ start) size }
{
    (i as i128 - start as i128).rem_euclid(size as i128)
}

// The coordinate of an index by the block-cyclic rule.
fn block_cyclic_place(start: i64, size: i64, extent: u32, i: i64) -> u32
    requires start_is_bound { IsBound start }
    requires size { pos 1 ≤ℤ size }
    requires extent { IsGridSize extent }
    ensures coordinate { result ≡ block_cyclic_place start size extent i }
    ensures below { result < extent }
{
    block_of(start, size, i).rem_euclid(extent as i128) as u32
}
