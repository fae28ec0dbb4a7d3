// Maps: who owns an index.

ghost use Rattle.std.specs.Prelude.{◌≡◌, ◌≢◌, ◌*◌, ◌≤◌, ◌<◌, ◌↔◌, List, [], ℕ, ℤ, pos};
ghost use Rattle.std.specs.Prelude.{Contains, length, slice_get, All, Some, IsTrue, IsOk, IfOk};
ghost use Rattle.dpl_sets.specs.Indices.{indices, IsRank};
ghost use Rattle.dpl_domain.specs.Ranks.{last_of, IsPadded};
ghost use Rattle.dpl_sets.specs.Ranges.{RangeValue, IsBound};
ghost use Rattle.dpl_map.specs.AxisFields.{IsAxis};
ghost use Rattle.dpl_map.specs.MapFields.{IsMap};
ghost use Rattle.dpl_map.specs.Maps.{Block, Cyclic, owner, locales, whole_map, cyclic_map, block_cyclic_map, IsBlocksize, IsBlockMap};
ghost use Rattle.dpl_map.specs.Boxes.{AreBetween};
ghost use Rattle.dpl_map.specs.Parts.{part};

use crate::Grid;
use crate::axis::Axis;
use dpl_domain::{Dimensions, Domain, Index};
use dpl_range::LIMIT;
use std::marker::Model;
use thiserror::Error;

/// Why something makes no map.
#[derive(Clone, Copy, Debug, PartialEq, Eq, Error)]
pub enum MapFault {
    /// The box of a block map is empty.
    #[error("the box is empty")]
    Empty,
    /// A coordinate of a start lies outside -2^60..2^60.
    #[error("the start is outside -2^60..2^60")]
    Start,
    /// There are not as many dimensions as the grid has.
    #[error("the grid has another number of dimensions")]
    Rank,
    /// A block is to have fewer than one index.
    #[error("a block has at least one index")]
    Blocksize,
}

/// Who owns an index, seen as the list of the map's axes: how each dimension is dealt out over an extent of a
/// grid. The whole map has none.
#[derive(Clone, Copy, Debug, PartialEq, Eq)]
pub struct Map {
    axes: Dimensions<Axis>,
}

impl Model for Map {
    ghost use Rattle.std.specs.Prelude.{List};
    ghost use Rattle.dpl_map.specs.Maps.{AxisValue};

    ghost Value = { List AxisValue };

    ghost use Rattle.dpl_map.specs.MapFields.{AreAxes};

    ghost view = { λ m. m.axes };

    ghost invariant = { λ m. AreAxes m.axes };

    ghost inverse = { λ v. record { axes = v } };
}

impl Map {
    /// The map that puts every index on locale 0, the only one that it has.
    pub fn whole() -> Map
        ensures { result ≡ whole_map }
    {
        Map {
            axes: Dimensions::none(),
        }
    }

    /// Block: the domain's least and greatest members in each dimension are a box, which is dealt out in blocks
    /// over the grid.
    pub fn block(domain: &Domain, grid: Grid) -> Result<Map, MapFault>
        ensures ok { IsOk result ↔ ((indices domain.now ≢ []) × (length domain.now ≡ length grid)) }
        ensures held { IfOk result (IsBlockMap domain.now grid) }
        ensures empty { (result ≡ Err MapFault.Empty) ↔ (indices domain.now ≡ []) }
        ensures rank { (result ≡ Err MapFault.Rank) ↔ ((indices domain.now ≢ []) × (length domain.now ≢ length grid)) }
    {
        if domain.size() == 0 {
            return Err(MapFault::Empty);
        }
        if domain.rank() != grid.rank() {
            return Err(MapFault::Rank);
        }
        let (outer, middle, inner) = grid.extents();
        let (first, second, last) = domain.ranges();
        Ok(Map::of(
            domain.rank(),
            Axis::boxed(&first, outer),
            Axis::boxed(&second, middle),
            Axis::boxed(&last, inner),
        ))
    }

    /// Cyclic: each dimension goes round the locales of the grid from a coordinate of the start.
    pub fn cyclic(start: Index, grid: Grid) -> Result<Map, MapFault>
        ensures ok { IsOk result ↔ (All IsBound start × (length start ≡ length grid)) }
        ensures held { IfOk result (λ axes. axes ≡ cyclic_map start grid) }
        ensures start { (result ≡ Err MapFault.Start) ↔ (¬ All IsBound start) }
        ensures rank { (result ≡ Err MapFault.Rank) ↔ (All IsBound start × (length start ≢ length grid)) }
    {
        let (first, second, last) = start.numbers();
        if !are_bounds(first, second, last) {
            return Err(MapFault::Start);
        }
        if start.rank() != grid.rank() {
            return Err(MapFault::Rank);
        }
        let (outer, middle, inner) = grid.extents();
        Ok(Map::of(
            start.rank(),
            Axis::cyclic(first, outer),
            Axis::cyclic(second, middle),
            Axis::cyclic(last, inner),
        ))
    }

    /// Block-cyclic: each dimension goes round the locales of the grid from a coordinate of the start, in blocks of a
    /// size of its own.
    pub fn block_cyclic(start: Index, sizes: Index, grid: Grid) -> Result<Map, MapFault>
        ensures ok { IsOk result ↔ (All IsBound start × (length start ≡ length grid) × (length sizes ≡ length grid) × All IsBlocksize sizes) }
        ensures held { IfOk result (λ axes. axes ≡ block_cyclic_map start sizes grid) }
        ensures start { (result ≡ Err MapFault.Start) ↔ (¬ All IsBound start) }
        ensures rank { (result ≡ Err MapFault.Rank) ↔ (All IsBound start × ¬ ((length start ≡ length grid) × (length sizes ≡ length grid))) }
        ensures blocksize { (result ≡ Err MapFault.Blocksize)
            ↔ (All IsBound start × (length start ≡ length grid) × (length sizes ≡ length grid) × ¬ All IsBlocksize sizes) }
    {
        if !is_start(start) {
            return Err(MapFault::Start);
        }
        if start.rank() != grid.rank() || sizes.rank() != grid.rank() {
            return Err(MapFault::Rank);
        }
        if !are_sizes(sizes) {
            return Err(MapFault::Blocksize);
        }
        Ok(Map::in_blocks(start, sizes, grid))
    }

    // The block-cyclic map from a start, in blocks of these sizes.
    fn in_blocks(start: Index, sizes: Index, grid: Grid) -> Map
        requires start { All IsBound start }
        requires sizes { All IsBlocksize sizes }
        requires rank { length start ≡ length grid }
        requires rank_of_sizes { length sizes ≡ length grid }
        ensures { result ≡ block_cyclic_map start sizes grid }
    {
        let (outer, middle, inner) = grid.extents();
        let (first, second, last) = start.numbers();
        let (outer_size, middle_size, inner_size) = padded_sizes(sizes);
        Map::of(
            start.rank(),
            Axis::block_cyclic(first, outer_size, outer),
            Axis::block_cyclic(second, middle_size, middle),
            Axis::block_cyclic(last, inner_size, inner),
        )
    }

    // The map with the last `rank` of three axes.
    fn of(rank: u32, outer: Axis, middle: Axis, inner: Axis) -> Map
        requires from_one { 1 ≤ rank }
        requires to_three { rank ≤ 3 }
        requires outer_limits { IsAxis outer }
        requires middle_limits { IsAxis middle }
        requires inner_limits { IsAxis inner }
        requires size { outer.extent * middle.extent * inner.extent ≤ 64 }
        ensures { result ≡ last_of rank outer middle inner }
    {
        Map {
            axes: Dimensions::last_of(rank, outer, middle, inner),
        }
    }

    /// Three axes, of which the map has the last ones. Those in front have one coordinate.
    pub(crate) fn axes(&self) -> (Axis, Axis, Axis)
        ensures axes { self.now ≡ last_of (length self.now) result.0 result.1 result.2 }
        ensures limits { IsMap (length self.now) result.0 result.1 result.2 }
    {
        self.axes.places()
    }

    /// Whether two maps are the same.
    pub fn is(&self, other: &Map) -> bool
        ensures { IsTrue result ↔ (self.now ≡ other.now) }
    {
        if self.rank() != other.rank() {
            return false;
        }
        let (outer, middle, inner) = self.axes();
        let (first, second, last) = other.axes();
        if !outer.is(&first) {
            return false;
        }
        if !middle.is(&second) {
            return false;
        }
        inner.is(&last)
    }

    /// How many dimensions the map deals out: the rank of its grid, or 0.
    pub fn rank(&self) -> u32
        ensures { result ≡ length self.now }
    {
        self.axes.rank()
    }

    /// The box that dimension `d`, counted from 0, deals out by the block rule, as its low and its high bound, and over how many
    /// coordinates it is dealt out. None by another rule, and where the map has no such dimension.
    pub fn boxed(&self, d: u32) -> Option<(i64, i64, u32)>
        ensures { (low high : ℤ) (n : ℕ) → (result ≡ Some (low, high, n)) ↔ (slice_get self.now d ≡ Some (record { rule = Block low high; extent = n })) }
    {
        let axis = self.axes.get(d)?;
        let (low, high) = axis.bounds()?;
        Some((low, high, axis.extent()))
    }

    /// Where dimension `d`, counted from 0, begins to go round by the cyclic rule, and over how many coordinates it is dealt out. None by
    /// another rule, and where the map has no such dimension.
    pub fn round(&self, d: u32) -> Option<(i64, u32)>
        ensures { (start : ℤ) (n : ℕ) → (result ≡ Some (start, n)) ↔ (slice_get self.now d ≡ Some (record { rule = Cyclic start; extent = n })) }
    {
        let axis = self.axes.get(d)?;
        let start = axis.start()?;
        Some((start, axis.extent()))
    }

    /// How many locales the map has: those of its grid, or one. Each tuple is owned by one of them, so the parts of a
    /// domain have no tuple in common and together are the domain.
    pub fn locales(&self) -> u32
        ensures locales { result ≡ locales self.now }
        ensures owners { (t : List ℤ) → owner self.now t < result }
        ensures apart { (ranges : List RangeValue) (t : List ℤ) (j k : ℕ) → Contains (part ranges self.now j) t → Contains (part ranges self.now k) t → j ≡ k }
        ensures together { (ranges : List RangeValue) (t : List ℤ) → Contains (indices ranges) t → (k : ℕ) × (k < result)
            × Contains (part ranges self.now k) t }
        ensures most { result ≤ 64 }
        ensures limits { All IsAxis self.now }
    {
        let (outer, middle, inner) = self.axes();
        outer.extent() * middle.extent() * inner.extent()
    }

    /// The locale that owns an index, which may be of any rank and have any coordinates. One of another rank
    /// than the map's is owned by locale 0.
    pub fn owner(&self, index: Index) -> u32
        ensures owner { result ≡ owner self.now index }
        ensures below { result < locales self.now }
    {
        let (outer, middle, inner) = self.axes();
        if index.rank() != self.rank() {
            return 0;
        }
        let (x, y, z) = index.numbers();
        let row = outer.coordinate(x) * middle.extent() + middle.coordinate(y);
        row * inner.extent() + inner.coordinate(z)
    }

    /// How many indices from one on, each so far from the one before it in the last dimension, are likely to have one owner. This is where to
    /// look first, and says nothing by itself; `owns_between` tells whether they have.
    pub fn likely(&self, index: Index, step: i64) -> u64 {
        let (_, _, inner) = self.axes();
        let (_, _, last) = index.numbers();
        inner.likely(last, step)
    }

    /// Whether a locale owns all indices between two, which have the least and the greatest number of each dimension. It looks at
    /// the two alone: of dimensions that are dealt out by blocks or not at all, or in which the two have one number, it answers exactly, and
    /// by the block-cyclic rule yes where the two lie in one block. Else it may answer no of a locale that owns them.
    pub fn owns_between(&self, low: Index, high: Index, locale: u32) -> bool
        ensures { IsTrue result → (t : List ℤ) → AreBetween low t high → owner self.now t ≡ locale }
    {
        if low.rank() != self.rank() {
            return locale == 0;
        }
        let (outer, middle, inner) = self.axes();
        let (x, y, z) = low.numbers();
        let (u, v, w) = high.numbers();
        if !outer.is_steady(x, u) || !middle.is_steady(y, v) || !inner.is_steady(z, w) {
            return false;
        }
        self.owner(low) == locale
    }
}

// Whether each of three numbers may be a bound of a range.
fn are_bounds(first: i64, second: i64, last: i64) -> bool
    ensures { IsTrue result ↔ (IsBound first × IsBound second × IsBound last) }
{
    is_bound(first) && is_bound(second) && is_bound(last)
}

// Whether a number may be a bound of a range.
fn is_bound(i: i64) -> bool
    ensures { IsTrue result ↔ IsBound i }
{
    -LIMIT <= i && i <= LIMIT
}

// The sizes of blocks as three numbers, the last one last. Those in front that an index does not have are 1.
fn padded_sizes(sizes: Index) -> (i64, i64, i64)
    ensures sizes { sizes ≡ last_of (length sizes) result.0 result.1 result.2 }
    ensures unused { IsPadded (pos 1) (length sizes) result.0 result.1 }
{
    let (outer, middle, inner) = sizes.numbers();
    match sizes.rank() {
        1 => (1, 1, inner),
        2 => (1, middle, inner),
        _ => (outer, middle, inner),
    }
}

// Whether each coordinate may be a bound of a range.
fn is_start(start: Index) -> bool
    ensures { IsTrue result ↔ All IsBound start }
{
    let (first, second, last) = start.numbers();
    are_bounds(first, second, last)
}

// Whether each coordinate may be the size of a block.
fn are_sizes(sizes: Index) -> bool
    ensures { IsTrue result ↔ All IsBlocksize sizes }
{
    let (outer, middle, inner) = padded_sizes(sizes);
    are_blocksizes(outer, middle, inner)
}

// Whether each of three numbers may be the size of a block.
fn are_blocksizes(outer: i64, middle: i64, inner: i64) -> bool
    ensures { IsTrue result ↔ (IsBlocksize outer × IsBlocksize middle × IsBlocksize inner) }
{
    1 <= outer && 1 <= middle && 1 <= inner
}
