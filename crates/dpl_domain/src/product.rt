// A domain: the product of one to three ranges.

ghost use Rattle.std.specs.Prelude.{All, min, ◌≢◌, ◌*◌, ◌-◌, ◌≡◌, ◌≤◌, ◌<◌, ◌↔◌, ◌^◌, ℕ, pos, [], ◌∷◌, length, slice_get, Contains, IsTrue, IsOk, IfOk};
ghost use Rattle.dpl_sets.specs.Ranges.{members_of};
ghost use Rattle.dpl_sets.specs.Indices.{indices, IsRank, IsSmall};
ghost use Rattle.dpl_domain.specs.Ranks.{last_of, point, IsPadded};
ghost use Rattle.dpl_domain.specs.DomainFields.{line_count, line_size};
ghost use Rattle.dpl_sets.specs.DomainSlices.{sliced_by, AreBounds};
ghost use Rattle.dpl_sets.specs.RangeSlices.{sliced};
ghost use Rattle.dpl_sets.specs.Expansions.{expanded, AreUnit, AreBounded};

use crate::expansion::Expansion;
use crate::{Cursor, Dimensions, Index};
use dpl_range::Range;
use std::marker::Model;
use thiserror::Error;

/// The most indices that a domain may have: 2^40.
pub const MOST_INDICES: u64 = 1 << 40;

/// Why something doesn't make a domain.
#[derive(Clone, Copy, Debug, PartialEq, Eq, Error)]
pub enum DomainFault {
    /// There are not one to three ranges, or not as many as the domain has dimensions.
    #[error("a domain has one to three dimensions")]
    Rank,
    /// There would be more than 2^40 indices.
    #[error("a domain has at most 2^40 indices")]
    Size,
    /// A domain to be expanded has a dimension whose stride is not 1.
    #[error("only a domain of stride 1 can be expanded")]
    Stride,
    /// A moved bound lies outside -2^60..2^60.
    #[error("a bound is outside -2^60..2^60")]
    Bound,
}

/// A product of one to three ranges, seen as the list of these ranges; its indices are the tuples of their
/// members, row by row with the last dimension fastest.
///
/// `==` compares bounds and strides, so it tells apart some domains that are equal in the language (`SameDomain`).
#[derive(Clone, Copy, Debug)]
#[derive_where(PartialEq, Eq)]
pub struct Domain {
    ranges: Dimensions<Range>,
    #[derive_where(skip(EqHashOrd))]
    lines: u64,
    #[derive_where(skip(EqHashOrd))]
    line: u64,
    #[derive_where(skip(EqHashOrd))]
    size: u64,
}

impl Model for Domain {
    ghost use Rattle.std.specs.Prelude.{List};
    ghost use Rattle.dpl_sets.specs.Ranges.{RangeValue};

    ghost Value = { List RangeValue };

    ghost use Rattle.std.specs.Prelude.{length};
    ghost use Rattle.dpl_sets.specs.Indices.{indices};
    ghost use Rattle.dpl_domain.specs.DomainFields.{line_count, line_size, IsDomain};

    ghost view = { λ d. d.ranges };

    ghost invariant = { λ d. IsDomain d.ranges d.lines d.line d.size };

    ghost inverse = { λ v. record { ranges = v; lines = line_count v; line = line_size v; size = length (indices v) } };
}

impl Domain {
    /// The domain with these ranges, if there are one to three of them with at most 2^40 tuples.
    pub fn new(ranges: &[Range]) -> Result<Domain, DomainFault>
        ensures ok { IsOk result ↔ (IsRank ranges.now × IsSmall ranges.now) }
        ensures held { IfOk result (λ d. d ≡ ranges.now) }
        ensures rank { (result ≡ Err DomainFault.Rank) ↔ (¬ IsRank ranges.now) }
        ensures size { (result ≡ Err DomainFault.Size) ↔ (IsRank ranges.now × ¬ IsSmall ranges.now) }
    {
        match Dimensions::new(ranges) {
            Some(ranges) if ranges.rank() > 0 => Domain::checked(ranges),
            _ => Err(DomainFault::Rank),
        }
    }

    // The domain with these ranges, if they have at most 2^40 tuples.
    fn checked(ranges: Dimensions<Range>) -> Result<Domain, DomainFault>
        requires { IsRank ranges }
        ensures ok { IsOk result ↔ IsSmall ranges }
        ensures held { IfOk result (λ d. d ≡ ranges) }
        ensures size { (result ≡ Err DomainFault.Size) ↔ (¬ IsSmall ranges) }
    {
        let (outer, middle, inner) = ranges.places();
        if MOST_INDICES < tuples(&outer, &middle, &inner) {
            return Err(DomainFault::Size);
        }
        Ok(Domain::kept(ranges))
    }

    // The domain with these ranges.
    fn kept(ranges: Dimensions<Range>) -> Domain
        requires rank { IsRank ranges }
        requires small { IsSmall ranges }
        ensures { result ≡ ranges }
    {
        let (outer, middle, inner) = ranges.places();
        Domain {
            ranges,
            lines: middle.size(),
            line: inner.size(),
            size: tuples(&outer, &middle, &inner),
        }
    }

    /// The domain with the last `rank` of three ranges.
    pub fn last_of(rank: u32, outer: Range, middle: Range, inner: Range) -> Domain
        requires from_one { 1 ≤ rank }
        requires to_three { rank ≤ 3 }
        requires small { IsSmall (last_of rank outer middle inner) }
        ensures { result ≡ last_of rank outer middle inner }
    {
        Domain::kept(Dimensions::last_of(rank, outer, middle, inner))
    }

    /// How many dimensions the domain has.
    pub fn rank(&self) -> u32
        ensures rank { result ≡ length self.now }
        ensures limits { IsRank self.now }
    {
        self.ranges.rank()
    }

    /// The range of dimension `d`, counted from 0, if there is one.
    pub fn dim(&self, d: u32) -> Option<Range>
        ensures { result ≡ slice_get self.now d }
    {
        self.ranges.get(d)
    }

    /// The ranges as three, the last one last. Those in front that the domain does not have are `0..0`.
    pub fn ranges(&self) -> (Range, Range, Range)
        ensures ranges { self.now ≡ last_of (length self.now) result.0 result.1 result.2 }
        ensures unused { IsPadded point (length self.now) result.0 result.1 }
        ensures small { IsSmall self.now }
    {
        self.ranges.places()
    }

    /// How many indices the domain has.
    pub fn size(&self) -> u64
        ensures size { result ≡ length (indices self.now) }
        ensures small { IsSmall self.now }
    {
        self.size
    }

    /// The index at place `k`, counted from 0, if there are that many.
    pub fn nth(&self, k: u64) -> Option<Index>
        ensures { result ≡ slice_get (indices self.now) k }
    {
        let (outer, middle, inner) = self.ranges();
        let lines = self.lines();
        let line = self.line();
        if lines == 0 || line == 0 {
            return None;
        }
        let row = k / line;
        let outer = outer.nth(row / lines)?;
        let middle = middle.nth(row % lines)?;
        let inner = inner.nth(k % line)?;
        Some(Index::padded(self.rank(), outer, middle, inner))
    }

    /// The place of `index`, counted from 0, if it is an index of the domain.
    pub fn place(&self, index: Index) -> Option<u64>
        ensures { (k : ℕ) → (result ≡ Some k) ↔ (slice_get (indices self.now) k ≡ Some index) }
    {
        let (outer, middle, inner) = self.ranges();
        let rank = self.rank();
        if index.rank() != rank {
            return None;
        }
        let (x, y, z) = index.numbers();
        if rank == 1 {
            return inner.place(z);
        }
        let q = middle.place(y)?;
        let r = inner.place(z)?;
        if rank == 2 {
            return Some(q * self.line() + r);
        }
        let p = outer.place(x)?;
        Some((p * self.lines() + q) * self.line() + r)
    }

    // How many lines a plane has: the size of the last dimension but one.
    fn lines(&self) -> u64
        ensures { result ≡ line_count self.now }
    {
        self.lines
    }

    // How many indices a line has: the size of the last dimension.
    fn line(&self) -> u64
        ensures { result ≡ line_size self.now }
    {
        self.line
    }

    /// Whether `index` is an index of the domain.
    pub fn contains(&self, index: Index) -> bool
        ensures { IsTrue result ↔ Contains (indices self.now) index }
    {
        self.place(index).is_some()
    }

    /// A walk over the indices, one after another.
    pub fn cursor(&self) -> Cursor
        ensures { result ≡ indices self.now }
    {
        let (outer, middle, inner) = self.ranges();
        Cursor::over(self.rank(), &outer, &middle, &inner)
    }

    /// The domain with each low bound moved down by `k` and each high bound moved up by `k`, which may be below
    /// 0. Whether the moved bounds make too many indices is asked first, as though there were no limits to
    /// bounds; then whether each stride is 1, and at last whether the moved bounds lie within the limits.
    pub fn expand(&self, k: i64) -> Result<Domain, DomainFault>
        ensures ok { IsOk result ↔ (IsSmall (expanded k self.now) × AreUnit (expanded k self.now) × AreBounded (expanded k self.now)) }
        ensures held { IfOk result (λ d. d ≡ expanded k self.now) }
        ensures size { (result ≡ Err DomainFault.Size) ↔ (¬ IsSmall (expanded k self.now)) }
        ensures stride { (result ≡ Err DomainFault.Stride) ↔ (IsSmall (expanded k self.now) × ¬ AreUnit (expanded k self.now)) }
        ensures bound { (result ≡ Err DomainFault.Bound) ↔ (IsSmall (expanded k self.now) × AreUnit (expanded k self.now)
            × ¬ AreBounded (expanded k self.now)) }
    {
        let (outer, middle, inner) = self.ranges();
        let moved = Expansion::over(self.rank(), &outer, &middle, &inner, k);
        if !moved.is_small() {
            return Err(DomainFault::Size);
        }
        if !moved.is_unit() {
            return Err(DomainFault::Stride);
        }
        moved.domain().ok_or(DomainFault::Bound)
    }

    /// The domain whose dimensions are those of this one, each sliced between its own low and high bound.
    pub fn slice(&self, bounds: &[(i64, i64)]) -> Result<Domain, DomainFault>
        requires { All AreBounds bounds.now }
        ensures ok { IsOk result ↔ (length bounds.now ≡ length self.now) }
        ensures slices { IfOk result (λ d. d ≡ sliced_by self.now bounds.now) }
        ensures rank { (result ≡ Err DomainFault.Rank) ↔ (length bounds.now ≢ length self.now) }
    {
        if bounds.len() != self.rank() as usize {
            return Err(DomainFault::Rank);
        }
        let (outer, middle, inner) = self.ranges();
        match bounds {
            [last] => Ok(Domain::last_of(1, outer, middle, slice_of(&inner, *last))),
            [second, last] => Ok(Domain::last_of(
                2,
                outer,
                slice_of(&middle, *second),
                slice_of(&inner, *last),
            )),
            [first, second, last] => {
                Ok(Domain::last_of(
                    3,
                    slice_of(&outer, *first),
                    slice_of(&middle, *second),
                    slice_of(&inner, *last),
                ))
            }
            _ => Err(DomainFault::Rank),
        }
    }
}

// The slice of a range between two bounds.
fn slice_of(range: &Range, bounds: (i64, i64)) -> Range
    requires { AreBounds bounds }
    ensures slice { result ≡ sliced bounds.0 bounds.1 range.now }
    ensures fewer { length (members_of result) ≤ length (members_of range.now) }
{
    range.slice(bounds.0, bounds.1)
}

// How many tuples three ranges have, or 2^64 - 1 where there are more.
fn tuples(outer: &Range, middle: &Range, inner: &Range) -> u64
    ensures exact { length (members_of outer.now) * length (members_of middle.now) * length (members_of inner.now) ≤ 2 ^ 40 → result
        ≡ length (members_of outer.now) * length (members_of middle.now) * length (members_of inner.now) }
    ensures more { 2 ^ 40 < length (members_of outer.now) * length (members_of middle.now) * length (members_of inner.now) → 2 ^ 40 < result }
{
    product(outer.size(), middle.size(), inner.size())
}

// The product of three numbers, or 2^64 - 1 where it is more.
pub(crate) fn product(outer: u64, middle: u64, inner: u64) -> u64
    ensures { result ≡ min (outer * middle * inner) (2 ^ 64 - 1) }
{
    outer.saturating_mul(middle).saturating_mul(inner)
}
