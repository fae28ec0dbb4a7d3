// The ranges of an expanded domain, whose bounds may lie outside the limits of a range.

ghost use Rattle.std.specs.Prelude.{◌≡◌, ◌*◌, ◌-◌, ◌<◌, ◌^◌, ◌↔◌, ◌≤ℤ◌, ◌+ℤ◌, pos, min, length, IsTrue, IsSome, IfSome, unsigned_abs};
ghost use Rattle.dpl_sets.specs.Ranges.{members_of, IsBound};
ghost use Rattle.dpl_sets.specs.Indices.{IsSmall};
ghost use Rattle.dpl_domain.specs.Ranks.{last_of, point, IsPadded};
ghost use Rattle.dpl_sets.specs.Expansions.{moved, expanded, IsUnit, IsBounded, AreUnit, AreBounded};

use crate::product::product;
use crate::{Domain, MOST_INDICES};
use dpl_range::Range;
use std::marker::Model;

/// A range with moved bounds. An `i128` holds the bound of each range moved by each `i64`.
#[derive(Drop)]
struct Moved {
    low: i128,
    high: i128,
    stride: i64,
}

impl Model for Moved {
    ghost use Rattle.dpl_sets.specs.Ranges.{RangeValue};
    ghost use Rattle.dpl_domain.specs.Moved.{IsMoved};

    ghost Value = { RangeValue };

    ghost view = { λ r. record { low = r.low; high = r.high; stride = r.stride } };

    ghost invariant = { λ r. IsMoved (record { low = r.low; high = r.high; stride = r.stride }) };
}

impl Moved {
    // The range with its low bound moved down and its high bound moved up by `k`.
    fn over(range: &Range, k: i64) -> Moved
        ensures { result ≡ moved k range.now }
    {
        let k = k as i128;
        Moved {
            low: range.low_bound() as i128 - k,
            high: range.high_bound() as i128 + k,
            stride: range.stride(),
        }
    }

    // How many members it has, or 2^64 - 1 where it has more.
    fn size(&self) -> u64
        ensures { result ≡ min (length (members_of self.now)) (2 ^ 64 - 1) }
    {
        if self.high < self.low {
            return 0;
        }
        let members = self.span() / self.step() + 1;
        members.min(u64::MAX as u128) as u64
    }

    // How far the high bound lies above the low one.
    fn span(&self) -> u128
        requires { self.now.low ≤ℤ self.now.high }
        ensures span { self.now.low +ℤ pos result ≡ self.now.high }
        ensures short { result < 2 ^ 66 }
    {
        (self.high - self.low) as u128
    }

    // The size of the stride.
    fn step(&self) -> u128
        ensures size { unsigned_abs self.now.stride ≡ result }
        ensures positive { 0 < result }
    {
        self.stride.unsigned_abs() as u128
    }

    // Whether the stride is 1.
    fn is_unit(&self) -> bool
        ensures { IsTrue result ↔ IsUnit self.now }
    {
        self.stride == 1
    }

    // The range itself, where its bounds are within the limits.
    fn range(&self) -> Option<Range>
        requires { IsUnit self.now }
        ensures bounded { IsSome result ↔ IsBounded self.now }
        ensures held { IfSome result (λ r. r ≡ self.now) }
    {
        let low = i64::try_from(self.low).ok()?;
        let high = i64::try_from(self.high).ok()?;
        Range::new(low, high, 1).ok()
    }
}

/// The ranges of an expanded domain. Those that a rank below 3 leaves unused stay as they were.
#[derive(Drop)]
pub(crate) struct Expansion {
    rank: u32,
    outer: Moved,
    middle: Moved,
    inner: Moved,
}

impl Model for Expansion {
    ghost use Rattle.std.specs.Prelude.{List};
    ghost use Rattle.dpl_sets.specs.Ranges.{RangeValue};
    ghost use Rattle.dpl_domain.specs.Ranks.{last_of, point, IsPadded};

    ghost Value = { List RangeValue };

    ghost view = { λ e. last_of e.rank e.outer e.middle e.inner };

    ghost invariant = { λ e. IsPadded point e.rank e.outer e.middle };
}

impl Expansion {
    // The ranges of a domain, each moved by `k`.
    pub(crate) fn over(rank: u32, outer: &Range, middle: &Range, inner: &Range, k: i64) -> Expansion
        requires { IsPadded point rank outer.now middle.now }
        ensures { result ≡ expanded k (last_of rank outer.now middle.now inner.now) }
    {
        Expansion {
            rank,
            outer: Moved::over(outer, if rank < 3 { 0 } else { k }),
            middle: Moved::over(middle, if rank < 2 { 0 } else { k }),
            inner: Moved::over(inner, k),
        }
    }

    // Whether there are at most 2^40 tuples of members.
    pub(crate) fn is_small(&self) -> bool
        ensures { IsTrue result ↔ IsSmall self.now }
    {
        product(self.outer.size(), self.middle.size(), self.inner.size()) <= MOST_INDICES
    }

    // Whether each stride is 1.
    pub(crate) fn is_unit(&self) -> bool
        ensures { IsTrue result ↔ AreUnit self.now }
    {
        self.outer.is_unit() && self.middle.is_unit() && self.inner.is_unit()
    }

    // The domain with these ranges, where their bounds are within the limits.
    pub(crate) fn domain(&self) -> Option<Domain>
        requires small { IsSmall self.now }
        requires unit { AreUnit self.now }
        ensures bounded { IsSome result ↔ AreBounded self.now }
        ensures held { IfSome result (λ d. d ≡ self.now) }
    {
        let outer = self.outer.range()?;
        let middle = self.middle.range()?;
        let inner = self.inner.range()?;
        Some(Domain::last_of(self.rank, outer, middle, inner))
    }
}
