// The ranges of the language: a low bound, a high bound and a stride, which stand for a list of integers.
// Contracts speak of that list. The code never makes it, and goes by the three numbers.
#![tactic(auto)]

ghost use Rattle.std.specs.Prelude.{◌≡◌, ◌*◌, neg_ℤ, drop, ◌↔◌, ◌⊎◌, ◌≤◌, ◌<◌, ◌^◌, ℕ, ℤ, pos, ◌+ℤ◌, ◌-ℤ◌, ◌-◌, ◌&&◌, filter, int_le, [], All, Contains};
ghost use Rattle.std.specs.Prelude.{IsNone, ◌<ℤ◌, ◌≤ℤ◌, length, slice_get, IsTrue, IsOk, IfOk, IfSome, IfNone, MatchOption, unsigned_abs};
ghost use Rattle.std.specs.Int.{int_max, int_min, int_rem_euclid};
ghost use Rattle.dpl_range.specs.Congruence.{is_congruent};
ghost use Rattle.dpl_sets.specs.Members.{every};
ghost use Rattle.dpl_sets.specs.Ranges.{members_of, IsBound, IsStride};
ghost use Rattle.dpl_sets.specs.RangeSlices.{members_within, begun_with, sliced};
ghost use Rattle.dpl_range.specs.Invariant.{IsRange};
ghost use Rattle.dpl_range.specs.Walk.{walked, nearer, begun, ahead, SameWay};

mod progression;

use progression::{first_multiple, period};
use std::marker::Model;
use thiserror::Error;

/// The greatest size of a bound, and of a stride that is handed in: 2^60.
pub const LIMIT: i64 = 1 << 60;

/// Why three numbers don't make a range.
#[derive(Clone, Copy, Debug, PartialEq, Eq, Error)]
pub enum RangeFault {
    /// A bound lies outside -2^60..2^60.
    #[error("a bound is outside -2^60..2^60")]
    Bound,
    /// Both bounds lie within -2^60..2^60, and the stride is 0 or past 2^60 in size.
    #[error("the stride is not from 1 to 2^60 in size")]
    Stride,
}

/// A range of integers: those from a low bound to a high bound, of which a stride above 0 keeps every
/// stride-th from the lowest up, and a stride below 0 from the highest down.
///
/// `==` compares the three numbers, so it tells apart some ranges that are equal in the language (`SameRange`).
#[derive(Clone, Copy, Debug, PartialEq, Eq)]
pub struct Range {
    low: i64,
    high: i64,
    stride: i64,
}

impl Model for Range {
    ghost use Rattle.dpl_sets.specs.Ranges.{RangeValue};
    ghost use Rattle.dpl_range.specs.Invariant.{IsRange};

    ghost Value = { RangeValue };

    ghost view = { λ r. record { low = r.low; high = r.high; stride = r.stride } };

    ghost invariant = { λ r. IsRange (record { low = r.low; high = r.high; stride = r.stride }) };

    ghost inverse = { λ v. record { low = v.low; high = v.high; stride = v.stride } };
}

impl Range {
    /// The range with these bounds and this stride, which are kept as they are handed in.
    pub fn new(low: i64, high: i64, stride: i64) -> Result<Range, RangeFault>
        ensures ok { IsOk result ↔ (IsBound low × IsBound high × IsStride stride) }
        ensures held { IfOk result (λ r. r ≡ record { low = low; high = high; stride = stride }) }
        ensures bound { (result ≡ Err RangeFault.Bound) ↔ (¬ (IsBound low × IsBound high)) }
        ensures stride { (result ≡ Err RangeFault.Stride) ↔ (IsBound low × IsBound high × ¬ IsStride stride) }
    {
        if !is_bound(low) || !is_bound(high) {
            return Err(RangeFault::Bound);
        }
        if !is_stride(stride) {
            return Err(RangeFault::Stride);
        }
        Ok(Range { low, high, stride })
    }

    /// How many members the range has.
    pub fn size(&self) -> u64
        ensures length { result ≡ length (members_of self.now) }
        ensures limits { IsRange self.now }
    {
        if self.high < self.low {
            return 0;
        }
        if self.stride == 1 {
            self.span() + 1
        } else {
            self.span() / self.step() + 1
        }
    }

    /// The member at place `k`, counted from 0, if there are that many.
    pub fn nth(&self, k: u64) -> Option<i64>
        ensures { result ≡ slice_get (members_of self.now) k }
    {
        if self.size() <= k {
            return None;
        }
        let offset = if self.stride == 1 { k } else { k * self.step() };
        Some(self.walked(offset))
    }

    /// The place of the member `i`, counted from 0, if `i` is a member.
    pub fn place(&self, i: i64) -> Option<u64>
        ensures { (k : ℕ) → (result ≡ Some k) ↔ (slice_get (members_of self.now) k ≡ Some i) }
    {
        if i < self.low || self.high < i {
            return None;
        }
        if self.stride == 1 {
            return Some((i - self.low) as u64);
        }
        let offset = self.offset(i);
        let step = self.step();
        if offset % step == 0 {
            Some(offset / step)
        } else {
            None
        }
    }

    /// Whether `i` is a member.
    pub fn contains(&self, i: i64) -> bool
        ensures { IsTrue result ↔ Contains (members_of self.now) i }
    {
        self.place(i).is_some()
    }

    /// The member that the list begins with, if there is one.
    pub fn first(&self) -> Option<i64>
        ensures { result ≡ slice_get (members_of self.now) 0 }
    {
        self.nth(0)
    }

    /// The member that the list ends with, if there is one.
    pub fn last(&self) -> Option<i64>
        ensures { result ≡ slice_get (members_of self.now) (length (members_of self.now) - 1) }
    {
        self.nth(self.size().saturating_sub(1))
    }

    /// The smallest member, if there is one. A stride may keep the low bound from being a member.
    pub fn low(&self) -> Option<i64>
        ensures empty { IsNone result ↔ (members_of self.now ≡ []) }
        ensures member { IfSome result (Contains (members_of self.now)) }
        ensures least { IfSome result (λ i. All (λ j. i ≤ℤ j) (members_of self.now)) }
    {
        if self.stride > 0 {
            self.first()
        } else {
            self.last()
        }
    }

    /// The greatest member, if there is one. A stride may keep the high bound from being a member.
    pub fn high(&self) -> Option<i64>
        ensures empty { IsNone result ↔ (members_of self.now ≡ []) }
        ensures member { IfSome result (Contains (members_of self.now)) }
        ensures greatest { IfSome result (λ i. All (λ j. j ≤ℤ i) (members_of self.now)) }
    {
        if self.stride > 0 {
            self.last()
        } else {
            self.first()
        }
    }

    /// The low bound, which a stride may keep from being a member.
    pub fn low_bound(&self) -> i64
        ensures bound { result ≡ self.now.low }
        ensures limits { IsRange self.now }
    {
        self.low
    }

    /// The high bound, which a stride may keep from being a member.
    pub fn high_bound(&self) -> i64
        ensures bound { result ≡ self.now.high }
        ensures limits { IsRange self.now }
    {
        self.high
    }

    /// The stride: above 0 the members rise, below 0 they fall.
    pub fn stride(&self) -> i64
        ensures stride { result ≡ self.now.stride }
        ensures limits { IsRange self.now }
    {
        self.stride
    }

    /// The members between `low` and `high`, in the order of the range. A range of stride 1 keeps, of its own
    /// bounds and these two, the greater low and the lesser high one, also where no member is left. Any other
    /// begins with the first member that is left, and is `1..0` by its stride where none is.
    pub fn slice(&self, low: i64, high: i64) -> Range
        requires low_is_bound { IsBound low }
        requires high_is_bound { IsBound high }
        ensures value { result ≡ sliced low high self.now }
        ensures members { members_of result ≡ members_within low high self.now }
        ensures stride { result.stride ≡ self.now.stride }
        ensures low { self.now.stride ≡ pos 1 → result.low ≡ int_max self.now.low low }
        ensures high { self.now.stride ≡ pos 1 → result.high ≡ int_min self.now.high high }
        ensures limits { IsRange result }
    {
        let low = self.low.max(low);
        let high = self.high.min(high);
        if self.stride == 1 {
            return Range::unit(low, high);
        }
        if high < low {
            return self.none();
        }
        self.cut(low, high)
    }

    // The members between two bounds that lie within the range's own.
    fn cut(&self, low: i64, high: i64) -> Range
        requires low { self.now.low ≤ℤ low }
        requires ordered { low ≤ℤ high }
        requires high { high ≤ℤ self.now.high }
        ensures value { result ≡ begun_with (members_within low high self.now) (record self.now { low = low; high = high }) }
        ensures members { members_of result ≡ members_within low high self.now }
        ensures stride { result.stride ≡ self.now.stride }
        ensures limits { IsRange result }
    {
        let far = self.nearer(high, low);
        let begin = self
            .offset(self.nearer(low, high))
            .next_multiple_of(self.step());
        if self.offset(far) < begin {
            return self.none();
        }
        self.begun(begin, far, self.stride)
    }

    // The integers from `low` to `high`.
    fn unit(low: i64, high: i64) -> Range
        requires low_is_bound { IsBound low }
        requires high_is_bound { IsBound high }
        ensures value { result ≡ record { low = low; high = high; stride = pos 1 } }
        ensures limits { IsRange result }
    {
        Range {
            low,
            high,
            stride: 1,
        }
    }

    // A range of the same stride with no members.
    fn none(&self) -> Range
        ensures value { result ≡ record { low = pos 1; high = pos 0; stride = self.now.stride } }
        ensures limits { IsRange result }
    {
        Range {
            low: 1,
            high: 0,
            stride: self.stride,
        }
    }

    // The one of two bounds at which a walk between them begins.
    fn nearer(&self, low: i64, high: i64) -> i64
        ensures { result ≡ nearer self.now.stride low high }
    {
        if self.stride > 0 { low } else { high }
    }

    /// The members that are congruent to `start + r` modulo `n`, in the order of the range. The stride of the
    /// result is at most 2^61 in size, and 1 or -1 where it has fewer than two members.
    pub fn class(&self, start: i64, n: u64, r: u64) -> Range
        requires start_is_bound { IsBound start }
        requires modulus { n ≤ 2 ^ 61 }
        requires remainder { r < n }
        ensures members { members_of result ≡ filter (is_congruent n (start +ℤ pos r)) (members_of self.now) }
        ensures short { length (members_of result) < 2 → unsigned_abs result.stride ≡ 1 }
        ensures limits { IsRange result }
    {
        let step = self.step() % n;
        let gap = self.gap(start + r as i64, n);
        match first_multiple(gap, step, n) {
            Some(skipped) if skipped < self.size() => self.every(skipped, period(step, n)),
            _ => Range::unit(1, 0),
        }
    }

    // The member at `skipped` and each `period`-th after it.
    fn every(&self, skipped: u64, period: u64) -> Range
        requires skipped { skipped < length (members_of self.now) }
        requires positive { 0 < period }
        ensures members { members_of result ≡ every period (drop skipped (members_of self.now)) }
        ensures short { length (members_of result) < 2 → unsigned_abs result.stride ≡ 1 }
        ensures limits { IsRange result }
    {
        let offset = skipped * self.step();
        if self.size() - skipped <= period {
            let only = self.walked(offset);
            return Range::unit(only, only);
        }
        self.begun(
            offset,
            self.nearer(self.high, self.low),
            self.lengthened(period),
        )
    }

    // The stride `period` times.
    fn lengthened(&self, period: u64) -> i64
        requires positive { 0 < period }
        requires short { unsigned_abs self.now.stride * period ≤ 2 ^ 61 }
        ensures size { unsigned_abs result ≡ unsigned_abs self.now.stride * period }
        ensures way { SameWay self.now.stride result }
    {
        self.stride * period as i64
    }

    // How far, modulo `n`, the first integer of a walk lies past one that is congruent to `c`.
    fn gap(&self, c: i64, n: u64) -> u64
        requires positive { 0 < n }
        requires modulus { n ≤ 2 ^ 61 }
        requires low { neg_ℤ (pos (2 ^ 62)) ≤ℤ c }
        requires high { c ≤ℤ pos (2 ^ 62) }
        ensures gap { int_rem_euclid (ahead self.now.low self.now.high self.now.stride c) (pos n) ≡ pos result }
        ensures below { result < n }
    {
        self.ahead(c).rem_euclid(n as i64) as u64
    }

    // How far the first integer of a walk lies past `c` in the direction of the walk.
    fn ahead(&self, c: i64) -> i64
        requires low { neg_ℤ (pos (2 ^ 62)) ≤ℤ c }
        requires high { c ≤ℤ pos (2 ^ 62) }
        ensures { result ≡ ahead self.now.low self.now.high self.now.stride c }
    {
        if self.stride > 0 {
            self.low - c
        } else {
            c - self.high
        }
    }

    // How far the high bound lies above the low one.
    fn span(&self) -> u64
        requires { self.now.low ≤ℤ self.now.high }
        ensures span { self.now.low +ℤ pos result ≡ self.now.high }
        ensures limits { IsRange self.now }
    {
        (self.high - self.low) as u64
    }

    // The size of the stride.
    fn step(&self) -> u64
        ensures size { unsigned_abs self.now.stride ≡ result }
        ensures positive { 0 < result }
        ensures short { result ≤ 2 ^ 61 }
        ensures limits { IsRange self.now }
    {
        self.stride.unsigned_abs()
    }

    // The integer that stands `offset` after the first one of a walk from bound to bound.
    fn walked(&self, offset: u64) -> i64
        requires { (self.now.low +ℤ pos offset) ≤ℤ self.now.high }
        ensures { result ≡ walked self.now.low self.now.high self.now.stride offset }
    {
        if self.stride > 0 {
            self.low + offset as i64
        } else {
            self.high - offset as i64
        }
    }

    // The range that begins `offset` after this one, ends at the bound `far` and goes the same way.
    fn begun(&self, offset: u64, far: i64, stride: i64) -> Range
        requires within { (self.now.low +ℤ pos offset) ≤ℤ self.now.high }
        requires far_is_bound { IsBound far }
        requires stride_is_not_zero { 0 < unsigned_abs stride }
        requires stride_is_short { unsigned_abs stride ≤ 2 ^ 61 }
        ensures value { result ≡ begun self.now offset far stride }
        ensures limits { IsRange result }
    {
        let near = self.walked(offset);
        if self.stride > 0 {
            Range {
                low: near,
                high: far,
                stride,
            }
        } else {
            Range {
                low: far,
                high: near,
                stride,
            }
        }
    }

    // How far `i` stands after the first integer of a walk from bound to bound.
    fn offset(&self, i: i64) -> u64
        requires low { self.now.low ≤ℤ i }
        requires high { i ≤ℤ self.now.high }
        ensures walked { i ≡ walked self.now.low self.now.high self.now.stride result }
        ensures within { (self.now.low +ℤ pos result) ≤ℤ self.now.high }
        ensures limits { IsRange self.now }
    {
        if self.stride > 0 {
            (i - self.low) as u64
        } else {
            (self.high - i) as u64
        }
    }
}

/// Whether `i` may be a bound of a range: whether it is from -2^60 to 2^60.
pub fn is_bound(i: i64) -> bool
    ensures { IsTrue result ↔ IsBound i }
{
    -LIMIT <= i && i <= LIMIT
}

/// Whether `s` may be the stride of a range that is handed in: whether it is from 1 to 2^60 in size.
pub fn is_stride(s: i64) -> bool
    ensures { IsTrue result ↔ IsStride s }
{
    s != 0 && is_bound(s)
}
