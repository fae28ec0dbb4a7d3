// A domain as a value: its ranges, and which of them the text strides.
// It is kept as a `Domain` and three flags, so that loops and arrays have the `Domain` without work.

ghost use Rattle.std.specs.Prelude.{◌≡◌, ◌≤◌, ◌^◌, ◌↔◌, false, length, map, slice_get, IsSome, IfSome};
ghost use Rattle.dpl_sets.specs.TextDomains.{values_of, text_expanded};
ghost use Rattle.dpl_sets.specs.Indices.{IsRank};
ghost use Rattle.dpl_language.specs.Ranges.{all_sliced, bounds_past_limit, contains_index, dimension, empty_domain, indices_in, size_in, too_many};
ghost use Rattle.dpl_contents.specs.Range.{range_word};
ghost use Rattle.dpl_contents.specs.Parts.{ranges_of};
ghost use Rattle.dpl_contents.specs.Domains.{AreWritten};

use crate::RangeWord;
use crate::parts::Parts;
use dpl_domain::{Cursor, Domain, Index};
use std::marker::Model;

/// A domain as a value, seen as the list of its ranges: one to three, with at most 2^40 indices.
#[derive(Clone, Copy, Debug)]
pub struct DomainWord {
    domain: Domain,
    outer: bool,
    middle: bool,
    inner: bool,
}

impl Model for DomainWord {
    ghost use Rattle.std.specs.Prelude.{List};
    ghost use Rattle.dpl_sets.specs.TextRanges.{TextRange};

    ghost Value = { List TextRange };

    ghost use Rattle.dpl_contents.specs.Domains.{text_ranges, IsFlagged};
    ghost use Rattle.dpl_contents.specs.DomainFields.{fields_of, fields_of-text_ranges};

    ghost view = { λ d. text_ranges d.domain d.outer d.middle d.inner };

    ghost invariant = { λ d. IsFlagged d.domain d.outer d.middle };

    ghost inverse = { fields_of };

    ghost inverse_ok = { fields_of-text_ranges };
}

impl DomainWord {
    /// The domain with these ranges, if there are one to three of them with at most 2^40 indices.
    pub fn new(ranges: &[RangeWord]) -> Option<DomainWord>
        ensures some { IsSome result ↔ (IsRank ranges.now × (too_many (map range_word ranges.now) ≡ false)) }
        ensures held { IfSome result (λ d. d ≡ map range_word ranges.now) }
    {
        DomainWord::of(Parts::new(ranges)?)
    }

    /// The domain without an index that has one to three dimensions: `1..0` in each.
    pub fn empty(rank: u32) -> DomainWord
        requires from_one { 1 ≤ rank }
        requires to_three { rank ≤ 3 }
        ensures { result ≡ empty_domain rank }
    {
        DomainWord::kept(match rank {
            1 => Parts::Line(RangeWord::none()),
            2 => Parts::Plane(RangeWord::none(), RangeWord::none()),
            _ => Parts::Space(RangeWord::none(), RangeWord::none(), RangeWord::none()),
        })
    }

    // The domain with these ranges, if they have at most 2^40 indices.
    fn of(parts: Parts) -> Option<DomainWord>
        ensures some { IsSome result ↔ (too_many (ranges_of parts) ≡ false) }
        ensures held { IfSome result (λ d. d ≡ ranges_of parts) }
    {
        let domain = parts.domain()?;
        let (outer, middle, inner) = parts.flags();
        Some(DomainWord {
            domain,
            outer,
            middle,
            inner,
        })
    }

    // The domain with these ranges.
    fn kept(parts: Parts) -> DomainWord
        requires { too_many (ranges_of parts) ≡ false }
        ensures { result ≡ ranges_of parts }
    {
        DomainWord::of(parts).unwrap()
    }

    /// How many dimensions the domain has.
    pub fn rank(&self) -> u32
        ensures rank { result ≡ length self.now }
        ensures limits { IsRank self.now }
    {
        self.domain.rank()
    }

    /// How many indices the domain has.
    pub fn size(&self) -> u64
        ensures size { result ≡ size_in self.now }
        ensures small { size_in self.now ≤ 2 ^ 40 }
    {
        self.domain.size()
    }

    /// The range of dimension `d`, counted from 0, and `1..0` past the last one.
    pub fn dimension(&self, d: u32) -> RangeWord
        ensures { range_word result ≡ dimension d self.now }
    {
        self.parts().get(d)
    }

    /// Whether `index` is an index of the domain.
    pub fn contains(&self, index: Index) -> bool
        ensures { result ≡ contains_index self.now index }
    {
        self.domain.contains(index)
    }

    /// The domain with each dimension between the bounds of its cut. Where there is no cut for a dimension it stays as it is.
    pub fn sliced(&self, cuts: &[RangeWord]) -> DomainWord
        ensures { result ≡ all_sliced self.now (map range_word cuts.now) }
    {
        DomainWord::kept(self.parts().sliced(cuts))
    }

    /// The domain with each low bound moved down by `k` and each high bound moved up by `k`, which may be below 0, if
    /// all bounds stay within the limits and there are at most 2^40 indices.
    pub fn expanded(&self, k: i64) -> Option<DomainWord>
        ensures some { IsSome result ↔ ((bounds_past_limit (text_expanded k self.now) ≡ false) × (too_many (text_expanded k self.now) ≡ false)) }
        ensures held { IfSome result (λ d. d ≡ text_expanded k self.now) }
    {
        DomainWord::of(self.parts().expanded(k)?)
    }

    /// The domain without its flags.
    pub fn domain(&self) -> Domain
        ensures domain { result ≡ values_of self.now }
        ensures limits { AreWritten (values_of self.now) }
    {
        self.domain
    }

    /// The index at place `k`, counted from 0, if there are that many.
    pub fn nth(&self, k: u64) -> Option<Index>
        ensures { result ≡ slice_get (indices_in self.now) k }
    {
        self.domain.nth(k)
    }

    /// A walk over the indices, one after another.
    pub fn cursor(&self) -> Cursor
        ensures { result ≡ indices_in self.now }
    {
        self.domain.cursor()
    }

    // The ranges, each with its flag.
    pub(crate) fn parts(&self) -> Parts
        ensures parts { ranges_of result ≡ self.now }
        ensures limits { AreWritten (values_of self.now) }
        ensures small { size_in self.now ≤ 2 ^ 40 }
    {
        let (outer, middle, inner) = self.domain.ranges();
        match self.domain.rank() {
            1 => Parts::Line(RangeWord::flagged(inner, self.inner)),
            2 => Parts::Plane(
                RangeWord::flagged(middle, self.middle),
                RangeWord::flagged(inner, self.inner),
            ),
            _ => Parts::Space(
                RangeWord::flagged(outer, self.outer),
                RangeWord::flagged(middle, self.middle),
                RangeWord::flagged(inner, self.inner),
            ),
        }
    }
}
