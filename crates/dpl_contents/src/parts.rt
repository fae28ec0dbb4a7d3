// The ranges of a domain, taken apart by its rank, so that each dimension has a name.
// Whatever is done to a domain dimension by dimension is done here.

ghost use Rattle.std.specs.Prelude.{◌≡◌, ◌≤◌, ◌↔◌, ◌∷◌, [], false, length, map, drop, IsSome, IfSome};
ghost use Rattle.dpl_sets.specs.Indices.{IsRank};
ghost use Rattle.dpl_domain.specs.Ranks.{IsPadded};
ghost use Rattle.dpl_sets.specs.TextDomains.{values_of, text_expanded};
ghost use Rattle.dpl_language.specs.Ranges.{all_sliced, range_sliced, bounds_past_limit, count_in, dimension, size_in, too_many};
ghost use Rattle.dpl_contents.specs.Range.{range_word};
ghost use Rattle.dpl_contents.specs.Parts.{ranges_of};
ghost use Rattle.dpl_contents.specs.Domains.{AreWritten, text_ranges};

use crate::RangeWord;
use dpl_domain::Domain;

/// The one to three ranges of a domain.
#[derive(Clone, Copy, Debug)]
pub(crate) enum Parts {
    Line(RangeWord),
    Plane(RangeWord, RangeWord),
    Space(RangeWord, RangeWord, RangeWord),
}

impl Parts {
    // These ranges, if there are one to three.
    pub(crate) fn new(ranges: &[RangeWord]) -> Option<Parts>
        ensures rank { IsSome result ↔ IsRank ranges.now }
        ensures held { IfSome result (λ parts. ranges_of parts ≡ map range_word ranges.now) }
    {
        match ranges {
            [inner] => Some(Parts::Line(*inner)),
            [middle, inner] => Some(Parts::Plane(*middle, *inner)),
            [outer, middle, inner] => Some(Parts::Space(*outer, *middle, *inner)),
            _ => None,
        }
    }

    // The domain of the ranges without their flags, if they have at most 2^40 indices.
    pub(crate) fn domain(&self) -> Option<Domain>
        ensures some { IsSome result ↔ (too_many (ranges_of self.now) ≡ false) }
        ensures held { IfSome result (λ d. d ≡ values_of (ranges_of self.now)) }
        ensures written { AreWritten (values_of (ranges_of self.now)) }
    {
        match self {
            Parts::Line(inner) => Domain::new(&[inner.value()]).ok(),
            Parts::Plane(middle, inner) => Domain::new(&[middle.value(), inner.value()]).ok(),
            Parts::Space(outer, middle, inner) => {
                Domain::new(&[outer.value(), middle.value(), inner.value()]).ok()
            }
        }
    }

    // The flags of the ranges as three, the last one last. In front stands false for each that there is none of.
    pub(crate) fn flags(&self) -> (bool, bool, bool)
        ensures flags { text_ranges (values_of (ranges_of self.now)) result.0 result.1 result.2 ≡ ranges_of self.now }
        ensures unused { IsPadded false (length (ranges_of self.now)) result.0 result.1 }
    {
        match self {
            Parts::Line(inner) => (false, false, inner.strided),
            Parts::Plane(middle, inner) => (false, middle.strided, inner.strided),
            Parts::Space(outer, middle, inner) => (outer.strided, middle.strided, inner.strided),
        }
    }

    // The range of a dimension, counted from 0, and `1..0` past the last one.
    pub(crate) fn get(&self, d: u32) -> RangeWord
        ensures { range_word result ≡ dimension d (ranges_of self.now) }
    {
        match *self {
            Parts::Line(inner) => at(d, inner, RangeWord::none(), RangeWord::none()),
            Parts::Plane(middle, inner) => at(d, middle, inner, RangeWord::none()),
            Parts::Space(outer, middle, inner) => at(d, outer, middle, inner),
        }
    }

    // Each range between the bounds of its cut, if there is one for it.
    pub(crate) fn sliced(&self, cuts: &[RangeWord]) -> Parts
        ensures slices { ranges_of result ≡ all_sliced (ranges_of self.now) (map range_word cuts.now) }
        ensures fewer { size_in (ranges_of result) ≤ size_in (ranges_of self.now) }
    {
        match *self {
            Parts::Line(inner) => Parts::Line(cut_by(&inner, cuts)),
            Parts::Plane(middle, inner) => {
                Parts::Plane(cut_by(&middle, cuts), cut_by(&inner, after(cuts)))
            }
            Parts::Space(outer, middle, inner) => {
                Parts::Space(
                    cut_by(&outer, cuts),
                    cut_by(&middle, after(cuts)),
                    cut_by(&inner, after(after(cuts))),
                )
            }
        }
    }

    // Each low bound moved down and each high bound moved up by `k`, if all stay within the limits.
    pub(crate) fn expanded(&self, k: i64) -> Option<Parts>
        ensures some { IsSome result ↔ (bounds_past_limit (text_expanded k (ranges_of self.now)) ≡ false) }
        ensures held { IfSome result (λ parts. ranges_of parts ≡ text_expanded k (ranges_of self.now)) }
    {
        match *self {
            Parts::Line(inner) => Some(Parts::Line(inner.expanded(k)?)),
            Parts::Plane(middle, inner) => {
                Some(Parts::Plane(middle.expanded(k)?, inner.expanded(k)?))
            }
            Parts::Space(outer, middle, inner) => {
                Some(Parts::Space(outer.expanded(k)?, middle.expanded(k)?, inner.expanded(k)?))
            }
        }
    }
}

// The one of three ranges at a place, and `1..0` past the last one.
fn at(d: u32, first: RangeWord, second: RangeWord, third: RangeWord) -> RangeWord
    ensures { range_word result ≡ dimension d (range_word first ∷ range_word second ∷ range_word third ∷ []) }
{
    match d {
        0 => first,
        1 => second,
        2 => third,
        _ => RangeWord::none(),
    }
}

// What of a range lies between the bounds of the first of some cuts, and the range itself where there is none.
fn cut_by(range: &RangeWord, cuts: &[RangeWord]) -> RangeWord
    ensures slice { range_word result ≡ range_sliced (range_word range.now) (map range_word cuts.now) }
    ensures fewer { count_in (range_word result) ≤ count_in (range_word range.now) }
{
    match cuts {
        [] => *range,
        [cut, ..] => range.sliced(cut),
    }
}

// The cuts behind the first one.
fn after(cuts: &[RangeWord]) -> &[RangeWord]
    ensures { result.now ≡ drop 1 cuts.now }
{
    match cuts {
        [] => cuts,
        [_, rest @ ..] => rest,
    }
}
