// A range as a value: its members in order, and whether the text strides it.
// A clause says what it is by `range_word`, the language's range.

ghost use Rattle.dpl_sets.specs.Ranges.{IsStride};

use dpl_range::Range;

/// A range as a value: its members in order, and whether the text strides it. Its stride is one that a text can have.
#[derive(Clone, Copy, PartialEq, Eq, Debug)]
pub struct RangeWord {
    pub range: Range,
    pub strided: bool,
    pub ghost written: { IsStride range.stride },
}

impl RangeWord {
    ghost use Rattle.std.specs.Prelude.{◌≡◌, ◌≤◌, ◌↔◌, false, pos, [], ◌∷◌, IsSome, IfSome};
    ghost use Rattle.dpl_sets.specs.Ranges.{IsStride};
    ghost use Rattle.dpl_range.specs.Invariant.{IsRange};
    ghost use Rattle.dpl_sets.specs.TextRanges.{text_sliced};
    ghost use Rattle.dpl_sets.specs.TextDomains.{text_moved};
    ghost use Rattle.dpl_language.specs.Ranges.{unstrided, count_in, bounds_past_limit};
    ghost use Rattle.dpl_contents.specs.Range.{range_word};
    ghost use Rattle.dpl_contents.specs.Flags.{flagged};

    // A range with its flag.
    pub(crate) fn flagged(range: Range, strided: bool) -> RangeWord
        requires { IsStride range.stride }
        ensures { range_word result ≡ flagged range strided }
    {
        RangeWord { range, strided }
    }

    /// The range `1..0`.
    pub fn none() -> RangeWord
        ensures { range_word result ≡ unstrided (pos 1) (pos 0) }
    {
        RangeWord::flagged(Range::new(1, 0, 1).unwrap(), false)
    }

    // The range itself, which is within the limits.
    pub(crate) fn value(&self) -> Range
        ensures value { result ≡ self.now.range }
        ensures limits { IsRange self.now.range }
    {
        // Nothing is read here: that the range is within its limits is a clause of this call.
        let _ = self.range.low_bound();
        self.range
    }

    // How many members the range has.
    pub(crate) fn count(&self) -> u64
        ensures { result ≡ count_in (range_word self.now) }
    {
        self.range.size()
    }

    /// What of the range lies between the bounds of another one.
    pub fn sliced(&self, cut: &RangeWord) -> RangeWord
        ensures slice { range_word result ≡ text_sliced cut.now.range.low cut.now.range.high (range_word self.now) }
        ensures fewer { count_in (range_word result) ≤ count_in (range_word self.now) }
    {
        let slice = self
            .value()
            .slice(cut.range.low_bound(), cut.range.high_bound());
        RangeWord::flagged(slice, self.strided)
    }

    // The range with its low bound moved down and its high bound moved up by `k`, if both stay within the limits.
    pub(crate) fn expanded(&self, k: i64) -> Option<RangeWord>
        ensures some { IsSome result ↔ (bounds_past_limit (text_moved k (range_word self.now) ∷ []) ≡ false) }
        ensures held { IfSome result (λ moved. range_word moved ≡ text_moved k (range_word self.now)) }
    {
        let low = self.range.low_bound().checked_sub(k)?;
        let high = self.range.high_bound().checked_add(k)?;
        match Range::new(low, high, self.range.stride()) {
            Ok(range) => Some(RangeWord::flagged(range, self.strided)),
            Err(_) => None,
        }
    }
}
