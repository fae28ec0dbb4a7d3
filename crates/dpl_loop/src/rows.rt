// What a loop runs over by places, and how many of the next indices lie behind one another in the last dimension.

ghost use Rattle.std.specs.Prelude.{◌≡◌, ◌+◌, ◌<◌, ℕ, ℤ, List, [], ◌∷◌, Some, length, slice_get};
ghost use Rattle.dpl_sets.specs.Indices.{indices};
ghost use Rattle.dpl_array.specs.Elements.{behind};
ghost use Rattle.dpl_language.specs.Values.{Index as IndexValue};
ghost use Rattle.dpl_language.specs.Ranges.{indices_in};
ghost use Rattle.dpl_contents.specs.Range.{range_word};

use dpl_array::Row;
use dpl_contents::RangeWord;
use dpl_domain::{Domain, Index};

/// Indices in order, by places from 0 on.
pub(crate) trait Places {
    // The indices.
    ghost indices: { Self → List IndexValue };

    /// How many there are.
    fn size(&self) -> u64
        ensures { result ≡ length (indices self.now) };

    /// The index at a place.
    fn at(&self, place: u64) -> Option<Index>
        ensures { result ≡ slice_get (indices self.now) place };

    /// The row from an index on, which stands at a place; and how many of its indices there are from there on, one place after another.
    fn row(&self, index: Index, place: u64) -> (Row, u64)
        requires { slice_get (indices self.now) place ≡ Some index }
        ensures first { result.0.first ≡ index }
        ensures there { (k : ℕ) → k < result.1 → slice_get (indices self.now) (place + k) ≡ Some (behind k result.0) };
}

impl Places for Domain {
    ghost indices = { λ d. indices d };

    #[inline(always)]
    fn size(&self) -> u64 {
        Domain::size(self)
    }

    #[inline(always)]
    fn at(&self, place: u64) -> Option<Index> {
        self.nth(place)
    }

    fn row(&self, index: Index, place: u64) -> (Row, u64) {
        Row::of(self, index, place)
    }
}

// The index of one coordinate.
#[inline(always)]
fn line(i: i64) -> Index
    ensures { result ≡ i ∷ [] }
{
    Index::new(&[i]).unwrap()
}

impl Places for RangeWord {
    ghost indices = { λ r. indices_in (range_word r ∷ []) };

    #[inline(always)]
    fn size(&self) -> u64 {
        self.range.size()
    }

    #[inline(always)]
    fn at(&self, place: u64) -> Option<Index> {
        match self.range.nth(place) {
            Some(i) => Some(line(i)),
            None => None,
        }
    }

    fn row(&self, index: Index, place: u64) -> (Row, u64) {
        let row = Row::new(index, self.range.stride());
        (row, self.range.size().saturating_sub(place))
    }
}
