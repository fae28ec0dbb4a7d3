// An index: a tuple of one to three whole numbers.

ghost use Rattle.std.specs.Prelude.{pos, ◌≡◌, ◌≤◌, ◌↔◌, [], ◌∷◌, length, slice_get, Some, IsSome, IfSome};
ghost use Rattle.dpl_sets.specs.Indices.{IsRank};
ghost use Rattle.dpl_domain.specs.Ranks.{last_of, IsPadded};
ghost use Rattle.dpl_sets.specs.IndexTexts.{index_text};

use crate::Dimensions;
use std::fmt;
use std::marker::Model;

/// A tuple of one to three coordinates. Indices of one rank are ordered row by row: by their first
/// coordinates, where these are equal by their second, and then by their third. One of a lower rank comes
/// before one of a higher. It prints as its coordinates with commas between them: `2,1`.
#[derive(Clone, Copy, Debug, PartialEq, Eq, PartialOrd, Ord, Hash)]
pub struct Index {
    coordinates: Dimensions<i64>,
}

impl Model for Index {
    ghost use Rattle.std.specs.Prelude.{List, ℤ};

    ghost Value = { List ℤ };

    ghost use Rattle.dpl_sets.specs.Indices.{IsRank};

    ghost view = { λ x. x.coordinates };

    ghost invariant = { λ x. IsRank x.coordinates };

    ghost inverse = { λ v. record { coordinates = v } };
}

impl Index {
    /// The index with these coordinates, if there are one to three of them.
    pub fn new(coordinates: &[i64]) -> Option<Index>
        ensures rank { IsSome result ↔ IsRank coordinates.now }
        ensures held { IfSome result (λ index. index ≡ coordinates.now) }
    {
        let coordinates = Dimensions::new(coordinates)?;
        if coordinates.rank() == 0 {
            return None;
        }
        Some(Index { coordinates })
    }

    /// How many coordinates it has.
    pub fn rank(&self) -> u32
        ensures rank { result ≡ length self.now }
        ensures limits { IsRank self.now }
    {
        self.coordinates.rank()
    }

    /// The coordinate in dimension `d`, counted from 0, if there is one.
    pub fn coordinate(&self, d: u32) -> Option<i64>
        ensures { result ≡ slice_get self.now d }
    {
        self.coordinates.get(d)
    }

    /// The coordinates as three numbers, the last one last. Those in front that the index does not have are 0.
    pub fn numbers(&self) -> (i64, i64, i64)
        ensures coordinates { self.now ≡ last_of (length self.now) result.0 result.1 result.2 }
        ensures unused { IsPadded (pos 0) (length self.now) result.0 result.1 }
    {
        self.coordinates.places()
    }

    // The index with the last `rank` of three coordinates.
    pub(crate) fn padded(rank: u32, outer: i64, middle: i64, inner: i64) -> Index
        requires { IsPadded (pos 0) rank outer middle }
        ensures { result ≡ last_of rank outer middle inner }
    {
        Index {
            coordinates: Dimensions::padded(rank, outer, middle, inner),
        }
    }
}

impl fmt::Display for Index {
    ghost output = { λ index. Some (index_text index) };

    fn fmt<W: fmt::Write>(&self, f: &mut fmt::Formatter<W>) -> fmt::Result {
        let (outer, middle, inner) = self.numbers();
        match self.rank() {
            1 => write!(f, "{inner}"),
            2 => write!(f, "{middle},{inner}"),
            _ => write!(f, "{outer},{middle},{inner}"),
        }
    }
}
