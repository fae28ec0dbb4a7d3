// What stands in each dimension of something: up to three things, kept in three fields.
// An index keeps its coordinates so, and a domain its ranges; a grid can keep its extents so, a map its rules, and a shifted read its subscripts.

ghost use Rattle.std.specs.Prelude.{pos, ⊤, ◌≡◌, ◌≤◌, ◌↔◌, [], length, slice_get, IsSome, IfSome};
ghost use Rattle.dpl_domain.specs.Ranks.{last_of, point, IsFilled};

use dpl_range::Range;
use dpl_sets::Subscript;
use std::alloc::AllocError;
use std::marker::Model;

/// What is kept for a dimension that there is none of.
pub trait Unused: Copy {
    ghost unused: { Self };

    /// The thing that is kept there, which is always the same.
    fn unused() -> Self
        ensures { result ≡ unused };
}

/// A coordinate that an index does not have is 0.
impl Unused for i64 {
    ghost unused = { pos 0 };

    fn unused() -> i64 {
        0
    }
}

/// An extent that a grid does not have is 1, so that it doesn't change the product of the extents.
impl Unused for u32 {
    ghost unused = { 1 };

    fn unused() -> u32 {
        1
    }
}

/// A range that a domain does not have is `0..0`, so that it doesn't change the number of indices.
impl Unused for Range {
    ghost unused = { point };

    fn unused() -> Range {
        Range::new(0, 0, 1).unwrap()
    }
}

/// A subscript that a shifted read does not have takes the first coordinate as it is.
impl Unused for Subscript {
    ghost use Rattle.dpl_sets.specs.Subscripts.{subscript};

    ghost unused = { subscript 0 (pos 0) };

    fn unused() -> Subscript {
        Subscript {
            coordinate: 0,
            offset: 0,
        }
    }
}

/// Up to three things, one for each dimension, seen as the list of them.
///
/// The last of them is always kept last, and what is unused stands in front. So code for three dimensions serves
/// each rank without asking for it.
///
/// A type that keeps its dimensions so has a model by this one field, as `Index` has: its `view` is the field, its
/// `invariant` says what holds of the list, such as that it isn't empty, and its `inverse` is the record with the
/// list in that field, which needs no proof.
#[derive(Copy, Debug, PartialEq, Eq, PartialOrd, Ord, Hash)]
pub struct Dimensions<T: Unused> {
    rank: u32,
    outer: T,
    middle: T,
    inner: T,
}

impl<T: Unused> Clone for Dimensions<T> {
    ghost is_clone = { λ it copy. copy ≡ it };

    ghost is_infallible = { λ _. ⊤ };

    fn clone(&self) -> Result<Self, AllocError> {
        Ok(*self)
    }
}

impl<T: Unused> Model for Dimensions<T> {
    ghost use Rattle.std.specs.Prelude.{List};

    ghost Value = { List T };

    ghost use Rattle.dpl_domain.specs.Ranks.{last_of, IsFilled};
    ghost use Rattle.dpl_domain.specs.DimensionFields.{fields_of, fields_of-last_of};

    ghost view = { λ x. last_of x.rank x.outer x.middle x.inner };

    ghost invariant = { λ x. IsFilled T.unused x.rank x.outer x.middle x.inner };

    ghost inverse = { fields_of T.unused };

    ghost inverse_ok = { fields_of-last_of T.unused };
}

impl<T: Unused> Dimensions<T> {
    /// No things.
    pub fn none() -> Dimensions<T>
        ensures { result ≡ [] }
    {
        let unused = T::unused();
        Dimensions::padded(0, unused, unused, unused)
    }

    /// These things, if there are at most three.
    pub fn new(things: &[T]) -> Option<Dimensions<T>>
        ensures few { IsSome result ↔ (length things.now ≤ 3) }
        ensures held { IfSome result (λ d. d ≡ things.now) }
    {
        let unused = T::unused();
        Some(match things {
            [] => Dimensions::none(),
            [inner] => Dimensions::padded(1, unused, unused, *inner),
            [middle, inner] => Dimensions::padded(2, unused, *middle, *inner),
            [outer, middle, inner] => Dimensions::padded(3, *outer, *middle, *inner),
            _ => return None,
        })
    }

    /// The last `rank` of three things. Those in front are dropped.
    pub fn last_of(rank: u32, outer: T, middle: T, inner: T) -> Dimensions<T>
        requires from_one { 1 ≤ rank }
        requires to_three { rank ≤ 3 }
        ensures { result ≡ last_of rank outer middle inner }
    {
        let unused = T::unused();
        let outer = if rank < 3 { unused } else { outer };
        let middle = if rank < 2 { unused } else { middle };
        Dimensions::padded(rank, outer, middle, inner)
    }

    /// The last `rank` of three things, where those in front are already what is kept for none.
    pub fn padded(rank: u32, outer: T, middle: T, inner: T) -> Dimensions<T>
        requires { IsFilled T.unused rank outer middle inner }
        ensures { result ≡ last_of rank outer middle inner }
    {
        Dimensions {
            rank,
            outer,
            middle,
            inner,
        }
    }

    /// How many things there are.
    pub fn rank(&self) -> u32
        ensures rank { result ≡ length self.now }
        ensures limit { length self.now ≤ 3 }
    {
        self.rank
    }

    /// The thing in dimension `d`, counted from 0, if there is one.
    pub fn get(&self, d: u32) -> Option<T>
        ensures { result ≡ slice_get self.now d }
    {
        if self.rank <= d {
            return None;
        }
        Some(match self.rank - d {
            1 => self.inner,
            2 => self.middle,
            _ => self.outer,
        })
    }

    /// The things as three, the last one last. In front stands `Unused::unused` for each that there is none of.
    pub fn places(&self) -> (T, T, T)
        ensures places { self.now ≡ last_of (length self.now) result.0 result.1 result.2 }
        ensures unused { IsFilled T.unused (length self.now) result.0 result.1 result.2 }
    {
        (self.outer, self.middle, self.inner)
    }
}
