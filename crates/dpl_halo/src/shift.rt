// Shifted reads: which index of an array a turn of a loop reads.
// Each coordinate of the index is one of the turn's, with an offset added to it.

ghost use Rattle.std.specs.Prelude.{◌≡◌, ◌↔◌, ◌+ℤ◌, pos, [], ◌∷◌, slice_index_or, IsTrue, IsSome, IfSome, FitsSigned};
ghost use Rattle.std.specs.Int.{w64, int_wrap};
ghost use Rattle.dpl_sets.specs.Indices.{IsRank};
ghost use Rattle.dpl_halo.specs.Shifts.{moved, shifted};
ghost use Rattle.dpl_halo.specs.Turns.{KeepsSubscript, KeepsShift};

use dpl_domain::{Dimensions, Index};
use dpl_sets::Subscript;
use std::marker::Model;

/// A shifted read, seen as the list of its one to three subscripts, one for each dimension of the array.
#[derive(Clone, Copy, Debug)]
pub struct Shift {
    subscripts: Dimensions<Subscript>,
}

impl Model for Shift {
    ghost use Rattle.std.specs.Prelude.{List};
    ghost use Rattle.dpl_sets.specs.declared.subscript.Subscript.{Subscript};

    ghost Value = { List Subscript };

    ghost use Rattle.dpl_sets.specs.Indices.{IsRank};

    ghost view = { λ s. s.subscripts };

    ghost invariant = { λ s. IsRank s.subscripts };

    ghost inverse = { λ v. record { subscripts = v } };
}

impl Shift {
    /// The shifted read by these subscripts, if there are one to three of them.
    pub fn new(subscripts: &[Subscript]) -> Option<Shift>
        ensures rank { IsSome result ↔ IsRank subscripts.now }
        ensures held { IfSome result (λ shift. shift ≡ subscripts.now) }
    {
        let subscripts = Dimensions::new(subscripts)?;
        if subscripts.rank() == 0 {
            return None;
        }
        Some(Shift { subscripts })
    }

    /// The index that it reads in a turn.
    pub fn index(&self, turn: Index) -> Index
        ensures { result ≡ shifted self.now turn }
    {
        let (outer, middle, inner) = self.subscripts.places();
        match self.subscripts.rank() {
            1 => line(coordinate_in(turn, inner)),
            2 => plane(coordinate_in(turn, middle), coordinate_in(turn, inner)),
            _ => space(
                coordinate_in(turn, outer),
                coordinate_in(turn, middle),
                coordinate_in(turn, inner),
            ),
        }
    }

    /// Whether what lies between two turns is read between what these two read, where that can be told: no sum wraps.
    pub(crate) fn keeps(&self, low: Index, high: Index) -> bool
        ensures { IsTrue result → KeepsShift self.now low high }
    {
        let (outer, middle, inner) = self.subscripts.places();
        if !keeps(outer, low, high) {
            return false;
        }
        if !keeps(middle, low, high) {
            return false;
        }
        keeps(inner, low, high)
    }

    // What is added to coordinate `d` of a turn for coordinate `k` of the index, if that one is made of it.
    pub(crate) fn offset(&self, k: u32, d: u32) -> Option<i64> {
        let subscript = self.subscripts.get(k)?;
        if subscript.coordinate != d {
            return None;
        }
        Some(subscript.offset)
    }
}

// The coordinate that a subscript gives in a turn.
fn coordinate_in(turn: Index, subscript: Subscript) -> i64
    ensures { result ≡ moved turn subscript }
{
    sum(coordinate(turn, subscript.coordinate), subscript.offset)
}

// Whether no sum of a subscript wraps between two turns.
fn keeps(subscript: Subscript, low: Index, high: Index) -> bool
    ensures { IsTrue result → KeepsSubscript subscript low high }
{
    if !fits(coordinate(low, subscript.coordinate), subscript.offset) {
        return false;
    }
    fits(coordinate(high, subscript.coordinate), subscript.offset)
}

// Whether a sum doesn't wrap.
fn fits(a: i64, b: i64) -> bool
    ensures { IsTrue result → FitsSigned w64 (a +ℤ b) }
{
    a.checked_add(b).is_some()
}

// The coordinate at a position, or 0 where the index has fewer.
fn coordinate(index: Index, position: u32) -> i64
    ensures { result ≡ slice_index_or index position (pos 0) }
{
    index.coordinate(position).unwrap_or(0)
}

// A sum that wraps.
fn sum(a: i64, b: i64) -> i64
    ensures { result ≡ int_wrap w64 (a +ℤ b) }
{
    a.wrapping_add(b)
}

// The index with one coordinate.
pub(crate) fn line(i: i64) -> Index
    ensures { result ≡ i ∷ [] }
{
    Index::new(&[i]).unwrap()
}

// The index with two coordinates.
pub(crate) fn plane(i: i64, j: i64) -> Index
    ensures { result ≡ i ∷ j ∷ [] }
{
    Index::new(&[i, j]).unwrap()
}

// The index with three coordinates.
pub(crate) fn space(i: i64, j: i64, k: i64) -> Index
    ensures { result ≡ i ∷ j ∷ k ∷ [] }
{
    Index::new(&[i, j, k]).unwrap()
}
