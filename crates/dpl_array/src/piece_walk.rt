// A walk over the elements of a piece, one domain of its part after another.
// It goes along the row of the values, so that no index is looked up.

ghost use Rattle.std.specs.Prelude.{◌≡◌, slice_get, drop};
ghost use Rattle.dpl_map.specs.Axes.{AreSingle};
ghost use Rattle.dpl_array.specs.Arrays.{IsWalkOf};

use crate::Piece;
use crate::row_walk::RowWalk;
use dpl_domain::Index;
use std::marker::Model;

/// A walk over the elements of a piece, seen as the list of those that are still to come.
#[derive(Drop)]
pub struct PieceWalk<'a, T> {
    row: RowWalk<'a>,
    values: &'a [T],
    place: usize,
}

impl<'a, T> Model for PieceWalk<'a, T> {
    ghost use Rattle.std.specs.Prelude.{zip, drop};
    ghost use Rattle.dpl_array.specs.Elements.{Elements};

    ghost Value = { Elements T };

    ghost view = { λ w. zip w.row (drop w.place w.values.now) };
}

impl<'a, T: Copy> PieceWalk<'a, T> {
    /// The next element, which is then gone over, or `None` at the end and from then on.
    pub fn next(&mut self) -> Option<(Index, T)>
        ensures next { result ≡ slice_get self.old 0 }
        ensures rest { self.new ≡ drop 1 self.old }
    {
        let index = self.row.next()?;
        let value = *self.values.get(self.place)?;
        self.place += 1;
        Some((index, value))
    }
}

impl<T: Copy> Piece<T> {
    /// A walk over the elements, those of one domain of the part after those of another, each in the order of its domain. The
    /// domains come in the order of `Map::part`. Where no rule is block-cyclic the part is one domain, and the elements come in
    /// the order of the array's domain.
    pub fn walk(&self) -> PieceWalk<'_, T>
        ensures walk { IsWalkOf self.now result }
        ensures single { AreSingle self.now.map → result ≡ self.now.elements }
    {
        let (indices, number) = match self.parts.first() {
            Some(first) => (first.cursor(), 1),
            None => (self.domain.cursor(), 0),
        };
        PieceWalk {
            row: RowWalk {
                indices,
                domains: &self.parts,
                number,
            },
            values: &self.values,
            place: 0,
        }
    }
}
