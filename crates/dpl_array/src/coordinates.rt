// What names an element: its index, or one, two or three plain coordinates of it.
// Where a part is one domain of stride 1, plain coordinates tell a place without an index.

ghost use Rattle.std.specs.Prelude.{◌≡◌, [], ◌∷◌};

use crate::place::place_alone;
use crate::seats::Seats;
use crate::spans::Spans;
use dpl_domain::{Domain, Index};

/// What names an element.
pub(crate) trait Coordinates {
    ghost use Rattle.std.specs.Prelude.{◌≡◌, ℤ, List, Some, IfSome, slice_get};
    ghost use Rattle.dpl_array.specs.Rows.{row_of};
    ghost use Rattle.dpl_array.specs.Spans.{AreSpansOf};

    ghost tuple: { Self → List ℤ };

    /// The index.
    fn index(&self) -> Index
        ensures { result ≡ tuple self.now };

    /// The number of the locale that seems to own it.
    fn seat(&self, seats: &Seats) -> usize;

    /// Its place in the row of a part's domains, where it is found without a search.
    fn place(&self, parts: &[Domain], spans: &Spans) -> Option<usize>
        requires { AreSpansOf (row_of parts.now) spans.now }
        ensures { IfSome result (λ k. slice_get (row_of parts.now) k ≡ Some (tuple self.now)) };
}

impl Coordinates for Index {
    ghost tuple = { λ t. t };

    fn index(&self) -> Index {
        *self
    }

    #[inline(always)]
    fn seat(&self, seats: &Seats) -> usize {
        seats.guess(*self)
    }

    #[inline(always)]
    fn place(&self, parts: &[Domain], spans: &Spans) -> Option<usize> {
        let (_, y, z) = self.numbers();
        match self.rank() {
            1 => spans.line.offset(z),
            2 => spans.grid.place(y, z),
            _ => place_alone(parts, *self),
        }
    }
}

/// An index that is looked for in the domain of a part, whatever its strides are.
#[derive(Clone, Copy)]
pub(crate) struct Strided(pub(crate) Index);

impl Coordinates for Strided {
    ghost tuple = { λ c. c.0 };

    fn index(&self) -> Index {
        self.0
    }

    #[inline(always)]
    fn seat(&self, seats: &Seats) -> usize {
        seats.guess(self.0)
    }

    #[inline(always)]
    fn place(&self, parts: &[Domain], _: &Spans) -> Option<usize> {
        place_alone(parts, self.0)
    }
}

/// One coordinate.
#[derive(Clone, Copy)]
pub(crate) struct OnLine(pub(crate) i64);

impl Coordinates for OnLine {
    ghost use Rattle.std.specs.Prelude.{[], ◌∷◌};

    ghost tuple = { λ c. c.0 ∷ [] };

    fn index(&self) -> Index {
        line(self.0)
    }

    #[inline(always)]
    fn seat(&self, seats: &Seats) -> usize {
        seats.of_line(self.0)
    }

    #[inline(always)]
    fn place(&self, _: &[Domain], spans: &Spans) -> Option<usize> {
        spans.line.offset(self.0)
    }
}

/// Two coordinates.
#[derive(Clone, Copy)]
pub(crate) struct OnPlane(pub(crate) i64, pub(crate) i64);

impl Coordinates for OnPlane {
    ghost use Rattle.std.specs.Prelude.{[], ◌∷◌};

    ghost tuple = { λ c. c.0 ∷ c.1 ∷ [] };

    fn index(&self) -> Index {
        plane(self.0, self.1)
    }

    #[inline(always)]
    fn seat(&self, seats: &Seats) -> usize {
        seats.of_plane(self.0, self.1)
    }

    #[inline(always)]
    fn place(&self, _: &[Domain], spans: &Spans) -> Option<usize> {
        spans.grid.place(self.0, self.1)
    }
}

// The index with one coordinate.
pub(crate) fn line(i: i64) -> Index
    ensures { result ≡ i ∷ [] }
{
    Index::new(&[i]).unwrap()
}

// The index with two coordinates.
pub(crate) fn plane(i: i64, j: i64) -> Index
    ensures { result ≡ i ∷ j ∷ [] }
{
    Index::new(&[i, j]).unwrap()
}

// The index with three coordinates.
pub(crate) fn space(i: i64, j: i64, k: i64) -> Index
    ensures { result ≡ i ∷ j ∷ k ∷ [] }
{
    Index::new(&[i, j, k]).unwrap()
}
