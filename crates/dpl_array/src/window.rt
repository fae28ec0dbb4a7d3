// What a reader sees of a piece by plain numbers: values at the integers of a line, or of the rows and columns of a plane.
// Where a piece's part isn't one domain of stride 1, a window is empty, and the piece itself is asked.

ghost use Rattle.std.specs.Prelude.{◌≡◌, ◌≤◌, ◌*◌, IfSome, length};
ghost use Rattle.dpl_array.specs.Windows.{IsLineOf, IsOnLine, IsOnPlane, IsPlaneOf};

use crate::Piece;
use crate::span::{Grid, Span};

/// A value at each integer of a span.
#[derive(Drop)]
pub(crate) struct Line<'a, T> {
    values: &'a [T],
    span: Span,
    ghost long: { span.size ≤ length values.now },
}

/// A value at each integer of two spans, row by row.
#[derive(Drop)]
pub(crate) struct Plane<'a, T> {
    values: &'a [T],
    grid: Grid,
    ghost long: { grid.rows.size * grid.columns.size ≤ length values.now },
}

impl<'a, T: Copy> Line<'a, T> {
    /// No values.
    pub(crate) fn none() -> Line<'a, T>
        ensures { result.span.size ≡ 0 }
    {
        Line {
            values: &[],
            span: Span::none(),
        }
    }

    /// The value at an integer, if there is one.
    #[inline(always)]
    pub(crate) fn get(&self, i: i64) -> Option<T>
        ensures { IfSome result (λ v. IsOnLine self.now.values.now self.now.span.low self.now.span.size i v) }
    {
        let place = self.span.offset(i)?;
        Some(self.values[place])
    }
}

impl<'a, T: Copy> Plane<'a, T> {
    /// No values.
    pub(crate) fn none() -> Plane<'a, T>
        ensures { result.grid.rows.size ≡ 0 }
    {
        Plane {
            values: &[],
            grid: Grid::none(),
        }
    }

    /// The value at two integers, if there is one.
    #[inline(always)]
    pub(crate) fn get(&self, i: i64, j: i64) -> Option<T>
        ensures { IfSome result (λ v. IsOnPlane self.now.values.now self.now.grid.rows.low self.now.grid.rows.size
            self.now.grid.columns.low self.now.grid.columns.size i j v) }
    {
        let place = self.grid.place(i, j)?;
        Some(self.values[place])
    }
}

impl<T: Copy> Piece<T> {
    /// The values of the piece as a line, where it is of rank 1.
    pub(crate) fn line(&self) -> Line<'_, T>
        ensures { IsLineOf self.now.elements result.values.now result.span.low result.span.size }
    {
        Line {
            values: &self.values,
            span: self.spans.line,
        }
    }

    /// The values of the piece as a plane, where it is of rank 2.
    pub(crate) fn plane(&self) -> Plane<'_, T>
        ensures { IsPlaneOf self.now.elements result.values.now result.grid.rows.low result.grid.rows.size result.grid.columns.low result.grid.columns.size }
    {
        Plane {
            values: &self.values,
            grid: self.spans.grid,
        }
    }
}
