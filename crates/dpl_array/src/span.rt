// Integers that lie side by side, and those of two such spans row by row.
// An integer is found among them by plain numbers.

ghost use Rattle.std.specs.Prelude.{◌≡◌, ◌≤◌, ◌<◌, ◌+◌, ◌*◌, ◌^◌, ◌+ℤ◌, ◌≤ℤ◌, ℕ, pos, IfSome};
ghost use Rattle.dpl_sets.specs.Ranges.{members_of};
ghost use Rattle.dpl_array.specs.Windows.{IsSpanOf, IsPlaceOn};

use dpl_range::Range;

/// So many integers from a low one on.
#[derive(Clone, Copy)]
pub(crate) struct Span {
    pub(crate) low: i64,
    pub(crate) size: usize,
    ghost within: { (low +ℤ pos size) ≤ℤ pos (2 ^ 63) },
}

/// The integers of two spans, row by row.
#[derive(Clone, Copy)]
pub(crate) struct Grid {
    pub(crate) rows: Span,
    pub(crate) columns: Span,
    ghost small: { rows.size * columns.size ≤ 2 ^ 24 },
}

impl Span {
    /// No integers.
    pub(crate) fn none() -> Span
        ensures { result.size ≡ 0 }
    {
        Span { low: 0, size: 0 }
    }

    /// The members of a range whose stride is 1, and no integers where it is another.
    pub(crate) fn of(range: &Range) -> Span
        ensures { IsSpanOf (members_of range.now) result.low result.size }
    {
        if range.stride() != 1 {
            return Span::none();
        }
        Span {
            low: range.low_bound(),
            size: range.size() as usize,
        }
    }

    /// How far an integer lies behind the low one, if it is one of them.
    #[inline(always)]
    pub(crate) fn offset(&self, i: i64) -> Option<usize>
        ensures { IfSome result (λ k. (k < self.now.size) × (i ≡ self.now.low +ℤ pos k)) }
    {
        let offset = i.wrapping_sub(self.low).cast_unsigned() as usize;
        if offset < self.size {
            Some(offset)
        } else {
            None
        }
    }
}

impl Grid {
    /// No integers.
    pub(crate) fn none() -> Grid
        ensures { result.rows.size ≡ 0 }
    {
        Grid {
            rows: Span::none(),
            columns: Span::none(),
        }
    }

    /// The place of two integers, if they are some of them.
    #[inline(always)]
    pub(crate) fn place(&self, i: i64, j: i64) -> Option<usize>
        ensures { IfSome result (λ k. IsPlaceOn self.now.rows.low self.now.rows.size self.now.columns.low self.now.columns.size i j k) }
    {
        let row = self.rows.offset(i)?;
        let column = self.columns.offset(j)?;
        Some(row * self.columns.size + column)
    }
}
