// Where the elements of a part stand that is one domain of stride 1, by plain numbers.
// Elsewhere the spans are empty, and the part itself is searched.

ghost use Rattle.std.specs.Prelude.{◌≡◌, ◌≤◌, ◌^◌, [], ◌∷◌, Some, IfSome, length};
ghost use Rattle.dpl_array.specs.Rows.{row_of};
ghost use Rattle.dpl_array.specs.Windows.{StandsOnLine, StandsOnPlane};
ghost use Rattle.dpl_array.specs.Spans.{AreSpansOf};

use crate::span::{Grid, Span};
use dpl_domain::Domain;

/// The integers of a part of rank 1, and those of a part of rank 2.
#[derive(Clone, Copy)]
pub(crate) struct Spans {
    pub(crate) line: Span,
    pub(crate) grid: Grid,
}

impl Spans {
    /// The spans of a part's domains.
    pub(crate) fn of(parts: &[Domain]) -> Spans
        requires small { length (row_of parts.now) ≤ 2 ^ 24 }
        ensures { AreSpansOf (row_of parts.now) result }
    {
        Spans {
            line: line_of(parts),
            grid: grid_of(parts),
        }
    }
}

// The integers of a part that is one domain of rank 1.
fn line_of(parts: &[Domain]) -> Span
    ensures { StandsOnLine (row_of parts.now) result.low result.size }
{
    let Some(part) = alone(parts, 1) else {
        return Span::none();
    };
    let (_, _, inner) = part.ranges();
    Span::of(&inner)
}

// The integers of a part that is one domain of rank 2.
fn grid_of(parts: &[Domain]) -> Grid
    requires small { length (row_of parts.now) ≤ 2 ^ 24 }
    ensures { StandsOnPlane (row_of parts.now) result.rows.low result.rows.size result.columns.low result.columns.size }
{
    let Some(part) = alone(parts, 2) else {
        return Grid::none();
    };
    let (_, middle, inner) = part.ranges();
    Grid {
        rows: Span::of(&middle),
        columns: Span::of(&inner),
    }
}

// The one domain of a part, where it is one and of a given rank.
fn alone(parts: &[Domain], rank: u32) -> Option<&Domain>
    ensures { IfSome result (λ d. (parts.now ≡ d.now ∷ []) × (length d.now ≡ rank)) }
{
    let [part] = parts else {
        return None;
    };
    if part.rank() != rank {
        return None;
    }
    Some(part)
}
