// Rows: indices that follow one another in the last dimension, each as far from the one before it.
// A row of a domain goes on to the end of its last dimension, and what a part owns of it stands side by side in the part's piece.

ghost use Rattle.std.specs.Prelude.{◌≡◌, ◌≢◌, ◌+◌, ◌<◌, ℕ, pos, Some, slice_get};
ghost use Rattle.dpl_sets.specs.Indices.{indices};
ghost use Rattle.dpl_array.specs.Elements.{behind};

use dpl_domain::{Domain, Index};
use std::marker::Model;

/// Indices one behind another in the last dimension: the first one, and how far each lies from the one before it, which isn't 0.
#[derive(Clone, Copy)]
pub struct Row {
    first: Index,
    step: i64,
}

impl Model for Row {
    ghost use Rattle.dpl_array.specs.Elements.{Row};

    ghost Value = { Row };

    ghost use Rattle.std.specs.Prelude.{◌≢◌, pos};

    ghost view = { λ r. record { first = r.first; step = r.step } };

    ghost invariant = { λ r. r.step ≢ pos 0 };

    ghost inverse = { λ v. record { first = v.first; step = v.step } };
}

impl Row {
    /// The row from an index on by a step.
    pub fn new(first: Index, step: i64) -> Row
        requires { step ≢ pos 0 }
        ensures { result ≡ record { first = first; step = step } }
    {
        Row { first, step }
    }

    /// The row of a domain from an index on, which stands at a place; and how many of its indices the domain has from there on, one place
    /// after another.
    pub fn of(domain: &Domain, first: Index, place: u64) -> (Row, u64)
        requires { slice_get (indices domain.now) place ≡ Some first }
        ensures first { result.0.first ≡ first }
        ensures there { (k : ℕ) → k < result.1 → slice_get (indices domain.now) (place + k) ≡ Some (behind k result.0) }
    {
        let (_, _, inner) = domain.ranges();
        let row = Row::new(first, inner.stride());
        let size = inner.size();
        if size == 0 {
            return (row, 0);
        }
        (row, size - place % size)
    }

    /// Its first index.
    #[inline(always)]
    pub fn first(&self) -> Index
        ensures { result ≡ self.now.first }
    {
        self.first
    }

    /// How far each index lies from the one before it.
    #[inline(always)]
    pub fn step(&self) -> i64
        ensures step { result ≡ self.now.step }
        ensures moves { self.now.step ≢ pos 0 }
    {
        self.step
    }

    /// The row by the same step from another index on.
    #[inline(always)]
    pub fn begun_at(&self, first: Index) -> Row
        ensures { result ≡ record self.now { first = first } }
    {
        Row::new(first, self.step)
    }
}
