// A walk over the indices of a domain, one by one.

ghost use Rattle.std.specs.Prelude.{◌≡◌, ◌≤◌, ◌<◌, ◌^◌, pos, ◌+ℤ◌, ◌-◌, All, drop, slice_get, unsigned_abs};
ghost use Rattle.dpl_sets.specs.Ranges.{members_of, IsBound};
ghost use Rattle.dpl_sets.specs.Indices.{indices};
ghost use Rattle.dpl_domain.specs.Progression.{progression};
ghost use Rattle.dpl_domain.specs.Ranks.{last_of, point, IsPadded};

use crate::Index;
use dpl_range::Range;
use std::marker::Model;

/// What is left of a walk over the members of a range.
#[derive(Clone, Copy, Debug)]
struct Track {
    next: i64,
    step: i64,
    left: u64,
    ghost bounded: { All IsBound (progression next step left) },
    ghost short: { unsigned_abs step ≤ 2 ^ 61 },
}

impl Track {
    // The walk over all members of a range.
    fn over(range: &Range) -> Track
        ensures terms { progression result.next result.step result.left ≡ members_of range.now }
    {
        let Some(next) = range.first() else {
            return Track {
                next: 0,
                step: 1,
                left: 0,
            };
        };
        Track {
            next,
            step: range.stride(),
            left: range.size(),
        }
    }

    // The next member, which is gone over.
    fn take(&mut self) -> i64
        requires { 0 < self.old.left }
        ensures next { result ≡ self.old.next }
        ensures rest { progression self.new.next self.new.step self.new.left ≡ drop 1 (progression self.old.next self.old.step self.old.left) }
        ensures left { self.new.left ≡ self.old.left - 1 }
    {
        let taken = self.next;
        self.next += self.step;
        self.left -= 1;
        taken
    }
}

/// A walk over the indices of a domain, seen as the list of those that are still to come.
#[derive(Debug, Drop)]
pub struct Cursor {
    rank: u32,
    outer_at: i64,
    middle_at: i64,
    outer: Track,
    middle: Track,
    inner: Track,
    lines: Track,
    line: Track,
}

impl Model for Cursor {
    ghost use Rattle.std.specs.Prelude.{List, ℤ};

    ghost Value = { List (List ℤ) };

    ghost use Rattle.dpl_domain.specs.Cursor.{rest_of, IsCursor};

    ghost view = { rest_of };

    ghost invariant = { IsCursor };
}

impl Cursor {
    // The walk over the indices of the domain that keeps these ranges.
    pub(crate) fn over(rank: u32, outer: &Range, middle: &Range, inner: &Range) -> Cursor
        requires { IsPadded point rank outer.now middle.now }
        ensures { result ≡ indices (last_of rank outer.now middle.now inner.now) }
    {
        let none = Track {
            next: 0,
            step: 1,
            left: 0,
        };
        let lines = Track::over(middle);
        let line = Track::over(inner);
        if lines.left == 0 || line.left == 0 {
            return Cursor {
                rank,
                outer_at: 0,
                middle_at: 0,
                outer: none,
                middle: none,
                inner: none,
                lines,
                line,
            };
        }
        let outer = Track::over(outer);
        Cursor {
            rank,
            outer_at: 0,
            middle_at: 0,
            outer,
            middle: none,
            inner: none,
            lines,
            line,
        }
    }

    /// The next index, which is then gone over, or `None` at the end and from then on.
    pub fn next(&mut self) -> Option<Index>
        ensures next { result ≡ slice_get self.old 0 }
        ensures rest { self.new ≡ drop 1 self.old }
    {
        if self.inner.left == 0 {
            if self.middle.left == 0 {
                if self.outer.left == 0 {
                    return None;
                }
                self.outer_at = self.outer.take();
                self.middle = self.lines;
            }
            self.middle_at = self.middle.take();
            self.inner = self.line;
        }
        let inner_at = self.inner.take();
        Some(Index::padded(self.rank, self.outer_at, self.middle_at, inner_at))
    }
}
