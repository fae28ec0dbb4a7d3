// A walk over the indices of several domains, those of one after those of another.
// It begins a domain where the one before it has ended, so that no index is looked up.

ghost use Rattle.std.specs.Prelude.{◌≡◌, slice_get, drop};

use dpl_domain::{Cursor, Domain, Index};
use std::marker::Model;

/// What is left of a walk over the indices of several domains, each of which has an index, seen as the list of those that
/// are still to come.
#[derive(Drop)]
pub(crate) struct RowWalk<'a> {
    pub(crate) indices: Cursor,
    pub(crate) domains: &'a [Domain],
    pub(crate) number: usize,
}

impl<'a> Model for RowWalk<'a> {
    ghost use Rattle.std.specs.Prelude.{List, ℤ, ◌++◌, drop};

    ghost Value = { List (List ℤ) };

    ghost use Rattle.dpl_array.specs.Rows.{row_of, AreSome};

    ghost view = { λ w. w.indices ++ row_of (drop w.number w.domains.now) };

    ghost invariant = { λ w. AreSome w.domains.now };
}

impl<'a> RowWalk<'a> {
    // The next index, which is then gone over, or `None` at the end and from then on.
    pub(crate) fn next(&mut self) -> Option<Index>
        ensures next { result ≡ slice_get self.old 0 }
        ensures rest { self.new ≡ drop 1 self.old }
    {
        if let Some(index) = self.indices.next() {
            return Some(index);
        }
        let domain = self.domains.get(self.number)?;
        self.number += 1;
        self.indices = domain.cursor();
        self.indices.next()
    }
}
