// A walk over the elements of an array in the order of its domain.
// It knows how many elements each locale has given, and takes the next one of the owner.

ghost use Rattle.std.specs.Prelude.{◌≡◌, ◌<◌, Some, slice_get, drop};
ghost use Rattle.dpl_map.specs.Maps.{locales};
ghost use Rattle.dpl_array.specs.Elements.{keys_of, owned, value_at};

use crate::DArray;
use dpl_domain::{Cursor, Index};
use dpl_map::Map;
use std::marker::Model;

// The most locales that a map has.
const MOST_LOCALES: usize = 64;

/// A walk over the elements of an array in the order of its domain, seen as the list of those that are still to come.
#[derive(Drop)]
pub struct Walk<'a, T> {
    array: &'a DArray<T>,
    map: Map,
    indices: Cursor,
    given: [usize; MOST_LOCALES],
}

impl<'a, T> Model for Walk<'a, T> {
    ghost use Rattle.dpl_array.specs.Elements.{Elements};

    ghost Value = { Elements T };

    ghost use Rattle.dpl_array.specs.WalkFields.{left_of, IsLeft};

    ghost view = { λ w. left_of w.array.now w.indices };

    ghost invariant = { λ w. IsLeft w.array.now w.map w.indices w.given };
}

impl<'a, T: Copy> Walk<'a, T> {
    /// The next element, which is then gone over, or `None` at the end and from then on.
    ///
    /// Its owner is computed, but no index is looked up, unless a rule of the map is block-cyclic: then `Map::find` says where it is.
    pub fn next(&mut self) -> Option<(Index, T)>
        ensures next { result ≡ slice_get self.old 0 }
        ensures rest { self.new ≡ drop 1 self.old }
    {
        let index = self.indices.next()?;
        let owner = self.map.owner(index);
        let place = self.given[owner as usize];
        let value = self.array.owned_value(owner, place, index)?;
        self.given[owner as usize] = place + 1;
        Some((index, value))
    }
}

impl<T: Copy> DArray<T> {
    // The value at an index that stands at a place among the elements of its owner.
    fn owned_value(&self, owner: u32, place: usize, index: Index) -> Option<T>
        requires { slice_get (keys_of (owned self.now.map owner self.now.elements)) place ≡ Some index }
        ensures { owner < locales self.now.map → result ≡ value_at index (owned self.now.map owner self.now.elements) }
    {
        self.piece(owner)?.value_of(place, index)
    }

    /// A walk over the elements in the order of the domain.
    pub fn walk(&self) -> Walk<'_, T>
        ensures { result ≡ self.now.elements }
    {
        let (domain, map) = (self.domain(), self.map());
        // That the counts have room is a clause of these two.
        let _ = (domain.size(), map.locales());
        Walk {
            array: self,
            map,
            indices: domain.cursor(),
            given: [0; MOST_LOCALES],
        }
    }
}
