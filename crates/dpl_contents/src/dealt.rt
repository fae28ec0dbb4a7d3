// By which map an array is cut, and arrays that are dealt anew: the same elements, cut by another map.
// What stands side by side in both arrays is taken over at once, and else element by element.

ghost use Rattle.std.specs.Prelude.{◌≡◌, ◌≤◌, ◌<◌, length, IfOk};
ghost use Rattle.dpl_sets.specs.Indices.{indices};
ghost use Rattle.dpl_contents.specs.Dealt.{HasTaken};

use crate::{ArrayWords, DomainWord};
use dpl_array::{DArray, Row};
use dpl_map::Map;
use std::alloc::{AllocError, Global};

/// So many elements make it worth while to cut an array, and so many turns to start workers: to start and to join workers takes as long as
/// fewer turns do, and these go along one piece sooner than from piece to piece.
pub const WORTH: u64 = 30_000;

// The map by which an array over a domain is cut that a map deals out: one of few elements is a single piece.
// No clause speaks of it: however it is cut, the array is the same.
pub(crate) fn cut(map: &Map, domain: DomainWord) -> Map {
    if domain.size() < WORTH {
        Map::whole()
    } else {
        *map
    }
}

// Takes over what another array has from a place of the domain on: what stands side by side in both, or else the element there alone. It
// answers the next place.
fn take_from(array: &mut DArray<i64>, other: &DArray<i64>, place: u64) -> u64
    requires place { place < length (indices other.now.domain) }
    requires taken { HasTaken other.now array.old.map place array.old }
    ensures next { (place < result) × (result ≤ length (indices other.now.domain)) }
    ensures taken { HasTaken other.now array.old.map result array.new }
{
    let domain = other.domain();
    // That the places are numbers is a clause of this call.
    let _ = domain.size();
    let Some(first) = domain.nth(place) else {
        unreachable!()
    };
    let (row, left) = Row::of(&domain, first, place);
    let words = other.run(row);
    let size = words.len().min(left as usize);
    let taken = array.set_run(row, &words[..size]);
    if taken != 0 {
        return place + taken as u64;
    }
    if let Some(word) = other.get(first) {
        array.set(first, word);
    }
    place + 1
}

/// An array, cut by a map: as it is where it is cut so, and else dealt anew.
///
/// # Errors
/// Out of memory.
pub(crate) fn dealt(alloc: Global, array: DArray<i64>, map: &Map) -> Result<DArray<i64>, AllocError>
    ensures { IfOk result (λ a. a ≡ record array { map = map.now }) }
{
    if array.map().is(map) {
        return Ok(array);
    }
    let domain = array.domain();
    let Ok(mut anew) = DArray::new(alloc, domain, *map, 0) else {
        return Err(AllocError);
    };
    let mut place = 0;
    while place < domain.size() {
        place = take_from(&mut anew, &array, place);
    }
    Ok(anew)
}

impl ArrayWords {
    /// Whether the array is cut by a map.
    pub fn is_cut_by(&self, map: &Map) -> bool {
        self.array.map().is(map)
    }

    /// The same array, cut as one that a map deals out: one of few elements is a single piece. Where it was cut otherwise, its elements are
    /// copied.
    ///
    /// # Errors
    /// Out of memory.
    pub fn dealt(self, alloc: Global, map: &Map) -> Result<ArrayWords, AllocError>
        ensures { IfOk result (λ a. a ≡ self) }
    {
        match dealt(alloc, self.array, &cut(map, self.domain)) {
            Ok(array) => Ok(ArrayWords {
                domain: self.domain,
                array,
            }),
            Err(error) => Err(error),
        }
    }
}
