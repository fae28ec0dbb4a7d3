// Ranges, domains, indices, maps and arrays as the tests name them: by the text of the language's ranges, as `1..9 by 2,0..3`.

use dpl_array::DArray;
use dpl_domain::{Domain, Index};
use dpl_map::{Grid, Map};
use dpl_range::Range;
use std::alloc::Global;
use std::process::Abort;

pub(crate) const LIMIT: i64 = 1 << 60;

pub(crate) fn int(rt: &impl Abort, text: &str) -> i64 {
    text.trim().parse::<i64>().expect(rt, "a number")
}

pub(crate) fn count(rt: &impl Abort, text: &str) -> usize {
    text.parse::<usize>().expect(rt, "a number")
}

/// The range of `low..high` or `low..high by stride`.
pub(crate) fn range(rt: &impl Abort, text: &str) -> Range {
    let (bounds, stride) = text.split_once(" by ").unwrap_or((text, "1"));
    let (low, high) = bounds.split_once("..").unwrap_or((bounds, bounds));
    Range::new(int(rt, low), int(rt, high), int(rt, stride)).expect(rt, "a range")
}

/// The domain of one to three ranges, between commas.
pub(crate) fn domain(rt: &impl Abort, text: &str) -> Domain {
    let (outer, rest) = text.split_once(',').unwrap_or((text, ""));
    let (middle, inner) = rest.split_once(',').unwrap_or((rest, ""));
    let first = range(rt, outer);
    let made = if rest.is_empty() {
        Domain::new(&[first])
    } else if inner.is_empty() {
        Domain::new(&[first, range(rt, middle)])
    } else {
        Domain::new(&[first, range(rt, middle), range(rt, inner)])
    };
    made.expect(rt, "a domain")
}

pub(crate) fn index(rt: &impl Abort, coordinates: &[i64]) -> Index {
    Index::new(coordinates).expect(rt, "one to three coordinates")
}

pub(crate) fn grid(rt: &impl Abort, extents: &[u32]) -> Grid {
    Grid::new(extents).expect(rt, "a grid")
}

/// The map by blocks of a box.
pub(crate) fn block(rt: &impl Abort, boxed: &str, extents: &[u32]) -> Map {
    Map::block(&domain(rt, boxed), grid(rt, extents)).expect(rt, "a map by blocks")
}

/// The map that goes round from a start.
pub(crate) fn cyclic(rt: &impl Abort, start: &[i64], extents: &[u32]) -> Map {
    Map::cyclic(index(rt, start), grid(rt, extents)).expect(rt, "a map that goes round")
}

/// The map by blocks that go round from a start.
pub(crate) fn in_blocks(rt: &impl Abort, start: &[i64], sizes: &[i64], extents: &[u32]) -> Map {
    Map::block_cyclic(index(rt, start), index(rt, sizes), grid(rt, extents)).expect(
        rt,
        "a map by blocks that go round",
    )
}

/// An array in which each index of rank 1 holds its own square.
pub(crate) fn squares(rt: &impl Abort, alloc: Global, domain: Domain, map: Map) -> DArray<i64> {
    let mut array = DArray::new(alloc, domain, map, 0).expect(rt, "memory");
    let mut indices = domain.cursor();
    for _ in 0..domain.size() {
        let index = indices.next().expect(rt, "an index for each turn");
        let (_, _, i) = index.numbers();
        assert!(rt; array.set(index, i.wrapping_mul(i)));
    }
    array
}
