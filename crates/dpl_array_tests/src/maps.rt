// Maps: who owns which index, where an index stands in its owner's part, in how many domains a part is, and what is no map.

ghost use Rattle.dpl_map.specs.Orders.{ArePart};

use crate::made::{LIMIT, block, count, cyclic, domain, grid, in_blocks, index};
use dpl_domain::{Domain, Index};
use dpl_map::{Grid, GridFault, Map, MapFault};
use std::alloc::Global;
use std::process::Abort;

// Whether an index stands in a part where the map finds it, and is found where the part is its owner's.
fn stands(map: Map, part: &[Domain], index: Index, is_owner: bool) -> bool
    requires { ArePart map part.now }
{
    match map.find(part, index) {
        Some((number, place)) => {
            let there = part.get(number).and_then(|piece| piece.nth(place));
            is_owner && there == Some(index)
        }
        None => !is_owner,
    }
}

// Whether the owner of each index is its digit, and each stands in this locale's part where that is the owner.
fn stand(map: Map, part: &[Domain], domain: &Domain, locale: u32, digits: &str) -> bool
    requires { ArePart map part.now }
{
    let mut indices = domain.cursor();
    for digit in digits.bytes() {
        let owner = digit.wrapping_sub(b'0') as u32;
        let right = match indices.next() {
            Some(index) => map.owner(index) == owner && stands(map, part, index, owner == locale),
            None => false,
        };
        if !right {
            return false;
        }
    }
    true
}

// How many indices some domains have.
fn size_of(domains: &[Domain]) -> u64 {
    let mut indices: u64 = 0;
    for domain in domains {
        indices = indices.wrapping_add(domain.size());
    }
    indices
}

// The owner of each index of a domain is this digit. Each index is found where it stands in its owner's part, and in no other
// part, and parts have no other index.
fn owned(rt: &impl Abort, alloc: Global, map: Map, domain: Domain, digits: &str) {
    let mut size: u64 = 0;
    for locale in 0..map.locales() {
        let part = map.part(alloc, &domain, locale).expect(rt, "memory");
        assert!(rt; stand(map, &part, &domain, locale, digits), "{digits}");
        size = size.wrapping_add(size_of(&part));
    }
    assert!(rt;
        size == domain.size() && size == digits.len() as u64,
        "{digits}"
    );
}

#[test]
fn blocks(rt: HostRuntime) {
    let alloc = rt.alloc();
    let eight = block(&rt, "1..8", &[3]);
    owned(&rt, alloc, eight, domain(&rt, "1..8"), "00011122");
    let twelve = block(&rt, "1..12", &[3]);
    owned(&rt, alloc, twelve, domain(&rt, "1..12 by 5"), "012");
    let four = block(&rt, "1..4", &[3]);
    owned(&rt, alloc, four, domain(&rt, "1..4"), "0012");
    owned(&rt, alloc, four, domain(&rt, "1..2,1..1,1..2"), "0000");
    let two = block(&rt, "3..4", &[2]);
    owned(&rt, alloc, two, domain(&rt, "1..6"), "000111");
    let three = block(&rt, "1..2", &[3]);
    owned(&rt, alloc, three, domain(&rt, "-4..9 by -4"), "2200");
    let plane = block(&rt, "1..4,1..6", &[2, 3]);
    let owners = "001122001122334455334455";
    owned(&rt, alloc, plane, domain(&rt, "1..4,1..6"), owners);
    owned(&rt, alloc, plane, domain(&rt, "1..3"), "000");
    let space = block(&rt, "1..3,1..2,1..3", &[3, 1, 2]);
    let owners = "001001223223445445";
    owned(&rt, alloc, space, domain(&rt, "1..3,1..2,1..3"), owners);
}

#[test]
fn rounds(rt: HostRuntime) {
    let alloc = rt.alloc();
    let around = cyclic(&rt, &[1], &[3]);
    owned(&rt, alloc, around, domain(&rt, "0..9 by 2"), "21021");
    owned(&rt, alloc, around, domain(&rt, "0..9 by -2"), "20120");
    owned(&rt, alloc, Map::whole(), domain(&rt, "5..4"), "");
    owned(&rt, alloc, Map::whole(), domain(&rt, "1..3 by -1"), "000");
}

#[test]
fn blocks_that_go_round(rt: HostRuntime) {
    let alloc = rt.alloc();
    let map = in_blocks(&rt, &[1], &[2], &[2]);
    owned(&rt, alloc, map, domain(&rt, "1..8"), "00110011");
    owned(&rt, alloc, map, domain(&rt, "-2..0"), "011");
    owned(&rt, alloc, map, domain(&rt, "1..20 by -9"), "110");
    owned(&rt, alloc, map, domain(&rt, "5..4"), "");
    let plane = in_blocks(&rt, &[0, 0], &[2, 3], &[2, 2]);
    let owners = "00011100001110222333222233320001110";
    owned(&rt, alloc, plane, domain(&rt, "0..4,0..6"), owners);
    // In blocks of 1, the second of 2x1x2 locales has the odd coordinates of the first dimension and the even ones of the last.
    let space = in_blocks(&rt, &[1, 1, 1], &[1, 2, 1], &[2, 1, 2]);
    let owners = "010010232232010010";
    owned(&rt, alloc, space, domain(&rt, "1..3,1..2,1..3"), owners);
    // Coordinate 0 has {10} and {18, 20}. Its first block and its last one have no member, so it has fewer blocks than offsets.
    let threes = in_blocks(&rt, &[0], &[3], &[3]);
    owned(
        &rt,
        alloc,
        threes,
        domain(&rt, "4..27 by 2"),
        "122011200122",
    );
    let owners = "11000222111000222111000222111000222111000222111000";
    owned(&rt, alloc, threes, domain(&rt, "-9..40 by -1"), owners);
    let owners = "0221002110221002110221002110221002110221002110221002110221";
    owned(&rt, alloc, threes, domain(&rt, "1..400 by 7"), owners);
    assert_eq!(rt; threes.find(&[], index(&rt, &[5])), None);
}

// In how many domains each locale has its part of a domain. A locale that there isn't has none.
fn counts(rt: &impl Abort, alloc: Global, map: Map, text: &str, domains: &str) {
    let domain = domain(rt, text);
    let mut locale: u32 = 0;
    for word in domains.split_whitespace() {
        let part = map.part(alloc, &domain, locale).expect(rt, "memory");
        assert_eq!(rt; part.len(), count(rt, word));
        locale = locale.wrapping_add(1);
    }
}

// A part is its blocks or its offsets, whichever are fewer.
#[test]
fn fewest_domains(rt: HostRuntime) {
    let alloc = rt.alloc();
    let threes = in_blocks(&rt, &[0], &[3], &[3]);
    counts(&rt, alloc, threes, "4..27 by 2", "2 3 3 0");
    // A coordinate has more blocks than a block has offsets, by one at 1..24. Even members lie at two of four offsets.
    let threes = in_blocks(&rt, &[1], &[3], &[2]);
    counts(&rt, alloc, threes, "1..24", "3 3 0");
    counts(&rt, alloc, threes, "1..1099511627776", "3 3 0");
    let fours = in_blocks(&rt, &[0], &[4], &[2]);
    counts(&rt, alloc, fours, "2..1099511627776 by 2", "2 2 0");
    // A stride that is longer than a block passes over whole blocks: those with a member may lie far apart.
    counts(&rt, alloc, threes, "1..1099511627776 by 1000", "2 1 0");
    counts(
        &rt,
        alloc,
        threes,
        "1..1099511627776 by 549755813888",
        "2 0",
    );
    let long = in_blocks(&rt, &[0], &[1 << 30], &[2]);
    let far = "-1152921504606846976..1152921504606846976 by 36028797018963968";
    counts(&rt, alloc, long, far, "65 0 0");
}

// By the other rules a part is one domain, and none where it is empty.
#[test]
fn one_domain_or_none(rt: HostRuntime) {
    let alloc = rt.alloc();
    let blocks = block(&rt, "1..4", &[3]);
    let around = cyclic(&rt, &[1], &[3]);
    counts(&rt, alloc, blocks, "1..2", "1 0 0 0");
    counts(&rt, alloc, around, "1..2", "1 1 0 0");
    counts(&rt, alloc, Map::whole(), "1..2", "1 0");
    counts(&rt, alloc, blocks, "2..1", "0 0 0 0");
    counts(&rt, alloc, around, "2..1", "0 0 0 0");
    counts(&rt, alloc, Map::whole(), "2..1", "0 0");
    counts(&rt, alloc, blocks, "1..2,1..2", "1 0 0 0");
    counts(&rt, alloc, blocks, "1..2,2..1", "0 0 0 0");
}

// Of 2^24 indices in blocks of a size, the first of two locales has its part in at most so many domains.
#[test]
fn few_domains(rt: HostRuntime) {
    let long = domain(&rt, "1..16777216");
    for (size, most) in [(1, 1), (64, 64), (4096, 2048), (1 << 20, 8), (1 << 40, 1)] {
        let map = in_blocks(&rt, &[1], &[size], &[2]);
        let part = map.part(rt.alloc(), &long, 0).expect(&rt, "memory");
        assert!(rt; part.len() <= most);
        assert!(rt; !part.is_empty());
    }
}

// One coordinate has all of a dimension, which blocks do not cut.
#[test]
fn one_coordinate(rt: HostRuntime) {
    let alloc = rt.alloc();
    let alone = in_blocks(&rt, &[1], &[3], &[1]);
    counts(&rt, alloc, alone, "1..24", "1 0");
    counts(&rt, alloc, alone, "1..1099511627776 by -1000", "1 0");
    counts(&rt, alloc, alone, "2..1", "0 0");
    owned(&rt, alloc, alone, domain(&rt, "-2..9 by -2"), "000000");
    let columns = in_blocks(&rt, &[1, 1], &[1, 2], &[1, 2]);
    counts(&rt, alloc, columns, "1..6,1..8", "2 2 0");
    owned(&rt, alloc, columns, domain(&rt, "1..2,1..5"), "0011000110");
}

// In blocks of 17, of which each dimension has 36 and a locale 18, a part has 17 times 17 times 17 domains: one for each three
// offsets.
#[test]
fn many_domains(rt: HostRuntime) {
    let map = in_blocks(&rt, &[1, 1, 1], &[17, 17, 17], &[2, 2, 2]);
    let cube = domain(&rt, "1..612,1..612,1..612");
    let part = map.part(rt.alloc(), &cube, 0).expect(&rt, "memory");
    assert_eq!(rt; part.len(), 4913);
    assert_eq!(rt; map.find(&part, index(&rt, &[1, 1, 1])), Some((0, 0)));
    assert_eq!(rt; map.find(&part, index(&rt, &[1, 1, 2])), Some((1, 0)));
    assert_eq!(rt; map.find(&part, index(&rt, &[2, 1, 1])), Some((289, 0)));
    assert_eq!(rt; map.find(&part, index(&rt, &[1, 1, 35])), Some((0, 1)));
    assert_eq!(rt;
        map.find(&part, index(&rt, &[595, 595, 595])),
        Some((4912, 5831))
    );
}

fn owns(rt: &impl Abort, map: Map, coordinates: &[i64], owner: u32) {
    assert_eq!(rt; map.owner(index(rt, coordinates)), owner);
}

// Owners of indices outside of a box, of another rank, and at the ends of what numbers there are.
#[test]
fn limits(rt: HostRuntime) {
    let boxed = "-1152921504606846976..1152921504606846976 by 1152921504606846976";
    let blocks = block(&rt, boxed, &[64]);
    owns(&rt, blocks, &[0], 31);
    owns(&rt, blocks, &[LIMIT], 63);
    owns(&rt, blocks, &[-LIMIT], 0);
    owns(&rt, blocks, &[i64::MAX], 63);
    owns(&rt, cyclic(&rt, &[LIMIT], &[3]), &[-LIMIT], 1);
    owns(&rt, cyclic(&rt, &[-LIMIT], &[64]), &[i64::MIN], 0);
    owns(&rt, cyclic(&rt, &[LIMIT], &[64]), &[i64::MAX], 63);
    owns(&rt, cyclic(&rt, &[0], &[1]), &[i64::MIN], 0);
    let plane = block(&rt, "1..4,1..6", &[2, 3]);
    owns(&rt, plane, &[0, 7], 2);
    owns(&rt, plane, &[3], 0);
    owns(&rt, plane, &[1, 9, 9], 0);
    owns(&rt, in_blocks(&rt, &[0, 0], &[2, 3], &[2, 2]), &[-1, -1], 3);
}

// The first and the last of 64 blocks of a long line.
#[test]
fn long_blocks(rt: HostRuntime) {
    let long = domain(&rt, "1..1099511627776");
    let map = block(&rt, "1..1099511627776", &[64]);
    for (locale, low, high) in [(0, 1, 17179869184), (63, 1082331758593, 1099511627776)] {
        let part = map.part(rt.alloc(), &long, locale).expect(&rt, "memory");
        let first = part.first().copied().expect(&rt, "a domain");
        assert_eq!(rt; first.nth(0), Some(index(&rt, &[low])));
        assert_eq!(rt; first.nth(17179869183), Some(index(&rt, &[high])));
        assert_eq!(rt; first.size(), 17179869184);
    }
}

// Of three indices at the ends and in the middle each is in one part, and those beyond have an owner.
fn parted(rt: &impl Abort, alloc: Global, start: i64, size: i64, locales: u32) {
    let map = in_blocks(rt, &[start], &[size], &[locales]);
    let ends = "-1152921504606846976..1152921504606846976 by 1152921504606846976";
    let three = domain(rt, ends);
    let mut indices: u64 = 0;
    for locale in 0..locales {
        let part = map.part(alloc, &three, locale).expect(rt, "memory");
        indices = indices.wrapping_add(size_of(&part));
    }
    assert_eq!(rt; indices, 3);
    let (least, most) = (index(rt, &[i64::MIN]), index(rt, &[i64::MAX]));
    assert!(rt; map.owner(least) < locales && map.owner(most) < locales);
}

// Blocks from the ends of what ranges have, and of the greatest sizes.
#[test]
fn ends(rt: HostRuntime) {
    parted(&rt, rt.alloc(), LIMIT, 1, 64);
    parted(&rt, rt.alloc(), -LIMIT, LIMIT, 1);
    parted(&rt, rt.alloc(), LIMIT, i64::MAX, 64);
    parted(&rt, rt.alloc(), -LIMIT, 3, 1);
}

fn no_grid(rt: &impl Abort, extents: &[u32], fault: GridFault) {
    assert!(rt; Grid::new(extents) == Err(fault));
}

#[test]
fn no_grids(rt: HostRuntime) {
    no_grid(&rt, &[], GridFault::Rank);
    no_grid(&rt, &[1, 1, 1, 1], GridFault::Rank);
    no_grid(&rt, &[8, 0, 2], GridFault::Locales);
    no_grid(&rt, &[65], GridFault::Locales);
    no_grid(&rt, &[u32::MAX, u32::MAX, u32::MAX], GridFault::Locales);
    assert_eq!(rt; grid(&rt, &[4, 4, 4]).rank(), 3);
}

fn no_map(rt: &impl Abort, made: Result<Map, MapFault>, fault: MapFault) {
    assert!(rt; made == Err(fault));
}

// Of several causes the start is told first.
#[test]
fn no_maps(rt: HostRuntime) {
    let grid = grid(&rt, &[2, 2]);
    no_map(&rt, Map::block(&domain(&rt, "5..4"), grid), MapFault::Empty);
    no_map(&rt, Map::block(&domain(&rt, "4..5"), grid), MapFault::Rank);
    let (one, two) = (index(&rt, &[0]), index(&rt, &[0, 0]));
    let far = index(&rt, &[LIMIT + 1]);
    let beyond = index(&rt, &[0, -LIMIT - 1]);
    no_map(&rt, Map::cyclic(far, grid), MapFault::Start);
    no_map(&rt, Map::cyclic(beyond, grid), MapFault::Start);
    no_map(&rt, Map::cyclic(index(&rt, &[LIMIT]), grid), MapFault::Rank);
    no_map(&rt, Map::block_cyclic(far, one, grid), MapFault::Start);
    no_map(&rt, Map::block_cyclic(one, one, grid), MapFault::Rank);
    no_map(&rt, Map::block_cyclic(two, one, grid), MapFault::Rank);
    let (none, less) = (index(&rt, &[1, 0]), index(&rt, &[-1, 1]));
    no_map(&rt, Map::block_cyclic(two, none, grid), MapFault::Blocksize);
    no_map(&rt, Map::block_cyclic(two, less, grid), MapFault::Blocksize);
}

// What the faults of grids and maps print as.
#[test]
fn texts(rt: HostRuntime) {
    let grids = format!(in rt.alloc(); "{}; {}", GridFault::Rank, GridFault::Locales).expect(
        &rt, "memory",
    );
    assert_eq!(rt;
        grids.as_str(),
        "a grid has one to three dimensions; a grid has 1 to 64 locales"
    );
    let boxes = format!(in rt.alloc(); "{}; {}", MapFault::Empty, MapFault::Start).expect(
        &rt, "memory",
    );
    assert_eq!(rt;
        boxes.as_str(),
        "the box is empty; the start is outside -2^60..2^60"
    );
    let ranks = format!(in rt.alloc(); "{}; {}", MapFault::Rank, MapFault::Blocksize).expect(
        &rt, "memory",
    );
    assert_eq!(rt;
        ranks.as_str(),
        "the grid has another number of dimensions; a block has at least one index"
    );
}
