// How many words stand side by side in an array of a running program, which shows by which map it is cut. No clause says either.

use crate::made::{block, cyclic, in_blocks, index};
use dpl_array::Row;
use dpl_contents::{ArrayWords, DomainWord, RangeWord};
use dpl_map::Map;
use dpl_range::Range;
use std::alloc::Global;
use std::process::Abort;

// The range from 1 on.
fn up_to(rt: &impl Abort, high: i64) -> RangeWord {
    let range = Range::new(1, high, 1).expect(rt, "a range");
    RangeWord {
        range,
        strided: false,
    }
}

#[test]
fn rows_of_words(rt: HostRuntime) {
    let ranges = [up_to(&rt, 2), up_to(&rt, 3)];
    let plane = DomainWord::new(&ranges).expect(&rt, "a domain");
    let made = ArrayWords::new(rt.alloc(), plane, Map::whole(), 4);
    let mut array = made.expect(&rt, "memory");
    let row = Row::new(index(&rt, &[2, 1]), 1);
    assert_eq!(rt; array.set_run(row, &[7, 8, 9, 10]), 3);
    assert!(rt; array.run(row) == [7, 8, 9].as_slice());
    assert_eq!(rt; array.get_plane(1, 3), Some(4));
}

// An array of a line from 1 on that has at each index its square, dealt out by a map.
fn squares(rt: &impl Abort, alloc: Global, high: i64, map: Map) -> ArrayWords {
    let line = DomainWord::new(&[up_to(rt, high)]).expect(rt, "a domain");
    let mut array = ArrayWords::new(alloc, line, map, 0).expect(rt, "memory");
    for i in 1..high.wrapping_add(1) {
        assert!(rt; array.set_line(i, i.wrapping_mul(i)));
    }
    array
}

// Whether it has them.
fn are_squares(array: &ArrayWords, high: i64) -> bool {
    for i in 1..high.wrapping_add(1) {
        if array.get_line(i) != Some(i.wrapping_mul(i)) {
            return false;
        }
    }
    true
}

// An array that is dealt anew by one map after another: all elements are there, and so many stand side by side from the first index on.
#[test]
fn dealt_anew(rt: HostRuntime) {
    let mut array = squares(&rt, rt.alloc(), 40000, Map::whole());
    let row = Row::new(index(&rt, &[1]), 1);
    for (map, beside) in [
        (block(&rt, "1..40000", &[4]), 10000),
        (cyclic(&rt, &[1], &[4]), 0),
        (in_blocks(&rt, &[1], &[3], &[2]), 0),
        (block(&rt, "1..40000", &[2]), 20000),
        (block(&rt, "-9999..40000", &[2]), 15000),
        (Map::whole(), 40000),
    ] {
        array = array.dealt(rt.alloc(), &map).expect(&rt, "memory");
        assert!(&rt; array.is_cut_by(&map) && are_squares(&array, 40000));
        assert_eq!(&rt; array.run(row).len(), beside);
    }
}

// Fewer than 30,000 elements stand side by side, whatever map deals them out.
#[test]
fn few_elements(rt: HostRuntime) {
    let around = cyclic(&rt, &[1], &[4]);
    let row = Row::new(index(&rt, &[1]), 1);
    for (high, beside) in [(8, 8), (29999, 29999), (30000, 0)] {
        let made = squares(&rt, rt.alloc(), high, around);
        assert_eq!(&rt; made.run(row).len(), beside);
        let dealt = made
            .dealt(rt.alloc(), &Map::whole())
            .expect(&rt, "memory")
            .dealt(rt.alloc(), &around)
            .expect(&rt, "memory");
        assert_eq!(&rt; dealt.run(row).len(), beside);
        assert!(&rt; are_squares(&dealt, high));
    }
}
