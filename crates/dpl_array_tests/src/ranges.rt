// Ranges: every index of one where it stands, what classes and slices leave, and what is no range.

use crate::made::{LIMIT, int, range};
use dpl_range::Range;
use std::alloc::Global;
use std::process::Abort;

// Whether a member stands at this place of a range.
fn has(range: Range, k: u64, i: i64) -> bool {
    range.nth(k) == Some(i) && range.place(i) == Some(k) && range.contains(i)
}

// The range has these members, each at its place, and no others at its ends.
fn lists(rt: &impl Abort, range: Range, members: &str) {
    let mut k: u64 = 0;
    let mut last = None;
    for member in members.split_whitespace() {
        let i = int(rt, member);
        assert!(rt; has(range, k, i), "{members}");
        k = k.wrapping_add(1);
        last = Some(i);
    }
    let ends = range.size() == k && range.nth(k).is_none() && range.last() == last;
    assert!(rt; ends && range.first() == range.nth(0), "{members}");
}

#[test]
fn slices(rt: HostRuntime) {
    let falling = range(&rt, "1..10 by -3");
    lists(&rt, falling, "10 7 4 1");
    assert_eq!(rt; (falling.low(), falling.high()), (Some(1), Some(10)));
    lists(&rt, falling.slice(2, 8), "7 4");
    lists(&rt, range(&rt, "1..9 by -3"), "9 6 3");
    lists(&rt, range(&rt, "1..12 by 5").slice(5, 8), "6");
    let empty = range(&rt, "5..4");
    lists(&rt, empty, "");
    lists(&rt, empty.slice(1, 9), "");
    assert_eq!(rt; empty.slice(5, 9).high_bound(), 4);
}

// The members of a class: those at one remainder from a start, by a period.
#[test]
fn classes(rt: HostRuntime) {
    let falling = range(&rt, "1..10 by -3");
    lists(&rt, falling.class(0, 2, 1), "7 1");
    lists(&rt, falling.class(1, 3, 1), "");
    let sevens = range(&rt, "0..1000000 by 7");
    lists(&rt, sevens.class(3, 300000, 1), "900004");
    let even = range(&rt, "0..9 by 2");
    lists(&rt, even, "0 2 4 6 8");
    lists(&rt, even.class(1, 3, 0), "4");
    lists(&rt, even.class(1, 3, 1), "2 8");
    lists(&rt, even.class(1, 3, 2), "0 6");
    lists(&rt, range(&rt, "5..4").class(0, 64, 63), "");
}

#[test]
fn limits(rt: HostRuntime) {
    let all = Range::new(-LIMIT, LIMIT, 1).expect(&rt, "a range");
    assert_eq!(rt; all.size(), 2305843009213693953);
    let ends = "-1152921504606846976 1152921504606846976";
    lists(&rt, all.class(-LIMIT, 1 << 61, 0), ends);
    let three = Range::new(-LIMIT, LIMIT, LIMIT).expect(&rt, "a range");
    lists(&rt, three, "-1152921504606846976 0 1152921504606846976");
    lists(&rt, three.class(0, 64, 1), "");
    let falling = Range::new(-LIMIT, LIMIT, -LIMIT).expect(&rt, "a range");
    lists(&rt, falling, "1152921504606846976 0 -1152921504606846976");
}

// The numbers are no range, and this is why.
fn refused(rt: &impl Abort, alloc: Global, low: i64, high: i64, stride: i64, why: &str) {
    let Err(fault) = Range::new(low, high, stride) else {
        panic!(rt; "the range is made")
    };
    let told = format!(in alloc; "{fault}").expect(rt, "memory");
    assert_eq!(rt; told.as_str(), why);
}

// A bound is told before a stride.
#[test]
fn faults(rt: HostRuntime) {
    let alloc = rt.alloc();
    let bound = "a bound is outside -2^60..2^60";
    let stride = "the stride is not from 1 to 2^60 in size";
    refused(&rt, alloc, -LIMIT - 1, 0, 1, bound);
    refused(&rt, alloc, 0, LIMIT + 1, 1, bound);
    refused(&rt, alloc, LIMIT + 1, 0, 0, bound);
    refused(&rt, alloc, 0, 0, 0, stride);
    refused(&rt, alloc, 0, 0, LIMIT + 1, stride);
    refused(&rt, alloc, 0, 0, -LIMIT - 1, stride);
}
