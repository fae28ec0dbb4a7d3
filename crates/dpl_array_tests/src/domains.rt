// Domains: their indices row by row, slices of them, domains that are expanded, and what is no domain.

use crate::made::{LIMIT, domain, int, range};
use dpl_domain::{Domain, DomainFault, Index};
use std::alloc::Global;
use std::process::Abort;

// Whether an index stands at this place of a domain, and is printed so.
fn has(rt: &impl Abort, alloc: Global, domain: Domain, k: u64, index: Index, text: &str) -> bool {
    let printed = format!(in alloc; "{index}").expect(rt, "memory");
    printed.as_str() == text && domain.nth(k) == Some(index) && domain.place(index) == Some(k)
}

// The domain has these indices, row by row, each as it is printed.
fn indexed(rt: &impl Abort, alloc: Global, domain: Domain, indices: &str) {
    let mut cursor = domain.cursor();
    let mut k: u64 = 0;
    for text in indices.split_whitespace() {
        let index = cursor.next().expect(rt, "an index for each text");
        assert!(rt; has(rt, alloc, domain, k, index, text), "{text}");
        k = k.wrapping_add(1);
    }
    let ends = domain.size() == k && domain.nth(k).is_none();
    assert!(rt;
        ends && cursor.next().is_none() && cursor.next().is_none(),
        "{indices}"
    );
}

#[test]
fn indices(rt: HostRuntime) {
    let alloc = rt.alloc();
    let strided = domain(&rt, "1..10 by 4,0..1");
    indexed(&rt, alloc, strided, "1,0 1,1 5,0 5,1 9,0 9,1");
    let sliced = strided.slice(&[(2, 9), (1, 1)]).expect(&rt, "a slice");
    indexed(&rt, alloc, sliced, "5,1 9,1");
    assert_eq!(rt; strided.slice(&[(2, 9)]), Err(DomainFault::Rank));
    let cube = domain(&rt, "1..2,3..3,4..5 by -1");
    indexed(&rt, alloc, cube, "1,3,5 1,3,4 2,3,5 2,3,4");
    assert_eq!(rt;
        Index::new(&[1, 3]).map(|index| cube.contains(index)),
        Some(false)
    );
    indexed(&rt, alloc, domain(&rt, "1..2,1..0"), "");
}

// Ranges of which there are too few, too many, or too long ones.
#[test]
fn ranges(rt: HostRuntime) {
    let long = range(&rt, "1..1048576");
    assert_eq!(rt; domain(&rt, "1..1048576,1..1048576").size(), 1099511627776);
    assert_eq!(rt;
        Domain::new(&[long, range(&rt, "1..1048577")]),
        Err(DomainFault::Size)
    );
    assert_eq!(rt; Domain::new(&[]), Err(DomainFault::Rank));
    assert_eq!(rt;
        Domain::new(&[long, long, long, long]),
        Err(DomainFault::Rank)
    );
}

#[test]
fn expansions(rt: HostRuntime) {
    let alloc = rt.alloc();
    let six = domain(&rt, "1..6");
    indexed(&rt, alloc, six.expand(-2).expect(&rt, "two less"), "3 4");
    indexed(&rt, alloc, six.expand(-3).expect(&rt, "three less"), "");
    indexed(&rt, alloc, six.expand(1 - LIMIT).expect(&rt, "none"), "");
    assert_eq!(rt; six.expand(0), Ok(six));
    let none = domain(&rt, "1..0,5..5");
    indexed(&rt, alloc, none.expand(0).expect(&rt, "the same"), "");
    indexed(&rt, alloc, none.expand(-1).expect(&rt, "one less"), "");
    let more = none.expand(1).expect(&rt, "one more");
    indexed(&rt, alloc, more, "0,4 0,5 0,6 1,4 1,5 1,6");
    let cube = domain(&rt, "3..2,4..4,5..5")
        .expand(1)
        .expect(&rt, "one more");
    assert_eq!(rt; cube.size(), 18);
    let square = domain(&rt, "1..1048574,1..1048574");
    let most = square.expand(1).expect(&rt, "one more");
    assert_eq!(rt; most.size(), 1099511627776);
}

// Domains and by how much they can't be expanded: too large a domain is told first, then a stride, then a bound.
const REFUSED: &str = "\
1..1048574,1..1048574 | 2 | a domain has at most 2^40 indices
1..6 | 9223372036854775807 | a domain has at most 2^40 indices
1..6 | -9223372036854775808 | a bound is outside -2^60..2^60
1..6 | -1152921504606846976 | a bound is outside -2^60..2^60
1152921504606846976 | 1 | a bound is outside -2^60..2^60
-1152921504606846976 | 1 | a bound is outside -2^60..2^60
1..6 by 2 | 0 | only a domain of stride 1 can be expanded
1..6 by -1 | 0 | only a domain of stride 1 can be expanded
1..6 by 2,0..1 | 1 | only a domain of stride 1 can be expanded
1..6 by 2 | 9223372036854775807 | a domain has at most 2^40 indices
1..6 by 2 | -9223372036854775808 | only a domain of stride 1 can be expanded
1..6 by 1152921504606846976 | 9223372036854775807 | only a domain of stride 1 can be expanded
1..6,1152921504606846976 | 1073741824 | a domain has at most 2^40 indices";

// Why a domain can't be expanded by so much.
fn refused(rt: &impl Abort, alloc: Global, text: &str, k: &str) -> String {
    let Err(fault) = domain(rt, text).expand(int(rt, k)) else {
        panic!(rt; "the domain is expanded")
    };
    format!(in alloc; "{fault}").expect(rt, "memory")
}

#[test]
fn faults(rt: HostRuntime) {
    let mut rows: usize = 0;
    for line in REFUSED.lines() {
        let (text, rest) = line.split_once(" | ").unwrap_or((line, ""));
        let (k, fault) = rest.split_once(" | ").unwrap_or((rest, ""));
        assert_eq!(rt; refused(&rt, rt.alloc(), text, k).as_str(), fault);
        rows = rows.saturating_add(1);
    }
    assert_eq!(rt; rows, 13);
    let rank = format!(in rt.alloc(); "{}", DomainFault::Rank).expect(&rt, "memory");
    assert_eq!(rt; rank.as_str(), "a domain has one to three dimensions");
}
