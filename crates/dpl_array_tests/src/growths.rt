// Growths of memory that are refused: under `rt try --test --fail-alloc N` the Nth growth of a test is.
// Then of two things that are made alike one is not made, and the other is; other tests fail.

use crate::halos::shift;
use crate::made::{cyclic, domain};
use dpl_array::DArray;
use dpl_domain::Domain;
use dpl_halo::{Halo, Loan, Shift};
use dpl_map::Map;
use std::alloc::Global;

// Whether a map's part is made.
fn is_parted(alloc: Global, map: Map, domain: Domain) -> bool {
    map.part(alloc, &domain, 0).is_ok()
}

// Whether an array is made and its domain is changed.
fn is_moved(alloc: Global, map: Map, domain: Domain, to: Domain) -> bool {
    let Ok(array) = DArray::new(alloc, domain, map, 5i64) else {
        return false;
    };
    array.redomain(alloc, to, 0).is_ok()
}

// Whether an array is made, and of it a halo.
fn has_halo(alloc: Global, map: Map, domain: Domain, shifts: &[Shift]) -> bool {
    let Ok(array) = DArray::new(alloc, domain, map, 5i64) else {
        return false;
    };
    Halo::collect(alloc, &array, &domain, &map, 1, shifts).is_ok()
}

// Whether an array is made, and of it a loan.
fn has_loan(alloc: Global, map: Map, domain: Domain) -> bool {
    let Ok(array) = DArray::new(alloc, domain, map, 5i64) else {
        return false;
    };
    Loan::collect(alloc, &array, &[domain]).is_ok()
}

#[test]
fn a_growth_refused(rt: HostRuntime) {
    let alloc = rt.alloc();
    let (domain, to) = (domain(&rt, "1..8"), domain(&rt, "3..10"));
    let map = cyclic(&rt, &[1], &[3]);
    let shifts = [shift(&rt, -1), shift(&rt, 1)];
    let first = is_parted(alloc, map, domain);
    assert!(rt; first || is_parted(alloc, map, domain));
    let first = is_moved(alloc, map, domain, to);
    assert!(rt; first || is_moved(alloc, map, domain, to));
    let first = has_halo(alloc, map, domain, &shifts);
    assert!(rt; first || has_halo(alloc, map, domain, &shifts));
    let first = has_loan(alloc, map, domain);
    assert!(rt; first || has_loan(alloc, map, domain));
}
