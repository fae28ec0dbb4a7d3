// Halos and loans at work: by blocks, going round, and by blocks that go round.
// Every row is run once on the built code; that the values are right is what the contracts say.

ghost use Rattle.std.specs.Prelude.{◌≡◌};

use crate::made::{block, count, cyclic, domain, in_blocks, index, squares};
use dpl_array::DArray;
use dpl_domain::{Domain, Index};
use dpl_halo::{Halo, Loan, Shift, Subscript};
use dpl_map::Map;
use std::alloc::Global;
use std::process::Abort;

pub(crate) fn shift(rt: &impl Abort, offset: i64) -> Shift {
    let subscript = Subscript {
        coordinate: 0,
        offset,
    };
    Shift::new(&[subscript]).expect(rt, "one subscript makes a shift")
}

// The halo of the reads before and behind a turn, by a distance.
fn collect(
    rt: &impl Abort,
    alloc: Global,
    array: &DArray<i64>,
    turns: &Domain,
    locale: u32,
    distance: i64,
) -> Halo<i64> {
    let back = shift(rt, distance.wrapping_neg());
    let shifts = [back, shift(rt, distance), back];
    let Ok(halo) = Halo::collect(alloc, array, turns, &array.map(), locale, &shifts) else {
        panic!(rt; "there is memory for the halo")
    };
    halo
}

// How many elements each locale's halo has, which are the elements that it has of the array, and others'.
fn halos(
    rt: &impl Abort,
    alloc: Global,
    array: &DArray<i64>,
    turns: &Domain,
    distance: i64,
    counts: &str,
) {
    let map = array.map();
    let mut locale: u32 = 0;
    for word in counts.split_whitespace() {
        let halo = collect(rt, alloc, array, turns, locale, distance);
        assert_eq!(rt; halo.len(), count(rt, word));
        for i in 0..10i64 {
            let index = index(rt, &[i]);
            if let Some(value) = halo.get(index) {
                assert_eq!(rt; Some(value), array.get(index));
                assert!(rt; map.owner(index) != locale);
            }
        }
        locale = locale.wrapping_add(1);
    }
}

#[test]
fn neighbours(rt: HostRuntime) {
    let (eight, turns) = (domain(&rt, "1..8"), domain(&rt, "2..7"));
    let (around, in_threes) = (cyclic(&rt, &[1], &[4]), in_blocks(&rt, &[1], &[3], &[4]));
    for (map, counts) in [
        (block(&rt, "1..8", &[4]), "1 2 2 1"),
        (around, "2 4 4 2"),
        (in_threes, "1 2 1 0"),
        (Map::whole(), "0 0 0 0"),
    ] {
        let array = squares(&rt, rt.alloc(), eight, map);
        halos(&rt, rt.alloc(), &array, &turns, 1, counts);
    }
}

// Halos by blocks of domains with a stride, upwards and downwards.
#[test]
fn strided_neighbours(rt: HostRuntime) {
    for (text, locales, counts) in [
        ("1..16 by 3", 4, "1 2 2 1"),
        ("1..10 by -3", 2, "1 1"),
        ("-300..300 by 3", 3, "1 2 1"),
    ] {
        let domain = domain(&rt, text);
        let array = squares(&rt, rt.alloc(), domain, block(&rt, text, &[locales]));
        halos(&rt, rt.alloc(), &array, &domain, 3, counts);
    }
}

#[test]
fn loans(rt: HostRuntime) {
    let mut array = squares(&rt, rt.alloc(), domain(&rt, "1..8"), Map::whole());
    let domains = [
        domain(&rt, "7..12"),
        domain(&rt, "2..8 by 5"),
        domain(&rt, "5..4"),
    ];
    let Ok(mut loan) = Loan::collect(rt.alloc(), &array, &domains) else {
        panic!(&rt; "there is memory for the loan")
    };
    assert_eq!(&rt; loan.len(), 3);
    assert_eq!(&rt; loan.get(index(&rt, &[7])), Some(49));
    assert!(&rt; loan.set(index(&rt, &[7]), 1));
    assert!(&rt; loan.set(index(&rt, &[8]), 2));
    assert!(&rt; !loan.set(index(&rt, &[12]), 3));
    assert_eq!(&rt; loan.get(index(&rt, &[1])), None);
    assert!(&rt; loan.domain() == array.domain());
    settle(&rt, loan, &mut array);
}

// Settles a loan of two written elements with an array.
fn settle(rt: &impl Abort, loan: Loan<i64>, array: &mut DArray<i64>)
    requires { loan.domain ≡ array.old.domain }
{
    loan.settle(array);
    for (i, value) in [(1, 1), (2, 4), (6, 36), (7, 1), (8, 2)] {
        assert_eq!(rt; array.get_line(i), Some(value));
    }
}
