// Arrays in pieces, walked over and read and written by rows: what no program of the language does yet, and how long rows are.
// That the values are right is what the contracts say; how many stand side by side no clause says.

use crate::made::{block, cyclic, domain, in_blocks, index, squares};
use dpl_array::{DArray, Piece, Pieces, Row};
use dpl_domain::Index;
use dpl_map::Map;
use std::alloc::Global;
use std::process::Abort;

// The pieces are taken out and put back, the first first.
fn turned(rt: &impl Abort, array: DArray<i64>) -> DArray<i64> {
    let locales = array.map().locales();
    let mut pieces = array.take_pieces();
    for locale in 0..locales {
        let piece = pieces.take(locale).expect(rt, "each locale has its piece");
        let is_out = !pieces.is_whole() && pieces.take(locale).is_none();
        assert!(rt; is_out && pieces.put(piece).is_ok());
    }
    assert!(rt; pieces.take(locales).is_none() && pieces.is_whole());
    pieces.put_back()
}

// Whether an element is the square that it should be.
fn is_square(array: &DArray<i64>, index: Index, value: i64) -> bool {
    let (_, _, i) = index.numbers();
    value == i.wrapping_mul(i)
        && array.get(index) == Some(value)
        && array.get_line(i) == Some(value)
}

// Each element is walked over once, and is the square that it should be.
fn hold(rt: &impl Abort, array: &DArray<i64>) {
    let mut walk = array.walk();
    for _ in 0..array.domain().size() {
        let (index, value) = walk.next().expect(rt, "an element for each index");
        assert!(rt; is_square(array, index, value));
    }
    assert!(rt; walk.next().is_none());
}

// The four maps of a line, on so many locales.
fn maps(rt: &impl Abort, boxed: &str, locales: u32) -> [Map; 4] {
    [
        Map::whole(),
        block(rt, boxed, &[locales]),
        cyclic(rt, &[1], &[locales]),
        in_blocks(rt, &[1], &[3], &[locales]),
    ]
}

#[test]
fn pieces(rt: HostRuntime) {
    for text in ["1..40", "-20..20 by 3", "0..50 by -7", "5..5"] {
        for map in maps(&rt, text, 4) {
            let array = squares(&rt, rt.alloc(), domain(&rt, text), map);
            hold(&rt, &array);
            let array = turned(&rt, array);
            hold(&rt, &array);
            walked(&rt, &array);
            assert!(&rt; array.get(index(&rt, &[100])).is_none());
        }
    }
}

// How many elements a walk over a piece gives, each as the piece has it; none where one is another.
fn walked_over(piece: &Piece<i64>, most: u64) -> Option<u64> {
    let mut walk = piece.walk();
    let mut elements: u64 = 0;
    for _ in 0..most {
        if let Some((index, value)) = walk.next() {
            if piece.get(index) != Some(value) {
                return None;
            }
            elements = elements.wrapping_add(1);
        }
    }
    if walk.next().is_none() {
        Some(elements)
    } else {
        None
    }
}

// Each element of each piece is walked over once.
fn walked(rt: &impl Abort, array: &DArray<i64>) {
    let most = array.domain().size();
    let mut elements: u64 = 0;
    for locale in 0..array.map().locales() {
        let piece = array.piece(locale).expect(rt, "each locale has its piece");
        let some = walked_over(piece, most).expect(rt, "the piece's elements");
        elements = elements.wrapping_add(some);
    }
    assert_eq!(rt; elements, most);
}

// The pieces of an array of squares on two locales.
fn pieces_of(rt: &impl Abort, alloc: Global, text: &str, map: Map) -> Pieces<i64> {
    squares(rt, alloc, domain(rt, text), map).take_pieces()
}

// A piece of another map has no place, one of the same indices has, and a place that is taken hands back.
#[test]
fn strangers(rt: HostRuntime) {
    let around = cyclic(&rt, &[1], &[2]);
    let other = in_blocks(&rt, &[1], &[3], &[2]);
    let mut pieces = pieces_of(&rt, rt.alloc(), "1..9 by 2", around);
    let mut others = pieces_of(&rt, rt.alloc(), "1..9 by 2", other);
    let mut alike = pieces_of(&rt, rt.alloc(), "1..10 by 2", around);
    let own = pieces.take(1).expect(&rt, "a piece");
    let stranger = others.take(1).expect(&rt, "a piece");
    assert!(&rt; pieces.put(stranger).is_err());
    assert!(&rt; pieces.put(alike.take(1).expect(&rt, "a piece")).is_ok());
    let Err(piece) = pieces.put(own) else {
        panic!(&rt; "the place is taken")
    };
    assert_eq!(&rt; piece.locale(), 1);
}

// The row from an index on by a step.
fn row(rt: &impl Abort, first: Index, step: i64) -> Row {
    if step == 0 {
        panic!(rt; "a row has a step")
    }
    Row::new(first, step)
}

// So many values stand side by side at the indices of a row. Each is the one that the array has there.
fn runs(rt: &impl Abort, array: &DArray<i64>, from: Row, length: usize) {
    let run = array.run(from);
    assert_eq!(rt; run.len(), length);
    let (plane, line, column) = from.first().numbers();
    let mut at = column;
    for value in run {
        let there = match from.first().rank() {
            1 => array.get_line(at),
            2 => array.get_plane(line, at),
            _ => array.get_space(plane, line, at),
        };
        assert_eq!(rt; there, Some(*value));
        at = at.wrapping_add(from.step());
    }
}

// Of a line they go to the end of the part, where that is one domain with the row's step as its stride, and else there are none.
#[test]
fn runs_of_a_line(rt: HostRuntime) {
    let [whole, blocks, around, in_threes] = maps(&rt, "1..40", 4);
    for (map, step, length) in [
        (whole, 1, 34),
        (whole, 4, 0),
        (blocks, 1, 4),
        (around, 1, 0),
        (around, 4, 9),
        (around, -4, 0),
        (in_threes, 1, 0),
        (in_threes, 12, 0),
    ] {
        let array = squares(&rt, rt.alloc(), domain(&rt, "1..40"), map);
        runs(&rt, &array, row(&rt, index(&rt, &[7]), step), length);
        runs(&rt, &array, row(&rt, index(&rt, &[41]), step), 0);
        runs(&rt, &array, row(&rt, index(&rt, &[0]), step), 0);
    }
}

// Of a domain with a stride they go by it, upwards or downwards, and through a piece by as many strides as it skips.
#[test]
fn runs_by_strides(rt: HostRuntime) {
    let around = cyclic(&rt, &[1], &[2]);
    for (text, map, from, step, length) in [
        ("1..40 by 3", Map::whole(), 7, 3, 12),
        ("1..40 by 3", Map::whole(), 8, 3, 0),
        ("1..40 by -3", Map::whole(), 7, -3, 3),
        ("1..40 by -3", Map::whole(), 7, 3, 0),
        ("1..40 by 3", around, 7, 6, 6),
        ("1..40 by 3", around, 10, 6, 6),
        ("1..40 by -3", around, 10, -6, 2),
        ("-40..-1 by 3", around, -37, 6, 7),
    ] {
        let array = squares(&rt, rt.alloc(), domain(&rt, text), map);
        runs(&rt, &array, row(&rt, index(&rt, &[from]), step), length);
    }
}

// Of a plane they go to the end of the row.
#[test]
fn runs_of_a_plane(rt: HostRuntime) {
    let plane = domain(&rt, "1..3,1..5");
    let mut array = DArray::new(rt.alloc(), plane, Map::whole(), 0).expect(&rt, "memory");
    assert!(&rt; array.set_plane(2, 3, 7));
    for (i, j, length) in [
        (1, 1, 5),
        (2, 2, 4),
        (3, 5, 1),
        (2, 6, 0),
        (4, 1, 0),
        (2, 0, 0),
    ] {
        runs(&rt, &array, row(&rt, index(&rt, &[i, j]), 1), length);
    }
}

// And so they do of three dimensions, also where the last one goes round.
#[test]
fn runs_of_a_space(rt: HostRuntime) {
    let space = domain(&rt, "0..1,1..3,1..9");
    for (map, step, length) in [
        (Map::whole(), 1, 7),
        (cyclic(&rt, &[0, 1, 1], &[1, 1, 2]), 2, 4),
        (cyclic(&rt, &[0, 1, 1], &[1, 3, 1]), 1, 7),
    ] {
        let array = squares(&rt, rt.alloc(), space, map);
        runs(&rt, &array, row(&rt, index(&rt, &[1, 2, 3]), step), length);
        runs(&rt, &array, row(&rt, index(&rt, &[1, 2, 10]), step), 0);
        runs(&rt, &array, row(&rt, index(&rt, &[2, 2, 3]), step), 0);
    }
}

// What an array of squares has at an index when these values were put at the first indices of a row.
fn expected(at: Index, from: Row, put: &[i64]) -> i64 {
    let (_, line, first) = from.first().numbers();
    let (_, i, j) = at.numbers();
    let mut place = first;
    for value in put {
        if i == line && j == place {
            return *value;
        }
        place = place.wrapping_add(from.step());
    }
    j.wrapping_mul(j)
}

// Of some values so many are put side by side at the indices of a row. They stand there then, and beside them still the squares.
fn puts(rt: &impl Abort, array: &mut DArray<i64>, from: Row, values: &[i64], put: usize) {
    assert_eq!(rt; array.set_run(from, values), put);
    let values = &values[..put.min(values.len())];
    let mut indices = array.domain().cursor();
    for _ in 0..array.domain().size() {
        let at = indices.next().expect(rt, "an index for each turn");
        assert!(rt; array.get(at) == Some(expected(at, from, values)));
    }
}

// No value, one, three and eight are put along a row, and at most as many as there are places.
fn rows_put(rt: &impl Abort, alloc: Global, text: &str, map: Map, from: Row, places: usize) {
    let many = [-1, -2, -3, -4, -5, -6, -7, -8];
    for values in [&many[..0], &many[..1], &many[..3], &many[..8]] {
        let mut array = squares(rt, alloc, domain(rt, text), map);
        puts(rt, &mut array, from, values, values.len().min(places));
    }
}

// On a line they are put up to the end of the part, where the row's step is some of its strides, and else none is.
#[test]
fn rows_put_on_a_line(rt: HostRuntime) {
    let [whole, blocks, around, in_threes] = maps(&rt, "1..40", 4);
    for (map, step, there) in [
        (whole, 1, 4),
        (blocks, 1, 4),
        (around, 1, 0),
        (around, 4, 1),
        (in_threes, 1, 0),
    ] {
        rows_put(
            &rt,
            rt.alloc(),
            "1..40",
            map,
            row(&rt, index(&rt, &[37]), step),
            there,
        );
        rows_put(
            &rt,
            rt.alloc(),
            "1..40",
            map,
            row(&rt, index(&rt, &[41]), step),
            0,
        );
        rows_put(
            &rt,
            rt.alloc(),
            "1..40",
            map,
            row(&rt, index(&rt, &[0]), step),
            0,
        );
    }
    rows_put(
        &rt,
        rt.alloc(),
        "1..40",
        around,
        row(&rt, index(&rt, &[2]), 4),
        10,
    );
    rows_put(
        &rt,
        rt.alloc(),
        "1..40 by -3",
        Map::whole(),
        row(&rt, index(&rt, &[10]), -3),
        4,
    );
}

// Where the row's step is several strides of the part, the squares between stay. Backwards is another way.
#[test]
fn rows_put_apart(rt: HostRuntime) {
    let [whole, blocks, around, in_threes] = maps(&rt, "1..40", 4);
    for (text, map, first, step, there) in [
        ("1..40", whole, 1, 5, 8),
        ("1..40", whole, 37, 3, 2),
        ("1..40", whole, 38, 3, 1),
        ("1..40", whole, 40, 2, 1),
        ("1..40", whole, 20, -2, 0),
        ("1..40", whole, 41, 2, 0),
        ("1..40", blocks, 2, 3, 3),
        ("1..40", blocks, 10, 9, 1),
        ("1..40", around, 2, 8, 5),
        ("1..40", around, 2, 6, 0),
        ("1..40", in_threes, 2, 3, 0),
        ("1..40 by -3", Map::whole(), 40, -6, 7),
        ("1..40 by -3", Map::whole(), 40, -9, 5),
        ("1..40 by -3", Map::whole(), 10, 6, 0),
        ("1..40 by 2", Map::whole(), 3, 4, 8),
        ("1..40 by 2", Map::whole(), 3, 3, 0),
    ] {
        let from = row(&rt, index(&rt, &[first]), step);
        rows_put(&rt, rt.alloc(), text, map, from, there);
    }
}

// On a plane they are put up to the end of the row.
#[test]
fn rows_put_on_a_plane(rt: HostRuntime) {
    let (plane, at) = ("1..3,1..8", index(&rt, &[2, 6]));
    rows_put(&rt, rt.alloc(), plane, Map::whole(), row(&rt, at, 1), 3);
    rows_put(
        &rt,
        rt.alloc(),
        plane,
        block(&rt, plane, &[1, 2]),
        row(&rt, at, 1),
        3,
    );
    rows_put(
        &rt,
        rt.alloc(),
        plane,
        cyclic(&rt, &[1, 1], &[1, 2]),
        row(&rt, at, 1),
        0,
    );
    rows_put(
        &rt,
        rt.alloc(),
        plane,
        cyclic(&rt, &[1, 1], &[1, 2]),
        row(&rt, at, 2),
        2,
    );
}
