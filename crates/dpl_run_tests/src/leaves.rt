// What a program leaves: the variables of its top level, and their dump, in which ranges and domains have no line.

use crate::programs::one_locale;
use dpl_run::{Left, OpenGate, Outcome, Plain, Value, dump, run_text};

const LEAVES: &str = "\
var n = 5; const yes = n > 4; var r = 1..9 by -2; { var hidden = 1; }
for i in 1..3 do n += i; config const c = 3; writeln(n); var d = {0..1, 2..4}; d = d[1..1, 2..9]; var a: [d] bool; a[1, 3] = true; { var a = 1; }";

// The int that a name is left with.
fn int_left(left: &Left, name: &[u8]) -> Option<i64> {
    match left.get(name) {
        Some(Value::Int(n)) => Some(n),
        _ => None,
    }
}

// How many members the range has that a name is left with.
fn members_left(left: &Left, name: &[u8]) -> Option<u64> {
    match left.get(name) {
        Some(Value::Range(range)) => Some(range.range.size()),
        _ => None,
    }
}

// The element at two coordinates of the array that a name is left with.
fn element_left(left: &Left, name: &[u8], i: i64, j: i64) -> Option<i64> {
    match left.get(name) {
        Some(Value::Ints(array) | Value::Bools(array)) => array.get_plane(i, j),
        _ => None,
    }
}

// Whether each name of the top level is left with its value, and no other name.
fn are_left(left: &Left) -> bool {
    left.len() == 6
        && int_left(left, b"n") == Some(11)
        && int_left(left, b"c") == Some(-8)
        && matches!(left.get(b"yes"), Some(Value::Bool(true)))
        && members_left(left, b"r") == Some(5)
        && matches!(left.get(b"d"), Some(Value::Domain(_)))
        && left.get(b"i").is_none()
        && left.get(b"hidden").is_none()
}

// Whether the array has one element that is true.
fn is_set(left: &Left) -> bool {
    element_left(left, b"a", 1, 2) == Some(0)
        && element_left(left, b"a", 1, 3) == Some(1)
        && element_left(left, b"a", 0, 2).is_none()
}

#[test]
fn leaves(rt: HostRuntime) {
    let config = one_locale(&rt);
    let mut out = Plain::new(Vec::new(rt.alloc()));
    let text = LEAVES.as_bytes();
    let result = run_text(
        &rt,
        rt.alloc(),
        text,
        &["c=-8"],
        &config,
        &OpenGate,
        &mut out,
    );
    let Ok(Outcome::Done(left)) = result else {
        panic!(rt; "the program runs to its end")
    };
    assert!(rt; are_left(&left) && is_set(&left));
    let mut lines = Plain::new(Vec::new(rt.alloc()));
    dump(rt.alloc(), &left, &mut lines).expect(&rt, "memory");
    assert!(rt;
        lines.writer.as_slice() == b"n = 11\nyes = true\nc = -8\na = false true false\n".as_slice()
    );
}
