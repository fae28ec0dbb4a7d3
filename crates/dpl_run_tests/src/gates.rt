// Programs by gates that let some entries pass, that refuse one, and that count.
// A run whose gate refuses an entry is refused for that; that nothing is written then is proved.

use crate::entries::{ENTRIES, STRIPS};
use crate::programs::{SUMMED, bytes_of, four_locales, written};
use crate::roots::{BLOCKS, CYCLES, NAMED};
use dpl_run::{Config, Gate, Maps, Meeting, Refused};
use std::alloc::Global;
use std::process::Abort;
use std::sync::Wait;
use std::sync::atomic::{AtomicU64, Ordering};
use std::thread::Threads;

// Lets those entries pass alone that a row of `entries` has.
#[derive(Drop)]
struct Owners<'a>(&'a str);

impl<'a> Gate for Owners<'a> {
    ghost may_refuse = { λ _ _ _. Unit {0} };

    fn enter(&self, worker: u32, place: u64) -> bool {
        let mut at: u64 = 0;
        for byte in self.0.bytes() {
            if byte == b'/' {
                at = 0;
            } else {
                if at == place && byte.wrapping_sub(b'0') as u32 == worker {
                    return true;
                }
                at = at.wrapping_add(1);
            }
        }
        false
    }
}

// Lets all entries pass but this one.
#[derive(Drop)]
struct Refusing(u32, u64);

impl Gate for Refusing {
    ghost may_refuse = { λ _ _ _. Unit {0} };

    fn enter(&self, worker: u32, place: u64) -> bool {
        worker != self.0 || place != self.1
    }
}

// Lets so many entries pass, and counts those that it is asked for.
#[derive(Drop)]
struct Counting {
    passing: u64,
    asked: AtomicU64,
}

impl Gate for Counting {
    ghost may_refuse = { λ _ _ _. Unit {0} };

    fn enter(&self, _worker: u32, _place: u64) -> bool {
        self.asked.fetch_add(1, Ordering::Relaxed) < self.passing
    }
}

// Lets the worker of a place's half pass alone: places 0 and 1 are worker 0's, 2 and 3 worker 1's, and so on. It counts the entries.
#[derive(Drop)]
struct Halves {
    asked: AtomicU64,
}

impl Gate for Halves {
    ghost may_refuse = { λ _ _ _. Unit {0} };

    fn enter(&self, worker: u32, place: u64) -> bool {
        self.asked.fetch_add(1, Ordering::Relaxed);
        place / 2 == worker as u64
    }
}

// Refuses all entries of one worker.
#[derive(Drop)]
struct Without(u32);

impl Gate for Without {
    ghost may_refuse = { λ _ _ _. Unit {0} };

    fn enter(&self, worker: u32, _place: u64) -> bool {
        worker != self.0
    }
}

// Whether a run is refused for an entry that is.
fn asks_for<R: Threads + Wait + Sync>(
    rt: &R,
    alloc: Global,
    text: &str,
    config: &Config,
    worker: u32,
    place: u64,
) -> bool {
    let gate = Refusing(worker, place);
    written(rt, alloc, text.as_bytes(), &[], config, &gate) == Err(Refused::Gate)
}

// The same of each entry of a row.
fn asks<R: Threads + Wait + Sync>(
    rt: &R,
    alloc: Global,
    text: &str,
    config: &Config,
    owners: &str,
) -> bool {
    let mut place: u64 = 0;
    for byte in owners.bytes() {
        if byte == b'/' {
            place = 0;
        } else if byte != b'-' {
            let worker = byte.wrapping_sub(b'0') as u32;
            if !asks_for(rt, alloc, text, config, worker, place) {
                return false;
            }
            place = place.wrapping_add(1);
        }
    }
    true
}

// How many rows a table has. Each asks for its entries and for no others.
fn rows_of<R: Abort + Threads + Wait + Sync>(
    rt: &R,
    alloc: Global,
    table: &str,
    maps: Maps,
) -> usize {
    let config = four_locales(rt, maps);
    let mut rows: usize = 0;
    for line in table.lines() {
        if let Some((owners, rest)) = line.split_once(" <- ") {
            let (bytes, text) = rest.split_once(" <- ").unwrap_or((rest, ""));
            let wanted = Ok(bytes_of(rt, alloc, bytes));
            let said = written(rt, alloc, text.as_bytes(), &[], &config, &Owners(owners));
            assert!(rt;
                said == wanted && asks(rt, alloc, text, &config, owners),
                "{text}"
            );
            rows = rows.saturating_add(1);
        }
    }
    rows
}

#[test]
fn entries(rt: HostRuntime) {
    assert_eq!(rt; rows_of(&rt, rt.alloc(), ENTRIES, Maps::AsIs), 41);
    assert_eq!(rt; rows_of(&rt, rt.alloc(), STRIPS, Maps::AsIs), 3);
}

#[test]
fn roots(rt: HostRuntime) {
    assert_eq!(rt; rows_of(&rt, rt.alloc(), NAMED, Maps::AsIs), 35);
    assert_eq!(rt; rows_of(&rt, rt.alloc(), BLOCKS, Maps::Block), 6);
    assert_eq!(rt; rows_of(&rt, rt.alloc(), CYCLES, Maps::Cyclic), 4);
}

// How many entries a program asks for, and what it writes. Where the gate is open most of these programs make their turns at once; a gate that
// counts sees each turn all the same, also those of an initial value. The last three programs have no loop that a worker enters.
const COUNTS: &str = "\
40 <- 80~ <- var A: [1..40] int; forall i in 1..40 do A[i] = i * 2; writeln(A[40]);\n\
82 <- 123~ <- var A: [0..41] int = 3; var B: [1..40] int; forall i in 1..40 do B[i] = A[i-1] + A[i+1] * i; writeln(B[40]);\n\
80 <- 11~ <- var A: [1..40] int = 5; A = A * 2 + 1; writeln(A[40]);\n\
80 <- 200~ <- var A: [1..40] int = 5; writeln(+ reduce A);\n\
40 <- 5~ <- var A: [1..40] int; A[40] = 5; writeln(+ reduce A);\n\
80 <- 80~ <- const D = {1..2, 1..40} dmapped new blockDist(boundingBox={1..2, 1..40}); var A: [D] int; forall (i, j) in D do A[i, j] = i * j; writeln(A[2, 40]);\n\
32 <- 136~ <- const D = {1..16} dmapped new blockCycDist(startIdx=1, blocksize=2); var A: [D] int; forall i in D do A[i] = i; writeln(+ reduce A);\n\
40 <- 7~ <- var A: [1..40] int = 7; writeln(A[40]);\n\
40 <- true~ <- var A: [1..40] bool = true; writeln(A[40]);\n\
40 <- 1~ <- const D = {1..40}; var A: [D] int; var B: [D] int = A + 1; writeln(B[40]);\n\
80 <- 8~ <- const D = {1..40}; var A: [D] int = 7; var B: [D] int = A + 1; writeln(B[40]);\n\
16 <- 3~ <- const D = {1..16} dmapped new blockCycDist(startIdx=1, blocksize=2); var A: [D] int = 3; writeln(A[16]);\n\
6 <- 1 1 1~2 2 2~ <- for i in 1..2 { var A: [1..3] int = i; writeln(A); }\n\
0 <- 2~ <- var x = 1; x = x + 1; writeln(x);\n\
0 <- 5~ <- var A: [1..3] int; A[2] = 5; writeln(A[2]);\n\
0 <- 6~ <- var s = 0; for i in 1..3 do s += i; if s > 5 then writeln(s);";

// A program that asks for so many entries, by a gate that lets so many pass. Each of up to four workers ends at its first refusal.
fn counts<R: Abort + Threads + Wait + Sync>(
    rt: &R,
    alloc: Global,
    text: &str,
    entries: u64,
    bytes: &str,
    passing: u64,
) {
    let gate = Counting {
        passing,
        asked: AtomicU64::new(0),
    };
    let wanted = if entries <= passing {
        Ok(bytes_of(rt, alloc, bytes))
    } else {
        Err(Refused::Gate)
    };
    let config = four_locales(rt, Maps::AsIs);
    let said = written(rt, alloc, text.as_bytes(), &[], &config, &gate);
    let asked = gate.asked.load(Ordering::Relaxed);
    let least = entries.min(passing.saturating_add(1));
    let most = entries.min(passing.saturating_add(4));
    assert!(rt; said == wanted && least <= asked && asked <= most, "{text}");
}

#[test]
fn gates_that_count(rt: HostRuntime) {
    let mut rows: usize = 0;
    for line in COUNTS.lines() {
        let (entries, rest) = line.split_once(" <- ").unwrap_or((line, ""));
        let (bytes, text) = rest.split_once(" <- ").unwrap_or((rest, ""));
        let entries = entries.parse::<u64>().expect(&rt, "a number");
        for passing in [0, 19, 39, u64::MAX] {
            counts(&rt, rt.alloc(), text, entries, bytes, passing);
        }
        rows = rows.saturating_add(1);
    }
    assert_eq!(rt; rows, 16);
}

// Programs in which the workers 0 and 1 of four make two turns each, or more, of one loop, or fold two items each of one reduction. The last
// two write arrays of two maps.
const MEETINGS: &str = "\
204~1 4 9 16 25 36 49 64~ <- const D = {1..8} dmapped new blockDist(boundingBox={1..8}); var A: [D] int; forall i in D do A[i] = i*i; writeln(+ reduce A); writeln(A);\n\
1 2 3 4 5 6 7 8~ <- const D = {1..8} dmapped new blockDist(boundingBox={1..8}); var A: [D] int; forall i in D do A[i] = i; writeln(A);\n\
36~ <- const D = {1..8} dmapped new blockDist(boundingBox={1..8}); var s: int; forall i in D with (+ reduce s) do s += i; writeln(s);\n\
5 5 5 5 5 5 5 5~ <- const D = {1..8} dmapped new cyclicDist(startIdx=1); var A: [D] int; A = 5; writeln(A);\n\
3 3 3 3 3 3 3 3~ <- const D = {1..8} dmapped new blockDist(boundingBox={1..8}); var A: [D] int = 3; writeln(A);\n\
4 4 4 4~4 4 4 4~ <- const D = {1..2, 1..4} dmapped new blockDist(boundingBox={1..2, 1..4}); var A: [D] int = 4; writeln(A);\n\
true true true true true true true true~ <- const D = {1..8} dmapped new cyclicDist(startIdx=1); var B: [D] bool = true; writeln(B);\n\
2 0 4 0 6 0 8 0~ <- const D = {1..8} dmapped new blockDist(boundingBox={1..8}); var A: [D] int; forall i in D { if i % 2 == 1 then A[i] = i + 1; } writeln(A);\n\
2 4 6 8 10 12 14 16~ <- const D = {1..8} dmapped new blockDist(boundingBox={1..8}); var A: [D] int; forall i in 1..8 do A[i] = 2 * i; writeln(A);\n\
2 3 4 5~3 4 5 6~ <- const D = {1..2, 1..4} dmapped new blockDist(boundingBox={1..2, 1..4}); var A: [D] int; forall (i, j) in D do A[i, j] = i + j; writeln(A);\n\
24~ <- const D = {1..8} dmapped new blockDist(boundingBox={1..8}); var A: [D] int; writeln(+ reduce (A + 3));\n\
-5~ <- const D = {1..8} dmapped new cyclicDist(startIdx=1); var A: [D] int; var x = 1 - 2 * (max reduce (A + 3)); writeln(x);\n\
true~ <- const D = {1..8} dmapped new blockDist(boundingBox={1..8}); var A: [D] int; if && reduce (A > -1) then writeln(true);\n\
false~ <- const D = {1..8} dmapped new blockDist(boundingBox={1..8}); var B: [D] bool; writeln(|| reduce B);\n\
1 2 3 4 5 6 7 8|8 7 6 5 4 3 2 1~ <- const D = {1..8} dmapped new blockDist(boundingBox={1..8}); const E = {1..8} dmapped new cyclicDist(startIdx=1); var A: [D] int; var B: [E] int; forall i in D { A[i] = i; B[i] = 9 - i; } writeln(A, '|', B);\n\
3 6 9 12 15 18 21 24|0 1 2 3 4 5 6 7 8 0~ <- const D = {1..8} dmapped new cyclicDist(startIdx=1); const E = {0..9} dmapped new blockCycDist(startIdx=0, blocksize=2); var A: [D] int; var B: [E] int; forall i in D { A[i] = 3 * i; B[i] = i; } writeln(A, '|', B);";

// Two workers meet twice in the loop or the reduction of each program, and so make its turns or its items on two threads at once.
#[test]
fn meetings(rt: HostRuntime) {
    let config = four_locales(&rt, Maps::AsIs);
    let mut rows: usize = 0;
    for line in MEETINGS.lines() {
        let (bytes, text) = line.split_once(" <- ").unwrap_or((line, ""));
        let gate = Meeting::new(2, 100_000_000);
        let said = written(&rt, rt.alloc(), text.as_bytes(), &[], &config, &gate);
        assert!(&rt; said == Ok(bytes_of(&rt, rt.alloc(), bytes)), "{text}");
        rows = rows.saturating_add(1);
    }
    assert_eq!(rt; rows, 16);
}

// What can't be made apart is made by one thread, at which no two workers meet.
#[test]
fn meeting_nobody(rt: HostRuntime) {
    let config = four_locales(&rt, Maps::AsIs);
    let text =
        "const D = {1..8} dmapped new blockDist(boundingBox={1..8}); var A: [D] int; forall i in D { var x = i; A[i] = x; } writeln(A);";
    let gate = Meeting::new(1, 1_000_000);
    let said = written(&rt, rt.alloc(), text.as_bytes(), &[], &config, &gate);
    assert!(rt; said == Err(Refused::Gate));
}

// The squares are a forall over eight indices, by blocks of two on four locales, and a sum over its array.
// Each of two workers makes two turns of the forall and folds two items of the sum, and they meet at all four.
#[test]
fn meeting_in_both(rt: HostRuntime) {
    let config = four_locales(&rt, Maps::AsIs);
    let gate = Meeting::new(4, 100_000_000);
    let said = written(&rt, rt.alloc(), SUMMED.as_bytes(), &[], &config, &gate);
    let wanted = bytes_of(&rt, rt.alloc(), "204~1 4 9 16 25 36 49 64~");
    assert!(rt; said == Ok(wanted));
}

// Each worker enters for its own two places, in the forall and in the sum.
#[test]
fn each_enters_for_its_own_half(rt: HostRuntime) {
    let config = four_locales(&rt, Maps::AsIs);
    let gate = Halves {
        asked: AtomicU64::new(0),
    };
    let said = written(&rt, rt.alloc(), SUMMED.as_bytes(), &[], &config, &gate);
    let wanted = bytes_of(&rt, rt.alloc(), "204~1 4 9 16 25 36 49 64~");
    assert!(&rt; said == Ok(wanted));
    assert_eq!(rt; gate.asked.load(Ordering::Relaxed), 16);
}

// A refused entry goes before a fault, whichever worker has it: locale 0 faults in turn 3, and locale 2 is refused.
#[test]
fn refused_before_a_fault(rt: HostRuntime) {
    let text =
        "const D = {1..8} dmapped new blockDist(boundingBox={1..8}); var A: [D] int; forall i in D do A[i] = 12 / ((i-3)*(i-7));";
    let config = Config::new(3, 16_777_216, 9, [3, 1], [3, 1, 1], Maps::AsIs).expect(
        &rt,
        "a configuration",
    );
    let said = written(&rt, rt.alloc(), text.as_bytes(), &[], &config, &Without(2));
    assert!(rt; said == Err(Refused::Gate));
}
