// The squares, and the sum of an array, with a growth of memory refused: `rt try --test --fail-alloc N` refuses the Nth.
// The run then tells that memory ran out, and writes nothing, and the next run is whole.
// scripts/growths-of.sh refuses one after another; scripts/growths.sh those of the whole program.

use crate::programs::SUMMED;
use dpl_run::{Config, Maps, OpenGate, Outcome, Plain, Refused, run_text};
use std::process::Abort;
use std::sync::Wait;
use std::test::Fail;
use std::thread::Threads;

const SQUARES: &str =
    "var s: int; forall i in 1..8 by 2 with (+ reduce s) do s += i*i; writeln(s);";

// How a run ended.
#[derive(Clone, Copy, PartialEq, Eq, Debug)]
enum Ran {
    Whole,
    WithoutMemory,
    Otherwise,
}

// Runs a text into room for 25 bytes, which takes no memory: a whole run leaves these there, of which so many it didn't write.
fn run_once<R: AllocGlobal + Threads + Wait + Sync>(
    rt: &R,
    config: &Config,
    text: &str,
    whole: &[u8; 25],
    unwritten: usize,
) -> Ran {
    let mut room = [0u8; 25];
    let mut out = Plain::new(room.as_mut_slice());
    let alloc = rt.alloc();
    let result = run_text(rt, alloc, text.as_bytes(), &[], config, &OpenGate, &mut out);
    let left = out.writer.len();
    match result {
        Ok(Outcome::Done(_)) if left == unwritten && room == *whole => Ran::Whole,
        Err(Refused::Memory) if left == 25 && room == [0; 25] => Ran::WithoutMemory,
        _ => Ran::Otherwise,
    }
}

// Of two runs of a text one is whole, and the other too or without memory.
fn twice<R: Abort + AllocGlobal + Threads + Wait + Sync>(
    rt: &R,
    config: &Config,
    text: &str,
    whole: &[u8; 25],
    unwritten: usize,
) {
    let first = run_once(rt, config, text, whole, unwritten);
    let second = run_once(rt, config, text, whole, unwritten);
    assert!(rt; first != Ran::Otherwise && second != Ran::Otherwise);
    assert!(rt; first == Ran::Whole || second == Ran::Whole);
}

#[test]
fn a_growth_refused(rt: HostRuntime) -> Result<(), Fail> {
    let config = Config::new(1, 4, 9, [1, 1], [1, 1, 1], Maps::AsIs)?;
    let sum = b"84\n\0\0\0\0\0\0\0\0\0\0\0\0\0\0\0\0\0\0\0\0\0\0";
    twice(&rt, &config, SQUARES, sum, 22);
    let config = Config::new(4, 8, 9, [4, 1], [4, 1, 1], Maps::AsIs)?;
    twice(&rt, &config, SUMMED, b"204\n1 4 9 16 25 36 49 64\n", 0);
    Ok(())
}
