// A sum on four locales, and a fault on three, by an open gate and by one that refuses all, where a growth of memory or the start of a thread
// is refused: scripts/sweeps.sh refuses one after another. A run that goes on all the same writes what it writes; want of memory goes before
// a thread, a thread before the gate, and each before a fault.

use crate::programs::SUMMED;
use dpl_run::{Config, Gate, Maps, OpenGate, Plain, Refused, run_text};
use std::alloc::Global;
use std::process::Abort;
use std::sync::Wait;
use std::thread::Threads;

const FAULTS: &str =
    "const D = {1..8} dmapped new blockDist(boundingBox={1..8});\nvar A: [D] int;\nforall i in D do\n  A[i] = 12 / ((i-3)*(i-7));";

// Refuses all entries.
#[derive(Drop)]
struct Closed;

impl Gate for Closed {
    ghost may_refuse = { λ _ _ _. Unit {0} };

    fn enter(&self, _worker: u32, _place: u64) -> bool {
        false
    }
}

// What is written of a text into room for 25 bytes, which takes no memory, or why its run is refused; none where that run wrote something.
fn room_of<R: Threads + Wait + Sync, G: Gate + Sync>(
    rt: &R,
    alloc: Global,
    text: &str,
    config: &Config,
    gate: &G,
) -> Option<Result<[u8; 25], Refused>> {
    let mut room = [0u8; 25];
    let mut out = Plain::new(room.as_mut_slice());
    match run_text(rt, alloc, text.as_bytes(), &[], config, gate, &mut out) {
        Ok(_) => Some(Ok(room)),
        Err(refused) if room == [0; 25] => Some(Err(refused)),
        Err(_) => None,
    }
}

// How many of a text's two runs are refused for memory or for a thread: by an open gate it writes these bytes, and by one that refuses all it
// is refused for that.
fn refused<R: Abort + Threads + Wait + Sync>(
    rt: &R,
    alloc: Global,
    text: &str,
    bytes: &[u8; 25],
    locales: u32,
) -> usize {
    let config = Config::new(locales, 8, 9, [locales, 1], [locales, 1, 1], Maps::AsIs).expect(
        rt, "settings",
    );
    let mut refused: usize = 0;
    for (said, wanted) in [
        (room_of(rt, alloc, text, &config, &OpenGate), Ok(*bytes)),
        (
            room_of(rt, alloc, text, &config, &Closed),
            Err(Refused::Gate),
        ),
    ] {
        match said {
            Some(Err(Refused::Memory | Refused::Thread)) => refused = refused.saturating_add(1),
            _ => assert!(rt; said == Some(wanted), "{text}"),
        }
    }
    refused
}

// One growth, or one start, is refused at most.
#[test]
fn a_growth_refused(rt: HostRuntime) {
    let squares = refused(&rt, rt.alloc(), SUMMED, b"204\n1 4 9 16 25 36 49 64\n", 4);
    let faults = refused(&rt, rt.alloc(), FAULTS, b"! F2 at 4:13 in turn 3\n\0\0", 3);
    assert!(rt; squares.saturating_add(faults) <= 1);
}
