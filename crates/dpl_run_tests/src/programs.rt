// What programs write, by which settings and by which gate.

use dpl_run::{Config, Gate, Maps, Plain, Refused, run_text};
use std::alloc::Global;
use std::process::Abort;
use std::sync::Wait;
use std::thread::Threads;

/// An array of squares in blocks, its sum and itself.
pub(crate) const SUMMED: &str =
    "const D = {1..8} dmapped new blockDist(boundingBox={1..8}); var A: [D] int; forall i in D do A[i] = i*i; writeln(+ reduce A); writeln(A);";

/// The settings of one locale, with a budget of nine turns.
pub(crate) fn one_locale(rt: &impl Abort) -> Config {
    Config::new(1, 9, 9, [1, 1], [1, 1, 1], Maps::AsIs).expect(rt, "settings")
}

/// The settings of four locales, in grids of 2x2 and of 2x2x1.
pub(crate) fn four_locales(rt: &impl Abort, maps: Maps) -> Config {
    Config::new(4, 1000, 9, [2, 2], [2, 2, 1], maps).expect(rt, "settings")
}

/// The bytes of a table's text, in which ~ stands for a newline.
pub(crate) fn bytes_of(rt: &impl Abort, alloc: Global, text: &str) -> Vec<u8> {
    let mut bytes = Vec::new(alloc);
    for byte in text.bytes() {
        let byte = if byte == b'~' { b'\n' } else { byte };
        bytes.push(byte).expect(rt, "memory");
    }
    bytes
}

/// What is written of a text, or why its run is refused.
pub(crate) fn written<R: Threads + Wait + Sync, G: Gate + Sync>(
    rt: &R,
    alloc: Global,
    text: &[u8],
    sets: &[&str],
    config: &Config,
    gate: &G,
) -> Result<Vec<u8>, Refused> {
    let mut out = Plain::new(Vec::new(alloc));
    match run_text(rt, alloc, text, sets, config, gate, &mut out) {
        Ok(_) => Ok(out.writer),
        Err(refused) => Err(refused),
    }
}
