// Rows of programs: reads a list of them from standard input, runs each by every setting, and writes what each writes.
// How rows are written stands at the head of `stdin`; `stdout` has what they must write, worked out apart from the program.
#![tactic(auto)]

mod row;
mod runs;

use crate::runs::run_rows;
use dpl_run::{Plain, write_all};
use std::alloc::Global;
use std::io;
use std::process::ExitCode;
use std::sync::Wait;
use std::thread::Threads;

fn main(rt: HostRuntime) -> ExitCode {
    let Ok(rows) = io::read_to_string(rt.alloc(), rt.stdin()) else {
        return ExitCode::FAILURE;
    };
    match answers(&rt, rt.alloc(), &rows) {
        Some(told) if write_all(&mut Plain::new(rt.stdout()), &told).is_ok() => ExitCode::SUCCESS,
        _ => ExitCode::FAILURE,
    }
}

// What all rows write, and how many there are; nothing without memory.
fn answers<R: Threads + Wait + Sync>(rt: &R, alloc: Global, rows: &str) -> Option<Vec<u8>> {
    let mut told = Vec::new(alloc);
    let count = run_rows(rt, alloc, rows, &mut told).ok()?;
    let last = format!(in alloc; "{count} rows\n").ok()?;
    told.extend_from_slice(last.as_bytes()).ok()?;
    Some(told)
}
