// The runs of rows, by every setting: where all write the same that is told once.
// Each setting is run by two gates. Where the gate is open most loops of rows are too small for workers, and the caller makes them, in order or
// part by part; by one that isn't open they are made by workers, where they may be.

use crate::row::{Row, row_of};
use dpl_run::{Config, Gate, Maps, OpenGate, Plain, Refused, run_text};
use std::alloc::{AllocError, Global};
use std::sync::Wait;
use std::thread::Threads;

// Numbers of locales, and how many lie along each dimension of the two grids.
const LAYOUTS: [(u32, [u32; 2], [u32; 3]); 7] = [
    (1, [1, 1], [1, 1, 1]),
    (2, [2, 1], [1, 2, 1]),
    (3, [1, 3], [3, 1, 1]),
    (4, [2, 2], [1, 2, 2]),
    (4, [4, 1], [2, 1, 2]),
    (6, [2, 3], [1, 2, 3]),
    (64, [8, 8], [4, 4, 4]),
];

// The settings of a row by a layout and by maps.
fn settings(row: &Row<'_>, layout: usize, maps: Maps) -> Option<Config> {
    let (locales, grid2, grid3) = *LAYOUTS.get(layout)?;
    Config::new(locales, row.budget, 9, grid2, grid3, maps).ok()
}

// A gate that lets all pass, and isn't open.
#[derive(Clone, Copy)]
struct Watched;

impl Gate for Watched {
    ghost may_refuse = { λ _ _ _. ⊥ };

    fn enter(&self, _worker: u32, _place: u64) -> bool {
        true
    }
}

// What a row writes by settings and by a gate.
fn written<R: Threads + Wait + Sync, G: Gate + Sync>(
    rt: &R,
    alloc: Global,
    row: &Row<'_>,
    config: &Config,
    gate: &G,
) -> Result<Vec<u8>, Refused> {
    let mut out = Plain::new(Vec::new(alloc));
    let text = row.text.as_bytes();
    match run_text(rt, alloc, text, &row.sets, config, gate, &mut out) {
        Ok(_) => Ok(out.writer),
        Err(refused) => Err(refused),
    }
}

// What a row writes by a layout and by maps, or why it has no run.
fn answer<R: Threads + Wait + Sync>(
    rt: &R,
    alloc: Global,
    row: &Row<'_>,
    layout: usize,
    by: (Maps, bool),
) -> Result<Vec<u8>, AllocError> {
    let (maps, watched) = by;
    let Some(config) = settings(row, layout, maps) else {
        return b"no settings\n".to_vec(alloc);
    };
    let said = if watched {
        written(rt, alloc, row, &config, &Watched)
    } else {
        written(rt, alloc, row, &config, &OpenGate)
    };
    match said {
        Ok(bytes) => Ok(bytes),
        Err(refused) => Ok(format!(in alloc; "{refused}\n")?.into_bytes()),
    }
}

// Tells what a row writes by a layout, with each of the three maps and by each gate, where that is something else than what it wrote first.
fn tell_layout<R: Threads + Wait + Sync>(
    rt: &R,
    alloc: Global,
    row: &Row<'_>,
    layout: usize,
    first: &[u8],
    told: &mut Vec<u8>,
) -> Result<(), AllocError> {
    for (name, by) in [
        ("the text's", (Maps::AsIs, false)),
        ("block", (Maps::Block, false)),
        ("cyclic", (Maps::Cyclic, false)),
        ("by workers the text's", (Maps::AsIs, true)),
        ("by workers block", (Maps::Block, true)),
        ("by workers cyclic", (Maps::Cyclic, true)),
    ] {
        let now = answer(rt, alloc, row, layout, by)?;
        if now.as_slice() != first {
            let told_by = format!(in alloc; "by layout {layout} and {name} maps:\n")?;
            told.extend_from_slice(told_by.as_bytes())?;
            told.extend_from_slice(&now)?;
        }
    }
    Ok(())
}

// Whether a row is run by a layout.
fn is_asked(row: &Row<'_>, layout: usize) -> bool {
    match LAYOUTS.get(layout) {
        Some((locales, _, _)) => row.locales == 0 || row.locales == *locales,
        None => false,
    }
}

// Tells what a row writes by every setting: what it writes on one locale, and what is something else by one of the others. Of a row that says on
// how many locales it runs, the layouts are told.
fn tell_row<R: Threads + Wait + Sync>(
    rt: &R,
    alloc: Global,
    row: &Row<'_>,
    told: &mut Vec<u8>,
) -> Result<(), AllocError> {
    let first = answer(rt, alloc, row, 0, (Maps::AsIs, false))?;
    told.extend_from_slice(&first)?;
    for layout in 0..LAYOUTS.len() {
        if !is_asked(row, layout) {
            continue;
        }
        tell_layout(rt, alloc, row, layout, &first, told)?;
        if row.locales > 0 {
            let line = format!(in alloc; "layout {layout}\n")?;
            told.extend_from_slice(line.as_bytes())?;
        }
    }
    told.extend_from_slice(b"==\n")
}

/// Tells what each of these rows writes by every setting, and answers how many rows there are.
///
/// # Errors
/// Out of memory.
pub(crate) fn run_rows<R: Threads + Wait + Sync>(
    rt: &R,
    alloc: Global,
    rows: &str,
    told: &mut Vec<u8>,
) -> Result<usize, AllocError> {
    let mut rest = rows;
    for count in 0..rows.len() {
        let Some((lines, after)) = rest.split_once("\n==\n") else {
            return Ok(count);
        };
        tell_row(rt, alloc, &row_of(alloc, lines)?, told)?;
        rest = after;
    }
    Ok(rows.len())
}
