// A row: a text, the budget and the sets with which it is run, and on how many locales.

use std::alloc::{AllocError, Global};

/// A text to be run, with its budget and its sets; by layouts of so many locales, or by all where that is 0.
#[derive(Drop)]
pub(crate) struct Row<'t> {
    pub(crate) budget: u64,
    pub(crate) locales: u32,
    pub(crate) sets: Vec<&'t str>,
    pub(crate) text: &'t str,
}

/// The row of these lines: those that begin with `# ` or `@ ` stand before the text. A budget that is no number is 0, which no
/// run has, and a number of locales that is none is 0, which stands for all.
///
/// # Errors
/// Out of memory.
pub(crate) fn row_of(alloc: Global, lines: &str) -> Result<Row<'_>, AllocError> {
    let mut row = Row {
        budget: 1000,
        locales: 0,
        sets: Vec::new(alloc),
        text: lines,
    };
    for _ in 0..lines.len() {
        let (line, rest) = row.text.split_once('\n').unwrap_or((row.text, ""));
        if let Some(set) = line.strip_prefix("@ set ") {
            row.sets.push(set)?;
        } else if let Some(budget) = line.strip_prefix("@ budget ") {
            row.budget = budget.parse::<u64>().unwrap_or(0);
        } else if let Some(locales) = line.strip_prefix("@ locales ") {
            row.locales = locales.parse::<u32>().unwrap_or(0);
        } else if !line.starts_with("# ") {
            break;
        }
        row.text = rest;
    }
    Ok(row)
}
