//! Cells, and the histories of what tasks did to them: definitions and their laws alone, but for the types and `apply`.
//! Nothing here knows a thread or memory. Read `specs/` in the order of its `Lib.antt`.
#![tactic(auto)]

mod cell;
mod history;

pub use cell::{CellOp, CellState, Reply, apply};
pub use history::{Event, Miss};
