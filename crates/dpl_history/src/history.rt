//! What the histories of a board are made of.
//! The proofs alone have such values; no code makes one.
use crate::cell::{CellOp, Reply};

/// One operation of one task on one cell that was done.
pub struct Event {
    /// The number of the task, or of the gatherer.
    pub task: u64,
    /// The number of the cell.
    pub cell: usize,
    pub op: CellOp,
    pub reply: Reply,
}

/// One try of a task that found the cell in a state in which its operation waits.
pub struct Miss {
    /// The number of the task, or of the gatherer.
    pub task: u64,
    /// How many events the history had then.
    pub place: u64,
    /// The number of the cell.
    pub cell: usize,
    /// The state word that was seen: 0 is empty, 1 full, 2 busy.
    pub word: u64,
}
