//! What a call on a board can come to beside success.
//! No call but `Board::new` takes memory.
use dpl_history::Reply;
use std::alloc::AllocError;
use thiserror::Error;

/// Out of memory for a board.
#[derive(Clone, Copy, Debug, PartialEq, Error)]
#[error("out of memory for a board of cells")]
pub struct NoMemory;

impl From<AllocError> for NoMemory {
    fn from(_: AllocError) -> NoMemory {
        NoMemory
    }
}

/// Every try of an operation missed: in none of them was the cell in the state for which the operation waits.
#[derive(Clone, Copy, Debug, PartialEq, Error)]
#[error("every try found the cell in a state in which the operation waits")]
pub struct Stuck;

/// What one try of an operation came to.
#[derive(Clone, Copy, Debug, PartialEq)]
pub enum Tried {
    /// The operation was done, with this reply.
    Done(Reply),
    /// The operation would have to wait. The state word that was seen: 0 is empty, 1 full, 2 busy.
    Missed(u64),
}
