//! What a seat knows, as plain data.
//! The proofs alone have such values; no code makes one.
use dpl_history::{CellState, Event, Miss};
use std::collections::LinkedList;

/// What a seat knows of its board.
pub struct View {
    /// The cells with which the board was opened.
    pub opening: LinkedList<CellState>,
    /// How many tasks the board has.
    pub tasks: u64,
    /// The number as which the seat acts.
    pub number: u64,
    /// The numbers for which the seat answers.
    pub numbers: LinkedList<u64>,
    /// All that was done on the board up to some moment.
    pub history: LinkedList<Event>,
    /// The misses of the seat's numbers.
    pub misses: LinkedList<Miss>,
    /// The cell that the seat holds in the midst of an operation. Between two calls there is none.
    pub held: Option<Hold>,
    /// What the last join came to, for the step after it to tell.
    pub joins: LinkedList<Growth>,
}

/// A cell that a seat holds.
pub struct Hold {
    /// The number of the cell.
    pub cell: usize,
    /// How it was when it was taken.
    pub before: CellState,
    /// The value that its value word has now.
    pub value: u64,
}

/// What a join made of the history of one of the two seats.
pub struct Growth {
    /// The numbers for which the seat answered.
    pub numbers: LinkedList<u64>,
    /// The history that it knew.
    pub before: LinkedList<Event>,
    /// The history that both know.
    pub after: LinkedList<Event>,
}
