//! Full/empty cells that tasks on any threads share, with one legal history of all that was done to them.
//! Read `apply` for one thread, then `Board` and its calls; the words of their clauses stand in `specs/`, in reading order.
#![tactic(auto)]

mod board;
mod rule;
mod seat;
mod steps;
mod tried;
mod view;
mod words;

pub use board::Board;
pub use dpl_history::{CellOp, CellState, Event, Miss, Reply, apply};
pub use seat::Seat;
pub use tried::{NoMemory, Stuck, Tried};
