//! The tasks of a coforall, each on a thread of its own, over the cells of one board, with one history of all that they did to them.
//! It knows no statement: what a task does is a trait's. Read `Tasks`, then `coforall`, and `specs/` in the order of its `Lib.antt`.
#![tactic(auto)]

mod end;
mod level;
mod tasks;
mod together;

pub use end::{Refusal, TaskEnd};
pub use tasks::Tasks;
pub use together::{Gathered, coforall};
