// Turns of a loop that are made at once, along a row of indices. They come to what the turns come to one after another (`AreDone`); how many
// they are is nobody's promise, and there may be none. They are made a strip of them after another (rows.rt). A body of one assignment, or of one
// int's fold, goes by itself (turn.rt); of several statements, and of `if`s, each is found for all turns before the next one is (batch.rt).
#![tactic(auto)]

mod batch;
mod fold;
mod keep;
mod rows;
mod store;
mod turn;
mod variables;

pub use rows::make_row;
pub use variables::bind;
