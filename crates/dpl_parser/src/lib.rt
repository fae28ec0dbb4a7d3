// The parser of the whole language: the tree that tokens spell.
// Its grammar stands in dpl_spelling, and what a parse promises in program.rt.
#![tactic(auto)]

mod program;

pub use dpl_tree::Arena;
pub use program::{ParseStop, parse};
