// `write` and `writeln`: what a print appends to what was printed before it.
// An argument that is a fault leaves what was printed before as it was.
#![tactic(auto)]

mod array_text;
mod print;

pub use print::write;
