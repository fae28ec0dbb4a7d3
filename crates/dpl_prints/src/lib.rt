// What `write` and `writeln` print, and the calls of cells: where each breaks the rules, and the step that a print is.
// No program that calls a cell is run, so that a call is judged alone.
#![tactic(auto)]

pub mod call;
pub mod print;
mod shown;
