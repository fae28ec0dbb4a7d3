// The parser of declarations and statements.
// A file for each part of the grammar, and a function for each of its rules, which gives what the rule's reader gives.
#![tactic(auto)]

mod assignment;
pub mod begins;
pub mod declaration;
mod head;
mod map;
mod output;
mod start;
pub mod statement;
mod takes_else;
