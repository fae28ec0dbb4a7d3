// A refusal or a fault in words, for a person: its place and its rule, and the line of the text with a mark under the token.
// The program tells it behind what it tells a script, and only where standard error is a terminal.
#![tactic(auto)]

mod excerpt;
mod explain;
mod line;
mod sentence;

pub use explain::{explain_fault, explain_refusal};
