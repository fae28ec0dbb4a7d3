// Assignments: where each breaks the rules, and the step that it is where it breaks none.
// A form is judged first, and then made of what the judge found: of one that is broken, or that doesn't run, nothing is made.
#![tactic(auto)]

pub mod around;
pub mod assignment;
mod change;
mod element;
pub mod elements;
mod judge;
mod overs;
pub mod side;
mod whole;
