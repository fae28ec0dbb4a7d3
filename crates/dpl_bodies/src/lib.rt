// The rules on what the bodies of foralls and coforalls do, C6 to C10, as dpl_rules defines them on deeds.
// A body's deeds are a part of one list of them; each function tells the breaches of a rule on such a part.
#![tactic(auto)]

pub mod forall;
pub mod outside;
mod scope;
pub mod task;
mod written;

pub use scope::ForallScope;
