// Declarations: where each breaks the rules, what it declares, and the step that it is where it breaks none.
// The type and the initial value are judged, and then made into a step of what the judge found; what is broken, or doesn't run, is none.
#![tactic(auto)]

mod array;
pub mod declaration;
mod elements;
pub mod found;
mod initial;
mod names;
mod outside;
mod over;
mod placing;
mod single;
