// What expressions and statements do that a loop around them may forbid: a list of deeds, as dpl_rules defines them.
// Whoever walks over a part puts its deeds behind those that stand in the list; here are the list, the deeds of names and of targets, and C9.
#![tactic(auto)]

mod deed;
pub mod index;
pub mod inner;
pub mod intents;
pub mod name;
pub mod target;

pub use deed::{Added, Deed, Holding, IndexPart, before, behind, held, held_if};
