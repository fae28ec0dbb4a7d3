// The maps that a text names behind `dmapped`: each is judged, by the rules, and made, and what its arguments do is listed, in one call.
// A map says where work is done and nothing else; a run evaluates it where the name is declared.
#![tactic(auto)]

mod low;
mod map;
mod rank;
mod start;

pub use map::mapped;
