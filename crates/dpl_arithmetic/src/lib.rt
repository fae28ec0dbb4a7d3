// Operations on ints as the language has them, and indices by their coordinates.
// Nothing here knows a frame: the values of expressions, and strips of them, are made by these.
#![tactic(auto)]

pub mod index;
pub mod number;
