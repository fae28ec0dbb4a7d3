// Brackets, ranges and methods: the rule of each, and the node that it makes of its parts.
// A rule that is met leaves no part of a wrong type, so that each node is made without a further test.
#![tactic(auto)]

pub mod asked;
pub mod behind;
pub mod coordinates;
pub mod domains;
pub mod index;
pub mod method;
mod posts;
pub mod ranges;
pub mod slice;

pub use ranges::Bounds;
