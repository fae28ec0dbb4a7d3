// Expressions as the check finds them: the type that the rules give, and the node that is run, in one value.
// Where the rules give a type there is a node; the parts of a form are seen by their types, and its node is made of theirs.
#![tactic(auto)]

pub mod flat;
pub mod found;
pub mod leaves;
mod links;
pub mod name;
pub mod node;
pub mod part;
mod posts;
mod spine;
pub mod typed;
pub mod verdict;

pub use part::Part;
pub use typed::{Made, Typed};
