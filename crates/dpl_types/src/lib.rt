// What every rule of the check has in common: where an expression begins and ends, whether a part of a form has a type that is taken, and
// the first of all violations, by place and then by code. Each function stands for its definition in dpl_rules; none takes memory.
#![tactic(auto)]

pub mod breach;
pub mod found;
pub mod part;
pub mod place;
pub mod want;

pub use breach::{note, owed, tell, wrong_rank};
pub use part::{Part, wanted};
pub use want::Want;
