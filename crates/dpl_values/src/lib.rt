// The values of typed expressions over a frame: what the language's meaning gives for the plain trees that they stand for.
// No walk takes memory but for a reduction by workers, and none has an arm for what can't be.
// What a reduction folds is a promoted expression, evaluated at each index of the first whole array in it and dealt out by that one's map
// (reduction.rt). Whoever walks makes it, unless the team that it is handed (team.rt) has workers for it. Ints of several indices are
// evaluated at once where the team has strips of them. Teams stand above (dpl_teams).
#![tactic(auto)]

pub mod budget;
mod comparison;
mod direct;
pub mod domain;
pub mod expression;
pub mod fold;
mod operator;
pub mod promoted;
mod range;
mod reduction;
mod team;
mod values;

pub use direct::{direct_int, direct_truth};
pub use expression::coordinate_value;
pub use promoted::{int_domain, truth_domain};
pub use reduction::Ints;
pub use team::Team;
pub use values::{
    domain_value, index_value, int_value, literal, promoted_int_value, promoted_truth_value,
    range_value, sized, truth_value,
};
