// Teams that are asked by strips: one without workers, and reductions of values by workers.
// The walk of values (dpl_values) knows no strip, and strips (dpl_strips) know no walk: here they meet.
#![tactic(auto)]

mod alone;
mod by_workers;

pub use alone::Alone;
pub use by_workers::{reduced_int_by_workers, reduced_truth_by_workers};
