// Simple statements: those that hold no other, and an `if` over one of these that is done directly.
// A right side is evaluated and its value goes into a slot; declared domains and arrays get their roots. What runs statements stands above (dpl_steps).
#![tactic(auto)]

mod change;
mod declare;
mod direct;
mod domain;
mod filled;
mod lineage;
mod reduce;
mod root;
pub mod simple;

pub use declare::declare_array;
pub use direct::{direct_statement, direct_statements, is_met};
pub use domain::{declare_domain, set_domain};
pub use filled::declare_array_by;
