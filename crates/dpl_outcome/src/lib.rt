// What a run is set to, and how it comes out: settings, the frame that a run begins with, what a program leaves and its dump, the lines of faults
// and refusals, and writers. `dpl_run` hands on what its callers name.
#![tactic(auto)]

mod config;
mod frame;
mod left;
mod lines;
mod listing;
mod outcome;
mod refused;
mod top_level;
mod writer;

pub use config::{Config, ConfigFault, MOST_TURNS};
pub use frame::first_frame;
pub use left::{Left, Value, Variable};
pub use lines::{tell_fault, tell_refusal};
pub use listing::dump;
pub use outcome::Outcome;
pub use refused::Refused;
pub use top_level::collect;
pub use writer::{Out, OutFault, Plain, write_all};
