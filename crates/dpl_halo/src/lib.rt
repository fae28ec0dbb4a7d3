// Halos and loans: elements of an array that are gathered for one locale.
// A halo has what the locale reads and others own; a loan has what it writes, and is settled with the array.
// Both gather elements index by index into a map from places of the array's domain to values. `IsGathered` says what such a map holds at
// each index after some indices were looked at; so each loop's clause adds a list of indices, and the definition, a filter of the array's
// elements, is reached at the end alone. Turns between two corners whose reads the locale owns add nothing; where the corners are cut is a
// guess that no clause speaks of.
#![tactic(auto)]

mod gathered;
mod halo;
mod loan;
mod shift;
mod turns;

pub use dpl_map::NoMemory;
pub use dpl_sets::Subscript;
pub use halo::Halo;
pub use loan::Loan;
pub use shift::Shift;
