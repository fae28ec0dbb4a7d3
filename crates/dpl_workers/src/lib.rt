// Foralls and reductions by workers: one for each locale whose part of the loop's domain isn't empty.
// Read `forall`, whose contract says that a forall is a plain loop, and then `reduce_by_workers`.
// `forall` has workers do where that serves what a caller does alone (plan.rt): the
// memory is tested (formed.rt) and the domain cut into parts (parts.rt), the arrays that turns write are taken apart (taken.rt; one
// that another map deals out is dealt anew, where that serves: dealt.rt), each locale
// gets a job (jobs.rt, units.rt), which a thread of its own does, or the caller (level.rt, part.rt; where its part is several domains,
// owned.rt, steady.rt);
// of their ends one is told (soonest.rt), and what they have left is put together (given.rt, joined.rt).
// `reduce_by_workers` has workers fold the parts of a reduction's domain where that serves (fold_parts.rt, fold_owned.rt, ended.rt).
#![tactic(auto)]

mod dealt;
mod ended;
mod fold_owned;
mod fold_parts;
mod formed;
mod given;
mod job;
mod jobs;
mod joined;
mod level;
mod owned;
mod part;
mod parts;
mod plan;
mod soonest;
mod steady;
mod taken;
mod units;
mod words;

pub use fold_parts::{Dealt, reduce_by_workers};
pub use plan::forall;
