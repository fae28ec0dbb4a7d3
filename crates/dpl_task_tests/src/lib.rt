//! Tests of the tasks of `dpl_task`: tasks by scripts, which hand values over, count, wait for one another, fail, and meet at a gate.
//! They stand in a crate of their own, since a crate with tests is proved twice, and no crate waits for this one.
#![tactic(auto)]

#[cfg(test)]
mod gates;
#[cfg(test)]
mod rows;
pub mod scripts;
