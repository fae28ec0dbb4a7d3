//! Tests of the cells of `dpl_cell`: each operation on each state, boards on one thread and on many, and clients that prove what they come to.
//! They stand in a crate of their own, since a crate with tests is proved twice, and no crate waits for this one.
#![tactic(auto)]

#[cfg(test)]
mod boards;
#[cfg(test)]
mod counting;
#[cfg(test)]
mod passing;
