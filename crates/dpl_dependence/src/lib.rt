// The dependence test: whether the turns of a forall may be made apart, by the typed statements of its body; and those of an assignment to a
// whole array, by its right side.
// Each turn may write elements of some arrays at its own index, and add to reduce variables; it reads neither these nor other elements of
// such arrays. A body with declarations or with loops that have variables is not looked into, and neither is one that assigns whole arrays.
#![tactic(auto)]

mod expression;
mod names;
mod statement;
mod turn;
mod whole;

pub use names::are_own;
pub use statement::are_independent;
pub use whole::{int_reads_own, truth_reads_own};
