// The loops of foralls and of reductions as one thread makes them: they go through the indices of a domain, and ask a gate at each unless it
// is open.
// Read `forall_here`, whose contract says that a forall is a plain loop, with `Gate` and `Turns`, which it takes; and then `reduce`.
// `reduce_ints` is a reduction of ints, several of which are evaluated at once. Workers are of `dpl_workers`.
// A loop over turns asks them for a whole row at its first index and, where that made some, at each next one (together.rt); how many of the
// next indices lie behind one another, their place tells (rows.rt). A reduction takes the walk of an item as a closure: a cycle of calls
// may go through one, where it may not go through a trait. A walk is handed the gate that its reductions ask, and so ends by its value, by
// a fault, or refused (`Tells` of dpl_frame, and `Gives` for callers that have no place for the turn). Within a turn no gate is asked.
#![tactic(auto)]

mod apart;
pub mod gate;
mod loops;
mod meeting;
mod reduction;
mod rows;
pub mod stop;
mod strip;
mod strips;
mod together;
mod turns;

pub use apart::Apart;
pub use dpl_array::Row;
pub use gate::{Gate, OpenGate};
pub use loops::{forall_here, forall_line, turns_of};
pub use meeting::Meeting;
pub use reduction::{Operator, reduce};
pub use stop::RunStop;
pub use strip::{STRIP, Strip};
pub use strips::{fold_strips, reduce_ints};
pub use turns::Turns;
