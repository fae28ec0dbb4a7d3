// The map that a text names for a root.

use dpl_domain::{Domain, Index};

/// The map that a text names, its arguments evaluated.
#[derive(Clone, Copy)]
pub enum Named {
    /// None is named, or an argument has no value.
    Whole,
    /// `blockDist`, with this box.
    Block(Domain),
    /// `cyclicDist`, from this start.
    Cyclic(Index),
    /// `blockCycDist`, from a start, in blocks of these sizes.
    BlockCyclic(Index, Index),
}
