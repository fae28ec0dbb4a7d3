// What a forall does at each index of what it runs over.

ghost use Rattle.std.specs.Prelude.{◌≡◌, ◌≤◌, IfSome, IfOk};
ghost use Rattle.dpl_language.specs.Values.{Index as IndexValue};
ghost use Rattle.dpl_language.specs.Outcome.{Deeds, Run};
ghost use Rattle.dpl_language.specs.Environment.{Limits};
ghost use Rattle.dpl_memory.specs.Memory.{Memory};
ghost use Rattle.dpl_apart.specs.Memories.{MayBeApart};
ghost use Rattle.dpl_loop.specs.Runs.{AreDone, RunEnds};

use crate::apart::Apart;
use crate::stop::RunStop;
use dpl_array::Row;
use dpl_domain::Index;
use dpl_frame::{Arrays, Frame};
use std::alloc::AllocError;

/// The turns of a forall, over whichever frames. A turn prints nothing and changes the memory alone.
pub trait Turns {
    // What the turn of an index does, by the limits of the run.
    ghost turn: { Self → Limits → IndexValue → Run Memory };

    /// Makes the turn of an index.
    ///
    /// # Errors
    /// The turn's fault, or out of memory. No gate is asked within a turn.
    fn make<A: Arrays>(&self, index: Index, frame: &mut Frame<A>) -> Result<(), RunStop>
        ensures ends { (done : Deeds) → RunEnds result frame.new.memory done (turn self.now frame.old.limits index frame.old.memory done) }
        ensures limits { frame.new.limits ≡ frame.old.limits };

    /// Makes the turns of a row's indices, at most so many, where several are done at once; how many it has made. There may be none, and
    /// none of them has a fault.
    ///
    /// # Errors
    /// Out of memory.
    fn make_row<A: Arrays>(
        &self,
        row: Row,
        most: usize,
        frame: &mut Frame<A>,
    ) -> Result<usize, AllocError>
        ensures most { IfOk result (λ made. made ≤ most) }
        ensures done { IfOk result (λ made. AreDone (turn self.now frame.old.limits) row made frame.old.memory frame.new.memory) }
        ensures limits { frame.new.limits ≡ frame.old.limits }
    {
        Ok(0)
    }

    /// How the turns may be made apart, if they may. Turns that don't tell it are made in order.
    fn apart(&self) -> Option<Apart<'_>>
        ensures { IfSome result (λ a. (limits : Limits) → MayBeApart a (turn self.now limits)) }
    {
        None
    }
}
