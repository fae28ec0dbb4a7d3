// Who makes reductions. A walk of values is handed a team, and asks it for its reductions, for strips of what they fold and, as a gate, for
// their entries.

ghost use Rattle.std.specs.Prelude.{◌≡◌, IfSome};
ghost use Rattle.dpl_language.specs.Values.{Int};
ghost use Rattle.dpl_loop.specs.Values.{HoldsStrip};
ghost use Rattle.dpl_values.specs.Meanings.{int_at};
ghost use Rattle.dpl_values.specs.Teams.{TellsInts, TellsTruths};

use dpl_frame::{Alarm, Arrays, Frame, Truth, Turn};
use dpl_loop::{Gate, Row, Strip};
use dpl_nodes::{IntFold, PromotedInt, PromotedTruth, Spot, TruthFold};

/// A gate, and who makes the reductions that ask it: whoever walks, unless the team has workers for them.
pub trait Team: Gate {
    /// How the arrays of its frames are kept.
    type Kept: Arrays;

    // What has to hold of a team where it is asked for a reduction. One that hands reductions on to closures says by it what these do.
    ghost is_ready: { Self → Type 0 };

    /// The ints of a promoted int put together by workers; none where the team has no workers.
    ///
    /// # Errors
    /// As for a reduction that its caller makes; or out of memory.
    fn reduced_int(
        &self,
        fold: IntFold,
        e: &PromotedInt<'_>,
        at: &Spot,
        frame: &Frame<Self::Kept>,
        turn: &mut Turn,
    ) -> Option<Result<i64, Alarm>>
        requires ready { Self.is_ready self.now }
        ensures { IfSome result (TellsInts (Self.may_refuse self.now) frame.now fold e.now at.now turn.new) };

    /// The same of truth values.
    ///
    /// # Errors
    /// As for ints.
    fn reduced_truth(
        &self,
        fold: TruthFold,
        e: &PromotedTruth<'_>,
        at: &Spot,
        frame: &Frame<Self::Kept>,
        turn: &mut Turn,
    ) -> Option<Result<Truth, Alarm>>
        requires ready { Self.is_ready self.now }
        ensures { IfSome result (TellsTruths (Self.may_refuse self.now) frame.now fold e.now at.now turn.new) };

    /// The ints of a promoted int at the indices of a row, as far as they are found at once: whoever makes a reduction asks for them. There may
    /// be none.
    fn promoted_strip(&self, e: &PromotedInt<'_>, row: Row, frame: &Frame<Self::Kept>) -> Strip
        ensures row { result.row ≡ row }
        ensures values { HoldsStrip Int (λ i. int_at frame.now e.now i) result };
}
