// Who makes the loops of statements. A walk of statements is handed a crew, and asks it for its loops, as a team for its reductions and, as a
// gate, for its entries.

ghost use Rattle.std.specs.Prelude.{◌≡◌};
ghost use Rattle.dpl_language.specs.Outcome.{Deeds, in_order};
ghost use Rattle.dpl_language.specs.Ranges.{indices_in};
ghost use Rattle.dpl_language.specs.Loops.{named_turn};
ghost use Rattle.dpl_loop.specs.Runs.{RunsTo};
ghost use Rattle.dpl_loop.specs.Entries.{MayRefuse};
ghost use Rattle.dpl_elements.specs.Wholes.{whole_turn};

use crate::whole::WholeTurns;
use dpl_frame::{DomainWord, Frame};
use dpl_loop::RunStop;
use dpl_map::Map;
use dpl_values::Team;

/// Who makes assignments to whole arrays, and asks the gate for their turns. Where workers are started, what they share has to be known by its
/// type: so a crew makes the turns of one type, and no method of it takes any turns. Where it is asked for a loop, it is ready as a team is.
pub trait Crew: Team {
    /// Makes the turns of an assignment over its array's domain, dealt out by a map. For each turn the owner of its index enters the gate,
    /// unless the gate is open.
    ///
    /// # Errors
    /// The fault of the first turn that has one, with its turn; out of memory; a worker was not started; or the gate refused an entry,
    /// which it may. Unless it ended well, nothing is said of the frame's memory.
    fn make_whole(
        &self,
        turns: &WholeTurns<'_, '_>,
        over: DomainWord,
        map: &Map,
        frame: &mut Frame<Self::Kept>,
    ) -> Result<(), RunStop>
        requires ready { Self.is_ready self.now }
        ensures ends { (done : Deeds) → RunsTo (MayRefuse (Self.may_refuse self.now) map.now over) result frame.new.memory done
            (in_order (named_turn (whole_turn turns.now frame.old.limits)) (indices_in over) frame.old.memory done) }
        ensures limits { frame.new.limits ≡ frame.old.limits };
}
