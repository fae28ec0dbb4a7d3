// The turns of a part of a loop's domain, and the gate of the loop, as it is asked for them: with the places of the whole domain.

ghost use Rattle.std.specs.Prelude.{◌≡◌};
ghost use Rattle.dpl_sets.specs.Indices.{indices};
ghost use Rattle.dpl_language.specs.Outcome.{Deeds, in_order};
ghost use Rattle.dpl_language.specs.Loops.{named_turn};
ghost use Rattle.dpl_loop.specs.Entries.{MayRefuseIn};
ghost use Rattle.dpl_workers.specs.Parts.{indices_of};
ghost use Rattle.dpl_loop.specs.Runs.{RunsTo};
ghost use Rattle.dpl_loop.specs.Values.{MayRefuseAmong};

use crate::level::Site;
use crate::owned::owned_turns;
use crate::parts::Part;
use dpl_domain::Domain;
use dpl_frame::{Arrays, Frame};
use dpl_loop::{Gate, RunStop, Turns, turns_of};

// A worker counts places in its part; the gate is asked by those in the whole domain.
#[derive(Drop)]
pub(crate) struct PartGate<'a, G> {
    pub(crate) gate: &'a G,
    pub(crate) part: &'a Domain,
    pub(crate) whole: &'a Domain,
}

impl<'a, G: Gate> Gate for PartGate<'a, G> {
    ghost may_refuse = { λ g. MayRefuseIn (G.may_refuse g.gate.now) g.part.now g.whole.now };

    fn enter(&self, worker: u32, place: u64) -> bool {
        let Some(index) = self.part.nth(place) else {
            return true;
        };
        match self.whole.place(index) {
            Some(place) => self.gate.enter(worker, place),
            None => true,
        }
    }

    #[inline(always)]
    fn is_open(&self) -> bool {
        self.gate.is_open()
    }
}

/// The turns of a locale's part, in order.
///
/// # Errors
/// As for [`forall_here`](dpl_loop::forall_here).
pub(crate) fn part_turns<A: Arrays, T: Turns, G: Gate>(
    site: &Site<'_, T, G>,
    locale: u32,
    part: &Part,
    frame: &mut Frame<A>,
) -> Result<(), RunStop>
    ensures ends { (done : Deeds) → RunsTo (MayRefuseAmong (G.may_refuse site.now.gate.now) site.now.map.now (indices site.now.whole.now))
        result frame.new.memory done (in_order (named_turn (T.turn site.now.turns.now frame.old.limits))
        (indices_of part.now site.now.whole.now site.now.map.now locale) frame.old.memory done) }
    ensures limits { frame.new.limits ≡ frame.old.limits }
{
    let Part::Sole(part) = part else {
        return owned_turns(site, locale, frame);
    };
    let gate = PartGate {
        gate: site.gate,
        part,
        whole: site.whole,
    };
    turns_of(site.turns, part, site.map, frame, &gate)
}
