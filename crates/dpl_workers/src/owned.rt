// The turns of all indices that a locale owns, where its part is several domains: the whole domain is gone through in its order, and the turns
// of other locales' indices do nothing. Where several of these follow one another in a row, they are passed over at once.
// So the turns are made in the order of the whole domain, whatever domains the part is cut into: the first fault that a worker meets is the
// one that stands first.

ghost use Rattle.std.specs.Prelude.{◌≡◌};
ghost use Rattle.dpl_sets.specs.Indices.{indices};
ghost use Rattle.dpl_map.specs.Maps.{owner};
ghost use Rattle.dpl_map.specs.Parts.{part};
ghost use Rattle.dpl_language.specs.Outcome.{Deeds, in_order};
ghost use Rattle.dpl_language.specs.Loops.{named_turn};
ghost use Rattle.dpl_workers.specs.Owned.{owned_turn};
ghost use Rattle.dpl_loop.specs.Runs.{RunsTo};
ghost use Rattle.dpl_loop.specs.Values.{MayRefuseAmong};

use crate::level::Site;
use crate::steady::steady;
use dpl_array::Row;
use dpl_domain::Index;
use dpl_frame::{Arrays, Frame};
use dpl_loop::{Gate, RunStop, Turns, turns_of};
use dpl_map::Map;
use std::alloc::AllocError;

// The turns of the indices that a locale owns, as turns over whatever indices.
#[derive(Drop)]
struct OwnTurns<'a, T> {
    turns: &'a T,
    map: &'a Map,
    locale: u32,
}

impl<'a, T: Turns> Turns for OwnTurns<'a, T> {
    ghost turn = { λ o limits. owned_turn (owner o.map.now) o.locale (T.turn o.turns.now limits) };

    #[inline(always)]
    fn make<A: Arrays>(&self, index: Index, frame: &mut Frame<A>) -> Result<(), RunStop> {
        if self.map.owner(index) == self.locale {
            self.turns.make(index, frame)
        } else {
            Ok(())
        }
    }

    fn make_row<A: Arrays>(
        &self,
        row: Row,
        most: usize,
        frame: &mut Frame<A>,
    ) -> Result<usize, AllocError> {
        let size = steady(self.map, &row, most);
        if self.map.owner(row.first()) == self.locale {
            self.turns.make_row(row, size, frame)
        } else {
            Ok(size)
        }
    }
}

// The gate of a loop, which a locale asks for its own indices alone.
#[derive(Drop)]
pub(crate) struct OwnGate<'a, G> {
    pub(crate) gate: &'a G,
    pub(crate) locale: usize,
}

impl<'a, G: Gate> Gate for OwnGate<'a, G> {
    ghost may_refuse = { λ g. G.may_refuse g.gate.now };

    fn enter(&self, worker: u32, place: u64) -> bool {
        worker as usize != self.locale || self.gate.enter(worker, place)
    }

    #[inline(always)]
    fn is_open(&self) -> bool {
        self.gate.is_open()
    }
}

/// The turns of all indices that a locale owns, in the order of the whole domain.
///
/// # Errors
/// As for [`forall_here`](dpl_loop::forall_here).
pub(crate) fn owned_turns<A: Arrays, T: Turns, G: Gate>(
    site: &Site<'_, T, G>,
    locale: u32,
    frame: &mut Frame<A>,
) -> Result<(), RunStop>
    ensures ends { (done : Deeds) → RunsTo (MayRefuseAmong (G.may_refuse site.now.gate.now) site.now.map.now (indices site.now.whole.now))
        result frame.new.memory done
        (in_order (named_turn (T.turn site.now.turns.now frame.old.limits)) (part site.now.whole.now site.now.map.now locale) frame.old.memory done) }
    ensures limits { frame.new.limits ≡ frame.old.limits }
{
    let turns = OwnTurns {
        turns: site.turns,
        map: site.map,
        locale,
    };
    let gate = OwnGate {
        gate: site.gate,
        locale: locale as usize,
    };
    turns_of(&turns, site.whole, site.map, frame, &gate)
}
