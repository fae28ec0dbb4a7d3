// A forall over a domain, once what it runs over has been evaluated: its turns are dealt out by a map, and made between its reduce variables.

ghost use Rattle.std.specs.Prelude.{◌≡◌};
ghost use Rattle.dpl_language.specs.Ranges.{indices_in};
ghost use Rattle.dpl_language.specs.Outcome.{Deeds, in_order};
ghost use Rattle.dpl_language.specs.Loops.{named_turn};
ghost use Rattle.dpl_standing.specs.Standing.{InTurn};
ghost use Rattle.dpl_loop.specs.Runs.{RunsTo};
ghost use Rattle.dpl_loop.specs.Entries.{MayRefuse};
ghost use Rattle.dpl_readings.specs.Readings.{steps_in};
ghost use Rattle.dpl_steps.specs.Contexts.{index_turn};
ghost use Rattle.dpl_program.specs.Making.{forall_run, MayRefuseTurns};

use crate::body::Body;
use crate::dealt::dealt;
use dpl_frame::{DomainWord, Frame};
use dpl_loop::{Gate, RunStop};
use dpl_map::Map;
use dpl_nodes::{Changed, Names, Step};
use dpl_workers::forall;
use std::sync::Wait;
use std::thread::Threads;

/// A forall over a domain: its variables, the slot of the name from which the domain is derived, if from one, the domain, what its turns change,
/// and its body.
#[derive(Drop)]
pub(crate) struct Forall<'f, 't> {
    pub(crate) names: Names<'t>,
    pub(crate) origin: Option<usize>,
    pub(crate) indices: DomainWord,
    pub(crate) changed: &'f Changed<'t>,
    pub(crate) body: &'f [Step<'t>],
}

// The turns of a body over a domain, by workers where they serve. This is a function of its own for the sake of its proof: that workers may share
// a body is found where few facts are at hand.
fn turns_of<R: Threads + Wait + Sync, G: Gate + Sync>(
    rt: &R,
    turns: &Body<'_, '_>,
    over: DomainWord,
    map: &Map,
    frame: &mut Frame,
    gate: &G,
) -> Result<(), RunStop>
    ensures ends { (done : Deeds) → RunsTo (MayRefuse (G.may_refuse gate.now) map.now over) result frame.new.memory done
        (in_order (named_turn (index_turn frame.old.limits turns.now.names (steps_in InTurn turns.now.steps.now))) (indices_in over)
        frame.old.memory done) }
    ensures limits { frame.new.limits ≡ frame.old.limits }
{
    forall(rt, turns, over, map, frame, gate)
}

/// Makes its turns, by workers where they serve, dealt out by the map that its text tells.
///
/// # Errors
/// As for `forall` of dpl_loop.
pub(crate) fn make_forall<R: Threads + Wait + Sync, G: Gate + Sync>(
    rt: &R,
    made: &Forall<'_, '_>,
    frame: &mut Frame,
    gate: &G,
) -> Result<(), RunStop>
    ensures ends { (done : Deeds) → RunsTo (MayRefuseTurns (G.may_refuse gate.now) frame.old made.now) result frame.new.memory done
        (forall_run frame.old.limits made.now frame.old.memory done) }
    ensures limits { frame.new.limits ≡ frame.old.limits }
{
    let map = dealt(made.body, made.origin, frame);
    let turns = Body {
        names: made.names,
        steps: made.body,
        rank: made.indices.rank(),
        changed: made.changed,
    };
    frame.intend(made.changed.reduced)?;
    turns_of(rt, &turns, made.indices, &map, frame, gate)?;
    frame.intend_none();
    Ok(())
}
