// Turns that are made at once: those of a row, where they are told together.
// A loop asks for them at its first index. Where that makes some it goes on so, and else turn by turn.

ghost use Rattle.std.specs.Prelude.{◌≡◌, ◌+◌, ◌≤◌, ◌<◌, ◌^◌, Some, drop, length, slice_get, IfOk};
ghost use Rattle.dpl_language.specs.Outcome.{Deeds, in_order};
ghost use Rattle.dpl_language.specs.Loops.{named_turn};
ghost use Rattle.dpl_loop.specs.Runs.{RunsTo, TurnsGoOn};
ghost use Rattle.dpl_loop.specs.Values.{MayRefuseAmong};

use crate::gate::Gate;
use crate::loops::entered;
use crate::rows::Places;
use crate::stop::RunStop;
use crate::turns::Turns;
use dpl_domain::Index;
use dpl_frame::{Arrays, Frame};
use dpl_map::Map;
use std::alloc::AllocError;

// The fewest turns of a row that are asked for together: fewer cost more than they serve.
const FEW: u64 = 16;

// How many turns are made at once from the index at a place on, unless memory ran out.
#[inline(always)]
fn row<A: Arrays, P: Places, T: Turns>(
    turns: &T,
    over: &P,
    index: Index,
    place: u64,
    frame: &mut Frame<A>,
) -> Result<usize, AllocError>
    requires { slice_get (P.indices over.now) place ≡ Some index }
    ensures within { IfOk result (λ made. place + made ≤ length (P.indices over.now)) }
    ensures goes { (done : Deeds) → IfOk result (λ made.
        in_order (named_turn (T.turn turns.now frame.old.limits)) (drop (place + made) (P.indices over.now)) frame.new.memory done
        ≡ in_order (named_turn (T.turn turns.now frame.old.limits)) (drop place (P.indices over.now)) frame.old.memory done) }
    ensures limits { frame.new.limits ≡ frame.old.limits }
{
    let (row, left) = over.row(index, place);
    if left < FEW {
        return Ok(0);
    }
    turns.make_row(row, left as usize, frame)
}

/// How many turns are made at once from the first index on. None where a gate is to be asked for them.
///
/// # Errors
/// Out of memory.
pub(crate) fn begun<A: Arrays, P: Places, T: Turns, G: Gate>(
    turns: &T,
    over: &P,
    frame: &mut Frame<A>,
    gate: &G,
) -> Result<usize, AllocError>
    ensures within { IfOk result (λ made. made ≤ length (P.indices over.now)) }
    ensures goes { (done : Deeds) → IfOk result (λ made.
        in_order (named_turn (T.turn turns.now frame.old.limits)) (drop made (P.indices over.now)) frame.new.memory done
        ≡ in_order (named_turn (T.turn turns.now frame.old.limits)) (P.indices over.now) frame.old.memory done) }
    ensures limits { frame.new.limits ≡ frame.old.limits }
{
    if !gate.is_open() {
        return Ok(0);
    }
    match over.at(0) {
        Some(first) => row(turns, over, first, 0, frame),
        None => Ok(0),
    }
}

// The turns from a place on, as many as are made at once, or that of the place alone; and the next place.
fn turns_from<A: Arrays, P: Places, T: Turns, G: Gate>(
    turns: &T,
    over: &P,
    place: u64,
    map: &Map,
    frame: &mut Frame<A>,
    gate: &G,
) -> Result<u64, RunStop>
    requires place { place < length (P.indices over.now) }
    requires small { length (P.indices over.now) < 2 ^ 64 }
    ensures next { IfOk result (λ next. (place < next) × (next ≤ length (P.indices over.now))) }
    ensures goes { (done : Deeds)
        → TurnsGoOn (MayRefuseAmong (G.may_refuse gate.now) map.now (P.indices over.now)) (named_turn (T.turn turns.now frame.old.limits))
        (P.indices over.now) place frame.old.memory result frame.new.memory done }
    ensures limits { frame.new.limits ≡ frame.old.limits }
{
    let Some(index) = over.at(place) else {
        unreachable!()
    };
    let Ok(made) = row(turns, over, index, place, frame) else {
        return Err(RunStop::Memory);
    };
    if made == 0 {
        entered(turns, index, place, map, frame, gate)?;
        return Ok(place + 1);
    }
    Ok(place + made as u64)
}

/// The turns from a place on, as many at a time as are made at once.
///
/// # Errors
/// As for [`forall_here`](crate::forall_here).
pub(crate) fn together<A: Arrays, P: Places, T: Turns, G: Gate>(
    turns: &T,
    over: &P,
    first: u64,
    map: &Map,
    frame: &mut Frame<A>,
    gate: &G,
) -> Result<(), RunStop>
    requires { first ≤ length (P.indices over.now) }
    ensures ends { (done : Deeds) → RunsTo (MayRefuseAmong (G.may_refuse gate.now) map.now (P.indices over.now)) result frame.new.memory done
        (in_order (named_turn (T.turn turns.now frame.old.limits)) (drop first (P.indices over.now)) frame.old.memory done) }
    ensures limits { frame.new.limits ≡ frame.old.limits }
{
    let mut place = first;
    while place < over.size() {
        place = turns_from(turns, over, place, map, frame, gate)?;
    }
    Ok(())
}
