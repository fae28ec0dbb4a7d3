// How a forall ends by how the turns of its workers have ended: what was refused goes before a fault, and of faults the one is told whose turn
// stands first in the loop's domain.

ghost use Rattle.std.specs.Prelude.{◌≡◌, ◌≤◌, ◌^◌, Err};
ghost use Rattle.dpl_sets.specs.Indices.{indices};
ghost use Rattle.dpl_frame.specs.Faults.{turn_view};
ghost use Rattle.dpl_workers.specs.Soonest.{spot_in, rank_in, sooner_in, IsSoonest};

use crate::job::Worked;
use dpl_domain::Domain;
use dpl_frame::Turn;
use dpl_loop::RunStop;

/// Where a turn stands in a domain; behind all of its turns where it has none of this index.
pub(crate) fn spot_of(whole: &Domain, turn: &Turn) -> u64
    ensures spot { result ≡ spot_in (indices whole.now) (turn_view turn.now) }
    ensures small { result ≤ 2 ^ 40 }
{
    let size = whole.size();
    if let Turn::Absent = turn {
        return 0;
    }
    let Some(index) = turn.index() else {
        unreachable!()
    };
    match whole.place(index) {
        Some(place) => place,
        None => size,
    }
}

// Which of several ends is told, the least first.
fn rank(whole: &Domain, stop: &RunStop) -> u64
    ensures { result ≡ rank_in (indices whole.now) stop.now }
{
    match stop {
        RunStop::Memory => 0,
        RunStop::Thread => 1,
        RunStop::Gate => 2,
        RunStop::Fault(fault) => 3 + spot_of(whole, &fault.turn),
    }
}

/// Of an early end and another end the one that is told. Turns that ended well tell nothing.
pub(crate) fn told_first(whole: &Domain, stop: RunStop, other: Result<(), RunStop>) -> RunStop
    ensures { sooner_in (indices whole.now) (Err stop) other ≡ Err result }
{
    let Err(behind) = other else {
        return stop;
    };
    if rank(whole, &behind) < rank(whole, &stop) {
        behind
    } else {
        stop
    }
}

// Of two ends the one that is told.
fn sooner(
    whole: &Domain,
    one: Result<(), RunStop>,
    other: Result<(), RunStop>,
) -> Result<(), RunStop>
    ensures { result ≡ sooner_in (indices whole.now) one other }
{
    match one {
        Ok(()) => other,
        Err(stop) => Err(told_first(whole, stop, other)),
    }
}

/// How the turns of all workers have ended together.
///
/// # Errors
/// What was refused: memory first, then a thread, then an entry by the gate; or else the fault that stands first.
pub(crate) fn ended(whole: &Domain, worked: &[Worked]) -> Result<(), RunStop>
    ensures { IsSoonest (indices whole.now) worked.now result }
{
    match worked {
        [] => Ok(()),
        [first, rest @ ..] => sooner(whole, first.end, ended(whole, rest)),
    }
}
