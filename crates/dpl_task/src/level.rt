//! The threads of a coforall's tasks.
//! A level starts the thread of the last task, goes down for those before it, then joins the thread and takes in its seat.
ghost use Rattle.std.specs.Prelude.{◌≡◌, ℕ, ◌<◌, vec_len, Ok, Err, IfOk, IfErr};
ghost use Rattle.std.specs.Vec.{vec_capacity};
ghost use Rattle.dpl_cell.specs.Seats.{fresh_seat};
ghost use Rattle.dpl_task.specs.Ends.{IsFirst};
ghost use Rattle.dpl_task.specs.Ran.{Ran, IsRefusedSo};
ghost use Rattle.dpl_task.specs.Levels.{MayStart, HaveRun, MayRefuseOneOf, IsFirstOf};

use crate::end::{Refusal, TaskEnd};
use crate::tasks::Tasks;
use dpl_cell::{Board, Seat};
use dpl_loop::Gate;
use dpl_threads::start;
use std::sync::Wait;
use std::thread::{self, Promise, Scope, Threads};

// What all tasks of a coforall share.
#[derive(Drop)]
pub(crate) struct Site<'a, T, G> {
    pub(crate) board: &'a Board,
    pub(crate) tasks: &'a T,
    pub(crate) gate: &'a G,
    pub(crate) tries: u64,
}

// The gatherer's seat, and the ends of the tasks whose seats it has taken in, by their numbers.
#[derive(Drop)]
pub(crate) struct Gathering {
    pub(crate) seat: Seat,
    pub(crate) ends: Vec<TaskEnd>,
}

// What a task does on its thread: it enters the gate once, with its number as worker and as place, and then it is made.
fn run_one<T: Tasks, G: Gate>(
    site: &Site<'_, T, G>,
    number: u64,
    seat: Seat,
    frame: T::Frame,
) -> (Seat, Result<TaskEnd, Refusal>)
    requires tries { 0 < site.now.tries }
    requires few { number < 64 }
    requires fresh { seat ≡ fresh_seat site.now.board.now number }
    requires starts { T.starts site.now.tasks.now number site.now.board.now.opening frame }
    ensures { Ran site.now.board.now (T.alone site.now.tasks.now) (G.may_refuse site.now.gate.now) site.now.tries number result.0 result.1 }
{
    if site.gate.is_open() || site.gate.enter(number as u32, number) {
        site.tasks.make(number, frame, site.board, seat, site.tries)
    } else {
        (seat, Err(Refusal::Gate))
    }
}

// What a task's thread promises of the seat that it hands back.
#[derive(Drop)]
struct Running<'a, T, G> {
    site: &'a Site<'a, T, G>,
    number: u64,
}

impl<'a, T: Tasks, G: Gate> Promise<(Seat, Result<TaskEnd, Refusal>)> for Running<'a, T, G> {
    ghost use Rattle.dpl_task.specs.Ran.{Ran};

    ghost kept_by = { λ p r. Ran p.site.now.board.now (T.alone p.site.now.tasks.now) (G.may_refuse p.site.now.gate.now) p.site.now.tries p.number r.0 r.1 };
}

// What the tasks below gathered and how the next one ended; or what was refused, by the order of refusals.
fn both(
    below: Result<Gathering, Refusal>,
    end: Result<TaskEnd, Refusal>,
) -> Result<(Gathering, TaskEnd), Refusal>
    ensures ok { IfOk result (λ r. (below ≡ Ok r.0) × (end ≡ Ok r.1)) }
    ensures err { IfErr result (IsFirstOf below end) }
{
    match (below, end) {
        (Ok(gathering), Ok(end)) => Ok((gathering, end)),
        (Err(why), Ok(_)) => Err(why),
        (Ok(_), Err(why)) => Err(why),
        (Err(first), Err(second)) => Err(first.first(second)),
    }
}

// Starts a task for each of these seats, and takes in what they know and how they ended.
fn start_all<'s, E, T: Tasks + Sync, G: Gate + Sync, R: Threads + Sync>(
    rt: &R,
    scope: &Scope<'s, E>,
    site: &'s Site<'s, T, G>,
    mut seats: Vec<Seat>,
    mut frames: Vec<T::Frame>,
    gathering: Gathering,
) -> Result<Gathering, Refusal>
    requires { MayStart site.now.board.now (T.starts site.now.tasks.now) site.now.tries seats.items frames.items gathering }
    ensures ran { IfOk result (λ g. HaveRun site.now.board.now (T.alone site.now.tasks.now) site.now.tries (vec_len seats) gathering.seat g.seat g.ends.items) }
    ensures room { IfOk result (λ g. vec_capacity g.ends ≡ vec_capacity gathering.ends) }
    ensures refused { IfErr result (IsRefusedSo (MayRefuseOneOf (G.may_refuse site.now.gate.now) (vec_len seats))) }
{
    let Some(frame) = frames.pop() else {
        return Ok(gathering);
    };
    let seat = site.board.last_seat(&mut seats);
    let number = seats.len() as u64;
    let promise = Running { site, number };
    let task = move || -> (Seat, Result<TaskEnd, Refusal>)
        requires tries { 0 < site.now.tries }
        requires few { number < 64 }
        requires fresh { seat ≡ fresh_seat site.now.board.now number }
        requires starts { T.starts site.now.tasks.now number site.now.board.now.opening frame }
        ensures { Ran site.entry.now.board.now (T.alone site.entry.now.tasks.now)
            (G.may_refuse site.entry.now.gate.now) site.entry.now.tries number result.0 result.1 }
    { run_one(site, number, seat, frame) };
    let Ok(handle) = start(scope, promise, task) else {
        return Err(Refusal::Thread);
    };
    let below = start_all(rt, scope, site, seats, frames, gathering);
    let (seat, end) = handle.join(rt);
    let (mut gathering, end) = both(below, end)?;
    site.board.join(&mut gathering.seat, seat);
    gathering.ends.push_reserved(end);
    Ok(gathering)
}

// Runs the tasks of these seats in a scope.
pub(crate) fn run_all<T: Tasks + Sync, G: Gate + Sync, R: Threads + Wait + Sync>(
    rt: &R,
    site: &Site<'_, T, G>,
    seats: Vec<Seat>,
    frames: Vec<T::Frame>,
    gathering: Gathering,
) -> Result<Gathering, Refusal>
    requires { MayStart site.now.board.now (T.starts site.now.tasks.now) site.now.tries seats.items frames.items gathering }
    ensures ran { IfOk result (λ g. HaveRun site.now.board.now (T.alone site.now.tasks.now) site.now.tries (vec_len seats) gathering.seat g.seat g.ends.items) }
    ensures refused { IfErr result (IsRefusedSo (MayRefuseOneOf (G.may_refuse site.now.gate.now) (vec_len seats))) }
{
    thread::scope(
        thread::scope_env(),
        rt,
        move |scope| -> Result<Gathering, Refusal>
            requires { MayStart site.now.board.now (T.starts site.now.tasks.now) site.now.tries seats.items frames.items gathering }
            ensures ran { IfOk result (λ g. HaveRun site.entry.now.board.now (T.alone site.entry.now.tasks.now) site.entry.now.tries
                (vec_len seats) gathering.seat g.seat g.ends.items) }
            ensures refused { IfErr result (IsRefusedSo (MayRefuseOneOf (G.may_refuse site.entry.now.gate.now) (vec_len seats))) }
        { start_all(rt, scope, site, seats, frames, gathering) },
    )
}
