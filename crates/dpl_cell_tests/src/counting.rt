//! Clients of a board that prove what they come to: tasks that count up in one cell, each on a thread of its own.
//! A scoped thread's promise carries what it proved of its seat back to the thread that joins it.
ghost use Rattle.std.specs.Prelude.{◌≡◌, ℕ, ◌*◌, ◌<◌, ◌≤◌, pos, [], ◌∷◌, length, vec_len, IfOk, IfSome};
ghost use Rattle.dpl_history.specs.declared.cell.CellState.TheVariants.{Full};
ghost use Rattle.dpl_cell.specs.Seats.{IsSeatOf, AreFresh, fresh_seat};
ghost use Rattle.dpl_cell.specs.Calls.{KeepsNumbers};
ghost use Rattle.dpl_cell_tests.specs.Counting.{counted, HasCounted, HasCountedAlone, HaveCounted};

use dpl_cell::{Board, CellOp, CellState, Reply, Seat, Stuck};
use std::alloc::Global;
use std::sync::Wait;
use std::thread::{self, Promise, Scope, Threads};

const TRIES: u64 = 100_000_000;

// Adds 1 to the cell 0, `rounds` times.
fn count_up(board: &Board, seat: &mut Seat, rounds: u64) -> Result<(), Stuck>
    requires own { IsSeatOf board.now seat.old }
    requires alone { seat.old.numbers ≡ seat.old.number ∷ [] }
    requires cell { 0 < length board.now.opening }
    ensures own { IsSeatOf board.now seat.new }
    ensures numbers { KeepsNumbers seat.old seat.new }
    ensures counted { IfOk result (λ _. HasCounted rounds seat.old seat.new) }
{
    for made in 0..rounds {
        let Reply::Value(value) = board.op(seat, 0, CellOp::ReadFE, TRIES)? else {
            unreachable!()
        };
        let next = CellOp::WriteEF(value.wrapping_add(1));
        let _ = board.op(seat, 0, next, TRIES)?;
    }
    Ok(())
}

// What a task does on its thread: it counts up, and hands its seat back.
fn count_alone(board: &Board, mut seat: Seat, number: u64, rounds: u64) -> (Seat, Result<(), Stuck>)
    requires fresh { seat ≡ fresh_seat board.now number }
    requires cell { 0 < length board.now.opening }
    ensures { HasCountedAlone board.entry.now number rounds result.0 result.1 }
{
    let _ = number;
    let ended = count_up(board, &mut seat, rounds);
    (seat, ended)
}

// What a task's thread promises of the seat that it hands back.
#[derive(Drop)]
struct Counting<'a> {
    board: &'a Board,
    number: u64,
    rounds: u64,
}

impl<'a> Promise<(Seat, Result<(), Stuck>)> for Counting<'a> {
    ghost use Rattle.dpl_cell_tests.specs.Counting.{HasCountedAlone};

    ghost kept_by = { λ p r. HasCountedAlone p.board.now p.number p.rounds r.0 r.1 };
}

// Starts a task for each of these seats, the last first, and takes what they know into the gatherer's seat. `None` where
// there was no thread for a task, or a task was stuck.
fn start_all<'s, E, R: Threads + Sync>(
    rt: &R,
    scope: &Scope<'s, E>,
    board: &'s Board,
    mut seats: Vec<Seat>,
    mut gatherer: Seat,
    rounds: u64,
) -> Option<Seat>
    requires { IsSeatOf board.now gatherer × AreFresh board.now seats.items × (0 < length board.now.opening) }
    ensures { IfSome result (λ s. HaveCounted board.entry.now (vec_len seats) rounds gatherer s) }
{
    if seats.is_empty() {
        return Some(gatherer);
    }
    let seat = board.last_seat(&mut seats);
    let number = seats.len() as u64;
    let promise = Counting {
        board,
        number,
        rounds,
    };
    let task = move || -> (Seat, Result<(), Stuck>)
        requires { (seat ≡ fresh_seat board.now number) × (0 < length board.now.opening) }
        ensures { HasCountedAlone board.entry.now number rounds result.0 result.1 }
    { count_alone(board, seat, number, rounds) };
    let Ok(handle) = scope.spawn_with(promise, task) else {
        return None;
    };
    let below = start_all(rt, scope, board, seats, gatherer, rounds);
    let (seat, ended) = handle.join(rt);
    gatherer = below?;
    let Ok(()) = ended else {
        return None;
    };
    board.join(&mut gatherer, seat);
    Some(gatherer)
}

// Runs the tasks of these seats in a scope.
fn run_all<R: Threads + Wait + Sync>(
    rt: &R,
    board: &Board,
    seats: Vec<Seat>,
    gatherer: Seat,
    rounds: u64,
) -> Option<Seat>
    requires { IsSeatOf board.now gatherer × AreFresh board.now seats.items × (0 < length board.now.opening) }
    ensures { IfSome result (λ s. HaveCounted board.entry.now (vec_len seats) rounds gatherer s) }
{
    thread::scope(
        thread::scope_env(),
        rt,
        move |scope| -> Option<Seat>
            requires { IsSeatOf board.now gatherer × AreFresh board.now seats.items × (0 < length board.now.opening) }
            ensures { IfSome result (λ s. HaveCounted board.entry.now (vec_len seats) rounds gatherer s) }
        { start_all(rt, scope, board, seats, gatherer, rounds) },
    )
}

// The cell that is left where so many tasks, each on a thread of its own, count up from 0, if none was stuck.
pub(crate) fn count_together<R: Threads + Wait + Sync>(
    rt: &R,
    alloc: Global,
    tasks: u64,
    rounds: u64,
) -> Option<CellState>
    requires { tasks ≤ 64 }
    ensures { IfSome result (λ c. c ≡ Full (counted (pos 0) (tasks * rounds))) }
{
    let mut cells = Vec::new(alloc);
    cells.push(CellState::Full(0)).ok()?;
    let Ok((board, mut seats)) = Board::new(alloc, cells, tasks) else {
        return None;
    };
    let gatherer = board.last_seat(&mut seats);
    let gatherer = run_all(rt, &board, seats, gatherer, rounds)?;
    board.close(gatherer).pop()
}
