//! Clients of a channel: one task puts values into a cell, and another takes them out, each on a thread of its own.
//! That they come out in order is the law of channels; which values they are, each task's own events say.
ghost use Rattle.std.specs.Prelude.{◌≡◌, ◌<◌, [], ◌∷◌, ◌++◌, length, IfOk, IfSome};
ghost use Rattle.dpl_history.specs.Histories.{of_task, cell_at};
ghost use Rattle.dpl_history.specs.Values.{content};
ghost use Rattle.dpl_cell.specs.Seats.{IsSeatOf, fresh_seat};
ghost use Rattle.dpl_cell.specs.Calls.{KeepsNumbers};
ghost use Rattle.dpl_cell_tests.specs.Passing.{sends, receives, HasDone};

use dpl_cell::{Board, CellOp, CellState, Reply, Seat, Stuck};
use std::alloc::Global;
use std::thread::{Threads, join};

const TRIES: u64 = 10_000_000_000;

// Puts the values into the cell 0, in order.
fn send(board: &Board, seat: &mut Seat, values: &[i64]) -> Result<(), Stuck>
    requires own { IsSeatOf board.now seat.old }
    requires alone { seat.old.numbers ≡ seat.old.number ∷ [] }
    requires cell { 0 < length board.now.opening }
    ensures own { IsSeatOf board.now seat.new }
    ensures numbers { KeepsNumbers seat.old seat.new }
    ensures sent { IfOk result (λ _. HasDone (sends seat.old.number values.now) seat.old seat.new) }
{
    for value in values {
        let _ = board.op(seat, 0, CellOp::WriteEF(*value), TRIES)?;
    }
    Ok(())
}

// Takes so many values out of the cell 0. `None` where the task was stuck or out of memory.
fn receive(board: &Board, seat: &mut Seat, alloc: Global, count: usize) -> Option<Vec<i64>>
    requires own { IsSeatOf board.now seat.old }
    requires alone { seat.old.numbers ≡ seat.old.number ∷ [] }
    requires cell { 0 < length board.now.opening }
    ensures own { IsSeatOf board.now seat.new }
    ensures numbers { KeepsNumbers seat.old seat.new }
    ensures received { IfSome result (λ got. HasDone (receives seat.old.number got.items) seat.old seat.new) }
{
    let mut got = Vec::new(alloc);
    for made in 0..count {
        let Ok(reply) = board.op(seat, 0, CellOp::ReadFE, TRIES) else {
            return None;
        };
        let Reply::Value(value) = reply else {
            unreachable!()
        };
        let Ok(()) = got.push(value) else {
            return None;
        };
    }
    Some(got)
}

// What the sender does on its thread.
fn send_alone(board: &Board, mut seat: Seat, values: &[i64]) -> (Seat, Result<(), Stuck>)
    requires fresh { seat ≡ fresh_seat board.now 0 }
    requires cell { 0 < length board.now.opening }
    ensures own { IsSeatOf board.entry.now result.0 }
    ensures numbers { result.0.numbers ≡ 0 ∷ [] }
    ensures sent { IfOk result.1 (λ _. of_task 0 result.0.history ≡ sends 0 values.entry.now) }
{
    let ended = send(board, &mut seat, values);
    (seat, ended)
}

// What the receiver does on its thread.
fn receive_alone(
    board: &Board,
    mut seat: Seat,
    alloc: Global,
    count: usize,
) -> (Seat, Option<Vec<i64>>)
    requires fresh { seat ≡ fresh_seat board.now 1 }
    requires cell { 0 < length board.now.opening }
    ensures own { IsSeatOf board.entry.now result.0 }
    ensures numbers { result.0.numbers ≡ 1 ∷ [] }
    ensures received { IfSome result.1 (λ got. of_task 1 result.0.history ≡ receives 1 got.items) }
{
    let got = receive(board, &mut seat, alloc, count);
    (seat, got)
}

// Passes the values from one thread to another. What came, and the cells afterwards.
pub(crate) fn pass_on<R: Threads + Sync>(
    rt: &R,
    alloc: Global,
    values: &[i64],
) -> Option<(Vec<i64>, Vec<CellState>)>
    ensures { IfSome result (λ r. values.now ≡ r.0.items ++ content (cell_at r.1.items 0)) }
{
    let mut cells = Vec::new(alloc);
    cells.push(CellState::Empty).ok()?;
    let Ok((board, mut seats)) = Board::new(alloc, cells, 2) else {
        return None;
    };
    let mut gatherer = board.last_seat(&mut seats);
    let one = board.last_seat(&mut seats);
    let zero = board.last_seat(&mut seats);
    let shared = &board;
    let (sent, received) = join(
        rt,
        move || { send_alone(shared, zero, values) },
        move || { receive_alone(shared, one, alloc, values.len()) },
    );
    let Ok(()) = sent.1 else {
        return None;
    };
    let got = received.1?;
    board.join(&mut gatherer, sent.0);
    board.join(&mut gatherer, received.0);
    Some((got, board.close(gatherer)))
}
