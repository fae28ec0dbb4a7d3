// A cell that two tasks share, on one thread: what one of them writes the other takes out, and who would have to wait is told so.
// Each task acts by its seat. A client with a thread for each task, and what it proves, is `counting.rt` of dpl_cell_tests.
#![tactic(auto)]

use dpl_cell::{Board, CellOp, CellState, Reply, Seat, Tried};
use std::alloc::{AllocError, Global};
use std::io;

fn main(rt: HostRuntime) -> io::Result<()> {
    match passed(rt.alloc()) {
        Ok((tried, taken, left)) => println!(&rt;
            "first {tried}, then {taken}; the cell is {left} at the end"
        ),
        Err(AllocError) => println!(&rt; "out of memory"),
    }
}

// Task 1 looks for a value, task 0 writes one, and task 1 takes it out; then the board is closed.
fn passed(alloc: Global) -> Result<(&'static str, i64, &'static str), AllocError> {
    let mut cells = Vec::new(alloc);
    cells.push(CellState::Empty)?;
    let Ok((board, mut seats)) = Board::new(alloc, cells, 2) else {
        return Err(AllocError);
    };
    let mut gatherer = board.last_seat(&mut seats);
    let mut reader = board.last_seat(&mut seats);
    let mut writer = board.last_seat(&mut seats);

    let tried = match board.try_op(&mut reader, 0, CellOp::ReadFE) {
        Tried::Done(_) => "a value",
        Tried::Missed(_) => "nothing",
    };
    let _ = board.op(&mut writer, 0, CellOp::WriteEF(84), 1);
    let taken = match board.op(&mut reader, 0, CellOp::ReadFE, 1) {
        Ok(Reply::Value(value)) => value,
        _ => 0,
    };
    board.join(&mut gatherer, writer);
    board.join(&mut gatherer, reader);
    let left = match board.close(gatherer).pop() {
        Some(CellState::Empty) => "empty",
        _ => "full",
    };
    Ok((tried, taken, left))
}
