//! The worked rows of cells and boards, on one thread and on many.
//! What the clauses say isn't tested again; the rows show that they say what is meant, and that the calls end.
ghost use Rattle.std.specs.Prelude.{◌≡◌, ◌<◌, [], ◌∷◌, length};
ghost use Rattle.dpl_cell.specs.Calls.{KeepsNumbers};
ghost use Rattle.dpl_cell.specs.Seats.{IsSeatOf, fresh_seat};

use crate::counting::count_together;
use crate::passing::pass_on;
use dpl_cell::{Board, CellOp, CellState, NoMemory, Reply, Seat, Stuck, Tried, apply};
use std::alloc::Global;
use std::process::Abort;
use std::thread::join;

const TRIES: u64 = 100_000_000;

// A board over these cells for two tasks, with the seats of task 0, of task 1 and of the gatherer.
fn board_for_two(rt: &impl Abort, alloc: Global, cells: &[CellState]) -> (Board, Seat, Seat, Seat)
    ensures board { (result.0.opening ≡ cells.now) × (result.0.tasks ≡ 2) }
    ensures seats { (result.1 ≡ fresh_seat result.0 0) × (result.2 ≡ fresh_seat result.0 1) × (result.3 ≡ fresh_seat result.0 2) }
{
    let Ok(cells) = Vec::from_slice(alloc, cells) else {
        panic!(rt; "there is memory for the cells")
    };
    let Ok((board, mut seats)) = Board::new(alloc, cells, 2) else {
        panic!(rt; "there is memory for the board")
    };
    let gatherer = board.last_seat(&mut seats);
    let one = board.last_seat(&mut seats);
    let zero = board.last_seat(&mut seats);
    (board, zero, one, gatherer)
}

// Joins the seats of two tasks to the gatherer's and closes. The cells are left as these.
fn close_all(
    rt: &impl Abort,
    board: Board,
    mut gatherer: Seat,
    one: Seat,
    zero: Seat,
    left: &[CellState],
)
    requires board { board.tasks ≡ 2 }
    requires seats { IsSeatOf board gatherer × IsSeatOf board one × IsSeatOf board zero }
    requires numbers { (gatherer.numbers ≡ 2 ∷ []) × (one.numbers ≡ 1 ∷ []) × (zero.numbers ≡ 0 ∷ []) }
{
    board.join(&mut gatherer, zero);
    board.join(&mut gatherer, one);
    assert!(rt; board.close(gatherer).as_slice() == left);
}

// Opens a board with one cell and closes it. Whether there was memory for it.
fn opens_and_closes(alloc: Global) -> bool {
    let Ok(cells) = Vec::from_slice(alloc, &[CellState::Full(1)]) else {
        return false;
    };
    let Ok((board, mut seats)) = Board::new(alloc, cells, 0) else {
        return false;
    };
    let gatherer = board.last_seat(&mut seats);
    board.close(gatherer).len() == 1
}

// Two operations of one task, up to many times each.
fn pair(
    board: &Board,
    mut seat: Seat,
    first: (usize, CellOp),
    second: (usize, CellOp),
) -> (Result<Reply, Stuck>, Result<Reply, Stuck>, Seat)
    requires seat { IsSeatOf board.now seat }
    requires cells { (first.0 < length board.now.opening) × (second.0 < length board.now.opening) }
    ensures { IsSeatOf board.entry.now result.2 × KeepsNumbers seat result.2 }
{
    let one = board.op(&mut seat, first.0, first.1, TRIES);
    let two = board.op(&mut seat, second.0, second.1, TRIES);
    (one, two, seat)
}

// Whether the operation, on a cell of one thread, replies this and leaves this.
fn does(op: CellOp, mut cell: CellState, reply: Option<Reply>, after: CellState) -> bool {
    apply(&mut cell, op) == reply && cell == after
}

#[test]
fn each_operation_on_each_state(rt: HostRuntime) {
    let (empty, five, seven) = (CellState::Empty, CellState::Full(5), CellState::Full(7));
    let (value, done) = (Some(Reply::Value(5)), Some(Reply::Done));
    assert!(rt; does(CellOp::ReadFE, empty, None, empty));
    assert!(rt; does(CellOp::ReadFE, five, value, empty));
    assert!(rt; does(CellOp::ReadFF, empty, None, empty));
    assert!(rt; does(CellOp::ReadFF, five, value, five));
    assert!(rt; does(CellOp::WriteEF(7), empty, done, seven));
    assert!(rt; does(CellOp::WriteEF(7), five, None, five));
    assert!(rt; does(CellOp::WriteFF(7), empty, None, empty));
    assert!(rt; does(CellOp::WriteFF(7), five, done, seven));
    assert!(rt; does(CellOp::WriteXF(7), empty, done, seven));
    assert!(rt; does(CellOp::WriteXF(7), five, done, seven));
    assert!(rt; does(CellOp::Reset, empty, done, empty));
    assert!(rt; does(CellOp::Reset, five, done, empty));
}

// Three cells, of which each keeps its own state: what waits is missed, and is stuck after its tries.
#[test]
fn one_thread(rt: HostRuntime) {
    let (empty, four) = (CellState::Empty, CellState::Full(4));
    let cells = [empty, four, CellState::Full(3)];
    let (board, mut zero, mut one, gatherer) = board_for_two(&rt, rt.alloc(), &cells);
    assert!(rt; board.count() == 3);
    assert!(rt; board.try_op(&mut zero, 0, CellOp::ReadFE) == Tried::Missed(0));
    assert!(rt; board.try_op(&mut zero, 1, CellOp::WriteEF(9)) == Tried::Missed(1));
    assert!(rt; board.try_op(&mut one, 0, CellOp::WriteEF(9)) == Tried::Done(Reply::Done));
    assert!(rt; board.op(&mut zero, 0, CellOp::ReadFE, 1) == Ok(Reply::Value(9)));
    assert!(rt; board.op(&mut zero, 0, CellOp::ReadFE, 3) == Err(Stuck));
    assert!(rt; board.try_op(&mut zero, 2, CellOp::ReadFE) == Tried::Done(Reply::Value(3)));
    close_all(&rt, board, gatherer, one, zero, &[empty, four, empty]);
}

#[test]
fn least_and_greatest_value(rt: HostRuntime) {
    let least = CellState::Full(i64::MIN);
    let (board, mut zero, one, gatherer) = board_for_two(&rt, rt.alloc(), &[least]);
    assert!(rt; board.try_op(&mut zero, 0, CellOp::ReadFE) == Tried::Done(Reply::Value(i64::MIN)));
    assert!(rt; board.try_op(&mut zero, 0, CellOp::WriteEF(i64::MAX)) == Tried::Done(Reply::Done));
    assert!(rt; board.try_op(&mut zero, 0, CellOp::ReadFF) == Tried::Done(Reply::Value(i64::MAX)));
    assert!(rt; board.try_op(&mut zero, 0, CellOp::WriteFF(-1)) == Tried::Done(Reply::Done));
    assert!(rt; board.try_op(&mut zero, 0, CellOp::ReadFF) == Tried::Done(Reply::Value(-1)));
    assert!(rt; board.try_op(&mut zero, 0, CellOp::Reset) == Tried::Done(Reply::Done));
    assert!(rt; board.try_op(&mut zero, 0, CellOp::WriteXF(i64::MIN)) == Tried::Done(Reply::Done));
    close_all(&rt, board, gatherer, one, zero, &[least]);
}

#[test]
fn no_cells(rt: HostRuntime) {
    let (board, zero, one, gatherer) = board_for_two(&rt, rt.alloc(), &[]);
    assert!(rt; board.count() == 0);
    close_all(&rt, board, gatherer, one, zero, &[]);
}

// The gatherer's seat is the only one, and answers for all.
#[test]
fn no_tasks(rt: HostRuntime) {
    let Ok(cells) = Vec::from_slice(rt.alloc(), &[CellState::Full(5)]) else {
        panic!(rt; "there is memory for the cells")
    };
    let Ok((board, mut seats)) = Board::new(rt.alloc(), cells, 0) else {
        panic!(rt; "there is memory for the board")
    };
    let mut gatherer = board.last_seat(&mut seats);
    assert!(rt; seats.is_empty());
    assert!(rt; board.try_op(&mut gatherer, 0, CellOp::ReadFF) == Tried::Done(Reply::Value(5)));
    assert!(rt; board.close(gatherer).as_slice() == [CellState::Full(5)].as_slice());
}

#[test]
fn printed_errors(rt: HostRuntime) {
    let both = format!(in rt.alloc(); "{}; {}", NoMemory, Stuck).expect(&rt, "memory");
    assert_eq!(rt;
        both.as_str(),
        "out of memory for a board of cells; every try found the cell in a state in which the operation waits"
    );
}

// Under `rt try --test --fail-alloc N` the Nth growth is refused: then one of the two boards is not made, and the other is.
#[test]
fn a_growth_refused(rt: HostRuntime) {
    let first = opens_and_closes(rt.alloc());
    let second = opens_and_closes(rt.alloc());
    assert!(rt; first || second);
}

#[test]
fn two_threads(rt: HostRuntime) {
    let cells = [CellState::Empty, CellState::Empty];
    let (board, zero, one, gatherer) = board_for_two(&rt, rt.alloc(), &cells);
    let shared = &board;
    let (left, right) = join(
        &rt,
        move || { pair(shared, zero, (0, CellOp::WriteEF(1)), (1, CellOp::ReadFE)) },
        move || { pair(shared, one, (0, CellOp::ReadFE), (1, CellOp::WriteEF(2))) },
    );
    assert!(rt; left.0 == Ok(Reply::Done) && left.1 == Ok(Reply::Value(2)));
    assert!(rt; right.0 == Ok(Reply::Value(1)) && right.1 == Ok(Reply::Done));
    close_all(&rt, board, gatherer, right.2, left.2, &cells);
}

#[test]
fn eight_threads_a_thousand_times(rt: HostRuntime) {
    assert!(rt; count_together(&rt, rt.alloc(), 8, 1000) == Some(CellState::Full(8000)));
}

#[test]
fn sixty_four_threads(rt: HostRuntime) {
    assert!(rt; count_together(&rt, rt.alloc(), 64, 1) == Some(CellState::Full(64)));
}

#[test]
fn values_passed_on(rt: HostRuntime) {
    let values = [3, 1, 4, 1, 5, 9, 2, 6, i64::MIN, i64::MAX];
    let Some((got, cells)) = pass_on(&rt, rt.alloc(), &values) else {
        panic!(rt; "there is memory for the values")
    };
    assert!(rt; got.as_slice() == values.as_slice());
    assert!(rt; cells.as_slice() == [CellState::Empty].as_slice());
}
