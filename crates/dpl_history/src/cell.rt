//! A cell, its operations and their replies, and what an operation does to a cell of one thread.
//! It is the language's rule of each operation: `effect`, in `specs/Cells.antt`.
ghost use Rattle.std.specs.Prelude.{◌≡◌, IfSome, IfNone, None, Some};
ghost use Rattle.dpl_history.specs.Cells.{effect};

/// A cell is empty, or full of one value.
#[derive(Clone, Copy, Debug, PartialEq)]
pub enum CellState {
    Empty,
    Full(i64),
}

/// An operation on a cell. The letters say for which state it waits and in which it leaves the cell: full (`F`),
/// empty (`E`), or whatever the state (`X`).
#[derive(Clone, Copy, Debug, PartialEq)]
pub enum CellOp {
    /// Waits for full, reads, leaves empty.
    ReadFE,
    /// Waits for full, reads, leaves full.
    ReadFF,
    /// Waits for empty, writes, leaves full.
    WriteEF(i64),
    /// Waits for full, writes, leaves full.
    WriteFF(i64),
    /// Writes whatever the state, leaves full.
    WriteXF(i64),
    /// Leaves empty whatever the state.
    Reset,
}

/// What an operation answers: the value that it read, or that it was done.
#[derive(Clone, Copy, Debug, PartialEq)]
pub enum Reply {
    Value(i64),
    Done,
}

/// Does the operation on a cell of one thread. `None` where it would wait, and the cell is then as it was.
pub fn apply(cell: &mut CellState, op: CellOp) -> Option<Reply>
    ensures done { IfSome result (λ r. effect op cell.old ≡ Some (cell.new, r)) }
    ensures waits { IfNone result (effect op cell.old ≡ None) }
    ensures same { IfNone result (cell.new ≡ cell.old) }
{
    let (after, reply) = match (op, *cell) {
        (CellOp::ReadFE, CellState::Full(value)) => (CellState::Empty, Reply::Value(value)),
        (CellOp::ReadFF, CellState::Full(value)) => (CellState::Full(value), Reply::Value(value)),
        (CellOp::WriteEF(value), CellState::Empty) => (CellState::Full(value), Reply::Done),
        (CellOp::WriteFF(value), CellState::Full(_)) => (CellState::Full(value), Reply::Done),
        (CellOp::WriteXF(value), _) => (CellState::Full(value), Reply::Done),
        (CellOp::Reset, _) => (CellState::Empty, Reply::Done),
        _ => return None,
    };
    *cell = after;
    Some(reply)
}
