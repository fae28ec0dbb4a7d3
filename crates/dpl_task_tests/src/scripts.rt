//! Tasks by scripts: each task has a list of deeds, and does them one after another.
//! What a script does by itself is `run_of`, in `specs/Scripts.antt`.
ghost use Rattle.std.specs.Prelude.{◌≡◌, ◌<◌, ◌≤◌, ℤ, pos, All, length, vec_len, map, IfOk, IfErr, Ok, Err};
ghost use Rattle.dpl_history.specs.Histories.{of_task};
ghost use Rattle.dpl_cell.specs.Seats.{IsSeatOf, fresh_seat};
ghost use Rattle.dpl_cell.specs.Calls.{KeepsNumbers};
ghost use Rattle.dpl_language.specs.Values.{fault as fault_at};
ghost use Rattle.dpl_frame.specs.Faults.{fault_view};
ghost use Rattle.dpl_task.specs.Ran.{WaitsSo};
ghost use Rattle.dpl_task_tests.specs.Scripts.{called, read_by, HasPlayed};

use dpl_cell::{Board, CellOp, CellState, Reply, Seat};
use dpl_frame::{Fault, FaultCode, Turn};
use dpl_loop::Gate;
use dpl_syntax::Place;
use dpl_task::{Gathered, Refusal, TaskEnd, Tasks, coforall};
use std::alloc::Global;
use std::marker::Model;
use std::snapshot::Snapshot;
use std::sync::Wait;
use std::thread::Threads;

/// One deed of a script. Each has its place, which a fault names.
#[derive(Clone, Copy)]
pub(crate) enum Deed {
    /// An operation on a cell.
    Call(Place, usize, CellOp),
    /// One more than what was read last, which is 0 at first, is written into a cell once that is empty.
    PutNext(Place, usize),
    /// A division by zero.
    Divide(Place),
}

/// The deeds of a task, in order. It is seen as their list.
#[derive(Drop)]
pub(crate) struct Script {
    pub(crate) deeds: Vec<Deed>,
}

impl Model for Script {
    ghost use Rattle.std.specs.Prelude.{List};
    ghost use Rattle.dpl_task_tests.specs.declared.scripts.Deed.{Deed};

    ghost Value = { List Deed };

    ghost view = { λ s. s.deeds.items };
}

/// A script for each task, by its number, over so many cells. A task without a script has ended. A task gets its script as its frame, so these
/// are for the clauses alone.
#[derive(Drop)]
pub(crate) struct Scripts {
    pub(crate) all: Snapshot<Vec<Script>>,
    pub(crate) cells: usize,
}

// A fault in no turn.
fn fault(code: FaultCode, at: Place) -> Fault
    ensures { fault_view result ≡ fault_at code at }
{
    Fault {
        code,
        at,
        turn: Turn::Absent,
    }
}

// The operation that a deed makes where this value was read last, with its place; or the deed's fault. A cell that isn't there is one.
fn call_of(deed: &Deed, value: i64, cells: usize) -> Result<(Place, usize, CellOp), Fault>
    ensures ok { IfOk result (λ c. called cells deed.now value ≡ Ok c) }
    ensures cell { IfOk result (λ c. c.1 < cells) }
    ensures err { IfErr result (λ f. called cells deed.now value ≡ Err (fault_view f)) }
{
    let (at, cell, op) = match deed {
        Deed::Call(at, cell, op) => (*at, *cell, *op),
        Deed::PutNext(at, cell) => (*at, *cell, CellOp::WriteEF(value.wrapping_add(1))),
        Deed::Divide(at) => return Err(fault(FaultCode::ZeroDivisor, *at)),
    };
    if cell < cells {
        Ok((at, cell, op))
    } else {
        Err(fault(FaultCode::Outside, at))
    }
}

// The value that was read last, after a reply.
fn read(reply: Reply, value: i64) -> i64
    ensures { result ≡ read_by value reply }
{
    match reply {
        Reply::Value(read) => read,
        Reply::Done => value,
    }
}

// Does the deeds of a script, one after another, with a seat that has done nothing yet.
fn play(script: &[Deed], board: &Board, mut seat: Seat, tries: u64) -> (Seat, TaskEnd)
    requires fresh { seat ≡ fresh_seat board.now seat.number }
    requires tries { 0 < tries }
    ensures own { IsSeatOf board.now result.0 }
    ensures numbers { KeepsNumbers seat result.0 }
    ensures ran { HasPlayed (length board.now.opening) script.now (of_task seat.number result.0.history) result.1 }
    ensures waits { WaitsSo tries result.0 result.1 }
{
    let mut value = 0;
    for deed in script {
        let (at, cell, op) = match call_of(deed, value, board.count()) {
            Ok(call) => call,
            Err(fault) => return (seat, TaskEnd::Faulted(fault)),
        };
        let Ok(reply) = board.op(&mut seat, cell, op, tries) else {
            return (seat, TaskEnd::Waiting(at, cell, op));
        };
        value = read(reply, value);
    }
    (seat, TaskEnd::Ended)
}

impl Tasks for Scripts {
    type Frame = Script;

    ghost use Rattle.std.specs.Prelude.{◌≡◌, length, pos};
    ghost use Rattle.dpl_task_tests.specs.Scripts.{run_of, script_of};

    ghost starts = { λ s k cells script. (s.cells ≡ length cells) × (script ≡ script_of s.all.value.items k) };

    ghost alone = { λ s k rs t. run_of s.cells (script_of s.all.value.items k) (pos 0) rs ≡ t };

    fn make(
        &self,
        _number: u64,
        frame: Script,
        board: &Board,
        seat: Seat,
        tries: u64,
    ) -> (Seat, Result<TaskEnd, Refusal>) {
        let (seat, end) = play(frame.deeds.as_slice(), board, seat, tries);
        (seat, Ok(end))
    }
}

/// Plays scripts together over cells.
pub(crate) fn play_together<G: Gate + Sync, R: Threads + Wait + Sync>(
    rt: &R,
    alloc: Global,
    all: Vec<Script>,
    cells: Vec<CellState>,
    gate: &G,
    tries: u64,
) -> Result<Gathered, Refusal>
    requires few { vec_len all ≤ 64 }
    requires tries { 0 < tries }
    ensures count { IfOk result (λ g. vec_len g.ends ≡ vec_len all) }
{
    let scripts = Scripts {
        all: Snapshot::of(&all),
        cells: cells.len(),
    };
    coforall(rt, alloc, &scripts, all, cells, gate, tries)
}
