//! How a task ends, and what may be refused to tasks.
//! A fault is an outcome of the program; a refusal is none, and nothing is told of what the tasks did then.
ghost use Rattle.std.specs.Prelude.{◌≡◌, ℕ, option_map};
ghost use Rattle.dpl_frame.specs.Faults.{fault_view};
ghost use Rattle.dpl_language.specs.Values.{InTask, in_the_turn};
ghost use Rattle.dpl_language.specs.Tasks.{task_fault};
ghost use Rattle.dpl_task.specs.Ends.{end_view, IsFirst};
ghost use Rattle.dpl_task.specs.declared.end.Refusal.{Refusal};

use dpl_cell::NoMemory;
use dpl_frame::{Fault, FaultCode, Turn};
use dpl_history::CellOp;
use dpl_syntax::Place;
use std::alloc::AllocError;

/// How a task ends.
#[derive(Clone, Copy, Debug, PartialEq)]
pub enum TaskEnd {
    /// It has ended.
    Ended,
    /// It stopped with a fault, which names no task.
    Faulted(Fault),
    /// Every try of an operation on a cell missed: the place of the cell's name, its number and the operation.
    Waiting(Place, usize, CellOp),
}

impl TaskEnd {
    /// The fault of a task that didn't end, without the task's number. One that waits has `F7` at the cell's name.
    pub fn fault(&self) -> Option<Fault>
        ensures { (k : ℕ) → option_map (λ f. in_the_turn (InTask k) (fault_view f)) result ≡ task_fault k (end_view self.now) }
    {
        match self {
            TaskEnd::Ended => None,
            TaskEnd::Faulted(fault) => Some(*fault),
            TaskEnd::Waiting(at, _, _) => Some(Fault {
                code: FaultCode::CellStuck,
                at: *at,
                turn: Turn::Absent,
            }),
        }
    }
}

/// What was refused, so that not all tasks ran to an end of their own.
#[derive(Clone, Copy, Debug, PartialEq)]
pub enum Refusal {
    /// Memory.
    Memory,
    /// A thread for a task.
    Thread,
    /// A task's entry, by the gate.
    Gate,
}

impl Refusal {
    /// Of two refusals the one that is told: memory before a thread, and a thread before an entry.
    pub fn first(self, other: Refusal) -> Refusal
        ensures { IsFirst self other result }
    {
        match (self, other) {
            (Refusal::Memory, _) | (_, Refusal::Memory) => Refusal::Memory,
            (Refusal::Thread, _) | (_, Refusal::Thread) => Refusal::Thread,
            (Refusal::Gate, Refusal::Gate) => Refusal::Gate,
        }
    }
}

impl From<AllocError> for Refusal {
    ghost from_gives = { λ _ why. why ≡ Refusal.Memory };

    fn from(_: AllocError) -> Refusal {
        Refusal::Memory
    }
}

impl From<NoMemory> for Refusal {
    ghost from_gives = { λ _ why. why ≡ Refusal.Memory };

    fn from(_: NoMemory) -> Refusal {
        Refusal::Memory
    }
}
