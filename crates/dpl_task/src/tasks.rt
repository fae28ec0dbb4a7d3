//! What the tasks of a coforall do.
//! A task acts on cells by its seat on a board, and on nothing else that others see.
ghost use Rattle.std.specs.Prelude.{◌≡◌, ℕ, ◌<◌, List};
ghost use Rattle.dpl_history.specs.declared.cell.CellState.{CellState};
ghost use Rattle.dpl_history.specs.declared.cell.Reply.{Reply};
ghost use Rattle.dpl_language.specs.Outcome.{Solo};
ghost use Rattle.dpl_cell.specs.Seats.{fresh_seat};
ghost use Rattle.dpl_task.specs.Ran.{Ran};

use crate::end::{Refusal, TaskEnd};
use dpl_cell::{Board, Seat};

/// The tasks of a coforall, by their numbers from 0.
pub trait Tasks {
    /// What each task gets of its own.
    type Frame: Send + Drop;

    // The task of a number may start with this frame where these are the cells.
    ghost starts: { Self → ℕ → List CellState → Self.Frame → Type 0 };

    // What the task of a number does by itself, where its operations get these replies and then no more.
    ghost alone: { Self → ℕ → List Reply → Solo → Type 0 };

    /// Makes the task of a number, on its thread, with a seat that has done nothing yet. It tries each operation so often.
    ///
    /// # Errors
    /// Memory, or a thread. It is refused no entry.
    fn make(
        &self,
        number: u64,
        frame: Self::Frame,
        board: &Board,
        seat: Seat,
        tries: u64,
    ) -> (Seat, Result<TaskEnd, Refusal>)
        requires tries { 0 < tries }
        requires few { number < 64 }
        requires fresh { seat ≡ fresh_seat board.now number }
        requires starts { starts self.now number board.now.opening frame }
        ensures { Ran board.now (alone self.now) (λ _ _. ⊥) tries number result.0 result.1 };
}
