//! A gate of tests, and tasks that are made one after another.
ghost use Rattle.std.specs.Prelude.{◌≡◌, ◌<◌, [], length};
ghost use Rattle.dpl_cell.specs.Seats.{fresh_seat};

use crate::scripts::{Script, Scripts};
use dpl_cell::{Board, Seat};
use dpl_loop::Gate;
use dpl_task::{Refusal, TaskEnd, Tasks};
use std::alloc::Global;
use std::snapshot::Snapshot;

/// A gate that refuses the entry of one worker.
#[derive(Drop)]
pub(crate) struct Shut {
    pub(crate) to: u32,
}

impl Gate for Shut {
    ghost use Rattle.std.specs.Prelude.{◌≡◌};

    ghost may_refuse = { λ g worker _. worker ≡ g.to };

    fn enter(&self, worker: u32, _place: u64) -> bool {
        worker != self.to
    }
}

/// Enters for a task that has nothing to do, and makes it on this thread.
pub(crate) fn enter_and_make<G: Gate>(
    alloc: Global,
    gate: &G,
    number: u64,
    board: &Board,
    seat: Seat,
) -> Result<TaskEnd, Refusal>
    requires few { number < 64 }
    requires fresh { seat ≡ fresh_seat board.now number }
    requires cells { board.now.opening ≡ [] }
{
    if gate.enter(number as u32, number) {
        let scripts = Scripts {
            all: Snapshot::of(&Vec::new(alloc)),
            cells: 0,
        };
        let nothing = Script {
            deeds: Vec::new(alloc),
        };
        let (_, end) = scripts.make(number, nothing, board, seat, 1);
        end
    } else {
        Err(Refusal::Gate)
    }
}
