//! A coforall: its tasks run at once, and the cells are left as one history of all tasks leaves them.
//! That history is legal, and each task did by it just what it does by itself.
ghost use Rattle.std.specs.Prelude.{◌≡◌, ℕ, ◌<◌, ◌≤◌, List, vec_len, option_map, IfOk, IfErr};
ghost use Rattle.dpl_history.specs.declared.history.Event.{Event};
ghost use Rattle.dpl_language.specs.Tasks.{first_fault};
ghost use Rattle.dpl_task.specs.Ends.{named, solos_of};
ghost use Rattle.dpl_task.specs.Together.{AllFrom, HaveRunTogether};
ghost use Rattle.dpl_task.specs.Ran.{IsRefusedSo};
ghost use Rattle.dpl_task.specs.Levels.{MayRefuseOneOf};

use crate::end::{Refusal, TaskEnd};
use crate::level::{Gathering, Site, run_all};
use crate::tasks::Tasks;
use dpl_cell::{Board, Seat};
use dpl_frame::Fault;
use dpl_history::CellState;
use dpl_loop::Gate;
use std::alloc::Global;
use std::snapshot::Snapshot;
use std::sync::Wait;
use std::thread::Threads;

/// What the tasks of a coforall came to: the cells that they left, and how each ended, by their numbers.
#[derive(Drop)]
pub struct Gathered {
    pub cells: Vec<CellState>,
    pub ends: Vec<TaskEnd>,
    /// What their seats knew together: the history, and all looks that missed. It is for contracts alone, and has no bytes.
    pub known: Snapshot<Seat>,
}

impl Gathered {
    /// The fault of the lowest task that has one, with the task's number. One that waits has `F7`.
    pub fn first_fault(&self) -> Option<(u64, Fault)>
        ensures { (h : List Event) → option_map named result ≡ first_fault 0 (solos_of h 0 self.now.ends.items) }
    {
        for number in 0..self.ends.len() {
            if let Some(fault) = self.ends[number].fault() {
                return Some((number as u64, fault));
            }
        }
        None
    }
}

/// Runs a task for each frame, each on a thread of its own, over the cells, and answers when all have ended. A task enters the gate
/// once, with its number as worker and as place, before it starts. It tries each operation on a cell `tries` times.
///
/// # Errors
/// Where several things were refused, memory comes before a thread, and a thread before an entry. Faults are no errors: tasks go on
/// when another faults, and `Gathered` tells how each ended.
pub fn coforall<T: Tasks + Sync, G: Gate + Sync, R: Threads + Wait + Sync>(
    rt: &R,
    alloc: Global,
    tasks: &T,
    frames: Vec<T::Frame>,
    cells: Vec<CellState>,
    gate: &G,
    tries: u64,
) -> Result<Gathered, Refusal>
    requires few { vec_len frames ≤ 64 }
    requires starts { AllFrom (λ k frame. T.starts tasks.now k cells.items frame) 0 frames.items }
    requires tries { 0 < tries }
    ensures together { IfOk result (λ g. HaveRunTogether (T.alone tasks.now) tries cells.items g.ends.items g.known.value g.cells.items) }
    ensures count { IfOk result (λ g. vec_len g.ends ≡ vec_len frames) }
    ensures refused { IfErr result (IsRefusedSo (MayRefuseOneOf (G.may_refuse gate.now) (vec_len frames))) }
{
    let ends = Vec::with_capacity(alloc, frames.len())?;
    let (board, mut seats) = Board::new(alloc, cells, frames.len() as u64)?;
    let seat = board.last_seat(&mut seats);
    let site = Site {
        board: &board,
        tasks,
        gate,
        tries,
    };
    let Gathering { seat, ends } = run_all(rt, &site, seats, frames, Gathering { seat, ends })?;
    let known = Snapshot::of(&seat);
    Ok(Gathered {
        cells: board.close(seat),
        ends,
        known,
    })
}
