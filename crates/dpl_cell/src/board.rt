//! A board of cells and its calls: `new` opens it, `try_op` and `op` act on a cell, `join` puts what two seats know
//! together, and `close` gives the cells back. No call waits and no lock stands behind one; `new` alone takes memory.
ghost use Rattle.std.specs.Prelude.{◌≡◌, ℕ, ◌+◌, ◌<◌, ◌≤◌, length, vec_len, All, Some, slice_get, IfOk, IfErr};
ghost use Rattle.dpl_history.specs.Histories.{legal, Legal, AllUpTo};
ghost use Rattle.dpl_history.specs.Cells.{IsReplyTo};
ghost use Rattle.dpl_history.specs.Looks.{Agrees};
ghost use Rattle.dpl_history.specs.Values.{IsChannel, HandsOn};
ghost use Rattle.dpl_cell.specs.Seats.{AnswersForAll};
ghost use Rattle.dpl_cell.specs.Calls.{KeepsNumbers, Did, DidAfter, Missed, Waited, Joined, IfDone, IfMissed};
ghost use Rattle.dpl_cell.specs.Seats.{IsSeatOf, AreFresh, fresh_seat};

use crate::rule::Plan;
use crate::seat::Seat;
use crate::tried::{NoMemory, Stuck, Tried};
use crate::words::Words;
use dpl_history::{CellOp, CellState, Reply};
use std::alloc::Global;
use std::marker::Model;
use std::thread::yield_now;

// A task that waits yields after so many misses: where there is one processor, the task that it waits for needs it.
const TRIES_IN_A_ROW: u64 = 1024;

/// Cells that any number of threads share, each by a seat of its own.
#[derive(Drop)]
pub struct Board {
    words: Words,
    cells: Vec<CellState>,
}

impl Model for Board {
    ghost use Rattle.std.specs.Prelude.{◌≡◌, vec_len};
    ghost use Rattle.dpl_cell.specs.Seats.{BoardValue};
    ghost use Rattle.dpl_cell.specs.Shown.{shown_board};

    ghost Value = { BoardValue };

    ghost view = { λ b. let shared = b.words.table.shared in
        shown_board shared.table_id shared.key.cells.items shared.key.tasks };

    ghost invariant = { λ b. vec_len b.cells ≡ b.words.count };
}

impl Board {
    /// A board of these cells, with a seat for each task, in order, and a last one for the gatherer, whose number is
    /// `tasks`. Cells and tasks are numbered from 0. `NoMemory` drops the cells.
    pub fn new(
        alloc: Global,
        cells: Vec<CellState>,
        tasks: u64,
    ) -> Result<(Board, Vec<Seat>), NoMemory>
        requires { tasks ≤ 64 }
        ensures opening { IfOk result (λ b. b.0.opening ≡ cells.items) }
        ensures tasks { IfOk result (λ b. b.0.tasks ≡ tasks) }
        ensures count { IfOk result (λ b. vec_len b.1 ≡ tasks + 1) }
        ensures seats { IfOk result (λ b. AreFresh b.0 b.1.items) }
    {
        let plan = Plan { cells, tasks };
        let (words, mut rest) = Words::new(alloc, &plan)?;
        let mut seats = Vec::with_capacity(alloc, tasks as usize + 1)?;
        for number in 0..tasks {
            let token = words.split(&mut rest);
            seats.push_reserved(Seat { token });
        }
        seats.push_reserved(Seat { token: rest });
        let Plan { cells, tasks: _ } = plan;
        Ok((Board { words, cells }, seats))
    }

    /// Hands out the last of fresh seats: first the gatherer's, then that of the last task, and so on down to task 0's.
    pub fn last_seat(&self, seats: &mut Vec<Seat>) -> Seat
        requires some { 0 < vec_len seats.old }
        requires fresh { AreFresh self.now seats.old.items }
        ensures seat { result ≡ fresh_seat self.now (vec_len seats.new) }
        ensures count { vec_len seats.old ≡ vec_len seats.new + 1 }
        ensures fresh { AreFresh self.now seats.new.items }
    {
        let Some(seat) = seats.pop() else {
            unreachable!()
        };
        seat
    }

    /// The number of cells.
    pub fn count(&self) -> usize
        ensures { result ≡ length self.now.opening }
    {
        self.cells.len()
    }

    /// Tries an operation once, as the seat's number, on the cell with this number. Where it would have to wait, it
    /// is not done.
    pub fn try_op(&self, seat: &mut Seat, cell: usize, op: CellOp) -> Tried
        requires own { IsSeatOf self.now seat.old }
        requires cell { cell < length self.now.opening }
        ensures own { IsSeatOf self.now seat.new }
        ensures numbers { KeepsNumbers seat.old seat.new }
        ensures legal { Legal self.now.opening seat.new.history }
        ensures ours { AllUpTo self.now.tasks seat.new.history }
        ensures done { IfDone result (λ r. Did seat.old cell op r seat.new) }
        ensures reply { IfDone result (λ r. IsReplyTo op r) }
        ensures missed { IfMissed result (λ w. Missed seat.old cell op w seat.new) }
    {
        match self.words.grab(&mut seat.token, cell, op) {
            Ok(state) => Tried::Done(self.words.finish(&mut seat.token, cell, state, op)),
            Err(seen) => Tried::Missed(seen),
        }
    }

    /// Tries an operation until it is done, `tries` times at most. `Stuck` where every try missed: nothing is done then.
    /// After every 1,024 misses it lets other threads run.
    pub fn op(&self, seat: &mut Seat, cell: usize, op: CellOp, tries: u64) -> Result<Reply, Stuck>
        requires own { IsSeatOf self.now seat.old }
        requires cell { cell < length self.now.opening }
        requires tries { 0 < tries }
        ensures own { IsSeatOf self.now seat.new }
        ensures numbers { KeepsNumbers seat.old seat.new }
        ensures legal { Legal self.now.opening seat.new.history }
        ensures ours { AllUpTo self.now.tasks seat.new.history }
        ensures done { IfOk result (λ r. DidAfter tries seat.old cell op r seat.new) }
        ensures reply { IfOk result (λ r. IsReplyTo op r) }
        ensures stuck { IfErr result (λ _. Waited tries seat.old cell op seat.new) }
    {
        for made in 0..tries {
            match self.try_op(seat, cell, op) {
                Tried::Done(reply) => return Ok(reply),
                Tried::Missed(_) if made % TRIES_IN_A_ROW == TRIES_IN_A_ROW - 1 => yield_now(),
                Tried::Missed(_) => {}
            }
        }
        Err(Stuck)
    }

    /// The seat takes in what another one knows, and answers for its numbers too.
    pub fn join(&self, seat: &mut Seat, other: Seat)
        requires own { IsSeatOf self.now seat.old }
        requires other { IsSeatOf self.now other }
        ensures own { IsSeatOf self.now seat.new }
        ensures legal { Legal self.now.opening seat.new.history }
        ensures ours { AllUpTo self.now.tasks seat.new.history }
        ensures joined { Joined seat.old other seat.new }
    {
        let Seat { token } = other;
        self.words.join(&mut seat.token, token);
    }

    /// The cells as the whole history leaves them, in the `Vec` that `new` took. The seat is one that answers for all
    /// tasks and the gatherer, so no other is left.
    pub fn close(self, seat: Seat) -> Vec<CellState>
        requires own { IsSeatOf self seat }
        requires all { AnswersForAll seat }
        ensures legal { legal self.opening seat.history result.items }
        ensures ours { AllUpTo self.tasks seat.history }
        ensures misses { All (Agrees self.opening seat.history) seat.misses }
        ensures channels { (c : ℕ) → IsChannel c seat.history → HandsOn self.opening c seat.history }
    {
        let Seat { token } = seat;
        let Board { words, mut cells } = self;
        words.close(token, &mut cells);
        cells
    }
}
