// What ends a loop, and a run, early.
// A fault is an outcome of the program; that memory ran out, that a worker was not started and that a gate refused are none.

ghost use Rattle.std.specs.Prelude.{◌≡◌, Err};
ghost use Rattle.dpl_frame.specs.Faults.{turn_view};
ghost use Rattle.dpl_loop.specs.declared.stop.RunStop.{RunStop};
ghost use Rattle.dpl_loop.specs.Tells.{IsFault, IsHalt, TellsSame, NamesTurn};

use dpl_domain::Index;
use dpl_frame::{Alarm, Fault, Trap, Turn};
use std::alloc::{AllocError, AllocFailed};

/// Why a loop, or a run, ended early: by a fault, out of memory, because a worker was not started, or because a gate refused an entry.
#[derive(Clone, Copy, PartialEq, Eq, Debug)]
pub enum RunStop {
    Fault(Fault),
    Memory,
    Thread,
    Gate,
}

impl From<Trap> for RunStop {
    ghost from_gives = { λ f e. IsFault f e };

    fn from(trap: Trap) -> RunStop {
        RunStop::Fault(trap.fault())
    }
}

impl From<AllocError> for RunStop {
    ghost from_gives = { λ _ e. e ≡ RunStop.Memory };

    fn from(_: AllocError) -> RunStop {
        RunStop::Memory
    }
}

impl<T: Drop> From<AllocFailed<T>> for RunStop {
    ghost from_gives = { λ _ e. e ≡ RunStop.Memory };

    fn from(_: AllocFailed<T>) -> RunStop {
        RunStop::Memory
    }
}

// A fault that is told.
#[cold]
#[inline(never)]
fn stopped(trap: Trap) -> Result<(), RunStop>
    ensures { TellsSame (Err trap) result }
{
    Err(RunStop::Fault(trap.fault()))
}

/// The end of a change.
#[inline(always)]
pub fn told(end: Result<(), Trap>) -> Result<(), RunStop>
    ensures { TellsSame end result }
{
    match end {
        Ok(()) => Ok(()),
        Err(trap) => stopped(trap),
    }
}

impl RunStop {
    /// Why a walk ended, with the turn that stands beside it.
    #[cold]
    #[inline(never)]
    pub fn of(alarm: Alarm, turn: &Turn) -> RunStop
        ensures { IsHalt (turn_view turn.now) alarm result }
    {
        if alarm.is_out_of_memory() {
            return RunStop::Memory;
        }
        match alarm.fault(turn) {
            Some(fault) => RunStop::Fault(fault),
            None => RunStop::Gate,
        }
    }

    /// The same, in the turn of an index of a forall.
    #[cold]
    pub fn in_turn(self, index: Index) -> RunStop
        ensures { NamesTurn index self result }
    {
        match self {
            RunStop::Fault(fault) => RunStop::Fault(Fault {
                code: fault.code,
                at: fault.at,
                turn: Turn::of(index),
            }),
            RunStop::Memory => RunStop::Memory,
            RunStop::Thread => RunStop::Thread,
            RunStop::Gate => RunStop::Gate,
        }
    }
}
