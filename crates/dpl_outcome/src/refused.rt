// Runs that are refused: what a program can't be blamed for.
// A refused run is no outcome of the language's meaning.

ghost use Rattle.std.specs.Prelude.{◌≡◌, Some};
ghost use Rattle.dpl_outcome.specs.declared.refused.Refused.TheVariants.{Memory};
ghost use Rattle.dpl_outcome.specs.Refusals.{refused_text};

use std::alloc::{AllocError, AllocFailed};
use std::error::Error;
use std::fmt;

/// Why a run came to no outcome. It prints as its code.
#[derive(Clone, Copy, PartialEq, Eq, Debug)]
pub enum Refused {
    /// `M1`: out of memory. Nothing was written.
    Memory,
    /// `M2`: a worker was not started. Nothing was written.
    Thread,
    /// `G1`: the gate refused an entry. Nothing was written.
    Gate,
    /// `W1`: the writer failed. It had taken the first bytes of what the run writes, perhaps none.
    Writer,
}

impl fmt::Display for Refused {
    ghost output = { λ refused. Some (refused_text refused) };

    fn fmt<W: fmt::Write>(&self, f: &mut fmt::Formatter<W>) -> fmt::Result {
        match self {
            Refused::Memory => f.write_str("M1"),
            Refused::Thread => f.write_str("M2"),
            Refused::Gate => f.write_str("G1"),
            Refused::Writer => f.write_str("W1"),
        }
    }
}

impl Error for Refused {}

impl From<AllocError> for Refused {
    ghost from_gives = { λ _ e. e ≡ Memory };

    fn from(_: AllocError) -> Refused {
        Refused::Memory
    }
}

impl<T: Drop> From<AllocFailed<T>> for Refused {
    ghost from_gives = { λ _ e. e ≡ Memory };

    fn from(_: AllocFailed<T>) -> Refused {
        Refused::Memory
    }
}
