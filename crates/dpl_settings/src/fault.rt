// Why a command line gives no settings.
// What clap tells comes first, help and the version among it.

ghost use Rattle.std.specs.Prelude.{◌≡◌};
ghost use Rattle.dpl_settings.specs.declared.fault.LineFault.TheVariants.{Memory};

use std::alloc::{AllocError, AllocFailed};
use thiserror::Error;

/// The option whose value is none that it may have.
#[derive(Clone, Copy, Debug, PartialEq, Eq, Error)]
pub enum WrongValue {
    /// The budget is no number from 1 to 2^32 in decimal digits.
    #[error("the budget is not a number from 1 to 4294967296")]
    Budget,
    /// The locales are no number from 1 to 64 in decimal digits.
    #[error("the locales are not a number from 1 to 64")]
    Locales,
    /// The grid of two dimensions isn't two such numbers, with an `x` between them, that multiply to the number of locales.
    #[error("the grid of two dimensions is not two numbers, as in 4x1, that multiply to the number of locales")]
    Grid2,
    /// The grid of three dimensions isn't three such numbers.
    #[error("the grid of three dimensions is not three numbers, as in 4x1x1, that multiply to the number of locales")]
    Grid3,
    /// The maps are none of the three words.
    #[error("the maps are not asis, block or cyclic")]
    Maps,
}

/// Why a command line gives no settings.
#[derive(Debug, Drop, Error)]
pub enum LineFault {
    /// What clap tells of the words: a mistake, or the help or the version that they ask for.
    #[error("{0}")]
    Line(clap::Error),
    /// An option has a value that clap takes, and that it may not have.
    #[error("error: {0}")]
    Value(WrongValue),
    /// Out of memory, which says nothing of the words.
    #[error("out of memory")]
    Memory,
    /// The thread on whose stack all is done was not started, so that no word was read.
    #[error("a thread was not started")]
    Thread,
}

impl From<AllocError> for LineFault {
    ghost from_gives = { λ _ fault. fault ≡ Memory };

    fn from(_: AllocError) -> Self {
        LineFault::Memory
    }
}

impl<T: Drop> From<AllocFailed<T>> for LineFault {
    ghost from_gives = { λ _ fault. fault ≡ Memory };

    fn from(_: AllocFailed<T>) -> Self {
        LineFault::Memory
    }
}
