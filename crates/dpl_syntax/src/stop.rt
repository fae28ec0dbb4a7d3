// Why a stage before the run gives nothing: the text has a refusal there, or memory ran out.
// Lexer, parser and checker stop alike, so that `?` takes the stop of one stage to the next.

ghost use Rattle.dpl_syntax.specs.declared.stop.Stop.TheVariants.{Memory};
ghost use Rattle.std.specs.Prelude.{◌≡◌};

use crate::refusal::Refusal;
use std::alloc::{AllocError, AllocFailed};
use thiserror::Error;

/// Why a stage gives nothing.
///
/// It prints as its refusal's line, or as `out of memory`.
#[derive(Debug, Drop, Error)]
pub enum Stop {
    /// The text isn't a program: its refusal of this stage.
    #[error("{0}")]
    Refused(Refusal),
    /// Out of memory, which says nothing of the text.
    #[error("out of memory")]
    Memory,
}

/// Why the lexer gives no tokens: `L1`, `L2` or `L3`, or out of memory.
pub type LexStop = Stop;

impl From<AllocError> for Stop {
    ghost from_gives = { λ _ stop. stop ≡ Memory };

    fn from(_: AllocError) -> Self {
        Stop::Memory
    }
}

impl<T: Drop> From<AllocFailed<T>> for Stop {
    ghost from_gives = { λ _ stop. stop ≡ Memory };

    fn from(_: AllocFailed<T>) -> Self {
        Stop::Memory
    }
}
