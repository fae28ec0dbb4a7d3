// What becomes of a text, and the status and the line on standard error by which the program tells it.
// Statuses and lines are those of specs/Statuses.antt.

ghost use Rattle.std.specs.Prelude.{◌≡◌};
ghost use Rattle.std.specs.IoError.{error_kind};
ghost use Rattle.dpl_command.specs.Statuses.{IsUnreadBy, line_of, refused_status, status_of};

use dpl_run::{Outcome, Refused};
use std::io::{self, ErrorKind};

/// What became of a text.
#[derive(Drop)]
pub enum Ended {
    /// It was read and run, or it is no program.
    Ran(Outcome),
    /// Its run was refused, or memory ran out while it was read.
    Failed(Refused),
    /// It can't be read.
    Unread,
}

// What becomes of a text that an error keeps from being read.
pub(crate) fn unread(error: &io::Error) -> Ended
    ensures { IsUnreadBy (error_kind error.now) result }
{
    if error.kind() == ErrorKind::OutOfMemory {
        Ended::Failed(Refused::Memory)
    } else {
        Ended::Unread
    }
}

// The status of a run that came to no outcome.
fn refused_status(refused: Refused) -> u8
    ensures { result ≡ refused_status refused }
{
    match refused {
        Refused::Memory | Refused::Thread | Refused::Gate => 3,
        Refused::Writer => 4,
    }
}

// The status with which the process ends, by what became of the text and by what became of the lines on standard error.
pub(crate) fn status_of(ended: &Ended, told: &Result<(), Refused>) -> u8
    ensures { result ≡ status_of ended.now told.now }
{
    match ended {
        Ended::Ran(Outcome::Done(_)) => match told {
            Ok(()) => 0,
            Err(refused) => refused_status(*refused),
        },
        Ended::Ran(Outcome::Stopped(_)) => 1,
        Ended::Ran(Outcome::Rejected(_)) => 2,
        Ended::Failed(refused) => refused_status(*refused),
        Ended::Unread => 4,
    }
}

// The line that tells a refused run, or a refused dump, on standard error.
pub(crate) fn refused_line(refused: Refused) -> &'static str
    ensures { result.now ≡ line_of refused }
{
    match refused {
        Refused::Memory => "dpl: M1\n",
        Refused::Thread => "dpl: M2\n",
        Refused::Gate => "dpl: G1\n",
        Refused::Writer => "dpl: W1\n",
    }
}
