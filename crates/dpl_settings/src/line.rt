// Command lines that give no settings: what is told of each, and the status with which the process then ends.
// Help and the version are asked for, and go to standard output; every other one is a mistake, or want of memory or of a thread.

ghost use Rattle.std.specs.Prelude.{Bool};
ghost use Rattle.dpl_settings.specs.Statuses.{HasLineStatus};

use crate::fault::LineFault;
use std::io;

/// The status of a command line that is refused.
pub const USAGE: u8 = 5;

/// The status of help or of a version that can't be written.
const CANNOT_WRITE: u8 = 4;

/// The status of a command line that gives no settings, by whether what is told of it was printed.
pub fn line_status(fault: &LineFault, printed: bool) -> u8
    ensures { HasLineStatus fault.now printed result }
{
    match fault {
        LineFault::Line(error) => {
            if error.use_stderr() {
                USAGE
            } else if printed {
                0
            } else {
                CANNOT_WRITE
            }
        }
        LineFault::Value(_) => USAGE,
        LineFault::Memory | LineFault::Thread => 3,
    }
}

// Prints what is told of a command line that gives no settings.
fn print_line<R: Print + Eprint>(rt: &R, fault: &LineFault) -> io::Result<()> {
    match fault {
        LineFault::Line(error) => error.print(rt),
        LineFault::Memory => rt.eprint("dpl: M1\n"),
        LineFault::Thread => rt.eprint("dpl: M2\n"),
        LineFault::Value(_) => rt.eprintln(fault),
    }
}

/// Prints what is told of a command line that gives no settings, and answers the status.
pub fn tell_line<R: Print + Eprint>(rt: &R, fault: &LineFault) -> u8
    ensures { (printed : Bool) × HasLineStatus fault.now printed result }
{
    let printed = print_line(rt, fault).is_ok();
    line_status(fault, printed)
}
