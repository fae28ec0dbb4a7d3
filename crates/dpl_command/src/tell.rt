// What is told on standard error of what became of a text: to a script the same as to a person, and to a person more behind it.

ghost use Rattle.std.specs.Prelude.{◌≡◌, false, List, ℕ, [], OnOk, IfErr};
ghost use Rattle.std.specs.IoError.{error_kind};
ghost use Rattle.std.specs.Io.KnownBytes.{Appends};
ghost use Rattle.dpl_says.specs.Dump.{dumped};
ghost use Rattle.dpl_command.specs.Statuses.{IsUntold, told_of};
ghost use Rattle.dpl_command.specs.Ending.{EndsUnread, IsCutBy, IsTold};

use crate::ended::{Ended, refused_line, status_of, unread};
use dpl_explain::{explain_fault, explain_refusal};
use dpl_run::{Left, Out, Outcome, Refused, dump, write_all};
use dpl_settings::Settings;
use std::alloc::Global;
use std::io;

// Writes the variables that a program left; where memory is refused for that, it is told in their place.
fn tell_left<E: Out>(alloc: Global, left: &Left, errors: &mut E) -> Result<(), Refused>
    requires { E.has_failed errors.old ≡ false }
    ensures written { OnOk result (Appends (E.contents errors.old) (E.contents errors.new) (dumped left.now)) }
    ensures unfailed { OnOk result (E.has_failed errors.new ≡ false) }
    ensures cut { IfErr result (IsCutBy (dumped left.now) (E.contents errors.old) (E.contents errors.new) (E.has_failed errors.new)) }
{
    let told = dump(alloc, left, errors);
    if let Err(Refused::Memory) = told {
        let _ = write_all(errors, refused_line(Refused::Memory).as_bytes());
    }
    told
}

// Writes the variables that a program left, where they are asked for; and why there is no outcome, where there is none.
fn tell<E: Out>(alloc: Global, ended: &Ended, dumps: bool, errors: &mut E) -> Result<(), Refused>
    requires { E.has_failed errors.old ≡ false }
    ensures written { OnOk result (Appends (E.contents errors.old) (E.contents errors.new) (told_of dumps ended.now)) }
    ensures unfailed { OnOk result (E.has_failed errors.new ≡ false) }
    ensures cut { IfErr result (IsCutBy (told_of dumps ended.now) (E.contents errors.old) (E.contents errors.new) (E.has_failed errors.new)) }
{
    match ended {
        Ended::Ran(Outcome::Done(left)) => {
            if dumps {
                tell_left(alloc, left, errors)
            } else {
                Ok(())
            }
        }
        Ended::Ran(Outcome::Stopped(_)) => Ok(()),
        Ended::Ran(Outcome::Rejected(_)) => Ok(()),
        Ended::Failed(refused) => write_all(errors, refused_line(*refused).as_bytes()),
        Ended::Unread => write_all(errors, b"dpl: cannot read\n"),
    }
}

// Tells a person why a text was refused, or by what a program was stopped. What can't be told is left untold.
fn show<E: Out>(alloc: Global, file: Option<&str>, text: &[u8], ended: &Ended, errors: &mut E)
    requires { E.has_failed errors.old ≡ false }
    ensures { (more : List ℕ) × (IsUntold ended.now → more ≡ []) × Appends (E.contents errors.old) (E.contents errors.new) more }
{
    let name = file.unwrap_or("<stdin>");
    let lines = match ended {
        Ended::Ran(Outcome::Stopped(fault)) => explain_fault(alloc, name, text, fault),
        Ended::Ran(Outcome::Rejected(refusal)) => explain_refusal(alloc, name, text, refusal),
        Ended::Ran(Outcome::Done(_)) | Ended::Failed(_) | Ended::Unread => return,
    };
    if let Ok(lines) = lines {
        let _ = write_all(errors, &lines);
    }
}

// Tells what became of a text; to a person, where one reads the errors, more behind it.
pub(crate) fn tell_all<E: Out>(
    alloc: Global,
    asked: &Settings<'_>,
    shown: bool,
    read: &io::Result<Vec<u8>>,
    ended: &Ended,
    errors: &mut E,
) -> Result<(), Refused>
    requires { E.has_failed errors.old ≡ false }
    ensures { IsTold shown asked.now.dump ended.now (E.contents errors.old) (E.contents errors.new) (E.has_failed errors.new) result }
{
    tell(alloc, ended, asked.dump, errors)?;
    if shown {
        if let Ok(text) = read {
            show(alloc, asked.file, text, ended, errors);
        }
    }
    Ok(())
}

/// Tells that the file of a text can't be opened, and answers the status.
pub fn unopened<E: Out>(alloc: Global, error: &io::Error, errors: &mut E) -> u8
    requires { E.has_failed errors.old ≡ false }
    ensures { EndsUnread (error_kind error.now) (E.contents errors.old) (E.contents errors.new) (E.has_failed errors.new) result }
{
    let ended = unread(error);
    let told = tell(alloc, &ended, false, errors);
    status_of(&ended, &told)
}
