// The command line of the program, as clap takes it, with the help that it prints.
// Its words are read by clap's meaning of a simple command.

ghost use Rattle.std.specs.Prelude.{◌≡◌, [], IfOk, IfErr, false, map};
ghost use Rattle.clap.specs.Words.{app_of, fault_of, found_of, rows_of, rule_of};
ghost use Rattle.dpl_settings.specs.CommandLine.{command_line, found, option_rule};
ghost use Rattle.dpl_settings.specs.Causes.{IsCause, IsToldAs};

use crate::fault::LineFault;
use clap::error::ErrorKind;
use clap::{Arg, ArgAction, ArgMatches, Command, Error};
use std::alloc::{AllocError, Global};

// The program's version. The zeros keep the room for the sum of the sources and for the number of the logic that proved them:
// scripts/executable.sh puts these into the executable of built/.
const VERSION: &str = "0.1.0 (sources 0000000000000000, logic 0000000000000000)";

const ABOUT: &str = "Runs a program of a profile of Chapel.";

const NOTES: &str = "\
Locales, grids and maps say where work is done, and change nothing of what is written. One thread
makes a forall of fewer than 30000 turns, one whose body declares a variable or has a loop with a
variable, one that reduces by &, | or ^, and one over a plain range that writes no array. A text
with coforall, on, sync, Locales, numLocales or here is refused (P1) at the first of these words.

Statuses:
  0  the program ran to its end
  1  a fault stopped it
  2  the text isn't a program, or a NAME=VALUE doesn't fit it
  3  out of memory, or a worker was not started; nothing was written, but where memory refused the dump
  4  the text can't be read, or the output can't be written
  5  the command line is refused
  Above 128 a signal ended it: 130 is Ctrl-C, 141 a closed pipe, and any other one is a bug.

Example:
  dpl squares.chpl n=100 --locales 4";

// An option with one value, `--NAME VALUE`.
fn option<'a>(alloc: Global, name: &'a str, value: &'a str, help: &'a str) -> Arg<'a>
    ensures rule { rule_of result ≡ option_rule name.now }
    ensures local { result.global ≡ false }
{
    Arg::new(alloc, name)
        .long(name)
        .value_name(value)
        .help(help)
}

// The command, with its two lists of words and its options.
fn command<'a>(alloc: Global) -> Result<Command<'a>, AllocError>
    ensures { IfOk result (λ c. app_of c ≡ command_line) }
{
    let file = Arg::new(alloc, "file").value_name("FILE").help(
        "The program's text; standard input without it, or where it is -",
    );
    let set = Arg::new(alloc, "set")
        .value_name("NAME=VALUE")
        .action(ArgAction::Append)
        .help("The value of a config const of the program: an int, true or false");
    let turns = "How many turns a loop may have, from 1 to 4294967296";
    let budget = option(alloc, "budget", "B", turns).default_value("16777216");
    let seats = "How many locales there are, from 1 to 64: worker threads, where that serves";
    let locales = option(alloc, "locales", "N", seats).default_value("1");
    let plane = "How the locales are laid out for domains of rank 2 [default: Nx1]";
    let grid2 = option(alloc, "grid2", "RxC", plane);
    let space = "The same for rank 3 [default: Nx1x1]";
    let grid3 = option(alloc, "grid3", "PxRxC", space);
    let roots = "How domains are cut: asis, as the text says, or block or cyclic in its place";
    let maps = option(alloc, "maps", "MAPS", roots).default_value("asis");
    let dump = Arg::new(alloc, "dump")
        .long("dump")
        .action(ArgAction::SetTrue)
        .help("Writes the variables that the program leaves to standard error [default: off]");
    Command::new(alloc, "dpl")
        .version(VERSION)
        .about(ABOUT)
        .after_help(NOTES)
        .arg(file)?
        .arg(set)?
        .arg(budget)?
        .arg(locales)?
        .arg(grid2)?
        .arg(grid3)?
        .arg(maps)?
        .arg(dump)
}

// An error of clap's is told as it is, but for want of memory.
fn told(error: Error) -> LineFault
    ensures { IsToldAs error result }
{
    if matches!(error.kind(), ErrorKind::OutOfMemory) {
        return LineFault::Memory;
    }
    LineFault::Line(error)
}

// What clap finds in the words, of which the first is the program's name.
pub(crate) fn matches<'a>(alloc: Global, words: &'a [&'a str]) -> Result<ArgMatches<'a>, LineFault>
    ensures found { IfOk result (λ m. rows_of (found_of m) ≡ found (map (λ w. w.now) words.entry.now)) }
    ensures taken { IfOk result (λ _. fault_of command_line (map (λ w. w.now) words.entry.now) ≡ []) }
    ensures cause { IfErr result (IsCause (map (λ w. w.now) words.entry.now)) }
{
    let command = command(alloc)?;
    match command.try_get_matches_from(words) {
        Ok(matches) => Ok(matches),
        Err(error) => Err(told(error)),
    }
}
