// Command lines through `settings`, a row each: what is asked for, or the status and the first line of what is told.
// What stands before the first bar is wanted; behind it stand the words, with bars between them.

use dpl_settings::{LineFault, Settings, WrongValue, line_status, settings, tell_line};
use std::alloc::{AllocError, Global};
use std::fmt::Display;
use std::io::{self, ErrorKind};
use std::test::Fail;

// The file, the sets, the budget, the locales, their grids, the maps, and whether to dump.
const ASKED: &str = "\
- 16777216 1 1x1 1x1x1 AsIs false
p n=7 3 1 1x1 1x1x1 AsIs true|p|n=7|--budget|3|--dump
- a=1 b 4294967296 1 1x1 1x1x1 AsIs false|--budget=4294967296|a=1|b
p n=1 4294967296 1 1x1 1x1x1 AsIs true|p|n=1|--budget|4294967296|--dump
- 16777216 4 4x1 4x1x1 Block false|--locales|04|--maps|block
- 16777216 4 2x2 2x1x2 Cyclic false|--grid3=2x1x2|--grid2=2x2|--locales=4|--maps=cyclic
- 16777216 64 64x1 4x4x4 AsIs false|--locales=64|--grid3=4x4x4|--maps=asis
- 16777216 64 8x8 64x1x1 Block false|--locales=64|--grid2=8x8|--maps=block";

// Mistakes, help and the version.
const TOLD: &str = "\
5 error: unexpected argument '--fast' found|--fast
5 error: a value is required for '--budget <B>' but none was supplied|--budget
5 error: the argument '--budget <B>' cannot be used multiple times|--budget|1|--budget|1
5 error: the argument '--locales <N>' cannot be used multiple times|--locales=1|--locales=1
5 error: the argument '--grid2 <RxC>' cannot be used multiple times|--grid2=1x1|--grid2=1x1
5 error: the argument '--grid3 <PxRxC>' cannot be used multiple times|--grid3=1x1x1|--grid3=1x1x1
5 error: the argument '--maps <MAPS>' cannot be used multiple times|--maps=asis|--maps=asis
0 Runs a program of a profile of Chapel.|--help
0 Runs a program of a profile of Chapel.|-h|p
0 dpl 0.1.0 (sources 0000000000000000, logic 0000000000000000)|--version";

// Values that are wrong, by the option that is told; of several it is the first one in the order of the budget, the locales, the
// grids and the maps.
const WRONG: &str = "\
5 Budget|--budget|x
5 Budget|--budget|0
5 Budget|--budget|4294967297
5 Budget|--budget=+3
5 Locales|--locales=0
5 Locales|--locales=65
5 Locales|--locales=-1
5 Locales|--locales=+4
5 Locales|--locales=4 
5 Locales|--locales=4294967300
5 Locales|--locales=18446744073709551620
5 Locales|--locales=four
5 Locales|--locales|
5 Grid2|--locales=5|--grid2=2x2
5 Grid2|--locales=4|--grid2=2x3
5 Grid2|--locales=4|--grid2=4
5 Grid2|--locales=4|--grid2=4x
5 Grid2|--locales=4|--grid2=x4
5 Grid2|--locales=4|--grid2=2x2x1
5 Grid2|--locales=4|--grid2=2X2
5 Grid2|--locales=4|--grid2=+2x2
5 Grid2|--locales=4|--grid2=2 x2
5 Grid2|--locales=4|--grid2=0x4
5 Grid2|--locales=4|--grid2=4294967297x4
5 Grid2|--locales=64|--grid2=65536x281474976710657
5 Grid2|--grid2|
5 Grid3|--grid3|1x1
5 Grid3|--locales=4|--grid3=2x2
5 Grid3|--locales=4|--grid3=2x2x
5 Grid3|--locales=4|--grid3=xx4
5 Grid3|--locales=4|--grid3=2x2x1x1
5 Grid3|--locales=4|--grid3=2x2x2
5 Grid3|--locales=4|--grid3=2x2X1
5 Grid3|--grid3|
5 Maps|--maps|blocks
5 Maps|--locales=4|--maps=Block
5 Maps|--locales=4|--maps= asis
5 Maps|--maps|
5 Budget|--locales=0|--budget=0
5 Budget|--maps=no|--grid3=1|--grid2=1|--locales=0|--budget=0
5 Locales|--maps=no|--grid2=3x3|--locales=65
5 Grid2|--grid3=1|--grid2=1|--maps=no
5 Grid3|--maps=no|--grid3=2x1x1|--grid2=1x1";

// What is asked for, in one line.
fn listed(alloc: Global, asked: &Settings<'_>) -> Result<String, AllocError> {
    let mut line = String::from_str(alloc, asked.file.unwrap_or("-"))?;
    for set in &asked.sets {
        line.push(' ')?;
        line.push_str(set)?;
    }
    let [rows, columns] = asked.grid2;
    let [planes, plane_rows, plane_columns] = asked.grid3;
    let rest = format!(in alloc;
        " {} {} {rows}x{columns} {planes}x{plane_rows}x{plane_columns} {:?} {}",
        asked.budget, asked.locales, asked.maps, asked.dump
    )?;
    line.push_str(&rest)?;
    Ok(line)
}

// What a command line asks for, or its status and the first line of what is told; of a wrong value, the option.
fn answer(alloc: Global, words: &[&str]) -> Result<String, AllocError> {
    let fault = match settings(alloc, words) {
        Ok(asked) => return listed(alloc, &asked),
        Err(fault) => fault,
    };
    let status = line_status(&fault, true);
    if let LineFault::Value(wrong) = &fault {
        return format!(in alloc; "{status} {wrong:?}");
    }
    let told = format!(in alloc; "{status} {fault}")?;
    let first = told.lines().next().unwrap_or("");
    String::from_str(alloc, first)
}

#[test]
fn rows(rt: HostRuntime) -> Result<(), Fail> {
    for table in &[ASKED, TOLD, WRONG] {
        for row in table.lines() {
            let words = row.split('|').collect::<Vec<&str>>(rt.alloc())?;
            let got = answer(rt.alloc(), &words)?;
            assert_eq!(rt; got.as_str(), words[0], "{row}");
        }
    }
    Ok(())
}

// What is told of each wrong value.
const SENTENCES: &str = "\
error: the budget is not a number from 1 to 4294967296
error: the locales are not a number from 1 to 64
error: the grid of two dimensions is not two numbers, as in 4x1, that multiply to the number of locales
error: the grid of three dimensions is not three numbers, as in 4x1x1, that multiply to the number of locales
error: the maps are not asis, block or cyclic";

#[test]
fn sentences(rt: HostRuntime) -> Result<(), Fail> {
    let values = [
        WrongValue::Budget,
        WrongValue::Locales,
        WrongValue::Grid2,
        WrongValue::Grid3,
        WrongValue::Maps,
    ];
    for (value, want) in values.iter().zip(SENTENCES.lines()) {
        let told = format!(in rt.alloc(); "{}", LineFault::Value(*value))?;
        assert_eq!(rt; told.as_str(), want);
    }
    Ok(())
}

const HELP: &str = "\
Runs a program of a profile of Chapel.

Usage: dpl [OPTIONS] [FILE] [NAME=VALUE]...

Arguments:
  [FILE]           The program's text; standard input without it, or where it is -
  [NAME=VALUE]...  The value of a config const of the program: an int, true or false

Options:
      --budget <B>     How many turns a loop may have, from 1 to 4294967296 [default: 16777216]
      --locales <N>    How many locales there are, from 1 to 64: worker threads, where that serves [default: 1]
      --grid2 <RxC>    How the locales are laid out for domains of rank 2 [default: Nx1]
      --grid3 <PxRxC>  The same for rank 3 [default: Nx1x1]
      --maps <MAPS>    How domains are cut: asis, as the text says, or block or cyclic in its place [default: asis]
      --dump           Writes the variables that the program leaves to standard error [default: off]
  -h, --help           Print help
  -V, --version        Print version

Locales, grids and maps say where work is done, and change nothing of what is written. One thread
makes a forall of fewer than 30000 turns, one whose body declares a variable or has a loop with a
variable, one that reduces by &, | or ^, and one over a plain range that writes no array. A text
with coforall, on, sync, Locales, numLocales or here is refused (P1) at the first of these words.

Statuses:
  0  the program ran to its end
  1  a fault stopped it
  2  the text isn't a program, or a NAME=VALUE doesn't fit it
  3  out of memory, or a worker was not started; nothing was written, but where memory refused the dump
  4  the text can't be read, or the output can't be written
  5  the command line is refused
  Above 128 a signal ended it: 130 is Ctrl-C, 141 a closed pipe, and any other one is a bug.

Example:
  dpl squares.chpl n=100 --locales 4
";

// The help, whole, and the statuses that no row has: of what can't be printed, and of want of memory.
#[test]
fn help(rt: HostRuntime) -> Result<(), Fail> {
    match settings(rt.alloc(), &["dpl", "--help"]) {
        Ok(_) => assert!(rt; false),
        Err(fault) => {
            let told = format!(in rt.alloc(); "{fault}")?;
            assert_eq!(rt; told.as_str(), HELP);
            assert_eq!(rt; line_status(&fault, false), 4);
        }
    }
    assert_eq!(rt; line_status(&LineFault::Value(WrongValue::Maps), false), 5);
    assert_eq!(rt; line_status(&LineFault::Memory, false), 3);
    assert_eq!(rt; line_status(&LineFault::Thread, false), 3);
    Ok(())
}

// An output that takes all, or nothing.
#[derive(Drop)]
struct Output {
    takes: bool,
}

impl Output {
    fn answer(&self) -> io::Result<()> {
        if self.takes {
            Ok(())
        } else {
            Err(ErrorKind::BrokenPipe.into())
        }
    }
}

impl Print for Output {
    fn print<D: Display + Drop>(&self, _value: D) -> io::Result<()> {
        self.answer()
    }

    fn println<D: Display + Drop>(&self, _value: D) -> io::Result<()> {
        self.answer()
    }

    fn write_all(&self, _bytes: &[u8]) -> io::Result<()> {
        self.answer()
    }
}

impl Eprint for Output {
    fn eprint<D: Display + Drop>(&self, _value: D) -> io::Result<()> {
        self.answer()
    }

    fn eprintln<D: Display + Drop>(&self, _value: D) -> io::Result<()> {
        self.answer()
    }
}

// What is told ends with the status that it has where it was printed; and with another where it wasn't, if it was asked for.
#[test]
fn told(rt: HostRuntime) {
    for (word, printed, unprinted) in [("--help", 0, 4), ("--version", 0, 4), ("--fast", 5, 5)] {
        match settings(rt.alloc(), &["dpl", word]) {
            Ok(_) => assert!(rt; false),
            Err(fault) => {
                assert_eq!(rt; tell_line(&Output { takes: true }, &fault), printed);
                assert_eq!(rt; tell_line(&Output { takes: false }, &fault), unprinted);
            }
        }
    }
    assert_eq!(rt; tell_line(&Output { takes: true }, &LineFault::Thread), 3);
}
