// What the program does with its input and its outputs: a text is read whole or not at all, and a dump is of a run that is done.
// A text that is one byte too long is told from the longest, and of an input that breaks off nothing is run.

use dpl_command::{program, read_text};
use dpl_run::Plain;
use dpl_settings::{RootMaps, Settings};
use std::io::{self, ErrorKind, Read};
use std::process::Abort;
use std::sync::Wait;
use std::test::Fail;
use std::thread::Threads;

// A reader that gives a whole program and then an error.
#[derive(Drop)]
struct Broken {
    given: bool,
    kind: ErrorKind,
}

impl Read for Broken {
    ghost use Rattle.std.specs.Prelude.{None};

    ghost remaining = { λ _. None };

    fn read(&mut self, buf: &mut [u8]) -> io::Result<usize> {
        const PROGRAM: [u8; 11] = *b"writeln(1);";
        if self.given || buf.len() < PROGRAM.len() {
            return Err(self.kind.into());
        }
        self.given = true;
        buf[..11].copy_from_slice(&PROGRAM);
        Ok(11)
    }
}

// The settings of a command line without words but `--dump` and `--budget 9`, where they are asked for.
pub(crate) fn asked<'a>(rt: &HostRuntime, dump: bool) -> Settings<'a> {
    Settings {
        file: None,
        sets: Vec::new(rt.alloc()),
        budget: 9,
        locales: 1,
        grid2: [1, 1],
        grid3: [1, 1, 1],
        maps: RootMaps::AsIs,
        dump,
    }
}

// What the program does with an input: its status, and what is on both outputs.
#[derive(Drop)]
pub(crate) struct Done {
    pub(crate) status: u8,
    pub(crate) out: Vec<u8>,
    pub(crate) errors: Vec<u8>,
}

pub(crate) fn ran<R: AllocGlobal + Threads + Wait + Sync, I: Read + Drop>(
    rt: &R,
    input: I,
    asked: &Settings<'_>,
    shown: bool,
) -> Done {
    let mut out = Plain::new(Vec::new(rt.alloc()));
    let mut errors = Plain::new(Vec::new(rt.alloc()));
    let read = read_text(rt.alloc(), input);
    let status = program(rt, rt.alloc(), &read, asked, shown, &mut out, &mut errors);
    Done {
        status,
        out: out.writer,
        errors: errors.writer,
    }
}

// An input that breaks off; where memory runs out in reading it, that is told.
#[test]
fn broken_input_is_not_run(rt: HostRuntime) {
    let rows = [
        (ErrorKind::BrokenPipe, 4, "dpl: cannot read\n"),
        (ErrorKind::OutOfMemory, 3, "dpl: M1\n"),
    ];
    for (kind, status, told) in &rows {
        let input = Broken {
            given: false,
            kind: *kind,
        };
        let got = ran(&rt, input, &asked(&rt, true), true);
        assert_eq!(rt; got.status, *status);
        assert!(rt; got.out.is_empty());
        assert_eq!(rt; got.errors.as_slice(), told.as_bytes());
    }
}

// So many spaces, as an input.
fn spaces(rt: &HostRuntime, count: usize) -> Result<Vec<u8>, Fail> {
    Ok(vec![in rt.alloc(); b' '; count]?)
}

#[test]
fn one_byte_too_many(rt: HostRuntime) -> Result<(), Fail> {
    let text = spaces(&rt, 1048577)?;
    assert_eq!(rt; read_text(rt.alloc(), text.as_slice())?.len(), 1048577);
    let got = ran(&rt, text.as_slice(), &asked(&rt, false), false);
    assert_eq!(rt; got.status, 2);
    assert_eq!(rt; got.out.as_slice(), b"! L1 at 1:1\n".as_slice());
    Ok(())
}

#[test]
fn longest_text_is_run(rt: HostRuntime) -> Result<(), Fail> {
    let text = spaces(&rt, 1048576)?;
    let got = ran(&rt, text.as_slice(), &asked(&rt, false), false);
    assert_eq!(rt; got.status, 0);
    assert!(rt; got.out.is_empty() && got.errors.is_empty());
    Ok(())
}

// Texts, each behind its status and before its output and its dump, with an `@` between them. A `~` ends a row. Domains have no line
// in the dump; an array has one, and one without elements too.
const ENDS: &str = "\
0@var n = 5; writeln(n);@5
@n = 5
~0@@@~1@var n = 5; writeln(1/0);@! F2 at 1:21
@~2@var n = 5; writeln(m);@! C1 at 1:20
@~1@var n = 5; for i in 1..10 do ;@! F5 at 1:12
@~0@const n = 2; const D = {1..n}; var b = D.contains(n); var E: domain(2); E = {D.dim(0), 0..1};@@n = 2
b = true
~0@const n = 2; var D = {1..n}; var A: [D] int = 7; { var H: [D] int; } var B: [1..2, 1..2] bool; B[2, 1] = true; \
   var C: [1..0] int; D = {2..3};@@n = 2
A = 7 0
B = false false true false
C =
";

// The first text that doesn't end so. To a person more is told where a rule is broken or a fault arises, and else the same.
fn other_end<R: AllocGlobal + Threads + Wait + Sync>(
    rt: &R,
    asked: &Settings<'_>,
    shown: bool,
) -> Option<&'static str> {
    for row in ENDS.split('~') {
        let Some((status, rest)) = row.split_once('@') else {
            return Some(row);
        };
        let Some((text, ends)) = rest.split_once('@') else {
            return Some(row);
        };
        let Some((out, dump)) = ends.split_once('@') else {
            return Some(row);
        };
        let got = ran(rt, text.as_bytes(), asked, shown);
        let dumped = if asked.dump { dump } else { "" };
        let is_told = shown && got.status != 0 || got.errors.as_slice() == dumped.as_bytes();
        let ended = status.parse::<u8>().ok() == Some(got.status);
        if !is_told || !ended || got.out.as_slice() != out.as_bytes() {
            return Some(row);
        }
    }
    None
}

#[test]
fn dumped_when_done(rt: HostRuntime) {
    assert_eq!(rt; other_end(&rt, &asked(&rt, true), false), None);
    assert_eq!(rt; other_end(&rt, &asked(&rt, true), true), None);
    assert_eq!(rt; other_end(&rt, &asked(&rt, false), false), None);
}

// What is asked for is what is run: a set, and a budget, here of nine turns.
#[test]
fn sets_and_budget(rt: HostRuntime) -> Result<(), Fail> {
    let text = "config const n = 1; for i in 1..n do write(i);".as_bytes();
    let mut asked = asked(&rt, false);
    let got = ran(&rt, text, &asked, false);
    assert_eq!(rt; got.out.as_slice(), b"1".as_slice());
    asked.sets.push("n=9")?;
    let got = ran(&rt, text, &asked, false);
    assert_eq!(rt; got.out.as_slice(), b"123456789".as_slice());
    asked.sets.push("m=9")?;
    let got = ran(&rt, text, &asked, false);
    assert_eq!(rt; got.status, 2);
    assert_eq!(rt; got.out.as_slice(), b"! C14\n".as_slice());
    Ok(())
}

// Locales, grids and maps change nothing of what is written.
#[test]
fn locales_and_maps(rt: HostRuntime) {
    let asked = Settings {
        file: None,
        sets: Vec::new(rt.alloc()),
        budget: 9,
        locales: 4,
        grid2: [2, 2],
        grid3: [2, 1, 2],
        maps: RootMaps::Cyclic,
        dump: false,
    };
    assert_eq!(rt; other_end(&rt, &asked, false), None);
}

// A writer with room for two bytes takes them and then fails: it is told where the output was to go, and by the status alone
// where the dump was.
#[test]
fn writers_that_fail(rt: HostRuntime) {
    let read = read_text(rt.alloc(), "var n = 5; writeln(123);".as_bytes());
    let mut room = [0u8; 2];
    let mut out = Plain::new(room.as_mut_slice());
    let mut errors = Plain::new(Vec::new(rt.alloc()));
    let status = program(
        &rt,
        rt.alloc(),
        &read,
        &asked(&rt, true),
        false,
        &mut out,
        &mut errors,
    );
    assert_eq!(rt; status, 4);
    assert!(rt; out.failed && room == *b"12");
    assert_eq!(rt; errors.writer.as_slice(), b"dpl: W1\n".as_slice());
    let mut out = Plain::new(Vec::new(rt.alloc()));
    let mut errors = Plain::new(room.as_mut_slice());
    let status = program(
        &rt,
        rt.alloc(),
        &read,
        &asked(&rt, true),
        true,
        &mut out,
        &mut errors,
    );
    assert_eq!(rt; status, 4);
    assert_eq!(rt; out.writer.as_slice(), b"123\n".as_slice());
    assert!(rt; errors.failed && room == *b"n ");
}
