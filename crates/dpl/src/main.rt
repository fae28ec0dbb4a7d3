// dpl: runs a text that a file or standard input holds, and prints what it means.
// What it does stands in dpl_command's `program`, over any reader and any writers; its theorem is that of dpl_run's `run_text`.
#![tactic(auto)]

use dpl_command::{program, read_text, unopened};
use dpl_run::Plain;
use dpl_settings::{LineFault, Settings, USAGE, settings, tell_line};
use dpl_threads::{Anything, start};
use std::alloc::{AllocError, Global};
use std::env;
use std::fs::File;
use std::io::{ErrorKind, IsTerminal};
use std::process::ExitCode;
use std::sync::Wait;
use std::thread::{self, Threads};

// Does all on a thread of its own, whose stack is mapped before a word is read: so little memory refuses its start, and never ends the run by a
// signal, whatever stack the process was given for its first thread.
fn main(rt: HostRuntime) -> ExitCode {
    let status = thread::scope(thread::scope_env(), &rt, |scope| -> u8 {
        match start(scope, Anything, || command_line(&rt, &rt)) {
            Ok(handle) => handle.join(&rt),
            Err(_) => tell_line(&rt, &LineFault::Thread),
        }
    });
    ExitCode::from(status)
}

// The words of the command line. One that isn't UTF-8 is a mistake. Only what `main` was given starts workers, so that it goes down to the
// run beside itself.
fn command_line<R: Threads + Wait + Sync>(rt: &HostRuntime, workers: &R) -> u8 {
    match env::args(rt) {
        Ok(arguments) => match arguments.collect::<Vec<String>>(rt.alloc()) {
            Ok(texts) => by_words(rt, workers, &texts),
            Err(_) => tell_line(rt, &LineFault::Memory),
        },
        Err(e) if e.kind() == ErrorKind::OutOfMemory => tell_line(rt, &LineFault::Memory),
        Err(_) => {
            let _ = rt.eprintln("error: an argument is not UTF-8");
            USAGE
        }
    }
}

// The texts, borrowed.
fn borrowed(alloc: Global, texts: &[String]) -> Result<Vec<&str>, AllocError> {
    let mut words = Vec::new(alloc);
    for text in texts {
        words.push(text.as_str())?;
    }
    Ok(words)
}

// What the words ask for.
fn by_words<R: Threads + Wait + Sync>(rt: &HostRuntime, workers: &R, texts: &[String]) -> u8 {
    let Ok(words) = borrowed(rt.alloc(), texts) else {
        return tell_line(rt, &LineFault::Memory);
    };
    match settings(rt.alloc(), &words) {
        Ok(asked) => by_settings(rt, workers, &asked),
        Err(fault) => tell_line(rt, &fault),
    }
}

// The program, over the file or standard input, and over both outputs.
fn by_settings<R: Threads + Wait + Sync>(
    rt: &HostRuntime,
    workers: &R,
    asked: &Settings<'_>,
) -> u8 {
    let shown = rt.stderr().is_terminal();
    let mut out = Plain::new(rt.stdout());
    let mut errors = Plain::new(rt.stderr());
    let read = match asked.file {
        Some(path) if path != "-" => match File::open(rt, path) {
            Ok(file) => read_text(rt.alloc(), file),
            Err(error) => return unopened(rt.alloc(), &error, &mut errors),
        },
        _ => read_text(rt.alloc(), rt.stdin()),
    };
    program(
        workers,
        rt.alloc(),
        &read,
        asked,
        shown,
        &mut out,
        &mut errors,
    )
}
