// Texts through the lexer, the parser and the check: which are sound, and for what the others are refused.
// Each way in which a rule can be broken has a text; that the refusal is the rules' is proved.

use crate::reading::parted;
use crate::refusals::{ALONE, HOUSE, IN_HOUSE};
use bumpalo::Bump;
use dpl_checker::walk_over;
use dpl_lexer::lex;
use dpl_parser::{Arena, parse};
use std::alloc::Global;
use std::process::Abort;

// The refusal's line, or `sound`, where the command line has these sets.
fn verdict(rt: &impl Abort, alloc: Global, text: &[u8], sets: &[&str]) -> String {
    let tokens = match lex(alloc, text) {
        Ok(tokens) => tokens,
        Err(stop) => return format!(in alloc; "{stop}").expect(rt, "memory"),
    };
    let nodes = Bump::new(alloc);
    let arena = Arena::new(&nodes, alloc);
    let program = match parse(arena, tokens.as_slice()) {
        Ok(program) => program,
        Err(stop) => return format!(in alloc; "{stop}").expect(rt, "memory"),
    };
    let walked = walk_over(arena, &program).expect(rt, "memory");
    let said = match walked.refusal(alloc, sets).expect(rt, "memory") {
        None => format!(in alloc; "sound"),
        Some(refusal) => format!(in alloc; "{refusal}"),
    };
    said.expect(rt, "memory")
}

// How many rows a table has. Behind a first line, each text has the verdict that its row says.
fn rows_of(rt: &impl Abort, alloc: Global, first: &str, table: &str) -> usize {
    let mut count: usize = 0;
    for line in table.lines() {
        let (wanted, text) = parted(line);
        let text = format!(in alloc; "{first}{text}").expect(rt, "memory");
        let got = verdict(rt, alloc, text.as_bytes(), &[]);
        assert_eq!(rt;
            got.as_str().trim_start_matches("! "),
            wanted.trim_end(),
            "{line}"
        );
        count = count.saturating_add(1);
    }
    count
}

#[test]
fn rows(rt: HostRuntime) {
    assert_eq!(rt; rows_of(&rt, rt.alloc(), HOUSE, IN_HOUSE), 654);
    assert_eq!(rt; rows_of(&rt, rt.alloc(), "", ALONE), 44);
}

// What is said of so many declarations, each on a line and in a scope of its own.
fn many(rt: &impl Abort, alloc: Global, line: &str, count: usize) -> String {
    let mut text = String::new(alloc);
    for _ in 0..count {
        text.push_str(line).expect(rt, "memory");
    }
    verdict(rt, alloc, text.as_bytes(), &[])
}

// As many names and cells as there may be, and one more of each.
#[test]
fn limits(rt: HostRuntime) {
    let alloc = rt.alloc();
    let (name, cell) = ("{ var x: int; }\n", "{ var c: sync int; }\n");
    assert_eq!(rt; many(&rt, alloc, name, 4096).as_str(), "sound");
    assert_eq!(rt; many(&rt, alloc, name, 4097).as_str(), "! C13 at 4097:7");
    assert_eq!(rt; many(&rt, alloc, cell, 64).as_str(), "sound");
    assert_eq!(rt; many(&rt, alloc, cell, 65).as_str(), "! C13 at 65:7");
}

const CONFIGURED: &[u8] =
    b"config const n = 1; config const b = true; const k = 2; { const m = 1; }";

#[test]
fn sets(rt: HostRuntime) {
    let alloc = rt.alloc();
    for set in ["n=7", "n=-9223372036854775808", "b=false"] {
        assert_eq!(rt;
            verdict(&rt, alloc, CONFIGURED, &[set]).as_str(),
            "sound",
            "{set}"
        );
    }
    for set in [
        "n",
        "n=",
        "n=9223372036854775808",
        "n=true",
        "b=1",
        "k=3",
        "m=3",
        "x=3",
        "=3",
    ] {
        assert_eq!(rt;
            verdict(&rt, alloc, CONFIGURED, &[set]).as_str(),
            "! C14",
            "{set}"
        );
    }
    let two = verdict(&rt, alloc, CONFIGURED, &["n=1", "b=true"]);
    assert_eq!(rt; two.as_str(), "sound");
    let twice = verdict(&rt, alloc, CONFIGURED, &["n=1", "n=1"]);
    assert_eq!(rt; twice.as_str(), "! C14");
    // A breach of the text is told before a set that doesn't fit.
    let breach = verdict(&rt, alloc, b"x = 1;", &["n"]);
    assert_eq!(rt; breach.as_str(), "! C1 at 1:1");
}
