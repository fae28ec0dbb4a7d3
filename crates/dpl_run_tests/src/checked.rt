// A program that is checked once and run by several settings, and programs that the check refuses.
// What the calls promise is proved; here they are called as any other crate would.

use crate::programs::{SUMMED, four_locales, one_locale};
use bumpalo::Bump;
use dpl_lexer::lex;
use dpl_parser::{Arena, parse};
use dpl_run::{Maps, OpenGate, Outcome, Plain, check, run_checked};
use std::alloc::Global;
use std::process::Abort;
use std::sync::Wait;
use std::thread::Threads;

// What a program writes that is checked once, and then run by one locale and by four.
fn twice<R: Abort + Threads + Wait + Sync>(rt: &R, alloc: Global, text: &[u8]) -> Vec<u8> {
    let Ok(tokens) = lex(alloc, text) else {
        panic!(rt; "the text has tokens")
    };
    let nodes = Bump::new(alloc);
    let arena = Arena::new(&nodes, alloc);
    let slice = tokens.as_slice();
    let Ok(program) = parse(arena, slice) else {
        panic!(rt; "the tokens spell a tree")
    };
    let Ok(checked) = check(arena, slice, &program, &[]) else {
        panic!(rt; "the tree is sound")
    };
    let mut out = Plain::new(Vec::new(alloc));
    let config = one_locale(rt);
    let Ok(Outcome::Done(_)) = run_checked(rt, alloc, &checked, &config, &OpenGate, &mut out) else {
        panic!(rt; "one locale runs it to its end")
    };
    let config = four_locales(rt, Maps::Cyclic);
    let Ok(Outcome::Done(_)) = run_checked(rt, alloc, &checked, &config, &OpenGate, &mut out) else {
        panic!(rt; "four locales run it to its end")
    };
    out.writer
}

// The refusal's line of a tree that is spelled, or `taken`.
fn verdict<'r, 't, 's, R: Abort>(
    rt: &'r R,
    alloc: Global,
    text: &'t str,
    sets: &'s [&'s str],
) -> String {
    let Ok(tokens) = lex(alloc, text.as_bytes()) else {
        panic!(rt; "the text has tokens")
    };
    let nodes = Bump::new(alloc);
    let arena = Arena::new(&nodes, alloc);
    let slice = tokens.as_slice();
    let Ok(program) = parse(arena, slice) else {
        panic!(rt; "the tokens spell a tree")
    };
    let said = match check(arena, slice, &program, sets) {
        Ok(_) => format!(in alloc; "taken"),
        Err(stop) => format!(in alloc; "{stop}"),
    };
    said.expect(rt, "memory")
}

#[test]
fn checked_once(rt: HostRuntime) {
    let got = twice(&rt, rt.alloc(), SUMMED.as_bytes());
    let wanted = b"204\n1 4 9 16 25 36 49 64\n204\n1 4 9 16 25 36 49 64\n";
    assert!(rt; got.as_slice() == wanted.as_slice());
}

#[test]
fn verdicts(rt: HostRuntime) {
    let alloc = rt.alloc();
    assert!(rt; verdict(&rt, alloc, SUMMED, &[]).as_str() == "taken");
    let scalar = "var s: int; forall i in 1..3 do s += i;";
    assert!(rt; verdict(&rt, alloc, scalar, &[]).as_str() == "! C8 at 1:33");
    assert!(rt; verdict(&rt, alloc, "config const n = 4;", &["m=7"]).as_str() == "! C14");
    assert!(rt; verdict(&rt, alloc, "writeln(numLocales);", &[]).as_str() == "! P1 at 1:9");
}
