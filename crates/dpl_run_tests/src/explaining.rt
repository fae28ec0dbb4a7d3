// What a person is told of a text that is refused, or of a fault, beside the line on standard output.
// Each row is written by hand: a text, and behind an `@` the place, the sentence, the line, the mark under the token, and a hint
// where there is one. A `~` ends it.

use crate::input::{asked, ran};
use std::test::Fail;

// Of the last rows nothing is told. In one before them control bytes stand in the line, which are none on a terminal.
const TOLD: &str = "var s: int;
forall i in 1..3 do\ts += i;
@p.chpl:2:21: error[C8]: a forall changes an outer variable through a reduce intent alone, and does not read a reduce variable
forall i in 1..3 do\ts += i;
                   \t^
help: a race without an intent: forall i in D with (+ reduce s) do s += i;
~writeln(\"\u{e9}\", 1/0);@p.chpl:1:16: error[F2]: division by zero
writeln(\"\u{e9}\", 1/0);
              ^
~forall i in 1..2 { const q = 1 / (i - 2); }\r
@p.chpl:1:32: error[F2]: division by zero, in turn 2
forall i in 1..2 { const q = 1 / (i - 2); } 
                               ^
~writeln(1@p.chpl:1:10: error[P1]: no program goes on like this, or what begins here is not run: locales, tasks, cells
writeln(1
         ^
help: a `)` is missing before the end of the text
~;

writeln(\u{1});
;@p.chpl:3:9: error[L2]: no token is spelled like this: a bad character, number or escape, or a comment or text without an end
writeln( );
        ^
~x = 1;@p.chpl:1:1: error[C1]: the name is not declared here
x = 1;
^
help: declare it first: var x = 1;
~var A: [1..2, 5..6] int = 1;
A[1, 6] = 0;
writeln(+ reduce (1 / A));@p.chpl:3:21: error[F2]: division by zero, in turn 1,6
writeln(+ reduce (1 / A));
                    ^
~var A: [1..1, 1..2, 3..4] int = 1;
A[1, 2, 4] = 0;
writeln(+ reduce (1 / A));@p.chpl:3:21: error[F2]: division by zero, in turn 1,2,4
writeln(+ reduce (1 / A));
                    ^
~var A: [0..9] int; writeln(max reduce A);@p.chpl:1:32: error[F5]: a loop, a reduction or a whole array has more turns than the budget; --budget sets another
var A: [0..9] int; writeln(max reduce A);
                               ^
~var A: [1..16777217] int;@p.chpl:1:5: error[F8]: the array has more than 16777216 elements
var A: [1..16777217] int;
    ^
~









writeln(1/0);
;@p.chpl:11:10: error[F2]: division by zero
writeln(1/0);
         ^
~/*\u{1b}[2J\u{7f}\u{8}*/ writeln(1/0);@p.chpl:1:21: error[F2]: division by zero
/* [2J  */ writeln(1/0);
                    ^
~writeln(1);
@~;
@";

#[test]
fn told(rt: HostRuntime) {
    let mut asked = asked(&rt, false);
    asked.file = Some("p.chpl");
    for row in TOLD.split('~') {
        let (text, lines) = row.split_once('@').unwrap_or((row, ""));
        let got = ran(&rt, text.as_bytes(), &asked, true);
        assert_eq!(rt; got.errors.as_slice(), lines.as_bytes(), "{text}");
        let got = ran(&rt, text.as_bytes(), &asked, false);
        assert!(rt; got.errors.is_empty(), "{text}");
    }
}

// Without a place there is no line, and without a file's name the text is that of standard input.
#[test]
fn told_without_a_place(rt: HostRuntime) -> Result<(), Fail> {
    let mut asked = asked(&rt, false);
    asked.sets.push("n")?;
    let got = ran(&rt, b"writeln(1);".as_slice(), &asked, true);
    let want =
        "<stdin>: error[C14]: a word of the command line sets no config const: it has no =, another name or another value, or is the second one\n";
    assert_eq!(rt; got.errors.as_slice(), want.as_bytes());
    Ok(())
}
