// Texts through the lexer and the parser: which are read, and for what the others are refused.
// That the tree of a text that is read is the one that it spells is proved.

use crate::table::TABLE;
use bumpalo::Bump;
use dpl_lexer::lex;
use dpl_parser::{Arena, parse};
use std::alloc::Global;
use std::process::Abort;

// The refusal's line, or `read`.
fn answer(rt: &impl Abort, alloc: Global, text: &[u8]) -> String {
    let tokens = match lex(alloc, text) {
        Ok(tokens) => tokens,
        Err(stop) => return format!(in alloc; "{stop}").expect(rt, "memory"),
    };
    let nodes = Bump::new(alloc);
    let said = match parse(Arena::new(&nodes, alloc), tokens.as_slice()) {
        Ok(_) => format!(in alloc; "read"),
        Err(stop) => format!(in alloc; "{stop}"),
    };
    said.expect(rt, "memory")
}

// Texts that are read, a line each; the first is empty.
const READ: &str = "\
\n\
;\n\
use BlockDist, CyclicDist, BlockCycDist; ;\n\
const a = 1; var b: int; var c: bool = true; config const n: int = 4;\n\
var s: sync int = 0; var t: sync bool;\n\
const D = {1..8} dmapped new blockDist(boundingBox={1..8});\n\
const D = {1..8} dmapped new blockDist(boundingBox);\n\
const D: domain(2) dmapped new cyclicDist(startIdx=(0,0)) = {0..3, 0..3};\n\
const D = {1..8} dmapped new cyclicDist(startIdx=(1)+1);\n\
const D = {1..8} dmapped new cyclicDist((1..3).low);\n\
const D = S dmapped new blockCycDist(startIdx=(0,0,0), blocksize=2);\n\
const D = blockDist.createDomain({1..8}); const E = cyclicDist.createDomain(1..2, 1..3);\n\
var A: [D] int; var B: [1..2, 1..3 by 2] bool = true;\n\
A[1] = 2; A(1, 2) += 3; x -= 1; x *= 2; x /= 3; x %= 4; m reduce= 1..2;\n\
c.writeEF(1); c.writeFF(x); c.writeXF(-1); c.reset(); c.readFE(); c.readFF();\n\
write(); writeln(\"a\", 'b\\n', 1 + 2, A);\n\
{ ; { } }\n\
if a then b = 1; else b = 2;\n\
if a { } else if b then ; else { }\n\
if a then if b then x = 1; else x = 2;\n\
while a < b do ; while true { }\n\
for i in 1..3 do ; for (i, j) in D { } for l in Locales do on l do write(here.id);\n\
forall i in D with (+ reduce s, max reduce m, && reduce b, ref x) do s += i;\n\
coforall k in 0..<numLocales with (ref c) { }\n\
writeln(a * -b * c, - - a, !!b, + reduce A, - + reduce A, min reduce (A));\n\
const r = 1..#3 by 2;\n\
writeln(A.size, A.domain, A[1](2).first, r.last, r.low, r.high, r.lowBound, D.dim(0), D.contains(1, 2), D.expand(1));\n\
size = boundingBox + startIdx; dim = expand;\n\
writeln((1..3)[2..3].size);\n\
writeln(a || b && c == d < e + f);";

#[test]
fn read(rt: HostRuntime) {
    let mut count: usize = 0;
    for text in READ.lines() {
        let got = answer(&rt, rt.alloc(), text.as_bytes());
        assert_eq!(rt; got.as_str(), "read", "{text}");
        count = count.saturating_add(1);
    }
    assert_eq!(rt; count, 30);
}

// The text `writeln`, so many times the one bracket, `1`, as many times the other, `;`.
fn nested(rt: &impl Abort, alloc: Global, count: usize) -> String {
    let mut text = String::new(alloc);
    text.push_str("writeln").expect(rt, "memory");
    for _ in 0..count {
        text.push('(').expect(rt, "memory");
    }
    text.push('1').expect(rt, "memory");
    for _ in 0..count {
        text.push(')').expect(rt, "memory");
    }
    text.push(';').expect(rt, "memory");
    text
}

#[test]
fn deep(rt: HostRuntime) {
    let text = nested(&rt, rt.alloc(), 64);
    assert_eq!(rt; answer(&rt, rt.alloc(), text.as_bytes()).as_str(), "read");
    let text = nested(&rt, rt.alloc(), 65);
    assert_eq!(rt;
        answer(&rt, rt.alloc(), text.as_bytes()).as_str(),
        "! P2 at 1:72"
    );
}

/// The bytes of a table's text, in which ~ stands for a newline.
pub(crate) fn text_of(rt: &impl Abort, alloc: Global, line: &str) -> Vec<u8> {
    let mut text = Vec::new(alloc);
    for byte in line.bytes() {
        let byte = if byte == b'~' { b'\n' } else { byte };
        text.push(byte).expect(rt, "memory");
    }
    text
}

/// The answer and the text of a table's line; no text where the line is too short for one.
pub(crate) fn parted(line: &str) -> (&str, &str) {
    match line.split_at_checked(13) {
        Some(parts) => parts,
        None => (line, ""),
    }
}

#[test]
fn table(rt: HostRuntime) {
    let mut count: usize = 0;
    for line in TABLE.lines() {
        let (wanted, text) = parted(line);
        let text = text_of(&rt, rt.alloc(), text);
        let got = answer(&rt, rt.alloc(), &text);
        assert_eq!(rt;
            got.as_str().trim_start_matches("! "),
            wanted.trim_end(),
            "{line}"
        );
        count = count.saturating_add(1);
    }
    assert_eq!(rt; count, 457);
}
