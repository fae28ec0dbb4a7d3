// Texts through the lexer alone: their tokens, each as `kind@place`, or why a text has none.
// A line of a table is what is shown of a text, and behind ` <- ` the text, in which ~ stands for a newline.

use crate::reading::text_of;
use dpl_lexer::{lex, text_bytes};
use dpl_syntax::{Bytes, Kind, Token};
use std::alloc::Global;
use std::process::Abort;

// Tokens side by side, and where they begin.
const TOKENS: &str = "\
End@1:1 <- \n\
Var@1:1 s@1:5 End@1:6 <- var s\n\
a@1:1 PlusAssign@1:2 1@1:4 End@1:5 <- a+=1\n\
1@1:1 DotDot@1:2 8@1:4 Semicolon@1:5 End@1:6 <- 1..8;\n\
1@1:1 DotDotLess@1:2 8@1:5 End@1:6 <- 1..<8\n\
DotDot@1:1 Dot@1:3 End@1:4 <- ...\n\
a@1:1 AndAnd@1:2 And@1:4 b@1:5 End@1:6 <- a&&&b\n\
a@1:1 b@2:2 End@3:1 <- a\r~\tb~\n\
vars@1:1 _1$@1:6 do1@1:10 End@1:13 <- vars _1$ do1\n\
A@1:1 Dot@1:2 Size@1:3 OpenRound@1:7 1@1:8 CloseRound@1:9 End@1:10 <- A.size(1)";

// Numbers in each base, with underscores, and past the greatest.
const NUMBERS: &str = "\
7@1:1 9223372036854775807@1:5 End@1:24 <- 007 9223372036854775807\n\
1000@1:1 1@1:8 0@1:12 End@1:14 <- 1_000_ 1__ 0_\n\
9223372036854775807@1:1 End@1:19 <- 0x7fffffffffffffff\n\
175@1:1 5@1:6 1@1:13 15@1:18 7@1:23 End@1:26 <- 0XaF 0b1_01 0B1_ 0o17 0O7\n\
1@1:1 2@1:4 7@1:6 8@1:9 End@1:10 <- 0b12 0o78\n\
0@1:1 0@1:3 End@1:4 <- 0 0\n\
! L3 at 1:1 <- 9223372036854775808\n\
! L3 at 1:1 <- 0x8000000000000000\n\
! L3 at 1:2 <-  9223372036854775808x ?\n\
9223372036854775807@1:1 End@1:41 <- 0000000000000000000009223372036854775807\n\
! L3 at 1:1 <- 123456789012345678901234567890123456789012345678901234567890\n\
! L2 at 2:3 <- s~12a\n\
! L2 at 1:2 <- 1$\n\
! L2 at 1:2 <- 0x\n\
! L2 at 1:2 <- 0x_1\n\
! L2 at 1:2 <- 0xg\n\
! L2 at 1:2 <- 0b2\n\
! L2 at 1:2 <- 0o\n\
! L2 at 1:4 <- 0b1a\n\
! L2 at 1:4 <- 0x1G";

// Comments, which nest.
const COMMENTS: &str = "\
a@1:1 End@1:6 <- a //b\n\
a@1:1 c@2:1 End@2:2 <- a//b~c\n\
End@1:3 <- //\n\
1@2:1 End@2:2 <- // /* ~1\n\
End@1:5 <- /**/\n\
! L2 at 1:1 <- /*/\n\
! L2 at 1:1 <- /* a /* b */ c\n\
d@1:18 End@1:19 <- /* a /* b */ c */d\n\
a@1:1 b@2:5 End@2:6 <- a /* // ~ */ b\n\
x@1:16 End@1:17 <- /***/ /* * / */x\n\
! L2 at 1:1 <- /*/*/ */\n\
a@1:1 Star@1:2 Slash@1:3 b@1:4 End@1:5 <- a*/b\n\
a@1:1 Slash@1:2 Slash@1:4 b@1:5 SlashAssign@1:7 c@1:10 End@1:11 <- a/ /b /= c\n\
1@1:1 End@1:17 <- 1 /* \u{e9} */ // \u{e9}\n\
! L2 at 2:3 <- ~  /*\n\
'a'@2:5 End@2:8 <- /* \"~ */ 'a'";

// Texts between quotes, with escapes.
const TEXTS: &str = "\
'a'b'@1:1 'c\"d'@1:7 End@1:12 <- \"a'b\" 'c\"d'\n\
''@1:1 ''@1:4 End@1:6 <- \"\" ''\n\
'\\n\\t\\\"\\'\\\\'@1:1 End@1:13 <- '\\n\\t\\\"\\'\\\\'\n\
'\u{e9}\t// /* '@1:1 End@1:12 <- '\u{e9}\t// /* '\n\
'a\rb'@1:1 End@1:6 <- 'a\rb'\n\
'a'@1:1 'b'@1:4 End@1:7 <- 'a''b'\n\
! L2 at 1:3 <- 1 'a\n\
! L2 at 1:3 <- 1 'a~'\n\
! L2 at 1:1 <- 'a\"\n\
! L2 at 1:1 <- 'a\\'\n\
! L2 at 1:1 <- 'a\\\n\
! L2 at 1:1 <- 'a\\~'\n\
! L2 at 1:4 <- 'ab\\q'\n\
! L2 at 1:4 <- '\\n\\q\\z'\n\
! L2 at 1:1 <- '\\q\n\
! L2 at 1:1 <- '\\q\\'\n\
! L2 at 1:4 <- '\\\\\\q'\n\
! L2 at 1:2 <- '\\\u{e9}'";

// What begins no token.
const REFUSALS: &str = "\
! L2 at 1:3 <- s ? t\n\
! L2 at 1:4 <- 1..@8\n\
! L2 at 1:1 <- \u{c}\n\
! L2 at 1:3 <- a $\n\
! L2 at 2:2 <- s~ \u{e9}";

// Each sign, and its name.
const SIGNS: &str = "\
..< DotDotLess\n\
.. DotDot\n\
. Dot\n\
== Equal\n\
!= NotEqual\n\
<= LessEqual\n\
>= GreaterEqual\n\
&& AndAnd\n\
|| OrOr\n\
+= PlusAssign\n\
-= MinusAssign\n\
*= StarAssign\n\
/= SlashAssign\n\
%= PercentAssign\n\
= Assign\n\
< Less\n\
> Greater\n\
! Not\n\
+ Plus\n\
- Minus\n\
* Star\n\
/ Slash\n\
% Percent\n\
& And\n\
| Or\n\
^ Caret\n\
# Hash\n\
( OpenRound\n\
) CloseRound\n\
[ OpenSquare\n\
] CloseSquare\n\
{ OpenCurly\n\
} CloseCurly\n\
, Comma\n\
; Semicolon\n\
: Colon";

// Each contextual word, and its name.
const CONTEXTUAL_WORDS: &str = "\
BlockDist BlockDist\n\
CyclicDist CyclicDist\n\
BlockCycDist BlockCycDist\n\
createDomain CreateDomain\n\
boundingBox BoundingBox\n\
startIdx StartIdx\n\
blocksize Blocksize\n\
writeEF WriteEF\n\
writeFF WriteFF\n\
writeXF WriteXF\n\
reset Reset\n\
readFE ReadFE\n\
readFF ReadFF\n\
size Size\n\
first First\n\
last Last\n\
low Low\n\
high High\n\
lowBound LowBound\n\
id Id\n\
dim Dim\n\
contains Contains\n\
expand Expand";

// Each reserved word, and its name.
const RESERVED_WORDS: &str = "\
bool Bool\n\
by By\n\
blockCycDist BlockCycDist\n\
blockDist BlockDist\n\
config Config\n\
const Const\n\
coforall Coforall\n\
cyclicDist CyclicDist\n\
dmapped Dmapped\n\
do Do\n\
domain Domain\n\
else Else\n\
false False\n\
for For\n\
forall Forall\n\
here Here\n\
if If\n\
in In\n\
int Int\n\
Locales Locales\n\
max Max\n\
min Min\n\
new New\n\
numLocales NumLocales\n\
on On\n\
reduce Reduce\n\
ref Ref\n\
sync Sync\n\
then Then\n\
true True\n\
use Use\n\
var Var\n\
while While\n\
with With\n\
write Write\n\
writeln Writeln";

fn text_shown(bytes: &[u8]) -> &str {
    std::str::from_utf8(bytes).unwrap_or("no text")
}

fn token_shown(rt: &impl Abort, alloc: Global, token: &Token<'_>) -> String {
    let at = token.at;
    let shown = match &token.kind {
        Kind::Name(word) => format!(in alloc; " {}@{at}", text_shown(word.as_bytes())),
        Kind::Contextual(word) => format!(in alloc; " {word:?}@{at}"),
        Kind::Text(bytes) => format!(in alloc; " '{}'@{at}", text_shown(bytes.as_bytes())),
        Kind::Number(n) => format!(in alloc; " {n}@{at}"),
        Kind::Keyword(keyword) => format!(in alloc; " {keyword:?}@{at}"),
        Kind::Sign(sign) => format!(in alloc; " {sign:?}@{at}"),
        Kind::End => format!(in alloc; " End@{at}"),
    };
    shown.expect(rt, "memory")
}

fn shown(rt: &impl Abort, alloc: Global, text: &[u8]) -> String {
    let tokens = match lex(alloc, text) {
        Ok(tokens) => tokens,
        Err(stop) => return format!(in alloc; "{stop}").expect(rt, "memory"),
    };
    let mut line = String::new(alloc);
    for token in &tokens {
        let one = token_shown(rt, alloc, token);
        line.push_str(one.as_str()).expect(rt, "memory");
    }
    line
}

// How many rows a table has. Each text is shown as its row says.
fn rows_of(rt: &impl Abort, alloc: Global, table: &str) -> usize {
    let mut count: usize = 0;
    for line in table.lines() {
        let (wanted, text) = line.split_once(" <- ").unwrap_or((line, ""));
        let text = text_of(rt, alloc, text);
        let shown = shown(rt, alloc, text.as_slice());
        assert_eq!(rt; shown.as_str().trim_start(), wanted);
        count = count.saturating_add(1);
    }
    count
}

#[test]
fn rows(rt: HostRuntime) {
    let alloc = rt.alloc();
    assert_eq!(rt; rows_of(&rt, alloc, TOKENS), 10);
    assert_eq!(rt; rows_of(&rt, alloc, NUMBERS), 20);
    assert_eq!(rt; rows_of(&rt, alloc, COMMENTS), 16);
    assert_eq!(rt; rows_of(&rt, alloc, TEXTS), 18);
    assert_eq!(rt; rows_of(&rt, alloc, REFUSALS), 5);
}

#[test]
fn bytes_that_are_no_text(rt: HostRuntime) {
    let alloc = rt.alloc();
    assert_eq!(rt; shown(&rt, alloc, b"s\n\xffs").as_str(), "! L1 at 2:1");
    assert_eq!(rt; shown(&rt, alloc, b"? \xc3").as_str(), "! L1 at 1:3");
    assert_eq!(rt; shown(&rt, alloc, b"// \xff").as_str(), "! L1 at 1:4");
}

// What the bytes between quotes stand for.
#[test]
fn escapes(rt: HostRuntime) {
    let bytes = Bytes::new(b"a\\nb\\tc\\\"d\\'e\\\\f \\\\n");
    let stood = text_bytes(rt.alloc(), &bytes).expect(&rt, "memory");
    assert!(rt; stood.as_slice() == b"a\nb\tc\"d'e\\f \\n".as_slice());
}

// How many words a table has. Each is its token, and with one letter more it is a name.
fn words_of(rt: &impl Abort, alloc: Global, table: &str) -> usize {
    let mut count: usize = 0;
    for line in table.lines() {
        let (word, name) = line.split_once(' ').unwrap_or((line, ""));
        let text = format!(in alloc; "{word}\n{word}s").expect(rt, "memory");
        let end = word.len().saturating_add(2);
        let wanted = format!(in alloc; " {name}@1:1 {word}s@2:1 End@2:{end}").expect(rt, "memory");
        assert_eq!(rt; shown(rt, alloc, text.as_bytes()).as_str(), wanted.as_str());
        count = count.saturating_add(1);
    }
    count
}

#[test]
fn words(rt: HostRuntime) {
    assert_eq!(rt; words_of(&rt, rt.alloc(), CONTEXTUAL_WORDS), 23);
    assert_eq!(rt; words_of(&rt, rt.alloc(), RESERVED_WORDS), 36);
}

// Each sign, where a name follows it.
#[test]
fn signs(rt: HostRuntime) {
    let alloc = rt.alloc();
    let mut count: usize = 0;
    for line in SIGNS.lines() {
        let (sign, name) = line.split_once(' ').unwrap_or((line, ""));
        let text = format!(in alloc; "{sign}a").expect(&rt, "memory");
        let (next, end) = (sign.len().saturating_add(1), sign.len().saturating_add(2));
        let wanted = format!(in alloc; " {name}@1:1 a@1:{next} End@1:{end}").expect(&rt, "memory");
        assert_eq!(rt;
            shown(&rt, alloc, text.as_bytes()).as_str(),
            wanted.as_str()
        );
        count = count.saturating_add(1);
    }
    assert_eq!(rt; count, 36);
}

// As many spaces as a text may have, and one more.
#[test]
fn longest_text(rt: HostRuntime) {
    let mut text = Vec::new(rt.alloc());
    for _ in 0..1048576 {
        text.push(b' ').expect(&rt, "memory");
    }
    assert_eq!(rt; shown(&rt, rt.alloc(), &text).as_str(), " End@1:1048577");
    text.push(b'?').expect(&rt, "memory");
    assert_eq!(rt; shown(&rt, rt.alloc(), &text).as_str(), "! L1 at 1:1");
}
