// The hints, by the codes of refusals: what stands before the place, an `@`, what stands there, and the line that tells what of Chapel this is,
// and the way round. The first row that fits is told. `rows.txt` has a text for each of them.
//
// A word is a token's spelling, or one of the classes `<name>`, `<reserved>`, `<number>`, `<text>`, `<end>` and `<any>`. Behind the last token
// of a line stands an `<end>` too, which may be left out. `<..>` stands for all tokens of its level of brackets, up to the nearest one that is
// the word before it. By `L2` no token stands at the place: the word is how the text goes on there.

ghost use Rattle.std.specs.Prelude.{◌≡◌};
ghost use Rattle.dpl_hints.specs.Hints.{rows_of};

use dpl_syntax::Code;

const L2: &str = "\
. <number> @ => numbers are 64-bit ints in this profile: count in a small unit, 1500 for 1.5 in 1/1000
<number> @ e => numbers are whole in this profile: 100000 for 1e5
<number> @ E => numbers are whole in this profile: 100000 for 1E5
<number> @ => no letter stands straight behind a number: a name begins with a letter
@ ~ => no `~` in this profile: write -x - 1 for ~x
@ ? => no `?` in this profile: write the type out, int or bool
@ @ => no attributes in this profile: leave the line out
@ \" => the text that begins here has no closing quote on its line
@ ' => the text that begins here has no closing quote on its line
@ \\ => the escapes are \\n, \\t, \\\", \\' and \\\\
@ /* => the comment that begins here has no `*/`
@ \u{feff} => this is a byte order mark: save the text without it
@ \u{201c} => quotes are plain ones: \" or '
@ \u{201d} => quotes are plain ones: \" or '
@ \u{2018} => quotes are plain ones: \" or '
@ \u{2019} => quotes are plain ones: \" or '
";

const P1: &str = "\
config @ var => a config is const in this profile: config const m0 = 3; var m = m0;
config @ param => no `param` in this profile: write config const
config @ => a config is const in this profile: config const n = 4;
for param @ => no `param` in this profile: write for i in ..
param @ <name> => no `param` in this profile: write const
var @ ( => no tuples in this profile: write var x = 1; var y = 2; for var (x, y) = (1, 2);
const @ ( => no tuples in this profile: write a declaration for each name
var @ <reserved> => this word is reserved: choose another name
const @ <reserved> => this word is reserved: choose another name
for @ <reserved> => this word is reserved: choose another name
forall @ <reserved> => this word is reserved: choose another name
config const <..> @ , => one name a declaration: config const n = 8; config const m = 4;
var <..> @ , => one name a declaration: var a = 1; var b = 2;
const <..> @ , => one name a declaration: const a = 1; const b = 2;
var <name> @ ; => a variable has a type or a value: var x: int; or var x = 0;
const <name> @ ; => a constant has a value: const n = 3;
proc @ => no procedures in this profile: write the body out where it is called
iter @ => no iterators in this profile: write the loop out where it is used
record @ => no records in this profile: write an array for each field
class @ => no classes in this profile: write an array for each field
union @ => no unions in this profile: write an array for each field
enum @ => no enums in this profile: const red = 0; const green = 1;
module @ => no modules in this profile: leave out `module M {` and its `}`
type @ => no names of types in this profile: write int or bool
private @ => no `private` in this profile: leave the word out
public @ => no `public` in this profile: leave the word out
inline @ => no procedures in this profile: write the body out where it is called
extern @ => no `extern` in this profile: write the value out
lambda ( <..> @ => no procedures in this profile: write the body out where it is called
import @ => no `import` in this profile: `use` names BlockDist, CyclicDist and BlockCycDist
use @ => the modules are BlockDist, CyclicDist and BlockCycDist in this profile: leave others out
@ use => `use` stands first in the text in this profile
@ ref => no names for elements in this profile: write A[i] where it is used
<number> . @ => numbers are 64-bit ints in this profile: count in a small unit, 1500 for 1.5 in 1/1000
@ . <number> => numbers are 64-bit ints in this profile: count in a small unit, 500 for .5 in 1/1000
@ real => no `real` in this profile: count in a small unit by ints, 1500 for 1.5 in 1/1000
@ imag => no `imag` in this profile: numbers are 64-bit ints
@ complex => no `complex` in this profile: write an int for each part
@ uint => no `uint` in this profile: write int
int @ ( => ints have 64 bits in this profile: write int
bool @ ( => a bool has one size in this profile: write bool
domain ( @ int => no sets of keys in this profile: var known: [0..99] bool;
domain ( @ string => no sets of keys in this profile: var known: [0..99] bool;
@ string => no strings in this profile but in write and writeln: writeln(\"n = \", n);
@ atomic => no `atomic` in this profile: forall i in D with (+ reduce c) do c += 1;
@ bytes => no `bytes` in this profile: texts stand in write and writeln alone
@ sparse => no sparse domains in this profile: a rectangular one, {1..n}
@ subdomain => no subdomains in this profile: const Inner = {2..n - 1};
] @ [ => no arrays of arrays in this profile: var A: [1..3, 1..2] int; and A[i, j]
@ coforall => tasks and locales are not run yet
@ on => tasks and locales are not run yet
@ sync => tasks and locales are not run yet
@ Locales => tasks and locales are not run yet
@ numLocales => tasks and locales are not run yet
@ here => tasks and locales are not run yet
begin @ => no `begin` in this profile: a forall runs its turns on threads
cobegin @ => no `cobegin` in this profile: a forall runs its turns on threads
serial @ => no `serial` in this profile: write `for` in place of `forall`
local @ => no `local` in this profile: leave the word out
break @ => no `break` in this profile: put what ends the loop into the condition of a `while`
continue @ => no `continue` in this profile: write the rest of the body under an `if`
return @ => no `return` in this profile: write the rest under an `if`
select @ => no `select` in this profile: if a == 1 then ..; else if a == 2 then ..;
yield @ => no iterators in this profile: write the loop out where it is used
try @ => no errors to catch in this profile: a fault stops the run, with its place
throw @ => no errors to throw in this profile: writeln(1 / 0); stops there
delete @ => no objects in this profile: leave it out
label @ => no labels in this profile: put what ends the loop into the condition of a `while`
for @ <number> => a loop names its variable in this profile: for i in 1..3 do ..
forall @ <number> => a loop names its variable in this profile: forall i in 1..3 do ..
for ( @ int => a loop runs over a range: for i in 0..<n do ..
for ( @ var => a loop runs over a range: for i in 0..<n do ..
.. @ => a range has both ends in this profile: 1..n, or 1..#n for n members
in @ .. => a range has both ends in this profile: 1..n, or 1..#n for n members
= @ .. => a range has both ends in this profile: 1..n, or 1..#n for n members
if <..> @ do => `then` stands behind a condition: if x > 0 then ..
while <..> @ then => `do` stands behind the condition of a loop: while x > 0 do ..
@ do => no `do .. while` in this profile: write the body once before `while c do ..`
@ <= > => no `<=>` in this profile: const t = a; a = b; b = t;
@ + + => no `++` in this profile: x += 1;
@ - - => no `--` in this profile: x -= 1;
@ && = => no `&&=` in this profile: b = b && c; and under `&& reduce b`: b reduce= c;
@ || = => no `||=` in this profile: b = b || c; and under `|| reduce b`: b reduce= c;
@ & = => no `&=` in this profile: under `& reduce x` write x reduce= y;
@ | = => no `|=` in this profile: under `| reduce x` write x reduce= y;
@ ^ = => no `^=` in this profile: under `^ reduce x` write x reduce= y;
@ * *= => no `**=` in this profile: multiply in a loop, p *= x;
@ < <= => no `<<=` in this profile: x *= 8; for x <<= 3;
@ > >= => no `>>=` in this profile: x /= 8; for x >>= 3;
assert <..> @ ; => no `assert` in this profile: if x != y then writeln(1 / 0); stops there
halt ( @ => no `halt` in this profile: writeln(1 / 0); stops there
exit <..> @ ; => no `exit` in this profile: write the rest under an `if`
writef ( @ => no `writef` in this profile: write(x, \" \", y);
swap <..> @ ; => no `swap` in this profile: const t = a; a = b; b = t;
sort <..> @ ; => no `sort` in this profile: write the loops out
read ( @ => nothing is read in this profile: config const n = 4; is set by n=5
<name> ( @ ) => no procedures in this profile: write out what this calls
) @ ; => no procedures in this profile: write out what this calls
dmapped @ blockDist => `new` stands before it: dmapped new blockDist(boundingBox=D)
dmapped @ cyclicDist => `new` stands before it: dmapped new cyclicDist(startIdx=1)
dmapped @ Block => Chapel 2 spells it dmapped new blockDist(boundingBox=D)
dmapped @ Cyclic => Chapel 2 spells it dmapped new cyclicDist(startIdx=1)
new @ Block => Chapel 2 spells it new blockDist(boundingBox=D)
new @ Cyclic => Chapel 2 spells it new cyclicDist(startIdx=1)
dmapped @ => maps are blockDist, cyclicDist and blockCycDist in this profile: dmapped new blockDist(D)
new @ => maps are blockDist, cyclicDist and blockCycDist in this profile
blockDist ( <..> @ => a map takes its domain alone in this profile: new blockDist(boundingBox=D)
cyclicDist ( <..> @ => a map takes its start alone in this profile: new cyclicDist(startIdx=1)
min @ ( int => no `min(..)` in this profile: the least int is -9223372036854775807 - 1
max @ ( int => no `max(..)` in this profile: the greatest int is 9223372036854775807
min @ ( => `min` stands in reductions alone in this profile: if b < m then m = b;
max @ ( => `max` stands in reductions alone in this profile: if b > m then m = b;
= @ if => no `if` as a value in this profile: var x = 2; if c then x = 1;
( @ if => no `if` as a value in this profile: var x = 2; if c then x = 1;
, @ if => no `if` as a value in this profile: var x = 2; if c then x = 1;
+ @ if => no `if` as a value in this profile: var x = 2; if c then x = 1;
+= @ if => no `if` as a value in this profile: var x = 2; if c then x = 1;
* * @ => no `**` in this profile: multiply in a loop, p *= x;
< @ < => no `<<` in this profile: x * 8 for x << 3
> @ > => no `>>` in this profile: x / 8 for x >> 3 of an x that is not negative
@ scan => no `scan` in this profile: for i in 2..n do A[i] += A[i - 1];
maxloc @ reduce => no `maxloc` in this profile: max reduce A, and then a forall with (min reduce at)
minloc @ reduce => no `minloc` in this profile: min reduce A, and then a forall with (min reduce at)
reduce @ => a reduction takes arrays in this profile: forall i in D with (+ reduce s) do s += f(i);
+ @ <text> => no strings in this profile but in write and writeln: writeln(\"a\", \"b\");
+ @ => no sign `+` before a value in this profile: leave it out
<text> @ + => no strings in this profile but in write and writeln: writeln(\"a\", \"b\");
zip ( <..> @ => no `zip` in this profile: forall i in A.domain do A[i] = ..
@ <text> => no strings in this profile but in write and writeln: writeln(\"n = \", n);
@ & => no `&` but in reductions in this profile: & reduce A
@ | => no `|` but in reductions in this profile: | reduce A
@ ^ => no `^` but in reductions in this profile: ^ reduce A
= ( <..> @ , => no tuples in this profile: write a variable for each part
( ( <..> @ , => no tuples in this profile: write a variable for each part
[ ( <..> @ , => no tuples in this profile: write A[i, j] for A[(i, j)]
; @ ( => no tuples in this profile: const t = a; a = b; b = t; for (a, b) = (b, a);
} @ ( => no tuples in this profile: const t = a; a = b; b = t; for (a, b) = (b, a);
= @ new => no objects in this profile: `new` stands behind `dmapped` alone
( <..> @ = => `==` compares, and `=` sets
if <..> @ = => `==` compares, and `=` sets
<name> @ == => `=` sets, and `==` compares
@ align => no `align` in this profile: let the range begin at its first member, 2..9 by 2
@ by => `by` stands behind a range that is written: r.low..r.high by 2
@ # ! => no `#!` line in this profile: run the text by dpl FILE
@ # => `#` stands behind the dots in this profile: 1..#3
writeln ( <..> @ .. => no ranges in writeln in this profile: writeln(r.low, \"..\", r.high);
write ( <..> @ .. => no ranges in write in this profile: write(r.low, \"..\", r.high);
<name> [ <..> @ .. => no slices of arrays in this profile: forall i in 2..4 do A[i] = 0;
( <..> @ .. => a range stands in a declaration, a loop or a domain in this profile: const r = 1..3;
= @ [ <name> in => no loops as values in this profile: forall i in D do A[i] = i * i;
= @ [ ( => no loops as values in this profile: forall (i, j) in D do A[i, j] = i * j;
= @ for => no loops as values in this profile: forall i in D do A[i] = i * i;
= @ forall => no loops as values in this profile: forall i in D do A[i] = i * i;
= @ [ => no array literals in this profile: A[1] = 4; A[2] = 5;
( @ [ => no array literals in this profile: A[1] = 4; A[2] = 5;
in @ [ => no array literals in this profile: a loop runs over a range or a domain
@ [ => no `[..]` loops in this profile: forall i in 1..n do A[i] = -i;
. @ rank => no `rank` in this profile: it is how many ranges the domain is declared with
. @ shape => no `shape` in this profile: D.dim(0).size and D.dim(1).size
. @ length => no `length` in this profile: write size
. @ isEmpty => no `isEmpty` in this profile: D.size == 0
. @ indices => no `indices` in this profile: A.domain
. @ dims => no `dims` in this profile: D.dim(0)
. @ stride => no `stride` in this profile: it is what stands behind `by`
. @ translate => no `translate` in this profile: {D.dim(0).low + 1..D.dim(0).high + 1}
. @ interior => no `interior` in this profile: {D.dim(0).high - 1..D.dim(0).high}
. @ exterior => no `exterior` in this profile: {D.dim(0).high + 1..D.dim(0).high + 2}
. @ localSubdomain => no `localSubdomain` in this profile: forall i in D do .. runs where its indices are
. @ <name> => methods are size, first, last, low, high, domain, dim, contains and expand in this profile
( @ in => intents are `op reduce x` and `ref x` in this profile: other names are read as they are
, @ in => intents are `op reduce x` and `ref x` in this profile: other names are read as they are
( @ const => intents are `op reduce x` and `ref x` in this profile: other names are read as they are
( @ var => intents are `op reduce x` and `ref x` in this profile: declare it in the loop's body
@ : => no casts in this profile: an int stays an int, and a bool a bool
( <..> @ <end> => a `)` is missing before the end of the text
[ <..> @ <end> => a `]` is missing before the end of the text
; @ <end> => a `}` is missing before the end of the text
} @ <end> => a `}` or a `;` is missing before the end of the text
@ <end> => a `;` is missing before the end of the text
( <..> @ ; => a `)` is missing before the `;`
<end> @ => a `;` is missing at the end of the line before
";

const P2: &str = "\
@ => give a part a name of its own, const x = ..; and cut a long chain of `else if` in two
";

const C1: &str = "\
@ abs ( => no `abs` in this profile: var size = x; if x < 0 then size = -x;
@ sqrt ( => no `sqrt` in this profile: numbers are 64-bit ints
@ zip ( => no `zip` in this profile: forall i in A.domain do A[i] = ..
@ <name> ( => no procedures in this profile, and no array of this name: compute it before
@ <name> = => declare it first: var x = 1;
";

const C2: &str = "\
@ _ => `_` is a name in this profile: for (x, y) in D
";

const C3: &str = "\
reduce @ <name> ) => an intent reduces a scalar in this profile: write a loop for each bucket, or a `for`
@ <any> reduce => a reduction takes a whole array: of a range or bools, forall with (+ reduce s) do s += 1;
. @ size => an array has `domain` alone in this profile: A.domain.size
. @ low => a domain has `size` and `dim` in this profile: D.dim(0).low
. @ high => a domain has `size` and `dim` in this profile: D.dim(0).high
. @ first => a domain has `size` and `dim` in this profile: D.dim(0).first
. @ last => a domain has `size` and `dim` in this profile: D.dim(0).last
. @ dim => an array has `domain` alone in this profile: A.domain.dim(0)
in @ <name> => a loop runs over a range or a domain in this profile: for i in A.domain do .. A[i]
<name> @ ( => arrays alone take indices: name the coordinates in the loop's head, for (i, j) in D
[ @ => an index is an int in this profile: for a part of an array forall i in D do A[i] = B[i];
writeln ( <..> @ => writeln takes texts, ints, bools and names of arrays: print a domain by its D.dim(0)
write ( <..> @ => write takes texts, ints, bools and names of arrays: print a domain by its D.dim(0)
if @ <name> then => a condition is a bool: if x != 0 then ..
if @ <name> { => a condition is a bool: if x != 0 { .. }
if @ <name> => a condition is one bool: if && reduce (A == 0) then .. for a whole array
if @ => a condition is a bool: if x != 0 then ..
while @ => a condition is a bool: while x != 0 do .., or while true do ..
var <name> = @ <name> => an array is declared with its domain: var B: [D] int = A;
= @ <name> ; => an array is set from one over the same domain's name, var A: [D] int; and an int from an int
int = @ => an int is set from an int, and an array over D from one over D
bool = @ => a bool is set from a bool: true, false or x != 0
@ = <any> .. => a range is set once: const r = ..; a domain may be set again, var D = {1..3};
@ && => `&&` takes bools: for whole arrays write forall i in D do C[i] = A[i] && B[i];
@ || => `||` takes bools: for whole arrays write forall i in D do C[i] = A[i] || B[i];
@ ! => `!` takes bools: x == 0
@ < => `<` takes ints
@ <= => `<=` takes ints
@ > => `>` takes ints
@ >= => `>=` takes ints
@ + => `+` takes ints, and whole arrays over one domain's name
@ - => `-` takes ints, and whole arrays over one domain's name
@ * => `*` takes ints, and whole arrays over one domain's name
@ / => `/` takes ints, and whole arrays over one domain's name
@ % => `%` takes ints, and whole arrays over one domain's name
@ == => `==` takes two ints or two bools, and whole arrays over one domain's name
@ != => `!=` takes two ints or two bools, and whole arrays over one domain's name
= @ => an int is set from an int, a bool from a bool, and an array over D from one over D
";

const C4: &str = "\
@ => declare it with var, or copy it: var m = n;
";

const C5: &str = "\
@ <name> [ => write as many indices as there are dimensions: A[i, j]
";

const C6: &str = "\
@ <name> [ <name> , => name each dimension's index in the head, forall (i, j) in D do A[i, j] = ..; or write `for`
@ => turn it round, so that a turn writes its own element, A[i] = B[i - 1]; or write `for`
";

const C7: &str = "\
@ => read from a second array, B = A; forall i in D do A[i] = B[i - 1]; or write `for`
";

const C8: &str = "\
@ <name> += => a race without an intent: forall i in D with (+ reduce s) do s += i;
@ <name> *= => a race without an intent: forall i in D with (* reduce s) do s *= i;
@ <name> -= => by `+ reduce s` write s += -i;
@ <name> = => a race: with (+ reduce s) write s += i; and with (max reduce m) m reduce= i;
@ => a reduce variable is read behind the loop: with (max reduce m) write m reduce= i;
";

const C9: &str = "\
@ writeln => no print in a forall in this profile: fill an array, and print it behind the loop
@ write => no print in a forall in this profile: fill an array, and print it behind the loop
@ forall => no forall in a forall in this profile: forall (i, j) in {1..n, 1..m} do ..
@ <any> reduce => compute the reduction before the loop: const m = max reduce A;
@ => declare arrays and domains before the loop
";

// The rows for a code.
#[tactic(auto, unfolding(crate::specs::Hints::rows_of))]
pub(crate) fn rows_of(code: Code) -> &'static str
    ensures { result.now ≡ rows_of code }
{
    match code {
        Code::BadCharacter => L2,
        Code::Unexpected => P1,
        Code::TooDeep => P2,
        Code::UnknownName => C1,
        Code::NameTwice => C2,
        Code::WrongType => C3,
        Code::ConstantWritten => C4,
        Code::WrongRank => C5,
        Code::WrittenElsewhere => C6,
        Code::ReadElsewhere => C7,
        Code::OuterChanged => C8,
        Code::NotInForall => C9,
        Code::NotText
        | Code::NumberTooLarge
        | Code::NotInCoforall
        | Code::CellMisused
        | Code::TooMany
        | Code::BadSet => "",
    }
}
