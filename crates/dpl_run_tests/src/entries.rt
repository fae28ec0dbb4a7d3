// Which locale enters the gate for each turn, with which place. There are four locales, in grids of 2x2 and of 2x2x1.
// A row is the locales of the places in order, a digit each; behind ` <- ` what is written, in which ~ stands for a newline; and
// behind another ` <- ` the program. The places of loops that ask for other locales stand behind a `/`, and `-` is no entry.
// A line that begins with `# ` says what the next ones are for.

// Foralls, whole arrays, reductions and initial values.
pub(crate) const ENTRIES: &str = "\
# The map of the array that is written decides, also where the loop runs over something else.\n\
00112233 <- 1 2 3 4 5 6 7 8~ <- const D = {1..8} dmapped new blockDist(boundingBox={1..8}); var A: [D] int; forall i in D do A[i] = i; writeln(A);\n\
1122 <- 0 0 3 4 5 6 0 0~ <- const D = {1..8} dmapped new blockDist(boundingBox={1..8}); var A: [D] int; forall i in D[3..6] do A[i] = i; writeln(A);\n\
- <- 0 0 0 0 0 0 0 0~ <- const D = {1..8} dmapped new blockDist(boundingBox={1..8}); var A: [D] int; forall i in 8..1 by -3 do A[i] = i; writeln(A);\n\
301 <- false true false false true false false true~ <- const D = {1..8} dmapped new cyclicDist(startIdx=1); var A: [D] bool; forall i in 1..8 by -3 do A[i] = true; writeln(A);\n\
00112233 <- 2 3 4 5~3 4 5 6~ <- const D = {1..2, 1..4} dmapped new blockDist(boundingBox={1..2, 1..4}); var A: [D] int; forall (i, j) in D do A[i, j] = i + j; writeln(A);\n\
# Of two arrays the one that the text names first as written, whether or not that is reached.\n\
123 <- 1 1 10 0 0~ <- const D = {1..3} dmapped new blockDist(boundingBox={1..3}); const E = {1..3} dmapped new cyclicDist(startIdx=0); var A: [D] int; var B: [E] int; forall i in D { B[i] = A[i]; A[i] = 1; } writeln(A, B);\n\
123 <- 2 2 20 0 0~ <- const D = {1..3} dmapped new blockDist(boundingBox={1..3}); const E = {1..3} dmapped new cyclicDist(startIdx=0); var A: [D] int; var B: [E] int; forall i in D { if i > 9 { for j in 1..2 do B[i] = 1; } else A[i] = 2; } writeln(A, B);\n\
123 <- 0 0 03 3 3~ <- const D = {1..3} dmapped new blockDist(boundingBox={1..3}); const E = {1..3} dmapped new cyclicDist(startIdx=0); var A: [D] int; var B: [E] int; forall i in D { var x = 0; if i > 9 then x += 1; else B[i] = 3; while x > 0 { A[i] = 1; } } writeln(A, B);\n\
# Blocks that go round, so that a locale has several.\n\
0011223300112233 <- 136~ <- const D = {1..16} dmapped new blockCycDist(startIdx=1, blocksize=2); var A: [D] int; forall i in D do A[i] = i; writeln(+ reduce A);\n\
001122330/001122330 <- 45~ <- const D = {1..9} dmapped new blockCycDist(startIdx=1, blocksize=2); var A: [D] int; forall i in 1..9 do A[i] = i; writeln(+ reduce (A + 0));\n\
# Where none is written, the map of the name from which the loop's domain is derived; else all turns are of locale 0.\n\
011223 <- 27~ <- const D = {1..8} dmapped new blockDist(boundingBox={1..8}); var s: int; forall i in D[2..7] with (+ reduce s) do s += i; writeln(s);\n\
0123 <- 4~ <- const D = {1..4} dmapped new cyclicDist(startIdx=1); var A: [D] int; var s: int; forall i in A.domain with (+ reduce s) do s += 1; writeln(s);\n\
0000 <- 4~ <- const D = {1..4} dmapped new cyclicDist(startIdx=1); var s: int; forall i in {1..4} with (+ reduce s) do s += 1; writeln(s);\n\
000 <- 6~ <- var s: int; forall i in 4..6 with (max reduce s) do s reduce= i; writeln(s);\n\
# An assignment to a whole array is a forall over its domain.\n\
00112233 <- 4 4 4 4 4 4 4 4~ <- const D = {1..8} dmapped new blockDist(boundingBox={1..8}); var A: [D] int; A = 2; A += A; writeln(A);\n\
123 <- true true true~ <- const D = {1..3} dmapped new cyclicDist(startIdx=0); var A: [D] bool; A = true; writeln(A);\n\
- <- 0~ <- var A: [1..0] int; A = 1; writeln(A.domain.size);\n\
# A reduction enters by the map of the arrays in it, wherever it stands.\n\
00112233 <- 0~ <- const D = {1..8} dmapped new blockDist(boundingBox={1..8}); var A: [D] int; writeln(+ reduce A);\n\
123 <- 2~ <- const D = {1..3} dmapped new cyclicDist(startIdx=0); var A: [D] int; var B: [D] int; writeln(max reduce (2 - B + A));\n\
01 <- false~ <- const D = {1..2} dmapped new cyclicDist(startIdx=1); var A: [D] bool; const b = || reduce A; writeln(b);\n\
0 <- 2~ <- var A: [1..1] int; while (+ reduce A) < 2 do A[1] += 1; writeln(A);\n\
23/0 <- 1~ <- const D = {1..2} dmapped new cyclicDist(startIdx=-1); var A: [D] int; var s: int; forall i in 1..(+ reduce A) + 1 with (+ reduce s) do s += i; writeln(s);\n\
23/0 <- 8~ <- const D = {1..2} dmapped new cyclicDist(startIdx=-1); var A: [D] int; var B: [1..1] int; B[(+ reduce A) + 1] = 7; B = B + 1; writeln(B);\n\
# One that isn't looked at enters nowhere, nor does one over no index or over more than the budget.\n\
- <- 2~ <- var A: [1..2] int; if 1 > 2 && (+ reduce A) == 0 then writeln(1); writeln(2);\n\
- <- 1~ <- var A: [1..0] int; writeln(* reduce A);\n\
- <- ! F5 at 1:33~ <- var A: [1..1001] int; writeln(+ reduce A);\n\
# Behind the fault of an index no other enters.\n\
0 <- ! F2 at 1:40 in turn 1~ <- var A: [1..2] int; writeln(+ reduce (6 / A));\n\
# An initial value is an assignment to the declared array, and enters by its map, whether or not a whole array stands in it.\n\
123 <- 1 1 1~ <- const D = {1..3} dmapped new cyclicDist(startIdx=0); var A: [D] int; var B: [D] int = A + 1; writeln(B);\n\
123 <- true false true~ <- const D = {1..3} dmapped new cyclicDist(startIdx=0); var A: [D] int; A[2] = 4; var B: [D] bool = A < 4; writeln(B);\n\
00 <- 3 3~ <- var A: [1..2] int = 3; writeln(A);\n\
00 <- true true~ <- var A: [1..2] bool = true; writeln(A);\n\
123 <- false false false~ <- const D = {1..3} dmapped new cyclicDist(startIdx=0); var B: [D] bool = 1 > 2; writeln(B);\n\
0123 <- 5 5~5 5~ <- const D = {1..2, 1..2} dmapped new blockDist(boundingBox={1..2, 1..2}); var A: [D] int = 5; writeln(A);\n\
0011223300112233 <- 3~ <- const D = {1..16} dmapped new blockCycDist(startIdx=1, blocksize=2); var A: [D] int = 3; writeln(A[16]);\n\
1122 <- 5 5 5 5~ <- const D = {1..8} dmapped new blockDist(boundingBox={1..8}); var A: [D[3..6]] int = 5; writeln(A);\n\
23/00 <- 7 7~ <- const D = {1..2} dmapped new cyclicDist(startIdx=-1); var A: [D] int; var B: [1..2] int = (+ reduce A) + 7; writeln(B);\n\
- <- 0 0|0~ <- var A: [1..2] int; var B: [1..0] int = 3; writeln(A, '|', B.domain.size);\n\
# More indices than the budget are told before any entry, and so is a fault of what the loop runs over.\n\
- <- ! F5 at 1:1~ <- forall i in 1..1001 { }\n\
- <- ! F5 at 1:22~ <- var A: [1..1001] int = 3;\n\
- <- ! F2 at 1:23~ <- var A: [1..2] int = 1 / 0;\n\
0 <- ! F2 at 1:54 in turn 1~ <- const D = {1..2}; var A: [D] int; var B: [D] int = 6 / A;";

// Reductions that take several indices at once, where the gate is open.
pub(crate) const STRIPS: &str = "\
0000000000000000000000000000000000000000 <- 80~ <- var A: [1..40] int; writeln(+ reduce (A + 2));\n\
00000000000000000111111111111111112222222222222222233333333333333333 <- 340~ <- const D = {1..68} dmapped new blockDist(boundingBox={1..68}); var A: [D] int; writeln(+ reduce (A * 2 + 5));\n\
000000000000000000111111111111111111222222222222222222333333333333333333 <- 72~ <- const D = {1..2, 1..36} dmapped new blockDist(boundingBox={1..2, 1..36}); var A: [D] int; A[1, 1] = 70; A[2, 36] = 2; writeln(+ reduce A);";
