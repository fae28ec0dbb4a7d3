// Roots and their maps: which locale owns each index of a declared domain or array.
// No output tells it, so the rows are those of `entries`: each program ends with a loop over the domain, or sets the array.

// By the maps of the text: a loop over a domain asks for the owners of its indices, and so does an assignment to a whole array.
pub(crate) const NAMED: &str = "\
00000000 <- 8 <- const D = {1..8}; var n = 0; forall p in D with (+ reduce n) do n += 1; write(n);\n\
00112233 <- 8 <- const D = {1..8} dmapped new blockDist(boundingBox={1..8}); var n = 0; forall p in D with (+ reduce n) do n += 1; write(n);\n\
01233333 <- 8 <- const D = {1..8} dmapped new blockDist({1..4}); var n = 0; forall p in D with (+ reduce n) do n += 1; write(n);\n\
01230123 <- 8 <- const D = {1..8} dmapped new cyclicDist(startIdx=1); var n = 0; forall p in D with (+ reduce n) do n += 1; write(n);\n\
30123012 <- 8 <- const D = {1..8} dmapped new cyclicDist(startIdx=2); var n = 0; forall p in D with (+ reduce n) do n += 1; write(n);\n\
23012301 <- 8 <- const S = {3..6}; const D = {1..8} dmapped new cyclicDist(startIdx=S.low); var n = 0; forall p in D with (+ reduce n) do n += 1; write(n);\n\
12301230 <- 8 <- const S = {3..6}; const D = {1..8} dmapped new cyclicDist(startIdx=S[4..6].lowBound); var n = 0; forall p in D with (+ reduce n) do n += 1; write(n);\n\
23012301 <- 8 <- const r = 3..6; const D = {1..8} dmapped new cyclicDist(startIdx=r.low); var n = 0; forall p in D with (+ reduce n) do n += 1; write(n);\n\
0011223300 <- 10 <- const D = {1..10} dmapped new blockCycDist(startIdx=1, blocksize=2); var n = 0; forall p in D with (+ reduce n) do n += 1; write(n);\n\
# What is no map: an empty box, a fault, a start past its limit, blocks of no index, no least member.\n\
0000 <- 4 <- const D = {1..4} dmapped new blockDist(boundingBox={1..0}); var n = 0; forall p in D with (+ reduce n) do n += 1; write(n);\n\
0000 <- 4 <- const D = {1..4} dmapped new cyclicDist(startIdx=1 / 0); var n = 0; forall p in D with (+ reduce n) do n += 1; write(n);\n\
0000 <- 4 <- const D = {1..4} dmapped new blockDist(boundingBox={1..4 by 0}); var n = 0; forall p in D with (+ reduce n) do n += 1; write(n);\n\
0000 <- 4 <- const D = {1..4} dmapped new cyclicDist(startIdx=1152921504606846977); var n = 0; forall p in D with (+ reduce n) do n += 1; write(n);\n\
0000 <- 4 <- const D = {1..4} dmapped new blockCycDist(startIdx=1, blocksize=0); var n = 0; forall p in D with (+ reduce n) do n += 1; write(n);\n\
0000 <- 4 <- const S = {1..0}; const D = {1..4} dmapped new cyclicDist(startIdx=S.low); var n = 0; forall p in D with (+ reduce n) do n += 1; write(n);\n\
# A name whose value is derived from another one has its map.\n\
00112233 <- 8 <- const D = {1..8} dmapped new blockDist(boundingBox={1..8}); const E = D; var n = 0; forall p in E with (+ reduce n) do n += 1; write(n);\n\
1122 <- 4 <- const D = {1..8} dmapped new blockDist(boundingBox={1..8}); const E = D[3..6]; var n = 0; forall p in E with (+ reduce n) do n += 1; write(n);\n\
0001122333 <- 10 <- const D = {1..8} dmapped new blockDist(boundingBox={1..8}); const E = D.expand(1); var n = 0; forall p in E with (+ reduce n) do n += 1; write(n);\n\
1122 <- 4 <- const D = {1..8} dmapped new blockDist(boundingBox={1..8}); var A: [D] int; const E = (A.domain)[2..7].expand(-1); var n = 0; forall p in E with (+ reduce n) do n += 1; write(n);\n\
# A name with a type is a root, and so is what is created or mapped.\n\
0000 <- 4 <- const D = {1..4} dmapped new blockDist(boundingBox={1..4}); const E: domain(1) = D; var n = 0; forall p in E with (+ reduce n) do n += 1; write(n);\n\
3012 <- 4 <- const D = {1..4}; const E: domain(1) dmapped new cyclicDist(startIdx=2) = D; var n = 0; forall p in E with (+ reduce n) do n += 1; write(n);\n\
00112233 <- 8 <- const D = blockDist.createDomain(1..8); var n = 0; forall p in D with (+ reduce n) do n += 1; write(n);\n\
00112233 <- 8 <- const S = {1..8}; const D = blockDist.createDomain(S); var n = 0; forall p in D with (+ reduce n) do n += 1; write(n);\n\
01230123 <- 8 <- const D = cyclicDist.createDomain({3..10}); var n = 0; forall p in D with (+ reduce n) do n += 1; write(n);\n\
# A domain variable keeps its map.\n\
22333333 <- 8 <- var D = {1..8} dmapped new blockDist(boundingBox={1..8}); D = {5..12}; var n = 0; forall p in D with (+ reduce n) do n += 1; write(n);\n\
0123 <- 4 <- var D: domain(1) dmapped new blockDist(boundingBox={1..4}); D = {1..4}; var n = 0; forall p in D with (+ reduce n) do n += 1; write(n);\n\
# An array has the map of its domain's root; over ranges or a literal it is a root.\n\
00112233 <-  <- const D = {1..8} dmapped new blockDist(boundingBox={1..8}); var A: [D] int; A = 7;\n\
00112233 <-  <- const D = {1..8} dmapped new blockDist(boundingBox={1..8}); var A: [(D)] bool; A = true;\n\
1122 <-  <- const D = {1..8} dmapped new blockDist(boundingBox={1..8}); var A: [D[3..6]] int; var B: [A.domain] int; B = 7;\n\
00000000 <-  <- const D = {1..8} dmapped new blockDist(boundingBox={1..8}); var A: [1..8] int; var B: [D.dim(0)] int; B = 7;\n\
# A slot that is used again has no map of before.\n\
0000 <- 4 <- { const D = {1..4} dmapped new cyclicDist(startIdx=1); } const E = {1..4}; var n = 0; forall p in E with (+ reduce n) do n += 1; write(n);\n\
# Two and three dimensions.\n\
0123 <- 4 <- const D = {1..2, 1..2} dmapped new blockDist(boundingBox={1..2, 1..2}); var n = 0; forall p in D with (+ reduce n) do n += 1; write(n);\n\
1032 <- 4 <- const D = {1..2, 1..2} dmapped new cyclicDist(startIdx=(1, 2)); var n = 0; forall p in D with (+ reduce n) do n += 1; write(n);\n\
1032 <- 4 <- const S = {1..2, 2..3}; const D = {1..2, 1..2} dmapped new cyclicDist(startIdx=S.low); var n = 0; forall p in D with (+ reduce n) do n += 1; write(n);\n\
00112233 <- 8 <- const D = {1..2, 1..2, 5..6} dmapped new blockDist(boundingBox={1..2, 1..2, 5..6}); var n = 0; forall p in D with (+ reduce n) do n += 1; write(n);";

// Where all roots have block maps.
pub(crate) const BLOCKS: &str = "\
00112233 <- 8 <- const D = {1..8}; var n = 0; forall p in D with (+ reduce n) do n += 1; write(n);\n\
00112233 <- 8 <- const D = {1..8} dmapped new cyclicDist(startIdx=1); var n = 0; forall p in D with (+ reduce n) do n += 1; write(n);\n\
1122 <- 4 <- const D = {1..8}; const E = D[3..6]; var n = 0; forall p in E with (+ reduce n) do n += 1; write(n);\n\
0123 <- 4 <- const D = {1..8}; const E: domain(1) = D[3..6]; var n = 0; forall p in E with (+ reduce n) do n += 1; write(n);\n\
00112233 <-  <- var A: [1..8] int; A = 7;\n\
0000 <- 4 <- var D: domain(1); D = {1..4}; var n = 0; forall p in D with (+ reduce n) do n += 1; write(n);";

// Where all roots have cyclic maps.
pub(crate) const CYCLES: &str = "\
01230123 <- 8 <- const D = {3..10}; var n = 0; forall p in D with (+ reduce n) do n += 1; write(n);\n\
2020 <- 4 <- const D = {1..8 by -2}; var n = 0; forall p in D with (+ reduce n) do n += 1; write(n);\n\
01230123 <-  <- const D = {1..8} dmapped new blockDist(boundingBox={1..8}); var A: [D] int; A = 7;\n\
0123 <-  <- var A: [0..1, 5..6] int; A = 7;";
