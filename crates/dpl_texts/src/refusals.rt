// Texts that the grammar reads, with what the check says of each: `sound`, or the first breach.
// Each line is the answer, and from column 14 on the text. The first table's texts stand on the second line of one whose first line is the house.

/// Declarations of each sort and type: domains, arrays over them, ranges, scalars, cells and a locale.
pub const HOUSE: &str = "\
const D = {1..8}; var E = {1..4, 1..4}; const S = {1..8 by 2}; const T = {1..2, 1..2, 1..2}; var A: [D] int; \
var B: [E] int; var C: [D] int; var F: [D] bool; var G: [1..8] int; const r = 1..8; const q = 1..8 by 2; \
var n: int; var b: bool; const k = 3; var c: sync int; var f: sync bool; var h = here; var V = {1..8}; \
config const m = 4; var z = 1..2;\n";

pub const IN_HOUSE: &str = "\
C3 at 2:14   var x: int = true;\n\
C3 at 2:15   var x: bool = 1;\n\
C3 at 2:14   var x: int = 1..2;\n\
C3 at 2:14   var x: int = A;\n\
C3 at 2:19   var x: sync int = true;\n\
C3 at 2:20   var x: sync bool = 1;\n\
C3 at 2:20   var x: domain(1) = {1..2, 1..2};\n\
C3 at 2:20   var x: domain(1) = 1..2;\n\
C3 at 2:20   var x: domain(1) = S;\n\
C3 at 2:20   var x: domain(2) = n;\n\
C3 at 2:22   var x: domain(1) = D dmapped new blockDist({1..2});\n\
C3 at 2:20   var x: domain(1) = blockDist.createDomain(1..2);\n\
C3 at 2:16   var x: int = 1 dmapped new blockDist({1..2});\n\
C3 at 2:14   var x: int = cyclicDist.createDomain(1..2);\n\
C3 at 2:18   var P: [D] int = cyclicDist.createDomain(1..2);\n\
C3 at 2:18   var P: [D] int = true;\n\
C3 at 2:18   var P: [D] int = F;\n\
C3 at 2:18   var P: [D] int = G;\n\
C3 at 2:21   var P: [1..8] int = G;\n\
C3 at 2:20   var P: [(D)] int = A;\n\
C3 at 2:24   var P: [D[1..8]] int = A;\n\
C3 at 2:18   var P: [D] int = 1..2;\n\
sound        var x: int = n; var y: bool = b; var w: domain(1) = D; var v: sync int = 1; var u: domain(2) = {1..2, 1..2};\n\
sound        var P: [D] int = 3; var Q: [D] int = A + 1; var R: [D] bool = A < C; var U: [1..3] bool = true;\n\
sound        var x: domain(1) dmapped new blockDist({1..8}) = D; var y: domain(1) = x;\n\
C3 at 2:11   const x = A;\n\
C3 at 2:11   const x = A + 1;\n\
C3 at 2:11   const x = (A);\n\
C3 at 2:25   for t in E do const x = t;\n\
C3 at 2:11   const x = 1..2 dmapped new blockDist({1..2});\n\
C3 at 2:11   const x = n dmapped new blockDist({1..2});\n\
C3 at 2:9    var P: [n] int;\n\
C3 at 2:9    var P: [true] int;\n\
C3 at 2:9    var P: [A] int;\n\
C3 at 2:15   var P: [1..2, D] int;\n\
C3 at 2:9    var P: [D, 1..2] int;\n\
C3 at 2:34   const x = blockDist.createDomain(n);\n\
C3 at 2:41   const x = cyclicDist.createDomain(1..2, D);\n\
sound        var P: [D[1..2]] int; var Q: [A.domain] bool; var R: [r, q] int; var U: [{1..2}] int; var W: [(D)] int;\n\
sound        const x = blockDist.createDomain(D); const y = cyclicDist.createDomain(1..2, r); var P: [y] int; n = P[1, 1];\n\
C3 at 2:35   const x = D dmapped new blockDist(1);\n\
C3 at 2:47   const x = D dmapped new blockDist(boundingBox=1..8);\n\
C3 at 2:35   const x = D dmapped new blockDist(A);\n\
C3 at 2:45   const x = D dmapped new cyclicDist(startIdx=true);\n\
C3 at 2:36   const x = D dmapped new cyclicDist(D);\n\
C3 at 2:49   const x = E dmapped new cyclicDist(startIdx=(1, b));\n\
C3 at 2:59   for t in E do const x = E dmapped new cyclicDist(startIdx=t);\n\
C3 at 2:47   const x = D dmapped new cyclicDist(startIdx=D.high);\n\
C3 at 2:47   const x = D dmapped new cyclicDist(startIdx=S.lowBound);\n\
C3 at 2:47   const x = E dmapped new cyclicDist(startIdx=S.lowBound);\n\
C3 at 2:48   const x = D dmapped new cyclicDist(startIdx=(D.low));\n\
C3 at 2:47   const x = D dmapped new cyclicDist(startIdx=D.low + 1);\n\
C3 at 2:51   const x = E dmapped new cyclicDist(startIdx=(1, D.low));\n\
C3 at 2:60   const x = D dmapped new blockCycDist(startIdx=1, blocksize=b);\n\
C3 at 2:50   var x: domain(1) dmapped new cyclicDist(startIdx=b);\n\
sound        const x = D dmapped new blockDist(S); const y = D dmapped new cyclicDist(D.low); const w = D dmapped new cyclicDist(startIdx=S.low);\n\
sound        const v = D dmapped new cyclicDist(D[2..3].lowBound); const u = E dmapped new cyclicDist((1, 2)); const t = D dmapped new blockCycDist(startIdx=r.low, blocksize=D.low);\n\
sound        const x = D dmapped new cyclicDist(A.domain.low); const y = E dmapped new blockDist(B.domain); const w = D dmapped new blockDist(V[1..3]);\n\
C3 at 2:17   config const x: domain(1) = D;\n\
C3 at 2:17   config const x: [D] int;\n\
C3 at 2:17   config const x: sync int;\n\
C3 at 2:18   config const x = 1..2;\n\
C3 at 2:18   config const x = {1..2};\n\
C3 at 2:18   config const x = blockDist.createDomain(1..2);\n\
C3 at 2:18   config const x = here;\n\
sound        config const x: int; config const y = true; config const w: bool = false;\n\
C6 at 2:18   forall i in D do A[1] = 1;\n\
C6 at 2:18   forall i in D do A[i + 1] = 1;\n\
C6 at 2:18   forall i in D do A(i + 1) = 1;\n\
C6 at 2:18   forall i in D do A[k] = 1;\n\
C6 at 2:18   forall i in D do A[x] = 1;\n\
C6 at 2:18   forall i in D do A = 1;\n\
C6 at 2:18   forall i in D do A += 1;\n\
C6 at 2:18   forall i in D do A[1] += 1;\n\
C6 at 2:23   forall (i, j) in E do B[j, i] = 1;\n\
C6 at 2:23   forall (i, j) in E do B[i, i] = 1;\n\
C6 at 2:23   forall (i, j) in E do A[i] = 1;\n\
C6 at 2:18   forall i in D do B[i, 1] = 1;\n\
C6 at 2:18   forall t in E do B[t, 1] = 1;\n\
C6 at 2:18   forall t in E do B[1, 1] = 1;\n\
C6 at 2:32   forall i in D do for j in D do A[j] = 1;\n\
C6 at 2:32   for i in D do forall j in D do A[i] = 1;\n\
C6 at 2:30   forall i in D { const i = 1; A[i] = 2; }\n\
C6 at 2:27   forall i in D { if b then A[1] = 2; }\n\
C6 at 2:27   forall i in D { A[i] = 1; A[1] = 2; }\n\
C6 at 2:18   forall i in D do A[i + 0] = 1;\n\
C6 at 2:32   for t in E do forall u in E do B[t] = 1;\n\
sound        forall i in D do A[i] = i;\n\
sound        forall i in D do A[(i)] = ((i));\n\
sound        forall (i, j) in E do B(i, j) = 1;\n\
sound        forall (i, j) in E do B[(i), ((j))] += 1;\n\
sound        forall t in E { B[t] = 1; B[(t)] += B[t]; }\n\
sound        forall i in 1..8 { A[i] = 1; G[i] = A[i]; F[i] = true; }\n\
C7 at 2:25   forall i in D do A[i] = A[i - 1];\n\
C7 at 2:29   forall i in D do A[i] = 1 + A[i + 1];\n\
C7 at 2:25   forall i in D do A[i] = A[1];\n\
C7 at 2:25   forall i in D do A[i] = A(i - 1);\n\
C7 at 2:26   forall i in D do A[i] = (A)[1];\n\
C7 at 2:27   forall i in D { const x = A[i + 1]; A[i] = x; }\n\
C7 at 2:27   forall i in D do A[i] = C[A[1]];\n\
C7 at 2:41   forall i in D { A[i] = 1; A[i] = C[2] + A[C[1]]; }\n\
C7 at 2:20   forall i in D { if A[1] == 0 then A[i] = 1; }\n\
C7 at 2:30   forall i in D do for j in 1..A[1] do A[i] = j;\n\
C7 at 2:42   forall i in D { for j in 1..2 do A[i] += A[j]; }\n\
C7 at 2:33   forall (i, j) in E do B[i, j] = B[j, i];\n\
C7 at 2:25   forall i in D do A[i] = A[x];\n\
C7 at 2:25   forall i in D do A[i] = A + nope;\n\
C7 at 2:32   forall i in D do A[i] = A[i] + A[i + 1];\n\
C7 at 2:52   forall i in D { A[i] = 1; { const i = 2; const x = A[i]; } }\n\
sound        forall i in D do A[i] = A[i] + A((i)) + C[i + 1];\n\
sound        forall i in D { A[i] = 1; for j in A.domain do ; }\n\
sound        forall i in D { const x = A[1]; }\n\
C7 at 2:9    A = C + A[1];\n\
C7 at 2:5    A = A[1] + C;\n\
C3 at 2:10   A = A[1] + F;\n\
C1 at 2:11   A = C + A[x];\n\
C7 at 2:10   A += C * A(2);\n\
C7 at 2:11   A = A + C[A[1]];\n\
C7 at 2:10   A = C + (A)[1];\n\
sound        A = A[1]; A += A[1]; A = A[1] + C[2];\n\
sound        A = A + C[1]; A = A * A;\n\
C9 at 2:18   forall i in D do write(i);\n\
C9 at 2:18   forall i in D do writeln();\n\
C9 at 2:18   forall i in D do forall j in D do ;\n\
C9 at 2:18   forall i in D do coforall j in r do ;\n\
C9 at 2:27   forall i in D { const x = + reduce C; }\n\
C9 at 2:27   forall i in D { while 3 < + reduce C do ; }\n\
C9 at 2:18   forall i in D do c.writeEF(1);\n\
C9 at 2:18   forall i in D do c.reset();\n\
C9 at 2:27   forall i in D { const x = c.readFE(); }\n\
C9 at 2:27   forall i in D { const x = c.readFE() + 1; }\n\
C9 at 2:18   forall i in D do on h do ;\n\
C9 at 2:27   forall i in D { const x = here.id; }\n\
C9 at 2:18   forall i in D do var P: [D] int;\n\
C9 at 2:18   forall i in D do var x: domain(1);\n\
C9 at 2:18   forall i in D do var x: sync int;\n\
C9 at 2:18   forall i in D do const x = {1..2};\n\
C9 at 2:18   forall i in D do const x = D;\n\
C9 at 2:18   forall i in D do const x = D dmapped new blockDist(D);\n\
C9 at 2:18   forall i in D do const x = blockDist.createDomain(1..2);\n\
C9 at 2:18   forall i in D do const x = y dmapped new blockDist(D);\n\
C9 at 2:35   forall i in D { if b { while b do write(1); } }\n\
C9 at 2:34   forall i in D { for j in 1..2 do write(j); }\n\
C9 at 2:34   forall i in D { if b then ; else write(1); }\n\
C3 at 2:32   forall i in D do const x = {1..true};\n\
C3 at 2:31   forall i in D do var x: int = {1..2};\n\
C3 at 2:33   forall i in D do var x: int = 1 dmapped new blockDist(D);\n\
C3 at 2:33   forall i in D do const x: int = blockDist.createDomain(1..2);\n\
C9 at 2:18   forall i in D do var x: domain(1) = D dmapped new blockDist(D);\n\
sound        forall i in D { const x = 1..i; const y = numLocales; const w = Locales[0]; const v = D[1..2].size; for j in x do ; while false do ; }\n\
sound        forall i in 1..(+ reduce A) do ;\n\
C9 at 2:9    A = A + + reduce C;\n\
C9 at 2:6    A = (+ reduce C) * A;\n\
C3 at 2:18   A = (+ reduce C) * F;\n\
C3 at 2:24   const x = (+ reduce A) * F;\n\
C9 at 2:6    A = (+ reduce C) + A + F;\n\
C9 at 2:10   A = A + (+ reduce C) + F;\n\
C9 at 2:10   var x = (+ reduce C) + A + F;\n\
C9 at 2:19   var P: [D] int = (+ reduce C) + A + F;\n\
C9 at 2:6    n = (+ reduce C) + 1 + A + F;\n\
C9 at 2:10   n = 2 * (+ reduce C) + A + F;\n\
C9 at 2:7    A = ((+ reduce C) + 1) * A + F;\n\
C9 at 2:16   A = (A + C) * (+ reduce C);\n\
C9 at 2:11   A = A * ((+ reduce C) + 1);\n\
C9 at 2:5    if (+ reduce C) + A + F == 0 then ;\n\
C9 at 2:8    write((+ reduce C) + A + F);\n\
C9 at 2:16   n = + reduce ((max reduce C) + A + F);\n\
C9 at 2:28   forall i in D { const x = (+ reduce C) + A + F; }\n\
C3 at 2:18   A = (+ reduce C) + F + A;\n\
C3 at 2:7    A = A + F + (+ reduce C);\n\
C3 at 2:27   A = A + C + ((+ reduce C) + true);\n\
C3 at 2:8    A = (A + F) * (+ reduce C);\n\
C3 at 2:22   n = (+ reduce C) + 1 + true;\n\
C3 at 2:29   forall i in D { const x = A + F + (+ reduce C); }\n\
sound        n = (+ reduce C) + 1; A = (+ reduce C) * 2 - 1;\n\
C9 at 2:19   n = + reduce (A * max reduce C);\n\
C9 at 2:11   A = A + C[+ reduce C];\n\
C9 at 2:22   var P: [D] int = A - min reduce C;\n\
C9 at 2:51   const x = D dmapped new blockDist(boundingBox={1..+ reduce A});\n\
C9 at 2:45   const x = D dmapped new cyclicDist(startIdx=+ reduce A);\n\
C9 at 2:49   const x = E dmapped new cyclicDist(startIdx=(1, + reduce A));\n\
C9 at 2:41   const x = D dmapped new blockCycDist(1, + reduce A);\n\
C9 at 2:44   var x: domain(1) dmapped new blockDist({1..+ reduce A});\n\
C9 at 2:21   write(+ reduce (A * max reduce C));\n\
C9 at 2:19   if (+ reduce (A - min reduce C)) == 0 then ;\n\
sound        A = + reduce C; A[1] = 1 + (+ reduce C); n = (+ reduce A) + (* reduce C);\n\
sound        const x = blockDist.createDomain(1..(+ reduce A));\n\
C10 at 2:20  coforall i in r do n = 1;\n\
C10 at 2:20  coforall i in r do n += 1;\n\
C10 at 2:20  coforall i in r do A[i] = 1;\n\
C10 at 2:20  coforall i in r do A = 1;\n\
C10 at 2:20  coforall i in r do V = {1..2};\n\
C10 at 2:20  coforall i in r do h = here;\n\
C10 at 2:20  coforall i in r do z = 1..2;\n\
C10 at 2:20  coforall i in r do c = 1;\n\
C10 at 2:20  coforall i in r do n[1] = 2;\n\
C10 at 2:28  coforall i in r do on h do n = 1;\n\
C10 at 2:36  coforall i in r { for j in 1..2 do n = j; }\n\
C10 at 2:20  coforall i in r do write(i);\n\
C10 at 2:20  coforall i in r do write(c.readFE());\n\
C10 at 2:20  coforall i in r do forall j in D do ;\n\
C10 at 2:20  coforall i in r do coforall j in r do ;\n\
C10 at 2:29  coforall i in r { const x = + reduce A; }\n\
C10 at 2:26  coforall i in r { if 1 < + reduce A then ; }\n\
C10 at 2:31  coforall i in r { for j in 1..+ reduce A do ; }\n\
C10 at 2:30  coforall i in r { on Locales[+ reduce A] do ; }\n\
C10 at 2:30  coforall i in r do c.writeEF(+ reduce A);\n\
C10 at 2:38  coforall i in r { var x = 0; x = 1 + + reduce A; }\n\
C10 at 2:20  coforall i in r do var P: [D] int;\n\
C10 at 2:20  coforall i in r do const x = {1..2};\n\
C3 at 2:35   coforall i in r do var x: int = 1 dmapped new blockDist(D);\n\
C10 at 2:20  coforall i in r do var x: domain(1) = D dmapped new blockDist(D);\n\
C10 at 2:20  coforall i in r do var x: domain(2);\n\
C10 at 2:20  coforall i in r do var x: sync bool;\n\
C10 at 2:23  coforall i in r with (+ reduce n) do ;\n\
C10 at 2:30  coforall i in r with (ref b, + reduce n) do ;\n\
sound        coforall i in r with (ref n, ref c) { var x = 0; x += i; c.writeEF(i); const y = c.readFE(); on Locales[0] do x = here.id; const w = 1..2; for j in w do x += A[j]; }\n\
C12 at 2:5   n = c;\n\
C12 at 2:9   n = 1 + c;\n\
C12 at 2:6   n = -c;\n\
C12 at 2:11  const x = c;\n\
C12 at 2:7   n = A[c];\n\
C12 at 2:5   n = c.size;\n\
C12 at 2:5   n = c[1];\n\
C12 at 2:7   write(c);\n\
C12 at 2:4   if f then ;\n\
C12 at 2:13  for i in 1..c do ;\n\
C12 at 2:4   on c do ;\n\
C12 at 2:1   c = 1;\n\
C12 at 2:1   c += 1;\n\
C12 at 2:1   c[1] = 1;\n\
C12 at 2:18  forall i in D do c = 1;\n\
C12 at 2:30  forall i in D with (+ reduce c) do ;\n\
C12 at 2:5   n = c.readFE() + 1;\n\
C12 at 2:6   n = (c.readFE());\n\
C12 at 2:7   n = A[c.readFE()];\n\
C12 at 2:3   A[c.readFE()] = 1;\n\
C12 at 2:7   while f.readFE() do ;\n\
C12 at 2:13  for i in 1..c.readFF() do ;\n\
C12 at 2:11  c.writeEF(c.readFE());\n\
C12 at 2:11  write(1 + c.readFE());\n\
C12 at 2:5   n = c.readFE().size;\n\
C12 at 2:36  const x = D dmapped new cyclicDist(c.readFE());\n\
C12 at 2:6   n = (c).readFE();\n\
sound        n = c.readFE(); n += c.readFF(); A[1] = c.readFE(); A = c.readFE(); var x = c.readFE(); var y: int = c.readFF(); var w: sync int = c.readFE(); b = f.readFE(); var P: [D] bool = f.readFF(); c.readFE(); c.reset(); write(c.readFE(), f.readFF());\n\
C1 at 2:5    n = x;\n\
C1 at 2:1    x = 1;\n\
C1 at 2:1    x[1] = 1;\n\
C1 at 2:1    x.reset();\n\
C1 at 2:5    n = x.readFE();\n\
C1 at 2:30   forall i in D with (+ reduce x) do ;\n\
C1 at 2:25   forall i in D with (ref x) do ;\n\
C1 at 2:5    n = x[1];\n\
C1 at 2:9    var P: [x] int;\n\
C1 at 2:13   for i in 1..x do ;\n\
C1 at 2:18   for i in 1..2 by x do ;\n\
C1 at 2:9    var x = x;\n\
C1 at 2:20   { var x = 1; } n = x;\n\
C1 at 2:21   for i in D do ; n = i;\n\
C1 at 2:27   while b do var x = 1; n = x;\n\
C1 at 2:42   if b then var x = 1; else var y = 2; n = x;\n\
C1 at 2:31   if b then var x = 1; else n = x;\n\
C1 at 2:10   for i in i..3 do ;\n\
C1 at 2:10   write(1, x);\n\
C1 at 2:7    while x do ;\n\
C1 at 2:4    on x do ;\n\
C1 at 2:52   const P = {1..2} dmapped new blockDist(boundingBox=x);\n\
C1 at 2:50   const P = {1..2} dmapped new cyclicDist(startIdx=x);\n\
C1 at 2:65   const P = {1..2} dmapped new blockCycDist(startIdx=1, blocksize=x);\n\
C1 at 2:34   const P = blockDist.createDomain(x);\n\
C1 at 2:20   const P = D.expand(x);\n\
C1 at 2:16   b = D.contains(x);\n\
C1 at 2:3    A[x] = 1;\n\
C1 at 2:11   c.writeEF(x);\n\
C1 at 2:12   n = true + x;\n\
C1 at 2:7    n = B[x];\n\
C1 at 2:5    n = x + y;\n\
sound        { var n = true; b = n; }\n\
sound        for i in D do var i = true;\n\
sound        for i in D { var i = true; b = i; }\n\
sound        var i = 3; for i in i..5 do n = i;\n\
sound        var i = 3; forall i in D with (+ reduce i) do ;\n\
C3 at 2:36   var i = true; for i in 1..2 do b = i;\n\
C2 at 2:16   var x = 1; var x = 2;\n\
C2 at 2:20   { const x = 1; var x: bool; }\n\
C2 at 2:29   for i in D { var x = 1; var x = 1; }\n\
C2 at 2:5    var n: int;\n\
C2 at 2:5    var n = true + 1;\n\
C2 at 2:9    for (i, i) in E do ;\n\
C2 at 2:12   for (i, j, i) in T do ;\n\
C2 at 2:12   forall (i, i) in E do ;\n\
C2 at 2:42   forall i in D with (+ reduce n, * reduce n) do ;\n\
C2 at 2:37   forall i in D with (ref n, + reduce n) do ;\n\
C2 at 2:34   coforall i in r with (ref n, ref n) do ;\n\
C4 at 2:1    k = 1;\n\
C4 at 2:1    k += 1;\n\
C4 at 2:1    m = 1;\n\
C4 at 2:15   for i in D do i = 1;\n\
C4 at 2:21   for x in Locales do x = here;\n\
C4 at 2:15   for t in E do t = 1;\n\
C4 at 2:1    D = {1..2};\n\
C4 at 2:1    r = 1..2;\n\
C4 at 2:19   const P: [D] int; P[1] = 2;\n\
C4 at 2:19   const P: [D] int; P = 2;\n\
C4 at 2:17   const x = here; x = here;\n\
C4 at 2:20   const x: sync int; x = 1;\n\
C4 at 2:1    k[1] = 2;\n\
C4 at 2:1    k = true;\n\
C4 at 2:18   forall i in D do k = 1;\n\
C4 at 2:20   coforall i in r do k = 1;\n\
C4 at 2:18   forall i in D do i = 1;\n\
C4 at 2:20   coforall i in r do i = 1;\n\
C4 at 2:30   forall i in D with (+ reduce k) do ;\n\
C4 at 2:30   forall i in D with (+ reduce m) do ;\n\
C4 at 2:44   for i in D do forall j in D with (+ reduce i) do ;\n\
C4 at 2:49   const x: sync int; forall i in D with (+ reduce x) do ;\n\
C4 at 2:25   forall i in D with (ref k) do ;\n\
C4 at 2:25   forall i in D with (ref D) do ;\n\
sound        const x: sync int; x.writeEF(1);\n\
sound        const x: sync int; forall i in D with (ref x) do ;\n\
sound        forall i in D with (ref n, ref b, ref A, ref V, ref z, ref h, ref c) do ;\n\
sound        { var x = 1; } { var x = true; }\n\
C3 at 2:10   n = true + 1;\n\
C3 at 2:7    n = 1 + true;\n\
C3 at 2:7    n = b - 1;\n\
C3 at 2:7    n = 1 * b;\n\
C3 at 2:7    n = b / 1;\n\
C3 at 2:7    n = 1 % b;\n\
C3 at 2:7    b = 1 < b;\n\
C3 at 2:7    b = b <= 1;\n\
C3 at 2:7    b = b > b;\n\
C3 at 2:7    b = 1 >= b;\n\
C3 at 2:7    b = 1 == b;\n\
C3 at 2:10   b = here != here;\n\
C3 at 2:7    b = r == r;\n\
C3 at 2:7    b = 1 && b;\n\
C3 at 2:7    b = b || 1;\n\
C3 at 2:5    n = -b;\n\
C3 at 2:5    n = -r;\n\
C3 at 2:5    b = !n;\n\
C3 at 2:11   n = 1 + 2 - b;\n\
C3 at 2:15   n = true + (1 + false);\n\
C3 at 2:11   n = 1 + b * 2;\n\
C3 at 2:8    n = (D + 1).size;\n\
C3 at 2:21   for t in E do n = t + 1;\n\
C3 at 2:7    n = 1 + r;\n\
C3 at 2:21   for t in E do n = 1 + t;\n\
C3 at 2:7    b = 1 == r;\n\
C3 at 2:7    b = b != 1;\n\
C3 at 2:7    b = D < V;\n\
C3 at 2:7    b = h && b;\n\
C3 at 2:7    A = A + F;\n\
C3 at 2:7    A = A + G;\n\
C3 at 2:7    A = A * B;\n\
C3 at 2:11   A = A + C - G;\n\
C3 at 2:7    F = F && F;\n\
C3 at 2:7    F = F || b;\n\
C3 at 2:7    F = A == F;\n\
C3 at 2:5    F = !A;\n\
C3 at 2:5    A = -F;\n\
sound        A = A + C * 2 - n;\n\
sound        G = G + G;\n\
sound        F = A < C;\n\
sound        F = F != b;\n\
sound        F = !F; A = -A;\n\
C3 at 2:39   forall i in 1..2 with (+ reduce n) { n[1] += 1; }\n\
C3 at 2:5    n = + reduce n;\n\
C3 at 2:5    n = max reduce r;\n\
C3 at 2:5    n = + reduce D;\n\
C3 at 2:5    n = min reduce A[1];\n\
C3 at 2:5    n = + reduce F;\n\
C3 at 2:5    n = * reduce F;\n\
C3 at 2:5    n = & reduce F;\n\
C3 at 2:5    n = | reduce F;\n\
C3 at 2:5    n = ^ reduce F;\n\
C3 at 2:5    n = min reduce F;\n\
C3 at 2:5    n = max reduce F;\n\
C3 at 2:5    b = && reduce A;\n\
C3 at 2:5    b = || reduce (A + 1);\n\
C3 at 2:5    n = + reduce + reduce A;\n\
sound        b = && reduce (A < 3);\n\
sound        n = + reduce (A * C);\n\
sound        n = (+ reduce A) + (* reduce A) + (& reduce A) + (| reduce A) + (^ reduce A) + (min reduce A) + (max reduce A); b = && reduce F; b = || reduce F;\n\
sound        while + reduce A < 3 do ;\n\
C3 at 2:11   const x = true..2;\n\
C3 at 2:14   const x = 1..true;\n\
C3 at 2:15   const x = 1..<b;\n\
C3 at 2:15   const x = 1..#b;\n\
C3 at 2:19   const x = 1..2 by b;\n\
C3 at 2:11   const x = r..2;\n\
C3 at 2:14   const x = 1..A;\n\
C3 at 2:12   const x = {1};\n\
C3 at 2:18   const x = {1..2, 3};\n\
C3 at 2:12   const x = {D};\n\
C3 at 2:12   const x = {A + 1};\n\
C8 at 2:18   forall i in D do n = 1;\n\
C8 at 2:18   forall i in D do n += i;\n\
C8 at 2:18   forall i in D do b = true;\n\
C8 at 2:18   forall i in D do h = Locales[0];\n\
C8 at 2:18   forall i in D do V = {1..2};\n\
C8 at 2:36   forall i in D with (+ reduce n) do n = 1;\n\
C8 at 2:36   forall i in D with (+ reduce n) do n -= 1;\n\
C8 at 2:36   forall i in D with (+ reduce n) do n *= i;\n\
C8 at 2:36   forall i in D with (* reduce n) do n += i;\n\
C8 at 2:38   forall i in D with (max reduce n) do n += i;\n\
C8 at 2:36   forall i in D with (^ reduce n) do n += i;\n\
C8 at 2:38   forall i in D with (min reduce n) do n += i;\n\
C8 at 2:36   forall i in D with (& reduce n) do n += i;\n\
C8 at 2:36   forall i in D with (| reduce n) do n += i;\n\
C8 at 2:37   forall i in D with (&& reduce b) do b += i;\n\
C8 at 2:37   forall i in D with (|| reduce b) do b += i;\n\
C8 at 2:38   forall i in D with (max reduce n) do n *= i;\n\
C8 at 2:38   forall i in D with (min reduce n) do n *= i;\n\
C8 at 2:36   forall i in D with (^ reduce n) do n *= i;\n\
C8 at 2:37   forall i in D with (&& reduce b) do b *= i;\n\
C8 at 2:37   forall i in D with (|| reduce b) do b *= i;\n\
C8 at 2:36   forall i in D with (& reduce n) do n *= i;\n\
C8 at 2:36   forall i in D with (| reduce n) do n *= i;\n\
C8 at 2:36   forall i in D with (+ reduce n) do n /= 2;\n\
C8 at 2:36   forall i in D with (+ reduce n) do n %= 2;\n\
C8 at 2:36   forall i in D with (* reduce n) do n /= 2;\n\
C8 at 2:41   forall i in D with (+ reduce n) do n += n;\n\
C8 at 2:45   forall i in D with (+ reduce n) { const x = n; }\n\
C8 at 2:38   forall i in D with (+ reduce n) { if n > 0 then ; }\n\
C8 at 2:47   forall i in D with (+ reduce n) { const x = C[n]; }\n\
C8 at 2:47   forall i in D with (+ reduce n) { for j in 1..n do ; }\n\
C8 at 2:36   forall i in D with (+ reduce n) do b = true;\n\
C8 at 2:18   forall i in D do n[1] = 2;\n\
C8 at 2:18   forall i in D do n reduce= 1;\n\
C8 at 2:31   forall i in D with (ref n) do n = 1;\n\
C8 at 2:34   forall i in D { for j in 1..2 do n += j; }\n\
C8 at 2:28   forall i in D { while b do n = 1; }\n\
C8 at 2:42   for x in D { var w = 0; forall i in D do w = i; }\n\
sound        forall i in D with (+ reduce n) do n += i;\n\
sound        forall i in D with (+ reduce n) do n reduce= i;\n\
sound        forall i in D with (* reduce n) do n *= i;\n\
sound        forall i in D with (max reduce n, && reduce b) { n reduce= i; b reduce= i < 3; }\n\
sound        forall i in D { var x = 0; x = i; x += 1; const y = x; }\n\
sound        forall i in D { var n = 0; n = i; }\n\
sound        forall i in 1..n with (+ reduce n) do n += 1;\n\
sound        forall i in D with (+ reduce n) { const n = 1; const x = n; }\n\
C3 at 2:6    n = n[1];\n\
C3 at 2:6    n = 1[2];\n\
C3 at 2:20   for t in E do n = t[1];\n\
C3 at 2:9    n = here[1];\n\
C3 at 2:12   n = (A + C)[1];\n\
C3 at 2:6    n = r(1);\n\
C3 at 2:12   const x = D(1);\n\
C3 at 2:6    b = b(1);\n\
C3 at 2:12   n = Locales(0).id;\n\
C3 at 2:9    n = A[1][2];\n\
sound        n = A[1] + A(2) + B[1, 2] + B(1, 2) + (A)[1];\n\
sound        for t in E do n = B[t] + B((t));\n\
C3 at 2:13   const x = r[1];\n\
C3 at 2:13   const x = r[q];\n\
C3 at 2:13   const x = D[1..4 by 2];\n\
C3 at 2:13   const x = D[V];\n\
C3 at 2:19   const x = E[1..2, 1];\n\
C3 at 2:7    n = A[true];\n\
C3 at 2:7    n = A[1..2];\n\
C3 at 2:7    n = A[r];\n\
C3 at 2:7    n = A[D];\n\
C3 at 2:7    n = A[A];\n\
C3 at 2:10   n = B[1, b];\n\
C3 at 2:10   n = B(1, b);\n\
C3 at 2:21   for t in E do n = B[t, 1];\n\
C3 at 2:13   n = Locales[b].id;\n\
sound        const x = r[2..3]; const y = q[1..2]; const w = D[r]; const v = E[1..2, r]; const u = S[1..3];\n\
C3 at 2:7    n = A.size;\n\
C3 at 2:7    n = n.size;\n\
C3 at 2:10   n = here.size;\n\
C3 at 2:7    n = D.first;\n\
C3 at 2:7    n = D.last;\n\
C3 at 2:7    n = D.low;\n\
C3 at 2:7    n = D.high;\n\
C3 at 2:7    n = D.lowBound;\n\
C3 at 2:7    n = r.lowBound;\n\
C3 at 2:7    n = A.low;\n\
C3 at 2:13   const x = D.domain;\n\
C3 at 2:13   const x = n.domain;\n\
C3 at 2:19   const x = (A + C).domain;\n\
C3 at 2:7    n = n.id;\n\
C3 at 2:13   const x = r.dim(0);\n\
C3 at 2:13   const x = A.dim(0);\n\
C3 at 2:7    b = A.contains(1);\n\
C3 at 2:7    b = n.contains(1);\n\
C3 at 2:13   const x = S.expand(1);\n\
C3 at 2:13   const x = r.expand(1);\n\
C3 at 2:20   const x = D.expand(b);\n\
C3 at 2:16   b = D.contains(b);\n\
C3 at 2:16   b = r.contains(r);\n\
C3 at 2:19   b = E.contains(1, b);\n\
C3 at 2:7    n = n.readFE();\n\
C3 at 2:7    n = A.readFF();\n\
C3 at 2:13   n = Locales.size;\n\
C3 at 2:10   n = A[1].size;\n\
sound        n = r.size + r.first + q.last + r.low + q.high; b = q.contains(n);\n\
sound        n = D.size; b = E.contains(1, 2); const x = E.dim(1); const y = D.expand(-1); n = here.id + Locales[0].id + h.id;\n\
sound        for t in E do b = E.contains(t);\n\
sound        const x = S.dim(0); for i in x do ;\n\
sound        const x = A.domain; n = (A).domain.size + x.size;\n\
C3 at 2:11   const x = Locales;\n\
C3 at 2:9    n = 1 + Locales;\n\
C3 at 2:5    n = Locales + 1;\n\
C3 at 2:11   for x in (Locales) do ;\n\
C3 at 2:6    n = (Locales)[0].id;\n\
C3 at 2:4    on Locales do ;\n\
C3 at 2:7    write(Locales);\n\
C3 at 2:13   for i in 0..Locales do ;\n\
C5 at 2:5    n = A[1, 2];\n\
C5 at 2:5    n = B[1];\n\
C5 at 2:5    n = B(1);\n\
C5 at 2:5    n = A(1, 2);\n\
C5 at 2:5    n = B[1, 2, 3];\n\
C5 at 2:19   for t in T do n = B[t];\n\
C5 at 2:19   for t in E do n = A[t];\n\
C5 at 2:5    n = B[true];\n\
C5 at 2:7    n = (A)[1, 2];\n\
C5 at 2:5    n = A[x, 1];\n\
C5 at 2:11   const x = D[1..2, 1..2];\n\
C5 at 2:11   const x = E[1..2];\n\
C5 at 2:11   const x = E[n];\n\
C5 at 2:19   for t in E do n = E[t].size;\n\
C5 at 2:11   const x = r[1..2, 1..2];\n\
C5 at 2:17   const x = D[1..2][1..2, 1..2];\n\
C5 at 2:21   const x = D.expand(1)[1..2, 1..2];\n\
C5 at 2:18   const x = E.dim(0)[1..2, 1..2];\n\
C5 at 2:13   const x = A.domain[1..2, 1..2];\n\
C5 at 2:16   const x = {1..2}[1..2, 3..4];\n\
C5 at 2:5    n = Locales[1, 2].id;\n\
C5 at 2:7    b = D.contains(1, 2);\n\
C5 at 2:7    b = E.contains(1);\n\
C5 at 2:7    b = r.contains(1, 2);\n\
C5 at 2:21   for t in E do b = D.contains(t);\n\
C5 at 2:1    A[1, 2] = 3;\n\
C5 at 2:1    B(1) = 3;\n\
C5 at 2:15   for t in E do A[t] = 1;\n\
C5 at 2:18   forall i in D do A[i, i] = 1;\n\
C5 at 2:5    for (i, j) in D do ;\n\
C5 at 2:5    for (i, j) in T do ;\n\
C5 at 2:5    for (i, j) in r do ;\n\
C5 at 2:5    for (i, j) in Locales do ;\n\
C5 at 2:8    forall (i, j, l) in E do ;\n\
C5 at 2:10   coforall (i, j) in r do ;\n\
C5 at 2:17   const x = D.dim(1);\n\
C5 at 2:17   const x = E.dim(2);\n\
C5 at 2:15   var x: domain(4);\n\
C5 at 2:15   var x: domain(0);\n\
C5 at 2:11   const x = {1..2, 1..2, 1..2, 1..2};\n\
C5 at 2:8    var P: [1..2, 1..2, 1..2, 1..2] int;\n\
C5 at 2:33   const x = blockDist.createDomain(1..2, 1..2, 1..2, 1..2);\n\
C5 at 2:25   const x = D dmapped new blockDist(boundingBox={1..2, 1..2});\n\
C5 at 2:25   const x = E dmapped new cyclicDist(startIdx=1);\n\
C5 at 2:25   const x = D dmapped new cyclicDist(startIdx=(1, 2));\n\
C5 at 2:25   const x = T dmapped new cyclicDist((1, 2));\n\
C5 at 2:25   const x = E dmapped new cyclicDist(startIdx=D.low);\n\
C5 at 2:25   const x = E dmapped new cyclicDist(startIdx=S.low);\n\
C5 at 2:25   const x = D dmapped new cyclicDist(startIdx=E.lowBound);\n\
C5 at 2:25   const x = D dmapped new blockCycDist(startIdx=1, blocksize=(1, 2));\n\
C5 at 2:25   const x = E dmapped new blockCycDist(startIdx=1, blocksize=(1, 2));\n\
C5 at 2:30   var x: domain(2) dmapped new blockDist({1..2});\n\
C1 at 2:1    x = 1; n = true;\n\
C9 at 2:28   forall i in D { var y = 1; var y: [D] int; }\n\
C4 at 2:32   for i in D do forall j in D do i = 1;\n\
C3 at 2:5    n = true;\n\
C3 at 2:5    b = 1;\n\
C3 at 2:5    n = A;\n\
C3 at 2:5    n = r;\n\
C3 at 2:5    n = h;\n\
C3 at 2:5    n = f.readFE();\n\
C3 at 2:5    h = 1;\n\
C3 at 2:5    A = b;\n\
C3 at 2:5    A = F;\n\
C3 at 2:5    A = G;\n\
C3 at 2:5    A = A < C;\n\
C3 at 2:5    B = A;\n\
C3 at 2:5    A = D;\n\
C3 at 2:8    A[1] = true;\n\
C3 at 2:8    A[1] = C;\n\
C3 at 2:5    V = {1..2, 1..2};\n\
C3 at 2:5    V = {1..8 by 2};\n\
C3 at 2:5    V = S;\n\
C3 at 2:5    V = 1..2;\n\
C3 at 2:23   var x: domain(1); x = S;\n\
C3 at 2:5    E = A.domain;\n\
C3 at 2:28   const x = {1..2 by 1}; V = x;\n\
C3 at 2:21   var P: [S] int; V = P.domain;\n\
sound        V = D; V = D[1..2]; E = {1..2, r}; var x = {1..8 by 2}; x = S; x = {1..2};\n\
sound        n = k + 1; b = n < 2; h = Locales[1]; A = 1; A = C; A = A[1]; F = A < 2; A[1] = n; B[1, 2] = A[1];\n\
C3 at 2:3    n += b;\n\
C3 at 2:3    b += 1;\n\
C3 at 2:3    b -= b;\n\
C3 at 2:3    n *= A;\n\
C3 at 2:3    n /= r;\n\
C3 at 2:3    n %= F;\n\
C3 at 2:3    A += F;\n\
C3 at 2:3    A += G;\n\
C3 at 2:3    A *= b;\n\
C3 at 2:3    F += 1;\n\
C3 at 2:3    F -= F;\n\
C3 at 2:6    A[1] += b;\n\
C3 at 2:6    F[1] += 1;\n\
C3 at 2:3    z = 1..2;\n\
C3 at 2:3    z += 1;\n\
C3 at 2:3    z reduce= 1;\n\
C3 at 2:3    V += {1..2};\n\
C3 at 2:3    h += 1;\n\
C3 at 2:3    n reduce= 1;\n\
C3 at 2:6    A[1] reduce= 1;\n\
C3 at 2:48   forall i in D with (+ reduce n) { var x = 0; x reduce= 1; }\n\
C3 at 2:46   forall i in D with (+ reduce n) do n reduce= true;\n\
C3 at 2:47   forall i in D with (&& reduce b) do b reduce= i;\n\
C3 at 2:38   forall i in D with (+ reduce n) do n += b;\n\
sound        n += 1; n *= k; A += 1; A *= C; A /= A[1]; A[1] %= n; n -= c.readFE();\n\
C3 at 2:2    n[1] = 2;\n\
C3 at 2:2    V[1] = 2;\n\
C3 at 2:2    z(1) = 2;\n\
C3 at 2:2    h[1] = 2;\n\
C3 at 2:3    A[b] = 1;\n\
C3 at 2:3    A[r] = 1;\n\
C3 at 2:3    A(C) = 1;\n\
C3 at 2:6    B[1, b] = 2;\n\
C3 at 2:3    n.reset();\n\
C3 at 2:3    A.writeEF(1);\n\
C3 at 2:3    z.readFE();\n\
C3 at 2:11   c.writeEF(true);\n\
C3 at 2:11   f.writeXF(1);\n\
C3 at 2:11   c.writeFF(A);\n\
C3 at 2:7    write(r);\n\
C3 at 2:12   write(\"x\", D);\n\
C3 at 2:7    write((A));\n\
C3 at 2:7    write(A + 1);\n\
C3 at 2:7    write(here);\n\
C3 at 2:21   for t in E do write(t);\n\
C3 at 2:4    if 1 then ;\n\
C3 at 2:4    if F then ;\n\
C3 at 2:7    while n do ;\n\
C3 at 2:4    on 1 do ;\n\
C3 at 2:4    on D do ;\n\
sound        writeln(\"x\", n, b, A, F, A[1], (n + 1), c.readFE(), numLocales, here.id); writeln();\n\
C3 at 2:10   for i in n do ;\n\
C3 at 2:10   for i in A do ;\n\
C3 at 2:10   for i in A + 1 do ;\n\
C3 at 2:13   forall i in Locales do ;\n\
C3 at 2:13   forall i in A do ;\n\
C3 at 2:15   coforall i in D do ;\n\
C3 at 2:15   coforall i in 3 do ;\n\
C3 at 2:30   forall i in D with (+ reduce b) do ;\n\
C3 at 2:31   forall i in D with (&& reduce n) do ;\n\
C3 at 2:30   forall i in D with (+ reduce A) do ;\n\
C3 at 2:30   forall i in D with (+ reduce z) do ;\n\
C3 at 2:30   forall i in D with (+ reduce V) do ;\n\
C3 at 2:32   forall i in D with (max reduce h) do ;\n\
sound        for i in 1..3 do ; for t in E do ; for (i, j) in E do n = i + j; for x in Locales do on x do ; for t in T do ; forall i in r do ; forall i in D[1..2] do ; coforall i in 1..2 do ; coforall x in Locales do c.readFF();\n\
";

pub const ALONE: &str = "\
C7 at 1:59   const D = {1..8}; var A: [D] int; forall i in D do A[i] = A[i-1];\n\
C10 at 1:35  var s: int; coforall k in 1..2 do s = k;\n\
C12 at 1:26  var c: sync int; writeln(c);\n\
C4 at 1:46   const c = 1; forall i in 1..2 with (+ reduce c) do c += i;\n\
C8 at 1:33   var s: int; forall i in 1..3 do s += i;\n\
C5 at 1:28   var A: [1..2] int; writeln(A[1,2]);\n\
sound        var s: int; forall i in 1..8 by 2 with (+ reduce s) do s += i*i; writeln(s);\n\
sound        var m: int = -7; forall i in 5..4 with (max reduce m) do m reduce= i; writeln(m);\n\
sound        var A: [1..0] int; writeln(max reduce A);\n\
sound        for i in 1..10 by -3 do write(i, \" \"); writeln();\n\
sound        const r = 1..10 by -3; for i in r[2..8] do write(i, \" \"); writeln(r[2..8].size);\n\
sound        const D = {1..8} dmapped new blockDist(boundingBox={1..8}); var A: [D] int; forall i in D do A[i] = i*i; writeln(+ reduce A); writeln(A);\n\
sound        const S = {0..4, 0..4}; const D: domain(2) dmapped new cyclicDist(startIdx=S.low) = S; var A: [D] int; var B: [D] int; forall (i,j) in D do A[i,j] = 10*i + j; forall (i,j) in D[1..3, 1..3] do B[i,j] = A[i-1,j] + A[i+1,j] + A[i,j-1] + A[i,j+1]; writeln(B);\n\
sound        const D = {1..8} dmapped new blockDist(boundingBox={1..8}); var A: [D] int; forall i in D do   A[i] = 12 / ((i-3)*(i-7));\n\
sound        const m = 9223372036854775807 + 1; writeln(m); writeln(m / -1, \" \", m % -1); writeln(-7 / 2, \" \", -7 % 2, \" \", 2 - -3 * 2);\n\
sound        while true do writeln(1);\n\
sound        var c: sync int; var t: sync int; coforall k in 0..1 { if k == 0 { for i in 1..3 do c.writeEF(i); } else { var s: int; for i in 1..3 do s += c.readFE(); t.writeEF(s); } } writeln(t.readFE());\n\
sound        var c: sync int; writeln(c.readFE());\n\
sound        var c: sync int; coforall k in 0..0 do c.writeFF(k);\n\
sound        var D = {1..4}; var A: [D] int; forall i in D do A[i] = i; D = {3..6}; writeln(A);\n\
sound        ;\n\
sound        write(5); writeln(1/0);\n\
sound        var A: [1..3] int; forall i in 1..4 do A[i] = i;\n\
sound        var A: [1..16777217] int;\n\
sound        const r = 1..#-1;\n\
sound        const r = 5..4; writeln(r.first);\n\
sound        var A: [1..2, 1..2, 1..2] int; forall (i,j,k) in A.domain do A[i,j,k] = 100*i + 10*j + k; writeln(A);\n\
sound        config const n = 4; writeln(n);\n\
sound        for loc in Locales do on loc do write(here.id, \" \"); writeln(numLocales);\n\
sound        on Locales[numLocales] do writeln(1);\n\
sound        var a: bool = true; var m: int = 100; forall i in 1..6 with (&& reduce a, min reduce m) { const d = (i - 4) * (i - 4); a reduce= d < 9; m reduce= d; } writeln(a, \" \", m);\n\
sound        var z: int; writeln(z != 0 && 1 / z > 0);\n\
sound        const D = {1..6}; const E = D.expand(-2); writeln(E.size, \" \", D[2..9].size, \" \", E.contains(3));\n\
sound        for (i,j) in {1..10 by 4, 0..1} do write(i, j, \" \"); writeln();\n\
sound        const D = {1..4}; const E = {1..4}; var A: [D] int; var B: [E] int; forall i in D { A[i] = i; B[i] = i; } writeln(B);\n\
sound        const D = {1..4}; var A: [D] int; var B: [D] int = 3; forall i in D do A[i] = i; B = A * B + 1; writeln(B); B += 2; writeln(max reduce (A - B));\n\
sound        var A: [1..3] int; A = 5 / A;\n\
sound        var A: [1..0] bool; writeln(&& reduce A);\n\
sound        const D = {1..3} dmapped new blockDist(boundingBox={1..1/0}); writeln(D.size);\n\
sound        var t: sync int = 0; coforall loc in Locales do on loc { const v = t.readFE(); t.writeEF(v + here.id); } writeln(t.readFF());\n\
sound        var D: domain(1) dmapped new blockDist(boundingBox={1..8}) = {1..4}; var A: [D] int = 7; const E = D[2..3]; D = {3..10}; forall i in D do A[i] += i; writeln(A); writeln(E.size);\n\
sound        const D: domain(2) dmapped new blockCycDist(startIdx=(0,0), blocksize=(2,2)) = {0..3, 0..3}; var A: [D] int; forall (i,j) in D do A[i,j] = 1 / ((10*i+j-10) * (10*i+j-3));\n\
C3 at 1:21   var D = {1..2}; D = {1..8 by 2};\n\
C3 at 1:16   var n = 1; n = true; m = 2; n = 1 + true;\n\
";
