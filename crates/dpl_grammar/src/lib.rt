// Languages of tokens, readers of tokens, what a reader owes to the language that it reads, and rules of a grammar as data, which have all three.
// Definitions in specs/ and their laws in proofs/ alone: no code. A parser's grammar and its proof are made of them.
#![tactic(auto)]
