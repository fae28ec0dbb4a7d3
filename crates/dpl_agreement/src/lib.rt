// When two ways to keep a program's variables agree, and that every program then runs alike by both.
// Definitions in specs/ and laws in proofs/ alone: no code.
#![tactic(auto)]
