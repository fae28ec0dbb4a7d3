// The rules of the whole language that a program keeps beyond its grammar: names, types, ranks, and what loops may do.
// Definitions in specs/ and worked rows in proofs/ alone: no code. dpl_checker is proved against them.
#![tactic(auto)]
