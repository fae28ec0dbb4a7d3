// Type soundness of the whole language's expressions: what has a type evaluates to a fault or to a value of that type.
// Definitions in specs/ and laws in proofs/ alone: no code. That each value that a run gives a name is one that the name may hold rests on
// them (proofs/Shaped.antt of dpl_runnable).
#![tactic(auto)]
