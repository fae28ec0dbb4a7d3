// What a text says: its refusal, or what its program writes and leaves.
// Definitions and laws alone stand here.
#![tactic(auto)]
