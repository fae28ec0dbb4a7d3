// Turns of foralls and of assignments to whole arrays, and which of them may be made apart. Definitions and laws alone stand here.
#![tactic(auto)]
