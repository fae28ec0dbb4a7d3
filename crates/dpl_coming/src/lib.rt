// What is to come to a run, replies to operations on cells and histories of coforalls; what a walk over statements took of it and did; and
// the statements that see nothing of it. Definitions and laws alone.
#![tactic(auto)]
