// How many elements the foralls of a run read that other locales own: definitions alone.
// Nothing that a program writes hangs on them.
#![tactic(auto)]
