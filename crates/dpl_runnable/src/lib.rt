// Programs that run: what each of their statements is; and that one that a text spells, that breaks no rule and that needs
// nothing which doesn't run is such a program. With its names resolved by the scopes where they stand (`Bound`: a text, and the slot, kind and
// shape of the innermost declaration) it fits (`resolving` of dpl_memory), which is what the simulation of names by a memory asks for.
// Definitions and laws alone stand here.
#![tactic(auto)]
