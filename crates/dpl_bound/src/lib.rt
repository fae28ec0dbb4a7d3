// Programs with their names resolved by the scopes where they stand: each name is its text, and the slot, kind and shape of its
// innermost declaration. Definitions and laws alone stand here.
#![tactic(auto)]
