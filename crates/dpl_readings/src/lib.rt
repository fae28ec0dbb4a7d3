// What typed statements are read as where they stand, in a turn of a forall or outside of all, and which array they write first: definitions
// and laws alone.
#![tactic(auto)]
