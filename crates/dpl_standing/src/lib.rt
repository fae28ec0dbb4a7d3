// Where statements stand, outside of all foralls or in a turn of one; and that a program which breaks no rule prints and makes
// turns only where these may stand. Definitions and laws alone stand here.
#![tactic(auto)]
