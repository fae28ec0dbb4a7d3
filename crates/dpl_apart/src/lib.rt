// Loops whose turns keep apart: each has the row of its own index, and adds to the reduce variables. What they come to is put together
// from what the parts of the loop come to, in whatever order these are made. Definitions and laws alone stand here.
#![tactic(auto)]
