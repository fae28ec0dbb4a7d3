// Where the statements of a text stand: at places that rise in the order of the text, so that no two of them stand at one.
// Definitions and laws alone stand here.
#![tactic(auto)]
