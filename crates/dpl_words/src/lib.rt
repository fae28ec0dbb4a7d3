// Variables kept in words and ranges by slots, as a checked program keeps them: definitions and laws alone.
// Each word is a value of every kind, so that no step can leave a frame ill typed.
#![tactic(auto)]
