// Trees of the whole language without what their meaning doesn't need: brackets go, a chain becomes a nest of two operands each, a value or
// a stride that is left out is written, and only places that a fault may tell are left. That they mean what the spelled trees mean is one
// induction (proofs/Runs.antt). Definitions, laws and worked rows alone: no code. Typed trees stand for lowered ones, and so do all that run.
#![tactic(auto)]
