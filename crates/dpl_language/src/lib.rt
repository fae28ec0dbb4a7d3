// The whole language: its trees, its values and what its programs mean.
// Definitions in specs/ and worked rows in proofs/ alone: no code. What a text comes to, and so all that runs, is said in their terms.
#![tactic(auto)]
