// Worked rows by text: what a text is refused for and what it writes, computed from its bytes on by the definitions.
// Rows in proofs/ alone: no code, and nothing that anything rests on.
#![tactic(auto)]
