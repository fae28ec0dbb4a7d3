// The grammar of programs: which trees tokens spell, and for what tokens are refused.
// Definitions in specs/ and what is proved of them in proofs/ alone: no code.
#![tactic(auto)]
