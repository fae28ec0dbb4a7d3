// Heads of statements: conditions, what `on` stands before, what loops run over, and a loop's variables and intents.
// Each is judged, and what breaks no rule is made of what the judge found; the steps of statements with bodies are made of these.
#![tactic(auto)]

pub mod condition;
pub mod head;
pub mod intents;
pub mod steps;
pub mod variables;
