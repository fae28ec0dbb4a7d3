// What of Chapel a refused text has and this profile hasn't, and the way round, in one line.
// The lines are a table (table.rt): a row says what stands at the place of the refusal and before it.
#![tactic(auto)]

mod find;
mod fits;
mod spelled;
mod table;

pub use find::hint;
