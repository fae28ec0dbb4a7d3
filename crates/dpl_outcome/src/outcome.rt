// How a run comes out.
// Each outcome is one of the language's meaning.

use crate::left::Left;
use dpl_frame::Fault;
use dpl_syntax::Refusal;

/// How a run came out.
#[derive(Drop)]
pub enum Outcome {
    /// The program ran to its end, and left these variables.
    Done(Left),
    /// A fault stopped it.
    Stopped(Fault),
    /// The text isn't a program.
    Rejected(Refusal),
}
