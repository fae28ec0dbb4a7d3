// The frame of a run, and what a walk over it hands back.
// Read `Frame` first: what its slots hold is a memory of the language's meaning, however its arrays are kept (`Arrays`). `Alarm` is a fault in one word.
// An array has a word for each element, an int or a truth value by the array's kind, which the name's variable knows and no word does. Roots
// are of the memory; the map that each gets is kept beside it, and is no part of what a frame stands for (`maps_of`).
#![tactic(auto)]

pub mod arrays;
mod elements;
pub mod fault;
mod filled;
pub mod frame;
pub mod root;
pub mod share;
pub mod shares;
pub mod slots;
mod worker;

pub use arrays::Arrays;
pub use dpl_contents::{DomainWord, RangeWord};
pub use dpl_syntax::FaultCode;
pub use fault::{Alarm, Fault, Trap, Truth, Turn};
pub use frame::Frame;
pub use root::{Distribution, Root};
pub use share::Share;
pub use shares::Shares;
pub use slots::Slots;
pub use worker::PlainWords;
