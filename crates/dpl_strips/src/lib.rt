// Strips: the ints of several indices at once, of an expression over whole arrays and of one in the turns of a loop; and truth values in turns.
// A strip says of each int that it has that it is the value at its index, and never how many it has: whoever asks for one goes on index by
// index where it has none, so that a fault and its turn are the walk's alone. It is read before the turns that write, so it must not see what
// they write. A promoted expression reads at the index that is written alone; an expression in a turn may read elsewhere, so it has no strip
// where it reads a word that turns write, or another element of an array of theirs than its own turn's (specs/Strips.antt: `IsSameAt`,
// `IsInOwnTurn`). What statements of the same turns have made of such an element is read in place of what the array has (`Target`).
#![tactic(auto)]

mod along;
mod apply;
mod pace;
mod strip;
mod target;
mod truth;
mod truth_strips;
mod turn_strips;

pub use along::{gather, rest_of};
pub use apply::repeat;
pub use strip::{promoted_ints, promoted_strip};
pub use target::{Target, is_written};
pub use truth_strips::turn_truths;
pub use turn_strips::{is_same, turn_ints, turn_row};
