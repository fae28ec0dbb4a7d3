// The limits of a program, C13, and the sets of the command line, C14.
// How many names and cells are declared is told as breaches; whether sets fit is answered once a program has none.
#![tactic(auto)]

mod count;
mod sets;
mod value;

pub use count::{Count, Counts};
pub use sets::sets_fit;
pub use value::{int_in, name_and_value};
