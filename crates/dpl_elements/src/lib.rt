// Elements and whole arrays are assigned: one element, a row of elements, an array at each of its indices.
// What is assigned is evaluated as the language's meaning has it, and the memory afterwards is that of the meaning.
#![tactic(auto)]

mod apart;
mod crew;
mod element;
mod row;
mod whole;

pub use crew::Crew;
pub use element::{set_element, set_truth_element};
pub use row::{combine, put_along, put_row};
pub use whole::{WholeTurns, enter_array, set_array, set_truth_array};
