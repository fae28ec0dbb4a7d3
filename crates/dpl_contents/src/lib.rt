// What a slot of a running program holds besides numbers: a range, a domain, and an array with a word for each element; and the pieces
// of an array, one for each locale.
// This is the table of contents; contracts speak of the language's values, and never of how they are kept.
#![tactic(auto)]

mod array;
mod dealt;
mod domain;
mod parts;
mod piece;
mod pieces;
mod print;
mod range;

pub use array::ArrayWords;
pub use dealt::WORTH;
pub use domain::DomainWord;
pub use piece::PieceWords;
pub use pieces::PiecesWords;
pub use print::{ElementKind, list_array, print_array};
pub use range::RangeWord;
