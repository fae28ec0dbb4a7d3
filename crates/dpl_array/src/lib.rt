// Arrays: finite maps from the indices of a domain to values, kept in one dense piece for each locale of a map.
// This is the table of contents: pieces stand under arrays, and walks and `redomain` above them.
// A piece is one dense list in the order in which its part's domains stand, and `Map::find` says where an index is in it. `union` of the
// pieces is the array, so `take_pieces` and `put_back` move them and no more. What names an element is a trait (coordinates.rt), so that
// reads and writes are proved once for an index and for plain coordinates. A read guesses the piece (seats.rt), and nobody has to believe
// it: where the piece doesn't hold the index its owner is computed. Where a part is one domain of stride 1 the piece keeps its spans
// (spans.rt), and a place on a line or a plane is one test for each dimension and a multiplication; a reader keeps the piece of the last
// read as plain numbers (window.rt). Else the part's domains are asked. A row (row.rt) has indices that follow one another, whatever their
// stride is: where a piece's part is one domain with that stride, their values stand side by side, and are lent and put so; where they stand
// some strides apart, they are put so too.
#![tactic(auto)]

mod array;
mod coordinates;
mod elements;
mod piece;
mod piece_walk;
mod pieces;
mod place;
mod reader;
mod redomain;
mod row;
mod row_walk;
mod same;
mod seats;
mod span;
mod spans;
mod walk;
mod window;

pub use array::{ArrayFault, DArray};
pub use piece::Piece;
pub use piece_walk::PieceWalk;
pub use pieces::Pieces;
pub use reader::Reader;
pub use row::Row;
pub use walk::Walk;
