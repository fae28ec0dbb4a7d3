// Domains: products of one to three ranges, seen as the list of their index tuples row by row.
#![tactic(auto)]

mod dimensions;
mod expansion;
mod product;
mod tuple;
mod walk;

pub use dimensions::{Dimensions, Unused};
pub use product::{Domain, DomainFault, MOST_INDICES};
pub use tuple::Index;
pub use walk::Cursor;
