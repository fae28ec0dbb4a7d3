// The maps of the language: who owns an index of a domain, and a locale's part of a domain in closed form.
// A locale owns of each dimension the members that its rule gives it: a slice, a class of congruence, or by the block-cyclic rule a list of
// ranges that are cut out of them. That a filter of a product by tests of each coordinate is the product of the filters makes its part the
// products of these ranges. They stand row by row, so that one search finds the domain that has an index.
#![tactic(auto)]

mod axis;
mod blocks;
mod find;
mod grid;
mod map;
mod part;
mod products;

pub use grid::{Grid, GridFault};
pub use map::{Map, MapFault};
pub use part::NoMemory;
