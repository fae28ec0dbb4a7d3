// The language's index sets: a range is the list of its members, a domain the list of its index tuples, row by row; and what a shifted read takes of an index.
// Definitions in specs/, worked rows in proofs/, and of code one type that definitions above name. dpl_range and dpl_domain have the values that are these lists.
#![tactic(auto)]

mod subscript;

pub use subscript::Subscript;
