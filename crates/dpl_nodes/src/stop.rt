// Why a checked program gets no typed tree.
// There is one for each program that is checked, unless memory runs out.

/// Why there is no node.
#[derive(Clone, Copy, PartialEq, Eq, Debug)]
pub enum NoNode {
    /// Out of memory.
    Memory,
    /// An operand is of a type that the operator doesn't take; or a fault's place has a line or a column from 2^21 on, as no
    /// text's place has.
    IllTyped,
}
