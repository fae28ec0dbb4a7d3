// Operators: the rule of each, and the node that it makes of its operands.
// A whole array beside an operator is its elements, and a value beside one is repeated at each index.
#![tactic(auto)]

pub mod infix;
pub mod ints;
pub mod operand;
pub mod prefix;
pub mod reduction;
pub mod truths;

pub use operand::Operand;
