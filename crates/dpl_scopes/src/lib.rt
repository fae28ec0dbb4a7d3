// The types of names, and the names that a place of a program has in sight: scopes, the innermost first, each with its declarations.
// They stand for the scopes of the language's check, and a name is found by a hash of its bytes.
#![tactic(auto)]

mod declared;
mod scopes;
pub mod value_type;

pub use declared::{Declared, Sort};
pub use scopes::{Entry, Mark, Scopes};
pub use value_type::{Operand, Origin, Over, ValueType};
