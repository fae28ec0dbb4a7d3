// The language's words: places, tokens, the operators and words of trees, refusals, faults, and in specs/ the tokens that a text has. dpl_lexer reads them.
// Everything above speaks of these, and of the definitions over them in specs/.
#![tactic(auto)]

pub mod bytes;
pub mod fault;
pub mod operator;
pub mod place;
pub mod refusal;
pub mod stop;
pub mod token;

pub use bytes::Bytes;
pub use fault::FaultCode;
pub use operator::{
    Assign, BracketPair, CreateWord, Dots, Infix, Module, Op, Prefix, ReadWord, ScalarKind, Word,
    WriteWord,
};
pub use place::Place;
pub use refusal::{Breach, Code, Refusal};
pub use stop::{LexStop, Stop};
pub use token::{Contextual, Keyword, Kind, Sign, Token};
