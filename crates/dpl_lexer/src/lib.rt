// The lexer: a text is read as its tokens, or refused where it has none.
// What the tokens of a text are stands in dpl_syntax, whose definition each of these functions is proved against.
// `scan` takes one lexeme from the front of some bytes, and `lex` is a loop whose invariant is `Begins`: the text so far is the tokens so
// far. That a text has no other tokens, and that it has tokens or a refusal, are laws of the definition (proofs/Laws.antt,
// proofs/Total.antt).
#![tactic(auto)]

mod ascii;
mod gap;
mod keyword;
pub mod lexer;
mod number;
mod quoted;
mod scan;

pub use lexer::lex;
pub use quoted::text_bytes;
