// The parser of expressions and items, and of the tokens that they and statements are made of.
// A file for each part of the grammar, and a function for each of its rules, which gives what the rule's reader gives.
// The grammar is data, and `read` and `deep_at` of dpl_grammar compute each rule's reader from it: so a function's clause is `Gives .. (at
// rule room tokens)`, and no rule needs a lemma of its own. Loops read with `IsSoFar`, the factors of a product with `IsRunSoFar`.
// Expressions, statements and programs are three crates, since a crate is proved on one core.
#![tactic(auto)]

mod base;
pub mod chain;
pub mod factor;
pub mod item;
pub mod level;
pub mod list;
mod method;
pub mod postfix;
mod reduction;
pub mod token;
pub mod word;
