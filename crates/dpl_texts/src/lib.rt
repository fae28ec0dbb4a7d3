// Texts of the whole language through what reads and checks them: the lexer, the parser, the scopes and the check.
// The tests stand in a crate of their own, since a crate with tests is proved twice, and no crate waits for this one.
#![tactic(auto)]

#[cfg(test)]
mod checks;
#[cfg(test)]
mod reading;
#[cfg(test)]
mod refusals;
#[cfg(test)]
mod scopes;
#[cfg(test)]
mod table;
#[cfg(test)]
mod tokens;
