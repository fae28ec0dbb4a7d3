// Command lines: what each asks for, or what is told of it and with which status the process ends.
// The tests stand apart, since a crate with tests is proved twice.
#![tactic(auto)]

#[cfg(test)]
mod tests;
