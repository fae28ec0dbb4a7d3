// Tests of what the rows of `dpl_rows` can't show of a run: gates, writers that fail, what a program leaves, and one that is checked once and run twice;
// and of the program around it: its input and outputs, what it tells, and growths of memory. Command lines stand in `dpl_settings_tests`.
// They stand in a crate of their own, since a crate with tests is proved twice, and no crate waits for this one; and in one, since each compiles the whole program.
// The program itself does nothing: rt sums up all that a library stands on, once for each way down, and a program it just builds.
#![tactic(auto)]

#[cfg(test)]
mod checked;
#[cfg(test)]
mod entries;
#[cfg(test)]
mod explaining;
#[cfg(test)]
mod gates;
#[cfg(test)]
mod growths;
#[cfg(test)]
mod input;
#[cfg(test)]
mod leaves;
#[cfg(test)]
mod messages;
#[cfg(test)]
mod programs;
#[cfg(test)]
mod roots;
#[cfg(test)]
mod squares;
#[cfg(test)]
mod writers;

use std::process::ExitCode;

fn main(_rt: HostRuntime) -> ExitCode {
    ExitCode::SUCCESS
}
