// The settings that a command line of the program asks for: the text, its sets, the budget, the locales and how they are
// laid out, the maps, and whether to dump; or what is told of a command line that gives none.
// clap reads the words, and specs/CommandLine.antt says what they then mean.
#![tactic(auto)]

mod asked;
mod command;
mod fault;
mod grid;
mod line;
mod maps;
mod number;
mod reading;

pub use asked::Settings;
pub use fault::{LineFault, WrongValue};
pub use line::{USAGE, line_status, tell_line};
pub use maps::RootMaps;
pub use reading::settings;
