// The program `dpl` over any reader and any two writers: a text is read, and what was read is run by the settings asked for, and told of.
// Read `program`, whose clause says what stands on both writers when it ends, and with which status.
#![tactic(auto)]

mod ended;
mod input;
mod run;
mod tell;

pub use ended::Ended;
pub use input::read_text;
pub use run::program;
pub use tell::unopened;
