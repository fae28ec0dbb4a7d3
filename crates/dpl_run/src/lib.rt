// The run of a text, as calls: what is written, and the outcome, are those of the language's definition.
// Read `run_text`, whose contract is the theorem, and then `Config`, `Out` and `Outcome`, which it speaks of. It is made of `check`, which takes a
// tree or refuses it, and `run_checked`, whose contract is the theorem of a checked program.
// That what `run` of dpl_program gives, through the plan, is what the program means is a page of proof (proofs/Meaning.antt): desugaring,
// the simulation of names by a memory, and what the walk of the check promises, one after another.
#![tactic(auto)]

mod checked;
mod checking;
mod run;
mod text;

pub use checked::Checked;
pub use checking::{CheckStop, check};
pub use dpl_contents::ArrayWords;
pub use dpl_frame::{DomainWord, Fault, FaultCode, RangeWord, Turn};
pub use dpl_layout::Maps;
pub use dpl_loop::{Gate, Meeting, OpenGate};
pub use dpl_outcome::{
    Config, ConfigFault, Left, MOST_TURNS, Out, OutFault, Outcome, Plain, Refused, Value, Variable,
    dump, write_all,
};
pub use dpl_syntax::{Code, Place, Refusal};
pub use run::run_checked;
pub use text::run_text;
