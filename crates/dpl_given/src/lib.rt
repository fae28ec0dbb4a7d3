// What sets of the command line give to the slots of a program's names: a word each, by the slot and the kind of the name.
// By its slot a `config const` is given what it is given by its name (proofs/Alike.antt).
#![tactic(auto)]

mod sets;

pub use sets::given;
