// A program that the check took, elaborated: its steps over slots.
// What its fields stand for is said by `program_of` and `IsChecked` of specs/Elaborated.antt.

use dpl_nodes::Step;
use dpl_scopes::Scopes;
use dpl_tree::Program;

/// A program that has no refusal, with the sets of the command line, ready to run. Its nodes lie in the arena of its tree.
#[derive(Drop)]
pub struct Checked<'s, 't> {
    // In a box, since steps and trees together lead to more than the front end takes of one type.
    pub(crate) program: Box<Program<'t>>,
    pub(crate) sets: &'s [&'s str],
    pub(crate) steps: Vec<Step<'t>>,
    // How many slots a frame needs.
    pub(crate) slots: usize,
    // The names at the program's end: its top level.
    pub(crate) scopes: Scopes<'t>,
    // What the sets give, by slots.
    pub(crate) words: Vec<(usize, i64)>,
}
