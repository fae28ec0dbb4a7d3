// What is found of a declaration: the type of its name, and the step that it is.

use dpl_nodes::Step;
use dpl_scopes::{Declared, ValueType};

/// The type that a declaration gives its name, as far as its own rules go; and the step, or a stand-in.
#[derive(Clone, Copy)]
pub(crate) struct Found<'t> {
    pub value_type: Option<ValueType<'t>>,
    pub step: Step<'t>,
}

/// A declaration, elaborated: what it declares, with a type where nothing is broken in it, and the step that it is. Where it breaks a rule,
/// and where it doesn't run, the step is a stand-in, of which nothing is said.
#[derive(Clone, Copy)]
pub struct Elaborated<'t> {
    pub declared: Declared<'t>,
    pub step: Step<'t>,
}
