// A declaration: which one it is, its sort, the type of what it declares, and its slot.
// specs/View.antt gives the declaration of the language's check that it stands for.

ghost use Rattle.std.specs.Prelude.{◌≡◌};
ghost use Rattle.dpl_rules.specs.Sights.{is_constant};
ghost use Rattle.dpl_scopes.specs.View.{sort_view};

use crate::{Origin, ValueType};

/// How a name is declared.
#[derive(Clone, Copy)]
pub enum Sort {
    /// By `config const`.
    Configured,
    /// By `const`.
    Constant,
    /// By `var`.
    Variable,
    /// As a loop's variable.
    LoopVariable,
}

/// A declaration.
#[derive(Clone, Copy)]
pub struct Declared<'t> {
    /// Its name, and how many scopes are open where it stands.
    pub origin: Origin<'t>,
    pub sort: Sort,
    /// The type of what it declares; none, if the declaration was refused.
    pub value_type: Option<ValueType<'t>>,
    /// The slot of its name: as many scopes and declarations as were in sight before it.
    pub slot: usize,
}

impl Sort {
    /// Whether the program may not write what is so declared; a loop's variable is constant.
    pub fn is_constant(self) -> bool
        ensures { result ≡ is_constant (sort_view self) }
    {
        match self {
            Sort::Configured | Sort::Constant | Sort::LoopVariable => true,
            Sort::Variable => false,
        }
    }
}
