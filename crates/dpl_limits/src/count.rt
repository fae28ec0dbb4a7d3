// How many names and cells may still be declared, and where the first past each limit stands: C13. At most 4,096 names and 64 cells
// are declared by `const` and `var`; the walk over a program carries the counts along.

ghost use Rattle.std.specs.Prelude.{◌≡◌};
ghost use Rattle.dpl_language.specs.Declarations.{type_of};
ghost use Rattle.dpl_tree.specs.Declarations.{optional, declare_view, typed_view};
ghost use Rattle.dpl_rules.specs.Breaches.{least_from};
ghost use Rattle.dpl_limits.specs.Counts.{one_more, is_of_cell, counted, none_yet, told, all_told};

use dpl_syntax::{Breach, Code, Place};
use dpl_tree::{Declare, DeclaredType, Typed};
use dpl_types::note;

/// How many more may be declared, and where the first past that stands.
#[derive(Clone, Copy)]
pub struct Count {
    pub left: usize,
    pub past: Option<Place>,
}

/// The count of names, and that of cells.
#[derive(Clone, Copy)]
pub struct Counts {
    pub names: Count,
    pub cells: Count,
}

// Whether a declared type is a cell's.
fn is_cell(typed: &Option<Typed<'_>>) -> bool
    ensures { result ≡ is_of_cell (type_of (optional typed_view typed.now)) }
{
    match typed {
        None => false,
        Some(typed) => match &typed.declared {
            DeclaredType::Sync(_, _, _) => true,
            DeclaredType::Scalar(_, _) | DeclaredType::Domain(_) | DeclaredType::Array(_) => false,
        },
    }
}

impl Count {
    // One more is declared here.
    fn more(self, at: Place) -> Count
        ensures { result ≡ one_more self at }
    {
        if self.left > 0 {
            Count {
                left: self.left - 1,
                past: self.past,
            }
        } else if self.past.is_some() {
            self
        } else {
            Count {
                left: 0,
                past: Some(at),
            }
        }
    }

    // Tells the first past the limit, if there is one.
    fn tell(self, first: &mut Option<Breach>)
        ensures { first.new ≡ least_from first.old (told self.past) }
    {
        if let Some(at) = self.past {
            note(first, at, Code::TooMany);
        }
    }
}

impl Counts {
    /// Before any declaration.
    pub fn begin() -> Counts
        ensures { result ≡ none_yet }
    {
        Counts {
            names: Count {
                left: 4096,
                past: None,
            },
            cells: Count {
                left: 64,
                past: None,
            },
        }
    }

    /// With a declaration.
    pub fn with(self, declaration: &Declare<'_>) -> Counts
        ensures { result ≡ counted self (declare_view declaration.now) }
    {
        let at = declaration.name.at;
        let cells = if is_cell(&declaration.typed) {
            self.cells.more(at)
        } else {
            self.cells
        };
        Counts {
            names: self.names.more(at),
            cells,
        }
    }

    /// Tells the first name and the first cell past their limits, if there are such.
    #[tactic(auto, using(dpl_types::proofs::Breaches::least_from_append))]
    pub fn tell(self, first: &mut Option<Breach>)
        ensures { first.new ≡ least_from first.old (all_told self) }
    {
        self.names.tell(first);
        self.cells.tell(first);
    }
}
