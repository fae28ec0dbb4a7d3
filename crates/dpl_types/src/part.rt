// Parts of a form, as the form's rule sees them: where each begins, and its type if it has one.
// A type that isn't taken is C3 at the part's first token.

ghost use Rattle.dpl_rules.specs.Verdicts.{wanted as wanted_of};
ghost use Rattle.dpl_types.specs.View.{part_view};
ghost use Rattle.dpl_types.specs.Wants.{takes};
ghost use Rattle.dpl_types.specs.Owes.{Owes};

use crate::breach::owed;
use crate::want::Want;
use dpl_scopes::value_type::ValueType;
use dpl_syntax::{Breach, Code, Place};

/// A part of a form: its first token, and its type if it has one.
#[derive(Clone, Copy)]
pub struct Part<'t> {
    pub at: Place,
    pub found: Option<ValueType<'t>>,
}

/// A part has the wanted type, if it has one.
pub fn wanted(want: Want<'_>, part: Part<'_>, first: &mut Option<Breach>) -> bool
    ensures { Owes (wanted_of (takes want.entry) (part_view part.entry)) result first.old first.new }
{
    match part.found {
        None => true,
        Some(t) => owed(want.takes(t), part.at, Code::WrongType, first),
    }
}
