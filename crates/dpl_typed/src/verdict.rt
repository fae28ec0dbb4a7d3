// What every rule says in the same way: that a type or a rank isn't taken.
// A form has a type where nothing is broken in it and all its parts have types.

ghost use Rattle.dpl_rules.specs.Verdicts.{mistyped as mistyped_of, misranked as misranked_of};
ghost use Rattle.dpl_typed.specs.Told.{Judges};

use crate::typed::Typed;
use dpl_syntax::{Breach, Code, Place};
use dpl_types::note;

/// Tells that a type isn't taken.
pub fn mistyped<'t>(at: Place, first: &mut Option<Breach>) -> Option<Typed<'t>>
    ensures { Judges (mistyped_of at) result first.old first.new }
{
    note(first, at, Code::WrongType);
    None
}

/// Tells that a rank isn't taken.
pub fn misranked<'t>(at: Place, first: &mut Option<Breach>) -> Option<Typed<'t>>
    ensures { Judges (misranked_of at) result first.old first.new }
{
    note(first, at, Code::WrongRank);
    None
}
