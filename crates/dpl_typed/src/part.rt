// Parts of a form, as the form's rule sees them: where each begins, and what it is if it has a type.
// A type that isn't taken is C3 at the part's first token.

ghost use Rattle.std.specs.Prelude.{◌≡◌, map};
ghost use Rattle.dpl_rules.specs.Types.{has};
ghost use Rattle.dpl_rules.specs.Operators.{is_strided_range, any_strided as any_strided_of};
ghost use Rattle.dpl_rules.specs.Verdicts.{wanted as wanted_of, each_wanted as each_wanted_of, all_known as all_known_of};
ghost use Rattle.dpl_types.specs.Wants.{takes};
ghost use Rattle.dpl_types.specs.Owes.{Owes};
ghost use Rattle.dpl_typed.specs.Typed.{types_of, part_view};

use crate::typed::Typed;
use dpl_syntax::{Breach, Code, Place};
use dpl_types::{Want, owed};

/// A part of a form: its first token, and what it is if it has a type.
#[derive(Clone, Copy)]
pub struct Part<'t> {
    pub at: Place,
    pub found: Option<Typed<'t>>,
}

/// A part has the wanted type, if it has one.
pub fn wanted(want: Want<'_>, part: Part<'_>, first: &mut Option<Breach>) -> bool
    ensures { Owes (wanted_of (takes want.entry) (part_view part.entry)) result first.old first.new }
{
    match part.found {
        None => true,
        Some(t) => owed(want.takes(t.value_type()), part.at, Code::WrongType, first),
    }
}

/// Each part has the wanted type, if it has one.
#[tactic(auto, using(dpl_types::proofs::Breaches::least_from_append, dpl_types::proofs::Breaches::are_none_append))]
pub fn each_wanted(of: Want<'_>, parts: &[Part<'_>], first: &mut Option<Breach>) -> bool
    ensures { Owes (each_wanted_of (takes of.entry) (map part_view parts.now)) result first.old first.new }
{
    let mut holds = true;
    for part in parts {
        holds &= wanted(of, *part, first);
    }
    holds
}

/// Whether all parts have types.
pub fn all_known(parts: &[Part<'_>]) -> bool
    ensures { result ≡ all_known_of (map part_view parts.now) }
{
    for part in parts {
        if part.found.is_none() {
            return false;
        }
    }
    true
}

// Whether a part is a range that the text strides.
fn is_strided(part: Part<'_>) -> bool
    ensures { result ≡ has is_strided_range (types_of part.entry.found) }
{
    match part.found {
        Some(Typed::Range { strided, .. }) => strided,
        _ => false,
    }
}

/// Whether one of the parts is a range that the text strides.
pub fn any_strided(parts: &[Part<'_>]) -> bool
    ensures { result ≡ any_strided_of (map part_view parts.now) }
{
    for part in parts {
        if is_strided(*part) {
            return true;
        }
    }
    false
}
