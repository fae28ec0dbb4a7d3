// What was found of an expression, if the rules give it a type.

ghost use Rattle.std.specs.Prelude.{◌≡◌};
ghost use Rattle.dpl_rules.specs.Types.{has, is_promoted as is_promoted_by};
ghost use Rattle.dpl_scopes.specs.Types.{of_type};
ghost use Rattle.dpl_typed.specs.Typed.{types_of};

use crate::typed::Typed;
use dpl_scopes::ValueType;

/// The type of what was found, if it has one.
pub fn type_found<'t>(found: Option<Typed<'t>>) -> Option<ValueType<'t>>
    ensures { of_type result ≡ types_of found.entry }
{
    match found {
        None => None,
        Some(t) => Some(t.value_type()),
    }
}

/// Whether there is a type, and it is that of a promoted expression: one that gives a value at each index of the whole arrays in it.
pub fn is_promoted(found: Option<Typed<'_>>) -> bool
    ensures { result ≡ has is_promoted_by (types_of found.entry) }
{
    match found {
        Some(Typed::Ints(_, _)) | Some(Typed::Truths(_, _)) => true,
        _ => false,
    }
}
