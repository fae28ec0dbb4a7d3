// Types that may be missing: whether there is one, and it is that of an array, a cell or a domain.
// A name whose declaration was refused has no type, and is none of these.

ghost use Rattle.std.specs.Prelude.{◌≡◌};
ghost use Rattle.dpl_rules.specs.Types.{has, is_array as is_array_type, is_cell as is_cell_type, is_domain as is_domain_type};
ghost use Rattle.dpl_scopes.specs.Types.{of_type};

use dpl_scopes::value_type::ValueType;

/// Whether there is a type, and it is an array.
pub fn is_array(found: Option<ValueType<'_>>) -> bool
    ensures { result ≡ has is_array_type (of_type found.entry) }
{
    match found {
        None => false,
        Some(t) => t.is_array(),
    }
}

/// Whether there is a type, and it is a cell.
pub fn is_cell(found: Option<ValueType<'_>>) -> bool
    ensures { result ≡ has is_cell_type (of_type found.entry) }
{
    match found {
        None => false,
        Some(t) => t.is_cell(),
    }
}

/// Whether there is a type, and it is a domain.
pub fn is_domain(found: Option<ValueType<'_>>) -> bool
    ensures { result ≡ has is_domain_type (of_type found.entry) }
{
    match found {
        None => false,
        Some(t) => t.is_domain(),
    }
}
