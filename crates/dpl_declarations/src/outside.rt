// Declarations that stand outside of foralls and tasks alone: of an array, a domain or a cell. Its type says so, or where none is written
// its initial value.

ghost use Rattle.std.specs.Prelude.{◌≡◌};
ghost use Rattle.dpl_language.specs.Declarations.{type_of as written_type};
ghost use Rattle.dpl_rules.specs.Doings.{is_apart_type as is_apart_type_of};
ghost use Rattle.dpl_scopes.specs.Types.{of_type};
ghost use Rattle.dpl_tree.specs.Declarations.{optional, type_view, typed_view, init_view, initial_view};
ghost use Rattle.dpl_declarations.specs.Apart.{apart_init, apart_as};

use dpl_scopes::ValueType;
use dpl_tree::{Declare, DeclaredType, Init};
use dpl_types::found::is_domain;

// Whether a written type is that of an array, a domain or a cell.
fn is_apart_type(declared: &DeclaredType<'_>) -> bool
    ensures { result ≡ is_apart_type_of (type_view declared.now) }
{
    match declared {
        DeclaredType::Scalar(_, _) => false,
        DeclaredType::Sync(_, _, _) | DeclaredType::Domain(_) | DeclaredType::Array(_) => true,
    }
}

// Whether an initial value without a written type is a domain: mapped, created, or by the type that was found of it.
fn is_apart_init(init: &Init<'_>, found: Option<ValueType<'_>>) -> bool
    ensures { result ≡ apart_init (init_view init.now) (of_type found.entry) }
{
    match init {
        Init::Item(_, None) => is_domain(found),
        Init::Item(_, Some(_)) => true,
        Init::Create(_) => true,
    }
}

/// Whether an array, a domain or a cell is declared, by the type that was found of the declaration.
pub(crate) fn declares_apart(declare: &Declare<'_>, found: Option<ValueType<'_>>) -> bool
    ensures { result ≡ apart_as (written_type (optional typed_view declare.now.typed)) (optional initial_view declare.now.initial) (of_type found.entry) }
{
    match &declare.typed {
        Some(typed) => is_apart_type(&typed.declared),
        None => match &declare.initial {
            None => false,
            Some(initial) => is_apart_init(&initial.init, found),
        },
    }
}
