// The sets of the command line, which give values to a program's `config const`s: C14.
// Each has the name of one, none has that of another, and each has a value of its kind.

ghost use Rattle.std.specs.Prelude.{◌≡◌, [], map, option_map, IfOk};
ghost use Rattle.dpl_rules.specs.Sound.{fits_declared, name_and_value as name_and_value_of, sets_fit};
ghost use Rattle.dpl_scopes.specs.View.{declared_view};
ghost use Rattle.dpl_limits.specs.Sets.{FitsBehind};

use crate::value::{is_value_of, name_and_value};
use dpl_scopes::{Declared, Scopes, Sort};
use indexmap::IndexSet;
use std::alloc::{AllocError, Global};

// Whether a declaration takes a set's value.
fn fits_declared(declared: Option<Declared<'_>>, value: &[u8]) -> bool
    ensures { result ≡ fits_declared (option_map declared_view declared.entry) value.now }
{
    match declared {
        None => false,
        Some(declared) => match declared.sort {
            Sort::Configured => match declared.value_type {
                None => false,
                Some(value_type) => match value_type.scalar() {
                    None => false,
                    Some(kind) => is_value_of(kind, value),
                },
            },
            Sort::Constant | Sort::Variable | Sort::LoopVariable => false,
        },
    }
}

// Whether a set fits behind those before it, whose names are given. Its own name is then one of them.
fn set_fits<'s>(
    scopes: &Scopes<'_>,
    names: &mut IndexSet<&'s [u8]>,
    set: &'s [u8],
) -> Result<bool, AllocError>
    ensures { IfOk result (λ fits. FitsBehind scopes.now names.old names.new (name_and_value_of set.now) fits) }
{
    match name_and_value(set) {
        None => Ok(false),
        Some((name, value)) => {
            let is_new = names.insert(name)?;
            Ok(is_new && fits_declared(scopes.lookup(name), value))
        }
    }
}

/// Whether the sets fit the names in sight, which are those at a program's end.
///
/// # Errors
/// Out of memory.
pub fn sets_fit(alloc: Global, scopes: &Scopes<'_>, sets: &[&str]) -> Result<bool, AllocError>
    ensures { IfOk result (λ fit. fit ≡ sets_fit scopes.now [] (map (λ set. set.now) sets.now)) }
{
    let mut names = IndexSet::new(alloc);
    for set in sets {
        if !set_fits(scopes, &mut names, set.as_bytes())? {
            return Ok(false);
        }
    }
    Ok(true)
}
