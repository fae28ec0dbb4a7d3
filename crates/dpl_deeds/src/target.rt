// The deeds of targets: a name is assigned, or an element of an array.
// What is assigned, and an element's indices, are expressions, and put their own.

ghost use Rattle.std.specs.Prelude.{OnOk, option_map};
ghost use Rattle.dpl_tree.specs.View.{exprs_view};
ghost use Rattle.dpl_rules.specs.Doings.{written as written_of, element_written as element_written_of};
ghost use Rattle.dpl_scopes.specs.View.{declared_view};
ghost use Rattle.dpl_deeds.specs.View.{Adds};

use crate::deed::{Added, Deed, put};
use crate::index::exprs_index;
use dpl_scopes::{Declared, Scopes};
use dpl_syntax::Place;
use dpl_tree::{Arena, Assign, Exprs};

/// A name is assigned, if it is known.
///
/// # Errors
/// Out of memory; of the list then nothing is said.
pub fn name_written<'t>(
    at: Place,
    declared: Option<Declared<'t>>,
    op: Assign,
    deeds: &mut Vec<Deed<'t>>,
) -> Added
    ensures { OnOk result (Adds (written_of at (option_map declared_view declared.entry) op) deeds.old.items deeds.new.items) }
{
    match declared {
        None => Ok(()),
        Some(declared) => put(Deed::Writes(at, declared, op), deeds),
    }
}

/// An element is assigned, if its array's name is known.
///
/// # Errors
/// Out of memory; of the list then nothing is said.
pub fn element_written<'t>(
    arena: Arena<'t>,
    scopes: &Scopes<'t>,
    at: Place,
    declared: Option<Declared<'t>>,
    exprs: &Exprs<'_>,
    op: Assign,
    deeds: &mut Vec<Deed<'t>>,
) -> Added
    ensures { OnOk result (Adds (element_written_of scopes.now at (option_map declared_view declared.entry) (exprs_view exprs.now) op)
        deeds.old.items deeds.new.items) }
{
    match declared {
        None => Ok(()),
        Some(declared) => {
            let parts = exprs_index(arena, scopes, exprs)?;
            put(Deed::WritesAt(at, declared, parts, op), deeds)
        }
    }
}
