// Names: what each does, by its declaration and by the first of what stands behind it.
// A name whose declaration was refused has no type, and is read as one of a number is.

ghost use Rattle.std.specs.Prelude.{OnOk, option_map};
ghost use Rattle.dpl_tree.specs.View.{posts_of};
ghost use Rattle.dpl_rules.specs.Deeds.{array_deeds as array_deeds_of, cell_deeds as cell_deeds_of};
ghost use Rattle.dpl_rules.specs.Deeds.{items_index as items_index_of, exprs_index as exprs_index_of, name_deeds as name_deeds_of};
ghost use Rattle.dpl_rules.specs.Deeds.{declared_deeds as declared_deeds_of};
ghost use Rattle.dpl_scopes.specs.View.{declared_view};
ghost use Rattle.dpl_deeds.specs.View.{Adds};

use crate::deed::{Added, Deed, Holding, held, put};
use crate::index::{exprs_index, items_index};
use dpl_scopes::{Declared, Scopes};
use dpl_syntax::Place;
use dpl_tree::{Arena, Method, Post};
pub use dpl_types::found::{is_array, is_cell};

// An array before the first of what stands behind it: by itself it is read whole, before indices an element is read, and
// before a method nothing.
fn array_deeds<'t>(
    arena: Arena<'t>,
    scopes: &Scopes<'t>,
    at: Place,
    declared: Declared<'t>,
    posts: &[Post<'_>],
    deeds: &mut Vec<Deed<'t>>,
) -> Added
    ensures { OnOk result (Adds (array_deeds_of at (declared_view declared.entry) (posts_of posts.now) (items_index_of scopes.now)
        (exprs_index_of scopes.now)) deeds.old.items deeds.new.items) }
{
    match posts.first() {
        None => put(Deed::Reads(at, declared), deeds),
        Some(Post::Brackets { items, .. }) => {
            let parts = items_index(arena, scopes, items)?;
            put(Deed::ReadsAt(at, declared, parts), deeds)
        }
        Some(Post::Rounds { exprs, .. }) => {
            let parts = exprs_index(arena, scopes, exprs)?;
            put(Deed::ReadsAt(at, declared, parts), deeds)
        }
        Some(Post::Dotted(_, _)) => Ok(()),
    }
}

// A cell before the first of what stands behind it: a method that reads it is a call.
fn cell_deeds(at: Place, posts: &[Post<'_>], deeds: &mut Vec<Deed<'_>>) -> Added
    ensures { OnOk result (Adds (cell_deeds_of at (posts_of posts.now)) deeds.old.items deeds.new.items) }
{
    match posts.first() {
        Some(Post::Dotted(_, Method::CellRead { .. })) => held(at, Holding::CellCall, deeds),
        Some(Post::Dotted(_, Method::Plain(_, _)))
        | Some(Post::Dotted(_, Method::Dim(_)))
        | Some(Post::Dotted(_, Method::Contains(_)))
        | Some(Post::Dotted(_, Method::Expand(_))) => Ok(()),
        Some(Post::Brackets { .. }) => Ok(()),
        Some(Post::Rounds { .. }) => Ok(()),
        None => Ok(()),
    }
}

// A name by itself, or before what stands behind it.
fn name_deeds<'t>(
    arena: Arena<'t>,
    scopes: &Scopes<'t>,
    at: Place,
    declared: Declared<'t>,
    posts: &[Post<'_>],
    deeds: &mut Vec<Deed<'t>>,
) -> Added
    ensures { OnOk result (Adds (name_deeds_of scopes.now at (declared_view declared.entry) (posts_of posts.now)) deeds.old.items deeds.new.items) }
{
    if is_array(declared.value_type) {
        array_deeds(arena, scopes, at, declared, posts, deeds)
    } else if is_cell(declared.value_type) {
        cell_deeds(at, posts, deeds)
    } else {
        put(Deed::Reads(at, declared), deeds)
    }
}

/// What a name does by itself, or before what stands behind it; one that isn't known does nothing.
///
/// # Errors
/// Out of memory; of the list then nothing is said.
pub fn declared_deeds<'t>(
    arena: Arena<'t>,
    scopes: &Scopes<'t>,
    at: Place,
    declared: Option<Declared<'t>>,
    posts: &[Post<'_>],
    deeds: &mut Vec<Deed<'t>>,
) -> Added
    ensures { OnOk result (Adds (declared_deeds_of scopes.now at (posts_of posts.now)
        (option_map declared_view declared.entry)) deeds.old.items deeds.new.items) }
{
    match declared {
        None => Ok(()),
        Some(declared) => name_deeds(arena, scopes, at, declared, posts, deeds),
    }
}
