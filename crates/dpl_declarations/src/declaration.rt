// Declarations: where a name stands twice in a scope, and all else that is owed; what is declared; and the step.
// A name whose declaration is refused has no type.

ghost use Rattle.std.specs.Prelude.{◌≡◌, Option, None, is_some, IfOk, OnOk};
ghost use Rattle.dpl_language.specs.Tree.{Declare as DeclareTree};
ghost use Rattle.dpl_nodes.specs.Steps.{step_view};
ghost use Rattle.dpl_rules.specs.Breaches.{least_from};
ghost use Rattle.dpl_rules.specs.Declarations.{declaration_breaches, declared_by, sort_of};
ghost use Rattle.dpl_rules.specs.Doings.{declaration_deeds};
ghost use Rattle.dpl_rules.specs.Places.{first_of_declaration};
ghost use Rattle.dpl_rules.specs.Sights.{add};
ghost use Rattle.dpl_scopes.specs.View.{declared_view, sort_view};
ghost use Rattle.dpl_syntax.specs.declared.place.Place.{Place as PlaceNode};
ghost use Rattle.dpl_tree.specs.Declarations.{declare_view};
ghost use Rattle.dpl_deeds.specs.View.{Adds};
ghost use Rattle.dpl_bound.specs.Run.{stmt_leaves};
ghost use Rattle.dpl_bound.specs.Sights.{AreKnownScopes};
ghost use Rattle.dpl_declarations.specs.Plain.{IsPlain};

use crate::found::Elaborated;
use crate::names::name;
use crate::outside::declares_apart;
use dpl_deeds::{Deed, Holding, held_if};
use dpl_scopes::{Declared, Origin, Scopes, Sort};
use dpl_syntax::{Breach, Code, Place};
use dpl_tree::{Arena, Declare};
use dpl_types::{owed, tell};
use std::alloc::AllocError;

// How a name is declared.
fn sort(is_config: bool, constant: bool) -> Sort
    ensures { (config : Option PlaceNode) → is_some config ≡ is_config → sort_view result ≡ sort_of config constant }
{
    if is_config {
        Sort::Configured
    } else if constant {
        Sort::Constant
    } else {
        Sort::Variable
    }
}

// The first token of a declaration.
fn first_of(declare: &Declare<'_>) -> Place
    ensures { result ≡ first_of_declaration (declare_view declare.now) }
{
    match declare.config {
        None => declare.at,
        Some(config) => config,
    }
}

/// A declaration: what it declares, which isn't in sight yet, and its step, in the slot that the name gets. Behind what its type, its map and
/// its initial value do stands whether an array, a domain or a cell is declared.
///
/// # Errors
/// Out of memory; of what was told and done then nothing is said.
#[tactic(auto, using(dpl_types::proofs::Breaches::least_from_append, crate::proofs::Apart::told_apart, crate::proofs::Apart::refused_apart))]
pub fn declaration<'t>(
    arena: Arena<'t>,
    scopes: &Scopes<'t>,
    written: &Declare<'t>,
    deeds: &mut Vec<Deed<'t>>,
    first: &mut Option<Breach>,
) -> Result<Elaborated<'t>, AllocError>
    ensures declared { IfOk result (λ r. declared_view r.declared ≡ declared_by scopes.now (declare_view written.now)) }
    ensures told { OnOk result (first.new ≡ least_from first.old (declaration_breaches scopes.now (declare_view written.now))) }
    ensures node { IfOk result (λ r. first.new ≡ None → IsPlain scopes.now (declare_view written.now)
        → stmt_leaves scopes.now (DeclareTree (declare_view written.now)) ≡ step_view r.step) }
    ensures known { OnOk result (first.new ≡ None → IsPlain scopes.now (declare_view written.now)
        → AreKnownScopes (add (declared_by scopes.now (declare_view written.now)) scopes.now)) }
    ensures deeds { OnOk result (Adds (declaration_deeds scopes.now (declare_view written.now)) deeds.old.items deeds.new.items) }
{
    let origin = Origin {
        name: written.name.text,
        depth: scopes.depth(),
    };
    let mut apart = None;
    owed(
        !scopes.declared_here(written.name.text),
        written.name.at,
        Code::NameTwice,
        &mut apart,
    );
    let Ok(found) = name(arena, scopes, written, deeds, &mut apart) else {
        return Err(AllocError);
    };
    let is_apart = declares_apart(written, found.value_type);
    let Ok(()) = held_if(is_apart, first_of(written), Holding::Declaration, deeds) else {
        return Err(AllocError);
    };
    let value_type = if apart.is_none() {
        found.value_type
    } else {
        None
    };
    tell(first, apart);
    Ok(Elaborated {
        declared: Declared {
            origin,
            sort: sort(written.config.is_some(), written.constant),
            value_type,
            slot: scopes.next_slot(),
        },
        step: found.step,
    })
}
