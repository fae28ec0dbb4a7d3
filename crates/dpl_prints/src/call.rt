// Calls of cells: the name is a cell, which may be declared by `const`, and what is written is of the cell's kind.
// Where there is no cell its kind isn't asked.

ghost use Rattle.std.specs.Prelude.{◌≡◌, Bool, Option, option_map, OnOk};
ghost use Rattle.dpl_rules.specs.Assignments.{called_name as called_name_of, call_word, call_argument as call_argument_of, call_breaches};
ghost use Rattle.dpl_rules.specs.Breaches.{least_from};
ghost use Rattle.dpl_rules.specs.Doings.{call_argument_deeds, call_deeds};
ghost use Rattle.dpl_rules.specs.Sights.{Reducing as ReducingTree};
ghost use Rattle.dpl_scopes.specs.View.{declared_view};
ghost use Rattle.dpl_tree.specs.Statements.{call_view};
ghost use Rattle.dpl_tree.specs.View.{name_view};
ghost use Rattle.dpl_deeds.specs.View.{Adds};
ghost use Rattle.dpl_prints.specs.Told.{within};

use dpl_assignments::side::cell_in;
use dpl_deeds::{Deed, Holding, held_if};
use dpl_elaborator::expression::part;
use dpl_scopes::{Declared, Scopes};
use dpl_syntax::{Breach, Code, Place};
use dpl_tree::{Arena, Call, CellCall, ScalarKind};
use dpl_typed::part::wanted;
use dpl_types::{Want, note, owed};
use std::alloc::AllocError;

// The cell of a call.
fn called_name(at: Place, word: Place, declared: Option<Declared<'_>>, first: &mut Option<Breach>)
    ensures { first.new ≡ least_from first.old (called_name_of at word (option_map declared_view declared.entry)) }
{
    match declared {
        None => note(first, at, Code::UnknownName),
        Some(declared) => {
            if let Some(t) = declared.value_type {
                owed(t.is_cell(), word, Code::WrongType, first);
            }
        }
    }
}

// The word of a call.
fn word_of(call: &Call<'_>) -> Place
    ensures { result ≡ call_word (call_view call.now) }
{
    match call {
        Call::Read(at, _, _, _) | Call::Reset(at, _, _) | Call::Write(at, _, _, _, _) => *at,
    }
}

// What a call writes.
#[tactic(auto, using(dpl_types::proofs::Breaches::least_from_append))]
fn call_argument<'t>(
    arena: Arena<'t>,
    scopes: &Scopes<'t>,
    kind: Option<ScalarKind>,
    call: &Call<'_>,
    deeds: &mut Vec<Deed<'t>>,
    first: &mut Option<Breach>,
) -> Result<(), AllocError>
    ensures told { (forall : Option ReducingTree) (in_task : Bool) → OnOk result
        (first.new ≡ least_from first.old (call_argument_of (within scopes.now forall in_task) kind (call_view call.now))) }
    ensures deeds { OnOk result (Adds (call_argument_deeds scopes.now (call_view call.now)) deeds.old.items deeds.new.items) }
{
    match call {
        Call::Read(_, _, _, _) | Call::Reset(_, _, _) => Ok(()),
        Call::Write(_, _, _, e, _) => {
            let Ok(part) = part(arena, scopes, e, deeds, first) else {
                return Err(AllocError);
            };
            if let Some(kind) = kind {
                wanted(Want::Scalar(kind), part, first);
            }
            Ok(())
        }
    }
}

/// A cell's call.
///
/// # Errors
/// Out of memory; of what was told and done then nothing is said.
#[tactic(auto, using(dpl_types::proofs::Breaches::least_from_append))]
pub fn call<'t>(
    arena: Arena<'t>,
    scopes: &Scopes<'t>,
    written: &CellCall<'_>,
    deeds: &mut Vec<Deed<'t>>,
    first: &mut Option<Breach>,
) -> Result<(), AllocError>
    ensures told { (forall : Option ReducingTree) (in_task : Bool) → OnOk result
        (first.new ≡ least_from first.old (call_breaches (within scopes.now forall in_task) (name_view written.now.name) (call_view written.now.call))) }
    ensures deeds { OnOk result (Adds (call_deeds scopes.now (name_view written.now.name) (call_view written.now.call)) deeds.old.items deeds.new.items) }
{
    let word = word_of(&written.call);
    let declared = scopes.lookup(written.name.text);
    called_name(written.name.at, word, declared, first);
    let kind = cell_in(declared);
    let Ok(()) = held_if(kind.is_some(), written.name.at, Holding::CellCall, deeds) else {
        return Err(AllocError);
    };
    call_argument(arena, scopes, kind, &written.call, deeds, first)
}
