// The variables of a loop: a scope of their own, in which none has the name of another, and each the next slot.
// A body's scope is inside it.

ghost use Rattle.std.specs.Prelude.{◌≡◌, ◌∷◌, [], true, None, Some, IfOk, OnOk};
ghost use Rattle.dpl_language.specs.Tree.{OneVariable};
ghost use Rattle.dpl_nodes.specs.Steps.{unplaced_leaf, names_view};
ghost use Rattle.dpl_rules.specs.Breaches.{least_from};
ghost use Rattle.dpl_rules.specs.Loops.{variables_of, add_variables, each_once};
ghost use Rattle.dpl_rules.specs.Sights.{enter};
ghost use Rattle.dpl_rules.specs.Types.{has};
ghost use Rattle.dpl_scopes.specs.Slots.{next_slot_in};
ghost use Rattle.dpl_scopes.specs.Types.{of_type};
ghost use Rattle.dpl_tree.specs.View.{name_view};
ghost use Rattle.dpl_tree.specs.Statements.{variables_view};
ghost use Rattle.dpl_typed.specs.Leaves.{kind_by, leaf_by};
ghost use Rattle.dpl_bound.specs.Sights.{AreKnownScopes};
ghost use Rattle.dpl_heads.specs.Listed.{names_in, slots_from};
ghost use Rattle.dpl_heads.specs.Made.{is_one_turn, is_turn, variables_leaves};

use dpl_nodes::Names;
use dpl_scopes::{Scopes, Sort, ValueType};
use dpl_syntax::{Breach, Code};
use dpl_tree::{Arena, Name, NextName, Variables};
use dpl_types::owed;
use std::alloc::AllocError;

// A variable, in the innermost scope, with its slot.
fn variable<'t>(
    scopes: &mut Scopes<'t>,
    name: &Name<'t>,
    found: Option<ValueType<'t>>,
    first: &mut Option<Breach>,
) -> Result<usize, AllocError>
    ensures scopes { OnOk result (scopes.new ≡ add_variables (of_type found.entry) (name_view name.now ∷ []) scopes.old) }
    ensures told { OnOk result (first.new ≡ least_from first.old (each_once scopes.old (name_view name.now ∷ []))) }
    ensures slot { IfOk result (λ slot. slot ≡ next_slot_in scopes.old) }
{
    let slot = scopes.next_slot();
    owed(
        !scopes.declared_here(name.text),
        name.at,
        Code::NameTwice,
        first,
    );
    match scopes.declare(name.text, Sort::LoopVariable, found) {
        Ok(()) => Ok(slot),
        Err(_) => Err(AllocError),
    }
}

// Further variables, with their slots.
fn more_variables<'t>(
    arena: Arena<'t>,
    scopes: &mut Scopes<'t>,
    others: &[NextName<'t>],
    found: Option<ValueType<'t>>,
    first: &mut Option<Breach>,
) -> Result<&'t [usize], AllocError>
    ensures scopes { OnOk result (scopes.new ≡ add_variables (of_type found.entry) (names_in others.now) scopes.old) }
    ensures told { OnOk result (first.new ≡ least_from first.old (each_once scopes.old (names_in others.now))) }
    ensures slots { IfOk result (λ slots. slots.now ≡ slots_from (of_type found.entry) (names_in others.now) scopes.old) }
{
    let mut slots = Vec::new(arena.alloc());
    for next in others {
        let Ok(slot) = variable(scopes, &next.name, found, first) else {
            return Err(AllocError);
        };
        let Ok(()) = slots.push(slot) else {
            return Err(AllocError);
        };
    }
    arena.list(slots)
}

// A loop's only variable in its slot: an int, or a tuple.
fn one_name<'t>(found: Option<ValueType<'_>>, slot: usize) -> Names<'t>
    ensures { has is_one_turn (of_type found.entry) ≡ true
        → names_view result ≡ OneVariable (unplaced_leaf (leaf_by (kind_by (of_type found.entry)) (Some slot))) }
{
    match found {
        Some(ValueType::Tuple(_)) => Names::Tuple(slot),
        _ => Names::Int(slot),
    }
}

// Variables, in the innermost scope, which all have one type.
fn declared<'t>(
    arena: Arena<'t>,
    scopes: &mut Scopes<'t>,
    variables: &Variables<'t>,
    found: Option<ValueType<'t>>,
    first: &mut Option<Breach>,
) -> Result<Names<'t>, AllocError>
    ensures scopes { OnOk result (scopes.new ≡ add_variables (of_type found.entry) (variables_of (variables_view variables.now)) scopes.old) }
    ensures told { OnOk result (first.new ≡ least_from first.old (each_once scopes.old (variables_of (variables_view variables.now)))) }
    ensures node { IfOk result (λ names. has (is_turn (variables_view variables.now)) (of_type found.entry) ≡ true
        → names_view names ≡ variables_leaves (of_type found.entry) scopes.old (variables_view variables.now)) }
{
    match variables {
        Variables::One(name) => {
            let Ok(slot) = variable(scopes, name, found, first) else {
                return Err(AllocError);
            };
            Ok(one_name(found, slot))
        }
        Variables::Many {
            first: head,
            others,
            ..
        } => {
            let Ok(slot) = variable(scopes, head, found, first) else {
                return Err(AllocError);
            };
            let Ok(slots) = more_variables(arena, scopes, others, found, first) else {
                return Err(AllocError);
            };
            Ok(Names::Each(slot, slots))
        }
    }
}

/// Opens the scope of a loop's variables, which all have one type, tells those that are there twice, and gives them with
/// their slots. Where their type isn't one of a loop that runs, of these nothing is said.
///
/// # Errors
/// Out of memory; of the scopes and of what was told then nothing is said.
pub fn enter_loop<'t>(
    arena: Arena<'t>,
    scopes: &mut Scopes<'t>,
    variables: &Variables<'t>,
    found: Option<ValueType<'t>>,
    first: &mut Option<Breach>,
) -> Result<Names<'t>, AllocError>
    ensures scopes { OnOk result (scopes.new ≡ add_variables (of_type found.entry) (variables_of (variables_view variables.now)) (enter scopes.old)) }
    ensures told { OnOk result (first.new ≡ least_from first.old (each_once (enter scopes.old) (variables_of (variables_view variables.now)))) }
    ensures node { IfOk result (λ names. has (is_turn (variables_view variables.now)) (of_type found.entry) ≡ true
        → names_view names ≡ variables_leaves (of_type found.entry) (enter scopes.old) (variables_view variables.now)) }
    ensures known { OnOk result (first.new ≡ None → has (is_turn (variables_view variables.now)) (of_type found.entry) ≡ true
        → AreKnownScopes scopes.old → AreKnownScopes scopes.new) }
{
    let Ok(()) = scopes.enter() else {
        return Err(AllocError);
    };
    declared(arena, scopes, variables, found, first)
}
