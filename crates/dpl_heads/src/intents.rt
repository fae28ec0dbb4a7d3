// The intents of a loop: which names they may name, each once, and the reduce variables among them.
// C2 to C4 and C12 stand at the name.

ghost use Rattle.std.specs.Prelude.{◌≡◌, ◌++◌, None, IfOk, OnOk, map, option_map};
ghost use Rattle.dpl_language.specs.Phrases.{intents_of};
ghost use Rattle.dpl_nodes.specs.Steps.{intent_view as step_intent};
ghost use Rattle.dpl_rules.specs.Breaches.{least_from};
ghost use Rattle.dpl_rules.specs.Loops.{reduce_intent as reduce_intent_of, ref_intent as ref_intent_of, with_breaches};
ghost use Rattle.dpl_scopes.specs.View.{declared_view};
ghost use Rattle.dpl_tree.specs.Declarations.{optional};
ghost use Rattle.dpl_tree.specs.Statements.{intent_view, with_view};
ghost use Rattle.dpl_bound.specs.Sights.{AreKnownScopes};
ghost use Rattle.dpl_heads.specs.Listed.{intents_in};
ghost use Rattle.dpl_heads.specs.Made.{reduced_leaves, kept_at, kept_of, kept_all};
ghost use Rattle.dpl_heads.specs.Seen.{see, named, intent_name, intent_told, seen_told};

use dpl_nodes::Intent as Reduced;
use dpl_scopes::value_type::kind_of;
use dpl_scopes::{Declared, Scopes, Sort};
use dpl_syntax::{Breach, Code, Place};
use dpl_tree::{Arena, Intent, Name, NextIntent, Op, With};
use dpl_types::found::is_cell;
use dpl_types::{Part, Want, note, owed, wanted};
use std::alloc::AllocError;

// A reduce variable: known, no constant, no cell, and of the kind that the operator takes.
#[tactic(auto, using(dpl_types::proofs::Breaches::least_from_append))]
fn reduce_intent(op: Op, at: Place, declared: Option<Declared<'_>>, first: &mut Option<Breach>)
    ensures { first.new ≡ least_from first.old (reduce_intent_of op at (option_map declared_view declared.entry)) }
{
    match declared {
        None => note(first, at, Code::UnknownName),
        Some(declared) => {
            owed(
                !declared.sort.is_constant(),
                at,
                Code::ConstantWritten,
                first,
            );
            if is_cell(declared.value_type) {
                note(first, at, Code::CellMisused);
            } else {
                let part = Part {
                    at,
                    found: declared.value_type,
                };
                wanted(Want::Scalar(kind_of(op)), part, first);
            }
        }
    }
}

// A name that is shared: a `var`, or any cell.
fn ref_intent(at: Place, declared: Option<Declared<'_>>, first: &mut Option<Breach>)
    ensures { first.new ≡ least_from first.old (ref_intent_of at (option_map declared_view declared.entry)) }
{
    match declared {
        None => note(first, at, Code::UnknownName),
        Some(declared) => {
            if !is_cell(declared.value_type) {
                owed(
                    !declared.sort.is_constant(),
                    at,
                    Code::ConstantWritten,
                    first,
                );
            }
        }
    }
}

// The name of an intent.
fn name_of<'a, 't>(intent: &'a Intent<'t>) -> &'a Name<'t>
    ensures { result.now ≡ intent_name intent.now }
{
    match intent {
        Intent::Reduce(_, _, _, name) | Intent::Ref(_, name) => name,
    }
}

// A reduce variable is kept, if it is known; its kind is the operator's.
fn keep(kept: &mut Vec<Reduced>, op: Op, declared: Option<Declared<'_>>) -> Result<(), AllocError>
    ensures { OnOk result (map step_intent kept.new.items ≡ map step_intent kept.old.items ++ kept_at op (option_map (λ d. d.slot) declared.entry)) }
{
    let Some(declared) = declared else {
        return Ok(());
    };
    let reduced = Reduced {
        kind: kind_of(op),
        slot: declared.slot,
        op,
    };
    match kept.push(reduced) {
        Ok(()) => Ok(()),
        Err(_) => Err(AllocError),
    }
}

// An intent is judged behind those whose names were seen, and kept. These stand in a scope of their own.
#[tactic(auto, using(dpl_types::proofs::Breaches::least_from_append))]
fn intent<'t>(
    scopes: &Scopes<'t>,
    seen: &mut Scopes<'t>,
    kept: &mut Vec<Reduced>,
    written: &Intent<'t>,
    first: &mut Option<Breach>,
) -> Result<(), AllocError>
    ensures seen { OnOk result (seen.new ≡ see (named (intent_view written.now)) seen.old) }
    ensures told { OnOk result (first.new ≡ least_from first.old (intent_told scopes.now seen.old (intent_view written.now))) }
    ensures kept { OnOk result (map step_intent kept.new.items ≡ map step_intent kept.old.items ++ kept_of scopes.now (intent_view written.now)) }
{
    let name = name_of(written);
    owed(
        !seen.declared_here(name.text),
        name.at,
        Code::NameTwice,
        first,
    );
    let Ok(()) = seen.declare(name.text, Sort::Variable, None) else {
        return Err(AllocError);
    };
    let declared = scopes.lookup(name.text);
    match written {
        Intent::Reduce(_, op, _, _) => {
            reduce_intent(*op, name.at, declared, first);
            keep(kept, *op, declared)
        }
        Intent::Ref(_, _) => {
            ref_intent(name.at, declared, first);
            Ok(())
        }
    }
}

// Further intents.
fn more_intents<'t>(
    scopes: &Scopes<'t>,
    seen: &mut Scopes<'t>,
    kept: &mut Vec<Reduced>,
    others: &[NextIntent<'t>],
    first: &mut Option<Breach>,
) -> Result<(), AllocError>
    ensures told { OnOk result (first.new ≡ least_from first.old (seen_told scopes.now seen.old (intents_in others.now))) }
    ensures kept { OnOk result (map step_intent kept.new.items ≡ map step_intent kept.old.items ++ kept_all scopes.now (intents_in others.now)) }
{
    for next in others {
        let Ok(()) = intent(scopes, seen, kept, &next.intent, first) else {
            return Err(AllocError);
        };
    }
    Ok(())
}

/// The intents of a loop, if it has some: the reduce variables, in order. Where a rule is broken, of these nothing is said.
///
/// # Errors
/// Out of memory; of what was told then nothing is said.
pub fn intents<'t>(
    arena: Arena<'t>,
    scopes: &Scopes<'t>,
    with: &Option<With<'t>>,
    first: &mut Option<Breach>,
) -> Result<&'t [Reduced], AllocError>
    ensures told { OnOk result (first.new ≡ least_from first.old (with_breaches scopes.now (optional with_view with.now))) }
    ensures node { IfOk result (λ is. first.new ≡ None → AreKnownScopes scopes.now
        → map step_intent is.now ≡ reduced_leaves scopes.now (intents_of (optional with_view with.now))) }
{
    let mut kept = Vec::new(arena.alloc());
    match with {
        None => arena.list(kept),
        Some(with) => {
            let Ok(mut seen) = Scopes::new(arena.alloc()) else {
                return Err(AllocError);
            };
            let Ok(()) = intent(scopes, &mut seen, &mut kept, &with.first, first) else {
                return Err(AllocError);
            };
            let Ok(()) = more_intents(scopes, &mut seen, &mut kept, with.others, first) else {
                return Err(AllocError);
            };
            arena.list(kept)
        }
    }
}
