// `write` and `writeln`: arguments in order, of which none is left out.
// Each is judged, and made, before the next one.

ghost use Rattle.std.specs.Prelude.{◌≡◌, ◌++◌, None, Some, Option, OnOk, IfOk};
ghost use Rattle.dpl_language.specs.Tree.{Write as WriteTree};
ghost use Rattle.dpl_language.specs.Writing.{arguments_of};
ghost use Rattle.dpl_nodes.specs.Steps.{step_view};
ghost use Rattle.dpl_rules.specs.Assignments.{printed_breaches};
ghost use Rattle.dpl_rules.specs.Breaches.{least_from};
ghost use Rattle.dpl_rules.specs.Doings.{arguments_deeds, stmt_deeds};
ghost use Rattle.dpl_rules.specs.Sights.{Reducing as ReducingTree};
ghost use Rattle.dpl_tree.specs.Declarations.{optional};
ghost use Rattle.dpl_tree.specs.Statements.{arguments_view, written_view};
ghost use Rattle.dpl_deeds.specs.View.{Adds};
ghost use Rattle.dpl_bound.specs.Run.{stmt_leaves};
ghost use Rattle.dpl_bound.specs.Sights.{AreKnownScopes};
ghost use Rattle.dpl_prints.specs.Plain.{ArePlainArguments, IsPlainPrint};
ghost use Rattle.dpl_prints.specs.Told.{within, printed_told, arguments_in};
ghost use Rattle.dpl_prints.specs.Made.{listed, AreBehind, AreArgumentsAs};

use crate::shown::argument;
use dpl_deeds::{Deed, Holding, held};
use dpl_nodes::Step;
use dpl_nodes::step::Argument as Shown;
use dpl_scopes::Scopes;
use dpl_syntax::Breach;
use dpl_tree::{Arena, Arguments, NextArgument, Write};
use std::alloc::AllocError;

// One more, behind those so far, if there is one.
fn push<'t>(shown: &mut Vec<Shown<'t>>, next: Option<Shown<'t>>) -> Result<(), AllocError>
    ensures { OnOk result (shown.new.items ≡ shown.old.items ++ listed next.entry) }
{
    let Some(next) = next else {
        return Ok(());
    };
    match shown.push(next) {
        Ok(()) => Ok(()),
        Err(_) => Err(AllocError),
    }
}

// Further arguments, behind those so far.
fn more_arguments<'t>(
    arena: Arena<'t>,
    scopes: &Scopes<'t>,
    in_task: bool,
    others: &[NextArgument<'_>],
    shown: &mut Vec<Shown<'t>>,
    deeds: &mut Vec<Deed<'t>>,
    first: &mut Option<Breach>,
) -> Result<(), AllocError>
    ensures told { OnOk result (first.new ≡ least_from first.old (printed_told scopes.now in_task (arguments_in others.now))) }
    ensures node { OnOk result (first.new ≡ None → AreKnownScopes scopes.now → ArePlainArguments scopes.now (arguments_in others.now)
        → AreBehind scopes.now shown.old.items (arguments_in others.now) shown.new.items) }
    ensures deeds { OnOk result (Adds (arguments_deeds scopes.now (arguments_in others.now)) deeds.old.items deeds.new.items) }
{
    for next in others {
        let Ok(made) = argument(arena, scopes, in_task, &next.argument, deeds, first) else {
            return Err(AllocError);
        };
        let Ok(()) = push(shown, made) else {
            return Err(AllocError);
        };
    }
    Ok(())
}

// One argument or more.
#[tactic(auto, using(dpl_types::proofs::Breaches::least_from_append, crate::proofs::Printing::arguments_next))]
fn arguments<'t>(
    arena: Arena<'t>,
    scopes: &Scopes<'t>,
    in_task: bool,
    written: &Arguments<'_>,
    deeds: &mut Vec<Deed<'t>>,
    first: &mut Option<Breach>,
) -> Result<&'t [Shown<'t>], AllocError>
    ensures told { IfOk result (λ r. first.new ≡ least_from first.old (printed_told scopes.now in_task (arguments_of (Some (arguments_view written.now))))) }
    ensures node { IfOk result (λ r. first.new ≡ None → AreKnownScopes scopes.now
        → ArePlainArguments scopes.now (arguments_of (Some (arguments_view written.now)))
        → AreArgumentsAs scopes.now (arguments_of (Some (arguments_view written.now))) r.now) }
    ensures deeds { OnOk result (Adds (arguments_deeds scopes.now (arguments_of (Some (arguments_view written.now)))) deeds.old.items deeds.new.items) }
{
    let mut shown = Vec::new(arena.alloc());
    let Ok(made) = argument(arena, scopes, in_task, &written.first, deeds, first) else {
        return Err(AllocError);
    };
    let Ok(()) = push(&mut shown, made) else {
        return Err(AllocError);
    };
    let Ok(()) = more_arguments(
        arena,
        scopes,
        in_task,
        written.others,
        &mut shown,
        deeds,
        first,
    ) else {
        return Err(AllocError);
    };
    arena.list(shown)
}

/// What is printed, in a task or not. Where an argument breaks a rule, or doesn't run, the step leaves it out: of such a step
/// nothing is said.
///
/// # Errors
/// Out of memory; of what was told and done then nothing is said.
#[tactic(auto, using(crate::proofs::Printing::printed_breaches_told))]
pub fn print<'t>(
    arena: Arena<'t>,
    scopes: &Scopes<'t>,
    in_task: bool,
    written: &Write<'_>,
    deeds: &mut Vec<Deed<'t>>,
    first: &mut Option<Breach>,
) -> Result<Step<'t>, AllocError>
    ensures told { (forall : Option ReducingTree) → OnOk result (first.new
        ≡ least_from first.old (printed_breaches (within scopes.now forall in_task) (arguments_of (optional arguments_view written.now.arguments)))) }
    ensures node { IfOk result (λ s. first.new ≡ None → IsPlainPrint scopes.now (written_view written.now)
        → stmt_leaves scopes.now (WriteTree (written_view written.now)) ≡ step_view s) }
    ensures deeds { OnOk result (Adds (stmt_deeds scopes.now (WriteTree (written_view written.now))) deeds.old.items deeds.new.items) }
{
    let Ok(()) = held(written.at, Holding::Print, deeds) else {
        return Err(AllocError);
    };
    let Some(some) = &written.arguments else {
        return Ok(Step::Write {
            ends_line: written.ends_line,
            arguments: &[],
        });
    };
    let Ok(shown) = arguments(arena, scopes, in_task, some, deeds, first) else {
        return Err(AllocError);
    };
    Ok(Step::Write {
        ends_line: written.ends_line,
        arguments: shown,
    })
}
