// The run of a text, from bytes to bytes: it is lexed, parsed and checked, and the checked program is run.
// The theorem of the whole stands on `run_text`.

ghost use Rattle.std.specs.Prelude.{◌≡◌, ℕ, List, map, None, Some, IfOk, IfErr, IsErrOf, OnOk, Err, false, true};
ghost use Rattle.std.specs.Io.KnownBytes.{Appends, Keeps};
ghost use Rattle.dpl_history.specs.declared.history.Event.{Event};
ghost use Rattle.dpl_syntax.specs.declared.refusal.Refusal.{Refusal};
ghost use Rattle.dpl_syntax.specs.declared.stop.Stop.TheVariants as stage;
ghost use Rattle.dpl_grammar.specs.Classes.{task_words};
ghost use Rattle.dpl_tree.specs.Statements.{program_view};
ghost use Rattle.dpl_says.specs.Says.{refusal_of};
ghost use Rattle.dpl_loop.specs.Entries.{MayRefuseSome};
ghost use Rattle.dpl_run.specs.Programs.{AreSpelled, Runs};
ghost use Rattle.dpl_run.specs.Headline.{ComesTo, Says, IsRead};
ghost use Rattle.dpl_run.specs.Refusing.{IsRejection, IsCause, IsUnwritten};
ghost use Rattle.dpl_outcome.specs.Settings.{limits_of};
ghost use Rattle.dpl_outcome.specs.declared.outcome.Outcome.{Outcome};
ghost use Rattle.dpl_outcome.specs.Writers.{Partly};

use crate::checking::check;
use crate::run::{Ended, deliver, run_to_end};
use bumpalo::Bump;
use dpl_lexer::lex;
use dpl_loop::Gate;
use dpl_outcome::{Config, Out, Outcome, Refused, tell_refusal};
use dpl_parser::parse;
use dpl_syntax::{Refusal, Stop, Token};
use dpl_tree::{Arena, Program};
use std::alloc::{AllocError, Global};
use std::sync::Wait;
use std::thread::Threads;

// A refused text writes its refusal's line alone.
fn reject(alloc: Global, refusal: Refusal) -> Result<Ended, AllocError>
    ensures { IfOk result (λ ended. IsRejection refusal ended.outcome ended.text.items) }
{
    let mut text = Vec::new(alloc);
    tell_refusal(alloc, refusal, &mut text)?;
    Ok(Ended {
        outcome: Outcome::Rejected(refusal),
        text,
    })
}

// The run of a tree that tokens spell, or what it is refused for.
fn run_spelled<'t, R: Threads + Wait + Sync, G: Gate + Sync>(
    rt: &R,
    arena: Arena<'t>,
    tokens: &[Token<'t>],
    program: &Program<'t>,
    sets: &[&str],
    config: &Config,
    gate: &G,
) -> Result<Result<Ended, Refused>, Stop>
    requires spelled { AreSpelled tokens.now (program_view program.now) }
    ensures runs { IfOk result (λ ran. IfOk ran (λ ended.
        Runs (record { tree = program_view program.now; sets = map (λ set. set.now) sets.now }) (limits_of config.now) ended.outcome ended.text.items)) }
    ensures unwritten { IfOk result (λ ran. IfErr ran (IsUnwritten (MayRefuseSome (G.may_refuse gate.now)))) }
    ensures unrefused { OnOk result (refusal_of task_words (map (λ set. set.now) sets.now) tokens.now (program_view program.now) ≡ None) }
    ensures refused { (r : Refusal) → IsErrOf result (stage.Refused r)
        → refusal_of task_words (map (λ set. set.now) sets.now) tokens.now (program_view program.now) ≡ Some r }
{
    let checked = check(arena, tokens, program, sets)?;
    Ok(run_to_end(rt, arena.alloc(), &checked, config, gate))
}

// The run of a text's program, or the text's refusal. The tokens are dropped at the end, since the tree points into the text
// alone.
fn stages<R: Threads + Wait + Sync, G: Gate + Sync>(
    rt: &R,
    alloc: Global,
    text: &[u8],
    sets: &[&str],
    config: &Config,
    gate: &G,
) -> Result<Result<Ended, Refused>, Stop>
    ensures comes { IfOk result (λ ran. IfOk ran (λ ended. (histories : List (List Event))
        → ComesTo text.now (map (λ set. set.now) sets.now) (limits_of config.now) histories ended.outcome ended.text.items)) }
    ensures unwritten { IfOk result (λ ran. IfErr ran (IsUnwritten (MayRefuseSome (G.may_refuse gate.now)))) }
    ensures stops { IfErr result (IsCause text.now (map (λ set. set.now) sets.now)) }
{
    let tokens = lex(alloc, text)?;
    let nodes = Bump::new(alloc);
    let arena = Arena::new(&nodes, alloc);
    let slice = tokens.as_slice();
    let program = parse(arena, slice)?;
    run_spelled(rt, arena, slice, &program, sets, config, gate)
}

// What a text comes to: the run of its program, or its refusal.
fn outcome<R: Threads + Wait + Sync, G: Gate + Sync>(
    rt: &R,
    alloc: Global,
    text: &[u8],
    sets: &[&str],
    config: &Config,
    gate: &G,
) -> Result<Ended, Refused>
    ensures comes { IfOk result (λ ended. (histories : List (List Event))
        → ComesTo text.now (map (λ set. set.now) sets.now) (limits_of config.now) histories ended.outcome ended.text.items) }
    ensures unwritten { IfErr result (IsUnwritten (MayRefuseSome (G.may_refuse gate.now))) }
{
    match stages(rt, alloc, text, sets, config, gate) {
        Ok(ran) => ran,
        Err(Stop::Refused(refusal)) => Ok(reject(alloc, refusal)?),
        Err(Stop::Memory) => Err(Refused::Memory),
    }
}

/// Runs a text: what is written, and the outcome, are those of the language's definition, in which a forall is a plain
/// loop. Of the settings a data-parallel text sees the budget alone.
///
/// `text` is any bytes. `sets` are words `name=value`, which give values to the program's `config const`s. `rt` starts the
/// workers of foralls, which are joined before this answers. The gate is asked before each turn of a forall, unless it is open. Output is
/// held until the run has ended, and goes to `out`, which must not have failed before.
///
/// # Errors
/// Out of memory, a worker was not started, or the gate refused an entry, and nothing was written; or the writer failed, and it holds the first bytes of
/// what the text writes.
pub fn run_text<R: Threads + Wait + Sync, G: Gate + Sync, W: Out>(
    rt: &R,
    alloc: Global,
    text: &[u8],
    sets: &[&str],
    config: &Config,
    gate: &G,
    out: &mut W,
) -> Result<Outcome, Refused>
    requires { W.has_failed out.old ≡ false }
    // What is written, and the outcome, are what the text says: it comes to them and to no others, and where it is data-parallel
    // it does so whatever histories there are, and on every number of locales.
    ensures written { IfOk result (λ outcome. (said : List ℕ) × Appends (W.contents out.old) (W.contents out.new) said
        × Says text.now (map (λ set. set.now) sets.now) (limits_of config.now) outcome said) }
    ensures unfailed { OnOk result (W.has_failed out.new ≡ false) }
    // Whether the run is refused or not, the text is a program or has a refusal.
    ensures read { IsRead text.now (map (λ set. set.now) sets.now) }
    // Without memory nothing was written.
    ensures memory { result ≡ Err Refused.Memory
        → Keeps (W.contents out.old) (W.contents out.new) × (W.has_failed out.new ≡ false) }
    // Nothing was written where a worker was not started.
    ensures thread { result ≡ Err Refused.Thread
        → Keeps (W.contents out.old) (W.contents out.new) × (W.has_failed out.new ≡ false) }
    // The gate refused an entry only where it may. Nothing was written.
    ensures gate { result ≡ Err Refused.Gate → MayRefuseSome (G.may_refuse gate.now)
        × Keeps (W.contents out.old) (W.contents out.new) × (W.has_failed out.new ≡ false) }
    // A writer that failed holds the first bytes of what the text writes.
    ensures writer { result ≡ Err Refused.Writer → (W.has_failed out.new ≡ true)
        × ((outcome : Outcome) × (said : List ℕ) × Says text.now (map (λ set. set.now) sets.now) (limits_of config.now) outcome said
        × Partly (W.contents out.old) (W.contents out.new) said) }
{
    let ended = outcome(rt, alloc, text, sets, config, gate)?;
    deliver(ended, out)
}
