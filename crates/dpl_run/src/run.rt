// The run of a program that was checked, from its steps to what it writes.
// Its output is held until it has ended, and then written at once.

ghost use Rattle.std.specs.Prelude.{◌≡◌, ℕ, List, IfOk, IfErr, OnOk, OnErr, true, false};
ghost use Rattle.std.specs.Io.KnownBytes.{Appends, Keeps};
ghost use Rattle.dpl_language.specs.Outcome.{no_deeds};
ghost use Rattle.dpl_language.specs.Program.{settled};
ghost use Rattle.dpl_language.specs.Statements.{exec_all};
ghost use Rattle.dpl_memory.specs.Memory.{in_memory};
ghost use Rattle.dpl_standing.specs.Standing.{Outside};
ghost use Rattle.dpl_loop.specs.Entries.{MayRefuseSome};
ghost use Rattle.dpl_readings.specs.Readings.{steps_in};
ghost use Rattle.dpl_bound.specs.Sights.{AreKnownScopes};
ghost use Rattle.dpl_run.specs.TopLevel.{AreLeft};
ghost use Rattle.dpl_run.specs.Elaborated.{IsChecked, program_of};
ghost use Rattle.dpl_run.specs.Programs.{Runs};
ghost use Rattle.dpl_run.specs.Refusing.{IsUnwritten};
ghost use Rattle.dpl_run.specs.Runs.{RanTo};
ghost use Rattle.dpl_outcome.specs.Settings.{limits_of};
ghost use Rattle.dpl_outcome.specs.Writers.{Partly};
ghost use Rattle.dpl_outcome.specs.declared.outcome.Outcome.{Outcome};

use crate::checked::Checked;
use dpl_frame::Frame;
use dpl_loop::{Gate, RunStop};
use dpl_nodes::Step;
use dpl_outcome::{Config, Out, Outcome, Refused, collect, first_frame, tell_fault, write_all};
use dpl_program::run as run_steps;
use dpl_scopes::Scopes;
use std::alloc::Global;
use std::sync::Wait;
use std::thread::Threads;

/// What a run came to, and all that it writes.
#[derive(Drop)]
pub(crate) struct Ended {
    pub(crate) outcome: Outcome,
    pub(crate) text: Vec<u8>,
}

// Runs the steps of a program to their end, and writes nothing. The scopes have the names that it leaves.
fn run<'t, R: Threads + Wait + Sync, G: Gate + Sync>(
    rt: &R,
    alloc: Global,
    steps: &[Step<'t>],
    mut frame: Frame,
    scopes: &Scopes<'_>,
    gate: &G,
) -> Result<Ended, Refused>
    ensures ends { IfOk result (λ ended. AreKnownScopes scopes.now → AreLeft scopes.now
        → RanTo scopes.now (settled (exec_all frame.limits in_memory
        (steps_in Outside steps.now) frame.memory no_deeds)) ended.outcome ended.text.items) }
    ensures unwritten { IfErr result (IsUnwritten (MayRefuseSome (G.may_refuse gate.now))) }
{
    let mut text = Vec::new(alloc);
    match run_steps(rt, steps, &mut frame, gate, &mut text) {
        Ok(()) => {
            let left = collect(alloc, scopes, frame)?;
            let outcome = Outcome::Done(left);
            Ok(Ended { outcome, text })
        }
        Err(RunStop::Fault(fault)) => {
            tell_fault(alloc, fault, &mut text)?;
            let outcome = Outcome::Stopped(fault);
            Ok(Ended { outcome, text })
        }
        Err(RunStop::Memory) => Err(Refused::Memory),
        Err(RunStop::Thread) => Err(Refused::Thread),
        Err(RunStop::Gate) => Err(Refused::Gate),
    }
}

/// Writes what a run writes, and tells its outcome.
///
/// # Errors
/// The writer failed. It then holds the first of the bytes.
pub(crate) fn deliver<W: Out>(ended: Ended, out: &mut W) -> Result<Outcome, Refused>
    requires { W.has_failed out.old ≡ false }
    ensures outcome { IfOk result (λ outcome. outcome ≡ ended.outcome) }
    ensures written { OnOk result (Appends (W.contents out.old) (W.contents out.new) ended.text.items) }
    ensures unfailed { OnOk result (W.has_failed out.new ≡ false) }
    ensures partly { OnErr result (Partly (W.contents out.old) (W.contents out.new) ended.text.items) }
    ensures failed { OnErr result (W.has_failed out.new ≡ true) }
    ensures writer { IfErr result (λ e. e ≡ Refused.Writer) }
{
    write_all(out, &ended.text)?;
    Ok(ended.outcome)
}

/// Runs a program to its end, and writes nothing.
///
/// # Errors
/// Out of memory; a worker was not started; or the gate refused an entry.
pub(crate) fn run_to_end<R: Threads + Wait + Sync, G: Gate + Sync>(
    rt: &R,
    alloc: Global,
    checked: &Checked<'_, '_>,
    config: &Config,
    gate: &G,
) -> Result<Ended, Refused>
    requires { IsChecked checked.now }
    ensures runs { IfOk result (λ ended. Runs (program_of checked.now) (limits_of config.now) ended.outcome ended.text.items) }
    ensures unwritten { IfErr result (IsUnwritten (MayRefuseSome (G.may_refuse gate.now))) }
{
    let frame = first_frame(alloc, checked.slots, &checked.words, config)?;
    run(rt, alloc, &checked.steps, frame, &checked.scopes, gate)
}

/// Runs a program that was checked: what is written, and the outcome, are those of the language's definition, in which a forall is a
/// plain loop. Of the settings the program sees the budget alone. It can be run as often as is wanted.
///
/// `rt`, `gate` and `out` are as for [`run_text`](crate::run_text).
///
/// # Errors
/// Out of memory, a worker was not started, or the gate refused an entry, and nothing was written; or the writer failed, and it holds the first bytes of
/// what the program writes.
pub fn run_checked<R: Threads + Wait + Sync, G: Gate + Sync, W: Out>(
    rt: &R,
    alloc: Global,
    checked: &Checked<'_, '_>,
    config: &Config,
    gate: &G,
    out: &mut W,
) -> Result<Outcome, Refused>
    requires checked { IsChecked checked.now }
    requires unfailed { W.has_failed out.old ≡ false }
    // The program comes to the outcome and to what is written, and to no others, by some histories; and where its tree has no form of tasks, by all
    // and on every number of locales.
    ensures written { IfOk result (λ outcome. (said : List ℕ) × Appends (W.contents out.old) (W.contents out.new) said
        × Runs (program_of checked.now) (limits_of config.now) outcome said) }
    ensures unfailed { OnOk result (W.has_failed out.new ≡ false) }
    // Without memory nothing was written.
    ensures memory { result ≡ Err Refused.Memory
        → Keeps (W.contents out.old) (W.contents out.new) × (W.has_failed out.new ≡ false) }
    // Nothing was written where a worker was not started.
    ensures thread { result ≡ Err Refused.Thread
        → Keeps (W.contents out.old) (W.contents out.new) × (W.has_failed out.new ≡ false) }
    // The gate refused an entry only where it may. Nothing was written.
    ensures gate { result ≡ Err Refused.Gate → MayRefuseSome (G.may_refuse gate.now)
        × Keeps (W.contents out.old) (W.contents out.new) × (W.has_failed out.new ≡ false) }
    // A writer that failed holds the first bytes of what the program writes.
    ensures writer { result ≡ Err Refused.Writer → (W.has_failed out.new ≡ true)
        × ((outcome : Outcome) × (said : List ℕ) × Runs (program_of checked.now) (limits_of config.now) outcome said
        × Partly (W.contents out.old) (W.contents out.new) said) }
{
    let ended = run_to_end(rt, alloc, checked, config, gate)?;
    deliver(ended, out)
}
