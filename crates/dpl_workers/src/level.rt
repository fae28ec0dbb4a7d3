// How the jobs of a forall's parts are done: by a worker each, on a thread of its own, or by the caller, one after another.
// A level starts the worker of the last job, goes down for those before it, then joins the worker and takes what it has left.

ghost use Rattle.std.specs.Prelude.{◌≡◌, [], Ok, IfOk, IfErr};
ghost use Rattle.dpl_sets.specs.Indices.{indices};
ghost use Rattle.dpl_language.specs.Loops.{named_turn};
ghost use Rattle.dpl_loop.specs.Values.{MayRefuseAmong};
ghost use Rattle.dpl_workers.specs.Parts.{indices_of};
ghost use Rattle.dpl_workers.specs.Workers.{HasWorked, HaveDone, IsUnmade};
ghost use Rattle.dpl_workers.specs.Soonest.{IsToldOf};

use crate::job::{Job, Worked};
use crate::part::part_turns;
use crate::parts::Part;
use crate::soonest::told_first;
use dpl_domain::Domain;
use dpl_frame::{Frame, Shares};
use dpl_loop::{Gate, RunStop, Turns};
use dpl_map::Map;
use dpl_threads::start;
use std::snapshot::Snapshot;
use std::sync::Wait;
use std::thread::{self, Promise, Scope, Threads};

// What all workers of a forall share.
#[derive(Drop)]
pub(crate) struct Site<'a, T, G> {
    pub(crate) turns: &'a T,
    pub(crate) whole: &'a Domain,
    pub(crate) map: &'a Map,
    pub(crate) gate: &'a G,
}

/// Who does the jobs of a loop.
#[derive(Clone, Copy)]
pub(crate) enum Makers {
    /// A worker for each, on a thread of its own.
    Workers,
    /// The caller, one after another.
    Caller,
}

// What a job comes to: the turns of its part, in order.
fn work<T: Turns, G: Gate>(
    site: &Site<'_, T, G>,
    locale: u32,
    part: &Part,
    frame: Frame<Shares<'_>>,
) -> Worked
    ensures locale { result.locale ≡ locale }
    ensures worked { HasWorked (MayRefuseAmong (G.may_refuse site.now.gate.now) site.now.map.now (indices site.now.whole.now))
        (named_turn (T.turn site.now.turns.now frame.entry.limits)) (indices_of part.now site.now.whole.now site.now.map.now locale)
        frame.entry.memory result }
{
    let mut frame = frame;
    let end = part_turns(site, locale, part, &mut frame);
    let (words, own) = frame.into_parts();
    Worked {
        locale,
        words,
        own,
        end,
    }
}

// What a worker's thread promises of what it hands back.
#[derive(Drop)]
struct Working<'a, T, G> {
    site: &'a Site<'a, T, G>,
    locale: u32,
    part: &'a Part,
    began: Snapshot<Frame<Shares<'a>>>,
}

impl<'a, T: Turns, G: Gate> Promise<Worked> for Working<'a, T, G> {
    ghost use Rattle.std.specs.Prelude.{◌≡◌};
    ghost use Rattle.dpl_sets.specs.Indices.{indices};
    ghost use Rattle.dpl_language.specs.Loops.{named_turn};
    ghost use Rattle.dpl_loop.specs.Values.{MayRefuseAmong};
    ghost use Rattle.dpl_workers.specs.Parts.{indices_of};
    ghost use Rattle.dpl_workers.specs.Workers.{HasWorked};

    ghost kept_by = { λ p w. (w.locale ≡ p.locale)
        × HasWorked (MayRefuseAmong (G.may_refuse p.site.now.gate.now) p.site.now.map.now (indices p.site.now.whole.now))
        (named_turn (T.turn p.site.now.turns.now p.began.value.limits))
        (indices_of p.part.now p.site.now.whole.now p.site.now.map.now p.locale) p.began.value.memory w };
}

// What workers have left, and the one that was joined behind them. Where not all of these were made, what is told of both.
fn both(
    whole: &Domain,
    below: Result<Vec<Worked>, RunStop>,
    worked: Worked,
) -> Result<(Vec<Worked>, Worked), RunStop>
    requires { IfErr below IsUnmade }
    ensures ok { IfOk result (λ r. (below ≡ Ok r.0) × (worked ≡ r.1)) }
    ensures told { IfErr result (IsToldOf (indices whole.now) below worked.end) }
    ensures unmade { IfErr result IsUnmade }
{
    match below {
        Ok(done) => Ok((done, worked)),
        Err(stop) => Err(told_first(whole, stop, worked.end)),
    }
}

// Starts a worker for each job, and takes what they have left, in the order of the jobs.
fn start_all<'s, E, T: Turns + Sync, G: Gate + Sync, R: Threads + Sync>(
    rt: &R,
    scope: &Scope<'s, E>,
    site: &'s Site<'s, T, G>,
    mut jobs: Vec<Job<'s>>,
    done: Vec<Worked>,
) -> Result<Vec<Worked>, RunStop>
    requires { done.items ≡ [] }
    ensures done { IfOk result (λ ws. HaveDone (MayRefuseAmong (G.may_refuse site.now.gate.now) site.now.map.now (indices site.now.whole.now))
        (λ limits. named_turn (T.turn site.now.turns.now limits)) site.now.whole.now site.now.map.now jobs.entry.items ws.items) }
    ensures refused { IfErr result IsUnmade }
{
    let Some(job) = jobs.pop() else {
        return Ok(done);
    };
    let Job {
        locale,
        part,
        frame,
    } = job;
    let promise = Working {
        site,
        locale,
        part,
        began: Snapshot::of(&frame),
    };
    let task = move || -> Worked
        ensures locale { result.locale ≡ locale }
        ensures worked { HasWorked (MayRefuseAmong (G.may_refuse site.entry.now.gate.now) site.entry.now.map.now (indices site.entry.now.whole.now))
            (named_turn (T.turn site.entry.now.turns.now frame.entry.limits))
            (indices_of part.entry.now site.entry.now.whole.now site.entry.now.map.now locale) frame.entry.memory result }
    { work(site, locale, part, frame) };
    let Ok(handle) = start(scope, promise, task) else {
        return Err(RunStop::Thread);
    };
    let below = start_all(rt, scope, site, jobs, done);
    let worked = handle.join(rt);
    let (mut done, worked) = both(site.whole, below, worked)?;
    done.push(worked)?;
    Ok(done)
}

// Does these jobs in a scope, each by a worker of its own. All that were started are joined.
fn by_workers<'a, T: Turns + Sync, G: Gate + Sync, R: Threads + Wait + Sync>(
    rt: &R,
    site: &'a Site<'a, T, G>,
    jobs: Vec<Job<'a>>,
    done: Vec<Worked>,
) -> Result<Vec<Worked>, RunStop>
    requires { done.items ≡ [] }
    ensures done { IfOk result (λ ws. HaveDone (MayRefuseAmong (G.may_refuse site.now.gate.now) site.now.map.now (indices site.now.whole.now))
        (λ limits. named_turn (T.turn site.now.turns.now limits)) site.now.whole.now site.now.map.now jobs.entry.items ws.items) }
    ensures refused { IfErr result IsUnmade }
{
    thread::scope(
        thread::scope_env(),
        rt,
        move |scope| -> Result<Vec<Worked>, RunStop>
            requires { done.items ≡ [] }
            ensures done { IfOk result (λ ws. HaveDone (MayRefuseAmong (G.may_refuse site.entry.now.gate.now) site.entry.now.map.now
                (indices site.entry.now.whole.now)) (λ limits. named_turn (T.turn site.entry.now.turns.now limits)) site.entry.now.whole.now
                site.entry.now.map.now jobs.entry.items ws.items) }
            ensures refused { IfErr result IsUnmade }
        { start_all(rt, scope, site, jobs, done) },
    )
}

// Does these jobs one after another.
fn by_caller<'a, T: Turns, G: Gate>(
    site: &Site<'a, T, G>,
    mut jobs: Vec<Job<'a>>,
    done: Vec<Worked>,
) -> Result<Vec<Worked>, RunStop>
    requires { done.items ≡ [] }
    ensures done { IfOk result (λ ws. HaveDone (MayRefuseAmong (G.may_refuse site.now.gate.now) site.now.map.now (indices site.now.whole.now))
        (λ limits. named_turn (T.turn site.now.turns.now limits)) site.now.whole.now site.now.map.now jobs.entry.items ws.items) }
    ensures refused { IfErr result IsUnmade }
{
    let Some(job) = jobs.pop() else {
        return Ok(done);
    };
    let Job {
        locale,
        part,
        frame,
    } = job;
    let mut done = by_caller(site, jobs, done)?;
    done.push(work(site, locale, part, frame))?;
    Ok(done)
}

/// Does these jobs. All workers that were started are joined.
///
/// # Errors
/// Out of memory, for one of the workers or for what one has left; or else a worker was not started.
pub(crate) fn work_all<'a, T: Turns + Sync, G: Gate + Sync, R: Threads + Wait + Sync>(
    rt: &R,
    makers: Makers,
    site: &'a Site<'a, T, G>,
    jobs: Vec<Job<'a>>,
    done: Vec<Worked>,
) -> Result<Vec<Worked>, RunStop>
    requires { done.items ≡ [] }
    ensures done { IfOk result (λ ws. HaveDone (MayRefuseAmong (G.may_refuse site.now.gate.now) site.now.map.now (indices site.now.whole.now))
        (λ limits. named_turn (T.turn site.now.turns.now limits)) site.now.whole.now site.now.map.now jobs.entry.items ws.items) }
    ensures refused { IfErr result IsUnmade }
{
    match makers {
        Makers::Workers => by_workers(rt, site, jobs, done),
        Makers::Caller => by_caller(site, jobs, done),
    }
}
