// Foralls by workers: one for each locale whose part of the loop's domain isn't empty. Each owns its pieces of the arrays that the turns
// write, is lent the others, and adds to reduce variables from nothing; then all is put together.
// Turns that don't tell how they may be made apart are made in order, and so are those for which workers don't serve: where the gate is open
// and the loop is small or cut into small blocks, or writes an array of another map that isn't soon dealt anew (dealt.rt). Of small loops over
// arrays that are cut the caller makes those part by part, without threads, whose next index lies with another locale each time.

ghost use Rattle.std.specs.Prelude.{◌≡◌, [], ◌∷◌, ℕ, None, Ok, Err, map, length, IfOk, IfErr, IfSome, OnOk};
ghost use Rattle.std.specs.List.{AllByRecursion};
ghost use Rattle.dpl_sets.specs.Indices.{indices};
ghost use Rattle.dpl_domain.proofs.DistinctLemmas.{AreRanges};
ghost use Rattle.dpl_map.specs.Maps.{owner};
ghost use Rattle.dpl_language.specs.Ranges.{indices_in};
ghost use Rattle.dpl_language.specs.Outcome.{Deeds, in_order};
ghost use Rattle.dpl_language.specs.Loops.{named_turn};
ghost use Rattle.dpl_memory.specs.Memory.{Memory};
ghost use Rattle.dpl_apart.specs.Apart.{last_index};
ghost use Rattle.dpl_frame.specs.Frames.{with_memory};
ghost use Rattle.dpl_loop.specs.Runs.{RunsTo};
ghost use Rattle.dpl_loop.specs.Entries.{MayRefuse};
ghost use Rattle.dpl_loop.specs.Values.{MayRefuseAmong};
ghost use Rattle.dpl_workers.specs.Taken.{AreTaken, ArePieces, lacking};
ghost use Rattle.dpl_workers.specs.Foralls.{IsPlan, HaveMade, put_together};

use crate::dealt::may_deal;
use crate::formed::may_start;
use crate::given::give_back;
use crate::job::Worked;
use crate::jobs::jobs;
use crate::joined::{set_words, take_left, words_left};
use crate::level::{Makers, Site, work_all};
use crate::parts::{Part, parts};
use crate::soonest::ended;
use crate::taken::{Taken, take_all};
use dpl_contents::{DomainWord, WORTH};
use dpl_domain::{Domain, Index};
use dpl_frame::{Frame, Slots};
use dpl_loop::{Apart, Gate, RunStop, Turns, turns_of};
use dpl_map::Map;
use std::alloc::AllocError;
use std::sync::Wait;
use std::thread::Threads;

// Where a part is several domains, each worker looks at all blocks of the domain: so many indices of a row make good the look at one.
const LONG: u64 = 32;

// Whether the blocks that rows are cut into have many indices, as the block of the first index has.
fn has_long_blocks(domain: &Domain, map: &Map) -> bool {
    let Some(first) = domain.nth(0) else {
        return false;
    };
    let (_, _, inner) = domain.ranges();
    let step = inner.stride();
    let behind = map.likely(first, step);
    let before = map.likely(first, step.wrapping_neg());
    LONG < behind.saturating_add(before)
}

/// Whether workers serve a loop. A gate that isn't open sees who makes a turn, so there they are always started.
pub(crate) fn serve<G: Gate>(domain: &Domain, map: &Map, gate: &G) -> bool {
    if !gate.is_open() {
        return true;
    }
    1 < map.locales() && WORTH <= domain.size() && has_long_blocks(domain, map)
}

// Of so many indices of a row that a locale owns the turns are made at once, as in together.rt.
const FEW: u64 = 16;

// Whether the next index of a row lies with another locale each time, and each locale has many of them: in order no two turns are made at
// once, but part by part they are.
fn goes_round(domain: &Domain, map: &Map) -> bool {
    let Some((_, locales)) = map.round(domain.rank().saturating_sub(1)) else {
        return false;
    };
    let (_, _, inner) = domain.ranges();
    if inner.stride().checked_rem(i64::from(locales)) == Some(0) {
        return false;
    }
    FEW <= inner.size() / u64::from(locales).max(1)
}

// Who makes the parts of a loop; none where it is made in order.
fn makers<G: Gate>(domain: &Domain, map: &Map, gate: &G) -> Option<Makers> {
    if serve(domain, map, gate) {
        return Some(Makers::Workers);
    }
    if goes_round(domain, map) {
        return Some(Makers::Caller);
    }
    None
}

// How the turns of a loop are made apart, for each locale its part of the domain, and who makes these.
#[derive(Drop)]
struct Plan<'b> {
    apart: Apart<'b>,
    parts: Vec<Option<Part>>,
    makers: Makers,
}

// How a loop is made apart; none where that doesn't serve, or where what the law of turns that are made apart asks doesn't hold.
fn planned<'b, T: Turns, G: Gate>(
    site: &Site<'b, T, G>,
    frame: &Frame<Slots>,
) -> Result<Option<Plan<'b>>, AllocError>
    ensures { IfOk result (λ plan. IfSome plan (IsPlan (T.turn site.now.turns.now) site.now.whole.now site.now.map.now frame.now.memory)) }
{
    let Some(makers) = makers(site.whole, site.map, site.gate) else {
        return Ok(None);
    };
    let Some(apart) = site.turns.apart() else {
        return Ok(None);
    };
    if apart.rank != site.whole.rank() {
        return Ok(None);
    }
    if !may_start(&apart, frame) {
        return Ok(None);
    }
    if !may_deal(apart.written, makers, site, frame) {
        return Ok(None);
    }
    match parts(frame.alloc(), site.map, site.whole) {
        Ok(parts) => Ok(Some(Plan {
            apart,
            parts,
            makers,
        })),
        Err(error) => Err(error),
    }
}

// The turns of a loop are made part by part; what is left of each, where all of them ended well.
fn made<T: Turns + Sync, G: Gate + Sync, R: Threads + Wait + Sync>(
    rt: &R,
    site: &Site<'_, T, G>,
    plan: &Plan<'_>,
    taken: &mut Vec<Taken>,
    frame: &Frame<Slots>,
) -> Result<Vec<Worked>, RunStop>
    ensures made { IfOk result (λ ws. (m : Memory) → IsPlan (T.turn site.now.turns.now) site.now.whole.now site.now.map.now m plan.now
        → AreTaken site.now.map.now plan.now.apart.written m taken.old.items frame.now.memory
        → HaveMade (MayRefuseAmong (G.may_refuse site.now.gate.now) site.now.map.now (indices site.now.whole.now))
        (named_turn (T.turn site.now.turns.now frame.now.limits)) plan.now.apart site.now.whole.now site.now.map.now
        (length plan.now.parts.items) m ws.items) }
    ensures well { IfOk result (λ ws. AllByRecursion (λ w. w.end ≡ Ok tt) ws.items) }
    ensures left { IfOk result (λ ws. taken.new.items ≡ map (lacking (map (λ w. w.locale) ws.items)) taken.old.items) }
    ensures ends { IfErr result (λ h. (m s : Memory) (done : Deeds)
        → IsPlan (T.turn site.now.turns.now) site.now.whole.now site.now.map.now m plan.now
        → AreTaken site.now.map.now plan.now.apart.written m taken.old.items frame.now.memory → AreRanges site.now.whole.now
        → RunsTo (MayRefuseAmong (G.may_refuse site.now.gate.now) site.now.map.now (indices site.now.whole.now)) (Err h) s done
        (in_order (named_turn (T.turn site.now.turns.now frame.now.limits)) (indices site.now.whole.now) m done)) }
{
    let jobs = jobs(&plan.apart, &plan.parts, taken, frame)?;
    let worked = work_all(rt, plan.makers, site, jobs, Vec::new(frame.alloc()))?;
    ended(site.whole, &worked)?;
    Ok(worked)
}

// The last index of a domain, if it has one.
fn last(domain: &Domain) -> Option<Index>
    ensures { result ≡ last_index None (indices domain.now) }
{
    let size = domain.size();
    if size == 0 {
        return None;
    }
    domain.nth(size - 1)
}

// Puts together what workers have left.
fn put_together<T, G>(
    site: &Site<'_, T, G>,
    plan: &Plan<'_>,
    taken: Vec<Taken>,
    worked: Vec<Worked>,
    frame: &mut Frame<Slots>,
) -> Result<(), AllocError>
    ensures together { OnOk result (frame.new ≡ with_memory (put_together plan.now.apart (owner site.now.map.now)
        (last_index None (indices site.now.whole.now)) taken.items worked.items frame.old.memory) frame.old) }
    ensures pieces { OnOk result (AllByRecursion (λ t. ArePieces worked.items t.slot) taken.items) }
    ensures limits { frame.new.limits ≡ frame.old.limits }
{
    let mut worked = worked;
    let words = words_left(plan.apart.reduced, &worked, frame, Vec::new(frame.alloc()))?;
    give_back(taken, &mut worked, frame)?;
    if let Some(index) = last(site.whole) {
        take_left(site.map.owner(index), worked, frame);
    }
    set_words(plan.apart.reduced, &words, frame);
    Ok(())
}

// A loop that is made apart.
fn by_parts<T: Turns + Sync, G: Gate + Sync, R: Threads + Wait + Sync>(
    rt: &R,
    site: &Site<'_, T, G>,
    plan: &Plan<'_>,
    frame: &mut Frame<Slots>,
) -> Result<(), RunStop>
    requires plan { IsPlan (T.turn site.now.turns.now) site.now.whole.now site.now.map.now frame.old.memory plan.now }
    requires ranges { AreRanges site.now.whole.now }
    ensures ends { (done : Deeds) → RunsTo (MayRefuseAmong (G.may_refuse site.now.gate.now) site.now.map.now (indices site.now.whole.now))
        result frame.new.memory done
        (in_order (named_turn (T.turn site.now.turns.now frame.old.limits)) (indices site.now.whole.now) frame.old.memory done) }
    ensures limits { frame.new.limits ≡ frame.old.limits }
{
    let mut taken = take_all(plan.apart.written, site.map, frame, Vec::new(frame.alloc()))?;
    let worked = made(rt, site, plan, &mut taken, frame)?;
    put_together(site, plan, taken, worked, frame)?;
    Ok(())
}

/// A forall over a domain, dealt out by a map: by workers, one for each locale whose part isn't empty, where its turns may be made apart and
/// workers serve, and else by the caller, in order or part by part. For each turn the owner of its index enters the gate, unless the gate is
/// open. All workers that were started are joined before it answers.
///
/// # Errors
/// The first of these that came up in a part: out of memory; a worker was not started; the gate refused an entry, which it may; or the
/// fault of the first turn that has one, with its turn. Unless it ended well, nothing is said of the frame's memory.
pub fn forall<T: Turns + Sync, G: Gate + Sync, R: Threads + Wait + Sync>(
    rt: &R,
    turns: &T,
    over: DomainWord,
    map: &Map,
    frame: &mut Frame<Slots>,
    gate: &G,
) -> Result<(), RunStop>
    ensures ends { (done : Deeds) → RunsTo (MayRefuse (G.may_refuse gate.now) map.now over) result frame.new.memory done
        (in_order (named_turn (T.turn turns.now frame.old.limits)) (indices_in over) frame.old.memory done) }
    ensures limits { frame.new.limits ≡ frame.old.limits }
{
    let domain = over.domain();
    let site = Site {
        turns,
        whole: &domain,
        map,
        gate,
    };
    let Some(plan) = planned(&site, frame)? else {
        return turns_of(turns, &domain, map, frame, gate);
    };
    by_parts(rt, &site, &plan, frame)
}
