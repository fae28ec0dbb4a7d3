// Foralls over ranges and domains: what they do is what their turns do one after another, in order. Each turn asks the gate first, and a
// worker enters for it as the locale that owns its index. Where the gate is open, the turns of a row may be made at once (together.rt).

ghost use Rattle.std.specs.Prelude.{◌≡◌, [], ◌∷◌, Err};
ghost use Rattle.dpl_sets.specs.Indices.{indices};
ghost use Rattle.dpl_language.specs.Ranges.{indices_in};
ghost use Rattle.dpl_language.specs.Outcome.{Deeds, in_order};
ghost use Rattle.dpl_language.specs.Loops.{named_turn};
ghost use Rattle.dpl_map.specs.Maps.{owner};
ghost use Rattle.dpl_contents.specs.Range.{range_word};
ghost use Rattle.dpl_loop.specs.Runs.{RunsTo};
ghost use Rattle.dpl_loop.specs.Entries.{MayRefuse};
ghost use Rattle.dpl_loop.specs.Values.{MayRefuseAmong};

use crate::gate::{Gate, enters};
use crate::rows::Places;
use crate::stop::RunStop;
use crate::together::{begun, together};
use crate::turns::Turns;
use dpl_contents::{DomainWord, RangeWord};
use dpl_domain::{Domain, Index};
use dpl_frame::{Arrays, Frame};
use dpl_map::Map;

/// The turn of an index at a place, once its owner has entered. Its fault names it.
#[inline(always)]
pub(crate) fn entered<A: Arrays, T: Turns, G: Gate>(
    turns: &T,
    index: Index,
    place: u64,
    map: &Map,
    frame: &mut Frame<A>,
    gate: &G,
) -> Result<(), RunStop>
    ensures ends { (done : Deeds) → RunsTo (G.may_refuse gate.now (owner map.now index) place) result frame.new.memory done
        (named_turn (T.turn turns.now frame.old.limits) index frame.old.memory done) }
    // A turn whose entry is refused isn't made.
    ensures unmade { result ≡ Err RunStop.Gate → frame.new ≡ frame.old }
    ensures limits { frame.new.limits ≡ frame.old.limits }
{
    if !enters(gate, map, index, place) {
        return Err(RunStop::Gate);
    }
    match turns.make(index, frame) {
        Ok(()) => Ok(()),
        Err(stop) => Err(stop.in_turn(index)),
    }
}

/// The turns of a domain's indices, made in order on the thread of whoever calls this. For each turn the owner of its index enters the
/// gate, unless the gate is open.
///
/// # Errors
/// As for [`forall_here`].
pub fn turns_of<A: Arrays, T: Turns, G: Gate>(
    turns: &T,
    domain: &Domain,
    map: &Map,
    frame: &mut Frame<A>,
    gate: &G,
) -> Result<(), RunStop>
    ensures ends { (done : Deeds) → RunsTo (MayRefuseAmong (G.may_refuse gate.now) map.now (indices domain.now)) result frame.new.memory done
        (in_order (named_turn (T.turn turns.now frame.old.limits)) (indices domain.now) frame.old.memory done) }
    ensures limits { frame.new.limits ≡ frame.old.limits }
{
    let Ok(made) = begun(turns, domain, frame, gate) else {
        return Err(RunStop::Memory);
    };
    if made != 0 {
        return together(turns, domain, made as u64, map, frame, gate);
    }
    let mut indices = domain.cursor();
    for place in 0..domain.size() {
        let Some(index) = indices.next() else {
            unreachable!()
        };
        entered(turns, index, place, map, frame, gate)?;
    }
    Ok(())
}

/// A forall over a domain, whose turns the caller makes. For each turn the owner of its index enters the gate, unless the gate is open.
///
/// # Errors
/// The fault of the first turn that has one, with its turn; out of memory; or the gate refused an entry, which it may. Where the
/// gate refused and where memory ran out, nothing is said of the frame's memory.
pub fn forall_here<A: Arrays, T: Turns, G: Gate>(
    turns: &T,
    over: DomainWord,
    map: &Map,
    frame: &mut Frame<A>,
    gate: &G,
) -> Result<(), RunStop>
    ensures ends { (done : Deeds) → RunsTo (MayRefuse (G.may_refuse gate.now) map.now over) result frame.new.memory done
        (in_order (named_turn (T.turn turns.now frame.old.limits)) (indices_in over) frame.old.memory done) }
    ensures limits { frame.new.limits ≡ frame.old.limits }
{
    let domain = over.domain();
    turns_of(turns, &domain, map, frame, gate)
}

/// A forall over a range, as over the domain of this range alone. Ranges may have more members than a domain.
///
/// # Errors
/// As for [`forall_here`].
pub fn forall_line<A: Arrays, T: Turns, G: Gate>(
    turns: &T,
    over: &RangeWord,
    map: &Map,
    frame: &mut Frame<A>,
    gate: &G,
) -> Result<(), RunStop>
    ensures ends { (done : Deeds) → RunsTo (MayRefuse (G.may_refuse gate.now) map.now (range_word over.now ∷ [])) result frame.new.memory done
        (in_order (named_turn (T.turn turns.now frame.old.limits)) (indices_in (range_word over.now ∷ [])) frame.old.memory done) }
    ensures limits { frame.new.limits ≡ frame.old.limits }
{
    let Ok(made) = begun(turns, over, frame, gate) else {
        return Err(RunStop::Memory);
    };
    if made != 0 {
        return together(turns, over, made as u64, map, frame, gate);
    }
    for place in 0..over.range.size() {
        let Some(index) = over.at(place) else {
            unreachable!()
        };
        entered(turns, index, place, map, frame, gate)?;
    }
    Ok(())
}
