// Declarations of arrays: the domain is evaluated and tested, and then the elements are.
// An array's own name isn't known in its initial value, so that the elements are gathered before the slot is written.

ghost use Rattle.std.specs.Prelude.{◌≡◌, IfOk, Ok, Some, false};
ghost use Rattle.dpl_language.specs.Tree.{Kind, IntKind, BoolKind};
ghost use Rattle.dpl_language.specs.Ranges.{indices_in, too_large};
ghost use Rattle.dpl_language.specs.Outcome.{Deeds, naming_value};
ghost use Rattle.dpl_language.specs.Expressions.{value_of, domain_of};
ghost use Rattle.dpl_language.specs.Declarations.{gathered};
ghost use Rattle.dpl_language.specs.Statements.{exec};
ghost use Rattle.dpl_lowered.specs.LoweredExpressions.{EachTurn};
ghost use Rattle.dpl_memory.specs.Memory.{in_memory};
ghost use Rattle.dpl_language.specs.Values.{Domain as DomainValue};
ghost use Rattle.dpl_nodes.specs.Typed.{promoted_int, promoted_truth};
ghost use Rattle.dpl_nodes.specs.Steps.{over_items, array_declared};
ghost use Rattle.dpl_elements.specs.Changes.{kept_word, for_array_at};
ghost use Rattle.dpl_elements.specs.Arrays.{declared_without, declared_with};
ghost use Rattle.dpl_loop.specs.Entries.{MayRefuse};
ghost use Rattle.dpl_values.specs.Reductions.{MayRefuseReduction, EachInInts, EachInTruths};
ghost use Rattle.dpl_loop.specs.Runs.{RunsTo, RunEnds};
ghost use Rattle.dpl_loop.specs.Values.{Gives};
ghost use Rattle.dpl_simple.specs.Runs.{Names, Gathers};
ghost use Rattle.dpl_simple.specs.Lineages.{declared_over};
ghost use Rattle.dpl_simple.specs.Refusals.{EachInOver, EachInInitial, MayRefuseElements, MayRefuseArray};
ghost use Rattle.dpl_map.specs.Maps.{owner};

use crate::domain::for_array;
use crate::lineage::derived;
use dpl_arithmetic::index::coordinate;
use dpl_contents::ArrayWords;
use dpl_domain::Index;
use dpl_frame::{Arrays, DomainWord, Frame, Trap};
use dpl_loop::{Gate, OpenGate, RunStop};
use dpl_map::Map;
use dpl_nodes::{ArrayDeclaration, DeclaredOver, Initial, PromotedInt, PromotedTruth, Spot};
use dpl_teams::Alone;
use dpl_values::budget::within_budget;
use dpl_values::domain::small;
use dpl_values::{
    Team, domain_value, int_domain, literal, promoted_int_value, promoted_truth_value, range_value,
    sized, truth_domain,
};

// The domain that stands between an array's brackets.
fn domain_over<G: Team>(
    over: &DeclaredOver<'_>,
    from: &Spot,
    frame: &Frame<G::Kept>,
    gate: &G,
) -> Result<DomainWord, RunStop>
    requires ready { G.is_ready gate.now }
    ensures { Gives (MayRefuseReduction (G.may_refuse gate.now) frame.now (EachInOver over.now)) DomainValue result
        (domain_of frame.now.limits in_memory from.now (over_items over.now) frame.now.memory) }
{
    match over {
        DeclaredOver::Ranges(ranges) => literal(from, ranges, frame, gate),
        DeclaredOver::Domain(d) => Ok(small(domain_value(d, frame, gate)?)),
        DeclaredOver::HiddenDomain(d) => Ok(small(domain_value(d, frame, gate)?)),
        DeclaredOver::HiddenRange(r) => {
            let range = range_value(r, frame, gate)?;
            Ok(sized(from, DomainWord::new(&[range]))?)
        }
    }
}

// What is evaluated at each index of an array.
trait Elements {
    ghost use Rattle.std.specs.Prelude.{◌≡◌, Result};
    ghost use Rattle.dpl_language.specs.Values.{Value, Index, Fault};
    ghost use Rattle.dpl_language.specs.Environment.{Limits};
    ghost use Rattle.dpl_memory.specs.Memory.{Memory};
    ghost use Rattle.dpl_loop.specs.Values.{Gives};
    ghost use Rattle.dpl_elements.specs.Changes.{kept_word};

    ghost element: { Self → Limits → Memory → Index → Result Value Fault };

    // No gate is asked for it.
    fn word<A: Arrays>(&self, index: &Index, frame: &Frame<A>) -> Result<i64, RunStop>
        ensures { Gives ⊥ (λ w. w) result (kept_word (element self.now frame.now.limits frame.now.memory index.now)) };
}

impl<'t> Elements for PromotedInt<'t> {
    ghost element = { λ e limits s t. value_of limits in_memory (promoted_int EachTurn e) (Some t) s };

    fn word<A: Arrays>(&self, index: &Index, frame: &Frame<A>) -> Result<i64, RunStop> {
        promoted_int_value(self, index, frame, &Alone::at(&OpenGate))
    }
}

impl<'t> Elements for PromotedTruth<'t> {
    ghost element = { λ e limits s t. value_of limits in_memory (promoted_truth EachTurn e) (Some t) s };

    fn word<A: Arrays>(&self, index: &Index, frame: &Frame<A>) -> Result<i64, RunStop> {
        Ok(i64::from(promoted_truth_value(self, index, frame, &Alone::at(&OpenGate))?.get()))
    }
}

// The word of an index at a place, once its owner has entered. Its fault names the index.
fn entered<A: Arrays, E: Elements, G: Gate>(
    e: &E,
    index: Index,
    place: u64,
    map: &Map,
    frame: &Frame<A>,
    gate: &G,
) -> Result<i64, RunStop>
    ensures { Names (G.may_refuse gate.now (owner map.now index) place) result (naming_value index (E.element e.now frame.now.limits frame.now.memory index)) }
{
    if !gate.enter(map.owner(index), place) {
        return Err(RunStop::Gate);
    }
    match e.word(&index, frame) {
        Ok(word) => Ok(word),
        Err(stop) => Err(stop.in_turn(index)),
    }
}

// The array over a domain that has at each index what is evaluated there, dealt out by a map.
fn gathered<A: Arrays, E: Elements, G: Gate>(
    e: &E,
    map: &Map,
    domain: DomainWord,
    frame: &Frame<A>,
    gate: &G,
) -> Result<ArrayWords, RunStop>
    requires { too_large domain ≡ false }
    ensures { Gathers (MayRefuse (G.may_refuse gate.now) map.now domain) result domain
        (gathered (E.element e.now frame.now.limits frame.now.memory) (indices_in domain)) }
{
    let all = domain.domain();
    let mut array = frame.zeros(*map, domain)?;
    let mut indices = domain.cursor();
    for place in 0..all.size() {
        let Some(index) = indices.next() else {
            unreachable!()
        };
        let word = entered(e, index, place, map, frame, gate)?;
        array.set(index, word);
    }
    Ok(array)
}

// An array of ints with an initial value.
fn declare_ints<G: Team>(
    d: &ArrayDeclaration<'_>,
    at: &Spot,
    e: &PromotedInt<'_>,
    map: &Map,
    domain: DomainWord,
    frame: &mut Frame<G::Kept>,
    gate: &G,
) -> Result<(), RunStop>
    requires ready { G.is_ready gate.now }
    requires small { too_large domain ≡ false }
    ensures ends { (done : Deeds) → RunsTo (MayRefuseElements (G.may_refuse gate.now) frame.old map.now domain (EachInInts e.now)) result frame.new.memory done
        (declared_with frame.old.limits d.now IntKind domain at.now (promoted_int EachTurn e.now) frame.old.memory done) }
    ensures limits { frame.new.limits ≡ frame.old.limits }
    ensures layout { frame.new.layout ≡ frame.old.layout }
{
    match int_domain(e, frame) {
        None => {
            let word = promoted_int_value(e, &coordinate(0), frame, gate)?;
            within_budget(&domain, at, frame)?;
            frame.declare_array(d.slot, *map, domain, word)?;
            Ok(())
        }
        Some(_) => {
            within_budget(&domain, at, frame)?;
            let array = gathered(e, map, domain, frame, gate)?;
            frame.declare(d.slot, array);
            Ok(())
        }
    }
}

// The same of truth values.
fn declare_truths<G: Team>(
    d: &ArrayDeclaration<'_>,
    at: &Spot,
    e: &PromotedTruth<'_>,
    map: &Map,
    domain: DomainWord,
    frame: &mut Frame<G::Kept>,
    gate: &G,
) -> Result<(), RunStop>
    requires ready { G.is_ready gate.now }
    requires small { too_large domain ≡ false }
    ensures ends { (done : Deeds)
        → RunsTo (MayRefuseElements (G.may_refuse gate.now) frame.old map.now domain (EachInTruths e.now)) result frame.new.memory done
        (declared_with frame.old.limits d.now BoolKind domain at.now (promoted_truth EachTurn e.now) frame.old.memory done) }
    ensures limits { frame.new.limits ≡ frame.old.limits }
    ensures layout { frame.new.layout ≡ frame.old.layout }
{
    match truth_domain(e, frame) {
        None => {
            let value = promoted_truth_value(e, &coordinate(0), frame, gate)?.get();
            within_budget(&domain, at, frame)?;
            frame.declare_array(d.slot, *map, domain, i64::from(value))?;
            Ok(())
        }
        Some(_) => {
            within_budget(&domain, at, frame)?;
            let array = gathered(e, map, domain, frame, gate)?;
            frame.declare(d.slot, array);
            Ok(())
        }
    }
}

// An array of zeros, or of `false` everywhere.
fn declare_zeros<A: Arrays>(
    d: &ArrayDeclaration<'_>,
    map: &Map,
    domain: DomainWord,
    frame: &mut Frame<A>,
) -> Result<(), RunStop>
    requires { too_large domain ≡ false }
    ensures ends { (k : Kind) (done : Deeds) → RunEnds result frame.new.memory done (declared_without frame.old.limits d.now k domain frame.old.memory done) }
    ensures limits { frame.new.limits ≡ frame.old.limits }
    ensures layout { frame.new.layout ≡ frame.old.layout }
{
    frame.declare_array(d.slot, *map, domain, 0)?;
    Ok(())
}

// A domain that an array may have.
fn sized_for_array(at: &Spot, domain: DomainWord) -> Result<DomainWord, Trap>
    ensures is { result ≡ for_array_at at.now domain }
    ensures small { IfOk result (λ d. too_large d ≡ false) }
{
    for_array(at, domain)
}

// The array over a domain, by its elements; its slot has no root yet.
fn declare_over<G: Team>(
    d: &ArrayDeclaration<'_>,
    map: &Map,
    domain: DomainWord,
    frame: &mut Frame<G::Kept>,
    gate: &G,
) -> Result<(), RunStop>
    requires ready { G.is_ready gate.now }
    requires small { too_large domain ≡ false }
    ensures ends { (done : Deeds) → RunsTo
        (MayRefuseElements (G.may_refuse gate.now) frame.old map.now domain (EachInInitial d.now.initial)) result frame.new.memory done
        (declared_over frame.old.limits d.now domain frame.old.memory done) }
    ensures limits { frame.new.limits ≡ frame.old.limits }
    ensures layout { frame.new.layout ≡ frame.old.layout }
{
    match d.initial {
        Initial::Zeros => declare_zeros(d, map, domain, frame),
        Initial::Falses => declare_zeros(d, map, domain, frame),
        Initial::Ints(at, e) => declare_ints(d, at, e, map, domain, frame, gate),
        Initial::Truths(at, e) => declare_truths(d, at, e, map, domain, frame, gate),
    }
}

/// The declaration of an array, which has the root of its domain, or is a root.
///
/// # Errors
/// The fault of its domain; `F8` at the name for more than 2^24 elements; the fault of an initial value that is evaluated
/// once; `F5` at `=` for more elements than the budget; the fault of an index, in its turn; out of memory; or the gate refused
/// the entry of an index's owner, by the map of the root that the array gets, or of a reduction in its domain or its initial value.
#[inline(never)]
pub fn declare_array<G: Team>(
    d: &ArrayDeclaration<'_>,
    frame: &mut Frame<G::Kept>,
    gate: &G,
) -> Result<(), RunStop>
    requires ready { G.is_ready gate.now }
    ensures ends { (done : Deeds) → RunsTo (MayRefuseArray (G.may_refuse gate.now) frame.old d.now) result frame.new.memory done
        (exec frame.old.limits in_memory (array_declared d.now) frame.old.memory done) }
    ensures limits { frame.new.limits ≡ frame.old.limits }
    ensures layout { frame.new.layout ≡ frame.old.layout }
{
    let domain = domain_over(&d.over, d.from, frame, gate)?;
    let domain = sized_for_array(d.at, domain)?;
    let lineage = derived(d.over.origin(), frame);
    let map = frame.map_of(&lineage.root(domain));
    declare_over(d, &map, domain, frame, gate)?;
    let root = lineage.root(frame.array_domain(d.slot));
    frame.deal(d.slot, root);
    Ok(())
}
