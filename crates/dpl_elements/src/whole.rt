// Assignments to whole arrays: each element is changed, in the order of the domain, and a fault names its index.
// A right side without a whole array is evaluated once; one with a whole array is evaluated at each index anew. Each is a forall
// over the array's domain, which a crew makes.

ghost use Rattle.std.specs.Prelude.{◌≡◌, ◌≤◌, ◌⊎◌, List, Some, None};
ghost use Rattle.dpl_sets.specs.TextRanges.{TextRange};
ghost use Rattle.dpl_language.specs.Tree.{IntKind, BoolKind, Set};
ghost use Rattle.dpl_language.specs.Values.{Int, Truth};
ghost use Rattle.dpl_language.specs.Outcome.{Deeds, Done, with_value};
ghost use Rattle.dpl_language.specs.Loops.{within_budget, named_turn};
ghost use Rattle.dpl_language.specs.Expressions.{value_of, whole_in};
ghost use Rattle.dpl_language.specs.Assignments.{change};
ghost use Rattle.dpl_language.specs.Statements.{exec};
ghost use Rattle.dpl_lowered.specs.LoweredExpressions.{EachTurn};
ghost use Rattle.dpl_memory.specs.Memory.{array_at, in_memory};
ghost use Rattle.dpl_nodes.specs.Typed.{promoted_int, promoted_truth};
ghost use Rattle.dpl_nodes.specs.Steps.{array_leaf, whole_set};
ghost use Rattle.dpl_elements.specs.Changes.{signed};
ghost use Rattle.dpl_elements.specs.Arrays.{array_set};
ghost use Rattle.dpl_frame.specs.Frames.{owned_by};
ghost use Rattle.dpl_loop.specs.Runs.{RunsTo, AreDone};
ghost use Rattle.dpl_loop.specs.Entries.{MayRefuse};
ghost use Rattle.dpl_values.specs.Reductions.{MayRefuseReduction, EachInInts, EachInTruths};
ghost use Rattle.dpl_elements.specs.Refusals.{MayRefuseWhole};
ghost use Rattle.dpl_elements.specs.Wholes.{filled, promoted, whole_turn};

use crate::apart::{made_apart, whole_apart};
use crate::crew::Crew;
use crate::element::{change, change_truth};
use crate::row::put_row;
use dpl_arithmetic::index::coordinate;
use dpl_dependence::{int_reads_own, truth_reads_own};
use dpl_domain::Index;
use dpl_frame::{Arrays, DomainWord, Frame};
use dpl_loop::{Apart, OpenGate, Row, RunStop, STRIP, Strip, Turns};
use dpl_nodes::{ArrayName, PromotedInt, PromotedTruth, Spot};
use dpl_strips::{promoted_ints, repeat, rest_of};
use dpl_teams::Alone;
use dpl_tree::Assign;
use dpl_values::budget::within_budget;
use dpl_values::{int_domain, promoted_int_value, promoted_truth_value, truth_domain};
use std::alloc::AllocError;

/// One int at each index.
#[derive(Clone, Copy)]
pub struct Fill<'e> {
    name: &'e ArrayName<'e>,
    op: Assign,
    sign: &'e Spot,
    value: i64,
    rank: u32,
    written: [usize; 1],
}

impl<'e> Fill<'e> {
    // Makes the turns of a row's first indices, as many as a strip has and at most so many; how many. The strip is lent.
    fn make_strip<A: Arrays>(
        &self,
        row: Row,
        most: usize,
        strip: &mut Strip,
        frame: &mut Frame<A>,
    ) -> usize
        ensures most { result ≤ most }
        ensures cap { result ≤ 64 }
        ensures done { AreDone (filled self.now frame.old.limits) row result frame.old.memory frame.new.memory }
        ensures limits { frame.new.limits ≡ frame.old.limits }
    {
        repeat(strip, self.value);
        put_row(self.name, self.op, self.sign, row, strip, most, frame)
    }
}

impl<'e> Turns for Fill<'e> {
    ghost turn = { λ c limits t. change limits in_memory (array_leaf IntKind c.name.now) (signed c.op c.sign.now) t (Int c.value) };

    #[inline(always)]
    fn make<A: Arrays>(&self, index: Index, frame: &mut Frame<A>) -> Result<(), RunStop> {
        change(self.name, self.op, self.sign, index, self.value, frame)
    }

    fn apart(&self) -> Option<Apart<'_>> {
        whole_apart(self.rank, self.name.slot, &self.written)
    }
}

/// An int that is evaluated at each index.
#[derive(Clone, Copy)]
pub struct Promote<'e, 'x> {
    name: &'e ArrayName<'e>,
    op: Assign,
    sign: &'e Spot,
    e: &'e PromotedInt<'x>,
    rank: u32,
    written: [usize; 1],
}

impl<'e, 'x> Promote<'e, 'x> {
    // The same of an int that is evaluated at each index.
    fn make_strip<A: Arrays>(
        &self,
        row: Row,
        most: usize,
        strip: &mut Strip,
        frame: &mut Frame<A>,
    ) -> usize
        ensures most { result ≤ most }
        ensures cap { result ≤ 64 }
        ensures done { AreDone (promoted self.now frame.old.limits) row result frame.old.memory frame.new.memory }
        ensures limits { frame.new.limits ≡ frame.old.limits }
    {
        strip.row = row;
        strip.size = most.min(STRIP);
        promoted_ints(self.e, frame, strip);
        put_row(self.name, self.op, self.sign, row, strip, most, frame)
    }
}

impl<'e, 'x> Turns for Promote<'e, 'x> {
    ghost turn = { λ c limits t s done. with_value (value_of limits in_memory (promoted_int EachTurn c.e.now) (Some t) s)
        (change limits in_memory (array_leaf IntKind c.name.now) (signed c.op c.sign.now) t) s done };

    #[inline(always)]
    fn make<A: Arrays>(&self, index: Index, frame: &mut Frame<A>) -> Result<(), RunStop> {
        let value = promoted_int_value(self.e, &index, frame, &Alone::at(&OpenGate))?;
        change(self.name, self.op, self.sign, index, value, frame)
    }

    fn apart(&self) -> Option<Apart<'_>> {
        if !int_reads_own(self.rank, self.name.slot, self.e) {
            return None;
        }
        whole_apart(self.rank, self.name.slot, &self.written)
    }
}

/// One truth value at each index.
#[derive(Clone, Copy)]
pub struct FillTruth<'e> {
    name: &'e ArrayName<'e>,
    sign: &'e Spot,
    value: bool,
    rank: u32,
    written: [usize; 1],
}

impl<'e> Turns for FillTruth<'e> {
    ghost turn = { λ c limits t. change limits in_memory (array_leaf BoolKind c.name.now) (signed Set c.sign.now) t (Truth c.value) };

    #[inline(always)]
    fn make<A: Arrays>(&self, index: Index, frame: &mut Frame<A>) -> Result<(), RunStop> {
        change_truth(self.name, index, self.value, frame)
    }

    fn apart(&self) -> Option<Apart<'_>> {
        whole_apart(self.rank, self.name.slot, &self.written)
    }
}

/// A truth value that is evaluated at each index.
#[derive(Clone, Copy)]
pub struct PromoteTruth<'e, 'x> {
    name: &'e ArrayName<'e>,
    sign: &'e Spot,
    e: &'e PromotedTruth<'x>,
    rank: u32,
    written: [usize; 1],
}

impl<'e, 'x> Turns for PromoteTruth<'e, 'x> {
    ghost turn = { λ c limits t s done. with_value (value_of limits in_memory (promoted_truth EachTurn c.e.now) (Some t) s)
        (change limits in_memory (array_leaf BoolKind c.name.now) (signed Set c.sign.now) t) s done };

    #[inline(always)]
    fn make<A: Arrays>(&self, index: Index, frame: &mut Frame<A>) -> Result<(), RunStop> {
        let value = promoted_truth_value(self.e, &index, frame, &Alone::at(&OpenGate))?.get();
        change_truth(self.name, index, value, frame)
    }

    fn apart(&self) -> Option<Apart<'_>> {
        if !truth_reads_own(self.rank, self.name.slot, self.e) {
            return None;
        }
        whole_apart(self.rank, self.name.slot, &self.written)
    }
}

/// The turns of an assignment to a whole array.
#[derive(Clone, Copy)]
pub enum WholeTurns<'e, 'x> {
    Fill(Fill<'e>),
    Promote(Promote<'e, 'x>),
    FillTruth(FillTruth<'e>),
    PromoteTruth(PromoteTruth<'e, 'x>),
    /// Over indices of this rank, where the array has its values already: nothing is left to be done.
    Made(u32),
}

impl<'e, 'x> WholeTurns<'e, 'x> {
    // The same by its form. Truth values are put one by one.
    fn make_strip<A: Arrays>(
        &self,
        row: Row,
        most: usize,
        strip: &mut Strip,
        frame: &mut Frame<A>,
    ) -> usize
        ensures most { result ≤ most }
        ensures cap { result ≤ 64 }
        ensures done { AreDone (whole_turn self.now frame.old.limits) row result frame.old.memory frame.new.memory }
        ensures limits { frame.new.limits ≡ frame.old.limits }
    {
        match self {
            WholeTurns::Fill(turns) => turns.make_strip(row, most, strip, frame),
            WholeTurns::Promote(turns) => turns.make_strip(row, most, strip, frame),
            WholeTurns::FillTruth(_) | WholeTurns::PromoteTruth(_) | WholeTurns::Made(_) => 0,
        }
    }
}

impl<'e, 'x> Turns for WholeTurns<'e, 'x> {
    ghost turn = { whole_turn };

    #[inline(always)]
    fn make<A: Arrays>(&self, index: Index, frame: &mut Frame<A>) -> Result<(), RunStop> {
        match self {
            WholeTurns::Fill(turns) => turns.make(index, frame),
            WholeTurns::Promote(turns) => turns.make(index, frame),
            WholeTurns::FillTruth(turns) => turns.make(index, frame),
            WholeTurns::PromoteTruth(turns) => turns.make(index, frame),
            WholeTurns::Made(_) => Ok(()),
        }
    }

    fn make_row<A: Arrays>(
        &self,
        row: Row,
        most: usize,
        frame: &mut Frame<A>,
    ) -> Result<usize, AllocError> {
        let mut strip = Strip::none(row);
        let mut here = row;
        let mut made = 0;
        while made < most {
            let more = self.make_strip(here, most - made, &mut strip, frame);
            if more == 0 {
                break;
            }
            made += more;
            let Some(rest) = rest_of(here, more) else {
                break;
            };
            here = rest;
        }
        Ok(made)
    }

    fn apart(&self) -> Option<Apart<'_>> {
        match self {
            WholeTurns::Fill(turns) => turns.apart(),
            WholeTurns::Promote(turns) => turns.apart(),
            WholeTurns::FillTruth(turns) => turns.apart(),
            WholeTurns::PromoteTruth(turns) => turns.apart(),
            WholeTurns::Made(rank) => made_apart(*rank),
        }
    }
}

// The turns of a domain that has no more indices than the budget, by the map of the array of a name.
fn each_within<C: Crew>(
    turns: &WholeTurns<'_, '_>,
    at: &Spot,
    name: &ArrayName<'_>,
    domain: DomainWord,
    frame: &mut Frame<C::Kept>,
    crew: &C,
) -> Result<(), RunStop>
    requires ready { C.is_ready crew.now }
    ensures ends { (done : Deeds) → RunsTo (MayRefuse (C.may_refuse crew.now) (owned_by frame.old name.now.slot) domain) result frame.new.memory done
        (within_budget frame.old.limits at.now domain (named_turn (whole_turn turns.now frame.old.limits)) frame.old.memory done) }
    ensures limits { frame.new.limits ≡ frame.old.limits }
{
    within_budget(&domain, at, frame)?;
    let map = frame.owner(name.slot);
    crew.make_whole(turns, domain, &map, frame)
}

// An int without a whole array goes into each element.
fn set_once<C: Crew>(
    name: &ArrayName<'_>,
    op: Assign,
    sign: &Spot,
    e: &PromotedInt<'_>,
    domain: DomainWord,
    frame: &mut Frame<C::Kept>,
    crew: &C,
) -> Result<(), RunStop>
    requires ready { C.is_ready crew.now }
    requires once { whole_in frame.old.limits in_memory (promoted_int EachTurn e.now) frame.old.memory ≡ None }
    ensures ends { (done : Deeds)
        → RunsTo (MayRefuse (C.may_refuse crew.now) (owned_by frame.old name.now.slot) domain ⊎ MayRefuseReduction (C.may_refuse crew.now) frame.old
        (EachInInts e.now)) result frame.new.memory done
        (array_set frame.old.limits IntKind name.now op sign.now (promoted_int EachTurn e.now) domain None frame.old.memory done) }
    ensures limits { frame.new.limits ≡ frame.old.limits }
{
    let value = promoted_int_value(e, &coordinate(0), frame, crew)?;
    let turns = WholeTurns::Fill(Fill {
        name,
        op,
        sign,
        value,
        rank: domain.rank(),
        written: [name.slot],
    });
    each_within(&turns, sign, name, domain, frame, crew)
}

// The same of truth values.
fn set_truth_once<C: Crew>(
    name: &ArrayName<'_>,
    sign: &Spot,
    e: &PromotedTruth<'_>,
    domain: DomainWord,
    frame: &mut Frame<C::Kept>,
    crew: &C,
) -> Result<(), RunStop>
    requires ready { C.is_ready crew.now }
    requires once { whole_in frame.old.limits in_memory (promoted_truth EachTurn e.now) frame.old.memory ≡ None }
    ensures ends { (done : Deeds)
        → RunsTo (MayRefuse (C.may_refuse crew.now) (owned_by frame.old name.now.slot) domain ⊎ MayRefuseReduction (C.may_refuse crew.now) frame.old
        (EachInTruths e.now)) result frame.new.memory done
        (array_set frame.old.limits BoolKind name.now Set sign.now (promoted_truth EachTurn e.now) domain None frame.old.memory done) }
    ensures limits { frame.new.limits ≡ frame.old.limits }
{
    let value = promoted_truth_value(e, &coordinate(0), frame, crew)?.get();
    let turns = WholeTurns::FillTruth(FillTruth {
        name,
        sign,
        value,
        rank: domain.rank(),
        written: [name.slot],
    });
    each_within(&turns, sign, name, domain, frame, crew)
}

// An int with a whole array is evaluated at the index of each element.
fn set_each<C: Crew>(
    name: &ArrayName<'_>,
    op: Assign,
    sign: &Spot,
    e: &PromotedInt<'_>,
    domain: DomainWord,
    frame: &mut Frame<C::Kept>,
    crew: &C,
) -> Result<(), RunStop>
    requires ready { C.is_ready crew.now }
    ensures ends { (arrays : List TextRange) (done : Deeds)
        → RunsTo (MayRefuse (C.may_refuse crew.now) (owned_by frame.old name.now.slot) domain) result frame.new.memory done
        (array_set frame.old.limits IntKind name.now op sign.now (promoted_int EachTurn e.now) domain (Some arrays) frame.old.memory done) }
    ensures limits { frame.new.limits ≡ frame.old.limits }
{
    let turns = WholeTurns::Promote(Promote {
        name,
        op,
        sign,
        e,
        rank: domain.rank(),
        written: [name.slot],
    });
    each_within(&turns, sign, name, domain, frame, crew)
}

// The same of truth values.
fn set_truth_each<C: Crew>(
    name: &ArrayName<'_>,
    sign: &Spot,
    e: &PromotedTruth<'_>,
    domain: DomainWord,
    frame: &mut Frame<C::Kept>,
    crew: &C,
) -> Result<(), RunStop>
    requires ready { C.is_ready crew.now }
    ensures ends { (arrays : List TextRange) (done : Deeds)
        → RunsTo (MayRefuse (C.may_refuse crew.now) (owned_by frame.old name.now.slot) domain) result frame.new.memory done
        (array_set frame.old.limits BoolKind name.now Set sign.now (promoted_truth EachTurn e.now) domain (Some arrays) frame.old.memory done) }
    ensures limits { frame.new.limits ≡ frame.old.limits }
{
    let turns = WholeTurns::PromoteTruth(PromoteTruth {
        name,
        sign,
        e,
        rank: domain.rank(),
        written: [name.slot],
    });
    each_within(&turns, sign, name, domain, frame, crew)
}

/// An assignment to a whole array of ints.
///
/// # Errors
/// The fault of a right side that is evaluated once; `F5` at the operator for more elements than the budget; the fault of
/// an index, in its turn; or what ends a forall of the crew early: the gate may refuse the entry of an element's owner, or of a reduction
/// in a right side that is evaluated once.
#[inline(never)]
pub fn set_array<C: Crew>(
    name: &ArrayName<'_>,
    op: Assign,
    sign: &Spot,
    e: &PromotedInt<'_>,
    frame: &mut Frame<C::Kept>,
    crew: &C,
) -> Result<(), RunStop>
    requires ready { C.is_ready crew.now }
    ensures ends { (done : Deeds) → RunsTo (MayRefuseWhole (C.may_refuse crew.now) frame.old name.now.slot (EachInInts e.now)) result frame.new.memory done
        (exec frame.old.limits in_memory (whole_set (array_leaf IntKind name.now) op sign.now (promoted_int EachTurn e.now)) frame.old.memory done) }
    ensures limits { frame.new.limits ≡ frame.old.limits }
{
    let domain = frame.array_domain(name.slot);
    match int_domain(e, frame) {
        None => set_once(name, op, sign, e, domain, frame, crew),
        Some(_) => set_each(name, op, sign, e, domain, frame, crew),
    }
}

/// `=` to a whole array of truth values.
///
/// # Errors
/// As for ints.
#[inline(never)]
pub fn set_truth_array<C: Crew>(
    name: &ArrayName<'_>,
    sign: &Spot,
    e: &PromotedTruth<'_>,
    frame: &mut Frame<C::Kept>,
    crew: &C,
) -> Result<(), RunStop>
    requires ready { C.is_ready crew.now }
    ensures ends { (done : Deeds) → RunsTo (MayRefuseWhole (C.may_refuse crew.now) frame.old name.now.slot (EachInTruths e.now)) result frame.new.memory done
        (exec frame.old.limits in_memory (whole_set (array_leaf BoolKind name.now) Set sign.now (promoted_truth EachTurn e.now)) frame.old.memory done) }
    ensures limits { frame.new.limits ≡ frame.old.limits }
{
    let domain = frame.array_domain(name.slot);
    match truth_domain(e, frame) {
        None => set_truth_once(name, sign, e, domain, frame, crew),
        Some(_) => set_truth_each(name, sign, e, domain, frame, crew),
    }
}

/// The turns of an assignment to the whole array in a slot that has its values already, as one that was filled where it was declared. For each
/// index its owner enters the gate, unless the gate is open, and does nothing more.
///
/// # Errors
/// Out of memory; a worker was not started; or the gate refused an entry, which it may.
#[inline(never)]
pub fn enter_array<C: Crew>(
    slot: usize,
    frame: &mut Frame<C::Kept>,
    crew: &C,
) -> Result<(), RunStop>
    requires ready { C.is_ready crew.now }
    ensures ends { (done : Deeds)
        → RunsTo (MayRefuse (C.may_refuse crew.now) (owned_by frame.old slot) (array_at slot frame.old.memory).ranges) result frame.new.memory done
        (Done frame.old.memory done) }
    ensures limits { frame.new.limits ≡ frame.old.limits }
{
    let domain = frame.array_domain(slot);
    let map = frame.owner(slot);
    let turns = WholeTurns::Made(domain.rank());
    crew.make_whole(&turns, domain, &map, frame)
}
