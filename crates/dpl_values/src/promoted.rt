// The values of promoted expressions at an index, and the domain whose indices they are evaluated at.
// Whoever goes through the indices names the turn of a fault: it is that of the outermost walk.

ghost use Rattle.std.specs.Prelude.{◌≡◌, Some};
ghost use Rattle.dpl_language.specs.Values.{Int, Truth as TruthValue};
ghost use Rattle.dpl_language.specs.Expressions.{whole_in};
ghost use Rattle.dpl_lowered.specs.LoweredExpressions.{EachTurn};
ghost use Rattle.dpl_memory.specs.Memory.{in_memory};
ghost use Rattle.dpl_values.specs.Reducing.{first_of_ints, first_of_truths, first_of_int_links, first_of_truth_links};
ghost use Rattle.dpl_nodes.specs.Typed.{promoted_int, promoted_truth};
ghost use Rattle.dpl_frame.specs.Faults.{Tells};
ghost use Rattle.dpl_values.specs.Reductions.{MayRefuseReduction, EachInInts, EachInIntsChain, EachInTruths, EachInTruthsChain};
ghost use Rattle.dpl_values.specs.Meanings.{int_at, linked_at, chain_at, truth_at, truth_linked_at, truth_chain_at};

use crate::comparison::holds;
use crate::domain::found;
use crate::expression::{operand as scalar_operand, truth_value};
use crate::operator::{decides, joined, operated};
use crate::team::Team;
use dpl_arithmetic::number::negative;
use dpl_domain::Index;
use dpl_frame::{Alarm, Arrays, DomainWord, Frame, Truth, Turn};
use dpl_nodes::{PromotedInt, PromotedIntLink, PromotedTruth, PromotedTruthLink};

/// The value of an operand at an index: of an element or a scalar at once, and else by a walk.
///
/// # Errors
/// As for a promoted int.
#[cycle(walk)]
#[inline(always)]
pub fn operand<G: Team>(
    e: &PromotedInt<'_>,
    index: &Index,
    frame: &Frame<G::Kept>,
    gate: &G,
    turn: &mut Turn,
) -> Result<i64, Alarm>
    requires ready { G.is_ready gate.now }
    ensures { Tells (MayRefuseReduction (G.may_refuse gate.now) frame.now (EachInInts e.now)) Int turn.new result (int_at frame.now e.now index.now) }
{
    match e {
        PromotedInt::Scalar(e) => scalar_operand(e, frame, gate, turn),
        PromotedInt::Element(slot, at) => found(at, frame.element(*slot, *index), turn),
        PromotedInt::Negative(_) | PromotedInt::Chain(..) => {
            promoted_int_value(e, index, frame, gate, turn)
        }
    }
}

/// The value of a promoted int at an index.
///
/// # Errors
/// `F1` at the name of an array that hasn't the index, and `F2` at a division by zero.
#[cycle(walk)]
pub(crate) fn promoted_int_value<G: Team>(
    e: &PromotedInt<'_>,
    index: &Index,
    frame: &Frame<G::Kept>,
    gate: &G,
    turn: &mut Turn,
) -> Result<i64, Alarm>
    requires ready { G.is_ready gate.now }
    ensures { Tells (MayRefuseReduction (G.may_refuse gate.now) frame.now (EachInInts e.now)) Int turn.new result (int_at frame.now e.now index.now) }
{
    match e {
        PromotedInt::Scalar(e) => scalar_operand(e, frame, gate, turn),
        PromotedInt::Element(slot, at) => found(at, frame.element(*slot, *index), turn),
        PromotedInt::Negative(e) => Ok(negative(operand(e, index, frame, gate, turn)?)),
        PromotedInt::Chain(first, links) => chained(first, links, index, frame, gate, turn),
    }
}

// A further operand of a chain, behind what came so far.
#[cycle(walk)]
#[inline(always)]
fn linked<G: Team>(
    left: i64,
    link: &PromotedIntLink<'_>,
    index: &Index,
    frame: &Frame<G::Kept>,
    gate: &G,
    turn: &mut Turn,
) -> Result<i64, Alarm>
    requires ready { G.is_ready gate.now }
    ensures { Tells (MayRefuseReduction (G.may_refuse gate.now) frame.now (EachInInts link.now.right.now)) Int turn.new result
        (linked_at frame.now left link.now index.now) }
{
    let right = operand(link.right, index, frame, gate, turn)?;
    operated(link.op, left, right, turn)
}

// A chain: its operands go from left to right, and each operator takes what came so far.
#[cycle(walk)]
fn chained<G: Team>(
    first: &PromotedInt<'_>,
    links: &[PromotedIntLink<'_>],
    index: &Index,
    frame: &Frame<G::Kept>,
    gate: &G,
    turn: &mut Turn,
) -> Result<i64, Alarm>
    requires ready { G.is_ready gate.now }
    ensures { Tells (MayRefuseReduction (G.may_refuse gate.now) frame.now (EachInIntsChain first.now links.now)) Int turn.new result
        (chain_at frame.now first.now links.now index.now) }
{
    let mut value = operand(first, index, frame, gate, turn)?;
    for link in links {
        value = linked(value, link, index, frame, gate, turn)?;
    }
    Ok(value)
}

/// The value of a promoted truth value at an index. `&&` after false and `||` after true don't look at their right side.
///
/// # Errors
/// The fault of an operand, and `F1` at the name of an array that hasn't the index.
#[cycle(truth)]
pub fn promoted_truth_value<G: Team>(
    e: &PromotedTruth<'_>,
    index: &Index,
    frame: &Frame<G::Kept>,
    gate: &G,
    turn: &mut Turn,
) -> Result<Truth, Alarm>
    requires ready { G.is_ready gate.now }
    ensures { Tells (MayRefuseReduction (G.may_refuse gate.now) frame.now (EachInTruths e.now)) TruthValue turn.new result
        (truth_at frame.now e.now index.now) }
{
    match e {
        PromotedTruth::Scalar(e) => truth_value(e, frame, gate, turn),
        PromotedTruth::Element(slot, at) => {
            Ok(Truth::new(found(at, frame.element(*slot, *index), turn)? != 0))
        }
        PromotedTruth::Not(e) => Ok(Truth::new(!promoted_truth_value(
            e, index, frame, gate, turn,
        )?.get())),
        PromotedTruth::Chain(first, links) => truth_chained(first, links, index, frame, gate, turn),
        PromotedTruth::Compare(comparison, a, b) => {
            let left = operand(a, index, frame, gate, turn)?;
            let right = operand(b, index, frame, gate, turn)?;
            Ok(Truth::new(holds(*comparison, left, right)))
        }
    }
}

// A further operand of a chain, behind what came so far.
#[cycle(truth)]
#[inline(always)]
fn truth_linked<G: Team>(
    left: Truth,
    link: &PromotedTruthLink<'_>,
    index: &Index,
    frame: &Frame<G::Kept>,
    gate: &G,
    turn: &mut Turn,
) -> Result<Truth, Alarm>
    requires ready { G.is_ready gate.now }
    ensures { Tells (MayRefuseReduction (G.may_refuse gate.now) frame.now (EachInTruths link.now.right.now)) TruthValue turn.new result
        (truth_linked_at frame.now left link.now index.now) }
{
    if decides(link.op, left.get()) {
        return Ok(left);
    }
    let right = promoted_truth_value(link.right, index, frame, gate, turn)?;
    Ok(Truth::new(joined(link.op, left.get(), right.get())))
}

// A chain of truth values. What decides one operator is the left side of the next one.
#[cycle(truth)]
fn truth_chained<G: Team>(
    first: &PromotedTruth<'_>,
    links: &[PromotedTruthLink<'_>],
    index: &Index,
    frame: &Frame<G::Kept>,
    gate: &G,
    turn: &mut Turn,
) -> Result<Truth, Alarm>
    requires ready { G.is_ready gate.now }
    ensures { Tells (MayRefuseReduction (G.may_refuse gate.now) frame.now (EachInTruthsChain first.now links.now)) TruthValue turn.new result
        (truth_chain_at frame.now first.now links.now index.now) }
{
    let mut value = promoted_truth_value(first, index, frame, gate, turn)?;
    for link in links {
        value = truth_linked(value, link, index, frame, gate, turn)?;
    }
    Ok(value)
}

/// The slot of the first whole array in a promoted int, if there is one.
#[cycle(ints)]
pub fn int_array(e: &PromotedInt<'_>) -> Option<usize>
    ensures { result ≡ first_of_ints e.now }
{
    match e {
        PromotedInt::Scalar(_) => None,
        PromotedInt::Element(slot, _) => Some(*slot),
        PromotedInt::Negative(e) => int_array(e),
        PromotedInt::Chain(first, links) => match int_array(first) {
            Some(slot) => Some(slot),
            None => linked_array(links),
        },
    }
}

// The same of the further operands of a chain.
#[cycle(ints)]
fn linked_array(links: &[PromotedIntLink<'_>]) -> Option<usize>
    ensures { result ≡ first_of_int_links links.now }
{
    for link in links {
        if let Some(slot) = int_array(link.right) {
            return Some(slot);
        }
    }
    None
}

/// The slot of the first whole array in a promoted truth value, if there is one.
#[cycle(truths)]
pub fn truth_array(e: &PromotedTruth<'_>) -> Option<usize>
    ensures { result ≡ first_of_truths e.now }
{
    match e {
        PromotedTruth::Scalar(_) => None,
        PromotedTruth::Element(slot, _) => Some(*slot),
        PromotedTruth::Not(e) => truth_array(e),
        PromotedTruth::Chain(first, links) => match truth_array(first) {
            Some(slot) => Some(slot),
            None => linked_truth_array(links),
        },
        PromotedTruth::Compare(_, a, b) => match int_array(a) {
            Some(slot) => Some(slot),
            None => int_array(b),
        },
    }
}

// The same of the further operands of a chain.
#[cycle(truths)]
fn linked_truth_array(links: &[PromotedTruthLink<'_>]) -> Option<usize>
    ensures { result ≡ first_of_truth_links links.now }
{
    for link in links {
        if let Some(slot) = truth_array(link.right) {
            return Some(slot);
        }
    }
    None
}

/// The domain of the first whole array in a promoted int, if there is one.
pub fn int_domain<A: Arrays>(e: &PromotedInt<'_>, frame: &Frame<A>) -> Option<DomainWord>
    ensures { result ≡ whole_in frame.now.limits in_memory (promoted_int EachTurn e.now) frame.now.memory }
{
    match int_array(e) {
        Some(slot) => Some(frame.array_domain(slot)),
        None => None,
    }
}

/// The domain of the first whole array in a promoted truth value, if there is one.
pub fn truth_domain<A: Arrays>(e: &PromotedTruth<'_>, frame: &Frame<A>) -> Option<DomainWord>
    ensures { result ≡ whole_in frame.now.limits in_memory (promoted_truth EachTurn e.now) frame.now.memory }
{
    match truth_array(e) {
        Some(slot) => Some(frame.array_domain(slot)),
        None => None,
    }
}
