// The values of a promoted int at several indices at once, where that needs no look at each: whole arrays, ints at hand, sums,
// differences and products of these, and quotients and remainders by an int at hand.
// All is made in the caller's strip, whose size says before how many are wanted. Where fewer words of an array lie side by side, as where a piece
// of it ends, they are gathered from several pieces (along.rt); a size of 0 asks for those side by side alone, however many they are, so what stands
// on an operator's left is never cut to what is wanted. An operator's right side that is an int or lies in an array is read where it is; only one
// that is gathered, or made of operators itself, has a strip of its own, in a function apart: what a function may need is cleared at its entry.

ghost use Rattle.std.specs.Prelude.{◌≡◌, ◌<◌, ℕ, pos, Ok, Some, get_or, slice_get, IfSome};
ghost use Rattle.dpl_syntax.specs.declared.place.Place.{Place};
ghost use Rattle.dpl_array.specs.Elements.{behind};
ghost use Rattle.dpl_language.specs.Tree.{Minus, Divide, Remainder, Prefixed, ExprTree};
ghost use Rattle.dpl_language.specs.Values.{Int, Index as IndexValue};
ghost use Rattle.dpl_language.specs.Expressions.{value_of};
ghost use Rattle.dpl_lowered.specs.LoweredExpressions.{EachTurn};
ghost use Rattle.dpl_lowered.specs.Shapes.{nowhere, two, grouped};
ghost use Rattle.dpl_memory.specs.Memory.{Variable, Memory, array_at, held_at, in_memory};
ghost use Rattle.dpl_nodes.specs.Typed.{int_infix, int_place, promoted_int, promoted_int_links_of};
ghost use Rattle.dpl_strips.specs.Strips.{IsSameAt, HoldsAtIndices, RightHolds, infix_of};

use crate::along::{Found, found_along, take};
use crate::apply::{Right, Wrapping, apply, divide, leave, negate, repeat};
use dpl_frame::{Arrays, Frame};
use dpl_loop::{Row, STRIP, Strip};
use dpl_nodes::{IntExpr, IntOperator, PromotedInt, PromotedIntLink};

// An int that is the same at all indices, as a slot holds it or as it stands in the text.
fn steady<A: Arrays>(e: &PromotedInt<'_>, frame: &Frame<A>) -> Option<i64>
    ensures { IfSome result (λ n. (t : IndexValue) (u : Memory) → u.words ≡ frame.now.memory.words
        → value_of frame.now.limits in_memory (promoted_int EachTurn e.now) (Some t) u ≡ Ok (Int n)) }
{
    match e {
        PromotedInt::Scalar(IntExpr::Number(n)) => Some(*n),
        PromotedInt::Scalar(IntExpr::Local(slot)) => Some(frame.number(*slot)),
        _ => None,
    }
}

// A right side that needs no strip. So many words are wanted; where fewer lie side by side, it needs one.
fn right_of<'f, A: Arrays>(
    e: &PromotedInt<'_>,
    row: Row,
    wanted: usize,
    frame: &'f Frame<A>,
) -> Option<Right<'f>>
    ensures { IfSome result (RightHolds (λ row k u. IsSameAt (behind k row) frame.now.memory u)
        (λ i u. value_of frame.now.limits in_memory (promoted_int EachTurn e.now) (Some i) u) row) }
{
    match e {
        PromotedInt::Element(slot, _) => match found_along(*slot, row, wanted, frame) {
            Found::Words(words) => Some(Right::Words(words)),
            Found::Along(_) => None,
        },
        _ => match steady(e, frame) {
            Some(n) => Some(Right::Int(n)),
            None => None,
        },
    }
}

// One int, if it is at hand, everywhere.
fn scalar<A: Arrays>(e: &PromotedInt<'_>, frame: &Frame<A>, strip: &mut Strip)
    ensures row { strip.new.row ≡ strip.old.row }
    ensures values { HoldsAtIndices (λ i u. value_of frame.now.limits in_memory (promoted_int EachTurn e.now) (Some i) u) frame.now.memory strip.new }
{
    match steady(e, frame) {
        Some(n) => repeat(strip, n),
        None => strip.size = 0,
    }
}

// The ints of a whole array.
fn element<A: Arrays>(slot: usize, frame: &Frame<A>, strip: &mut Strip)
    ensures row { strip.new.row ≡ strip.old.row }
    ensures words { (k : ℕ) → k < strip.new.size → k < 64
        → held_at (behind k strip.old.row) (array_at slot frame.now.memory) ≡ Some (get_or strip.new.words k (pos 0)) }
{
    let found = found_along(slot, strip.row, strip.size, frame);
    take(strip, slot, found, frame);
}

// Promoted ints with the other sign.
#[cycle(promoted)]
#[inline(never)]
fn negatives<A: Arrays>(e: &PromotedInt<'_>, frame: &Frame<A>, strip: &mut Strip)
    ensures row { strip.new.row ≡ strip.old.row }
    ensures values { HoldsAtIndices (λ i u. value_of frame.now.limits in_memory (Prefixed nowhere Minus (promoted_int EachTurn e.now))
        (Some i) u) frame.now.memory strip.new }
{
    promoted_ints(e, frame, strip);
    negate(strip);
}

// What an operator makes of the ints so far and of a further operand, which has a strip of its own.
#[cycle(promoted)]
#[inline(never)]
fn join_strip<A: Arrays>(
    op: Wrapping,
    b: &PromotedInt<'_>,
    most: usize,
    frame: &Frame<A>,
    strip: &mut Strip,
)
    ensures row { strip.new.row ≡ strip.old.row }
    ensures values { (a : ExprTree Variable)
        → HoldsAtIndices (λ i u. value_of frame.now.limits in_memory a (Some i) u) frame.now.memory strip.old
        → HoldsAtIndices (λ i u. value_of frame.now.limits in_memory
        (two a nowhere (infix_of op) (promoted_int EachTurn b.now)) (Some i) u) frame.now.memory strip.new }
{
    let mut right = Strip::none(strip.row);
    right.size = most;
    promoted_ints(b, frame, &mut right);
    let size = right.size.min(STRIP);
    apply(op, strip, Right::Words(&right.words[..size]));
}

// What an operator makes of the ints so far and of a further operand, of which so many are wanted.
#[cycle(promoted)]
fn join<A: Arrays>(
    op: Wrapping,
    b: &PromotedInt<'_>,
    most: usize,
    frame: &Frame<A>,
    strip: &mut Strip,
)
    ensures row { strip.new.row ≡ strip.old.row }
    ensures values { (a : ExprTree Variable)
        → HoldsAtIndices (λ i u. value_of frame.now.limits in_memory a (Some i) u) frame.now.memory strip.old
        → HoldsAtIndices (λ i u. value_of frame.now.limits in_memory
        (two a nowhere (infix_of op) (promoted_int EachTurn b.now)) (Some i) u) frame.now.memory strip.new }
{
    let size = strip.size.min(most);
    let Some(right) = right_of(b, strip.row, size, frame) else {
        join_strip(op, b, size, frame, strip);
        return;
    };
    apply(op, strip, right);
}

// Quotients of the ints so far, by an int at hand that isn't 0.
fn quotients<A: Arrays>(b: &PromotedInt<'_>, frame: &Frame<A>, strip: &mut Strip)
    ensures row { strip.new.row ≡ strip.old.row }
    ensures values { (a : ExprTree Variable) (at : Place)
        → HoldsAtIndices (λ i u. value_of frame.now.limits in_memory a (Some i) u) frame.now.memory strip.old
        → HoldsAtIndices (λ i u. value_of frame.now.limits in_memory
        (two a at Divide (promoted_int EachTurn b.now)) (Some i) u) frame.now.memory strip.new }
{
    match steady(b, frame) {
        Some(n) if n != 0 => divide(strip, n),
        _ => strip.size = 0,
    }
}

// Their remainders, by such an int.
fn remainders<A: Arrays>(b: &PromotedInt<'_>, frame: &Frame<A>, strip: &mut Strip)
    ensures row { strip.new.row ≡ strip.old.row }
    ensures values { (a : ExprTree Variable) (at : Place)
        → HoldsAtIndices (λ i u. value_of frame.now.limits in_memory a (Some i) u) frame.now.memory strip.old
        → HoldsAtIndices (λ i u. value_of frame.now.limits in_memory
        (two a at Remainder (promoted_int EachTurn b.now)) (Some i) u) frame.now.memory strip.new }
{
    match steady(b, frame) {
        Some(n) if n != 0 => leave(strip, n),
        _ => strip.size = 0,
    }
}

// Whether all quotients and remainders in a chain are by such ints.
fn divide_alike<A: Arrays>(links: &[PromotedIntLink<'_>], frame: &Frame<A>) -> bool {
    for link in links {
        if let IntOperator::Quotient(_) | IntOperator::Remainder(_) = link.op {
            match steady(link.right, frame) {
                Some(n) if n != 0 => {}
                _ => return false,
            }
        }
    }
    true
}

// A further operand of a chain, behind the ints so far.
#[cycle(promoted)]
fn linked<A: Arrays>(link: &PromotedIntLink<'_>, most: usize, frame: &Frame<A>, strip: &mut Strip)
    ensures row { strip.new.row ≡ strip.old.row }
    ensures values { (a : ExprTree Variable)
        → HoldsAtIndices (λ i u. value_of frame.now.limits in_memory a (Some i) u) frame.now.memory strip.old
        → HoldsAtIndices (λ i u. value_of frame.now.limits in_memory
        (two a (int_place link.now.op) (int_infix link.now.op) (promoted_int EachTurn link.now.right.now)) (Some i) u) frame.now.memory strip.new }
{
    match link.op {
        IntOperator::Sum => join(Wrapping::Sum, link.right, most, frame, strip),
        IntOperator::Difference => join(Wrapping::Difference, link.right, most, frame, strip),
        IntOperator::Product => join(Wrapping::Product, link.right, most, frame, strip),
        IntOperator::Quotient(_) => quotients(link.right, frame, strip),
        IntOperator::Remainder(_) => remainders(link.right, frame, strip),
    }
}

// A chain: its operands go from left to right, and the ints so far are in the strip.
#[cycle(promoted)]
#[inline(never)]
fn chained<A: Arrays>(
    first: &PromotedInt<'_>,
    links: &[PromotedIntLink<'_>],
    frame: &Frame<A>,
    strip: &mut Strip,
)
    ensures row { strip.new.row ≡ strip.old.row }
    ensures values { HoldsAtIndices (λ i u. value_of frame.now.limits in_memory
        (grouped (promoted_int EachTurn first.now) (promoted_int_links_of EachTurn links.now)) (Some i) u) frame.now.memory strip.new }
{
    if !divide_alike(links, frame) {
        strip.size = 0;
        return;
    }
    let most = strip.size;
    promoted_ints(first, frame, strip);
    for link in links {
        linked(link, most, frame, strip);
    }
}

/// Makes a strip the values of a promoted int at the indices of its row, as far as they are found at once. There may be none. They stay the
/// values there while elements at other indices change. So many as the strip's size says before are wanted: where fewer elements lie side by side,
/// they are gathered from several pieces.
#[cycle(promoted)]
pub fn promoted_ints<A: Arrays>(e: &PromotedInt<'_>, frame: &Frame<A>, strip: &mut Strip)
    ensures row { strip.new.row ≡ strip.old.row }
    ensures values { HoldsAtIndices (λ i u. value_of frame.now.limits in_memory (promoted_int EachTurn e.now) (Some i) u) frame.now.memory strip.new }
{
    match e {
        PromotedInt::Scalar(_) => scalar(e, frame, strip),
        PromotedInt::Element(slot, _) => element(*slot, frame, strip),
        PromotedInt::Negative(e) => negatives(e, frame, strip),
        PromotedInt::Chain(first, links) => chained(first, links, frame, strip),
    }
}

/// The same as a strip of its own, over a row: those whose elements lie side by side.
pub fn promoted_strip<A: Arrays>(e: &PromotedInt<'_>, row: Row, frame: &Frame<A>) -> Strip
    ensures row { result.row ≡ row }
    ensures values { HoldsAtIndices (λ i u. value_of frame.now.limits in_memory (promoted_int EachTurn e.now) (Some i) u) frame.now.memory result }
{
    let mut strip = Strip::none(row);
    promoted_ints(e, frame, &mut strip);
    strip
}
