// The ints of an expression in several turns of a loop at once, and where the elements lie that these turns find.
// What is read is read before the turns, and so of what they write only the elements that a turn writes itself. Strips are made as in strip.rt:
// how many ints are wanted is what a strip's size says before, and they go on where an array's piece ends.

ghost use Rattle.std.specs.Prelude.{◌≡◌, ◌<◌, ℕ, pos, ◌+ℤ◌, ◌*ℤ◌, IsTrue, None, map, get_or, length, IfSome};
ghost use Rattle.dpl_syntax.specs.declared.place.Place.{Place};
ghost use Rattle.dpl_language.specs.Arithmetic.{wrap};
ghost use Rattle.dpl_language.specs.Tree.{Kind, IntKind, Minus, Divide, Remainder, Prefixed, ExprTree};
ghost use Rattle.dpl_language.specs.Expressions.{value_of};
ghost use Rattle.dpl_lowered.specs.Shapes.{nowhere, two, grouped};
ghost use Rattle.dpl_memory.specs.Memory.{Variable, in_memory};
ghost use Rattle.dpl_nodes.specs.declared.tree.IndexExpr.{Tuple as TupleIndex};
ghost use Rattle.dpl_nodes.specs.Typed.{array_named, in_square, index_items, int_view, int_links_of, int_infix, int_place};
ghost use Rattle.dpl_strips.specs.Strips.{paced, FitsTurns, written, IsInOwnTurn, HoldsInTurns, RightHolds, GoesFrom, infix_of};
ghost use Rattle.dpl_strips.specs.Truths.{FoundInTurns};

use crate::along::{Found, found_along, take};
use crate::apply::{Right, Wrapping, apply, divide, leave, negate, repeat};
use crate::pace::{Pace, first_step, pace_of, steady};
use crate::target::{Target, target_at};
use dpl_arithmetic::index::{coordinate, plane, space};
use dpl_arithmetic::number::sum;
use dpl_domain::Index;
use dpl_frame::{Arrays, Frame};
use dpl_loop::{Row, STRIP, Strip};
use dpl_nodes::{IndexExpr, IntExpr, IntLink, IntOperator, Names};

// Ints that follow one another by the step of a strip's row.
fn count(strip: &mut Strip, from: i64)
    ensures row { strip.new.row ≡ strip.old.row }
    ensures words { (k : ℕ) → k < 64 → get_or strip.new.words k (pos 0) ≡ wrap (from +ℤ strip.old.row.step *ℤ pos k) }
{
    let step = strip.row.step();
    let mut next = from;
    for k in 0..STRIP {
        strip.words[k] = next;
        next = sum(next, step);
    }
    strip.size = STRIP;
}

// The ints of one that goes so.
fn pace(strip: &mut Strip, pace: Pace)
    ensures row { strip.new.row ≡ strip.old.row }
    ensures words { FitsTurns strip.old.row.step pace → (k : ℕ) → k < 64
        → get_or strip.new.words k (pos 0) ≡ paced strip.old.row.step pace k }
{
    match pace {
        Pace::Steady(n) => repeat(strip, n),
        Pace::Stepping(from) => count(strip, from),
    }
}

// The index that a tuple's slot holds in the first turn, if it holds that of each turn.
fn tuple_index<A: Arrays>(
    slot: usize,
    names: &Names<'_>,
    targets: &[Target<'_>],
    row: Row,
    frame: &Frame<A>,
) -> Option<Index>
    ensures { IfSome result (λ t. GoesFrom frame.now.limits names.now (map written targets.now) row frame.now.memory
        (TupleIndex slot) (record row { first = t })) }
{
    match names {
        Names::Tuple(variable) if *variable == slot && frame.has_tuple(slot) => Some(row.first()),
        _ => None,
    }
}

// The index that the first turn finds, where each turn finds one as far behind it as its own lies behind the first.
fn first_index<A: Arrays>(
    index: &IndexExpr<'_>,
    names: &Names<'_>,
    targets: &[Target<'_>],
    row: Row,
    frame: &Frame<A>,
) -> Option<Index>
    ensures { IfSome result (λ t. GoesFrom frame.now.limits names.now (map written targets.now) row frame.now.memory index.now (record row { first = t })) }
{
    match index {
        IndexExpr::Line(i) => Some(coordinate(first_step(i, names, targets, row, frame)?)),
        IndexExpr::Plane(i, j) => {
            let i = steady(i, names, targets, row, frame)?;
            let j = first_step(j, names, targets, row, frame)?;
            Some(plane(i, j))
        }
        IndexExpr::Space(i, j, k) => {
            let i = steady(i, names, targets, row, frame)?;
            let j = steady(j, names, targets, row, frame)?;
            let k = first_step(k, names, targets, row, frame)?;
            Some(space(i, j, k))
        }
        IndexExpr::Tuple(slot) => tuple_index(*slot, names, targets, row, frame),
    }
}

/// The row of the indices that the turns find, where each finds one as far behind the first turn's as its own lies behind the first.
pub fn turn_row<A: Arrays>(
    index: &IndexExpr<'_>,
    names: &Names<'_>,
    targets: &[Target<'_>],
    row: Row,
    frame: &Frame<A>,
) -> Option<Row>
    ensures { IfSome result (λ at. GoesFrom frame.now.limits names.now (map written targets.now) row frame.now.memory index.now at) }
{
    let first = first_index(index, names, targets, row, frame)?;
    Some(row.begun_at(first))
}

/// Whether two rows are the same.
pub fn is_same(a: Row, b: Row) -> bool
    ensures { IsTrue result → a ≡ b }
{
    let (one, other) = (a.first(), b.first());
    if one.rank() != other.rank() {
        return false;
    }
    if a.step() != b.step() {
        return false;
    }
    let (x, y, z) = one.numbers();
    let (u, v, w) = other.numbers();
    if x != u {
        return false;
    }
    if y != v {
        return false;
    }
    if z != w {
        return false;
    }
    true
}

/// The elements of an array that the turns find, where no other turn writes them; those that a turn writes itself are what statements of it have
/// made of them. They are told as words, whatever the array's kind; so many are wanted.
pub(crate) fn elements<'f, A: Arrays>(
    slot: usize,
    index: &IndexExpr<'_>,
    names: &Names<'_>,
    targets: &[Target<'f>],
    row: Row,
    wanted: usize,
    frame: &'f Frame<A>,
) -> Option<Found<'f>>
    ensures { (kind : Kind) (at : Place) → IfSome result (FoundInTurns names.now (map written targets.now)
        (value_of frame.now.limits in_memory (in_square (array_named kind slot at) (index_items index.now)) None) kind slot row frame.now.memory) }
{
    let at = turn_row(index, names, targets, row, frame)?;
    let Some(target) = target_at(targets, slot) else {
        return Some(found_along(slot, at, wanted, frame));
    };
    if !is_same(at, target.at) {
        return None;
    }
    match target.words {
        Some(words) => Some(Found::Words(words)),
        None => Some(found_along(slot, at, wanted, frame)),
    }
}

// A right side that needs no strip. So many words are wanted; where fewer lie side by side, it needs one.
fn right_of<'f, A: Arrays>(
    e: &IntExpr<'_>,
    names: &Names<'_>,
    targets: &[Target<'f>],
    row: Row,
    wanted: usize,
    frame: &'f Frame<A>,
) -> Option<Right<'f>>
    ensures { IfSome result (RightHolds (λ row k u. IsInOwnTurn names.now (map written targets.now) row k frame.now.memory u)
        (λ t u. value_of frame.now.limits in_memory (int_view e.now) None u) row) }
{
    match e {
        IntExpr::Element(slot, index, _) => {
            match elements(*slot, index, names, targets, row, wanted, frame) {
                Some(Found::Words(words)) => Some(Right::Words(words)),
                _ => None,
            }
        }
        _ => match steady(e, names, targets, row, frame) {
            Some(n) => Some(Right::Int(n)),
            None => None,
        },
    }
}

// The ints of one whose pace is told.
fn leaf<A: Arrays>(
    e: &IntExpr<'_>,
    names: &Names<'_>,
    targets: &[Target<'_>],
    frame: &Frame<A>,
    strip: &mut Strip,
)
    ensures row { strip.new.row ≡ strip.old.row }
    ensures values { HoldsInTurns names.now (map written targets.now)
        (λ u. value_of frame.now.limits in_memory (int_view e.now) None u) frame.now.memory strip.new }
{
    match pace_of(e, names, targets, strip.row, frame) {
        Some(told) => pace(strip, told),
        None => strip.size = 0,
    }
}

// The ints of an element.
fn element<A: Arrays>(
    slot: usize,
    index: &IndexExpr<'_>,
    names: &Names<'_>,
    targets: &[Target<'_>],
    frame: &Frame<A>,
    strip: &mut Strip,
)
    ensures row { strip.new.row ≡ strip.old.row }
    ensures values { (at : Place) → HoldsInTurns names.now (map written targets.now) (λ u. value_of frame.now.limits in_memory
        (in_square (array_named IntKind slot at) (index_items index.now)) None u) frame.now.memory strip.new }
{
    match elements(slot, index, names, targets, strip.row, strip.size, frame) {
        Some(found) => take(strip, slot, found, frame),
        None => strip.size = 0,
    }
}

// Ints with the other sign.
#[cycle(turns)]
#[inline(never)]
fn negatives<A: Arrays>(
    e: &IntExpr<'_>,
    names: &Names<'_>,
    targets: &[Target<'_>],
    frame: &Frame<A>,
    strip: &mut Strip,
)
    ensures row { strip.new.row ≡ strip.old.row }
    ensures values { HoldsInTurns names.now (map written targets.now) (λ u. value_of frame.now.limits in_memory
        (Prefixed nowhere Minus (int_view e.now)) None u) frame.now.memory strip.new }
{
    turn_ints(e, names, targets, frame, strip);
    negate(strip);
}

// The ints of a dividend, where the divisor is an int that is the same in all turns and isn't 0.
#[cycle(turns)]
fn dividends<A: Arrays>(
    a: &IntExpr<'_>,
    b: &IntExpr<'_>,
    names: &Names<'_>,
    targets: &[Target<'_>],
    frame: &Frame<A>,
    strip: &mut Strip,
)
    ensures row { strip.new.row ≡ strip.old.row }
    ensures values { HoldsInTurns names.now (map written targets.now)
        (λ u. value_of frame.now.limits in_memory (int_view a.now) None u) frame.now.memory strip.new }
{
    match steady(b, names, targets, strip.row, frame) {
        Some(n) if n != 0 => turn_ints(a, names, targets, frame, strip),
        _ => strip.size = 0,
    }
}

// What an operator makes of the ints so far and of a further operand, which has a strip of its own.
#[cycle(turns)]
#[inline(never)]
fn join_strip<A: Arrays>(
    op: Wrapping,
    b: &IntExpr<'_>,
    most: usize,
    names: &Names<'_>,
    targets: &[Target<'_>],
    frame: &Frame<A>,
    strip: &mut Strip,
)
    ensures row { strip.new.row ≡ strip.old.row }
    ensures values { (a : ExprTree Variable) → HoldsInTurns names.now (map written targets.now)
        (λ u. value_of frame.now.limits in_memory a None u) frame.now.memory strip.old
        → HoldsInTurns names.now (map written targets.now) (λ u. value_of frame.now.limits in_memory
        (two a nowhere (infix_of op) (int_view b.now)) None u) frame.now.memory strip.new }
{
    let mut right = Strip::none(strip.row);
    right.size = most;
    turn_ints(b, names, targets, frame, &mut right);
    let size = right.size.min(STRIP);
    apply(op, strip, Right::Words(&right.words[..size]));
}

// What an operator makes of the ints so far and of a further operand, of which so many are wanted.
#[cycle(turns)]
fn join<A: Arrays>(
    op: Wrapping,
    b: &IntExpr<'_>,
    most: usize,
    names: &Names<'_>,
    targets: &[Target<'_>],
    frame: &Frame<A>,
    strip: &mut Strip,
)
    ensures row { strip.new.row ≡ strip.old.row }
    ensures values { (a : ExprTree Variable) → HoldsInTurns names.now (map written targets.now)
        (λ u. value_of frame.now.limits in_memory a None u) frame.now.memory strip.old
        → HoldsInTurns names.now (map written targets.now) (λ u. value_of frame.now.limits in_memory
        (two a nowhere (infix_of op) (int_view b.now)) None u) frame.now.memory strip.new }
{
    let size = strip.size.min(most);
    let Some(right) = right_of(b, names, &*targets, strip.row, size, &*frame) else {
        join_strip(op, b, size, names, targets, frame, strip);
        return;
    };
    apply(op, strip, right);
}

// Quotients of the ints so far, by an int that is the same in all turns and isn't 0.
fn quotients<A: Arrays>(
    b: &IntExpr<'_>,
    names: &Names<'_>,
    targets: &[Target<'_>],
    frame: &Frame<A>,
    strip: &mut Strip,
)
    ensures row { strip.new.row ≡ strip.old.row }
    ensures values { (a : ExprTree Variable) (at : Place) → HoldsInTurns names.now (map written targets.now)
        (λ u. value_of frame.now.limits in_memory a None u) frame.now.memory strip.old
        → HoldsInTurns names.now (map written targets.now) (λ u. value_of frame.now.limits in_memory
        (two a at Divide (int_view b.now)) None u) frame.now.memory strip.new }
{
    match steady(b, names, targets, strip.row, frame) {
        Some(n) if n != 0 => divide(strip, n),
        _ => strip.size = 0,
    }
}

// Remainders, by such an int.
fn remainders<A: Arrays>(
    b: &IntExpr<'_>,
    names: &Names<'_>,
    targets: &[Target<'_>],
    frame: &Frame<A>,
    strip: &mut Strip,
)
    ensures row { strip.new.row ≡ strip.old.row }
    ensures values { (a : ExprTree Variable) (at : Place) → HoldsInTurns names.now (map written targets.now)
        (λ u. value_of frame.now.limits in_memory a None u) frame.now.memory strip.old
        → HoldsInTurns names.now (map written targets.now) (λ u. value_of frame.now.limits in_memory
        (two a at Remainder (int_view b.now)) None u) frame.now.memory strip.new }
{
    match steady(b, names, targets, strip.row, frame) {
        Some(n) if n != 0 => leave(strip, n),
        _ => strip.size = 0,
    }
}

// Whether all quotients and remainders in a chain are by such ints.
fn divide_alike<A: Arrays>(
    links: &[IntLink<'_>],
    names: &Names<'_>,
    targets: &[Target<'_>],
    row: Row,
    frame: &Frame<A>,
) -> bool {
    for link in links {
        if let IntOperator::Quotient(_) | IntOperator::Remainder(_) = link.op {
            match steady(link.right, names, targets, row, frame) {
                Some(n) if n != 0 => {}
                _ => return false,
            }
        }
    }
    true
}

// A further operand of a chain, behind the ints so far.
#[cycle(turns)]
fn linked<A: Arrays>(
    link: &IntLink<'_>,
    most: usize,
    names: &Names<'_>,
    targets: &[Target<'_>],
    frame: &Frame<A>,
    strip: &mut Strip,
)
    ensures row { strip.new.row ≡ strip.old.row }
    ensures values { (a : ExprTree Variable) → HoldsInTurns names.now (map written targets.now)
        (λ u. value_of frame.now.limits in_memory a None u) frame.now.memory strip.old
        → HoldsInTurns names.now (map written targets.now) (λ u. value_of frame.now.limits in_memory
        (two a (int_place link.now.op) (int_infix link.now.op) (int_view link.now.right.now)) None u) frame.now.memory strip.new }
{
    let b = link.right;
    match link.op {
        IntOperator::Sum => join(Wrapping::Sum, b, most, names, targets, frame, strip),
        IntOperator::Difference => join(
            Wrapping::Difference,
            b,
            most,
            names,
            targets,
            frame,
            strip,
        ),
        IntOperator::Product => join(Wrapping::Product, b, most, names, targets, frame, strip),
        IntOperator::Quotient(_) => quotients(b, names, targets, frame, strip),
        IntOperator::Remainder(_) => remainders(b, names, targets, frame, strip),
    }
}

// A chain: its operands go from left to right, and the ints so far are in the strip.
#[cycle(turns)]
#[inline(never)]
fn chained<A: Arrays>(
    first: &IntExpr<'_>,
    links: &[IntLink<'_>],
    names: &Names<'_>,
    targets: &[Target<'_>],
    frame: &Frame<A>,
    strip: &mut Strip,
)
    ensures row { strip.new.row ≡ strip.old.row }
    ensures values { HoldsInTurns names.now (map written targets.now) (λ u. value_of frame.now.limits in_memory
        (grouped (int_view first.now) (int_links_of links.now)) None u) frame.now.memory strip.new }
{
    if !divide_alike(links, names, targets, strip.row, frame) {
        strip.size = 0;
        return;
    }
    let most = strip.size;
    turn_ints(first, names, targets, frame, strip);
    for link in links {
        linked(link, most, names, targets, frame, strip);
    }
}

/// Makes a strip the ints of an expression in the turns of its row's indices, as far as they are found at once. There may be none. The turns
/// may write the words in some slots, which are not read here, or elements of the arrays in them, of which each turn reads no other than it
/// writes. So many as the strip's size says before are wanted: where fewer elements lie side by side, they are gathered from several pieces.
#[cycle(turns)]
pub fn turn_ints<A: Arrays>(
    e: &IntExpr<'_>,
    names: &Names<'_>,
    targets: &[Target<'_>],
    frame: &Frame<A>,
    strip: &mut Strip,
)
    ensures row { strip.new.row ≡ strip.old.row }
    ensures values { HoldsInTurns names.now (map written targets.now)
        (λ u. value_of frame.now.limits in_memory (int_view e.now) None u) frame.now.memory strip.new }
{
    let most = strip.size;
    match e {
        IntExpr::Number(_) | IntExpr::Local(_) => leaf(e, names, targets, frame, strip),
        IntExpr::Element(slot, index, _) => element(*slot, index, names, targets, frame, strip),
        IntExpr::Negative(e) => negatives(e, names, targets, frame, strip),
        IntExpr::Sum(a, b) => {
            turn_ints(a, names, targets, frame, strip);
            join(Wrapping::Sum, b, most, names, targets, frame, strip);
        }
        IntExpr::Difference(a, b) => {
            turn_ints(a, names, targets, frame, strip);
            join(Wrapping::Difference, b, most, names, targets, frame, strip);
        }
        IntExpr::Product(a, b) => {
            turn_ints(a, names, targets, frame, strip);
            join(Wrapping::Product, b, most, names, targets, frame, strip);
        }
        IntExpr::Quotient(a, b, _) => {
            dividends(a, b, names, targets, frame, strip);
            quotients(b, names, targets, frame, strip);
        }
        IntExpr::Remainder(a, b, _) => {
            dividends(a, b, names, targets, frame, strip);
            remainders(b, names, targets, frame, strip);
        }
        IntExpr::Chain(first, links) => chained(first, links, names, targets, frame, strip),
        _ => strip.size = 0,
    }
}
