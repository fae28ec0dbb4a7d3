// The truth values of an expression in several turns of a loop at once, in the words of a strip: 1 is true and 0 is false.
// What is read is read before the turns, as for ints (turn_strips.rt). No part has a fault there, so both sides of `&&` and `||` are found.

ghost use Rattle.std.specs.Prelude.{◌≡◌, ◌≤◌, ◌<◌, Bool, not, ℕ, pos, None, map, get_or, length};
ghost use Rattle.dpl_syntax.specs.declared.place.Place.{Place};
ghost use Rattle.dpl_language.specs.Tree.{BoolKind, Not, Prefixed, ExprTree};
ghost use Rattle.dpl_language.specs.Values.{Truth, kept_number};
ghost use Rattle.dpl_language.specs.Expressions.{value_of};
ghost use Rattle.dpl_words.specs.Words.{is_true};
ghost use Rattle.dpl_lowered.specs.Shapes.{nowhere, two, grouped};
ghost use Rattle.dpl_memory.specs.Memory.{Variable, truth_leaf, in_memory};
ghost use Rattle.dpl_nodes.specs.Typed.{array_named, in_square, index_items, int_view, truth_view, truth_links_of, junction_view, leaf_named, comparison_view};
ghost use Rattle.dpl_strips.specs.Strips.{written};
ghost use Rattle.dpl_strips.specs.Truths.{TruthsHoldInTurns, joins, compares};

use crate::along::take;
use crate::apply::{each, repeat, with_words};
use crate::pace::steady;
use crate::target::Target;
use crate::truth::{
    all_of, any_of, at_least, at_most, equal, greater, less, opposite, truth, unequal,
};
use crate::turn_strips::{elements, turn_ints};
use dpl_frame::{Arrays, Frame};
use dpl_loop::{STRIP, Strip};
use dpl_nodes::{BoolExpr, Comparison, IndexExpr, IntExpr, Junction, Names, TruthLink};

// What an operator makes of the truth values of a strip, each with the one at the same place on its right.
fn join(op: Junction, strip: &mut Strip, right: &[i64])
    ensures row { strip.new.row ≡ strip.old.row }
    ensures left { strip.new.size ≤ strip.old.size }
    ensures right { strip.new.size ≤ length right.now }
    ensures words { (k : ℕ) → k < strip.new.size → k < 64 → (x y : Bool) → get_or strip.old.words k (pos 0) ≡ kept_number (Truth x)
        → get_or right.now k (pos 0) ≡ kept_number (Truth y) → get_or strip.new.words k (pos 0) ≡ kept_number (Truth (joins op x y)) }
{
    match op {
        Junction::And => with_words(strip, right, all_of),
        Junction::Or => with_words(strip, right, any_of),
        Junction::Same => with_words(strip, right, equal),
        Junction::Differ => with_words(strip, right, unequal),
    }
}

// How the ints of a strip compare, each with the one at the same place on its right.
fn compare(c: Comparison, strip: &mut Strip, right: &[i64])
    ensures row { strip.new.row ≡ strip.old.row }
    ensures left { strip.new.size ≤ strip.old.size }
    ensures right { strip.new.size ≤ length right.now }
    ensures words { (k : ℕ) → k < strip.new.size → k < 64 → get_or strip.new.words k (pos 0)
        ≡ kept_number (Truth (compares c (get_or strip.old.words k (pos 0)) (get_or right.now k (pos 0)))) }
{
    match c {
        Comparison::Equal => with_words(strip, right, equal),
        Comparison::Unequal => with_words(strip, right, unequal),
        Comparison::Less => with_words(strip, right, less),
        Comparison::AtMost => with_words(strip, right, at_most),
        Comparison::Greater => with_words(strip, right, greater),
        Comparison::AtLeast => with_words(strip, right, at_least),
    }
}

// The truth values that the words of a strip are.
fn settle(strip: &mut Strip)
    ensures row { strip.new.row ≡ strip.old.row }
    ensures size { strip.new.size ≡ strip.old.size }
    ensures words { (k : ℕ) → k < 64 → get_or strip.new.words k (pos 0) ≡ kept_number (is_true (get_or strip.old.words k (pos 0))) }
{
    each(strip, truth);
}

// The opposites of the truth values of a strip.
fn oppose(strip: &mut Strip)
    ensures row { strip.new.row ≡ strip.old.row }
    ensures size { strip.new.size ≡ strip.old.size }
    ensures words { (k : ℕ) → k < 64 → (x : Bool) → get_or strip.old.words k (pos 0) ≡ kept_number (Truth x)
        → get_or strip.new.words k (pos 0) ≡ kept_number (Truth (not x)) }
{
    each(strip, opposite);
}

// The truth values of a variable, which is none of the loop's.
fn local<A: Arrays>(
    slot: usize,
    names: &Names<'_>,
    targets: &[Target<'_>],
    frame: &Frame<A>,
    strip: &mut Strip,
)
    ensures row { strip.new.row ≡ strip.old.row }
    ensures values { TruthsHoldInTurns names.now (map written targets.now)
        (λ u. value_of frame.now.limits in_memory (leaf_named (truth_leaf slot)) None u) frame.now.memory strip.new }
{
    match steady(&IntExpr::Local(slot), names, targets, strip.row, frame) {
        Some(word) => repeat(strip, truth(word)),
        None => strip.size = 0,
    }
}

// The truth values of an element.
fn element<A: Arrays>(
    slot: usize,
    index: &IndexExpr<'_>,
    names: &Names<'_>,
    targets: &[Target<'_>],
    frame: &Frame<A>,
    strip: &mut Strip,
)
    ensures row { strip.new.row ≡ strip.old.row }
    ensures values { (at : Place) → TruthsHoldInTurns names.now (map written targets.now) (λ u. value_of frame.now.limits in_memory
        (in_square (array_named BoolKind slot at) (index_items index.now)) None u) frame.now.memory strip.new }
{
    match elements(slot, index, names, targets, strip.row, strip.size, frame) {
        Some(found) => {
            take(strip, slot, found, frame);
            settle(strip);
        }
        None => strip.size = 0,
    }
}

// The opposites of truth values.
#[cycle(truths)]
#[inline(never)]
fn opposites<A: Arrays>(
    e: &BoolExpr<'_>,
    names: &Names<'_>,
    targets: &[Target<'_>],
    frame: &Frame<A>,
    strip: &mut Strip,
)
    ensures row { strip.new.row ≡ strip.old.row }
    ensures values { TruthsHoldInTurns names.now (map written targets.now) (λ u. value_of frame.now.limits in_memory
        (Prefixed nowhere Not (truth_view e.now)) None u) frame.now.memory strip.new }
{
    turn_truths(e, names, targets, frame, strip);
    oppose(strip);
}

// A further operand of a chain, behind the truth values so far. So many are wanted.
#[cycle(truths)]
#[inline(never)]
fn linked<A: Arrays>(
    link: &TruthLink<'_>,
    most: usize,
    names: &Names<'_>,
    targets: &[Target<'_>],
    frame: &Frame<A>,
    strip: &mut Strip,
)
    ensures row { strip.new.row ≡ strip.old.row }
    ensures values { (a : ExprTree Variable) → TruthsHoldInTurns names.now (map written targets.now)
        (λ u. value_of frame.now.limits in_memory a None u) frame.now.memory strip.old
        → TruthsHoldInTurns names.now (map written targets.now) (λ u. value_of frame.now.limits in_memory
        (two a nowhere (junction_view link.now.op) (truth_view link.now.right.now)) None u) frame.now.memory strip.new }
{
    let mut right = Strip::none(strip.row);
    right.size = strip.size.min(most);
    turn_truths(link.right, names, targets, frame, &mut right);
    let size = right.size.min(STRIP);
    join(link.op, strip, &right.words[..size]);
}

// A chain: its operands go from left to right, and the truth values so far are in the strip.
#[cycle(truths)]
#[inline(never)]
fn chained<A: Arrays>(
    first: &BoolExpr<'_>,
    links: &[TruthLink<'_>],
    names: &Names<'_>,
    targets: &[Target<'_>],
    frame: &Frame<A>,
    strip: &mut Strip,
)
    ensures row { strip.new.row ≡ strip.old.row }
    ensures values { TruthsHoldInTurns names.now (map written targets.now) (λ u. value_of frame.now.limits in_memory
        (grouped (truth_view first.now) (truth_links_of links.now)) None u) frame.now.memory strip.new }
{
    let most = strip.size;
    turn_truths(first, names, targets, frame, strip);
    for link in links {
        linked(link, most, names, targets, frame, strip);
    }
}

// How two ints compare.
#[inline(never)]
fn compared<A: Arrays>(
    c: Comparison,
    a: &IntExpr<'_>,
    b: &IntExpr<'_>,
    names: &Names<'_>,
    targets: &[Target<'_>],
    frame: &Frame<A>,
    strip: &mut Strip,
)
    ensures row { strip.new.row ≡ strip.old.row }
    ensures values { TruthsHoldInTurns names.now (map written targets.now) (λ u. value_of frame.now.limits in_memory
        (two (int_view a.now) nowhere (comparison_view c) (int_view b.now)) None u) frame.now.memory strip.new }
{
    let most = strip.size;
    let mut right = Strip::none(strip.row);
    turn_ints(a, names, targets, frame, strip);
    right.size = strip.size.min(most);
    turn_ints(b, names, targets, frame, &mut right);
    let size = right.size.min(STRIP);
    compare(c, strip, &right.words[..size]);
}

/// Makes a strip the words of the truth values of an expression in the turns of its row's indices, as far as they are found at once. There may
/// be none. What the turns may write, and how many are wanted, is as for [`turn_ints`].
#[cycle(truths)]
pub fn turn_truths<A: Arrays>(
    e: &BoolExpr<'_>,
    names: &Names<'_>,
    targets: &[Target<'_>],
    frame: &Frame<A>,
    strip: &mut Strip,
)
    ensures row { strip.new.row ≡ strip.old.row }
    ensures values { TruthsHoldInTurns names.now (map written targets.now)
        (λ u. value_of frame.now.limits in_memory (truth_view e.now) None u) frame.now.memory strip.new }
{
    match e {
        BoolExpr::Truth(value) => repeat(strip, i64::from(*value)),
        BoolExpr::Local(slot) => local(*slot, names, targets, frame, strip),
        BoolExpr::Element(slot, index, _) => element(*slot, index, names, targets, frame, strip),
        BoolExpr::Not(e) => opposites(e, names, targets, frame, strip),
        BoolExpr::Chain(first, links) => chained(first, links, names, targets, frame, strip),
        BoolExpr::Compare(c, a, b) => compared(*c, a, b, names, targets, frame, strip),
        _ => strip.size = 0,
    }
}
