// Ints and truth values that are found directly: no reduction stands in them, and nothing in them has a fault.
// A walk of them answers with a word in any case, and leaves beside it whether that was found: so no node tests what its parts answer. Where
// nothing is found, a walk that tells faults begins anew.

ghost use Rattle.std.specs.Prelude.{◌≡◌, true, false, Ok, IfSome};
ghost use Rattle.dpl_syntax.specs.declared.place.Place.{Place};
ghost use Rattle.dpl_language.specs.Values.{Int, Truth as TruthValue};
ghost use Rattle.dpl_values.specs.Meanings.{int_in, linked_in, chain_in, truth_in, truth_linked_in, truth_chain_in, element_in};

use crate::comparison::holds;
use dpl_arithmetic::number::{difference, negative, product, quotient, remainder, sum};
use dpl_frame::{Arrays, Frame};
use dpl_nodes::{BoolExpr, IndexExpr, IntExpr, IntLink, IntOperator, Junction, TruthLink};

/// The value of an int, where it is found directly.
#[inline(always)]
pub fn direct_int<A: Arrays>(e: &IntExpr<'_>, frame: &Frame<A>) -> Option<i64>
    ensures { IfSome result (λ n. int_in frame.now e.now ≡ Ok (Int n)) }
{
    let mut found = true;
    let number = number(e, frame, &mut found);
    if found { Some(number) } else { None }
}

/// The value of a truth value, where it is found directly. `&&` after false and `||` after true don't look at their right side.
#[inline(always)]
pub fn direct_truth<A: Arrays>(e: &BoolExpr<'_>, frame: &Frame<A>) -> Option<bool>
    ensures { IfSome result (λ b. truth_in frame.now e.now ≡ Ok (TruthValue b)) }
{
    let mut found = true;
    let truth = truth(e, frame, &mut found);
    if found { Some(truth) } else { None }
}

// The word of an element that was looked for.
#[inline(always)]
fn word_of(element: Option<i64>, found: &mut bool) -> i64
    ensures before { found.new ≡ true → found.old ≡ true }
    ensures word { found.new ≡ true → element ≡ Some result }
{
    match element {
        Some(word) => word,
        None => {
            *found = false;
            0
        }
    }
}

// The value of an int: a leaf's at once, and that of all else by a walk. It is the int's where `found` is still true behind it.
#[cycle(direct)]
#[inline(always)]
fn number<A: Arrays>(e: &IntExpr<'_>, frame: &Frame<A>, found: &mut bool) -> i64
    ensures before { found.new ≡ true → found.old ≡ true }
    ensures value { found.new ≡ true → int_in frame.now e.now ≡ Ok (Int result) }
{
    match e {
        IntExpr::Local(slot) => frame.number(*slot),
        IntExpr::Number(n) => *n,
        _ => walked_number(e, frame, found),
    }
}

// The word of an element.
#[cycle(direct)]
fn element<A: Arrays>(slot: usize, t: &IndexExpr<'_>, frame: &Frame<A>, found: &mut bool) -> i64
    ensures before { found.new ≡ true → found.old ≡ true }
    ensures word { (at : Place) → found.new ≡ true → element_in frame.now slot t.now at ≡ Ok result }
{
    let element = match t {
        IndexExpr::Line(i) => frame.element_line(slot, number(i, frame, found)),
        IndexExpr::Plane(i, j) => {
            let i = number(i, frame, found);
            let j = number(j, frame, found);
            frame.element_plane(slot, i, j)
        }
        IndexExpr::Space(i, j, k) => {
            let i = number(i, frame, found);
            let j = number(j, frame, found);
            let k = number(k, frame, found);
            frame.element_space(slot, i, j, k)
        }
        IndexExpr::Tuple(tuple) => frame.element(slot, frame.tuple(*tuple)),
    };
    word_of(element, found)
}

// A further operand of a chain, behind the int so far.
#[cycle(direct)]
#[inline(always)]
fn linked<A: Arrays>(left: i64, link: &IntLink<'_>, frame: &Frame<A>, found: &mut bool) -> i64
    ensures before { found.new ≡ true → found.old ≡ true }
    ensures value { found.new ≡ true → linked_in frame.now left link.now ≡ Ok (Int result) }
{
    let right = number(link.right, frame, found);
    match link.op {
        IntOperator::Sum => sum(left, right),
        IntOperator::Difference => difference(left, right),
        IntOperator::Product => product(left, right),
        IntOperator::Quotient(_) => match right {
            0 => lost(found),
            _ => quotient(left, right),
        },
        IntOperator::Remainder(_) => match right {
            0 => lost(found),
            _ => remainder(left, right),
        },
    }
}

// A chain: its operands go from left to right, and each operator takes the int so far.
#[cycle(direct)]
fn chained<A: Arrays>(
    first: &IntExpr<'_>,
    links: &[IntLink<'_>],
    frame: &Frame<A>,
    found: &mut bool,
) -> i64
    ensures before { found.new ≡ true → found.old ≡ true }
    ensures value { found.new ≡ true → chain_in frame.now first.now links.now ≡ Ok (Int result) }
{
    let mut value = number(first, frame, found);
    for link in links {
        value = linked(value, link, frame, found);
    }
    value
}

// The value of an int that is more than a leaf.
#[cycle(direct)]
fn walked_number<A: Arrays>(e: &IntExpr<'_>, frame: &Frame<A>, found: &mut bool) -> i64
    ensures before { found.new ≡ true → found.old ≡ true }
    ensures value { found.new ≡ true → int_in frame.now e.now ≡ Ok (Int result) }
{
    match e {
        IntExpr::Negative(e) => negative(number(e, frame, found)),
        IntExpr::Sum(a, b) => {
            let left = number(a, frame, found);
            sum(left, number(b, frame, found))
        }
        IntExpr::Difference(a, b) => {
            let left = number(a, frame, found);
            difference(left, number(b, frame, found))
        }
        IntExpr::Product(a, b) => {
            let left = number(a, frame, found);
            product(left, number(b, frame, found))
        }
        IntExpr::Quotient(a, b, _) => {
            let left = number(a, frame, found);
            match number(b, frame, found) {
                0 => lost(found),
                right => quotient(left, right),
            }
        }
        IntExpr::Remainder(a, b, _) => {
            let left = number(a, frame, found);
            match number(b, frame, found) {
                0 => lost(found),
                right => remainder(left, right),
            }
        }
        IntExpr::Chain(first, links) => chained(first, links, frame, found),
        IntExpr::Element(slot, t, _) => element(*slot, t, frame, found),
        _ => lost(found),
    }
}

// Nothing is found: any word.
#[inline(always)]
fn lost(found: &mut bool) -> i64
    ensures { found.new ≡ false }
{
    *found = false;
    0
}

// A truth value: a comparison at once, and all else by a walk. It is the value where `found` is still true behind it.
#[cycle(direct_truth)]
#[inline(always)]
fn truth<A: Arrays>(e: &BoolExpr<'_>, frame: &Frame<A>, found: &mut bool) -> bool
    ensures before { found.new ≡ true → found.old ≡ true }
    ensures value { found.new ≡ true → truth_in frame.now e.now ≡ Ok (TruthValue result) }
{
    match e {
        BoolExpr::Compare(comparison, a, b) => {
            let left = number(a, frame, found);
            holds(*comparison, left, number(b, frame, found))
        }
        _ => walked_truth(e, frame, found),
    }
}

// A truth value that is no comparison.
#[cycle(direct_truth)]
fn walked_truth<A: Arrays>(e: &BoolExpr<'_>, frame: &Frame<A>, found: &mut bool) -> bool
    ensures before { found.new ≡ true → found.old ≡ true }
    ensures value { found.new ≡ true → truth_in frame.now e.now ≡ Ok (TruthValue result) }
{
    match e {
        BoolExpr::Truth(b) => *b,
        BoolExpr::Local(slot) => frame.number(*slot) != 0,
        BoolExpr::Not(e) => !truth(e, frame, found),
        BoolExpr::Chain(first, links) => truth_chained(first, links, frame, found),
        BoolExpr::Element(slot, t, _) => element(*slot, t, frame, found) != 0,
        _ => lost(found) != 0,
    }
}

// A further operand of a chain, behind the truth value so far.
#[cycle(direct_truth)]
#[inline(always)]
fn truth_linked<A: Arrays>(
    left: bool,
    link: &TruthLink<'_>,
    frame: &Frame<A>,
    found: &mut bool,
) -> bool
    ensures before { found.new ≡ true → found.old ≡ true }
    ensures value { found.new ≡ true → truth_linked_in frame.now left link.now ≡ Ok (TruthValue result) }
{
    match link.op {
        Junction::And => left && truth(link.right, frame, found),
        Junction::Or => left || truth(link.right, frame, found),
        Junction::Same => left == truth(link.right, frame, found),
        Junction::Differ => left != truth(link.right, frame, found),
    }
}

// A chain of truth values. What decides one operator is the left side of the next one.
#[cycle(direct_truth)]
fn truth_chained<A: Arrays>(
    first: &BoolExpr<'_>,
    links: &[TruthLink<'_>],
    frame: &Frame<A>,
    found: &mut bool,
) -> bool
    ensures before { found.new ≡ true → found.old ≡ true }
    ensures value { found.new ≡ true → truth_chain_in frame.now first.now links.now ≡ Ok (TruthValue result) }
{
    let mut value = truth(first, frame, found);
    for link in links {
        value = truth_linked(value, link, frame, found);
    }
    value
}
