// Ints that go into the elements of a row, by whichever operator divides none, from piece to piece of the array.
// It is as if each went into its element alone, one after another: none of them has a fault.

ghost use Rattle.std.specs.Prelude.{◌≡◌, ◌≤◌, ◌<◌, ℕ, ℤ, pos, true, false, List, Some, None, length, get_or, is_some};
ghost use Rattle.dpl_array.specs.Elements.{behind, put_in_row};
ghost use Rattle.dpl_language.specs.Values.{Int};
ghost use Rattle.dpl_language.specs.Arithmetic.{assigned, assign_divides};
ghost use Rattle.dpl_memory.specs.Memory.{Held, array_at, with_array, held_at, held_with};
ghost use Rattle.dpl_frame.specs.Frames.{with_memory};
ghost use Rattle.dpl_elements.specs.Changes.{signed};
ghost use Rattle.dpl_elements.specs.Rows.{ArePut};

use crate::element::{assigned, divides, replaces};
use dpl_frame::{Arrays, Frame};
use dpl_loop::{Row, STRIP, Strip};
use dpl_nodes::{ArrayName, Spot};
use dpl_strips::{gather, rest_of};
use dpl_tree::Assign;

/// What an operator makes of old words and of the ints of a strip, in the strip, as many as there are old words; nothing of an operator that
/// divides.
pub fn combine(op: Assign, old: &[i64], strip: &mut Strip)
    ensures row { strip.new.row ≡ strip.old.row }
    ensures size { strip.new.size ≤ strip.old.size }
    ensures old { strip.new.size ≤ length old.now }
    ensures divides { 0 < strip.new.size → assign_divides op ≡ false }
    ensures words { (k : ℕ) → k < strip.new.size → k < 64
        → assigned op None (Int (get_or old.now k (pos 0))) (Int (get_or strip.old.words k (pos 0))) ≡ Int (get_or strip.new.words k (pos 0)) }
{
    if divides(op) {
        strip.size = 0;
        return;
    }
    let size = strip.size.min(old.len()).min(STRIP);
    for k in 0..size {
        strip.words[k] = assigned(op, old[k], strip.words[k]);
    }
    strip.size = size;
}

// The same of elements that stand in several pieces along a row. It stands apart: what a function may need is cleared at its entry.
#[inline(never)]
fn changed_across<A: Arrays>(
    name: &ArrayName<'_>,
    op: Assign,
    at: Row,
    strip: &mut Strip,
    frame: &Frame<A>,
)
    ensures size { strip.new.size ≤ strip.old.size }
    ensures divides { 0 < strip.new.size → assign_divides op ≡ false }
    ensures words { (k : ℕ) (old : ℤ) → k < strip.new.size → k < 64 → held_at (behind k at) (array_at name.now.slot frame.now.memory) ≡ Some old
        → assigned op None (Int old) (Int (get_or strip.old.words k (pos 0))) ≡ Int (get_or strip.new.words k (pos 0)) }
{
    let mut old = Strip::none(at);
    old.size = strip.size;
    gather(name.slot, at, frame, &mut old);
    let size = old.size.min(STRIP);
    combine(op, &old.words[..size], strip);
}

// The same of elements along a row: where they lie, if there are as many side by side as there are ints, or none.
fn changed<A: Arrays>(
    name: &ArrayName<'_>,
    op: Assign,
    at: Row,
    strip: &mut Strip,
    frame: &Frame<A>,
)
    ensures size { strip.new.size ≤ strip.old.size }
    ensures divides { 0 < strip.new.size → assign_divides op ≡ false }
    ensures words { (k : ℕ) (old : ℤ) → k < strip.new.size → k < 64 → held_at (behind k at) (array_at name.now.slot frame.now.memory) ≡ Some old
        → assigned op None (Int old) (Int (get_or strip.old.words k (pos 0))) ≡ Int (get_or strip.new.words k (pos 0)) }
{
    if replaces(op) {
        return;
    }
    let old = frame.run(name.slot, at);
    if !old.is_empty() && old.len() < strip.size {
        changed_across(name, op, at, strip, frame);
    } else {
        combine(op, old, strip);
    }
}

/// Puts the first of some words into the elements of the array in a slot at the indices of a row, from piece to piece, and answers how many were
/// put: all of them, or as many as are found so. There may be fewer though the array has the index.
pub fn put_along<A: Arrays>(slot: usize, at: Row, words: &[i64], frame: &mut Frame<A>) -> usize
    requires { length words.now ≤ 64 }
    ensures most { result ≤ length words.now }
    ensures there { (k : ℕ) → k < result → is_some (held_at (behind k at) (array_at slot frame.old.memory)) ≡ true }
    ensures changes { frame.new
        ≡ with_memory (with_array slot (put_in_row held_with at words.now result (array_at slot frame.old.memory)) frame.old.memory) frame.old }
{
    let mut made = frame.put_run(slot, at, words);
    while 0 < made && made < words.len() {
        let Some(rest) = rest_of(at, made) else {
            break;
        };
        let more = frame.put_run(slot, rest, &words[made..]);
        if more == 0 {
            break;
        }
        made += more;
    }
    made
}

/// Puts the ints of a strip into the elements at the indices of a row, at most so many of them, as an operator makes them; how many. The
/// strip is used up.
pub fn put_row<A: Arrays>(
    name: &ArrayName<'_>,
    op: Assign,
    sign: &Spot,
    at: Row,
    strip: &mut Strip,
    most: usize,
    frame: &mut Frame<A>,
) -> usize
    ensures most { result ≤ most }
    ensures strip { result ≤ strip.old.size }
    ensures cap { result ≤ 64 }
    ensures put { (arrays : List Held) × (frame.new ≡ with_memory (record frame.old.memory { arrays = arrays }) frame.old)
        × ArePut frame.old.limits name.now (signed op sign.now) at strip.old result frame.old.memory.arrays arrays }
{
    // Nothing is read here: that an index has coordinates, and that a row moves on, are clauses of these calls.
    let _ = (at.first().rank(), at.step());
    strip.size = strip.size.min(most).min(STRIP);
    changed(name, op, at, strip, frame);
    let size = strip.size.min(STRIP);
    put_along(name.slot, at, &strip.words[..size], frame)
}
