// Statements whose words are found for several turns at once, in a strip that is lent, and kept back (store.rt). Those that stand behind a
// condition are found for all these turns, and count where a mask has another word than 0; no word of a strip has a fault, so this changes nothing.

ghost use Rattle.std.specs.Prelude.{◌≡◌, ◌≤◌, ◌<◌, ℕ, pos, ◌&&◌, not, if◌then◌else◌, None, Some, map, length, get_or, slice_get, option_map, IfSome};
ghost use Rattle.dpl_language.specs.Tree.{NoStmts, Then};
ghost use Rattle.dpl_language.specs.Expressions.{value_of};
ghost use Rattle.dpl_memory.specs.Memory.{in_memory};
ghost use Rattle.dpl_standing.specs.Standing.{Standing};
ghost use Rattle.dpl_nodes.specs.Typed.{int_view, truth_view};
ghost use Rattle.dpl_readings.specs.Readings.{step_in};
ghost use Rattle.dpl_strips.specs.Strips.{GoesFrom, HoldsInTurns, own_word};
ghost use Rattle.dpl_strips.specs.Truths.{TruthsHoldInTurns};
ghost use Rattle.dpl_batches.specs.Stores.{by_now, goes_in, AreApart};
ghost use Rattle.dpl_batches.specs.Lanes.{AreFoundIn};

use crate::fold::{chosen, fold_of};
use crate::store::{Store, place_of, targets};
use dpl_elements::combine;
use dpl_frame::{Arrays, Frame};
use dpl_loop::{Row, STRIP, Strip};
use dpl_nodes::{BoolExpr, IndexExpr, IntExpr, Names, Step, TruthTarget};
use dpl_strips::{is_same, turn_ints, turn_row, turn_truths};

/// The lanes of a strip, one for each turn of a row's indices. Where there is a mask, those count where it has another word than 0.
#[derive(Clone, Copy)]
pub(crate) struct Lanes<'n, 'm, 't> {
    pub names: &'n Names<'t>,
    pub row: Row,
    pub mask: Option<&'m [i64; STRIP]>,
}

/// Leaves the words of a condition where a mask has another word than 0, and else puts 0.
pub(crate) fn narrow(mask: Option<&[i64; STRIP]>, holds: &mut Strip)
    ensures { (k : ℕ) → k < 64
        → goes_in (Some holds.new.words) k ≡ (goes_in (option_map (λ ms. ms.now) mask.entry) k && goes_in (Some holds.old.words) k) }
{
    let Some(mask) = mask else {
        return;
    };
    for k in 0..STRIP {
        holds.words[k] = chosen(mask[k], 0, holds.words[k]);
    }
}

// Puts 1 in place of 0, and 0 in place of another word.
fn oppose(met: &mut Strip)
    ensures { (k : ℕ) → k < 64 → goes_in (Some met.new.words) k ≡ not (goes_in (Some met.old.words) k) }
{
    for k in 0..STRIP {
        met.words[k] = chosen(met.words[k], 1, 0);
    }
}

/// Puts 1 where lanes count but for those in which a condition is met, and else 0.
pub(crate) fn turn_over(mask: Option<&[i64; STRIP]>, met: &mut Strip)
    ensures { (k : ℕ) → k < 64
        → goes_in (Some met.new.words) k ≡ (goes_in (option_map (λ ms. ms.now) mask.entry) k && not (goes_in (Some met.old.words) k)) }
{
    oppose(met);
    narrow(mask, met);
}

// The words of a mask, or those of one that counts in each lane.
fn mask_or<'m>(mask: Option<&'m [i64; STRIP]>, all: &'m [i64; STRIP]) -> &'m [i64; STRIP]
    requires { (k : ℕ) → k < 64 → get_or all.now k (pos 0) ≡ pos 1 }
    ensures { (k : ℕ) → k < 64 → goes_in (Some result.now) k ≡ goes_in (option_map (λ ms. ms.now) mask.entry) k }
{
    match mask {
        Some(mask) => mask,
        None => all,
    }
}

// What the turns find at their own elements of an array that they write.
fn own_words<'f, A: Arrays>(store: &'f Store, frame: &'f Frame<A>) -> &'f [i64]
    ensures { (k : ℕ) → k < length result.now → own_word (by_now store.now) k frame.now.memory ≡ Some (get_or result.now k (pos 0)) }
{
    match store.fold {
        None if store.is_made => &store.words,
        _ => frame.run(store.slot, store.at),
    }
}

// Own words take the place of those of a strip where a mask has the word 0. There are at most as many as own words.
fn blend(mask: Option<&[i64; STRIP]>, own: &[i64], strip: &mut Strip)
    ensures row { strip.new.row ≡ strip.old.row }
    ensures size { strip.new.size ≤ strip.old.size }
    ensures own { strip.new.size ≤ length own.now }
    ensures words { (k : ℕ) → k < strip.new.size → k < 64 → get_or strip.new.words k (pos 0)
        ≡ (if goes_in (option_map (λ ms. ms.now) mask.entry) k then get_or strip.old.words k (pos 0) else get_or own.now k (pos 0)) }
{
    strip.size = strip.size.min(own.len()).min(STRIP);
    let Some(mask) = mask else {
        return;
    };
    for k in 0..strip.size {
        strip.words[k] = chosen(mask[k], own[k], strip.words[k]);
    }
}

// Makes a strip what an int comes to in the turns, as their statements find it by now. So many as its size says before are wanted.
fn found_ints<'t, A: Arrays>(
    e: &IntExpr<'t>,
    lanes: &Lanes<'_, '_, 't>,
    stores: &[Store],
    frame: &Frame<A>,
    strip: &mut Strip,
)
    requires few { length stores.now ≤ 4 }
    ensures row { strip.new.row ≡ lanes.now.row }
    ensures values { HoldsInTurns lanes.now.names.now (map by_now stores.now) (λ u. value_of frame.now.limits in_memory (int_view e.now) None u)
        frame.now.memory strip.new }
{
    strip.row = lanes.row;
    let written = targets(stores, lanes.row);
    turn_ints(e, lanes.names, &written[..stores.len()], frame, strip);
}

/// The same of a truth value.
pub(crate) fn found_truths<'t, A: Arrays>(
    e: &BoolExpr<'t>,
    lanes: &Lanes<'_, '_, 't>,
    stores: &[Store],
    frame: &Frame<A>,
    strip: &mut Strip,
)
    requires few { length stores.now ≤ 4 }
    ensures row { strip.new.row ≡ lanes.now.row }
    ensures values { TruthsHoldInTurns lanes.now.names.now (map by_now stores.now) (λ u. value_of frame.now.limits in_memory (truth_view e.now) None u)
        frame.now.memory strip.new }
{
    strip.row = lanes.row;
    let written = targets(stores, lanes.row);
    turn_truths(e, lanes.names, &written[..stores.len()], frame, strip);
}

// The place of the store of an array, whose elements at these indices the turns find there.
fn element_place<'t, A: Arrays>(
    slot: usize,
    index: &IndexExpr<'t>,
    lanes: &Lanes<'_, '_, 't>,
    frame: &Frame<A>,
    stores: &[Store],
) -> Option<usize>
    requires { length stores.now ≤ 4 }
    ensures { IfSome result (λ i. (x : Store) × (slice_get stores.now i ≡ Some x) × (x.slot ≡ slot) × (x.fold ≡ None)
        × GoesFrom frame.now.limits lanes.now.names.now (map by_now stores.now) lanes.now.row frame.now.memory index.now x.at) }
{
    let place = place_of(stores, slot)?;
    let written = targets(stores, lanes.row);
    let at = turn_row(
        index,
        lanes.names,
        &written[..stores.len()],
        lanes.row,
        frame,
    )?;
    let store = &stores[place];
    if store.fold.is_none() && is_same(at, store.at) {
        Some(place)
    } else {
        None
    }
}

// An assignment to an element that is an int. This many turns have been found; it answers how many are by now. Words are wanted where they lie
// side by side alone, as the elements' own words do.
fn ints<'t, A: Arrays>(
    step: &Step<'t>,
    lanes: &Lanes<'_, '_, 't>,
    frame: &Frame<A>,
    strip: &mut Strip,
    stores: &mut [Store],
    size: usize,
) -> usize
    requires few { length stores.old ≤ 4 }
    requires apart { AreApart lanes.now.names.now stores.old }
    ensures most { result ≤ size }
    ensures few { length stores.new ≤ 4 }
    ensures apart { AreApart lanes.now.names.now stores.new }
    ensures found { (w : Standing) → AreFoundIn lanes.now frame.now (Then (step_in w step.now) NoStmts) result stores.old stores.new }
{
    let Step::SetElement(name, index, op, _, e) = step else {
        return 0;
    };
    let Some(i) = element_place(name.slot, index, lanes, frame, stores) else {
        return 0;
    };
    strip.size = 0;
    found_ints(e, lanes, stores, frame, strip);
    let own = own_words(&stores[i], frame);
    combine(*op, own, strip);
    blend(lanes.mask, own, strip);
    stores[i].put(&strip.words);
    size.min(strip.size)
}

// An assignment to an element that is a truth value.
fn truths<'t, A: Arrays>(
    step: &Step<'t>,
    lanes: &Lanes<'_, '_, 't>,
    frame: &Frame<A>,
    strip: &mut Strip,
    stores: &mut [Store],
    size: usize,
) -> usize
    requires few { length stores.old ≤ 4 }
    requires apart { AreApart lanes.now.names.now stores.old }
    ensures most { result ≤ size }
    ensures few { length stores.new ≤ 4 }
    ensures apart { AreApart lanes.now.names.now stores.new }
    ensures found { (w : Standing) → AreFoundIn lanes.now frame.now (Then (step_in w step.now) NoStmts) result stores.old stores.new }
{
    let Step::Truth(target, e) = step else {
        return 0;
    };
    let TruthTarget::Element(name, index) = target else {
        return 0;
    };
    let Some(i) = element_place(name.slot, index, lanes, frame, stores) else {
        return 0;
    };
    strip.size = 0;
    found_truths(e, lanes, stores, frame, strip);
    blend(lanes.mask, own_words(&stores[i], frame), strip);
    stores[i].put(&strip.words);
    size.min(strip.size)
}

// What is done to an int, if it folds the right side onto it, and no statement before it does so.
fn folds<'t, A: Arrays>(
    step: &Step<'t>,
    lanes: &Lanes<'_, '_, 't>,
    frame: &Frame<A>,
    strip: &mut Strip,
    stores: &mut [Store],
    size: usize,
) -> usize
    requires few { length stores.old ≤ 4 }
    requires apart { AreApart lanes.now.names.now stores.old }
    ensures most { result ≤ size }
    ensures few { length stores.new ≤ 4 }
    ensures apart { AreApart lanes.now.names.now stores.new }
    ensures found { (w : Standing) → AreFoundIn lanes.now frame.now (Then (step_in w step.now) NoStmts) result stores.old stores.new }
{
    let Step::Int(deed, slot, e) = step else {
        return 0;
    };
    let Some(fold) = fold_of(deed, frame.operator(*slot)) else {
        return 0;
    };
    let Some(i) = place_of(stores, *slot) else {
        return 0;
    };
    if stores[i].is_made || !frame.has_number(*slot) {
        return 0;
    }
    strip.size = size;
    found_ints(e, lanes, stores, frame, strip);
    let all = [1; STRIP];
    stores[i].fold(fold, mask_or(lanes.mask, &all), &strip.words);
    size.min(strip.size)
}

/// A statement that holds no other. This many turns have been found; it answers how many are by now.
pub(crate) fn plain<'t, A: Arrays>(
    step: &Step<'t>,
    lanes: &Lanes<'_, '_, 't>,
    frame: &Frame<A>,
    strip: &mut Strip,
    stores: &mut [Store],
    size: usize,
) -> usize
    requires few { length stores.old ≤ 4 }
    requires apart { AreApart lanes.now.names.now stores.old }
    ensures most { result ≤ size }
    ensures few { length stores.new ≤ 4 }
    ensures apart { AreApart lanes.now.names.now stores.new }
    ensures found { (w : Standing) → AreFoundIn lanes.now frame.now (Then (step_in w step.now) NoStmts) result stores.old stores.new }
{
    match step {
        Step::SetElement(..) => ints(step, lanes, frame, strip, stores, size),
        Step::Truth(..) => truths(step, lanes, frame, strip, stores, size),
        Step::Int(..) => folds(step, lanes, frame, strip, stores, size),
        _ => 0,
    }
}
