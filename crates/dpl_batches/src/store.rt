// What the turns of a row leave in variables, kept back until all their statements are found (specs/Stores.antt). Then each is put for all
// these turns, one after another.

ghost use Rattle.std.specs.Prelude.{◌≡◌, ◌≤◌, ◌<◌, map, take, drop, length, slice_get, Some, true, false, IfSome, IfOk};
ghost use Rattle.dpl_frame.specs.Frames.{with_memory};
ghost use Rattle.dpl_elements.specs.Turns.{HasRoom};
ghost use Rattle.dpl_strips.specs.Strips.{written, IsFree};
ghost use Rattle.dpl_batches.specs.Stores.{unmade, by_now, stored_in_turns, each_stored, AreApart, HaveRoom, AreUnmade};

use crate::fold::folded_where;
use crate::turn::{behind, has_room, is_variable};
use dpl_frame::{Arrays, Frame};
use dpl_loop::{Row, STRIP};
use dpl_nodes::{IntFold, Names};
use dpl_strips::{Target, rest_of};
use std::alloc::AllocError;

/// The most variables that the turns of a row write.
pub(crate) const MOST: usize = 4;

/// A variable that turns write: its slot; and of an array in it at which indices, turn by turn.
#[derive(Clone, Copy)]
pub(crate) struct Variable {
    pub slot: usize,
    pub at: Row,
}

/// What turns leave in one variable: in the k-th turn the k-th word is put into the element at the k-th index of a row of the array in a slot;
/// or it is folded onto the int in the slot, where the k-th word of the mask isn't 0. So it is once it is made; until then nothing is left.
#[derive(Clone, Copy)]
pub(crate) struct Store {
    pub slot: usize,
    pub at: Row,
    pub fold: Option<IntFold>,
    pub is_made: bool,
    pub words: [i64; STRIP],
    pub mask: [i64; STRIP],
}

impl Store {
    /// Nothing as yet of what turns write.
    pub(crate) fn unmade(variable: Variable) -> Store {
        Store {
            slot: variable.slot,
            at: variable.at,
            fold: None,
            is_made: false,
            words: [0; STRIP],
            mask: [0; STRIP],
        }
    }

    /// These words are put, in place of others if there are any.
    #[inline(always)]
    pub(crate) fn put(&mut self, words: &[i64; STRIP])
        ensures { self.new ≡ record self.old { is_made = true; words = words.now } }
    {
        self.is_made = true;
        self.words = *words;
    }

    /// These words are folded by an operator, where a mask has another word than 0.
    #[inline(always)]
    pub(crate) fn fold(&mut self, fold: IntFold, mask: &[i64; STRIP], words: &[i64; STRIP])
        ensures { self.new ≡ record self.old { fold = Some fold; is_made = true; words = words.now; mask = mask.now } }
    {
        self.fold = Some(fold);
        self.is_made = true;
        self.mask = *mask;
        self.words = *words;
    }

    // Nothing as yet of the turns behind so many.
    fn begin_behind(&mut self, size: usize)
        requires { size ≤ 64 }
    {
        self.fold = None;
        self.is_made = false;
        if let Some(rest) = rest_of(self.at, size) {
            self.at = rest;
        }
    }

    /// As statements find it by now.
    fn target(&self) -> Target<'_>
        ensures { written result ≡ by_now self.now }
    {
        let words = match self.fold {
            None if self.is_made => Some(&self.words[..]),
            _ => None,
        };
        Target {
            slot: self.slot,
            at: self.at,
            words,
        }
    }
}

// The target at a place, as statements find it by now; behind the last one, one that stands for nothing.
#[inline(always)]
fn target_at(stores: &[Store], k: usize, row: Row) -> Target<'_>
    ensures { (x : Store) → slice_get stores.now k ≡ Some x → written result ≡ by_now x }
{
    if k < stores.len() {
        return stores[k].target();
    }
    Target {
        slot: 0,
        at: row,
        words: None,
    }
}

/// Each as statements find it by now; behind them, whatever is there.
#[inline(always)]
pub(crate) fn targets(stores: &[Store], row: Row) -> [Target<'_>; MOST]
    requires { length stores.now ≤ 4 }
    ensures { map written (take (length stores.now) result) ≡ map by_now stores.now }
{
    [
        target_at(stores, 0, row),
        target_at(stores, 1, row),
        target_at(stores, 2, row),
        target_at(stores, 3, row),
    ]
}

/// The place of the store of a slot.
pub(crate) fn place_of(stores: &[Store], slot: usize) -> Option<usize>
    ensures { IfSome result (λ i. (x : Store) × (slice_get stores.now i ≡ Some x) × (x.slot ≡ slot)) }
{
    for k in 0..stores.len() {
        if stores[k].slot == slot {
            return Some(k);
        }
    }
    None
}

// Whether a slot is that of a store, from a place on.
fn is_kept(stores: &[Store], from: usize, slot: usize) -> bool
    ensures { result ≡ false → IsFree (map unmade (drop from stores.now)) slot }
{
    for k in from..stores.len() {
        if stores[k].slot == slot {
            return true;
        }
    }
    false
}

/// Nothing as yet of the turns behind so many of a row. Each store's elements go on as they went; whether they do is asked for when turns are
/// found.
pub(crate) fn begin_again(stores: &mut [Store], size: usize)
    requires { size ≤ 64 }
    ensures { length stores.new ≡ length stores.old }
{
    for k in 0..stores.len() {
        stores[k].begin_behind(size);
    }
}

/// Whether each store is as yet unmade and has a slot of its own, which no variable of the loop has, and whose elements have room.
pub(crate) fn are_apart(names: &Names<'_>, stores: &[Store]) -> bool
    ensures apart { result ≡ true → AreApart names.now stores.now }
    ensures room { result ≡ true → HaveRoom stores.now }
    ensures unmade { result ≡ true → AreUnmade stores.now }
{
    let mut left = stores.len();
    while left > 0 {
        left -= 1;
        let store = &stores[left];
        // Nothing is read here: that an index has coordinates, and that a row moves on, are clauses of these calls.
        let _ = (store.at.first().rank(), store.at.step());
        if store.is_made
            || is_variable(names, store.slot)
            || is_kept(stores, left + 1, store.slot)
            || !has_room(store.at)
        {
            return false;
        }
    }
    true
}

// Folds what a store has for so many turns onto its int.
fn put_int<A: Arrays>(fold: IntFold, store: &Store, size: usize, frame: &mut Frame<A>)
    requires cap { size ≤ 64 }
    requires made { store.now.is_made ≡ true }
    requires folds { store.now.fold ≡ Some fold }
    ensures { frame.new ≡ with_memory (stored_in_turns store.now size frame.old.memory) frame.old }
{
    let word = folded_where(
        fold,
        frame.number(store.slot),
        &store.mask,
        &store.words,
        size,
    );
    frame.set_number(store.slot, word);
}

// Puts the words that a store has for so many turns into its elements: as many as lie side by side, and the others one by one.
fn put_words<A: Arrays>(store: &Store, size: usize, frame: &mut Frame<A>) -> Result<(), AllocError>
    requires cap { size ≤ 64 }
    requires room { HasRoom store.now.at 64 }
    requires made { store.now.is_made ≡ true }
    requires puts { store.now.fold ≡ None }
    ensures stored { IfOk result (λ u. frame.new ≡ with_memory (stored_in_turns store.now size frame.old.memory) frame.old) }
    ensures limits { frame.new.limits ≡ frame.old.limits }
{
    let made = frame.put_run(store.slot, store.at, &store.words[..size]);
    for k in made..size {
        let _ = frame.put(store.slot, behind(store.at, k), store.words[k])?;
    }
    Ok(())
}

// Puts what a store leaves in so many turns.
fn put<A: Arrays>(store: &Store, size: usize, frame: &mut Frame<A>) -> Result<(), AllocError>
    requires cap { size ≤ 64 }
    requires room { HasRoom store.now.at 64 }
    ensures stored { IfOk result (λ u. frame.new ≡ with_memory (stored_in_turns store.now size frame.old.memory) frame.old) }
    ensures limits { frame.new.limits ≡ frame.old.limits }
{
    if !store.is_made {
        return Ok(());
    }
    match store.fold {
        Some(fold) => {
            put_int(fold, store, size, frame);
            Ok(())
        }
        None => put_words(store, size, frame),
    }
}

/// Puts what stores leave in so many turns, one store after another.
///
/// # Errors
/// Out of memory for a copy of an array that isn't the frame's own; then nothing is said of the arrays.
pub(crate) fn put_all<A: Arrays>(
    stores: &[Store],
    size: usize,
    frame: &mut Frame<A>,
) -> Result<(), AllocError>
    requires cap { size ≤ 64 }
    requires room { HaveRoom stores.now }
    ensures stored { IfOk result (λ u. frame.new ≡ with_memory (each_stored stores.now size frame.old.memory) frame.old) }
    ensures limits { frame.new.limits ≡ frame.old.limits }
{
    for k in 0..stores.len() {
        put(&stores[k], size, frame)?;
    }
    Ok(())
}
