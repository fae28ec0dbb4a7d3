// What a worker has of its own in a slot: a piece, a whole array, or nothing where the array is lent.
// An array that is lent is copied before a word is put into it, and the copy is the worker's own from then on.

ghost use Rattle.std.specs.Prelude.{◌≡◌, ◌≤◌, ◌<◌, ℕ, List, [], ◌∷◌, true, is_some, length, get_or, IfOk, OnOk};
ghost use Rattle.dpl_array.specs.Elements.{behind, put_in_row};
ghost use Rattle.dpl_memory.specs.Memory.{Held, no_array, held_at, held_with};
ghost use Rattle.dpl_frame.specs.Shares.{share_in, held_seen, IsOwn};

use crate::slots::Slots;
use dpl_array::Row;
use dpl_contents::{ArrayWords, PieceWords};
use dpl_domain::Index;
use std::alloc::{AllocError, Global};

/// What a worker has of its own in a slot.
#[derive(Drop)]
pub enum Share {
    /// Nothing: the array is lent.
    Lent,
    /// The piece of the array that a locale owns.
    Piece(PieceWords),
    /// An array that is all its own.
    Whole(ArrayWords),
}

// An array that is read.
#[derive(Clone, Copy)]
pub(crate) enum Seen<'a> {
    Absent,
    Piece(&'a PieceWords),
    Whole(&'a ArrayWords),
}

// The array that is lent in a slot.
#[inline(always)]
fn lent_in(lent: &Slots, slot: usize) -> Seen<'_>
    ensures { held_seen result ≡ get_or lent.now slot no_array }
{
    match lent.array(slot) {
        Some(array) => Seen::Whole(array),
        None => Seen::Absent,
    }
}

// A copy of the array that is lent in a slot, if there is one. No turn that is made apart comes here: each array that it writes is its
// worker's own.
#[cold]
#[inline(never)]
fn copy_of(lent: &Slots, slot: usize, alloc: Global) -> Result<Share, AllocError>
    ensures held { IfOk result (λ s. share_in s lent.now slot ≡ get_or lent.now slot no_array) }
    ensures own { IfOk result (λ s. IsOwn s (get_or lent.now slot no_array)) }
{
    match lent.array(slot) {
        Some(array) => Ok(Share::Whole(array.copied(alloc)?)),
        None => Ok(Share::Lent),
    }
}

impl Share {
    // The array in a slot.
    #[inline(always)]
    pub(crate) fn seen<'a>(&'a self, lent: &'a Slots, slot: usize) -> Seen<'a>
        ensures { held_seen result ≡ share_in self.now lent.now slot }
    {
        match self {
            Share::Lent => lent_in(lent, slot),
            Share::Piece(piece) => Seen::Piece(piece),
            Share::Whole(array) => Seen::Whole(array),
        }
    }

    // Has another array, all its own.
    pub(crate) fn keep(&mut self, array: ArrayWords)
        ensures { (lent : List Held) (slot : ℕ) → share_in self.new lent slot ≡ array }
    {
        *self = Share::Whole(array);
    }

    // Has a copy of the array that is lent in a slot, if there is one, so that words can be put into it.
    #[inline(always)]
    fn hold(&mut self, lent: &Slots, slot: usize, alloc: Global) -> Result<(), AllocError>
        ensures held { OnOk result (share_in self.new lent.now slot ≡ share_in self.old lent.now slot) }
        ensures own { OnOk result (IsOwn self.new (get_or lent.now slot no_array)) }
    {
        if let Share::Lent = self {
            *self = copy_of(lent, slot, alloc)?;
        }
        Ok(())
    }

    // Puts a word at one coordinate of the array in a slot, if it has it.
    #[inline(always)]
    pub(crate) fn put_line(
        &mut self,
        lent: &Slots,
        slot: usize,
        i: i64,
        word: i64,
        alloc: Global,
    ) -> Result<bool, AllocError>
        ensures there { IfOk result (λ there. there ≡ is_some (held_at (i ∷ []) (share_in self.old lent.now slot))) }
        ensures changes { OnOk result (share_in self.new lent.now slot ≡ held_with (i ∷ []) word (share_in self.old lent.now slot)) }
    {
        self.hold(lent, slot, alloc)?;
        match self {
            Share::Lent => Ok(false),
            Share::Piece(piece) => Ok(piece.set_line(i, word)),
            Share::Whole(array) => Ok(array.set_line(i, word)),
        }
    }

    // Puts a word at two coordinates.
    #[inline(always)]
    pub(crate) fn put_plane(
        &mut self,
        lent: &Slots,
        slot: usize,
        at: (i64, i64),
        word: i64,
        alloc: Global,
    ) -> Result<bool, AllocError>
        ensures there { IfOk result (λ there. there ≡ is_some (held_at (at.0 ∷ at.1 ∷ []) (share_in self.old lent.now slot))) }
        ensures changes { OnOk result (share_in self.new lent.now slot ≡ held_with (at.0 ∷ at.1 ∷ []) word (share_in self.old lent.now slot)) }
    {
        self.hold(lent, slot, alloc)?;
        match self {
            Share::Lent => Ok(false),
            Share::Piece(piece) => Ok(piece.set_plane(at.0, at.1, word)),
            Share::Whole(array) => Ok(array.set_plane(at.0, at.1, word)),
        }
    }

    // Puts a word at three coordinates.
    #[inline(always)]
    pub(crate) fn put_space(
        &mut self,
        lent: &Slots,
        slot: usize,
        at: (i64, i64, i64),
        word: i64,
        alloc: Global,
    ) -> Result<bool, AllocError>
        ensures there { IfOk result (λ there. there ≡ is_some (held_at (at.0 ∷ at.1 ∷ at.2 ∷ []) (share_in self.old lent.now slot))) }
        ensures changes { OnOk result (share_in self.new lent.now slot
            ≡ held_with (at.0 ∷ at.1 ∷ at.2 ∷ []) word (share_in self.old lent.now slot)) }
    {
        self.hold(lent, slot, alloc)?;
        match self {
            Share::Lent => Ok(false),
            Share::Piece(piece) => Ok(piece.set_space(at.0, at.1, at.2, word)),
            Share::Whole(array) => Ok(array.set_space(at.0, at.1, at.2, word)),
        }
    }

    // Puts the first of some words at the indices of a row, as many as stand in one row of a piece. Where the array is lent none are put.
    #[inline(always)]
    pub(crate) fn put_run(&mut self, row: Row, words: &[i64]) -> usize
        ensures most { result ≤ length words.now }
        ensures there { (lent : List Held) (slot k : ℕ) → k < result → is_some (held_at (behind k row) (share_in self.old lent slot)) ≡ true }
        ensures changes { (lent : List Held) (slot : ℕ)
            → share_in self.new lent slot ≡ put_in_row held_with row words.now result (share_in self.old lent slot) }
    {
        match self {
            Share::Lent => 0,
            Share::Piece(piece) => piece.set_run(row, words),
            Share::Whole(array) => array.set_run(row, words),
        }
    }
}
