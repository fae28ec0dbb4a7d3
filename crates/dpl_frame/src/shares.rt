// The arrays of a worker: its own by their slots, and the others as they are lent.
// Each of its turns writes its own alone; where a word is put into an array that is lent, the worker gets a copy (share.rt).

ghost use Rattle.std.specs.Prelude.{◌≡◌, ◌≤◌, ◌<◌, ℕ, ℤ, List, [], ◌∷◌, length, get_or, IfOk};
ghost use Rattle.dpl_memory.specs.Memory.{Held, no_array};
ghost use Rattle.dpl_frame.specs.Shares.{own_before, held_seen};

use crate::arrays::Arrays;
use crate::share::{Seen, Share};
use crate::slots::Slots;
use dpl_array::Row;
use dpl_contents::{ArrayWords, DomainWord};
use dpl_domain::Index;
use std::alloc::{AllocError, Global};
use std::marker::Model;

/// The arrays of a worker, seen as the list of what the slots hold: its own before those that it is lent, slot by slot.
#[derive(Drop)]
pub struct Shares<'w> {
    own: Vec<Share>,
    lent: &'w Slots,
    alloc: Global,
}

impl<'w> Model for Shares<'w> {
    ghost use Rattle.std.specs.Prelude.{◌≡◌, List, length};
    ghost use Rattle.dpl_memory.specs.Memory.{Held};
    ghost use Rattle.dpl_frame.specs.Shares.{own_before};

    ghost Value = { List Held };

    ghost view = { λ s. own_before s.own.items s.lent.now };

    ghost invariant = { λ s. length s.own.items ≡ length s.lent.now };
}

impl<'w> Shares<'w> {
    /// These shares before the arrays that are lent. Shares past the last of them are dropped.
    ///
    /// # Errors
    /// Out of memory.
    #[tactic(auto, using(crate::proofs::OwnShares::own_first, crate::proofs::OwnShares::own_lent))]
    pub(crate) fn new(
        alloc: Global,
        own: Vec<Share>,
        lent: &'w Slots,
    ) -> Result<Shares<'w>, AllocError>
        ensures { IfOk result (λ s. s ≡ own_before own.items lent.now) }
    {
        let mut own = own;
        own.truncate(lent.len());
        for _ in own.len()..lent.len() {
            own.push(Share::Lent)?;
        }
        Ok(Shares { own, lent, alloc })
    }

    /// What the worker has of its own, by slots.
    pub(crate) fn into_own(self) -> Vec<Share>
        ensures { (lent : List Held) × (self.entry ≡ own_before result.items lent) }
    {
        self.own
    }

    // The array in a slot.
    #[inline(always)]
    fn seen(&self, slot: usize) -> Seen<'_>
        ensures { held_seen result ≡ get_or self.now slot no_array }
    {
        match self.own.get(slot) {
            Some(share) => share.seen(self.lent, slot),
            None => Seen::Absent,
        }
    }
}

impl<'w> Arrays for Shares<'w> {
    ghost held = { λ s. s };

    #[inline(always)]
    fn domain(&self, slot: usize) -> DomainWord {
        match self.seen(slot) {
            Seen::Absent => DomainWord::empty(1),
            Seen::Piece(piece) => piece.domain(),
            Seen::Whole(array) => array.domain(),
        }
    }

    // By plain numbers, as reads of whole arrays.
    #[inline(always)]
    fn element(&self, slot: usize, index: Index) -> Option<i64> {
        let (outer, middle, inner) = index.numbers();
        match index.rank() {
            1 => self.element_line(slot, inner),
            2 => self.element_plane(slot, middle, inner),
            _ => self.element_space(slot, outer, middle, inner),
        }
    }

    #[tactic(auto, using(crate::proofs::EmptySlots::held_at_none))]
    #[inline(always)]
    fn element_line(&self, slot: usize, i: i64) -> Option<i64> {
        match self.seen(slot) {
            Seen::Absent => None,
            Seen::Piece(piece) => piece.get_line(i),
            Seen::Whole(array) => array.get_line(i),
        }
    }

    #[tactic(auto, using(crate::proofs::EmptySlots::held_at_none))]
    #[inline(always)]
    fn element_plane(&self, slot: usize, i: i64, j: i64) -> Option<i64> {
        match self.seen(slot) {
            Seen::Absent => None,
            Seen::Piece(piece) => piece.get_plane(i, j),
            Seen::Whole(array) => array.get_plane(i, j),
        }
    }

    #[tactic(auto, using(crate::proofs::EmptySlots::held_at_none))]
    #[inline(always)]
    fn element_space(&self, slot: usize, i: i64, j: i64, k: i64) -> Option<i64> {
        match self.seen(slot) {
            Seen::Absent => None,
            Seen::Piece(piece) => piece.get_space(i, j, k),
            Seen::Whole(array) => array.get_space(i, j, k),
        }
    }

    #[inline(always)]
    fn run(&self, slot: usize, row: Row) -> &[i64] {
        match self.seen(slot) {
            Seen::Absent => &[],
            Seen::Piece(piece) => piece.run(row),
            Seen::Whole(array) => array.run(row),
        }
    }

    // As for reads.
    #[inline(always)]
    fn put(&mut self, slot: usize, index: Index, word: i64) -> Result<bool, AllocError> {
        let (outer, middle, inner) = index.numbers();
        match index.rank() {
            1 => self.put_line(slot, inner, word),
            2 => self.put_plane(slot, middle, inner, word),
            _ => self.put_space(slot, outer, middle, inner, word),
        }
    }

    #[inline(always)]
    fn put_line(&mut self, slot: usize, i: i64, word: i64) -> Result<bool, AllocError> {
        if slot < self.own.len() {
            self.own[slot].put_line(self.lent, slot, i, word, self.alloc)
        } else {
            Ok(false)
        }
    }

    #[inline(always)]
    fn put_plane(&mut self, slot: usize, i: i64, j: i64, word: i64) -> Result<bool, AllocError> {
        if slot < self.own.len() {
            self.own[slot].put_plane(self.lent, slot, (i, j), word, self.alloc)
        } else {
            Ok(false)
        }
    }

    #[inline(always)]
    fn put_space(
        &mut self,
        slot: usize,
        i: i64,
        j: i64,
        k: i64,
        word: i64,
    ) -> Result<bool, AllocError> {
        if slot < self.own.len() {
            self.own[slot].put_space(self.lent, slot, (i, j, k), word, self.alloc)
        } else {
            Ok(false)
        }
    }

    #[inline(always)]
    fn put_run(&mut self, slot: usize, row: Row, words: &[i64]) -> usize {
        if slot < self.own.len() {
            self.own[slot].put_run(row, words)
        } else {
            0
        }
    }

    fn keep(&mut self, slot: usize, array: ArrayWords) {
        if slot < self.own.len() {
            self.own[slot].keep(array);
        }
    }

    // No turn that is made apart gives arrays another domain.
    fn redomain(
        &mut self,
        _alloc: Global,
        _slots: &[usize],
        _domain: DomainWord,
    ) -> Result<(), AllocError> {
        Err(AllocError)
    }
}
