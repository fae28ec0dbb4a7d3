// The pieces of an array: one for each locale of its map, taken out and put back.
// A piece goes only into the free place of its locale, and only where its domain and its map are the array's.

ghost use Rattle.std.specs.Prelude.{◌≡◌, ◌≤◌, ◌<◌, ◌^◌, ◌↔◌, ℕ, Some, None, true, false, is_some, length, slice_get, IsTrue, IsOk, IfOk, IfErr, IfSome, OnOk, OnErr};
ghost use Rattle.dpl_sets.specs.TextDomains.{SameDomain};
ghost use Rattle.dpl_map.specs.Maps.{owner, locales};
ghost use Rattle.dpl_array.specs.Same.{texts_of};
ghost use Rattle.dpl_array.specs.Elements.{behind, put_in_row};
ghost use Rattle.dpl_array.specs.Arrays.{ArePieces, IsWhole, IsSmallArray, filled_array, held_at, piece_in, pieces_of, with_slot, written_at};

use crate::Piece;
use crate::coordinates::{Coordinates, Strided};
use crate::row::Row;
use crate::same::same_domain;
use crate::seats::Seats;
use dpl_domain::{Domain, Index};
use dpl_map::Map;
use std::alloc::{AllocError, Global};
use std::marker::Model;

/// The pieces of an array, seen as its domain, its map and for each locale the elements that it owns, where its piece
/// is there.
#[derive(Drop)]
pub struct Pieces<T> {
    domain: Domain,
    map: Map,
    held: Vec<Option<Piece<T>>>,
    seats: Seats,
}

impl<T> Model for Pieces<T> {
    ghost use Rattle.dpl_array.specs.Arrays.{PiecesValue};

    ghost Value = { PiecesValue T };

    ghost use Rattle.dpl_array.specs.PiecesFields.{pieces_in, AreHeld};

    ghost view = { pieces_in };

    ghost invariant = { λ p. AreHeld p.domain p.map p.held.items };
}

impl<T: Copy> Pieces<T> {
    // The pieces of an array with one value everywhere.
    pub(crate) fn new(
        alloc: Global,
        domain: Domain,
        map: Map,
        value: T,
    ) -> Result<Pieces<T>, AllocError>
        requires small { IsSmallArray domain }
        ensures pieces { IfOk result (λ ps. ps ≡ pieces_of (filled_array domain map value)) }
        ensures formed { IfOk result (λ ps. ArePieces ps) }
    {
        let locales = map.locales();
        let mut held = Vec::with_capacity(alloc, locales as usize)?;
        for locale in 0..locales {
            let piece = Piece::new(alloc, domain, map, locale, value)?;
            held.push(Some(piece))?;
        }
        Ok(Pieces {
            domain,
            map,
            held,
            seats: Seats::of(&map),
        })
    }

    /// The domain of the array.
    pub fn domain(&self) -> Domain
        ensures domain { result ≡ self.now.domain }
        ensures formed { ArePieces self.now }
    {
        self.domain
    }

    /// The map of the array.
    pub fn map(&self) -> Map
        ensures { result ≡ self.now.map }
    {
        self.map
    }

    /// Takes out the piece of a locale, if it is there.
    pub fn take(&mut self, locale: u32) -> Option<Piece<T>>
        ensures piece { result ≡ piece_in self.old locale }
        ensures leaves { self.new ≡ with_slot self.old locale None }
    {
        self.held.get_mut(locale as usize)?.take()
    }

    /// Puts a piece back. A stranger, which is of another domain by the language's equality or of another map, and a double,
    /// whose place isn't free, are handed back, and then nothing is changed.
    ///
    /// The language compares the bounds of two ranges where both are written without `by`, and else their members. A value
    /// doesn't tell how it was written: here a range of stride 1 counts as written without `by`.
    pub fn put(&mut self, piece: Piece<T>) -> Result<(), Piece<T>>
        ensures fits { IsOk result ↔ (SameDomain (texts_of piece.domain) (texts_of self.old.domain) × (piece.map ≡ self.old.map)
            × (slice_get self.old.slots piece.locale ≡ Some None)) }
        ensures put { OnOk result (self.new ≡ with_slot self.old piece.locale (Some piece.elements)) }
        ensures back { IfErr result (λ p. p ≡ piece) }
        ensures unchanged { OnErr result (self.new ≡ self.old) }
    {
        if !self.takes(&piece) {
            return Err(piece);
        }
        let locale = piece.locale() as usize;
        self.held[locale] = Some(piece.over(self.domain));
        Ok(())
    }

    // Whether a piece is no stranger and no double.
    fn takes(&self, piece: &Piece<T>) -> bool
        ensures { IsTrue result ↔ (SameDomain (texts_of piece.now.domain) (texts_of self.now.domain) × (piece.now.map ≡ self.now.map)
            × (slice_get self.now.slots piece.now.locale ≡ Some None)) }
    {
        if !same_domain(&piece.domain(), &self.domain) {
            return false;
        }
        if !self.map.is(&piece.map()) {
            return false;
        }
        let locale = piece.locale() as usize;
        if locale >= self.held.len() {
            return false;
        }
        if self.held[locale].is_some() {
            return false;
        }
        true
    }

    // The piece of a locale, if it is there.
    pub(crate) fn piece(&self, locale: u32) -> Option<&Piece<T>>
        ensures there { is_some result ≡ is_some (piece_in self.now locale) }
        ensures piece { IfSome result (λ p. Some p.now ≡ piece_in self.now locale) }
    {
        self.held.get(locale as usize)?.as_ref()
    }

    /// Whether all pieces are there.
    pub fn is_whole(&self) -> bool
        ensures { IsTrue result ↔ IsWhole self.now }
    {
        for slot in &self.held {
            if slot.is_none() {
                return false;
            }
        }
        true
    }

    // Where the piece of an index's owner stands. Where there is one locale, no owner is computed.
    fn seat(&self, index: Index) -> usize
        ensures owner { result ≡ owner self.now.map index }
        ensures below { result < locales self.now.map }
    {
        if self.held.len() == 1 {
            return 0;
        }
        self.map.owner(index) as usize
    }

    // What the pieces hold at an index.
    pub(crate) fn get(&self, index: Index) -> Option<T>
        ensures { result ≡ held_at self.now index }
    {
        if let Some(value) = self.guessed(&Strided(index)) {
            return Some(value);
        }
        self.searched(index)
    }

    // What the piece that stands where the owner's seems to stand holds, if it is found without a search.
    #[inline(always)]
    pub(crate) fn guessed<C: Coordinates>(&self, at: &C) -> Option<T>
        ensures { IfSome result (λ v. held_at self.now (C.tuple at.now) ≡ Some v) }
    {
        let seat = at.seat(&self.seats);
        self.held.get(seat)?.as_ref()?.quick(at)
    }

    // What the piece that stands where the owner's seems to stand holds at the indices of a row, as far as it is found without a search.
    #[inline(always)]
    pub(crate) fn run(&self, row: Row) -> &[T]
        ensures { (k : ℕ) (v : T) → slice_get result.now k ≡ Some v → held_at self.now (behind k row) ≡ Some v }
    {
        let Some(Some(piece)) = self.held.get(self.seats.guess(row.first())) else {
            return &[];
        };
        piece.run(row)
    }

    // What the piece of the owner holds at an index.
    fn searched(&self, index: Index) -> Option<T>
        ensures { result ≡ held_at self.now index }
    {
        let owner = self.seat(index);
        self.held[owner].as_ref()?.get(index)
    }

    // Puts a value, if the pieces have the index.
    #[inline(always)]
    pub(crate) fn set<C: Coordinates>(&mut self, at: &C, value: T) -> bool
        ensures there { result ≡ is_some (held_at self.old (C.tuple at.now)) }
        ensures changes { self.new ≡ written_at (C.tuple at.now) value self.old }
    {
        if self.set_guessed(at, value) {
            return true;
        }
        self.set_anywhere(at.index(), value)
    }

    // The same by a search.
    #[inline(never)]
    fn set_anywhere(&mut self, index: Index, value: T) -> bool
        ensures there { result ≡ is_some (held_at self.old index) }
        ensures changes { self.new ≡ written_at index value self.old }
    {
        if self.set_guessed(&Strided(index), value) {
            return true;
        }
        self.set_searched(index, value)
    }

    // Puts a value into the piece that stands where the owner's seems to stand, if its place there is found without a search.
    #[inline(always)]
    fn set_guessed<C: Coordinates>(&mut self, at: &C, value: T) -> bool
        ensures there { result ≡ true → is_some (held_at self.old (C.tuple at.now)) ≡ true }
        ensures changes { result ≡ true → self.new ≡ written_at (C.tuple at.now) value self.old }
        ensures unchanged { result ≡ false → self.new ≡ self.old }
    {
        let seat = at.seat(&self.seats);
        if seat >= self.held.len() {
            return false;
        }
        let Some(piece) = &mut self.held[seat] else {
            return false;
        };
        piece.quick_set(at, value)
    }

    // Puts the first of some values, at the indices of a row, into the piece that stands where the owner's seems to stand, as far as their
    // places there are found without a search.
    #[inline(always)]
    pub(crate) fn set_run(&mut self, row: Row, values: &[T]) -> usize
        ensures most { result ≤ length values.now }
        ensures there { (k : ℕ) → k < result → is_some (held_at self.old (behind k row)) ≡ true }
        ensures changes { self.new ≡ put_in_row written_at row values.now result self.old }
    {
        let seat = self.seats.guess(row.first());
        if seat >= self.held.len() {
            return 0;
        }
        let Some(piece) = &mut self.held[seat] else {
            return 0;
        };
        piece.set_run(row, values)
    }

    // Puts a value at an index into the piece of the owner, if it has the index.
    fn set_searched(&mut self, index: Index, value: T) -> bool
        ensures there { result ≡ is_some (held_at self.old index) }
        ensures changes { self.new ≡ written_at index value self.old }
    {
        let owner = self.seat(index);
        let Some(piece) = &mut self.held[owner] else {
            return false;
        };
        piece.set(index, value)
    }
}
