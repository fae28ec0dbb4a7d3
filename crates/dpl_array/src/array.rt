// Arrays, as finite maps from indices to values.
// An array is its pieces, which are all there; taking it apart and putting it together move them and no more.

ghost use Rattle.std.specs.Prelude.{◌≡◌, ◌≤◌, ◌^◌, ◌↔◌, ◌<◌, ℕ, true, false, is_some, length, IsSome, IfOk, IfSome};
ghost use Rattle.dpl_sets.specs.Indices.{indices};
ghost use Rattle.dpl_map.specs.Maps.{locales};
ghost use Rattle.dpl_array.specs.Elements.{value_at, behind, put_in_row, IsRunOf};
ghost use Rattle.dpl_array.specs.Arrays.{IsArray, IsSmallArray, IsWhole, array_with, filled_array, pieces_of, restriction, union};

use crate::coordinates::Coordinates;
use crate::row::Row;
use crate::{Piece, Pieces};
use dpl_domain::{Domain, Index};
use dpl_map::Map;
use std::alloc::{AllocError, Global};
use std::marker::Model;
use thiserror::Error;

/// The most elements that an array may have: 2^24.
pub const MOST_ELEMENTS: u64 = 1 << 24;

/// Why there is no array.
#[derive(Clone, Copy, Debug, PartialEq, Eq, Error)]
pub enum ArrayFault {
    /// There would be more than 2^24 elements.
    #[error("an array has at most 2^24 elements")]
    Size,
    /// Out of memory for the elements.
    #[error("out of memory")]
    Memory,
}

impl From<AllocError> for ArrayFault {
    ghost use Rattle.std.specs.Prelude.{◌≡◌};
    ghost use Rattle.dpl_array.specs.declared.array.ArrayFault.TheVariants.{Memory};

    ghost from_gives = { λ _ fault. fault ≡ Memory };

    fn from(_: AllocError) -> ArrayFault {
        ArrayFault::Memory
    }
}

/// A value at each index of a domain, seen as the domain, the map that says who owns its indices, and the finite map
/// from indices to values.
#[derive(Drop)]
pub struct DArray<T> {
    pieces: Pieces<T>,
}

impl<T> Model for DArray<T> {
    ghost use Rattle.dpl_array.specs.Arrays.{ArrayValue};

    ghost Value = { ArrayValue T };

    ghost use Rattle.dpl_array.specs.Arrays.{ArePieces, IsWhole, union};

    ghost view = { λ a. union a.pieces };

    ghost invariant = { λ a. IsWhole a.pieces × ArePieces a.pieces };
}

impl<T: Copy> DArray<T> {
    /// The array over a domain with one value everywhere.
    pub fn new(alloc: Global, domain: Domain, map: Map, value: T) -> Result<DArray<T>, ArrayFault>
        ensures array { IfOk result (λ a. a ≡ filled_array domain map value) }
        ensures size { (result ≡ Err ArrayFault.Size) ↔ (¬ IsSmallArray domain) }
    {
        if MOST_ELEMENTS < domain.size() {
            return Err(ArrayFault::Size);
        }
        let pieces = Pieces::new(alloc, domain, map, value)?;
        Ok(DArray { pieces })
    }

    /// The domain.
    pub fn domain(&self) -> Domain
        ensures domain { result ≡ self.now.domain }
        ensures keys { IsArray self.now }
    {
        self.pieces.domain()
    }

    /// The map that says who owns the indices.
    pub fn map(&self) -> Map
        ensures { result ≡ self.now.map }
    {
        self.pieces.map()
    }

    /// The value at an index, if the array has it.
    pub fn get(&self, index: Index) -> Option<T>
        ensures { result ≡ value_at index self.now.elements }
    {
        self.get_at(&index)
    }

    // The value where it is found without a search. It is short enough to stand in a loop.
    #[inline(always)]
    pub(crate) fn quick<C: Coordinates>(&self, at: &C) -> Option<T>
        ensures { IfSome result (λ v. value_at (C.tuple at.now) self.now.elements ≡ Some v) }
    {
        self.pieces.guessed(at)
    }

    /// Values at the indices of a row, as they stand side by side in a piece: those up to the end of the piece's row, where its part is one
    /// domain whose last dimension has the row's step as its stride. Of another part or row there may be none, though the array has the
    /// index.
    #[inline(always)]
    pub fn run(&self, row: Row) -> &[T]
        ensures { IsRunOf self.now.elements row result.now }
    {
        self.pieces.run(row)
    }

    // The value, if the array has the index.
    #[inline(always)]
    pub(crate) fn get_at<C: Coordinates>(&self, at: &C) -> Option<T>
        ensures { result ≡ value_at (C.tuple at.now) self.now.elements }
    {
        if let Some(value) = self.quick(at) {
            return Some(value);
        }
        self.searched(at.index())
    }

    // The same by a search. It stands apart, so that no room is set aside for it in a loop.
    #[inline(never)]
    fn searched(&self, index: Index) -> Option<T>
        ensures { result ≡ value_at index self.now.elements }
    {
        self.pieces.get(index)
    }

    // Puts a value, if the array has the index. False if it hasn't, and then nothing is changed.
    #[inline(always)]
    pub(crate) fn set_at<C: Coordinates>(&mut self, at: &C, value: T) -> bool
        ensures there { result ≡ is_some (value_at (C.tuple at.now) self.old.elements) }
        ensures changes { self.new ≡ array_with (C.tuple at.now) value self.old }
        ensures unchanged { result ≡ false → self.new ≡ self.old }
    {
        self.pieces.set(at, value)
    }

    /// Puts a value at an index, if the array has it. False if it hasn't, and then nothing is changed.
    pub fn set(&mut self, index: Index, value: T) -> bool
        ensures there { result ≡ is_some (value_at index self.old.elements) }
        ensures changes { self.new ≡ array_with index value self.old }
        ensures unchanged { result ≡ false → self.new ≡ self.old }
    {
        self.set_at(&index, value)
    }

    /// Puts the first of some values at the indices of a row, as many as stand in one row of a piece, and answers how many were put: at most
    /// those up to the end of the piece's row, where its part is one domain and the row's step is some strides of its last dimension. Of
    /// another part or row there may be none, though the array has the index.
    #[inline(always)]
    pub fn set_run(&mut self, row: Row, values: &[T]) -> usize
        ensures most { result ≤ length values.now }
        ensures there { (k : ℕ) → k < result → is_some (value_at (behind k row) self.old.elements) ≡ true }
        ensures changes { self.new ≡ put_in_row array_with row values.now result self.old }
    {
        self.pieces.set_run(row, values)
    }

    /// The piece of a locale, if the map has the locale.
    pub fn piece(&self, locale: u32) -> Option<&Piece<T>>
        ensures there { IsSome result ↔ (locale < locales self.now.map) }
        ensures piece { IfSome result (λ p. p.now ≡ restriction self.now locale) }
    {
        self.pieces.piece(locale)
    }

    /// Takes the array apart: what each locale owns. Nothing is copied.
    pub fn take_pieces(self) -> Pieces<T>
        ensures pieces { result ≡ pieces_of self }
        ensures back { union result ≡ self }
        ensures whole { IsWhole result }
    {
        self.pieces
    }
}

impl<T: Copy> Pieces<T> {
    /// The array of these pieces, which are all there. Nothing is copied.
    pub fn put_back(self) -> DArray<T>
        requires { IsWhole self }
        ensures { result ≡ union self }
    {
        // Nothing is read here: it is the clause `formed` of this call that the invariant of an array rests on.
        let _ = self.domain();
        DArray { pieces: self }
    }
}
