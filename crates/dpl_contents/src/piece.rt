// A piece of an array, with a word for each element that a locale owns.
// It is a finite map over the indices of the locale's part, and the domain with its flags.

ghost use Rattle.std.specs.Prelude.{◌≡◌, ◌≤◌, ◌<◌, ℕ, ℤ, [], ◌∷◌, Some, true, false, is_some, length, slice_get};
ghost use Rattle.dpl_array.specs.Elements.{behind, put_in_row};
ghost use Rattle.dpl_memory.specs.Memory.{held_at, held_with};

use crate::DomainWord;
use dpl_array::{Piece, Row};
use dpl_domain::Index;
use std::marker::Model;

/// A piece of an array, seen as the array with the elements that a locale owns.
#[derive(Drop)]
pub struct PieceWords {
    pub(crate) domain: DomainWord,
    pub(crate) piece: Piece<i64>,
}

impl Model for PieceWords {
    ghost use Rattle.dpl_memory.specs.Memory.{Held};

    ghost Value = { Held };

    ghost use Rattle.dpl_contents.specs.Pieces.{held_piece, IsPieceOver};

    ghost view = { λ p. held_piece p.domain p.piece.elements };

    ghost invariant = { λ p. IsPieceOver p.domain p.piece };
}

impl PieceWords {
    /// The domain of the array. The piece has elements at some of its indices.
    pub fn domain(&self) -> DomainWord
        ensures { result ≡ self.now.ranges }
    {
        self.domain
    }

    /// The word at an index, if the piece has it.
    pub fn get(&self, index: Index) -> Option<i64>
        ensures { result ≡ held_at index self.now }
    {
        self.piece.get(index)
    }

    /// Words at the indices of a row, as they stand side by side. There may be none, though the piece has the index:
    /// [`Piece::run`] tells where.
    #[inline(always)]
    pub fn run(&self, row: Row) -> &[i64]
        ensures { (k : ℕ) (word : ℤ) → slice_get result.now k ≡ Some word → held_at (behind k row) self.now ≡ Some word }
    {
        self.piece.run(row)
    }

    /// The word at one coordinate, if the piece is of rank 1 and has it.
    pub fn get_line(&self, i: i64) -> Option<i64>
        ensures { result ≡ held_at (i ∷ []) self.now }
    {
        self.piece.get_line(i)
    }

    /// The word at two coordinates, if the piece is of rank 2 and has them.
    pub fn get_plane(&self, i: i64, j: i64) -> Option<i64>
        ensures { result ≡ held_at (i ∷ j ∷ []) self.now }
    {
        self.piece.get_plane(i, j)
    }

    /// The word at three coordinates, if the piece is of rank 3 and has them.
    pub fn get_space(&self, i: i64, j: i64, k: i64) -> Option<i64>
        ensures { result ≡ held_at (i ∷ j ∷ k ∷ []) self.now }
    {
        self.piece.get_space(i, j, k)
    }

    /// Puts a word at an index, if the piece has it. False if it hasn't, and then nothing is changed.
    pub fn set(&mut self, index: Index, word: i64) -> bool
        ensures there { result ≡ is_some (held_at index self.old) }
        ensures changes { self.new ≡ held_with index word self.old }
        ensures unchanged { result ≡ false → self.new ≡ self.old }
    {
        self.piece.set(index, word)
    }

    /// Puts the first of some words at the indices of a row, as many as stand in one row of the piece, and answers how many were put. There
    /// may be none, though the piece has the index: [`Piece::set_run`] tells where.
    #[inline(always)]
    pub fn set_run(&mut self, row: Row, words: &[i64]) -> usize
        ensures most { result ≤ length words.now }
        ensures there { (k : ℕ) → k < result → is_some (held_at (behind k row) self.old) ≡ true }
        ensures changes { self.new ≡ put_in_row held_with row words.now result self.old }
    {
        self.piece.set_run(row, words)
    }

    /// Puts a word at one coordinate. False if the piece hasn't got it, and then nothing is changed.
    pub fn set_line(&mut self, i: i64, word: i64) -> bool
        ensures there { result ≡ is_some (held_at (i ∷ []) self.old) }
        ensures changes { self.new ≡ held_with (i ∷ []) word self.old }
        ensures unchanged { result ≡ false → self.new ≡ self.old }
    {
        self.piece.set_line(i, word)
    }

    /// Puts a word at two coordinates. False if the piece hasn't got them, and then nothing is changed.
    pub fn set_plane(&mut self, i: i64, j: i64, word: i64) -> bool
        ensures there { result ≡ is_some (held_at (i ∷ j ∷ []) self.old) }
        ensures changes { self.new ≡ held_with (i ∷ j ∷ []) word self.old }
        ensures unchanged { result ≡ false → self.new ≡ self.old }
    {
        self.piece.set_plane(i, j, word)
    }

    /// Puts a word at three coordinates. False if the piece hasn't got them, and then nothing is changed.
    pub fn set_space(&mut self, i: i64, j: i64, k: i64, word: i64) -> bool
        ensures there { result ≡ is_some (held_at (i ∷ j ∷ k ∷ []) self.old) }
        ensures changes { self.new ≡ held_with (i ∷ j ∷ k ∷ []) word self.old }
        ensures unchanged { result ≡ false → self.new ≡ self.old }
    {
        self.piece.set_space(i, j, k, word)
    }
}
