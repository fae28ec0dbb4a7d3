// An array with a word for each element, in the order of its domain.
// It is a finite map over the domain, whose map says who owns its indices, and the domain with its flags.

ghost use Rattle.std.specs.Prelude.{◌≡◌, ◌≤◌, ◌<◌, ◌↔◌, ℕ, ℤ, [], ◌∷◌, Some, true, false, is_some, length, map, slice_get, IfOk};
ghost use Rattle.dpl_array.specs.Elements.{behind, put_in_row};
ghost use Rattle.dpl_language.specs.Ranges.{indices_in, size_in, too_large};
ghost use Rattle.dpl_memory.specs.Memory.{whole_held, held_at, held_with, held_over};
ghost use Rattle.dpl_contents.specs.Arrays.{words_of};

use crate::DomainWord;
use crate::dealt::cut;
use dpl_array::{ArrayFault, DArray, Row, Walk};
use dpl_domain::Index;
use dpl_map::Map;
use std::alloc::{AllocError, Global};
use std::marker::Model;

/// An array, seen as its domain and the word of each element.
#[derive(Drop)]
pub struct ArrayWords {
    pub(crate) domain: DomainWord,
    pub(crate) array: DArray<i64>,
}

impl Model for ArrayWords {
    ghost use Rattle.dpl_memory.specs.Memory.{Held, whole_held};

    ghost Value = { Held };

    ghost use Rattle.dpl_contents.specs.Arrays.{words_of, IsArrayOver};

    ghost view = { λ a. whole_held a.domain (words_of a.array.elements) };

    ghost invariant = { λ a. IsArrayOver a.domain a.array };
}

impl ArrayWords {
    /// The array over a domain with one word everywhere, dealt out by a map.
    ///
    /// # Errors
    /// More than 2^24 elements; out of memory for them.
    pub fn new(
        alloc: Global,
        domain: DomainWord,
        owners: Map,
        word: i64,
    ) -> Result<ArrayWords, ArrayFault>
        ensures array { IfOk result (λ a. a ≡ whole_held domain (map (λ t. word) (indices_in domain))) }
        ensures size { (result ≡ Err ArrayFault.Size) ↔ (too_large domain ≡ true) }
    {
        let map = cut(&owners, domain);
        let array = DArray::new(alloc, domain.domain(), map, word)?;
        Ok(ArrayWords { domain, array })
    }

    /// The domain. The array is whole: it has an element at each index of it.
    pub fn domain(&self) -> DomainWord
        ensures domain { result ≡ self.now.ranges }
        ensures whole { self.now.keys ≡ indices_in self.now.ranges }
        ensures words { length self.now.words ≡ size_in self.now.ranges }
    {
        self.domain
    }

    /// The word at an index, if the array has it.
    pub fn get(&self, index: Index) -> Option<i64>
        ensures { result ≡ held_at index self.now }
    {
        self.array.get(index)
    }

    /// Words at the indices of a row, as they stand side by side in a piece. There may be none, though the array has the index:
    /// [`DArray::run`] tells where.
    #[inline(always)]
    pub fn run(&self, row: Row) -> &[i64]
        ensures { (k : ℕ) (word : ℤ) → slice_get result.now k ≡ Some word → held_at (behind k row) self.now ≡ Some word }
    {
        self.array.run(row)
    }

    /// The word at one coordinate, if the array is of rank 1 and has it.
    pub fn get_line(&self, i: i64) -> Option<i64>
        ensures { result ≡ held_at (i ∷ []) self.now }
    {
        self.array.get_line(i)
    }

    /// The word at two coordinates, if the array is of rank 2 and has them.
    pub fn get_plane(&self, i: i64, j: i64) -> Option<i64>
        ensures { result ≡ held_at (i ∷ j ∷ []) self.now }
    {
        self.array.get_plane(i, j)
    }

    /// The word at three coordinates, if the array is of rank 3 and has them.
    pub fn get_space(&self, i: i64, j: i64, k: i64) -> Option<i64>
        ensures { result ≡ held_at (i ∷ j ∷ k ∷ []) self.now }
    {
        self.array.get_space(i, j, k)
    }

    /// Puts a word at an index, if the array has it. False if it hasn't, and then nothing is changed.
    pub fn set(&mut self, index: Index, word: i64) -> bool
        ensures there { result ≡ is_some (held_at index self.old) }
        ensures changes { self.new ≡ held_with index word self.old }
        ensures unchanged { result ≡ false → self.new ≡ self.old }
    {
        self.array.set(index, word)
    }

    /// Puts the first of some words at the indices of a row, as many as stand in one row of a piece, and answers how many were put. There
    /// may be none, though the array has the index: [`DArray::set_run`] tells where.
    #[inline(always)]
    pub fn set_run(&mut self, row: Row, words: &[i64]) -> usize
        ensures most { result ≤ length words.now }
        ensures there { (k : ℕ) → k < result → is_some (held_at (behind k row) self.old) ≡ true }
        ensures changes { self.new ≡ put_in_row held_with row words.now result self.old }
    {
        self.array.set_run(row, words)
    }

    /// Puts a word at one coordinate. False if the array hasn't got it, and then nothing is changed.
    pub fn set_line(&mut self, i: i64, word: i64) -> bool
        ensures there { result ≡ is_some (held_at (i ∷ []) self.old) }
        ensures changes { self.new ≡ held_with (i ∷ []) word self.old }
        ensures unchanged { result ≡ false → self.new ≡ self.old }
    {
        self.array.set_line(i, word)
    }

    /// Puts a word at two coordinates. False if the array hasn't got them, and then nothing is changed.
    pub fn set_plane(&mut self, i: i64, j: i64, word: i64) -> bool
        ensures there { result ≡ is_some (held_at (i ∷ j ∷ []) self.old) }
        ensures changes { self.new ≡ held_with (i ∷ j ∷ []) word self.old }
        ensures unchanged { result ≡ false → self.new ≡ self.old }
    {
        self.array.set_plane(i, j, word)
    }

    /// Puts a word at three coordinates. False if the array hasn't got them, and then nothing is changed.
    pub fn set_space(&mut self, i: i64, j: i64, k: i64, word: i64) -> bool
        ensures there { result ≡ is_some (held_at (i ∷ j ∷ k ∷ []) self.old) }
        ensures changes { self.new ≡ held_with (i ∷ j ∷ k ∷ []) word self.old }
        ensures unchanged { result ≡ false → self.new ≡ self.old }
    {
        self.array.set_space(i, j, k, word)
    }

    /// The array over another domain: at the indices that are in both it keeps its words, and at the others it holds 0. On
    /// a refusal the array is gone.
    ///
    /// # Errors
    /// More than 2^24 elements; out of memory for them.
    pub fn redomain(self, alloc: Global, domain: DomainWord) -> Result<ArrayWords, ArrayFault>
        ensures array { IfOk result (λ a. a ≡ held_over domain self) }
        ensures size { (result ≡ Err ArrayFault.Size) ↔ (too_large domain ≡ true) }
    {
        let array = self.array.redomain(alloc, domain.domain(), 0)?;
        Ok(ArrayWords { domain, array })
    }

    /// The same array once more.
    ///
    /// # Errors
    /// Out of memory.
    pub fn copied(&self, alloc: Global) -> Result<ArrayWords, AllocError>
        ensures { IfOk result (λ a. a ≡ self.now) }
    {
        let domain = self.domain;
        let Ok(array) = self.array.copied(alloc, domain.domain(), 0) else {
            return Err(AllocError);
        };
        Ok(ArrayWords { domain, array })
    }

    // A walk over the elements, in the order of the domain.
    pub(crate) fn walk(&self) -> Walk<'_, i64>
        ensures { words_of result ≡ self.now.words }
    {
        self.array.walk()
    }
}
