// The arrays of a frame, however they are kept: read, written and declared by their slots.
// A slot without an array holds the array over `{1..0}`, which has no elements.

ghost use Rattle.std.specs.Prelude.{◌≡◌, ◌≤◌, ◌<◌, ℕ, ℤ, List, [], ◌∷◌, Some, true, false, is_some, length, get_or, set, slice_get, IfOk, OnOk};
ghost use Rattle.dpl_array.specs.Elements.{behind, put_in_row};
ghost use Rattle.dpl_language.specs.Ranges.{too_large};
ghost use Rattle.dpl_memory.specs.Memory.{Held, no_array, held_at, held_with, is_some_array, redomained_from};

use dpl_array::Row;
use dpl_contents::{ArrayWords, DomainWord};
use dpl_domain::Index;
use std::alloc::{AllocError, Global};

/// The arrays of some slots. A frame is generic in them.
pub trait Arrays: Drop {
    // The arrays of all slots.
    ghost held: { Self → List Held };

    /// The domain of the array in a slot; `{1..0}` where there is none.
    fn domain(&self, slot: usize) -> DomainWord
        ensures { result ≡ (get_or (held self.now) slot no_array).ranges };

    /// The word of an element of the array in a slot, if the array has the index.
    fn element(&self, slot: usize, index: Index) -> Option<i64>
        ensures { result ≡ held_at index (get_or (held self.now) slot no_array) };

    /// The same at one coordinate.
    fn element_line(&self, slot: usize, i: i64) -> Option<i64>
        ensures { result ≡ held_at (i ∷ []) (get_or (held self.now) slot no_array) };

    /// The same at two coordinates.
    fn element_plane(&self, slot: usize, i: i64, j: i64) -> Option<i64>
        ensures { result ≡ held_at (i ∷ j ∷ []) (get_or (held self.now) slot no_array) };

    /// The same at three coordinates.
    fn element_space(&self, slot: usize, i: i64, j: i64, k: i64) -> Option<i64>
        ensures { result ≡ held_at (i ∷ j ∷ k ∷ []) (get_or (held self.now) slot no_array) };

    /// Words at the indices of a row of the array in a slot, as they stand side by side. There may be none, though the array has the index;
    /// they spare a loop the reads one by one.
    fn run(&self, slot: usize, row: Row) -> &[i64]
        ensures { (k : ℕ) (word : ℤ) → slice_get result.now k ≡ Some word → held_at (behind k row) (get_or (held self.now) slot no_array) ≡ Some word };

    /// Puts a word at an index of the array in a slot. False if the array hasn't got it, and then nothing is changed.
    ///
    /// # Errors
    /// Out of memory for a copy, where the array isn't the frame's own; then nothing is said of the arrays.
    fn put(&mut self, slot: usize, index: Index, word: i64) -> Result<bool, AllocError>
        ensures there { IfOk result (λ there. there ≡ is_some (held_at index (get_or (held self.old) slot no_array))) }
        ensures changes { OnOk result (held self.new ≡ set (held self.old) slot (held_with index word (get_or (held self.old) slot no_array))) };

    /// The same at one coordinate.
    fn put_line(&mut self, slot: usize, i: i64, word: i64) -> Result<bool, AllocError>
        ensures there { IfOk result (λ there. there ≡ is_some (held_at (i ∷ []) (get_or (held self.old) slot no_array))) }
        ensures changes { OnOk result (held self.new ≡ set (held self.old) slot (held_with (i ∷ []) word (get_or (held self.old) slot no_array))) };

    /// The same at two coordinates.
    fn put_plane(&mut self, slot: usize, i: i64, j: i64, word: i64) -> Result<bool, AllocError>
        ensures there { IfOk result (λ there. there ≡ is_some (held_at (i ∷ j ∷ []) (get_or (held self.old) slot no_array))) }
        ensures changes { OnOk result (held self.new ≡ set (held self.old) slot (held_with (i ∷ j ∷ []) word (get_or (held self.old) slot no_array))) };

    /// The same at three coordinates.
    fn put_space(
        &mut self,
        slot: usize,
        i: i64,
        j: i64,
        k: i64,
        word: i64,
    ) -> Result<bool, AllocError>
        ensures there { IfOk result (λ there. there ≡ is_some (held_at (i ∷ j ∷ k ∷ []) (get_or (held self.old) slot no_array))) }
        ensures changes { OnOk result (held self.new
            ≡ set (held self.old) slot (held_with (i ∷ j ∷ k ∷ []) word (get_or (held self.old) slot no_array))) };

    /// Puts the first of some words at the indices of a row of the array in a slot, as many as stand in one row of a piece, and answers how
    /// many were put. There may be none, though the array has the index; they spare a loop the writes one by one.
    fn put_run(&mut self, slot: usize, row: Row, words: &[i64]) -> usize
        ensures most { result ≤ length words.now }
        ensures there { (k : ℕ) → k < result → is_some (held_at (behind k row) (get_or (held self.old) slot no_array)) ≡ true }
        ensures changes { held self.new ≡ set (held self.old) slot (put_in_row held_with row words.now result (get_or (held self.old) slot no_array)) };

    /// Puts an array into a slot; past the last one it does nothing.
    fn keep(&mut self, slot: usize, array: ArrayWords)
        ensures { held self.new ≡ set (held self.old) slot array };

    /// Gives the arrays in some slots another domain: each keeps the elements whose indices are in both.
    ///
    /// # Errors
    /// Out of memory; then nothing is said of the arrays.
    fn redomain(
        &mut self,
        alloc: Global,
        slots: &[usize],
        domain: DomainWord,
    ) -> Result<(), AllocError>
        requires { is_some_array slots.now ≡ true → too_large domain ≡ false }
        ensures { OnOk result (held self.new ≡ redomained_from 0 slots.now domain (held self.old)) };
}
