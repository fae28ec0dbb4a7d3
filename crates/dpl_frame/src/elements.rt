// The arrays of a frame: declared, read and written by their slots, and given another domain.
// A slot without an array holds the array over `{1..0}`, which has no elements.

ghost use Rattle.std.specs.Prelude.{◌≡◌, ◌≤◌, ◌<◌, ℕ, ℤ, pos, [], ◌∷◌, Some, true, false, is_some, length, map, option_map, slice_get, IfErr, IfOk, OnOk};
ghost use Rattle.dpl_array.specs.Elements.{behind, put_in_row};
ghost use Rattle.dpl_language.specs.Ranges.{indices_in, too_large};
ghost use Rattle.dpl_language.specs.Distributions.{no_root};
ghost use Rattle.dpl_memory.specs.Memory.{whole_held, no_array, array_at, held_at, held_with, is_some_array, redomained_from, with_array, with_root};
ghost use Rattle.dpl_frame.specs.Frames.{with_memory, held_in};

use crate::arrays::Arrays;
use crate::filled::filled;
use crate::frame::Frame;
use crate::root::Root;
use crate::slots::Slots;
use dpl_array::Row;
use dpl_contents::{ArrayWords, DomainWord};
use dpl_domain::Index;
use dpl_map::Map;
use std::alloc::AllocError;

impl Frame<Slots> {
    /// The array in a slot, if it has one.
    pub fn array(&self, slot: usize) -> Option<&ArrayWords>
        ensures { held_in (option_map (λ a. a.now) result) ≡ array_at slot self.now.memory }
    {
        self.arrays.array(slot)
    }

    /// Takes the array out of a slot, if it has one; then it has none.
    pub fn take_array(&mut self, slot: usize) -> Option<ArrayWords>
        ensures array { held_in result ≡ array_at slot self.old.memory }
        ensures leaves { self.new ≡ with_memory (with_array slot no_array self.old.memory) self.old }
    {
        self.arrays.take(slot)
    }

    /// The arrays of all slots, of a frame that is done with.
    pub fn into_arrays(self) -> Vec<Option<ArrayWords>>
        ensures { map held_in result.items ≡ self.memory.arrays }
    {
        self.arrays.into_arrays()
    }
}

impl<A: Arrays> Frame<A> {
    /// The domain of the array in a slot; `{1..0}` where there is none.
    #[inline(always)]
    pub fn array_domain(&self, slot: usize) -> DomainWord
        ensures { result ≡ (array_at slot self.now.memory).ranges }
    {
        self.arrays.domain(slot)
    }

    /// The word of an element of the array in a slot, if the array has the index.
    #[inline(always)]
    pub fn element(&self, slot: usize, index: Index) -> Option<i64>
        ensures { result ≡ held_at index (array_at slot self.now.memory) }
    {
        self.arrays.element(slot, index)
    }

    /// The same at one coordinate.
    #[inline(always)]
    pub fn element_line(&self, slot: usize, i: i64) -> Option<i64>
        ensures { result ≡ held_at (i ∷ []) (array_at slot self.now.memory) }
    {
        self.arrays.element_line(slot, i)
    }

    /// The same at two coordinates.
    #[inline(always)]
    pub fn element_plane(&self, slot: usize, i: i64, j: i64) -> Option<i64>
        ensures { result ≡ held_at (i ∷ j ∷ []) (array_at slot self.now.memory) }
    {
        self.arrays.element_plane(slot, i, j)
    }

    /// The same at three coordinates.
    #[inline(always)]
    pub fn element_space(&self, slot: usize, i: i64, j: i64, k: i64) -> Option<i64>
        ensures { result ≡ held_at (i ∷ j ∷ k ∷ []) (array_at slot self.now.memory) }
    {
        self.arrays.element_space(slot, i, j, k)
    }

    /// Words at the indices of a row of the array in a slot, as they stand side by side. There may be none, though the array has the index.
    #[inline(always)]
    pub fn run(&self, slot: usize, row: Row) -> &[i64]
        ensures { (k : ℕ) (word : ℤ) → slice_get result.now k ≡ Some word → held_at (behind k row) (array_at slot self.now.memory) ≡ Some word }
    {
        self.arrays.run(slot, row)
    }

    /// Puts a word at one coordinate of the array in a slot. False if the array hasn't got it, and then nothing is changed.
    ///
    /// # Errors
    /// Out of memory for a copy, where the array isn't the frame's own; then nothing is said of the arrays.
    #[inline(always)]
    pub fn put_line(&mut self, slot: usize, i: i64, word: i64) -> Result<bool, AllocError>
        ensures there { IfOk result (λ there. there ≡ is_some (held_at (i ∷ []) (array_at slot self.old.memory))) }
        ensures changes { OnOk result (self.new
            ≡ with_memory (with_array slot (held_with (i ∷ []) word (array_at slot self.old.memory)) self.old.memory) self.old) }
        ensures limits { self.new.limits ≡ self.old.limits }
    {
        self.arrays.put_line(slot, i, word)
    }

    /// Puts a word at two coordinates of the array in a slot. False if the array hasn't got them, and then nothing is changed.
    ///
    /// # Errors
    /// Out of memory for a copy, where the array isn't the frame's own; then nothing is said of the arrays.
    #[inline(always)]
    pub fn put_plane(&mut self, slot: usize, i: i64, j: i64, word: i64) -> Result<bool, AllocError>
        ensures there { IfOk result (λ there. there ≡ is_some (held_at (i ∷ j ∷ []) (array_at slot self.old.memory))) }
        ensures changes { OnOk result (self.new
            ≡ with_memory (with_array slot (held_with (i ∷ j ∷ []) word (array_at slot self.old.memory)) self.old.memory) self.old) }
        ensures limits { self.new.limits ≡ self.old.limits }
    {
        self.arrays.put_plane(slot, i, j, word)
    }

    /// Puts a word at three coordinates of the array in a slot. False if the array hasn't got them, and then nothing is changed.
    ///
    /// # Errors
    /// Out of memory for a copy, where the array isn't the frame's own; then nothing is said of the arrays.
    #[inline(always)]
    pub fn put_space(
        &mut self,
        slot: usize,
        i: i64,
        j: i64,
        k: i64,
        word: i64,
    ) -> Result<bool, AllocError>
        ensures there { IfOk result (λ there. there ≡ is_some (held_at (i ∷ j ∷ k ∷ []) (array_at slot self.old.memory))) }
        ensures changes { OnOk result (self.new
            ≡ with_memory (with_array slot (held_with (i ∷ j ∷ k ∷ []) word (array_at slot self.old.memory)) self.old.memory) self.old) }
        ensures limits { self.new.limits ≡ self.old.limits }
    {
        self.arrays.put_space(slot, i, j, k, word)
    }

    /// Puts a word at an index of the array in a slot. False if the array hasn't got it, and then nothing is changed.
    ///
    /// # Errors
    /// Out of memory for a copy, where the array isn't the frame's own; then nothing is said of the arrays.
    #[inline(always)]
    pub fn put(&mut self, slot: usize, index: Index, word: i64) -> Result<bool, AllocError>
        ensures there { IfOk result (λ there. there ≡ is_some (held_at index (array_at slot self.old.memory))) }
        ensures changes { OnOk result (self.new
            ≡ with_memory (with_array slot (held_with index word (array_at slot self.old.memory)) self.old.memory) self.old) }
        ensures limits { self.new.limits ≡ self.old.limits }
    {
        self.arrays.put(slot, index, word)
    }

    /// Puts the first of some words at the indices of a row of the array in a slot, as many as stand in one row of a piece, and answers how
    /// many were put. There may be none, though the array has the index.
    #[inline(always)]
    pub fn put_run(&mut self, slot: usize, row: Row, words: &[i64]) -> usize
        ensures most { result ≤ length words.now }
        ensures there { (k : ℕ) → k < result → is_some (held_at (behind k row) (array_at slot self.old.memory)) ≡ true }
        ensures changes { self.new
            ≡ with_memory (with_array slot (put_in_row held_with row words.now result (array_at slot self.old.memory)) self.old.memory) self.old }
    {
        self.arrays.put_run(slot, row, words)
    }

    /// The array over a domain that holds 0 everywhere, dealt out by a map. It is in no slot.
    ///
    /// # Errors
    /// Out of memory.
    pub fn zeros(&self, owner: Map, domain: DomainWord) -> Result<ArrayWords, AllocError>
        requires { too_large domain ≡ false }
        ensures { IfOk result (λ a. a ≡ whole_held domain (map (λ t. pos 0) (indices_in domain))) }
    {
        filled(self.alloc, domain, owner, 0)
    }

    /// Puts an array into a slot, whose root stays; past the last one it does nothing.
    pub fn keep_array(&mut self, slot: usize, array: ArrayWords)
        ensures { self.new ≡ with_memory (with_array slot array self.old.memory) self.old }
    {
        self.arrays.keep(slot, array);
    }

    /// Declares an array in a slot, which has no root until it is dealt; past the last one it does nothing.
    pub fn declare(&mut self, slot: usize, array: ArrayWords)
        ensures { self.new ≡ with_memory (with_root slot no_root (with_array slot array self.old.memory)) self.old }
    {
        self.arrays.keep(slot, array);
        self.deal(slot, Root::Absent);
    }

    /// The same of an array over a domain that has one word everywhere, dealt out by a map.
    ///
    /// # Errors
    /// Out of memory; then the frame is as it was.
    pub fn declare_array(
        &mut self,
        slot: usize,
        owner: Map,
        domain: DomainWord,
        word: i64,
    ) -> Result<(), AllocError>
        requires { too_large domain ≡ false }
        ensures declared { OnOk result (self.new
            ≡ with_memory (with_root slot no_root (with_array slot (whole_held domain (map (λ t. word) (indices_in domain))) self.old.memory)) self.old) }
        ensures unchanged { IfErr result (λ e. self.new ≡ self.old) }
    {
        let array = filled(self.alloc, domain, owner, word)?;
        self.declare(slot, array);
        Ok(())
    }

    /// Gives the arrays in some slots another domain: each keeps the elements whose indices are in both.
    ///
    /// # Errors
    /// Out of memory; then nothing is said of the arrays.
    pub fn redomain(&mut self, slots: &[usize], domain: DomainWord) -> Result<(), AllocError>
        requires { is_some_array slots.now ≡ true → too_large domain ≡ false }
        ensures limits { self.new.limits ≡ self.old.limits }
        ensures moved { OnOk result (self.new
            ≡ with_memory (record self.old.memory { arrays = redomained_from 0 slots.now domain self.old.memory.arrays }) self.old) }
    {
        self.arrays.redomain(self.alloc, slots, domain)
    }
}
