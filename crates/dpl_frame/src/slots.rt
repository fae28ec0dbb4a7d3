// Arrays in a vector, which has an array for each slot that was given one.
// They are the arrays of a run; a slot that was given none holds the array over `{1..0}`.

ghost use Rattle.std.specs.Prelude.{◌≡◌, ◌≤◌, ◌<◌, ℕ, pos, [], ◌∷◌, true, false, is_some, length, map, option_map, get_or, set, replicate, IfOk, OnOk};
ghost use Rattle.dpl_array.specs.Elements.{behind, put_in_row};
ghost use Rattle.dpl_language.specs.Ranges.{indices_in, too_large};
ghost use Rattle.dpl_memory.specs.Memory.{whole_held, no_array, held_at, held_with, held_over, held_over_if, is_among, is_some_array};
ghost use Rattle.dpl_frame.specs.Frames.{held_in};

use crate::arrays::Arrays;
use crate::filled::filled;
use dpl_array::{ArrayFault, Row};
use dpl_contents::{ArrayWords, DomainWord};
use dpl_domain::Index;
use dpl_map::Map;
use std::alloc::{AllocError, Global};
use std::marker::Model;

// An array of zeros in one piece, for a slot that had none.
fn zeroed(alloc: Global, domain: DomainWord) -> Result<ArrayWords, AllocError>
    requires { too_large domain ≡ false }
    ensures { IfOk result (λ a. a ≡ whole_held domain (map (λ t. pos 0) (indices_in domain))) }
{
    filled(alloc, domain, Map::whole(), 0)
}

// The array over another domain, where it keeps the elements whose indices are in both.
#[tactic(auto, using(crate::proofs::EmptySlots::held_over_none))]
fn moved(
    alloc: Global,
    array: Option<ArrayWords>,
    domain: DomainWord,
) -> Result<ArrayWords, AllocError>
    requires { too_large domain ≡ false }
    ensures { IfOk result (λ a. a ≡ held_over domain (held_in array)) }
{
    match array {
        None => zeroed(alloc, domain),
        Some(array) => match array.redomain(alloc, domain) {
            Ok(array) => Ok(array),
            Err(ArrayFault::Memory) => Err(AllocError),
            Err(ArrayFault::Size) => unreachable!(),
        },
    }
}

// Puts a word at one coordinate, if there is an array that has it.
#[tactic(auto, using(crate::proofs::EmptySlots::held_at_none, crate::proofs::EmptySlots::held_with_none))]
fn put_line_in(array: &mut Option<ArrayWords>, i: i64, word: i64) -> bool
    ensures there { result ≡ is_some (held_at (i ∷ []) (held_in array.old)) }
    ensures changes { held_in array.new ≡ held_with (i ∷ []) word (held_in array.old) }
{
    match array {
        Some(array) => array.set_line(i, word),
        None => false,
    }
}

// Puts a word at two coordinates, if there is an array that has them.
#[tactic(auto, using(crate::proofs::EmptySlots::held_at_none, crate::proofs::EmptySlots::held_with_none))]
fn put_plane_in(array: &mut Option<ArrayWords>, i: i64, j: i64, word: i64) -> bool
    ensures there { result ≡ is_some (held_at (i ∷ j ∷ []) (held_in array.old)) }
    ensures changes { held_in array.new ≡ held_with (i ∷ j ∷ []) word (held_in array.old) }
{
    match array {
        Some(array) => array.set_plane(i, j, word),
        None => false,
    }
}

// Puts a word at three coordinates, if there is an array that has them.
#[tactic(auto, using(crate::proofs::EmptySlots::held_at_none, crate::proofs::EmptySlots::held_with_none))]
fn put_space_in(array: &mut Option<ArrayWords>, i: i64, j: i64, k: i64, word: i64) -> bool
    ensures there { result ≡ is_some (held_at (i ∷ j ∷ k ∷ []) (held_in array.old)) }
    ensures changes { held_in array.new ≡ held_with (i ∷ j ∷ k ∷ []) word (held_in array.old) }
{
    match array {
        Some(array) => array.set_space(i, j, k, word),
        None => false,
    }
}

// Puts the first of some words at the indices of a row, if there is an array that has them in one row of a piece.
fn put_run_in(array: &mut Option<ArrayWords>, row: Row, words: &[i64]) -> usize
    ensures most { result ≤ length words.now }
    ensures there { (k : ℕ) → k < result → is_some (held_at (behind k row) (held_in array.old)) ≡ true }
    ensures changes { held_in array.new ≡ put_in_row held_with row words.now result (held_in array.old) }
{
    match array {
        Some(array) => array.set_run(row, words),
        None => 0,
    }
}

// Whether a slot is one of some.
fn is_among(slot: usize, slots: &[usize]) -> bool
    ensures among { result ≡ is_among slot slots.now }
    ensures some { result ≡ true → is_some_array slots.now ≡ true }
{
    slots.contains(&slot)
}

// So many slots without an array.
#[tactic(auto, using(crate::proofs::EmptySlots::replicate_next))]
fn no_arrays(alloc: Global, slots: usize) -> Result<Vec<Option<ArrayWords>>, AllocError>
    ensures { IfOk result (λ arrays. map held_in arrays.items ≡ replicate slots no_array) }
{
    let mut arrays = Vec::new(alloc);
    for _ in 0..slots {
        arrays.push(None)?;
    }
    Ok(arrays)
}

/// The arrays of slots, seen as the list of what the slots hold.
#[derive(Drop)]
pub struct Slots {
    arrays: Vec<Option<ArrayWords>>,
}

impl Model for Slots {
    ghost use Rattle.std.specs.Prelude.{List, map};
    ghost use Rattle.dpl_memory.specs.Memory.{Held};
    ghost use Rattle.dpl_frame.specs.Frames.{held_in};

    ghost Value = { List Held };

    ghost view = { λ s. map held_in s.arrays.items };
}

impl Slots {
    /// So many slots without an array.
    ///
    /// # Errors
    /// Out of memory.
    pub fn new(alloc: Global, slots: usize) -> Result<Slots, AllocError>
        ensures { IfOk result (λ s. s ≡ replicate slots no_array) }
    {
        Ok(Slots {
            arrays: no_arrays(alloc, slots)?,
        })
    }

    /// The array in a slot, if it has one.
    #[inline(always)]
    pub fn array(&self, slot: usize) -> Option<&ArrayWords>
        ensures { held_in (option_map (λ a. a.now) result) ≡ get_or self.now slot no_array }
    {
        match self.arrays.get(slot) {
            Some(array) => array.as_ref(),
            None => None,
        }
    }

    /// The arrays by their slots.
    pub fn into_arrays(self) -> Vec<Option<ArrayWords>>
        ensures { map held_in result.items ≡ self }
    {
        self.arrays
    }

    /// How many slots there are.
    pub fn len(&self) -> usize
        ensures { result ≡ length self.now }
    {
        self.arrays.len()
    }

    /// Takes the array out of a slot, if it has one; then it has none.
    #[tactic(auto, using(crate::proofs::EmptySlots::put_past, crate::proofs::EmptySlots::none_past, crate::proofs::EmptySlots::held_within, crate::proofs::EmptySlots::held_set))]
    pub fn take(&mut self, slot: usize) -> Option<ArrayWords>
        ensures array { held_in result ≡ get_or self.old slot no_array }
        ensures leaves { self.new ≡ set self.old slot no_array }
    {
        if slot < self.arrays.len() {
            self.arrays[slot].take()
        } else {
            None
        }
    }

    // Gives the array in a slot another domain, if its slot is one of some.
    fn redomain_one(
        &mut self,
        alloc: Global,
        k: usize,
        slots: &[usize],
        domain: DomainWord,
    ) -> Result<(), AllocError>
        requires small { is_some_array slots.now ≡ true → too_large domain ≡ false }
        requires within { k < length self.old }
        ensures { OnOk result (self.new ≡ set self.old k (held_over_if (is_among k slots.now) domain (get_or self.old k no_array))) }
    {
        if is_among(k, slots) {
            let array = self.arrays[k].take();
            let array = moved(alloc, array, domain)?;
            self.keep(k, array);
        }
        Ok(())
    }
}

impl Arrays for Slots {
    ghost held = { λ s. s };

    #[inline(always)]
    fn domain(&self, slot: usize) -> DomainWord {
        match self.array(slot) {
            Some(array) => array.domain(),
            None => DomainWord::empty(1),
        }
    }

    // By plain numbers: a read by an index would ask for its rank once more in the array.
    #[inline(always)]
    fn element(&self, slot: usize, index: Index) -> Option<i64> {
        let (outer, middle, inner) = index.numbers();
        match index.rank() {
            1 => self.element_line(slot, inner),
            2 => self.element_plane(slot, middle, inner),
            _ => self.element_space(slot, outer, middle, inner),
        }
    }

    #[tactic(auto, using(crate::proofs::EmptySlots::held_at_none))]
    #[inline(always)]
    fn element_line(&self, slot: usize, i: i64) -> Option<i64> {
        match self.array(slot) {
            Some(array) => array.get_line(i),
            None => None,
        }
    }

    #[tactic(auto, using(crate::proofs::EmptySlots::held_at_none))]
    #[inline(always)]
    fn element_plane(&self, slot: usize, i: i64, j: i64) -> Option<i64> {
        match self.array(slot) {
            Some(array) => array.get_plane(i, j),
            None => None,
        }
    }

    #[tactic(auto, using(crate::proofs::EmptySlots::held_at_none))]
    #[inline(always)]
    fn element_space(&self, slot: usize, i: i64, j: i64, k: i64) -> Option<i64> {
        match self.array(slot) {
            Some(array) => array.get_space(i, j, k),
            None => None,
        }
    }

    #[inline(always)]
    fn run(&self, slot: usize, row: Row) -> &[i64] {
        match self.array(slot) {
            Some(array) => array.run(row),
            None => &[],
        }
    }

    // As for reads.
    #[inline(always)]
    fn put(&mut self, slot: usize, index: Index, word: i64) -> Result<bool, AllocError> {
        let (outer, middle, inner) = index.numbers();
        match index.rank() {
            1 => self.put_line(slot, inner, word),
            2 => self.put_plane(slot, middle, inner, word),
            _ => self.put_space(slot, outer, middle, inner, word),
        }
    }

    #[tactic(auto, using(crate::proofs::EmptySlots::put_past, crate::proofs::EmptySlots::none_past, crate::proofs::EmptySlots::held_within, crate::proofs::EmptySlots::held_set, crate::proofs::EmptySlots::held_at_none))]
    #[inline(always)]
    fn put_line(&mut self, slot: usize, i: i64, word: i64) -> Result<bool, AllocError> {
        if slot < self.arrays.len() {
            Ok(put_line_in(&mut self.arrays[slot], i, word))
        } else {
            Ok(false)
        }
    }

    #[tactic(auto, using(crate::proofs::EmptySlots::put_past, crate::proofs::EmptySlots::none_past, crate::proofs::EmptySlots::held_within, crate::proofs::EmptySlots::held_set, crate::proofs::EmptySlots::held_at_none))]
    #[inline(always)]
    fn put_plane(&mut self, slot: usize, i: i64, j: i64, word: i64) -> Result<bool, AllocError> {
        if slot < self.arrays.len() {
            Ok(put_plane_in(&mut self.arrays[slot], i, j, word))
        } else {
            Ok(false)
        }
    }

    #[tactic(auto, using(crate::proofs::EmptySlots::put_past, crate::proofs::EmptySlots::none_past, crate::proofs::EmptySlots::held_within, crate::proofs::EmptySlots::held_set, crate::proofs::EmptySlots::held_at_none))]
    #[inline(always)]
    fn put_space(
        &mut self,
        slot: usize,
        i: i64,
        j: i64,
        k: i64,
        word: i64,
    ) -> Result<bool, AllocError> {
        if slot < self.arrays.len() {
            Ok(put_space_in(&mut self.arrays[slot], i, j, k, word))
        } else {
            Ok(false)
        }
    }

    #[tactic(auto, using(crate::proofs::EmptySlots::put_past, crate::proofs::EmptySlots::none_past, crate::proofs::EmptySlots::held_within, crate::proofs::EmptySlots::held_set))]
    #[inline(always)]
    fn put_run(&mut self, slot: usize, row: Row, words: &[i64]) -> usize {
        if slot < self.arrays.len() {
            put_run_in(&mut self.arrays[slot], row, words)
        } else {
            0
        }
    }

    #[tactic(auto, using(crate::proofs::EmptySlots::held_set))]
    fn keep(&mut self, slot: usize, array: ArrayWords) {
        if slot < self.arrays.len() {
            self.arrays[slot] = Some(array);
        }
    }

    fn redomain(
        &mut self,
        alloc: Global,
        slots: &[usize],
        domain: DomainWord,
    ) -> Result<(), AllocError> {
        for k in 0..self.arrays.len() {
            self.redomain_one(alloc, k, slots, domain)?;
        }
        Ok(())
    }
}
