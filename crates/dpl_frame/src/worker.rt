// The frame of a worker: made of the frame of a run, whose arrays it is lent, and taken apart when its turns are over.
// What a worker hands back has no lifetime: plain words by slots, and what it had of its own.

ghost use Rattle.std.specs.Prelude.{◌≡◌, List, pos, get_or, IfOk};
ghost use Rattle.dpl_memory.specs.Memory.{Held};
ghost use Rattle.dpl_frame.specs.Frames.{with_memory};
ghost use Rattle.dpl_frame.specs.Shares.{own_before, plain_of, with_plain};

use crate::arrays::Arrays;
use crate::frame::Frame;
use crate::share::Share;
use crate::shares::Shares;
use crate::slots::Slots;
use dpl_contents::RangeWord;
use dpl_domain::Index;
use std::alloc::{AllocError, Global};
use std::marker::Model;

/// What turns leave besides arrays: numbers, ranges and tuples.
#[derive(Drop)]
pub struct PlainWords {
    numbers: Vec<i64>,
    ranges: Vec<RangeWord>,
    tuples: Vec<Index>,
}

impl Model for PlainWords {
    ghost use Rattle.std.specs.Prelude.{map};
    ghost use Rattle.dpl_contents.specs.Range.{range_word};
    ghost use Rattle.dpl_frame.specs.Shares.{Plain};

    ghost Value = { Plain };

    ghost view = { λ w. record { numbers = w.numbers.items; ranges = map range_word w.ranges.items; tuples = w.tuples.items } };
}

impl PlainWords {
    /// The word in a slot; 0 past the last one.
    pub fn number(&self, slot: usize) -> i64
        ensures { result ≡ get_or self.now.numbers slot (pos 0) }
    {
        match self.numbers.get(slot) {
            Some(number) => *number,
            None => 0,
        }
    }
}

impl Frame<Slots> {
    /// The frame of a worker: the same but for its arrays, which are its own before those of this frame. For arrays it takes no memory.
    ///
    /// # Errors
    /// Out of memory.
    pub fn worker<'w>(&'w self, own: Vec<Share>) -> Result<Frame<Shares<'w>>, AllocError>
        ensures { IfOk result (λ f. f
            ≡ with_memory (record self.now.memory { arrays = own_before own.items self.now.memory.arrays }) self.now) }
    {
        let alloc = self.alloc;
        Ok(Frame {
            numbers: self.numbers.to_vec(alloc)?,
            ranges: self.ranges.to_vec(alloc)?,
            domains: self.domains.to_vec(alloc)?,
            tuples: self.tuples.to_vec(alloc)?,
            alloc,
            arrays: Shares::new(alloc, own, &self.arrays)?,
            intents: self.intents.to_vec(alloc)?,
            sets: self.sets.to_vec(alloc)?,
            budget: self.budget,
            locales: self.locales,
            layout: self.layout,
            roots: self.roots.to_vec(alloc)?,
            owners: self.owners.to_vec(alloc)?,
        })
    }
}

impl<'w> Frame<Shares<'w>> {
    /// What a worker hands back when its turns are over: what they left besides arrays, and what it has of its own, by slots.
    pub fn into_parts(self) -> (PlainWords, Vec<Share>)
        ensures words { result.0 ≡ plain_of self.entry.memory }
        ensures shares { (lent : List Held) × (self.entry.memory.arrays ≡ own_before result.1.items lent) }
    {
        let words = PlainWords {
            numbers: self.numbers,
            ranges: self.ranges,
            tuples: self.tuples,
        };
        (words, self.arrays.into_own())
    }
}

impl<A: Arrays> Frame<A> {
    /// What memory is taken from.
    pub fn alloc(&self) -> Global {
        self.alloc
    }

    /// Has the numbers, ranges and tuples of another frame from here on.
    pub fn take_words(&mut self, words: PlainWords)
        ensures { self.new ≡ with_memory (with_plain words self.old.memory) self.old }
    {
        self.numbers = words.numbers;
        self.ranges = words.ranges;
        self.tuples = words.tuples;
    }
}
