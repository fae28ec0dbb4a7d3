// The frame of a run: what its slots hold, with the roots of domains and arrays; the reduce variables of the forall around, and what is set.
// A word is a value of every kind, so that no walk can leave a frame ill typed.

ghost use Rattle.std.specs.Prelude.{◌≡◌, ◌↔◌, ◌<◌, pos, [], ◌∷◌, ◌++◌, get_or, set, map, length, IfOk, OnOk, OnErr, IsTrue};
ghost use Rattle.dpl_words.specs.Words.{no_range, intent_at, set_at};
ghost use Rattle.dpl_language.specs.Distributions.{no_root};
ghost use Rattle.dpl_memory.specs.Memory.{no_domain, no_tuple, intents_by_slot, with_root};
ghost use Rattle.dpl_contents.specs.Range.{range_word};
ghost use Rattle.dpl_nodes.specs.Steps.{intent_view};
ghost use Rattle.dpl_frame.specs.Roots.{root_view, map_of_root};
ghost use Rattle.dpl_frame.specs.Frames.{with_memory, with_words, first_frame, owned_by};

use crate::arrays::Arrays;
use crate::root::Root;
use crate::slots::Slots;
use dpl_contents::{DomainWord, RangeWord};
use dpl_domain::Index;
use dpl_layout::Layout;
use dpl_map::Map;
use dpl_nodes::Intent;
use dpl_tree::Op;
use std::alloc::{AllocError, Global};
use std::marker::Model;

// The index 0.
fn no_tuple() -> Index
    ensures { result ≡ no_tuple }
{
    Index::new(&[0]).unwrap()
}

/// The slots of a run, with the reduce variables of the forall around and their operators, what the command line sets,
/// the budget of a loop and the number of locales; and how locales are laid out. Each slot has the map of its root by this layout, which is
/// kept beside the root, so that it is found at once. A frame has as many of everything as slots. How its arrays are kept is a parameter,
/// and shows in nothing that it stands for.
#[derive(Drop)]
pub struct Frame<A: Arrays = Slots> {
    pub(crate) numbers: Vec<i64>,
    pub(crate) ranges: Vec<RangeWord>,
    pub(crate) domains: Vec<DomainWord>,
    pub(crate) tuples: Vec<Index>,
    pub(crate) alloc: Global,
    pub(crate) arrays: A,
    pub(crate) intents: Vec<Intent>,
    pub(crate) sets: Vec<(usize, i64)>,
    pub(crate) budget: u64,
    pub(crate) locales: u32,
    pub(crate) layout: Layout,
    pub(crate) roots: Vec<Root>,
    pub(crate) owners: Vec<Map>,
}

impl<A: Arrays> Model for Frame<A> {
    ghost use Rattle.std.specs.Prelude.{◌≡◌, pos, None, [], map};
    ghost use Rattle.dpl_memory.specs.Memory.{intents_by_slot};
    ghost use Rattle.dpl_contents.specs.Range.{range_word};
    ghost use Rattle.dpl_nodes.specs.Steps.{intent_view};
    ghost use Rattle.dpl_frame.specs.Roots.{root_view, maps_of};
    ghost use Rattle.dpl_frame.specs.Frames.{Framed};

    ghost Value = { Framed };

    ghost view = { λ f. record {
      memory = record {
        words = record {
          numbers = f.numbers.items;
          ranges = map range_word f.ranges.items;
          intents = intents_by_slot (map intent_view f.intents.items);
          sets = f.sets.items;
        };
        domains = f.domains.items;
        tuples = f.tuples.items;
        arrays = A.held f.arrays;
        roots = map root_view f.roots.items;
        cells = [];
        here = pos 0;
        coming = record { replies = None; histories = [] };
      };
      limits = record { budget = f.budget; locales = f.locales };
      layout = f.layout;
    } };

    ghost invariant = { λ f. f.owners.items ≡ maps_of f.layout f.roots.items };
}

impl Frame<Slots> {
    /// A frame with so many slots: its words are 0, its ranges `1..0`, its domains `{1..0}`, its tuples the index 0, and its
    /// arrays have no elements; no slot has a root, so that each has the whole map. Nothing is set, and there are no reduce variables.
    ///
    /// # Errors
    /// Out of memory.
    #[tactic(auto, using(crate::proofs::Kept::map_replicate, crate::proofs::Dealing::roots_absent, crate::proofs::Dealing::maps_absent))]
    pub fn new(
        alloc: Global,
        slots: usize,
        budget: u64,
        locales: u32,
        layout: Layout,
    ) -> Result<Frame, AllocError>
        ensures { IfOk result (λ f. f ≡ first_frame slots (record { budget = budget; locales = locales }) layout) }
    {
        Ok(Frame {
            numbers: vec![in alloc; 0; slots]?,
            ranges: vec![in alloc; RangeWord::none(); slots]?,
            domains: vec![in alloc; DomainWord::empty(1); slots]?,
            tuples: vec![in alloc; no_tuple(); slots]?,
            alloc,
            arrays: Slots::new(alloc, slots)?,
            intents: Vec::new(alloc),
            sets: Vec::new(alloc),
            budget,
            locales,
            layout,
            roots: vec![in alloc; Root::Absent; slots]?,
            owners: vec![in alloc; Map::whole(); slots]?,
        })
    }
}

impl<A: Arrays> Frame<A> {
    /// The word in a slot; 0 past the last one.
    pub fn number(&self, slot: usize) -> i64
        ensures { result ≡ get_or self.now.memory.words.numbers slot (pos 0) }
    {
        match self.numbers.get(slot) {
            Some(number) => *number,
            None => 0,
        }
    }

    /// Whether there is such a slot, and a word in it.
    pub fn has_number(&self, slot: usize) -> bool
        ensures { IsTrue result ↔ (slot < length self.now.memory.words.numbers) }
    {
        slot < self.numbers.len()
    }

    /// The range in a slot; `1..0` past the last one.
    pub fn range(&self, slot: usize) -> RangeWord
        ensures { range_word result ≡ get_or self.now.memory.words.ranges slot no_range }
    {
        match self.ranges.get(slot) {
            Some(range) => *range,
            None => RangeWord::none(),
        }
    }

    /// Puts a word into a slot; past the last one it does nothing.
    pub fn set_number(&mut self, slot: usize, number: i64)
        ensures { self.new ≡ with_words (record self.old.memory.words { numbers = set self.old.memory.words.numbers slot number }) self.old }
    {
        if slot < self.numbers.len() {
            self.numbers[slot] = number;
        }
    }

    /// Puts a range into a slot; past the last one it does nothing.
    #[tactic(auto, using(crate::proofs::Kept::map_set))]
    pub fn set_range(&mut self, slot: usize, range: RangeWord)
        ensures { self.new ≡ with_words (record self.old.memory.words { ranges = set self.old.memory.words.ranges slot (range_word range) }) self.old }
    {
        if slot < self.ranges.len() {
            self.ranges[slot] = range;
        }
    }

    /// The domain in a slot; `{1..0}` past the last one.
    pub fn domain(&self, slot: usize) -> DomainWord
        ensures { result ≡ get_or self.now.memory.domains slot no_domain }
    {
        match self.domains.get(slot) {
            Some(domain) => *domain,
            None => DomainWord::empty(1),
        }
    }

    /// The index in a slot; 0 past the last one.
    pub fn tuple(&self, slot: usize) -> Index
        ensures { result ≡ get_or self.now.memory.tuples slot no_tuple }
    {
        match self.tuples.get(slot) {
            Some(index) => *index,
            None => no_tuple(),
        }
    }

    /// Whether there is such a slot, and an index in it.
    pub fn has_tuple(&self, slot: usize) -> bool
        ensures { IsTrue result ↔ (slot < length self.now.memory.tuples) }
    {
        slot < self.tuples.len()
    }

    /// Puts a domain into a slot; past the last one it does nothing.
    pub fn set_domain(&mut self, slot: usize, domain: DomainWord)
        ensures { self.new ≡ with_memory (record self.old.memory { domains = set self.old.memory.domains slot domain }) self.old }
    {
        if slot < self.domains.len() {
            self.domains[slot] = domain;
        }
    }

    /// Declares a domain in a slot, which has no root until it is dealt; past the last one it does nothing.
    pub fn declare_domain(&mut self, slot: usize, domain: DomainWord)
        ensures { self.new ≡ with_memory (with_root slot no_root (record self.old.memory { domains = set self.old.memory.domains slot domain })) self.old }
    {
        self.set_domain(slot, domain);
        self.deal(slot, Root::Absent);
    }

    /// Puts an index into a slot; past the last one it does nothing.
    pub fn set_tuple(&mut self, slot: usize, index: Index)
        ensures { self.new ≡ with_memory (record self.old.memory { tuples = set self.old.memory.tuples slot index }) self.old }
    {
        if slot < self.tuples.len() {
            self.tuples[slot] = index;
        }
    }

    /// The root of the domain or array in a slot; none past the last one.
    pub fn root(&self, slot: usize) -> Root
        ensures { root_view result ≡ get_or self.now.memory.roots slot no_root }
    {
        match self.roots.get(slot) {
            Some(root) => *root,
            None => Root::Absent,
        }
    }

    /// The map of the domain or array in a slot, which is that of its root; the whole map past the last one.
    pub fn owner(&self, slot: usize) -> Map
        ensures { result ≡ owned_by self.now slot }
    {
        match self.owners.get(slot) {
            Some(map) => *map,
            None => Map::whole(),
        }
    }

    /// The map that a root gets here.
    pub fn map_of(&self, root: &Root) -> Map
        ensures { result ≡ map_of_root self.now.layout (root_view root.now) }
    {
        root.map(&self.layout)
    }

    /// Gives a slot a root, and with it the root's map; past the last one it does nothing.
    pub fn deal(&mut self, slot: usize, root: Root)
        ensures { self.new ≡ with_memory (with_root slot (root_view root) self.old.memory) self.old }
    {
        let map = self.map_of(&root);
        if slot < self.roots.len() {
            self.roots[slot] = root;
            self.owners[slot] = map;
        }
    }

    /// How many turns each entry of a loop may have.
    pub fn budget(&self) -> u64
        ensures { result ≡ self.now.limits.budget }
    {
        self.budget
    }

    /// The number that the command line gives to the variable in a slot; of a truth value 0 is false.
    pub fn given(&self, slot: usize) -> Option<i64>
        ensures { result ≡ set_at slot self.now.memory.words.sets }
    {
        for set in &self.sets {
            if slot == set.0 {
                return Some(set.1);
            }
        }
        None
    }

    /// The command line gives a number to the variable in a slot, if it didn't before.
    ///
    /// # Errors
    /// Out of memory.
    pub fn give(&mut self, slot: usize, number: i64) -> Result<(), AllocError>
        ensures { IfOk result (λ v. self.new
            ≡ with_words (record self.old.memory.words { sets = self.old.memory.words.sets ++ (slot, number) ∷ [] }) self.old) }
    {
        self.sets.push((slot, number))?;
        Ok(())
    }

    /// The operator of the first reduce variable in a slot.
    pub fn operator(&self, slot: usize) -> Option<Op>
        ensures { result ≡ intent_at slot self.now.memory.words.intents }
    {
        for intent in &self.intents {
            if slot == intent.slot {
                return Some(intent.op);
            }
        }
        None
    }

    /// The reduce variables, each with its operator.
    pub fn intents(&self) -> &[Intent]
        ensures { intents_by_slot (map intent_view result.now) ≡ self.now.memory.words.intents }
    {
        &self.intents
    }

    /// Makes these the reduce variables.
    ///
    /// # Errors
    /// Out of memory; then the frame is as it was.
    pub fn intend(&mut self, intents: &[Intent]) -> Result<(), AllocError>
        ensures intended { OnOk result (self.new
            ≡ with_words (record self.old.memory.words { intents = intents_by_slot (map intent_view intents.now) }) self.old) }
        ensures unchanged { OnErr result (self.new ≡ self.old) }
    {
        self.intents = intents.to_vec(self.alloc)?;
        Ok(())
    }

    /// There are no reduce variables any more.
    pub fn intend_none(&mut self)
        ensures { self.new ≡ with_words (record self.old.memory.words { intents = [] }) self.old }
    {
        self.intents.clear();
    }
}
