// How the turns of a forall may be made apart, each locale's by a worker of its own.
// Turns tell it; that they may be made so is their promise (`MayBeApart`), and nobody else looks into them.

use dpl_nodes::Intent;
use std::marker::Model;

/// What turns that may be made apart change, by slots: arrays, each turn at its own index alone; reduce variables, by their operators; and
/// the numbers, ranges and tuples that begin anew in each turn. The turns are those of a forall over indices of this rank.
#[derive(Drop)]
pub struct Apart<'b> {
    pub rank: u32,
    pub written: &'b [usize],
    pub reduced: &'b [Intent],
    pub numbers: &'b [usize],
    pub ranges: &'b [usize],
    pub tuples: &'b [usize],
}

impl<'b> Model for Apart<'b> {
    ghost use Rattle.std.specs.Prelude.{map};
    ghost use Rattle.dpl_memory.specs.Memory.{intents_by_slot};
    ghost use Rattle.dpl_nodes.specs.Steps.{intent_view};
    ghost use Rattle.dpl_apart.specs.Memories.{Changes};

    ghost Value = { Changes };

    ghost view = { λ a. record {
      rank = a.rank;
      written = a.written.now;
      reduced = intents_by_slot (map intent_view a.reduced.now);
      numbers = a.numbers.now;
      ranges = a.ranges.now;
      tuples = a.tuples.now;
    } };
}
