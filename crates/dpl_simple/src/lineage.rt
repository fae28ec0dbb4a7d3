// Which root a declared domain or array gets.
// What tells it is evaluated before the slot is written; the root's domain is the one that the slot then holds.

ghost use Rattle.std.specs.Prelude.{◌≡◌, Ok, List, IfOk};
ghost use Rattle.dpl_sets.specs.TextRanges.{TextRange};
ghost use Rattle.dpl_language.specs.Values.{Domain as DomainValue};
ghost use Rattle.dpl_frame.specs.Roots.{root_view};
ghost use Rattle.dpl_values.specs.Meanings.{domain_in};
ghost use Rattle.dpl_simple.specs.Lineages.{rooted, slot_root, valued_root, empty_root};

use crate::root::{from_least, named};
use dpl_frame::{Arrays, Distribution, DomainWord, Frame, Root};
use dpl_nodes::{DomainExpr, Placing};
use std::alloc::AllocError;

/// What tells a root: another root, or what is named for a root of its own.
#[derive(Clone, Copy)]
pub(crate) enum Lineage {
    Of(Root),
    Named(Distribution),
}

impl Lineage {
    /// The root, by the domain that is declared.
    pub(crate) fn root(&self, domain: DomainWord) -> Root
        ensures { root_view result ≡ rooted self.now domain }
    {
        match self {
            Lineage::Of(root) => *root,
            Lineage::Named(named) => Root::of(*named, domain),
        }
    }
}

/// Of what is derived from the domain or array in a slot; for what is derived from none no map is named.
pub(crate) fn derived<A: Arrays>(origin: Option<usize>, frame: &Frame<A>) -> Lineage
    ensures { (rs : List TextRange) → rooted result rs ≡ slot_root origin rs frame.now.memory }
{
    match origin {
        Some(slot) => Lineage::Of(frame.root(slot)),
        None => Lineage::Named(Distribution::NoMap),
    }
}

/// Of a domain that is declared with an initial value.
///
/// # Errors
/// Out of memory.
pub(crate) fn with_value<A: Arrays>(
    e: &DomainExpr<'_>,
    value: DomainWord,
    placing: &Placing<'_>,
    frame: &Frame<A>,
) -> Result<Lineage, AllocError>
    requires { domain_in frame.now e.now ≡ Ok (DomainValue value) }
    ensures { IfOk result (λ lineage. (rs : List TextRange) → rooted lineage rs
        ≡ valued_root frame.now.limits e.now placing.now rs frame.now.memory) }
{
    match placing {
        Placing::Derived => Ok(derived(e.origin(), frame)),
        Placing::Root => Ok(Lineage::Named(Distribution::NoMap)),
        Placing::Mapped(map) => Ok(Lineage::Named(named(map, frame)?)),
        Placing::BlockCreated => Ok(Lineage::Named(Distribution::BlockOver(value))),
        Placing::CyclicCreated => Ok(Lineage::Named(from_least(value))),
    }
}

/// Of a domain that is declared without one.
///
/// # Errors
/// Out of memory.
pub(crate) fn without_value<A: Arrays>(
    placing: &Placing<'_>,
    frame: &Frame<A>,
) -> Result<Lineage, AllocError>
    ensures { IfOk result (λ lineage. (rs : List TextRange) → rooted lineage rs
        ≡ empty_root frame.now.limits placing.now rs frame.now.memory) }
{
    match placing {
        Placing::Mapped(map) => Ok(Lineage::Named(named(map, frame)?)),
        Placing::Derived => Ok(Lineage::Named(Distribution::NoMap)),
        Placing::Root => Ok(Lineage::Named(Distribution::NoMap)),
        Placing::BlockCreated => Ok(Lineage::Named(Distribution::NoMap)),
        Placing::CyclicCreated => Ok(Lineage::Named(Distribution::NoMap)),
    }
}
