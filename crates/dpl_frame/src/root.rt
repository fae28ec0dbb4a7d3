// Roots, as a frame keeps them: what is named for a domain or an array that has a map of its own, and the domain that it was declared with.

ghost use Rattle.std.specs.Prelude.{◌≡◌};
ghost use Rattle.dpl_frame.specs.Roots.{distribution_view, root_view, map_of_root};

use dpl_contents::DomainWord;
use dpl_domain::Index;
use dpl_layout::{Layout, Named};
use dpl_map::Map;

/// What a text names, its arguments evaluated.
#[derive(Clone, Copy)]
pub enum Distribution {
    /// No map is named, or an argument has no value.
    NoMap,
    /// `blockDist`, with this box.
    BlockOver(DomainWord),
    /// `cyclicDist`, from this start.
    CyclicFrom(Index),
    /// `blockCycDist`, from a start, in blocks of these sizes.
    BlockCyclicFrom(Index, Index),
}

/// The root of a domain or an array: what is named for it, as in `Distribution`, and last the domain that it was declared with. A slot that
/// holds neither has none. (It has no `Distribution` in it: of what a list holds the check is not told the types that are two deep.)
#[derive(Clone, Copy)]
pub enum Root {
    Absent,
    NoMap(DomainWord),
    BlockOver(DomainWord, DomainWord),
    CyclicFrom(Index, DomainWord),
    BlockCyclicFrom(Index, Index, DomainWord),
}

impl Root {
    /// The root with this domain, for which this is named.
    pub fn of(named: Distribution, domain: DomainWord) -> Root
        ensures { root_view result ≡ record { named = distribution_view named; domain = domain } }
    {
        match named {
            Distribution::NoMap => Root::NoMap(domain),
            Distribution::BlockOver(named) => Root::BlockOver(named, domain),
            Distribution::CyclicFrom(start) => Root::CyclicFrom(start, domain),
            Distribution::BlockCyclicFrom(start, sizes) => {
                Root::BlockCyclicFrom(start, sizes, domain)
            }
        }
    }

    // The map that the root gets.
    #[tactic(auto, using(crate::proofs::Dealing::root_gets, crate::proofs::Dealing::none_gets))]
    pub(crate) fn map(&self, layout: &Layout) -> Map
        ensures { result ≡ map_of_root layout.now (root_view self.now) }
    {
        match self {
            Root::Absent => Map::whole(),
            Root::NoMap(domain) => layout.root(&domain.domain(), &Named::Whole),
            Root::BlockOver(named, domain) => {
                layout.root(&domain.domain(), &Named::Block(named.domain()))
            }
            Root::CyclicFrom(start, domain) => {
                layout.root(&domain.domain(), &Named::Cyclic(*start))
            }
            Root::BlockCyclicFrom(start, sizes, domain) => {
                layout.root(&domain.domain(), &Named::BlockCyclic(*start, *sizes))
            }
        }
    }
}
