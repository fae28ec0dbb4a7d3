// Which map a declared domain or array gets: one that the text names, that of another's root, or none.
// A map says where work is done and nothing else; it stands in the plain statement that a step stands for (specs/Steps.antt).

ghost use Rattle.std.specs.Prelude.{◌≡◌};
ghost use Rattle.dpl_language.specs.Roots.{derived_from, derived_over};
ghost use Rattle.dpl_nodes.specs.Typed.{domain_view};
ghost use Rattle.dpl_nodes.specs.Steps.{over_items};
ghost use Rattle.dpl_nodes.specs.Roots.{slot_by};

use crate::spot::Spot;
use crate::step::DeclaredOver;
use crate::tree::{DomainExpr, IndexExpr};
use dpl_tree::Word;

/// Where a map starts, or how large its blocks are: an index, or the least members of a domain, by `low` or `lowBound` with the
/// place of that word.
#[derive(Clone, Copy)]
pub enum StartExpr<'t> {
    Index(&'t IndexExpr<'t>),
    Least(&'t DomainExpr<'t>, &'t Spot, Word),
}

/// A map that the text names: `blockDist` with its box, `cyclicDist` with its start, or `blockCycDist` with its start and the
/// sizes of its blocks.
#[derive(Clone, Copy)]
pub enum MapExpr<'t> {
    Block(&'t DomainExpr<'t>),
    Cyclic(StartExpr<'t>),
    BlockCyclic(StartExpr<'t>, StartExpr<'t>),
}

/// What a domain's declaration says of its map.
#[derive(Clone, Copy)]
pub enum Placing<'t> {
    /// Nothing: it has the root of the domain or array from which its value is derived, and is a root where it is derived from none.
    Derived,
    /// Its type is written, so that it is a root; and no map is named.
    Root,
    /// A map is named.
    Mapped(&'t MapExpr<'t>),
    /// It is created: with the block map whose box is its value, or the cyclic one from its least members.
    BlockCreated,
    CyclicCreated,
}

impl<'t> DomainExpr<'t> {
    /// The slot of the domain or array from which the value is derived, as `D` or `A.domain`, sliced or expanded; none of what is
    /// derived from no name.
    pub fn origin(&self) -> Option<usize>
        ensures { result ≡ slot_by (derived_from (domain_view self.now)) }
    {
        match self {
            DomainExpr::Local(slot) => Some(*slot),
            DomainExpr::OfArray(_, slot) => Some(*slot),
            DomainExpr::Literal(_, _) => None,
            DomainExpr::Posts(d, _) => d.origin(),
            DomainExpr::Created(_, _) => None,
        }
    }
}

impl<'t> DeclaredOver<'t> {
    /// The slot of the domain or array from which an array's domain is derived; none where the array is over ranges, or over a
    /// domain that is derived from no name.
    pub fn origin(&self) -> Option<usize>
        ensures { result ≡ slot_by (derived_over (over_items self.now)) }
    {
        match self {
            DeclaredOver::Ranges(_) => None,
            DeclaredOver::Domain(d) => d.origin(),
            DeclaredOver::HiddenDomain(d) => d.origin(),
            DeclaredOver::HiddenRange(_) => None,
        }
    }
}
