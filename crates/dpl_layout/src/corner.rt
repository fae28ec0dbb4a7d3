// The corner of a domain at which a cyclic map begins: its least members.

ghost use Rattle.std.specs.Prelude.{◌≡◌, ◌↔◌, [], IsNone, IfSome};
ghost use Rattle.dpl_sets.specs.Indices.{indices};
ghost use Rattle.dpl_layout.specs.Roots.{IsLeastOf, IsFromLeast};

use crate::Named;
use dpl_domain::{Domain, Index};

/// The least member of each dimension; none of a domain that has no index.
pub fn least(domain: &Domain) -> Option<Index>
    ensures none { IsNone result ↔ (indices domain.now ≡ []) }
    ensures least { IfSome result (IsLeastOf domain.now) }
{
    let (outer, middle, inner) = domain.ranges();
    let outer = outer.low()?;
    let middle = middle.low()?;
    let inner = inner.low()?;
    match domain.rank() {
        1 => Index::new(&[inner]),
        2 => Index::new(&[middle, inner]),
        _ => Index::new(&[outer, middle, inner]),
    }
}

/// A cyclic map from a domain's least members, as a named map; the whole map where it has no index.
pub fn from_least(domain: &Domain) -> Named
    ensures { IsFromLeast domain.now result }
{
    match least(domain) {
        Some(start) => Named::Cyclic(start),
        None => Named::Whole,
    }
}
