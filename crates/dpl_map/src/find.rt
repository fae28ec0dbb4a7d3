// Where an index stands in a part.

ghost use Rattle.std.specs.Prelude.{◌≡◌, ◌↔◌, ◌<◌, ◌≤◌, ℕ, ℤ, List, [], ◌∷◌, length, slice_get, Some, IsTrue, IfSome, IsNone};
ghost use Rattle.dpl_sets.specs.Indices.{indices};
ghost use Rattle.dpl_domain.specs.Ranks.{last_of};
ghost use Rattle.dpl_map.specs.Orders.{keys, IsBefore, IsAt, AreRowByRow, ArePart, HasNone, three};

use crate::Map;
use dpl_domain::{Domain, Index};

/// By what the ranges stand that a locale has of a dimension: by the block that has their members, or by the offset at which
/// these lie in their blocks.
#[derive(Clone, Copy)]
pub enum Order {
    Blocks,
    Offsets,
}

impl Map {
    /// Where an index stands in a part, of which the domains are handed in as `part` lists them: the number of the domain
    /// that has it, counted from 0, and its place in that domain. None where no domain has it.
    ///
    /// Of one domain it asks that one. Where there are more, it takes a binary search of the list for each order in which the
    /// ranges of the block-cyclic dimensions may stand. It takes no memory.
    pub fn find(&self, domains: &[Domain], index: Index) -> Option<(usize, u64)>
        requires { ArePart self.now domains.now }
        ensures { (k j : ℕ) → (result ≡ Some (k, j)) ↔ IsAt domains.now k j index }
    {
        if domains.len() <= 1 {
            return place_in(domains, 0, index);
        }
        if index.rank() != self.rank() {
            return None;
        }
        if let Some(found) = self.find_outer(domains, index, Order::Blocks) {
            return Some(found);
        }
        if self.axes().0.is_single() {
            return None;
        }
        self.find_outer(domains, index, Order::Offsets)
    }

    // Where an index stands in domains whose outermost dimension stands in an order.
    fn find_outer(&self, domains: &[Domain], index: Index, outer: Order) -> Option<(usize, u64)>
        requires { length index ≡ length self.now }
        ensures found { IfSome result (λ at. (j : ℕ) → (at.1 ≡ j) ↔ IsAt domains.now at.0 j index) }
        ensures none { IsNone result → (middle inner : Order) → HasNone (last_of (length self.now) outer middle inner) self.now domains.now index }
    {
        if let Some(found) = self.find_middle(domains, index, outer, Order::Blocks) {
            return Some(found);
        }
        if self.axes().1.is_single() {
            return None;
        }
        self.find_middle(domains, index, outer, Order::Offsets)
    }

    // Where it stands where the dimension in the middle stands in an order too.
    fn find_middle(
        &self,
        domains: &[Domain],
        index: Index,
        outer: Order,
        middle: Order,
    ) -> Option<(usize, u64)>
        requires { length index ≡ length self.now }
        ensures found { IfSome result (λ at. (j : ℕ) → (at.1 ≡ j) ↔ IsAt domains.now at.0 j index) }
        ensures none { IsNone result → (inner : Order) → HasNone (last_of (length self.now) outer middle inner) self.now domains.now index }
    {
        if let Some(found) = self.find_inner(domains, index, outer, middle, Order::Blocks) {
            return Some(found);
        }
        if self.axes().2.is_single() {
            return None;
        }
        self.find_inner(domains, index, outer, middle, Order::Offsets)
    }

    // Where it stands where each dimension stands in an order.
    fn find_inner(
        &self,
        domains: &[Domain],
        index: Index,
        outer: Order,
        middle: Order,
        inner: Order,
    ) -> Option<(usize, u64)>
        requires { length index ≡ length self.now }
        ensures found { IfSome result (λ at. (j : ℕ) → (at.1 ≡ j) ↔ IsAt domains.now at.0 j index) }
        ensures none { IsNone result → HasNone (last_of (length self.now) outer middle inner) self.now domains.now index }
    {
        let number = self.number(domains, index, outer, middle, inner);
        place_in(domains, number, index)
    }

    // How many domains stand before an index, by an order of each dimension.
    fn number(
        &self,
        domains: &[Domain],
        index: Index,
        outer: Order,
        middle: Order,
        inner: Order,
    ) -> usize
        requires { length index ≡ length self.now }
        ensures { AreRowByRow (last_of (length self.now) outer middle inner) self.now domains.now → (k j : ℕ) → IsAt domains.now k j index → result ≡ k }
    {
        let (mut from, mut to) = (0, domains.len());
        while from < to {
            let half = from + (to - from) / 2;
            if self.is_before(&domains[half], index, outer, middle, inner) {
                from = half + 1;
            } else {
                to = half;
            }
        }
        from
    }

    // Whether the indices of a domain come before an index, by an order of each dimension.
    fn is_before(
        &self,
        domain: &Domain,
        index: Index,
        outer: Order,
        middle: Order,
        inner: Order,
    ) -> bool
        requires { length index ≡ length self.now }
        ensures { (t : List ℤ) → slice_get (indices domain.now) 0 ≡ Some t → length t ≡ length self.now
            → (IsTrue result ↔ IsBefore (keys (last_of (length self.now) outer middle inner) self.now) t index) }
    {
        let Some(first) = domain.nth(0) else {
            return false;
        };
        let (x, y, z) = first.numbers();
        let (u, v, w) = index.numbers();
        let axes = self.axes();
        let here = (
            axes.0.key(outer, x),
            axes.1.key(middle, y),
            axes.2.key(inner, z),
        );
        let there = (
            axes.0.key(outer, u),
            axes.1.key(middle, v),
            axes.2.key(inner, w),
        );
        comes_before(here, there)
    }
}

// Whether three numbers come before three others, by the first two that differ.
fn comes_before(here: (i128, i128, i128), there: (i128, i128, i128)) -> bool
    ensures { IsTrue result ↔ IsBefore three (here.0 ∷ here.1 ∷ here.2 ∷ []) (there.0 ∷ there.1 ∷ there.2 ∷ []) }
{
    if here.0 != there.0 {
        return here.0 < there.0;
    }
    if here.1 != there.1 {
        return here.1 < there.1;
    }
    here.2 < there.2
}

// The number of a domain and the place of an index in it, if there is such a domain and it has the index.
fn place_in(domains: &[Domain], number: usize, index: Index) -> Option<(usize, u64)>
    ensures { (k j : ℕ) → (result ≡ Some (k, j)) ↔ ((k ≡ number) × IsAt domains.now k j index) }
{
    let place = domains.get(number)?.place(index)?;
    Some((number, place))
}
