// A locale's part of a domain in closed form: no call walks the domain.

ghost use Rattle.std.specs.Prelude.{◌≡◌, ◌≢◌, ◌≤◌, ◌<◌, ◌*◌, ◌+◌, [], length, All, IfOk, IfSome, IfNone, OnErr};
ghost use Rattle.std.specs.List.{sum_by};
ghost use Rattle.dpl_sets.specs.Indices.{indices, IsSmall};
ghost use Rattle.dpl_map.specs.Maps.{locales};
ghost use Rattle.dpl_map.specs.Axes.{AreSingle};
ghost use Rattle.dpl_map.specs.Counts.{AreFew};
ghost use Rattle.dpl_map.specs.Cuts.{AreCut};
ghost use Rattle.dpl_map.specs.Orders.{ArePart, StandsInOne};
ghost use Rattle.dpl_map.specs.Parts.{part};

use crate::Map;
use crate::products::products;
use dpl_domain::Domain;
use std::alloc::{AllocError, Global};

/// Out of memory for the list of domains.
#[derive(Clone, Copy, Debug, PartialEq, Eq)]
pub struct NoMemory;

impl From<AllocError> for NoMemory {
    fn from(_: AllocError) -> NoMemory {
        NoMemory
    }
}

impl Map {
    /// The part of a domain that a locale owns: domains that each have an index, have none in common and together hold
    /// exactly the indices that it owns, each in the domain's order. It is one domain at the most, but by the block-cyclic
    /// rule. There the number of domains is at most a product over the dimensions: of 1 where the dimension has one
    /// coordinate, else of the offsets in a block, or of the locale's blocks with an index of the part where these are fewer.
    /// A domain of another rank than the map's is not cut.
    /// There is no domain where the locale owns no index, as where it is none of the map's.
    ///
    /// The domains stand row by row, by rising blocks or by rising offsets of each dimension; `find` searches them so.
    ///
    /// # Errors
    /// Out of memory for the domains.
    pub fn part(&self, alloc: Global, domain: &Domain, locale: u32) -> Result<Vec<Domain>, NoMemory>
        ensures cut { IfOk result (λ domains. AreCut indices (part domain.now self.now locale) domains.items) }
        ensures some { IfOk result (λ domains. All (λ domain. indices domain ≢ []) domains.items) }
        ensures one { AreSingle self.now → IfOk result (λ domains. length domains.items ≤ 1) }
        ensures few { IfOk result (λ domains. AreFew self.now (part domain.now self.now locale) (length domains.items)) }
        ensures other { length domain.now ≢ length self.now → IfOk result (λ domains. length domains.items ≤ 1) }
        ensures rows { IfOk result (λ domains. ArePart self.now domains.items) }
        ensures apart { IfOk result (λ domains. All (StandsInOne domains.items) (part domain.now self.now locale)) }
        ensures sizes { IfOk result (λ domains. sum_by (λ d. length (indices d)) domains.items ≡ length (part domain.now self.now locale)) }
        ensures none { IfOk result (λ domains. locales self.now ≤ locale → domains.items ≡ []) }
    {
        if self.locales() <= locale || domain.size() == 0 {
            return Ok(Vec::new(alloc));
        }
        if domain.rank() == self.rank() {
            return Ok(self.owned(alloc, domain, locale)?);
        }
        let mut domains = Vec::new(alloc);
        if locale == 0 {
            domains.push(*domain).map_err(AllocError::from)?;
        }
        Ok(domains)
    }

    // The part of a domain of the map's rank.
    fn owned(&self, alloc: Global, domain: &Domain, locale: u32) -> Result<Vec<Domain>, AllocError>
        requires rank { length domain.now ≡ length self.now }
        requires locale { locale < locales self.now }
        requires small { IsSmall domain.now }
        ensures cut { IfOk result (λ domains. AreCut indices (part domain.now self.now locale) domains.items) }
        ensures some { IfOk result (λ domains. All (λ domain. indices domain ≢ []) domains.items) }
        ensures one { AreSingle self.now → IfOk result (λ domains. length domains.items ≤ 1) }
        ensures few { IfOk result (λ domains. AreFew self.now (part domain.now self.now locale) (length domains.items)) }
        ensures rows { IfOk result (λ domains. ArePart self.now domains.items) }
    {
        let (outer, middle, inner) = self.axes();
        let (first, second, last) = domain.ranges();
        let row = locale / inner.extent();
        let outers = outer.parts(alloc, &first, row / middle.extent())?;
        let middles = middle.parts(alloc, &second, row % middle.extent())?;
        let inners = inner.parts(alloc, &last, locale % inner.extent())?;
        products(alloc, domain.rank(), &outers, &middles, &inners)
    }
}
