// Elements that are gathered from an array, each once.
// They are kept by their places in the array's domain, so a search goes by one number.

ghost use Rattle.std.specs.Prelude.{◌≡◌, ◌∷◌, [], ◌++◌, List, ℤ, Bool, Some, false, true, cond, is_some, length, IfSome, IfNone, OnOk};
ghost use Rattle.dpl_sets.specs.Indices.{indices, IsSmall};
ghost use Rattle.dpl_array.specs.Elements.{value_at, with_value, tabulated, same_index};
ghost use Rattle.dpl_array.specs.Rows.{IsDistinct, StandsIn};
ghost use Rattle.dpl_halo.specs.Gathering.{IsGathered, IsTaken};

use dpl_array::DArray;
use dpl_domain::{Domain, Index};
use std::alloc::{AllocError, Global};
use std::collections::BTreeMap;
use std::marker::Model;

/// Elements over a domain, seen as the domain and a finite map from some of its indices to values.
#[derive(Drop)]
pub(crate) struct Gathered<T> {
    domain: Domain,
    held: BTreeMap<u64, T>,
    count: usize,
}

impl<T> Model for Gathered<T> {
    ghost use Rattle.dpl_halo.specs.Gathering.{GatheredValue};

    ghost Value = { GatheredValue T };

    ghost use Rattle.dpl_halo.specs.GatheredFields.{gathered_of, AreKept};

    ghost view = { gathered_of };

    ghost invariant = { AreKept };
}

impl<T: Copy> Gathered<T> {
    // No elements.
    pub(crate) fn new(alloc: Global, domain: Domain) -> Gathered<T>
        ensures domain { result.domain ≡ domain }
        ensures elements { result.elements ≡ [] }
    {
        each_once(&domain);
        Gathered {
            domain,
            held: BTreeMap::new(alloc),
            count: 0,
        }
    }

    // The domain of the array.
    pub(crate) fn domain(&self) -> Domain
        ensures domain { result ≡ self.now.domain }
        ensures formed { tabulated (indices self.now.domain) (λ t. value_at t self.now.elements) ≡ self.now.elements }
    {
        self.domain
    }

    // How many elements there are.
    pub(crate) fn len(&self) -> usize
        ensures { result ≡ length self.now.elements }
    {
        self.count
    }

    // The value at an index, if there is one.
    pub(crate) fn get(&self, index: Index) -> Option<T>
        ensures { result ≡ value_at index self.now.elements }
    {
        let place = self.domain.place(index)?;
        self.held.get(&place).copied()
    }

    // Puts a value at an index, where there is one. False where there is none, and then nothing is changed.
    pub(crate) fn set(&mut self, index: Index, value: T) -> bool
        ensures there { result ≡ is_some (value_at index self.old.elements) }
        ensures changes { self.new ≡ record self.old { elements = with_value index value self.old.elements } }
    {
        let Some(place) = self.domain.place(index) else {
            return false;
        };
        if !self.held.contains_key(&place) {
            return false;
        }
        // An entry that is there takes another value without memory, so this is never refused.
        let Ok(_) = self.held.insert(place, value) else {
            return false;
        };
        true
    }

    // Takes an element out, or answers `None` where there is none.
    pub(crate) fn pop(&mut self) -> Option<(Index, T)>
        ensures taken { IfSome result (λ e. IsTaken e.0 e.1 self.old self.new) }
        ensures end { IfNone result (self.old.elements ≡ []) }
    {
        if self.count == 0 {
            return None;
        }
        let (place, value) = self.held.pop_first()?;
        let index = self.domain.nth(place)?;
        self.count -= 1;
        Some((index, value))
    }

    // Adds an element at an index of the domain, or puts a value there. On a refusal nothing is changed.
    pub(crate) fn insert(&mut self, index: Index, value: T) -> Result<(), AllocError>
        requires { StandsIn (indices self.old.domain) index }
        ensures domain { self.new.domain ≡ self.old.domain }
        ensures values { OnOk result ((t : List ℤ) → value_at t self.new.elements ≡ cond (same_index index t) (Some value) (value_at t self.old.elements)) }
    {
        let Some(place) = self.domain.place(index) else {
            return Ok(());
        };
        if self.held.insert(place, value)?.is_none() {
            self.count += 1;
        }
        Ok(())
    }

    // Adds what an array holds at an index, where it holds something.
    pub(crate) fn gather(&mut self, array: &DArray<T>, index: Index) -> Result<(), AllocError>
        requires { self.old.domain ≡ array.now.domain }
        ensures domain { self.new.domain ≡ self.old.domain }
        ensures gathered { OnOk result ((wants : List ℤ → Bool) (seen : List (List ℤ)) → wants index ≡ true → IsGathered array.now wants seen self.old
            → IsGathered array.now wants (seen ++ index ∷ []) self.new) }
    {
        // That an array holds something at its own indices alone is a clause of its domain.
        let _ = array.domain();
        let Some(value) = array.get(index) else {
            return Ok(());
        };
        self.insert(index, value)?;
        Ok(())
    }
}

// No index of a domain stands at two places. It says so, and does nothing.
fn each_once(domain: &Domain)
    ensures distinct { IsDistinct (indices domain.now) }
    ensures small { IsSmall domain.now }
{
    // That the numbers of a range are within their limits is a clause of its size.
    let (outer, middle, inner) = domain.ranges();
    let _ = (outer.size(), middle.size(), inner.size());
}
