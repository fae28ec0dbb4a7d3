// An array over another domain.
// The new array is made first, and then the values at the common indices are taken over one by one.

ghost use Rattle.std.specs.Prelude.{◌≡◌, ◌↔◌, IfOk};
ghost use Rattle.dpl_array.specs.Elements.{value_at};
ghost use Rattle.dpl_array.specs.Arrays.{IsSmallArray, redomained, taken_over};

use crate::{ArrayFault, DArray};
use dpl_domain::{Domain, Index};
use std::alloc::Global;

impl<T: Copy> DArray<T> {
    /// The array over another domain. At the indices that are in both domains it keeps its values, and at the others it holds a
    /// given one. Its map stays. On a refusal the array is gone.
    pub fn redomain(self, alloc: Global, domain: Domain, value: T) -> Result<DArray<T>, ArrayFault>
        ensures array { IfOk result (λ a. a ≡ redomained self domain value) }
        ensures size { (result ≡ Err ArrayFault.Size) ↔ (¬ IsSmallArray domain) }
    {
        self.copied(alloc, domain, value)
    }

    /// The same, and this array stays as it is.
    pub fn copied(&self, alloc: Global, domain: Domain, value: T) -> Result<DArray<T>, ArrayFault>
        ensures array { IfOk result (λ a. a ≡ redomained self.now domain value) }
        ensures size { (result ≡ Err ArrayFault.Size) ↔ (¬ IsSmallArray domain) }
    {
        let mut array = DArray::new(alloc, domain, self.map(), value)?;
        let mut indices = domain.cursor();
        while let Some(index) = indices.next() {
            array.take_over(self, index);
        }
        Ok(array)
    }

    // Puts the value that another array has at an index, if it has one.
    fn take_over(&mut self, other: &DArray<T>, index: Index)
        ensures { self.new ≡ record self.old { elements = taken_over index (value_at index other.now.elements) self.old.elements } }
    {
        if let Some(value) = other.get(index) {
            self.set(index, value);
        }
    }
}
