// Loans: elements of an array that are lent to be written, and handed back.
// So a locale may write elements of arrays whose map is another than the loop's, of which others are the owners.

ghost use Rattle.std.specs.Prelude.{◌≡◌, ◌∷◌, [], ◌++◌, List, ℤ, false, is_some, length, OnOk, IfOk};
ghost use Rattle.dpl_sets.specs.Indices.{indices};
ghost use Rattle.dpl_array.specs.Elements.{value_at};
ghost use Rattle.dpl_halo.specs.Gathering.{IsGathered, every};
ghost use Rattle.dpl_halo.specs.Loans.{lent, loan_with, settled};

use crate::gathered::Gathered;
use dpl_array::DArray;
use dpl_domain::{Domain, Index};
use dpl_map::NoMemory;
use std::alloc::{AllocError, Global};
use std::marker::Model;

/// Elements of an array that are lent, seen as the array's domain and a finite map from indices to values.
#[derive(Drop)]
pub struct Loan<T> {
    gathered: Gathered<T>,
}

impl<T> Model for Loan<T> {
    ghost use Rattle.dpl_halo.specs.Loans.{LoanValue};

    ghost Value = { LoanValue T };

    ghost view = { λ l. record { domain = l.gathered.domain; elements = l.gathered.elements } };
}

impl<T: Copy> Loan<T> {
    /// A loan of the elements of an array whose index is in one of these domains. Each is lent once, also where several of
    /// the domains have its index.
    ///
    /// # Errors
    /// Out of memory for the elements.
    pub fn collect(
        alloc: Global,
        array: &DArray<T>,
        domains: &[Domain],
    ) -> Result<Loan<T>, NoMemory>
        ensures { IfOk result (λ l. l ≡ lent array.now domains.now) }
    {
        let mut gathered = Gathered::new(alloc, array.domain());
        for domain in domains {
            lend(&mut gathered, array, domain)?;
        }
        // That the elements are those at their own indices is a clause of this call.
        let _ = gathered.domain();
        Ok(Loan { gathered })
    }

    /// The domain of the array.
    pub fn domain(&self) -> Domain
        ensures { result ≡ self.now.domain }
    {
        self.gathered.domain()
    }

    /// How many elements are lent.
    pub fn len(&self) -> usize
        ensures { result ≡ length self.now.elements }
    {
        self.gathered.len()
    }

    /// The value at an index, if its element is lent.
    pub fn get(&self, index: Index) -> Option<T>
        ensures { result ≡ value_at index self.now.elements }
    {
        self.gathered.get(index)
    }

    /// Puts a value at an index, if its element is lent. False if it isn't, and then nothing is changed.
    pub fn set(&mut self, index: Index, value: T) -> bool
        ensures there { result ≡ is_some (value_at index self.old.elements) }
        ensures changes { self.new ≡ loan_with index value self.old }
        ensures unchanged { result ≡ false → self.new ≡ self.old }
    {
        self.gathered.set(index, value)
    }

    /// Sets each element of an array that is lent to its value in the loan, and no other. The array is one over a domain with
    /// the indices of that from which was lent, however it is written; its domain and its map stay.
    pub fn settle(self, array: &mut DArray<T>)
        requires { indices self.domain ≡ indices array.old.domain }
        ensures { array.new ≡ settled self array.old }
    {
        // That an array has a value at each of its indices is a clause of this call.
        let _ = array.domain();
        let mut left = self.gathered;
        while let Some(element) = left.pop() {
            array.set(element.0, element.1);
        }
    }
}

// Adds what an array holds at the indices of a domain.
fn lend<T: Copy>(
    gathered: &mut Gathered<T>,
    array: &DArray<T>,
    domain: &Domain,
) -> Result<(), AllocError>
    requires { gathered.old.domain ≡ array.now.domain }
    ensures domain { gathered.new.domain ≡ gathered.old.domain }
    ensures gathered { OnOk result ((seen : List (List ℤ)) → IsGathered array.now every seen gathered.old
        → IsGathered array.now every (seen ++ indices domain.now) gathered.new) }
{
    let mut left = domain.cursor();
    while let Some(index) = left.next() {
        gathered.gather(array, index)?;
    }
    Ok(())
}
