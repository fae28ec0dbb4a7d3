// Halos: what a locale reads of an array by shifted reads, and does not own.
// They are gathered before the first turn, so that a worker is lent its own piece and its halo, and no other piece.

ghost use Rattle.std.specs.Prelude.{◌≡◌, ◌∷◌, [], map, flat_map, length, OnOk, IfOk};
ghost use Rattle.dpl_sets.specs.Indices.{indices};
ghost use Rattle.dpl_array.specs.Elements.{value_at};
ghost use Rattle.dpl_halo.specs.Gathering.{AddsForeign};
ghost use Rattle.dpl_halo.specs.Halos.{remote};
ghost use Rattle.dpl_halo.specs.Shifts.{reads, shifted};

use crate::Shift;
use crate::gathered::Gathered;
use crate::turns::{are_owned, narrowed, reach};
use dpl_array::DArray;
use dpl_domain::{Domain, Index};
use dpl_map::{Map, NoMemory};
use dpl_range::LIMIT;
use std::alloc::{AllocError, Global};
use std::marker::Model;

/// The remote elements of a locale for a loop and an array, seen as a finite map from indices to values.
#[derive(Drop)]
pub struct Halo<T> {
    gathered: Gathered<T>,
}

impl<T> Model for Halo<T> {
    ghost use Rattle.dpl_array.specs.Elements.{Elements};

    ghost Value = { Elements T };

    ghost view = { λ h. h.gathered.elements };
}

impl<T: Copy> Halo<T> {
    /// The halo of a locale: of the array's elements those that a shifted read names in one of the locale's turns and that
    /// another locale owns, each once. The turns are the indices that the locale owns of the loop's domain by the loop's map.
    ///
    /// Where the array's map is Block or whole, only the turns that may read outside the locale's own part are looked at: as many as
    /// the boundary of the part has within reach of the shifts, beside a few steps for each shift. By the other maps each turn is
    /// looked at once for each shift.
    ///
    /// # Errors
    /// Out of memory for the elements.
    pub fn collect(
        alloc: Global,
        array: &DArray<T>,
        domain: &Domain,
        map: &Map,
        locale: u32,
        shifts: &[Shift],
    ) -> Result<Halo<T>, NoMemory>
        ensures { IfOk result (λ h. h ≡ remote array.now domain.now map.now locale shifts.now) }
    {
        let parts = map.part(alloc, domain, locale)?;
        let own = own_box(alloc, array, locale)?;
        let mut gathered = Gathered::new(alloc, array.domain());
        read_parts(&mut gathered, array, locale, &own, &parts, shifts)?;
        // That the elements are those at their own indices is a clause of this call.
        let _ = gathered.domain();
        Ok(Halo { gathered })
    }

    /// How many elements there are.
    pub fn len(&self) -> usize
        ensures { result ≡ length self.now }
    {
        self.gathered.len()
    }

    /// The value at an index, if the halo has it.
    pub fn get(&self, index: Index) -> Option<T>
        ensures { result ≡ value_at index self.now }
    {
        self.gathered.get(index)
    }
}

// A box in which the locale's own elements are likely to lie: the first domain of its part, and that of the array where it has none.
fn own_box<T: Copy>(alloc: Global, array: &DArray<T>, locale: u32) -> Result<Domain, NoMemory> {
    let domain = array.domain();
    let own = array.map().part(alloc, &domain, locale)?;
    Ok(own.first().copied().unwrap_or(domain))
}

// Adds what shifted reads name in the turns of some domains and another locale owns.
fn read_parts<T: Copy>(
    gathered: &mut Gathered<T>,
    array: &DArray<T>,
    locale: u32,
    own: &Domain,
    parts: &[Domain],
    shifts: &[Shift],
) -> Result<(), AllocError>
    requires { gathered.old.domain ≡ array.now.domain }
    ensures gathered { OnOk result (AddsForeign array.now locale (flat_map (λ d. reads shifts.now (indices d)) parts.now) gathered.old gathered.new) }
{
    for turns in parts {
        read_all(gathered, array, locale, own, turns, shifts)?;
    }
    Ok(())
}

// Adds what shifted reads name in some turns and another locale owns.
fn read_all<T: Copy>(
    gathered: &mut Gathered<T>,
    array: &DArray<T>,
    locale: u32,
    own: &Domain,
    turns: &Domain,
    shifts: &[Shift],
) -> Result<(), AllocError>
    requires { gathered.old.domain ≡ array.now.domain }
    ensures domain { gathered.new.domain ≡ gathered.old.domain }
    ensures gathered { OnOk result (AddsForeign array.now locale (reads shifts.now (indices turns.now)) gathered.old gathered.new) }
{
    for shift in shifts {
        read(gathered, array, locale, own, turns, shift)?;
    }
    Ok(())
}

// Adds what one shifted read names in some turns and another locale owns. The turns that may read outside the box of the locale's own
// elements are looked at dimension by dimension; the others are not, if the map tells by their corners that the locale owns what
// they read.
fn read<T: Copy>(
    gathered: &mut Gathered<T>,
    array: &DArray<T>,
    locale: u32,
    own: &Domain,
    turns: &Domain,
    shift: &Shift,
) -> Result<(), AllocError>
    requires { gathered.old.domain ≡ array.now.domain }
    ensures domain { gathered.new.domain ≡ gathered.old.domain }
    ensures gathered { OnOk result (AddsForeign array.now locale (map (shifted shift.now) (indices turns.now)) gathered.old gathered.new) }
{
    let mut left = *turns;
    for d in 0..turns.rank() {
        let (low, high) = reach(shift, own, d);
        let below = narrowed(&left, d, -LIMIT, low - 1);
        read_each(gathered, array, locale, &below, shift)?;
        let above = narrowed(&left, d, high + 1, LIMIT);
        read_each(gathered, array, locale, &above, shift)?;
        left = narrowed(&left, d, low, high);
    }
    if are_owned(&array.map(), locale, &left, shift) {
        return Ok(());
    }
    read_each(gathered, array, locale, &left, shift)?;
    Ok(())
}

// The same, with a look at each turn.
fn read_each<T: Copy>(
    gathered: &mut Gathered<T>,
    array: &DArray<T>,
    locale: u32,
    turns: &Domain,
    shift: &Shift,
) -> Result<(), AllocError>
    requires { gathered.old.domain ≡ array.now.domain }
    ensures domain { gathered.new.domain ≡ gathered.old.domain }
    ensures gathered { OnOk result (AddsForeign array.now locale (map (shifted shift.now) (indices turns.now)) gathered.old gathered.new) }
{
    let mut left = turns.cursor();
    while let Some(turn) = left.next() {
        gather_foreign(gathered, array, locale, shift.index(turn))?;
    }
    Ok(())
}

// Adds what an array holds at an index that another locale owns.
fn gather_foreign<T: Copy>(
    gathered: &mut Gathered<T>,
    array: &DArray<T>,
    locale: u32,
    index: Index,
) -> Result<(), AllocError>
    requires { gathered.old.domain ≡ array.now.domain }
    ensures domain { gathered.new.domain ≡ gathered.old.domain }
    ensures gathered { OnOk result (AddsForeign array.now locale (index ∷ []) gathered.old gathered.new) }
{
    if array.map().owner(index) == locale {
        return Ok(());
    }
    gathered.gather(array, index)?;
    Ok(())
}
