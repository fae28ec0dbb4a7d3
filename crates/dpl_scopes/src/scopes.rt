// The scopes that are open, with their names.
// What opens a scope and what declares a name is a mark on one list, and a map has where on it each name was declared last.

ghost use Rattle.std.specs.Prelude.{◌≡◌, OnOk, OnErr, IfOk, [], ◌∷◌, length, drop, reverse, slice_get, option_map};
ghost use Rattle.dpl_rules.specs.Sights.{Declared as Declaration, lookup, declared_here, enter, add, origin_in};
ghost use Rattle.dpl_scopes.specs.Types.{of_type};
ghost use Rattle.dpl_scopes.specs.Marks.{unmarked_by, scopes_by, AreKept};
ghost use Rattle.dpl_scopes.specs.Slots.{next_slot_in, slot_in};
ghost use Rattle.dpl_scopes.specs.View.{sort_view, declared_view};

use crate::{Declared, Origin, Sort, ValueType};
use indexmap::IndexMap;
use std::alloc::{AllocError, Global};
use std::marker::Model;

/// What was done to the scopes and isn't undone yet.
#[derive(Clone, Copy)]
pub enum Mark<'t> {
    /// A scope was opened.
    Opens,
    /// A name was declared.
    Declares(Entry<'t>),
}

/// A declaration, and the place of the one that it hides, if it hides one.
#[derive(Clone, Copy)]
pub struct Entry<'t> {
    pub declared: Declared<'t>,
    pub hidden: Option<usize>,
}

/// Scopes that are open, the innermost first, with the names that are declared in each.
#[derive(Drop)]
pub struct Scopes<'t> {
    // What opened the scopes and declared their names, in order.
    marks: Vec<Mark<'t>>,
    // Which of the marks is the innermost declaration of a name; none, if the name is out of sight again.
    places: IndexMap<&'t [u8], Option<usize>>,
    // How many scopes are open.
    depth: usize,
}

impl<'t> Model for Scopes<'t> {
    ghost use Rattle.std.specs.Prelude.{reverse};
    ghost use Rattle.dpl_rules.specs.Sights.{Scopes as Open};
    ghost use Rattle.dpl_scopes.specs.Marks.{scopes_by};
    ghost use Rattle.dpl_scopes.specs.Kept.{IsKept};

    ghost Value = { Open };

    ghost view = { λ s. scopes_by (reverse s.marks.items) };

    ghost invariant = { λ s. IsKept s.marks.items s.places s.depth };
}

// How many scopes are open that no mark opened: one, if the first declaration opened it.
fn unmarked(marks: &[Mark<'_>]) -> usize
    ensures { result ≡ unmarked_by (slice_get marks.now 0) }
{
    match marks.first() {
        Some(Mark::Declares(_)) => 1,
        Some(Mark::Opens) | None => 0,
    }
}

impl<'t> Scopes<'t> {
    /// One open scope with no names.
    ///
    /// # Errors
    /// Out of memory.
    pub fn new(alloc: Global) -> Result<Scopes<'t>, AllocError>
        ensures { IfOk result (λ scopes. scopes ≡ [] ∷ []) }
    {
        let mut scopes = Scopes {
            marks: Vec::new(alloc),
            places: IndexMap::new(alloc),
            depth: 0,
        };
        scopes.enter()?;
        Ok(scopes)
    }

    /// Opens a scope inside of the innermost.
    ///
    /// # Errors
    /// Out of memory; the scopes are then as they were.
    pub fn enter(&mut self) -> Result<(), AllocError>
        ensures ok { OnOk result (self.new ≡ enter self.old) }
        ensures err { OnErr result (self.new ≡ self.old) }
    {
        self.marks.push(Mark::Opens)?;
        self.depth += 1;
        Ok(())
    }

    /// Closes the innermost scope: its names are out of sight, and what they hid is seen again. Where no scope is open, nothing
    /// changes.
    pub fn leave(&mut self)
        ensures { self.new ≡ drop 1 self.old }
    {
        while let Some(Mark::Declares(entry)) = self.marks.pop() {
            if let Some(place) = self.places.get_mut(&entry.declared.origin.name) {
                *place = entry.hidden;
            }
        }
        self.depth = self.depth.saturating_sub(1);
    }

    /// Declares a name in the innermost scope. A name may be declared there already; the later declaration is found.
    /// Where no scope is open, the declaration has depth 0, and opens one.
    ///
    /// # Errors
    /// Out of memory; the scopes are then as they were.
    pub fn declare(
        &mut self,
        name: &'t [u8],
        sort: Sort,
        value_type: Option<ValueType<'t>>,
    ) -> Result<(), AllocError>
        ensures ok { OnOk result (self.new
            ≡ add (record { origin = origin_in self.old name.now; sort = sort_view sort; type = of_type value_type.entry }) self.old) }
        ensures err { OnErr result (self.new ≡ self.old) }
    {
        let slot = self.next_slot();
        self.marks.reserve(1)?;
        let hidden = self.places.insert(name, Some(self.marks.len()))?.flatten();
        let origin = Origin {
            name,
            depth: self.depth,
        };
        let declared = Declared {
            origin,
            sort,
            value_type,
            slot,
        };
        self.marks
            .push(Mark::Declares(Entry { declared, hidden }))
            .unwrap();
        self.depth = self.depth.max(1);
        Ok(())
    }

    /// The innermost declaration of a name, if one is in sight.
    pub fn lookup(&self, name: &[u8]) -> Option<Declared<'t>>
        ensures declared { option_map declared_view result ≡ lookup self.now name.now }
        ensures slot { option_map (λ d. d.slot) result ≡ slot_in self.now name.now }
    {
        let place = (*self.places.get(&name)?)?;
        match self.marks.get(place)? {
            Mark::Declares(entry) => Some(entry.declared),
            Mark::Opens => None,
        }
    }

    /// The slot that the next declaration gets.
    pub fn next_slot(&self) -> usize
        ensures { result ≡ next_slot_in self.now }
    {
        (self.marks.len() + unmarked(&self.marks)).max(1)
    }

    /// Whether a name is declared in the innermost scope.
    pub fn declared_here(&self, name: &[u8]) -> bool
        ensures { result ≡ declared_here self.now name.now }
    {
        match self.lookup(name) {
            // What has depth 0 is in the scope that it opened.
            Some(declared) => declared.origin.depth.max(1) == self.depth,
            None => false,
        }
    }

    /// What opened the scopes and declared their names, in order.
    pub fn marks(&self) -> &[Mark<'t>]
        ensures open { scopes_by (reverse result.now) ≡ self.now }
        ensures kept { AreKept (reverse result.now) }
    {
        self.marks.as_slice()
    }

    /// How many scopes are open.
    pub fn depth(&self) -> usize
        ensures { result ≡ length self.now }
    {
        self.depth
    }
}
