// What a program leaves: the variables of its top level.
// They are seen as the language's frame, in order of declaration; arrays stay where the run had them.

ghost use Rattle.std.specs.Prelude.{◌≡◌, IfOk, map, get_or, length, slice_get, option_map};
ghost use Rattle.dpl_memory.specs.Memory.{no_array};
ghost use Rattle.dpl_frame.specs.Frames.{held_in};
ghost use Rattle.dpl_outcome.specs.Leaving.{in_frame, variable_view, value_view, content_kept, entry_kept};

use dpl_array::ArrayFault;
use dpl_contents::ArrayWords;
use dpl_frame::{DomainWord, RangeWord};
use dpl_map::Map;
use std::alloc::{AllocError, Global};
use std::marker::Model;

/// What a variable holds.
#[derive(Clone, Copy)]
pub enum Value<'l> {
    /// An int.
    Int(i64),
    /// `true` or `false`.
    Bool(bool),
    /// A range, with its members in order.
    Range(RangeWord),
    /// A domain, with a range for each of its dimensions.
    Domain(DomainWord),
    /// An array of ints.
    Ints(&'l ArrayWords),
    /// An array of truth values, of which the word 0 is `false` and each other `true`.
    Bools(&'l ArrayWords),
}

/// A variable of the top level, with the value that it has when the run ends.
#[derive(Clone, Copy)]
pub struct Variable<'l> {
    /// The bytes of the name that it is declared by.
    pub name: &'l [u8],
    /// Its last value.
    pub value: Value<'l>,
}

// What is kept of a variable: its value, or the slot of its array.
#[derive(Clone, Copy)]
pub(crate) enum Kept {
    Int(i64),
    Bool(bool),
    Range(RangeWord),
    Domain(DomainWord),
    Ints(usize),
    Bools(usize),
}

// A variable by its name.
#[derive(Drop)]
pub(crate) struct Named {
    pub name: Vec<u8>,
    pub kept: Kept,
}

/// The variables that a program leaves.
#[derive(Drop)]
pub struct Left {
    arrays: Vec<Option<ArrayWords>>,
    // what a slot without an array holds
    none: ArrayWords,
    named: Vec<Named>,
}

impl Model for Left {
    ghost use Rattle.dpl_language.specs.Names.{Frame};

    ghost Value = { Frame };

    ghost use Rattle.std.specs.Prelude.{◌≡◌, map};
    ghost use Rattle.dpl_memory.specs.Memory.{no_array};
    ghost use Rattle.dpl_frame.specs.Frames.{held_in};
    ghost use Rattle.dpl_outcome.specs.Leaving.{entry_kept};

    ghost view = { λ left. map (entry_kept (map held_in left.arrays.items)) left.named.items };

    ghost invariant = { λ left. left.none ≡ no_array };
}

// The array that a slot without one holds: over `{1..0}`, with no elements.
fn no_array(alloc: Global) -> Result<ArrayWords, AllocError>
    ensures { IfOk result (λ a. a ≡ no_array) }
{
    match ArrayWords::new(alloc, DomainWord::empty(1), Map::whole(), 0) {
        Ok(array) => Ok(array),
        Err(ArrayFault::Memory | ArrayFault::Size) => Err(AllocError),
    }
}

// The array in a slot.
fn array_in<'l>(
    arrays: &'l [Option<ArrayWords>],
    none: &'l ArrayWords,
    slot: usize,
) -> &'l ArrayWords
    ensures { none.now ≡ no_array → result.now ≡ get_or (map held_in arrays.now) slot no_array }
{
    match arrays.get(slot) {
        Some(Some(array)) => array,
        Some(None) | None => none,
    }
}

// What a variable holds.
fn value_in<'l>(arrays: &'l [Option<ArrayWords>], none: &'l ArrayWords, kept: Kept) -> Value<'l>
    ensures { none.now ≡ no_array → value_view result ≡ content_kept (map held_in arrays.now) kept }
{
    match kept {
        Kept::Int(n) => Value::Int(n),
        Kept::Bool(b) => Value::Bool(b),
        Kept::Range(range) => Value::Range(range),
        Kept::Domain(domain) => Value::Domain(domain),
        Kept::Ints(slot) => Value::Ints(array_in(arrays, none, slot)),
        Kept::Bools(slot) => Value::Bools(array_in(arrays, none, slot)),
    }
}

// What the first variable of a name holds, if there is one.
fn find_in<'l>(
    arrays: &'l [Option<ArrayWords>],
    none: &'l ArrayWords,
    variables: &[Named],
    name: &[u8],
) -> Option<Value<'l>>
    ensures { none.now ≡ no_array → option_map value_view result ≡ in_frame name.now (map (entry_kept (map held_in arrays.now)) variables.now) }
{
    for variable in variables {
        if name == variable.name.as_slice() {
            return Some(value_in(arrays, none, variable.kept));
        }
    }
    None
}

impl Left {
    // These variables, of which the arrays are in slots of these.
    pub(crate) fn new(
        alloc: Global,
        arrays: Vec<Option<ArrayWords>>,
        named: Vec<Named>,
    ) -> Result<Left, AllocError>
        ensures { IfOk result (λ left. left ≡ map (entry_kept (map held_in arrays.items)) named.items) }
    {
        let none = no_array(alloc)?;
        Ok(Left {
            arrays,
            none,
            named,
        })
    }

    /// How many variables there are.
    pub fn len(&self) -> usize
        ensures { result ≡ length self.now }
    {
        self.named.len()
    }

    /// The variable with a number, counted from 0 in order of declaration.
    pub fn variable(&self, number: usize) -> Option<Variable<'_>>
        ensures { option_map variable_view result ≡ slice_get self.now number }
    {
        let named = self.named.get(number)?;
        Some(Variable {
            name: &named.name,
            value: value_in(&self.arrays, &self.none, named.kept),
        })
    }

    /// The value of a name, if it is a variable of the top level.
    pub fn get(&self, name: &[u8]) -> Option<Value<'_>>
        ensures { option_map value_view result ≡ in_frame name.now self.now }
    {
        find_in(&self.arrays, &self.none, &self.named, name)
    }
}
