// Deeds: the names and elements that a text reads and writes, and what it holds.
// specs/View.antt gives the deed of the language's check that each stands for.

ghost use Rattle.std.specs.Prelude.{◌≡◌, OnOk, [], ◌∷◌, take, drop};
ghost use Rattle.dpl_rules.specs.Deeds.{held as held_of, held_if as held_if_of};
ghost use Rattle.dpl_deeds.specs.View.{holding_view, deed_view, Adds};

use dpl_scopes::Declared;
use dpl_syntax::Place;
use dpl_tree::Assign;
use std::alloc::AllocError;

/// Deeds were put behind those in a list, or out of memory.
pub type Added = Result<(), AllocError>;

/// An index of an element, as far as the text tells it.
#[derive(Clone, Copy)]
pub enum IndexPart<'t> {
    /// A name.
    AtName(Declared<'t>),
    /// A name, and the number that is added to it.
    Ahead(Declared<'t>, i64),
    /// A name, and the number that is subtracted from it.
    Behind(Declared<'t>, i64),
    /// Anything else.
    Elsewhere,
}

/// What a body may hold that a loop forbids.
#[derive(Clone, Copy)]
pub enum Holding {
    Print,
    Forall,
    Coforall,
    Reduction,
    CellCall,
    On,
    Here,
    /// A declaration of an array, a domain or a cell.
    Declaration,
    ReduceIntent,
}

/// What a part of a program does, with its place. Each name stands with the declaration that it stands for there.
#[derive(Clone, Copy)]
pub enum Deed<'t> {
    /// A name is read.
    Reads(Place, Declared<'t>),
    /// An element of an array is read, at these indices.
    ReadsAt(Place, Declared<'t>, &'t [IndexPart<'t>]),
    /// A name is assigned.
    Writes(Place, Declared<'t>, Assign),
    /// An element of an array is assigned, at these indices.
    WritesAt(Place, Declared<'t>, &'t [IndexPart<'t>], Assign),
    /// The text holds something.
    Holds(Place, Holding),
}

/// Puts a deed behind those in a list.
///
/// # Errors
/// Out of memory; of the list then nothing is said.
pub fn put<'t>(deed: Deed<'t>, deeds: &mut Vec<Deed<'t>>) -> Added
    ensures { OnOk result (Adds (deed_view deed.entry ∷ []) deeds.old.items deeds.new.items) }
{
    deeds.push(deed)?;
    Ok(())
}

/// The text holds something.
///
/// # Errors
/// Out of memory; of the list then nothing is said.
pub fn held(at: Place, holding: Holding, deeds: &mut Vec<Deed<'_>>) -> Added
    ensures { OnOk result (Adds (held_of at (holding_view holding)) deeds.old.items deeds.new.items) }
{
    put(Deed::Holds(at, holding), deeds)
}

/// The text holds something where a test holds.
///
/// # Errors
/// Out of memory; of the list then nothing is said.
pub fn held_if(holds: bool, at: Place, holding: Holding, deeds: &mut Vec<Deed<'_>>) -> Added
    ensures { OnOk result (Adds (held_if_of holds at (holding_view holding)) deeds.old.items deeds.new.items) }
{
    if holds {
        held(at, holding, deeds)
    } else {
        Ok(())
    }
}

/// The first so many deeds.
pub fn before<'a, 't>(deeds: &'a [Deed<'t>], upto: usize) -> &'a [Deed<'t>]
    ensures { result.now ≡ take upto deeds.now }
{
    &deeds[..upto.min(deeds.len())]
}

/// The deeds behind the first so many.
pub fn behind<'a, 't>(deeds: &'a [Deed<'t>], start: usize) -> &'a [Deed<'t>]
    ensures { result.now ≡ drop start deeds.now }
{
    &deeds[start.min(deeds.len())..]
}
