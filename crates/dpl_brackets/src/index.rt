// Indices of arrays, and of what a range or a domain contains: as many ints as the rank, or one tuple name of that rank.
// C5 stands at the last token before the opening bracket, and looks at the number of the parts alone.

ghost use Rattle.std.specs.Prelude.{◌≡◌, true, IfOk, map};
ghost use Rattle.dpl_language.specs.Tree.{Items};
ghost use Rattle.dpl_memory.specs.Memory.{Variable};
ghost use Rattle.dpl_nodes.specs.Typed.{array_named, in_square};
ghost use Rattle.dpl_rules.specs.Operators.{single_index as single_index_of, index_breaches as index_breaches_of, element_verdict};
ghost use Rattle.dpl_rules.specs.Verdicts.{all_known as all_known_of};
ghost use Rattle.dpl_types.specs.Owes.{Owes};
ghost use Rattle.dpl_typed.specs.Typed.{types_of, part_view, is_rank};
ghost use Rattle.dpl_typed.specs.Stands.{StandsFor, AreItems};
ghost use Rattle.dpl_typed.specs.Told.{Judges};
ghost use Rattle.dpl_brackets.specs.Parts.{Passes};

use crate::coordinates::index_of;
use dpl_nodes::{BoolExpr, IntExpr, Spot};
use dpl_syntax::{Breach, Code, Place};
use dpl_tree::{Arena, ScalarKind};
use dpl_typed::node::{int, truth};
use dpl_typed::part::{all_known, each_wanted};
use dpl_typed::{Made, Part};
use dpl_types::{Want, owed, wrong_rank};
use std::alloc::AllocError;

/// A whole array by its name: the kind of its elements, the rank of its domain, its slot and its name's place.
#[derive(Clone, Copy)]
pub struct Whole<'t> {
    pub kind: ScalarKind,
    pub rank: usize,
    pub slot: usize,
    pub at: &'t Spot,
}

// A single part of an index: a tuple name of the rank, or an int where the rank is 1.
fn single_index(last: Place, rank: usize, part: Part<'_>, first: &mut Option<Breach>) -> bool
    ensures { Owes (single_index_of last rank part.entry.at (types_of part.entry.found)) result first.old first.new }
{
    let Some(t) = part.found else {
        return true;
    };
    let t = t.value_type();
    match t.tuple() {
        Some(count) => owed(count == rank, last, Code::WrongRank, first),
        None => {
            if rank == 1 {
                owed(t.is_int(), part.at, Code::WrongType, first)
            } else {
                wrong_rank(last, first)
            }
        }
    }
}

// As many ints as the rank, or one tuple name of that rank.
fn index(last: Place, rank: usize, parts: &[Part<'_>], first: &mut Option<Breach>) -> bool
    ensures { Owes (index_breaches_of last rank (map part_view parts.now)) result first.old first.new }
{
    match parts {
        [] => wrong_rank(last, first),
        [part] => single_index(last, rank, *part, first),
        _ => {
            if parts.len() == rank {
                each_wanted(Want::Int, parts, first)
            } else {
                wrong_rank(last, first)
            }
        }
    }
}

/// Whether parts are an index of a rank; else what they break is told.
pub fn is_index(last: Place, rank: usize, parts: &[Part<'_>], first: &mut Option<Breach>) -> bool
    ensures { Passes (all_known_of (map part_view parts.now)) (index_breaches_of last rank (map part_view parts.now)) result first.old first.new }
{
    let holds = index(last, rank, parts, first);
    all_known(parts) && holds
}

/// An element of an array; an index outside the array is told at its name.
///
/// # Errors
/// Out of memory; of what was told then nothing is said.
pub fn element<'t>(
    arena: Arena<'t>,
    last: Place,
    array: Whole<'t>,
    parts: &[Part<'t>],
    first: &mut Option<Breach>,
) -> Made<'t>
    ensures told { IfOk result (λ r. Judges (element_verdict last array.entry.kind array.entry.rank (map part_view parts.now)) r first.old first.new) }
    ensures node { IfOk result (λ r. (is : Items Variable) → is_rank array.entry.rank ≡ true → AreItems parts.now is
        → StandsFor r (λ m. in_square (array_named array.entry.kind array.entry.slot array.entry.at.now) is)) }
{
    if !is_index(last, array.rank, parts, first) {
        return Ok(None);
    }
    let Ok(index) = index_of(arena, parts) else {
        return Err(AllocError);
    };
    match array.kind {
        ScalarKind::Int => int(arena, IntExpr::Element(array.slot, index, array.at)),
        ScalarKind::Bool => truth(arena, BoolExpr::Element(array.slot, index, array.at)),
    }
}
