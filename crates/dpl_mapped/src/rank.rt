// The rank of what is mapped, where it is known; and an int, which is an index of rank 1.
// C5 stands at the word of the map.

ghost use Rattle.std.specs.Prelude.{◌≡◌, IfOk};
ghost use Rattle.dpl_rules.specs.Breaches.{least_from};
ghost use Rattle.dpl_rules.specs.Maps.{owed_rank as owed_rank_of, int_start as int_start_of};
ghost use Rattle.dpl_typed.specs.Typed.{types_of};
ghost use Rattle.dpl_mapped.specs.Made.{IsIntStart};

use dpl_nodes::{IndexExpr, StartExpr};
use dpl_syntax::{Breach, Code, Place};
use dpl_tree::Arena;
use dpl_typed::{Part, Typed};
use dpl_types::{note, owed};
use std::alloc::AllocError;

/// A rank, where it is known.
pub(crate) fn owed_rank(rank: Option<usize>, found: usize, word: Place, first: &mut Option<Breach>)
    ensures { first.new ≡ least_from first.old (owed_rank_of rank found word) }
{
    if let Some(rank) = rank {
        owed(found == rank, word, Code::WrongRank, first);
    }
}

/// An int starts a map of rank 1.
///
/// # Errors
/// Out of memory.
pub(crate) fn int_start<'t>(
    arena: Arena<'t>,
    rank: Option<usize>,
    word: Place,
    part: Part<'t>,
    first: &mut Option<Breach>,
) -> Result<Option<StartExpr<'t>>, AllocError>
    ensures told { IfOk result (λ r. first.new ≡ least_from first.old (int_start_of rank word part.entry.at (types_of part.entry.found))) }
    ensures node { IfOk result (λ r. IsIntStart part.entry.found r) }
{
    let Some(t) = part.found else {
        return Ok(None);
    };
    match t {
        Typed::Int(e) => {
            owed_rank(rank, 1, word, first);
            match arena.node(IndexExpr::Line(e)) {
                Ok(index) => Ok(Some(StartExpr::Index(index))),
                Err(_) => Err(AllocError),
            }
        }
        Typed::Truth(_)
        | Typed::Range { .. }
        | Typed::Domain { .. }
        | Typed::Array { .. }
        | Typed::Ints(_, _)
        | Typed::Truths(_, _)
        | Typed::Tuple { .. }
        | Typed::Locale
        | Typed::AllLocales
        | Typed::Cell(_) => {
            note(first, part.at, Code::WrongType);
            Ok(None)
        }
    }
}
