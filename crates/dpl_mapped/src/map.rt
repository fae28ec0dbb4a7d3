// What may stand behind `dmapped`, beside a domain of some rank, and the typed map that it is.
// C5 stands at the word of the map; where the domain has no type, its rank isn't asked.

ghost use Rattle.std.specs.Prelude.{◌≡◌, None, IfOk, OnOk};
ghost use Rattle.dpl_rules.specs.Breaches.{least_from};
ghost use Rattle.dpl_rules.specs.Deeds.{item_deeds, map_deeds, mapped_deeds};
ghost use Rattle.dpl_rules.specs.Maps.{box_of as box_of_rank, box_breaches, map_breaches, mapped_breaches};
ghost use Rattle.dpl_tree.specs.Declarations.{optional, map_view as map_tree, mapped_view};
ghost use Rattle.dpl_tree.specs.View.{item_view};
ghost use Rattle.dpl_typed.specs.Typed.{types_of};
ghost use Rattle.dpl_deeds.specs.View.{Adds};
ghost use Rattle.dpl_mapped.specs.Made.{IsBox, MakesBox, MakesMap};
ghost use Rattle.dpl_mapped.specs.Named.{IsPlainMapped, IsMappedAs};

use crate::rank::owed_rank;
use crate::start::start;
use dpl_deeds::inner::inner_reductions;
use dpl_deeds::{Deed, behind};
use dpl_elaborator::expression::item_part;
use dpl_nodes::{DomainExpr, MapExpr};
use dpl_scopes::Scopes;
use dpl_syntax::{Breach, Code, Place};
use dpl_tree::{Arena, Item, Map, Mapped};
use dpl_typed::{Part, Typed};
use dpl_types::note;
use std::alloc::AllocError;

// A box is a domain of the rank.
fn box_of<'t>(
    rank: Option<usize>,
    word: Place,
    part: Part<'t>,
    first: &mut Option<Breach>,
) -> Option<&'t DomainExpr<'t>>
    ensures told { first.new ≡ least_from first.old (box_of_rank rank word part.entry.at (types_of part.entry.found)) }
    ensures node { IsBox part.entry.found result }
{
    let Some(t) = part.found else {
        return None;
    };
    match t {
        Typed::Domain {
            rank: found,
            node,
            ..
        } => {
            owed_rank(rank, found, word, first);
            Some(node)
        }
        Typed::Int(_)
        | Typed::Truth(_)
        | Typed::Range { .. }
        | Typed::Array { .. }
        | Typed::Ints(_, _)
        | Typed::Truths(_, _)
        | Typed::Tuple { .. }
        | Typed::Locale
        | Typed::AllLocales
        | Typed::Cell(_) => {
            note(first, part.at, Code::WrongType);
            None
        }
    }
}

// The box of a block map.
#[tactic(auto, using(dpl_types::proofs::Breaches::least_from_append))]
fn boxed<'t>(
    arena: Arena<'t>,
    scopes: &Scopes<'t>,
    rank: Option<usize>,
    word: Place,
    written: &Item<'_>,
    deeds: &mut Vec<Deed<'t>>,
    first: &mut Option<Breach>,
) -> Result<Option<&'t DomainExpr<'t>>, AllocError>
    ensures told { IfOk result (λ r. first.new ≡ least_from first.old (box_breaches scopes.now rank word (item_view written.now))) }
    ensures node { IfOk result (MakesBox scopes.now (item_view written.now) first.new) }
    ensures deeds { OnOk result (Adds (item_deeds scopes.now (item_view written.now)) deeds.old.items deeds.new.items) }
{
    let Ok(part) = item_part(arena, scopes, written, deeds, first) else {
        return Err(AllocError);
    };
    Ok(box_of(rank, word, part, first))
}

// A map, beside a domain of a rank.
#[tactic(auto, using(dpl_types::proofs::Breaches::least_from_append, dpl_deeds::proofs::Steps::added_then))]
fn map<'t>(
    arena: Arena<'t>,
    scopes: &Scopes<'t>,
    rank: Option<usize>,
    written: &Map<'_>,
    deeds: &mut Vec<Deed<'t>>,
    first: &mut Option<Breach>,
) -> Result<Option<MapExpr<'t>>, AllocError>
    ensures told { IfOk result (λ r. first.new ≡ least_from first.old (map_breaches scopes.now rank (map_tree written.now))) }
    ensures node { IfOk result (MakesMap scopes.now rank (map_tree written.now) first.new) }
    ensures deeds { OnOk result (Adds (map_deeds scopes.now (map_tree written.now)) deeds.old.items deeds.new.items) }
{
    match written {
        Map::Block(map) => {
            let Ok(made) = boxed(
                arena,
                scopes,
                rank,
                map.word,
                &map.bounding_box,
                deeds,
                first,
            ) else {
                return Err(AllocError);
            };
            let Some(bounding_box) = made else {
                return Ok(None);
            };
            Ok(Some(MapExpr::Block(bounding_box)))
        }
        Map::Cyclic(map) => {
            let Ok(made) = start(arena, scopes, rank, map.word, &map.start, deeds, first) else {
                return Err(AllocError);
            };
            let Some(from) = made else {
                return Ok(None);
            };
            Ok(Some(MapExpr::Cyclic(from)))
        }
        Map::BlockCyclic(map) => {
            let Ok(from) = start(arena, scopes, rank, map.word, &map.start, deeds, first) else {
                return Err(AllocError);
            };
            let Ok(sizes) = start(arena, scopes, rank, map.word, &map.size, deeds, first) else {
                return Err(AllocError);
            };
            let Some(from) = from else {
                return Ok(None);
            };
            let Some(sizes) = sizes else {
                return Ok(None);
            };
            Ok(Some(MapExpr::BlockCyclic(from, sizes)))
        }
    }
}

/// What stands behind `dmapped`, if anything does, whose arguments hold no reduction (C9), beside a domain whose rank may be known;
/// and the map that it is. One that is broken, or needs what doesn't run, has no map, or some stand-in: of such a map nothing is said.
///
/// # Errors
/// Out of memory; of what was told and done then nothing is said.
pub fn mapped<'t>(
    arena: Arena<'t>,
    scopes: &Scopes<'t>,
    rank: Option<usize>,
    written: &Option<Mapped<'_>>,
    deeds: &mut Vec<Deed<'t>>,
    first: &mut Option<Breach>,
) -> Result<Option<&'t MapExpr<'t>>, AllocError>
    ensures told { IfOk result (λ r. first.new ≡ least_from first.old (mapped_breaches scopes.now rank (optional mapped_view written.now))) }
    ensures node { IfOk result (λ r. first.new ≡ None → IsPlainMapped scopes.now rank (optional mapped_view written.now)
        → IsMappedAs scopes.now (optional mapped_view written.now) r) }
    ensures deeds { OnOk result (Adds (mapped_deeds scopes.now (optional mapped_view written.now)) deeds.old.items deeds.new.items) }
{
    let Some(mapped) = written else {
        return Ok(None);
    };
    let start = deeds.len();
    let Ok(made) = map(arena, scopes, rank, &mapped.map, deeds, first) else {
        return Err(AllocError);
    };
    inner_reductions(behind(deeds.as_slice(), start), first);
    let Some(named) = made else {
        return Ok(None);
    };
    match arena.node(named) {
        Ok(here) => Ok(Some(here)),
        Err(_) => Err(AllocError),
    }
}
