// Initial values: a name without a type keeps what it is given, and beside a type the value agrees with it.
// A domain may be created there, and a map named, where no type is written.

ghost use Rattle.std.specs.Prelude.{◌≡◌, None, IfOk, OnOk};
ghost use Rattle.dpl_language.specs.Tree.{ItemInit};
ghost use Rattle.dpl_rules.specs.Doings.{init_deeds, initial_deeds};
ghost use Rattle.dpl_rules.specs.Breaches.{least_from};
ghost use Rattle.dpl_rules.specs.Declarations.{is_initial, type_rank as type_rank_of, agreeing as agreeing_of, unmapped as unmapped_of, is_untyped};
ghost use Rattle.dpl_rules.specs.Declarations.{init_part, untyped_breaches, typed_breaches, typed_initial as typed_initial_of};
ghost use Rattle.dpl_rules.specs.Expressions.{side_part};
ghost use Rattle.dpl_rules.specs.Types.{ValueType as ValueTypeTree};
ghost use Rattle.dpl_rules.specs.Verdicts.{owed_type};
ghost use Rattle.dpl_scopes.specs.Types.{type_view, of_type};
ghost use Rattle.dpl_tree.specs.Declarations.{optional, mapped_view, init_view, initial_view};
ghost use Rattle.dpl_tree.specs.View.{item_view};
ghost use Rattle.dpl_types.specs.Wants.{takes};
ghost use Rattle.dpl_deeds.specs.View.{Adds};
ghost use Rattle.dpl_typed.specs.Stands.{StandsForItem};
ghost use Rattle.dpl_typed.specs.Told.{Tells, TellsPart};
ghost use Rattle.dpl_typed.specs.Typed.{types_of, part_view};
ghost use Rattle.dpl_typed.specs.Where.{WhereSimpleItem};
ghost use Rattle.dpl_bound.specs.Run.{side_leaves};
ghost use Rattle.dpl_bound.specs.Sights.{AreKnownScopes};
ghost use Rattle.dpl_declarations.specs.Made.{IsGivenBy, IsBeside, IsInitialBeside};
ghost use Rattle.dpl_declarations.specs.Plain.{IsPlainInit};

use crate::over::over_items;
use crate::placing::{created, placed};
use dpl_assignments::side::side;
use dpl_deeds::Deed;
use dpl_mapped::mapped;
use dpl_nodes::Placing;
use dpl_scopes::{Scopes, ValueType};
use dpl_syntax::{Breach, Code};
use dpl_tree::{Arena, Init, Initial, Item, Mapped};
use dpl_typed::part::wanted;
use dpl_typed::{Made, Part, Typed};
use dpl_types::{Want, note};
use std::alloc::AllocError;

/// An initial value of a name without a type: what it is, as a part of its form, and what it says of a map.
#[derive(Clone, Copy)]
pub(crate) struct Given<'t> {
    pub part: Part<'t>,
    pub placing: Placing<'t>,
}

// What a declared type takes as an initial value.
fn initial_want<'t>(declared: ValueType<'t>) -> Want<'t>
    ensures { (t : ValueTypeTree) → takes result t ≡ is_initial (type_view declared.entry) t }
{
    match declared {
        ValueType::Scalar(kind) | ValueType::Cell(kind) => Want::Scalar(kind),
        ValueType::Domain { rank, .. } => Want::RankedDomain {
            rank,
            may_stride: false,
        },
        ValueType::Array(kind, over) => Want::Given(kind, over),
        ValueType::Range { .. }
        | ValueType::Promoted(_, _)
        | ValueType::Tuple(_)
        | ValueType::Locale
        | ValueType::AllLocales => Want::Nothing,
    }
}

// A declared type takes its initial value.
fn agreeing(declared: Option<ValueType<'_>>, part: Part<'_>, first: &mut Option<Breach>)
    ensures { first.new ≡ least_from first.old (agreeing_of (of_type declared.entry) (part_view part.entry)) }
{
    if let Some(declared) = declared {
        wanted(initial_want(declared), part, first);
    }
}

// Beside a declared type no `dmapped` stands.
fn unmapped(written: &Option<Mapped<'_>>, first: &mut Option<Breach>)
    ensures { first.new ≡ least_from first.old (unmapped_of (optional mapped_view written.now)) }
{
    if let Some(mapped) = written {
        note(first, mapped.at, Code::WrongType);
    }
}

// What is mapped is a domain, and what isn't may be kept.
fn kept(written: &Option<Mapped<'_>>, part: Part<'_>, first: &mut Option<Breach>)
    ensures { first.new ≡ least_from first.old (owed_type (is_untyped (optional mapped_view written.now)) part.entry.at (types_of part.entry.found)) }
{
    match written {
        None => wanted(Want::Kept, part, first),
        Some(_) => wanted(Want::Domain, part, first),
    };
}

// The rank of a domain, where something is one.
fn domain_rank(found: Option<Typed<'_>>) -> Option<usize>
    ensures { result ≡ type_rank_of (types_of found.entry) }
{
    match found {
        Some(Typed::Domain { rank, .. }) => Some(rank),
        _ => None,
    }
}

// An item, with a map or without one, as the initial value of a name without a type.
#[tactic(auto, using(dpl_types::proofs::Breaches::least_from_append, dpl_deeds::proofs::Steps::added_then))]
fn untyped_item<'t>(
    arena: Arena<'t>,
    scopes: &Scopes<'t>,
    written: &Item<'_>,
    map: &Option<Mapped<'_>>,
    deeds: &mut Vec<Deed<'t>>,
    first: &mut Option<Breach>,
) -> Result<Given<'t>, AllocError>
    ensures told { IfOk result (λ g. TellsPart (side_part scopes.now (item_view written.now))
        (untyped_breaches scopes.now (ItemInit (item_view written.now) (optional mapped_view map.now))) g.part first.old first.new) }
    ensures node { IfOk result (λ g. first.new ≡ None → AreKnownScopes scopes.now
        → IsPlainInit scopes.now (ItemInit (item_view written.now) (optional mapped_view map.now))
        → IsGivenBy scopes.now (ItemInit (item_view written.now) (optional mapped_view map.now)) g) }
    ensures deeds { OnOk result (Adds (init_deeds scopes.now (ItemInit (item_view written.now) (optional mapped_view map.now)))
        deeds.old.items deeds.new.items) }
{
    let Ok(part) = side(arena, scopes, written, deeds, first) else {
        return Err(AllocError);
    };
    kept(map, part, first);
    let rank = domain_rank(part.found);
    let Ok(named) = mapped(arena, scopes, rank, map, deeds, first) else {
        return Err(AllocError);
    };
    let placing = placed(named, Placing::Derived);
    Ok(Given { part, placing })
}

/// The initial value of a name without a type.
///
/// # Errors
/// Out of memory; of what was told and done then nothing is said.
pub(crate) fn untyped<'t>(
    arena: Arena<'t>,
    scopes: &Scopes<'t>,
    written: &Init<'_>,
    deeds: &mut Vec<Deed<'t>>,
    first: &mut Option<Breach>,
) -> Result<Given<'t>, AllocError>
    ensures told { IfOk result (λ g. TellsPart (init_part scopes.now (init_view written.now))
        (untyped_breaches scopes.now (init_view written.now)) g.part first.old first.new) }
    ensures node { IfOk result (λ g. first.new ≡ None → AreKnownScopes scopes.now → IsPlainInit scopes.now (init_view written.now)
        → IsGivenBy scopes.now (init_view written.now) g) }
    ensures deeds { OnOk result (Adds (init_deeds scopes.now (init_view written.now)) deeds.old.items deeds.new.items) }
{
    match written {
        Init::Item(item, map) => untyped_item(arena, scopes, item, map, deeds, first),
        Init::Create(create) => {
            let Ok(found) = over_items(arena, scopes, create.from, &create.items, deeds, first)
            else {
                return Err(AllocError);
            };
            let part = Part {
                at: create.at,
                found,
            };
            let placing = created(create.word);
            Ok(Given { part, placing })
        }
    }
}

// An item, with a map or without one, beside a declared type.
#[tactic(auto, using(dpl_types::proofs::Breaches::least_from_append, dpl_deeds::proofs::Steps::added_then))]
fn typed_item<'t>(
    arena: Arena<'t>,
    scopes: &Scopes<'t>,
    declared: Option<ValueType<'t>>,
    written: &Item<'_>,
    map: &Option<Mapped<'_>>,
    deeds: &mut Vec<Deed<'t>>,
    first: &mut Option<Breach>,
) -> Made<'t>
    ensures told { IfOk result (λ r. Tells (side_part scopes.now (item_view written.now)).type
        (typed_breaches scopes.now (of_type declared.entry) (ItemInit (item_view written.now) (optional mapped_view map.now))) r first.old first.new) }
    ensures node { IfOk result (λ r. WhereSimpleItem scopes.now (item_view written.now)
        (StandsForItem r (λ m. side_leaves scopes.now m (item_view written.now)))) }
    ensures deeds { OnOk result (Adds (init_deeds scopes.now (ItemInit (item_view written.now) (optional mapped_view map.now)))
        deeds.old.items deeds.new.items) }
{
    let Ok(part) = side(arena, scopes, written, deeds, first) else {
        return Err(AllocError);
    };
    agreeing(declared, part, first);
    unmapped(map, first);
    let rank = domain_rank(part.found);
    let Ok(_) = mapped(arena, scopes, rank, map, deeds, first) else {
        return Err(AllocError);
    };
    Ok(part.found)
}

// The initial value beside a declared type, with which it agrees.
#[tactic(auto, using(dpl_types::proofs::Breaches::least_from_append))]
fn typed<'t>(
    arena: Arena<'t>,
    scopes: &Scopes<'t>,
    declared: Option<ValueType<'t>>,
    written: &Init<'_>,
    deeds: &mut Vec<Deed<'t>>,
    first: &mut Option<Breach>,
) -> Made<'t>
    ensures told { OnOk result (first.new ≡ least_from first.old (typed_breaches scopes.now (of_type declared.entry) (init_view written.now))) }
    ensures node { IfOk result (λ r. IsBeside scopes.now (init_view written.now) r) }
    ensures deeds { OnOk result (Adds (init_deeds scopes.now (init_view written.now)) deeds.old.items deeds.new.items) }
{
    match written {
        Init::Item(item, map) => typed_item(arena, scopes, declared, item, map, deeds, first),
        Init::Create(create) => {
            let Ok(_) = over_items(arena, scopes, create.from, &create.items, deeds, first) else {
                return Err(AllocError);
            };
            note(first, create.at, Code::WrongType);
            Ok(None)
        }
    }
}

/// The initial value beside a declared type, if one is written.
///
/// # Errors
/// Out of memory; of what was told and done then nothing is said.
pub(crate) fn typed_initial<'t>(
    arena: Arena<'t>,
    scopes: &Scopes<'t>,
    declared: Option<ValueType<'t>>,
    written: &Option<Initial<'_>>,
    deeds: &mut Vec<Deed<'t>>,
    first: &mut Option<Breach>,
) -> Made<'t>
    ensures told { OnOk result (first.new ≡ least_from first.old (typed_initial_of scopes.now (of_type declared.entry) (optional initial_view written.now))) }
    ensures node { IfOk result (λ r. IsInitialBeside scopes.now (optional initial_view written.now) r) }
    ensures deeds { OnOk result (Adds (initial_deeds scopes.now (optional initial_view written.now)) deeds.old.items deeds.new.items) }
{
    match written {
        None => Ok(None),
        Some(initial) => typed(arena, scopes, declared, &initial.init, deeds, first),
    }
}
