// Declarations without a type, and of each type: what each gives its name, and the step that it is.
// `config const` is an int or a bool. A cell runs nowhere yet.

ghost use Rattle.std.specs.Prelude.{◌≡◌, ◌++◌, nat_le, ◌&&◌, IfOk, OnOk, None, Some};
ghost use Rattle.dpl_language.specs.Declarations.{type_of};
ghost use Rattle.dpl_language.specs.Phrases.{natural as natural_of};
ghost use Rattle.dpl_language.specs.Tree.{ScalarType, SyncType, DomainType as DomainTypeTree, ArrayType as ArrayTypeTree};
ghost use Rattle.dpl_rules.specs.Doings.{type_deeds, initial_deeds};
ghost use Rattle.dpl_rules.specs.Breaches.{least_from};
ghost use Rattle.dpl_rules.specs.Types.{is_any_scalar};
ghost use Rattle.dpl_rules.specs.Verdicts.{breach, owed as owed_of, where_given, wanted as wanted_of};
ghost use Rattle.dpl_syntax.specs.declared.place.Place.{Place as PlaceNode};
ghost use Rattle.dpl_syntax.specs.declared.refusal.Code.TheVariants.{WrongType as WrongTypeCode, WrongRank as WrongRankCode};
ghost use Rattle.dpl_tree.specs.Declarations.{domain_type_view, array_type_view, declare_view};
ghost use Rattle.dpl_deeds.specs.View.{Adds};
ghost use Rattle.dpl_typed.specs.Typed.{part_view};
ghost use Rattle.dpl_declarations.specs.Plain.{IsPlainAs};
ghost use Rattle.dpl_declarations.specs.Told.{TellsAs};
ghost use Rattle.dpl_declarations.specs.Trees.{IsFoundAs};

use crate::array::array;
use crate::found::Found;
use crate::initial::{typed_initial, untyped};
use crate::over::{array_type, over_items};
use crate::placing::placed;
use crate::single::{begun, domain, or_default};
use dpl_deeds::Deed;
use dpl_mapped::mapped;
use dpl_nodes::{Placing, Step};
use dpl_scopes::{Origin, Scopes, ValueType};
use dpl_syntax::{Breach, Code, Place};
use dpl_tree::{Arena, ArrayType, Declare, DeclaredType, DomainType, ScalarKind};
use dpl_typed::Part;
use dpl_typed::found::type_found;
use dpl_typed::part::wanted;
use dpl_types::{Want, note, owed};
use std::alloc::AllocError;

// A number of a text as a rank.
fn natural(number: i64) -> usize
    ensures { result ≡ natural_of number }
{
    if number < 0 { 0 } else { number as usize }
}

// The rank of a domain's type: 1 to 3.
fn ranked(written: &DomainType<'_>, first: &mut Option<Breach>) -> usize
    ensures rank { result ≡ (domain_type_view written.now).rank }
    ensures told { first.new ≡ least_from first.old
        (owed_of (nat_le 1 (domain_type_view written.now).rank && nat_le (domain_type_view written.now).rank 3) written.now.rank_at WrongRankCode) }
{
    let rank = natural(written.rank);
    owed(
        1 <= rank && rank <= 3,
        written.rank_at,
        Code::WrongRank,
        first,
    );
    rank
}

// A `config const` without a type begins with an int or a bool.
fn configured(config: Option<Place>, part: Part<'_>, first: &mut Option<Breach>)
    ensures { first.new ≡ least_from first.old (where_given config (λ (c : PlaceNode). wanted_of is_any_scalar (part_view part.entry))) }
{
    if let Some(_) = config {
        wanted(Want::AnyScalar, part, first);
    }
}

// None is of a type that is neither.
fn unconfigured(config: Option<Place>, at: Place, first: &mut Option<Breach>)
    ensures { first.new ≡ least_from first.old (where_given config (λ (c : PlaceNode). breach at WrongTypeCode)) }
{
    if let Some(_) = config {
        note(first, at, Code::WrongType);
    }
}

// A name without a type.
#[tactic(auto, using(dpl_types::proofs::Breaches::least_from_append))]
fn untyped_name<'t>(
    arena: Arena<'t>,
    scopes: &Scopes<'t>,
    written: &Declare<'_>,
    deeds: &mut Vec<Deed<'t>>,
    first: &mut Option<Breach>,
) -> Result<Found<'t>, AllocError>
    ensures told { IfOk result (λ f. TellsAs scopes.now (declare_view written.now) None f first.old first.new) }
    ensures node { IfOk result (λ f. first.new ≡ None → IsPlainAs scopes.now (declare_view written.now) None
        → IsFoundAs scopes.now (declare_view written.now) None f) }
    ensures deeds { OnOk result (Adds (initial_deeds scopes.now (declare_view written.now).initial) deeds.old.items deeds.new.items) }
{
    match &written.initial {
        None => Ok(Found {
            value_type: None,
            step: Step::Nothing,
        }),
        Some(initial) => {
            let Ok(given) = untyped(arena, scopes, &initial.init, deeds, first) else {
                return Err(AllocError);
            };
            configured(written.config, given.part, first);
            let slot = scopes.next_slot();
            Ok(Found {
                value_type: type_found(given.part.found),
                step: begun(written.config, slot, given.part.found, given.placing),
            })
        }
    }
}

// An int or a bool.
#[tactic(auto, using(dpl_types::proofs::Breaches::least_from_append))]
fn scalar_name<'t>(
    arena: Arena<'t>,
    scopes: &Scopes<'t>,
    written: &Declare<'_>,
    kind: ScalarKind,
    deeds: &mut Vec<Deed<'t>>,
    first: &mut Option<Breach>,
) -> Result<Found<'t>, AllocError>
    ensures told { IfOk result (λ f. (at : PlaceNode) → TellsAs scopes.now (declare_view written.now) (Some (ScalarType at kind)) f first.old first.new) }
    ensures node { IfOk result (λ f. (at : PlaceNode) → first.new ≡ None → IsPlainAs scopes.now (declare_view written.now) (Some (ScalarType at kind))
        → IsFoundAs scopes.now (declare_view written.now) (Some (ScalarType at kind)) f) }
    ensures deeds { OnOk result (Adds (initial_deeds scopes.now (declare_view written.now).initial) deeds.old.items deeds.new.items) }
{
    let value_type = Some(ValueType::Scalar(kind));
    let Ok(initial) = typed_initial(arena, scopes, value_type, &written.initial, deeds, first)
    else {
        return Err(AllocError);
    };
    let Ok(value) = or_default(arena, kind, initial) else {
        return Err(AllocError);
    };
    let slot = scopes.next_slot();
    let step = begun(written.config, slot, value, Placing::Derived);
    Ok(Found { value_type, step })
}

// A cell.
#[tactic(auto, using(dpl_types::proofs::Breaches::least_from_append))]
fn sync_name<'t>(
    arena: Arena<'t>,
    scopes: &Scopes<'t>,
    written: &Declare<'_>,
    at: Place,
    kind: ScalarKind,
    deeds: &mut Vec<Deed<'t>>,
    first: &mut Option<Breach>,
) -> Result<Found<'t>, AllocError>
    ensures told { IfOk result (λ f. (kind_at : PlaceNode)
        → TellsAs scopes.now (declare_view written.now) (Some (SyncType at kind_at kind)) f first.old first.new) }
    ensures deeds { OnOk result (Adds (initial_deeds scopes.now (declare_view written.now).initial) deeds.old.items deeds.new.items) }
{
    let value_type = Some(ValueType::Cell(kind));
    let Ok(_) = typed_initial(arena, scopes, value_type, &written.initial, deeds, first) else {
        return Err(AllocError);
    };
    unconfigured(written.config, at, first);
    Ok(Found {
        value_type,
        step: Step::Nothing,
    })
}

// A domain: its rank is 1 to 3.
#[tactic(auto, using(dpl_types::proofs::Breaches::least_from_append, dpl_deeds::proofs::Steps::added_then))]
fn domain_name<'t>(
    arena: Arena<'t>,
    scopes: &Scopes<'t>,
    written: &Declare<'_>,
    typed: &DomainType<'_>,
    deeds: &mut Vec<Deed<'t>>,
    first: &mut Option<Breach>,
) -> Result<Found<'t>, AllocError>
    ensures told { IfOk result (λ f. TellsAs scopes.now (declare_view written.now) (Some (DomainTypeTree (domain_type_view typed.now))) f first.old first.new) }
    ensures node { IfOk result (λ f. first.new ≡ None → IsPlainAs scopes.now (declare_view written.now) (Some (DomainTypeTree (domain_type_view typed.now)))
        → IsFoundAs scopes.now (declare_view written.now) (Some (DomainTypeTree (domain_type_view typed.now))) f) }
    ensures deeds { OnOk result (Adds (type_deeds scopes.now (Some (DomainTypeTree (domain_type_view typed.now)))
        ++ initial_deeds scopes.now (declare_view written.now).initial) deeds.old.items deeds.new.items) }
{
    let rank = ranked(typed, first);
    let Ok(map) = mapped(arena, scopes, Some(rank), &typed.mapped, deeds, first) else {
        return Err(AllocError);
    };
    let value_type = Some(ValueType::Domain {
        rank,
        strided: false,
    });
    let Ok(initial) = typed_initial(arena, scopes, value_type, &written.initial, deeds, first)
    else {
        return Err(AllocError);
    };
    unconfigured(written.config, typed.at, first);
    let slot = scopes.next_slot();
    let placing = placed(map, Placing::Root);
    let step = domain(slot, rank, initial, placing);
    Ok(Found { value_type, step })
}

// An array, over the declaration of a bare domain name, or else over its own.
#[tactic(auto, using(dpl_types::proofs::Breaches::least_from_append, dpl_deeds::proofs::Steps::added_then))]
fn array_name<'t>(
    arena: Arena<'t>,
    scopes: &Scopes<'t>,
    written: &Declare<'t>,
    typed: &ArrayType<'t>,
    deeds: &mut Vec<Deed<'t>>,
    first: &mut Option<Breach>,
) -> Result<Found<'t>, AllocError>
    ensures told { IfOk result (λ f. TellsAs scopes.now (declare_view written.now) (Some (ArrayTypeTree (array_type_view typed.now))) f first.old first.new) }
    ensures node { IfOk result (λ f. first.new ≡ None → IsPlainAs scopes.now (declare_view written.now) (Some (ArrayTypeTree (array_type_view typed.now)))
        → IsFoundAs scopes.now (declare_view written.now) (Some (ArrayTypeTree (array_type_view typed.now))) f) }
    ensures deeds { OnOk result (Adds (type_deeds scopes.now (Some (ArrayTypeTree (array_type_view typed.now)))
        ++ initial_deeds scopes.now (declare_view written.now).initial) deeds.old.items deeds.new.items) }
{
    let Ok(over) = over_items(arena, scopes, typed.from, &typed.over, deeds, first) else {
        return Err(AllocError);
    };
    let own = Origin {
        name: written.name.text,
        depth: scopes.depth(),
    };
    let value_type = array_type(scopes, own, typed, over);
    let Ok(value) = typed_initial(arena, scopes, value_type, &written.initial, deeds, first) else {
        return Err(AllocError);
    };
    unconfigured(written.config, typed.from, first);
    let slot = scopes.next_slot();
    let at = written.name.at;
    match array(arena, at, slot, typed, over, &written.initial, value) {
        Ok(step) => Ok(Found { value_type, step }),
        Err(_) => Err(AllocError),
    }
}

/// What a declaration gives its name, and the step that it is.
///
/// # Errors
/// Out of memory; of what was told and done then nothing is said.
pub(crate) fn name<'t>(
    arena: Arena<'t>,
    scopes: &Scopes<'t>,
    written: &Declare<'t>,
    deeds: &mut Vec<Deed<'t>>,
    first: &mut Option<Breach>,
) -> Result<Found<'t>, AllocError>
    ensures told { IfOk result (λ f. TellsAs scopes.now (declare_view written.now) (type_of (declare_view written.now).typed) f first.old first.new) }
    ensures node { IfOk result (λ f. first.new ≡ None → IsPlainAs scopes.now (declare_view written.now) (type_of (declare_view written.now).typed)
        → IsFoundAs scopes.now (declare_view written.now) (type_of (declare_view written.now).typed) f) }
    ensures deeds { OnOk result (Adds (type_deeds scopes.now (type_of (declare_view written.now).typed)
        ++ initial_deeds scopes.now (declare_view written.now).initial) deeds.old.items deeds.new.items) }
{
    match &written.typed {
        None => untyped_name(arena, scopes, written, deeds, first),
        Some(typed) => match &typed.declared {
            DeclaredType::Scalar(_, kind) => scalar_name(
                arena, scopes, written, *kind, deeds, first,
            ),
            DeclaredType::Sync(at, _, kind) => {
                sync_name(arena, scopes, written, *at, *kind, deeds, first)
            }
            DeclaredType::Domain(domain) => domain_name(
                arena, scopes, written, domain, deeds, first,
            ),
            DeclaredType::Array(array) => array_name(arena, scopes, written, array, deeds, first),
        },
    }
}
