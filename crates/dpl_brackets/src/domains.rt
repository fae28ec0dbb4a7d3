// Domains by their ranges, 1 to 3; and what an array is over and a domain is created from: one domain, or such ranges.
// Too many indices are told at the opening bracket, and so is C5.

ghost use Rattle.std.specs.Prelude.{◌≡◌, ◌<◌, true, IfOk, Some, nat_lt, length, map};
ghost use Rattle.dpl_syntax.specs.declared.refusal.Code.TheVariants.{WrongRank as WrongRankCode};
ghost use Rattle.dpl_language.specs.Tree.{Items, ItemTree, DomainLiteral, One};
ghost use Rattle.dpl_lowered.specs.Shapes.{nowhere};
ghost use Rattle.dpl_memory.specs.Memory.{Variable};
ghost use Rattle.dpl_nodes.specs.Spots.{IsNear};
ghost use Rattle.dpl_nodes.specs.Typed.{items_one, domain_view};
ghost use Rattle.dpl_rules.specs.Operators.{ranges_breaches as ranges_breaches_of, ranges_verdict, over_verdict};
ghost use Rattle.dpl_rules.specs.Types.{Domain as DomainOf};
ghost use Rattle.dpl_rules.specs.Verdicts.{owed as owed_of, all_known as all_known_of};
ghost use Rattle.dpl_types.specs.Owes.{Owes};
ghost use Rattle.dpl_typed.specs.Typed.{types_of, part_view, is_rank};
ghost use Rattle.dpl_typed.specs.Stands.{StandsFor, AreItems};
ghost use Rattle.dpl_typed.specs.Told.{Judges};
ghost use Rattle.dpl_brackets.specs.Parts.{Passes};

use crate::coordinates::ranges_of;
use dpl_nodes::DomainExpr;
use dpl_syntax::{Breach, Code, Place};
use dpl_tree::Arena;
use dpl_typed::node::{domain, spot};
use dpl_typed::part::{all_known, any_strided, each_wanted};
use dpl_typed::{Made, Part, Typed};
use dpl_types::{Want, owed};
use std::alloc::AllocError;

// At most three dimensions.
fn are_few(from: Place, parts: &[Part<'_>], first: &mut Option<Breach>) -> bool
    ensures { Owes (owed_of (nat_lt (length (map part_view parts.now)) 4) from WrongRankCode) result first.old first.new }
{
    owed(parts.len() < 4, from, Code::WrongRank, first)
}

// All parts are ranges, and at most three.
#[tactic(auto, using(dpl_types::proofs::Breaches::least_from_append, dpl_types::proofs::Breaches::are_none_append))]
fn ranges(from: Place, parts: &[Part<'_>], first: &mut Option<Breach>) -> bool
    ensures { Owes (ranges_breaches_of from (map part_view parts.now)) result first.old first.new }
{
    let are_wanted = each_wanted(Want::Range, parts, first);
    let are_few = are_few(from, parts, first);
    are_wanted && are_few
}

// Whether parts are the ranges of a domain; else what they break is told.
fn are_ranges(from: Place, parts: &[Part<'_>], first: &mut Option<Breach>) -> bool
    ensures { Passes (all_known_of (map part_view parts.now)) (ranges_breaches_of from (map part_view parts.now)) result first.old first.new }
{
    let holds = ranges(from, parts, first);
    all_known(parts) && holds
}

/// A domain by its ranges.
///
/// # Errors
/// Out of memory; of what was told then nothing is said.
pub fn literal<'t>(
    arena: Arena<'t>,
    from: Place,
    parts: &[Part<'t>],
    first: &mut Option<Breach>,
) -> Made<'t>
    requires { 0 < length parts.now }
    ensures told { IfOk result (λ r. Judges (ranges_verdict from (map part_view parts.now)) r first.old first.new) }
    ensures node { IfOk result (λ r. (is : Items Variable) → AreItems parts.now is → IsNear from → StandsFor r (λ m. DomainLiteral from is nowhere)) }
{
    if !are_ranges(from, parts, first) {
        return Ok(None);
    }
    let Ok(from) = spot(arena, from) else {
        return Err(AllocError);
    };
    let Ok(ranges) = ranges_of(arena, parts) else {
        return Err(AllocError);
    };
    domain(
        arena,
        parts.len(),
        any_strided(parts),
        DomainExpr::Literal(from, ranges),
    )
}

// A domain that is created from another one, of the same ranges.
fn created<'t>(
    arena: Arena<'t>,
    from: Place,
    rank: usize,
    strided: bool,
    base: &'t DomainExpr<'t>,
) -> Made<'t>
    ensures typed { IfOk result (λ r. types_of r ≡ Some (DomainOf rank strided)) }
    ensures node { IfOk result (λ r. is_rank rank ≡ true → IsNear from
        → StandsFor r (λ m. DomainLiteral from (items_one (One (domain_view base.now))) nowhere)) }
{
    let Ok(from) = spot(arena, from) else {
        return Err(AllocError);
    };
    domain(arena, rank, strided, DomainExpr::Created(from, base))
}

/// What an array is over, or a domain is created from: one domain, or 1 to 3 ranges. It is as the domain literal of these.
///
/// # Errors
/// Out of memory; of what was told then nothing is said.
pub fn over<'t>(
    arena: Arena<'t>,
    from: Place,
    parts: &[Part<'t>],
    first: &mut Option<Breach>,
) -> Made<'t>
    requires { 0 < length parts.now }
    ensures told { IfOk result (λ r. Judges (over_verdict from (map part_view parts.now)) r first.old first.new) }
    ensures node { IfOk result (λ r. (is : Items Variable) → AreItems parts.now is → IsNear from → StandsFor r (λ m. DomainLiteral from is nowhere)) }
{
    match parts {
        [part] => match part.found {
            None => Ok(None),
            Some(t) => match t {
                Typed::Domain {
                    rank,
                    strided,
                    node,
                } => created(arena, from, rank, strided, node),
                _ => literal(arena, from, parts, first),
            },
        },
        _ => literal(arena, from, parts, first),
    }
}
