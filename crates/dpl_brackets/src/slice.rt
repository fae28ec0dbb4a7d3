// Slices of ranges and domains: as many unstrided ranges as the rank.
// C5 stands at the last token before the opening bracket.

ghost use Rattle.std.specs.Prelude.{◌≡◌, ◌<◌, true, IfOk, [], length, map};
ghost use Rattle.dpl_language.specs.Tree.{Items};
ghost use Rattle.dpl_memory.specs.Memory.{Variable};
ghost use Rattle.dpl_nodes.specs.Typed.{in_square, range_view, domain_view};
ghost use Rattle.dpl_rules.specs.Operators.{slice_breaches as slice_breaches_of, slice_verdict};
ghost use Rattle.dpl_rules.specs.Types.{Range as RangeOf, Domain as DomainOf};
ghost use Rattle.dpl_rules.specs.Verdicts.{all_known as all_known_of};
ghost use Rattle.dpl_types.specs.Owes.{Owes};
ghost use Rattle.dpl_typed.specs.Typed.{part_view, is_rank};
ghost use Rattle.dpl_typed.specs.Stands.{StandsFor, AreItems};
ghost use Rattle.dpl_typed.specs.Told.{Judges};
ghost use Rattle.dpl_brackets.specs.Parts.{Passes};

use crate::coordinates::{range_of, ranges_of};
use crate::posts::posted;
use dpl_nodes::{DomainExpr, DomainPost, RangeCut, RangeExpr};
use dpl_syntax::{Breach, Place};
use dpl_tree::Arena;
use dpl_typed::node::range;
use dpl_typed::part::{all_known, each_wanted};
use dpl_typed::{Made, Part};
use dpl_types::{Want, wrong_rank};
use std::alloc::AllocError;

// The ranges of a slice: unstrided, and as many as the rank.
fn slices(last: Place, rank: usize, parts: &[Part<'_>], first: &mut Option<Breach>) -> bool
    ensures { Owes (slice_breaches_of last rank (map part_view parts.now)) result first.old first.new }
{
    if parts.len() == rank {
        each_wanted(Want::PlainRange, parts, first)
    } else {
        wrong_rank(last, first)
    }
}

// Whether parts are the ranges of a slice; else what they break is told.
fn are_slices(last: Place, rank: usize, parts: &[Part<'_>], first: &mut Option<Breach>) -> bool
    ensures { Passes (all_known_of (map part_view parts.now)) (slice_breaches_of last rank (map part_view parts.now)) result first.old first.new }
{
    let holds = slices(last, rank, parts, first);
    all_known(parts) && holds
}

// No cuts behind the first one.
fn no_cuts<'t>() -> &'t [RangeCut<'t>]
    ensures { result.now ≡ [] }
{
    &[]
}

/// What of a range lies between the bounds of another one.
///
/// # Errors
/// Out of memory; of what was told then nothing is said.
pub fn range_slice<'t>(
    arena: Arena<'t>,
    last: Place,
    strided: bool,
    base: &'t RangeExpr<'t>,
    parts: &[Part<'t>],
    first: &mut Option<Breach>,
) -> Made<'t>
    ensures told { IfOk result (λ r. Judges (slice_verdict last 1 (map part_view parts.now) (RangeOf strided)) r first.old first.new) }
    ensures node { IfOk result (λ r. (is : Items Variable) → AreItems parts.now is → StandsFor r (λ m. in_square (range_view base.now) is)) }
{
    if !are_slices(last, 1, parts, first) {
        return Ok(None);
    }
    match parts {
        [cut] => {
            let cut = range_of(*cut);
            range(arena, strided, RangeExpr::Slice(base, cut, no_cuts()))
        }
        _ => unreachable!(),
    }
}

/// Each dimension of a domain, between the bounds of its range.
///
/// # Errors
/// Out of memory; of what was told then nothing is said.
pub fn domain_slice<'t>(
    arena: Arena<'t>,
    last: Place,
    rank: usize,
    strided: bool,
    base: &'t DomainExpr<'t>,
    parts: &[Part<'t>],
    first: &mut Option<Breach>,
) -> Made<'t>
    requires { 0 < length parts.now }
    ensures told { IfOk result (λ r. Judges (slice_verdict last rank (map part_view parts.now) (DomainOf rank strided)) r first.old first.new) }
    ensures node { IfOk result (λ r. (is : Items Variable) → is_rank rank ≡ true → AreItems parts.now is
        → StandsFor r (λ m. in_square (domain_view base.now) is)) }
{
    if !are_slices(last, rank, parts, first) {
        return Ok(None);
    }
    let Ok(cuts) = ranges_of(arena, parts) else {
        return Err(AllocError);
    };
    posted(arena, rank, strided, base, DomainPost::Slice(cuts))
}
