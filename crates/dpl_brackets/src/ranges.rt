// Ranges by their bounds: a low bound, a high one or a count, and perhaps a stride; all of them ints.
// A fault of a bound is told at the dots, and one of the stride at `by`.

ghost use Rattle.std.specs.Prelude.{◌≡◌, true, false, IfOk, [], ◌∷◌, map};
ghost use Rattle.dpl_language.specs.Tree.{ExprTree, RangeItem, NoStride, By};
ghost use Rattle.dpl_lowered.specs.LoweredExpressions.{unplaced_dots};
ghost use Rattle.dpl_memory.specs.Memory.{Variable};
ghost use Rattle.dpl_nodes.specs.Spots.{IsNear};
ghost use Rattle.dpl_nodes.specs.Typed.{dots_view};
ghost use Rattle.dpl_rules.specs.Operators.{range_verdict};
ghost use Rattle.dpl_rules.specs.Types.{is_int};
ghost use Rattle.dpl_rules.specs.Verdicts.{all_known as all_known_of, each_wanted as each_wanted_of};
ghost use Rattle.dpl_typed.specs.Typed.{part_view};
ghost use Rattle.dpl_typed.specs.Stands.{IsArgument, StandsForItem};
ghost use Rattle.dpl_typed.specs.Told.{Judges};
ghost use Rattle.dpl_brackets.specs.Parts.{Passes};

use crate::coordinates::int_of;
use dpl_nodes::{Dots, RangeExpr, Stride};
use dpl_syntax::{Breach, Place};
use dpl_tree::Arena;
use dpl_typed::node::{range, spot};
use dpl_typed::part::{all_known, each_wanted};
use dpl_typed::{Made, Part};
use dpl_types::Want;
use std::alloc::AllocError;

/// The low end of a range, the dots, and the high end or the count.
#[derive(Clone, Copy)]
pub struct Bounds<'t> {
    pub low: Part<'t>,
    pub at: Place,
    pub dots: dpl_tree::Dots,
    pub high: Part<'t>,
}

// Whether all parts are ints; else what they break is told.
fn are_ints(parts: &[Part<'_>], first: &mut Option<Breach>) -> bool
    ensures { Passes (all_known_of (map part_view parts.now)) (each_wanted_of is_int (map part_view parts.now)) result first.old first.new }
{
    let holds = each_wanted(Want::Int, parts, first);
    all_known(parts) && holds
}

// What stands between the ends of a range.
fn dots(written: dpl_tree::Dots) -> Dots
    ensures { dots_view result ≡ unplaced_dots written }
{
    match written {
        dpl_tree::Dots::Closed => Dots::Closed,
        dpl_tree::Dots::HalfOpen => Dots::HalfOpen,
        dpl_tree::Dots::Counted(_) => Dots::Counted,
    }
}

/// A range without a stride.
///
/// # Errors
/// Out of memory; of what was told then nothing is said.
pub fn plain_range<'t>(arena: Arena<'t>, bounds: Bounds<'t>, first: &mut Option<Breach>) -> Made<'t>
    ensures told { IfOk result (λ r. Judges (range_verdict (part_view bounds.entry.low ∷ part_view bounds.entry.high ∷ []) false) r first.old first.new) }
    ensures node { IfOk result (λ r. (l h : ExprTree Variable) → IsArgument bounds.entry.low.found l → IsArgument bounds.entry.high.found h
        → IsNear bounds.entry.at → StandsForItem r (λ m. RangeItem l bounds.entry.at (unplaced_dots bounds.entry.dots) h NoStride)) }
{
    if !are_ints(&[bounds.low, bounds.high], first) {
        return Ok(None);
    }
    let Ok(at) = spot(arena, bounds.at) else {
        return Err(AllocError);
    };
    let low = int_of(bounds.low);
    let high = int_of(bounds.high);
    range(
        arena,
        false,
        RangeExpr::Between(low, at, dots(bounds.dots), high, Stride::Absent),
    )
}

/// A range with a stride.
///
/// # Errors
/// Out of memory; of what was told then nothing is said.
pub fn strided_range<'t>(
    arena: Arena<'t>,
    bounds: Bounds<'t>,
    by_at: Place,
    by: Part<'t>,
    first: &mut Option<Breach>,
) -> Made<'t>
    ensures told { IfOk result (λ r. Judges (range_verdict (part_view bounds.entry.low ∷ part_view bounds.entry.high ∷ part_view by.entry ∷ []) true)
        r first.old first.new) }
    ensures node { IfOk result (λ r. (l h e : ExprTree Variable) → IsArgument bounds.entry.low.found l → IsArgument bounds.entry.high.found h
        → IsArgument by.entry.found e → IsNear bounds.entry.at → IsNear by_at
        → StandsForItem r (λ m. RangeItem l bounds.entry.at (unplaced_dots bounds.entry.dots) h (By by_at e))) }
{
    if !are_ints(&[bounds.low, bounds.high, by], first) {
        return Ok(None);
    }
    let Ok(at) = spot(arena, bounds.at) else {
        return Err(AllocError);
    };
    let Ok(by_at) = spot(arena, by_at) else {
        return Err(AllocError);
    };
    let low = int_of(bounds.low);
    let high = int_of(bounds.high);
    let stride = Stride::By(by_at, int_of(by));
    range(
        arena,
        true,
        RangeExpr::Between(low, at, dots(bounds.dots), high, stride),
    )
}
