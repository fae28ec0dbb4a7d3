// Ranges as values: their bounds, their strides and their methods, with the faults that these tell.
// A bound is a whole number without a limit until it is tested.

ghost use Rattle.std.specs.Prelude.{◌≡◌, false, pos, [], ◌∷◌};
ghost use Rattle.dpl_language.specs.Values.{Int};
ghost use Rattle.dpl_language.specs.Ranges.{strided_by as strided_by_of, high_bound as high_bound_of, bad_count as bad_count_of};
ghost use Rattle.dpl_language.specs.Ranges.{method_of, size_in, members_in, end_of, first_of, last_of, least_of, greatest_of, contains_index};
ghost use Rattle.dpl_lowered.specs.LoweredExpressions.{is_end};
ghost use Rattle.dpl_lowered.specs.Shapes.{kept};
ghost use Rattle.dpl_nodes.specs.Typed.{dots_view, range_word as method_word};
ghost use Rattle.dpl_frame.specs.Faults.{Tells, as_range};
ghost use Rattle.dpl_contents.specs.Range.{range_word};
ghost use Rattle.dpl_values.specs.Bounds.{FitsOrPast, bounds_of};

use dpl_frame::{Alarm, FaultCode, RangeWord, Turn};
use dpl_nodes::{Dots, RangeMethod, Spot};
use dpl_range::Range;

// The high bound, where it is an int.
fn high_bound(dots: Dots, low: i64, number: i64) -> Option<i64>
    ensures { FitsOrPast (high_bound_of (dots_view dots) low number) result }
{
    match dots {
        Dots::Closed => Some(number),
        Dots::HalfOpen => number.checked_sub(1),
        Dots::Counted => low.checked_add(number)?.checked_sub(1),
    }
}

// Whether a count is below 0.
fn is_bad_count(dots: Dots, number: i64) -> bool
    ensures { result ≡ bad_count_of (dots_view dots) number }
{
    match dots {
        Dots::Closed | Dots::HalfOpen => false,
        Dots::Counted => number < 0,
    }
}

/// The bounds of a range as they are written: a low bound, and a high bound or a count, with the place where it is told that
/// they are past their limits.
#[derive(Clone, Copy)]
pub(crate) struct Written {
    pub(crate) at: Spot,
    pub(crate) dots: Dots,
    pub(crate) low: i64,
    pub(crate) number: i64,
}

/// A range by its bounds, without a stride.
///
/// # Errors
/// `F3` at the dots for a bad count, and for a bound past its limit.
pub(crate) fn bounded(written: Written, turn: &mut Turn) -> Result<RangeWord, Alarm>
    ensures { Tells ⊥ range_word turn.new result (bounds_of written) }
{
    if is_bad_count(written.dots, written.number) {
        return Err(Alarm::new(FaultCode::PastLimit, written.at, turn));
    }
    match high_bound(written.dots, written.low, written.number) {
        None => Err(Alarm::new(FaultCode::PastLimit, written.at, turn)),
        Some(high) => match Range::new(written.low, high, 1) {
            Ok(range) => Ok(RangeWord {
                range,
                strided: false,
            }),
            Err(_) => Err(Alarm::new(FaultCode::PastLimit, written.at, turn)),
        },
    }
}

/// A range with a stride in place of its own.
///
/// # Errors
/// `F3` at `by` for a stride past its limits.
pub(crate) fn strided_by(
    at: Spot,
    stride: i64,
    range: RangeWord,
    turn: &mut Turn,
) -> Result<RangeWord, Alarm>
    ensures { Tells ⊥ range_word turn.new result (strided_by_of at stride (range_word range)) }
{
    match Range::new(range.range.low_bound(), range.range.high_bound(), stride) {
        Ok(range) => Ok(RangeWord {
            range,
            strided: true,
        }),
        Err(_) => Err(Alarm::new(FaultCode::PastLimit, at, turn)),
    }
}

// How many members a range has.
fn size(range: RangeWord) -> i64
    ensures { result ≡ pos (size_in (range_word range ∷ [])) }
{
    range.range.size() as i64
}

// The first member of a range, or `F4` at the method's name for an empty one.
fn first(range: RangeWord, at: Spot, turn: &mut Turn) -> Result<i64, Alarm>
    ensures { Tells ⊥ Int turn.new result (end_of at first_of (members_in (range_word range))) }
{
    match range.range.first() {
        Some(end) => Ok(end),
        None => Err(Alarm::new(FaultCode::EmptyEnd, at, turn)),
    }
}

// The last member of a range, or `F4` at the method's name for an empty one.
fn last(range: RangeWord, at: Spot, turn: &mut Turn) -> Result<i64, Alarm>
    ensures { Tells ⊥ Int turn.new result (end_of at last_of (members_in (range_word range))) }
{
    match range.range.last() {
        Some(end) => Ok(end),
        None => Err(Alarm::new(FaultCode::EmptyEnd, at, turn)),
    }
}

// The least member of a range, or `F4` at the method's name for an empty one.
fn low(range: RangeWord, at: Spot, turn: &mut Turn) -> Result<i64, Alarm>
    ensures { Tells ⊥ Int turn.new result (end_of at least_of (members_in (range_word range))) }
{
    match range.range.low() {
        Some(end) => Ok(end),
        None => Err(Alarm::new(FaultCode::EmptyEnd, at, turn)),
    }
}

// The greatest member of a range, or `F4` at the method's name for an empty one.
fn high(range: RangeWord, at: Spot, turn: &mut Turn) -> Result<i64, Alarm>
    ensures { Tells ⊥ Int turn.new result (end_of at greatest_of (members_in (range_word range))) }
{
    match range.range.high() {
        Some(end) => Ok(end),
        None => Err(Alarm::new(FaultCode::EmptyEnd, at, turn)),
    }
}

/// What a method of a range gives.
///
/// # Errors
/// `F4` at the method's name for an end of an empty one.
pub(crate) fn range_method(
    method: RangeMethod,
    range: RangeWord,
    at: Spot,
    turn: &mut Turn,
) -> Result<i64, Alarm>
    ensures { Tells ⊥ Int turn.new result (method_of (method_word method) (kept (is_end (method_word method)) at) (as_range range)) }
{
    match method {
        RangeMethod::Size => Ok(size(range)),
        RangeMethod::First => first(range, at, turn),
        RangeMethod::Last => last(range, at, turn),
        RangeMethod::Low => low(range, at, turn),
        RangeMethod::High => high(range, at, turn),
    }
}

/// Whether a range has a member.
pub fn contains(range: RangeWord, i: i64) -> bool
    ensures { result ≡ contains_index (range_word range ∷ []) (i ∷ []) }
{
    range.range.contains(i)
}
