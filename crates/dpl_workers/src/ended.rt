// How the parts of a reduction end, and two ends as one: their values are put together; else what goes first is told.

ghost use Rattle.std.specs.Prelude.{◌≡◌};
ghost use Rattle.dpl_sets.specs.Indices.{indices};
ghost use Rattle.dpl_language.specs.Arithmetic.{unit_of};
ghost use Rattle.dpl_workers.specs.PartFolds.{GoesFirst, IsBoth, IsNothing};

use crate::soonest::spot_of;
use crate::words::OnWords;
use dpl_domain::Domain;
use dpl_frame::{Alarm, Turn};

/// How a part ends: by its items put together, or early; with the turn that a fault names.
#[derive(Drop)]
pub(crate) struct Ended {
    pub(crate) item: Result<i64, Alarm>,
    pub(crate) turn: Turn,
}

impl Ended {
    /// A part without indices.
    pub(crate) fn none<W: OnWords>(operator: &W) -> Ended
        ensures { IsNothing W.value (unit_of (W.op operator.now)) result.item }
    {
        Ended {
            item: Ok(operator.none()),
            turn: Turn::Absent,
        }
    }
}

// Whether the first of two early ends is told: what was refused before a fault, and the fault of the lesser place before another.
fn goes_first(whole: &Domain, one: &Alarm, turn: &Turn, other: &Alarm, other_turn: &Turn) -> bool
    ensures { GoesFirst (indices whole.now) turn.now other_turn.now one.now other.now result }
{
    let (a, b) = (one.rank(), other.rank());
    if a != b {
        return a < b;
    }
    spot_of(whole, turn) < spot_of(whole, other_turn)
}

/// Two ends as one: that of a part, and that of those behind it.
pub(crate) fn both<W: OnWords>(operator: &W, whole: &Domain, first: Ended, behind: Ended) -> Ended
    ensures { IsBoth (W.op operator.now) W.value (indices whole.now) first.item first.turn behind.item behind.turn result.item result.turn }
{
    match (first.item, behind.item) {
        (Ok(a), Ok(b)) => Ended {
            item: Ok(operator.both(a, b)),
            turn: Turn::Absent,
        },
        (Err(alarm), Ok(_)) => Ended {
            item: Err(alarm),
            turn: first.turn,
        },
        (Ok(_), Err(alarm)) => Ended {
            item: Err(alarm),
            turn: behind.turn,
        },
        (Err(one), Err(other)) => {
            if goes_first(whole, &one, &first.turn, &other, &behind.turn) {
                Ended {
                    item: Err(one),
                    turn: first.turn,
                }
            } else {
                Ended {
                    item: Err(other),
                    turn: behind.turn,
                }
            }
        }
    }
}
