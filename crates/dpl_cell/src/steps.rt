//! The steps of a seat on the words, each with what it tells, and how seats are cut off and joined.
//! `specs/Steps.antt` has the definitions.
use crate::view::View;
use atomic_table::{Join, Play, Split};
use dpl_history::CellOp;

// A load of a state word, which fits where it is `FIT`.
pub(crate) struct Look<const FIT: u64>;

impl<const FIT: u64> Play<CellOp, View> for Look<FIT> {
    ghost use Rattle.dpl_cell.specs.Steps.{looked};

    ghost then = { looked FIT };
}

// A compare-exchange of a state word from the one that fits to busy.
pub(crate) struct Take;

impl Play<CellOp, View> for Take {
    ghost use Rattle.dpl_cell.specs.Steps.{taken};

    ghost then = { taken };
}

// A swap of busy into a state word.
pub(crate) struct Seize;

impl Play<CellOp, View> for Seize {
    ghost use Rattle.dpl_cell.specs.Steps.{seized};

    ghost then = { seized };
}

// A load of the held cell's value word.
pub(crate) struct ReadValue;

impl Play<CellOp, View> for ReadValue {
    ghost use Rattle.dpl_cell.specs.Steps.{was_read};

    ghost then = { was_read };
}

// A store of the held cell's value word.
pub(crate) struct WriteValue;

impl Play<CellOp, View> for WriteValue {
    ghost use Rattle.dpl_cell.specs.Steps.{was_written};

    ghost then = { was_written };
}

// A compare-exchange of the held cell's state word from busy to what the announced operation leaves.
pub(crate) struct Publish;

impl Play<CellOp, View> for Publish {
    ghost use Rattle.dpl_cell.specs.Steps.{published};

    ghost then = { published };
}

// A load that tells what the rule says of the seat's history and of its last join.
pub(crate) struct Vouch;

impl Play<CellOp, View> for Vouch {
    ghost use Rattle.dpl_cell.specs.Steps.{vouched};

    ghost then = { vouched };
}

// The first number goes to a new seat.
pub(crate) struct GiveFirst;

impl Split<View> for GiveFirst {
    ghost use Rattle.dpl_cell.specs.Steps.{without_first, with_first};

    ghost left = { without_first };

    ghost right = { with_first };
}

// One seat takes in what another knows, and answers for its numbers too.
pub(crate) struct Gather;

impl Join<View> for Gather {
    ghost use Rattle.dpl_cell.specs.Steps.{gathered, spent};

    ghost both = { gathered };

    ghost spent = { spent };
}
