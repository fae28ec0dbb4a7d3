// By which map the turns of a forall are dealt out over the locales.

ghost use Rattle.std.specs.Prelude.{◌≡◌};
ghost use Rattle.dpl_standing.specs.Standing.{InTurn};
ghost use Rattle.dpl_readings.specs.Readings.{steps_in};
ghost use Rattle.dpl_frame.specs.Dealt.{slot_map, dealt_by};
ghost use Rattle.dpl_readings.specs.Written.{written_among};

use crate::written::written;
use dpl_frame::{Arrays, Frame};
use dpl_map::Map;
use dpl_nodes::Step;

// The map of the domain or array from which what a forall runs over is derived; the whole map, which gives all to locale 0, where it is
// derived from none.
fn over_map<A: Arrays>(origin: Option<usize>, frame: &Frame<A>) -> Map
    ensures { result ≡ slot_map frame.now origin }
{
    match origin {
        Some(slot) => frame.owner(slot),
        None => Map::whole(),
    }
}

/// The map of the first array that the turns write; where they write none, that of what the forall runs over.
pub(crate) fn dealt<A: Arrays>(body: &[Step<'_>], over: Option<usize>, frame: &Frame<A>) -> Map
    ensures { result ≡ dealt_by frame.now over (written_among (steps_in InTurn body.now)) }
{
    match written(body) {
        Some(slot) => frame.owner(slot),
        None => over_map(over, frame),
    }
}
