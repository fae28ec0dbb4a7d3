// Whether arrays that aren't cut by the loop's map are dealt anew for its workers, and back when these are done.
// No clause speaks of it: whoever makes the turns, the loop is the same.

use crate::level::{Makers, Site};
use dpl_array::Row;
use dpl_contents::ArrayWords;
use dpl_frame::{Frame, Slots};
use dpl_loop::Gate;
use dpl_map::Map;

// So many words that stand side by side make good the look for their places.
const LONG: usize = 32;

// Whether the arrays in some slots are cut by a map.
fn are_cut_by(slots: &[usize], map: &Map, frame: &Frame<Slots>) -> bool {
    for slot in slots {
        let Some(array) = frame.array(*slot) else {
            return false;
        };
        if !array.is_cut_by(map) {
            return false;
        }
    }
    true
}

// Whether many words of an array stand side by side, as those from its first index on do.
fn has_long_rows(array: &ArrayWords) -> bool {
    let domain = array.domain().domain();
    let Some(first) = domain.nth(0) else {
        return false;
    };
    let (row, _) = Row::of(&domain, first, 0);
    LONG < array.run(row).len()
}

// Whether the arrays in some slots are soon dealt anew, beside so many turns: each is copied by rows, and has at most twice as many elements, as
// those have that a loop over their inner part writes. One of them is dealt out by the loop's map, so rows are long by that map, too.
fn are_soon_dealt(slots: &[usize], turns: u64, frame: &Frame<Slots>) -> bool {
    for slot in slots {
        let Some(array) = frame.array(*slot) else {
            return false;
        };
        if array.domain().size() / 2 > turns || !has_long_rows(array) {
            return false;
        }
    }
    true
}

/// Whether the arrays in some slots are cut by a loop's map, or may be dealt anew for its workers. That takes two copies of each, so with an
/// open gate it has to be done soon, and isn't done for the caller; a gate that isn't open sees who makes a turn, so there it is always done.
pub(crate) fn may_deal<T, G: Gate>(
    slots: &[usize],
    makers: Makers,
    site: &Site<'_, T, G>,
    frame: &Frame<Slots>,
) -> bool {
    if !site.gate.is_open() || are_cut_by(slots, site.map, frame) {
        return true;
    }
    match makers {
        Makers::Workers => are_soon_dealt(slots, site.whole.size(), frame),
        Makers::Caller => false,
    }
}
