// Arrays that are taken apart for the workers of a forall, by the map of the loop.

ghost use Rattle.std.specs.Prelude.{◌≡◌, ◌++◌, IfOk, OnOk};
ghost use Rattle.dpl_apart.specs.Rows.{AreOnce};
ghost use Rattle.dpl_frame.specs.Frames.{with_memory};
ghost use Rattle.dpl_workers.specs.Taken.{emptied, all_taken};

use dpl_contents::PiecesWords;
use dpl_frame::{Frame, Slots};
use dpl_map::Map;
use std::alloc::AllocError;

// An array that is taken apart, with its slot.
#[derive(Drop)]
pub(crate) struct Taken {
    pub(crate) slot: usize,
    pub(crate) pieces: PiecesWords,
}

/// Takes the arrays out of some slots, and each of them apart by a map, behind what was taken before. One that another map deals out is dealt
/// anew.
///
/// # Errors
/// Out of memory. So it ends too where a slot has no array: no loop comes there, as `may_start` is asked first.
pub(crate) fn take_all(
    slots: &[usize],
    map: &Map,
    frame: &mut Frame<Slots>,
    taken: Vec<Taken>,
) -> Result<Vec<Taken>, AllocError>
    requires once { AreOnce slots.now }
    ensures memory { OnOk result (frame.new ≡ with_memory (emptied slots.now frame.old.memory) frame.old) }
    ensures limits { frame.new.limits ≡ frame.old.limits }
    ensures taken { IfOk result (λ ts. ts.items ≡ taken.items ++ all_taken map.now frame.old.memory slots.now) }
{
    let mut taken = taken;
    for slot in slots {
        let Some(array) = frame.take_array(*slot) else {
            return Err(AllocError);
        };
        let Ok(pieces) = array.take_pieces(frame.alloc(), map) else {
            return Err(AllocError);
        };
        taken.push(Taken {
            slot: *slot,
            pieces,
        })?;
    }
    Ok(taken)
}
