// What the workers of a forall hand back: their pieces go into their places, and the arrays into their slots, dealt out by the maps of their
// roots as before.

ghost use Rattle.std.specs.Prelude.{◌≡◌, true, get_or, OnOk};
ghost use Rattle.std.specs.List.{AllByRecursion};
ghost use Rattle.dpl_frame.specs.Frames.{with_memory};
ghost use Rattle.dpl_frame.specs.declared.share.Share.TheVariants.{Lent};
ghost use Rattle.dpl_workers.specs.Taken.{put_in, all_put, given_back, IsPieceShare, ArePieces, AllStay, Stays};

use crate::job::Worked;
use crate::taken::Taken;
use dpl_contents::PiecesWords;
use dpl_frame::{Frame, Share, Slots};
use std::alloc::AllocError;
use std::mem;

// Puts what a worker hands back of a slot into its place. False if that is no piece, or doesn't fit.
fn put_one(slot: usize, worked: &mut Worked, pieces: &mut PiecesWords) -> bool
    ensures piece { result ≡ true → IsPieceShare (get_or worked.old.own.items slot Lent) }
    ensures put { result ≡ true → pieces.new ≡ put_in worked.old.locale (get_or worked.old.own.items slot Lent) pieces.old }
    ensures stays { Stays worked.old worked.new }
{
    if worked.own.len() <= slot {
        return false;
    }
    match mem::replace(&mut worked.own[slot], Share::Lent) {
        Share::Piece(piece) => pieces.put(worked.locale, piece),
        _ => false,
    }
}

// Puts what workers hand back of a slot into their places. False if something of that is no piece, or doesn't fit.
fn put_all(slot: usize, worked: &mut [Worked], pieces: &mut PiecesWords) -> bool
    ensures pieces { result ≡ true → ArePieces worked.old slot }
    ensures put { result ≡ true → pieces.new ≡ all_put slot worked.old pieces.old }
    ensures stay { result ≡ true → AllStay worked.old worked.new }
{
    let Some((first, rest)) = worked.split_first_mut() else {
        return true;
    };
    if !put_one(slot, first, pieces) {
        return false;
    }
    put_all(slot, rest, pieces)
}

/// Puts the pieces that workers hand back into their places, and the arrays back into their slots.
///
/// # Errors
/// Out of memory: where something else than a piece came back, or a piece that doesn't fit, the array would have to be copied, and no memory
/// is taken for that. No turn that is made apart does so.
pub(crate) fn give_back(
    taken: Vec<Taken>,
    worked: &mut [Worked],
    frame: &mut Frame<Slots>,
) -> Result<(), AllocError>
    ensures memory { OnOk result (frame.new ≡ with_memory (given_back taken.items worked.old frame.old.memory) frame.old) }
    ensures pieces { OnOk result (AllByRecursion (λ t. ArePieces worked.old t.slot) taken.items) }
    ensures stay { OnOk result (AllStay worked.old worked.new) }
    ensures limits { frame.new.limits ≡ frame.old.limits }
{
    for one in taken {
        let Taken { slot, mut pieces } = one;
        if !put_all(slot, worked, &mut pieces) {
            return Err(AllocError);
        }
        let Some(whole) = pieces.put_back() else {
            return Err(AllocError);
        };
        let Ok(array) = whole.dealt(frame.alloc(), &frame.owner(slot)) else {
            return Err(AllocError);
        };
        frame.keep_array(slot, array);
    }
    Ok(())
}
