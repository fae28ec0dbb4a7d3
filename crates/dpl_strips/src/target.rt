// What the turns of a row's indices write, which strips must not read but where each turn has it for itself.

ghost use Rattle.std.specs.Prelude.{◌≡◌, false, map, option_map};
ghost use Rattle.dpl_strips.specs.Strips.{written, IsFree, written_at};

use dpl_array::Row;

/// What turns write: the word in a slot; and of the array in it one element each, at the indices of a row, turn by turn. Where statements
/// of the turns have been found before they are done, the words are what these elements are by now.
#[derive(Clone, Copy)]
pub struct Target<'w> {
    pub slot: usize,
    pub at: Row,
    pub words: Option<&'w [i64]>,
}

/// What turns write in a slot, if they do.
#[inline(always)]
pub(crate) fn target_at<'a, 'w>(targets: &'a [Target<'w>], slot: usize) -> Option<&'a Target<'w>>
    ensures { option_map (λ x. written x.now) result ≡ written_at slot (map written targets.now) }
{
    for target in targets {
        if target.slot == slot {
            return Some(target);
        }
    }
    None
}

/// Whether turns write what is in a slot.
#[inline(always)]
pub fn is_written(targets: &[Target<'_>], slot: usize) -> bool
    ensures { result ≡ false → IsFree (map written targets.now) slot }
{
    target_at(targets, slot).is_some()
}
