// How the turns of an assignment to a whole array may be made apart: each changes the element at its own index, and nothing else.

ghost use Rattle.std.specs.Prelude.{◌≡◌, IfSome};
ghost use Rattle.dpl_turns.specs.Wholes.{whole_changes};
ghost use Rattle.dpl_elements.specs.Wholes.{no_changes};

use dpl_loop::Apart;

/// What such turns change, lent as lists: the array in a slot, which a list is to have alone, over a domain of a rank.
pub(crate) fn whole_apart<'b>(rank: u32, slot: usize, written: &'b [usize]) -> Option<Apart<'b>>
    ensures { IfSome result (λ a. a ≡ whole_changes rank slot) }
{
    match written {
        [other] if *other == slot => Some(Apart {
            rank,
            written,
            reduced: &[],
            numbers: &[],
            ranges: &[],
            tuples: &[],
        }),
        _ => None,
    }
}

/// How turns over a domain of a rank that do nothing are made apart: they change nothing.
pub(crate) fn made_apart<'b>(rank: u32) -> Option<Apart<'b>>
    ensures { IfSome result (λ a. a ≡ no_changes rank) }
{
    Some(Apart {
        rank,
        written: &[],
        reduced: &[],
        numbers: &[],
        ranges: &[],
        tuples: &[],
    })
}
