// The jobs of a forall's workers, one for each locale that has a part of the loop's domain. A worker owns its locale's pieces of the arrays that
// were taken apart, and is lent all others.

ghost use Rattle.std.specs.Prelude.{◌≡◌, ◌<◌, ◌==◌, if◌then◌else◌, ℕ, List, [], ◌∷◌, map, length, get_or, vec_len, IfOk, OnOk};
ghost use Rattle.std.specs.List.{AllByRecursion};
ghost use Rattle.dpl_sets.specs.Ranges.{RangeValue};
ghost use Rattle.dpl_map.specs.Maps.{AxisValue};
ghost use Rattle.dpl_map.specs.Parts.{part};
ghost use Rattle.dpl_memory.specs.Memory.{Memory, intents_by_slot};
ghost use Rattle.dpl_nodes.specs.Steps.{intent_view};
ghost use Rattle.dpl_apart.specs.Workers.{HaveWorkers};
ghost use Rattle.dpl_frame.specs.declared.share.Share.TheVariants.{Lent};
ghost use Rattle.dpl_workers.specs.Parts.{AreParts, IsJob, IsBegun, part_in};
ghost use Rattle.dpl_workers.specs.Taken.{AreTaken, AreThere, share_of, lacking};

use crate::job::Job;
use crate::parts::Part;
use crate::taken::Taken;
use crate::units::begin;
use dpl_frame::{Frame, Share, Slots};
use dpl_loop::Apart;
use dpl_nodes::Intent;
use std::alloc::{AllocError, Global};

// Makes room for a share. The slots up to it are lent.
fn make_room(own: &mut Vec<Share>, slot: usize) -> Result<(), AllocError>
    ensures room { OnOk result (slot < vec_len own.new) }
    ensures same { OnOk result ((k : ℕ) → get_or own.new.items k Lent ≡ get_or own.old.items k Lent) }
{
    while own.len() <= slot {
        own.push(Share::Lent)?;
    }
    Ok(())
}

// Puts a share into a slot.
fn put_share(own: &mut Vec<Share>, slot: usize, share: Share) -> Result<(), AllocError>
    ensures { OnOk result ((k : ℕ) → get_or own.new.items k Lent ≡ (if k == slot then share else get_or own.old.items k Lent)) }
{
    make_room(own, slot)?;
    own[slot] = share;
    Ok(())
}

// What a locale owns of the arrays that were taken apart: its pieces are taken out, each into its array's slot.
fn own_of(locale: u32, taken: &mut [Taken], alloc: Global) -> Result<Vec<Share>, AllocError>
    ensures there { OnOk result (AreThere locale taken.old) }
    ensures taken { OnOk result (taken.new ≡ map (lacking (locale ∷ [])) taken.old) }
    ensures own { IfOk result (λ own. (slot : ℕ) → get_or own.items slot Lent ≡ share_of locale slot taken.old) }
{
    let mut own = Vec::new(alloc);
    for k in (0..taken.len()).rev() {
        let one = &mut taken[k];
        // Each locale of the map has a piece, which is taken once: it would have to be made anew, for which no memory is taken.
        let Some(piece) = one.pieces.take(locale) else {
            return Err(AllocError);
        };
        put_share(&mut own, one.slot, Share::Piece(piece))?;
    }
    Ok(own)
}

// The jobs of the locales from 0 on, of which these are the parts.
fn begin_all<'w>(
    intents: &[Intent],
    parts: &'w [Option<Part>],
    taken: &mut [Taken],
    frame: &'w Frame<Slots>,
) -> Result<Vec<Job<'w>>, AllocError>
    ensures jobs { IfOk result (λ js. AllByRecursion
        (IsBegun (intents_by_slot (map intent_view intents.now)) parts.now taken.old frame.now) js.items) }
    ensures locales { IfOk result (λ js. (whole : List RangeValue) (axes : List AxisValue)
        → HaveWorkers (λ l. part_in whole axes l (get_or parts.now l None)) (length parts.now) (map (λ j. j.locale) js.items)) }
    ensures taken { IfOk result (λ js. taken.new ≡ map (lacking (map (λ j. j.locale) js.items)) taken.old) }
{
    let [rest @ .., part] = parts else {
        return Ok(Vec::new(frame.alloc()));
    };
    let mut jobs = begin_all(intents, rest, taken, frame)?;
    let Some(part) = part else {
        return Ok(jobs);
    };
    // No map has so many locales.
    let Ok(locale) = u32::try_from(rest.len()) else {
        return Err(AllocError);
    };
    let own = own_of(locale, taken, frame.alloc())?;
    let job = begin(intents, locale, part, own, frame)?;
    jobs.push(job)?;
    Ok(jobs)
}

/// The jobs of all locales that have a part. Each gets its pieces of what was taken apart, and is lent what the frame has.
///
/// # Errors
/// Out of memory.
pub(crate) fn jobs<'w>(
    apart: &Apart<'_>,
    parts: &'w [Option<Part>],
    taken: &mut Vec<Taken>,
    frame: &'w Frame<Slots>,
) -> Result<Vec<Job<'w>>, AllocError>
    ensures jobs { IfOk result (λ js. (whole : List RangeValue) (axes : List AxisValue) (m : Memory) → AreParts whole axes parts.now
        → AreTaken axes apart.now.written m taken.old.items frame.now.memory → AllByRecursion (IsJob apart.now whole axes m frame.now) js.items) }
    ensures locales { IfOk result (λ js. (whole : List RangeValue) (axes : List AxisValue) → AreParts whole axes parts.now
        → HaveWorkers (part whole axes) (length parts.now) (map (λ j. j.locale) js.items)) }
    ensures taken { IfOk result (λ js. taken.new.items ≡ map (lacking (map (λ j. j.locale) js.items)) taken.old.items) }
{
    begin_all(apart.reduced, parts, taken.as_mut_slice(), frame)
}
