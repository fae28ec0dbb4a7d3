// The reduce variables of a worker begin with nothing added.

ghost use Rattle.std.specs.Prelude.{◌≡◌, map, length, IfOk};
ghost use Rattle.dpl_memory.specs.Memory.{intents_by_slot};
ghost use Rattle.dpl_nodes.specs.Steps.{intent_view};
ghost use Rattle.dpl_apart.specs.Operands.{unit_word, unit_words};
ghost use Rattle.dpl_apart.specs.Memories.{operators_of};
ghost use Rattle.dpl_frame.specs.Frames.{with_memory};
ghost use Rattle.dpl_frame.specs.Shares.{own_before};
ghost use Rattle.dpl_workers.specs.Formed.{with_units, begun_with};

use crate::job::Job;
use crate::parts::Part;
use dpl_frame::{Arrays, Frame, Share, Slots};
use dpl_nodes::Intent;
use dpl_tree::Op;
use std::alloc::AllocError;

// The word over nothing.
fn unit_word(op: Op) -> i64
    ensures { result ≡ unit_word op }
{
    match op {
        Op::Sum => 0,
        Op::Product => 1,
        Op::AllOf => 1,
        Op::AnyOf => 0,
        Op::BitAnd => -1,
        Op::BitOr => 0,
        Op::BitXor => 0,
        Op::Least => i64::MAX,
        Op::Greatest => i64::MIN,
    }
}

// Sets reduce variables to their words over nothing.
fn set_units<A: Arrays>(intents: &[Intent], frame: &mut Frame<A>)
    ensures { frame.new ≡ with_memory (with_units (intents_by_slot (map intent_view intents.now)) frame.old.memory) frame.old }
{
    for k in (0..intents.len()).rev() {
        frame.set_number(intents[k].slot, unit_word(intents[k].op));
    }
}

/// The job of a locale: a frame that has these arrays of its own before those of the run, and reduce variables to which nothing was added.
///
/// # Errors
/// Out of memory.
pub(crate) fn begin<'w>(
    intents: &[Intent],
    locale: u32,
    part: &'w Part,
    own: Vec<Share>,
    frame: &'w Frame<Slots>,
) -> Result<Job<'w>, AllocError>
    ensures { IfOk result (λ job. (job.locale ≡ locale) × (job.part.now ≡ part.now)
        × (job.frame ≡ with_memory (begun_with (intents_by_slot (map intent_view intents.now)) own.items frame.now.memory) frame.now)) }
{
    let mut frame = frame.worker(own)?;
    set_units(intents, &mut frame);
    Ok(Job {
        locale,
        part,
        frame,
    })
}
