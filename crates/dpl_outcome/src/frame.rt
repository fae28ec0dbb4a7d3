// The frame that a run starts from: its slots, what the command line gives to them, and how locales are laid out.

ghost use Rattle.std.specs.Prelude.{◌≡◌, ◌++◌, None, [], IfOk, OnOk};
ghost use Rattle.dpl_memory.specs.Resolved.{first_memory};
ghost use Rattle.dpl_frame.specs.Frames.{first_frame, with_memory, with_words};
ghost use Rattle.dpl_outcome.specs.Settings.{limits_of, layout_of};

use crate::config::Config;
use dpl_frame::Frame;
use std::alloc::{AllocError, Global};

// Gives these words to their slots, behind what was given before.
fn give_all(frame: &mut Frame, words: &[(usize, i64)]) -> Result<(), AllocError>
    ensures { OnOk result (frame.new ≡ with_words (record frame.old.memory.words { sets = frame.old.memory.words.sets ++ words.now }) frame.old) }
{
    for word in words {
        frame.give(word.0, word.1)?;
    }
    Ok(())
}

/// A frame with so many slots, in which these words are given.
///
/// # Errors
/// Out of memory.
pub fn first_frame(
    alloc: Global,
    slots: usize,
    words: &[(usize, i64)],
    config: &Config,
) -> Result<Frame, AllocError>
    ensures { IfOk result (λ f. f ≡ with_memory (first_memory (record { slots = slots; cells = 0; texts = []; words = words.now; histories = None }))
        (first_frame slots (limits_of config.now) (layout_of config.now))) }
{
    let mut frame = Frame::new(
        alloc,
        slots,
        config.budget(),
        config.locales(),
        config.layout(),
    )?;
    give_all(&mut frame, words)?;
    Ok(frame)
}
