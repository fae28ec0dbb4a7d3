// What workers leave besides arrays: what they have added to reduce variables, put together, and what the last turn has left.

ghost use Rattle.std.specs.Prelude.{◌≡◌, map, IfOk};
ghost use Rattle.dpl_memory.specs.Memory.{intents_by_slot};
ghost use Rattle.dpl_nodes.specs.Steps.{intent_view};
ghost use Rattle.dpl_apart.specs.Operands.{combined_words};
ghost use Rattle.dpl_frame.specs.Frames.{with_memory};
ghost use Rattle.dpl_frame.specs.Shares.{plain_of, with_plain};
ghost use Rattle.dpl_workers.specs.Joined.{word_left, words_behind, words_by, reduced_to};

use crate::job::Worked;
use dpl_frame::{Frame, Slots};
use dpl_nodes::Intent;
use dpl_tree::Op;
use std::alloc::AllocError;

// The words of two values, put together.
fn combined(op: Op, v: i64, w: i64) -> i64
    ensures { result ≡ combined_words op v w }
{
    match op {
        Op::Sum => v.wrapping_add(w),
        Op::Product => v.wrapping_mul(w),
        Op::AllOf => i64::from(v != 0 && w != 0),
        Op::AnyOf => i64::from(v != 0 || w != 0),
        Op::BitAnd => v & w,
        Op::BitOr => v | w,
        Op::BitXor => v ^ w,
        Op::Least => v.min(w),
        Op::Greatest => v.max(w),
    }
}

// The word of a reduce variable, to which what each worker has added is put, one after another.
fn joined(op: Op, slot: usize, worked: &[Worked], word: i64) -> i64
    ensures { result ≡ word_left (slot, op) worked.now word }
{
    let mut word = word;
    for one in worked {
        word = combined(op, word, one.words.number(slot));
    }
    word
}

/// Other words, and behind them those of reduce variables, to which what workers have added is put.
///
/// # Errors
/// Out of memory.
pub(crate) fn words_left(
    intents: &[Intent],
    worked: &[Worked],
    frame: &Frame<Slots>,
    mut words: Vec<i64>,
) -> Result<Vec<i64>, AllocError>
    ensures { IfOk result (λ ws. ws.items
        ≡ words_behind words.items (intents_by_slot (map intent_view intents.now)) worked.now frame.now.memory) }
{
    for intent in intents {
        words.push(joined(intent.op, intent.slot, worked, frame.number(intent.slot)))?;
    }
    Ok(words)
}

/// Sets reduce variables to words.
pub(crate) fn set_words(intents: &[Intent], words: &[i64], frame: &mut Frame<Slots>)
    ensures { frame.new ≡ with_memory (reduced_to (intents_by_slot (map intent_view intents.now)) words.now frame.old.memory) frame.old }
{
    for k in (0..intents.len().min(words.len())).rev() {
        frame.set_number(intents[k].slot, words[k]);
    }
}

/// Takes the numbers, ranges and tuples that the worker of a locale has left, if it has one.
pub(crate) fn take_left(locale: u32, mut worked: Vec<Worked>, frame: &mut Frame<Slots>)
    ensures { frame.new
        ≡ with_memory (with_plain (words_by locale worked.items (plain_of frame.old.memory)) frame.old.memory) frame.old }
{
    let Some(last) = worked.pop() else {
        return;
    };
    if last.locale == locale {
        frame.take_words(last.words);
    } else {
        take_left(locale, worked, frame);
    }
}
