// What the law of turns that are made apart asks of a memory: tested before the first worker is started. Where it doesn't hold, the turns are
// made in order.

ghost use Rattle.std.specs.Prelude.{◌≡◌, ◌<◌, pos, true, map, length, get_or};
ghost use Rattle.std.specs.List.{AllByRecursion};
ghost use Rattle.dpl_memory.specs.Memory.{is_among, intents_by_slot};
ghost use Rattle.dpl_nodes.specs.Steps.{intent_view};
ghost use Rattle.dpl_apart.specs.Operands.{IsExact, AreExact};
ghost use Rattle.dpl_apart.specs.Rows.{AreOnce};
ghost use Rattle.dpl_apart.specs.Memories.{IsFormed, words_in, operators_of};
ghost use Rattle.dpl_workers.specs.Formed.{IsWhole, HasPiece, IsReduced, AreReduced};

use dpl_frame::{Frame, Slots};
use dpl_loop::Apart;
use dpl_nodes::Intent;
use dpl_tree::Op;

// Whether the array in a slot has elements. An array that has some is there.
fn has_elements(slot: usize, frame: &Frame<Slots>) -> bool
    ensures { result ≡ true → HasPiece frame.now.memory slot }
{
    match frame.array(slot) {
        Some(array) => {
            let domain = array.domain();
            // Nothing is read here: that its ranges are written ones is a clause of this call.
            let _ = domain.domain();
            0 < domain.size()
        }
        None => false,
    }
}

// Whether the arrays in some slots have elements.
fn have_elements(slots: &[usize], frame: &Frame<Slots>) -> bool
    ensures { result ≡ true → AllByRecursion (HasPiece frame.now.memory) slots.now }
{
    for slot in slots {
        if !has_elements(*slot, frame) {
            return false;
        }
    }
    true
}

// Whether each of some slots stands among them once.
fn are_once(slots: &[usize]) -> bool
    ensures { result ≡ true → AreOnce slots.now }
{
    for (k, slot) in slots.iter().enumerate() {
        if slots[k + 1..].contains(slot) {
            return false;
        }
    }
    true
}

// Whether there are numbers in some slots.
fn have_numbers(slots: &[usize], frame: &Frame<Slots>) -> bool
    ensures { result ≡ true → AllByRecursion (λ slot. slot < length frame.now.memory.words.numbers) slots.now }
{
    for slot in slots {
        if !frame.has_number(*slot) {
            return false;
        }
    }
    true
}

// Whether there are indices in some slots.
fn have_tuples(slots: &[usize], frame: &Frame<Slots>) -> bool
    ensures { result ≡ true → AllByRecursion (λ slot. slot < length frame.now.memory.tuples) slots.now }
{
    for slot in slots {
        if !frame.has_tuple(*slot) {
            return false;
        }
    }
    true
}

// Whether a word is one of the kind that an operator combines: a truth value for `&&` and `||`, and an int for the others.
fn is_exact(op: Op, word: i64) -> bool
    ensures { result ≡ true → IsExact op word }
{
    match op {
        Op::AllOf | Op::AnyOf => word == 0 || word == 1,
        _ => true,
    }
}

// Whether a slot is that of one of some reduce variables.
fn is_reduced(slot: usize, intents: &[Intent]) -> bool
    ensures { result ≡ is_among slot (map (λ p. p.0) (intents_by_slot (map intent_view intents.now))) }
{
    for intent in intents {
        if slot == intent.slot {
            return true;
        }
    }
    false
}

// Whether a reduce variable has a slot of its own, which is there and doesn't begin anew, and in it a word of its kind.
fn may_reduce(intent: &Intent, others: &[Intent], numbers: &[usize], frame: &Frame<Slots>) -> bool
    ensures { result ≡ true → IsReduced numbers.now frame.now.memory (intent.now.slot, intent.now.op) (intents_by_slot (map intent_view others.now)) }
{
    if is_reduced(intent.slot, others) {
        return false;
    }
    if !frame.has_number(intent.slot) {
        return false;
    }
    if numbers.contains(&intent.slot) {
        return false;
    }
    is_exact(intent.op, frame.number(intent.slot))
}

// Whether so it is of all reduce variables.
fn are_reduced(intents: &[Intent], numbers: &[usize], frame: &Frame<Slots>) -> bool
    ensures { result ≡ true → AreReduced numbers.now frame.now.memory (intents_by_slot (map intent_view intents.now)) }
{
    for (k, intent) in intents.iter().enumerate() {
        if !may_reduce(intent, &intents[k + 1..], numbers, frame) {
            return false;
        }
    }
    true
}

// Whether two lists of reduce variables have the same slots and operators.
fn are_same(intents: &[Intent], others: &[Intent]) -> bool
    ensures { result ≡ true → intents_by_slot (map intent_view intents.now) ≡ intents_by_slot (map intent_view others.now) }
{
    if intents.len() != others.len() {
        return false;
    }
    for (intent, other) in intents.iter().zip(others) {
        if intent.slot != other.slot || intent.op != other.op {
            return false;
        }
    }
    true
}

/// Whether turns that tell how they may be made apart may be made so over what a frame holds.
pub(crate) fn may_start(apart: &Apart<'_>, frame: &Frame<Slots>) -> bool
    ensures formed { result ≡ true → IsFormed apart.now frame.now.memory }
    ensures exact { result ≡ true → AreExact (operators_of apart.now.reduced) (words_in apart.now.reduced frame.now.memory) }
    ensures once { result ≡ true → AreOnce apart.now.written }
    ensures whole { result ≡ true → AllByRecursion (IsWhole frame.now.memory) apart.now.written }
{
    if !are_same(frame.intents(), apart.reduced) {
        return false;
    }
    if !have_elements(apart.written, frame) {
        return false;
    }
    if !are_once(apart.written) {
        return false;
    }
    if !are_reduced(apart.reduced, apart.numbers, frame) {
        return false;
    }
    if !have_numbers(apart.numbers, frame) {
        return false;
    }
    have_tuples(apart.tuples, frame)
}
