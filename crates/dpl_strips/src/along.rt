// Words along a row that goes on across pieces: each piece has some of them side by side, and the rest of the row begins in the next one.

ghost use Rattle.std.specs.Prelude.{◌≡◌, ◌≤◌, ◌<◌, ℕ, ◌+◌, pos, Some, get_or, slice_get, IfSome};
ghost use Rattle.dpl_array.specs.Elements.{behind};
ghost use Rattle.dpl_memory.specs.Memory.{array_at, held_at};
ghost use Rattle.dpl_strips.specs.Truths.{IsFoundAlong, IsWordOf};

use crate::apply::copy;
use dpl_arithmetic::index::{coordinate, plane, space};
use dpl_frame::{Arrays, Frame};
use dpl_loop::{Row, STRIP, Strip};

/// The rest of a row, behind so many of its first indices. None where its last coordinate would leave its word.
pub fn rest_of(row: Row, size: usize) -> Option<Row>
    requires { size ≤ 64 }
    ensures { IfSome result (λ rest. rest ≡ record { first = behind size row; step = row.step }) }
{
    let first = row.first();
    let (outer, middle, inner) = first.numbers();
    let Some(far) = row.step().checked_mul(size as i64) else {
        return None;
    };
    let Some(last) = inner.checked_add(far) else {
        return None;
    };
    match first.rank() {
        1 => Some(row.begun_at(coordinate(last))),
        2 => Some(row.begun_at(plane(middle, last))),
        _ => Some(row.begun_at(space(outer, middle, last))),
    }
}

// Puts the first of some words behind so many of a strip's, at most so many; how many.
fn append(strip: &mut Strip, size: usize, most: usize, words: &[i64]) -> usize
    requires { size + most ≤ 64 }
    ensures row { strip.new.row ≡ strip.old.row }
    ensures most { result ≤ most }
    ensures before { (k : ℕ) → k < size → get_or strip.new.words k (pos 0) ≡ get_or strip.old.words k (pos 0) }
    ensures words { (k : ℕ) → k < result → slice_get words.now k ≡ Some (get_or strip.new.words (size + k) (pos 0)) }
{
    let more = words.len().min(most);
    strip.words[size..size + more].copy_from_slice(&words[..more]);
    more
}

/// Makes a strip the words of the array in a slot at the first indices of a row, from piece after piece: as many as its size says at entry, if so
/// many are found. The strip keeps its own row.
#[inline(never)]
pub fn gather<A: Arrays>(slot: usize, at: Row, frame: &Frame<A>, strip: &mut Strip)
    ensures row { strip.new.row ≡ strip.old.row }
    ensures words { (k : ℕ) → k < strip.new.size → k < 64
        → held_at (behind k at) (array_at slot frame.now.memory) ≡ Some (get_or strip.new.words k (pos 0)) }
{
    let wanted = strip.size.min(STRIP);
    let mut size = 0;
    while size < wanted {
        let Some(rest) = rest_of(at, size) else {
            break;
        };
        let more = append(strip, size, wanted - size, frame.run(slot, rest));
        if more == 0 {
            break;
        }
        size += more;
    }
    strip.size = size;
}

/// Where the words of an array are along a row: side by side; or, where fewer are than are wanted, along the row that is told, in several pieces.
#[derive(Clone, Copy)]
pub(crate) enum Found<'w> {
    Words(&'w [i64]),
    Along(Row),
}

/// The words of an array along a row: those that lie side by side, if there are as many as are wanted, or none.
#[inline(always)]
pub(crate) fn found_along<A: Arrays>(
    slot: usize,
    at: Row,
    wanted: usize,
    frame: &Frame<A>,
) -> Found<'_>
    ensures { IsFoundAlong slot at frame.now.memory result }
{
    let words = frame.run(slot, at);
    if !words.is_empty() && words.len() < wanted {
        Found::Along(at)
    } else {
        Found::Words(words)
    }
}

/// Makes a strip the words that are found of the array in a slot: those that lie side by side, or as many as its size says at entry. It keeps its
/// own row.
pub(crate) fn take<A: Arrays>(strip: &mut Strip, slot: usize, found: Found<'_>, frame: &Frame<A>)
    ensures row { strip.new.row ≡ strip.old.row }
    ensures words { (k : ℕ) → k < strip.new.size → k < 64 → IsWordOf slot frame.now.memory k (get_or strip.new.words k (pos 0)) found.entry }
{
    match found {
        Found::Words(words) => copy(strip, words),
        Found::Along(at) => gather(slot, at, frame, strip),
    }
}
