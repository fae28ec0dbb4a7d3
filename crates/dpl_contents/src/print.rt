// What is printed of an array: its elements in domain order, with a space between two, a newline between two rows, and an
// empty line between two planes.

ghost use Rattle.std.specs.Prelude.{◌≡◌, ◌++◌, [], ◌∷◌, map, drop, take, OnOk};
ghost use Rattle.dpl_language.specs.Printing.{printed, printed_array, laid_out};
ghost use Rattle.dpl_language.specs.Ranges.{size_in};
ghost use Rattle.dpl_memory.specs.Memory.{element_as};
ghost use Rattle.dpl_contents.specs.Range.{range_word};
ghost use Rattle.dpl_contents.specs.Kinds.{kind_of};
ghost use Rattle.dpl_contents.specs.Arrays.{words_of};
ghost use Rattle.dpl_contents.specs.Layout.{texts_of, spaced, gap_before};

use crate::parts::Parts;
use crate::{ArrayWords, RangeWord};
use dpl_array::Walk;
use itoa::Buffer;
use std::alloc::AllocError;

/// What the words of an array stand for: ints, or truth values, of which 0 is false.
#[derive(Clone, Copy, PartialEq, Eq, Debug)]
pub enum ElementKind {
    Int,
    Truth,
}

/// Appends what is printed of an array: nothing where it has no elements.
///
/// # Errors
/// Out of memory for what is printed.
pub fn print_array(
    kind: ElementKind,
    array: &ArrayWords,
    out: &mut Vec<u8>,
) -> Result<(), AllocError>
    ensures { OnOk result (out.new.items ≡ out.old.items ++ printed_array array.now.ranges (map (element_as (kind_of kind)) array.now.words)) }
{
    let domain = array.domain();
    if domain.size() == 0 {
        return Ok(());
    }
    let mut walk = array.walk();
    match domain.parts() {
        Parts::Line(inner) => print_line(kind, &inner, &mut walk, out),
        Parts::Plane(middle, inner) => print_plane(kind, &middle, &inner, &mut walk, out),
        Parts::Space(outer, middle, inner) => {
            print_space(kind, &outer, &middle, &inner, &mut walk, out)
        }
    }
}

/// Appends each element of an array behind a space, in the order of its domain.
///
/// # Errors
/// Out of memory for the elements.
#[tactic(auto, using(crate::proofs::Spaced::spaced_next))]
pub fn list_array(
    kind: ElementKind,
    array: &ArrayWords,
    out: &mut Vec<u8>,
) -> Result<(), AllocError>
    ensures { OnOk result (out.new.items ≡ out.old.items ++ spaced (texts_of (kind_of kind) array.now.words)) }
{
    let mut walk = array.walk();
    for _ in 0..array.domain().size() {
        list_next(kind, &mut walk, out)?;
    }
    Ok(())
}

// Appends the next element behind a space, if there is one.
fn list_next(
    kind: ElementKind,
    walk: &mut Walk<'_, i64>,
    out: &mut Vec<u8>,
) -> Result<(), AllocError>
    ensures text { OnOk result (out.new.items ≡ out.old.items ++ spaced (texts_of (kind_of kind) (words_of (take 1 walk.old)))) }
    ensures rest { walk.new ≡ drop 1 walk.old }
{
    match walk.next() {
        Some((_, word)) => {
            out.push(b' ')?;
            print_word(kind, word, out)
        }
        None => Ok(()),
    }
}

// Appends the planes of three ranges, with an empty line between two.
fn print_space(
    kind: ElementKind,
    outer: &RangeWord,
    middle: &RangeWord,
    inner: &RangeWord,
    walk: &mut Walk<'_, i64>,
    out: &mut Vec<u8>,
) -> Result<(), AllocError>
    ensures text { OnOk result (out.new.items
        ≡ out.old.items ++ laid_out (range_word outer.now ∷ range_word middle.now ∷ range_word inner.now ∷ [])
        (texts_of (kind_of kind) (words_of walk.old))) }
{
    for k in 0..outer.count() {
        separate(k, b"\n\n", out)?;
        print_plane(kind, middle, inner, walk, out)?;
    }
    Ok(())
}

// Appends the rows of two ranges, with a newline between two.
fn print_plane(
    kind: ElementKind,
    middle: &RangeWord,
    inner: &RangeWord,
    walk: &mut Walk<'_, i64>,
    out: &mut Vec<u8>,
) -> Result<(), AllocError>
    ensures text { OnOk result (out.new.items
        ≡ out.old.items ++ laid_out (range_word middle.now ∷ range_word inner.now ∷ []) (texts_of (kind_of kind) (words_of walk.old))) }
    ensures rest { OnOk result (walk.new ≡ drop (size_in (range_word middle.now ∷ range_word inner.now ∷ [])) walk.old) }
{
    for k in 0..middle.count() {
        separate(k, b"\n", out)?;
        print_line(kind, inner, walk, out)?;
    }
    Ok(())
}

// Appends the elements of a row, with a space between two.
fn print_line(
    kind: ElementKind,
    inner: &RangeWord,
    walk: &mut Walk<'_, i64>,
    out: &mut Vec<u8>,
) -> Result<(), AllocError>
    ensures text { OnOk result (out.new.items ≡ out.old.items ++ laid_out (range_word inner.now ∷ []) (texts_of (kind_of kind) (words_of walk.old))) }
    ensures rest { OnOk result (walk.new ≡ drop (size_in (range_word inner.now ∷ [])) walk.old) }
{
    for k in 0..inner.count() {
        separate(k, b" ", out)?;
        print_next(kind, walk, out)?;
    }
    Ok(())
}

// Appends the next element, if there is one.
fn print_next(
    kind: ElementKind,
    walk: &mut Walk<'_, i64>,
    out: &mut Vec<u8>,
) -> Result<(), AllocError>
    ensures text { OnOk result (out.new.items ≡ out.old.items ++ laid_out [] (texts_of (kind_of kind) (words_of (take 1 walk.old)))) }
    ensures rest { walk.new ≡ drop 1 walk.old }
{
    match walk.next() {
        Some((_, word)) => print_word(kind, word, out),
        None => Ok(()),
    }
}

// Appends what is printed of a word.
fn print_word(kind: ElementKind, word: i64, out: &mut Vec<u8>) -> Result<(), AllocError>
    ensures { OnOk result (out.new.items ≡ out.old.items ++ printed (element_as (kind_of kind) word)) }
{
    match kind {
        ElementKind::Int => {
            let mut buffer = Buffer::new();
            out.extend_from_slice(buffer.format(word).as_bytes())?;
        }
        ElementKind::Truth => {
            let text: &[u8] = if word == 0 { b"false" } else { b"true" };
            out.extend_from_slice(text)?;
        }
    }
    Ok(())
}

// Appends what stands between two parts, if there is a part before the one with the number `k`.
fn separate(k: u64, gap: &[u8], out: &mut Vec<u8>) -> Result<(), AllocError>
    ensures { OnOk result (out.new.items ≡ out.old.items ++ gap_before k gap.now) }
{
    if 0 < k {
        out.extend_from_slice(gap)?;
    }
    Ok(())
}
