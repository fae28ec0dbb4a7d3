// Ints that are folded onto a word, one after another: none of them has a fault.

ghost use Rattle.std.specs.Prelude.{◌≡◌, ◌≤◌, pos, if◌then◌else◌, Some, IfSome};
ghost use Rattle.std.specs.Ordering.{int_eq};
ghost use Rattle.dpl_nodes.specs.declared.step.IntDeed.TheVariants.{Reduce};
ghost use Rattle.dpl_batches.specs.Folded.{folded_one, folded_words, folded_where, Folds};

use dpl_loop::STRIP;
use dpl_nodes::{Fold, IntDeed, IntFold};
use dpl_tree::Op;
use dpl_values::fold::combined_ints;

// The operator of an intent, where it is one on ints.
fn reduction(op: Op) -> Option<IntFold>
    ensures { IfSome result (Folds Reduce (Some op)) }
{
    match Fold::of(op) {
        Fold::Ints(fold) => Some(fold),
        Fold::Truths(_) => None,
    }
}

/// By which operator what is done to an int folds the right side onto it, if it does so; the intent is that of the int's slot. The rules of
/// a forall let its turns change a reduce variable by no other operator.
pub(crate) fn fold_of(deed: &IntDeed<'_>, intent: Option<Op>) -> Option<IntFold>
    ensures { IfSome result (Folds deed.now intent) }
{
    match deed {
        IntDeed::Add => Some(IntFold::Sum),
        IntDeed::Multiply => Some(IntFold::Product),
        IntDeed::Reduce => reduction(intent?),
        _ => None,
    }
}

// A word after one int.
#[inline(always)]
fn folded_one(fold: IntFold, word: i64, value: i64) -> i64
    ensures { result ≡ folded_one fold word value }
{
    combined_ints(fold, word, value)
}

// A word after so many ints of a strip. It is inlined where the operator is known, so its loop doesn't ask for it.
#[inline(always)]
fn folded_by(fold: IntFold, word: i64, words: &[i64; STRIP], size: usize) -> i64
    requires { size ≤ 64 }
    ensures { result ≡ folded_words fold word words.now size }
{
    let mut made = word;
    for k in 0..size {
        made = folded_one(fold, made, words[k]);
    }
    made
}

/// A word after so many ints of a strip.
pub(crate) fn folded(fold: IntFold, word: i64, words: &[i64; STRIP], size: usize) -> i64
    requires { size ≤ 64 }
    ensures { result ≡ folded_words fold word words.now size }
{
    match fold {
        IntFold::Sum => folded_by(IntFold::Sum, word, words, size),
        IntFold::Product => folded_by(IntFold::Product, word, words, size),
        IntFold::BitAnd => folded_by(IntFold::BitAnd, word, words, size),
        IntFold::BitOr => folded_by(IntFold::BitOr, word, words, size),
        IntFold::BitXor => folded_by(IntFold::BitXor, word, words, size),
        IntFold::Least => folded_by(IntFold::Least, word, words, size),
        IntFold::Greatest => folded_by(IntFold::Greatest, word, words, size),
    }
}

// The same, where those ints count alone at whose places a mask has another word than 0.
#[inline(always)]
fn folded_where_by(
    fold: IntFold,
    word: i64,
    mask: &[i64; STRIP],
    words: &[i64; STRIP],
    size: usize,
) -> i64
    requires { size ≤ 64 }
    ensures { result ≡ folded_where fold word mask.now words.now size }
{
    let mut made = word;
    for k in 0..size {
        let next = folded_one(fold, made, words[k]);
        made = chosen(mask[k], made, next);
    }
    made
}

/// A word after those of so many ints of a strip at whose places a mask has another word than 0.
pub(crate) fn folded_where(
    fold: IntFold,
    word: i64,
    mask: &[i64; STRIP],
    words: &[i64; STRIP],
    size: usize,
) -> i64
    requires { size ≤ 64 }
    ensures { result ≡ folded_where fold word mask.now words.now size }
{
    match fold {
        IntFold::Sum => folded_where_by(IntFold::Sum, word, mask, words, size),
        IntFold::Product => folded_where_by(IntFold::Product, word, mask, words, size),
        IntFold::BitAnd => folded_where_by(IntFold::BitAnd, word, mask, words, size),
        IntFold::BitOr => folded_where_by(IntFold::BitOr, word, mask, words, size),
        IntFold::BitXor => folded_where_by(IntFold::BitXor, word, mask, words, size),
        IntFold::Least => folded_where_by(IntFold::Least, word, mask, words, size),
        IntFold::Greatest => folded_where_by(IntFold::Greatest, word, mask, words, size),
    }
}

/// The second of two words, unless the word of a mask is 0.
#[inline(always)]
pub(crate) fn chosen(mask: i64, first: i64, second: i64) -> i64
    ensures { result ≡ (if int_eq mask (pos 0) then first else second) }
{
    if mask == 0 { first } else { second }
}
