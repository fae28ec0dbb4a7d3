// The words of sets, each with the slot that it is for.
// A set of a name that isn't in sight, or is no int and no bool, gives nothing; none such fits a program.

ghost use Rattle.std.specs.Prelude.{◌≡◌, ◌++◌, map, IfOk, OnOk, option_and_then};
ghost use Rattle.dpl_rules.specs.Types.{scalar_of};
ghost use Rattle.dpl_rules.specs.Sound.{name_and_value as name_and_value_of};
ghost use Rattle.dpl_scopes.specs.View.{declared_view};
ghost use Rattle.dpl_given.specs.Words.{word_of, word_in, words_in};

use dpl_limits::{int_in, name_and_value};
use dpl_scopes::{Declared, Scopes};
use dpl_tree::ScalarKind;
use std::alloc::{AllocError, Global};

// The word of a value's text: an int is itself, and `true` is 1.
fn word_of(kind: ScalarKind, text: &[u8]) -> i64
    ensures { result ≡ word_of kind text.now }
{
    match kind {
        ScalarKind::Int => int_in(text).unwrap_or(0),
        ScalarKind::Bool => i64::from(text == b"true".as_slice()),
    }
}

// The kind of what is declared, where it is an int or a bool.
fn kind_of(declared: Declared<'_>) -> Option<ScalarKind>
    ensures { result ≡ option_and_then scalar_of (declared_view declared.entry).type }
{
    declared.value_type?.scalar()
}

// Puts the word of a set behind those of others.
fn give(scopes: &Scopes<'_>, set: &[u8], words: &mut Vec<(usize, i64)>) -> Result<(), AllocError>
    ensures { OnOk result (words.new.items ≡ words.old.items ++ word_in scopes.now (name_and_value_of set.now)) }
{
    let Some((name, value)) = name_and_value(set) else {
        return Ok(());
    };
    let Some(declared) = scopes.lookup(name) else {
        return Ok(());
    };
    let Some(kind) = kind_of(declared) else {
        return Ok(());
    };
    words.push((declared.slot, word_of(kind, value)))?;
    Ok(())
}

/// The words that sets give to the slots of names in sight, in the order of the sets.
///
/// # Errors
/// Out of memory.
pub fn given(
    alloc: Global,
    scopes: &Scopes<'_>,
    sets: &[&str],
) -> Result<Vec<(usize, i64)>, AllocError>
    ensures { IfOk result (λ words. words.items ≡ words_in scopes.now (map (λ set. set.now) sets.now)) }
{
    let mut words = Vec::new(alloc);
    for set in sets {
        give(scopes, set.as_bytes(), &mut words)?;
    }
    Ok(words)
}
