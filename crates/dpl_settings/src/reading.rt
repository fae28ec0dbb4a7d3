// From a command line to its settings: what clap found is read as the text's file, its sets, and options.
// Read `settings`, whose clauses name each field.

ghost use Rattle.std.specs.Prelude.{◌≡◌, ◌*◌, ◌^◌, ◌≤◌, [], ◌∷◌, Some, IfOk, IfErr, IfSome, false, map, option_and_then, option_map, slice_index, unwrap_or};
ghost use Rattle.std.specs.Option.{option_map_or};
ghost use Rattle.clap.specs.Words.{all_of, fault_of, first_of, found_of, rows_of};
ghost use Rattle.dpl_settings.specs.CommandLine.{command_line, found, all_sets, budget_of, file_of, first_word, grid2_of, grid3_of, locales_of};
ghost use Rattle.dpl_settings.specs.CommandLine.{maps_of, wants_dump, count_of, grid2_in, grid3_in, has_equals, is_true, maps_in, sets_of};
ghost use Rattle.dpl_settings.specs.Causes.{IsCause};

use crate::asked::Settings;
use crate::command::matches;
use crate::fault::{LineFault, WrongValue};
use crate::grid::{grid2_in, grid3_in};
use crate::maps::{RootMaps, maps_in};
use crate::number::{MOST_TURNS, count_of, locales_in};
use clap::ArgMatches;
use std::alloc::{AllocError, Global};

/// The settings that a command line asks for. The first word is the program's name.
///
/// # Errors
/// [`LineFault::Line`] is what clap tells of the words. Where it takes them, [`LineFault::Value`] is the first option, in the
/// order of budget, locales, grids and maps, whose value isn't one that it may have. [`LineFault::Memory`] says nothing of
/// the words.
pub fn settings<'a>(alloc: Global, words: &'a [&'a str]) -> Result<Settings<'a>, LineFault>
    ensures taken { IfOk result (λ _. fault_of command_line (map (λ w. w.now) words.entry.now) ≡ []) }
    ensures file { IfOk result (λ s. option_map (λ w. w.now) s.file ≡ file_of (first_word (found (map (λ w. w.now) words.entry.now)))) }
    ensures sets { IfOk result (λ s. map (λ w. w.now) s.sets.items ≡ all_sets (found (map (λ w. w.now) words.entry.now))) }
    ensures budget { IfOk result (λ s. Some s.budget ≡ budget_of (found (map (λ w. w.now) words.entry.now))) }
    ensures locales { IfOk result (λ s. Some s.locales ≡ locales_of (found (map (λ w. w.now) words.entry.now))) }
    ensures grid2 { IfOk result (λ s. Some s.grid2 ≡ grid2_of s.locales (found (map (λ w. w.now) words.entry.now))) }
    ensures grid3 { IfOk result (λ s. Some s.grid3 ≡ grid3_of s.locales (found (map (λ w. w.now) words.entry.now))) }
    ensures maps { IfOk result (λ s. Some s.maps ≡ maps_of (found (map (λ w. w.now) words.entry.now))) }
    ensures dump { IfOk result (λ s. s.dump ≡ wants_dump (found (map (λ w. w.now) words.entry.now))) }
    ensures cause { IfErr result (IsCause (map (λ w. w.now) words.entry.now)) }
{
    let matches = matches(alloc, words)?;
    let Some(budget) = turns(first(&matches, "budget")) else {
        return Err(LineFault::Value(WrongValue::Budget));
    };
    let Some(locales) = locales(first(&matches, "locales")) else {
        return Err(LineFault::Value(WrongValue::Locales));
    };
    let Some(grid2) = grid2(first(&matches, "grid2"), locales) else {
        return Err(LineFault::Value(WrongValue::Grid2));
    };
    let Some(grid3) = grid3(first(&matches, "grid3"), locales) else {
        return Err(LineFault::Value(WrongValue::Grid3));
    };
    let Some(maps) = maps(first(&matches, "maps")) else {
        return Err(LineFault::Value(WrongValue::Maps));
    };
    let word = first(&matches, "file");
    let sets = sets(alloc, word, all(&matches, "set"))?;
    Ok(Settings {
        file: file(word),
        sets,
        budget,
        locales,
        grid2,
        grid3,
        maps,
        dump: is_true(first(&matches, "dump")),
    })
}

// The first value that clap found for an argument.
fn first<'a>(matches: &ArgMatches<'a>, id: &str) -> Option<&'a str>
    ensures { option_map (λ w. w.now) result ≡ first_of id.now (rows_of (found_of matches.now)) }
{
    matches.get_str(id)
}

// All values that clap found for an argument, where it found some.
fn all<'m, 'a>(matches: &'m ArgMatches<'a>, id: &str) -> Option<&'m [&'a str]>
    ensures { option_map (λ s. map (λ w. w.now) s.now) result ≡ all_of id.now (rows_of (found_of matches.now)) }
{
    matches.get_strs(id)
}

// Whether a word holds a `=`, so that it is a set.
fn has_equals(word: &str) -> bool
    ensures { result ≡ has_equals word.now }
{
    word.as_bytes().contains(&b'=')
}

// The file, of the first word.
fn file<'a>(first: Option<&'a str>) -> Option<&'a str>
    ensures { option_map (λ w. w.now) result ≡ file_of (option_map (λ w. w.now) first.entry) }
{
    match first {
        Some(word) if !has_equals(word) => Some(word),
        _ => None,
    }
}

// The sets, of the first word and the others.
fn sets<'a>(
    alloc: Global,
    first: Option<&'a str>,
    others: Option<&[&'a str]>,
) -> Result<Vec<&'a str>, AllocError>
    ensures { IfOk result (λ sets. map (λ w. w.now) sets.items
        ≡ sets_of (option_map (λ w. w.now) first.entry) (option_map (λ s. map (λ w. w.now) s.now) others.entry)) }
{
    let mut sets = Vec::new(alloc);
    if let Some(word) = first {
        if has_equals(word) {
            sets.push(word)?;
        }
    }
    if let Some(others) = others {
        sets.extend_from_slice(others)?;
    }
    Ok(sets)
}

// Whether a flag is set, by its value.
fn is_true(value: Option<&str>) -> bool
    ensures { result ≡ option_map_or is_true (option_map (λ w. w.now) value.entry) false }
{
    match value {
        Some(value) => value == "true",
        None => false,
    }
}

// The number of turns that an option's value is, if it is one.
fn turns(value: Option<&str>) -> Option<u64>
    ensures value { result ≡ option_and_then (count_of (2 ^ 32)) (option_map (λ w. w.now) value.entry) }
    ensures within { IfSome result (λ count. (1 ≤ count) × (count ≤ 2 ^ 32)) }
{
    count_of(value?, MOST_TURNS)
}

// The number of locales that an option's value is, if it is one.
fn locales(value: Option<&str>) -> Option<u32>
    ensures value { result ≡ option_and_then (count_of 64) (option_map (λ w. w.now) value.entry) }
    ensures within { IfSome result (λ count. (1 ≤ count) × (count ≤ 64)) }
{
    locales_in(value?)
}

// The grid of two dimensions that an option's value is, if it is one; without a value all locales in one column.
fn grid2(value: Option<&str>, locales: u32) -> Option<[u32; 2]>
    ensures value { result ≡ option_map_or (grid2_in locales) (option_map (λ w. w.now) value.entry) (Some (locales ∷ 1 ∷ [])) }
    ensures fits { IfSome result (λ grid. slice_index grid 0 * slice_index grid 1 ≡ locales) }
{
    match value {
        Some(text) => grid2_in(text, locales),
        None => Some([locales, 1]),
    }
}

// The same of three dimensions.
fn grid3(value: Option<&str>, locales: u32) -> Option<[u32; 3]>
    ensures value { result ≡ option_map_or (grid3_in locales) (option_map (λ w. w.now) value.entry) (Some (locales ∷ 1 ∷ 1 ∷ [])) }
    ensures fits { IfSome result (λ grid. slice_index grid 0 * slice_index grid 1 * slice_index grid 2 ≡ locales) }
{
    match value {
        Some(text) => grid3_in(text, locales),
        None => Some([locales, 1, 1]),
    }
}

// The maps that an option's value asks for, if it is a word for maps.
fn maps(value: Option<&str>) -> Option<RootMaps>
    ensures { result ≡ option_and_then maps_in (option_map (λ w. w.now) value.entry) }
{
    maps_in(value?)
}
