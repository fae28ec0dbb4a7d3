// A text that was read is run, and what became of it is told.
// Where an error kept it from being read nothing is run.

ghost use Rattle.std.specs.Prelude.{◌≡◌, false, map, IfOk, IfErr};
ghost use Rattle.std.specs.IoError.{error_kind};
ghost use Rattle.std.specs.Io.KnownBytes.{Keeps};
ghost use Rattle.dpl_command.specs.Asked.{maps_of, settings_of};
ghost use Rattle.dpl_command.specs.Statuses.{IsUnreadBy};
ghost use Rattle.dpl_command.specs.Ending.{EndsWith, IsRunOf, read_of};

use crate::ended::{Ended, status_of, unread};
use crate::tell::tell_all;
use dpl_run::{Config, Maps, OpenGate, Out, run_text};
use dpl_settings::{RootMaps, Settings};
use std::alloc::Global;
use std::io;
use std::sync::Wait;
use std::thread::Threads;

// How often a blocked cell is tried.
const TRIES: u64 = 100000000;

// The maps that are asked for.
fn maps_of(maps: RootMaps) -> Maps
    ensures { result ≡ maps_of maps }
{
    match maps {
        RootMaps::AsIs => Maps::AsIs,
        RootMaps::Block => Maps::Block,
        RootMaps::Cyclic => Maps::Cyclic,
    }
}

// The settings of a run, as they are asked for: what is asked for is never refused.
fn config_of(asked: &Settings<'_>) -> Config
    ensures { result ≡ settings_of asked.now }
{
    Config::new(
        asked.locales,
        asked.budget,
        TRIES,
        asked.grid2,
        asked.grid3,
        maps_of(asked.maps),
    )
    .unwrap()
}

// Runs a text with the sets and by the settings that are asked for.
fn run_bytes<R: Threads + Wait + Sync, W: Out>(
    rt: &R,
    alloc: Global,
    text: &[u8],
    asked: &Settings<'_>,
    out: &mut W,
) -> Ended
    requires { W.has_failed out.old ≡ false }
    ensures { IsRunOf text.now (map (λ set. set.now) asked.now.sets.items) (settings_of asked.now) (W.contents out.old) (W.contents out.new) result }
{
    let config = config_of(asked);
    let sets = asked.sets.as_slice();
    match run_text(rt, alloc, text, sets, &config, &OpenGate, out) {
        Ok(outcome) => Ended::Ran(outcome),
        Err(refused) => Ended::Failed(refused),
    }
}

// Runs the text that was read. Where an error kept it from being read nothing is run.
fn run_read<R: Threads + Wait + Sync, W: Out>(
    rt: &R,
    alloc: Global,
    read: &io::Result<Vec<u8>>,
    asked: &Settings<'_>,
    out: &mut W,
) -> Ended
    requires { W.has_failed out.old ≡ false }
    ensures run { IfOk read.now (λ text. IsRunOf text.items (map (λ set. set.now) asked.now.sets.items) (settings_of asked.now)
        (W.contents out.old) (W.contents out.new) result) }
    ensures unread { IfErr read.now (λ e. IsUnreadBy (error_kind e) result × Keeps (W.contents out.old) (W.contents out.new)) }
{
    match read {
        Ok(text) => run_bytes(rt, alloc, text, asked, out),
        Err(error) => unread(error),
    }
}

/// Runs the text that `read_text` has read by the settings asked for, and tells what became of it; to a person, where `shown` says
/// that one reads the errors, in words too. What kept a text from being read is told by its kind.
pub fn program<R: Threads + Wait + Sync, W: Out, E: Out>(
    rt: &R,
    alloc: Global,
    read: &io::Result<Vec<u8>>,
    asked: &Settings<'_>,
    shown: bool,
    out: &mut W,
    errors: &mut E,
) -> u8
    requires unfailed { W.has_failed out.old ≡ false }
    requires errors_unfailed { E.has_failed errors.old ≡ false }
    ensures { EndsWith (read_of read.now (λ text. text.items) error_kind) (map (λ set. set.now) asked.now.sets.items)
        (settings_of asked.now) asked.now.dump shown
        (W.contents out.old) (W.contents out.new) (E.contents errors.old) (E.contents errors.new) (E.has_failed errors.new) result }
{
    let ended = run_read(rt, alloc, read, asked, out);
    let told = tell_all(alloc, asked, shown, read, &ended, errors);
    status_of(&ended, &told)
}
