// The settings of a run.
// A data-parallel text sees the budget alone; the other numbers say where work is done.

ghost use Rattle.std.specs.Prelude.{◌≡◌, ◌↔◌, IsOk, IfOk, IsTrue};
ghost use Rattle.dpl_outcome.specs.Settings.{Settings, AreLocales, IsCount, IsGrid2, IsGrid3, layout_of};

use dpl_layout::{Layout, Maps};
use std::marker::Model;
use thiserror::Error;

/// The greatest budget, and the greatest number of tries: 2^32.
pub const MOST_TURNS: u64 = 1 << 32;

/// Why numbers are no settings. Of several causes the first one here is told.
#[derive(Clone, Copy, PartialEq, Eq, Debug, Error)]
pub enum ConfigFault {
    /// There are not 1 to 64 locales.
    #[error("there are not 1 to 64 locales")]
    Locales,
    /// The budget is not from 1 to 2^32.
    #[error("the budget is not from 1 to 4294967296")]
    Budget,
    /// The number of tries is not from 1 to 2^32.
    #[error("the tries are not from 1 to 4294967296")]
    Tries,
    /// The extents of the grid of two dimensions do not multiply to the number of locales.
    #[error("the extents of the grid of two dimensions do not multiply to the number of locales")]
    Grid2,
    /// The extents of the grid of three dimensions do not multiply to the number of locales.
    #[error("the extents of the grid of three dimensions do not multiply to the number of locales")]
    Grid3,
}

/// The settings of a run: the number of locales, how many turns a loop may have, how often a blocked cell is tried,
/// how many locales lie along each dimension, and which maps domains get.
#[derive(Clone, Copy)]
pub struct Config {
    locales: u32,
    budget: u64,
    tries: u64,
    grid2: [u32; 2],
    grid3: [u32; 3],
    maps: Maps,
}

impl Model for Config {
    ghost use Rattle.dpl_outcome.specs.Settings.{Settings, IsLaidOut};

    ghost Value = { Settings };

    ghost view = { λ c. record { locales = c.locales; budget = c.budget; tries = c.tries; grid2 = c.grid2; grid3 = c.grid3; maps = c.maps } };

    ghost invariant = { λ c. IsLaidOut c.locales c.grid2 c.grid3 };

    ghost inverse = { λ s. record { locales = s.locales; budget = s.budget; tries = s.tries; grid2 = s.grid2; grid3 = s.grid3; maps = s.maps } };
}

impl Config {
    /// Settings of these numbers, which are held as they are handed in: 1 to 64 locales, a budget and tries from 1 to
    /// [`MOST_TURNS`] each, and grids whose extents multiply to the number of locales.
    ///
    /// # Errors
    /// The first cause, in the order of [`ConfigFault`].
    pub fn new(
        locales: u32,
        budget: u64,
        tries: u64,
        grid2: [u32; 2],
        grid3: [u32; 3],
        maps: Maps,
    ) -> Result<Config, ConfigFault>
        ensures ok { IsOk result ↔ (AreLocales locales × IsCount budget × IsCount tries × IsGrid2 locales grid2 × IsGrid3 locales grid3) }
        ensures held { IfOk result (λ config. config
            ≡ record { locales = locales; budget = budget; tries = tries; grid2 = grid2; grid3 = grid3; maps = maps }) }
        ensures locales { (result ≡ Err ConfigFault.Locales) ↔ (¬ AreLocales locales) }
        ensures budget { (result ≡ Err ConfigFault.Budget) ↔ (AreLocales locales × ¬ IsCount budget) }
        ensures tries { (result ≡ Err ConfigFault.Tries) ↔ (AreLocales locales × IsCount budget × ¬ IsCount tries) }
        ensures grid2 { (result ≡ Err ConfigFault.Grid2) ↔ (AreLocales locales × IsCount budget × IsCount tries × ¬ IsGrid2 locales grid2) }
        ensures grid3 { (result ≡ Err ConfigFault.Grid3) ↔ (AreLocales locales × IsCount budget × IsCount tries × IsGrid2 locales grid2
            × ¬ IsGrid3 locales grid3) }
    {
        if locales < 1 || 64 < locales {
            return Err(ConfigFault::Locales);
        }
        if budget < 1 || MOST_TURNS < budget {
            return Err(ConfigFault::Budget);
        }
        if tries < 1 || MOST_TURNS < tries {
            return Err(ConfigFault::Tries);
        }
        if !is_grid2(locales, grid2) {
            return Err(ConfigFault::Grid2);
        }
        if !is_grid3(locales, grid3) {
            return Err(ConfigFault::Grid3);
        }
        Ok(Config {
            locales,
            budget,
            tries,
            grid2,
            grid3,
            maps,
        })
    }

    /// How many locales there are, from 1 to 64.
    pub fn locales(&self) -> u32
        ensures { result ≡ self.now.locales }
    {
        self.locales
    }

    /// How locales are laid out, and which maps roots get.
    pub(crate) fn layout(&self) -> Layout
        ensures { result ≡ layout_of self.now }
    {
        let Some(layout) = Layout::new(self.locales, self.grid2, self.grid3, self.maps) else {
            unreachable!()
        };
        layout
    }

    /// How many turns a loop may have, from 1 to 2^32.
    pub fn budget(&self) -> u64
        ensures { result ≡ self.now.budget }
    {
        self.budget
    }
}

// Whether the extents of a grid of two dimensions multiply to the number of locales.
fn is_grid2(locales: u32, grid: [u32; 2]) -> bool
    ensures { IsTrue result ↔ IsGrid2 locales grid }
{
    let [rows, columns] = grid;
    rows as u64 * columns as u64 == locales as u64
}

// Whether the extents of a grid of three dimensions multiply to the number of locales.
fn is_grid3(locales: u32, grid: [u32; 3]) -> bool
    ensures { IsTrue result ↔ IsGrid3 locales grid }
{
    let [planes, rows, columns] = grid;
    (planes as u64 * rows as u64).checked_mul(columns as u64) == Some(locales as u64)
}
