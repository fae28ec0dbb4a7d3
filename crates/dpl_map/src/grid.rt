// A grid: the locales that a map deals indices out to, in one to three dimensions.

ghost use Rattle.std.specs.Prelude.{◌≡◌, ◌≤◌, ◌*◌, ◌↔◌, length, IsOk, IfOk};
ghost use Rattle.dpl_sets.specs.Indices.{IsRank};
ghost use Rattle.dpl_domain.specs.Ranks.{last_of, IsPadded};
ghost use Rattle.dpl_map.specs.Grids.{grid_size, IsGridSize};

use dpl_domain::Dimensions;
use std::marker::Model;
use thiserror::Error;

/// The most locales that a grid may have.
pub const MOST_LOCALES: u32 = 64;

/// Why some extents are no grid.
#[derive(Clone, Copy, Debug, PartialEq, Eq, Error)]
pub enum GridFault {
    /// There are not one to three extents.
    #[error("a grid has one to three dimensions")]
    Rank,
    /// There are one to three extents, and their product is not from 1 to 64.
    #[error("a grid has 1 to 64 locales")]
    Locales,
}

/// A grid of locales, seen as the list of its one to three extents. Locales are numbered from 0, row by row.
#[derive(Clone, Copy, Debug, PartialEq, Eq)]
pub struct Grid {
    extents: Dimensions<u32>,
}

impl Model for Grid {
    ghost use Rattle.std.specs.Prelude.{List, ℕ};

    ghost Value = { List ℕ };

    ghost use Rattle.dpl_map.specs.GridFields.{IsGrid};

    ghost view = { λ g. g.extents };

    ghost invariant = { λ g. IsGrid g.extents };

    ghost inverse = { λ v. record { extents = v } };
}

impl Grid {
    /// The grid with these extents, if there are one to three of them with 1 to 64 locales.
    pub fn new(extents: &[u32]) -> Result<Grid, GridFault>
        ensures ok { IsOk result ↔ (IsRank extents.now × IsGridSize (grid_size extents.now)) }
        ensures held { IfOk result (λ grid. grid ≡ extents.now) }
        ensures rank { (result ≡ Err GridFault.Rank) ↔ (¬ IsRank extents.now) }
        ensures locales { (result ≡ Err GridFault.Locales) ↔ (IsRank extents.now × ¬ IsGridSize (grid_size extents.now)) }
    {
        match Dimensions::new(extents) {
            Some(extents) if extents.rank() > 0 => Grid::checked(extents),
            _ => Err(GridFault::Rank),
        }
    }

    // The grid with these extents, if they have 1 to 64 locales.
    fn checked(extents: Dimensions<u32>) -> Result<Grid, GridFault>
        requires { IsRank extents }
        ensures ok { IsOk result ↔ IsGridSize (grid_size extents) }
        ensures held { IfOk result (λ grid. grid ≡ extents) }
        ensures locales { (result ≡ Err GridFault.Locales) ↔ (¬ IsGridSize (grid_size extents)) }
    {
        let (outer, middle, inner) = extents.places();
        let locales = outer as u128 * middle as u128 * inner as u128;
        if locales < 1 || locales > MOST_LOCALES as u128 {
            return Err(GridFault::Locales);
        }
        Ok(Grid { extents })
    }

    /// How many extents it has.
    pub fn rank(&self) -> u32
        ensures rank { result ≡ length self.now }
        ensures limits { IsRank self.now }
    {
        self.extents.rank()
    }

    /// The extents as three numbers, the last one last. Those in front that the grid does not have are 1.
    pub fn extents(&self) -> (u32, u32, u32)
        ensures extents { self.now ≡ last_of (length self.now) result.0 result.1 result.2 }
        ensures unused { IsPadded 1 (length self.now) result.0 result.1 }
        ensures outer { IsGridSize result.0 }
        ensures middle { IsGridSize result.1 }
        ensures inner { IsGridSize result.2 }
        ensures size { IsGridSize (result.0 * result.1 * result.2) }
    {
        self.extents.places()
    }
}
