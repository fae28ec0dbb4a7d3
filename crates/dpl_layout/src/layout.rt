// Layouts: the grid for each number of dimensions, and the map that a root gets.

ghost use Rattle.std.specs.Prelude.{◌≡◌, ◌≤◌, ◌↔◌, [], ◌∷◌, length, IsSome, IfSome};
ghost use Rattle.dpl_map.specs.Grids.{grid_size, IsGridSize};
ghost use Rattle.dpl_layout.specs.Layouts.{grid_of, single_layout};
ghost use Rattle.dpl_layout.specs.Roots.{IsBlockOf, IsCyclicFrom, IsBlockCyclicFrom, IsNamed, IsRootMap};

use crate::{Maps, Named, from_least};
use dpl_domain::{Domain, Index};
use dpl_map::{Grid, Map, MapFault};
use std::marker::Model;

/// How locales are laid out for domains of one, two and three dimensions, and which maps roots get.
#[derive(Clone, Copy)]
pub struct Layout {
    line: Grid,
    plane: Grid,
    space: Grid,
    maps: Maps,
}

impl Model for Layout {
    ghost use Rattle.dpl_layout.specs.Layouts.{LayoutValue};
    ghost use Rattle.dpl_layout.specs.LayoutFields.{IsLayout};

    ghost Value = { LayoutValue };

    ghost view = { λ l. record { line = l.line; plane = l.plane; space = l.space; maps = l.maps } };

    ghost invariant = { λ l. IsLayout (record { line = l.line; plane = l.plane; space = l.space; maps = l.maps }) };

    ghost inverse = { λ v. record { line = v.line; plane = v.plane; space = v.space; maps = v.maps } };
}

impl Layout {
    /// A layout of so many locales in a line, with these grids for domains of two and of three dimensions. None exactly
    /// where one of the three is no grid.
    pub fn new(locales: u32, grid2: [u32; 2], grid3: [u32; 3], maps: Maps) -> Option<Layout>
        ensures grids { IsSome result ↔ (IsGridSize (grid_size (locales ∷ [])) × IsGridSize (grid_size grid2) × IsGridSize (grid_size grid3)) }
        ensures held { IfSome result (λ layout. layout ≡ record { line = locales ∷ []; plane = grid2; space = grid3; maps = maps }) }
    {
        let line = Grid::new(&[locales]).ok()?;
        let plane = Grid::new(&grid2).ok()?;
        let space = Grid::new(&grid3).ok()?;
        Some(Layout {
            line,
            plane,
            space,
            maps,
        })
    }

    /// Everything on one locale, and maps as the text names them.
    pub fn single() -> Layout
        ensures { result ≡ single_layout }
    {
        Layout::new(1, [1, 1], [1, 1, 1], Maps::AsIs).unwrap()
    }

    /// The map of a root whose declared value is a domain, and for which the text names a map.
    pub fn root(&self, domain: &Domain, named: &Named) -> Map
        ensures { IsRootMap self.now named.now domain.now result }
    {
        match self.maps {
            Maps::AsIs => self.named(named),
            Maps::Block => self.block(domain),
            Maps::Cyclic => self.named(&from_least(domain)),
        }
    }

    // The map that is named.
    fn named(&self, named: &Named) -> Map
        ensures { IsNamed self.now named.now result }
    {
        match named {
            Named::Whole => Map::whole(),
            Named::Block(domain) => self.block(domain),
            Named::Cyclic(start) => self.cyclic(*start),
            Named::BlockCyclic(start, sizes) => self.block_cyclic(*start, *sizes),
        }
    }

    // The block map over a box; the whole map where the box is empty.
    fn block(&self, domain: &Domain) -> Map
        ensures { IsBlockOf self.now domain.now result }
    {
        match Map::block(domain, self.grid(domain.rank())) {
            Ok(map) => map,
            Err(MapFault::Empty | MapFault::Start | MapFault::Rank | MapFault::Blocksize) => {
                Map::whole()
            }
        }
    }

    // The cyclic map from a start; the whole map where the start is past the limits.
    fn cyclic(&self, start: Index) -> Map
        ensures { IsCyclicFrom self.now start result }
    {
        match Map::cyclic(start, self.grid(start.rank())) {
            Ok(map) => map,
            Err(MapFault::Empty | MapFault::Start | MapFault::Rank | MapFault::Blocksize) => {
                Map::whole()
            }
        }
    }

    // The block-cyclic map from a start, in blocks of these sizes; the whole map where the start is past the limits, or
    // there is no such size for each coordinate.
    fn block_cyclic(&self, start: Index, sizes: Index) -> Map
        ensures { IsBlockCyclicFrom self.now start sizes result }
    {
        match Map::block_cyclic(start, sizes, self.grid(start.rank())) {
            Ok(map) => map,
            Err(MapFault::Empty | MapFault::Start | MapFault::Rank | MapFault::Blocksize) => {
                Map::whole()
            }
        }
    }

    // The grid for domains of so many dimensions.
    fn grid(&self, rank: u32) -> Grid
        requires from_one { 1 ≤ rank }
        requires to_three { rank ≤ 3 }
        ensures grid { result ≡ grid_of self.now rank }
        ensures rank { length result ≡ rank }
    {
        match rank {
            1 => self.line,
            2 => self.plane,
            _ => self.space,
        }
    }
}
