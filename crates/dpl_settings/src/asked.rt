// What a command line asks for.
// The function that makes it of the words is in reading.rt.

ghost use Rattle.std.specs.Prelude.{◌≡◌, ◌*◌, ◌^◌, ◌≤◌, slice_index};

use crate::maps::RootMaps;

/// What a command line asks for. Its numbers are always within their limits, and its grids are grids of its locales.
#[derive(Drop)]
pub struct Settings<'a> {
    /// The file that holds the text; none stands for standard input.
    pub file: Option<&'a str>,
    /// The sets, in their order: the other words that are no option.
    pub sets: Vec<&'a str>,
    /// How many turns a loop may have, from 1 to 2^32.
    pub budget: u64,
    /// How many locales there are, from 1 to 64.
    pub locales: u32,
    /// How many locales lie along each dimension, for domains of rank 2.
    pub grid2: [u32; 2],
    /// The same for domains of rank 3.
    pub grid3: [u32; 3],
    /// Which map each root gets.
    pub maps: RootMaps,
    /// Whether the variables that the program leaves are to be written.
    pub dump: bool,
    pub ghost turns: { (1 ≤ budget) × (budget ≤ 2 ^ 32) },
    pub ghost seats: { (1 ≤ locales) × (locales ≤ 64) },
    pub ghost layout2: { slice_index grid2 0 * slice_index grid2 1 ≡ locales },
    pub ghost layout3: { slice_index grid3 0 * slice_index grid3 1 * slice_index grid3 2 ≡ locales },
}
