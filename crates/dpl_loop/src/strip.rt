// Ints at the indices of a row, which lie behind one another in the last dimension.
// A loop that has several evaluated at once reads them here, one after another.

ghost use Rattle.std.specs.Prelude.{◌≡◌};

use dpl_array::Row;

/// The most ints in a strip.
pub const STRIP: usize = 64;

/// Ints at the first indices of a row: the first `size` of the words, and at most all of them.
#[derive(Drop)]
pub struct Strip {
    pub row: Row,
    pub words: [i64; STRIP],
    pub size: usize,
}

impl Strip {
    /// No ints.
    #[inline(always)]
    pub fn none(row: Row) -> Strip
        ensures row { result.row ≡ row }
        ensures size { result.size ≡ 0 }
    {
        Strip {
            row,
            words: [0; STRIP],
            size: 0,
        }
    }
}
