// Where the piece of an index's owner seems to stand, told by a multiplication for each dimension.
// Nobody has to believe it: a piece that holds an index is that of its owner, and where it holds none the owner is computed.

use dpl_domain::Index;
use dpl_map::Map;

// By how many bits the number of a block is shifted.
const SHIFT: u32 = 56;

// By how many bits that of a round is. Rounds are counted from so many before the start, since numbers below it go round too.
const ROUND_SHIFT: u32 = 32;

const ROUNDS_BEFORE: i64 = 1 << 16;

/// The blocks of one dimension, or its rounds: from which integer on they lie, what an offset is multiplied by, and the bits that the
/// product is shifted by.
#[derive(Clone, Copy)]
struct Blocks {
    low: i64,
    factor: u64,
    shift: u32,
    extent: usize,
    is_round: bool,
}

/// The blocks or rounds of each dimension of a map.
#[derive(Clone, Copy)]
pub(crate) struct Seats {
    outer: Blocks,
    middle: Blocks,
    inner: Blocks,
}

impl Blocks {
    // The blocks or rounds of the dimension of a map that stands this many places before the end of its dimensions. One that is dealt out
    // by neither rule counts as one block.
    fn of(map: &Map, behind: u32) -> Blocks {
        let Some(dimension) = map.rank().checked_sub(behind) else {
            return Blocks::alone();
        };
        let known = Blocks::boxed(map, dimension).or(Blocks::round(map, dimension));
        known.unwrap_or(Blocks::alone())
    }

    // One block.
    fn alone() -> Blocks {
        Blocks {
            low: 0,
            factor: 0,
            shift: SHIFT,
            extent: 1,
            is_round: false,
        }
    }

    // Those of a dimension that is dealt out by the block rule.
    fn boxed(map: &Map, dimension: u32) -> Option<Blocks> {
        let (low, high, extent) = map.boxed(dimension)?;
        let size = high.wrapping_sub(low).cast_unsigned().saturating_add(1);
        let whole = (extent as u64).wrapping_shl(SHIFT);
        Some(Blocks {
            low,
            factor: whole.checked_div(size)?.wrapping_add(1),
            shift: SHIFT,
            extent: extent as usize,
            is_round: false,
        })
    }

    // Those of a dimension that goes round.
    fn round(map: &Map, dimension: u32) -> Option<Blocks> {
        let (start, extent) = map.round(dimension)?;
        let whole: u64 = 1 << ROUND_SHIFT;
        Some(Blocks {
            low: start.wrapping_sub(ROUNDS_BEFORE.wrapping_mul(extent as i64)),
            factor: whole.checked_div(extent as u64)?.wrapping_add(1),
            shift: ROUND_SHIFT,
            extent: extent as usize,
            is_round: true,
        })
    }

    // The number of the block, or of the place in its round, that seems to have an integer. Of a box of at most 2^28 integers it is the
    // right one, and of up to 2^25 rounded integers from the start on.
    #[inline(always)]
    fn number(&self, i: i64) -> usize {
        let offset = i.wrapping_sub(self.low).cast_unsigned();
        let block = offset.wrapping_mul(self.factor).wrapping_shr(self.shift) as usize;
        if self.is_round {
            return (offset as usize).wrapping_sub(block.wrapping_mul(self.extent));
        }
        block
    }

    // The number behind that of a row.
    #[inline(always)]
    fn behind(&self, row: usize, i: i64) -> usize {
        row.wrapping_mul(self.extent).wrapping_add(self.number(i))
    }
}

impl Seats {
    /// Those of a map.
    pub(crate) fn of(map: &Map) -> Seats {
        Seats {
            outer: Blocks::of(map, 3),
            middle: Blocks::of(map, 2),
            inner: Blocks::of(map, 1),
        }
    }

    // The number of the locale that seems to own the index of one coordinate.
    #[inline(always)]
    pub(crate) fn of_line(&self, i: i64) -> usize {
        self.inner.number(i)
    }

    // The same of two.
    #[inline(always)]
    pub(crate) fn of_plane(&self, i: i64, j: i64) -> usize {
        self.inner.behind(self.middle.number(i), j)
    }

    // The same of an index.
    #[inline(always)]
    pub(crate) fn guess(&self, index: Index) -> usize {
        let (x, y, z) = index.numbers();
        match index.rank() {
            1 => self.of_line(z),
            2 => self.of_plane(y, z),
            _ => {
                let row = self.middle.behind(self.outer.number(x), y);
                self.inner.behind(row, z)
            }
        }
    }
}
