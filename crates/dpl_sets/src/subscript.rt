// Subscripts of shifted reads: `i - 1` and `j` in `A[i - 1, j]`, each in one dimension of the array.
// The rules find them in a text, and a halo is gathered by them.

/// What a shifted read names in one dimension: a coordinate of the turn's index, and a number that is added to it.
#[derive(Clone, Copy, Debug)]
pub struct Subscript {
    /// Which coordinate of the turn's index it takes, counted from 0. Where the index has fewer, 0 is taken.
    pub coordinate: u32,
    /// What is added, with a sum that wraps.
    pub offset: i64,
}
