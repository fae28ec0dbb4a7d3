// Indices by their coordinates, at each rank.

ghost use Rattle.std.specs.Prelude.{◌≡◌, ◌∷◌, []};

use dpl_domain::Index;

/// The index of one coordinate.
pub fn coordinate(i: i64) -> Index
    ensures { result ≡ i ∷ [] }
{
    Index::new(&[i]).unwrap()
}

/// The index of two coordinates.
pub fn plane(i: i64, j: i64) -> Index
    ensures { result ≡ i ∷ j ∷ [] }
{
    Index::new(&[i, j]).unwrap()
}

/// The index of three coordinates.
pub fn space(i: i64, j: i64, k: i64) -> Index
    ensures { result ≡ i ∷ j ∷ k ∷ [] }
{
    Index::new(&[i, j, k]).unwrap()
}
