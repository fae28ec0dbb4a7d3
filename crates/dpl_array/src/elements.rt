// Elements by plain coordinates, for loops over arrays of the ranks 1, 2 and 3.
// They are the calls that take an index, of the index with these coordinates.

ghost use Rattle.std.specs.Prelude.{◌≡◌, [], ◌∷◌, false, is_some};
ghost use Rattle.dpl_array.specs.Elements.{value_at};
ghost use Rattle.dpl_array.specs.Arrays.{array_with, piece_with};

use crate::coordinates::{OnLine, OnPlane, space};
use crate::{DArray, Piece};

impl<T: Copy> DArray<T> {
    /// The value at one coordinate, if the array is of rank 1 and has it.
    #[inline]
    pub fn get_line(&self, i: i64) -> Option<T>
        ensures { result ≡ value_at (i ∷ []) self.now.elements }
    {
        self.get_at(&OnLine(i))
    }

    /// The value at two coordinates, if the array is of rank 2 and has them.
    #[inline]
    pub fn get_plane(&self, i: i64, j: i64) -> Option<T>
        ensures { result ≡ value_at (i ∷ j ∷ []) self.now.elements }
    {
        self.get_at(&OnPlane(i, j))
    }

    /// The value at three coordinates, if the array is of rank 3 and has them.
    #[inline]
    pub fn get_space(&self, i: i64, j: i64, k: i64) -> Option<T>
        ensures { result ≡ value_at (i ∷ j ∷ k ∷ []) self.now.elements }
    {
        self.get_at(&space(i, j, k))
    }

    /// Puts a value at one coordinate. False if the array hasn't got it, and then nothing is changed.
    pub fn set_line(&mut self, i: i64, value: T) -> bool
        ensures there { result ≡ is_some (value_at (i ∷ []) self.old.elements) }
        ensures changes { self.new ≡ array_with (i ∷ []) value self.old }
        ensures unchanged { result ≡ false → self.new ≡ self.old }
    {
        self.set_at(&OnLine(i), value)
    }

    /// Puts a value at two coordinates. False if the array hasn't got them, and then nothing is changed.
    pub fn set_plane(&mut self, i: i64, j: i64, value: T) -> bool
        ensures there { result ≡ is_some (value_at (i ∷ j ∷ []) self.old.elements) }
        ensures changes { self.new ≡ array_with (i ∷ j ∷ []) value self.old }
        ensures unchanged { result ≡ false → self.new ≡ self.old }
    {
        self.set_at(&OnPlane(i, j), value)
    }

    /// Puts a value at three coordinates. False if the array hasn't got them, and then nothing is changed.
    pub fn set_space(&mut self, i: i64, j: i64, k: i64, value: T) -> bool
        ensures there { result ≡ is_some (value_at (i ∷ j ∷ k ∷ []) self.old.elements) }
        ensures changes { self.new ≡ array_with (i ∷ j ∷ k ∷ []) value self.old }
        ensures unchanged { result ≡ false → self.new ≡ self.old }
    {
        self.set_at(&space(i, j, k), value)
    }
}

impl<T: Copy> Piece<T> {
    /// The value at one coordinate, if the piece is of rank 1 and has it.
    #[inline]
    pub fn get_line(&self, i: i64) -> Option<T>
        ensures { result ≡ value_at (i ∷ []) self.now.elements }
    {
        self.get_at(&OnLine(i))
    }

    /// The value at two coordinates, if the piece is of rank 2 and has them.
    #[inline]
    pub fn get_plane(&self, i: i64, j: i64) -> Option<T>
        ensures { result ≡ value_at (i ∷ j ∷ []) self.now.elements }
    {
        self.get_at(&OnPlane(i, j))
    }

    /// The value at three coordinates, if the piece is of rank 3 and has them.
    #[inline]
    pub fn get_space(&self, i: i64, j: i64, k: i64) -> Option<T>
        ensures { result ≡ value_at (i ∷ j ∷ k ∷ []) self.now.elements }
    {
        self.get_at(&space(i, j, k))
    }

    /// Puts a value at one coordinate. False if the piece hasn't got it, and then nothing is changed.
    pub fn set_line(&mut self, i: i64, value: T) -> bool
        ensures there { result ≡ is_some (value_at (i ∷ []) self.old.elements) }
        ensures changes { self.new ≡ piece_with (i ∷ []) value self.old }
        ensures unchanged { result ≡ false → self.new ≡ self.old }
    {
        self.set_at(&OnLine(i), value)
    }

    /// Puts a value at two coordinates. False if the piece hasn't got them, and then nothing is changed.
    pub fn set_plane(&mut self, i: i64, j: i64, value: T) -> bool
        ensures there { result ≡ is_some (value_at (i ∷ j ∷ []) self.old.elements) }
        ensures changes { self.new ≡ piece_with (i ∷ j ∷ []) value self.old }
        ensures unchanged { result ≡ false → self.new ≡ self.old }
    {
        self.set_at(&OnPlane(i, j), value)
    }

    /// Puts a value at three coordinates. False if the piece hasn't got them, and then nothing is changed.
    pub fn set_space(&mut self, i: i64, j: i64, k: i64, value: T) -> bool
        ensures there { result ≡ is_some (value_at (i ∷ j ∷ k ∷ []) self.old.elements) }
        ensures changes { self.new ≡ piece_with (i ∷ j ∷ k ∷ []) value self.old }
        ensures unchanged { result ≡ false → self.new ≡ self.old }
    {
        self.set_at(&space(i, j, k), value)
    }
}
