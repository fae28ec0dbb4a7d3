// Reads of an array that remember the piece of the last one.
// A loop that stays in a piece reads it by plain numbers, and neither an owner is told nor an index made for its elements.

ghost use Rattle.std.specs.Prelude.{◌≡◌, ℕ, [], ◌∷◌, Some, IfSome};
ghost use Rattle.dpl_array.specs.Arrays.{restriction};
ghost use Rattle.dpl_array.specs.Elements.{value_at};

use crate::coordinates::{Strided, line, plane, space};
use crate::window::{Line, Plane};
use crate::{DArray, Piece};
use dpl_domain::Index;
use std::marker::Model;

/// Reads of an array, seen as the array.
#[derive(Drop)]
pub struct Reader<'a, T> {
    array: &'a DArray<T>,
    piece: Option<&'a Piece<T>>,
    line: Line<'a, T>,
    plane: Plane<'a, T>,
}

impl<'a, T> Model for Reader<'a, T> {
    ghost use Rattle.dpl_array.specs.Arrays.{ArrayValue};

    ghost Value = { ArrayValue T };

    ghost use Rattle.dpl_array.specs.ReaderFields.{IsRemembered, IsLineIn, IsPlaneIn};

    ghost view = { λ r. r.array.now };

    ghost invariant = { λ r. IsRemembered r.array.now r.piece × IsLineIn r.array.now r.line × IsPlaneIn r.array.now r.plane };
}

impl<T: Copy> DArray<T> {
    /// Reads of the array for a loop over plain coordinates.
    pub fn reader(&self) -> Reader<'_, T>
        ensures { result ≡ self.now }
    {
        Reader {
            array: self,
            piece: None,
            line: Line::none(),
            plane: Plane::none(),
        }
    }
}

impl<'a, T: Copy> Reader<'a, T> {
    /// The value at one coordinate, if the array is of rank 1 and has it.
    #[inline]
    pub fn get_line(&mut self, i: i64) -> Option<T>
        ensures value { result ≡ value_at (i ∷ []) self.old.elements }
        ensures same { self.new ≡ self.old }
    {
        if let Some(value) = self.line.get(i) {
            return Some(value);
        }
        self.turn_to_line(i)
    }

    /// The value at two coordinates, if the array is of rank 2 and has them.
    #[inline]
    pub fn get_plane(&mut self, i: i64, j: i64) -> Option<T>
        ensures value { result ≡ value_at (i ∷ j ∷ []) self.old.elements }
        ensures same { self.new ≡ self.old }
    {
        if let Some(value) = self.plane.get(i, j) {
            return Some(value);
        }
        self.turn_to_plane(i, j)
    }

    /// The value at three coordinates, if the array is of rank 3 and has them.
    #[inline]
    pub fn get_space(&mut self, i: i64, j: i64, k: i64) -> Option<T>
        ensures value { result ≡ value_at (i ∷ j ∷ k ∷ []) self.old.elements }
        ensures same { self.new ≡ self.old }
    {
        if let Some(value) = self.quick(space(i, j, k)) {
            return Some(value);
        }
        self.turn_to_space(i, j, k)
    }

    // What the remembered piece has at an index, if it is found without a search.
    #[inline(always)]
    fn quick(&self, index: Index) -> Option<T>
        ensures { IfSome result (λ v. value_at index self.now.elements ≡ Some v) }
    {
        self.piece?.quick(&Strided(index))
    }

    // Remembers the piece of an index's owner, and reads there.
    fn turn_to(&mut self, index: Index) -> Option<T>
        ensures value { result ≡ value_at index self.old.elements }
        ensures same { self.new ≡ self.old }
    {
        if let Some(value) = self.quick(index) {
            return Some(value);
        }
        let owner = self.array.map().owner(index);
        if let Some(piece) = self.array.piece(owner) {
            self.remember(piece);
        }
        self.array.get(index)
    }

    // Remembers a piece of the array.
    fn remember(&mut self, piece: &'a Piece<T>)
        requires { (l : ℕ) × (piece.now ≡ restriction self.old l) }
        ensures { self.new ≡ self.old }
    {
        self.piece = Some(piece);
        self.line = piece.line();
        self.plane = piece.plane();
    }

    #[inline(never)]
    fn turn_to_line(&mut self, i: i64) -> Option<T>
        ensures value { result ≡ value_at (i ∷ []) self.old.elements }
        ensures same { self.new ≡ self.old }
    {
        self.turn_to(line(i))
    }

    #[inline(never)]
    fn turn_to_plane(&mut self, i: i64, j: i64) -> Option<T>
        ensures value { result ≡ value_at (i ∷ j ∷ []) self.old.elements }
        ensures same { self.new ≡ self.old }
    {
        self.turn_to(plane(i, j))
    }

    #[inline(never)]
    fn turn_to_space(&mut self, i: i64, j: i64, k: i64) -> Option<T>
        ensures value { result ≡ value_at (i ∷ j ∷ k ∷ []) self.old.elements }
        ensures same { self.new ≡ self.old }
    {
        self.turn_to(space(i, j, k))
    }
}
