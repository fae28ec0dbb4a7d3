// A piece of an array: the elements that one locale owns, in one dense vector.
// An element is found by the search of the map in the domains of the part; a value at each place of their row.

ghost use Rattle.std.specs.Prelude.{◌≡◌, ◌≤◌, ◌<◌, ◌+◌, ◌^◌, ℕ, Some, true, false, is_some, IfOk, IfSome, length, replicate, slice_get};
ghost use Rattle.dpl_sets.specs.Indices.{indices};
ghost use Rattle.dpl_map.specs.Parts.{part};
ghost use Rattle.dpl_array.specs.Elements.{value_at, behind, filled, keys_of, put_in_row, IsRunOf};
ghost use Rattle.dpl_array.specs.Arrays.{IsPiece, piece_with};
ghost use Rattle.dpl_array.specs.Rows.{apart_by, set_each, side_by_side};

use crate::coordinates::Coordinates;
use crate::place::{each_once, place_in, run_apart, run_in, starts_of};
use crate::row::Row;
use crate::spans::Spans;
use dpl_domain::{Domain, Index};
use dpl_map::Map;
use std::alloc::{AllocError, Global};
use std::marker::Model;

/// The elements of an array that one locale owns, seen as its domain, its map, the locale and a finite map from the
/// indices of the locale's part to values.
#[derive(Drop)]
pub struct Piece<T> {
    pub(crate) domain: Domain,
    map: Map,
    locale: u32,
    pub(crate) parts: Vec<Domain>,
    starts: Vec<usize>,
    pub(crate) spans: Spans,
    pub(crate) values: Vec<T>,
}

impl<T> Model for Piece<T> {
    ghost use Rattle.dpl_array.specs.Arrays.{PieceValue};

    ghost Value = { PieceValue T };

    ghost use Rattle.std.specs.Prelude.{length};
    ghost use Rattle.dpl_array.specs.PieceFields.{piece_of, IsKept};
    ghost use Rattle.dpl_array.specs.Rows.{row_of};
    ghost use Rattle.dpl_array.specs.Spans.{AreSpansOf};

    ghost view = { piece_of };

    ghost invariant = { λ p. IsKept p.domain p.map p.locale p.parts.items p.starts.items (length p.values.items) × AreSpansOf (row_of p.parts.items) p.spans };
}

impl<T: Copy> Piece<T> {
    // The piece of a locale, with one value everywhere.
    pub(crate) fn new(
        alloc: Global,
        domain: Domain,
        map: Map,
        locale: u32,
        value: T,
    ) -> Result<Piece<T>, AllocError>
        requires small { length (indices domain) ≤ 2 ^ 24 }
        ensures { IfOk result (λ p. p ≡ record { domain = domain; map = map; locale = locale; elements = filled (part domain map locale) value }) }
    {
        each_once(&domain);
        let Ok(parts) = map.part(alloc, &domain, locale) else {
            return Err(AllocError);
        };
        let (starts, size) = starts_of(alloc, &parts)?;
        let spans = Spans::of(&parts);
        let values = row(alloc, size, value)?;
        Ok(Piece {
            domain,
            map,
            locale,
            parts,
            starts,
            spans,
            values,
        })
    }

    /// The locale that owns these elements.
    pub fn locale(&self) -> u32
        ensures locale { result ≡ self.now.locale }
        ensures over { IsPiece self.now }
    {
        self.locale
    }

    /// The domain of the array.
    pub fn domain(&self) -> Domain
        ensures { result ≡ self.now.domain }
    {
        self.domain
    }

    /// The map of the array.
    pub fn map(&self) -> Map
        ensures { result ≡ self.now.map }
    {
        self.map
    }

    // The piece of an array over a domain with the same indices.
    pub(crate) fn over(self, domain: Domain) -> Piece<T>
        requires { indices domain ≡ indices self.domain }
        ensures { result ≡ record self { domain = domain } }
    {
        let mut piece = self;
        piece.domain = domain;
        piece
    }

    /// The value at an index, if the piece has it.
    pub fn get(&self, index: Index) -> Option<T>
        ensures { result ≡ value_at index self.now.elements }
    {
        let place = place_in(&self.map, &self.parts, &self.starts, index)?;
        Some(self.values[place])
    }

    // The value where its place is found without a search, if the piece has it. It is short enough to stand in a loop.
    #[inline(always)]
    pub(crate) fn quick<C: Coordinates>(&self, at: &C) -> Option<T>
        ensures { IfSome result (λ v. value_at (C.tuple at.now) self.now.elements ≡ Some v) }
    {
        let place = at.place(&self.parts, &self.spans)?;
        Some(self.values[place])
    }

    // The value, if the piece has the index: without a search where its place is found so.
    #[inline(always)]
    pub(crate) fn get_at<C: Coordinates>(&self, at: &C) -> Option<T>
        ensures { result ≡ value_at (C.tuple at.now) self.now.elements }
    {
        if let Some(value) = self.quick(at) {
            return Some(value);
        }
        self.searched(at.index())
    }

    // The same by a search. It stands apart, so that no room is set aside for it in a loop.
    #[inline(never)]
    fn searched(&self, index: Index) -> Option<T>
        ensures { result ≡ value_at index self.now.elements }
    {
        self.get(index)
    }

    /// Values at the indices of a row, as they stand side by side: those up to the end of the row, where the piece's part is one domain
    /// whose last dimension has the row's step as its stride. Of another part or row there may be none, though the piece has the index.
    #[inline(always)]
    pub fn run(&self, row: Row) -> &[T]
        ensures { IsRunOf self.now.elements row result.now }
    {
        let (place, size) = run_in(&self.parts, row);
        let end = place.wrapping_add(size);
        match self.values.get(place..end) {
            Some(values) => values,
            None => &[],
        }
    }

    // Puts a value where its place is found without a search, if the piece has it.
    #[inline(always)]
    pub(crate) fn quick_set<C: Coordinates>(&mut self, at: &C, value: T) -> bool
        ensures there { result ≡ true → is_some (value_at (C.tuple at.now) self.old.elements) ≡ true }
        ensures changes { result ≡ true → self.new ≡ piece_with (C.tuple at.now) value self.old }
        ensures unchanged { result ≡ false → self.new ≡ self.old }
    {
        match at.place(&self.parts, &self.spans) {
            None => false,
            Some(place) => {
                self.values[place] = value;
                true
            }
        }
    }

    // Puts a value, if the piece has the index: without a search where its place is found so. False if it hasn't, and then nothing is
    // changed.
    #[inline(always)]
    pub(crate) fn set_at<C: Coordinates>(&mut self, at: &C, value: T) -> bool
        ensures there { result ≡ is_some (value_at (C.tuple at.now) self.old.elements) }
        ensures changes { self.new ≡ piece_with (C.tuple at.now) value self.old }
        ensures unchanged { result ≡ false → self.new ≡ self.old }
    {
        if self.quick_set(at, value) {
            return true;
        }
        self.set_searched(at.index(), value)
    }

    // The same by a search.
    #[inline(never)]
    fn set_searched(&mut self, index: Index, value: T) -> bool
        ensures there { result ≡ is_some (value_at index self.old.elements) }
        ensures changes { self.new ≡ piece_with index value self.old }
        ensures unchanged { result ≡ false → self.new ≡ self.old }
    {
        self.set(index, value)
    }

    /// Puts the first of some values at the indices of a row, as many as stand in one row of the piece, and answers how many were put: at
    /// most those up to the end of that row, where the piece's part is one domain and the row's step is some strides of its last dimension.
    /// Of another part or row there may be none, though the piece has the index.
    #[inline(always)]
    pub fn set_run(&mut self, row: Row, values: &[T]) -> usize
        ensures most { result ≤ length values.now }
        ensures there { (k : ℕ) → k < result → is_some (value_at (behind k row) self.old.elements) ≡ true }
        ensures changes { self.new ≡ put_in_row piece_with row values.now result self.old }
    {
        let (place, size) = run_in(&self.parts, row);
        if size == 0 {
            return self.set_run_apart(row, values);
        }
        let size = size.min(values.len());
        set_side_by_side(&mut self.values, place, values, size);
        size
    }

    // The same where the row's step is several strides of the part's last dimension, so that other elements stand between.
    #[inline(never)]
    fn set_run_apart(&mut self, row: Row, values: &[T]) -> usize
        ensures most { result ≤ length values.now }
        ensures there { (k : ℕ) → k < result → is_some (value_at (behind k row) self.old.elements) ≡ true }
        ensures changes { self.new ≡ put_in_row piece_with row values.now result self.old }
    {
        let (place, pace, size) = run_apart(&self.parts, row);
        let size = size.min(values.len());
        set_apart(&mut self.values, place, pace, values, size);
        size
    }

    /// Puts a value at an index, if the piece has it. False if it hasn't, and then nothing is changed.
    pub fn set(&mut self, index: Index, value: T) -> bool
        ensures there { result ≡ is_some (value_at index self.old.elements) }
        ensures changes { self.new ≡ piece_with index value self.old }
        ensures unchanged { result ≡ false → self.new ≡ self.old }
    {
        let Some(place) = place_in(&self.map, &self.parts, &self.starts, index) else {
            return false;
        };
        self.values[place] = value;
        true
    }
}

impl<T: Copy> Piece<T> {
    // The value at an index that stands at a place among the piece's elements. Where the part is one domain, the row has the
    // elements in their own order, and no index is looked up.
    pub(crate) fn value_of(&self, place: usize, index: Index) -> Option<T>
        requires { slice_get (keys_of self.now.elements) place ≡ Some index }
        ensures { result ≡ value_at index self.now.elements }
    {
        if self.parts.len() > 1 {
            return self.get(index);
        }
        Some(self.values[place])
    }
}

// Writes the first of some values, so many of them, side by side into a row from a place on.
#[inline(always)]
fn set_side_by_side<T: Copy>(row: &mut [T], place: usize, values: &[T], size: usize)
    requires within { (k : ℕ) → k < size → place + k < length row.old }
    requires most { size ≤ length values.now }
    ensures { row.new ≡ set_each (side_by_side place) values.now size row.old }
{
    for k in 0..size {
        row[place + k] = values[k];
    }
}

// Writes them into a row from a place on, each so many places behind the one before it.
#[inline(always)]
fn set_apart<T: Copy>(row: &mut [T], place: usize, pace: usize, values: &[T], size: usize)
    requires within { (k : ℕ) → k < size → apart_by pace place k < length row.old }
    requires most { size ≤ length values.now }
    ensures { row.new ≡ set_each (apart_by pace place) values.now size row.old }
{
    for k in 0..size {
        row[place + k * pace] = values[k];
    }
}

// As many values as a row has places.
fn row<T: Copy>(alloc: Global, size: usize, value: T) -> Result<Vec<T>, AllocError>
    ensures { IfOk result (λ values. values.items ≡ replicate size value) }
{
    let mut values = Vec::with_capacity(alloc, size)?;
    while values.len() < size {
        values.push(value)?;
    }
    Ok(values)
}
