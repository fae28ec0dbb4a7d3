// An array that is taken apart, and put together again.
// Its pieces are moved, one by one, and nothing is copied unless it has to be dealt anew.

ghost use Rattle.std.specs.Prelude.{◌≡◌, ◌↔◌, ◌<◌, ℤ, List, true, false, Some, None, All, IsSome, IfOk, IfSome};
ghost use Rattle.dpl_map.specs.Maps.{owner, locales};
ghost use Rattle.dpl_contents.specs.Parted.{parted, piece_of, whole_of, with_piece};

use crate::dealt::dealt;
use crate::{ArrayWords, DomainWord, PieceWords};
use dpl_array::Pieces;
use dpl_map::Map;
use std::alloc::{AllocError, Global};
use std::marker::Model;

/// An array that is taken apart, seen as its domain, the map by which it is cut, and for each locale the piece that it owns, where that
/// is there.
#[derive(Drop)]
pub struct PiecesWords {
    domain: DomainWord,
    pieces: Pieces<i64>,
}

impl Model for PiecesWords {
    ghost use Rattle.dpl_contents.specs.Parted.{Parted};

    ghost Value = { Parted };

    ghost use Rattle.dpl_contents.specs.Pieces.{held_pieces, ArePiecesOver};

    ghost view = { λ p. held_pieces p.domain p.pieces };

    ghost invariant = { λ p. ArePiecesOver p.domain p.pieces };
}

impl ArrayWords {
    /// Takes the array apart by a map: what each locale owns. Where it was cut by another map, it is dealt anew.
    ///
    /// # Errors
    /// Out of memory.
    pub fn take_pieces(self, alloc: Global, map: &Map) -> Result<PiecesWords, AllocError>
        ensures pieces { IfOk result (λ ps. ps ≡ parted map.now self) }
        ensures owners { IfOk result (λ ps. (t : List ℤ) → owner map.now t < locales map.now) }
        ensures back { IfOk result (λ ps. whole_of ps ≡ self) }
    {
        let domain = self.domain;
        let array = dealt(alloc, self.array, map)?;
        let pieces = array.take_pieces();
        // Nothing is read here: that the pieces are formed is a clause of this call.
        let _ = pieces.domain();
        Ok(PiecesWords { domain, pieces })
    }
}

impl PiecesWords {
    /// Takes out the piece of a locale, if it is there.
    pub fn take(&mut self, locale: u32) -> Option<PieceWords>
        ensures piece { result ≡ piece_of locale self.old }
        ensures leaves { self.new ≡ with_piece locale None self.old }
    {
        let piece = self.pieces.take(locale);
        // Nothing is read here: that the pieces are formed is a clause of this call.
        let _ = self.pieces.domain();
        let piece = piece?;
        // And that the piece has a value for each index of its part is one of this.
        let _ = piece.locale();
        Some(PieceWords {
            domain: self.domain,
            piece,
        })
    }

    /// Puts the piece of a locale back into its place. False if it is no piece of this array and of that locale, or if its place isn't
    /// free; then nothing is changed, and the piece is gone.
    pub fn put(&mut self, locale: u32, piece: PieceWords) -> bool
        ensures put { result ≡ true → self.new ≡ with_piece locale (Some (record piece { ranges = self.old.ranges })) self.old }
        ensures unchanged { result ≡ false → self.new ≡ self.old }
    {
        if piece.piece.locale() != locale {
            return false;
        }
        let is_put = self.pieces.put(piece.piece).is_ok();
        // Nothing is read here: that the pieces are formed is a clause of this call.
        let _ = self.pieces.domain();
        is_put
    }

    /// The array of the pieces, if all of them are there.
    pub fn put_back(self) -> Option<ArrayWords>
        ensures there { IsSome result ↔ All IsSome self.pieces }
        ensures array { IfSome result (λ a. a ≡ whole_of self) }
    {
        if !self.pieces.is_whole() {
            return None;
        }
        let array = self.pieces.put_back();
        // Nothing is read here: that the array has its domain's indices is a clause of this call.
        let _ = array.domain();
        Some(ArrayWords {
            domain: self.domain,
            array,
        })
    }
}
