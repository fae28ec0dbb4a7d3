// The places that faults tell.
// A fault is handed back in one word, which has room for places like those of a text's tokens.

ghost use Rattle.std.specs.Prelude.{◌≡◌, ◌<◌, IfSome, IsSome};
ghost use Rattle.dpl_syntax.specs.declared.place.Place.{Place as PlaceNode};
ghost use Rattle.dpl_nodes.specs.Spots.{IsNear};

use dpl_syntax::Place;
use std::marker::Model;

/// A place whose line and column are below 2^21, as those of each token of a text are.
#[derive(Clone, Copy, PartialEq, Eq, Debug)]
pub struct Spot {
    line: u32,
    column: u32,
}

impl Model for Spot {
    ghost Value = { PlaceNode };

    ghost view = { λ s. record { line = s.line; column = s.column } };

    ghost invariant = { λ s. (s.line < 2097152) × (s.column < 2097152) };

    ghost inverse = { λ at. record { line = at.line; column = at.column } };
}

impl Spot {
    /// The place, if its line and column are below 2^21.
    pub fn new(at: Place) -> Option<Spot>
        ensures near { IfSome result (λ s. s ≡ at) }
        ensures far { at.line < 2097152 → at.column < 2097152 → IsSome result }
    {
        if at.line < 2_097_152 && at.column < 2_097_152 {
            Some(Spot {
                line: at.line,
                column: at.column,
            })
        } else {
            None
        }
    }

    /// The place.
    pub fn place(self) -> Place
        ensures same { result ≡ self }
        ensures near { IsNear result }
    {
        Place {
            line: self.line,
            column: self.column,
        }
    }
}
