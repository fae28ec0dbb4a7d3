// What a declaration says of the map of a domain.
// A domain is created with a map over it, and by `dmapped` a map is named.

ghost use Rattle.std.specs.Prelude.{◌≡◌};
ghost use Rattle.dpl_declarations.specs.Made.{placing_or, created_placing};

use dpl_nodes::{MapExpr, Placing};
use dpl_tree::CreateWord;

/// A map that is named, or what else is said.
pub(crate) fn placed<'t>(map: Option<&'t MapExpr<'t>>, otherwise: Placing<'t>) -> Placing<'t>
    ensures { result ≡ placing_or map.entry otherwise.entry }
{
    match map {
        None => otherwise,
        Some(map) => Placing::Mapped(map),
    }
}

/// The map of a created domain.
pub(crate) fn created<'t>(word: CreateWord) -> Placing<'t>
    ensures { result ≡ created_placing word }
{
    match word {
        CreateWord::Block => Placing::BlockCreated,
        CreateWord::Cyclic => Placing::CyclicCreated,
    }
}
