// Which maps the roots of a program get, and the words for them.
// A root is a domain that stands for itself, and each has one map.

ghost use Rattle.std.specs.Prelude.{◌≡◌};
ghost use Rattle.dpl_settings.specs.CommandLine.{maps_in};

/// Which map each root of a program gets.
#[derive(Clone, Copy, PartialEq, Eq, Debug)]
pub enum RootMaps {
    /// That of the text.
    AsIs,
    /// A block map in place of it.
    Block,
    /// A cyclic map in place of it.
    Cyclic,
}

// The maps that a word asks for, if it is one of the three.
pub(crate) fn maps_in(word: &str) -> Option<RootMaps>
    ensures { result ≡ maps_in word.now }
{
    if word == "asis" {
        Some(RootMaps::AsIs)
    } else if word == "block" {
        Some(RootMaps::Block)
    } else if word == "cyclic" {
        Some(RootMaps::Cyclic)
    } else {
        None
    }
}
