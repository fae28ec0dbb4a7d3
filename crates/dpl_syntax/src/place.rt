// Places in a text.
// Every token has one, and every refusal and fault tells one.

ghost use Rattle.std.specs.Prelude.{Some};
ghost use Rattle.dpl_syntax.specs.Lines.{place_text};

use std::fmt;

/// Where a token begins: its line, and its column in bytes, both from 1.
///
/// It prints as `line:column`.
#[derive(Clone, Copy, PartialEq, Eq, Debug)]
pub struct Place {
    pub line: u32,
    pub column: u32,
}

impl fmt::Display for Place {
    ghost output = { λ at. Some (place_text at) };

    fn fmt<W: fmt::Write>(&self, f: &mut fmt::Formatter<W>) -> fmt::Result {
        let line = self.line;
        let column = self.column;
        write!(f, "{line}:{column}")
    }
}
