// Refusals: why a text isn't a program.
// A text has one refusal at the most: that of its first stage that fails, at the earliest place there.

ghost use Rattle.std.specs.Prelude.{Some};
ghost use Rattle.dpl_syntax.specs.Lines.{code_text, refusal_text};

use crate::place::Place;
use std::fmt;

/// Which rule of the language a text breaks. It prints as its code.
#[derive(Clone, Copy, PartialEq, Eq, Debug)]
pub enum Code {
    /// `L1`: the text is too long, at 1:1, or isn't UTF-8, at the first byte that begins no character.
    NotText,
    /// `L2`: a byte that begins no token, a `/*` or a quote that isn't ended, the backslash of a bad escape, or a letter
    /// or `$` straight after a number. Its place is that byte.
    BadCharacter,
    /// `L3`: a number past the greatest int. Its place is the number.
    NumberTooLarge,
    /// `P1`: a token that no program has there. Its place is the first such token.
    Unexpected,
    /// `P2`: more than 64 levels of nesting. Its place is the first token of the 65th.
    TooDeep,
    /// `C1`: a name that is not known there. Its place is the name.
    UnknownName,
    /// `C2`: a name twice in one scope, or in one list of intents. Its place is the second one.
    NameTwice,
    /// `C3`: an expression or a name of a type that isn't taken there. Its place is the operator, or the first token of
    /// what isn't taken.
    WrongType,
    /// `C4`: a constant that is written; a loop's variable is one. Its place is the name written.
    ConstantWritten,
    /// `C5`: another rank, or another number of parts, than is taken there. Its place is the token before the opening
    /// bracket, or the number.
    WrongRank,
    /// `C6`: a forall writes an array elsewhere than at its own index. Its place is the array's name.
    WrittenElsewhere,
    /// `C7`: a forall reads an array that it writes elsewhere than at its own index. Its place is the array's name.
    ReadElsewhere,
    /// `C8`: a forall changes an outer scalar or domain otherwise than by its intent's operator, or reads a reduce
    /// variable. Its place is the variable's name there.
    OuterChanged,
    /// `C9`: what no forall's body holds, and a reduction in a promoted expression or in a map's argument. Its place is
    /// the first token of that.
    NotInForall,
    /// `C10`: what no coforall's body holds, or an outer name that it writes. Its place is the first token of that.
    NotInCoforall,
    /// `C12`: a cell that is used as a plain variable, or is read where it may not be. Its place is the cell's name.
    CellMisused,
    /// `C13`: more than 4,096 names, or more than 64 cells. Its place is the first name past the limit.
    TooMany,
    /// `C14`: a set that fits no config const. It has no place.
    BadSet,
}

impl fmt::Display for Code {
    ghost output = { λ code. Some (code_text code) };

    fn fmt<W: fmt::Write>(&self, f: &mut fmt::Formatter<W>) -> fmt::Result {
        match self {
            Code::NotText => f.write_str("L1"),
            Code::BadCharacter => f.write_str("L2"),
            Code::NumberTooLarge => f.write_str("L3"),
            Code::Unexpected => f.write_str("P1"),
            Code::TooDeep => f.write_str("P2"),
            Code::UnknownName => f.write_str("C1"),
            Code::NameTwice => f.write_str("C2"),
            Code::WrongType => f.write_str("C3"),
            Code::ConstantWritten => f.write_str("C4"),
            Code::WrongRank => f.write_str("C5"),
            Code::WrittenElsewhere => f.write_str("C6"),
            Code::ReadElsewhere => f.write_str("C7"),
            Code::OuterChanged => f.write_str("C8"),
            Code::NotInForall => f.write_str("C9"),
            Code::NotInCoforall => f.write_str("C10"),
            Code::CellMisused => f.write_str("C12"),
            Code::TooMany => f.write_str("C13"),
            Code::BadSet => f.write_str("C14"),
        }
    }
}

/// A rule that a program breaks, and where.
#[derive(Clone, Copy, PartialEq, Eq, Debug)]
pub struct Breach {
    pub at: Place,
    pub code: Code,
}

/// The rule that a text breaks, and where, if the rule has a place.
///
/// It prints as the one line that is written of a refused text, without the newline: `! C8 at 1:33`, or `! C14`.
#[derive(Clone, Copy, PartialEq, Eq, Debug)]
pub struct Refusal {
    pub code: Code,
    pub place: Option<Place>,
}

impl fmt::Display for Refusal {
    ghost output = { λ refusal. Some (refusal_text refusal) };

    fn fmt<W: fmt::Write>(&self, f: &mut fmt::Formatter<W>) -> fmt::Result {
        let code = self.code;
        match self.place {
            None => write!(f, "! {code}"),
            Some(at) => write!(f, "! {code} at {at}"),
        }
    }
}
