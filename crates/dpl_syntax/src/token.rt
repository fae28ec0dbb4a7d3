// The tokens of a text.
// ORDER: the texts of words stand here and in specs/Tokens.antt, those of signs there and in the lexer; change them together.

ghost use Rattle.std.specs.Prelude.{◌≡◌};
ghost use Rattle.dpl_syntax.specs.Tokens.{keyword_text, contextual_text};

use crate::bytes::Bytes;
use crate::place::Place;

/// A reserved word.
#[derive(Clone, Copy, PartialEq, Eq, Debug)]
pub enum Keyword {
    Bool,
    By,
    BlockCycDist,
    BlockDist,
    Config,
    Const,
    Coforall,
    CyclicDist,
    Dmapped,
    Do,
    Domain,
    Else,
    False,
    For,
    Forall,
    Here,
    If,
    In,
    Int,
    Locales,
    Max,
    Min,
    New,
    NumLocales,
    On,
    Reduce,
    Ref,
    Sync,
    Then,
    True,
    Use,
    Var,
    While,
    With,
    Write,
    Writeln,
}

impl Keyword {
    /// How the word is spelled.
    #[tactic(auto, unfolding(crate::specs::Tokens::keyword_text))]
    pub fn text(self) -> &'static [u8]
        ensures { result.now ≡ keyword_text self }
    {
        match self {
            Keyword::Bool => b"bool",
            Keyword::By => b"by",
            Keyword::BlockCycDist => b"blockCycDist",
            Keyword::BlockDist => b"blockDist",
            Keyword::Config => b"config",
            Keyword::Const => b"const",
            Keyword::Coforall => b"coforall",
            Keyword::CyclicDist => b"cyclicDist",
            Keyword::Dmapped => b"dmapped",
            Keyword::Do => b"do",
            Keyword::Domain => b"domain",
            Keyword::Else => b"else",
            Keyword::False => b"false",
            Keyword::For => b"for",
            Keyword::Forall => b"forall",
            Keyword::Here => b"here",
            Keyword::If => b"if",
            Keyword::In => b"in",
            Keyword::Int => b"int",
            Keyword::Locales => b"Locales",
            Keyword::Max => b"max",
            Keyword::Min => b"min",
            Keyword::New => b"new",
            Keyword::NumLocales => b"numLocales",
            Keyword::On => b"on",
            Keyword::Reduce => b"reduce",
            Keyword::Ref => b"ref",
            Keyword::Sync => b"sync",
            Keyword::Then => b"then",
            Keyword::True => b"true",
            Keyword::Use => b"use",
            Keyword::Var => b"var",
            Keyword::While => b"while",
            Keyword::With => b"with",
            Keyword::Write => b"write",
            Keyword::Writeln => b"writeln",
        }
    }
}

/// A word that means something of its own in some places, and is a name in all others.
#[derive(Clone, Copy, PartialEq, Eq, Debug)]
pub enum Contextual {
    /// `BlockDist`
    BlockDist,
    /// `CyclicDist`
    CyclicDist,
    /// `BlockCycDist`
    BlockCycDist,
    /// `createDomain`
    CreateDomain,
    /// `boundingBox`
    BoundingBox,
    /// `startIdx`
    StartIdx,
    /// `blocksize`
    Blocksize,
    /// `writeEF`
    WriteEF,
    /// `writeFF`
    WriteFF,
    /// `writeXF`
    WriteXF,
    /// `reset`
    Reset,
    /// `readFE`
    ReadFE,
    /// `readFF`
    ReadFF,
    /// `size`
    Size,
    /// `first`
    First,
    /// `last`
    Last,
    /// `low`
    Low,
    /// `high`
    High,
    /// `lowBound`
    LowBound,
    /// `id`
    Id,
    /// `dim`
    Dim,
    /// `contains`
    Contains,
    /// `expand`
    Expand,
}

impl Contextual {
    /// How the word is spelled.
    #[tactic(auto, unfolding(crate::specs::Tokens::contextual_text))]
    pub fn text(self) -> &'static [u8]
        ensures { result.now ≡ contextual_text self }
    {
        match self {
            Contextual::BlockDist => b"BlockDist",
            Contextual::CyclicDist => b"CyclicDist",
            Contextual::BlockCycDist => b"BlockCycDist",
            Contextual::CreateDomain => b"createDomain",
            Contextual::BoundingBox => b"boundingBox",
            Contextual::StartIdx => b"startIdx",
            Contextual::Blocksize => b"blocksize",
            Contextual::WriteEF => b"writeEF",
            Contextual::WriteFF => b"writeFF",
            Contextual::WriteXF => b"writeXF",
            Contextual::Reset => b"reset",
            Contextual::ReadFE => b"readFE",
            Contextual::ReadFF => b"readFF",
            Contextual::Size => b"size",
            Contextual::First => b"first",
            Contextual::Last => b"last",
            Contextual::Low => b"low",
            Contextual::High => b"high",
            Contextual::LowBound => b"lowBound",
            Contextual::Id => b"id",
            Contextual::Dim => b"dim",
            Contextual::Contains => b"contains",
            Contextual::Expand => b"expand",
        }
    }
}

/// A sign.
#[derive(Clone, Copy, PartialEq, Eq, Debug)]
pub enum Sign {
    /// `..<`
    DotDotLess,
    /// `..`
    DotDot,
    /// `.`
    Dot,
    /// `==`
    Equal,
    /// `!=`
    NotEqual,
    /// `<=`
    LessEqual,
    /// `>=`
    GreaterEqual,
    /// `&&`
    AndAnd,
    /// `||`
    OrOr,
    /// `+=`
    PlusAssign,
    /// `-=`
    MinusAssign,
    /// `*=`
    StarAssign,
    /// `/=`
    SlashAssign,
    /// `%=`
    PercentAssign,
    /// `=`
    Assign,
    /// `<`
    Less,
    /// `>`
    Greater,
    /// `!`
    Not,
    /// `+`
    Plus,
    /// `-`
    Minus,
    /// `*`
    Star,
    /// `/`
    Slash,
    /// `%`
    Percent,
    /// `&`
    And,
    /// `|`
    Or,
    /// `^`
    Caret,
    /// `#`
    Hash,
    /// `(`
    OpenRound,
    /// `)`
    CloseRound,
    /// `[`
    OpenSquare,
    /// `]`
    CloseSquare,
    /// `{`
    OpenCurly,
    /// `}`
    CloseCurly,
    /// `,`
    Comma,
    /// `;`
    Semicolon,
    /// `:`
    Colon,
}

/// What a token is.
#[derive(Drop)]
pub enum Kind<'a> {
    /// A name, which is a word that is neither reserved nor contextual.
    Name(Bytes<'a>),
    /// A contextual word, which may stand wherever a name may.
    Contextual(Contextual),
    /// A number, from 0 to the greatest int.
    Number(i64),
    /// The bytes between the quotes of a text, as they stand there.
    Text(Bytes<'a>),
    /// A reserved word.
    Keyword(Keyword),
    /// A sign.
    Sign(Sign),
    /// The end of the text, placed after its last byte.
    End,
}

/// A token and its place. It borrows from the text that it stands in.
#[derive(Drop)]
pub struct Token<'a> {
    pub kind: Kind<'a>,
    pub at: Place,
}
