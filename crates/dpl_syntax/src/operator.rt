// The operators and words that trees hold, the language's own: the definition has no others.
// Its trees pass them on (Tree.antt of dpl_language), and so do the trees in memory (dpl_tree).

use crate::place::Place;

/// An operator before its operand.
#[derive(Clone, Copy, PartialEq, Eq, Debug)]
pub enum Prefix {
    /// `-`
    Minus,
    /// `!`
    Not,
}

/// An operator between two operands.
#[derive(Clone, Copy, PartialEq, Eq, Debug)]
pub enum Infix {
    /// `+`
    Add,
    /// `-`
    Subtract,
    /// `*`
    Multiply,
    /// `/`
    Divide,
    /// `%`
    Remainder,
    /// `<`
    Less,
    /// `<=`
    LessEqual,
    /// `>`
    Greater,
    /// `>=`
    GreaterEqual,
    /// `==`
    Equal,
    /// `!=`
    NotEqual,
    /// `&&`
    And,
    /// `||`
    Or,
}

/// An operator of a reduction.
#[derive(Clone, Copy, PartialEq, Eq, Debug)]
pub enum Op {
    /// `+`
    Sum,
    /// `*`
    Product,
    /// `&&`
    AllOf,
    /// `||`
    AnyOf,
    /// `&`
    BitAnd,
    /// `|`
    BitOr,
    /// `^`
    BitXor,
    /// `min`
    Least,
    /// `max`
    Greatest,
}

/// An operator of an assignment.
#[derive(Clone, Copy, PartialEq, Eq, Debug)]
pub enum Assign {
    /// `=`
    Set,
    /// `+=`
    SetAdd,
    /// `-=`
    SetSubtract,
    /// `*=`
    SetMultiply,
    /// `/=`
    SetDivide,
    /// `%=`
    SetRemainder,
    /// `reduce=`, of two tokens
    SetReduce,
}

/// What stands between the two ends of a range.
#[derive(Clone, Copy)]
pub enum Dots {
    /// `..`
    Closed,
    /// `..<`
    HalfOpen,
    /// `..` and `#`, with the place of the latter
    Counted(Place),
}

/// A method without arguments: `size`, `first`, `last`, `low`, `high`, `lowBound`, `domain` or `id`.
#[derive(Clone, Copy, PartialEq, Eq, Debug)]
pub enum Word {
    Size,
    First,
    Last,
    Low,
    High,
    LowBound,
    DomainOf,
    Id,
}

/// A method that reads a cell.
#[derive(Clone, Copy, PartialEq, Eq, Debug)]
pub enum ReadWord {
    ReadFE,
    ReadFF,
}

/// A method that writes a cell.
#[derive(Clone, Copy, PartialEq, Eq, Debug)]
pub enum WriteWord {
    WriteEF,
    WriteFF,
    WriteXF,
}

/// The kind of a scalar, of an array's elements or of a cell: `int` or `bool`.
#[derive(Clone, Copy, PartialEq, Eq, Debug)]
pub enum ScalarKind {
    Int,
    Bool,
}

/// The two words before `.createDomain`.
#[derive(Clone, Copy, PartialEq, Eq, Debug)]
pub enum CreateWord {
    /// `blockDist`
    Block,
    /// `cyclicDist`
    Cyclic,
}

/// The two shapes of the brackets round an element's indices.
#[derive(Clone, Copy, PartialEq, Eq, Debug)]
pub enum BracketPair {
    /// `[` and `]`
    Square,
    /// `(` and `)`
    Round,
}

/// A module that `use` may name.
#[derive(Clone, Copy, PartialEq, Eq, Debug)]
pub enum Module {
    /// `BlockDist`
    Block,
    /// `CyclicDist`
    Cyclic,
    /// `BlockCycDist`
    BlockCyclic,
}
