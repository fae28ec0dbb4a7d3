// Expressions, items and what stands in them.
// A list with separators is its first part and the others, each behind its separator. Expressions are held by reference.

use dpl_syntax::{Dots, Infix, Op, Place, Prefix, ReadWord, Word};

/// A name in the text.
#[derive(Clone, Copy)]
pub struct Name<'t> {
    pub at: Place,
    pub text: &'t [u8],
}

/// An expression.
#[cycle(expression)]
#[derive(Clone, Copy)]
pub enum Expr<'t> {
    Number(Place, i64),
    /// `true` or `false`
    Truth(Place, bool),
    Named(Name<'t>),
    /// `Locales`
    Locales(Place),
    /// `numLocales`
    LocaleCount(Place),
    /// `here`
    Here(Place),
    /// `(` item `)`
    Grouped {
        from: Place,
        item: &'t Item<'t>,
        upto: Place,
    },
    /// `{` items `}`
    Domain {
        from: Place,
        items: &'t Items<'t>,
        upto: Place,
    },
    /// An operator and its operand.
    Prefixed {
        at: Place,
        op: Prefix,
        operand: &'t Expr<'t>,
    },
    /// op `reduce` operand
    Reduced(&'t Reduction<'t>),
    /// Operands with operators of one level between them, grouped to the left.
    Chain(&'t Chain<'t>),
    /// What stands before brackets, rounds and methods, and these.
    Postfixed(&'t Postfixed<'t>),
}

/// op `reduce` operand
#[cycle(expression)]
#[derive(Clone, Copy)]
pub struct Reduction<'t> {
    pub at: Place,
    pub op: Op,
    pub reduce: Place,
    pub operand: &'t Expr<'t>,
}

/// The first operand of a chain, and the others.
#[cycle(expression)]
#[derive(Clone, Copy)]
pub struct Chain<'t> {
    pub first: &'t Expr<'t>,
    pub links: &'t [Link<'t>],
}

/// A further operand of a chain, behind its operator.
#[cycle(expression)]
#[derive(Clone, Copy)]
pub struct Link<'t> {
    pub at: Place,
    pub op: Infix,
    pub right: &'t Expr<'t>,
}

/// A base, and what stands behind it in order.
#[cycle(expression)]
#[derive(Clone, Copy)]
pub struct Postfixed<'t> {
    pub base: &'t Expr<'t>,
    pub posts: &'t [Post<'t>],
}

/// What stands behind a base.
#[cycle(expression)]
#[derive(Clone, Copy)]
pub enum Post<'t> {
    /// `[` items `]`
    Brackets {
        from: Place,
        items: &'t Items<'t>,
        upto: Place,
    },
    /// `(` expressions `)`
    Rounds {
        from: Place,
        exprs: &'t Exprs<'t>,
        upto: Place,
    },
    /// `.` method
    Dotted(Place, Method<'t>),
}

/// A method and its arguments.
#[cycle(expression)]
#[derive(Clone, Copy)]
pub enum Method<'t> {
    Plain(Place, Word),
    /// `dim(k)`
    Dim(&'t Dim),
    /// `contains(` expressions `)`
    Contains(&'t Contains<'t>),
    /// `expand(` expression `)`
    Expand(&'t Expand<'t>),
    /// `readFE()` or `readFF()`
    CellRead {
        at: Place,
        word: ReadWord,
        from: Place,
        upto: Place,
    },
}

/// `dim(k)`
#[derive(Clone, Copy)]
pub struct Dim {
    pub at: Place,
    pub from: Place,
    pub number_at: Place,
    pub number: i64,
    pub upto: Place,
}

/// `contains(` expressions `)`
#[cycle(expression)]
#[derive(Clone, Copy)]
pub struct Contains<'t> {
    pub at: Place,
    pub from: Place,
    pub exprs: Exprs<'t>,
    pub upto: Place,
}

/// `expand(` expression `)`
#[cycle(expression)]
#[derive(Clone, Copy)]
pub struct Expand<'t> {
    pub at: Place,
    pub from: Place,
    pub by: &'t Expr<'t>,
    pub upto: Place,
}

/// An expression, or a range.
#[cycle(expression)]
#[derive(Clone, Copy)]
pub enum Item<'t> {
    One(&'t Expr<'t>),
    Range(&'t Range<'t>),
}

/// The low end, the dots, the high end or the count, and perhaps a stride.
#[cycle(expression)]
#[derive(Clone, Copy)]
pub struct Range<'t> {
    pub low: &'t Expr<'t>,
    pub at: Place,
    pub dots: Dots,
    pub high: &'t Expr<'t>,
    pub by: Stride<'t>,
}

/// `by` and a stride, or nothing.
#[cycle(expression)]
#[derive(Clone, Copy)]
pub enum Stride<'t> {
    Absent,
    By(Place, &'t Expr<'t>),
}

/// Items between commas.
#[cycle(expression)]
#[derive(Clone, Copy)]
pub struct Items<'t> {
    pub first: Item<'t>,
    pub others: &'t [NextItem<'t>],
}

/// A comma, and the item behind it.
#[cycle(expression)]
#[derive(Clone, Copy)]
pub struct NextItem<'t> {
    pub comma: Place,
    pub item: Item<'t>,
}

/// Expressions between commas.
#[cycle(expression)]
#[derive(Clone, Copy)]
pub struct Exprs<'t> {
    pub first: &'t Expr<'t>,
    pub others: &'t [NextExpr<'t>],
}

/// A comma, and the expression behind it.
#[cycle(expression)]
#[derive(Clone, Copy)]
pub struct NextExpr<'t> {
    pub comma: Place,
    pub expr: &'t Expr<'t>,
}
