// Statements and programs.
// A statement is a word or two: it points to what it is made of.

use crate::declaration::Declare;
use crate::expression::{Expr, Exprs, Item, Name};
use dpl_syntax::{Assign, BracketPair, Module, Op, Place, ReadWord, WriteWord};

/// What is handed to `write`.
#[derive(Clone, Copy)]
pub enum Argument<'t> {
    /// A text, by the bytes between its quotes.
    Text(Place, &'t [u8]),
    Expr(&'t Expr<'t>),
}

/// A comma, and the argument behind it.
#[derive(Clone, Copy)]
pub struct NextArgument<'t> {
    pub comma: Place,
    pub argument: Argument<'t>,
}

/// Arguments between commas.
#[derive(Clone, Copy)]
pub struct Arguments<'t> {
    pub first: Argument<'t>,
    pub others: &'t [NextArgument<'t>],
}

/// `write(..);`, or `writeln(..);`, which ends the line.
#[derive(Clone, Copy)]
pub struct Write<'t> {
    pub at: Place,
    pub ends_line: bool,
    pub from: Place,
    pub arguments: Option<Arguments<'t>>,
    pub upto: Place,
    pub semicolon: Place,
}

/// An intent.
#[derive(Clone, Copy)]
pub enum Intent<'t> {
    /// op `reduce` name
    Reduce(Place, Op, Place, Name<'t>),
    /// `ref` name
    Ref(Place, Name<'t>),
}

/// A comma, and the intent behind it.
#[derive(Clone, Copy)]
pub struct NextIntent<'t> {
    pub comma: Place,
    pub intent: Intent<'t>,
}

/// `with (` intents `)`
#[derive(Clone, Copy)]
pub struct With<'t> {
    pub at: Place,
    pub from: Place,
    pub first: Intent<'t>,
    pub others: &'t [NextIntent<'t>],
    pub upto: Place,
}

/// A comma, and the name behind it.
#[derive(Clone, Copy)]
pub struct NextName<'t> {
    pub comma: Place,
    pub name: Name<'t>,
}

/// The variables of a loop.
#[derive(Clone, Copy)]
pub enum Variables<'t> {
    One(Name<'t>),
    /// Two or three names in round brackets.
    Many {
        from: Place,
        first: Name<'t>,
        others: &'t [NextName<'t>],
        upto: Place,
    },
}

/// An element of an array, by its indices.
#[derive(Clone, Copy)]
pub struct Element<'t> {
    pub name: Name<'t>,
    pub shape: BracketPair,
    pub from: Place,
    pub exprs: Exprs<'t>,
    pub upto: Place,
}

/// What is assigned.
#[derive(Clone, Copy)]
pub enum Target<'t> {
    Whole(Name<'t>),
    Element(&'t Element<'t>),
}

/// An assignment's operator, and the places of its first and last token, which differ for `reduce=` alone.
#[derive(Clone, Copy)]
pub struct AssignSign {
    pub at: Place,
    pub op: Assign,
    pub last: Place,
}

/// A target, an operator, an item and `;`.
#[derive(Clone, Copy)]
pub struct Assignment<'t> {
    pub target: Target<'t>,
    pub sign: AssignSign,
    pub value: Item<'t>,
    pub semicolon: Place,
}

/// A cell's call: the place of its word, and those of its brackets.
#[derive(Clone, Copy)]
pub enum Call<'t> {
    Read(Place, ReadWord, Place, Place),
    /// `reset()`
    Reset(Place, Place, Place),
    Write(Place, WriteWord, Place, &'t Expr<'t>, Place),
}

/// A name, `.`, a cell's call and `;`.
#[derive(Clone, Copy)]
pub struct CellCall<'t> {
    pub name: Name<'t>,
    pub dot: Place,
    pub call: Call<'t>,
    pub semicolon: Place,
}

/// The words of statements that are an expression and a body: a condition behind `while`, a locale behind `on`.
#[derive(Clone, Copy, PartialEq, Eq, Debug)]
pub enum HeadWord {
    While,
    On,
}

/// The words of loops that may have intents.
#[derive(Clone, Copy, PartialEq, Eq, Debug)]
pub enum ParallelWord {
    Forall,
    Coforall,
}

/// A statement.
#[cycle(statement)]
#[derive(Clone, Copy)]
pub enum Stmt<'t> {
    /// `;`
    Nothing(Place),
    Declare(&'t Declare<'t>),
    Assigned(&'t Assignment<'t>),
    Call(&'t CellCall<'t>),
    Write(&'t Write<'t>),
    Block(&'t Block<'t>),
    If(&'t If<'t>),
    Headed(&'t Headed<'t>),
    For(&'t For<'t>),
    Parallel(&'t Parallel<'t>),
}

/// `{` statements `}`
#[cycle(statement)]
#[derive(Clone, Copy)]
pub struct Block<'t> {
    pub from: Place,
    pub stmts: &'t [Stmt<'t>],
    pub upto: Place,
}

/// A body: `do` or `then` and a statement, or a block.
#[cycle(statement)]
#[derive(Clone, Copy)]
pub enum Body<'t> {
    Word(Place, &'t Stmt<'t>),
    Block(Block<'t>),
}

/// `else` and a statement, or nothing.
#[cycle(statement)]
#[derive(Clone, Copy)]
pub enum Else<'t> {
    Absent,
    Do(Place, &'t Stmt<'t>),
}

/// `if` condition body, perhaps with `else`
#[cycle(statement)]
#[derive(Clone, Copy)]
pub struct If<'t> {
    pub at: Place,
    pub condition: &'t Expr<'t>,
    pub body: Body<'t>,
    pub otherwise: Else<'t>,
}

/// word expression body
#[cycle(statement)]
#[derive(Clone, Copy)]
pub struct Headed<'t> {
    pub word: HeadWord,
    pub at: Place,
    pub value: &'t Expr<'t>,
    pub body: Body<'t>,
}

/// `for` variables `in` item body
#[cycle(statement)]
#[derive(Clone, Copy)]
pub struct For<'t> {
    pub at: Place,
    pub variables: Variables<'t>,
    pub within: Place,
    pub over: Item<'t>,
    pub body: Body<'t>,
}

/// word variables `in` item, perhaps intents, body
#[cycle(statement)]
#[derive(Clone, Copy)]
pub struct Parallel<'t> {
    pub word: ParallelWord,
    pub at: Place,
    pub variables: Variables<'t>,
    pub within: Place,
    pub over: Item<'t>,
    pub with: Option<With<'t>>,
    pub body: Body<'t>,
}

/// A module that `use` names.
#[derive(Clone, Copy)]
pub struct ModuleName {
    pub at: Place,
    pub word: Module,
}

/// A comma, and the module's name behind it.
#[derive(Clone, Copy)]
pub struct NextModule {
    pub comma: Place,
    pub module: ModuleName,
}

/// `use` modules `;`
#[derive(Clone, Copy)]
pub struct Use<'t> {
    pub at: Place,
    pub first: ModuleName,
    pub others: &'t [NextModule],
    pub semicolon: Place,
}

/// A program: its `use` lines, its statements, and the place of the text's end.
#[derive(Clone, Copy)]
pub struct Program<'t> {
    pub uses: &'t [Use<'t>],
    pub stmts: &'t [Stmt<'t>],
    pub end: Place,
}
