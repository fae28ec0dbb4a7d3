// The trees of programs as they lie in an arena: what is spelled, with the place of each token.
// Each is seen as a plain tree of the language's definition (specs/View.antt), without where its nodes lie.
// Trees are `Copy`, and the caller passes the arena: so no function drops a part of a tree.
#![tactic(auto)]

pub mod arena;
mod bare;
pub mod declaration;
pub mod expression;
mod make;
pub mod statement;

pub use arena::Arena;
pub use declaration::{
    ArgumentName, ArrayType, BlockCyclicMap, BlockMap, Create, CyclicMap, Declare, DeclaredType,
    DomainType, Init, Initial, Map, Mapped, Start, Typed,
};
pub use dpl_syntax::{
    Assign, BracketPair, CreateWord, Dots, Infix, Module, Op, Prefix, ReadWord, ScalarKind, Word,
    WriteWord,
};
pub use expression::{
    Chain, Contains, Dim, Expand, Expr, Exprs, Item, Items, Link, Method, Name, NextExpr, NextItem,
    Post, Postfixed, Range, Reduction, Stride,
};
pub use statement::{
    Argument, Arguments, AssignSign, Assignment, Block, Body, Call, CellCall, Element, Else, For,
    HeadWord, Headed, If, Intent, ModuleName, NextArgument, NextIntent, NextModule, NextName,
    Parallel, ParallelWord, Program, Stmt, Target, Use, Variables, With, Write,
};
