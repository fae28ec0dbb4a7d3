// Declarations: types, initial values and the maps of domains.
// None of them holds a statement.

use crate::expression::{Expr, Item, Items, Name, NextExpr};
use dpl_syntax::{CreateWord, Place, ScalarKind};

/// The name of a map's argument (`boundingBox`, `startIdx`, `blocksize`) and its `=`.
#[derive(Clone, Copy)]
pub struct ArgumentName {
    pub at: Place,
    pub equals: Place,
}

/// Where a map starts.
#[derive(Clone, Copy)]
pub enum Start<'t> {
    Expr(&'t Expr<'t>),
    /// Two or three expressions in round brackets.
    Tuple {
        from: Place,
        first: &'t Expr<'t>,
        others: &'t [NextExpr<'t>],
        upto: Place,
    },
}

/// `new blockDist(boundingBox=B)`
#[derive(Clone, Copy)]
pub struct BlockMap<'t> {
    pub new: Place,
    pub word: Place,
    pub from: Place,
    pub argument: Option<ArgumentName>,
    pub bounding_box: Item<'t>,
    pub upto: Place,
}

/// `new cyclicDist(startIdx=e)`
#[derive(Clone, Copy)]
pub struct CyclicMap<'t> {
    pub new: Place,
    pub word: Place,
    pub from: Place,
    pub argument: Option<ArgumentName>,
    pub start: Start<'t>,
    pub upto: Place,
}

/// `new blockCycDist(startIdx=e, blocksize=f)`
#[derive(Clone, Copy)]
pub struct BlockCyclicMap<'t> {
    pub new: Place,
    pub word: Place,
    pub from: Place,
    pub start_argument: Option<ArgumentName>,
    pub start: Start<'t>,
    pub comma: Place,
    pub size_argument: Option<ArgumentName>,
    pub size: Start<'t>,
    pub upto: Place,
}

/// A map.
#[derive(Clone, Copy)]
pub enum Map<'t> {
    Block(BlockMap<'t>),
    Cyclic(CyclicMap<'t>),
    BlockCyclic(BlockCyclicMap<'t>),
}

/// `dmapped` and a map.
#[derive(Clone, Copy)]
pub struct Mapped<'t> {
    pub at: Place,
    pub map: Map<'t>,
}

/// `domain(k)`, perhaps with a map.
#[derive(Clone, Copy)]
pub struct DomainType<'t> {
    pub at: Place,
    pub from: Place,
    pub rank_at: Place,
    pub rank: i64,
    pub upto: Place,
    pub mapped: Option<Mapped<'t>>,
}

/// `[` items `]`, and the kind of the elements.
#[derive(Clone, Copy)]
pub struct ArrayType<'t> {
    pub from: Place,
    pub over: Items<'t>,
    pub upto: Place,
    pub kind_at: Place,
    pub kind: ScalarKind,
}

/// A declared type.
#[derive(Clone, Copy)]
pub enum DeclaredType<'t> {
    Scalar(Place, ScalarKind),
    /// `sync int` or `sync bool`, with the places of both words.
    Sync(Place, Place, ScalarKind),
    Domain(DomainType<'t>),
    Array(ArrayType<'t>),
}

/// `blockDist.createDomain(..)` or `cyclicDist.createDomain(..)`
#[derive(Clone, Copy)]
pub struct Create<'t> {
    pub at: Place,
    pub word: CreateWord,
    pub dot: Place,
    pub method: Place,
    pub from: Place,
    pub items: Items<'t>,
    pub upto: Place,
}

/// An initial value.
#[derive(Clone, Copy)]
pub enum Init<'t> {
    Item(Item<'t>, Option<Mapped<'t>>),
    Create(Create<'t>),
}

/// `:` and a type.
#[derive(Clone, Copy)]
pub struct Typed<'t> {
    pub colon: Place,
    pub declared: DeclaredType<'t>,
}

/// `=` and an initial value.
#[derive(Clone, Copy)]
pub struct Initial<'t> {
    pub equals: Place,
    pub init: Init<'t>,
}

/// A declaration, with its `;`.
#[derive(Clone, Copy)]
pub struct Declare<'t> {
    pub config: Option<Place>,
    pub at: Place,
    pub constant: bool,
    pub name: Name<'t>,
    pub typed: Option<Typed<'t>>,
    pub initial: Option<Initial<'t>>,
    pub semicolon: Place,
}
