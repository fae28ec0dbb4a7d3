// A typed expression of whatever type, with what its type says beside its node.
// specs/Typed.antt gives its type and the plain tree that it stands for.

ghost use Rattle.std.specs.Prelude.{◌≡◌};
ghost use Rattle.dpl_scopes.specs.Types.{type_view};
ghost use Rattle.dpl_typed.specs.Typed.{type_of_typed};

use dpl_nodes::{BoolExpr, DomainExpr, IntExpr, PromotedInt, PromotedTruth, RangeExpr, Spot};
use dpl_scopes::{Over, ValueType};
use dpl_tree::ScalarKind;
use std::alloc::AllocError;

/// A typed expression.
#[derive(Clone, Copy)]
pub enum Typed<'t> {
    Int(&'t IntExpr<'t>),
    Truth(&'t BoolExpr<'t>),
    Range {
        strided: bool,
        node: &'t RangeExpr<'t>,
    },
    Domain {
        rank: usize,
        strided: bool,
        node: &'t DomainExpr<'t>,
    },
    /// A whole array by its name, with its slot and the name's place, where it is told that the array hasn't an index.
    Array {
        kind: ScalarKind,
        over: Over<'t>,
        slot: usize,
        at: &'t Spot,
    },
    /// Ints or truth values at each index of the whole arrays in it, and what these are over.
    Ints(Over<'t>, &'t PromotedInt<'t>),
    Truths(Over<'t>, &'t PromotedTruth<'t>),
    /// The tuple name of a loop, by its slot.
    Tuple {
        rank: usize,
        slot: usize,
    },
    /// A locale, the word `Locales`, and a cell. They have no node: no program with one is run.
    Locale,
    AllLocales,
    Cell(ScalarKind),
}

/// A typed expression, if the rules give it a type; or out of memory.
pub type Made<'t> = Result<Option<Typed<'t>>, AllocError>;

impl<'t> Typed<'t> {
    /// Its type.
    pub fn value_type(self) -> ValueType<'t>
        ensures { type_view result ≡ type_of_typed self.entry }
    {
        match self {
            Typed::Int(_) => ValueType::Scalar(ScalarKind::Int),
            Typed::Truth(_) => ValueType::Scalar(ScalarKind::Bool),
            Typed::Range { strided, .. } => ValueType::Range { strided },
            Typed::Domain { rank, strided, .. } => ValueType::Domain { rank, strided },
            Typed::Array { kind, over, .. } => ValueType::Array(kind, over),
            Typed::Ints(over, _) => ValueType::Promoted(ScalarKind::Int, over),
            Typed::Truths(over, _) => ValueType::Promoted(ScalarKind::Bool, over),
            Typed::Tuple { rank, .. } => ValueType::Tuple(rank),
            Typed::Locale => ValueType::Locale,
            Typed::AllLocales => ValueType::AllLocales,
            Typed::Cell(kind) => ValueType::Cell(kind),
        }
    }
}
