// The operators of a reduction, by what they take: those of ints, and those of truth values.
// specs/Typed.antt gives the operator of the language that each stands for.

ghost use Rattle.std.specs.Prelude.{◌≡◌};
ghost use Rattle.dpl_nodes.specs.Typed.{fold_view};

use dpl_tree::Op;

/// An operator that puts ints together.
#[derive(Clone, Copy, PartialEq, Eq, Debug)]
pub enum IntFold {
    Sum,
    Product,
    BitAnd,
    BitOr,
    BitXor,
    Least,
    Greatest,
}

/// An operator that puts truth values together.
#[derive(Clone, Copy, PartialEq, Eq, Debug)]
pub enum TruthFold {
    AllOf,
    AnyOf,
}

/// An operator of a reduction, by what it takes.
#[derive(Clone, Copy, PartialEq, Eq, Debug)]
pub enum Fold {
    Ints(IntFold),
    Truths(TruthFold),
}

impl Fold {
    /// An operator, by what it takes.
    pub fn of(op: Op) -> Fold
        ensures { fold_view result ≡ op }
    {
        match op {
            Op::Sum => Fold::Ints(IntFold::Sum),
            Op::Product => Fold::Ints(IntFold::Product),
            Op::AllOf => Fold::Truths(TruthFold::AllOf),
            Op::AnyOf => Fold::Truths(TruthFold::AnyOf),
            Op::BitAnd => Fold::Ints(IntFold::BitAnd),
            Op::BitOr => Fold::Ints(IntFold::BitOr),
            Op::BitXor => Fold::Ints(IntFold::BitXor),
            Op::Least => Fold::Ints(IntFold::Least),
            Op::Greatest => Fold::Ints(IntFold::Greatest),
        }
    }
}
