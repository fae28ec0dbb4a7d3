// Typed statements. A variable is its slot, a body is a list, and each declaration of a plain variable has an initial value.
// They lie in the arena of the tree; specs/Steps.antt gives the plain statement that each stands for.

use crate::placing::Placing;
use crate::spot::Spot;
use crate::tree::{
    BoolExpr, DomainExpr, IndexExpr, IntExpr, PromotedInt, PromotedTruth, RangeExpr, RangesExpr,
};
use dpl_tree::{Assign, Op, ScalarKind};

/// What is handed to `write`: a text by its bytes, an int, a truth value, or the array in a slot, whose elements are printed.
#[derive(Clone, Copy)]
pub enum Argument<'t> {
    Text(&'t [u8]),
    Int(&'t IntExpr<'t>),
    Truth(&'t BoolExpr<'t>),
    Array(ScalarKind, usize),
}

/// What stands between an array's brackets: ranges, or a domain. A domain name that stands alone is the bare name over which
/// the array is declared; in brackets of its own, as in `[(D)]`, it is none.
#[derive(Clone, Copy)]
pub enum DeclaredOver<'t> {
    Ranges(&'t RangesExpr<'t>),
    Domain(&'t DomainExpr<'t>),
    /// A domain, or a range, in brackets of its own.
    HiddenDomain(&'t DomainExpr<'t>),
    HiddenRange(&'t RangeExpr<'t>),
}

/// The elements of an array at its declaration: all 0 or false; or an initial value, which is evaluated at each index if an
/// array stands in it, with the place where it is told that the array has more elements than the budget.
#[derive(Clone, Copy)]
pub enum Initial<'t> {
    Zeros,
    Falses,
    Ints(&'t Spot, &'t PromotedInt<'t>),
    Truths(&'t Spot, &'t PromotedTruth<'t>),
}

/// The declaration of an array, with the place of its name, where it is told that it is too large, and that of its opening
/// bracket, where it is told that its domain is.
#[derive(Clone, Copy)]
pub struct ArrayDeclaration<'t> {
    pub at: &'t Spot,
    pub slot: usize,
    pub from: &'t Spot,
    pub over: DeclaredOver<'t>,
    pub initial: Initial<'t>,
}

/// An array that is assigned, or of which an element is: the place of its name, where an index outside it is told, and its slot.
#[derive(Clone, Copy)]
pub struct ArrayName<'t> {
    pub at: &'t Spot,
    pub slot: usize,
}

/// A domain that is assigned: the place of its name, where it is told that an array would be too large; its slot; and the
/// slots of the arrays that are declared over it.
#[derive(Clone, Copy)]
pub struct DomainName<'t> {
    pub at: &'t Spot,
    pub slot: usize,
    pub arrays: &'t [usize],
}

/// How many dimensions a domain has: one, two or three.
#[derive(Clone, Copy, PartialEq, Eq, Debug)]
pub enum Rank {
    Line,
    Plane,
    Space,
}

/// The variables of a loop: one that is an int, one that is a tuple, or an int for each coordinate.
#[derive(Clone, Copy)]
pub enum Names<'t> {
    Int(usize),
    Tuple(usize),
    Each(usize, &'t [usize]),
}

/// A reduce variable of a forall, by its kind and its slot, and its operator.
#[derive(Clone, Copy)]
pub struct Intent {
    pub kind: ScalarKind,
    pub slot: usize,
    pub op: Op,
}

/// What the turns of a forall change, found once for all its runs: its reduce variables; the arrays declared outside of it of which its body
/// writes elements, each once, in the order of the text; and the numbers and the tuples in which its variables stand, the last of several
/// first. Only of the reduce variables is it known: who makes turns apart tests the others.
#[derive(Clone, Copy)]
pub struct Changed<'t> {
    pub reduced: &'t [Intent],
    pub written: &'t [usize],
    pub numbers: &'t [usize],
    pub tuples: &'t [usize],
}

/// What an int's statement does. Ints share one variant of `Step`: of each type that a statement points at, the check counts
/// all that it reaches.
#[derive(Clone, Copy)]
pub enum IntDeed<'t> {
    /// A declaration, with its initial value.
    Declare,
    /// A `config const`, to which the command line may give another value.
    Config,
    /// `=`
    Set,
    /// `+=`
    Add,
    /// `-=`
    Subtract,
    /// `*=`
    Multiply,
    /// `/=`, with the place where a division by zero is told.
    Divide(&'t Spot),
    /// `%=`, with the same.
    Remainder(&'t Spot),
    /// `reduce=`, by the operator of the forall's intent.
    Reduce,
}

/// What a truth value's statement does.
#[derive(Clone, Copy, PartialEq, Eq, Debug)]
pub enum TruthDeed {
    /// A declaration, with its initial value.
    Declare,
    /// A `config const`, to which the command line may give another value.
    Config,
    /// `=`
    Set,
    /// `reduce=`, by the operator of the forall's intent.
    Reduce,
}

/// To what a truth value's statement does something: the variable in a slot, or by `=` an element of an array. They share one
/// variant of `Step`, as ints' do.
#[derive(Clone, Copy)]
pub enum TruthTarget<'t> {
    Slot(TruthDeed, usize),
    Element(&'t ArrayName<'t>, &'t IndexExpr<'t>),
}

/// What a domain begins with: its initial value; or without one no index, in as many dimensions as its rank.
#[derive(Clone, Copy)]
pub enum Beginning<'t> {
    Value(&'t DomainExpr<'t>),
    Empty(Rank),
}

/// What a condition and a body do, by the word before them.
#[derive(Clone, Copy, PartialEq, Eq, Debug)]
pub enum StepWord {
    /// A loop: the body while the condition holds. It is told that its turns are more than the budget.
    While,
}

/// A statement.
#[cycle(step)]
#[derive(Clone, Copy)]
pub enum Step<'t> {
    /// `;`
    Nothing,
    /// An int's declaration, or an assignment to it.
    Int(IntDeed<'t>, usize, &'t IntExpr<'t>),
    /// A range's declaration, with its initial value.
    DeclareRange(usize, &'t RangeExpr<'t>),
    /// `=` to a range.
    SetRange(usize, &'t RangeExpr<'t>),
    /// A truth value's declaration, or an assignment to it or to an element that is one.
    Truth(TruthTarget<'t>, &'t BoolExpr<'t>),
    /// A domain's declaration, with what it begins with and what is said of its map.
    DeclareDomain(usize, Beginning<'t>, Placing<'t>),
    /// `=` to a domain, with which the arrays that are declared over it change.
    SetDomain(&'t DomainName<'t>, &'t DomainExpr<'t>),
    DeclareArray(&'t ArrayDeclaration<'t>),
    /// An assignment to an element, by whichever operator, with the place where a division by zero is told.
    SetElement(&'t ArrayName<'t>, &'t IndexExpr<'t>, Assign, &'t Spot, &'t IntExpr<'t>),
    /// An assignment to a whole array, with the place where a division by zero, and more elements than the budget, are told.
    SetArray(&'t ArrayName<'t>, Assign, &'t Spot, &'t PromotedInt<'t>),
    SetTruthArray(&'t ArrayName<'t>, &'t Spot, &'t PromotedTruth<'t>),
    /// `write(..);`, or `writeln(..);`, which ends the line.
    Write {
        ends_line: bool,
        arguments: &'t [Argument<'t>],
    },
    /// `{ .. }`
    Block(&'t [Step<'t>]),
    If {
        condition: &'t BoolExpr<'t>,
        body: &'t [Step<'t>],
        otherwise: Else<'t>,
    },
    /// A word, a condition and a body, with the place where the word's fault is told.
    Headed {
        word: StepWord,
        at: &'t Spot,
        condition: &'t BoolExpr<'t>,
        body: &'t [Step<'t>],
    },
    /// A loop over a range, with the slot of its variable.
    For {
        at: &'t Spot,
        slot: usize,
        over: &'t RangeExpr<'t>,
        body: &'t [Step<'t>],
    },
    /// The same, with what its turns change.
    Forall {
        at: &'t Spot,
        slot: usize,
        over: &'t RangeExpr<'t>,
        changed: &'t Changed<'t>,
        body: &'t [Step<'t>],
    },
    /// A loop over a domain.
    ForEach {
        at: &'t Spot,
        names: Names<'t>,
        over: &'t DomainExpr<'t>,
        body: &'t [Step<'t>],
    },
    /// The same, with what its turns change.
    ForallEach {
        at: &'t Spot,
        names: Names<'t>,
        over: &'t DomainExpr<'t>,
        changed: &'t Changed<'t>,
        body: &'t [Step<'t>],
    },
}

/// `else` and a statement, or nothing.
#[cycle(step)]
#[derive(Clone, Copy)]
pub enum Else<'t> {
    Absent,
    Do(&'t Step<'t>),
}
