// Typed expressions. An expression has the type of its enum, and a variable is its slot. A chain has its further operands in a list, so that no walk
// calls itself for each of them; a chain of two ints has a node of its own, since most chains are such ones.
// They lie in the arena of the tree; specs/Typed.antt gives the plain tree that each stands for.

ghost use Rattle.std.specs.Prelude.{◌≡◌};
ghost use Rattle.dpl_nodes.specs.Typed.{range_method, domain_method};

use crate::fold::{IntFold, TruthFold};
use crate::spot::Spot;
use dpl_tree::{ScalarKind, Word};

/// How a range's second number is meant: `..`, `..<` or `..#`.
#[derive(Clone, Copy, PartialEq, Eq, Debug)]
pub enum Dots {
    Closed,
    HalfOpen,
    Counted,
}

/// A method of a range that gives an int: how many members it has, an end of its sequence, or its least or greatest member.
#[derive(Clone, Copy, PartialEq, Eq, Debug)]
pub enum RangeMethod {
    Size,
    First,
    Last,
    Low,
    High,
}

impl RangeMethod {
    /// The method of a range that a word names; none where the word is no method of a range.
    pub fn named(word: Word) -> Option<RangeMethod>
        ensures { result ≡ range_method word }
    {
        match word {
            Word::Size => Some(RangeMethod::Size),
            Word::First => Some(RangeMethod::First),
            Word::Last => Some(RangeMethod::Last),
            Word::Low => Some(RangeMethod::Low),
            Word::High => Some(RangeMethod::High),
            Word::LowBound | Word::DomainOf | Word::Id => None,
        }
    }
}

/// A method of a domain that gives an int: how many indices it has.
#[derive(Clone, Copy, PartialEq, Eq, Debug)]
pub enum DomainMethod {
    Size,
}

impl DomainMethod {
    /// The method of a domain that a word names; none where the word is no method of a domain, or one that gives no int.
    pub fn named(word: Word) -> Option<DomainMethod>
        ensures { result ≡ domain_method word }
    {
        match word {
            Word::Size => Some(DomainMethod::Size),
            Word::First
            | Word::Last
            | Word::Low
            | Word::High
            | Word::LowBound
            | Word::DomainOf
            | Word::Id => None,
        }
    }
}

/// An operator between two ints, with the place where a division by zero is told.
#[derive(Clone, Copy)]
pub enum IntOperator<'t> {
    Sum,
    Difference,
    Product,
    Quotient(&'t Spot),
    Remainder(&'t Spot),
}

/// A further operand of a chain of ints, behind its operator.
#[cycle(typed)]
#[derive(Clone, Copy)]
pub struct IntLink<'t> {
    pub op: IntOperator<'t>,
    pub right: &'t IntExpr<'t>,
}

/// An expression that is an int.
#[cycle(typed)]
#[derive(Clone, Copy)]
pub enum IntExpr<'t> {
    Number(i64),
    /// The variable in a slot.
    Local(usize),
    Negative(&'t IntExpr<'t>),
    Sum(&'t IntExpr<'t>, &'t IntExpr<'t>),
    Difference(&'t IntExpr<'t>, &'t IntExpr<'t>),
    Product(&'t IntExpr<'t>, &'t IntExpr<'t>),
    /// With the place where a division by zero is told.
    Quotient(&'t IntExpr<'t>, &'t IntExpr<'t>, &'t Spot),
    Remainder(&'t IntExpr<'t>, &'t IntExpr<'t>, &'t Spot),
    /// The first operand of a chain, and the others, from left to right.
    Chain(&'t IntExpr<'t>, &'t [IntLink<'t>]),
    /// A method of a range, with the place where it is told that there is no end.
    OfRange(RangeMethod, &'t RangeExpr<'t>, &'t Spot),
    /// A method of a domain.
    OfDomain(DomainMethod, &'t DomainExpr<'t>),
    /// An element of the array in a slot, with the place where an index outside it is told.
    Element(usize, &'t IndexExpr<'t>, &'t Spot),
    /// The ints at all indices put together, with the place of `reduce`, where it is told that they are too many.
    Reduced(IntFold, &'t PromotedInt<'t>, &'t Spot),
}

/// How two ints are compared.
#[derive(Clone, Copy, PartialEq, Eq, Debug)]
pub enum Comparison {
    Equal,
    Unequal,
    Less,
    AtMost,
    Greater,
    AtLeast,
}

/// An operator between two truth values.
#[derive(Clone, Copy, PartialEq, Eq, Debug)]
pub enum Junction {
    And,
    Or,
    /// Both are the same, or they differ.
    Same,
    Differ,
}

/// A further operand of a chain of truth values, behind its operator.
#[cycle(truth)]
#[derive(Clone, Copy)]
pub struct TruthLink<'t> {
    pub op: Junction,
    pub right: &'t BoolExpr<'t>,
}

/// An expression that is a truth value.
#[cycle(truth)]
#[derive(Clone, Copy)]
pub enum BoolExpr<'t> {
    Truth(bool),
    /// The variable in a slot.
    Local(usize),
    Not(&'t BoolExpr<'t>),
    /// The first operand of a chain, and the others, from left to right.
    Chain(&'t BoolExpr<'t>, &'t [TruthLink<'t>]),
    Compare(Comparison, &'t IntExpr<'t>, &'t IntExpr<'t>),
    /// A range has the int.
    Contains(&'t RangeExpr<'t>, &'t IntExpr<'t>),
    /// A domain has the index.
    HasIndex(&'t DomainExpr<'t>, &'t IndexExpr<'t>),
    /// An element of the array in a slot, with the place where an index outside it is told.
    Element(usize, &'t IndexExpr<'t>, &'t Spot),
    /// The truth values at all indices put together, with the place of `reduce`, where it is told that they are too many.
    Reduced(TruthFold, &'t PromotedTruth<'t>, &'t Spot),
}

/// A stride, with the place where it is told to be past its limits; or none.
#[cycle(typed)]
#[derive(Clone, Copy)]
pub enum Stride<'t> {
    Absent,
    By(&'t Spot, &'t IntExpr<'t>),
}

/// A further range that a range is sliced by.
#[cycle(typed)]
#[derive(Clone, Copy)]
pub struct RangeCut<'t> {
    pub by: &'t RangeExpr<'t>,
}

/// An expression that is a range.
#[cycle(typed)]
#[derive(Clone, Copy)]
pub enum RangeExpr<'t> {
    /// The variable in a slot.
    Local(usize),
    /// A low bound, the place where a bound or a count past its limit is told, a high bound or a count, and a stride.
    Between(&'t IntExpr<'t>, &'t Spot, Dots, &'t IntExpr<'t>, Stride<'t>),
    /// What of a range lies between the bounds of another one, and of further ones.
    Slice(&'t RangeExpr<'t>, &'t RangeExpr<'t>, &'t [RangeCut<'t>]),
    /// A dimension of a domain, counted from 0.
    Dimension(&'t DomainExpr<'t>, u32),
}

/// A range for each dimension.
#[cycle(typed)]
#[derive(Clone, Copy)]
pub enum RangesExpr<'t> {
    Line(&'t RangeExpr<'t>),
    Plane(&'t RangeExpr<'t>, &'t RangeExpr<'t>),
    Space(&'t RangeExpr<'t>, &'t RangeExpr<'t>, &'t RangeExpr<'t>),
}

/// An index: a coordinate for each dimension, or the tuple in a slot.
#[cycle(typed)]
#[derive(Clone, Copy)]
pub enum IndexExpr<'t> {
    Line(&'t IntExpr<'t>),
    Plane(&'t IntExpr<'t>, &'t IntExpr<'t>),
    Space(&'t IntExpr<'t>, &'t IntExpr<'t>, &'t IntExpr<'t>),
    Tuple(usize),
}

/// What makes a domain of another one.
#[cycle(typed)]
#[derive(Clone, Copy)]
pub enum DomainPost<'t> {
    /// Each dimension between the bounds of its range.
    Slice(&'t RangesExpr<'t>),
    /// `expand`, with the place where a bound past its limit and too many indices are told.
    Expanded(&'t Spot, &'t IntExpr<'t>),
}

/// An expression that is a domain.
#[cycle(typed)]
#[derive(Clone, Copy)]
pub enum DomainExpr<'t> {
    /// The variable in a slot.
    Local(usize),
    /// The domain of the array in a slot.
    OfArray(ScalarKind, usize),
    /// `{..}`, with the place where it is told that there are too many indices.
    Literal(&'t Spot, &'t RangesExpr<'t>),
    /// What is made of a domain, from left to right.
    Posts(&'t DomainExpr<'t>, &'t [DomainPost<'t>]),
    /// What is created from a domain: the set of its ranges, with the place where it would be told that there are too many indices.
    Created(&'t Spot, &'t DomainExpr<'t>),
}

/// A further operand of a chain of promoted ints, behind its operator.
#[cycle(typed)]
#[derive(Clone, Copy)]
pub struct PromotedIntLink<'t> {
    pub op: IntOperator<'t>,
    pub right: &'t PromotedInt<'t>,
}

/// An int at each index of the whole arrays in it, as `A * 2 + 1`. It is walked at one index after another.
#[cycle(typed)]
#[derive(Clone, Copy)]
pub enum PromotedInt<'t> {
    /// An int without a whole array, which is evaluated at each index anew.
    Scalar(&'t IntExpr<'t>),
    /// The element of the array in a slot, with the place of its name, where it is told that the array hasn't the index.
    Element(usize, &'t Spot),
    Negative(&'t PromotedInt<'t>),
    /// The first operand of a chain, and the others, from left to right.
    Chain(&'t PromotedInt<'t>, &'t [PromotedIntLink<'t>]),
}

/// A further operand of a chain of promoted truth values, behind its operator.
#[cycle(truth)]
#[derive(Clone, Copy)]
pub struct PromotedTruthLink<'t> {
    pub op: Junction,
    pub right: &'t PromotedTruth<'t>,
}

/// A truth value at each index.
#[cycle(truth)]
#[derive(Clone, Copy)]
pub enum PromotedTruth<'t> {
    /// A truth value without a whole array, which is evaluated at each index anew.
    Scalar(&'t BoolExpr<'t>),
    /// The element of the array in a slot, with the place of its name, where it is told that the array hasn't the index.
    Element(usize, &'t Spot),
    Not(&'t PromotedTruth<'t>),
    /// The first operand of a chain, and the others, from left to right.
    Chain(&'t PromotedTruth<'t>, &'t [PromotedTruthLink<'t>]),
    Compare(Comparison, &'t PromotedInt<'t>, &'t PromotedInt<'t>),
}
