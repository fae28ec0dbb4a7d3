// The types of names and expressions, and what a place for an expression asks of one.
// specs/View.antt gives the type of the language's check that each stands for.

ghost use Rattle.std.specs.Prelude.{◌≡◌, option_map};
ghost use Rattle.dpl_rules.specs.Types.{same_kind, same_origin, scalar_of, range_of, domain_of, array_of, tuple_of, cell_of, operand_of};
ghost use Rattle.dpl_rules.specs.Types.{is_scalar, is_int, is_bool, is_any_scalar, is_range, is_domain, is_array, is_cell, is_locale, is_all_locales};
ghost use Rattle.dpl_rules.specs.Types.{is_plain_range, is_domain_of, fits_array, agrees, op_kind};
ghost use Rattle.dpl_scopes.specs.Types.{origin_view, over_view, type_view, operand_view, array_view};

use dpl_tree::{Op, ScalarKind};

/// Which declaration a name stands for: its name, and how many scopes are open where it stands, its own among them.
#[derive(Clone, Copy)]
pub struct Origin<'t> {
    pub name: &'t [u8],
    pub depth: usize,
}

impl<'t> Origin<'t> {
    /// Whether two names stand for one declaration.
    pub fn is_same(self, other: Origin<'t>) -> bool
        ensures { result ≡ same_origin (origin_view self.entry) (origin_view other.entry) }
    {
        self.depth == other.depth && self.name == other.name
    }
}

/// What an array is over: the rank of its domain, from 1 to 3; whether that is strided; and the domain name that it is
/// declared over, or else the array itself.
#[derive(Clone, Copy)]
pub struct Over<'t> {
    pub rank: usize,
    pub strided: bool,
    pub base: Origin<'t>,
}

/// A type. Strided is what the text has with `by`.
#[derive(Clone, Copy)]
pub enum ValueType<'t> {
    Scalar(ScalarKind),
    Range { strided: bool },
    Domain { rank: usize, strided: bool },
    Array(ScalarKind, Over<'t>),
    /// An expression over whole arrays.
    Promoted(ScalarKind, Over<'t>),
    /// A loop's tuple name, by its rank.
    Tuple(usize),
    Locale,
    /// The word `Locales`.
    AllLocales,
    Cell(ScalarKind),
}

/// An operand of an operator: the kind of its value, or of its values at each index of whole arrays, and what these are
/// over.
#[derive(Clone, Copy)]
pub struct Operand<'t> {
    pub kind: ScalarKind,
    pub over: Option<Over<'t>>,
}

/// Whether two kinds are one.
pub fn is_same_kind(a: ScalarKind, b: ScalarKind) -> bool
    ensures { result ≡ same_kind a b }
{
    match a {
        ScalarKind::Int => match b {
            ScalarKind::Int => true,
            ScalarKind::Bool => false,
        },
        ScalarKind::Bool => match b {
            ScalarKind::Int => false,
            ScalarKind::Bool => true,
        },
    }
}

/// The kind of an operator's operands: `&& ||` take bools, the others ints.
pub fn kind_of(op: Op) -> ScalarKind
    ensures { result ≡ op_kind op }
{
    match op {
        Op::AllOf | Op::AnyOf => ScalarKind::Bool,
        Op::Sum | Op::Product | Op::BitAnd | Op::BitOr | Op::BitXor | Op::Least | Op::Greatest =>
            ScalarKind::Int,
    }
}

impl<'t> Over<'t> {
    /// Whether the arrays of an operand, if it has some, have the index set of these.
    pub fn agrees(self, other: Option<Over<'t>>) -> bool
        ensures { result ≡ agrees (over_view self.entry) (option_map over_view other.entry) }
    {
        match other {
            None => true,
            Some(other) => self.base.is_same(other.base),
        }
    }
}

impl<'t> ValueType<'t> {
    /// The kind of an int or a bool.
    pub fn scalar(self) -> Option<ScalarKind>
        ensures { result ≡ scalar_of (type_view self.entry) }
    {
        match self {
            ValueType::Scalar(kind) => Some(kind),
            _ => None,
        }
    }

    /// The kind of a whole array's elements, and what it is over; a promoted expression is no array.
    pub fn array(self) -> Option<(ScalarKind, Over<'t>)>
        ensures { option_map array_view result ≡ array_of (type_view self.entry) }
    {
        match self {
            ValueType::Array(kind, over) => Some((kind, over)),
            _ => None,
        }
    }

    /// The rank of a domain, and whether it is strided.
    pub fn domain(self) -> Option<(usize, bool)>
        ensures { result ≡ domain_of (type_view self.entry) }
    {
        match self {
            ValueType::Domain { rank, strided } => Some((rank, strided)),
            _ => None,
        }
    }

    /// The rank of a tuple name.
    pub fn tuple(self) -> Option<usize>
        ensures { result ≡ tuple_of (type_view self.entry) }
    {
        match self {
            ValueType::Tuple(rank) => Some(rank),
            _ => None,
        }
    }

    /// The kind of what a cell holds.
    pub fn cell(self) -> Option<ScalarKind>
        ensures { result ≡ cell_of (type_view self.entry) }
    {
        match self {
            ValueType::Cell(kind) => Some(kind),
            _ => None,
        }
    }

    /// What an operator sees of the type, if it may be an operand.
    pub fn operand(self) -> Option<Operand<'t>>
        ensures { option_map operand_view result ≡ operand_of (type_view self.entry) }
    {
        match self {
            ValueType::Scalar(kind) => Some(Operand { kind, over: None }),
            ValueType::Array(kind, over) | ValueType::Promoted(kind, over) => Some(Operand {
                kind,
                over: Some(over),
            }),
            _ => None,
        }
    }

    /// Whether it is a range.
    pub fn is_range(self) -> bool
        ensures { result ≡ is_range (type_view self.entry) }
    {
        match self {
            ValueType::Range { .. } => true,
            _ => false,
        }
    }

    /// Whether it is a range that the text doesn't stride.
    pub fn is_plain_range(self) -> bool
        ensures { result ≡ is_plain_range (type_view self.entry) }
    {
        match self {
            ValueType::Range { strided } => !strided,
            _ => false,
        }
    }

    /// Whether it is an int.
    pub fn is_int(self) -> bool
        ensures { result ≡ is_int (type_view self.entry) }
    {
        match self {
            ValueType::Scalar(ScalarKind::Int) => true,
            _ => false,
        }
    }

    /// Whether it is a bool.
    pub fn is_bool(self) -> bool
        ensures { result ≡ is_bool (type_view self.entry) }
    {
        match self {
            ValueType::Scalar(ScalarKind::Bool) => true,
            _ => false,
        }
    }

    /// Whether it is a domain.
    pub fn is_domain(self) -> bool
        ensures { result ≡ is_domain (type_view self.entry) }
    {
        match self {
            ValueType::Domain { .. } => true,
            _ => false,
        }
    }

    /// Whether it is an array.
    pub fn is_array(self) -> bool
        ensures { result ≡ is_array (type_view self.entry) }
    {
        match self {
            ValueType::Array(_, _) => true,
            _ => false,
        }
    }

    /// Whether it is a cell.
    pub fn is_cell(self) -> bool
        ensures { result ≡ is_cell (type_view self.entry) }
    {
        match self {
            ValueType::Cell(_) => true,
            _ => false,
        }
    }

    /// Whether it is a locale.
    pub fn is_locale(self) -> bool
        ensures { result ≡ is_locale (type_view self.entry) }
    {
        match self {
            ValueType::Locale => true,
            _ => false,
        }
    }

    /// Whether it is the word `Locales`.
    pub fn is_all_locales(self) -> bool
        ensures { result ≡ is_all_locales (type_view self.entry) }
    {
        match self {
            ValueType::AllLocales => true,
            _ => false,
        }
    }

    /// Whether it is an int or a bool.
    pub fn is_any_scalar(self) -> bool
        ensures { result ≡ is_any_scalar (type_view self.entry) }
    {
        match self {
            ValueType::Scalar(_) => true,
            _ => false,
        }
    }
}
