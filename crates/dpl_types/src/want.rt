// What a place in a form takes: a test on types.
// specs/Wants.antt gives the test of the language's check that each stands for.

ghost use Rattle.std.specs.Prelude.{◌≡◌, option_map};
ghost use Rattle.dpl_rules.specs.Types.{is_scalar, is_domain_of, fits_array};
ghost use Rattle.dpl_scopes.specs.Types.{over_view, type_view};
ghost use Rattle.dpl_types.specs.Wants.{takes};

use dpl_scopes::value_type::{Over, ValueType, is_same_kind};
use dpl_tree::ScalarKind;

/// What a place in a form takes.
#[derive(Clone, Copy)]
pub enum Want<'t> {
    /// No type at all.
    Nothing,
    Int,
    Bool,
    /// An int, or a bool.
    Scalar(ScalarKind),
    AnyScalar,
    Range,
    /// A range that the text doesn't stride.
    PlainRange,
    Domain,
    /// A domain of a rank, which is strided only where it may be.
    RankedDomain { rank: usize, may_stride: bool },
    Locale,
    Cell,
    /// What each element of an array can be given: its kind, or arrays of its kind over its index set.
    Given(ScalarKind, Over<'t>),
    /// What a name without a declared type keeps: an int, a bool, a range, a domain or a locale.
    Kept,
    /// What is printed by a bare name: an int, a bool or an array.
    Printed,
}

// An int or a bool, of this kind.
fn is_scalar_of(kind: ScalarKind, t: ValueType<'_>) -> bool
    ensures { result ≡ is_scalar kind (type_view t.entry) }
{
    match t.scalar() {
        None => false,
        Some(found) => is_same_kind(kind, found),
    }
}

// A domain of this rank; a strided one only where it may be.
fn is_ranked(rank: usize, may_stride: bool, t: ValueType<'_>) -> bool
    ensures { result ≡ is_domain_of rank may_stride (type_view t.entry) }
{
    match t.domain() {
        None => false,
        Some((found, strided)) => found == rank && (may_stride || !strided),
    }
}

// What each element of an array of this kind can be given.
fn is_given<'t>(kind: ScalarKind, over: Over<'t>, t: ValueType<'t>) -> bool
    ensures { result ≡ fits_array kind (over_view over.entry) (type_view t.entry) }
{
    match t.operand() {
        None => false,
        Some(operand) => is_same_kind(kind, operand.kind) && over.agrees(operand.over),
    }
}

impl<'t> Want<'t> {
    /// Whether a type is taken.
    pub fn takes(self, t: ValueType<'t>) -> bool
        ensures { result ≡ takes self.entry (type_view t.entry) }
    {
        match self {
            Want::Nothing => false,
            Want::Int => t.is_int(),
            Want::Bool => t.is_bool(),
            Want::Scalar(kind) => is_scalar_of(kind, t),
            Want::AnyScalar => t.is_any_scalar(),
            Want::Range => t.is_range(),
            Want::PlainRange => t.is_plain_range(),
            Want::Domain => t.is_domain(),
            Want::RankedDomain { rank, may_stride } => is_ranked(rank, may_stride, t),
            Want::Locale => t.is_locale(),
            Want::Cell => t.is_cell(),
            Want::Given(kind, over) => is_given(kind, over, t),
            Want::Kept => t.is_any_scalar() || t.is_range() || t.is_domain() || t.is_locale(),
            Want::Printed => t.is_any_scalar() || t.is_array(),
        }
    }
}
