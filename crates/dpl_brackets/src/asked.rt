// Methods with arguments: a dimension of a domain, what a range or a domain contains, and a domain that is made longer.
// C3 stands at the method's name, and C5 there or at the number of a dimension.

ghost use Rattle.std.specs.Prelude.{◌≡◌, ◌∷◌, ◌++◌, [], true, false, IfOk, Some, nat_lt, not, map};
ghost use Rattle.dpl_syntax.specs.declared.refusal.Code.TheVariants.{WrongType as WrongTypeCode};
ghost use Rattle.dpl_language.specs.Phrases.{natural};
ghost use Rattle.dpl_language.specs.Tree.{ExprTree, Exprs, Dim, Contains, Expand};
ghost use Rattle.dpl_lowered.specs.LoweredExpressions.{Times, Once};
ghost use Rattle.dpl_lowered.specs.Shapes.{nowhere};
ghost use Rattle.dpl_memory.specs.Memory.{Variable};
ghost use Rattle.dpl_nodes.specs.Spots.{IsNear};
ghost use Rattle.dpl_nodes.specs.Typed.{dotted, int_view, range_view, domain_view};
ghost use Rattle.dpl_rules.specs.Operators.{index_rank as index_rank_of, dim_verdict, contains_verdict, expand_verdict};
ghost use Rattle.dpl_rules.specs.Types.{has, is_int, domain_of};
ghost use Rattle.dpl_rules.specs.Verdicts.{with_type, owed as owed_of, wanted as wanted_of, all_known as all_known_of};
ghost use Rattle.dpl_types.specs.Owes.{Owes};
ghost use Rattle.dpl_typed.specs.Typed.{types_of, part_view, is_rank};
ghost use Rattle.dpl_typed.specs.Stands.{StandsFor, IsArgument, AreArguments};
ghost use Rattle.dpl_typed.specs.Told.{Judges};
ghost use Rattle.dpl_brackets.specs.Parts.{Passes};

use crate::coordinates::{index_of, int_of};
use crate::index::is_index;
use crate::posts::posted;
use dpl_nodes::{BoolExpr, DomainExpr, DomainPost, IntExpr, RangeExpr};
use dpl_syntax::{Breach, Code, Place};
use dpl_tree::Arena;
use dpl_typed::node::{range, spot, truth};
use dpl_typed::part::wanted;
use dpl_typed::verdict::{misranked, mistyped};
use dpl_typed::{Made, Part, Typed};
use dpl_types::{Want, owed};
use std::alloc::AllocError;

// Whether a dimension, counted from 0, is one of so many.
fn is_dimension(number: i64, rank: usize) -> bool
    ensures { result ≡ nat_lt (natural number) rank }
{
    number < 0 && rank > 0 || number >= 0 && (number as u64) < rank as u64
}

// A dimension, counted from 0; no domain has one past 2. No token has a number below 0.
fn dimension(number: i64) -> u32
    ensures { nat_lt (natural number) 3 ≡ true → result ≡ natural number }
{
    if number <= 0 {
        0
    } else if number == 1 {
        1
    } else {
        2
    }
}

/// `dim`, which counts a domain's dimensions from 0.
///
/// # Errors
/// Out of memory; of what was told then nothing is said.
pub fn dim<'t>(
    arena: Arena<'t>,
    at: Place,
    number_at: Place,
    number: i64,
    of: Option<Typed<'t>>,
    first: &mut Option<Breach>,
) -> Made<'t>
    ensures told { IfOk result (λ r. Judges (with_type (types_of of.entry) (λ t. dim_verdict at number_at (natural number) (domain_of t))) r
        first.old first.new) }
    ensures node { IfOk result (λ r. (f : Times → ExprTree Variable) → StandsFor of.entry f
        → StandsFor r (λ m. dotted (f Once) (Dim nowhere nowhere nowhere (natural number) nowhere))) }
{
    match of {
        None => Ok(None),
        Some(
            Typed::Domain {
                rank,
                strided,
                node,
            },
        ) => {
            if is_dimension(number, rank) {
                let number = dimension(number);
                range(arena, strided, RangeExpr::Dimension(node, number))
            } else {
                Ok(misranked(number_at, first))
            }
        }
        Some(_) => Ok(mistyped(at, first)),
    }
}

// The int that a part is. A tuple of one number, which no loop has, stands for 0, and nothing is promised of it.
fn coordinate<'t>(arena: Arena<'t>, part: Part<'t>) -> Result<&'t IntExpr<'t>, AllocError>
    ensures { IfOk result (λ i. (e : ExprTree Variable) → has is_int (types_of part.entry.found) ≡ true
        → IsArgument part.entry.found e → int_view i.now ≡ e) }
{
    match part.found {
        Some(Typed::Int(e)) => Ok(e),
        _ => arena.node(IntExpr::Number(0)),
    }
}

// A range has an int.
fn in_range<'t>(
    arena: Arena<'t>,
    at: Place,
    parts: &[Part<'t>],
    base: &'t RangeExpr<'t>,
    first: &mut Option<Breach>,
) -> Made<'t>
    ensures told { IfOk result (λ r. Judges (contains_verdict at (map part_view parts.now) (Some 1)) r first.old first.new) }
    ensures node { IfOk result (λ r. (es : Exprs Variable) → AreArguments parts.now es
        → StandsFor r (λ m. dotted (range_view base.now) (Contains nowhere nowhere es nowhere))) }
{
    if !is_index(at, 1, parts, first) {
        return Ok(None);
    }
    let [part] = parts else {
        unreachable!();
    };
    let Ok(i) = coordinate(arena, *part) else {
        return Err(AllocError);
    };
    truth(arena, BoolExpr::Contains(base, i))
}

// A domain has an index.
fn in_domain<'t>(
    arena: Arena<'t>,
    at: Place,
    parts: &[Part<'t>],
    rank: usize,
    base: &'t DomainExpr<'t>,
    first: &mut Option<Breach>,
) -> Made<'t>
    ensures told { IfOk result (λ r. Judges (contains_verdict at (map part_view parts.now) (Some rank)) r first.old first.new) }
    ensures node { IfOk result (λ r. (es : Exprs Variable) → is_rank rank ≡ true → AreArguments parts.now es
        → StandsFor r (λ m. dotted (domain_view base.now) (Contains nowhere nowhere es nowhere))) }
{
    if !is_index(at, rank, parts, first) {
        return Ok(None);
    }
    let Ok(index) = index_of(arena, parts) else {
        return Err(AllocError);
    };
    truth(arena, BoolExpr::HasIndex(base, index))
}

/// `contains`, which is a range's or a domain's, and takes an index.
///
/// # Errors
/// Out of memory; of what was told then nothing is said.
pub fn contains<'t>(
    arena: Arena<'t>,
    at: Place,
    parts: &[Part<'t>],
    of: Option<Typed<'t>>,
    first: &mut Option<Breach>,
) -> Made<'t>
    ensures told { IfOk result (λ r. Judges (with_type (types_of of.entry) (λ t. contains_verdict at (map part_view parts.now) (index_rank_of t))) r
        first.old first.new) }
    ensures node { IfOk result (λ r. (f : Times → ExprTree Variable) (es : Exprs Variable) → StandsFor of.entry f → AreArguments parts.now es
        → StandsFor r (λ m. dotted (f Once) (Contains nowhere nowhere es nowhere))) }
{
    match of {
        None => Ok(None),
        Some(Typed::Range { node, .. }) => in_range(arena, at, parts, node, first),
        Some(Typed::Domain { rank, node, .. }) => in_domain(arena, at, parts, rank, node, first),
        Some(_) => Ok(mistyped(at, first)),
    }
}

// What `expand` owes: the domain is unstrided, and the part an int.
#[tactic(auto, using(dpl_types::proofs::Breaches::least_from_append, dpl_types::proofs::Breaches::are_none_append))]
fn expands(at: Place, strided: bool, by: Part<'_>, first: &mut Option<Breach>) -> bool
    ensures { Owes (owed_of (not strided) at WrongTypeCode ++ wanted_of is_int (part_view by.entry)) result first.old first.new }
{
    let is_plain = owed(!strided, at, Code::WrongType, first);
    let is_int = wanted(Want::Int, by, first);
    is_plain && is_int
}

// Whether a domain is expanded by a part; else what is broken is told.
fn is_expanded(at: Place, strided: bool, by: Part<'_>, first: &mut Option<Breach>) -> bool
    ensures { Passes (all_known_of (part_view by.entry ∷ [])) (owed_of (not strided) at WrongTypeCode ++ wanted_of is_int (part_view by.entry))
        result first.old first.new }
{
    let holds = expands(at, strided, by, first);
    by.found.is_some() && holds
}

// A domain with each dimension made longer at both ends.
fn expanded<'t>(
    arena: Arena<'t>,
    at: Place,
    rank: usize,
    strided: bool,
    base: &'t DomainExpr<'t>,
    by: Part<'t>,
    first: &mut Option<Breach>,
) -> Made<'t>
    ensures told { IfOk result (λ r. Judges (expand_verdict at (part_view by.entry) (Some (rank, strided))) r first.old first.new) }
    ensures node { IfOk result (λ r. (e : ExprTree Variable) → is_rank rank ≡ true → IsArgument by.entry.found e → IsNear at
        → StandsFor r (λ m. dotted (domain_view base.now) (Expand at nowhere e nowhere))) }
{
    if !is_expanded(at, strided, by, first) {
        return Ok(None);
    }
    let Ok(spot) = spot(arena, at) else {
        return Err(AllocError);
    };
    let post = DomainPost::Expanded(spot, int_of(by));
    posted(arena, rank, false, base, post)
}

/// `expand`, which is an unstrided domain's, and takes an int; a domain that is too large is told at its name.
///
/// # Errors
/// Out of memory; of what was told then nothing is said.
pub fn expand<'t>(
    arena: Arena<'t>,
    at: Place,
    by: Part<'t>,
    of: Option<Typed<'t>>,
    first: &mut Option<Breach>,
) -> Made<'t>
    ensures told { IfOk result (λ r. Judges (with_type (types_of of.entry) (λ t. expand_verdict at (part_view by.entry) (domain_of t))) r
        first.old first.new) }
    ensures node { IfOk result (λ r. (f : Times → ExprTree Variable) (e : ExprTree Variable) → StandsFor of.entry f
        → IsArgument by.entry.found e → IsNear at → StandsFor r (λ m. dotted (f Once) (Expand at nowhere e nowhere))) }
{
    match of {
        None => Ok(None),
        Some(
            Typed::Domain {
                rank,
                strided,
                node,
            },
        ) => expanded(arena, at, rank, strided, node, by, first),
        Some(_) => Ok(mistyped(at, first)),
    }
}
