// Brackets behind a value: indices of arrays and locales, and slices of ranges and domains.
// C3 stands at a bracket behind what takes none.

ghost use Rattle.std.specs.Prelude.{◌≡◌, ◌<◌, IfOk, length, map};
ghost use Rattle.dpl_language.specs.Tree.{ExprTree, Items};
ghost use Rattle.dpl_lowered.specs.LoweredExpressions.{Times, EachTurn};
ghost use Rattle.dpl_memory.specs.Memory.{Variable};
ghost use Rattle.dpl_nodes.specs.Typed.{in_square};
ghost use Rattle.dpl_rules.specs.Operators.{locale_breaches as locale_breaches_of, square_verdict, round_verdict};
ghost use Rattle.dpl_rules.specs.Types.{AllLocales};
ghost use Rattle.dpl_rules.specs.Verdicts.{with_type, all_known as all_known_of};
ghost use Rattle.dpl_types.specs.Owes.{Owes};
ghost use Rattle.dpl_typed.specs.Typed.{types_of, part_view};
ghost use Rattle.dpl_typed.specs.Stands.{StandsFor, AreItems};
ghost use Rattle.dpl_typed.specs.Told.{Judges};
ghost use Rattle.dpl_brackets.specs.Parts.{Passes};

use crate::index::{Whole, element};
use crate::slice::{domain_slice, range_slice};
use dpl_syntax::{Breach, Place};
use dpl_tree::Arena;
use dpl_typed::part::{all_known, each_wanted};
use dpl_typed::verdict::mistyped;
use dpl_typed::{Made, Part, Typed};
use dpl_types::{Want, wrong_rank};

// The index of a locale: one int.
fn locale_index(last: Place, parts: &[Part<'_>], first: &mut Option<Breach>) -> bool
    ensures { Owes (locale_breaches_of last (map part_view parts.now)) result first.old first.new }
{
    if parts.len() == 1 {
        each_wanted(Want::Int, parts, first)
    } else {
        wrong_rank(last, first)
    }
}

// One of the locales.
fn locale<'t>(last: Place, parts: &[Part<'t>], first: &mut Option<Breach>) -> Option<Typed<'t>>
    ensures { Judges (square_verdict last last (map part_view parts.now) AllLocales) result first.old first.new }
{
    let holds = locale_index(last, parts, first);
    if all_known(parts) && holds {
        Some(Typed::Locale)
    } else {
        None
    }
}

/// Square brackets: they index an array or the locales, or slice a range or a domain.
///
/// # Errors
/// Out of memory; of what was told then nothing is said.
pub fn square<'t>(
    arena: Arena<'t>,
    last: Place,
    from: Place,
    parts: &[Part<'t>],
    of: Option<Typed<'t>>,
    first: &mut Option<Breach>,
) -> Made<'t>
    requires { 0 < length parts.now }
    ensures told { IfOk result (λ r. Judges (with_type (types_of of.entry) (square_verdict last from (map part_view parts.now))) r first.old first.new) }
    ensures node { IfOk result (λ r. (f : Times → ExprTree Variable) (is : Items Variable) → StandsFor of.entry f → AreItems parts.now is
        → StandsFor r (λ m. in_square (f EachTurn) is)) }
{
    let Some(of) = of else {
        return Ok(None);
    };
    match of {
        Typed::Range { strided, node } => range_slice(arena, last, strided, node, parts, first),
        Typed::Domain {
            rank,
            strided,
            node,
        } => domain_slice(arena, last, rank, strided, node, parts, first),
        Typed::Array {
            kind,
            over,
            slot,
            at,
        } => {
            let array = Whole {
                kind,
                rank: over.rank,
                slot,
                at,
            };
            element(arena, last, array, parts, first)
        }
        Typed::AllLocales => Ok(locale(last, parts, first)),
        Typed::Int(_)
        | Typed::Truth(_)
        | Typed::Ints(_, _)
        | Typed::Truths(_, _)
        | Typed::Tuple { .. }
        | Typed::Locale
        | Typed::Cell(_) => Ok(mistyped(from, first)),
    }
}

/// Round brackets: they index arrays only.
///
/// # Errors
/// Out of memory; of what was told then nothing is said.
pub fn round<'t>(
    arena: Arena<'t>,
    last: Place,
    from: Place,
    parts: &[Part<'t>],
    of: Option<Typed<'t>>,
    first: &mut Option<Breach>,
) -> Made<'t>
    ensures told { IfOk result (λ r. Judges (with_type (types_of of.entry) (round_verdict last from (map part_view parts.now))) r first.old first.new) }
    ensures node { IfOk result (λ r. (f : Times → ExprTree Variable) (is : Items Variable) → StandsFor of.entry f → AreItems parts.now is
        → StandsFor r (λ m. in_square (f EachTurn) is)) }
{
    let Some(of) = of else {
        return Ok(None);
    };
    match of {
        Typed::Array {
            kind,
            over,
            slot,
            at,
        } => {
            let array = Whole {
                kind,
                rank: over.rank,
                slot,
                at,
            };
            element(arena, last, array, parts, first)
        }
        Typed::Int(_)
        | Typed::Truth(_)
        | Typed::Range { .. }
        | Typed::Domain { .. }
        | Typed::Ints(_, _)
        | Typed::Truths(_, _)
        | Typed::Tuple { .. }
        | Typed::Locale
        | Typed::AllLocales
        | Typed::Cell(_) => Ok(mistyped(from, first)),
    }
}
