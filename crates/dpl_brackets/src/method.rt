// Methods without arguments: whose they are, and what they give.
// C3 stands at the method's name. An empty range has no ends, which is told there too.

ghost use Rattle.std.specs.Prelude.{◌≡◌, ℕ, Bool, true, IfOk};
ghost use Rattle.dpl_language.specs.Tree.{ExprTree, Plainly};
ghost use Rattle.dpl_lowered.specs.LoweredExpressions.{Times, Once, is_end};
ghost use Rattle.dpl_lowered.specs.Shapes.{kept};
ghost use Rattle.dpl_memory.specs.Memory.{Variable, ArrayKind, variable};
ghost use Rattle.dpl_nodes.specs.Spots.{IsNear};
ghost use Rattle.dpl_nodes.specs.Typed.{dotted, leaf_named, range_view, domain_view};
ghost use Rattle.dpl_rules.specs.Operators.{word_verdict};
ghost use Rattle.dpl_rules.specs.Types.{Range as RangeOf, Domain as DomainOf, Array as ArrayOf, Locale as LocaleOf};
ghost use Rattle.dpl_rules.specs.Verdicts.{with_type};
ghost use Rattle.dpl_scopes.specs.Types.{over_view};
ghost use Rattle.dpl_typed.specs.Typed.{types_of, is_rank};
ghost use Rattle.dpl_typed.specs.Stands.{StandsFor};
ghost use Rattle.dpl_typed.specs.Told.{Judges};

use dpl_nodes::{DomainExpr, DomainMethod, IntExpr, RangeExpr, RangeMethod};
use dpl_scopes::Over;
use dpl_syntax::{Breach, Place};
use dpl_tree::{Arena, ScalarKind, Word};
use dpl_typed::node::{domain, int, spot};
use dpl_typed::verdict::mistyped;
use dpl_typed::{Made, Typed};
use std::alloc::AllocError;

// Of a range: how many members it has, or an end.
fn of_range<'t>(
    arena: Arena<'t>,
    at: Place,
    word: Word,
    base: &'t RangeExpr<'t>,
    first: &mut Option<Breach>,
) -> Made<'t>
    ensures told { IfOk result (λ r. (strided : Bool) → Judges (word_verdict at word (RangeOf strided)) r first.old first.new) }
    ensures node { IfOk result (λ r. IsNear at → StandsFor r (λ m. dotted (range_view base.now) (Plainly (kept (is_end word) at) word))) }
{
    let Some(method) = RangeMethod::named(word) else {
        return Ok(mistyped(at, first));
    };
    let Ok(end) = spot(arena, at) else {
        return Err(AllocError);
    };
    int(arena, IntExpr::OfRange(method, base, end))
}

// Of a domain: how many indices it has. `low` and `lowBound` of one stand only as where a map starts, and are C3 here.
fn of_domain<'t>(
    arena: Arena<'t>,
    at: Place,
    word: Word,
    base: &'t DomainExpr<'t>,
    first: &mut Option<Breach>,
) -> Made<'t>
    ensures told { IfOk result (λ r. (rank : ℕ) (strided : Bool) → Judges (word_verdict at word (DomainOf rank strided)) r first.old first.new) }
    ensures node { IfOk result (λ r. StandsFor r (λ m. dotted (domain_view base.now) (Plainly (kept (is_end word) at) word))) }
{
    let Some(method) = DomainMethod::named(word) else {
        return Ok(mistyped(at, first));
    };
    int(arena, IntExpr::OfDomain(method, base))
}

// Of a whole array: its domain.
fn of_array<'t>(
    arena: Arena<'t>,
    at: Place,
    word: Word,
    kind: ScalarKind,
    over: Over<'t>,
    slot: usize,
    first: &mut Option<Breach>,
) -> Made<'t>
    ensures told { IfOk result (λ r. Judges (word_verdict at word (ArrayOf kind (over_view over.entry))) r first.old first.new) }
    ensures node { IfOk result (λ r. is_rank over.entry.rank ≡ true
        → StandsFor r (λ m. dotted (leaf_named (variable (ArrayKind kind) slot)) (Plainly (kept (is_end word) at) word))) }
{
    match word {
        Word::DomainOf => domain(
            arena,
            over.rank,
            over.strided,
            DomainExpr::OfArray(kind, slot),
        ),
        _ => Ok(mistyped(at, first)),
    }
}

// Of a locale: its number, for which 0 stands. No program that asks for it is run.
fn of_locale<'t>(arena: Arena<'t>, at: Place, word: Word, first: &mut Option<Breach>) -> Made<'t>
    ensures { IfOk result (λ r. Judges (word_verdict at word LocaleOf) r first.old first.new) }
{
    match word {
        Word::Id => int(arena, IntExpr::Number(0)),
        _ => Ok(mistyped(at, first)),
    }
}

/// A method without arguments: `size` is a range's or a domain's, `first last low high` are a range's, `domain` is an
/// array's and `id` a locale's.
///
/// # Errors
/// Out of memory; of what was told then nothing is said.
pub fn word<'t>(
    arena: Arena<'t>,
    at: Place,
    word: Word,
    of: Option<Typed<'t>>,
    first: &mut Option<Breach>,
) -> Made<'t>
    ensures told { IfOk result (λ r. Judges (with_type (types_of of.entry) (word_verdict at word)) r first.old first.new) }
    ensures node { IfOk result (λ r. (f : Times → ExprTree Variable) → StandsFor of.entry f → IsNear at
        → StandsFor r (λ m. dotted (f Once) (Plainly (kept (is_end word) at) word))) }
{
    let Some(of) = of else {
        return Ok(None);
    };
    match of {
        Typed::Range { node, .. } => of_range(arena, at, word, node, first),
        Typed::Domain { node, .. } => of_domain(arena, at, word, node, first),
        Typed::Array {
            kind,
            over,
            slot,
            ..
        } => of_array(arena, at, word, kind, over, slot, first),
        Typed::Locale => of_locale(arena, at, word, first),
        Typed::Int(_)
        | Typed::Truth(_)
        | Typed::Ints(_, _)
        | Typed::Truths(_, _)
        | Typed::Tuple { .. }
        | Typed::AllLocales
        | Typed::Cell(_) => Ok(mistyped(at, first)),
    }
}
