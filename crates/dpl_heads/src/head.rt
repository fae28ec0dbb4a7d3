// What loops run over, and the type of their variables.
// A coforall runs over a range or `Locales`, a forall over a range or a domain, a `for` over all three.

ghost use Rattle.std.specs.Prelude.{◌≡◌, None, IfOk, OnOk};
ghost use Rattle.dpl_lowered.specs.LoweredExpressions.{Once};
ghost use Rattle.dpl_rules.specs.Breaches.{least_from};
ghost use Rattle.dpl_rules.specs.Places.{first_of_variables as first_of_tree};
ghost use Rattle.dpl_rules.specs.Deeds.{item_deeds};
ghost use Rattle.dpl_rules.specs.Loops.{over_domains as over_domains_of, over_locales as over_locales_of, runs_over as runs_over_of, turn_rank as turn_rank_of};
ghost use Rattle.dpl_rules.specs.Loops.{one_type as one_type_of, fits_variables, typed_variable, header_of, over_type, over_breaches};
ghost use Rattle.dpl_scopes.specs.Types.{type_view, of_type};
ghost use Rattle.dpl_tree.specs.View.{item_view};
ghost use Rattle.dpl_tree.specs.Statements.{variables_view};
ghost use Rattle.dpl_deeds.specs.View.{Adds};
ghost use Rattle.dpl_typed.specs.Lowered.{item_leaves};
ghost use Rattle.dpl_typed.specs.Stands.{StandsForItem};
ghost use Rattle.dpl_typed.specs.Told.{Tells};
ghost use Rattle.dpl_typed.specs.Where.{WhereSimpleItem};
ghost use Rattle.dpl_bound.specs.Bounds.{loop_type};
ghost use Rattle.dpl_heads.specs.Plain.{IsPlainHead};
ghost use Rattle.dpl_heads.specs.Made.{IsIterated, IsRun};
ghost use Rattle.dpl_heads.specs.Told.{word_view, head_told, TellsHead};

use dpl_deeds::Deed;
use dpl_elaborator::expression::{base, item};
use dpl_nodes::{DomainExpr, RangeExpr};
use dpl_scopes::{Scopes, ValueType};
use dpl_syntax::{Breach, Code, Place};
use dpl_tree::{Arena, Item, ScalarKind, Variables};
use dpl_typed::found::type_found;
use dpl_typed::{Made, Typed};
use dpl_types::place::first_of_item;
use dpl_types::{note, owed};
use std::alloc::AllocError;

/// Which loop over indices.
#[derive(Clone, Copy)]
pub enum LoopWord {
    For,
    Forall,
    Coforall,
}

/// What a loop runs over.
#[derive(Clone, Copy)]
pub enum Iterable<'t> {
    Range(&'t RangeExpr<'t>),
    Domain(&'t DomainExpr<'t>),
    /// The locales, or what no loop runs over. No program with such a loop is run.
    Nothing,
}

/// What is found of a loop's head: the type of its variables, if the rules give them one, and what it runs over.
#[derive(Clone, Copy)]
pub struct LoopHead<'t> {
    pub variable_type: Option<ValueType<'t>>,
    pub over: Iterable<'t>,
}

// Whether a loop may run over a domain.
fn over_domains(word: LoopWord) -> bool
    ensures { result ≡ over_domains_of (word_view word) }
{
    match word {
        LoopWord::For | LoopWord::Forall => true,
        LoopWord::Coforall => false,
    }
}

// Whether a loop may run over the locales.
fn over_locales(word: LoopWord) -> bool
    ensures { result ≡ over_locales_of (word_view word) }
{
    match word {
        LoopWord::For | LoopWord::Coforall => true,
        LoopWord::Forall => false,
    }
}

// Whether a loop runs over what has a type.
fn runs_over(word: LoopWord, t: ValueType<'_>) -> bool
    ensures { result ≡ runs_over_of (word_view word) (type_view t.entry) }
{
    t.is_range()
        || (over_domains(word) && t.is_domain())
        || (over_locales(word) && t.is_all_locales())
}

// How many ints a turn gives: as many as a domain's rank, and one otherwise.
fn turn_rank(t: ValueType<'_>) -> usize
    ensures { result ≡ turn_rank_of (type_view t.entry) }
{
    match t {
        ValueType::Domain { rank, .. } => rank,
        ValueType::Scalar(_)
        | ValueType::Range { .. }
        | ValueType::Array(_, _)
        | ValueType::Promoted(_, _)
        | ValueType::Tuple(_)
        | ValueType::Locale
        | ValueType::AllLocales
        | ValueType::Cell(_) => 1,
    }
}

// The type of a single variable: a locale, an int or a tuple name.
fn one_type<'t>(t: ValueType<'t>) -> ValueType<'t>
    ensures { type_view result ≡ one_type_of (type_view t.entry) }
{
    if t.is_all_locales() {
        ValueType::Locale
    } else if turn_rank(t) == 1 {
        ValueType::Scalar(ScalarKind::Int)
    } else {
        ValueType::Tuple(turn_rank(t))
    }
}

// Whether there are as many variables as a turn gives ints, or one.
#[tactic(auto, using(crate::proofs::Heads::length_names))]
fn fits(variables: &Variables<'_>, t: ValueType<'_>) -> bool
    ensures { result ≡ fits_variables (variables_view variables.now) (type_view t.entry) }
{
    match variables {
        Variables::One(_) => true,
        Variables::Many { others, .. } => others.len() + 1 == turn_rank(t),
    }
}

// The first token of a loop's variables.
fn first_of_variables(variables: &Variables<'_>) -> Place
    ensures { result ≡ first_of_tree (variables_view variables.now) }
{
    match variables {
        Variables::One(name) => name.at,
        Variables::Many { from, .. } => *from,
    }
}

// What a loop runs over: the word `Locales` by itself, or an item.
#[tactic(auto, using(crate::proofs::Bare::base_alone))]
fn over<'t>(
    arena: Arena<'t>,
    scopes: &Scopes<'t>,
    written: &Item<'_>,
    deeds: &mut Vec<Deed<'t>>,
    first: &mut Option<Breach>,
) -> Made<'t>
    ensures told { IfOk result (λ r. Tells (over_type scopes.now (item_view written.now))
        (over_breaches scopes.now (item_view written.now)) r first.old first.new) }
    ensures node { IfOk result (λ r. WhereSimpleItem scopes.now (item_view written.now)
        (StandsForItem r (λ m. item_leaves scopes.now m (item_view written.now)))) }
    ensures deeds { OnOk result (Adds (item_deeds scopes.now (item_view written.now)) deeds.old.items deeds.new.items) }
{
    match written {
        Item::One(e) => base(arena, scopes, e, &[], deeds, first),
        Item::Range(_) => item(arena, scopes, written, deeds, first),
    }
}

// The loop runs over that, with as many variables as its rank or one.
fn header(
    word: LoopWord,
    variables: &Variables<'_>,
    written: &Item<'_>,
    found: Option<ValueType<'_>>,
    first: &mut Option<Breach>,
)
    ensures { first.new ≡ least_from first.old (header_of (word_view word) (variables_view variables.now) (item_view written.now) (of_type found.entry)) }
{
    if let Some(t) = found {
        if runs_over(word, t) {
            owed(
                fits(variables, t),
                first_of_variables(variables),
                Code::WrongRank,
                first,
            );
        } else {
            note(first, first_of_item(written), Code::WrongType);
        }
    }
}

// The type of the variables, by what the loop runs over.
fn variable_type<'t>(
    word: LoopWord,
    variables: &Variables<'_>,
    found: Option<ValueType<'t>>,
) -> Option<ValueType<'t>>
    ensures { of_type result ≡ typed_variable (word_view word) (variables_view variables.now) (of_type found.entry) }
{
    let Some(t) = found else {
        return None;
    };
    if !runs_over(word, t) {
        return None;
    }
    match variables {
        Variables::One(_) => Some(one_type(t)),
        Variables::Many { .. } => {
            if fits(variables, t) {
                Some(ValueType::Scalar(ScalarKind::Int))
            } else {
                None
            }
        }
    }
}

// The node of a range or a domain.
fn iterated<'t>(found: Option<Typed<'t>>) -> Iterable<'t>
    ensures { IsIterated found.entry result }
{
    match found {
        Some(Typed::Range { node, .. }) => Iterable::Range(node),
        Some(Typed::Domain { node, .. }) => Iterable::Domain(node),
        _ => Iterable::Nothing,
    }
}

/// What a loop runs over, and whether its variables fit that. Where a rule is broken, and where the loop doesn't run,
/// of what it runs over nothing is said.
///
/// # Errors
/// Out of memory; of what was told and done then nothing is said.
#[tactic(auto, using(dpl_types::proofs::Breaches::least_from_append))]
pub fn head<'t>(
    arena: Arena<'t>,
    scopes: &Scopes<'t>,
    word: LoopWord,
    variables: &Variables<'_>,
    written: &Item<'_>,
    deeds: &mut Vec<Deed<'t>>,
    first: &mut Option<Breach>,
) -> Result<LoopHead<'t>, AllocError>
    ensures told { IfOk result (λ h. TellsHead (loop_type scopes.now (word_view word) (variables_view variables.now) (item_view written.now))
        (head_told scopes.now (word_view word) (variables_view variables.now) (item_view written.now)) h first.old first.new) }
    ensures node { IfOk result (λ h. first.new ≡ None → IsPlainHead scopes.now (variables_view variables.now) (item_view written.now)
        → IsRun (variables_view variables.now) (item_leaves scopes.now Once (item_view written.now)) (of_type h.variable_type) h.over) }
    ensures deeds { OnOk result (Adds (item_deeds scopes.now (item_view written.now)) deeds.old.items deeds.new.items) }
{
    let Ok(found) = over(arena, scopes, written, deeds, first) else {
        return Err(AllocError);
    };
    let t = type_found(found);
    header(word, variables, written, t, first);
    let variable_type = variable_type(word, variables, t);
    let over = iterated(found);
    Ok(LoopHead {
        variable_type,
        over,
    })
}
