// Names of one slot: an int or a truth value, also by `config`; a range; and a domain, with what is said of its map.
// What no such name begins with is no step: a rule refuses it, and `Step::Nothing` stands for it.

ghost use Rattle.std.specs.Prelude.{◌≡◌, ℕ, nat_le, ◌&&◌, true, IfOk, Some, None};
ghost use Rattle.dpl_language.specs.Tree.{ItemTree};
ghost use Rattle.dpl_lowered.specs.LoweredStatements.{unplaced_word};
ghost use Rattle.dpl_memory.specs.Memory.{Variable, int_leaf, truth_leaf};
ghost use Rattle.dpl_nodes.specs.Steps.{step_view, declared_as, int_changed, truth_changed};
ghost use Rattle.dpl_typed.specs.declared.typed.Typed.{Typed as TypedNode};
ghost use Rattle.dpl_typed.specs.Typed.{type_of_typed, has_node};
ghost use Rattle.dpl_declarations.specs.Made.{Begins, begun_as, empty_as, IsOrDefault};

use dpl_nodes::step::Rank;
use dpl_nodes::{Beginning, IntDeed, Placing, Step, TruthDeed, TruthTarget};
use dpl_syntax::Place;
use dpl_tree::{Arena, ScalarKind};
use dpl_typed::leaves::{number, truth_word};
use dpl_typed::{Made, Typed};

// An int is declared, or asks the command line.
fn int_deed<'t>(config: Option<Place>) -> IntDeed<'t>
    ensures { (slot : ℕ) (item : ItemTree Variable) → int_changed result slot item ≡ declared_as (unplaced_word config) (int_leaf slot) item }
{
    match config {
        None => IntDeed::Declare,
        Some(_) => IntDeed::Config,
    }
}

// A truth value in the same way.
fn truth_deed(config: Option<Place>) -> TruthDeed
    ensures { (slot : ℕ) (item : ItemTree Variable) → truth_changed result slot item ≡ declared_as (unplaced_word config) (truth_leaf slot) item }
{
    match config {
        None => TruthDeed::Declare,
        Some(_) => TruthDeed::Config,
    }
}

/// A name that begins with a value.
pub(crate) fn begun<'t>(
    config: Option<Place>,
    slot: usize,
    value: Option<Typed<'t>>,
    placing: Placing<'t>,
) -> Step<'t>
    ensures { (t : TypedNode) → value.entry ≡ Some t → has_node (type_of_typed t) ≡ true → Begins config placing.entry (type_of_typed t)
        → step_view result ≡ begun_as config slot t placing.entry }
{
    let Some(value) = value else {
        return Step::Nothing;
    };
    match value {
        Typed::Int(e) => Step::Int(int_deed(config), slot, e),
        Typed::Truth(e) => Step::Truth(TruthTarget::Slot(truth_deed(config), slot), e),
        Typed::Range { node, .. } => Step::DeclareRange(slot, node),
        Typed::Domain { node, .. } => { Step::DeclareDomain(slot, Beginning::Value(node), placing) }
        _ => Step::Nothing,
    }
}

// A domain without an index, of 1 to 3 dimensions.
fn empty<'t>(slot: usize, rank: usize, placing: Placing<'t>) -> Step<'t>
    ensures { (nat_le 1 rank && nat_le rank 3) ≡ true → step_view result ≡ empty_as slot rank placing.entry }
{
    match rank {
        1 => Step::DeclareDomain(slot, Beginning::Empty(Rank::Line), placing),
        2 => Step::DeclareDomain(slot, Beginning::Empty(Rank::Plane), placing),
        3 => Step::DeclareDomain(slot, Beginning::Empty(Rank::Space), placing),
        _ => Step::Nothing,
    }
}

/// A domain of a rank: it begins with a value, or without an index.
pub(crate) fn domain<'t>(
    slot: usize,
    rank: usize,
    value: Option<Typed<'t>>,
    placing: Placing<'t>,
) -> Step<'t>
    ensures value { (t : TypedNode) → value.entry ≡ Some t → has_node (type_of_typed t) ≡ true → Begins None placing.entry (type_of_typed t)
        → step_view result ≡ begun_as None slot t placing.entry }
    ensures empty { value.entry ≡ None → (nat_le 1 rank && nat_le rank 3) ≡ true → step_view result ≡ empty_as slot rank placing.entry }
{
    match value {
        Some(_) => begun(None, slot, value, placing),
        None => empty(slot, rank, placing),
    }
}

/// What an int or a truth value begins with, if a value is written, or else its type's default.
///
/// # Errors
/// Out of memory.
pub(crate) fn or_default<'t>(
    arena: Arena<'t>,
    kind: ScalarKind,
    value: Option<Typed<'t>>,
) -> Made<'t>
    ensures { IfOk result (λ r. IsOrDefault kind value.entry r) }
{
    match value {
        Some(_) => Ok(value),
        None => match kind {
            ScalarKind::Int => number(arena, 0),
            ScalarKind::Bool => truth_word(arena, false),
        },
    }
}
