// The variables of a forall: which slots and how many they are, and where an index is theirs.

ghost use Rattle.std.specs.Prelude.{◌≡◌, true, [], ◌∷◌};
ghost use Rattle.dpl_memory.specs.Memory.{is_among};
ghost use Rattle.dpl_nodes.specs.declared.tree.IntExpr.{Local};
ghost use Rattle.dpl_nodes.specs.Typed.{index_items};
ghost use Rattle.dpl_apart.specs.Rows.{AreOnce};
ghost use Rattle.dpl_turns.specs.Bodies.{own_slots, own_numbers, own_tuples, slots_onto, AreOfRank, IsOwn};
ghost use Rattle.dpl_turns.specs.Typed.{own_of};

use dpl_nodes::{IndexExpr, IntExpr, Names};

// Whether an int is the variable in a slot.
fn is_local(e: &IntExpr<'_>, slot: usize) -> bool
    ensures { result ≡ true → e.now ≡ Local slot }
{
    match e {
        IntExpr::Local(other) => slot == *other,
        _ => false,
    }
}

/// Whether an index is that of the turn: the forall's variables, in their order.
pub(crate) fn is_own(names: &Names<'_>, index: &IndexExpr<'_>) -> bool
    ensures { result ≡ true → IsOwn (own_of names.now) (index_items index.now) }
{
    match (names, index) {
        (Names::Int(slot), IndexExpr::Line(a)) => is_local(a, *slot),
        (Names::Tuple(slot), IndexExpr::Tuple(other)) => *slot == *other,
        (Names::Each(first, []), IndexExpr::Line(a)) => is_local(a, *first),
        (Names::Each(first, [second]), IndexExpr::Plane(a, b)) => {
            is_local(a, *first) && is_local(b, *second)
        }
        (Names::Each(first, [second, third]), IndexExpr::Space(a, b, c)) => {
            is_local(a, *first) && is_local(b, *second) && is_local(c, *third)
        }
        _ => false,
    }
}

/// Whether a slot is among others.
pub(crate) fn is_among(slot: usize, slots: &[usize]) -> bool
    ensures { result ≡ is_among slot slots.now }
{
    slots.contains(&slot)
}

/// Whether a slot is that of one of the variables.
pub(crate) fn is_variable(slot: usize, names: &Names<'_>) -> bool
    ensures { result ≡ is_among slot (own_slots (own_of names.now)) }
{
    match names {
        Names::Int(own) => slot == *own,
        Names::Tuple(own) => slot == *own,
        Names::Each(first, others) => slot == *first || is_among(slot, others),
    }
}

// Whether no slot is listed twice.
fn are_once(slots: &[usize]) -> bool
    ensures { result ≡ true → AreOnce slots.now }
{
    match slots {
        [] => true,
        [slot, rest @ ..] => !is_among(*slot, rest) && are_once(rest),
    }
}

/// Whether the variables are those of a forall over indices of a rank, each in a slot of its own.
pub(crate) fn are_of_rank(names: &Names<'_>, rank: u32) -> bool
    ensures rank { result ≡ true → AreOfRank (own_of names.now) rank }
    ensures once { result ≡ true → AreOnce (own_slots (own_of names.now)) }
{
    match names {
        Names::Int(_) => rank == 1,
        Names::Tuple(_) => true,
        Names::Each(first, others) => {
            rank as usize == others.len() + 1 && (!is_among(*first, others) && are_once(others))
        }
    }
}

// Whether a slot stands alone in a list.
fn is_one(slot: usize, slots: &[usize]) -> bool
    ensures { result ≡ true → slots.now ≡ slot ∷ [] }
{
    match slots {
        [other] => slot == *other,
        _ => false,
    }
}

// Whether a list has these slots, the last first.
fn are_last_first(first: usize, others: &[usize], slots: &[usize]) -> bool
    ensures { result ≡ true → slots.now ≡ slots_onto others.now (first ∷ []) }
{
    match (others, slots) {
        ([], [a]) => *a == first,
        ([second], [b, a]) => *b == *second && *a == first,
        ([second, third], [c, b, a]) => *c == *third && (*b == *second && *a == first),
        _ => false,
    }
}

/// Whether these are the slots of numbers and of tuples in which the variables stand, as a turn's binding of them gives them values: the last
/// of several first.
pub fn are_own(names: &Names<'_>, numbers: &[usize], tuples: &[usize]) -> bool
    ensures numbers { result ≡ true → numbers.now ≡ own_numbers (own_of names.now) [] }
    ensures tuples { result ≡ true → tuples.now ≡ own_tuples (own_of names.now) [] }
{
    match names {
        Names::Int(slot) => is_one(*slot, numbers) && tuples.is_empty(),
        Names::Tuple(slot) => is_one(*slot, tuples) && numbers.is_empty(),
        Names::Each(first, others) => are_last_first(*first, others, numbers) && tuples.is_empty(),
    }
}
