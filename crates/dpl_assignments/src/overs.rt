// The arrays that change with a domain: those in sight that are declared over it by its bare name.
// Such a name stood for the domain where the array was declared, so the scopes are gone through as they were opened.

ghost use Rattle.std.specs.Prelude.{◌≡◌, ◌≤◌, ◌+◌, [], length, insert, is_some, option_map, Some, IfOk, OnOk};
ghost use Rattle.dpl_rules.specs.Sights.{enter as enter_scopes, add};
ghost use Rattle.dpl_scopes.specs.Types.{origin_view, type_view, of_type};
ghost use Rattle.dpl_scopes.specs.View.{declared_view};
ghost use Rattle.dpl_memory.specs.Resolved.{is_over as is_over_of, arrays_over as arrays_over_of};
ghost use Rattle.dpl_typed.specs.Leaves.{value_kind, kind_by, leaf_by, leaf_in};
ghost use Rattle.dpl_typed.specs.Typed.{is_rank as is_rank_of};
ghost use Rattle.dpl_bound.specs.Sights.{over_by, sight_of};
ghost use Rattle.dpl_assignments.specs.Overs.{slot_of_bound, IsFoundBy, passed, IsAsDeep};

use dpl_scopes::{Declared, Mark, Scopes, ValueType};
use dpl_tree::Arena;
use std::alloc::{AllocError, Global};

// The scopes so far, and the arrays over a domain in them, of which those of the innermost scope come first.
#[derive(Drop)]
struct Replay<'s> {
    before: Scopes<'s>,
    slots: Vec<usize>,
    inner: usize,
}

// A domain has 1 to 3 dimensions.
fn is_rank(rank: usize) -> bool
    ensures { result ≡ is_rank_of rank }
{
    rank > 0 && rank < 4
}

// Whether variables of a type have a kind.
#[tactic(auto, using(crate::proofs::FoundArrays::some_if))]
fn has_kind(t: ValueType<'_>) -> bool
    ensures { result ≡ is_some (value_kind (type_view t.entry)) }
{
    match t {
        ValueType::Scalar(_) | ValueType::Range { .. } => true,
        ValueType::Domain { rank, .. } => is_rank(rank),
        ValueType::Array(_, over) | ValueType::Promoted(_, over) => is_rank(over.rank),
        ValueType::Tuple(rank) => rank > 1 && rank < 4,
        ValueType::Locale | ValueType::AllLocales | ValueType::Cell(_) => false,
    }
}

// The slot of a variable of a type, which counts as 0 where it has no kind.
#[tactic(auto, using(crate::proofs::FoundArrays::leaf_slot))]
fn slot_of(t: Option<ValueType<'_>>, slot: usize) -> usize
    ensures { result ≡ (leaf_by (kind_by (of_type t.entry)) (Some slot)).slot }
{
    match t {
        None => 0,
        Some(t) => if has_kind(t) { slot } else { 0 },
    }
}

// The slot of a name, which counts as 0 where it isn't in sight.
fn slot_named(scopes: &Scopes<'_>, name: &[u8]) -> usize
    ensures { result ≡ (leaf_in scopes.now name.now).slot }
{
    match scopes.lookup(name) {
        None => 0,
        Some(declared) => slot_of(declared.value_type, declared.slot),
    }
}

// The slot of the domain that an array is over by its bare name, as its type tells it. Before the array stand these scopes.
fn over_slot(before: &Scopes<'_>, declared: Declared<'_>) -> Option<usize>
    ensures { result ≡ option_map slot_of_bound (over_by before.now (origin_view declared.entry.origin) (of_type declared.entry.value_type)) }
{
    match declared.value_type {
        None => None,
        Some(ValueType::Array(_, over)) => {
            if over.base.is_same(declared.origin) {
                None
            } else {
                Some(slot_named(before, over.base.name))
            }
        }
        Some(
            ValueType::Scalar(_)
            | ValueType::Range { .. }
            | ValueType::Domain { .. }
            | ValueType::Promoted(_, _)
            | ValueType::Tuple(_)
            | ValueType::Locale
            | ValueType::AllLocales
            | ValueType::Cell(_),
        ) => None,
    }
}

// Whether what is declared is an array over the domain in a slot.
#[tactic(auto, using(crate::proofs::FoundArrays::over_some, crate::proofs::FoundArrays::over_none))]
fn is_over(before: &Scopes<'_>, declared: Declared<'_>, slot: usize) -> bool
    ensures { result ≡ is_over_of slot (over_by before.now (origin_view declared.entry.origin) (of_type declared.entry.value_type)) }
{
    match over_slot(before, declared) {
        Some(other) => slot == other,
        None => false,
    }
}

impl<'s> Replay<'s> {
    // No scope is open.
    fn begin(alloc: Global) -> Result<Replay<'s>, AllocError>
        ensures before { IfOk result (λ walk. walk.before ≡ []) }
        ensures found { IfOk result (λ walk. walk.slots.items ≡ []) }
        ensures inner { IfOk result (λ walk. walk.inner ≡ 0) }
    {
        match Scopes::new(alloc) {
            Ok(mut before) => {
                before.leave();
                Ok(Replay {
                    before,
                    slots: Vec::new(alloc),
                    inner: 0,
                })
            }
            Err(_) => Err(AllocError),
        }
    }

    // A scope is opened.
    fn enter(&mut self) -> Result<(), AllocError>
        ensures before { OnOk result (self.new.before ≡ enter_scopes self.old.before) }
        ensures slots { OnOk result (self.new.slots ≡ self.old.slots) }
        ensures inner { OnOk result (self.new.inner ≡ 0) }
    {
        match self.before.enter() {
            Ok(()) => {
                self.inner = 0;
                Ok(())
            }
            Err(_) => Err(AllocError),
        }
    }

    // An array is found, behind those of its scope.
    fn find(&mut self, found: usize) -> Result<(), AllocError>
        requires { self.old.inner ≤ length self.old.slots.items }
        ensures before { OnOk result (self.new.before ≡ self.old.before) }
        ensures slots { OnOk result (self.new.slots.items ≡ insert self.old.slots.items self.old.inner found) }
        ensures inner { OnOk result (self.new.inner ≡ self.old.inner + 1) }
    {
        match self.slots.insert(self.inner, found) {
            Ok(()) => {
                self.inner += 1;
                Ok(())
            }
            Err(_) => Err(AllocError),
        }
    }

    // What is declared is noted, if it is an array over the domain in a slot.
    fn note(&mut self, declared: Declared<'s>, slot: usize) -> Result<(), AllocError>
        requires { IsFoundBy slot self.old.before self.old.slots.items self.old.inner }
        ensures before { OnOk result (self.new.before ≡ self.old.before) }
        ensures found { OnOk result (IsFoundBy slot (add (declared_view declared.entry) self.old.before) self.new.slots.items self.new.inner) }
    {
        if is_over(&self.before, declared, slot) {
            let found = slot_of(declared.value_type, self.before.next_slot());
            self.find(found)
        } else {
            Ok(())
        }
    }

    // A name is declared, as deep as it was.
    fn declare(&mut self, declared: Declared<'s>, slot: usize) -> Result<(), AllocError>
        requires found { IsFoundBy slot self.old.before self.old.slots.items self.old.inner }
        requires deep { declared.origin.depth ≡ length self.old.before }
        ensures before { OnOk result (self.new.before ≡ add (declared_view declared.entry) self.old.before) }
        ensures found { OnOk result (IsFoundBy slot (add (declared_view declared.entry) self.old.before) self.new.slots.items self.new.inner) }
    {
        let Ok(()) = self.note(declared, slot) else {
            return Err(AllocError);
        };
        match self
            .before
            .declare(declared.origin.name, declared.sort, declared.value_type)
        {
            Ok(()) => Ok(()),
            Err(_) => Err(AllocError),
        }
    }
}

impl<'s> Replay<'s> {
    // A mark is gone by.
    fn pass(&mut self, mark: &Mark<'s>, slot: usize) -> Result<(), AllocError>
        requires found { IsFoundBy slot self.old.before self.old.slots.items self.old.inner }
        requires deep { IsAsDeep mark.now self.old.before }
        ensures before { OnOk result (self.new.before ≡ passed mark.now self.old.before) }
        ensures found { OnOk result (IsFoundBy slot (passed mark.now self.old.before) self.new.slots.items self.new.inner) }
    {
        match mark {
            Mark::Opens => self.enter(),
            Mark::Declares(entry) => self.declare(entry.declared, slot),
        }
    }
}

// All scopes are gone through.
fn walked<'s>(alloc: Global, scopes: &Scopes<'s>, slot: usize) -> Result<Replay<'s>, AllocError>
    ensures found { IfOk result (λ walk. walk.slots.items ≡ arrays_over_of slot (sight_of scopes.now)) }
{
    let Ok(mut walk) = Replay::begin(alloc) else {
        return Err(AllocError);
    };
    let marks = scopes.marks();
    for mark in marks {
        walk.pass(mark, slot)?;
    }
    Ok(walk)
}

/// The slots of the arrays in sight that are declared over the domain name in a slot: the innermost scope's first, each in
/// order of declaration.
///
/// # Errors
/// Out of memory.
pub(crate) fn arrays_over<'t>(
    arena: Arena<'t>,
    scopes: &Scopes<'_>,
    slot: usize,
) -> Result<&'t [usize], AllocError>
    ensures arrays { IfOk result (λ slots. slots.now ≡ arrays_over_of slot (sight_of scopes.now)) }
{
    let Ok(walk) = walked(arena.alloc(), scopes, slot) else {
        return Err(AllocError);
    };
    arena.list(walk.slots)
}
