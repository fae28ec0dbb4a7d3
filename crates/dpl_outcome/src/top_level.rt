// The variables of the top level, collected when a run has ended.
// Their values are what the frame has in the slots of their names.

ghost use Rattle.std.specs.Prelude.{◌≡◌, ◌++◌, IfOk, OnOk, map, IfSome, IfNone};
ghost use Rattle.dpl_scopes.specs.Types.{type_view};
ghost use Rattle.dpl_memory.specs.Memory.{int_leaf};
ghost use Rattle.dpl_scopes.specs.Slots.{slot_in};
ghost use Rattle.dpl_typed.specs.Leaves.{type_in};
ghost use Rattle.dpl_outcome.specs.Leaving.{value_held, content_kept, entry_kept, held_as, held_by, held_entry, held_frame};
ghost use Rattle.dpl_outcome.specs.Names.{names_of, marked_by, marked_names};

use crate::left::{Kept, Left, Named};
use dpl_frame::Frame;
use dpl_scopes::{Mark, Scopes, ValueType};
use dpl_tree::ScalarKind;
use std::alloc::{AllocError, Global};

// What a slot holds for a type. What has no slot of its own counts as the int in the first one.
fn held(value_type: ValueType<'_>, slot: usize, frame: &Frame) -> Kept
    ensures { content_kept frame.now.memory.arrays result ≡ held_as (type_view value_type.entry) slot frame.now.memory }
{
    match value_type {
        ValueType::Scalar(ScalarKind::Int) => Kept::Int(frame.number(slot)),
        ValueType::Scalar(ScalarKind::Bool) => Kept::Bool(frame.number(slot) != 0),
        ValueType::Range { .. } => Kept::Range(frame.range(slot)),
        ValueType::Domain { .. } => Kept::Domain(frame.domain(slot)),
        ValueType::Array(ScalarKind::Int, _) => Kept::Ints(slot),
        ValueType::Array(ScalarKind::Bool, _) => Kept::Bools(slot),
        ValueType::Promoted(_, _)
        | ValueType::Tuple(_)
        | ValueType::Locale
        | ValueType::AllLocales
        | ValueType::Cell(_) => Kept::Int(frame.number(0)),
    }
}

// What a name in sight holds.
fn found(scopes: &Scopes<'_>, name: &[u8], frame: &Frame) -> Option<Kept>
    ensures some { IfSome result (λ k. content_kept frame.now.memory.arrays k
        ≡ held_by (type_in scopes.now name.now) (slot_in scopes.now name.now) frame.now.memory) }
    ensures none { IfNone result (held_by (type_in scopes.now name.now) (slot_in scopes.now name.now) frame.now.memory
        ≡ value_held (int_leaf 0) frame.now.memory) }
{
    let declared = scopes.lookup(name)?;
    Some(held(declared.value_type?, declared.slot, frame))
}

// A name with what it holds.
fn named(
    alloc: Global,
    scopes: &Scopes<'_>,
    name: &[u8],
    frame: &Frame,
) -> Result<Named, AllocError>
    ensures { IfOk result (λ v. entry_kept frame.now.memory.arrays v ≡ held_entry scopes.now frame.now.memory name.now) }
{
    let kept = match found(scopes, name, frame) {
        Some(kept) => kept,
        None => Kept::Int(frame.number(0)),
    };
    Ok(Named {
        name: name.to_vec(alloc)?,
        kept,
    })
}

// Puts the name that a mark declares, if it declares one, behind the others.
fn add(
    alloc: Global,
    scopes: &Scopes<'_>,
    mark: &Mark<'_>,
    frame: &Frame,
    variables: &mut Vec<Named>,
) -> Result<(), AllocError>
    ensures { OnOk result (map (entry_kept frame.now.memory.arrays) variables.new.items
        ≡ map (entry_kept frame.now.memory.arrays) variables.old.items ++ held_frame scopes.now frame.now.memory (marked_by mark.now)) }
{
    match mark {
        Mark::Opens => Ok(()),
        Mark::Declares(entry) => {
            let one = named(alloc, scopes, entry.declared.origin.name, frame)?;
            variables.push(one)?;
            Ok(())
        }
    }
}

// The names that marks declare, with what is kept of each.
fn names(
    alloc: Global,
    scopes: &Scopes<'_>,
    marks: &[Mark<'_>],
    frame: &Frame,
) -> Result<Vec<Named>, AllocError>
    ensures { IfOk result (λ named. map (entry_kept frame.now.memory.arrays) named.items
        ≡ held_frame scopes.now frame.now.memory (marked_names marks.now)) }
{
    let mut variables = Vec::new(alloc);
    for mark in marks {
        add(alloc, scopes, mark, frame, &mut variables)?;
    }
    Ok(variables)
}

/// The names in sight, with what they hold in a frame, in the order of their declarations: behind a program those of its top level. Arrays
/// are moved.
///
/// # Errors
/// Out of memory.
pub fn collect(alloc: Global, scopes: &Scopes<'_>, frame: Frame) -> Result<Left, AllocError>
    ensures { IfOk result (λ left. left ≡ held_frame scopes.now frame.memory (names_of scopes.now)) }
{
    let named = names(alloc, scopes, scopes.marks(), &frame)?;
    Left::new(alloc, frame.into_arrays(), named)
}
