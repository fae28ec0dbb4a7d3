// Declarations of arrays: what is between the brackets, and what the elements begin with.
// Where an array is over no domain, or its elements take no such value, a rule is broken, and `Step::Nothing` stands for it.

ghost use Rattle.std.specs.Prelude.{◌≡◌, true, is_some, IfOk, Some};
ghost use Rattle.dpl_language.specs.Phrases.{declared_over};
ghost use Rattle.dpl_language.specs.Tree.{DomainLiteral, Items as ItemsTree};
ghost use Rattle.dpl_lowered.specs.LoweredExpressions.{Once};
ghost use Rattle.dpl_lowered.specs.Shapes.{nowhere};
ghost use Rattle.dpl_memory.specs.Memory.{Variable};
ghost use Rattle.dpl_nodes.specs.declared.step.DeclaredOver.{DeclaredOver as OverNode};
ghost use Rattle.dpl_nodes.specs.declared.step.Initial.{Initial as InitialNode};
ghost use Rattle.dpl_nodes.specs.Spots.{IsNear};
ghost use Rattle.dpl_nodes.specs.Steps.{step_view, over_items, initial_kind, initial_view as elements_view};
ghost use Rattle.dpl_rules.specs.Types.{is_domain};
ghost use Rattle.dpl_tree.specs.Declarations.{optional, initial_view};
ghost use Rattle.dpl_tree.specs.View.{items_view};
ghost use Rattle.dpl_typed.specs.declared.typed.Typed.{Typed as TypedNode};
ghost use Rattle.dpl_typed.specs.Typed.{type_of_typed, typed_view};
ghost use Rattle.dpl_declarations.specs.Made.{between, Fits, elements_tree, array_as};

use crate::elements::elements;
use crate::over::{bare_over, over_made};
use dpl_nodes::step::{DeclaredOver, Initial as Begun};
use dpl_nodes::{ArrayDeclaration, Step};
use dpl_syntax::Place;
use dpl_tree::{Arena, ArrayType, Initial};
use dpl_typed::Typed;
use dpl_typed::node::spot;
use std::alloc::AllocError;

// The step, if there are both.
fn step<'t>(
    arena: Arena<'t>,
    at: Place,
    slot: usize,
    from: Place,
    over: Option<DeclaredOver<'t>>,
    initial: Option<Begun<'t>>,
) -> Result<Step<'t>, AllocError>
    ensures { IfOk result (λ s. (o : OverNode) (b : InitialNode) → over.entry ≡ Some o → initial.entry ≡ Some b → IsNear at → IsNear from
        → step_view s ≡ array_as at slot from (initial_kind b) (over_items o) (elements_view b)) }
{
    let Some(over) = over else {
        return Ok(Step::Nothing);
    };
    let Some(initial) = initial else {
        return Ok(Step::Nothing);
    };
    let Ok(at) = spot(arena, at) else {
        return Err(AllocError);
    };
    let Ok(from) = spot(arena, from) else {
        return Err(AllocError);
    };
    let array = ArrayDeclaration {
        at,
        slot,
        from,
        over,
        initial,
    };
    match arena.node(array) {
        Ok(array) => Ok(Step::DeclareArray(array)),
        Err(_) => Err(AllocError),
    }
}

/// An array, whose name is at a place and in a slot, by the domain that was made of what is between the brackets, and by the value
/// that was made of what is written behind `=`, if anything is.
///
/// # Errors
/// Out of memory.
pub(crate) fn array<'t>(
    arena: Arena<'t>,
    at: Place,
    slot: usize,
    written: &ArrayType<'_>,
    domain: Option<Typed<'t>>,
    initial: &Option<Initial<'_>>,
    value: Option<Typed<'t>>,
) -> Result<Step<'t>, AllocError>
    ensures { IfOk result (λ s. (d : TypedNode) (is : ItemsTree Variable) → domain.entry ≡ Some d
        → typed_view Once d ≡ DomainLiteral written.now.from is nowhere → is_domain (type_of_typed d) ≡ true
        → Fits written.now.kind (optional initial_view initial.now) value.entry → IsNear at → IsNear written.now.from
        → step_view s ≡ array_as at slot written.now.from written.now.kind (between (is_some (declared_over (items_view written.now.over))) is)
        (elements_tree (optional initial_view initial.now) value.entry)) }
{
    let bare = bare_over(&written.over).is_some();
    let over = over_made(bare, domain);
    let Ok(begun) = elements(arena, written.kind, initial, value) else {
        return Err(AllocError);
    };
    step(arena, at, slot, written.from, over, begun)
}
