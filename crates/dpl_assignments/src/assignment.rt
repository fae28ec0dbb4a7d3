// Assignments: what is written is told, what it takes is told, and what breaks no rule becomes a step.
// What an element's indices do stands before what the right side does, and behind both that the target is written.

ghost use Rattle.std.specs.Prelude.{◌≡◌, IfOk, OnOk, option_map};
ghost use Rattle.dpl_language.specs.Tree.{Whole};
ghost use Rattle.dpl_rules.specs.Breaches.{least_from};
ghost use Rattle.dpl_tree.specs.Statements.{target_view, sign_view};
ghost use Rattle.dpl_tree.specs.View.{item_view, name_view};
ghost use Rattle.dpl_deeds.specs.View.{Adds};
ghost use Rattle.dpl_assignments.specs.Around.{reducing_view};
ghost use Rattle.dpl_assignments.specs.Made.{MakesAssigned};
ghost use Rattle.dpl_assignments.specs.Told.{whole_told, element_told, element_tree, AssignmentTold, assigned_deeds};

use crate::around::{Reducing, may_reduce};
use crate::change::given_to_name;
use crate::element::{element, element_type, given_to_element};
use crate::judge::{fitting, type_in, written_name};
use crate::side::side;
use dpl_bodies::outside::promoted_breaches;
use dpl_deeds::target::{element_written, name_written};
use dpl_deeds::{Deed, behind};
use dpl_nodes::Step;
use dpl_scopes::Scopes;
use dpl_syntax::Breach;
use dpl_tree::{Arena, Assignment, Element, Name, Target};
use dpl_typed::found::is_promoted;
use std::alloc::AllocError;

// An assignment to a name. What its right side does tells whether it may be promoted.
fn to_name<'t>(
    arena: Arena<'t>,
    scopes: &Scopes<'t>,
    around: &Option<Reducing<'_>>,
    name: &Name<'_>,
    written: &Assignment<'_>,
    deeds: &mut Vec<Deed<'t>>,
    first: &mut Option<Breach>,
) -> Result<Step<'t>, AllocError>
    ensures told { OnOk result (first.new ≡ least_from first.old (whole_told scopes.now (option_map reducing_view around.now) (name_view name.now)
        (sign_view written.now.sign) (item_view written.now.value))) }
    ensures node { IfOk result (λ step. MakesAssigned scopes.now (Whole (name_view name.now)) written.now first.new step) }
    ensures deeds { OnOk result (Adds (assigned_deeds scopes.now (Whole (name_view name.now)) written.now) deeds.old.items deeds.new.items) }
{
    let declared = scopes.lookup(name.text);
    written_name(name.at, declared, first);
    let start = deeds.len();
    let Ok(part) = side(arena, scopes, &written.value, deeds, first) else {
        return Err(AllocError);
    };
    let may_reduce = may_reduce(around, &declared);
    let target = type_in(declared);
    fitting(&written.sign, may_reduce, part, target, first);
    let promoted = is_promoted(part.found);
    promoted_breaches(declared, promoted, behind(deeds.as_slice(), start), first);
    let Ok(()) = name_written(name.at, declared, written.sign.op, deeds) else {
        return Err(AllocError);
    };
    given_to_name(arena, scopes, name, written.sign, declared, part.found)
}

// An assignment to an element.
fn to_element<'t>(
    arena: Arena<'t>,
    scopes: &Scopes<'t>,
    target: &Element<'_>,
    written: &Assignment<'_>,
    deeds: &mut Vec<Deed<'t>>,
    first: &mut Option<Breach>,
) -> Result<Step<'t>, AllocError>
    ensures told { OnOk result (first.new ≡ least_from first.old
        (element_told scopes.now target.now (sign_view written.now.sign) (item_view written.now.value))) }
    ensures node { IfOk result (λ step. MakesAssigned scopes.now (element_tree target.now) written.now first.new step) }
    ensures deeds { OnOk result (Adds (assigned_deeds scopes.now (element_tree target.now) written.now) deeds.old.items deeds.new.items) }
{
    let declared = scopes.lookup(target.name.text);
    written_name(target.name.at, declared, first);
    let Ok(found) = element(arena, scopes, target, declared, deeds, first) else {
        return Err(AllocError);
    };
    let Ok(part) = side(arena, scopes, &written.value, deeds, first) else {
        return Err(AllocError);
    };
    let target_type = element_type(found);
    fitting(&written.sign, false, part, target_type, first);
    let Ok(()) = element_written(
        arena,
        scopes,
        target.name.at,
        declared,
        &target.exprs,
        written.sign.op,
        deeds,
    ) else {
        return Err(AllocError);
    };
    given_to_element(arena, found, written.sign, part.found)
}

/// An assignment, in the forall around it if there is one: its step, or a stand-in, `Step::Nothing` or another, where it breaks a rule and
/// where it doesn't run, and of that nothing is said.
///
/// # Errors
/// Out of memory; of what was told and done then nothing is said.
pub fn assignment<'t>(
    arena: Arena<'t>,
    scopes: &Scopes<'t>,
    around: &Option<Reducing<'_>>,
    written: &Assignment<'_>,
    deeds: &mut Vec<Deed<'t>>,
    first: &mut Option<Breach>,
) -> Result<Step<'t>, AllocError>
    ensures told { OnOk result (AssignmentTold scopes.now (option_map reducing_view around.now) written.now first.old first.new) }
    ensures node { IfOk result (λ step. MakesAssigned scopes.now (target_view written.now.target) written.now first.new step) }
    ensures deeds { OnOk result (Adds (assigned_deeds scopes.now (target_view written.now.target) written.now) deeds.old.items deeds.new.items) }
{
    match &written.target {
        Target::Whole(name) => to_name(arena, scopes, around, name, written, deeds, first),
        Target::Element(target) => to_element(arena, scopes, target, written, deeds, first),
    }
}
