// The rule C7 outside of loops' bodies: of promoted assignments.
// A promoted assignment doesn't read its target by an index list.

ghost use Rattle.std.specs.Prelude.{◌≡◌, map, option_map};
ghost use Rattle.dpl_rules.specs.Bodies.{element_read as element_read_of, whole_target as whole_target_of};
ghost use Rattle.dpl_rules.specs.Deeds.{each};
ghost use Rattle.dpl_rules.specs.Breaches.{least_from};
ghost use Rattle.dpl_scopes.specs.Types.{origin_view};
ghost use Rattle.dpl_scopes.specs.View.{declared_view};
ghost use Rattle.dpl_deeds.specs.View.{deed_view};
ghost use Rattle.dpl_bodies.specs.Promoted.{promoted_by};

use dpl_deeds::Deed;
use dpl_deeds::name::is_array;
use dpl_scopes::{Declared, Origin};
use dpl_syntax::{Breach, Code};
use dpl_types::owed;

// C7: a promoted assignment doesn't read an element of its target.
fn element_read(target: Origin<'_>, deed: &Deed<'_>, first: &mut Option<Breach>)
    ensures { first.new ≡ least_from first.old (element_read_of (origin_view target.entry) (deed_view deed.now)) }
{
    match deed {
        Deed::ReadsAt(at, declared, _) => {
            owed(
                !target.is_same(declared.origin),
                *at,
                Code::ReadElsewhere,
                first,
            );
        }
        Deed::Reads(_, _)
        | Deed::Writes(_, _, _)
        | Deed::WritesAt(_, _, _, _)
        | Deed::Holds(_, _) => {}
    }
}

// What the deeds of the right side break, by the target.
#[tactic(auto, using(dpl_types::proofs::Breaches::least_from_append))]
fn elements_read(target: Origin<'_>, deeds: &[Deed<'_>], first: &mut Option<Breach>)
    ensures { first.new ≡ least_from first.old (each (element_read_of (origin_view target.entry)) (map deed_view deeds.now)) }
{
    for deed in deeds {
        element_read(target, deed, first);
    }
}

// The same of a target that may not be known, or be no array.
fn whole_target(declared: Option<Declared<'_>>, deeds: &[Deed<'_>], first: &mut Option<Breach>)
    ensures { first.new ≡ least_from first.old (whole_target_of (option_map declared_view declared.entry) (map deed_view deeds.now)) }
{
    if let Some(declared) = declared {
        if is_array(declared.value_type) {
            elements_read(declared.origin, deeds, first);
        }
    }
}

/// Tells what an assignment to a name, by its declaration, breaks as a promoted one, where its right side is promoted, by the deeds of that side.
pub fn promoted_breaches(
    target: Option<Declared<'_>>,
    promoted: bool,
    deeds: &[Deed<'_>],
    first: &mut Option<Breach>,
)
    ensures { first.new ≡ least_from first.old (promoted_by (option_map declared_view target.entry) promoted (map deed_view deeds.now)) }
{
    if promoted {
        whole_target(target, deeds, first);
    }
}
