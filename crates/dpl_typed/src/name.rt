// Names: known ones alone, which is C1, and no cell as a plain variable, which is C12.
// A name whose declaration was refused has no type, and breaks nothing. One that has a type becomes its declaration's slot.

ghost use Rattle.std.specs.Prelude.{◌≡◌, IfOk, option_map};
ghost use Rattle.dpl_language.specs.Names.{Text};
ghost use Rattle.dpl_language.specs.Tree.{Placed, Named};
ghost use Rattle.dpl_rules.specs.Sights.{Scopes};
ghost use Rattle.dpl_rules.specs.Expressions.{name_verdict};
ghost use Rattle.dpl_scopes.specs.View.{declared_view, IsSighted};
ghost use Rattle.dpl_nodes.specs.Spots.{IsNear};
ghost use Rattle.dpl_typed.specs.Leaves.{IsFound};
ghost use Rattle.dpl_typed.specs.Lowered.{leaves_of};
ghost use Rattle.dpl_typed.specs.Stands.{StandsFor};
ghost use Rattle.dpl_typed.specs.Told.{Judges};

use crate::leaves::variable;
use crate::typed::Made;
use dpl_scopes::Declared;
use dpl_syntax::{Breach, Code, Place};
use dpl_tree::Arena;
use dpl_types::note;

/// A name that is read, by what its look-up answered.
///
/// # Errors
/// Out of memory; of what was told then nothing is said.
pub fn named<'t>(
    arena: Arena<'t>,
    at: Place,
    declared: Option<Declared<'t>>,
    first: &mut Option<Breach>,
) -> Made<'t>
    ensures told { IfOk result (λ r. Judges (name_verdict at (option_map declared_view declared.entry)) r first.old first.new) }
    ensures node { IfOk result (λ r. (scopes : Scopes) (x : Placed Text) → x.at ≡ at → IsSighted scopes x.name declared.entry → IsFound scopes x.name
        → IsNear at → StandsFor r (λ m. leaves_of scopes m (Named x))) }
{
    let Some(declared) = declared else {
        note(first, at, Code::UnknownName);
        return Ok(None);
    };
    let Some(t) = declared.value_type else {
        return Ok(None);
    };
    if t.is_cell() {
        note(first, at, Code::CellMisused);
        return Ok(None);
    }
    variable(arena, t, declared.slot, at)
}
