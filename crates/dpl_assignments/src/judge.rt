// The rules of assignments: which names are written, and what each takes by which operator.
// C3 stands at the first token of a right side behind `=`, and at the operator behind the others.

ghost use Rattle.std.specs.Prelude.{◌≡◌, ◌&&◌, option_map};
ghost use Rattle.dpl_language.specs.Tree.{IntKind};
ghost use Rattle.dpl_tree.specs.Statements.{sign_view};
ghost use Rattle.dpl_rules.specs.Types.{same_kind};
ghost use Rattle.dpl_rules.specs.Breaches.{least_from};
ghost use Rattle.dpl_rules.specs.Verdicts.{wanted as wanted_of, owed_type};
ghost use Rattle.dpl_rules.specs.Sights.{type_declared};
ghost use Rattle.dpl_rules.specs.Assignments.{written_name as written_name_of, set_breaches, change_breaches};
ghost use Rattle.dpl_rules.specs.Assignments.{fitting_target as fitting_target_of};
ghost use Rattle.dpl_scopes.specs.Types.{type_view, of_type};
ghost use Rattle.dpl_scopes.specs.View.{declared_view};
ghost use Rattle.dpl_types.specs.Wants.{takes};
ghost use Rattle.dpl_typed.specs.Typed.{types_of, part_view};

use dpl_scopes::{Declared, ValueType};
use dpl_syntax::{Breach, Code, Place};
use dpl_tree::{Assign, AssignSign, ScalarKind};
use dpl_typed::Part;
use dpl_typed::part::wanted;
use dpl_types::found::is_cell;
use dpl_types::{Want, note, owed};

/// The name that is written: it is known, no constant and no cell.
#[tactic(auto, using(dpl_types::proofs::Breaches::least_from_append))]
pub(crate) fn written_name(at: Place, declared: Option<Declared<'_>>, first: &mut Option<Breach>)
    ensures { first.new ≡ least_from first.old (written_name_of at (option_map declared_view declared.entry)) }
{
    match declared {
        None => note(first, at, Code::UnknownName),
        Some(declared) => {
            owed(
                !declared.sort.is_constant(),
                at,
                Code::ConstantWritten,
                first,
            );
            owed(!is_cell(declared.value_type), at, Code::CellMisused, first);
        }
    }
}

/// The type of a declaration, if it is there and has one.
pub(crate) fn type_in<'t>(declared: Option<Declared<'t>>) -> Option<ValueType<'t>>
    ensures { of_type result ≡ type_declared (option_map declared_view declared.entry) }
{
    declared?.value_type
}

// A part of the wanted type, where it has one.
fn tell_wanted(want: Want<'_>, part: Part<'_>, first: &mut Option<Breach>)
    ensures { first.new ≡ least_from first.old (wanted_of (takes want.entry) (part_view part.entry)) }
{
    wanted(want, part, first);
}

// What `=` takes.
fn set(at: Place, side: Part<'_>, target: ValueType<'_>, first: &mut Option<Breach>)
    ensures { first.new ≡ least_from first.old (set_breaches at (part_view side.entry) (type_view target.entry)) }
{
    match target {
        ValueType::Scalar(kind) => tell_wanted(Want::Scalar(kind), side, first),
        ValueType::Domain { rank, strided } => tell_wanted(
            Want::RankedDomain {
                rank,
                may_stride: strided,
            },
            side,
            first,
        ),
        ValueType::Array(kind, over) => tell_wanted(Want::Given(kind, over), side, first),
        ValueType::Locale => tell_wanted(Want::Locale, side, first),
        ValueType::Range { .. } | ValueType::Tuple(_) => note(first, at, Code::WrongType),
        ValueType::Promoted(_, _) | ValueType::AllLocales | ValueType::Cell(_) => {}
    }
}

// What `+= -= *= /= %=` take, told at the operator: ints, where the target is of ints.
fn changed(at: Place, side: Part<'_>, kind: ScalarKind, want: Want<'_>, first: &mut Option<Breach>)
    ensures { first.new ≡ least_from first.old (owed_type (λ t. same_kind IntKind kind && takes want.entry t) at (types_of side.entry.found)) }
{
    let part = Part {
        at,
        found: side.found,
    };
    match kind {
        ScalarKind::Int => tell_wanted(want, part, first),
        ScalarKind::Bool => tell_wanted(Want::Nothing, part, first),
    }
}

// What an operator that changes takes.
fn change(at: Place, side: Part<'_>, target: ValueType<'_>, first: &mut Option<Breach>)
    ensures { first.new ≡ least_from first.old (change_breaches at (part_view side.entry) (type_view target.entry)) }
{
    match target {
        ValueType::Scalar(kind) => changed(at, side, kind, Want::Scalar(kind), first),
        ValueType::Array(kind, over) => changed(at, side, kind, Want::Given(kind, over), first),
        ValueType::Range { .. }
        | ValueType::Domain { .. }
        | ValueType::Tuple(_)
        | ValueType::Locale => note(first, at, Code::WrongType),
        ValueType::Promoted(_, _) | ValueType::AllLocales | ValueType::Cell(_) => {}
    }
}

/// What an assignment's operator takes, for a target of a type; `reduce=` where it may stand is like `=`.
pub(crate) fn fitting(
    sign: &AssignSign,
    may_reduce: bool,
    side: Part<'_>,
    target: Option<ValueType<'_>>,
    first: &mut Option<Breach>,
)
    ensures { first.new ≡ least_from first.old (fitting_target_of (sign_view sign.now) may_reduce (part_view side.entry) (of_type target.entry)) }
{
    if let Some(target) = target {
        match sign.op {
            Assign::Set => set(sign.at, side, target, first),
            Assign::SetAdd
            | Assign::SetSubtract
            | Assign::SetMultiply
            | Assign::SetDivide
            | Assign::SetRemainder => change(sign.at, side, target, first),
            Assign::SetReduce => {
                if may_reduce {
                    set(sign.at, side, target, first);
                } else {
                    note(first, sign.at, Code::WrongType);
                }
            }
        }
    }
}
