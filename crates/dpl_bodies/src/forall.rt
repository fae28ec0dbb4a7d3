// The rules on the body of a forall, C6 to C9, deed by deed.
// An outer array that it writes stands at the forall's own index wherever it is written or read.

ghost use Rattle.std.specs.Prelude.{◌≡◌, [], IfOk, OnOk, OnErr, map};
ghost use Rattle.dpl_rules.specs.Deeds.{each};
ghost use Rattle.dpl_rules.specs.Bodies.{write_breaches as write_breaches_of, read_breaches as read_breaches_of, change_breaches as change_breaches_of};
ghost use Rattle.dpl_rules.specs.Bodies.{forall_holds as forall_holds_of, holding_breaches as holding_breaches_of, deed_breaches as deed_breaches_of};
ghost use Rattle.dpl_rules.specs.Bodies.{forall_breaches as forall_breaches_of};
ghost use Rattle.dpl_rules.specs.Breaches.{least_from};
ghost use Rattle.dpl_scopes.specs.View.{declared_view};
ghost use Rattle.dpl_deeds.specs.View.{holding_view, deed_view};
ghost use Rattle.dpl_bodies.specs.View.{scope_view};
ghost use Rattle.dpl_bodies.specs.Written.{with_outer, with_written, all_written as all_written_of};

use crate::scope::ForallScope;
use crate::written::Written;
use dpl_deeds::{Deed, Holding};
use dpl_scopes::Declared;
use dpl_syntax::{Breach, Code};
use dpl_types::owed;
use std::alloc::{AllocError, Global};

// A name that is written: an outer array is put among those so far.
fn put_outer<'t>(
    turns: &ForallScope<'_>,
    declared: Declared<'t>,
    written: &mut Written<'t>,
) -> Result<(), AllocError>
    ensures { OnOk result (written.new ≡ with_outer (scope_view turns.now) written.old (declared_view declared.entry)) }
{
    if turns.is_outer_array(declared) {
        written.put(declared.origin)
    } else {
        Ok(())
    }
}

// A deed: an outer array that it writes is put among those so far.
fn put_written<'t>(
    turns: &ForallScope<'_>,
    deed: &Deed<'t>,
    written: &mut Written<'t>,
) -> Result<(), AllocError>
    ensures { OnOk result (written.new ≡ with_written (scope_view turns.now) written.old (deed_view deed.now)) }
{
    match deed {
        Deed::Writes(_, declared, _) | Deed::WritesAt(_, declared, _, _) => {
            put_outer(turns, *declared, written)
        }
        Deed::Reads(_, _) | Deed::ReadsAt(_, _, _) | Deed::Holds(_, _) => Ok(()),
    }
}

// The outer arrays that a forall's body writes.
fn all_written<'t>(
    alloc: Global,
    turns: &ForallScope<'_>,
    deeds: &[Deed<'t>],
) -> Result<Written<'t>, AllocError>
    ensures { IfOk result (λ w. w ≡ all_written_of (scope_view turns.now) [] (map deed_view deeds.now)) }
{
    let mut written = Written::new(alloc);
    for deed in deeds {
        put_written(turns, deed, &mut written)?;
    }
    Ok(written)
}

// C6: an outer array is written at the own index alone.
fn write_breaches(turns: &ForallScope<'_>, deed: &Deed<'_>, first: &mut Option<Breach>)
    ensures { first.new ≡ least_from first.old (write_breaches_of (scope_view turns.now) (deed_view deed.now)) }
{
    match deed {
        Deed::Reads(_, _) | Deed::ReadsAt(_, _, _) | Deed::Holds(_, _) => {}
        Deed::Writes(at, declared, _) => {
            owed(
                !turns.is_outer_array(*declared),
                *at,
                Code::WrittenElsewhere,
                first,
            );
        }
        Deed::WritesAt(at, declared, parts, _) => {
            let holds = !turns.is_outer_array(*declared) || turns.is_own(parts);
            owed(holds, *at, Code::WrittenElsewhere, first);
        }
    }
}

// C7: an array that is written is read at the own index alone.
fn read_breaches(
    turns: &ForallScope<'_>,
    written: &Written<'_>,
    deed: &Deed<'_>,
    first: &mut Option<Breach>,
)
    ensures { first.new ≡ least_from first.old (read_breaches_of (scope_view turns.now) written.now (deed_view deed.now)) }
{
    match deed {
        Deed::Reads(at, declared) => {
            owed(
                !written.has(declared.origin),
                *at,
                Code::ReadElsewhere,
                first,
            );
        }
        Deed::ReadsAt(at, declared, parts) => {
            let holds = !written.has(declared.origin) || turns.is_own(parts);
            owed(holds, *at, Code::ReadElsewhere, first);
        }
        Deed::Writes(_, _, _) | Deed::WritesAt(_, _, _, _) | Deed::Holds(_, _) => {}
    }
}

// C8: an outer scalar, locale or domain is changed through its reduce intent alone, and a reduce variable isn't read.
fn change_breaches(turns: &ForallScope<'_>, deed: &Deed<'_>, first: &mut Option<Breach>)
    ensures { first.new ≡ least_from first.old (change_breaches_of (scope_view turns.now) (deed_view deed.now)) }
{
    match deed {
        Deed::Reads(at, declared) | Deed::ReadsAt(at, declared, _) => {
            owed(!turns.is_reduced(*declared), *at, Code::OuterChanged, first);
        }
        Deed::Writes(at, declared, sign) | Deed::WritesAt(at, declared, _, sign) => {
            owed(
                turns.may_change(*declared, *sign),
                *at,
                Code::OuterChanged,
                first,
            );
        }
        Deed::Holds(_, _) => {}
    }
}

// Whether a forall's body may hold this.
fn holds(holding: Holding) -> bool
    ensures { result ≡ forall_holds_of (holding_view holding) }
{
    match holding {
        Holding::ReduceIntent => true,
        Holding::Print
        | Holding::Forall
        | Holding::Coforall
        | Holding::Reduction
        | Holding::CellCall
        | Holding::On
        | Holding::Here
        | Holding::Declaration => false,
    }
}

// C9: what no forall's body holds.
fn holding_breaches(deed: &Deed<'_>, first: &mut Option<Breach>)
    ensures { first.new ≡ least_from first.old (holding_breaches_of (deed_view deed.now)) }
{
    match deed {
        Deed::Holds(at, holding) => {
            owed(holds(*holding), *at, Code::NotInForall, first);
        }
        Deed::Reads(_, _)
        | Deed::ReadsAt(_, _, _)
        | Deed::Writes(_, _, _)
        | Deed::WritesAt(_, _, _, _) => {}
    }
}

// What one deed of a forall's body breaks, by the outer arrays that the body writes.
#[tactic(auto, using(dpl_types::proofs::Breaches::least_from_append))]
fn deed_breaches(
    turns: &ForallScope<'_>,
    written: &Written<'_>,
    deed: &Deed<'_>,
    first: &mut Option<Breach>,
)
    ensures { first.new ≡ least_from first.old (deed_breaches_of (scope_view turns.now) written.now (deed_view deed.now)) }
{
    write_breaches(turns, deed, first);
    read_breaches(turns, written, deed, first);
    change_breaches(turns, deed, first);
    holding_breaches(deed, first);
}

// What the deeds of a forall's body break, by the outer arrays that the body writes.
#[tactic(auto, using(dpl_types::proofs::Breaches::least_from_append))]
fn each_breaches(
    turns: &ForallScope<'_>,
    written: &Written<'_>,
    deeds: &[Deed<'_>],
    first: &mut Option<Breach>,
)
    ensures { first.new ≡ least_from first.old (each (deed_breaches_of (scope_view turns.now) written.now) (map deed_view deeds.now)) }
{
    for deed in deeds {
        deed_breaches(turns, written, deed, first);
    }
}

/// Tells what the deeds of a forall's body break.
///
/// # Errors
/// Out of memory; nothing is told then.
#[tactic(auto, using(crate::proofs::Members::forall_breaches_written))]
pub fn forall_breaches(
    alloc: Global,
    turns: &ForallScope<'_>,
    deeds: &[Deed<'_>],
    first: &mut Option<Breach>,
) -> Result<(), AllocError>
    ensures ok { OnOk result (first.new ≡ least_from first.old (forall_breaches_of (scope_view turns.now) (map deed_view deeds.now))) }
    ensures err { OnErr result (first.new ≡ first.old) }
{
    let written = all_written(alloc, turns, deeds)?;
    each_breaches(turns, &written, deeds, first);
    Ok(())
}
