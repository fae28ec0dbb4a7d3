// Domain variables: they are declared, and assigned together with the arrays that are declared over them.
// What runs over a domain stands elsewhere.

ghost use Rattle.std.specs.Prelude.{◌≡◌, OnOk};
ghost use Rattle.dpl_language.specs.Tree.{Set};
ghost use Rattle.dpl_language.specs.Ranges.{empty_domain};
ghost use Rattle.dpl_language.specs.Outcome.{Deeds, Done};
ghost use Rattle.dpl_language.specs.Statements.{exec};
ghost use Rattle.dpl_lowered.specs.Shapes.{nowhere};
ghost use Rattle.dpl_memory.specs.Memory.{in_memory};
ghost use Rattle.dpl_nodes.specs.declared.step.Beginning.TheVariants.{Value, Empty};
ghost use Rattle.dpl_nodes.specs.Typed.{domain_view};
ghost use Rattle.dpl_nodes.specs.Steps.{dimensions, domain_declared, domain_leaf, whole_set};
ghost use Rattle.dpl_elements.specs.Changes.{for_array_at};
ghost use Rattle.dpl_loop.specs.Entries.{MayRefuseSome};
ghost use Rattle.dpl_loop.specs.Runs.{RunsTo};

use crate::lineage::{with_value, without_value};
use dpl_frame::{Arrays, DomainWord, FaultCode, Frame, Trap};
use dpl_loop::RunStop;
use dpl_nodes::{Beginning, DomainExpr, DomainName, Placing, Rank, Spot};
use dpl_values::{Team, domain_value};
use std::alloc::AllocError;

/// How many elements an array may have.
const MOST_ELEMENTS: u64 = 16_777_216;

// A domain's declaration with its initial value.
fn declare_value<G: Team>(
    slot: usize,
    e: &DomainExpr<'_>,
    placing: &Placing<'_>,
    frame: &mut Frame<G::Kept>,
    gate: &G,
) -> Result<(), RunStop>
    requires ready { G.is_ready gate.now }
    ensures ends { (done : Deeds) → RunsTo (MayRefuseSome (G.may_refuse gate.now)) result frame.new.memory done
        (exec frame.old.limits in_memory (domain_declared slot (Value e.entry) placing.now) frame.old.memory done) }
    ensures limits { frame.new.limits ≡ frame.old.limits }
    ensures layout { frame.new.layout ≡ frame.old.layout }
{
    let value = domain_value(e, frame, gate)?;
    let lineage = with_value(e, value, placing, frame)?;
    frame.declare_domain(slot, value);
    let root = lineage.root(frame.domain(slot));
    frame.deal(slot, root);
    Ok(())
}

// And without one: it has no index.
fn declare_empty<A: Arrays>(
    slot: usize,
    rank: Rank,
    placing: &Placing<'_>,
    frame: &mut Frame<A>,
) -> Result<(), AllocError>
    ensures ends { OnOk result ((done : Deeds) → exec frame.old.limits in_memory (domain_declared slot (Empty rank) placing.now) frame.old.memory done
        ≡ Done frame.new.memory done) }
    ensures limits { frame.new.limits ≡ frame.old.limits }
    ensures layout { frame.new.layout ≡ frame.old.layout }
{
    let lineage = without_value(placing, frame)?;
    frame.declare_domain(slot, empty(rank));
    let root = lineage.root(frame.domain(slot));
    frame.deal(slot, root);
    Ok(())
}

/// A domain's declaration, by what it begins with, and with its root.
#[inline(never)]
pub fn declare_domain<G: Team>(
    slot: usize,
    beginning: &Beginning<'_>,
    placing: &Placing<'_>,
    frame: &mut Frame<G::Kept>,
    gate: &G,
) -> Result<(), RunStop>
    requires ready { G.is_ready gate.now }
    ensures ends { (done : Deeds) → RunsTo (MayRefuseSome (G.may_refuse gate.now)) result frame.new.memory done
        (exec frame.old.limits in_memory (domain_declared slot beginning.now placing.now) frame.old.memory done) }
    ensures limits { frame.new.limits ≡ frame.old.limits }
    ensures layout { frame.new.layout ≡ frame.old.layout }
{
    match beginning {
        Beginning::Value(e) => declare_value(slot, e, placing, frame, gate),
        Beginning::Empty(rank) => {
            declare_empty(slot, *rank, placing, frame)?;
            Ok(())
        }
    }
}

// The domain of a rank that has no index.
fn empty(rank: Rank) -> DomainWord
    ensures { result ≡ empty_domain (dimensions rank) }
{
    match rank {
        Rank::Line => DomainWord::empty(1),
        Rank::Plane => DomainWord::empty(2),
        Rank::Space => DomainWord::empty(3),
    }
}

/// A domain that an array may have.
///
/// # Errors
/// `F8` at a name for more than 2^24 indices.
pub(crate) fn for_array(at: &Spot, domain: DomainWord) -> Result<DomainWord, Trap>
    ensures { result ≡ for_array_at at.now domain }
{
    if MOST_ELEMENTS < domain.size() {
        return Err(Trap::new(FaultCode::ArrayTooLarge, *at));
    }
    Ok(domain)
}

/// `=` to a domain. The arrays over it keep the elements whose indices are in both domains.
///
/// # Errors
/// `F8` at the domain's name, where there are such arrays; out of memory for them.
#[inline(never)]
pub fn set_domain<G: Team>(
    name: &DomainName<'_>,
    e: &DomainExpr<'_>,
    frame: &mut Frame<G::Kept>,
    gate: &G,
) -> Result<(), RunStop>
    requires ready { G.is_ready gate.now }
    ensures ends { (done : Deeds)
        → RunsTo (MayRefuseSome (G.may_refuse gate.now)) result frame.new.memory done
        (exec frame.old.limits in_memory (whole_set (domain_leaf name.now) Set nowhere (domain_view e.now)) frame.old.memory done) }
    ensures limits { frame.new.limits ≡ frame.old.limits }
{
    let value = domain_value(e, frame, gate)?;
    if !name.arrays.is_empty() {
        for_array(name.at, value)?;
    }
    frame.set_domain(name.slot, value);
    frame.redomain(name.arrays, value)?;
    Ok(())
}
