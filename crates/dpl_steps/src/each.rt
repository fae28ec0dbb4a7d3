// Loops over domains: the variables of a turn hold its index, as one int, as a tuple, or coordinate by coordinate.
// Their turns run the same statements as those of loops over ranges, several at once as long as that goes (rows.rt).

ghost use Rattle.std.specs.Prelude.{◌≡◌, None, drop};
ghost use Rattle.dpl_sets.specs.Indices.{indices};
ghost use Rattle.dpl_language.specs.Tree.{ForWord, Loop, One};
ghost use Rattle.dpl_language.specs.Values.{Domain as DomainValue};
ghost use Rattle.dpl_language.specs.Ranges.{indices_in};
ghost use Rattle.dpl_language.specs.Outcome.{in_order};
ghost use Rattle.dpl_language.specs.Statements.{exec};
ghost use Rattle.dpl_lowered.specs.Shapes.{nowhere};
ghost use Rattle.dpl_memory.specs.Memory.{in_memory};
ghost use Rattle.dpl_nodes.specs.Typed.{domain_view};
ghost use Rattle.dpl_nodes.specs.Steps.{listed, names_view};
ghost use Rattle.dpl_loop.specs.Entries.{MayRefuseSome};
ghost use Rattle.dpl_loop.specs.Values.{Gives};
ghost use Rattle.dpl_values.specs.Reductions.{MayRefuseReduction, EachInDomain};
ghost use Rattle.dpl_coming.specs.Noting.{noting};
ghost use Rattle.dpl_coming.specs.Walks.{Walks};
ghost use Rattle.dpl_readings.specs.Readings.{steps_in};
ghost use Rattle.dpl_elements.specs.Turns.{looped_over};
ghost use Rattle.dpl_steps.specs.Noted.{index_noted};

use crate::context::Context;
use crate::rows::calm_domain_rows;
use crate::statement::run;
use dpl_batches::bind;
use dpl_domain::{Cursor, Domain, Index};
use dpl_frame::{DomainWord, Frame, Trap};
use dpl_loop::RunStop;
use dpl_nodes::{DomainExpr, Names, Spot, Step};
use dpl_values::budget::within_budget;
use dpl_values::{Team, domain_value};

/// What a loop runs over: its domain is evaluated once, and its size is tested against the budget.
///
/// # Errors
/// The fault of the domain; `F5` at the loop where it has more indices than the budget; or the gate refused an entry of a reduction
/// in the domain.
#[tactic(auto, using(crate::proofs::Tested::within_domain))]
pub fn domain_indices<G: Team>(
    at: &Spot,
    over: &DomainExpr<'_>,
    frame: &Frame<G::Kept>,
    gate: &G,
) -> Result<DomainWord, RunStop>
    requires ready { G.is_ready gate.now }
    ensures { Gives (MayRefuseReduction (G.may_refuse gate.now) frame.now (EachInDomain over.now)) DomainValue result
        (looped_over frame.now.limits at.now (One (domain_view over.now)) frame.now.memory) }
{
    let domain = domain_value(over, frame, gate)?;
    within_budget(&domain, at, frame)?;
    Ok(domain)
}

// The turn of an index.
#[cycle(run)]
#[inline(always)]
fn domain_turn<'t, C: Context>(
    index: Index,
    names: &Names<'t>,
    body: &[Step<'t>],
    context: &C,
    frame: &mut Frame<C::Kept>,
    out: &mut C::Out,
) -> Result<(), RunStop>
    requires ready { C.is_ready context.now }
    requires held { C.held context.now out.old }
    ensures ends { Walks (MayRefuseSome (C.may_refuse context.now)) C.site (C.waiting out.new) result
        (C.known context.now out.old) (C.known context.now out.new) frame.old.memory frame.new.memory
        (index_noted frame.old.limits (C.note context.now) names.now (steps_in C.standing body.now) index) }
    ensures limits { frame.new.limits ≡ frame.old.limits }
    ensures held { C.held context.now out.new }
{
    bind(names, index, frame);
    run(body, context, frame, out)
}

// The indices of a domain behind its first ones, so many.
fn indices_behind(domain: &Domain, count: u64) -> Cursor
    ensures { result ≡ drop count (indices domain.now) }
{
    let mut indices = domain.cursor();
    for _k in 0..count {
        let _ = indices.next();
    }
    indices
}

// The turns of a domain's indices, in its order: several at once as long as that goes, and then one by one.
#[cycle(run)]
#[inline(never)]
fn domain_turns<'t, C: Context>(
    domain: DomainWord,
    names: &Names<'t>,
    body: &[Step<'t>],
    context: &C,
    frame: &mut Frame<C::Kept>,
    out: &mut C::Out,
) -> Result<(), RunStop>
    requires ready { C.is_ready context.now }
    requires held { C.held context.now out.old }
    ensures ends { Walks (MayRefuseSome (C.may_refuse context.now)) C.site (C.waiting out.new) result
        (C.known context.now out.old) (C.known context.now out.new) frame.old.memory frame.new.memory
        (in_order (index_noted frame.old.limits (C.note context.now) names.now (steps_in C.standing body.now)) (indices_in domain)) }
    ensures limits { frame.new.limits ≡ frame.old.limits }
    ensures held { C.held context.now out.new }
{
    let over = domain.domain();
    let Ok(made) = calm_domain_rows(&over, names, body, frame) else {
        return Err(RunStop::Memory);
    };
    if made == over.size() {
        return Ok(());
    }
    let mut indices = indices_behind(&over, made);
    while let Some(index) = indices.next() {
        domain_turn(index, names, body, context, frame, out)?;
    }
    Ok(())
}

/// A `for` over a domain.
#[cycle(run)]
#[inline(never)]
pub(crate) fn for_each<'t, C: Context>(
    at: &Spot,
    names: &Names<'t>,
    body: &[Step<'t>],
    over: &DomainExpr<'t>,
    context: &C,
    frame: &mut Frame<C::Kept>,
    out: &mut C::Out,
) -> Result<(), RunStop>
    requires ready { C.is_ready context.now }
    requires held { C.held context.now out.old }
    ensures ends { Walks (MayRefuseSome (C.may_refuse context.now)) C.site (C.waiting out.new) result
        (C.known context.now out.old) (C.known context.now out.new) frame.old.memory frame.new.memory
        (exec frame.old.limits (noting (C.note context.now)) (Loop ForWord at.now (names_view names.now) nowhere (One (domain_view over.now)) None
        (listed (steps_in C.standing body.now)))) }
    ensures limits { frame.new.limits ≡ frame.old.limits }
    ensures held { C.held context.now out.new }
{
    let domain = domain_indices(at, over, frame, context)?;
    domain_turns(domain, names, body, context, frame, out)
}
