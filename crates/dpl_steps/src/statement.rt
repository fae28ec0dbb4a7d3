// Statements one after another, branches and loops.
// A loop's size is tested once against the budget; then its turns are made one by one, or several at once (rows.rt).

ghost use Rattle.std.specs.Prelude.{◌≡◌, ◌<◌, ℤ, None, Some, drop, length, slice_get};
ghost use Rattle.dpl_sets.specs.Ranges.{members_of};
ghost use Rattle.dpl_language.specs.Outcome.{repeated};
ghost use Rattle.dpl_language.specs.Statements.{exec, exec_all, exec_else, holds};
ghost use Rattle.dpl_memory.specs.Memory.{in_memory};
ghost use Rattle.dpl_nodes.specs.Typed.{truth_view, range_item};
ghost use Rattle.dpl_language.specs.Tree.{ForWord, Loop};
ghost use Rattle.dpl_lowered.specs.Shapes.{nowhere};
ghost use Rattle.dpl_nodes.specs.Steps.{listed, variable_in};
ghost use Rattle.dpl_frame.specs.Faults.{as_range};
ghost use Rattle.dpl_loop.specs.Entries.{MayRefuseSome};
ghost use Rattle.dpl_loop.specs.Values.{Gives};
ghost use Rattle.dpl_values.specs.Reductions.{MayRefuseReduction, EachInRange};
ghost use Rattle.dpl_coming.specs.Noting.{noting};
ghost use Rattle.dpl_coming.specs.Walks.{Walks};
ghost use Rattle.dpl_readings.specs.Readings.{step_in, else_in, steps_in};
ghost use Rattle.dpl_elements.specs.Turns.{in_turn, looped_over};
ghost use Rattle.dpl_steps.specs.Noted.{turn_noted};

use crate::context::Context;
use crate::each::for_each;
use crate::rows::calm_rows;
use dpl_elements::{set_array, set_truth_array};
use dpl_frame::{FaultCode, Frame, RangeWord, Trap};
use dpl_loop::RunStop;
use dpl_loop::stop::told;
use dpl_nodes::{BoolExpr, Else, RangeExpr, Spot, Step, StepWord};
use dpl_range::Range;
use dpl_simple::{
    declare_array_by, declare_domain, direct_statement, direct_statements, is_met, set_domain,
    simple,
};
use dpl_values::{Team, direct_truth, range_value, truth_value};

/// What a loop runs over: its range is evaluated once, and its size is tested against the budget.
///
/// # Errors
/// The fault of the range; `F5` at the loop where it has more members than the budget; or the gate refused an entry of a reduction
/// in the range.
pub fn range_indices<G: Team>(
    at: &Spot,
    over: &RangeExpr<'_>,
    frame: &Frame<G::Kept>,
    gate: &G,
) -> Result<RangeWord, RunStop>
    requires ready { G.is_ready gate.now }
    ensures { Gives (MayRefuseReduction (G.may_refuse gate.now) frame.now (EachInRange over.now)) as_range result
        (looped_over frame.now.limits at.now (range_item over.now) frame.now.memory) }
{
    let range = range_value(over, frame, gate)?;
    if frame.budget() < range.range.size() {
        return Err(RunStop::from(Trap::new(FaultCode::Budget, *at)));
    }
    Ok(range)
}

/// Runs statements one after another, where they stand.
///
/// # Errors
/// The first fault, behind what was printed before it; out of memory, a worker was not started, or a gate refused an entry, and then
/// nothing is said of the frame and of what is printed.
#[cycle(run)]
#[inline(always)]
pub fn run<'t, C: Context>(
    steps: &[Step<'t>],
    context: &C,
    frame: &mut Frame<C::Kept>,
    out: &mut C::Out,
) -> Result<(), RunStop>
    requires ready { C.is_ready context.now }
    requires held { C.held context.now out.old }
    ensures ends { Walks (MayRefuseSome (C.may_refuse context.now)) C.site (C.waiting out.new) result
        (C.known context.now out.old) (C.known context.now out.new) frame.old.memory frame.new.memory
        (exec_all frame.old.limits (noting (C.note context.now)) (steps_in C.standing steps.now)) }
    ensures limits { frame.new.limits ≡ frame.old.limits }
    ensures held { C.held context.now out.new }
{
    let made = direct_statements(steps, frame);
    if made == steps.len() {
        return Ok(());
    }
    walk(steps, made, context, frame, out)
}

// The statements from a place on; of the first it is known that it isn't done directly. The room for what a statement may stop with is here,
// and whoever runs statements that are all done directly never enters.
#[cycle(run)]
#[inline(never)]
fn walk<'t, C: Context>(
    steps: &[Step<'t>],
    first: usize,
    context: &C,
    frame: &mut Frame<C::Kept>,
    out: &mut C::Out,
) -> Result<(), RunStop>
    requires ready { C.is_ready context.now }
    requires held { C.held context.now out.old }
    ensures ends { Walks (MayRefuseSome (C.may_refuse context.now)) C.site (C.waiting out.new) result
        (C.known context.now out.old) (C.known context.now out.new) frame.old.memory frame.new.memory
        (exec_all frame.old.limits (noting (C.note context.now)) (steps_in C.standing (drop first steps.now))) }
    ensures limits { frame.new.limits ≡ frame.old.limits }
    ensures held { C.held context.now out.new }
{
    for k in first..steps.len() {
        step(k == first, &steps[k], context, frame, out)?;
    }
    Ok(())
}

// A statement, of which it may be known that it isn't done directly.
#[cycle(run)]
#[inline(always)]
fn step<'t, C: Context>(
    known: bool,
    step: &Step<'t>,
    context: &C,
    frame: &mut Frame<C::Kept>,
    out: &mut C::Out,
) -> Result<(), RunStop>
    requires ready { C.is_ready context.now }
    requires held { C.held context.now out.old }
    ensures ends { Walks (MayRefuseSome (C.may_refuse context.now)) C.site (C.waiting out.new) result
        (C.known context.now out.old) (C.known context.now out.new) frame.old.memory frame.new.memory
        (exec frame.old.limits (noting (C.note context.now)) (step_in C.standing step.now)) }
    ensures limits { frame.new.limits ≡ frame.old.limits }
    ensures held { C.held context.now out.new }
{
    if known {
        return statement(step, context, frame, out);
    }
    if direct_statement(step, frame) {
        return Ok(());
    }
    statement(step, context, frame, out)
}

// A statement that isn't done directly. The kinds that stand most often in loops come first, without the room that others need; of an `if` the
// condition is looked for directly.
#[cycle(run)]
#[inline(always)]
fn statement<'t, C: Context>(
    step: &Step<'t>,
    context: &C,
    frame: &mut Frame<C::Kept>,
    out: &mut C::Out,
) -> Result<(), RunStop>
    requires ready { C.is_ready context.now }
    requires held { C.held context.now out.old }
    ensures ends { Walks (MayRefuseSome (C.may_refuse context.now)) C.site (C.waiting out.new) result
        (C.known context.now out.old) (C.known context.now out.new) frame.old.memory frame.new.memory
        (exec frame.old.limits (noting (C.note context.now)) (step_in C.standing step.now)) }
    ensures limits { frame.new.limits ≡ frame.old.limits }
    ensures held { C.held context.now out.new }
{
    match step {
        Step::If {
            condition,
            body,
            otherwise,
        } => match direct_truth(condition, frame) {
            Some(true) => run(body, context, frame, out),
            Some(false) => alternative(otherwise, context, frame, out),
            None => any_statement(step, context, frame, out),
        },
        Step::Truth(target, e) => simple::truth(target, e, frame, context),
        Step::SetElement(name, t, op, sign, e) => simple::element(
            name, t, *op, sign, e, frame, context,
        ),
        _ => any_statement(step, context, frame, out),
    }
}

// A statement of any kind.
#[cycle(run)]
#[inline(never)]
fn any_statement<'t, C: Context>(
    step: &Step<'t>,
    context: &C,
    frame: &mut Frame<C::Kept>,
    out: &mut C::Out,
) -> Result<(), RunStop>
    requires ready { C.is_ready context.now }
    requires held { C.held context.now out.old }
    ensures ends { Walks (MayRefuseSome (C.may_refuse context.now)) C.site (C.waiting out.new) result
        (C.known context.now out.old) (C.known context.now out.new) frame.old.memory frame.new.memory
        (exec frame.old.limits (noting (C.note context.now)) (step_in C.standing step.now)) }
    ensures limits { frame.new.limits ≡ frame.old.limits }
    ensures held { C.held context.now out.new }
{
    match step {
        Step::Nothing => Ok(()),
        Step::Int(deed, slot, e) => simple::int(deed, *slot, e, frame, context),
        Step::DeclareRange(slot, e) => simple::range(*slot, e, frame, context),
        Step::SetRange(slot, e) => simple::range(*slot, e, frame, context),
        Step::Truth(target, e) => simple::truth(target, e, frame, context),
        Step::DeclareDomain(slot, beginning, placing) => declare_domain(
            *slot, beginning, placing, frame, context,
        ),
        Step::SetDomain(name, e) => set_domain(name, e, frame, context),
        Step::DeclareArray(declared) => declare_array_by(declared, frame, context),
        Step::SetElement(name, t, op, sign, e) => simple::element(
            name, t, *op, sign, e, frame, context,
        ),
        Step::SetArray(name, op, sign, e) => set_array(name, *op, sign, e, frame, context),
        Step::SetTruthArray(name, sign, e) => set_truth_array(name, sign, e, frame, context),
        Step::Write {
            ends_line,
            arguments,
        } => context.write(*ends_line, arguments, frame, out),
        Step::Block(steps) => run(steps, context, frame, out),
        Step::If {
            condition,
            body,
            otherwise,
        } => {
            if truth_value(condition, frame, context)?.get() {
                run(body, context, frame, out)
            } else {
                alternative(otherwise, context, frame, out)
            }
        }
        Step::Headed {
            word: StepWord::While,
            at,
            condition,
            body,
        } => while_loop(at, body, condition, context, frame, out),
        Step::For {
            at,
            slot,
            over,
            body,
        } => for_loop(at, *slot, body, over, context, frame, out),
        Step::Forall {
            at,
            slot,
            over,
            changed,
            body,
        } => context.forall_line(at, *slot, over, changed, body, frame, out),
        Step::ForEach {
            at,
            names,
            over,
            body,
        } => for_each(at, names, body, over, context, frame, out),
        Step::ForallEach {
            at,
            names,
            over,
            changed,
            body,
        } => Context::forall(context, at, names, over, changed, body, frame, out),
    }
}

// A `for`. Branches and loops are functions of their own, so that a statement that holds no other needs no place for theirs.
#[cycle(run)]
#[inline(never)]
fn for_loop<'t, C: Context>(
    at: &Spot,
    slot: usize,
    body: &[Step<'t>],
    over: &RangeExpr<'t>,
    context: &C,
    frame: &mut Frame<C::Kept>,
    out: &mut C::Out,
) -> Result<(), RunStop>
    requires ready { C.is_ready context.now }
    requires held { C.held context.now out.old }
    ensures ends { Walks (MayRefuseSome (C.may_refuse context.now)) C.site (C.waiting out.new) result
        (C.known context.now out.old) (C.known context.now out.new) frame.old.memory frame.new.memory
        (exec frame.old.limits (noting (C.note context.now)) (Loop ForWord at.now (variable_in slot) nowhere (range_item over.now) None
        (listed (steps_in C.standing body.now)))) }
    ensures limits { frame.new.limits ≡ frame.old.limits }
    ensures held { C.held context.now out.new }
{
    let range = range_indices(at, over, frame, context)?.range;
    turns(range, slot, body, context, frame, out)
}

// What stands behind `else`.
#[cycle(run)]
fn alternative<'t, C: Context>(
    otherwise: &Else<'t>,
    context: &C,
    frame: &mut Frame<C::Kept>,
    out: &mut C::Out,
) -> Result<(), RunStop>
    requires ready { C.is_ready context.now }
    requires held { C.held context.now out.old }
    ensures ends { Walks (MayRefuseSome (C.may_refuse context.now)) C.site (C.waiting out.new) result
        (C.known context.now out.old) (C.known context.now out.new) frame.old.memory frame.new.memory
        (exec_else frame.old.limits (noting (C.note context.now)) (else_in C.standing otherwise.now)) }
    ensures limits { frame.new.limits ≡ frame.old.limits }
    ensures held { C.held context.now out.new }
{
    match otherwise {
        Else::Absent => Ok(()),
        Else::Do(step) => {
            if direct_statement(step, frame) {
                return Ok(());
            }
            statement(step, context, frame, out)
        }
    }
}

// A `while`: turns are made as long as the condition is found directly, holds, and a turn is left.
#[cycle(run)]
#[inline(never)]
fn while_loop<'t, C: Context>(
    at: &Spot,
    body: &[Step<'t>],
    condition: &BoolExpr<'t>,
    context: &C,
    frame: &mut Frame<C::Kept>,
    out: &mut C::Out,
) -> Result<(), RunStop>
    requires ready { C.is_ready context.now }
    requires held { C.held context.now out.old }
    ensures ends { Walks (MayRefuseSome (C.may_refuse context.now)) C.site (C.waiting out.new) result
        (C.known context.now out.old) (C.known context.now out.new) frame.old.memory frame.new.memory
        (repeated frame.old.limits.budget at.now (holds frame.old.limits in_memory (truth_view condition.now))
        (exec_all frame.old.limits (noting (C.note context.now)) (steps_in C.standing body.now))) }
    ensures limits { frame.new.limits ≡ frame.old.limits }
    ensures held { C.held context.now out.new }
{
    let mut left = frame.budget();
    while left > 0 && is_met(condition, frame) {
        left -= 1;
        run(body, context, frame, out)?;
    }
    walked_while(left, at, body, condition, context, frame, out)
}

// The turns of a `while` from there on where so many are left: the condition is evaluated before each, and where it holds a turn has to be left.
#[cycle(run)]
#[inline(never)]
fn walked_while<'t, C: Context>(
    most: u64,
    at: &Spot,
    body: &[Step<'t>],
    condition: &BoolExpr<'t>,
    context: &C,
    frame: &mut Frame<C::Kept>,
    out: &mut C::Out,
) -> Result<(), RunStop>
    requires ready { C.is_ready context.now }
    requires held { C.held context.now out.old }
    ensures ends { Walks (MayRefuseSome (C.may_refuse context.now)) C.site (C.waiting out.new) result
        (C.known context.now out.old) (C.known context.now out.new) frame.old.memory frame.new.memory
        (repeated most at.now (holds frame.old.limits in_memory (truth_view condition.now))
        (exec_all frame.old.limits (noting (C.note context.now)) (steps_in C.standing body.now))) }
    ensures limits { frame.new.limits ≡ frame.old.limits }
    ensures held { C.held context.now out.new }
{
    let mut left = most;
    while truth_value(condition, frame, context)?.get() {
        if left == 0 {
            return told(Err(Trap::new(FaultCode::Budget, *at)));
        }
        left -= 1;
        run(body, context, frame, out)?;
    }
    Ok(())
}

// The turn at a place of a range.
#[cycle(run)]
#[inline(always)]
fn turn<'t, C: Context>(
    k: u64,
    range: Range,
    slot: usize,
    body: &[Step<'t>],
    context: &C,
    frame: &mut Frame<C::Kept>,
    out: &mut C::Out,
) -> Result<(), RunStop>
    requires ready { C.is_ready context.now }
    requires held { C.held context.now out.old }
    requires place { k < length (members_of range) }
    ensures ends { (i : ℤ) → slice_get (members_of range) k ≡ Some i
        → Walks (MayRefuseSome (C.may_refuse context.now)) C.site (C.waiting out.new) result
        (C.known context.now out.old) (C.known context.now out.new) frame.old.memory frame.new.memory
        (turn_noted frame.old.limits (C.note context.now) slot (steps_in C.standing body.now) i) }
    ensures limits { frame.new.limits ≡ frame.old.limits }
    ensures held { C.held context.now out.new }
{
    let Some(i) = range.nth(k) else {
        unreachable!()
    };
    frame.set_number(slot, i);
    run(body, context, frame, out)
}

// The turns of a range, in its order: several at once as long as that goes, and then one by one.
#[cycle(run)]
#[inline(never)]
fn turns<'t, C: Context>(
    range: Range,
    slot: usize,
    body: &[Step<'t>],
    context: &C,
    frame: &mut Frame<C::Kept>,
    out: &mut C::Out,
) -> Result<(), RunStop>
    requires ready { C.is_ready context.now }
    requires held { C.held context.now out.old }
    ensures ends { Walks (MayRefuseSome (C.may_refuse context.now)) C.site (C.waiting out.new) result
        (C.known context.now out.old) (C.known context.now out.new) frame.old.memory frame.new.memory
        (in_turn (turn_noted frame.old.limits (C.note context.now) slot (steps_in C.standing body.now)) (members_of range)) }
    ensures limits { frame.new.limits ≡ frame.old.limits }
    ensures held { C.held context.now out.new }
{
    let Ok(made) = calm_rows(range, slot, body, frame) else {
        return Err(RunStop::Memory);
    };
    for k in made..range.size() {
        turn(k, range, slot, body, context, frame, out)?;
    }
    Ok(())
}
