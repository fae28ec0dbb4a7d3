// Statements that are done directly: what is done to an int whose number is found so, and an `if` over one of these.
// Whoever runs statements asks here first, and on that way needs no room for a fault. What isn't done so leaves the frame as it was, and is begun anew.
// Nothing of what is done so is seen or noted, whatever is to come.

ghost use Rattle.std.specs.Prelude.{◌≡◌, ◌≤◌, true, false, Ok, drop, length};
ghost use Rattle.dpl_language.specs.Values.{Truth as TruthValue};
ghost use Rattle.dpl_language.specs.Statements.{exec, exec_all, exec_else};
ghost use Rattle.dpl_readings.specs.Readings.{step_in, else_in, steps_in};
ghost use Rattle.dpl_values.specs.Meanings.{truth_in};
ghost use Rattle.dpl_standing.specs.Standing.{Standing};
ghost use Rattle.dpl_coming.specs.Noting.{Note, noting};
ghost use Rattle.dpl_coming.specs.Walks.{Site, Known, IsDoneUnseen, Goes};

use crate::change::direct_number;
use dpl_frame::{Arrays, Frame};
use dpl_nodes::{BoolExpr, Else, Step};
use dpl_values::direct_truth;

/// Whether a condition is found directly and holds.
#[inline(always)]
pub fn is_met<A: Arrays>(condition: &BoolExpr<'_>, frame: &Frame<A>) -> bool
    ensures { result ≡ true → truth_in frame.now condition.now ≡ Ok (TruthValue true) }
{
    match direct_truth(condition, frame) {
        Some(truth) => truth,
        None => false,
    }
}

/// Does a statement, if it is done directly, and answers whether it was; if not, nothing is changed.
#[cycle(direct)]
#[inline(always)]
pub fn direct_statement<A: Arrays>(step: &Step<'_>, frame: &mut Frame<A>) -> bool
    ensures done { result ≡ true → (w : Standing)
        → IsDoneUnseen frame.old.memory frame.new.memory (λ note. exec frame.old.limits (noting note) (step_in w step.now)) }
    ensures unchanged { result ≡ false → frame.new ≡ frame.old }
    ensures limits { frame.new.limits ≡ frame.old.limits }
{
    match step {
        Step::Int(deed, slot, e) => {
            let Some(number) = direct_number(deed, *slot, e, frame) else {
                return false;
            };
            frame.set_number(*slot, number);
            true
        }
        _ => direct_branch(step, frame),
    }
}

/// How many of the first of some statements are done directly, one after another.
#[inline(always)]
pub fn direct_statements<A: Arrays>(steps: &[Step<'_>], frame: &mut Frame<A>) -> usize
    ensures within { result ≤ length steps.now }
    ensures goes { (w : Standing) (note : Note) (site : Site) (o : Known) → Goes site o o frame.old.memory frame.new.memory
        (exec_all frame.old.limits (noting note) (steps_in w steps.now)) (exec_all frame.old.limits (noting note) (steps_in w (drop result steps.now))) }
    ensures limits { frame.new.limits ≡ frame.old.limits }
{
    for k in 0..steps.len() {
        if !direct_statement(&steps[k], frame) {
            return k;
        }
    }
    steps.len()
}

// An `if` with one statement in its first branch. No other statement is done here.
#[cycle(direct)]
#[inline(never)]
fn direct_branch<A: Arrays>(step: &Step<'_>, frame: &mut Frame<A>) -> bool
    ensures done { result ≡ true → (w : Standing)
        → IsDoneUnseen frame.old.memory frame.new.memory (λ note. exec frame.old.limits (noting note) (step_in w step.now)) }
    ensures unchanged { result ≡ false → frame.new ≡ frame.old }
    ensures limits { frame.new.limits ≡ frame.old.limits }
{
    let Step::If {
        condition,
        body,
        otherwise,
    } = step
    else {
        return false;
    };
    if body.len() != 1 {
        return false;
    }
    let Some(met) = direct_truth(condition, frame) else {
        return false;
    };
    if met {
        direct_sole(body, frame)
    } else {
        direct_else(otherwise, frame)
    }
}

// A statement that stands alone.
#[cycle(direct)]
#[inline(always)]
fn direct_sole<A: Arrays>(body: &[Step<'_>], frame: &mut Frame<A>) -> bool
    ensures done { result ≡ true → (w : Standing)
        → IsDoneUnseen frame.old.memory frame.new.memory (λ note. exec_all frame.old.limits (noting note) (steps_in w body.now)) }
    ensures unchanged { result ≡ false → frame.new ≡ frame.old }
    ensures limits { frame.new.limits ≡ frame.old.limits }
{
    let [step] = body else {
        return false;
    };
    direct_statement(step, frame)
}

// What stands behind `else`.
#[cycle(direct)]
#[inline(always)]
fn direct_else<A: Arrays>(otherwise: &Else<'_>, frame: &mut Frame<A>) -> bool
    ensures done { result ≡ true → (w : Standing)
        → IsDoneUnseen frame.old.memory frame.new.memory (λ note. exec_else frame.old.limits (noting note) (else_in w otherwise.now)) }
    ensures unchanged { result ≡ false → frame.new ≡ frame.old }
    ensures limits { frame.new.limits ≡ frame.old.limits }
{
    match otherwise {
        Else::Absent => true,
        Else::Do(step) => direct_statement(step, frame),
    }
}
