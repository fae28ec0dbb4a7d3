// The steps of statements with bodies, of their parts: `if`, a word with a condition, and loops over a range with one variable or over a domain.
// Where the parts don't fit, `Step::Nothing` stands for the step.

ghost use Rattle.std.specs.Prelude.{◌≡◌, map, None};
ghost use Rattle.dpl_language.specs.Tree.{ExprTree, ForWord, ForallWord, If as IfTree, Headed, Loop};
ghost use Rattle.dpl_lowered.specs.Shapes.{nowhere};
ghost use Rattle.dpl_lowered.specs.LoweredStatements.{with_intents};
ghost use Rattle.dpl_memory.specs.Memory.{Variable};
ghost use Rattle.dpl_nodes.specs.Steps.{step_word, listed, intent_view, names_view, steps_of, step_view, else_view};
ghost use Rattle.dpl_heads.specs.Made.{IsTruth, over_item, FitsNames};

use crate::head::Iterable;
use dpl_nodes::{BoolExpr, Changed, Else, Names, Spot, Step, StepWord};

/// An `if`.
pub fn if_step<'t>(
    condition: Option<&'t BoolExpr<'t>>,
    body: &'t [Step<'t>],
    otherwise: Else<'t>,
) -> Step<'t>
    ensures { (e : ExprTree Variable) → IsTruth e condition.entry
        → step_view result ≡ IfTree nowhere e (listed (steps_of body.now)) (else_view otherwise.entry) }
{
    match condition {
        None => Step::Nothing,
        Some(condition) => Step::If {
            condition,
            body,
            otherwise,
        },
    }
}

/// A word, a condition and a body.
pub fn headed_step<'t>(
    word: StepWord,
    at: &'t Spot,
    condition: Option<&'t BoolExpr<'t>>,
    body: &'t [Step<'t>],
) -> Step<'t>
    ensures { (e : ExprTree Variable) → IsTruth e condition.entry → step_view result ≡ Headed (step_word word) at.now e (listed (steps_of body.now)) }
{
    match condition {
        None => Step::Nothing,
        Some(condition) => Step::Headed {
            word,
            at,
            condition,
            body,
        },
    }
}

/// A `for`.
pub fn for_step<'t>(
    at: &'t Spot,
    names: Names<'t>,
    over: Iterable<'t>,
    body: &'t [Step<'t>],
) -> Step<'t>
    ensures { FitsNames over.entry names.entry
        → step_view result ≡ Loop ForWord at.now (names_view names.entry) nowhere (over_item over.entry) None (listed (steps_of body.now)) }
{
    match over {
        Iterable::Range(range) => match names {
            Names::Int(slot) => Step::For {
                at,
                slot,
                over: range,
                body,
            },
            Names::Tuple(_) | Names::Each(_, _) => Step::Nothing,
        },
        Iterable::Domain(domain) => Step::ForEach {
            at,
            names,
            over: domain,
            body,
        },
        Iterable::Nothing => Step::Nothing,
    }
}

/// A forall, with what its turns change.
pub fn forall_step<'t>(
    at: &'t Spot,
    names: Names<'t>,
    over: Iterable<'t>,
    changed: &'t Changed<'t>,
    body: &'t [Step<'t>],
) -> Step<'t>
    ensures { FitsNames over.entry names.entry
        → step_view result ≡ Loop ForallWord at.now (names_view names.entry) nowhere (over_item over.entry)
        (with_intents (map intent_view changed.now.reduced.now)) (listed (steps_of body.now)) }
{
    match over {
        Iterable::Range(range) => match names {
            Names::Int(slot) => Step::Forall {
                at,
                slot,
                over: range,
                changed,
                body,
            },
            Names::Tuple(_) | Names::Each(_, _) => Step::Nothing,
        },
        Iterable::Domain(domain) => Step::ForallEach {
            at,
            names,
            over: domain,
            changed,
            body,
        },
        Iterable::Nothing => Step::Nothing,
    }
}
