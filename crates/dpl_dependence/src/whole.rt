// Right sides of whole arrays: they read the array that is assigned at the turn's index alone, where it stands as a whole.

ghost use Rattle.std.specs.Prelude.{◌≡◌, true};
ghost use Rattle.dpl_lowered.specs.LoweredExpressions.{EachTurn};
ghost use Rattle.dpl_nodes.specs.Typed.{promoted_int, promoted_int_links_of, promoted_truth, promoted_truth_links_of};
ghost use Rattle.dpl_turns.specs.Wholes.{ReadsOwn};
ghost use Rattle.dpl_dependence.specs.Turns.{MayEvaluateOwn, MayLinkOwn};

use crate::expression::{may_int, may_truth};
use crate::turn::TurnRules;
use dpl_nodes::{PromotedInt, PromotedIntLink, PromotedTruth, PromotedTruthLink};

// Whether each turn may evaluate a promoted int at its own index.
#[cycle(own_ints)]
fn may_own_ints(e: &PromotedInt<'_>, rules: &TurnRules<'_>) -> bool
    ensures { result ≡ true → MayEvaluateOwn rules.now (promoted_int EachTurn e.now) }
{
    match e {
        PromotedInt::Scalar(a) => may_int(a, rules),
        PromotedInt::Element(_, _) => true,
        PromotedInt::Negative(a) => may_own_ints(a, rules),
        PromotedInt::Chain(first, links) => {
            may_own_ints(first, rules) && may_own_ints_links(links, rules)
        }
    }
}

// Whether each turn may evaluate the further operands of a chain at its own index.
#[cycle(own_ints)]
fn may_own_ints_links(links: &[PromotedIntLink<'_>], rules: &TurnRules<'_>) -> bool
    ensures { result ≡ true → MayLinkOwn rules.now (promoted_int_links_of EachTurn links.now) }
{
    for link in links {
        if !may_own_ints(link.right, rules) {
            return false;
        }
    }
    true
}

// Whether each turn may evaluate a promoted truth value at its own index.
#[cycle(own_truths)]
fn may_own_truths(e: &PromotedTruth<'_>, rules: &TurnRules<'_>) -> bool
    ensures { result ≡ true → MayEvaluateOwn rules.now (promoted_truth EachTurn e.now) }
{
    match e {
        PromotedTruth::Scalar(a) => may_truth(a, rules),
        PromotedTruth::Element(_, _) => true,
        PromotedTruth::Not(a) => may_own_truths(a, rules),
        PromotedTruth::Chain(first, links) => {
            may_own_truths(first, rules) && may_own_truths_links(links, rules)
        }
        PromotedTruth::Compare(_, a, b) => may_own_ints(a, rules) && may_own_ints(b, rules),
    }
}

// Whether each turn may evaluate the further operands of a chain at its own index.
#[cycle(own_truths)]
fn may_own_truths_links(links: &[PromotedTruthLink<'_>], rules: &TurnRules<'_>) -> bool
    ensures { result ≡ true → MayLinkOwn rules.now (promoted_truth_links_of EachTurn links.now) }
{
    for link in links {
        if !may_own_truths(link.right, rules) {
            return false;
        }
    }
    true
}

/// Whether a promoted int at each index of a rank reads the array in a slot at that index alone.
pub fn int_reads_own(rank: u32, slot: usize, e: &PromotedInt<'_>) -> bool
    ensures { result ≡ true → ReadsOwn rank slot (promoted_int EachTurn e.now) }
{
    let written = [slot];
    let rules = TurnRules {
        rank,
        names: None,
        written: &written,
        reduced: &[],
    };
    may_own_ints(e, &rules)
}

/// Whether a promoted truth value does.
pub fn truth_reads_own(rank: u32, slot: usize, e: &PromotedTruth<'_>) -> bool
    ensures { result ≡ true → ReadsOwn rank slot (promoted_truth EachTurn e.now) }
{
    let written = [slot];
    let rules = TurnRules {
        rank,
        names: None,
        written: &written,
        reduced: &[],
    };
    may_own_truths(e, &rules)
}
