// The deeds of a loop's intents: that one of them reduces.
// What its body does is put by the walk over that.

ghost use Rattle.std.specs.Prelude.{OnOk, map};
ghost use Rattle.dpl_tree.specs.Declarations.{optional};
ghost use Rattle.dpl_tree.specs.Statements.{intent_view, next_intent_view, with_view};
ghost use Rattle.dpl_rules.specs.Doings.{with_deeds as with_deeds_of};
ghost use Rattle.dpl_deeds.specs.View.{Adds};
ghost use Rattle.dpl_deeds.specs.Parts.{intent_deeds as intent_deeds_of, next_intents_deeds as next_intents_deeds_of};

use crate::deed::{Added, Deed, Holding, held};
use dpl_tree::{Intent, NextIntent, With};

// An intent: one that reduces is held.
fn intent_deeds(intent: &Intent<'_>, deeds: &mut Vec<Deed<'_>>) -> Added
    ensures { OnOk result (Adds (intent_deeds_of (intent_view intent.now)) deeds.old.items deeds.new.items) }
{
    match intent {
        Intent::Reduce(at, _, _, _) => held(*at, Holding::ReduceIntent, deeds),
        Intent::Ref(_, _) => Ok(()),
    }
}

// Further intents.
#[tactic(auto, using(crate::proofs::Steps::added_then, crate::proofs::Parts::intents_deeds_first))]
fn next_intents_deeds(others: &[NextIntent<'_>], deeds: &mut Vec<Deed<'_>>) -> Added
    ensures { OnOk result (Adds (next_intents_deeds_of (map next_intent_view others.now)) deeds.old.items deeds.new.items) }
{
    for next in others {
        intent_deeds(&next.intent, deeds)?;
    }
    Ok(())
}

/// The intents of a loop that reduce.
///
/// # Errors
/// Out of memory; of the list then nothing is said.
#[tactic(auto, using(crate::proofs::Steps::added_then, crate::proofs::Parts::intents_deeds_first))]
pub fn with_deeds(with: &Option<With<'_>>, deeds: &mut Vec<Deed<'_>>) -> Added
    ensures { OnOk result (Adds (with_deeds_of (optional with_view with.now)) deeds.old.items deeds.new.items) }
{
    match with {
        None => Ok(()),
        Some(with) => {
            intent_deeds(&with.first, deeds)?;
            next_intents_deeds(with.others, deeds)
        }
    }
}
