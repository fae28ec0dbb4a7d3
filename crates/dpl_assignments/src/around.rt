// What a statement has in sight besides names: the reduce variables of the forall around it, and whether a task runs it.
// A loop's intents name them.

ghost use Rattle.std.specs.Prelude.{◌≡◌, ◌∷◌, [], option_map};
ghost use Rattle.dpl_tree.specs.Statements.{intent_view};
ghost use Rattle.dpl_rules.specs.Sights.{reduces as reduces_of, is_reduced as is_reduced_of};
ghost use Rattle.dpl_rules.specs.Assignments.{may_reduce_in};
ghost use Rattle.dpl_language.specs.Phrases.{reduce_intents};
ghost use Rattle.dpl_scopes.specs.View.{declared_view};
ghost use Rattle.dpl_assignments.specs.Around.{intents_in, reducing_view};

use dpl_scopes::Declared;
use dpl_tree::{Intent, NextIntent, With};

/// The forall around a statement, by how many scopes are open around it and by its intents.
#[derive(Clone, Copy)]
pub struct Reducing<'t> {
    pub depth: usize,
    pub with: Option<With<'t>>,
}

// Whether an intent makes a name a reduce variable.
fn is_reduce_of(intent: &Intent<'_>, name: &[u8]) -> bool
    ensures { result ≡ reduces_of (reduce_intents (intent_view intent.now ∷ [])) name.now }
{
    match intent {
        Intent::Reduce(_, _, _, variable) => variable.text == name,
        Intent::Ref(_, _) => false,
    }
}

// Whether further intents do.
#[tactic(auto, using(crate::proofs::Reduced::reduces_next))]
fn is_reduced_by_others(others: &[NextIntent<'_>], name: &[u8]) -> bool
    ensures { result ≡ reduces_of (reduce_intents (intents_in others.now)) name.now }
{
    for next in others {
        if is_reduce_of(&next.intent, name) {
            return true;
        }
    }
    false
}

// Whether a list of intents does.
#[tactic(auto, using(crate::proofs::Reduced::reduces_next, crate::proofs::Reduced::parts_next))]
fn is_reduced_by(with: &Option<With<'_>>, name: &[u8]) -> bool
    ensures { result ≡ reduces_of (reducing_view (record { depth = 0; with = with.now })).variables name.now }
{
    match with {
        None => false,
        Some(with) => is_reduce_of(&with.first, name) || is_reduced_by_others(with.others, name),
    }
}

impl<'t> Reducing<'t> {
    /// Whether a declaration is a reduce variable of the forall.
    pub fn is_reduced(&self, declared: &Declared<'_>) -> bool
        ensures { result ≡ is_reduced_of (reducing_view self.now) (declared_view declared.now) }
    {
        declared.origin.depth <= self.depth && is_reduced_by(&self.with, declared.origin.name)
    }
}

/// Whether `reduce=` may stand behind a name, in the forall around it if there is one.
pub fn may_reduce(around: &Option<Reducing<'_>>, declared: &Option<Declared<'_>>) -> bool
    ensures { result ≡ may_reduce_in (option_map reducing_view around.now) (option_map declared_view declared.now) }
{
    match around {
        None => false,
        Some(reducing) => match declared {
            None => false,
            Some(declared) => reducing.is_reduced(declared),
        },
    }
}
