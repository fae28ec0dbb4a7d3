// A forall as the rules on its body see it: its variables, its reduce variables, and how many scopes are open around it.
// specs/View.antt gives what it stands for.

ghost use Rattle.std.specs.Prelude.{◌≡◌, map};
ghost use Rattle.dpl_tree.specs.Declarations.{optional};
ghost use Rattle.dpl_tree.specs.Statements.{intent_view, next_intent_view, with_view, next_name_view};
ghost use Rattle.dpl_language.specs.Tree.{SetAdd, SetMultiply};
ghost use Rattle.dpl_language.specs.Phrases.{intents_of};
ghost use Rattle.dpl_rules.specs.Types.{has};
ghost use Rattle.dpl_rules.specs.Sights.{is_reduced as is_reduced_of};
ghost use Rattle.dpl_rules.specs.Bodies.{is_variable as is_variable_of, is_variable_at as is_variable_at_of, are_variables as are_variables_of};
ghost use Rattle.dpl_rules.specs.Bodies.{is_own as is_own_of, is_outer as is_outer_of, is_outer_array as is_outer_array_of};
ghost use Rattle.dpl_rules.specs.Bodies.{goes_on as goes_on_of, goes_on_in as goes_on_in_of};
ghost use Rattle.dpl_rules.specs.Bodies.{is_scalar_or_domain as is_scalar_or_domain_of, may_change as may_change_of};
ghost use Rattle.dpl_scopes.specs.View.{declared_view};
ghost use Rattle.dpl_scopes.specs.Types.{of_type};
ghost use Rattle.dpl_deeds.specs.View.{index_view};
ghost use Rattle.dpl_bodies.specs.View.{scope_view, next_names};
ghost use Rattle.dpl_bodies.specs.Intents.{operator_of, intent_operator as intent_operator_of, next_operator as next_operator_of};

use dpl_deeds::IndexPart;
use dpl_deeds::name::is_array;
use dpl_scopes::{Declared, ValueType};
use dpl_tree::{Assign, Intent, Name, NextIntent, NextName, Op, Variables, With};

/// A forall, as the rules on its body see it.
#[derive(Clone, Copy)]
pub struct ForallScope<'t> {
    /// How many scopes are open around it.
    pub depth: usize,
    pub variables: Variables<'t>,
    /// Its intents, of which those that reduce name its reduce variables.
    pub with: Option<With<'t>>,
}

// Whether `+=` goes on with an operator.
fn is_sum(op: Op) -> bool
    ensures { result ≡ goes_on_of SetAdd op }
{
    match op {
        Op::Sum => true,
        Op::Product
        | Op::AllOf
        | Op::AnyOf
        | Op::BitAnd
        | Op::BitOr
        | Op::BitXor
        | Op::Least
        | Op::Greatest => false,
    }
}

// Whether `*=` goes on with an operator.
fn is_product(op: Op) -> bool
    ensures { result ≡ goes_on_of SetMultiply op }
{
    match op {
        Op::Product => true,
        Op::Sum
        | Op::AllOf
        | Op::AnyOf
        | Op::BitAnd
        | Op::BitOr
        | Op::BitXor
        | Op::Least
        | Op::Greatest => false,
    }
}

// Whether an assignment goes on with an operator: `reduce=` with every one.
fn goes_on(sign: Assign, op: Op) -> bool
    ensures { result ≡ goes_on_of sign op }
{
    match sign {
        Assign::SetReduce => true,
        Assign::SetAdd => is_sum(op),
        Assign::SetMultiply => is_product(op),
        Assign::Set | Assign::SetSubtract | Assign::SetDivide | Assign::SetRemainder => false,
    }
}

// Whether there is a type, and it is that of a scalar, a locale or a domain.
fn is_scalar_or_domain(found: Option<ValueType<'_>>) -> bool
    ensures { result ≡ has is_scalar_or_domain_of (of_type found.entry) }
{
    match found {
        None => false,
        Some(t) => t.is_any_scalar() || t.is_locale() || t.is_domain(),
    }
}

// The operator by which an intent reduces a name.
fn intent_operator(intent: &Intent<'_>, name: &[u8]) -> Option<Op>
    ensures { result ≡ intent_operator_of (intent_view intent.now) name.now }
{
    match intent {
        Intent::Reduce(_, op, _, variable) => if name == variable.text {
            Some(*op)
        } else {
            None
        },
        Intent::Ref(_, _) => None,
    }
}

// The operator by which the first of further intents reduces a name.
#[tactic(auto, using(crate::proofs::Intents::next_operator_first))]
fn next_operator(others: &[NextIntent<'_>], name: &[u8]) -> Option<Op>
    ensures { result ≡ next_operator_of (map next_intent_view others.now) name.now }
{
    for next in others {
        if let Some(op) = intent_operator(&next.intent, name) {
            return Some(op);
        }
    }
    None
}

// The operator by which the first intent that names a name reduces it.
#[tactic(auto, using(crate::proofs::Intents::operator_of_first))]
fn operator(with: &Option<With<'_>>, name: &[u8]) -> Option<Op>
    ensures { result ≡ operator_of (intents_of (optional with_view with.now)) name.now }
{
    match with {
        None => None,
        Some(with) => match intent_operator(&with.first, name) {
            Some(op) => Some(op),
            None => next_operator(with.others, name),
        },
    }
}

impl<'t> ForallScope<'t> {
    /// Whether a declaration stands outside of the forall; its variables aren't among these.
    pub fn is_outer(&self, declared: Declared<'_>) -> bool
        ensures { result ≡ is_outer_of (scope_view self.now) (declared_view declared.entry) }
    {
        declared.origin.depth <= self.depth
    }

    /// Whether a declaration stands outside of the forall, and is an array.
    pub fn is_outer_array(&self, declared: Declared<'_>) -> bool
        ensures { result ≡ is_outer_array_of (scope_view self.now) (declared_view declared.entry) }
    {
        self.is_outer(declared) && is_array(declared.value_type)
    }

    // Whether a declaration is the forall's variable of a name: it stands in the scope that the forall opens.
    fn is_variable(&self, name: &Name<'_>, declared: Declared<'_>) -> bool
        ensures { result ≡ is_variable_of (scope_view self.now) name.now.text.now (declared_view declared.entry) }
    {
        declared.origin.depth > self.depth
            && declared.origin.depth - self.depth == 1
            && name.text == declared.origin.name
    }

    // Whether an index is the forall's variable of a name.
    fn is_variable_at(&self, name: &Name<'_>, part: IndexPart<'_>) -> bool
        ensures { result ≡ is_variable_at_of (scope_view self.now) name.now.text.now (index_view part.entry) }
    {
        match part {
            IndexPart::AtName(declared) => self.is_variable(name, declared),
            IndexPart::Ahead(_, _) | IndexPart::Behind(_, _) | IndexPart::Elsewhere => false,
        }
    }

    // Whether indices are the forall's variables of these names, in order.
    fn are_variables(&self, names: &[NextName<'_>], parts: &[IndexPart<'_>]) -> bool
        ensures { result ≡ are_variables_of (scope_view self.now) (next_names (map next_name_view names.now)) (map index_view parts.now) }
    {
        match names.split_first() {
            None => parts.is_empty(),
            Some((next, names)) => match parts.split_first() {
                None => false,
                Some((part, parts)) => self.is_variable_at(&next.name, *part)
                    && self.are_variables(names, parts),
            },
        }
    }

    /// Whether an index list is the forall's own: its variables in order, or its tuple name.
    pub fn is_own(&self, parts: &[IndexPart<'_>]) -> bool
        ensures { result ≡ is_own_of (scope_view self.now) (map index_view parts.now) }
    {
        match parts.split_first() {
            None => false,
            Some((part, parts)) => match self.variables {
                Variables::One(name) => self.is_variable_at(&name, *part) && parts.is_empty(),
                Variables::Many { first, others, .. } => self.is_variable_at(&first, *part)
                    && self.are_variables(others, parts),
            },
        }
    }

    /// Whether a declaration is that of a reduce variable of the forall.
    #[tactic(auto, using(crate::proofs::Intents::reduces_operator))]
    pub fn is_reduced(&self, declared: Declared<'_>) -> bool
        ensures { result ≡ is_reduced_of (scope_view self.now).reducing (declared_view declared.entry) }
    {
        self.is_outer(declared) && operator(&self.with, declared.origin.name).is_some()
    }

    // Whether an assignment goes on with the operator of the intent that names the name.
    #[tactic(auto, using(crate::proofs::Intents::goes_on_in_operator))]
    fn goes_on_in(&self, declared: Declared<'_>, sign: Assign) -> bool
        ensures { result ≡ goes_on_in_of (scope_view self.now).reducing.variables (declared_view declared.entry).origin.name sign }
    {
        match operator(&self.with, declared.origin.name) {
            None => false,
            Some(op) => goes_on(sign, op),
        }
    }

    /// Whether a name may be so assigned: it isn't outer, or is no scalar, locale or domain, or the assignment goes on with
    /// its intent.
    pub fn may_change(&self, declared: Declared<'_>, sign: Assign) -> bool
        ensures { result ≡ may_change_of (scope_view self.now) (declared_view declared.entry) sign }
    {
        !self.is_outer(declared)
            || !is_scalar_or_domain(declared.value_type)
            || self.goes_on_in(declared, sign)
    }
}
