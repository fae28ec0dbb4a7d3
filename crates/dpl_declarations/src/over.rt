// What arrays are over, and domains are created from: ranges, or one domain. An array over a domain's bare name changes with it.
// That name stands as it is between the brackets; what only looks like a name there doesn't.

ghost use Rattle.std.specs.Prelude.{◌≡◌, true, IfOk, OnOk, Some, option_map};
ghost use Rattle.dpl_language.specs.Phrases.{item_over, declared_over};
ghost use Rattle.dpl_language.specs.Tree.{DomainLiteral, Items as ItemsTree, One};
ghost use Rattle.dpl_lowered.specs.LoweredExpressions.{Once};
ghost use Rattle.dpl_lowered.specs.Shapes.{nowhere};
ghost use Rattle.dpl_memory.specs.Memory.{Variable};
ghost use Rattle.dpl_nodes.specs.Steps.{over_items as items_over};
ghost use Rattle.dpl_nodes.specs.Typed.{items_one, domain_view, ranges_items};
ghost use Rattle.dpl_rules.specs.Deeds.{items_deeds};
ghost use Rattle.dpl_rules.specs.Declarations.{base_over as base_over_of, over_domain, domain_in};
ghost use Rattle.dpl_rules.specs.Expressions.{item_parts};
ghost use Rattle.dpl_rules.specs.Operators.{over_verdict};
ghost use Rattle.dpl_rules.specs.Types.{is_domain as is_domain_type};
ghost use Rattle.dpl_rules.specs.Verdicts.{type_by};
ghost use Rattle.dpl_scopes.specs.Types.{of_type, origin_view};
ghost use Rattle.dpl_syntax.specs.declared.place.Place.{Place as PlaceNode};
ghost use Rattle.dpl_tree.specs.Declarations.{array_type_view};
ghost use Rattle.dpl_tree.specs.View.{item_view, items_view};
ghost use Rattle.dpl_deeds.specs.View.{Adds};
ghost use Rattle.dpl_typed.specs.declared.typed.Typed.{Typed as TypedNode};
ghost use Rattle.dpl_typed.specs.Lowered.{items_leaves};
ghost use Rattle.dpl_typed.specs.Stands.{StandsFor};
ghost use Rattle.dpl_typed.specs.Told.{Tells};
ghost use Rattle.dpl_typed.specs.Typed.{type_of_typed, types_of, typed_view};
ghost use Rattle.dpl_declarations.specs.Made.{between, IsOver};
ghost use Rattle.dpl_declarations.specs.Plain.{ArePlainItems};
ghost use Rattle.dpl_declarations.specs.Told.{over_told};

use dpl_brackets::domains::over;
use dpl_deeds::Deed;
use dpl_elaborator::expression::items;
use dpl_nodes::step::DeclaredOver;
use dpl_nodes::{DomainExpr, RangeExpr, RangesExpr};
use dpl_scopes::{Origin, Over, Scopes, ValueType};
use dpl_syntax::{Breach, Place};
use dpl_tree::{Arena, ArrayType, Item, Items};
use dpl_typed::{Made, Typed};
use dpl_types::found::is_domain;
use std::alloc::AllocError;

/// What an array is over, or a domain is created from: the domain of these.
///
/// # Errors
/// Out of memory; of what was told and done then nothing is said.
#[tactic(auto, using(dpl_types::proofs::Breaches::least_from_append))]
pub(crate) fn over_items<'t>(
    arena: Arena<'t>,
    scopes: &Scopes<'t>,
    from: Place,
    written: &Items<'_>,
    deeds: &mut Vec<Deed<'t>>,
    first: &mut Option<Breach>,
) -> Made<'t>
    ensures told { IfOk result (λ r. Tells (type_by (over_verdict from (item_parts scopes.now (items_view written.now))))
        (over_told scopes.now from (items_view written.now)) r first.old first.new) }
    ensures node { IfOk result (λ r. ArePlainItems scopes.now from (items_view written.now)
        → StandsFor r (λ m. DomainLiteral from (items_leaves scopes.now (items_view written.now)) nowhere)) }
    ensures deeds { OnOk result (Adds (items_deeds scopes.now (items_view written.now)) deeds.old.items deeds.new.items) }
{
    let Ok(parts) = items(arena, scopes, written, deeds, first) else {
        return Err(AllocError);
    };
    over(arena, from, &parts, first)
}

// The bare name that an item is.
fn bare_item<'t>(item: &Item<'t>) -> Option<&'t [u8]>
    ensures { option_map (λ x. x.now) result ≡ item_over (item_view item.now) }
{
    match item {
        Item::One(e) => match e.bare_name() {
            Some(name) => Some(name.text),
            None => None,
        },
        Item::Range(_) => None,
    }
}

/// The bare name over which an array is declared: it stands alone between the brackets.
pub(crate) fn bare_over<'t>(written: &Items<'t>) -> Option<&'t [u8]>
    ensures { option_map (λ x. x.now) result ≡ declared_over (items_view written.now) }
{
    match written.others {
        [] => bare_item(&written.first),
        [_, ..] => None,
    }
}

// The declaration that an array over some items is over: that of a bare domain name, or else the array's own.
fn base_over<'t>(scopes: &Scopes<'t>, own: Origin<'t>, written: &Items<'t>) -> Origin<'t>
    ensures { origin_view result ≡ base_over_of scopes.now (origin_view own.entry) (declared_over (items_view written.now)) }
{
    match bare_over(written) {
        None => own,
        Some(name) => match scopes.lookup(name) {
            None => own,
            Some(declared) => {
                if is_domain(declared.value_type) {
                    declared.origin
                } else {
                    own
                }
            }
        },
    }
}

/// An array's type, by the domain that it is over.
pub(crate) fn array_type<'t>(
    scopes: &Scopes<'t>,
    own: Origin<'t>,
    written: &ArrayType<'t>,
    domain: Option<Typed<'t>>,
) -> Option<ValueType<'t>>
    ensures { of_type result ≡ over_domain scopes.now (origin_view own.entry) (array_type_view written.now) (domain_in (types_of domain.entry)) }
{
    match domain {
        Some(Typed::Domain { rank, strided, .. }) => {
            let base = base_over(scopes, own, &written.over);
            let over = Over {
                rank,
                strided,
                base,
            };
            Some(ValueType::Array(written.kind, over))
        }
        _ => None,
    }
}

// Ranges: the name of one that isn't bare in the text is none between the brackets.
fn over_ranges<'t>(bare: bool, e: &'t RangesExpr<'t>) -> DeclaredOver<'t>
    ensures { items_over result ≡ between bare (ranges_items e.now) }
{
    if bare {
        return DeclaredOver::Ranges(e);
    }
    match e {
        RangesExpr::Line(range) => match range {
            RangeExpr::Local(_) => DeclaredOver::HiddenRange(range),
            RangeExpr::Slice(_, _, _) => DeclaredOver::Ranges(e),
            RangeExpr::Between(_, _, _, _, _) | RangeExpr::Dimension(_, _) => {
                DeclaredOver::Ranges(e)
            }
        },
        RangesExpr::Plane(_, _) | RangesExpr::Space(_, _, _) => DeclaredOver::Ranges(e),
    }
}

// A domain in the same way; with no posts in its list it is what they would stand behind.
fn over_domain<'t>(bare: bool, e: &'t DomainExpr<'t>) -> DeclaredOver<'t>
    ensures { items_over result ≡ between bare (items_one (One (domain_view e.now))) }
{
    if bare {
        return DeclaredOver::Domain(e);
    }
    match e {
        DomainExpr::Local(_) => DeclaredOver::HiddenDomain(e),
        DomainExpr::Posts(d, posts) => match posts {
            [] => over_domain(bare, d),
            [_, ..] => DeclaredOver::Domain(e),
        },
        DomainExpr::OfArray(_, _) | DomainExpr::Literal(_, _) | DomainExpr::Created(_, _) => {
            DeclaredOver::Domain(e)
        }
    }
}

// What stands between an array's brackets, by the node that was made of it.
fn over_node<'t>(bare: bool, node: &'t DomainExpr<'t>) -> Option<DeclaredOver<'t>>
    ensures { (from : PlaceNode) (is : ItemsTree Variable) → domain_view node.now ≡ DomainLiteral from is nowhere → IsOver (between bare is) result }
{
    match node {
        DomainExpr::Literal(_, ranges) => Some(over_ranges(bare, ranges)),
        DomainExpr::Created(_, base) => Some(over_domain(bare, base)),
        DomainExpr::Posts(d, posts) => match posts {
            [] => over_node(bare, d),
            [_, ..] => None,
        },
        DomainExpr::Local(_) | DomainExpr::OfArray(_, _) => None,
    }
}

/// What stands between an array's brackets, by the domain that was made of it.
pub(crate) fn over_made<'t>(bare: bool, domain: Option<Typed<'t>>) -> Option<DeclaredOver<'t>>
    ensures { (d : TypedNode) (from : PlaceNode) (is : ItemsTree Variable) → domain.entry ≡ Some d → typed_view Once d ≡ DomainLiteral from is nowhere
        → is_domain_type (type_of_typed d) ≡ true → IsOver (between bare is) result }
{
    let Some(made) = domain else {
        return None;
    };
    match made {
        Typed::Domain { node, .. } => over_node(bare, node),
        _ => None,
    }
}
