// What parts of a form are, where its rule is met: ints, ranges, an index.
// An index of more than three parts, and so many ranges, stand in for what no declaration has: nothing is promised of them.

ghost use Rattle.std.specs.Prelude.{◌≡◌, ◌<◌, true, ◌||◌, IfOk, Some, length, map};
ghost use Rattle.dpl_language.specs.Tree.{ExprTree, ItemTree, Items, Exprs};
ghost use Rattle.dpl_memory.specs.Memory.{Variable};
ghost use Rattle.dpl_nodes.specs.Typed.{range_item, index_items, index_exprs, ranges_items, items_one, exprs_one};
ghost use Rattle.dpl_rules.specs.Types.{has, is_int, is_range};
ghost use Rattle.dpl_typed.specs.declared.typed.Typed.TheVariants.{Int};
ghost use Rattle.dpl_typed.specs.Typed.{types_of, part_view};
ghost use Rattle.dpl_typed.specs.Stands.{IsArgument, IsItem, AreArguments, AreItems};
ghost use Rattle.dpl_brackets.specs.Parts.{all_are, are_index, is_tuple};

use dpl_nodes::{IndexExpr, IntExpr, RangeExpr, RangesExpr};
use dpl_tree::Arena;
use dpl_typed::{Part, Typed};
use std::alloc::AllocError;

/// The int that a part is.
pub fn int_of<'t>(part: Part<'t>) -> &'t IntExpr<'t>
    requires { has is_int (types_of part.found) ≡ true }
    ensures { part.entry.found ≡ Some (Int result) }
{
    match part.found {
        Some(Typed::Int(e)) => e,
        _ => unreachable!(),
    }
}

/// The range that a part is.
pub fn range_of<'t>(part: Part<'t>) -> &'t RangeExpr<'t>
    requires { has is_range (types_of part.found) ≡ true }
    ensures { (i : ItemTree Variable) → IsItem part.entry.found i → range_item result.now ≡ i }
{
    match part.found {
        Some(Typed::Range { node, .. }) => node,
        _ => unreachable!(),
    }
}

// An index of one part: an int, or a tuple.
fn index_of_one<'t>(arena: Arena<'t>, part: Part<'t>) -> Result<&'t IndexExpr<'t>, AllocError>
    requires { (has is_int (types_of part.found) || has is_tuple (types_of part.found)) ≡ true }
    ensures items { IfOk result (λ t. (i : ItemTree Variable) → IsItem part.entry.found i → index_items t.now ≡ items_one i) }
    ensures exprs { IfOk result (λ t. (e : ExprTree Variable) → IsArgument part.entry.found e → index_exprs t.now ≡ exprs_one e) }
{
    match part.found {
        Some(Typed::Int(e)) => arena.node(IndexExpr::Line(e)),
        Some(Typed::Tuple { slot, .. }) => arena.node(IndexExpr::Tuple(slot)),
        _ => unreachable!(),
    }
}

/// The index that parts are.
///
/// # Errors
/// Out of memory.
pub fn index_of<'t>(arena: Arena<'t>, parts: &[Part<'t>]) -> Result<&'t IndexExpr<'t>, AllocError>
    requires { are_index (map part_view parts.now) ≡ true }
    ensures items { IfOk result (λ t. (is : Items Variable) → length parts.now < 4 → AreItems parts.now is → index_items t.now ≡ is) }
    ensures exprs { IfOk result (λ t. (es : Exprs Variable) → length parts.now < 4 → AreArguments parts.now es → index_exprs t.now ≡ es) }
{
    match parts {
        [a] => index_of_one(arena, *a),
        [a, b] => arena.node(IndexExpr::Plane(int_of(*a), int_of(*b))),
        [a, b, c] => arena.node(IndexExpr::Space(int_of(*a), int_of(*b), int_of(*c))),
        _ => arena.node(IndexExpr::Tuple(0)),
    }
}

/// The ranges that parts are.
///
/// # Errors
/// Out of memory.
pub fn ranges_of<'t>(arena: Arena<'t>, parts: &[Part<'t>]) -> Result<&'t RangesExpr<'t>, AllocError>
    requires some { 0 < length parts.now }
    requires ranges { all_are is_range (map part_view parts.now) ≡ true }
    ensures { IfOk result (λ rs. (is : Items Variable) → length parts.now < 4 → AreItems parts.now is → ranges_items rs.now ≡ is) }
{
    match parts {
        [a, b] => arena.node(RangesExpr::Plane(range_of(*a), range_of(*b))),
        [a, b, c] => arena.node(RangesExpr::Space(range_of(*a), range_of(*b), range_of(*c))),
        [a, ..] => arena.node(RangesExpr::Line(range_of(*a))),
        [] => unreachable!(),
    }
}
