// Chains and posts as lists, in whatever is found.

ghost use Rattle.std.specs.Prelude.{◌≡◌, IfOk, Some};
ghost use Rattle.dpl_language.specs.Tree.{ExprTree};
ghost use Rattle.dpl_lowered.specs.LoweredExpressions.{Times};
ghost use Rattle.dpl_memory.specs.Memory.{Variable};
ghost use Rattle.dpl_typed.specs.Typed.{types_of};
ghost use Rattle.dpl_typed.specs.Stands.{StandsFor};

use crate::spine::flat_node;
use crate::typed::{Made, Typed};
use dpl_tree::Arena;
use std::alloc::AllocError;

// What is promoted; anything else stays as it is.
fn flat_promoted<'t>(arena: Arena<'t>, t: Typed<'t>) -> Made<'t>
    ensures typed { IfOk result (λ r. types_of r ≡ types_of (Some t.entry)) }
    ensures node { IfOk result (λ r. (f : Times → ExprTree Variable) → StandsFor (Some t.entry) f → StandsFor r f) }
{
    match t {
        Typed::Ints(over, e) => match flat_node(arena, e) {
            Ok(e) => Ok(Some(Typed::Ints(over, e))),
            Err(_) => Err(AllocError),
        },
        Typed::Truths(over, e) => match flat_node(arena, e) {
            Ok(e) => Ok(Some(Typed::Truths(over, e))),
            Err(_) => Err(AllocError),
        },
        _ => Ok(Some(t)),
    }
}

/// The same expression, in which a chain of two operators or more is a list, and so are two posts or more of a range or a domain.
///
/// # Errors
/// Out of memory.
pub fn flat<'t>(arena: Arena<'t>, found: Option<Typed<'t>>) -> Made<'t>
    ensures typed { IfOk result (λ r. types_of r ≡ types_of found.entry) }
    ensures node { IfOk result (λ r. (f : Times → ExprTree Variable) → StandsFor found.entry f → StandsFor r f) }
{
    let Some(t) = found else {
        return Ok(None);
    };
    match t {
        Typed::Int(e) => match flat_node(arena, e) {
            Ok(e) => Ok(Some(Typed::Int(e))),
            Err(_) => Err(AllocError),
        },
        Typed::Truth(e) => match flat_node(arena, e) {
            Ok(e) => Ok(Some(Typed::Truth(e))),
            Err(_) => Err(AllocError),
        },
        Typed::Range { strided, node } => match flat_node(arena, node) {
            Ok(node) => Ok(Some(Typed::Range { strided, node })),
            Err(_) => Err(AllocError),
        },
        Typed::Domain {
            rank,
            strided,
            node,
        } => match flat_node(arena, node) {
            Ok(node) => Ok(Some(Typed::Domain {
                rank,
                strided,
                node,
            })),
            Err(_) => Err(AllocError),
        },
        _ => flat_promoted(arena, t),
    }
}
