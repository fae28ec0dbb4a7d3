// What is made of a domain by one post.

ghost use Rattle.std.specs.Prelude.{◌≡◌, true, IfOk, Some};
ghost use Rattle.dpl_language.specs.Tree.{Postfixed, Post, NoPosts};
ghost use Rattle.dpl_nodes.specs.Typed.{domain_view, domain_post};
ghost use Rattle.dpl_rules.specs.Types.{Domain as DomainOf};
ghost use Rattle.dpl_typed.specs.Typed.{types_of, is_rank};
ghost use Rattle.dpl_typed.specs.Stands.{StandsFor};

use dpl_nodes::{DomainExpr, DomainPost};
use dpl_tree::Arena;
use dpl_typed::Made;
use dpl_typed::node::domain;
use std::alloc::AllocError;

/// A domain that a post makes of another one, of its rank.
///
/// # Errors
/// Out of memory.
pub(crate) fn posted<'t>(
    arena: Arena<'t>,
    rank: usize,
    strided: bool,
    base: &'t DomainExpr<'t>,
    post: DomainPost<'t>,
) -> Made<'t>
    ensures typed { IfOk result (λ r. types_of r ≡ Some (DomainOf rank strided)) }
    ensures node { IfOk result (λ r. is_rank rank ≡ true
        → StandsFor r (λ m. Postfixed (domain_view base.now) (Post (domain_post post.entry) NoPosts))) }
{
    match arena.node([post]) {
        Ok(posts) => domain(arena, rank, strided, DomainExpr::Posts(base, posts)),
        Err(_) => Err(AllocError),
    }
}
