// What is made link by link is a nest to the left: its spine. Here it becomes what the spine begins with, and the list of its links: so whoever
// walks it goes along a list, and calls himself for no link.

ghost use Rattle.std.specs.Prelude.{◌≡◌, ◌<◌, ℕ, List, [], ◌∷◌, IfOk, IfSome};
ghost use Rattle.dpl_language.specs.Tree.{ExprTree};
ghost use Rattle.dpl_lowered.specs.LoweredExpressions.{Times};
ghost use Rattle.dpl_memory.specs.Memory.{Variable};

use dpl_tree::Arena;
use std::alloc::AllocError;

/// Nodes that are made link by link: a chain operator by operator, and posts one after the other.
pub(crate) trait Spine<'t>: Copy + 't {
    /// An operator with its right side, or a post.
    type Link: Copy;

    // The tree of a node, a tree with links behind it, and how large a node is.
    ghost view: { Times → Self → ExprTree Variable };

    ghost behind: { Times → ExprTree Variable → List Self.Link → ExprTree Variable };

    ghost size: { Self → ℕ };

    /// A node before its last link, and that link, where it is no list of links.
    fn parts(&self) -> Option<(&'t Self, Self::Link)>
        ensures same { IfSome result (λ p. (m : Times) (more : List Self.Link) → behind m (view m p.0.now) (p.1 ∷ more) ≡ behind m (view m self.now) more) }
        ensures smaller { IfSome result (λ p. size p.0.now < size self.now) };

    /// What links make of a node.
    fn whole(first: &'t Self, links: &'t [Self::Link]) -> Self
        ensures { (m : Times) → view m result ≡ behind m (view m first.now) links.now };

    /// Whether there is nothing to make a list of in what has no links.
    fn is_flat_within(&self) -> bool;

    /// What has no links, with lists in it: a new node, where there is something to make a list of.
    ///
    /// # Errors
    /// Out of memory.
    fn flat_within(&'t self, arena: Arena<'t>) -> Result<&'t Self, AllocError>
        ensures { IfOk result (λ r. (m : Times) → view m r.now ≡ view m self.now) };

    ghost none_behind: { (m : Times) (e : ExprTree Variable) → behind m e [] ≡ e };
}

/// The link of a list of one.
pub(crate) fn only<L: Copy>(links: &[L]) -> Option<L>
    ensures { IfSome result (λ l. links.now ≡ l ∷ []) }
{
    match links {
        [link] => Some(*link),
        _ => None,
    }
}

/// Whether a node stays as it is: it has one link at most, and there is nothing to make a list of in what it begins with.
pub(crate) fn is_flat<'t, S: Spine<'t>>(e: &S) -> bool {
    match e.parts() {
        Some((left, _)) => match left.parts() {
            Some(_) => false,
            None => left.is_flat_within(),
        },
        None => e.is_flat_within(),
    }
}

// What a spine begins with, with lists in it.
fn flat_first<'t, S: Spine<'t>>(arena: Arena<'t>, first: &'t S) -> Result<&'t S, AllocError>
    ensures { IfOk result (λ r. (m : Times) → S.view m r.now ≡ S.view m first.now) }
{
    if first.is_flat_within() {
        return Ok(first);
    }
    first.flat_within(arena)
}

/// The same node, with its links in a list where there are two or more: with one it stays as it is, and takes no memory.
///
/// # Errors
/// Out of memory.
pub(crate) fn flat_node<'t, S: Spine<'t>>(arena: Arena<'t>, e: &'t S) -> Result<&'t S, AllocError>
where
    S::Link: 't,
    ensures { IfOk result (λ r. (m : Times) → S.view m r.now ≡ S.view m e.now) }
{
    if is_flat(e) {
        return Ok(e);
    }
    if e.parts().is_none() {
        return e.flat_within(arena);
    }
    let mut links = Vec::new(arena.alloc());
    let mut first = e;
    while let Some((left, link)) = first.parts() {
        links.push(link)?;
        first = left;
    }
    links.reverse();
    let first = flat_first(arena, first)?;
    let links = arena.list(links)?;
    arena.node(S::whole(first, links))
}
