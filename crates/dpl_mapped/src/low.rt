// `X.low` and `X.lowBound` where a map starts: the least members of a domain, or an int as any other.
// What stands before that word is judged and made once.

ghost use Rattle.std.specs.Prelude.{◌≡◌, None, IfOk, OnOk, IfSome};
ghost use Rattle.dpl_language.specs.Names.{Text};
ghost use Rattle.dpl_language.specs.Tree.{ExprTree, Plainly, Postfixed as PostfixedTree, StartExpr as StartExprTree};
ghost use Rattle.dpl_memory.specs.Memory.{Variable};
ghost use Rattle.dpl_nodes.specs.Spots.{IsNear};
ghost use Rattle.dpl_nodes.specs.Steps.{start_view};
ghost use Rattle.dpl_nodes.specs.Typed.{dotted, domain_view};
ghost use Rattle.dpl_rules.specs.Breaches.{least_from};
ghost use Rattle.dpl_rules.specs.Declarations.{domain_in as domain_in_of};
ghost use Rattle.dpl_rules.specs.Expressions.{type_of, expr_breaches};
ghost use Rattle.dpl_rules.specs.Maps.{post_low, front_of, low_of};
ghost use Rattle.dpl_tree.specs.View.{post_view, posts_of};
ghost use Rattle.dpl_deeds.specs.View.{Adds};
ghost use Rattle.dpl_typed.specs.Lowered.{leaves_of};
ghost use Rattle.dpl_typed.specs.Stands.{StandsFor, IsArgument};
ghost use Rattle.dpl_typed.specs.Told.{Tells};
ghost use Rattle.dpl_typed.specs.Typed.{types_of};
ghost use Rattle.dpl_typed.specs.Where.{WhereSimple};
ghost use Rattle.dpl_mapped.specs.Told.{bound_word, low_view, low_last_view, dimensions_in, low_told, ended_told};
ghost use Rattle.dpl_mapped.specs.Told.{front_tree, front_standing, front_deeds};
ghost use Rattle.dpl_mapped.specs.Made.{IsEnded};

use crate::rank::{int_start, owed_rank};
use dpl_brackets::method;
use dpl_deeds::Deed;
use dpl_elaborator::expression::{base, posts};
use dpl_nodes::{DomainExpr, StartExpr};
use dpl_scopes::Scopes;
use dpl_syntax::{Breach, Code, Place};
use dpl_tree::{Arena, Expr, Method, Post, Word};
use dpl_typed::node::spot;
use dpl_typed::{Made, Part, Typed};
use dpl_types::note;
use dpl_types::place::{first_of, last_of};
use std::alloc::AllocError;

/// `low`, or `lowBound`, with its place.
#[derive(Clone, Copy)]
pub(crate) struct Low {
    pub at: Place,
    pub bound: bool,
}

/// A base, all that stands behind it, and that without the last, which is `low` or `lowBound`.
#[derive(Clone, Copy)]
pub(crate) struct LowLast<'a, 't> {
    pub base: &'a Expr<'t>,
    pub posts: &'a [Post<'t>],
    pub behind: &'a [Post<'t>],
    pub low: Low,
}

// A domain that was found: its rank, whether the text strides it, and its node.
#[derive(Clone, Copy)]
struct FoundDomain<'t> {
    rank: usize,
    strided: bool,
    node: &'t DomainExpr<'t>,
}

// `low` or `lowBound`, as what stands last behind a base.
fn low_end(post: &Post<'_>) -> Option<Low>
    ensures { (e : ExprTree Text) → post_low (post_view post.now) e ≡ low_view e result }
{
    match post {
        Post::Dotted(_, Method::Plain(at, Word::Low)) => Some(Low {
            at: *at,
            bound: false,
        }),
        Post::Dotted(_, Method::Plain(at, Word::LowBound)) => Some(Low {
            at: *at,
            bound: true,
        }),
        _ => None,
    }
}

/// A base with what stands behind it, where the last of that is `low` or `lowBound`.
pub(crate) fn ends_low<'a, 't>(base: &'a Expr<'t>, posts: &'a [Post<'t>]) -> Option<LowLast<'a, 't>>
    ensures low { (e : ExprTree Text) → low_of (PostfixedTree e (posts_of posts.now)) ≡ low_last_view e result }
    ensures front { IfSome result (λ l. posts_of l.behind.now ≡ front_of (posts_of posts.now)) }
    ensures base { IfSome result (λ l. l.base.now ≡ base.now) }
    ensures posts { IfSome result (λ l. l.posts.now ≡ posts.now) }
{
    let (last, behind) = posts.split_last()?;
    let low = low_end(last)?;
    Some(LowLast {
        base,
        posts,
        behind,
        low,
    })
}

// The word.
fn low_word(bound: bool) -> Word
    ensures { result ≡ bound_word bound }
{
    if bound { Word::LowBound } else { Word::Low }
}

// What stands before it: a base, and what is behind the base, if anything is. The base does what it does by all that is behind it.
#[tactic(auto, using(dpl_types::proofs::Breaches::least_from_append))]
fn front<'t>(
    arena: Arena<'t>,
    scopes: &Scopes<'t>,
    ends: LowLast<'_, '_>,
    deeds: &mut Vec<Deed<'t>>,
    first: &mut Option<Breach>,
) -> Made<'t>
    ensures told { IfOk result (λ r. Tells (type_of scopes.now (front_tree ends.entry)) (expr_breaches scopes.now (front_tree ends.entry)) r
        first.old first.new) }
    ensures node { IfOk result (λ r. WhereSimple scopes.now (front_standing ends.entry)
        (StandsFor r (λ m. leaves_of scopes.now m (front_standing ends.entry)))) }
    ensures deeds { OnOk result (Adds (front_deeds scopes.now ends.entry) deeds.old.items deeds.new.items) }
{
    let Ok(t) = base(arena, scopes, ends.base, ends.posts, deeds, first) else {
        return Err(AllocError);
    };
    if ends.behind.is_empty() {
        return Ok(t);
    }
    let last = last_of(ends.base);
    posts(arena, scopes, last, t, ends.behind, deeds, first)
}

// The domain that was found, if it is one.
fn domain_in<'t>(found: Option<Typed<'t>>) -> Option<FoundDomain<'t>>
    ensures ranks { dimensions_in result ≡ domain_in_of (types_of found.entry) }
    ensures node { IfSome result (λ d. (e : ExprTree Variable) → IsArgument found.entry e → domain_view d.node.now ≡ e) }
{
    let Some(t) = found else {
        return None;
    };
    match t {
        Typed::Domain {
            rank,
            strided,
            node,
        } => Some(FoundDomain {
            rank,
            strided,
            node,
        }),
        Typed::Int(_)
        | Typed::Truth(_)
        | Typed::Range { .. }
        | Typed::Array { .. }
        | Typed::Ints(_, _)
        | Typed::Truths(_, _)
        | Typed::Tuple { .. }
        | Typed::Locale
        | Typed::AllLocales
        | Typed::Cell(_) => None,
    }
}

// A domain X of the rank starts a map by `X.low`, and by `X.lowBound` where it is unstrided.
fn low_rank(
    rank: Option<usize>,
    word: Place,
    domain: FoundDomain<'_>,
    low: Low,
    first: &mut Option<Breach>,
)
    ensures { first.new ≡ least_from first.old (low_told rank word domain.entry.rank domain.entry.strided low) }
{
    if low.bound && domain.strided {
        note(first, low.at, Code::WrongType);
    } else {
        owed_rank(rank, domain.rank, word, first);
    }
}

// The least members of a domain.
#[tactic(auto, using(crate::proofs::Lows::least_word))]
fn least<'t>(
    arena: Arena<'t>,
    domain: &'t DomainExpr<'t>,
    low: Low,
) -> Result<StartExpr<'t>, AllocError>
    ensures { IfOk result (λ s. IsNear low.at
        → start_view s ≡ StartExprTree (dotted (domain_view domain.now) (Plainly low.at (bound_word low.bound)))) }
{
    let Ok(at) = spot(arena, low.at) else {
        return Err(AllocError);
    };
    Ok(StartExpr::Least(domain, at, low_word(low.bound)))
}

/// What ends in `low` or `lowBound`, as where a map starts: a domain's, or an int.
///
/// # Errors
/// Out of memory; of what was told and done then nothing is said.
pub(crate) fn low_start<'t>(
    arena: Arena<'t>,
    scopes: &Scopes<'t>,
    rank: Option<usize>,
    word: Place,
    ends: LowLast<'_, '_>,
    deeds: &mut Vec<Deed<'t>>,
    first: &mut Option<Breach>,
) -> Result<Option<StartExpr<'t>>, AllocError>
    ensures told { IfOk result (λ r. first.new ≡ least_from first.old (ended_told scopes.now rank word ends.entry)) }
    ensures node { IfOk result (λ r. first.new ≡ None → IsNear ends.entry.low.at → WhereSimple scopes.now (front_standing ends.entry)
        (IsEnded scopes.now (front_standing ends.entry) ends.entry.low r)) }
    ensures deeds { OnOk result (Adds (front_deeds scopes.now ends.entry) deeds.old.items deeds.new.items) }
{
    let Ok(of) = front(arena, scopes, ends, deeds, first) else {
        return Err(AllocError);
    };
    match domain_in(of) {
        Some(domain) => {
            low_rank(rank, word, domain, ends.low, first);
            match least(arena, domain.node, ends.low) {
                Ok(start) => Ok(Some(start)),
                Err(_) => Err(AllocError),
            }
        }
        None => {
            let called = low_word(ends.low.bound);
            let Ok(found) = method::word(arena, ends.low.at, called, of, first) else {
                return Err(AllocError);
            };
            let part = Part {
                at: first_of(ends.base),
                found,
            };
            int_start(arena, rank, word, part, first)
        }
    }
}
