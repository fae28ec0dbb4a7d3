// The tokens at which breaches are told: the first of an expression, and the last of what stands before a bracket.
// Each goes down one side of the tree.

ghost use Rattle.std.specs.Prelude.{◌≡◌};
ghost use Rattle.dpl_tree.specs.View.{expr_view, item_view, post_view, method_view, links_of, posts_of};
ghost use Rattle.dpl_rules.specs.Places.{first_of as first_of_expr, first_of_item as first_of_item_tree, last_of_method as last_of_method_tree};
ghost use Rattle.dpl_rules.specs.Places.{last_of_post as last_of_post_tree, last_of_posts as last_of_posts_tree, last_of_links as last_of_links_tree};
ghost use Rattle.dpl_rules.specs.Places.{last_of as last_of_expr};

use dpl_syntax::Place;
use dpl_tree::{Expr, Item, Link, Method, Post};

/// The first token of an expression.
#[tactic(auto, using(dpl_tree::proofs::Fields::chain_view_fields, dpl_tree::proofs::Fields::expr_view_postfixed))]
pub fn first_of(e: &Expr<'_>) -> Place
    ensures { result ≡ first_of_expr (expr_view e.now) }
{
    match e {
        Expr::Number(at, _)
        | Expr::Truth(at, _)
        | Expr::Locales(at)
        | Expr::LocaleCount(at)
        | Expr::Here(at) => *at,
        Expr::Named(name) => name.at,
        Expr::Grouped { from, .. } | Expr::Domain { from, .. } => *from,
        Expr::Prefixed { at, .. } => *at,
        Expr::Reduced(reduction) => reduction.at,
        Expr::Chain(chain) => first_of(chain.first),
        Expr::Postfixed(postfixed) => first_of(postfixed.base),
    }
}

/// The first token of an item.
pub fn first_of_item(item: &Item<'_>) -> Place
    ensures { result ≡ first_of_item_tree (item_view item.now) }
{
    match item {
        Item::One(e) => first_of(e),
        Item::Range(range) => first_of(range.low),
    }
}

// The last token of a method.
fn last_of_method(method: &Method<'_>) -> Place
    ensures { result ≡ last_of_method_tree (method_view method.now) }
{
    match method {
        Method::Plain(at, _) => *at,
        Method::Dim(dim) => dim.upto,
        Method::Contains(contains) => contains.upto,
        Method::Expand(expand) => expand.upto,
        Method::CellRead { upto, .. } => *upto,
    }
}

/// The last token of what stands behind a base.
pub fn last_of_post(post: &Post<'_>) -> Place
    ensures { result ≡ last_of_post_tree (post_view post.now) }
{
    match post {
        Post::Brackets { upto, .. } | Post::Rounds { upto, .. } => *upto,
        Post::Dotted(_, method) => last_of_method(method),
    }
}

/// The last token of what stands behind a base; that of the base where nothing does.
pub fn last_of_posts(last: Place, posts: &[Post<'_>]) -> Place
    ensures { result ≡ last_of_posts_tree last (posts_of posts.now) }
{
    let mut last = last;
    for post in posts {
        last = last_of_post(post);
    }
    last
}

// The last token of the operands of a chain behind the first, whose last token is given.
#[cycle(last)]
fn last_of_links(last: Place, links: &[Link<'_>]) -> Place
    ensures { result ≡ last_of_links_tree last (links_of links.now) }
{
    let mut last = last;
    for link in links {
        last = last_of(link.right);
    }
    last
}

/// The last token of an expression.
#[cycle(last)]
#[tactic(auto, using(dpl_tree::proofs::Fields::chain_view_fields, dpl_tree::proofs::Fields::expr_view_postfixed))]
pub fn last_of(e: &Expr<'_>) -> Place
    ensures { result ≡ last_of_expr (expr_view e.now) }
{
    match e {
        Expr::Number(at, _)
        | Expr::Truth(at, _)
        | Expr::Locales(at)
        | Expr::LocaleCount(at)
        | Expr::Here(at) => *at,
        Expr::Named(name) => name.at,
        Expr::Grouped { upto, .. } | Expr::Domain { upto, .. } => *upto,
        Expr::Prefixed { operand, .. } => last_of(operand),
        Expr::Reduced(reduction) => last_of(reduction.operand),
        Expr::Chain(chain) => last_of_links(last_of(chain.first), chain.links),
        Expr::Postfixed(postfixed) => last_of_posts(last_of(postfixed.base), postfixed.posts),
    }
}
