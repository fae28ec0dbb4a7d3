// Nodes that hold a list, made of their parts.
// Each clause says what the node stands for, by what its parts stand for.

ghost use Rattle.std.specs.Prelude.{◌≡◌, IfOk};
ghost use Rattle.dpl_language.specs.Tree.{Chain as ChainTree, Postfixed as PostfixedTree, FirstItem, FirstExpr, Block as BlockTree, BlockBody};
ghost use Rattle.dpl_tree.specs.View.{expr_view, item_view, items_view, exprs_view, links_of, posts_of, more_items_of, more_exprs_of};
ghost use Rattle.dpl_tree.specs.Statements.{stmt_view, body_view, stmts_of};

use crate::arena::Arena;
use crate::expression::{
    Chain, Expr, Exprs, Item, Items, Link, NextExpr, NextItem, Post, Postfixed,
};
use crate::statement::{Block, Body, Stmt};
use dpl_syntax::Place;
use std::alloc::AllocError;

impl<'t> Expr<'t> {
    /// The first operand and the others, grouped to the left.
    ///
    /// # Errors
    /// Out of memory for the node.
    pub fn chain(
        arena: Arena<'t>,
        first: &'t Expr<'t>,
        links: &'t [Link<'t>],
    ) -> Result<&'t Expr<'t>, AllocError>
        ensures { IfOk result (λ e. expr_view e.now ≡ ChainTree (expr_view first.now) (links_of links.now)) }
    {
        let chain = arena.node(Chain { first, links })?;
        Ok(arena.node(Expr::Chain(chain))?)
    }

    /// A base and what stands behind it.
    ///
    /// # Errors
    /// Out of memory for the node.
    pub fn postfixed(
        arena: Arena<'t>,
        base: &'t Expr<'t>,
        posts: &'t [Post<'t>],
    ) -> Result<&'t Expr<'t>, AllocError>
        ensures { IfOk result (λ e. expr_view e.now ≡ PostfixedTree (expr_view base.now) (posts_of posts.now)) }
    {
        let postfixed = arena.node(Postfixed { base, posts })?;
        Ok(arena.node(Expr::Postfixed(postfixed))?)
    }
}

impl<'t> Items<'t> {
    /// The first item and the others.
    pub fn new(first: Item<'t>, others: &'t [NextItem<'t>]) -> Items<'t>
        ensures { items_view result ≡ FirstItem (item_view first.entry) (more_items_of others.now) }
    {
        Items { first, others }
    }
}

impl<'t> Exprs<'t> {
    /// The first expression and the others.
    pub fn new(first: &'t Expr<'t>, others: &'t [NextExpr<'t>]) -> Exprs<'t>
        ensures { exprs_view result ≡ FirstExpr (expr_view first.now) (more_exprs_of others.now) }
    {
        Exprs { first, others }
    }
}

impl<'t> Stmt<'t> {
    /// A block of statements.
    ///
    /// # Errors
    /// Out of memory for the node.
    pub fn block(
        arena: Arena<'t>,
        from: Place,
        stmts: &'t [Stmt<'t>],
        upto: Place,
    ) -> Result<Stmt<'t>, AllocError>
        ensures { IfOk result (λ s. stmt_view s ≡ BlockTree from (stmts_of stmts.now) upto) }
    {
        Ok(Stmt::Block(arena.node(Block { from, stmts, upto })?))
    }
}

impl<'t> Body<'t> {
    /// A block of statements as a body.
    pub fn block(from: Place, stmts: &'t [Stmt<'t>], upto: Place) -> Body<'t>
        ensures { body_view result ≡ BlockBody from (stmts_of stmts.now) upto }
    {
        Body::Block(Block { from, stmts, upto })
    }
}
