// Operators with their right sides as lists. An int or a truth value may begin with a range or a domain that a method is called on, and what is
// promoted with what was not: it is evaluated at each index anew.

ghost use Rattle.std.specs.Prelude.{refl};
ghost use Rattle.dpl_lowered.specs.Shapes.{grouped};

use crate::spine::{Spine, flat_node, is_flat, only};
use dpl_nodes::{
    BoolExpr, IntExpr, IntLink, IntOperator, PromotedInt, PromotedIntLink, PromotedTruth,
    PromotedTruthLink, TruthLink,
};
use dpl_tree::Arena;
use std::alloc::AllocError;

impl<'t> Spine<'t> for IntExpr<'t> {
    ghost use Rattle.dpl_nodes.specs.declared.tree.IntExpr.{size-IntExpr};
    ghost use Rattle.dpl_nodes.specs.Typed.{int_view, int_links_of};

    type Link = IntLink<'t>;

    ghost view = { λ m e. int_view e };

    ghost behind = { λ m e links. grouped e (int_links_of links) };

    ghost size = { size-IntExpr };

    ghost none_behind = { λ m e. refl };

    fn parts(&self) -> Option<(&'t IntExpr<'t>, IntLink<'t>)> {
        let (left, op, right) = match self {
            IntExpr::Sum(left, right) => (*left, IntOperator::Sum, *right),
            IntExpr::Difference(left, right) => (*left, IntOperator::Difference, *right),
            IntExpr::Product(left, right) => (*left, IntOperator::Product, *right),
            IntExpr::Quotient(left, right, at) => (*left, IntOperator::Quotient(*at), *right),
            IntExpr::Remainder(left, right, at) => (*left, IntOperator::Remainder(*at), *right),
            _ => return None,
        };
        Some((left, IntLink { op, right }))
    }

    fn whole(first: &'t IntExpr<'t>, links: &'t [IntLink<'t>]) -> IntExpr<'t> {
        IntExpr::Chain(first, links)
    }

    fn is_flat_within(&self) -> bool {
        match self {
            IntExpr::OfRange(_, r, _) => is_flat(*r),
            IntExpr::OfDomain(_, d) => is_flat(*d),
            _ => true,
        }
    }

    fn flat_within(&'t self, arena: Arena<'t>) -> Result<&'t IntExpr<'t>, AllocError> {
        match self {
            IntExpr::OfRange(method, r, at) => {
                let Ok(r) = flat_node(arena, *r) else {
                    return Err(AllocError);
                };
                arena.node(IntExpr::OfRange(*method, r, *at))
            }
            IntExpr::OfDomain(method, d) => {
                let Ok(d) = flat_node(arena, *d) else {
                    return Err(AllocError);
                };
                arena.node(IntExpr::OfDomain(*method, d))
            }
            _ => Ok(self),
        }
    }
}

impl<'t> Spine<'t> for PromotedInt<'t> {
    ghost use Rattle.dpl_nodes.specs.declared.tree.PromotedInt.{size-PromotedInt};
    ghost use Rattle.dpl_nodes.specs.Typed.{promoted_int, promoted_int_links_of};

    type Link = PromotedIntLink<'t>;

    ghost view = { promoted_int };

    ghost behind = { λ m e links. grouped e (promoted_int_links_of m links) };

    ghost size = { size-PromotedInt };

    ghost none_behind = { λ m e. refl };

    fn parts(&self) -> Option<(&'t PromotedInt<'t>, PromotedIntLink<'t>)> {
        match self {
            PromotedInt::Chain(left, links) => match only(links) {
                Some(link) => Some((*left, link)),
                None => None,
            },
            _ => None,
        }
    }

    fn whole(first: &'t PromotedInt<'t>, links: &'t [PromotedIntLink<'t>]) -> PromotedInt<'t> {
        PromotedInt::Chain(first, links)
    }

    fn is_flat_within(&self) -> bool {
        match self {
            PromotedInt::Scalar(e) => is_flat(*e),
            _ => true,
        }
    }

    fn flat_within(&'t self, arena: Arena<'t>) -> Result<&'t PromotedInt<'t>, AllocError> {
        match self {
            PromotedInt::Scalar(e) => {
                let Ok(e) = flat_node(arena, *e) else {
                    return Err(AllocError);
                };
                arena.node(PromotedInt::Scalar(e))
            }
            _ => Ok(self),
        }
    }
}

impl<'t> Spine<'t> for BoolExpr<'t> {
    ghost use Rattle.dpl_nodes.specs.declared.tree.BoolExpr.{size-BoolExpr};
    ghost use Rattle.dpl_nodes.specs.Typed.{truth_view, truth_links_of};

    type Link = TruthLink<'t>;

    ghost view = { λ m e. truth_view e };

    ghost behind = { λ m e links. grouped e (truth_links_of links) };

    ghost size = { size-BoolExpr };

    ghost none_behind = { λ m e. refl };

    fn parts(&self) -> Option<(&'t BoolExpr<'t>, TruthLink<'t>)> {
        match self {
            BoolExpr::Chain(left, links) => match only(links) {
                Some(link) => Some((*left, link)),
                None => None,
            },
            _ => None,
        }
    }

    fn whole(first: &'t BoolExpr<'t>, links: &'t [TruthLink<'t>]) -> BoolExpr<'t> {
        BoolExpr::Chain(first, links)
    }

    fn is_flat_within(&self) -> bool {
        match self {
            BoolExpr::Contains(r, _) => is_flat(*r),
            BoolExpr::HasIndex(d, _) => is_flat(*d),
            _ => true,
        }
    }

    fn flat_within(&'t self, arena: Arena<'t>) -> Result<&'t BoolExpr<'t>, AllocError> {
        match self {
            BoolExpr::Contains(r, i) => {
                let Ok(r) = flat_node(arena, *r) else {
                    return Err(AllocError);
                };
                arena.node(BoolExpr::Contains(r, *i))
            }
            BoolExpr::HasIndex(d, index) => {
                let Ok(d) = flat_node(arena, *d) else {
                    return Err(AllocError);
                };
                arena.node(BoolExpr::HasIndex(d, *index))
            }
            _ => Ok(self),
        }
    }
}

impl<'t> Spine<'t> for PromotedTruth<'t> {
    ghost use Rattle.dpl_nodes.specs.declared.tree.PromotedTruth.{size-PromotedTruth};
    ghost use Rattle.dpl_nodes.specs.Typed.{promoted_truth, promoted_truth_links_of};

    type Link = PromotedTruthLink<'t>;

    ghost view = { promoted_truth };

    ghost behind = { λ m e links. grouped e (promoted_truth_links_of m links) };

    ghost size = { size-PromotedTruth };

    ghost none_behind = { λ m e. refl };

    fn parts(&self) -> Option<(&'t PromotedTruth<'t>, PromotedTruthLink<'t>)> {
        match self {
            PromotedTruth::Chain(left, links) => match only(links) {
                Some(link) => Some((*left, link)),
                None => None,
            },
            _ => None,
        }
    }

    fn whole(
        first: &'t PromotedTruth<'t>,
        links: &'t [PromotedTruthLink<'t>],
    ) -> PromotedTruth<'t> {
        PromotedTruth::Chain(first, links)
    }

    fn is_flat_within(&self) -> bool {
        match self {
            PromotedTruth::Scalar(e) => is_flat(*e),
            _ => true,
        }
    }

    fn flat_within(&'t self, arena: Arena<'t>) -> Result<&'t PromotedTruth<'t>, AllocError> {
        match self {
            PromotedTruth::Scalar(e) => {
                let Ok(e) = flat_node(arena, *e) else {
                    return Err(AllocError);
                };
                arena.node(PromotedTruth::Scalar(e))
            }
            _ => Ok(self),
        }
    }
}
