// Slices of ranges, and what is made of domains, as lists of cuts and posts. A range may be a dimension of a domain.

ghost use Rattle.std.specs.Prelude.{refl};
ghost use Rattle.dpl_lowered.specs.Shapes.{stacked_on};

use crate::spine::{Spine, flat_node, is_flat, only};
use dpl_nodes::{DomainExpr, DomainPost, RangeCut, RangeExpr};
use dpl_tree::Arena;
use std::alloc::AllocError;

impl<'t> Spine<'t> for DomainExpr<'t> {
    ghost use Rattle.dpl_nodes.specs.declared.tree.DomainExpr.{size-DomainExpr};
    ghost use Rattle.dpl_nodes.specs.Typed.{domain_view, domain_posts_of};

    type Link = DomainPost<'t>;

    ghost view = { λ m d. domain_view d };

    ghost behind = { λ m e posts. stacked_on e (domain_posts_of posts) };

    ghost size = { size-DomainExpr };

    ghost none_behind = { λ m e. refl };

    fn parts(&self) -> Option<(&'t DomainExpr<'t>, DomainPost<'t>)> {
        match self {
            DomainExpr::Posts(left, posts) => match only(posts) {
                Some(post) => Some((*left, post)),
                None => None,
            },
            _ => None,
        }
    }

    fn whole(first: &'t DomainExpr<'t>, links: &'t [DomainPost<'t>]) -> DomainExpr<'t> {
        DomainExpr::Posts(first, links)
    }

    fn is_flat_within(&self) -> bool {
        true
    }

    fn flat_within(&'t self, arena: Arena<'t>) -> Result<&'t DomainExpr<'t>, AllocError> {
        Ok(self)
    }
}

impl<'t> Spine<'t> for RangeExpr<'t> {
    ghost use Rattle.dpl_nodes.specs.declared.tree.RangeExpr.{size-RangeExpr};
    ghost use Rattle.dpl_nodes.specs.Typed.{range_view, range_cuts_of};

    type Link = RangeCut<'t>;

    ghost view = { λ m r. range_view r };

    ghost behind = { λ m e cuts. stacked_on e (range_cuts_of cuts) };

    ghost size = { size-RangeExpr };

    ghost none_behind = { λ m e. refl };

    fn parts(&self) -> Option<(&'t RangeExpr<'t>, RangeCut<'t>)> {
        match self {
            RangeExpr::Slice(left, by, cuts) => match cuts {
                [] => Some((*left, RangeCut { by: *by })),
                [_, ..] => None,
            },
            _ => None,
        }
    }

    fn whole(first: &'t RangeExpr<'t>, links: &'t [RangeCut<'t>]) -> RangeExpr<'t> {
        match links {
            [] => *first,
            [cut, others @ ..] => RangeExpr::Slice(first, cut.by, others),
        }
    }

    fn is_flat_within(&self) -> bool {
        match self {
            RangeExpr::Dimension(d, _) => is_flat(*d),
            _ => true,
        }
    }

    fn flat_within(&'t self, arena: Arena<'t>) -> Result<&'t RangeExpr<'t>, AllocError> {
        match self {
            RangeExpr::Dimension(d, number) => {
                let Ok(d) = flat_node(arena, *d) else {
                    return Err(AllocError);
                };
                arena.node(RangeExpr::Dimension(d, *number))
            }
            _ => Ok(self),
        }
    }
}
