// Expressions in turns: they read no reduce variable, and of arrays that turns write the elements at their own index alone.

ghost use Rattle.std.specs.Prelude.{◌≡◌, true, [], ◌∷◌};
ghost use Rattle.dpl_lowered.specs.LoweredExpressions.{EachTurn};
ghost use Rattle.dpl_nodes.specs.Typed.{int_view, int_links_of, truth_view, truth_links_of, range_item, range_cuts_of, stride_view, ranges_items, index_items, domain_view, domain_posts_of};
ghost use Rattle.dpl_nodes.specs.Typed.{promoted_int, promoted_int_links_of, promoted_truth, promoted_truth_links_of};
ghost use Rattle.dpl_dependence.specs.Turns.{MayEvaluate, MayEvaluateEach, MayLink, MayLinkEach, MayPost, MayEvaluateItem, MayEvaluateItems, MayStride};

use crate::turn::TurnRules;
use dpl_nodes::{
    BoolExpr, DomainExpr, DomainPost, IndexExpr, IntExpr, IntLink, PromotedInt, PromotedIntLink,
    PromotedTruth, PromotedTruthLink, RangeCut, RangeExpr, RangesExpr, Stride, TruthLink,
};

/// Whether each turn may evaluate an int.
#[cycle(ints)]
pub(crate) fn may_int(e: &IntExpr<'_>, rules: &TurnRules<'_>) -> bool
    ensures { result ≡ true → MayEvaluate rules.now (int_view e.now) }
{
    match e {
        IntExpr::Number(_) => true,
        IntExpr::Local(slot) => rules.may_read(*slot),
        IntExpr::Negative(a) => may_int(a, rules),
        IntExpr::Sum(a, b) => may_int(a, rules) && may_int(b, rules),
        IntExpr::Difference(a, b) => may_int(a, rules) && may_int(b, rules),
        IntExpr::Product(a, b) => may_int(a, rules) && may_int(b, rules),
        IntExpr::Quotient(a, b, _) => may_int(a, rules) && may_int(b, rules),
        IntExpr::Remainder(a, b, _) => may_int(a, rules) && may_int(b, rules),
        IntExpr::Chain(first, links) => may_int(first, rules) && may_links(links, rules),
        IntExpr::OfRange(_, r, _) => may_range(r, rules),
        IntExpr::OfDomain(_, d) => may_domain(d, rules),
        IntExpr::Element(slot, index, _) => {
            rules.may_read_at(*slot, index) && may_index(index, rules)
        }
        IntExpr::Reduced(_, each, _) => may_ints(each, rules),
    }
}

// Whether each turn may evaluate the further operands of a chain.
#[cycle(ints)]
fn may_links(links: &[IntLink<'_>], rules: &TurnRules<'_>) -> bool
    ensures { result ≡ true → MayLink rules.now (int_links_of links.now) }
{
    for link in links {
        if !may_int(link.right, rules) {
            return false;
        }
    }
    true
}

/// Whether each turn may evaluate a promoted int at each index.
#[cycle(ints)]
fn may_ints(e: &PromotedInt<'_>, rules: &TurnRules<'_>) -> bool
    ensures { result ≡ true → MayEvaluateEach rules.now (promoted_int EachTurn e.now) }
{
    match e {
        PromotedInt::Scalar(a) => may_int(a, rules),
        PromotedInt::Element(slot, _) => rules.may_read_all(*slot),
        PromotedInt::Negative(a) => may_ints(a, rules),
        PromotedInt::Chain(first, links) => may_ints(first, rules) && may_ints_links(links, rules),
    }
}

// Whether each turn may evaluate the further operands of such a chain.
#[cycle(ints)]
fn may_ints_links(links: &[PromotedIntLink<'_>], rules: &TurnRules<'_>) -> bool
    ensures { result ≡ true → MayLinkEach rules.now (promoted_int_links_of EachTurn links.now) }
{
    for link in links {
        if !may_ints(link.right, rules) {
            return false;
        }
    }
    true
}

/// Whether each turn may evaluate a range.
#[cycle(ints)]
fn may_range(r: &RangeExpr<'_>, rules: &TurnRules<'_>) -> bool
    ensures { result ≡ true → MayEvaluateItem rules.now (range_item r.now) }
{
    match r {
        RangeExpr::Local(_) => true,
        RangeExpr::Between(low, _, _, high, stride) => {
            may_int(low, rules) && (may_int(high, rules) && may_stride(stride, rules))
        }
        RangeExpr::Slice(a, b, cuts) => {
            may_range(a, rules) && (may_range(b, rules) && may_cuts(cuts, rules))
        }
        RangeExpr::Dimension(d, _) => may_domain(d, rules),
    }
}

// Whether each turn may evaluate the further ranges that a range is sliced by.
#[cycle(ints)]
fn may_cuts(cuts: &[RangeCut<'_>], rules: &TurnRules<'_>) -> bool
    ensures { result ≡ true → MayPost rules.now (range_cuts_of cuts.now) }
{
    for cut in cuts {
        if !may_range(cut.by, rules) {
            return false;
        }
    }
    true
}

// Whether each turn may evaluate a stride.
#[cycle(ints)]
fn may_stride(stride: &Stride<'_>, rules: &TurnRules<'_>) -> bool
    ensures { result ≡ true → MayStride rules.now (stride_view stride.now) }
{
    match stride {
        Stride::Absent => true,
        Stride::By(_, e) => may_int(e, rules),
    }
}

// Whether each turn may evaluate ranges.
#[cycle(ints)]
fn may_ranges(ranges: &RangesExpr<'_>, rules: &TurnRules<'_>) -> bool
    ensures { result ≡ true → MayEvaluateItems rules.now (ranges_items ranges.now) }
{
    match ranges {
        RangesExpr::Line(a) => may_range(a, rules),
        RangesExpr::Plane(a, b) => may_range(a, rules) && may_range(b, rules),
        RangesExpr::Space(a, b, c) => {
            may_range(a, rules) && (may_range(b, rules) && may_range(c, rules))
        }
    }
}

/// Whether each turn may evaluate an index.
#[cycle(ints)]
pub(crate) fn may_index(index: &IndexExpr<'_>, rules: &TurnRules<'_>) -> bool
    ensures { result ≡ true → MayEvaluateItems rules.now (index_items index.now) }
{
    match index {
        IndexExpr::Line(a) => may_int(a, rules),
        IndexExpr::Plane(a, b) => may_int(a, rules) && may_int(b, rules),
        IndexExpr::Space(a, b, c) => may_int(a, rules) && (may_int(b, rules) && may_int(c, rules)),
        IndexExpr::Tuple(_) => true,
    }
}

/// Whether each turn may evaluate a domain.
#[cycle(ints)]
fn may_domain(d: &DomainExpr<'_>, rules: &TurnRules<'_>) -> bool
    ensures { result ≡ true → MayEvaluate rules.now (domain_view d.now) }
{
    match d {
        DomainExpr::Local(_) => true,
        DomainExpr::OfArray(_, _) => true,
        DomainExpr::Literal(_, ranges) => may_ranges(ranges, rules),
        DomainExpr::Posts(a, posts) => may_domain(a, rules) && may_posts(posts, rules),
        DomainExpr::Created(_, a) => may_domain(a, rules),
    }
}

// Whether each turn may make this of a domain.
#[cycle(ints)]
fn may_post(post: &DomainPost<'_>, rules: &TurnRules<'_>) -> bool
    ensures { result ≡ true → MayPost rules.now (domain_posts_of (post.now ∷ [])) }
{
    match post {
        DomainPost::Slice(ranges) => may_ranges(ranges, rules),
        DomainPost::Expanded(_, e) => may_int(e, rules),
    }
}

// Whether each turn may make all of this of a domain.
#[cycle(ints)]
fn may_posts(posts: &[DomainPost<'_>], rules: &TurnRules<'_>) -> bool
    ensures { result ≡ true → MayPost rules.now (domain_posts_of posts.now) }
{
    for post in posts {
        if !may_post(post, rules) {
            return false;
        }
    }
    true
}

/// Whether each turn may evaluate a truth value.
#[cycle(truths)]
pub(crate) fn may_truth(e: &BoolExpr<'_>, rules: &TurnRules<'_>) -> bool
    ensures { result ≡ true → MayEvaluate rules.now (truth_view e.now) }
{
    match e {
        BoolExpr::Truth(_) => true,
        BoolExpr::Local(slot) => rules.may_read(*slot),
        BoolExpr::Not(a) => may_truth(a, rules),
        BoolExpr::Chain(first, links) => may_truth(first, rules) && may_truth_links(links, rules),
        BoolExpr::Compare(_, a, b) => may_int(a, rules) && may_int(b, rules),
        BoolExpr::Contains(r, a) => may_range(r, rules) && may_int(a, rules),
        BoolExpr::HasIndex(d, index) => may_domain(d, rules) && may_index(index, rules),
        BoolExpr::Element(slot, index, _) => {
            rules.may_read_at(*slot, index) && may_index(index, rules)
        }
        BoolExpr::Reduced(_, each, _) => may_truths(each, rules),
    }
}

// Whether each turn may evaluate the further operands of a chain.
#[cycle(truths)]
fn may_truth_links(links: &[TruthLink<'_>], rules: &TurnRules<'_>) -> bool
    ensures { result ≡ true → MayLink rules.now (truth_links_of links.now) }
{
    for link in links {
        if !may_truth(link.right, rules) {
            return false;
        }
    }
    true
}

/// Whether each turn may evaluate a promoted truth value at each index.
#[cycle(truths)]
fn may_truths(e: &PromotedTruth<'_>, rules: &TurnRules<'_>) -> bool
    ensures { result ≡ true → MayEvaluateEach rules.now (promoted_truth EachTurn e.now) }
{
    match e {
        PromotedTruth::Scalar(a) => may_truth(a, rules),
        PromotedTruth::Element(slot, _) => rules.may_read_all(*slot),
        PromotedTruth::Not(a) => may_truths(a, rules),
        PromotedTruth::Chain(first, links) => {
            may_truths(first, rules) && may_truths_links(links, rules)
        }
        PromotedTruth::Compare(_, a, b) => may_ints(a, rules) && may_ints(b, rules),
    }
}

// Whether each turn may evaluate the further operands of such a chain.
#[cycle(truths)]
fn may_truths_links(links: &[PromotedTruthLink<'_>], rules: &TurnRules<'_>) -> bool
    ensures { result ≡ true → MayLinkEach rules.now (promoted_truth_links_of EachTurn links.now) }
{
    for link in links {
        if !may_truths(link.right, rules) {
            return false;
        }
    }
    true
}
