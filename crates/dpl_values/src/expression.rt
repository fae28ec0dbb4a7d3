// The values of ints, truth values, ranges and domains.
// Operands go from left to right, and a fault ends the walk, or a gate that refused an entry of a reduction.

ghost use Rattle.std.specs.Prelude.{None, Ok};
ghost use Rattle.dpl_language.specs.Values.{Int, Truth as TruthValue, Domain as DomainValue};
ghost use Rattle.dpl_frame.specs.Faults.{Tells, as_range};
ghost use Rattle.dpl_contents.specs.Range.{range_word};
ghost use Rattle.dpl_values.specs.Bounds.{bounds_of};
ghost use Rattle.dpl_values.specs.Reductions.{MayRefuseReduction, EachInInt, EachInChain, EachInTruth, EachInTruthChain, EachInContained, EachInHasIndex};
ghost use Rattle.dpl_values.specs.Reductions.{EachInRange, EachInSlices, EachInStride, EachInRanges, EachInIndex, EachInDomain, EachInPost, EachInPosted};
ghost use Rattle.dpl_values.specs.Meanings.{int_in, linked_in, chain_in, truth_in, truth_linked_in, truth_chain_in, contained_in, has_index_in};
ghost use Rattle.dpl_values.specs.Meanings.{range_in, cut_in, slices_in, strided_in, domain_in, made_in, posts_in, index_in, element_in, literal_in, sliced_in, range_method_in, domain_method_in};

use crate::comparison::holds;
use crate::domain::{domain_method, found, sized, small};
use crate::operator::{decides, joined, operated};
use crate::range::{Written, bounded, contains, range_method, strided_by};
use crate::reduction::{reduced_int, reduced_truth};
use crate::team::Team;
use dpl_arithmetic::index::{coordinate, plane, space};
use dpl_arithmetic::number::{difference, negative, product, quotient, remainder, sum};
use dpl_domain::Index;
use dpl_frame::{Alarm, DomainWord, FaultCode, Frame, RangeWord, Truth, Turn};
use dpl_nodes::{
    BoolExpr, DomainExpr, DomainMethod, DomainPost, IndexExpr, IntExpr, IntLink, RangeCut,
    RangeExpr, RangeMethod, RangesExpr, Spot, Stride, TruthLink,
};

// An operand: a leaf at once, and else by a walk.
#[cycle(walk)]
#[inline(always)]
pub(crate) fn operand<G: Team>(
    e: &IntExpr<'_>,
    frame: &Frame<G::Kept>,
    gate: &G,
    turn: &mut Turn,
) -> Result<i64, Alarm>
    requires ready { G.is_ready gate.now }
    ensures { Tells (MayRefuseReduction (G.may_refuse gate.now) frame.now (EachInInt e.now)) Int turn.new result (int_in frame.now e.now) }
{
    match e {
        IntExpr::Local(slot) => Ok(frame.number(*slot)),
        IntExpr::Number(n) => Ok(*n),
        _ => int_value(e, frame, gate, turn),
    }
}

/// A coordinate of an element: what a slot holds, and that more or less a number, at once; and else by a walk. The turn that
/// a fault names is put into a place of the caller's.
///
/// # Errors
/// The fault of a part.
#[cycle(walk)]
#[inline(always)]
pub fn coordinate_value<G: Team>(
    e: &IntExpr<'_>,
    frame: &Frame<G::Kept>,
    gate: &G,
    turn: &mut Turn,
) -> Result<i64, Alarm>
    requires ready { G.is_ready gate.now }
    ensures { Tells (MayRefuseReduction (G.may_refuse gate.now) frame.now (EachInInt e.now)) Int turn.new result (int_in frame.now e.now) }
{
    match e {
        IntExpr::Local(slot) => Ok(frame.number(*slot)),
        IntExpr::Sum(IntExpr::Local(slot), IntExpr::Number(n)) => {
            Ok(sum(frame.number(*slot), *n))
        }
        IntExpr::Difference(IntExpr::Local(slot), IntExpr::Number(n)) => {
            Ok(difference(frame.number(*slot), *n))
        }
        _ => int_value(e, frame, gate, turn),
    }
}

/// The value of an int.
///
/// # Errors
/// `F2` at a division by zero; the fault of a part.
#[cycle(walk)]
pub(crate) fn int_value<G: Team>(
    e: &IntExpr<'_>,
    frame: &Frame<G::Kept>,
    gate: &G,
    turn: &mut Turn,
) -> Result<i64, Alarm>
    requires ready { G.is_ready gate.now }
    ensures { Tells (MayRefuseReduction (G.may_refuse gate.now) frame.now (EachInInt e.now)) Int turn.new result (int_in frame.now e.now) }
{
    match e {
        IntExpr::Number(n) => Ok(*n),
        IntExpr::Local(slot) => Ok(frame.number(*slot)),
        IntExpr::Negative(e) => Ok(negative(operand(e, frame, gate, turn)?)),
        IntExpr::Sum(a, b) => {
            let left = operand(a, frame, gate, turn)?;
            let right = operand(b, frame, gate, turn)?;
            Ok(sum(left, right))
        }
        IntExpr::Difference(a, b) => {
            let left = operand(a, frame, gate, turn)?;
            let right = operand(b, frame, gate, turn)?;
            Ok(difference(left, right))
        }
        IntExpr::Product(a, b) => {
            let left = operand(a, frame, gate, turn)?;
            let right = operand(b, frame, gate, turn)?;
            Ok(product(left, right))
        }
        IntExpr::Quotient(a, b, at) => {
            let left = operand(a, frame, gate, turn)?;
            let right = operand(b, frame, gate, turn)?;
            if right == 0 {
                return Err(Alarm::new(FaultCode::ZeroDivisor, **at, turn));
            }
            Ok(quotient(left, right))
        }
        IntExpr::Remainder(a, b, at) => {
            let left = operand(a, frame, gate, turn)?;
            let right = operand(b, frame, gate, turn)?;
            if right == 0 {
                return Err(Alarm::new(FaultCode::ZeroDivisor, **at, turn));
            }
            Ok(remainder(left, right))
        }
        IntExpr::Chain(first, links) => chained(first, links, frame, gate, turn),
        IntExpr::OfRange(method, r, at) => of_range(*method, r, at, frame, gate, turn),
        IntExpr::OfDomain(method, d) => of_domain(*method, d, frame, gate, turn),
        IntExpr::Element(slot, t, at) => element(*slot, t, at, frame, gate, turn),
        IntExpr::Reduced(fold, e, at) => reduced_int(*fold, e, at, frame, gate, turn),
    }
}

// A further operand of a chain, behind what came so far.
#[cycle(walk)]
#[inline(always)]
fn linked<G: Team>(
    left: i64,
    link: &IntLink<'_>,
    frame: &Frame<G::Kept>,
    gate: &G,
    turn: &mut Turn,
) -> Result<i64, Alarm>
    requires ready { G.is_ready gate.now }
    ensures { Tells (MayRefuseReduction (G.may_refuse gate.now) frame.now (EachInInt link.now.right.now)) Int turn.new result
        (linked_in frame.now left link.now) }
{
    let right = operand(link.right, frame, gate, turn)?;
    operated(link.op, left, right, turn)
}

// A chain: its operands go from left to right, and each operator takes what came so far.
#[cycle(walk)]
#[inline(never)]
fn chained<G: Team>(
    first: &IntExpr<'_>,
    links: &[IntLink<'_>],
    frame: &Frame<G::Kept>,
    gate: &G,
    turn: &mut Turn,
) -> Result<i64, Alarm>
    requires ready { G.is_ready gate.now }
    ensures { Tells (MayRefuseReduction (G.may_refuse gate.now) frame.now (EachInChain first.now links.now)) Int turn.new result
        (chain_in frame.now first.now links.now) }
{
    let mut value = operand(first, frame, gate, turn)?;
    for link in links {
        value = linked(value, link, frame, gate, turn)?;
    }
    Ok(value)
}

// Methods are functions of their own, so that a walk over numbers alone has no place for ranges and domains in its frame.

// A method of a range.
#[cycle(walk)]
#[inline(never)]
fn of_range<G: Team>(
    method: RangeMethod,
    r: &RangeExpr<'_>,
    at: &Spot,
    frame: &Frame<G::Kept>,
    gate: &G,
    turn: &mut Turn,
) -> Result<i64, Alarm>
    requires ready { G.is_ready gate.now }
    ensures { Tells (MayRefuseReduction (G.may_refuse gate.now) frame.now (EachInRange r.now)) Int turn.new result
        (range_method_in frame.now method r.now at.now) }
{
    let range = range_value(r, frame, gate, turn)?;
    range_method(method, range, *at, turn)
}

// A method of a domain.
#[cycle(walk)]
#[inline(never)]
fn of_domain<G: Team>(
    method: DomainMethod,
    d: &DomainExpr<'_>,
    frame: &Frame<G::Kept>,
    gate: &G,
    turn: &mut Turn,
) -> Result<i64, Alarm>
    requires ready { G.is_ready gate.now }
    ensures { Tells (MayRefuseReduction (G.may_refuse gate.now) frame.now (EachInDomain d.now)) Int turn.new result
        (domain_method_in frame.now method d.now) }
{
    let domain = domain_value(d, frame, gate, turn)?;
    Ok(domain_method(method, domain))
}

/// The word of an element of an array, by the coordinates of its index.
///
/// # Errors
/// `F1` at the array's name for an index outside it.
#[cycle(walk)]
pub(crate) fn element<G: Team>(
    slot: usize,
    t: &IndexExpr<'_>,
    at: &Spot,
    frame: &Frame<G::Kept>,
    gate: &G,
    turn: &mut Turn,
) -> Result<i64, Alarm>
    requires ready { G.is_ready gate.now }
    ensures { Tells (MayRefuseReduction (G.may_refuse gate.now) frame.now (EachInIndex t.now)) (λ v. v) turn.new result
        (element_in frame.now slot t.now at.now) }
{
    match t {
        IndexExpr::Line(i) => {
            let i = coordinate_value(i, frame, gate, turn)?;
            found(at, frame.element_line(slot, i), turn)
        }
        IndexExpr::Plane(i, j) => {
            let i = coordinate_value(i, frame, gate, turn)?;
            let j = coordinate_value(j, frame, gate, turn)?;
            found(at, frame.element_plane(slot, i, j), turn)
        }
        IndexExpr::Space(i, j, k) => {
            let i = coordinate_value(i, frame, gate, turn)?;
            let j = coordinate_value(j, frame, gate, turn)?;
            let k = coordinate_value(k, frame, gate, turn)?;
            found(at, frame.element_space(slot, i, j, k), turn)
        }
        IndexExpr::Tuple(tuple) => found(at, frame.element(slot, frame.tuple(*tuple)), turn),
    }
}

/// An index, by its coordinates.
///
/// # Errors
/// The fault of a coordinate.
pub(crate) fn index_value<G: Team>(
    t: &IndexExpr<'_>,
    frame: &Frame<G::Kept>,
    gate: &G,
    turn: &mut Turn,
) -> Result<Index, Alarm>
    requires ready { G.is_ready gate.now }
    ensures { Tells (MayRefuseReduction (G.may_refuse gate.now) frame.now (EachInIndex t.now)) (λ v. v) turn.new result (index_in frame.now t.now) }
{
    match t {
        IndexExpr::Line(i) => Ok(coordinate(operand(i, frame, gate, turn)?)),
        IndexExpr::Plane(i, j) => {
            let i = operand(i, frame, gate, turn)?;
            let j = operand(j, frame, gate, turn)?;
            Ok(plane(i, j))
        }
        IndexExpr::Space(i, j, k) => {
            let i = operand(i, frame, gate, turn)?;
            let j = operand(j, frame, gate, turn)?;
            let k = operand(k, frame, gate, turn)?;
            Ok(space(i, j, k))
        }
        IndexExpr::Tuple(tuple) => Ok(frame.tuple(*tuple)),
    }
}

/// A domain by its ranges.
///
/// # Errors
/// The fault of a range; `F3` at the opening bracket for too many indices.
#[cycle(walk)]
pub(crate) fn literal<G: Team>(
    at: &Spot,
    ranges: &RangesExpr<'_>,
    frame: &Frame<G::Kept>,
    gate: &G,
    turn: &mut Turn,
) -> Result<DomainWord, Alarm>
    requires ready { G.is_ready gate.now }
    ensures { Tells (MayRefuseReduction (G.may_refuse gate.now) frame.now (EachInRanges ranges.now)) DomainValue turn.new result
        (literal_in frame.now at.now ranges.now) }
{
    match ranges {
        RangesExpr::Line(a) => {
            let a = range_value(a, frame, gate, turn)?;
            sized(at, DomainWord::new(&[a]), turn)
        }
        RangesExpr::Plane(a, b) => {
            let a = range_value(a, frame, gate, turn)?;
            let b = range_value(b, frame, gate, turn)?;
            sized(at, DomainWord::new(&[a, b]), turn)
        }
        RangesExpr::Space(a, b, c) => {
            let a = range_value(a, frame, gate, turn)?;
            let b = range_value(b, frame, gate, turn)?;
            let c = range_value(c, frame, gate, turn)?;
            sized(at, DomainWord::new(&[a, b, c]), turn)
        }
    }
}

// A domain with each dimension between the bounds of its range.
#[cycle(walk)]
fn cut<G: Team>(
    domain: &DomainWord,
    ranges: &RangesExpr<'_>,
    frame: &Frame<G::Kept>,
    gate: &G,
    turn: &mut Turn,
) -> Result<DomainWord, Alarm>
    requires ready { G.is_ready gate.now }
    ensures { Tells (MayRefuseReduction (G.may_refuse gate.now) frame.now (EachInRanges ranges.now)) DomainValue turn.new result
        (sliced_in frame.now domain.now ranges.now) }
{
    match ranges {
        RangesExpr::Line(a) => {
            let a = range_value(a, frame, gate, turn)?;
            Ok(domain.sliced(&[a]))
        }
        RangesExpr::Plane(a, b) => {
            let a = range_value(a, frame, gate, turn)?;
            let b = range_value(b, frame, gate, turn)?;
            Ok(domain.sliced(&[a, b]))
        }
        RangesExpr::Space(a, b, c) => {
            let a = range_value(a, frame, gate, turn)?;
            let b = range_value(b, frame, gate, turn)?;
            let c = range_value(c, frame, gate, turn)?;
            Ok(domain.sliced(&[a, b, c]))
        }
    }
}

// What a post makes of a domain.
#[cycle(walk)]
#[inline(always)]
fn made<G: Team>(
    domain: &DomainWord,
    post: &DomainPost<'_>,
    frame: &Frame<G::Kept>,
    gate: &G,
    turn: &mut Turn,
) -> Result<DomainWord, Alarm>
    requires ready { G.is_ready gate.now }
    ensures { Tells (MayRefuseReduction (G.may_refuse gate.now) frame.now (EachInPost post.now)) DomainValue turn.new result
        (made_in frame.now domain.now post.now) }
{
    match post {
        DomainPost::Slice(ranges) => cut(domain, ranges, frame, gate, turn),
        DomainPost::Expanded(at, k) => {
            let k = operand(k, frame, gate, turn)?;
            match domain.expanded(k) {
                Some(domain) => Ok(domain),
                None => Err(Alarm::new(FaultCode::PastLimit, **at, turn)),
            }
        }
    }
}

// A domain, and what is made of it from left to right.
#[cycle(walk)]
#[inline(never)]
fn posted<G: Team>(
    d: &DomainExpr<'_>,
    posts: &[DomainPost<'_>],
    frame: &Frame<G::Kept>,
    gate: &G,
    turn: &mut Turn,
) -> Result<DomainWord, Alarm>
    requires ready { G.is_ready gate.now }
    ensures { Tells (MayRefuseReduction (G.may_refuse gate.now) frame.now (EachInPosted d.now posts.now)) DomainValue turn.new result
        (posts_in frame.now d.now posts.now) }
{
    let mut domain = domain_value(d, frame, gate, turn)?;
    for post in posts {
        domain = made(&domain, post, frame, gate, turn)?;
    }
    Ok(domain)
}

/// The value of a domain.
///
/// # Errors
/// `F3` at the opening bracket for too many indices, and at `expand` for these or for a bound past its limit.
#[cycle(walk)]
pub fn domain_value<G: Team>(
    e: &DomainExpr<'_>,
    frame: &Frame<G::Kept>,
    gate: &G,
    turn: &mut Turn,
) -> Result<DomainWord, Alarm>
    requires ready { G.is_ready gate.now }
    ensures { Tells (MayRefuseReduction (G.may_refuse gate.now) frame.now (EachInDomain e.now)) DomainValue turn.new result (domain_in frame.now e.now) }
{
    match e {
        DomainExpr::Local(slot) => Ok(frame.domain(*slot)),
        DomainExpr::OfArray(_, slot) => Ok(frame.array_domain(*slot)),
        DomainExpr::Literal(at, ranges) => literal(at, ranges, frame, gate, turn),
        DomainExpr::Posts(d, posts) => posted(d, posts, frame, gate, turn),
        DomainExpr::Created(_, d) => {
            let domain = domain_value(d, frame, gate, turn)?;
            Ok(small(domain))
        }
    }
}

// A range by its bounds, with the stride that is written, which is evaluated before the fault of its bounds is told.
#[cycle(walk)]
fn stridden<G: Team>(
    stride: &Stride<'_>,
    written: Written,
    frame: &Frame<G::Kept>,
    gate: &G,
    turn: &mut Turn,
) -> Result<RangeWord, Alarm>
    requires ready { G.is_ready gate.now }
    ensures { Tells (MayRefuseReduction (G.may_refuse gate.now) frame.now (EachInStride stride.now)) as_range turn.new result
        (strided_in frame.now stride.now (bounds_of written)) }
{
    match stride {
        Stride::Absent => bounded(written, turn),
        Stride::By(at, e) => {
            let stride = operand(e, frame, gate, turn)?;
            let range = bounded(written, turn)?;
            strided_by(**at, stride, range, turn)
        }
    }
}

// What of a range lies between the bounds of another one.
#[cycle(walk)]
#[inline(always)]
fn narrowed<G: Team>(
    range: &RangeWord,
    cut: &RangeExpr<'_>,
    frame: &Frame<G::Kept>,
    gate: &G,
    turn: &mut Turn,
) -> Result<RangeWord, Alarm>
    requires ready { G.is_ready gate.now }
    ensures { Tells (MayRefuseReduction (G.may_refuse gate.now) frame.now (EachInRange cut.now)) as_range turn.new result
        (cut_in frame.now (range_word range.now) cut.now) }
{
    let cut = range_value(cut, frame, gate, turn)?;
    Ok(range.sliced(&cut))
}

// A range between the bounds of its first cut, and of further ones.
#[cycle(walk)]
#[inline(never)]
fn slices<G: Team>(
    r: &RangeExpr<'_>,
    cut: &RangeExpr<'_>,
    cuts: &[RangeCut<'_>],
    frame: &Frame<G::Kept>,
    gate: &G,
    turn: &mut Turn,
) -> Result<RangeWord, Alarm>
    requires ready { G.is_ready gate.now }
    ensures { Tells (MayRefuseReduction (G.may_refuse gate.now) frame.now (EachInSlices r.now cut.now cuts.now)) as_range turn.new result
        (slices_in frame.now r.now cut.now cuts.now) }
{
    let range = range_value(r, frame, gate, turn)?;
    let mut range = narrowed(&range, cut, frame, gate, turn)?;
    for cut in cuts {
        range = narrowed(&range, cut.by, frame, gate, turn)?;
    }
    Ok(range)
}

/// The value of a range.
///
/// # Errors
/// `F3` at the dots for a bound or a count past its limit, and at `by` for a stride.
#[cycle(walk)]
pub(crate) fn range_value<G: Team>(
    e: &RangeExpr<'_>,
    frame: &Frame<G::Kept>,
    gate: &G,
    turn: &mut Turn,
) -> Result<RangeWord, Alarm>
    requires ready { G.is_ready gate.now }
    ensures { Tells (MayRefuseReduction (G.may_refuse gate.now) frame.now (EachInRange e.now)) as_range turn.new result (range_in frame.now e.now) }
{
    match e {
        RangeExpr::Local(slot) => Ok(frame.range(*slot)),
        RangeExpr::Between(low, at, dots, high, stride) => {
            let low = operand(low, frame, gate, turn)?;
            let high = operand(high, frame, gate, turn)?;
            let written = Written {
                at: **at,
                dots: *dots,
                low,
                number: high,
            };
            stridden(stride, written, frame, gate, turn)
        }
        RangeExpr::Slice(r, cut, cuts) => slices(r, cut, cuts, frame, gate, turn),
        RangeExpr::Dimension(d, n) => Ok(domain_value(d, frame, gate, turn)?.dimension(*n)),
    }
}

// The methods that are truth values are functions of their own too, so that a comparison has no place for ranges and domains in its frame.

// `contains` of a range
#[inline(never)]
fn contained<G: Team>(
    r: &RangeExpr<'_>,
    i: &IntExpr<'_>,
    frame: &Frame<G::Kept>,
    gate: &G,
    turn: &mut Turn,
) -> Result<Truth, Alarm>
    requires ready { G.is_ready gate.now }
    ensures { Tells (MayRefuseReduction (G.may_refuse gate.now) frame.now (EachInContained r.now i.now)) TruthValue turn.new result
        (contained_in frame.now r.now i.now) }
{
    let range = range_value(r, frame, gate, turn)?;
    let i = operand(i, frame, gate, turn)?;
    Ok(Truth::new(contains(range, i)))
}

// `contains` of a domain
#[inline(never)]
fn has_index<G: Team>(
    d: &DomainExpr<'_>,
    t: &IndexExpr<'_>,
    frame: &Frame<G::Kept>,
    gate: &G,
    turn: &mut Turn,
) -> Result<Truth, Alarm>
    requires ready { G.is_ready gate.now }
    ensures { Tells (MayRefuseReduction (G.may_refuse gate.now) frame.now (EachInHasIndex d.now t.now)) TruthValue turn.new result
        (has_index_in frame.now d.now t.now) }
{
    let domain = domain_value(d, frame, gate, turn)?;
    let index = index_value(t, frame, gate, turn)?;
    Ok(Truth::new(domain.contains(index)))
}

/// The value of a truth value. `&&` after false and `||` after true don't look at their right side.
///
/// # Errors
/// The fault of an operand.
#[cycle(truth)]
pub(crate) fn truth_value<G: Team>(
    e: &BoolExpr<'_>,
    frame: &Frame<G::Kept>,
    gate: &G,
    turn: &mut Turn,
) -> Result<Truth, Alarm>
    requires ready { G.is_ready gate.now }
    ensures { Tells (MayRefuseReduction (G.may_refuse gate.now) frame.now (EachInTruth e.now)) TruthValue turn.new result (truth_in frame.now e.now) }
{
    match e {
        BoolExpr::Truth(b) => Ok(Truth::new(*b)),
        BoolExpr::Local(slot) => Ok(Truth::new(frame.number(*slot) != 0)),
        BoolExpr::Not(e) => Ok(Truth::new(!truth_value(e, frame, gate, turn)?.get())),
        BoolExpr::Chain(first, links) => truth_chained(first, links, frame, gate, turn),
        BoolExpr::Compare(comparison, a, b) => {
            let left = operand(a, frame, gate, turn)?;
            let right = operand(b, frame, gate, turn)?;
            Ok(Truth::new(holds(*comparison, left, right)))
        }
        BoolExpr::Contains(r, i) => contained(r, i, frame, gate, turn),
        BoolExpr::HasIndex(d, t) => has_index(d, t, frame, gate, turn),
        BoolExpr::Element(slot, t, at) => Ok(Truth::new(
            element(*slot, t, at, frame, gate, turn)? != 0,
        )),
        BoolExpr::Reduced(fold, e, at) => reduced_truth(*fold, e, at, frame, gate, turn),
    }
}

// A further operand of a chain, behind what came so far.
#[cycle(truth)]
#[inline(always)]
fn truth_linked<G: Team>(
    left: Truth,
    link: &TruthLink<'_>,
    frame: &Frame<G::Kept>,
    gate: &G,
    turn: &mut Turn,
) -> Result<Truth, Alarm>
    requires ready { G.is_ready gate.now }
    ensures { Tells (MayRefuseReduction (G.may_refuse gate.now) frame.now (EachInTruth link.now.right.now)) TruthValue turn.new result
        (truth_linked_in frame.now left link.now) }
{
    if decides(link.op, left.get()) {
        return Ok(left);
    }
    let right = truth_value(link.right, frame, gate, turn)?;
    Ok(Truth::new(joined(link.op, left.get(), right.get())))
}

// A chain of truth values. What decides one operator is the left side of the next one.
#[cycle(truth)]
#[inline(never)]
fn truth_chained<G: Team>(
    first: &BoolExpr<'_>,
    links: &[TruthLink<'_>],
    frame: &Frame<G::Kept>,
    gate: &G,
    turn: &mut Turn,
) -> Result<Truth, Alarm>
    requires ready { G.is_ready gate.now }
    ensures { Tells (MayRefuseReduction (G.may_refuse gate.now) frame.now (EachInTruthChain first.now links.now)) TruthValue turn.new result
        (truth_chain_in frame.now first.now links.now) }
{
    let mut value = truth_value(first, frame, gate, turn)?;
    for link in links {
        value = truth_linked(value, link, frame, gate, turn)?;
    }
    Ok(value)
}
