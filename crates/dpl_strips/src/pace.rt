// How an int goes from turn to turn of a loop: it stays, or it steps along with the last coordinate of the turns' indices.
// So elements are found, and put, several turns at once.

ghost use Rattle.std.specs.Prelude.{◌≡◌, ◌∷◌, map, length, IfSome};
ghost use Rattle.dpl_array.specs.Elements.{behind};
ghost use Rattle.dpl_language.specs.Tree.{ExprTree};
ghost use Rattle.dpl_lowered.specs.Shapes.{two, grouped};
ghost use Rattle.dpl_memory.specs.Memory.{Variable};
ghost use Rattle.dpl_nodes.specs.Typed.{int_view, int_links_of, int_infix, int_place};
ghost use Rattle.dpl_strips.specs.Strips.{FitsTurns, GoesAs, GoesIn, GoesAfter, each_put, turn_numbers, written, TreeGoesAt, GoesAt};
ghost use Rattle.dpl_strips.specs.declared.apply.Wrapping.TheVariants.{Sum as SumOf, Difference as DifferenceOf};
ghost use Rattle.dpl_strips.specs.declared.pace.Pace.TheVariants.{Steady as SteadyPace, Stepping as SteppingPace};

use crate::target::{Target, is_written};
use dpl_arithmetic::number::{difference, sum};
use dpl_frame::{Arrays, Frame};
use dpl_loop::{Row, STRIP};
use dpl_nodes::{IntExpr, IntLink, IntOperator, Names};

/// The int of each turn: the same in all turns of a strip; or this one in the first turn, and in each turn the row's step more than in the
/// one before.
#[derive(Clone, Copy)]
pub(crate) enum Pace {
    Steady(i64),
    Stepping(i64),
}

// The pace of an int that steps along with a row, if it does so all through a strip without leaving its word.
fn stepping(from: i64, row: Row) -> Option<Pace>
    ensures { IfSome result (λ p. FitsTurns row.step p × (p ≡ SteppingPace from)) }
{
    from.checked_add(row.step().checked_mul(STRIP as i64 - 1)?)?;
    Some(Pace::Stepping(from))
}

impl Pace {
    // How the sum of two ints goes. Where both step there is no pace for it.
    fn plus(self, other: Pace, row: Row) -> Option<Pace>
        ensures { IfSome result (GoesAs SumOf row.step self other) }
    {
        match (self, other) {
            (Pace::Steady(a), Pace::Steady(b)) => Some(Pace::Steady(sum(a, b))),
            (Pace::Stepping(a), Pace::Steady(b)) => stepping(a.checked_add(b)?, row),
            (Pace::Steady(a), Pace::Stepping(b)) => stepping(a.checked_add(b)?, row),
            (Pace::Stepping(_), Pace::Stepping(_)) => None,
        }
    }

    // How their difference goes. There is no pace where the second one steps.
    fn minus(self, other: Pace, row: Row) -> Option<Pace>
        ensures { IfSome result (GoesAs DifferenceOf row.step self other) }
    {
        match (self, other) {
            (Pace::Steady(a), Pace::Steady(b)) => Some(Pace::Steady(difference(a, b))),
            (Pace::Stepping(a), Pace::Steady(b)) => stepping(a.checked_sub(b)?, row),
            (_, Pace::Stepping(_)) => None,
        }
    }
}

// How the word in a slot goes once a variable has got its int in each turn: as that one, where the variable stands in the slot, and
// else as before. A variable in no slot of the frame gets no int, and there is no pace for it.
fn after<A: Arrays>(
    slot: usize,
    variable: usize,
    held: Pace,
    before: Option<Pace>,
    row: Row,
    frame: &Frame<A>,
) -> Option<Pace>
    ensures { GoesAfter row.step slot variable held (length frame.now.memory.words.numbers) before result }
{
    if slot != variable {
        return before;
    }
    if !frame.has_number(slot) {
        return None;
    }
    match held {
        Pace::Steady(_) => Some(held),
        Pace::Stepping(from) => stepping(from, row),
    }
}

// How the word in a slot goes once variables have got the coordinates of an index, one each. Of several variables in one slot the last
// one gets its int last.
fn each_held<A: Arrays>(
    slot: usize,
    variable: usize,
    others: &[usize],
    row: Row,
    frame: &Frame<A>,
) -> Option<Pace>
    ensures { IfSome result (GoesIn row.step (λ k. each_put (variable ∷ others.now) (behind k row) frame.now.memory.words.numbers) slot) }
{
    let before = Some(Pace::Steady(frame.number(slot)));
    let first = row.first();
    let (outer, middle, inner) = first.numbers();
    match (first.rank(), others.len()) {
        (1, 0) => after(slot, variable, Pace::Stepping(inner), before, row, frame),
        (2, 1) => {
            let before = after(slot, variable, Pace::Steady(middle), before, row, frame);
            after(slot, others[0], Pace::Stepping(inner), before, row, frame)
        }
        (3, 2) => {
            let before = after(slot, variable, Pace::Steady(outer), before, row, frame);
            let before = after(slot, others[0], Pace::Steady(middle), before, row, frame);
            after(slot, others[1], Pace::Stepping(inner), before, row, frame)
        }
        _ => None,
    }
}

// How the word in a slot goes, by what the variables of the loop hold.
fn local<A: Arrays>(slot: usize, names: &Names<'_>, row: Row, frame: &Frame<A>) -> Option<Pace>
    ensures { IfSome result (GoesIn row.step (turn_numbers names.now row frame.now.memory) slot) }
{
    match names {
        Names::Tuple(_) => Some(Pace::Steady(frame.number(slot))),
        Names::Int(variable) if row.first().rank() == 1 => each_held(
            slot,
            *variable,
            &[],
            row,
            frame,
        ),
        Names::Int(_) => None,
        Names::Each(variable, others) => each_held(slot, *variable, others, row, frame),
    }
}

// How a chain goes with an operand more, by how it goes before it.
#[cycle(paces)]
fn linked<A: Arrays>(
    before: Pace,
    link: &IntLink<'_>,
    names: &Names<'_>,
    targets: &[Target<'_>],
    row: Row,
    frame: &Frame<A>,
) -> Option<Pace>
    ensures { IfSome result (λ p. FitsTurns row.step p × ((a : ExprTree Variable)
        → TreeGoesAt frame.now.limits names.now (map written targets.now) row frame.now.memory a before
        → TreeGoesAt frame.now.limits names.now (map written targets.now) row frame.now.memory
        (two a (int_place link.now.op) (int_infix link.now.op) (int_view link.now.right.now)) p)) }
{
    match link.op {
        IntOperator::Sum => before.plus(pace_of(link.right, names, targets, row, frame)?, row),
        IntOperator::Difference => {
            before.minus(pace_of(link.right, names, targets, row, frame)?, row)
        }
        IntOperator::Product | IntOperator::Quotient(_) | IntOperator::Remainder(_) => None,
    }
}

// How a chain goes: its operands are taken from left to right.
#[cycle(paces)]
fn chained<A: Arrays>(
    first: &IntExpr<'_>,
    links: &[IntLink<'_>],
    names: &Names<'_>,
    targets: &[Target<'_>],
    row: Row,
    frame: &Frame<A>,
) -> Option<Pace>
    ensures { IfSome result (λ p. FitsTurns row.step p × TreeGoesAt frame.now.limits names.now (map written targets.now) row frame.now.memory
        (grouped (int_view first.now) (int_links_of links.now)) p) }
{
    let mut pace = pace_of(first, names, targets, row, frame)?;
    for link in links {
        pace = linked(pace, link, names, targets, row, frame)?;
    }
    Some(pace)
}

/// How an int goes through the turns of a row's indices, as far as that is told by its text and by what the frame holds. An int in which an
/// element, a quotient or more than sums and differences stand has no pace, nor has one in which a slot stands that the turns may write.
#[cycle(paces)]
pub(crate) fn pace_of<A: Arrays>(
    e: &IntExpr<'_>,
    names: &Names<'_>,
    targets: &[Target<'_>],
    row: Row,
    frame: &Frame<A>,
) -> Option<Pace>
    ensures { IfSome result (λ p. FitsTurns row.step p × GoesAt frame.now.limits names.now (map written targets.now) row frame.now.memory e.now p) }
{
    match e {
        IntExpr::Number(n) => Some(Pace::Steady(*n)),
        IntExpr::Local(slot) if !is_written(targets, *slot) => local(*slot, names, row, frame),
        IntExpr::Sum(a, b) => {
            let left = pace_of(a, names, targets, row, frame)?;
            left.plus(pace_of(b, names, targets, row, frame)?, row)
        }
        IntExpr::Difference(a, b) => {
            let left = pace_of(a, names, targets, row, frame)?;
            left.minus(pace_of(b, names, targets, row, frame)?, row)
        }
        IntExpr::Chain(first, links) => chained(first, links, names, targets, row, frame),
        _ => None,
    }
}

/// The int that is the same in all turns, if there is one.
pub(crate) fn steady<A: Arrays>(
    e: &IntExpr<'_>,
    names: &Names<'_>,
    targets: &[Target<'_>],
    row: Row,
    frame: &Frame<A>,
) -> Option<i64>
    ensures { IfSome result (λ n. GoesAt frame.now.limits names.now (map written targets.now) row frame.now.memory e.now (SteadyPace n)) }
{
    match pace_of(e, names, targets, row, frame)? {
        Pace::Steady(n) => Some(n),
        Pace::Stepping(_) => None,
    }
}

/// The int in the first turn of one that steps.
pub(crate) fn first_step<A: Arrays>(
    e: &IntExpr<'_>,
    names: &Names<'_>,
    targets: &[Target<'_>],
    row: Row,
    frame: &Frame<A>,
) -> Option<i64>
    ensures { IfSome result (λ n. GoesAt frame.now.limits names.now (map written targets.now) row frame.now.memory e.now (SteppingPace n)) }
{
    match pace_of(e, names, targets, row, frame)? {
        Pace::Steady(_) => None,
        Pace::Stepping(from) => Some(from),
    }
}
