// What a text names for a domain or an array, its arguments evaluated.
// A map is never the cause of a fault: where an argument has no value, no map is named.

ghost use Rattle.std.specs.Prelude.{◌≡◌, IfOk};
ghost use Rattle.dpl_language.specs.Ranges.{least_in};
ghost use Rattle.dpl_language.specs.Roots.{or_no_map, cyclic_or_none, start_of, map_of};
ghost use Rattle.dpl_memory.specs.Memory.{in_memory};
ghost use Rattle.dpl_nodes.specs.Steps.{start_view, map_view};
ghost use Rattle.dpl_frame.specs.Roots.{distribution_view};
ghost use Rattle.dpl_frame.specs.Faults.{of_domain};
ghost use Rattle.dpl_simple.specs.Starts.{value_or_none, blocks_or_none};
ghost use Rattle.dpl_values.specs.Meanings.{domain_in};

use dpl_domain::Index;
use dpl_frame::{Arrays, Distribution, DomainWord, Frame, Trap, Turn};
use dpl_layout::least;
use dpl_loop::{OpenGate, RunStop};
use dpl_nodes::{DomainExpr, MapExpr, StartExpr};
use dpl_teams::Alone;
use dpl_values::expression::domain_value;
use dpl_values::index_value;
use std::alloc::AllocError;

// A domain that a map names, or its fault; or memory ran out. No gate is asked for a map's argument.
fn domain_argument<A: Arrays>(
    d: &DomainExpr<'_>,
    frame: &Frame<A>,
) -> Result<Result<DomainWord, Trap>, AllocError>
    ensures { IfOk result (λ found. domain_in frame.now d.now ≡ of_domain found) }
{
    let mut turn = Turn::Absent;
    match domain_value(d, frame, &Alone::at(&OpenGate), &mut turn) {
        Ok(domain) => Ok(Ok(domain)),
        Err(alarm) => {
            if alarm.is_out_of_memory() {
                return Err(AllocError);
            }
            Ok(Err(alarm.in_turn(&turn)))
        }
    }
}

// The least members of a domain, if it has an index.
fn corner(domain: DomainWord) -> Option<Index>
    ensures { result ≡ least_in domain }
{
    least(&domain.domain())
}

// Where a map starts; none where that has no value. Or memory ran out.
fn start<A: Arrays>(e: &StartExpr<'_>, frame: &Frame<A>) -> Result<Option<Index>, AllocError>
    ensures { IfOk result (λ found. found ≡ value_or_none (start_of frame.now.limits in_memory (start_view e.now) frame.now.memory)) }
{
    match e {
        StartExpr::Index(t) => match index_value(t, frame, &Alone::at(&OpenGate)) {
            Ok(index) => Ok(Some(index)),
            Err(RunStop::Fault(_)) => Ok(None),
            Err(_) => Err(AllocError),
        },
        StartExpr::Least(d, _, _) => match domain_argument(d, frame)? {
            Ok(domain) => Ok(corner(domain)),
            Err(_) => Ok(None),
        },
    }
}

// `cyclicDist` from a start that has a value.
fn cyclic(start: Option<Index>) -> Distribution
    ensures { distribution_view result ≡ cyclic_or_none start }
{
    match start {
        Some(start) => Distribution::CyclicFrom(start),
        None => Distribution::NoMap,
    }
}

// `blockCycDist` from a start and in blocks of sizes that have values.
fn block_cyclic(start: Option<Index>, sizes: Option<Index>) -> Distribution
    ensures { distribution_view result ≡ blocks_or_none start sizes }
{
    match (start, sizes) {
        (Some(start), Some(sizes)) => Distribution::BlockCyclicFrom(start, sizes),
        (Some(_), None) => Distribution::NoMap,
        (None, _) => Distribution::NoMap,
    }
}

/// What a map's expression names.
///
/// # Errors
/// Out of memory.
pub(crate) fn named<A: Arrays>(
    e: &MapExpr<'_>,
    frame: &Frame<A>,
) -> Result<Distribution, AllocError>
    ensures { IfOk result (λ named. distribution_view named
        ≡ or_no_map (map_of frame.now.limits in_memory (map_view e.now) frame.now.memory)) }
{
    match e {
        MapExpr::Block(d) => match domain_argument(d, frame)? {
            Ok(domain) => Ok(Distribution::BlockOver(domain)),
            Err(_) => Ok(Distribution::NoMap),
        },
        MapExpr::Cyclic(from) => Ok(cyclic(start(from, frame)?)),
        MapExpr::BlockCyclic(from, sizes) => {
            let from = start(from, frame)?;
            Ok(block_cyclic(from, start(sizes, frame)?))
        }
    }
}

/// What is named for a domain that is created with a cyclic map: `cyclicDist` from its least members.
pub(crate) fn from_least(domain: DomainWord) -> Distribution
    ensures { distribution_view result ≡ cyclic_or_none (least_in domain) }
{
    cyclic(corner(domain))
}
