// The variables of a turn hold its index: as one int, as a tuple, or coordinate by coordinate.

ghost use Rattle.std.specs.Prelude.{◌≡◌, pos, get_or};
ghost use Rattle.dpl_language.specs.Values.{number};
ghost use Rattle.dpl_language.specs.Ranges.{index_value};
ghost use Rattle.dpl_frame.specs.Frames.{with_memory};
ghost use Rattle.dpl_elements.specs.Turns.{each_bound, bound_at};

use dpl_domain::Index;
use dpl_frame::{Arrays, Frame};
use dpl_nodes::Names;

// The coordinate in a dimension, and 0 past the last one.
#[inline(always)]
fn coordinate(index: Index, d: usize) -> i64
    ensures { result ≡ get_or index d (pos 0) }
{
    let Ok(d) = u32::try_from(d) else {
        return 0;
    };
    match index.coordinate(d) {
        Some(i) => i,
        None => 0,
    }
}

// The coordinate of an index that has one; 0 of another.
#[inline(always)]
fn sole(index: Index) -> i64
    ensures { result ≡ number (index_value index) }
{
    if index.rank() == 1 {
        coordinate(index, 0)
    } else {
        0
    }
}

// Puts the coordinates into slots, from the one in dimension 1 on.
#[tactic(auto, using(dpl_elements::proofs::Binding::each_bound_at))]
fn bind_others<A: Arrays>(others: &[usize], index: Index, frame: &mut Frame<A>)
    ensures { frame.new ≡ with_memory (each_bound 1 others.now index frame.old.memory) frame.old }
{
    for k in 0..others.len() {
        frame.set_number(others[k], coordinate(index, k + 1));
    }
}

/// The variables of a turn hold its index.
#[tactic(auto, using(dpl_elements::proofs::Binding::coordinates_index_value))]
#[inline(always)]
pub fn bind<A: Arrays>(names: &Names<'_>, index: Index, frame: &mut Frame<A>)
    ensures { frame.new ≡ with_memory (bound_at names.now index frame.old.memory) frame.old }
{
    match names {
        Names::Int(slot) => frame.set_number(*slot, sole(index)),
        Names::Tuple(slot) => frame.set_tuple(*slot, index),
        Names::Each(first, others) => {
            frame.set_number(*first, coordinate(index, 0));
            bind_others(others, index, frame);
        }
    }
}
