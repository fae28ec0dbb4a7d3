// A team without workers, for whoever asks a gate. What a reduction folds is found several ints at once, by a strip.

ghost use Rattle.std.specs.Prelude.{◌≡◌};

use dpl_frame::{Alarm, Arrays, Frame, Truth, Turn};
use dpl_loop::{Gate, Row, Strip};
use dpl_nodes::{IntFold, PromotedInt, PromotedTruth, Spot, TruthFold};
use dpl_strips::promoted_strip;
use dpl_values::Team;
use std::marker::PhantomData;

/// A gate over frames with any arrays, and no workers.
#[derive(Drop)]
pub struct Alone<'g, A, G> {
    gate: &'g G,
    kept: PhantomData<A>,
}

impl<'g, A, G> Alone<'g, A, G> {
    /// Whoever asks this gate and has no workers.
    #[inline(always)]
    pub fn at(gate: &'g G) -> Alone<'g, A, G>
        ensures { result.gate.now ≡ gate.now }
    {
        Alone {
            gate,
            kept: PhantomData,
        }
    }
}

impl<'g, A: Arrays, G: Gate> Gate for Alone<'g, A, G> {
    ghost may_refuse = { λ team. G.may_refuse team.gate.now };

    #[inline(always)]
    fn enter(&self, worker: u32, place: u64) -> bool {
        self.gate.enter(worker, place)
    }

    #[inline(always)]
    fn is_open(&self) -> bool {
        self.gate.is_open()
    }
}

impl<'g, A: Arrays, G: Gate> Team for Alone<'g, A, G> {
    type Kept = A;

    ghost is_ready = { λ _. Unit {0} };

    #[inline(always)]
    fn reduced_int(
        &self,
        _fold: IntFold,
        _e: &PromotedInt<'_>,
        _at: &Spot,
        _frame: &Frame<A>,
        _turn: &mut Turn,
    ) -> Option<Result<i64, Alarm>> {
        None
    }

    #[inline(always)]
    fn reduced_truth(
        &self,
        _fold: TruthFold,
        _e: &PromotedTruth<'_>,
        _at: &Spot,
        _frame: &Frame<A>,
        _turn: &mut Turn,
    ) -> Option<Result<Truth, Alarm>> {
        None
    }

    #[inline(always)]
    fn promoted_strip(&self, e: &PromotedInt<'_>, row: Row, frame: &Frame<A>) -> Strip {
        promoted_strip(e, row, frame)
    }
}
