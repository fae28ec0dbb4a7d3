// The body of a forall, as its turns.
// It runs in a context in which nothing is printed and no foralls are run; a program that breaks no rule asks for neither there. Assignments
// to whole arrays, which a turn may not have either, are made in order.

ghost use Rattle.std.specs.Prelude.{[]};
ghost use Rattle.dpl_standing.specs.Standing.{InTurn};
ghost use Rattle.dpl_readings.specs.Readings.{steps_in};
ghost use Rattle.dpl_coming.specs.Noting.{silent};
ghost use Rattle.dpl_coming.specs.Walks.{InTurn as InTurnOfForall};
ghost use Rattle.dpl_steps.specs.Contexts.{index_turn};
ghost use Rattle.dpl_program.specs.Printed.{by_text};

use dpl_dependence::{are_independent, are_own};
use dpl_domain::Index;
use dpl_frame::{Alarm, Arrays, DomainWord, Frame, Truth, Turn};
use dpl_loop::{Apart, Gate, Row, RunStop, Strip, Turns, forall_here};
use dpl_map::Map;
use dpl_nodes::{
    Argument, Changed, DomainExpr, IntFold, Names, PromotedInt, PromotedTruth, RangeExpr, Spot,
    Step, TruthFold,
};
use dpl_steps::{Context, Crew, Team, WholeTurns, bind, make_row, promoted_strip, run};
use std::alloc::AllocError;
use std::marker::PhantomData;

// In a turn of a forall, over frames with any arrays.
#[derive(Drop)]
struct TurnContext<A> {
    kept: PhantomData<A>,
}

impl<A: Arrays> Gate for TurnContext<A> {
    ghost may_refuse = { λ _ _ _. ⊥ };

    #[inline(always)]
    fn enter(&self, _worker: u32, _place: u64) -> bool {
        true
    }

    #[inline(always)]
    fn is_open(&self) -> bool {
        true
    }
}

impl<A: Arrays> Team for TurnContext<A> {
    type Kept = A;

    ghost is_ready = { λ _. Unit {0} };

    #[inline(always)]
    fn reduced_int(
        &self,
        _fold: IntFold,
        _e: &PromotedInt<'_>,
        _at: &Spot,
        _frame: &Frame<A>,
        _turn: &mut Turn,
    ) -> Option<Result<i64, Alarm>> {
        None
    }

    #[inline(always)]
    fn reduced_truth(
        &self,
        _fold: TruthFold,
        _e: &PromotedTruth<'_>,
        _at: &Spot,
        _frame: &Frame<A>,
        _turn: &mut Turn,
    ) -> Option<Result<Truth, Alarm>> {
        None
    }

    #[inline(always)]
    fn promoted_strip(&self, e: &PromotedInt<'_>, row: Row, frame: &Frame<A>) -> Strip {
        promoted_strip(e, row, frame)
    }
}

impl<A: Arrays> Crew for TurnContext<A> {
    fn make_whole(
        &self,
        turns: &WholeTurns<'_, '_>,
        over: DomainWord,
        map: &Map,
        frame: &mut Frame<A>,
    ) -> Result<(), RunStop> {
        forall_here(turns, over, map, frame, self)
    }
}

impl<A: Arrays> Context for TurnContext<A> {
    type Out = ();

    ghost standing = { InTurn };

    ghost site = { InTurnOfForall };

    ghost known = { λ _ _. by_text [] };

    ghost note = { λ _. silent };

    ghost waiting = { λ _ _ _ _. ⊥ };

    ghost held = { λ _ _. Unit {0} };

    fn write(
        &self,
        _ends_line: bool,
        _arguments: &[Argument<'_>],
        _frame: &Frame<A>,
        _out: &mut (),
    ) -> Result<(), RunStop> {
        Ok(())
    }

    fn forall_line<'t>(
        &self,
        _at: &Spot,
        _slot: usize,
        _over: &RangeExpr<'t>,
        _changed: &Changed<'t>,
        _body: &[Step<'t>],
        _frame: &mut Frame<A>,
        _out: &mut (),
    ) -> Result<(), RunStop> {
        Ok(())
    }

    fn forall<'t>(
        &self,
        _at: &Spot,
        _names: &Names<'t>,
        _over: &DomainExpr<'t>,
        _changed: &Changed<'t>,
        _body: &[Step<'t>],
        _frame: &mut Frame<A>,
        _out: &mut (),
    ) -> Result<(), RunStop> {
        Ok(())
    }
}

/// The turns of a forall: its variables hold the index, and its statements run. Beside these, for who makes the turns apart, the rank of its
/// indices and what its turns change.
#[derive(Drop)]
pub(crate) struct Body<'b, 't> {
    pub(crate) names: Names<'t>,
    pub(crate) steps: &'b [Step<'t>],
    pub(crate) rank: u32,
    pub(crate) changed: &'b Changed<'t>,
}

impl<'b, 't> Turns for Body<'b, 't> {
    ghost turn = { λ body limits. index_turn limits body.names (steps_in InTurn body.steps.now) };

    #[inline(always)]
    fn make<A: Arrays>(&self, index: Index, frame: &mut Frame<A>) -> Result<(), RunStop> {
        bind(&self.names, index, frame);
        let context = TurnContext::<A> { kept: PhantomData };
        run(self.steps, &context, frame, &mut ())
    }

    fn make_row<A: Arrays>(
        &self,
        row: Row,
        most: usize,
        frame: &mut Frame<A>,
    ) -> Result<usize, AllocError> {
        make_row(&self.names, self.steps, row, most, frame)
    }

    fn apart(&self) -> Option<Apart<'_>> {
        let changed = self.changed;
        if !are_own(&self.names, changed.numbers, changed.tuples) {
            return None;
        }
        if !are_independent(
            self.rank,
            &self.names,
            changed.written,
            changed.reduced,
            self.steps,
        ) {
            return None;
        }
        Some(Apart {
            rank: self.rank,
            written: changed.written,
            reduced: changed.reduced,
            numbers: changed.numbers,
            ranges: &[],
            tuples: changed.tuples,
        })
    }
}
