// Statements outside of all foralls.
// What a forall runs over is evaluated and tested here; its turns, those of whole arrays and reductions are made by closures over the
// runtime, by workers where they serve. None of these calls is inlined, so that the walk of statements keeps no room for them: the compiler
// clears it at each statement.

ghost use Rattle.std.specs.Prelude.{◌≡◌, None, [], ◌∷◌, map};
ghost use Rattle.dpl_language.specs.Outcome.{Deeds};
ghost use Rattle.dpl_language.specs.Ranges.{indices_in};
ghost use Rattle.dpl_language.specs.Statements.{exec_all};
ghost use Rattle.dpl_memory.specs.Memory.{in_memory};
ghost use Rattle.dpl_standing.specs.Standing.{Outside, InTurn};
ghost use Rattle.dpl_nodes.specs.Steps.{intent_view};
ghost use Rattle.dpl_nodes.specs.declared.step.Names.TheVariants.{Int as IntName};
ghost use Rattle.dpl_contents.specs.Range.{range_word};
ghost use Rattle.dpl_loop.specs.Runs.{RunsTo};
ghost use Rattle.dpl_loop.specs.Entries.{MayRefuse, MayRefuseSome};
ghost use Rattle.dpl_readings.specs.Readings.{steps_in};
ghost use Rattle.dpl_coming.specs.Noting.{silent};
ghost use Rattle.dpl_coming.specs.Walks.{Outside as OutsideTasks, Walks};
ghost use Rattle.dpl_frame.specs.Dealt.{dealt_by};
ghost use Rattle.dpl_readings.specs.Written.{written_among};
ghost use Rattle.dpl_steps.specs.Contexts.{TellsInts, TellsTruths, index_turn, intended_turns};
ghost use Rattle.dpl_program.specs.Making.{HasMade, HasMadeWhole};
ghost use Rattle.dpl_program.specs.Printed.{by_text};

use crate::body::Body;
use crate::dealt::dealt;
use crate::forall::{Forall, make_forall};
use dpl_frame::{Alarm, Arrays, DomainWord, Frame, RangeWord, Slots, Truth, Turn};
use dpl_loop::{Gate, Row, RunStop, Strip, forall_line};
use dpl_map::Map;
use dpl_nodes::{
    Argument, Changed, DomainExpr, IntFold, Names, PromotedInt, PromotedTruth, RangeExpr, Spot,
    Step, TruthFold,
};
use dpl_print::write;
use dpl_steps::{
    Context, Crew, Team, WholeTurns, domain_indices, promoted_strip, range_indices,
    reduced_int_by_workers, reduced_truth_by_workers, run as run_steps,
};
use dpl_workers::forall;
use std::sync::Wait;
use std::thread::Threads;

// Outside of all foralls. Four closures make the loops there, of turns and of reductions: what workers share has to be known by its type where
// they are started, and no method of a trait knows it.
#[derive(Drop)]
struct ProgramContext<'g, G, W, M, I, T> {
    gate: &'g G,
    make_whole: &'g W,
    make: &'g M,
    reduce_ints: &'g I,
    reduce_truths: &'g T,
}

impl<'g, G: Gate, W, M, I, T> Gate for ProgramContext<'g, G, W, M, I, T>
where
    W: Fn(&WholeTurns<'_, '_>, DomainWord, &Map, &mut Frame) -> Result<(), RunStop>,
    M: Fn(&Forall<'_, '_>, &mut Frame) -> Result<(), RunStop>,
    I: Fn(IntFold, &PromotedInt<'_>, &Spot, &Frame, &mut Turn) -> Result<i64, Alarm>,
    T: Fn(TruthFold, &PromotedTruth<'_>, &Spot, &Frame, &mut Turn) -> Result<Truth, Alarm>,
{
    ghost may_refuse = { λ context. G.may_refuse context.gate.now };

    #[inline(always)]
    fn enter(&self, worker: u32, place: u64) -> bool {
        self.gate.enter(worker, place)
    }

    #[inline(always)]
    fn is_open(&self) -> bool {
        self.gate.is_open()
    }
}

impl<'g, G: Gate, W, M, I, T> Team for ProgramContext<'g, G, W, M, I, T>
where
    W: Fn(&WholeTurns<'_, '_>, DomainWord, &Map, &mut Frame) -> Result<(), RunStop>,
    M: Fn(&Forall<'_, '_>, &mut Frame) -> Result<(), RunStop>,
    I: Fn(IntFold, &PromotedInt<'_>, &Spot, &Frame, &mut Turn) -> Result<i64, Alarm>,
    T: Fn(TruthFold, &PromotedTruth<'_>, &Spot, &Frame, &mut Turn) -> Result<Truth, Alarm>,
{
    type Kept = Slots;

    ghost is_ready = { λ context. W.IsAlwaysCallable context.make_whole.now
        × ((turns over map before result after : _) → W.post context.make_whole.now turns over map before result after
        → HasMadeWhole (G.may_refuse context.gate.now) turns.now over map.now before.now result after.now)
        × M.IsAlwaysCallable context.make.now
        × ((made before result after : _) → M.post context.make.now made before result after
        → HasMade (G.may_refuse context.gate.now) made.now before.now result after.now)
        × I.IsAlwaysCallable context.reduce_ints.now
        × ((fold e at frame before result after : _) → I.post context.reduce_ints.now fold e at frame before result after
        → TellsInts (G.may_refuse context.gate.now) frame.now fold e.now at.now after.now result)
        × T.IsAlwaysCallable context.reduce_truths.now
        × ((fold e at frame before result after : _) → T.post context.reduce_truths.now fold e at frame before result after
        → TellsTruths (G.may_refuse context.gate.now) frame.now fold e.now at.now after.now result) };

    fn reduced_int(
        &self,
        fold: IntFold,
        e: &PromotedInt<'_>,
        at: &Spot,
        frame: &Frame,
        turn: &mut Turn,
    ) -> Option<Result<i64, Alarm>> {
        Some((self.reduce_ints)(fold, e, at, frame, turn))
    }

    fn reduced_truth(
        &self,
        fold: TruthFold,
        e: &PromotedTruth<'_>,
        at: &Spot,
        frame: &Frame,
        turn: &mut Turn,
    ) -> Option<Result<Truth, Alarm>> {
        Some((self.reduce_truths)(fold, e, at, frame, turn))
    }

    fn promoted_strip(&self, e: &PromotedInt<'_>, row: Row, frame: &Frame) -> Strip {
        promoted_strip(e, row, frame)
    }
}

impl<'g, G: Gate, W, M, I, T> Crew for ProgramContext<'g, G, W, M, I, T>
where
    W: Fn(&WholeTurns<'_, '_>, DomainWord, &Map, &mut Frame) -> Result<(), RunStop>,
    M: Fn(&Forall<'_, '_>, &mut Frame) -> Result<(), RunStop>,
    I: Fn(IntFold, &PromotedInt<'_>, &Spot, &Frame, &mut Turn) -> Result<i64, Alarm>,
    T: Fn(TruthFold, &PromotedTruth<'_>, &Spot, &Frame, &mut Turn) -> Result<Truth, Alarm>,
{
    fn make_whole(
        &self,
        turns: &WholeTurns<'_, '_>,
        over: DomainWord,
        map: &Map,
        frame: &mut Frame,
    ) -> Result<(), RunStop> {
        (self.make_whole)(turns, over, map, frame)
    }
}

// The turns of a forall over a range that has more members than a domain. The caller makes them.
fn turns_of_line<'t, A: Arrays, G: Gate>(
    slot: usize,
    indices: &RangeWord,
    changed: &Changed<'t>,
    body: &[Step<'t>],
    frame: &mut Frame<A>,
    gate: &G,
) -> Result<(), RunStop>
    ensures ends { (done : Deeds) → RunsTo
        (MayRefuse (G.may_refuse gate.now) (dealt_by frame.old None (written_among (steps_in InTurn body.now))) (range_word indices.now ∷ []))
        result frame.new.memory done
        (intended_turns (map intent_view changed.now.reduced.now)
        (index_turn frame.old.limits (IntName slot) (steps_in InTurn body.now)) (indices_in (range_word indices.now ∷ [])) frame.old.memory done) }
    ensures limits { frame.new.limits ≡ frame.old.limits }
{
    let map = dealt(body, None, frame);
    let turns = Body {
        names: Names::Int(slot),
        steps: body,
        rank: 1,
        changed,
    };
    frame.intend(changed.reduced)?;
    forall_line(&turns, indices, &map, frame, gate)?;
    frame.intend_none();
    Ok(())
}

impl<'g, G: Gate, W, M, I, T> Context for ProgramContext<'g, G, W, M, I, T>
where
    W: Fn(&WholeTurns<'_, '_>, DomainWord, &Map, &mut Frame) -> Result<(), RunStop>,
    M: Fn(&Forall<'_, '_>, &mut Frame) -> Result<(), RunStop>,
    I: Fn(IntFold, &PromotedInt<'_>, &Spot, &Frame, &mut Turn) -> Result<i64, Alarm>,
    T: Fn(TruthFold, &PromotedTruth<'_>, &Spot, &Frame, &mut Turn) -> Result<Truth, Alarm>,
{
    type Out = Vec<u8>;

    ghost standing = { Outside };

    ghost site = { OutsideTasks };

    ghost known = { λ _ out. by_text out.items };

    ghost note = { λ _. silent };

    ghost waiting = { λ _ _ _ _. ⊥ };

    ghost held = { λ _ _. Unit {0} };

    #[inline(never)]
    fn write(
        &self,
        ends_line: bool,
        arguments: &[Argument<'_>],
        frame: &Frame,
        out: &mut Vec<u8>,
    ) -> Result<(), RunStop> {
        write(ends_line, arguments, frame, self, out)
    }

    #[inline(never)]
    fn forall_line<'t>(
        &self,
        at: &Spot,
        slot: usize,
        over: &RangeExpr<'t>,
        changed: &Changed<'t>,
        body: &[Step<'t>],
        frame: &mut Frame,
        _out: &mut Vec<u8>,
    ) -> Result<(), RunStop> {
        let range = range_indices(at, over, frame, self)?;
        let Some(indices) = DomainWord::new(&[range]) else {
            return turns_of_line(slot, &range, changed, body, frame, self);
        };
        let made = Forall {
            names: Names::Int(slot),
            origin: None,
            indices,
            changed,
            body,
        };
        (self.make)(&made, frame)
    }

    #[inline(never)]
    fn forall<'t>(
        &self,
        at: &Spot,
        names: &Names<'t>,
        over: &DomainExpr<'t>,
        changed: &Changed<'t>,
        body: &[Step<'t>],
        frame: &mut Frame,
        _out: &mut Vec<u8>,
    ) -> Result<(), RunStop> {
        let indices = domain_indices(at, over, frame, self)?;
        let made = Forall {
            names: *names,
            origin: over.origin(),
            indices,
            changed,
            body,
        };
        (self.make)(&made, frame)
    }
}

// The closures that make the loops of turns.
#[derive(Drop)]
struct Loops<'g, W, M> {
    make_whole: &'g W,
    make: &'g M,
}

// Runs statements, whose loops of turns and whose reductions of ints closures make.
fn run_ints_by<
    't,
    W: Fn(&WholeTurns<'_, '_>, DomainWord, &Map, &mut Frame) -> Result<(), RunStop>,
    M: Fn(&Forall<'_, '_>, &mut Frame) -> Result<(), RunStop>,
    I: Fn(IntFold, &PromotedInt<'_>, &Spot, &Frame, &mut Turn) -> Result<i64, Alarm>,
    R: Threads + Wait + Sync,
    G: Gate + Sync,
>(
    rt: &R,
    loops: &Loops<'_, W, M>,
    reduce_ints: &I,
    steps: &[Step<'t>],
    frame: &mut Frame,
    gate: &G,
    out: &mut Vec<u8>,
) -> Result<(), RunStop>
    requires callable { M.IsAlwaysCallable loops.now.make.now }
    requires makes { (made before result after : _) → M.post loops.now.make.now made before result after
        → HasMade (G.may_refuse gate.now) made.now before.now result after.now }
    requires whole_callable { W.IsAlwaysCallable loops.now.make_whole.now }
    requires makes_whole { (turns over map before result after : _) → W.post loops.now.make_whole.now turns over map before result after
        → HasMadeWhole (G.may_refuse gate.now) turns.now over map.now before.now result after.now }
    requires ints_callable { I.IsAlwaysCallable reduce_ints.now }
    requires reduces_ints { (fold e at frame before result after : _) → I.post reduce_ints.now fold e at frame before result after
        → TellsInts (G.may_refuse gate.now) frame.now fold e.now at.now after.now result }
    ensures ends { Walks (MayRefuseSome (G.may_refuse gate.now)) OutsideTasks (λ _ _ _. ⊥) result (by_text out.old.items) (by_text out.new.items)
        frame.old.memory frame.new.memory (exec_all frame.old.limits in_memory (steps_in Outside steps.now)) }
    ensures limits { frame.new.limits ≡ frame.old.limits }
{
    let reduce_truths = move |fold: TruthFold, e: &PromotedTruth<
        '_,
    >, at: &Spot, frame: &Frame, turn: &mut Turn| -> Result<Truth, Alarm>
        ensures { TellsTruths (G.may_refuse gate.entry.now) frame.now fold e.now at.now turn.new result }
    { reduced_truth_by_workers(rt, fold, e, at, frame, gate, turn) };
    let context = ProgramContext {
        gate,
        make_whole: loops.make_whole,
        make: loops.make,
        reduce_ints,
        reduce_truths: &reduce_truths,
    };
    run_steps(steps, &context, frame, out)
}

// Runs statements, whose loops of turns closures make.
fn run_wholes_by<
    't,
    W: Fn(&WholeTurns<'_, '_>, DomainWord, &Map, &mut Frame) -> Result<(), RunStop>,
    M: Fn(&Forall<'_, '_>, &mut Frame) -> Result<(), RunStop>,
    R: Threads + Wait + Sync,
    G: Gate + Sync,
>(
    rt: &R,
    loops: &Loops<'_, W, M>,
    steps: &[Step<'t>],
    frame: &mut Frame,
    gate: &G,
    out: &mut Vec<u8>,
) -> Result<(), RunStop>
    requires callable { M.IsAlwaysCallable loops.now.make.now }
    requires makes { (made before result after : _) → M.post loops.now.make.now made before result after
        → HasMade (G.may_refuse gate.now) made.now before.now result after.now }
    requires whole_callable { W.IsAlwaysCallable loops.now.make_whole.now }
    requires makes_whole { (turns over map before result after : _) → W.post loops.now.make_whole.now turns over map before result after
        → HasMadeWhole (G.may_refuse gate.now) turns.now over map.now before.now result after.now }
    ensures ends { Walks (MayRefuseSome (G.may_refuse gate.now)) OutsideTasks (λ _ _ _. ⊥) result (by_text out.old.items) (by_text out.new.items)
        frame.old.memory frame.new.memory (exec_all frame.old.limits in_memory (steps_in Outside steps.now)) }
    ensures limits { frame.new.limits ≡ frame.old.limits }
{
    let reduce_ints = move |fold: IntFold, e: &PromotedInt<
        '_,
    >, at: &Spot, frame: &Frame, turn: &mut Turn| -> Result<i64, Alarm>
        ensures { TellsInts (G.may_refuse gate.entry.now) frame.now fold e.now at.now turn.new result }
    { reduced_int_by_workers(rt, fold, e, at, frame, gate, turn) };
    run_ints_by(rt, loops, &reduce_ints, steps, frame, gate, out)
}

// Runs statements, whose foralls a closure makes.
fn run_by<
    't,
    M: Fn(&Forall<'_, '_>, &mut Frame) -> Result<(), RunStop>,
    R: Threads + Wait + Sync,
    G: Gate + Sync,
>(
    rt: &R,
    make: &M,
    steps: &[Step<'t>],
    frame: &mut Frame,
    gate: &G,
    out: &mut Vec<u8>,
) -> Result<(), RunStop>
    requires callable { M.IsAlwaysCallable make.now }
    requires makes { (made before result after : _) → M.post make.now made before result after
        → HasMade (G.may_refuse gate.now) made.now before.now result after.now }
    ensures ends { Walks (MayRefuseSome (G.may_refuse gate.now)) OutsideTasks (λ _ _ _. ⊥) result (by_text out.old.items) (by_text out.new.items)
        frame.old.memory frame.new.memory (exec_all frame.old.limits in_memory (steps_in Outside steps.now)) }
    ensures limits { frame.new.limits ≡ frame.old.limits }
{
    let make_whole = move |turns: &WholeTurns<
        '_,
        '_,
    >, over: DomainWord, map: &Map, frame: &mut Frame| -> Result<(), RunStop>
        ensures { HasMadeWhole (G.may_refuse gate.entry.now) turns.now over map.now frame.old result frame.new }
    { forall(rt, turns, over, map, frame, gate) };
    let loops = Loops {
        make_whole: &make_whole,
        make,
    };
    run_wholes_by(rt, &loops, steps, frame, gate, out)
}

/// Runs statements of a program one after another, and appends what they print. `rt` is what workers are started with.
///
/// # Errors
/// The first fault, behind what was printed before it; out of memory; a worker was not started; or the gate refused an entry, which it
/// may, and then nothing is said of the frame and of what is printed.
pub fn run<'t, R: Threads + Wait + Sync, G: Gate + Sync>(
    rt: &R,
    steps: &[Step<'t>],
    frame: &mut Frame,
    gate: &G,
    out: &mut Vec<u8>,
) -> Result<(), RunStop>
    ensures ends { Walks (MayRefuseSome (G.may_refuse gate.now)) OutsideTasks (λ _ _ _. ⊥) result (by_text out.old.items) (by_text out.new.items)
        frame.old.memory frame.new.memory (exec_all frame.old.limits in_memory (steps_in Outside steps.now)) }
    ensures limits { frame.new.limits ≡ frame.old.limits }
{
    let make = move |made: &Forall<'_, '_>, frame: &mut Frame| -> Result<(), RunStop>
        ensures { HasMade (G.may_refuse gate.entry.now) made.now frame.old result frame.new }
    { make_forall(rt, made, frame, gate) };
    run_by(rt, &make, steps, frame, gate, out)
}
