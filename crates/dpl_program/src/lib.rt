// The statements of a program, run over a frame: prints are appended, and foralls are loops whose turns ask a gate.
// What a turn may do stands in a context of its own, so that a turn prints nothing and makes no turns.
// A forall runs through three crates. The walk of dpl_steps meets it, and hands it to its `Context`. That of a program (context.rt) evaluates
// what the forall runs over, and has it made by a closure that knows the runtime (forall.rt): this looks up by which map the turns are dealt
// out (dealt.rt, written.rt), and calls `forall` of dpl_workers with the body as `Turns`, which knows from the step what they change. The body is
// walked by dpl_steps again, in the context of a turn (body.rt). So no function comes back to itself through a trait, and loops know
// nothing of statements. Whole arrays and reductions are made by such closures too.
#![tactic(auto)]

mod body;
mod context;
mod dealt;
mod forall;
mod written;

pub use context::run;
