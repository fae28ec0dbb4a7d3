// The walk over statements: each tells its form, puts its deeds behind those so far, opens and closes scopes, and gives its step.
// What the body of a forall or a coforall does is then asked of the deeds that it has put there.

ghost use Rattle.std.specs.Prelude.{◌≡◌, OnOk, IfOk};
ghost use Rattle.dpl_language.specs.Tree.{Then, NoStmts, WhileWord, OnWord, ForallWord, CoforallWord};
ghost use Rattle.dpl_tree.specs.Statements.{stmt_view, body_view, else_view, stmts_of};
ghost use Rattle.dpl_checker.specs.Trees.{if_tree, headed_tree, for_tree, parallel_tree};
ghost use Rattle.dpl_checker.specs.Walks.{WalksStmt, WalksStmts, WalksInner, WalksBody, WalksElse};
ghost use Rattle.dpl_checker.specs.Makes.{MakesStmt, MakesStmts, MakesInner, MakesBody, MakesElse};

use crate::changed::changed;
use crate::form::{
    assigned, called, declare, open_forall, open_loop, open_shared, printed, sent, tested,
};
use crate::walk::{Around, Listed, Stepped, Walk};
use dpl_assignments::around::Reducing;
use dpl_bodies::ForallScope;
use dpl_bodies::forall::forall_breaches;
use dpl_bodies::task::task_breaches;
use dpl_deeds::intents::with_deeds;
use dpl_deeds::{Holding, behind, held};
use dpl_heads::head::LoopWord;
use dpl_heads::steps::{for_step, forall_step, headed_step, if_step};
use dpl_nodes::{Else as Otherwise, Step, StepWord};
use dpl_tree::{Body, Else, For, HeadWord, Headed, If, Parallel, ParallelWord, Stmt};
use dpl_typed::node::spot;
use std::alloc::AllocError;

/// A statement.
#[cycle(statement)]
pub(crate) fn stmt<'t>(walk: &mut Walk<'t>, around: Around<'t>, stmt: &Stmt<'t>) -> Stepped<'t>
    ensures walks { OnOk result (WalksStmt around.entry (stmt_view stmt.now) walk.old walk.new) }
    ensures makes { IfOk result (MakesStmt walk.old.scopes (stmt_view stmt.now) walk.new.first) }
{
    match stmt {
        Stmt::Nothing(_) => Ok(Step::Nothing),
        Stmt::Declare(written) => declare(walk, around, written),
        Stmt::Assigned(written) => assigned(walk, around, written),
        Stmt::Call(written) => called(walk, around, written),
        Stmt::Write(written) => printed(walk, around, written),
        Stmt::Block(block) => {
            let Ok(()) = walk.scopes.enter() else {
                return Err(AllocError);
            };
            let Ok(steps) = stmts(walk, around, block.stmts) else {
                return Err(AllocError);
            };
            walk.scopes.leave();
            Ok(Step::Block(steps))
        }
        Stmt::If(choice) => choose(walk, around, choice),
        Stmt::Headed(node) => match node.word {
            HeadWord::While => repeat(walk, around, node),
            HeadWord::On => on_locale(walk, around, node),
        },
        Stmt::For(turns) => for_turns(walk, around, turns),
        Stmt::Parallel(node) => match node.word {
            ParallelWord::Forall => forall_turns(walk, around, node),
            ParallelWord::Coforall => coforall_tasks(walk, around, node),
        },
    }
}

// Statements, one behind the other.
#[cycle(statement)]
fn stmts<'t>(walk: &mut Walk<'t>, around: Around<'t>, stmts: &[Stmt<'t>]) -> Listed<'t>
    ensures walks { OnOk result (WalksStmts around.entry (stmts_of stmts.now) walk.old walk.new) }
    ensures makes { IfOk result (λ steps. MakesStmts walk.old.scopes (stmts_of stmts.now) walk.new.first steps.now) }
{
    let mut steps = Vec::new(walk.arena.alloc());
    for next in stmts {
        let Ok(step) = stmt(walk, around, next) else {
            return Err(AllocError);
        };
        let Ok(()) = steps.push(step) else {
            return Err(AllocError);
        };
    }
    walk.arena.list(steps)
}

// One statement as a list.
#[cycle(statement)]
fn only<'t>(walk: &mut Walk<'t>, around: Around<'t>, inner: &Stmt<'t>) -> Listed<'t>
    ensures walks { OnOk result (WalksStmt around.entry (stmt_view inner.now) walk.old walk.new) }
    ensures makes { IfOk result (λ steps. MakesStmts walk.old.scopes (Then (stmt_view inner.now) NoStmts) walk.new.first steps.now) }
{
    let Ok(step) = stmt(walk, around, inner) else {
        return Err(AllocError);
    };
    let mut steps = Vec::new(walk.arena.alloc());
    let Ok(()) = steps.push(step) else {
        return Err(AllocError);
    };
    walk.arena.list(steps)
}

// A body, in the scope that was opened for it.
#[cycle(statement)]
fn inner<'t>(walk: &mut Walk<'t>, around: Around<'t>, body: &Body<'t>) -> Listed<'t>
    ensures walks { OnOk result (WalksInner around.entry (body_view body.now) walk.old walk.new) }
    ensures makes { IfOk result (λ steps. MakesInner walk.old.scopes (body_view body.now) walk.new.first steps.now) }
{
    match body {
        Body::Word(_, inner) => only(walk, around, inner),
        Body::Block(block) => stmts(walk, around, block.stmts),
    }
}

// A body, in a scope of its own.
#[cycle(statement)]
fn body<'t>(walk: &mut Walk<'t>, around: Around<'t>, body: &Body<'t>) -> Listed<'t>
    ensures walks { OnOk result (WalksBody around.entry (body_view body.now) walk.old walk.new) }
    ensures makes { IfOk result (λ steps. MakesBody walk.old.scopes (body_view body.now) walk.new.first steps.now) }
{
    let Ok(()) = walk.scopes.enter() else {
        return Err(AllocError);
    };
    let Ok(steps) = inner(walk, around, body) else {
        return Err(AllocError);
    };
    walk.scopes.leave();
    Ok(steps)
}

// What stands behind `else`, in a scope of its own.
#[cycle(statement)]
fn otherwise<'t>(
    walk: &mut Walk<'t>,
    around: Around<'t>,
    other: &Else<'t>,
) -> Result<Otherwise<'t>, AllocError>
    ensures walks { OnOk result (WalksElse around.entry (else_view other.now) walk.old walk.new) }
    ensures makes { IfOk result (λ o. MakesElse walk.old.scopes (else_view other.now) walk.new.first o) }
{
    match other {
        Else::Absent => Ok(Otherwise::Absent),
        Else::Do(_, inner) => {
            let Ok(()) = walk.scopes.enter() else {
                return Err(AllocError);
            };
            let Ok(step) = stmt(walk, around, inner) else {
                return Err(AllocError);
            };
            walk.scopes.leave();
            let Ok(step) = walk.arena.node(step) else {
                return Err(AllocError);
            };
            Ok(Otherwise::Do(step))
        }
    }
}

// `if`, perhaps with `else`.
#[cycle(statement)]
fn choose<'t>(walk: &mut Walk<'t>, around: Around<'t>, choice: &If<'t>) -> Stepped<'t>
    ensures walks { OnOk result (WalksStmt around.entry (if_tree choice.now) walk.old walk.new) }
    ensures makes { IfOk result (MakesStmt walk.old.scopes (if_tree choice.now) walk.new.first) }
{
    let Ok(condition) = tested(walk, choice.condition) else {
        return Err(AllocError);
    };
    let Ok(body) = body(walk, around, &choice.body) else {
        return Err(AllocError);
    };
    let Ok(otherwise) = otherwise(walk, around, &choice.otherwise) else {
        return Err(AllocError);
    };
    Ok(if_step(condition, body, otherwise))
}

// `while`.
#[cycle(statement)]
fn repeat<'t>(walk: &mut Walk<'t>, around: Around<'t>, turns: &Headed<'t>) -> Stepped<'t>
    ensures walks { OnOk result (WalksStmt around.entry (headed_tree WhileWord turns.now) walk.old walk.new) }
    ensures makes { IfOk result (MakesStmt walk.old.scopes (headed_tree WhileWord turns.now) walk.new.first) }
{
    let Ok(at) = spot(walk.arena, turns.at) else {
        return Err(AllocError);
    };
    let Ok(condition) = tested(walk, turns.value) else {
        return Err(AllocError);
    };
    let Ok(body) = body(walk, around, &turns.body) else {
        return Err(AllocError);
    };
    Ok(headed_step(StepWord::While, at, condition, body))
}

// `for`.
#[cycle(statement)]
fn for_turns<'t>(walk: &mut Walk<'t>, around: Around<'t>, turns: &For<'t>) -> Stepped<'t>
    ensures walks { OnOk result (WalksStmt around.entry (for_tree turns.now) walk.old walk.new) }
    ensures makes { IfOk result (MakesStmt walk.old.scopes (for_tree turns.now) walk.new.first) }
{
    let Ok(at) = spot(walk.arena, turns.at) else {
        return Err(AllocError);
    };
    let Ok(opened) = open_loop(walk, LoopWord::For, &turns.variables, &turns.over) else {
        return Err(AllocError);
    };
    let Ok(body) = body(walk, around, &turns.body) else {
        return Err(AllocError);
    };
    walk.scopes.leave();
    Ok(for_step(at, opened.names, opened.over, body))
}

// `forall`: the rules on its body, and what its turns change, go by what that does.
#[cycle(statement)]
fn forall_turns<'t>(walk: &mut Walk<'t>, around: Around<'t>, turns: &Parallel<'t>) -> Stepped<'t>
    ensures walks { OnOk result (WalksStmt around.entry (parallel_tree ForallWord turns.now) walk.old walk.new) }
    ensures makes { IfOk result (MakesStmt walk.old.scopes (parallel_tree ForallWord turns.now) walk.new.first) }
{
    let seen = ForallScope {
        depth: walk.scopes.depth(),
        variables: turns.variables,
        with: turns.with,
    };
    let Ok(at) = spot(walk.arena, turns.at) else {
        return Err(AllocError);
    };
    let Ok((opened, reduced)) = open_forall(walk, turns) else {
        return Err(AllocError);
    };
    let start = walk.deeds.len();
    let inside = Around {
        forall: Some(Reducing {
            depth: seen.depth,
            with: turns.with,
        }),
        in_task: around.in_task,
    };
    let Ok(body) = body(walk, inside, &turns.body) else {
        return Err(AllocError);
    };
    walk.scopes.leave();
    let Ok(()) = forall_breaches(
        walk.arena.alloc(),
        &seen,
        behind(&walk.deeds, start),
        &mut walk.first,
    ) else {
        return Err(AllocError);
    };
    let Ok(changed) = changed(walk, &seen, start, opened.names, reduced) else {
        return Err(AllocError);
    };
    Ok(forall_step(at, opened.names, opened.over, changed, body))
}

// `coforall`: the rules on its body speak of what its intents and that do. It isn't run.
#[cycle(statement)]
fn coforall_tasks<'t>(walk: &mut Walk<'t>, around: Around<'t>, tasks: &Parallel<'t>) -> Stepped<'t>
    ensures { OnOk result (WalksStmt around.entry (parallel_tree CoforallWord tasks.now) walk.old walk.new) }
{
    let depth = walk.scopes.depth();
    let Ok(()) = held(tasks.at, Holding::Coforall, &mut walk.deeds) else {
        return Err(AllocError);
    };
    let Ok(_) = open_shared(
        walk,
        LoopWord::Coforall,
        &tasks.variables,
        &tasks.over,
        &tasks.with,
    ) else {
        return Err(AllocError);
    };
    let start = walk.deeds.len();
    let Ok(()) = with_deeds(&tasks.with, &mut walk.deeds) else {
        return Err(AllocError);
    };
    let inside = Around {
        forall: around.forall,
        in_task: true,
    };
    let Ok(_) = body(walk, inside, &tasks.body) else {
        return Err(AllocError);
    };
    walk.scopes.leave();
    task_breaches(depth, behind(&walk.deeds, start), &mut walk.first);
    Ok(Step::Nothing)
}

// `on`, which isn't run.
#[cycle(statement)]
fn on_locale<'t>(walk: &mut Walk<'t>, around: Around<'t>, there: &Headed<'t>) -> Stepped<'t>
    ensures { OnOk result (WalksStmt around.entry (headed_tree OnWord there.now) walk.old walk.new) }
{
    let Ok(()) = sent(walk, there.at, there.value) else {
        return Err(AllocError);
    };
    let Ok(_) = body(walk, around, &there.body) else {
        return Err(AllocError);
    };
    Ok(Step::Nothing)
}
