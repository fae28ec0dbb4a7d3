// The statements that hold no other, and the heads of loops: what each tells and does, what is in sight behind it, and its step.
// A loop's head opens the scope of its variables.

ghost use Rattle.std.specs.Prelude.{◌++◌, [], OnOk, IfOk};
ghost use Rattle.dpl_language.specs.Tree.{Declare as DeclareTree, Assigned as AssignedTree, Call as CallTree, Write as WriteTree, ForallWord};
ghost use Rattle.dpl_tree.specs.View.{name_view, expr_view, item_view};
ghost use Rattle.dpl_tree.specs.Declarations.{optional, declare_view};
ghost use Rattle.dpl_tree.specs.Statements.{target_view, sign_view, call_view, written_view, variables_view, with_view};
ghost use Rattle.dpl_rules.specs.Assignments.{condition_breaches, on_breaches};
ghost use Rattle.dpl_heads.specs.Told.{word_view};
ghost use Rattle.dpl_rules.specs.Deeds.{held as held_of, AnOn, expr_deeds as expr_deeds_of};
ghost use Rattle.dpl_checker.specs.declared.walk.Around.{Around as AroundNode};
ghost use Rattle.dpl_checker.specs.Walks.{Walks, WalksStmt, WalksLoop, WalksShared, WalksTurns, sight_in};
ghost use Rattle.dpl_checker.specs.Makes.{MakesStmt, MakesTruth, MakesHead, MakesReduced};

use crate::walk::{Around, Stepped, Walk};
use dpl_assignments::assignment::assignment;
use dpl_declarations::declaration::declaration;
use dpl_deeds::intents::with_deeds;
use dpl_deeds::{Holding, held};
use dpl_heads::condition::{condition, on};
use dpl_heads::head::{Iterable, LoopWord, head};
use dpl_heads::intents::intents;
use dpl_heads::variables::enter_loop;
use dpl_nodes::{BoolExpr, Intent, Names, Step};
use dpl_prints::call::call;
use dpl_prints::print::print;
use dpl_syntax::Place;
use dpl_tree::{Assignment, CellCall, Declare, Expr, Item, Parallel, Variables, With, Write};
use std::alloc::AllocError;

/// A declaration, whose name is in sight behind it.
#[tactic(auto, using(crate::proofs::Names::add_declared_by))]
pub(crate) fn declare<'t>(
    walk: &mut Walk<'t>,
    around: Around<'t>,
    written: &Declare<'t>,
) -> Stepped<'t>
    ensures walks { OnOk result (WalksStmt around.entry (DeclareTree (declare_view written.now)) walk.old walk.new) }
    ensures makes { IfOk result (MakesStmt walk.old.scopes (DeclareTree (declare_view written.now)) walk.new.first) }
{
    let Ok(made) = declaration(
        walk.arena,
        &walk.scopes,
        written,
        &mut walk.deeds,
        &mut walk.first,
    ) else {
        return Err(AllocError);
    };
    let declared = made.declared;
    let Ok(()) = walk
        .scopes
        .declare(declared.origin.name, declared.sort, declared.value_type)
    else {
        return Err(AllocError);
    };
    walk.count_slots();
    walk.counts = walk.counts.with(written);
    Ok(made.step)
}

/// An assignment.
pub(crate) fn assigned<'t>(
    walk: &mut Walk<'t>,
    around: Around<'t>,
    written: &Assignment<'t>,
) -> Stepped<'t>
    ensures walks { OnOk result (WalksStmt around.entry (AssignedTree (target_view written.now.target) (sign_view written.now.sign)
        (item_view written.now.value) written.now.semicolon) walk.old walk.new) }
    ensures makes { IfOk result (MakesStmt walk.old.scopes (AssignedTree (target_view written.now.target) (sign_view written.now.sign)
        (item_view written.now.value) written.now.semicolon) walk.new.first) }
{
    assignment(
        walk.arena,
        &walk.scopes,
        &around.forall,
        written,
        &mut walk.deeds,
        &mut walk.first,
    )
}

/// A cell's call, which isn't run.
pub(crate) fn called<'t>(
    walk: &mut Walk<'t>,
    around: Around<'t>,
    written: &CellCall<'t>,
) -> Stepped<'t>
    ensures { OnOk result (WalksStmt around.entry (CallTree (name_view written.now.name) written.now.dot
        (call_view written.now.call) written.now.semicolon) walk.old walk.new) }
{
    let Ok(()) = call(
        walk.arena,
        &walk.scopes,
        written,
        &mut walk.deeds,
        &mut walk.first,
    ) else {
        return Err(AllocError);
    };
    Ok(Step::Nothing)
}

/// What is printed.
pub(crate) fn printed<'t>(
    walk: &mut Walk<'t>,
    around: Around<'t>,
    written: &Write<'t>,
) -> Stepped<'t>
    ensures walks { OnOk result (WalksStmt around.entry (WriteTree (written_view written.now)) walk.old walk.new) }
    ensures makes { IfOk result (MakesStmt walk.old.scopes (WriteTree (written_view written.now)) walk.new.first) }
{
    print(
        walk.arena,
        &walk.scopes,
        around.in_task,
        written,
        &mut walk.deeds,
        &mut walk.first,
    )
}

/// What a loop's head comes to: its variables with their slots, and what it runs over.
#[derive(Clone, Copy)]
pub(crate) struct Opened<'t> {
    pub names: Names<'t>,
    pub over: Iterable<'t>,
}

/// The head of a loop: what it runs over, and the scope of its variables, which is open behind it.
#[tactic(auto, using(dpl_types::proofs::Breaches::least_from_append))]
pub(crate) fn open_loop<'t>(
    walk: &mut Walk<'t>,
    word: LoopWord,
    variables: &Variables<'t>,
    over: &Item<'t>,
) -> Result<Opened<'t>, AllocError>
    ensures walks { OnOk result (WalksLoop (word_view word) (variables_view variables.now) (item_view over.now) walk.old walk.new) }
    ensures makes { IfOk result (MakesHead walk.old.scopes (word_view word) (variables_view variables.now) (item_view over.now) walk.new.first) }
{
    let Ok(found) = head(
        walk.arena,
        &walk.scopes,
        word,
        variables,
        over,
        &mut walk.deeds,
        &mut walk.first,
    ) else {
        return Err(AllocError);
    };
    let Ok(names) = enter_loop(
        walk.arena,
        &mut walk.scopes,
        variables,
        found.variable_type,
        &mut walk.first,
    ) else {
        return Err(AllocError);
    };
    walk.count_slots();
    Ok(Opened {
        names,
        over: found.over,
    })
}

/// The head of a forall or a coforall, with its intents: its reduce variables.
pub(crate) fn open_shared<'t>(
    walk: &mut Walk<'t>,
    word: LoopWord,
    variables: &Variables<'t>,
    over: &Item<'t>,
    with: &Option<With<'t>>,
) -> Result<(Opened<'t>, &'t [Intent]), AllocError>
    ensures walks { OnOk result (WalksShared (word_view word) (variables_view variables.now) (item_view over.now) (optional with_view with.now)
        walk.old walk.new) }
    ensures makes { IfOk result (λ o. MakesHead walk.old.scopes (word_view word) (variables_view variables.now) (item_view over.now) walk.new.first o.0) }
    ensures reduced { IfOk result (λ o. MakesReduced walk.old.scopes (optional with_view with.now) walk.new.first o.1.now) }
{
    let Ok(reduced) = intents(walk.arena, &walk.scopes, with, &mut walk.first) else {
        return Err(AllocError);
    };
    let Ok(opened) = open_loop(walk, word, variables, over) else {
        return Err(AllocError);
    };
    Ok((opened, reduced))
}

/// The head of a forall with its intents: its reduce variables. What it does is that there is one, then what it runs over does, then its intents.
pub(crate) fn open_forall<'t>(
    walk: &mut Walk<'t>,
    turns: &Parallel<'t>,
) -> Result<(Opened<'t>, &'t [Intent]), AllocError>
    ensures walks { OnOk result (WalksTurns turns.now.at (variables_view turns.now.variables) (item_view turns.now.over) (optional with_view turns.now.with)
        walk.old walk.new) }
    ensures makes { IfOk result (λ o. MakesHead walk.old.scopes ForallWord (variables_view turns.now.variables) (item_view turns.now.over)
        walk.new.first o.0) }
    ensures reduced { IfOk result (λ o. MakesReduced walk.old.scopes (optional with_view turns.now.with) walk.new.first o.1.now) }
{
    let Ok(()) = held(turns.at, Holding::Forall, &mut walk.deeds) else {
        return Err(AllocError);
    };
    let Ok((opened, reduced)) = open_shared(
        walk,
        LoopWord::Forall,
        &turns.variables,
        &turns.over,
        &turns.with,
    ) else {
        return Err(AllocError);
    };
    let Ok(()) = with_deeds(&turns.with, &mut walk.deeds) else {
        return Err(AllocError);
    };
    Ok((opened, reduced))
}

/// The condition of an `if` or a `while`.
pub(crate) fn tested<'t>(
    walk: &mut Walk<'t>,
    e: &Expr<'t>,
) -> Result<Option<&'t BoolExpr<'t>>, AllocError>
    ensures walks { (around : AroundNode) → OnOk result (Walks walk.old.scopes walk.old.slots (expr_deeds_of walk.old.scopes (expr_view e.now))
        (condition_breaches (sight_in walk.old.scopes around) (expr_view e.now)) [] walk.old walk.new) }
    ensures makes { IfOk result (MakesTruth walk.old.scopes (expr_view e.now) walk.new.first) }
{
    condition(
        walk.arena,
        &walk.scopes,
        e,
        &mut walk.deeds,
        &mut walk.first,
    )
}

/// What `on` stands before.
pub(crate) fn sent<'t>(walk: &mut Walk<'t>, at: Place, e: &Expr<'t>) -> Result<(), AllocError>
    ensures { (around : AroundNode) → OnOk result (Walks walk.old.scopes walk.old.slots
        (held_of at AnOn ++ expr_deeds_of walk.old.scopes (expr_view e.now)) (on_breaches (sight_in walk.old.scopes around) (expr_view e.now)) []
        walk.old walk.new) }
{
    let Ok(()) = held(at, Holding::On, &mut walk.deeds) else {
        return Err(AllocError);
    };
    on(
        walk.arena,
        &walk.scopes,
        e,
        &mut walk.deeds,
        &mut walk.first,
    )
}
