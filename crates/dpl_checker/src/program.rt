// A whole program, walked over: where it breaks which rule first, its steps, how many slots these need, and its top level.
// A program without a violation keeps all rules, and a set that doesn't fit it is refused after these.

ghost use Rattle.std.specs.Prelude.{◌≡◌, IfOk, OnOk, [], map};
ghost use Rattle.dpl_tree.specs.Statements.{stmts_of, program_view};
ghost use Rattle.dpl_rules.specs.Breaches.{top, first_breach as first_breach_of};
ghost use Rattle.dpl_rules.specs.Sound.{behind_all, refusal_by, sets_fit as sets_fit_of};
ghost use Rattle.dpl_bound.specs.Bounds.{slots_of};
ghost use Rattle.dpl_checker.specs.Walks.{HasBegun, WalksTop};
ghost use Rattle.dpl_checker.specs.Makes.{MakesStmts};

use crate::statement::stmt;
use crate::walk::{Around, Walk};
use dpl_limits::{Counts, sets_fit};
use dpl_nodes::Step;
use dpl_scopes::Scopes;
use dpl_syntax::{Breach, Code, Refusal};
use dpl_tree::{Arena, Program, Stmt};
use std::alloc::{AllocError, Global};

/// A program that was walked over.
#[derive(Drop)]
pub struct Walked<'t> {
    /// The first violation by place and then by code, if there is one.
    pub first: Option<Breach>,
    /// The program as typed statements; where a rule is broken, of these nothing is said.
    pub steps: Vec<Step<'t>>,
    /// How many slots a frame needs.
    pub slots: usize,
    /// The names at the program's end: its top level.
    pub scopes: Scopes<'t>,
}

// A walk before any statement.
fn begin<'t>(arena: Arena<'t>) -> Result<Walk<'t>, AllocError>
    ensures { IfOk result (λ walk. HasBegun walk) }
{
    let alloc = arena.alloc();
    let Ok(scopes) = Scopes::new(alloc) else {
        return Err(AllocError);
    };
    Ok(Walk {
        arena,
        scopes,
        deeds: Vec::new(alloc),
        first: None,
        slots: 0,
        counts: Counts::begin(),
    })
}

// The statements of the top level, one behind the other. What each does is dropped behind it: no loop is around it that could forbid that.
fn top_level<'t>(walk: &mut Walk<'t>, stmts: &[Stmt<'t>]) -> Result<Vec<Step<'t>>, AllocError>
    requires { walk.old.deeds.items ≡ [] }
    ensures walks { OnOk result (WalksTop (stmts_of stmts.now) walk.old walk.new) }
    ensures makes { IfOk result (λ steps. MakesStmts walk.old.scopes (stmts_of stmts.now) walk.new.first steps.items) }
{
    let outside = Around {
        forall: None,
        in_task: false,
    };
    let mut steps = Vec::new(walk.arena.alloc());
    for next in stmts {
        let Ok(step) = stmt(walk, outside, next) else {
            return Err(AllocError);
        };
        walk.deeds.clear();
        let Ok(()) = steps.push(step) else {
            return Err(AllocError);
        };
    }
    Ok(steps)
}

/// Walks over a program once. Nodes lie in the arena.
///
/// # Errors
/// Out of memory.
pub fn walk_over<'t>(arena: Arena<'t>, program: &Program<'t>) -> Result<Walked<'t>, AllocError>
    ensures first { IfOk result (λ w. w.first ≡ first_breach_of (program_view program.now)) }
    ensures scopes { IfOk result (λ w. w.scopes ≡ behind_all top (stmts_of program.now.stmts.now)) }
    ensures slots { IfOk result (λ w. w.slots ≡ slots_of (program_view program.now)) }
    ensures steps { IfOk result (λ w. MakesStmts top (stmts_of program.now.stmts.now) w.first w.steps.items) }
{
    let Ok(mut walk) = begin(arena) else {
        return Err(AllocError);
    };
    let Ok(steps) = top_level(&mut walk, program.stmts) else {
        return Err(AllocError);
    };
    walk.counts.tell(&mut walk.first);
    Ok(Walked {
        first: walk.first,
        steps,
        slots: walk.slots,
        scopes: walk.scopes,
    })
}

// The refusal by a violation, or else by whether the sets fit.
fn refused(breach: Option<Breach>, fit: bool) -> Option<Refusal>
    ensures { result ≡ refusal_by breach fit }
{
    match breach {
        Some(breach) => Some(Refusal {
            code: breach.code,
            place: Some(breach.at),
        }),
        None => if fit {
            None
        } else {
            Some(Refusal {
                code: Code::BadSet,
                place: None,
            })
        },
    }
}

impl<'t> Walked<'t> {
    /// The refusal of a program that was walked over, where it breaks a rule or a set of the command line doesn't fit it: of its
    /// violations the first by place and then by code, C1 to C13, and else C14 for the sets.
    ///
    /// # Errors
    /// Out of memory.
    pub fn refusal(&self, alloc: Global, sets: &[&str]) -> Result<Option<Refusal>, AllocError>
        ensures { IfOk result (λ r. r ≡ refusal_by self.now.first (sets_fit_of self.now.scopes [] (map (λ set. set.now) sets.now))) }
    {
        let Ok(fit) = sets_fit(alloc, &self.scopes, sets) else {
            return Err(AllocError);
        };
        Ok(refused(self.first, fit))
    }
}
