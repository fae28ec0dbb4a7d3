// The check: a tree that tokens spell is refused by the rules, or it is taken and elaborated.
// Words of tasks don't run yet, and are refused by the tokens, before the rules are asked.

ghost use Rattle.std.specs.Prelude.{◌≡◌, None, Some, map, IfOk, OnOk, IsErrOf};
ghost use Rattle.dpl_syntax.specs.declared.refusal.Refusal.{Refusal};
ghost use Rattle.dpl_syntax.specs.declared.stop.Stop.TheVariants as stage;
ghost use Rattle.dpl_grammar.specs.Classes.{task_words};
ghost use Rattle.dpl_tree.specs.Statements.{program_view};
ghost use Rattle.dpl_says.specs.Says.{refusal_of};
ghost use Rattle.dpl_run.specs.Programs.{AreSpelled, IsAllowed};
ghost use Rattle.dpl_run.specs.Elaborated.{IsUnrefused, IsWalked, IsChecked, program_of};

use crate::checked::Checked;
use dpl_checker::{Walked, walk_over};
use dpl_closed::closed;
use dpl_given::given;
use dpl_syntax::{Code, Refusal, Stop, Token};
use dpl_tree::{Arena, Program};
use std::alloc::{AllocError, Global};

/// Why the check takes no program: `P1` at a word of tasks, `C1` to `C14`, or out of memory.
pub type CheckStop = Stop;

// Keeps what a walk gave of a program that has no refusal, with what its sets give.
fn elaborated<'s, 't>(
    alloc: Global,
    program: &Program<'t>,
    sets: &'s [&'s str],
    walked: Walked<'t>,
) -> Result<Checked<'s, 't>, AllocError>
    requires unrefused { IsUnrefused (program_view program.now) (map (λ set. set.now) sets.now) }
    requires walked { IsWalked (program_view program.now) walked }
    ensures checked { IfOk result (λ c. IsChecked c) }
    ensures program { IfOk result (λ c. program_of c ≡ record { tree = program_view program.now; sets = map (λ set. set.now) sets.now }) }
{
    let Walked {
        steps,
        slots,
        scopes,
        ..
    } = walked;
    let words = given(alloc, &scopes, sets)?;
    let Ok(program) = Box::new(alloc, *program) else {
        return Err(AllocError);
    };
    Ok(Checked {
        program,
        sets,
        steps,
        slots,
        scopes,
        words,
    })
}

/// Checks the tree that the tokens of a text spell, and that the sets, words `name=value`, give values to its `config const`s.
///
/// A program that is taken breaks no rule, each of its foralls is admitted, and no set is left over; and it is elaborated: each name has
/// its slot, and each expression its type.
///
/// # Errors
/// The refusal: `P1` at the first word of tasks, which don't run yet; of the rules that are broken the first by place and then by code,
/// `C1` to `C13`; or `C14` for the sets. Or out of memory.
pub fn check<'s, 't>(
    arena: Arena<'t>,
    tokens: &[Token<'t>],
    program: &Program<'t>,
    sets: &'s [&'s str],
) -> Result<Checked<'s, 't>, CheckStop>
    requires { AreSpelled tokens.now (program_view program.now) }
    // What is taken is this program with these sets, and can be run.
    ensures taken { IfOk result (λ c. program_of c ≡ record { tree = program_view program.now; sets = map (λ set. set.now) sets.now }) }
    ensures checked { IfOk result (λ c. IsChecked c) }
    // It has no refusal, and so it is sound, and its foralls are admitted; no two of its statements stand at one place.
    ensures unrefused { OnOk result (refusal_of task_words (map (λ set. set.now) sets.now) tokens.now (program_view program.now) ≡ None) }
    ensures allowed { OnOk result (IsAllowed (program_view program.now)) }
    // A refusal is the program's.
    ensures refused { (r : Refusal) → IsErrOf result (stage.Refused r)
        → refusal_of task_words (map (λ set. set.now) sets.now) tokens.now (program_view program.now) ≡ Some r }
{
    if let Some(at) = closed(tokens) {
        return Err(Stop::Refused(Refusal {
            code: Code::Unexpected,
            place: Some(at),
        }));
    }
    let walked = walk_over(arena, program)?;
    match walked.refusal(arena.alloc(), sets)? {
        Some(refusal) => Err(Stop::Refused(refusal)),
        None => Ok(elaborated(arena.alloc(), program, sets, walked)?),
    }
}
