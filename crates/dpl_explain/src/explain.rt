// What a person is told of a text that was refused, and of a fault that stopped a program.
// First its place and the rule's sentence, then the line that the place is on, and of a refused text a hint, where there is one.

ghost use Rattle.std.specs.Prelude.{◌≡◌, ◌++◌, ℕ, List, IfOk, IfSome};
ghost use Rattle.dpl_explain.specs.Excerpt.{ShowsPlace};
ghost use Rattle.dpl_explain.specs.Help.{IsHelp, ShowsPlaceAndHelp, help_line};

use crate::excerpt::push_excerpt;
use crate::line::parted_at;
use crate::sentence::{fault_sentence, fault_text, refusal_sentence};
use dpl_frame::{Fault, Turn};
use dpl_hints::hint;
use dpl_syntax::{Code, Place, Refusal};
use std::alloc::{AllocError, Global};

// Appends a line of help.
fn push_help(help: &str, lines: &mut Vec<u8>) -> Result<(), AllocError>
    ensures { IfOk result (λ _. lines.new.items ≡ lines.old.items ++ help_line help.now) }
{
    lines.extend_from_slice(b"help: ")?;
    lines.extend_from_slice(help.as_bytes())?;
    lines.push(b'\n')?;
    Ok(())
}

// Appends the hint on what stands at a place of the text, where there is one.
fn push_hint(
    alloc: Global,
    text: &[u8],
    code: Code,
    at: Place,
    lines: &mut Vec<u8>,
) -> Result<(), AllocError>
    ensures { IfOk result (λ _. (more : List ℕ) × (lines.new.items ≡ lines.old.items ++ more) × IsHelp code more) }
{
    let (before, behind) = parted_at(text, at);
    match hint(alloc, code, before, behind) {
        None => Ok(()),
        Some(help) => push_help(help, lines),
    }
}

/// `squares.chpl:1:33: error[C8]: sentence`, the line of the text, and `help: ..` where there is a hint; a refusal without a place is told by the name
/// alone.
///
/// # Errors
/// Out of memory.
pub fn explain_refusal(
    alloc: Global,
    name: &str,
    text: &[u8],
    refusal: &Refusal,
) -> Result<Vec<u8>, AllocError>
    ensures { IfOk result (λ lines. IfSome refusal.now.place (λ at. ShowsPlaceAndHelp refusal.now.code text.now at lines.items)) }
{
    let code = refusal.code;
    let sentence = refusal_sentence(code);
    let Some(at) = refusal.place else {
        let told = format!(in alloc; "{name}: error[{code}]: {sentence}\n")?;
        return Ok(told.into_bytes());
    };
    let told = format!(in alloc; "{name}:{at}: error[{code}]: {sentence}\n")?;
    let mut lines = told.into_bytes();
    push_excerpt(text, at, &mut lines)?;
    push_hint(alloc, text, code, at, &mut lines)?;
    Ok(lines)
}

/// `squares.chpl:4:13: error[F1]: sentence, in turn 3`, and the line of the text.
///
/// # Errors
/// Out of memory.
pub fn explain_fault(
    alloc: Global,
    name: &str,
    text: &[u8],
    fault: &Fault,
) -> Result<Vec<u8>, AllocError>
    ensures { IfOk result (λ lines. ShowsPlace text.now fault.now.at lines.items) }
{
    let at = fault.at;
    let code = fault_text(fault.code);
    let sentence = fault_sentence(fault.code);
    let turn = turn_told(alloc, fault.turn)?;
    let told = format!(in alloc; "{name}:{at}: error[{code}]: {sentence}{turn}\n")?;
    let mut lines = told.into_bytes();
    push_excerpt(text, at, &mut lines)?;
    Ok(lines)
}

// `, in turn 2,1`, or nothing.
fn turn_told(alloc: Global, turn: Turn) -> Result<String, AllocError> {
    match turn {
        Turn::Absent => Ok(String::new(alloc)),
        Turn::Line(i) => format!(in alloc; ", in turn {i}"),
        Turn::Plane(i, j) => format!(in alloc; ", in turn {i},{j}"),
        Turn::Space(i, j, k) => format!(in alloc; ", in turn {i},{j},{k}"),
    }
}
