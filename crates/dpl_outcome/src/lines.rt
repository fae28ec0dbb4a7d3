// The line that tells a fault or a refusal.
// A fault's line begins on a line of its own.

ghost use Rattle.std.specs.Prelude.{◌≡◌, ◌++◌, ◌∷◌, [], None, IfSome, IfOk, OnOk, if◌then◌else◌};
ghost use Rattle.dpl_syntax.specs.Lines.{refusal_text};
ghost use Rattle.dpl_language.specs.Program.{fault_code_text, fault_text, line_ended, turn_text};
ghost use Rattle.dpl_language.specs.Values.{InNone, InTurn};
ghost use Rattle.dpl_frame.specs.Faults.{fault_view, turn_view};

use dpl_arithmetic::index::{coordinate, plane, space};
use dpl_domain::Index;
use dpl_frame::{Fault, FaultCode, Turn};
use dpl_syntax::Refusal;
use std::alloc::{AllocError, Global};

// Whether a text ends within a line.
fn is_mid_line(text: &[u8]) -> bool
    ensures { line_ended text.now ≡ (if result then 10 ∷ [] else []) }
{
    match text {
        [] => false,
        [.., last] => *last != b'\n',
    }
}

// The name of a fault.
fn code_text(code: FaultCode) -> &'static str
    ensures { result.now ≡ fault_code_text code }
{
    match code {
        FaultCode::Outside => "F1",
        FaultCode::ZeroDivisor => "F2",
        FaultCode::PastLimit => "F3",
        FaultCode::EmptyEnd => "F4",
        FaultCode::Budget => "F5",
        FaultCode::NoLocale => "F6",
        FaultCode::CellStuck => "F7",
        FaultCode::ArrayTooLarge => "F8",
    }
}

// The index of a turn, if there is one.
fn index_of(turn: Turn) -> Option<Index>
    ensures some { IfSome result (λ index. turn_view turn ≡ InTurn index) }
    ensures none { result ≡ None → turn_view turn ≡ InNone }
{
    match turn {
        Turn::Absent => None,
        Turn::Line(i) => Some(coordinate(i)),
        Turn::Plane(i, j) => Some(plane(i, j)),
        Turn::Space(i, j, k) => Some(space(i, j, k)),
    }
}

// The turn that a fault names, or nothing.
fn turn_text(alloc: Global, turn: Turn) -> Result<String, AllocError>
    ensures { IfOk result (λ text. text.bytes.items ≡ turn_text (turn_view turn)) }
{
    match index_of(turn) {
        None => Ok(String::new(alloc)),
        Some(index) => format!(in alloc; " in turn {index}"),
    }
}

// A fault's line, without its end.
fn fault_line(alloc: Global, fault: Fault) -> Result<String, AllocError>
    ensures { IfOk result (λ line. line.bytes.items ≡ fault_text (fault_view fault)) }
{
    let code = code_text(fault.code);
    let at = fault.at;
    let turn = turn_text(alloc, fault.turn)?;
    format!(in alloc; "! {code} at {at}{turn}")
}

/// Appends a fault's line, behind a newline where the text doesn't end a line.
///
/// # Errors
/// Out of memory for it.
pub fn tell_fault(alloc: Global, fault: Fault, text: &mut Vec<u8>) -> Result<(), AllocError>
    ensures { OnOk result (text.new.items ≡ text.old.items ++ line_ended text.old.items ++ fault_text (fault_view fault) ++ 10 ∷ []) }
{
    let line = fault_line(alloc, fault)?;
    if is_mid_line(text) {
        text.push(b'\n')?;
    }
    text.extend_from_slice(line.as_bytes())?;
    text.push(b'\n')?;
    Ok(())
}

/// Appends a refusal's line.
///
/// # Errors
/// Out of memory for it.
pub fn tell_refusal(alloc: Global, refusal: Refusal, text: &mut Vec<u8>) -> Result<(), AllocError>
    ensures { OnOk result (text.new.items ≡ text.old.items ++ refusal_text refusal ++ 10 ∷ []) }
{
    let line = format!(in alloc; "{refusal}\n")?;
    text.extend_from_slice(line.as_bytes())?;
    Ok(())
}
