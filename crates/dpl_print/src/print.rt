// `write` and `writeln`: the texts of all arguments behind what was printed before.
// Where an argument is a fault, what was printed before stays alone.

ghost use Rattle.std.specs.Prelude.{◌≡◌, ◌++◌, OnOk};
ghost use Rattle.std.specs.Fmt.{signed_decimal};
ghost use Rattle.dpl_language.specs.Outcome.{Deeds};
ghost use Rattle.dpl_language.specs.Writing.{line_end};
ghost use Rattle.dpl_language.specs.Statements.{exec};
ghost use Rattle.dpl_memory.specs.Memory.{in_memory};
ghost use Rattle.dpl_nodes.specs.Steps.{written_as};
ghost use Rattle.dpl_loop.specs.Runs.{RunsTo, having_printed};
ghost use Rattle.dpl_values.specs.Reductions.{MayRefuseReduction};
ghost use Rattle.dpl_values.specs.Arguments.{EachInArgument, EachInArguments};
ghost use Rattle.dpl_print.specs.Texts.{argument_text, arguments_text, GrewBy};

use crate::array_text::show_array;
use dpl_frame::{Frame, Slots};
use dpl_loop::RunStop;
use dpl_nodes::Argument;
use dpl_values::{Team, int_value, truth_value};
use itoa::Buffer;
use std::alloc::AllocError;

// Appends what is printed of a number.
fn print(n: i64, out: &mut Vec<u8>) -> Result<(), AllocError>
    ensures { OnOk result (out.new.items ≡ out.old.items ++ signed_decimal n) }
{
    let mut buffer = Buffer::new();
    out.extend_from_slice(buffer.format(n).as_bytes())?;
    Ok(())
}

// Appends the text of an argument.
#[tactic(auto, using(crate::proofs::Shown::shown_int, crate::proofs::Shown::shown_truth))]
fn show<G: Team<Kept = Slots>>(
    argument: &Argument<'_>,
    frame: &Frame,
    gate: &G,
    out: &mut Vec<u8>,
) -> Result<(), RunStop>
    requires ready { G.is_ready gate.now }
    ensures { GrewBy (MayRefuseReduction (G.may_refuse gate.now) frame.now (EachInArgument argument.now)) result out.old.items out.new.items
        (argument_text frame.now.limits argument.now frame.now.memory) }
{
    match argument {
        Argument::Text(bytes) => out.extend_from_slice(bytes)?,
        Argument::Int(e) => {
            let number = int_value(e, frame, gate)?;
            print(number, out)?;
        }
        Argument::Array(kind, slot) => show_array(*kind, *slot, frame, out)?,
        Argument::Truth(e) => {
            if truth_value(e, frame, gate)?.get() {
                out.extend_from_slice(b"true")?;
            } else {
                out.extend_from_slice(b"false")?;
            }
        }
    }
    Ok(())
}

// Appends the texts of arguments.
fn show_all<G: Team<Kept = Slots>>(
    arguments: &[Argument<'_>],
    frame: &Frame,
    gate: &G,
    out: &mut Vec<u8>,
) -> Result<(), RunStop>
    requires ready { G.is_ready gate.now }
    ensures { GrewBy (MayRefuseReduction (G.may_refuse gate.now) frame.now (EachInArguments arguments.now)) result out.old.items out.new.items
        (arguments_text frame.now.limits arguments.now frame.now.memory) }
{
    for argument in arguments {
        show(argument, frame, gate, out)?;
    }
    Ok(())
}

// Appends the line's end, if one is asked for.
fn end_line(ends_line: bool, out: &mut Vec<u8>) -> Result<(), AllocError>
    ensures { OnOk result (out.new.items ≡ out.old.items ++ line_end ends_line) }
{
    if ends_line {
        out.push(b'\n')?;
    }
    Ok(())
}

/// Prints the texts of all arguments, and then the line's end if one is asked for.
///
/// # Errors
/// The fault of an argument, which prints nothing; out of memory for what is printed; or the gate refused an entry of a reduction in
/// an argument, and then nothing is printed.
pub fn write<G: Team<Kept = Slots>>(
    ends_line: bool,
    arguments: &[Argument<'_>],
    frame: &Frame,
    gate: &G,
    out: &mut Vec<u8>,
) -> Result<(), RunStop>
    requires ready { G.is_ready gate.now }
    ensures { (done : Deeds)
        → RunsTo (MayRefuseReduction (G.may_refuse gate.now) frame.now (EachInArguments arguments.now)) result frame.now.memory
        (having_printed out.new.items done)
        (exec frame.now.limits in_memory (written_as ends_line arguments.now) frame.now.memory (having_printed out.old.items done)) }
{
    let start = out.len();
    if let Err(halt) = show_all(arguments, frame, gate, out) {
        out.truncate(start);
        return Err(halt);
    }
    end_line(ends_line, out)?;
    Ok(())
}
