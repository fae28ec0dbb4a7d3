// The dump of what a program leaves: a line for each int, each truth value and each array.
// Ranges and domains have none.

ghost use Rattle.std.specs.Prelude.{◌≡◌, ◌≢◌, ◌++◌, false, true, None, take, drop, IfOk, OnOk};
ghost use Rattle.std.specs.Io.KnownBytes.{Appends, Keeps};
ghost use Rattle.dpl_says.specs.Dump.{dumped, line_of, value_line};
ghost use Rattle.dpl_memory.specs.Resolved.{array_content};
ghost use Rattle.dpl_contents.specs.Kinds.{kind_of};
ghost use Rattle.dpl_outcome.specs.Leaving.{value_view};
ghost use Rattle.dpl_outcome.specs.Writers.{Partly};

use crate::left::{Left, Value, Variable};
use crate::refused::Refused;
use crate::writer::{Out, write_all};
use dpl_contents::{ArrayWords, ElementKind, list_array};
use std::alloc::{AllocError, Global};

// Appends `name = `, a value's text, and the line's end.
fn add_line(name: &[u8], value: &[u8], text: &mut Vec<u8>) -> Result<(), AllocError>
    ensures { OnOk result (text.new.items ≡ text.old.items ++ value_line name.now value.now) }
{
    text.extend_from_slice(name)?;
    text.extend_from_slice(b" = ")?;
    text.extend_from_slice(value)?;
    text.push(b'\n')?;
    Ok(())
}

// Appends `name =`, an array's elements, each behind a space, and the line's end.
fn add_array(
    name: &[u8],
    kind: ElementKind,
    array: &ArrayWords,
    text: &mut Vec<u8>,
) -> Result<(), AllocError>
    ensures { OnOk result (text.new.items ≡ text.old.items ++ line_of name.now (array_content None (kind_of kind) array.now)) }
{
    text.extend_from_slice(name)?;
    text.extend_from_slice(b" =")?;
    list_array(kind, array, text)?;
    text.push(b'\n')?;
    Ok(())
}

// Appends the line of a variable, if it has one.
fn add(alloc: Global, variable: &Variable<'_>, text: &mut Vec<u8>) -> Result<(), AllocError>
    ensures { OnOk result (text.new.items ≡ text.old.items ++ line_of variable.now.name.now (value_view variable.now.value)) }
{
    match variable.value {
        Value::Int(n) => {
            let shown = format!(in alloc; "{n}")?;
            add_line(variable.name, shown.as_bytes(), text)
        }
        Value::Bool(true) => add_line(variable.name, b"true", text),
        Value::Bool(false) => add_line(variable.name, b"false", text),
        Value::Ints(array) => add_array(variable.name, ElementKind::Int, array, text),
        Value::Bools(array) => add_array(variable.name, ElementKind::Truth, array, text),
        Value::Range(_) | Value::Domain(_) => Ok(()),
    }
}

// Appends the line of the variable with a number, if there is one and it has a line.
fn add_numbered(
    alloc: Global,
    left: &Left,
    number: usize,
    text: &mut Vec<u8>,
) -> Result<(), AllocError>
    ensures { OnOk result (text.new.items ≡ text.old.items ++ dumped (take 1 (drop number left.now))) }
{
    match left.variable(number) {
        Some(variable) => {
            add(alloc, &variable, text)?;
            Ok(())
        }
        None => Ok(()),
    }
}

// The lines of all variables.
#[tactic(auto, using(crate::proofs::Dumped::dumped_next))]
fn lines(alloc: Global, left: &Left) -> Result<Vec<u8>, AllocError>
    ensures { IfOk result (λ text. text.items ≡ dumped left.now) }
{
    let mut text = Vec::new(alloc);
    for number in 0..left.len() {
        add_numbered(alloc, left, number, &mut text)?;
    }
    Ok(text)
}

/// Writes a line for each int, each truth value and each array that a program left, in order of declaration: `n = 5`, `A = 1 4 9`.
///
/// # Errors
/// Out of memory, and nothing was written; or the writer failed, and it holds the first bytes of the lines.
pub fn dump<W: Out>(alloc: Global, left: &Left, out: &mut W) -> Result<(), Refused>
    requires { W.has_failed out.old ≡ false }
    ensures written { OnOk result (Appends (W.contents out.old) (W.contents out.new) (dumped left.now)) }
    ensures unfailed { OnOk result (W.has_failed out.new ≡ false) }
    ensures memory { result ≡ Err Refused.Memory → Keeps (W.contents out.old) (W.contents out.new) × (W.has_failed out.new ≡ false) }
    ensures thread { result ≢ Err Refused.Thread }
    ensures gate { result ≢ Err Refused.Gate }
    ensures writer { result ≡ Err Refused.Writer → (W.has_failed out.new ≡ true) × Partly (W.contents out.old) (W.contents out.new) (dumped left.now) }
{
    let text = lines(alloc, left)?;
    write_all(out, &text)
}
