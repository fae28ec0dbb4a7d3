// The line of a place, as a terminal may show it, and a mark under the place's column.

ghost use Rattle.std.specs.Prelude.{◌≡◌, ◌++◌, take, ◌-◌, IfOk};
ghost use Rattle.dpl_explain.specs.Excerpt.{blanks, excerpt, is_control, is_later, mark, shown};

use crate::line::line_at;
use dpl_syntax::Place;
use std::alloc::AllocError;

// Appends the line of a place, and a line with a mark under the place's column.
pub(crate) fn push_excerpt(text: &[u8], at: Place, lines: &mut Vec<u8>) -> Result<(), AllocError>
    ensures { IfOk result (λ _. lines.new.items ≡ lines.old.items ++ excerpt at.line at.column text.now) }
{
    let line = line_at(text, at.line);
    push_shown(line, lines)?;
    lines.push(b'\n')?;
    push_mark(line, at.column, lines)
}

// Appends a line without its control bytes: each but a tab is a space.
fn push_shown(line: &[u8], lines: &mut Vec<u8>) -> Result<(), AllocError>
    ensures { IfOk result (λ _. lines.new.items ≡ lines.old.items ++ shown line.now) }
{
    let mut rest = line;
    'bytes: while let Some((byte, others)) = rest.split_first() {
        lines.push(if is_control(*byte) { b' ' } else { *byte })?;
        rest = others;
    }
    Ok(())
}

// Whether a terminal takes a byte for a command, and it is no tab.
fn is_control(byte: u8) -> bool
    ensures { result ≡ is_control byte }
{
    byte < b' ' && byte != b'\t' || byte == 127
}

// Appends the mark, under a column of a line: a tab under a tab, nothing where a character goes on, and a space under all others.
fn push_mark(line: &[u8], column: u32, lines: &mut Vec<u8>) -> Result<(), AllocError>
    ensures { IfOk result (λ _. lines.new.items ≡ lines.old.items ++ mark column line.now) }
{
    let before = (column as usize).saturating_sub(1).min(line.len());
    let (mut rest, _) = line.split_at(before);
    'bytes: while let Some((byte, others)) = rest.split_first() {
        if *byte == b'\t' {
            lines.push(b'\t')?;
        } else if !is_later(*byte) {
            lines.push(b' ')?;
        }
        rest = others;
    }
    lines.extend_from_slice(b"^\n")
}

// Whether a byte goes on with a character that an earlier one begins.
fn is_later(byte: u8) -> bool
    ensures { result ≡ is_later byte }
{
    128 <= byte && byte < 192
}
