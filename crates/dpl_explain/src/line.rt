// The line of a text that a place is on.
// Lines end at newline bytes, and are counted from 1, as places count them.

ghost use Rattle.std.specs.Prelude.{◌≡◌, ◌++◌, ◌-◌};
ghost use Rattle.dpl_explain.specs.Excerpt.{behind_line, behind_lines, behind_place, first_line, line_at};

use dpl_syntax::Place;

// The first line, without its newline.
fn first_line(text: &[u8]) -> &[u8]
    ensures { result.now ≡ first_line text.now }
{
    let mut end = 0;
    'bytes: while end < text.len() {
        if text[end] == b'\n' {
            break;
        }
        end += 1;
    }
    &text[..end]
}

// What stands behind the first line and its newline.
fn behind_line(text: &[u8]) -> &[u8]
    ensures { result.now ≡ behind_line text.now }
{
    let mut rest = text;
    'bytes: while let Some((byte, others)) = rest.split_first() {
        rest = others;
        if *byte == b'\n' {
            return rest;
        }
    }
    rest
}

// The text from a line on. Behind the last line there is nothing.
fn from_line(text: &[u8], line: u32) -> &[u8]
    ensures { result.now ≡ behind_lines (line - 1) text.now }
{
    let mut rest = text;
    for _ in 1..line {
        rest = behind_line(rest);
    }
    rest
}

// The line of a number, without its newline. Behind the last line there are empty ones.
pub(crate) fn line_at(text: &[u8], line: u32) -> &[u8]
    ensures { result.now ≡ line_at line text.now }
{
    first_line(from_line(text, line))
}

// The text before a place, and from the place on.
pub(crate) fn parted_at(text: &[u8], at: Place) -> (&[u8], &[u8])
    ensures whole { result.0.now ++ result.1.now ≡ text.now }
    ensures behind { result.1.now ≡ behind_place at.line at.column text.now }
{
    let line = from_line(text, at.line);
    let before = (at.column as usize).saturating_sub(1).min(line.len());
    let (_, behind) = line.split_at(before);
    let (before, behind) = text.split_at(text.len() - behind.len());
    (before, behind)
}
