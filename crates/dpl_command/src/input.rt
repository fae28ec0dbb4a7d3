// The text, as it is read: whole, or as much as shows that it is too long.
// What an input that breaks off gave before it did is dropped.

ghost use Rattle.std.specs.Prelude.{◌≡◌, take, IfOk, IfSome};
ghost use Rattle.dpl_command.specs.Ending.{IsTextOf};

use std::alloc::Global;
use std::io::{self, Read};

/// The greatest length of a text, in bytes.
pub(crate) const LONGEST_TEXT: u64 = 1048576;

/// Reads an input to its end, or to one byte past the longest text, by which a longer one is told from it.
///
/// # Errors
/// The input broke off, or memory ran out.
pub fn read_text<I: Read + Drop>(alloc: Global, input: I) -> io::Result<Vec<u8>>
    ensures { IfOk result (λ text. IsTextOf (I.remaining input) text.items) }
{
    let mut text = Vec::new(alloc);
    input.take(LONGEST_TEXT + 1).read_to_end(&mut text)?;
    Ok(text)
}
