// Writers: where a run's bytes go.
// A writer takes some of the bytes that it is handed, or fails for good.

ghost use Rattle.std.specs.Prelude.{◌≡◌, ◌≤◌, ℕ, List, Bool, Option, IfOk, IfErr, OnOk, OnErr, length, true, false};
ghost use Rattle.std.specs.Io.KnownBytes.{Appends, Keeps, WriteAppends};
ghost use Rattle.dpl_outcome.specs.Writers.{fails, Partly};

use crate::refused::Refused;
use std::io::Write;
use thiserror::Error;

/// A writer took nothing.
#[derive(Clone, Copy, PartialEq, Eq, Debug, Error)]
#[error("the writer failed")]
pub struct OutFault;

/// A writer of bytes that says how many it took, and whether it has failed.
pub trait Out {
    // The bytes that it holds, where they are known.
    ghost contents: { Self → Option (List ℕ) };

    // Whether it has failed.
    ghost has_failed: { Self → Bool };

    /// Takes the first bytes of those handed in, and says how many.
    ///
    /// # Errors
    /// It took none. An error, or none taken of some bytes, makes the writer fail for good, and nothing else does.
    fn write(&mut self, bytes: &[u8]) -> Result<usize, OutFault>
        ensures bound { IfOk result (λ n. n ≤ length bytes.now) }
        ensures contents { WriteAppends (contents self.old) (contents self.new) result bytes.now }
        ensures failed { has_failed self.new ≡ fails (has_failed self.old) result bytes.now };

    /// Whether it has failed.
    fn failed(&self) -> bool
        ensures { result ≡ has_failed self.now };
}

/// A writer of std, and whether it has failed.
#[derive(Drop)]
pub struct Plain<W: Write> {
    /// The writer of std.
    pub writer: W,
    /// Whether it has failed.
    pub failed: bool,
}

impl<W: Write> Plain<W> {
    /// The writer, which has not failed.
    pub fn new(writer: W) -> Plain<W>
        ensures writer { result.writer ≡ writer }
        ensures failed { result.failed ≡ false }
    {
        Plain {
            writer,
            failed: false,
        }
    }
}

impl<W: Write> Out for Plain<W> {
    ghost contents = { λ plain. W.contents plain.writer };

    ghost has_failed = { λ plain. plain.failed };

    fn write(&mut self, bytes: &[u8]) -> Result<usize, OutFault> {
        match self.writer.write(bytes) {
            Ok(0) if !bytes.is_empty() => {
                self.failed = true;
                Ok(0)
            }
            Ok(count) => Ok(count),
            Err(_) => {
                self.failed = true;
                Err(OutFault)
            }
        }
    }

    fn failed(&self) -> bool {
        self.failed
    }
}

/// Writes all of the bytes, in as many calls as the writer wants.
///
/// # Errors
/// The writer failed. It then holds the first of the bytes, perhaps none.
pub fn write_all<W: Out>(out: &mut W, bytes: &[u8]) -> Result<(), Refused>
    requires { W.has_failed out.old ≡ false }
    ensures written { OnOk result (Appends (W.contents out.old) (W.contents out.new) bytes.now) }
    ensures unfailed { OnOk result (W.has_failed out.new ≡ false) }
    ensures partly { OnErr result (Partly (W.contents out.old) (W.contents out.new) bytes.now) }
    ensures failed { OnErr result (W.has_failed out.new ≡ true) }
    ensures writer { IfErr result (λ e. e ≡ Refused.Writer) }
{
    let mut rest = bytes;
    'all: while !rest.is_empty() {
        let Ok(count) = out.write(rest) else {
            return Err(Refused::Writer);
        };
        if count == 0 {
            return Err(Refused::Writer);
        }
        let (_, left) = rest.split_at(count);
        rest = left;
    }
    Ok(())
}
