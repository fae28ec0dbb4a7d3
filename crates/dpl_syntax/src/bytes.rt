// Bytes of a text, borrowed from it.
// Contracts see them as their list, wherever in memory they lie.

ghost use Rattle.std.specs.Prelude.{◌≡◌, ℕ, List};

use std::alloc::AllocError;
use std::marker::Model;

/// Bytes as they stand in a text.
#[derive(Drop)]
pub struct Bytes<'a> {
    bytes: &'a [u8],
}

impl<'a> Model for Bytes<'a> {
    ghost Value = { List ℕ };

    ghost view = { λ bytes. bytes.bytes.now };
}

impl<'a> Bytes<'a> {
    /// These bytes.
    pub fn new(bytes: &'a [u8]) -> Bytes<'a>
        ensures { result ≡ bytes.now }
    {
        Bytes { bytes }
    }

    /// The bytes, which may outlive this value.
    pub fn as_bytes(&self) -> &'a [u8]
        ensures { result.now ≡ self.now }
    {
        self.bytes
    }

    /// The same bytes once more.
    pub fn copied(&self) -> Bytes<'a>
        ensures { result ≡ self.now }
    {
        Bytes { bytes: self.bytes }
    }
}

impl<'a> Clone for Bytes<'a> {
    ghost is_clone = { λ bytes copy. copy ≡ bytes };

    fn clone(&self) -> Result<Bytes<'a>, AllocError> {
        Ok(self.copied())
    }
}
