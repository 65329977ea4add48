//! Borrowed bytes that contracts see as the list of their values.
ghost use Rattle.std.specs.Prelude.{◌≡◌, ◌==◌, List, ℕ, length};

use std::marker::Model;

/// A slice of bytes inside a larger input. A type that holds one is equal to another where the bytes are.
#[derive(Drop)]
pub struct Bytes<'a> {
    bytes: &'a [u8],
}

impl<'a> Model for Bytes<'a> {
    ghost use Rattle.std.specs.Prelude.{List, ℕ};

    ghost Value = { List ℕ };

    ghost view = { λ s. s.bytes.now };
}

impl<'a> Bytes<'a> {
    /// These bytes. Nothing is copied.
    pub fn new(bytes: &'a [u8]) -> Bytes<'a>
        ensures { result ≡ bytes.now }
    {
        Bytes { bytes }
    }

    /// The bytes as a slice, for as long as the input lives.
    pub fn as_slice(&self) -> &'a [u8]
        ensures { result.now ≡ self.now }
    {
        self.bytes
    }

    /// The number of bytes.
    pub fn len(&self) -> usize
        ensures { result ≡ length self.now }
    {
        self.bytes.len()
    }

    /// Whether there is no byte.
    pub fn is_empty(&self) -> bool
        ensures { result ≡ (length self.now == 0) }
    {
        self.bytes.is_empty()
    }

    /// The same bytes once more, for a second holder.
    pub fn again(&self) -> Bytes<'a>
        ensures { result ≡ self.now }
    {
        Bytes { bytes: self.bytes }
    }
}
