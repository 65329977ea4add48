//! How faults are put into words: a name, and then each field as ` name=value`. The names in class files are bytes that
//! need not be text, so all words are lists of bytes.

ghost use Rattle.std.specs.Prelude.{◌≡◌, IfOk, map};
ghost use Rattle.std.specs.Fmt.{decimal};
ghost use Rattle.list_views.specs.FaultWords.{joined, number_field, bytes_field};

use crate::seq::Seq;
use std::alloc::{AllocError, Global};

/// The pieces, one behind the other.
///
/// # Errors
///
/// Want of memory.
pub fn joined(alloc: Global, pieces: &[&[u8]]) -> Result<Seq<u8>, AllocError>
    ensures { IfOk result (λ text. text ≡ joined (map (λ piece. piece.now) pieces.now)) }
{
    let mut text = Seq::new(alloc);
    for piece in pieces {
        text.extend_from_slice(piece)?;
    }
    Ok(text)
}

/// A number in digits.
///
/// # Errors
///
/// Want of memory.
pub fn number(alloc: Global, value: usize) -> Result<Seq<u8>, AllocError>
    ensures { IfOk result (λ text. text ≡ decimal value) }
{
    let digits = format!(in alloc; "{value}")?;
    Seq::from_slice(alloc, digits.as_bytes())
}

/// A field that holds a number: ` name=value`.
///
/// # Errors
///
/// Want of memory.
pub fn number_field(alloc: Global, name: &[u8], value: usize) -> Result<Seq<u8>, AllocError>
    ensures { IfOk result (λ text. text ≡ number_field name.now value) }
{
    let digits = number(alloc, value)?;
    joined(alloc, &[b" ", name, b"=", digits.as_slice()])
}

/// A field that holds bytes, as they are: ` name=value`.
///
/// # Errors
///
/// Want of memory.
pub fn bytes_field(alloc: Global, name: &[u8], value: &[u8]) -> Result<Seq<u8>, AllocError>
    ensures { IfOk result (λ text. text ≡ bytes_field name.now value.now) }
{
    joined(alloc, &[b" ", name, b"=", value])
}
