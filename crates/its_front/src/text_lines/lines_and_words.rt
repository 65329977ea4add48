//! Lines and words.
ghost use Rattle.std.specs.Prelude.{◌≡◌, ◌∷◌, ◌++◌, [], ◌<◌, ◌==◌, length, position, if◌then◌else◌, IfOk, OnOk};
ghost use Rattle.its_front.specs.text_lines.LinesAndWords.{parts, lines_of, is_word, words_of};

use list_views::{Bytes, Seq};
use std::alloc::{AllocError, Global};

/// Where the first `at` stands.
fn place_of(at: u8, bytes: &[u8]) -> Option<usize>
    ensures { result ≡ position (λ b. b == at) bytes.now }
{
    bytes.iter().position(|b| *b == at)
}

/// The bytes up to the first `at`, and those behind it.
#[tactic(auto, using(crate::proofs::Divided::parts_at, crate::proofs::Divided::one_part))]
fn first_part(at: u8, bytes: &[u8]) -> (&[u8], &[u8])
    requires { 0 < length bytes.now }
    ensures part { parts at bytes.now ≡ result.0.now ∷ parts at result.1.now }
    ensures shorter { length result.1.now < length bytes.now }
{
    match place_of(at, bytes) {
        Some(end) => {
            let (part, rest) = bytes.split_at(end);
            let (_, rest) = rest.split_at(1);
            (part, rest)
        }
        None => {
            let (part, rest) = bytes.split_at(bytes.len());
            (part, rest)
        }
    }
}

/// The bytes between the ones that are `at`.
fn parts(alloc: Global, at: u8, bytes: &[u8]) -> Result<Seq<Bytes<'_>>, AllocError>
    ensures { IfOk result (λ found. found ≡ parts at bytes.now) }
{
    let mut found = Seq::new(alloc);
    let mut rest = bytes;
    while !rest.is_empty() {
        let (part, after) = first_part(at, rest);
        found.push(Bytes::new(part))?;
        rest = after;
    }
    Ok(found)
}

/// The lines of a text, each ended by a newline, which the last may lack. Nothing is copied.
///
/// # Errors
///
/// Want of memory.
pub fn lines(alloc: Global, text: &[u8]) -> Result<Seq<Bytes<'_>>, AllocError>
    ensures { IfOk result (λ lines. lines ≡ lines_of text.now) }
{
    parts(alloc, b'\n', text)
}

/// Puts a part of a line behind the words, where it is one.
fn push_word<'a>(words: &mut Seq<Bytes<'a>>, part: &'a [u8]) -> Result<(), AllocError>
    ensures { OnOk result (words.new ≡ (if is_word part.now then words.old ++ part.now ∷ [] else words.old)) }
{
    if part.is_empty() {
        return Ok(());
    }
    words.push(Bytes::new(part))?;
    Ok(())
}

/// The words of a line, divided by spaces. Nothing is copied.
///
/// # Errors
///
/// Want of memory.
pub fn words(alloc: Global, line: &[u8]) -> Result<Seq<Bytes<'_>>, AllocError>
    ensures { IfOk result (λ words. words ≡ words_of line.now) }
{
    let mut words = Seq::new(alloc);
    let mut rest = line;
    while !rest.is_empty() {
        let (part, after) = first_part(b' ', rest);
        push_word(&mut words, part)?;
        rest = after;
    }
    Ok(words)
}
