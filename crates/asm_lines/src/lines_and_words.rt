//! Lines and words.

ghost use Rattle.std.specs.Prelude.{◌≡◌, ◌∷◌, ◌++◌, [], ◌<◌, ◌==◌, length, map, position, if◌then◌else◌, IfOk, OnOk};
ghost use Rattle.asm_lines.specs.LinesAndWords.{parts, lines_of, is_word, words_of, is_plain};

use list_views::Seq;
use std::alloc::{AllocError, Global};

/// Where the first `at` stands.
fn place_of(at: u8, bytes: &[u8]) -> Option<usize>
    ensures { result ≡ position (λ b. b == at) bytes.now }
{
    bytes.iter().position(|b| *b == at)
}

/// The bytes up to the first `at`, and those behind it.
#[tactic(auto, using(crate::proofs::Divided::parts_at, crate::proofs::Divided::one_part))]
fn first_part(at: u8, bytes: &[u8]) -> (&[u8], &[u8])
    requires { 0 < length bytes.now }
    ensures part { parts at bytes.now ≡ result.0.now ∷ parts at result.1.now }
    ensures shorter { length result.1.now < length bytes.now }
{
    match place_of(at, bytes) {
        Some(end) => {
            let (part, rest) = bytes.split_at(end);
            let (_, rest) = rest.split_at(1);
            (part, rest)
        }
        None => {
            let (part, rest) = bytes.split_at(bytes.len());
            (part, rest)
        }
    }
}

/// The bytes between the ones that are `at`.
fn parts(alloc: Global, at: u8, bytes: &[u8]) -> Result<Vec<&[u8]>, AllocError>
    ensures { IfOk result (λ v. map (λ p. p.now) v.items ≡ parts at bytes.now) }
{
    let mut found = Vec::new(alloc);
    let mut rest = bytes;
    while !rest.is_empty() {
        let (part, after) = first_part(at, rest);
        found.push(part)?;
        rest = after;
    }
    Ok(found)
}

/// The lines of a text.
pub(crate) fn lines(alloc: Global, text: &[u8]) -> Result<Vec<&[u8]>, AllocError>
    ensures { IfOk result (λ v. map (λ p. p.now) v.items ≡ lines_of text.now) }
{
    parts(alloc, b'\n', text)
}

/// Puts a part of a line behind the words, where it is one.
fn push_word(alloc: Global, words: &mut Seq<Seq<u8>>, part: &[u8]) -> Result<(), AllocError>
    ensures { OnOk result (words.new ≡ (if is_word part.now then words.old ++ part.now ∷ [] else words.old)) }
{
    if part.is_empty() {
        return Ok(());
    }
    let word = Seq::from_slice(alloc, part)?;
    Ok(words.push(word)?)
}

/// The words of a line.
pub(crate) fn words(alloc: Global, line: &[u8]) -> Result<Seq<Seq<u8>>, AllocError>
    ensures { IfOk result (λ w. w ≡ words_of line.now) }
{
    let mut words = Seq::new(alloc);
    for part in parts(alloc, b' ', line)? {
        push_word(alloc, &mut words, part)?;
    }
    Ok(words)
}

/// Whether the bytes are those of a listing's line.
pub(crate) fn is_plain(line: &[u8]) -> bool
    ensures { result ≡ is_plain line.now }
{
    line.iter().all(|b| 32 <= *b && *b <= 126)
}
