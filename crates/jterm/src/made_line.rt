//! The line of the command.
ghost use Rattle.std.specs.Prelude.{◌≡◌, ◌==◌, IfOk, position};
ghost use Rattle.jterm.specs.GenerateLines.{first_line, check_word, blocks_line};

use list_views::Seq;
use list_views::fault_words::{joined, number};
use std::alloc::{AllocError, Global};

/// Where the first newline stands.
fn newline(text: &[u8]) -> Option<usize>
    ensures { result ≡ position (λ byte. byte == 10) text.now }
{
    text.iter().position(|byte| *byte == b'\n')
}

/// The first line of a text, without its newline; nothing of an empty text.
#[tactic(auto, using(crate::proofs::GenerateLines::line_at, crate::proofs::GenerateLines::whole_line))]
pub(crate) fn first_line(text: &[u8]) -> &[u8]
    ensures { result.now ≡ first_line text.now }
{
    if text.is_empty() {
        return text;
    }
    match newline(text) {
        Some(end) => {
            let (line, _) = text.split_at(end);
            line
        }
        None => text,
    }
}

/// What is said of the certificate.
pub(crate) fn check_word(is_accepted: bool) -> &'static [u8]
    ensures { result.now ≡ check_word is_accepted }
{
    if is_accepted { b"ACCEPTED" } else { b"none" }
}

/// The line of so many blocks.
pub(crate) fn blocks_line(
    alloc: Global,
    n: u32,
    answer: &[u8],
    check: &[u8],
) -> Result<Seq<u8>, AllocError>
    ensures { IfOk result (λ line. line ≡ blocks_line n answer.now check.now) }
{
    let blocks = number(alloc, n as usize)?;
    joined(
        alloc,
        &[
            b"blocks ",
            blocks.as_slice(),
            b" answer ",
            answer,
            b" check ",
            check,
            b"\n",
        ],
    )
}
