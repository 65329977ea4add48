//! The blocks of the method, each a loop.
ghost use Rattle.std.specs.Prelude.{◌≡◌, ◌++◌, IfOk, OnOk};
ghost use Rattle.generate_text.specs.Listings.{counting, walking, block, blocks};

use list_views::Seq;
use list_views::fault_words::{joined, number};
use std::alloc::{AllocError, Global};

/// A loop that counts, with its number in digits.
fn counting(alloc: Global, k: &[u8]) -> Result<Seq<u8>, AllocError>
    ensures { IfOk result (λ text. text ≡ counting k.now) }
{
    joined(
        alloc,
        &[
            b"iconst_0\nistore 2\nh",
            k,
            b":\niload 2\niload 1\nif_icmpge e",
            k,
            b"\niinc 2 1\ngoto h",
            k,
            b"\ne",
            k,
            b":\n",
        ],
    )
}

/// A loop that walks along a list, with its number in digits.
fn walking(alloc: Global, k: &[u8]) -> Result<Seq<u8>, AllocError>
    ensures { IfOk result (λ text. text ≡ walking k.now) }
{
    joined(
        alloc,
        &[
            b"aload 0\nastore 3\nh",
            k,
            b":\naload 3\nifnull e",
            k,
            b"\naload 3\ngetfield G next LG;\nastore 3\ngoto h",
            k,
            b"\ne",
            k,
            b":\n",
        ],
    )
}

/// The block of a number.
fn block(alloc: Global, k: usize) -> Result<Seq<u8>, AllocError>
    ensures { IfOk result (λ text. text ≡ block k) }
{
    let digits = number(alloc, k)?;
    if k % 2 == 0 {
        counting(alloc, digits.as_slice())
    } else {
        walking(alloc, digits.as_slice())
    }
}

/// The first so many blocks.
pub(crate) fn blocks(alloc: Global, count: usize) -> Result<Seq<u8>, AllocError>
    ensures { IfOk result (λ text. text ≡ blocks count) }
{
    let mut text = Seq::new(alloc);
    for k in 0..count {
        let block = block(alloc, k)?;
        text.extend_from_slice(block.as_slice())?;
    }
    Ok(text)
}
