//! The listing and the description.
ghost use Rattle.std.specs.Prelude.{◌≡◌, IfOk};
ghost use Rattle.generate_text.specs.Listings.{listing_of};
ghost use Rattle.generate_text.specs.Descriptions.{description};

use crate::blocks::blocks;
use list_views::Seq;
use list_views::fault_words::joined;
use std::alloc::{AllocError, Global};

/// The listing of class `G`, whose static method `g (LG;I)V` runs through so many loops: the even ones, counted from 0, count up to the
/// int, the odd ones walk from the object along the field `next`.
///
/// # Errors
///
/// Want of memory.
pub fn listing(alloc: Global, count: usize) -> Result<Seq<u8>, AllocError>
    ensures { IfOk result (λ text. text ≡ listing_of count) }
{
    let blocks = blocks(alloc, count)?;
    joined(
        alloc,
        &[
            b"class G\nfield next LG;\nmethod g (LG;I)V static stack 2 locals 4\n",
            blocks.as_slice(),
            b"return\nend\n",
        ],
    )
}

/// The description of the inputs of `g`: null or a tree, and any int.
pub fn description() -> &'static [u8]
    ensures { result.now ≡ description }
{
    b"{\"form\":1,\"class\":\"G\",\"method\":\"g\",\"desc\":\"(LG;I)V\",\"params\":\
      [{\"type\":\"G\",\"null\":true,\"shape\":\"tree\"},{\"lo\":-2147483648,\"hi\":2147483647}],\"same\":[],\"share\":[]}"
}
