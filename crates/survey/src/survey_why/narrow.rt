//! Narrower descriptions than a template, to be tried.

use its_front::text_lines::lines;
use list_views::Seq;
use std::alloc::{AllocError, Global};

/// What a template says of an int of which nothing is known.
const EACH_INT: &[u8] = b"{\"lo\":-2147483648,\"hi\":2147483647}";

/// What it says of the objects that a reference reaches.
const EACH_SHAPE: &[u8] = b"\"shape\":\"any\"";

/// How a template is narrowed.
#[derive(Clone, Copy, PartialEq, Eq)]
pub enum Narrowing {
    /// No int is near the least or the greatest one.
    SmallInts,
    /// Each int is from 0 on, and not near the greatest one.
    Naturals,
    /// Each reference reaches a tree, and no two reach one object.
    Trees,
    /// Each int as in `Naturals`, each reference as in `Trees`.
    NaturalsAndTrees,
}

/// All ways to narrow a template, in the order in which they are tried.
pub const NARROWINGS: [Narrowing; 4] = [
    Narrowing::SmallInts,
    Narrowing::Naturals,
    Narrowing::Trees,
    Narrowing::NaturalsAndTrees,
];

impl Narrowing {
    /// What is said of an int.
    fn int(self) -> &'static [u8] {
        match self {
            Narrowing::SmallInts => b"{\"lo\":-1000000000,\"hi\":1000000000}",
            Narrowing::Naturals => b"{\"lo\":0,\"hi\":1000000000}",
            Narrowing::NaturalsAndTrees => b"{\"lo\":0,\"hi\":1000000000}",
            Narrowing::Trees => EACH_INT,
        }
    }

    /// Whether references reach trees.
    fn has_trees(self) -> bool {
        match self {
            Narrowing::Trees => true,
            Narrowing::NaturalsAndTrees => true,
            Narrowing::SmallInts => false,
            Narrowing::Naturals => false,
        }
    }

    /// The narrowing in words, where it would do.
    pub fn words(self) -> &'static [u8] {
        match self {
            Narrowing::SmallInts => {
                b"it is a YES for ints from -1000000000 to 1000000000: describe so, where no caller has others"
            }
            Narrowing::Naturals => {
                b"it is a YES for ints from 0 to 1000000000: describe so, where no caller has others"
            }
            Narrowing::Trees => {
                b"it is a YES for references of shape tree that share nothing: describe so, where no caller has others"
            }
            Narrowing::NaturalsAndTrees => {
                b"it is a YES for ints from 0 to 1000000000 and references of shape tree that share nothing: describe so, where no caller has others"
            }
        }
    }
}

/// Puts a text behind another one, with the first place of a part replaced.
fn put_replaced(
    text: &mut Seq<u8>,
    words: &[u8],
    part: &[u8],
    by: &[u8],
) -> Result<(), AllocError> {
    for at in 0..words.len() {
        let (front, rest) = words.split_at(at);
        if let Some(behind) = rest.strip_prefix(part) {
            text.extend_from_slice(front)?;
            text.extend_from_slice(by)?;
            return text.extend_from_slice(behind);
        }
    }
    text.extend_from_slice(words)
}

/// Puts a line of a template behind a text, narrowed.
fn put_narrowed(
    alloc: Global,
    text: &mut Seq<u8>,
    line: &[u8],
    narrowing: Narrowing,
) -> Result<(), AllocError> {
    if !narrowing.has_trees() {
        return put_replaced(text, line, EACH_INT, narrowing.int());
    }
    if line.starts_with(b" \"same\":[") {
        return text.extend_from_slice(b" \"same\":[],");
    }
    if line.starts_with(b" \"share\":[") {
        return text.extend_from_slice(b" \"share\":[],");
    }
    let mut shaped = Seq::new(alloc);
    put_replaced(&mut shaped, line, EACH_SHAPE, b"\"shape\":\"tree\"")?;
    put_replaced(text, shaped.as_slice(), EACH_INT, narrowing.int())
}

/// A template narrowed; None where that changes nothing.
///
/// # Errors
///
/// Want of memory.
pub fn narrowed(
    alloc: Global,
    template: &[u8],
    narrowing: Narrowing,
) -> Result<Option<Seq<u8>>, AllocError> {
    let mut text = Seq::new(alloc);
    for line in lines(alloc, template)?.as_slice() {
        put_narrowed(alloc, &mut text, line.as_slice(), narrowing)?;
        text.push(b'\n')?;
    }
    if text.as_slice() == template {
        Ok(None)
    } else {
        Ok(Some(text))
    }
}
