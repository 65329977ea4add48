//! The texts of `its`.
ghost use Rattle.std.specs.Prelude.{◌≡◌, ◌++◌, [], codes, IfOk, OnOk, slice_index_or};
ghost use Rattle.std.specs.List.{flat_map};
ghost use Rattle.std.specs.Fmt.{decimal};
ghost use Rattle.its_call.specs.Lines.{place_name, rule_line, maybe_text};

use crate::its_search::LeftRule;
use list_views::Seq;
use list_views::fault_words::{joined, number};
use std::alloc::{AllocError, Global};

/// The name of a location, and nothing where there is none of the number.
fn place_name(places: &[Seq<u8>], number: u32) -> &[u8]
    ensures { result.now ≡ place_name places.now number }
{
    match places.get(number as usize) {
        Some(name) => name.as_slice(),
        None => b"",
    }
}

/// A rule, by its number and its locations.
fn rule_line(alloc: Global, places: &[Seq<u8>], left: &LeftRule) -> Result<Seq<u8>, AllocError>
    ensures { IfOk result (λ line. line ≡ rule_line places.now left.now) }
{
    let digits = number(alloc, left.rule as usize)?;
    let from = place_name(places, left.from);
    let to = place_name(places, left.to);
    joined(
        alloc,
        &[b"rule ", digits.as_slice(), b" ", from, b" ", to, b"\n"],
    )
}

/// Adds the lines of rules.
fn put_rules(
    alloc: Global,
    text: &mut Seq<u8>,
    places: &[Seq<u8>],
    left: &[LeftRule],
) -> Result<(), AllocError>
    ensures { OnOk result (text.new ≡ text.old ++ flat_map (rule_line places.now) left.now) }
{
    for one in left {
        let line = rule_line(alloc, places, one)?;
        text.extend_from_slice(line.as_slice())?;
    }
    Ok(())
}

/// The text where rules are left.
///
/// # Errors
///
/// Want of memory.
pub(crate) fn maybe_text(
    alloc: Global,
    places: &[Seq<u8>],
    left: &[LeftRule],
) -> Result<Seq<u8>, AllocError>
    ensures { IfOk result (λ text. text ≡ maybe_text places.now left.now) }
{
    let mut text = Seq::from_slice(alloc, b"MAYBE component\n")?;
    put_rules(alloc, &mut text, places, left)?;
    Ok(text)
}
