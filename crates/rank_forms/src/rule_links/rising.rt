//! The most that variables fall by, along links to variables of greater numbers.
ghost use Rattle.std.specs.Prelude.{◌≡◌, ◌<◌, IfOk, OnOk};
ghost use Rattle.std.specs.List.Sorted.{IsNonDecreasingBy, IsPermutation};
ghost use Rattle.rank_forms.specs.declared.rule_links.links.Tie.{Tie};
ghost use Rattle.rank_forms.specs.rule_links.Falls.{AreRising, IsLongest};
ghost use Rattle.rank_forms.specs.rule_links.inner.Rising.{is_more, raised};

use crate::rule_links::links::{Come, Tie};
use crate::rule_links::reaching::{known_of, none_known, span, sum};
use std::alloc::{AllocError, Global};

/// Whether a sum is more than what is known of a variable that has a place in the list.
fn is_more(known: Option<Come>, sum: &i64, low: bool) -> bool
    ensures { result ≡ is_more known sum.now low }
{
    match known {
        Some(come) => come.by < *sum && low,
        None => low,
    }
}

/// Goes on along a tie, if that leads to more than what is known.
fn raise(tie: &Tie, known: &mut Vec<Option<Come>>) -> Result<(), AllocError>
    ensures { OnOk result (known.new.items ≡ raised tie.now known.old.items) }
{
    let Some(come) = known_of(known.as_slice(), tie.link.from) else {
        return Ok(());
    };
    let Some(by) = sum(&come.by, &tie.link.by) else {
        return Err(AllocError);
    };
    let low = (tie.link.to as usize) < known.len();
    if is_more(known_of(known.as_slice(), tie.link.to), &by, low) {
        known[tie.link.to as usize] = Some(Come {
            by,
            last: Some(*tie),
        });
    }
    Ok(())
}

/// Puts ties into the order of the variables that they start from.
pub(crate) fn sort_ties(ties: &mut Vec<Tie>) -> Result<(), AllocError>
    ensures order { OnOk result (IsNonDecreasingBy (λ (tie : Tie). tie.link.from) ties.new.items) }
    ensures same { IsPermutation ties.old.items ties.new.items }
{
    ties.sort_by_key(|tie| tie.link.from)?;
    Ok(())
}

/// For each variable that links lead to from the first one, the most that a list of links adds up to, and the last of these
/// links. The ties stand in the order of the variables that they start from.
///
/// # Errors
///
/// Want of memory, which also answers a number of more than 64 bits.
pub fn longest(alloc: Global, ties: &[Tie], first: u32) -> Result<Vec<Option<Come>>, AllocError>
    requires order { IsNonDecreasingBy (λ (tie : Tie). tie.link.from) ties.now }
    requires rising { AreRising ties.now }
    ensures { IfOk result (λ known. IsLongest ties.now first known.items) }
{
    let mut known = none_known(alloc, span(ties, first))?;
    known[first as usize] = Some(Come { by: 0, last: None });
    for tie in ties {
        raise(tie, &mut known)?;
    }
    Ok(known)
}
