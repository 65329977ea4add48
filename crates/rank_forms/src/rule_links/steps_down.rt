//! Fall links: what the rows of a path say of an int, or of its negative, step by step.
ghost use Rattle.std.specs.Prelude.{All, ◌≡◌, ◌++◌, [], true, false, Some, IfOk, OnOk, if◌then◌else◌};
ghost use Rattle.std.specs.List.Sorted.{IsNonDecreasingBy};
ghost use Rattle.rank_forms.specs.declared.rule_links.links.Link.{Link};
ghost use Rattle.rank_forms.specs.declared.rule_links.links.Tie.{Tie};
ghost use Rattle.rank_forms.specs.rule_links.Falls.{IsFallTie, AreRising, bounds, has_bound};
ghost use Rattle.rank_forms.specs.rule_links.inner.Rising.{fall_links, fall_row_ties, fall_ties_from};
ghost use Rattle.rank_forms.specs.rule_links.inner.Rising.{leading, led, rising_tie};
ghost use Rattle.rank_forms.specs.rule_links.Ties.{InTies};
ghost use Rattle.rank_forms.specs.rule_links.FallLinks.{IsFallLink};

use crate::rule_links::links::Tie;
use crate::rule_links::rising::sort_ties;
use crate::rule_links::sizes::{add_rising, order_in};
use crate::rule_links::ties::{is_alone, is_inequality, negated};
use lin_core::WRow;
use list_views::Seq;
use std::alloc::{AllocError, Global};

/// The variable from which a link leads where the row is read as it stands.
fn leading(negative: bool, order: (u32, u32)) -> u32
    ensures { result ≡ leading negative order }
{
    if negative { order.1 } else { order.0 }
}

/// The variable to which it leads.
fn led(negative: bool, order: (u32, u32)) -> u32
    ensures { result ≡ led negative order }
{
    if negative { order.0 } else { order.1 }
}

/// Adds the link that an equation says where it is taken with -1.
fn add_again(
    negative: bool,
    inequality: bool,
    order: (u32, u32),
    k: &i64,
    row: usize,
    ties: &mut Seq<Tie>,
) -> Result<(), AllocError>
    ensures { OnOk result
        (ties.new ≡ ties.old ++ (if inequality then [] else rising_tie (led negative order) (leading negative order) k.now row true)) }
{
    if inequality {
        return Ok(());
    }
    add_rising(
        led(negative, order),
        leading(negative, order),
        k,
        row,
        true,
        ties,
    )
}

/// Adds the links that a row of two variables says.
fn add_links(
    negative: bool,
    inequality: bool,
    order: Option<(u32, u32)>,
    k: &i64,
    row: usize,
    ties: &mut Seq<Tie>,
) -> Result<(), AllocError>
    ensures { OnOk result (ties.new ≡ ties.old ++ fall_links negative inequality order k.now row) }
{
    let Some(order) = order else {
        return Ok(());
    };
    let Some(less) = negated(k) else {
        return Err(AllocError);
    };
    add_rising(
        leading(negative, order),
        led(negative, order),
        &less,
        row,
        false,
        ties,
    )?;
    add_again(negative, inequality, order, k, row, ties)
}

/// Adds the links that a row says.
fn add_fall_row(negative: bool, n: usize, row: &WRow, ties: &mut Seq<Tie>) -> Result<(), AllocError>
    ensures { OnOk result (ties.new ≡ ties.old ++ fall_row_ties negative n row.now) }
{
    if !row.weights.is_empty() {
        return Ok(());
    }
    let order = order_in(row.terms.as_slice());
    add_links(
        negative,
        is_inequality(row.kind),
        order,
        &row.constant,
        n,
        ties,
    )
}

/// The links of all rows.
fn all_falls(alloc: Global, negative: bool, rows: &[WRow]) -> Result<Seq<Tie>, AllocError>
    ensures { IfOk result (λ ties. ties ≡ fall_ties_from negative 0 rows.now) }
{
    let mut ties = Seq::new(alloc);
    for (n, row) in rows.iter().enumerate() {
        add_fall_row(negative, n, row, &mut ties)?;
    }
    Ok(ties)
}

/// The fall links of a path, in the order of the variables that they start from.
///
/// # Errors
///
/// Want of memory, which also answers a number of more than 64 bits.
pub fn fall_ties(alloc: Global, negative: bool, rows: &[WRow]) -> Result<Vec<Tie>, AllocError>
    ensures order { IfOk result (λ ties. IsNonDecreasingBy (λ (tie : Tie). tie.link.from) ties.items) }
    ensures rising { IfOk result (λ ties. AreRising ties.items) }
    ensures sound { IfOk result (λ ties. (link : Link) → InTies ties.items link → IsFallLink negative rows.now link) }
    ensures complete { IfOk result (λ ties. (link : Link) → IsFallLink negative rows.now link → InTies ties.items link) }
    ensures rows { IfOk result (λ ties. All (IsFallTie negative rows.now) ties.items) }
{
    let mut ties = all_falls(alloc, negative, rows)?.into_vec();
    sort_ties(&mut ties)?;
    Ok(ties)
}

/// Whether a row has this variable alone, so that it bounds it from below, or where the negative is meant from above; weights
/// don't matter.
pub fn bounds(negative: bool, start: u32, row: &WRow) -> bool
    ensures { result ≡ bounds negative start row.now }
{
    let sign = if negative { -1 } else { 1 };
    is_inequality(row.kind) && is_alone(row.terms.as_slice(), start, &sign)
}

/// Whether a row bounds the start.
pub(crate) fn has_bound(negative: bool, start: u32, rows: &[WRow]) -> bool
    ensures { result ≡ has_bound negative start rows.now }
{
    for row in rows {
        if bounds(negative, start, row) {
            return true;
        }
    }
    false
}
