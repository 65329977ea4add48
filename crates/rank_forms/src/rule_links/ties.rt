//! The links of a path, with the rows that say them.
ghost use Rattle.std.specs.Prelude.{◌≡◌, ◌+ℤ◌, ◌-ℤ◌, ◌*ℤ◌, ◌++◌, pos, SomeIff, FitsSigned, OnOk, IfOk, slice_get};
ghost use Rattle.std.specs.Int.{w64};
ghost use Rattle.std.specs.Ordering.{int_eq};
ghost use Rattle.rank_forms.specs.declared.rule_links.links.Link.{Link};
ghost use Rattle.rank_forms.specs.rule_links.Links.{IsIntLink};
ghost use Rattle.rank_forms.specs.rule_links.Ties.{is_inequality, is_alone, is_bound, is_opposite, most_from, most_of, fixed_from};
ghost use Rattle.rank_forms.specs.rule_links.Ties.{constant_at, order_of, both_ways, ties_of, ties_at, beside_ties, terms_ties, row_ties};
ghost use Rattle.rank_forms.specs.rule_links.Ties.{ties_from, InTies, Covers};

use crate::rule_links::links::{Beside, Link, Tie};
use lin_core::{RowKind, WRow};
use list_views::Seq;
use std::alloc::{AllocError, Global};

/// Whether the row says that something is at least 0.
pub fn is_inequality(kind: RowKind) -> bool
    ensures { result ≡ is_inequality kind }
{
    match kind {
        RowKind::AtLeastZero => true,
        RowKind::IsZero => false,
    }
}

/// Whether the terms are so many times one variable.
pub(crate) fn is_alone(terms: &[(u32, i64)], variable: u32, times: &i64) -> bool
    ensures { result ≡ is_alone variable times.now terms.now }
{
    match terms {
        [term] => term.0 == variable && term.1 == *times,
        _ => false,
    }
}

/// Whether the row says of the variable alone that so many times it and a constant is at least 0.
pub fn is_bound(row: &WRow, variable: u32, times: &i64) -> bool
    ensures { result ≡ is_bound variable times.now row.now }
{
    is_inequality(row.kind)
        && is_alone(row.terms.as_slice(), variable, times)
        && row.weights.is_empty()
}

/// Whether two numbers add up to 0.
fn are_opposite(one: &i64, other: &i64) -> bool
    ensures { result ≡ int_eq (one.now +ℤ other.now) (pos 0) }
{
    i128::from(*one) + i128::from(*other) == 0
}

/// Whether the row says that the variable is at most the number whose negative is `low`.
fn is_opposite(row: &WRow, variable: u32, low: &i64) -> bool
    ensures { result ≡ is_opposite variable low.now row.now }
{
    is_bound(row, variable, &-1) && are_opposite(low, &row.constant)
}

/// The first row that says that the variable is at most the number whose negative is `low`.
fn most_from(rows: &[WRow], variable: u32, low: &i64) -> Option<usize>
    ensures { result ≡ most_from variable low.now 0 rows.now }
{
    for (n, row) in rows.iter().enumerate() {
        if is_opposite(row, variable, low) {
            return Some(n);
        }
    }
    None
}

/// The first row that says that the variable is at most the number that this row says it is at least.
fn most_of(rows: &[WRow], row: &WRow, variable: u32) -> Option<usize>
    ensures { result ≡ most_of variable rows.now row.now }
{
    if is_bound(row, variable, &1) {
        most_from(rows, variable, &row.constant)
    } else {
        None
    }
}

/// The rows that a variable is at least a number and at most that number, the first where there are several.
fn fixed_from(rows: &[WRow], variable: u32) -> Option<(usize, usize)>
    ensures { result ≡ fixed_from variable rows.now 0 rows.now }
{
    for (n, row) in rows.iter().enumerate() {
        if let Some(most) = most_of(rows, row, variable) {
            return Some((n, most));
        }
    }
    None
}

/// The constant of a row, if it is there.
fn constant_at(rows: &[WRow], n: usize) -> Option<i64>
    ensures { result ≡ constant_at (slice_get rows.now n) }
{
    match rows.get(n) {
        Some(row) => Some(row.constant),
        None => None,
    }
}

/// Of two terms the variable with the coefficient 1 and the one with -1.
pub(crate) fn order_of(one: &(u32, i64), other: &(u32, i64)) -> Option<(u32, u32)>
    ensures { result ≡ order_of one.now other.now }
{
    if one.1 == 1 && other.1 == -1 {
        return Some((one.0, other.0));
    }
    if one.1 == -1 && other.1 == 1 {
        return Some((other.0, one.0));
    }
    None
}

/// The negative of a number, where it is one of 64 bits.
pub fn negated(number: &i64) -> Option<i64>
    ensures { SomeIff result (FitsSigned w64 (pos 0 -ℤ number.now)) (pos 0 -ℤ number.now) }
{
    0i64.checked_sub(*number)
}

/// A number and so many times another one, where both the product and the sum are numbers of 64 bits.
pub fn with_times(number: &i64, times: &i64, other: &i64) -> Option<i64>
    ensures { SomeIff result (FitsSigned w64 (times.now *ℤ other.now) × FitsSigned w64 (number.now +ℤ times.now *ℤ other.now))
        (number.now +ℤ times.now *ℤ other.now) }
{
    let product = times.checked_mul(*other)?;
    number.checked_add(product)
}

/// Adds the links of an equation, there and back: of the one variable, the other one's negative and `k`.
fn add_both(
    plus: u32,
    minus: u32,
    k: &i64,
    row: usize,
    beside: Option<Beside>,
    ties: &mut Seq<Tie>,
) -> Result<(), AllocError>
    ensures { OnOk result (ties.new ≡ ties.old ++ both_ways plus minus k.now row beside) }
{
    let Some(less) = negated(k) else {
        return Err(AllocError);
    };
    let there = Link {
        from: plus,
        to: minus,
        by: *k,
    };
    let again = Link {
        from: minus,
        to: plus,
        by: less,
    };
    ties.push(Tie {
        link: there,
        row,
        back: false,
        beside,
    })?;
    ties.push(Tie {
        link: again,
        row,
        back: true,
        beside,
    })?;
    Ok(())
}

/// Adds the links of two terms that are 0 with `k`.
fn add_tie(
    one: &(u32, i64),
    other: &(u32, i64),
    k: &i64,
    row: usize,
    beside: Option<Beside>,
    ties: &mut Seq<Tie>,
) -> Result<(), AllocError>
    ensures { OnOk result (ties.new ≡ ties.old ++ ties_of (order_of one.now other.now) k.now row beside) }
{
    match order_of(one, other) {
        Some((plus, minus)) => add_both(plus, minus, k, row, beside, ties),
        None => Ok(()),
    }
}

/// Adds the links of two terms, where the variable of a third one is a number that these rows say.
fn add_at(
    number: Option<i64>,
    rows: (usize, usize),
    third: &(u32, i64),
    one: &(u32, i64),
    other: &(u32, i64),
    k: &i64,
    row: usize,
    ties: &mut Seq<Tie>,
) -> Result<(), AllocError>
    ensures { OnOk result (ties.new ≡ ties.old ++ ties_at number rows third.now one.now other.now k.now row) }
{
    let Some(number) = number else {
        return Ok(());
    };
    let Some(sum) = with_times(k, &third.1, &number) else {
        return Err(AllocError);
    };
    let beside = Beside {
        least: rows.0,
        most: rows.1,
        times: third.1,
    };
    add_tie(one, other, &sum, row, Some(beside), ties)
}

/// Adds the links of two terms, where the variable of a third one is a number.
fn add_beside(
    rows: &[WRow],
    third: &(u32, i64),
    one: &(u32, i64),
    other: &(u32, i64),
    k: &i64,
    row: usize,
    ties: &mut Seq<Tie>,
) -> Result<(), AllocError>
    ensures { OnOk result (ties.new ≡ ties.old ++ beside_ties rows.now third.now one.now other.now k.now row) }
{
    match fixed_from(rows, third.0) {
        Some(fixed) => add_at(
            constant_at(rows, fixed.1),
            fixed,
            third,
            one,
            other,
            k,
            row,
            ties,
        ),
        None => Ok(()),
    }
}

/// Adds the links of an equation's terms that are 0 with `k`.
fn add_terms(
    rows: &[WRow],
    terms: &[(u32, i64)],
    k: &i64,
    row: usize,
    ties: &mut Seq<Tie>,
) -> Result<(), AllocError>
    ensures { OnOk result (ties.new ≡ ties.old ++ terms_ties rows.now terms.now k.now row) }
{
    match terms {
        [one, other] => add_tie(one, other, k, row, None, ties),
        [a, b, c] => {
            add_beside(rows, a, b, c, k, row, ties)?;
            add_beside(rows, b, a, c, k, row, ties)?;
            add_beside(rows, c, a, b, k, row, ties)
        }
        _ => Ok(()),
    }
}

/// Adds the links that a row says.
fn add_row(rows: &[WRow], n: usize, row: &WRow, ties: &mut Seq<Tie>) -> Result<(), AllocError>
    ensures { OnOk result (ties.new ≡ ties.old ++ row_ties rows.now n row.now) }
{
    if is_inequality(row.kind) {
        return Ok(());
    }
    if !row.weights.is_empty() {
        return Ok(());
    }
    add_terms(rows, row.terms.as_slice(), &row.constant, n, ties)
}

/// The ties of all rows.
fn all_ties(alloc: Global, rows: &[WRow]) -> Result<Seq<Tie>, AllocError>
    ensures { IfOk result (λ ties. ties ≡ ties_from rows.now 0 rows.now) }
{
    let mut ties = Seq::new(alloc);
    for (n, row) in rows.iter().enumerate() {
        add_row(rows, n, row, &mut ties)?;
    }
    Ok(ties)
}

/// The int links of a path, each with the rows that say it. A variable with several numbers counts as the first of them.
///
/// # Errors
///
/// Want of memory, which also answers a number of more than 64 bits.
pub fn int_ties(alloc: Global, rows: &[WRow]) -> Result<Seq<Tie>, AllocError>
    ensures sound { IfOk result (λ ties. (link : Link) → InTies ties link → IsIntLink rows.now link) }
    ensures complete { IfOk result (λ ties. (link : Link) → IsIntLink rows.now link → Covers ties link.from link.to) }
    ensures is { IfOk result (λ ties. ties ≡ ties_from rows.now 0 rows.now) }
{
    all_ties(alloc, rows)
}
