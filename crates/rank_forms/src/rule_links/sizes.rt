//! Links between sizes, and the most that sizes fall by.
ghost use Rattle.std.specs.Prelude.{All, ◌≡◌, ◌++◌, ◌-ℤ◌, pos, [], false, IfOk, OnOk, if◌then◌else◌, ◌&&◌};
ghost use Rattle.std.specs.List.Sorted.{IsNonDecreasingBy};
ghost use Rattle.lin_core.specs.Weights.{AreRows};
ghost use Rattle.rank_forms.specs.declared.rule_links.links.Link.{Link};
ghost use Rattle.rank_forms.specs.declared.rule_links.links.Tie.{Tie};
ghost use Rattle.rank_forms.specs.rule_links.SizeLinks.{IsSizeLink, weighed_once};
ghost use Rattle.rank_forms.specs.rule_links.Falls.{AreRising, has_zero, is_zero};
ghost use Rattle.rank_forms.specs.rule_links.inner.Rising.{back_ties, gives, given_by, given_ties, is_part, order_in};
ghost use Rattle.rank_forms.specs.rule_links.inner.Rising.{part_ties, rising_tie, size_row_ties, size_ties_from};
ghost use Rattle.rank_forms.specs.rule_links.Falls.{size_constant, IsSizeTie, zero_from};
ghost use Rattle.rank_forms.specs.rule_links.Ties.{InTies};

use crate::rule_links::links::{Link, Tie};
use crate::rule_links::reaching::sum;
use crate::rule_links::rising::sort_ties;
use crate::rule_links::ties::{is_bound, is_inequality, negated, order_of};
use lin_core::WRow;
use list_views::Seq;
use std::alloc::{AllocError, Global};

/// Adds a link, if it leads to a variable of a greater number.
pub(crate) fn add_rising(
    from: u32,
    to: u32,
    by: &i64,
    row: usize,
    back: bool,
    ties: &mut Seq<Tie>,
) -> Result<(), AllocError>
    ensures { OnOk result (ties.new ≡ ties.old ++ rising_tie from to by.now row back) }
{
    if from < to {
        ties.push(Tie {
            link: Link { from, to, by: *by },
            row,
            back,
            beside: None,
        })?;
    }
    Ok(())
}

/// Of a row of two terms with the coefficients 1 and -1 the two variables, that with 1 first.
pub(crate) fn order_in(terms: &[(u32, i64)]) -> Option<(u32, u32)>
    ensures { result ≡ order_in terms.now }
{
    match terms {
        [one, other] => order_of(one, other),
        _ => None,
    }
}

/// Whether a coefficient is that of a part.
fn is_part(coefficient: &i64) -> bool
    ensures { result ≡ is_part coefficient.now }
{
    *coefficient < 0
}

/// Whether a row says that the variable is at least 0.
pub fn is_zero(variable: u32, row: &WRow) -> bool
    ensures { result ≡ is_zero variable row.now }
{
    is_bound(row, variable, &1) && row.constant == 0
}

/// The first row that says that the variable is at least 0.
pub fn zero_row(rows: &[WRow], variable: u32) -> Option<usize>
    ensures { result ≡ zero_from variable 0 rows.now }
{
    for (n, row) in rows.iter().enumerate() {
        if is_zero(variable, row) {
            return Some(n);
        }
    }
    None
}

/// Whether some row says that the variable is at least 0.
pub fn has_zero(variable: u32, rows: &[WRow]) -> bool
    ensures { result ≡ has_zero variable rows.now }
{
    for row in rows {
        if is_zero(variable, row) {
            return true;
        }
    }
    false
}

/// Whether a term is a part of a size.
fn is_size_part(rows: &[WRow], term: &(u32, i64)) -> bool
    ensures { result ≡ (is_part term.now.1 && has_zero term.now.0 rows.now) }
{
    is_part(&term.1) && has_zero(term.0, rows)
}

/// Whether every other variable of the terms is at least 0, and has a coefficient below 0.
fn gives(rows: &[WRow], u: u32, terms: &[(u32, i64)]) -> bool
    ensures { result ≡ gives rows.now u terms.now }
{
    for term in terms {
        if term.0 != u && !is_size_part(rows, term) {
            return false;
        }
    }
    true
}

/// What the weights of a row add, where every class weighs 1.
fn weighed_once(weights: &[(u32, i64)]) -> Result<i64, AllocError>
    ensures { IfOk result (λ weighed. weighed ≡ weighed_once weights.now) }
{
    let mut weighed = 0;
    for weight in weights {
        let Some(more) = sum(&weighed, &weight.1) else {
            return Err(AllocError);
        };
        weighed = more;
    }
    Ok(weighed)
}

/// The constant of a row, where every class weighs 1.
///
/// # Errors
///
/// Want of memory, which also answers a number of more than 64 bits.
pub fn size_constant(row: &WRow) -> Result<i64, AllocError>
    ensures { IfOk result (λ constant. constant ≡ size_constant row.now) }
{
    let weighed = weighed_once(row.weights.as_slice())?;
    match sum(&row.constant, &weighed) {
        Some(constant) => Ok(constant),
        None => Err(AllocError),
    }
}

/// Adds the link from a size to a part of it.
fn add_part(
    u: u32,
    term: &(u32, i64),
    k: &i64,
    row: usize,
    ties: &mut Seq<Tie>,
) -> Result<(), AllocError>
    ensures { OnOk result (ties.new ≡ ties.old ++ (if is_part term.now.1 then rising_tie u term.now.0 k.now row false else [])) }
{
    if is_part(&term.1) {
        return add_rising(u, term.0, k, row, false, ties);
    }
    Ok(())
}

/// Adds the links from a size to each of its parts.
fn add_parts(
    u: u32,
    terms: &[(u32, i64)],
    k: &i64,
    row: usize,
    ties: &mut Seq<Tie>,
) -> Result<(), AllocError>
    ensures { OnOk result (ties.new ≡ ties.old ++ part_ties u k.now row terms.now) }
{
    for term in terms {
        add_part(u, term, k, row, ties)?;
    }
    Ok(())
}

/// Adds the links from the variable of a term, if the row gives its size.
fn add_given(
    rows: &[WRow],
    term: &(u32, i64),
    terms: &[(u32, i64)],
    k: &i64,
    row: usize,
    ties: &mut Seq<Tie>,
) -> Result<(), AllocError>
    ensures { OnOk result (ties.new ≡ ties.old ++ given_by rows.now term.now k.now row terms.now) }
{
    if term.1 == 1 && gives(rows, term.0, terms) {
        return add_parts(term.0, terms, k, row, ties);
    }
    Ok(())
}

/// Adds the links from the sizes that a row gives to their parts.
fn add_all_given(
    rows: &[WRow],
    terms: &[(u32, i64)],
    k: &i64,
    row: usize,
    ties: &mut Seq<Tie>,
) -> Result<(), AllocError>
    ensures { OnOk result (ties.new ≡ ties.old ++ given_ties rows.now k.now row terms.now terms.now) }
{
    for term in terms {
        add_given(rows, term, terms, k, row, ties)?;
    }
    Ok(())
}

/// Adds the link that a row of two sizes says when it is read the other way.
fn add_back(
    order: Option<(u32, u32)>,
    k: &i64,
    row: usize,
    ties: &mut Seq<Tie>,
) -> Result<(), AllocError>
    ensures { OnOk result (ties.new ≡ ties.old ++ back_ties order k.now row) }
{
    match order {
        Some((plus, minus)) => add_rising(minus, plus, k, row, true, ties),
        None => Ok(()),
    }
}

/// Adds the links that an equation says.
fn add_equation(rows: &[WRow], n: usize, row: &WRow, ties: &mut Seq<Tie>) -> Result<(), AllocError>
    ensures { OnOk result
        (ties.new ≡ ties.old ++ (given_ties rows.now (pos 0 -ℤ size_constant row.now) n row.now.terms row.now.terms ++ back_ties
        (order_in row.now.terms) (size_constant row.now) n)) }
{
    let constant = size_constant(row)?;
    let Some(less) = negated(&constant) else {
        return Err(AllocError);
    };
    let terms = row.terms.as_slice();
    add_all_given(rows, terms, &less, n, ties)?;
    add_back(order_in(terms), &constant, n, ties)
}

/// Adds the links that a row says.
fn add_size_row(rows: &[WRow], n: usize, row: &WRow, ties: &mut Seq<Tie>) -> Result<(), AllocError>
    ensures { OnOk result (ties.new ≡ ties.old ++ size_row_ties rows.now n row.now) }
{
    if is_inequality(row.kind) {
        return Ok(());
    }
    add_equation(rows, n, row, ties)
}

/// The links of all rows.
fn all_sizes(alloc: Global, rows: &[WRow]) -> Result<Seq<Tie>, AllocError>
    ensures { IfOk result (λ ties. ties ≡ size_ties_from rows.now 0 rows.now) }
{
    let mut ties = Seq::new(alloc);
    for (n, row) in rows.iter().enumerate() {
        add_size_row(rows, n, row, &mut ties)?;
    }
    Ok(ties)
}

/// The size links of a path, in the order of the variables that they start from.
///
/// # Errors
///
/// Want of memory, which also answers a number of more than 64 bits.
pub fn size_ties(alloc: Global, rows: &[WRow], vars: u32) -> Result<Vec<Tie>, AllocError>
    requires { AreRows vars rows.now }
    ensures order { IfOk result (λ ties. IsNonDecreasingBy (λ (tie : Tie). tie.link.from) ties.items) }
    ensures rising { IfOk result (λ ties. AreRising ties.items) }
    ensures sound { IfOk result (λ ties. (link : Link) → InTies ties.items link → IsSizeLink rows.now link) }
    ensures complete { IfOk result (λ ties. (link : Link) → IsSizeLink rows.now link → InTies ties.items link) }
    ensures rows { IfOk result (λ ties. All (IsSizeTie rows.now) ties.items) }
{
    let mut ties = all_sizes(alloc, rows)?.into_vec();
    sort_ties(&mut ties)?;
    Ok(ties)
}
