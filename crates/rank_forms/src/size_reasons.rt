//! Why a size falls along a rule, by its links to greater numbers.
ghost use Rattle.std.specs.Prelude.{◌≡◌, ◌++◌, ◌∷◌, [], pos, IfOk, IfSome, OnOk, slice_get};
ghost use Rattle.lin_core.specs.Weights.{AreRows};
ghost use Rattle.descent.specs.Conditions.{IsRule};
ghost use Rattle.rank_forms.specs.Following.{step_times};
ghost use Rattle.rank_forms.specs.Reasons.{part_entries, part_entry, part_times, row_times, size_entries, size_tie_entries, terms_at};
ghost use Rattle.rank_forms.specs.SizeReasons.{TellsSizeAt, TellsSizeReasons, size_made};

use crate::following::{Followed, step_times};
use crate::int_reasons::followed_of;
use crate::reasons::{Reasons, reasons_of};
use crate::rule_links::{
    Come, Link, Tie, known_of, longest, negated, size_ties, sum, trail, variable_at, zero_row,
};
use descent::{PathRule, Place};
use lin_core::WRow;
use list_views::Seq;
use std::alloc::{AllocError, Global};

/// How often a part of a size drops out: once less where the link leads to it.
fn part_times(to: u32, term: &(u32, i64)) -> Option<i64>
    ensures { IfSome result (λ times. times ≡ part_times to term.now) }
{
    if term.0 == to {
        let Some(more) = sum(&term.1, &1) else {
            return None;
        };
        negated(&more)
    } else {
        negated(&term.1)
    }
}

/// Adds a row so many times, if it is there.
fn add_times(
    row: Option<usize>,
    times: &i64,
    entries: &mut Seq<(usize, i64)>,
) -> Result<(), AllocError>
    ensures { OnOk result (entries.new ≡ entries.old ++ row_times row times.now) }
{
    if let Some(row) = row {
        entries.push((row, *times))?;
    }
    Ok(())
}

/// Adds the row by which a part drops out.
fn add_part(
    rows: &[WRow],
    link: &Link,
    term: &(u32, i64),
    entries: &mut Seq<(usize, i64)>,
) -> Result<(), AllocError>
    ensures { OnOk result (entries.new ≡ entries.old ++ part_entry rows.now link.now term.now) }
{
    if term.0 == link.from {
        return Ok(());
    }
    let Some(times) = part_times(link.to, term) else {
        return Err(AllocError);
    };
    add_times(zero_row(rows, term.0), &times, entries)
}

/// Adds the rows by which the parts of a size drop out.
fn add_parts(
    rows: &[WRow],
    link: &Link,
    terms: &[(u32, i64)],
    entries: &mut Seq<(usize, i64)>,
) -> Result<(), AllocError>
    ensures { OnOk result (entries.new ≡ entries.old ++ part_entries rows.now link.now terms.now) }
{
    for term in terms {
        add_part(rows, link, term, entries)?;
    }
    Ok(())
}

/// The terms of a row that may be there.
fn terms_at(rows: &[WRow], row: usize) -> &[(u32, i64)]
    ensures { result.now ≡ terms_at (slice_get rows.now row) }
{
    match rows.get(row) {
        Some(row) => row.terms.as_slice(),
        None => &[],
    }
}

/// Adds a row so many times.
fn add_row(row: usize, times: i64, entries: &mut Seq<(usize, i64)>) -> Result<(), AllocError>
    ensures { OnOk result (entries.new ≡ entries.old ++ (row, times) ∷ []) }
{
    entries.push((row, times))?;
    Ok(())
}

/// Adds the rows of a tie.
fn add_tie(rows: &[WRow], tie: &Tie, entries: &mut Seq<(usize, i64)>) -> Result<(), AllocError>
    ensures { OnOk result (entries.new ≡ entries.old ++ size_tie_entries rows.now tie.now) }
{
    add_row(tie.row, step_times(tie), entries)?;
    if tie.back {
        return Ok(());
    }
    add_parts(rows, &tie.link, terms_at(rows, tie.row), entries)
}

/// The rows of a trail.
fn size_entries(alloc: Global, rows: &[WRow], ties: &[Tie]) -> Result<Seq<(usize, i64)>, AllocError>
    ensures { IfOk result (λ entries. entries ≡ size_entries rows.now ties.now) }
{
    let mut entries = Seq::new(alloc);
    for tie in ties {
        add_tie(rows, tie, &mut entries)?;
    }
    Ok(entries)
}

/// A row that counts once.
fn one_row(alloc: Global, row: usize) -> Result<Seq<(usize, i64)>, AllocError>
    ensures { IfOk result (λ list. list ≡ (row, pos 1) ∷ []) }
{
    Seq::from_slice(alloc, &[(row, 1)])
}

/// Why a size falls, by what is known and the row that it is at least 0.
fn size_made(
    alloc: Global,
    rows: &[WRow],
    come: &Come,
    row: usize,
    known: &[Option<Come>],
    finish: u32,
) -> Result<Reasons, AllocError>
    ensures { IfOk result (λ reasons. reasons ≡ size_made rows.now come.now row known.now finish) }
{
    let path = trail(alloc, known, finish)?;
    let fall = size_entries(alloc, rows, path.as_slice())?;
    let bound = one_row(alloc, row)?;
    Ok(reasons_of(&come.by, fall, &0, bound))
}

/// Why a size falls from one variable to another one; None where no links lead there, or no row says that it is at least 0.
fn size_between(
    alloc: Global,
    rows: &[WRow],
    vars: u32,
    start: u32,
    finish: u32,
) -> Result<Option<Reasons>, AllocError>
    requires { AreRows vars rows.now }
    ensures { IfOk result (λ found. TellsSizeReasons rows.now start finish found) }
{
    let ties = size_ties(alloc, rows, vars)?;
    let known = longest(alloc, ties.as_slice(), start)?;
    let Some(come) = known_of(known.as_slice(), finish) else {
        return Ok(None);
    };
    let Some(row) = zero_row(rows, start) else {
        return Ok(None);
    };
    Ok(Some(size_made(alloc, rows, &come, row, known.as_slice(), finish)?))
}

/// What the size at a place falls by along a rule; None where no variable stands alone there at one of its ends, no links lead along
/// it, or no row says that it is at least 0.
///
/// # Errors
///
/// Want of memory, which also answers a number of more than 64 bits.
pub fn follow_size(
    alloc: Global,
    rule: &PathRule,
    place: &Place,
) -> Result<Option<Followed>, AllocError>
    requires { IsRule rule.now }
    ensures { IfOk result (λ found. TellsSizeAt place.now rule.now found) }
{
    let Some(start) = variable_at(rule.first.as_slice(), true, place) else {
        return Ok(None);
    };
    let Some(finish) = variable_at(rule.last.as_slice(), true, place) else {
        return Ok(None);
    };
    let reasons = size_between(alloc, rule.rows.as_slice(), rule.vars, start, finish)?;
    followed_of(alloc, rule.rows.len(), &reasons)
}
