//! How what stands at a place is followed along a rule, and what shows that it falls.
ghost use Rattle.std.specs.Prelude.{◌≡◌, ◌<◌, ◌∷◌, [], pos, IfOk};
ghost use Rattle.descent.specs.Conditions.{IsRule};
ghost use Rattle.rank_forms.specs.Following.{IsFew, TellsFollowed, made};
ghost use Rattle.rank_forms.specs.inner.Following.{SmallConstants, TellsBetween, bound_from, bounded_by};
ghost use Rattle.rank_forms.specs.inner.Following.{step_entries};
ghost use Rattle.rank_forms.specs.Following.{step_times};

use crate::rule_links::{
    Tie, bounds, by_of, fall_ties, known_of, longest, multipliers_of, trail, variable_at,
};
use descent::{PathRule, Place};
use lin_core::WRow;
use list_views::Seq;
use std::alloc::{AllocError, Global};

/// A row that bounds what stands at a place where a rule starts.
#[derive(Clone, Copy, PartialEq, Eq)]
pub struct BoundRow {
    /// The row, by number.
    pub row: usize,
    /// Its constant.
    pub base: i64,
}

/// How a form is bounded where a rule starts: with a constant it is at least 0 there.
#[derive(PartialEq, Drop)]
pub struct Bound {
    /// The multipliers that show it.
    pub rows: Seq<(u32, i64)>,
    /// What has to be added.
    pub base: i64,
}

/// What falls along a rule.
#[derive(PartialEq, Drop)]
pub struct Followed {
    /// What it falls by at least.
    pub falls: i64,
    /// The multipliers that show it.
    pub fall: Seq<(u32, i64)>,
    /// What bounds it where the rule starts, if something does.
    pub bound: Option<Bound>,
}

/// How often the row of a fall link counts.
pub(crate) fn step_times(tie: &Tie) -> i64
    ensures { result ≡ step_times tie.now }
{
    if tie.back { -1 } else { 1 }
}

/// The rows of fall links.
fn step_entries(alloc: Global, ties: &[Tie]) -> Result<Seq<(usize, i64)>, AllocError>
    ensures { IfOk result (λ entries. entries ≡ step_entries ties.now) }
{
    let mut entries = Seq::new(alloc);
    for tie in ties {
        entries.push((tie.row, step_times(tie)))?;
    }
    Ok(entries)
}

/// The first row that bounds a start.
fn bound_of(rows: &[WRow], negative: bool, start: u32) -> Option<BoundRow>
    ensures { result ≡ bound_from negative start 0 rows.now }
{
    for (n, row) in rows.iter().enumerate() {
        if bounds(negative, start, row) {
            return Some(BoundRow {
                row: n,
                base: row.constant,
            });
        }
    }
    None
}

/// A row that counts once.
fn one_row(alloc: Global, row: usize) -> Result<Seq<(u32, i64)>, AllocError>
    ensures { IfOk result (λ list. list ≡ (row, pos 1) ∷ []) }
{
    let Ok(row) = u32::try_from(row) else {
        return Err(AllocError);
    };
    Seq::from_slice(alloc, &[(row, 1)])
}

/// What a row that counts once bounds.
fn bounded_by(alloc: Global, found: Option<BoundRow>) -> Result<Option<Bound>, AllocError>
    ensures { IfOk result (λ bound. bound ≡ bounded_by found) }
{
    match found {
        Some(row) => Ok(Some(Bound {
            rows: one_row(alloc, row.row)?,
            base: row.base,
        })),
        None => Ok(None),
    }
}

/// The parts together.
pub(crate) fn made(falls: &i64, fall: Seq<(u32, i64)>, bound: Option<Bound>) -> Followed
    ensures { result ≡ made falls.now fall bound }
{
    Followed {
        falls: *falls,
        fall,
        bound,
    }
}

/// What an int, or its negative, falls by step by step from one variable to another one; None where no steps lead there.
fn steps_between(
    alloc: Global,
    rows: &[WRow],
    negative: bool,
    start: u32,
    finish: u32,
) -> Result<Option<Followed>, AllocError>
    requires rows { SmallConstants rows.now }
    requires finish { finish < 65536 }
    ensures { IfOk result (λ found. TellsBetween negative rows.now start finish found) }
{
    let ties = fall_ties(alloc, negative, rows)?;
    let known = longest(alloc, ties.as_slice(), start)?;
    let come = known_of(known.as_slice(), finish);
    if come.is_none() {
        return Ok(None);
    }
    let path = trail(alloc, known.as_slice(), finish)?;
    let entries = step_entries(alloc, path.as_slice())?;
    let fall = multipliers_of(alloc, rows.len(), entries.as_slice())?;
    let bound = bounded_by(alloc, bound_of(rows, negative, start))?;
    Ok(Some(made(&by_of(come), fall, bound)))
}

/// What an int, or its negative, falls by step by step along a rule; None where no steps lead along it.
///
/// # Errors
///
/// Want of memory, which also answers a number of more than 64 bits.
pub fn follow_steps(
    alloc: Global,
    rule: &PathRule,
    negative: bool,
    place: &Place,
) -> Result<Option<Followed>, AllocError>
    requires rule { IsRule rule.now }
    requires few { IsFew rule.now }
    ensures { IfOk result (λ found. TellsFollowed negative rule.now place.now found) }
{
    let Some(start) = variable_at(rule.first.as_slice(), false, place) else {
        return Ok(None);
    };
    let Some(finish) = variable_at(rule.last.as_slice(), false, place) else {
        return Ok(None);
    };
    steps_between(alloc, rule.rows.as_slice(), negative, start, finish)
}
