//! How often the rows of a rule count.
ghost use Rattle.std.specs.Prelude.{◌≡◌, ◌++◌, IfOk, OnOk, get_or, pos, replicate};
ghost use Rattle.rank_forms.specs.rule_links.Counting.{added, counted, kept, kept_at, multipliers_of};

use crate::rule_links::reaching::sum;
use list_views::Seq;
use std::alloc::{AllocError, Global};

/// How often a row counts.
fn count_at(counts: &[i64], row: usize) -> i64
    ensures { result ≡ get_or counts.now row (pos 0) }
{
    match counts.get(row) {
        Some(count) => *count,
        None => 0,
    }
}

/// Counts a row so many times more.
fn add(row: usize, times: &i64, counts: &mut Vec<i64>) -> Result<(), AllocError>
    ensures { OnOk result (counts.new.items ≡ added row times.now counts.old.items) }
{
    let before = count_at(counts.as_slice(), row);
    let Some(more) = sum(&before, times) else {
        return Err(AllocError);
    };
    if row < counts.len() {
        counts[row] = more;
    }
    Ok(())
}

/// So many rows of which none counts.
fn none_counts(alloc: Global, rows: usize) -> Result<Vec<i64>, AllocError>
    ensures { IfOk result (λ counts. counts.items ≡ replicate rows (pos 0)) }
{
    let mut counts = Vec::new(alloc);
    for _n in 0..rows {
        counts.push(0)?;
    }
    Ok(counts)
}

/// How often each row counts by these entries.
fn count_all(alloc: Global, rows: usize, entries: &[(usize, i64)]) -> Result<Vec<i64>, AllocError>
    ensures { IfOk result (λ counts. counts.items ≡ counted entries.now (replicate rows (pos 0))) }
{
    let mut counts = none_counts(alloc, rows)?;
    for (row, times) in entries {
        add(*row, times, &mut counts)?;
    }
    Ok(counts)
}

/// Adds a row that counts.
fn keep_one(n: usize, times: &i64, list: &mut Seq<(u32, i64)>) -> Result<(), AllocError>
    ensures { OnOk result (list.new ≡ list.old ++ kept_at n times.now) }
{
    if *times != 0 {
        let Ok(row) = u32::try_from(n) else {
            return Err(AllocError);
        };
        list.push((row, *times))?;
    }
    Ok(())
}

/// The rows that count, with their multipliers.
fn keep(alloc: Global, counts: &[i64]) -> Result<Seq<(u32, i64)>, AllocError>
    ensures { IfOk result (λ list. list ≡ kept 0 counts.now) }
{
    let mut list = Seq::new(alloc);
    for (n, times) in counts.iter().enumerate() {
        keep_one(n, times, &mut list)?;
    }
    Ok(list)
}

/// The multipliers of so many rows that these entries add up to; an entry past the rows is left out.
///
/// # Errors
///
/// Want of memory, which also answers a number of more than 64 bits, or a row past 2^32.
pub fn multipliers_of(
    alloc: Global,
    rows: usize,
    entries: &[(usize, i64)],
) -> Result<Seq<(u32, i64)>, AllocError>
    ensures { IfOk result (λ list. list ≡ multipliers_of rows entries.now) }
{
    let counts = count_all(alloc, rows, entries)?;
    keep(alloc, counts.as_slice())
}
