//! Sums of numbered things, each so many times: entries by number, none of them 0 times.
use crate::stop::Stop;
use std::alloc::{AllocError, Global};

/// A sum.
pub(crate) type Sum = Vec<(usize, i64)>;

/// How often a number counts.
pub(crate) fn times_of(sum: &[(usize, i64)], number: usize) -> i64 {
    for entry in sum {
        if entry.0 == number {
            return entry.1;
        }
    }
    0
}

/// One number, and another one so many times; None past 64 bits.
pub(crate) fn plus_times(one: i64, other: i64, times: i64) -> Option<i64> {
    one.checked_add(other.checked_mul(times)?)
}

/// Adds an entry, if it counts.
pub(crate) fn put(sum: &mut Sum, number: usize, times: i64) -> Result<(), AllocError> {
    if times != 0 {
        sum.push((number, times))?;
    }
    Ok(())
}

/// Adds entries from a place on, so many times, as long as their numbers are below one; gives the place of the next one.
fn put_below(
    sum: &mut Sum,
    other: &[(usize, i64)],
    from: usize,
    below: usize,
    times: i64,
) -> Result<usize, Stop> {
    for n in from..other.len() {
        let entry = other[n];
        if entry.0 >= below {
            return Ok(n);
        }
        put(
            sum,
            entry.0,
            entry.1.checked_mul(times).ok_or(Stop::NoForm)?,
        )?;
    }
    Ok(other.len())
}

/// Adds an entry and, where the one at a place of another sum has its number, that one so many times; gives the place behind.
fn put_both(
    sum: &mut Sum,
    entry: (usize, i64),
    other: &[(usize, i64)],
    at: usize,
    times: i64,
) -> Result<usize, Stop> {
    if let Some(more) = other.get(at) {
        if more.0 == entry.0 {
            put(
                sum,
                entry.0,
                plus_times(entry.1, more.1, times).ok_or(Stop::NoForm)?,
            )?;
            return at.checked_add(1).ok_or(Stop::NoForm);
        }
    }
    put(sum, entry.0, entry.1)?;
    Ok(at)
}

/// The sum of two sums, the second so many times.
pub(crate) fn added(
    alloc: Global,
    one: &[(usize, i64)],
    other: &[(usize, i64)],
    times: i64,
) -> Result<Sum, Stop> {
    let mut sum = Vec::new(alloc);
    let mut next = 0;
    for entry in one {
        let at = put_below(&mut sum, other, next, entry.0, times)?;
        next = put_both(&mut sum, *entry, other, at, times)?;
    }
    put_below(&mut sum, other, next, usize::MAX, times)?;
    Ok(sum)
}

/// The sum at a place of a list; past its end there is nothing.
pub(crate) fn sum_at(list: &[Sum], n: usize) -> &[(usize, i64)] {
    match list.get(n) {
        Some(sum) => sum.as_slice(),
        None => &[],
    }
}

/// The number at a place of a list; past its end 0.
pub(crate) fn count_at(list: &[i64], n: usize) -> i64 {
    match list.get(n) {
        Some(count) => *count,
        None => 0,
    }
}

/// One list, and another one so many times.
pub(crate) fn list_sum(
    alloc: Global,
    one: &[i64],
    other: &[i64],
    times: i64,
) -> Result<Vec<i64>, Stop> {
    let mut list = Vec::new(alloc);
    for (n, number) in one.iter().enumerate() {
        list.push(plus_times(*number, count_at(other, n), times).ok_or(Stop::NoForm)?)?;
    }
    Ok(list)
}
