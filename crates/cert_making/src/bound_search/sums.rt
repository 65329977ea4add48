//! Sums of numbered things, each so many times.
use crate::bound_search::stop::Stop;
use list_views::Seq;
use std::alloc::{AllocError, Global};

/// A number, and another one so many times.
pub(crate) fn plus_times(one: i64, other: i64, times: i64) -> Result<i64, Stop> {
    let more = other.checked_mul(times).ok_or(Stop::None)?;
    one.checked_add(more).ok_or(Stop::None)
}

/// Adds so much of a thing.
pub(crate) fn put(sum: &mut Vec<(u32, i64)>, thing: u32, times: i64) -> Result<(), Stop> {
    for n in 0..sum.len() {
        if sum[n].0 == thing {
            sum[n].1 = plus_times(sum[n].1, times, 1)?;
            return Ok(());
        }
    }
    sum.push((thing, times))?;
    Ok(())
}

/// What counts in a sum, by its numbers.
pub(crate) fn rising(
    alloc: Global,
    sum: &mut Vec<(u32, i64)>,
) -> Result<Seq<(u32, i64)>, AllocError> {
    sum.sort_by_key(|entry| entry.0)?;
    let mut list = Seq::new(alloc);
    for entry in sum.as_slice() {
        if entry.1 != 0 {
            list.push(*entry)?;
        }
    }
    Ok(list)
}

/// How often a class's weight counts, for the classes of a list, with the weights of another list; a class without one has 0.
pub(crate) fn weighed(times: &[(u32, i64)], weights: &[(u32, i64)]) -> Result<i64, Stop> {
    let mut sum = 0;
    for (class, number) in times {
        sum = plus_times(sum, weight_of(weights, *class), *number)?;
    }
    Ok(sum)
}

/// The weight of a class.
fn weight_of(weights: &[(u32, i64)], class: u32) -> i64 {
    for (own, weight) in weights {
        if *own == class {
            return *weight;
        }
    }
    0
}
