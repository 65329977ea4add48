//! The table of a form that may differ from cut to cut: by the affine form of Farkas' lemma, a form never rises along a rule where its
//! fall is a sum of the rule's rows, each some times, and of a number that is at least 0 (P. Feautrier, Some efficient solutions to the
//! affine scheduling problem, 1992; A. Podelski and A. Rybalchenko, A complete method for the synthesis of linear ranking functions, 2004).
use crate::reducing::Reduced;
use crate::stop::Stop;
use crate::sums::{Sum, added, list_sum, put, sum_at, times_of};
use crate::unknowns::{Unknown, bound_of, number_of};
use std::alloc::{AllocError, Global};

/// Rows of a table, each a number for each unknown, whose sums are at least 0; the last ones say what each rule falls by.
#[derive(Drop)]
pub(crate) struct Table {
    /// The rows.
    pub(crate) rows: Vec<Vec<i64>>,
    /// What each rule falls by.
    pub(crate) falls: Vec<Vec<i64>>,
}

/// A slot of a cut so many times, where a rule starts there, less that of its end, where it ends there.
fn slot_share(
    alloc: Global,
    rule: &Reduced,
    cut: u32,
    slot: usize,
    times: i64,
) -> Result<Sum, Stop> {
    let first = if rule.from == cut {
        sum_at(rule.first.as_slice(), slot)
    } else {
        &[]
    };
    let start = added(alloc, &[], first, times)?;
    if rule.to != cut {
        return Ok(start);
    }
    let less = times.checked_neg().ok_or(Stop::NoForm)?;
    added(
        alloc,
        start.as_slice(),
        sum_at(rule.last.as_slice(), slot),
        less,
    )
}

/// A constant of a cut so: nothing where a rule starts and ends there.
fn constant_share(alloc: Global, rule: &Reduced, cut: u32, times: i64) -> Result<Sum, Stop> {
    let mut share = Vec::new(alloc);
    if rule.from == cut && rule.to != cut {
        put(&mut share, rule.vars, times)?;
    }
    if rule.from != cut && rule.to == cut {
        put(
            &mut share,
            rule.vars,
            times.checked_neg().ok_or(Stop::NoForm)?,
        )?;
    }
    Ok(share)
}

/// What one time an unknown adds to the fall of a rule, bounds aside.
pub(crate) fn share_of(
    alloc: Global,
    rule: &Reduced,
    n: usize,
    unknown: &Unknown,
) -> Result<Sum, Stop> {
    match unknown {
        Unknown::Slot { cut, slot, times } => slot_share(alloc, rule, *cut, *slot, *times),
        Unknown::Constant { cut, times } => constant_share(alloc, rule, *cut, *times),
        Unknown::Row { rule: own, row } if *own == n => {
            added(alloc, &[], sum_at(rule.rows.as_slice(), *row), -1)
        }
        _ => Ok(Vec::new(alloc)),
    }
}

/// How often a number counts in each share.
fn column(alloc: Global, shares: &[Sum], number: usize) -> Result<Vec<i64>, AllocError> {
    let mut list = Vec::new(alloc);
    for share in shares {
        list.push(times_of(share.as_slice(), number))?;
    }
    Ok(list)
}

/// 1 at the unknown that is the lower bound of a rule's variable, and 0 elsewhere.
fn low_row(
    alloc: Global,
    rule: usize,
    variable: usize,
    unknowns: &[Unknown],
) -> Result<Vec<i64>, AllocError> {
    let mut list = Vec::new(alloc);
    for unknown in unknowns {
        let own = *unknown == Unknown::Low { rule, variable };
        list.push(if own { 1 } else { 0 })?;
    }
    Ok(list)
}

/// A list so many times less.
fn take_off(alloc: Global, fall: &[i64], list: &[i64], number: i64) -> Result<Vec<i64>, Stop> {
    list_sum(alloc, fall, list, number.checked_neg().ok_or(Stop::NoForm)?)
}

/// Adds what has to stand of a variable: what counts of it is what its bounds count. Gives what the rule falls by then.
fn add_variable(
    alloc: Global,
    rule: &Reduced,
    counts: &[i64],
    low: &[i64],
    bounds: (Option<usize>, Option<usize>),
    fall: &[i64],
    rows: &mut Vec<Vec<i64>>,
) -> Result<Vec<i64>, Stop> {
    let high = list_sum(alloc, low, counts, -1)?;
    match bounds {
        (Some(least), Some(most)) => {
            let above = take_off(alloc, fall, low, number_of(rule, least))?;
            let left = take_off(
                alloc,
                above.as_slice(),
                high.as_slice(),
                number_of(rule, most),
            )?;
            rows.push(high)?;
            Ok(left)
        }
        (Some(least), None) => {
            rows.push(list_sum(alloc, counts, &[], 0)?)?;
            take_off(alloc, fall, counts, number_of(rule, least))
        }
        (None, Some(most)) => {
            let left = take_off(alloc, fall, high.as_slice(), number_of(rule, most))?;
            rows.push(high)?;
            Ok(left)
        }
        (None, None) => {
            rows.push(list_sum(alloc, counts, &[], 0)?)?;
            rows.push(high)?;
            list_sum(alloc, fall, &[], 0)
        }
    }
}

/// Whether some number isn't 0.
fn has_some(list: &[i64]) -> bool {
    for number in list {
        if *number != 0 {
            return true;
        }
    }
    false
}

/// Adds a rule to the table.
fn add_rule(
    alloc: Global,
    rule: &Reduced,
    n: usize,
    unknowns: &[Unknown],
    table: &mut Table,
) -> Result<(), Stop> {
    let mut shares = Vec::new(alloc);
    for unknown in unknowns {
        shares.push(share_of(alloc, rule, n, unknown)?)?;
    }
    let mut fall = column(alloc, shares.as_slice(), rule.vars)?;
    for variable in 0..rule.vars {
        let counts = column(alloc, shares.as_slice(), variable)?;
        if has_some(counts.as_slice()) {
            let low = low_row(alloc, n, variable, unknowns)?;
            let bounds = (bound_of(rule, variable, 1), bound_of(rule, variable, -1));
            fall = add_variable(
                alloc,
                rule,
                counts.as_slice(),
                low.as_slice(),
                bounds,
                fall.as_slice(),
                &mut table.rows,
            )?;
        }
    }
    table.falls.push(fall)?;
    Ok(())
}

/// The table of rules.
pub(crate) fn table_of(
    alloc: Global,
    left: &[Reduced],
    unknowns: &[Unknown],
) -> Result<Table, Stop> {
    let mut table = Table {
        rows: Vec::new(alloc),
        falls: Vec::new(alloc),
    };
    for (n, rule) in left.iter().enumerate() {
        add_rule(alloc, rule, n, unknowns, &mut table)?;
    }
    Ok(table)
}
