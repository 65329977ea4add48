//! What is unknown of a form that may differ from cut to cut, and of the rows that show that it falls.
use crate::reducing::Reduced;
use crate::sums::{Sum, sum_at, times_of};
use descent::{PathRule, SlotForm};
use rank_forms::slots_for;
use std::alloc::{AllocError, Global};

/// A number that is at least 0.
#[derive(Clone, Copy, PartialEq, Eq)]
pub(crate) enum Unknown {
    /// How often a slot of a cut counts, by its place in the cut's list; or its negative, where `times` is -1.
    Slot { cut: u32, slot: usize, times: i64 },
    /// The constant of a cut, or its negative.
    Constant { cut: u32, times: i64 },
    /// How often a rule counts one of its rows.
    Row { rule: usize, row: usize },
    /// How often a rule counts the row that bounds a variable below.
    Low { rule: usize, variable: usize },
}

/// The one variable of a row that bounds it, and its sign: 1 below, -1 above.
fn bounded(row: &[(usize, i64)], vars: usize) -> Option<(usize, i64)> {
    let first = row.first()?;
    let alone = match row.get(1) {
        Some(second) => second.0 >= vars,
        None => true,
    };
    if alone && first.0 < vars && (first.1 == 1 || first.1 == -1) {
        Some(*first)
    } else {
        None
    }
}

/// The row that bounds a variable, below where the sign is 1, and above where it is -1.
pub(crate) fn bound_of(rule: &Reduced, variable: usize, sign: i64) -> Option<usize> {
    for (n, row) in rule.rows.iter().enumerate() {
        if bounded(row.as_slice(), rule.vars) == Some((variable, sign)) {
            return Some(n);
        }
    }
    None
}

/// The number of a row.
pub(crate) fn number_of(rule: &Reduced, row: usize) -> i64 {
    times_of(sum_at(rule.rows.as_slice(), row), rule.vars)
}

/// 1 for a number from 0 on, and else -1.
pub(crate) fn sign_of(times: i64) -> i64 {
    if times < 0 { -1 } else { 1 }
}

/// A sum is at least this, by the bounds of its variables; None where one has none, or past 64 bits.
fn least(rule: &Reduced, row: &[(usize, i64)]) -> Option<i64> {
    let mut sum: i64 = times_of(row, rule.vars);
    for entry in row {
        if entry.0 < rule.vars {
            let sign = sign_of(entry.1);
            let number = number_of(rule, bound_of(rule, entry.0, sign)?);
            sum = sum.checked_sub(entry.1.checked_mul(sign)?.checked_mul(number)?)?;
        }
    }
    Some(sum)
}

/// Whether a row says more than bounds of variables.
fn is_general(rule: &Reduced, row: &[(usize, i64)]) -> bool {
    if bounded(row, rule.vars).is_some() {
        return false;
    }
    match least(rule, row) {
        Some(number) => number < 0,
        None => true,
    }
}

/// Whether a variable stands in one of these sums.
fn stands_in(sums: &[Sum], variable: usize) -> bool {
    for sum in sums {
        if times_of(sum.as_slice(), variable) != 0 {
            return true;
        }
    }
    false
}

/// Adds the unknowns of a cut: its slots, ints with both signs, and its constant.
fn add_cut(
    cut: u32,
    slots: &[SlotForm],
    constant: bool,
    unknowns: &mut Vec<Unknown>,
) -> Result<(), AllocError> {
    for (slot, form) in slots.iter().enumerate() {
        let times = 1;
        unknowns.push(Unknown::Slot { cut, slot, times })?;
        if !form.size {
            let times = -1;
            unknowns.push(Unknown::Slot { cut, slot, times })?;
        }
    }
    if constant {
        unknowns.push(Unknown::Constant { cut, times: 1 })?;
        unknowns.push(Unknown::Constant { cut, times: -1 })?;
    }
    Ok(())
}

/// Adds the unknowns of a rule's rows; gives the rows.
fn add_rows(
    alloc: Global,
    reduced: &Reduced,
    rule: usize,
    unknowns: &mut Vec<Unknown>,
) -> Result<Vec<usize>, AllocError> {
    let mut general = Vec::new(alloc);
    for (row, sum) in reduced.rows.iter().enumerate() {
        if is_general(reduced, sum.as_slice()) {
            unknowns.push(Unknown::Row { rule, row })?;
            general.push(row)?;
        }
    }
    Ok(general)
}

/// Whether a variable counts for the form: it stands in a slot, or in one of these rows.
fn is_used(rule: &Reduced, general: &[usize], variable: usize) -> bool {
    for row in general {
        if times_of(sum_at(rule.rows.as_slice(), *row), variable) != 0 {
            return true;
        }
    }
    stands_in(rule.first.as_slice(), variable) || stands_in(rule.last.as_slice(), variable)
}

/// Adds the unknowns of the bounds of variables that have both.
fn add_bounds(
    reduced: &Reduced,
    rule: usize,
    general: &[usize],
    unknowns: &mut Vec<Unknown>,
) -> Result<(), AllocError> {
    for variable in 0..reduced.vars {
        if is_used(reduced, general, variable)
            && bound_of(reduced, variable, 1).is_some()
            && bound_of(reduced, variable, -1).is_some()
        {
            unknowns.push(Unknown::Low { rule, variable })?;
        }
    }
    Ok(())
}

/// The cuts of rules, each once, in their order.
pub(crate) fn cuts_of(alloc: Global, rules: &[PathRule]) -> Result<Vec<u32>, AllocError> {
    let mut all = Vec::new(alloc);
    for rule in rules {
        all.push(rule.from)?;
        all.push(rule.to)?;
    }
    all.sort_by_key(|cut| *cut)?;
    let mut cuts = Vec::new(alloc);
    let mut before = None;
    for cut in &all {
        if before != Some(*cut) {
            cuts.push(*cut)?;
        }
        before = Some(*cut);
    }
    Ok(cuts)
}

/// All unknowns: those of the cuts, then those of each rule.
pub(crate) fn all_unknowns(
    alloc: Global,
    rules: &[PathRule],
    cuts: &[u32],
    left: &[Reduced],
) -> Result<Vec<Unknown>, AllocError> {
    let mut unknowns = Vec::new(alloc);
    for cut in cuts {
        add_cut(*cut, slots_for(rules, *cut), cuts.len() > 1, &mut unknowns)?;
    }
    for (n, rule) in left.iter().enumerate() {
        let general = add_rows(alloc, rule, n, &mut unknowns)?;
        add_bounds(rule, n, general.as_slice(), &mut unknowns)?;
    }
    Ok(unknowns)
}
