//! The multipliers that show that a form never rises on a rule.
use crate::bound_search::limits::are_rules;
use crate::bound_search::lines::{form_at, int_slot, line_slot, weights_of};
use crate::bound_search::stop::Stop;
use crate::bound_search::sums::{plus_times, weighed};
use cut_search::by_rows;
use descent::{CutForm, PathRule, RankRule, RankStep, RowKind, SlotForm, WRow};
use list_views::Seq;
use std::alloc::{AllocError, Global};

/// A row with its classes weighed.
fn weighed_row(alloc: Global, row: &WRow, weights: &[(u32, i64)]) -> Result<WRow, Stop> {
    let more = weighed(row.weights.as_slice(), weights)?;
    Ok(WRow {
        kind: row.kind,
        terms: Seq::from_slice(alloc, row.terms.as_slice())?,
        constant: plus_times(row.constant, more, 1)?,
        weights: Seq::new(alloc),
    })
}

/// A rule's rows with their classes weighed.
fn weighed_rows(alloc: Global, rows: &[WRow], weights: &[(u32, i64)]) -> Result<Seq<WRow>, Stop> {
    let mut list = Seq::new(alloc);
    for row in rows {
        list.push(weighed_row(alloc, row, weights)?)?;
    }
    Ok(list)
}

/// A list of one slot.
fn only(alloc: Global, slot: SlotForm) -> Result<Seq<SlotForm>, AllocError> {
    let mut list = Seq::new(alloc);
    list.push(slot)?;
    Ok(list)
}

/// A rule on which one int stands for a form: it goes from the form's value at the rule's start to that at its end.
fn int_rule(
    alloc: Global,
    rule: &PathRule,
    step: &RankStep,
    forms: &[CutForm],
) -> Result<PathRule, Stop> {
    let first = line_slot(
        alloc,
        step,
        form_at(forms, rule.from),
        rule.first.as_slice(),
    )?;
    let last = line_slot(alloc, step, form_at(forms, rule.to), rule.last.as_slice())?;
    Ok(PathRule {
        from: 0,
        to: 0,
        vars: rule.vars,
        rows: weighed_rows(alloc, rule.rows.as_slice(), weights_of(step))?,
        first: only(alloc, first)?,
        last: only(alloc, last)?,
    })
}

/// The row that a sum is at least 0, or that it is 0.
fn row_of(
    alloc: Global,
    kind: RowKind,
    terms: &[(u32, i64)],
    constant: i64,
) -> Result<WRow, AllocError> {
    Ok(WRow {
        kind,
        terms: Seq::from_slice(alloc, terms)?,
        constant,
        weights: Seq::new(alloc),
    })
}

/// A rule on which an int from 0 on falls by 1.
fn falling_rule(alloc: Global) -> Result<PathRule, AllocError> {
    let mut rows = Seq::new(alloc);
    rows.push(row_of(alloc, RowKind::AtLeastZero, &[(0, 1)], 0)?)?;
    rows.push(row_of(alloc, RowKind::IsZero, &[(0, 1), (1, -1)], -1)?)?;
    let first = int_slot(alloc, Seq::from_slice(alloc, &[(0, 1)])?, 0)?;
    let last = int_slot(alloc, Seq::from_slice(alloc, &[(1, 1)])?, 0)?;
    Ok(PathRule {
        from: 0,
        to: 0,
        vars: 2,
        rows,
        first: only(alloc, first)?,
        last: only(alloc, last)?,
    })
}

/// How often a step counts the one int; none where its form has other parts.
fn times_of(step: &RankStep) -> Result<i64, Stop> {
    let form = step.forms.get(0).ok_or(Stop::None)?;
    let (_, times) = form.ints.get(0).ok_or(Stop::None)?;
    if form.ints.len() == 1 && *times > 0 {
        Ok(*times)
    } else {
        Err(Stop::None)
    }
}

/// The multipliers of the first rule of a step.
fn first_fall(step: &RankStep) -> Result<&[(u32, i64)], Stop> {
    match step.rules.get(0) {
        Some(RankRule::Weak { rule: 0, fall }) => Ok(fall.as_slice()),
        Some(RankRule::Strict { rule: 0, fall, .. }) => Ok(fall.as_slice()),
        _ => Err(Stop::None),
    }
}

/// Multipliers, divided by a number; none where it doesn't divide one.
fn divided(alloc: Global, fall: &[(u32, i64)], by: i64) -> Result<Seq<(u32, i64)>, Stop> {
    let mut list = Seq::new(alloc);
    for (row, times) in fall {
        if times.checked_rem(by).ok_or(Stop::None)? != 0 {
            return Err(Stop::None);
        }
        list.push((*row, times.checked_div(by).ok_or(Stop::None)?))?;
    }
    Ok(list)
}

/// Whether the form's values at both ends of a rule show without a row that it never rises.
fn is_plain(rule: &PathRule) -> bool {
    let (Some(first), Some(last)) = (rule.first.get(0), rule.last.get(0)) else {
        return false;
    };
    first.terms == last.terms && first.constant >= last.constant
}

/// The multipliers of a rule's rows that show that a form never rises on it, found by the search for linear forms: it is asked for a form
/// over this rule and one on which the form falls.
pub(crate) fn fall_of(
    alloc: Global,
    rule: &PathRule,
    step: &RankStep,
    forms: &[CutForm],
) -> Result<Seq<(u32, i64)>, Stop> {
    let own = int_rule(alloc, rule, step, forms)?;
    if is_plain(&own) {
        return Ok(Seq::new(alloc));
    }
    let mut rules = Seq::new(alloc);
    rules.push(own)?;
    rules.push(falling_rule(alloc)?)?;
    if !are_rules(rules.as_slice()) {
        return Err(Stop::None);
    }
    let found = by_rows(alloc, rules.as_slice())?.ok_or(Stop::None)?;
    divided(alloc, first_fall(&found)?, times_of(&found)?)
}
