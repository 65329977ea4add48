//! Abstract ints: an operator and the ends of two intervals, or a condition, whether both sides are one int, and the ends.
use crate::values::printing::cases_line;
use crate::values::words::{condition, operator};
use anyhow::{Context, Result};
use jvm_values::{Cond, IntOp};
use lin_core::Interval;
use std::alloc::Global;
use table_cases::{Case, number};

/// The answer to a case.
pub fn answer(alloc: Global, case: &Case<'_>) -> Result<String> {
    match operator(case.table()) {
        Some(op) => operated(alloc, op, case),
        None => compared(alloc, condition(case.table()), case),
    }
}

/// The cases of an operator.
fn operated(alloc: Global, op: IntOp, case: &Case<'_>) -> Result<String> {
    let a = interval(case, 0)?;
    let b = interval(case, 2)?;
    let narrows = matches!(op, IntOp::Narrow(_));
    Ok(cases_line(alloc, abs_ints::operate(op, a, b), narrows)?)
}

/// The cases of a comparison.
fn compared(alloc: Global, cond: Option<Cond>, case: &Case<'_>) -> Result<String> {
    let cond = cond.context("an operator or a condition is wanted")?;
    let same = case.text(0)? == "1";
    let a = interval(case, 1)?;
    let b = interval(case, 3)?;
    Ok(cases_line(alloc, abs_ints::compare(cond, same, a, b), false)?)
}

/// The interval whose ends are the input field `n` and the next one.
fn interval(case: &Case<'_>, n: u8) -> Result<Interval> {
    let lo = end(case.text(usize::from(n))?)?;
    let hi = end(case.text(usize::from(n) + 1)?)?;
    Interval::new(lo, hi).context("the interval is empty")
}

fn end(text: &str) -> Result<i32> {
    i32::try_from(number(text)?)
        .ok()
        .context("an int is wanted")
}
