//! Cases of abstract ints as the table writes them.
use abs_ints::{Few, IntCase, ShortRow, Way};
use lin_core::{Interval, RowKind};
use std::alloc::{AllocError, Global};
use table_cases::put_numbered;

/// The cases in order, with bars between them. A narrowing has no right operand.
pub fn cases_line(
    alloc: Global,
    mut cases: Few<IntCase>,
    narrows: bool,
) -> Result<String, AllocError> {
    let mut line = String::new(alloc);
    for n in 0..3u8 {
        if let Some(case) = cases.take_first() {
            line.push_str(bar_before(n))?;
            put_case(&mut line, case, narrows)?;
        }
    }
    Ok(line)
}

/// What stands in front of a case.
fn bar_before(n: u8) -> &'static str {
    if n > 0 { " | " } else { "" }
}

/// The way, the intervals and the rows of a case.
fn put_case(line: &mut String, case: IntCase, narrows: bool) -> Result<(), AllocError> {
    let right = if narrows { None } else { Some(case.right) };
    line.push_str(way_word(case.way))?;
    put_interval(line, Some(case.left))?;
    put_interval(line, right)?;
    put_interval(line, case.result)?;
    put_rows(line, case.rows)
}

/// The word of a way.
fn way_word(way: Way) -> &'static str {
    match way {
        Way::Inside => "inside",
        Way::Over => "over",
        Way::Under => "under",
        Way::Zero => "zero",
        Way::Taken => "taken",
        Way::Next => "next",
    }
}

/// A space and the interval, or a dash where there is none.
fn put_interval(line: &mut String, interval: Option<Interval>) -> Result<(), AllocError> {
    match interval {
        Some(interval) => put_ends(line, interval.lo(), interval.hi()),
        None => line.push_str(" -"),
    }
}

fn put_ends(line: &mut String, lo: i32, hi: i32) -> Result<(), AllocError> {
    put_numbered(line, " [", i64::from(lo))?;
    put_numbered(line, ",", i64::from(hi))?;
    line.push(']')
}

fn put_rows(line: &mut String, mut rows: Few<ShortRow>) -> Result<(), AllocError> {
    for _ in 0..3u8 {
        if let Some(row) = rows.take_first() {
            put_row(line, row)?;
        }
    }
    Ok(())
}

/// A space and the row.
fn put_row(line: &mut String, row: ShortRow) -> Result<(), AllocError> {
    let kind = match row.kind {
        RowKind::AtLeastZero => " ge:",
        RowKind::IsZero => " eq:",
    };
    put_numbered(line, kind, row.left)?;
    put_numbered(line, ",", row.right)?;
    put_numbered(line, ",", row.result)?;
    put_numbered(line, ",", row.constant)
}
