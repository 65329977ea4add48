//! Forms over several places: multiples of what falls, by exact fractions.
ghost use Rattle.std.specs.Prelude.{IfOk, IfSome};
ghost use Rattle.descent.specs.Conditions.{AreRules};
ghost use Rattle.rank_forms.specs.RankSteps.{IsRankStep};

use crate::asking::shown;
use cut_search::simplex::{Fraction, Tableau, common_of};
use descent::{PathRule, Place, RankStep};
use list_views::Seq;
use rank_forms::rule_links::{
    Course, Part, change_table, first_places, negated, size_table, step_table,
};
use std::alloc::{AllocError, Global};

/// The most exchanges that are made.
const MOST: u32 = 10_000;

/// A part with what it falls by along each rule.
#[derive(Drop)]
struct Column {
    part: Part,
    falls: Vec<i64>,
}

/// What a table says of a rule and a place.
fn told(table: &[Seq<Option<i64>>], rule: usize, place: usize) -> Option<i64> {
    match table.get(rule) {
        Some(list) => told_in(list.as_slice(), place),
        None => None,
    }
}

fn told_in(list: &[Option<i64>], place: usize) -> Option<i64> {
    match list.get(place) {
        Some(told) => *told,
        None => None,
    }
}

/// The negative of a number that may be there.
fn less(number: Option<i64>) -> Option<i64> {
    match number {
        Some(number) => negated(&number),
        None => None,
    }
}

/// The greater of two numbers that may be there.
fn greater(one: Option<i64>, other: Option<i64>) -> Option<i64> {
    match (one, other) {
        (Some(a), Some(b)) => if a < b { Some(b) } else { Some(a) },
        (Some(a), None) => Some(a),
        (None, _) => other,
    }
}

/// What an int falls by, or its negative: by a table of changes, and by one of falls.
fn int_fall(
    changes: &[Seq<Option<i64>>],
    steps: &[Seq<Option<i64>>],
    negative: bool,
    rule: usize,
    place: usize,
) -> Option<i64> {
    let change = told(changes, rule, place);
    let fall = if negative { change } else { less(change) };
    greater(fall, told(steps, rule, place))
}

/// Whether some number is above 0.
fn has_fall(falls: &[i64]) -> bool {
    for fall in falls {
        if *fall > 0 {
            return true;
        }
    }
    false
}

/// Whether a column has the same falls as one that is there.
fn is_there(columns: &[Column], falls: &[i64]) -> bool {
    for column in columns {
        if column.falls.as_slice() == falls {
            return true;
        }
    }
    false
}

/// Adds a column, if it falls somewhere and no other one has the same falls.
fn add_column(part: Part, falls: Vec<i64>, columns: &mut Vec<Column>) -> Result<(), AllocError> {
    if has_fall(falls.as_slice()) && !is_there(columns.as_slice(), falls.as_slice()) {
        columns.push(Column { part, falls })?;
    }
    Ok(())
}

/// What an int falls by on each rule, or its negative, where it is followed along each.
fn int_falls(
    alloc: Global,
    changes: &[Seq<Option<i64>>],
    steps: &[Seq<Option<i64>>],
    negative: bool,
    place: usize,
) -> Result<Option<Vec<i64>>, AllocError> {
    let mut falls = Vec::new(alloc);
    for rule in 0..changes.len() {
        match int_fall(changes, steps, negative, rule, place) {
            Some(fall) => falls.push(fall)?,
            None => return Ok(None),
        }
    }
    Ok(Some(falls))
}

/// What a size falls by on each rule, where it is followed along each.
fn size_falls(
    alloc: Global,
    table: &[Seq<Option<i64>>],
    place: usize,
) -> Result<Option<Vec<i64>>, AllocError> {
    let mut falls = Vec::new(alloc);
    for rule in 0..table.len() {
        match told(table, rule, place) {
            Some(fall) => falls.push(fall)?,
            None => return Ok(None),
        }
    }
    Ok(Some(falls))
}

/// Adds the columns of ints, or of their negatives.
fn add_ints(
    alloc: Global,
    rules: &[PathRule],
    places: &[Place],
    changes: &[Seq<Option<i64>>],
    negative: bool,
    columns: &mut Vec<Column>,
) -> Result<(), AllocError> {
    let steps = step_table(alloc, negative, rules, places)?;
    for (n, place) in places.iter().enumerate() {
        let part = Part {
            place: *place,
            times: if negative { -1 } else { 1 },
            course: Course::Either,
        };
        if let Some(falls) = int_falls(alloc, changes, steps.as_slice(), negative, n)? {
            add_column(part, falls, columns)?;
        }
    }
    Ok(())
}

/// Adds the columns of sizes.
fn add_sizes(alloc: Global, rules: &[PathRule], columns: &mut Vec<Column>) -> Result<(), AllocError>
    requires { AreRules rules.now }
{
    let places = first_places(alloc, rules, true)?;
    let table = size_table(alloc, rules, places.as_slice())?;
    for (n, place) in places.as_slice().iter().enumerate() {
        let part = Part {
            place: *place,
            times: 1,
            course: Course::Sizes,
        };
        if let Some(falls) = size_falls(alloc, table.as_slice(), n)? {
            add_column(part, falls, columns)?;
        }
    }
    Ok(())
}

/// All columns.
fn all_columns(alloc: Global, rules: &[PathRule]) -> Result<Vec<Column>, AllocError>
    requires { AreRules rules.now }
{
    let mut columns = Vec::new(alloc);
    let places = first_places(alloc, rules, false)?;
    let changes = change_table(alloc, rules, places.as_slice())?;
    add_ints(
        alloc,
        rules,
        places.as_slice(),
        changes.as_slice(),
        false,
        &mut columns,
    )?;
    add_ints(
        alloc,
        rules,
        places.as_slice(),
        changes.as_slice(),
        true,
        &mut columns,
    )?;
    add_sizes(alloc, rules, &mut columns)?;
    Ok(columns)
}

/// What a column falls by on a rule.
fn fall_at(falls: &[i64], rule: usize) -> i64 {
    match falls.get(rule) {
        Some(fall) => *fall,
        None => 0,
    }
}

/// What the columns fall by on a rule.
fn row_of(alloc: Global, columns: &[Column], rule: usize) -> Result<Vec<i64>, AllocError> {
    let mut row = Vec::new(alloc);
    for column in columns {
        row.push(fall_at(column.falls.as_slice(), rule))?;
    }
    Ok(row)
}

/// What falls add up to; None past 64 bits.
fn total_of(falls: &[i64]) -> Option<i64> {
    let mut total: i64 = 0;
    for fall in falls {
        total = total.checked_add(*fall)?;
    }
    Some(total)
}

/// What each column falls by on all rules together; None past 64 bits.
fn totals(alloc: Global, columns: &[Column]) -> Result<Option<Vec<i64>>, AllocError> {
    let mut all = Vec::new(alloc);
    for column in columns {
        match total_of(column.falls.as_slice()) {
            Some(total) => all.push(total)?,
            None => return Ok(None),
        }
    }
    Ok(Some(all))
}

/// The table of the columns; None past 64 bits.
fn tableau_of(
    alloc: Global,
    count: usize,
    columns: &[Column],
) -> Result<Option<Tableau>, AllocError> {
    let Some(aim) = totals(alloc, columns)? else {
        return Ok(None);
    };
    let mut rows = Vec::new(alloc);
    for rule in 0..count {
        rows.push(row_of(alloc, columns, rule)?)?;
    }
    Ok(Some(Tableau::new(alloc, rows.as_slice(), aim.as_slice())?))
}

/// A number of which each denominator is a divisor.
fn common(columns: &[Column], tableau: &Tableau) -> Option<i128> {
    let mut common: i128 = 1;
    for n in 0..columns.len() {
        let multiple = tableau.multiple(n);
        common = common_of(common, &multiple)?;
    }
    Some(common)
}

/// The part so many times.
fn part_times(part: &Part, multiple: &Fraction, common: i128) -> Option<Part> {
    let by = common.checked_div(multiple.below())?;
    let whole = i64::try_from(multiple.above().checked_mul(by)?).ok()?;
    Some(Part {
        place: part.place,
        times: part.times.checked_mul(whole)?,
        course: part.course,
    })
}

/// The parts of the form that the table found, each a whole number of times.
fn parts_of(
    alloc: Global,
    columns: &[Column],
    tableau: &Tableau,
) -> Result<Option<Seq<Part>>, AllocError> {
    let Some(common) = common(columns, tableau) else {
        return Ok(None);
    };
    let mut parts = Seq::new(alloc);
    for (n, column) in columns.iter().enumerate() {
        let multiple = tableau.multiple(n);
        if !multiple.is_zero() {
            match part_times(&column.part, &multiple, common) {
                Some(part) => parts.push(part)?,
                None => return Ok(None),
            }
        }
    }
    Ok(Some(parts))
}

/// The parts of a form over several places.
fn several_parts(alloc: Global, rules: &[PathRule]) -> Result<Option<Seq<Part>>, AllocError>
    requires { AreRules rules.now }
{
    let columns = all_columns(alloc, rules)?;
    let Some(mut tableau) = tableau_of(alloc, rules.len(), columns.as_slice())? else {
        return Ok(None);
    };
    if tableau.raise(alloc, MOST)? {
        parts_of(alloc, columns.as_slice(), &tableau)
    } else {
        Ok(None)
    }
}

/// A rank step of a form over several places: so many times what stands at each of them, where that is followed along each rule
/// by its links. None where none is found.
///
/// # Errors
///
/// Want of memory, which also answers a number of more than 64 bits.
pub(crate) fn several(alloc: Global, rules: &[PathRule]) -> Result<Option<RankStep>, AllocError>
    requires { AreRules rules.now }
    ensures { IfOk result (λ found. IfSome found (λ step. IsRankStep rules.now step)) }
{
    match several_parts(alloc, rules)? {
        Some(parts) => shown(alloc, rules, parts.as_slice()),
        None => Ok(None),
    }
}
