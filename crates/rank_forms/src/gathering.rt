//! What shows that a form falls along a rule, and that it is bounded where the rule starts.
ghost use Rattle.descent.specs.Conditions.{IsRule};

use crate::rule_links::{
    Come, Course, Multipliers, Part, bounds, count_trail, counts_size, fall_ties, int_ties,
    known_of, longest, more_of, reach, size_constant, size_of, size_ties, trail, variable_at,
    with_times,
};
use descent::{PathRule, RankRule, WRow};
use std::alloc::{AllocError, Global};

/// What is gathered of a form on a rule: what it falls by at least, with the multipliers that show it; whether it is bounded
/// where the rule starts, what has to be added to it so that it is at least 0 there, and the multipliers that show that. Where a
/// number is one of more than 64 bits, it is `lost`.
#[derive(Drop)]
pub(crate) struct Gathered {
    falls: i64,
    fall: Multipliers,
    bounded: bool,
    base: i64,
    bound: Multipliers,
    lost: bool,
}

impl Gathered {
    /// Nothing, of which the form is the sum so far.
    fn new(alloc: Global, rows: usize) -> Result<Gathered, AllocError> {
        Ok(Gathered {
            falls: 0,
            fall: Multipliers::new(alloc, rows)?,
            bounded: true,
            base: 0,
            bound: Multipliers::new(alloc, rows)?,
            lost: false,
        })
    }

    /// Whether it falls, and is bounded.
    pub(crate) fn is_strict(&self) -> bool {
        self.falls > 0 && self.bounded
    }

    /// What has to be added so that it is at least 0 where the rule starts, if it falls there.
    pub(crate) fn base(&self) -> Option<i64> {
        if self.is_strict() {
            Some(self.base)
        } else {
            None
        }
    }

    /// Adds the bound of a part, whose start is this variable.
    fn add_bound(
        &mut self,
        rows: &[WRow],
        sizes: bool,
        start: u32,
        part: &Part,
    ) -> Result<(), AllocError> {
        match best_bound(rows, sizes, part.times < 0, start)? {
            Some((row, constant)) => {
                let often = size_of(part.times);
                self.bound.add(row, often);
                match with_times(&self.base, &often, &constant) {
                    Some(base) => self.base = base,
                    None => self.lost = true,
                }
            }
            None => self.bounded = false,
        }
        Ok(())
    }

    /// Adds what a part falls by.
    fn add_fall(&mut self, part: &Part, by: i64) {
        match fall_by(part, by) {
            Some(fall) => match self.falls.checked_add(fall) {
                Some(falls) => self.falls = falls,
                None => self.lost = true,
            },
            None => self.lost = true,
        }
    }

    /// The rule as it is listed; None where a number was lost.
    ///
    /// # Errors
    ///
    /// Want of memory.
    pub(crate) fn listed(&self, alloc: Global, rule: u32) -> Result<Option<RankRule>, AllocError> {
        if self.lost {
            return Ok(None);
        }
        let Some(fall) = self.fall.list(alloc)? else {
            return Ok(None);
        };
        if !self.is_strict() {
            return Ok(Some(RankRule::Weak { rule, fall }));
        }
        match self.bound.list(alloc)? {
            Some(bound) => Ok(Some(RankRule::Strict { rule, fall, bound })),
            None => Ok(None),
        }
    }
}

/// What a part falls by, where its variable has so much more, or falls by so much; None past 64 bits.
fn fall_by(part: &Part, by: i64) -> Option<i64> {
    match part.course {
        Course::Ints => part.times.checked_mul(by)?.checked_neg(),
        Course::Steps => size_of(part.times).checked_mul(by),
        Course::Either => size_of(part.times).checked_mul(by),
        Course::Sizes => part.times.checked_mul(by),
    }
}

/// The constant of a row, where every class weighs 1 or none weighs anything.
fn constant_of(row: &WRow, sizes: bool) -> Result<i64, AllocError> {
    if sizes {
        size_constant(row)
    } else {
        Ok(row.constant)
    }
}

/// The row that bounds a variable best, with its constant.
fn best_bound(
    rows: &[WRow],
    sizes: bool,
    negative: bool,
    start: u32,
) -> Result<Option<(usize, i64)>, AllocError> {
    let mut best = None;
    for (n, row) in rows.iter().enumerate() {
        if bounds(negative, start, row) {
            let constant = constant_of(row, sizes)?;
            best = better(best, n, constant);
        }
    }
    Ok(best)
}

/// The bound with the lesser constant.
fn better(best: Option<(usize, i64)>, n: usize, constant: i64) -> Option<(usize, i64)> {
    match best {
        Some((row, least)) => {
            if constant < least {
                Some((n, constant))
            } else {
                Some((row, least))
            }
        }
        None => Some((n, constant)),
    }
}

/// What is known of the variables that fall links lead to.
fn steps_from(
    alloc: Global,
    rule: &PathRule,
    negative: bool,
    start: u32,
) -> Result<Vec<Option<Come>>, AllocError> {
    let ties = fall_ties(alloc, negative, rule.rows.as_slice())?;
    longest(alloc, ties.as_slice(), start)
}

/// What is known of the variables that links of a course lead to.
fn known_from(
    alloc: Global,
    rule: &PathRule,
    part: &Part,
    start: u32,
) -> Result<Vec<Option<Come>>, AllocError>
    requires { IsRule rule.now }
{
    let rows = rule.rows.as_slice();
    match part.course {
        Course::Ints => {
            let ties = int_ties(alloc, rows)?;
            reach(alloc, ties.as_slice(), start)
        }
        Course::Steps => steps_from(alloc, rule, part.times < 0, start),
        Course::Either => steps_from(alloc, rule, part.times < 0, start),
        Course::Sizes => {
            let ties = size_ties(alloc, rows, rule.vars)?;
            longest(alloc, ties.as_slice(), start)
        }
    }
}

/// Adds a part to what is gathered; and says whether it is followed along the rule.
fn gather_course(
    alloc: Global,
    rule: &PathRule,
    sizes: bool,
    part: &Part,
    into: &mut Gathered,
) -> Result<bool, AllocError>
    requires { IsRule rule.now }
{
    let rows = rule.rows.as_slice();
    let size = counts_size(part.course);
    let Some(start) = variable_at(rule.first.as_slice(), size, &part.place) else {
        return Ok(false);
    };
    let Some(finish) = variable_at(rule.last.as_slice(), size, &part.place) else {
        return Ok(false);
    };
    let known = known_from(alloc, rule, part, start)?;
    let Some(by) = more_of(known_of(known.as_slice(), finish)) else {
        return Ok(false);
    };
    let ties = trail(alloc, known.as_slice(), finish)?;
    count_trail(rows, part, ties.as_slice(), &mut into.fall);
    into.add_fall(part, by);
    into.add_bound(rows, sizes, start, part)?;
    Ok(true)
}

/// What a part falls by along a rule, if it is followed there.
fn fall_along(alloc: Global, rule: &PathRule, part: &Part) -> Result<Option<i64>, AllocError>
    requires { IsRule rule.now }
{
    let Some(start) = variable_at(rule.first.as_slice(), false, &part.place) else {
        return Ok(None);
    };
    let Some(finish) = variable_at(rule.last.as_slice(), false, &part.place) else {
        return Ok(None);
    };
    let known = known_from(alloc, rule, part, start)?;
    match more_of(known_of(known.as_slice(), finish)) {
        Some(by) => Ok(fall_by(part, by)),
        None => Ok(None),
    }
}

/// Whether the first number isn't there, or is less than the second.
fn is_less(one: Option<i64>, other: Option<i64>) -> bool {
    match (one, other) {
        (Some(a), Some(b)) => a < b,
        (None, _) => true,
        (Some(_), None) => false,
    }
}

/// The part by the course that falls by more along a rule.
fn better_course(alloc: Global, rule: &PathRule, part: &Part) -> Result<Part, AllocError>
    requires { IsRule rule.now }
{
    let ints = Part {
        place: part.place,
        times: part.times,
        course: Course::Ints,
    };
    let steps = Part {
        place: part.place,
        times: part.times,
        course: Course::Steps,
    };
    let one = fall_along(alloc, rule, &ints)?;
    let other = fall_along(alloc, rule, &steps)?;
    if is_less(one, other) {
        Ok(steps)
    } else {
        Ok(ints)
    }
}

/// Adds a part to what is gathered, by its course or by the better one; and says whether it is followed along the rule.
fn gather_part(
    alloc: Global,
    rule: &PathRule,
    sizes: bool,
    part: &Part,
    into: &mut Gathered,
) -> Result<bool, AllocError>
    requires { IsRule rule.now }
{
    match part.course {
        Course::Either => {
            let better = better_course(alloc, rule, part)?;
            gather_course(alloc, rule, sizes, &better, into)
        }
        Course::Ints => gather_course(alloc, rule, sizes, part, into),
        Course::Steps => gather_course(alloc, rule, sizes, part, into),
        Course::Sizes => gather_course(alloc, rule, sizes, part, into),
    }
}

/// Gathers what shows that a form falls on a rule; None where some part isn't followed along it.
///
/// # Errors
///
/// Want of memory, which also answers a number of more than 64 bits.
pub(crate) fn gather(
    alloc: Global,
    rule: &PathRule,
    sizes: bool,
    parts: &[Part],
) -> Result<Option<Gathered>, AllocError>
    requires { IsRule rule.now }
{
    let mut into = Gathered::new(alloc, rule.rows.len())?;
    for part in parts {
        if !gather_part(alloc, rule, sizes, part, &mut into)? {
            return Ok(None);
        }
    }
    Ok(Some(into))
}
