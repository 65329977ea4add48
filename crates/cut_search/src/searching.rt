//! Forms that may differ from cut to cut, shown by all rows of the rules.
ghost use Rattle.std.specs.Prelude.{IfOk, IfSome};
ghost use Rattle.descent.specs.Conditions.{AreRules};
ghost use Rattle.rank_forms.specs.RankSteps.{IsRankStep};

use crate::cut_steps::cut_step;
use crate::reducing::{Reduced, reduce};
use crate::simplex::{Tableau, common_of};
use crate::stop::Stop;
use crate::sums::list_sum;
use crate::tables::{Table, table_of};
use crate::unknowns::{Unknown, all_unknowns, cuts_of};
use descent::{PathRule, RankStep};
use rank_forms::is_rank_step;
use std::alloc::{AllocError, Global};

/// How many rules are looked at together, at most.
const RULES: usize = 256;

/// How many rows and variables a rule has, at most.
const ROWS: usize = 4096;

/// How many unknowns there are, and how many numbers a table has, at most.
const NUMBERS: usize = 65_536;

/// How many exchanges are made, at most.
const EXCHANGES: u32 = 1000;

/// Whether there are few enough rules, of few enough rows and variables.
fn are_few(rules: &[PathRule]) -> bool {
    for rule in rules {
        if rule.rows.len() > ROWS || rule.vars as usize > ROWS {
            return false;
        }
    }
    rules.len() <= RULES
}

/// The table as the simplex method takes it.
fn tableau_of(alloc: Global, count: usize, table: Table) -> Result<Tableau, Stop> {
    let Table { rows, falls } = table;
    let mut all = rows;
    let mut aim = Vec::new(alloc);
    for _n in 0..count {
        aim.push(0)?;
    }
    for fall in falls {
        aim = list_sum(alloc, aim.as_slice(), fall.as_slice(), 1)?;
        all.push(fall)?;
    }
    if all.len().checked_mul(count).ok_or(Stop::NoForm)? > NUMBERS {
        return Err(Stop::NoForm);
    }
    Ok(Tableau::new(alloc, all.as_slice(), aim.as_slice())?)
}

/// A number of which each denominator is a divisor.
fn common(count: usize, tableau: &Tableau) -> Option<i128> {
    let mut common: i128 = 1;
    for n in 0..count {
        common = common_of(common, &tableau.multiple(n))?;
    }
    Some(common)
}

/// A fraction so many times, a whole number.
fn whole(tableau: &Tableau, n: usize, common: i128) -> Option<i64> {
    let multiple = tableau.multiple(n);
    let by = common.checked_div(multiple.below())?;
    i64::try_from(multiple.above().checked_mul(by)?).ok()
}

/// How often each unknown counts, so that the form falls somewhere.
fn counts_of(alloc: Global, left: &[Reduced], unknowns: &[Unknown]) -> Result<Vec<i64>, Stop> {
    let table = table_of(alloc, left, unknowns)?;
    let mut tableau = tableau_of(alloc, unknowns.len(), table)?;
    if !tableau.raise(alloc, EXCHANGES)? {
        return Err(Stop::NoForm);
    }
    let by = common(unknowns.len(), &tableau).ok_or(Stop::NoForm)?;
    let mut counts = Vec::new(alloc);
    for n in 0..unknowns.len() {
        counts.push(whole(&tableau, n, by).ok_or(Stop::NoForm)?)?;
    }
    Ok(counts)
}

/// The step of a form that is found.
fn found_step(alloc: Global, rules: &[PathRule]) -> Result<RankStep, Stop> {
    if !are_few(rules) {
        return Err(Stop::NoForm);
    }
    let mut left = Vec::new(alloc);
    for rule in rules {
        left.push(reduce(alloc, rule)?)?;
    }
    let cuts = cuts_of(alloc, rules)?;
    let unknowns = all_unknowns(alloc, rules, cuts.as_slice(), left.as_slice())?;
    let counts = counts_of(alloc, left.as_slice(), unknowns.as_slice())?;
    cut_step(
        alloc,
        rules,
        cuts.as_slice(),
        left.as_slice(),
        unknowns.as_slice(),
        counts.as_slice(),
    )
}

/// A rank step of a form that may differ from cut to cut: so many times each slot of a cut and a constant, where rows of each rule,
/// each some times, show that it never rises. None where none is found, and where there are too many rules, rows or unknowns to
/// look for one.
///
/// # Errors
///
/// Want of memory.
pub fn by_rows(alloc: Global, rules: &[PathRule]) -> Result<Option<RankStep>, AllocError>
    requires { AreRules rules.now }
    ensures { IfOk result (λ found. IfSome found (λ step. IsRankStep rules.now step)) }
{
    match found_step(alloc, rules) {
        Ok(step) => {
            if is_rank_step(alloc, rules, &step)? {
                Ok(Some(step))
            } else {
                Ok(None)
            }
        }
        Err(Stop::NoForm) => Ok(None),
        Err(Stop::Memory) => Err(AllocError),
    }
}
