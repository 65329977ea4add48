//! Rules without equations: each equation is solved for a variable that it has once, and that variable is put out of all other rows.
//!
//! A sum counts the rule's variables by their numbers, then the number 1, and then the rule's rows: it is worth what it was before,
//! and each row that it counts.
use crate::stop::Stop;
use crate::sums::{Sum, added, put, sum_at, times_of};
use descent::{PathRule, SlotForm};
use lin_core::WRow;
use rank_forms::rule_links::is_inequality;
use std::alloc::{AllocError, Global};

/// What is left of a rule.
#[derive(Drop)]
pub(crate) struct Reduced {
    /// The cut at which it starts.
    pub(crate) from: u32,
    /// The cut at which it ends.
    pub(crate) to: u32,
    /// How many variables it had: the number of 1.
    pub(crate) vars: usize,
    /// What is at least 0.
    pub(crate) rows: Vec<Sum>,
    /// The slots at the start, in their order.
    pub(crate) first: Vec<Sum>,
    /// The slots at the end.
    pub(crate) last: Vec<Sum>,
}

/// The equations that are solved, and for each variable which of them is solved for it.
#[derive(Drop)]
struct Solved {
    equations: Vec<Sum>,
    of: Vec<Option<usize>>,
}

impl Solved {
    /// No equation, for so many variables.
    fn new(alloc: Global, vars: usize) -> Result<Solved, AllocError> {
        let mut of = Vec::new(alloc);
        for _n in 0..vars {
            of.push(None)?;
        }
        Ok(Solved {
            equations: Vec::new(alloc),
            of,
        })
    }

    /// The first equation that is solved for a variable of the sum, with that variable and how often it counts.
    fn next(&self, sum: &[(usize, i64)]) -> Option<(usize, usize, i64)> {
        let mut best: Option<(usize, usize, i64)> = None;
        for entry in sum {
            if let Some(Some(equation)) = self.of.get(entry.0) {
                let sooner = match best {
                    Some(one) => *equation < one.0,
                    None => true,
                };
                if sooner {
                    best = Some((*equation, entry.0, entry.1));
                }
            }
        }
        best
    }

    /// The sum without variables for which equations are solved.
    fn without(&self, alloc: Global, sum: Sum) -> Result<Sum, Stop> {
        let mut now = sum;
        for _n in 0..self.of.len() {
            let Some((equation, variable, times)) = self.next(now.as_slice()) else {
                return Ok(now);
            };
            let row = sum_at(self.equations.as_slice(), equation);
            let off = times
                .checked_mul(times_of(row, variable))
                .ok_or(Stop::NoForm)?;
            now = added(
                alloc,
                now.as_slice(),
                row,
                off.checked_neg().ok_or(Stop::NoForm)?,
            )?;
        }
        Ok(now)
    }

    /// Solves an equation for a variable.
    fn solve(&mut self, row: Sum, variable: usize) -> Result<(), AllocError> {
        let number = self.equations.len();
        self.equations.push(row)?;
        if variable < self.of.len() {
            self.of[variable] = Some(number);
        }
        Ok(())
    }
}

/// The last variable that counts once, or once less than none.
fn unit_variable(sum: &[(usize, i64)], vars: usize) -> Option<usize> {
    let mut found = None;
    for entry in sum {
        if entry.0 < vars && (entry.1 == 1 || entry.1 == -1) {
            found = Some(entry.0);
        }
    }
    found
}

/// Terms, a number and weights as a sum, where every class weighs 1.
fn sum_of(
    alloc: Global,
    terms: &[(u32, i64)],
    constant: i64,
    weights: &[(u32, i64)],
    vars: usize,
) -> Result<Sum, Stop> {
    let mut sum = Vec::new(alloc);
    for term in terms {
        put(&mut sum, term.0 as usize, term.1)?;
    }
    let mut number = constant;
    for weight in weights {
        number = number.checked_add(weight.1).ok_or(Stop::NoForm)?;
    }
    put(&mut sum, vars, number)?;
    Ok(sum)
}

/// A row as a sum that counts itself.
fn row_sum(alloc: Global, row: &WRow, vars: usize, n: usize) -> Result<Sum, Stop> {
    let mut sum = sum_of(
        alloc,
        row.terms.as_slice(),
        row.constant,
        row.weights.as_slice(),
        vars,
    )?;
    let number = vars.checked_add(1).ok_or(Stop::NoForm)?;
    put(&mut sum, number.checked_add(n).ok_or(Stop::NoForm)?, 1)?;
    Ok(sum)
}

/// Solves an equation, or, where it has no variable once, takes it as two rows that are at least 0.
fn take_equation(
    alloc: Global,
    sum: Sum,
    vars: usize,
    solved: &mut Solved,
    rows: &mut Vec<Sum>,
) -> Result<(), Stop> {
    match unit_variable(sum.as_slice(), vars) {
        Some(variable) => solved.solve(sum, variable)?,
        None => {
            rows.push(added(alloc, &[], sum.as_slice(), -1)?)?;
            rows.push(sum)?;
        }
    }
    Ok(())
}

/// Solves the equations of a rule; gives what is at least 0.
fn solve_all(
    alloc: Global,
    rule: &PathRule,
    vars: usize,
    solved: &mut Solved,
) -> Result<Vec<Sum>, Stop> {
    let mut rows = Vec::new(alloc);
    for (n, row) in rule.rows.as_slice().iter().enumerate() {
        let sum = row_sum(alloc, row, vars, n)?;
        if is_inequality(row.kind) {
            rows.push(sum)?;
        } else {
            let left = solved.without(alloc, sum)?;
            take_equation(alloc, left, vars, solved, &mut rows)?;
        }
    }
    Ok(rows)
}

/// Whether each variable of a sum counts as often in another one.
fn has_terms(sum: &[(usize, i64)], other: &[(usize, i64)], vars: usize) -> bool {
    for entry in sum {
        if entry.0 < vars && times_of(other, entry.0) != entry.1 {
            return false;
        }
    }
    true
}

/// The row with the same variables, each as often.
fn alike(rows: &[Sum], sum: &[(usize, i64)], vars: usize) -> Option<usize> {
    for (n, row) in rows.iter().enumerate() {
        if has_terms(row.as_slice(), sum, vars) && has_terms(sum, row.as_slice(), vars) {
            return Some(n);
        }
    }
    None
}

/// Keeps a row, of those with the same variables the one with the least number; none that is a number from 0 on.
fn keep(rows: &mut Vec<Sum>, row: Sum, vars: usize) -> Result<(), AllocError> {
    let number = times_of(row.as_slice(), vars);
    if has_terms(row.as_slice(), &[], vars) && number >= 0 {
        return Ok(());
    }
    match alike(rows.as_slice(), row.as_slice(), vars) {
        Some(n) => {
            if number < times_of(sum_at(rows.as_slice(), n), vars) && n < rows.len() {
                rows[n] = row;
            }
        }
        None => rows.push(row)?,
    }
    Ok(())
}

/// The rows that are left.
fn kept_rows(
    alloc: Global,
    rows: Vec<Sum>,
    vars: usize,
    solved: &Solved,
) -> Result<Vec<Sum>, Stop> {
    let mut kept = Vec::new(alloc);
    for row in rows {
        let left = solved.without(alloc, row)?;
        keep(&mut kept, left, vars)?;
    }
    Ok(kept)
}

/// The slots of an end.
fn slot_sums(
    alloc: Global,
    slots: &[SlotForm],
    vars: usize,
    solved: &Solved,
) -> Result<Vec<Sum>, Stop> {
    let mut sums = Vec::new(alloc);
    for slot in slots {
        let sum = sum_of(
            alloc,
            slot.terms.as_slice(),
            slot.constant,
            slot.weights.as_slice(),
            vars,
        )?;
        sums.push(solved.without(alloc, sum)?)?;
    }
    Ok(sums)
}

/// What is left of a rule once its equations are solved.
pub(crate) fn reduce(alloc: Global, rule: &PathRule) -> Result<Reduced, Stop> {
    let vars = rule.vars as usize;
    let mut solved = Solved::new(alloc, vars)?;
    let all = solve_all(alloc, rule, vars, &mut solved)?;
    let rows = kept_rows(alloc, all, vars, &solved)?;
    let first = slot_sums(alloc, rule.first.as_slice(), vars, &solved)?;
    let last = slot_sums(alloc, rule.last.as_slice(), vars, &solved)?;
    Ok(Reduced {
        from: rule.from,
        to: rule.to,
        vars,
        rows,
        first,
        last,
    })
}
