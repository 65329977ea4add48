//! The simplex method by exact fractions, with the rule of least names (R. G. Bland, New finite pivoting rules for the simplex
//! method, 1977): multiples of columns of numbers, none below 0, whose sum is nowhere below 0 and somewhere above it.
use crate::simplex::fractions::Fraction;
use std::alloc::{AllocError, Global};

/// Each row gives a basic number as a sum of free ones, each so many times, and of a constant, which is its last entry. The aim is
/// such a sum too. Numbers have names: the multiples come first, and then one number for each row.
#[derive(Drop)]
pub struct Tableau {
    rows: Vec<Vec<Fraction>>,
    aim: Vec<Fraction>,
    basic: Vec<usize>,
    free: Vec<usize>,
}

/// The entry of a number; 0 past the end.
fn entry(row: &[Fraction], n: usize) -> Fraction {
    match row.get(n) {
        Some(entry) => *entry,
        None => Fraction::ZERO,
    }
}

/// The name of a number; 0 past the end.
fn name(names: &[usize], n: usize) -> usize {
    match names.get(n) {
        Some(name) => *name,
        None => 0,
    }
}

/// So many whole numbers from one on.
fn names_from(alloc: Global, first: usize, end: usize) -> Result<Vec<usize>, AllocError> {
    let mut names = Vec::new(alloc);
    for n in first..end {
        names.push(n)?;
    }
    Ok(names)
}

/// A row of these numbers, with the constant 0.
fn row_of(alloc: Global, numbers: &[i64]) -> Result<Vec<Fraction>, AllocError> {
    let mut row = Vec::new(alloc);
    for number in numbers {
        row.push(Fraction::whole(*number))?;
    }
    row.push(Fraction::ZERO)?;
    Ok(row)
}

/// The row that 1 is the sum of all multiples and of a number of its own.
fn row_of_one(alloc: Global, count: usize) -> Result<Vec<Fraction>, AllocError> {
    let mut row = Vec::new(alloc);
    for _n in 0..count {
        row.push(Fraction::whole(-1))?;
    }
    row.push(Fraction::whole(1))?;
    Ok(row)
}

/// The sum of two rows, the second so many times; at the column that is left only the second one counts.
fn sum_of(
    alloc: Global,
    row: &[Fraction],
    other: &[Fraction],
    times: &Fraction,
    left: usize,
) -> Result<Option<Vec<Fraction>>, AllocError> {
    let mut sum = Vec::new(alloc);
    for (n, one) in row.iter().enumerate() {
        let Some(more) = entry(other, n).times(times) else {
            return Ok(None);
        };
        let before = if n == left { Fraction::ZERO } else { *one };
        let Some(both) = before.plus(&more) else {
            return Ok(None);
        };
        sum.push(both)?;
    }
    Ok(Some(sum))
}

/// A row, solved for the free number at a column.
fn solved(
    alloc: Global,
    row: &[Fraction],
    column: usize,
) -> Result<Option<Vec<Fraction>>, AllocError> {
    let Some(turned) = entry(row, column).turned() else {
        return Ok(None);
    };
    let Some(less) = turned.less() else {
        return Ok(None);
    };
    let mut list = Vec::new(alloc);
    for (n, one) in row.iter().enumerate() {
        if n == column {
            list.push(turned)?;
        } else {
            let Some(number) = one.times(&less) else {
                return Ok(None);
            };
            list.push(number)?;
        }
    }
    Ok(Some(list))
}

/// A bound that a row sets on the free number at a column: its constant, divided by how much the row falls.
fn bound(row: &[Fraction], column: usize) -> Option<Fraction> {
    let less = entry(row, column).less()?;
    let last = row.len().checked_sub(1)?;
    entry(row, last).times(&less.turned()?)
}

impl Tableau {
    /// Of columns of numbers, by rows: each row's sum is a number of its own, their sum is the aim, and the multiples add up to
    /// at most 1.
    ///
    /// # Errors
    ///
    /// Want of memory.
    pub fn new(alloc: Global, rows: &[Vec<i64>], aim: &[i64]) -> Result<Tableau, AllocError> {
        let count = aim.len();
        let mut all = Vec::new(alloc);
        for row in rows {
            all.push(row_of(alloc, row.as_slice())?)?;
        }
        all.push(row_of_one(alloc, count)?)?;
        let Some(end) = count.checked_add(all.len()) else {
            return Err(AllocError);
        };
        let basic = names_from(alloc, count, end)?;
        Ok(Tableau {
            rows: all,
            aim: row_of(alloc, aim)?,
            basic,
            free: names_from(alloc, 0, count)?,
        })
    }

    /// Whether the aim is above 0.
    fn is_reached(&self) -> bool {
        entry(self.aim.as_slice(), self.free.len()).is_positive()
    }

    /// The column of the least name that raises the aim.
    fn entering(&self) -> Option<usize> {
        let mut best = None;
        for (n, own) in self.free.iter().enumerate() {
            if entry(self.aim.as_slice(), n).is_positive() {
                best = lesser(best, n, *own);
            }
        }
        match best {
            Some((column, _)) => Some(column),
            None => None,
        }
    }

    /// The row that bounds a column most, that of the least name where there are several; None where a number is too large or no
    /// row does.
    fn leaving(&self, column: usize) -> Option<usize> {
        let mut best: Option<(usize, Fraction)> = None;
        for (n, row) in self.rows.iter().enumerate() {
            if entry(row.as_slice(), column).is_negative() {
                let limit = bound(row.as_slice(), column)?;
                best = Some(self.tighter(best, n, limit)?);
            }
        }
        match best {
            Some((row, _)) => Some(row),
            None => None,
        }
    }

    /// The row with the lesser bound, or the lesser name.
    fn tighter(
        &self,
        best: Option<(usize, Fraction)>,
        n: usize,
        limit: Fraction,
    ) -> Option<(usize, Fraction)> {
        let Some((row, least)) = best else {
            return Some((n, limit));
        };
        if limit.is_less(&least)? {
            return Some((n, limit));
        }
        let basic = self.basic.as_slice();
        if limit == least && name(basic, n) < name(basic, row) {
            return Some((n, limit));
        }
        Some((row, least))
    }

    /// Changes the names of a row and a column.
    fn rename(&mut self, row: usize, column: usize) {
        let out = name(self.basic.as_slice(), row);
        let own = name(self.free.as_slice(), column);
        if row < self.basic.len() && column < self.free.len() {
            self.basic[row] = own;
            self.free[column] = out;
        }
    }

    /// Puts the solved row of a column into a row that has the column so many times.
    fn put_in(
        &mut self,
        alloc: Global,
        n: usize,
        column: usize,
        own: &[Fraction],
    ) -> Result<bool, AllocError> {
        if n >= self.rows.len() {
            return Ok(false);
        }
        let times = entry(self.rows[n].as_slice(), column);
        if times.is_zero() {
            return Ok(true);
        }
        match sum_of(alloc, self.rows[n].as_slice(), own, &times, column)? {
            Some(sum) => {
                self.rows[n] = sum;
                Ok(true)
            }
            None => Ok(false),
        }
    }

    /// Puts the solved row of a column into the aim.
    fn put_in_aim(
        &mut self,
        alloc: Global,
        column: usize,
        own: &[Fraction],
    ) -> Result<bool, AllocError> {
        let times = entry(self.aim.as_slice(), column);
        match sum_of(alloc, self.aim.as_slice(), own, &times, column)? {
            Some(sum) => {
                self.aim = sum;
                Ok(true)
            }
            None => Ok(false),
        }
    }

    /// Exchanges a basic number and a free one; false where a number is too large.
    fn exchange(&mut self, alloc: Global, row: usize, column: usize) -> Result<bool, AllocError> {
        if row >= self.rows.len() {
            return Ok(false);
        }
        let Some(own) = solved(alloc, self.rows[row].as_slice(), column)? else {
            return Ok(false);
        };
        for n in 0..self.rows.len() {
            if n != row && !self.put_in(alloc, n, column, own.as_slice())? {
                return Ok(false);
            }
        }
        if !self.put_in_aim(alloc, column, own.as_slice())? {
            return Ok(false);
        }
        if row < self.rows.len() {
            self.rows[row] = own;
        }
        self.rename(row, column);
        Ok(true)
    }

    /// One exchange that raises the aim; false where there is none.
    fn go_on(&mut self, alloc: Global) -> Result<bool, AllocError> {
        let Some(column) = self.entering() else {
            return Ok(false);
        };
        let Some(row) = self.leaving(column) else {
            return Ok(false);
        };
        self.exchange(alloc, row, column)
    }

    /// Raises the aim until it is above 0; false where that isn't reached by so many exchanges.
    ///
    /// # Errors
    ///
    /// Want of memory.
    pub fn raise(&mut self, alloc: Global, most: u32) -> Result<bool, AllocError> {
        for _n in 0..most {
            if self.is_reached() {
                return Ok(true);
            }
            if !self.go_on(alloc)? {
                return Ok(false);
            }
        }
        Ok(false)
    }

    /// The multiple of a column.
    pub fn multiple(&self, column: usize) -> Fraction {
        for (n, own) in self.basic.iter().enumerate() {
            if *own == column {
                return self.constant(n);
            }
        }
        Fraction::ZERO
    }

    /// The constant of a row.
    fn constant(&self, n: usize) -> Fraction {
        match self.rows.get(n) {
            Some(row) => entry(row.as_slice(), self.free.len()),
            None => Fraction::ZERO,
        }
    }
}

/// Of two columns that of the lesser name.
fn lesser(best: Option<(usize, usize)>, n: usize, own: usize) -> Option<(usize, usize)> {
    match best {
        Some((column, least)) => {
            if own < least {
                Some((n, own))
            } else {
                Some((column, least))
            }
        }
        None => Some((n, own)),
    }
}
