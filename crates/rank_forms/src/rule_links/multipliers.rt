//! The multipliers of a rule's rows, as they are gathered.
use list_views::Seq;
use std::alloc::{AllocError, Global};

/// How often each row of a rule counts. A number of more than 64 bits is not kept: then the multipliers are `lost`.
#[derive(Drop)]
pub struct Multipliers {
    by_row: Vec<i64>,
    lost: bool,
}

impl Multipliers {
    /// No row counts.
    ///
    /// # Errors
    ///
    /// Want of memory.
    pub fn new(alloc: Global, rows: usize) -> Result<Multipliers, AllocError> {
        let mut by_row = Vec::new(alloc);
        for _n in 0..rows {
            by_row.push(0)?;
        }
        Ok(Multipliers {
            by_row,
            lost: false,
        })
    }

    /// Says that a number isn't kept.
    pub(crate) fn lose(&mut self) {
        self.lost = true;
    }

    /// Counts a row so many times more.
    pub fn add(&mut self, row: usize, times: i64) {
        if row < self.by_row.len() {
            match self.by_row[row].checked_add(times) {
                Some(sum) => self.by_row[row] = sum,
                None => self.lost = true,
            }
        } else {
            self.lost = true;
        }
    }

    /// Counts a row so many times less.
    pub(crate) fn take(&mut self, row: usize, times: i64) {
        match times.checked_neg() {
            Some(less) => self.add(row, less),
            None => self.lost = true,
        }
    }

    /// Counts a row the product of two numbers more.
    pub(crate) fn add_product(&mut self, row: usize, one: i64, other: i64) {
        match one.checked_mul(other) {
            Some(times) => self.add(row, times),
            None => self.lost = true,
        }
    }

    /// The rows that count, with their multipliers; None where a number was lost.
    ///
    /// # Errors
    ///
    /// Want of memory.
    pub fn list(&self, alloc: Global) -> Result<Option<Seq<(u32, i64)>>, AllocError> {
        if self.lost {
            return Ok(None);
        }
        let mut list = Seq::new(alloc);
        for (n, times) in self.by_row.iter().enumerate() {
            if *times != 0 {
                let Ok(row) = u32::try_from(n) else {
                    return Ok(None);
                };
                list.push((row, *times))?;
            }
        }
        Ok(Some(list))
    }
}
