//! Sums of rows, in 128 bits.
ghost use Rattle.std.specs.Prelude.{◌≡◌, ◌+◌, ◌<◌, ◌≤◌, ◌^◌, ◌≤ℤ◌, ◌+ℤ◌, ◌*ℤ◌, ℤ, IfOk, IsTrue, ◌↔◌, slice_set, unsigned_abs};
ghost use Rattle.std.specs.Prelude.{FitsSigned, if◌then◌else◌, vec_len, count_by};
ghost use Rattle.std.specs.Int.{w128};
ghost use Rattle.lin_core.specs.Rows.{Rise};
ghost use Rattle.lin_core.specs.Rounds.{AllBelow, AllUpTo, is_nonzero};
ghost use Rattle.lin_core.specs.Sums.{Sum, zero_sum, variables, coefficient_in, IsWithin, Leaves};
ghost use Rattle.lin_core.specs.Steps.{AddsMultiple};

use std::alloc::{AllocError, Global};
use std::marker::Model;

/// What one variable has in a sum. The number counts only where the round is the sum's own.
#[derive(Clone, Copy)]
struct Cell {
    value: i128,
    round: u64,
}

/// One sum over a number of variables: a coefficient for each, and a constant.
///
/// A contract sees the list of the coefficients and the constant. Each time that the sum is cleared a new round
/// begins, so clearing costs nothing for the variables.
#[derive(Drop)]
pub struct Scratch {
    cells: Vec<Cell>,
    round: u64,
    nonzero: usize,
    constant: i128,
}

impl Model for Scratch {
    ghost use Rattle.lin_core.specs.Sums.{Sum};

    ghost Value = { Sum };

    ghost use Rattle.lin_core.specs.Rounds.{sum_of_cells, IsCounted};

    ghost view = { sum_of_cells };

    ghost invariant = { IsCounted };
}

impl Cell {
    /// A number that is written in a round.
    fn new(value: &i128, round: u64) -> Cell
        ensures { result ≡ record { value = value.now; round = round } }
    {
        Cell {
            value: *value,
            round,
        }
    }
}

/// Begins the round after `round`, which no cell is in yet, and answers it.
fn next_round(cells: &mut Vec<Cell>, round: u64) -> u64
    requires { AllUpTo round cells.old.items }
    ensures round { AllBelow result cells.new.items }
    ensures count { vec_len cells.new ≡ vec_len cells.old }
{
    if round < u64::MAX {
        return round + 1;
    }
    for cell in cells.iter_mut() {
        cell.round = 0;
    }
    1
}

/// The product of a multiplier and a number of a row.
fn product(by: &i64, number: &i64) -> i128
    ensures value { result ≡ by.now *ℤ number.now }
    ensures bound { unsigned_abs by.now ≤ 2 ^ 31 → unsigned_abs result ≤ 2 ^ 94 }
{
    i128::from(*by) * i128::from(*number)
}

/// The same number in 128 bits.
pub(crate) fn widened(number: &i64) -> i128
    ensures { result ≡ number.now }
{
    i128::from(*number)
}

/// 1 where the number is not 0, and else 0.
pub(crate) fn count_of(number: &i128) -> usize
    ensures { result ≡ (if is_nonzero number.now then 1 else 0) }
{
    usize::from(*number != 0)
}

/// The sum of two numbers, where 128 bits hold it.
fn added(number: &i128, amount: &i128) -> i128
    requires { FitsSigned w128 (number.now +ℤ amount.now) }
    ensures { result ≡ number.now +ℤ amount.now }
{
    *number + *amount
}

impl Scratch {
    /// The sum with nothing in it, over the variables below `vars`.
    ///
    /// # Errors
    ///
    /// Want of memory.
    pub fn new(alloc: Global, vars: u32) -> Result<Scratch, AllocError>
        ensures { IfOk result (λ sum. sum ≡ zero_sum vars) }
    {
        Ok(Scratch {
            cells: vec![in alloc; Cell { value: 0, round: 0 }; vars as usize]?,
            round: 0,
            nonzero: 0,
            constant: 0,
        })
    }

    /// Begins a new sum with nothing in it.
    pub(crate) fn clear(&mut self)
        ensures { self.new ≡ zero_sum (variables self.old) }
    {
        self.round = next_round(&mut self.cells, self.round);
        self.nonzero = 0;
        self.constant = 0;
    }

    /// The coefficient of a variable.
    fn coefficient(&self, variable: u32) -> i128
        requires { variable < variables self.now }
        ensures { result ≡ coefficient_in self.now variable }
    {
        let cell = &self.cells[variable as usize];
        if cell.round == self.round {
            cell.value
        } else {
            0
        }
    }

    /// Whether the variable has this coefficient.
    pub(crate) fn has(&self, variable: u32, coefficient: &i128) -> bool
        requires { variable < variables self.now }
        ensures { IsTrue result ↔ (coefficient_in self.now variable ≡ coefficient.now) }
    {
        self.coefficient(variable) == *coefficient
    }

    /// Whether so many coefficients are not 0.
    pub(crate) fn has_nonzero(&self, count: usize) -> bool
        ensures { IsTrue result ↔ (count ≡ count_by is_nonzero self.now.coefficients) }
    {
        self.nonzero == count
    }

    /// Whether the constant is at most this one.
    pub(crate) fn is_at_most(&self, constant: &i128) -> bool
        ensures { IsTrue result ↔ (self.now.constant ≤ℤ constant.now) }
    {
        self.constant <= *constant
    }

    /// Adds an amount to the coefficient of a variable.
    fn add_to(&mut self, variable: u32, amount: &i128)
        requires in_range { variable < variables self.old }
        requires fits { FitsSigned w128 (coefficient_in self.old variable +ℤ amount.now) }
        ensures { self.new ≡ record self.old
            { coefficients = slice_set self.old.coefficients variable (coefficient_in self.old variable +ℤ amount.now) } }
    {
        let before = self.coefficient(variable);
        let after = added(&before, amount);
        self.nonzero = self.nonzero + count_of(&after) - count_of(&before);
        self.cells[variable as usize] = Cell::new(&after, self.round);
    }

    /// Adds the terms and the constant, times a multiplier. It costs as many steps as there are terms.
    pub fn add(&mut self, terms: &[(u32, i64)], constant: &i64, by: &i64)
        requires size { unsigned_abs by.now ≤ 2 ^ 31 }
        requires rise { Rise (variables self.old) terms.now }
        requires room { IsWithin (2 ^ 126) self.old }
        ensures { AddsMultiple terms.now constant.now by.now self.old self.new }
    {
        for (variable, coefficient) in terms {
            self.add_to(*variable, &product(by, coefficient));
        }
        self.constant = added(&self.constant, &product(by, constant));
    }

    /// Whether the sum has no coefficient but 0, and its constant is at most this one.
    pub fn leaves(&self, constant: &i128) -> bool
        ensures { IsTrue result ↔ Leaves self.now constant.now }
    {
        self.has_nonzero(0) && self.is_at_most(constant)
    }
}
