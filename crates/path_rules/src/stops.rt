//! The stops of a path, and their rows.
ghost use Rattle.std.specs.Prelude.{◌≡◌, ◌≤◌, ◌+◌, ◌^◌, ◌++◌, ℤ, [], ◌∷◌, length, pos, ◌-ℤ◌, map, Some, IfOk, OnOk, unsigned_abs};
ghost use Rattle.std.specs.List.{flat_map};
ghost use Rattle.std.specs.Option.{option_map};
ghost use Rattle.abs_cells.specs.Patterns.{count_in};
ghost use Rattle.abs_cells.specs.Sound.{IsWellFormed};
ghost use Rattle.term_graph.specs.Edges.{is_size_variable};
ghost use Rattle.term_enc.specs.Encoding.{pattern_of};
ghost use Rattle.path_rules.specs.Conditions.{AreBounded, IsBounded};
ghost use Rattle.path_rules.specs.Rules.{at_least_zero, bounds_of, has_int, ids_with, rows_of_stop, variable_of, variables};
ghost use Rattle.path_rules.specs.Sizing.{size_at};

use crate::numbers::{is_size_variable, number_of, numbers};
use abs_cells::{AbsState, Cell, Id, Pairs};
use abs_reach::{Marks, cell_of};
use lin_core::{Interval, RowKind, WRow};
use list_views::Seq;
use std::alloc::{AllocError, Global};
use std::marker::Model;
use term_enc::{PatternTerm, encode};
use term_graph::Node;

/// A node at which a path stops, with the numbers of its variables: that of its first one, and those of all among them.
#[derive(Drop)]
pub(crate) struct Stop<P: Pairs> {
    node: Node<P>,
    first: u32,
    numbers: Seq<(Id, u32)>,
}

impl<P: Pairs> Model for Stop<P> {
    ghost use Rattle.path_rules.specs.Sizing.{NumberedNode, IsKept};

    ghost Value = { NumberedNode };

    ghost view = { λ stop. record { node = stop.node; first = stop.first } };

    ghost invariant = { λ stop. IsKept stop.node stop.first stop.numbers };
}

impl<P: Pairs> Stop<P> {
    /// Stops at a node, where the number of the first variable is `first`.
    ///
    /// # Errors
    ///
    /// Want of memory.
    #[tactic(auto, using(crate::proofs::Numbering::short))]
    pub(crate) fn new(alloc: Global, node: Node<P>, first: u32) -> Result<Stop<P>, AllocError>
        requires good { IsWellFormed node.state }
        requires low { first ≤ 65536 }
        ensures { IfOk result (λ stop. (stop.node ≡ node) × (stop.first ≡ first)) }
    {
        let numbers = numbers(alloc, node.state())?;
        Ok(Stop {
            node,
            first,
            numbers,
        })
    }

    /// The node.
    pub(crate) fn node(&self) -> &Node<P>
        ensures { result.now ≡ self.now.node }
    {
        &self.node
    }

    /// The node's state.
    pub(crate) fn state(&self) -> &AbsState<P>
        ensures { result.now ≡ self.now.node.state }
    {
        self.node.state()
    }

    /// The number of the first variable behind those of the stop.
    #[tactic(auto, using(crate::proofs::Numbering::numbered_long, crate::proofs::Numbering::few_numbers))]
    pub(crate) fn next(&self) -> u32
        ensures { result ≡ self.now.first + length (variables self.now.node.state) }
    {
        self.first + self.numbers.len() as u32
    }

    /// The variable of an id.
    #[tactic(auto, using(crate::proofs::Numbering::numbers_rise, crate::proofs::Numbering::few_variables, crate::proofs::Numbering::few_numbers))]
    pub(crate) fn variable(&self, id: Id) -> u32
        ensures { result ≡ variable_of self.now.first self.now.node.state id }
    {
        self.first + number_of(self.numbers.as_slice(), id)
    }

    /// Whether an id is an int.
    pub(crate) fn has_int(&self, id: Id) -> bool
        ensures { result ≡ has_int self.now.node.state id }
    {
        match cell_of(self.node.state().cells(), id) {
            Some(cell) => cell.is_int(),
            None => false,
        }
    }

    /// The pattern of an id, if the id is sized.
    ///
    /// # Errors
    ///
    /// Want of memory.
    #[tactic(auto, using(crate::proofs::Sized::encoded, crate::proofs::Sized::int_unsized, crate::proofs::Sized::missing_unsized, crate::proofs::Sized::size_small))]
    pub(crate) fn pattern(
        &self,
        alloc: Global,
        id: Id,
        marks: &mut Marks,
    ) -> Result<Option<PatternTerm>, AllocError>
        ensures { IfOk result (λ answer. option_map pattern_of answer ≡ size_at self.now.node.state id) }
    {
        match cell_of(self.node.state().cells(), id) {
            Some(cell) => {
                if cell.is_int() {
                    Ok(None)
                } else {
                    encode(alloc, self.node.state(), id, marks)
                }
            }
            None => Ok(None),
        }
    }
}

/// A multiple of one variable and a constant are at least 0.
fn at_least_zero(
    alloc: Global,
    variable: u32,
    number: i64,
    constant: i64,
) -> Result<WRow, AllocError>
    ensures { IfOk result (λ row. row ≡ at_least_zero ((variable, number) ∷ []) constant) }
{
    Ok(WRow {
        kind: RowKind::AtLeastZero,
        terms: Seq::from_slice(alloc, &[(variable, number)])?,
        constant,
        weights: Seq::new(alloc),
    })
}

/// The least int of an interval, taken from 0.
fn below_zero(interval: &Interval) -> i64
    ensures value { result ≡ pos 0 -ℤ interval.now.lo }
    ensures small { unsigned_abs interval.now.lo ≤ 2 ^ 31 }
{
    0 - interval.lo() as i64
}

/// The greatest int of an interval.
fn upper(interval: &Interval) -> i64
    ensures value { result ≡ interval.now.hi }
    ensures small { unsigned_abs interval.now.hi ≤ 2 ^ 31 }
{
    interval.hi() as i64
}

/// Adds the rows that say in which interval an int lies.
#[tactic(auto, using(crate::proofs::Bounding::int_bounded))]
fn push_bounds(
    alloc: Global,
    rows: &mut Seq<WRow>,
    variable: u32,
    cell: &Cell,
) -> Result<(), AllocError>
    ensures rows { OnOk result (rows.new ≡ rows.old ++ bounds_of variable cell.now) }
    ensures bounded { OnOk result (IsBounded cell.now) }
{
    if let Cell::Int(interval) = cell {
        rows.push(at_least_zero(alloc, variable, 1, below_zero(interval))?)?;
        rows.push(at_least_zero(alloc, variable, -1, upper(interval))?)?;
    }
    Ok(())
}

/// Adds the bounds of the ints of a stop.
#[tactic(auto, using(crate::proofs::Bounding::none_bounded))]
fn push_all_bounds<P: Pairs>(
    alloc: Global,
    rows: &mut Seq<WRow>,
    stop: &Stop<P>,
) -> Result<(), AllocError>
    ensures rows { OnOk result
        (rows.new ≡ rows.old ++ flat_map (λ c. bounds_of (variable_of stop.now.first stop.now.node.state c.0) c.1)
        stop.now.node.state.cells) }
    ensures bounded { OnOk result (AreBounded stop.now.node.state) }
{
    for (id, cell) in stop.state().cells() {
        push_bounds(alloc, rows, stop.variable(*id), cell)?;
    }
    Ok(())
}

/// Adds the rows that say that sizes are at least 0.
fn push_size_bounds<P: Pairs>(
    alloc: Global,
    rows: &mut Seq<WRow>,
    stop: &Stop<P>,
) -> Result<(), AllocError>
    ensures { OnOk result
        (rows.new ≡ rows.old ++ map (λ id. at_least_zero ((variable_of stop.now.first stop.now.node.state id, pos 1) ∷ [])
        (pos 0)) (ids_with is_size_variable stop.now.node.state)) }
{
    for (id, cell) in stop.state().cells() {
        if is_size_variable(cell) {
            rows.push(at_least_zero(alloc, stop.variable(*id), 1, 0)?)?;
        }
    }
    Ok(())
}

/// Adds the rows of a stop.
pub(crate) fn push_stop<P: Pairs>(
    alloc: Global,
    rows: &mut Seq<WRow>,
    stop: &Stop<P>,
) -> Result<(), AllocError>
    ensures rows { OnOk result (rows.new ≡ rows.old ++ rows_of_stop stop.now.first stop.now.node.state) }
    ensures bounded { OnOk result (AreBounded stop.now.node.state) }
{
    push_all_bounds(alloc, rows, stop)?;
    push_size_bounds(alloc, rows, stop)
}
