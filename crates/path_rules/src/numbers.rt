//! The numbers of a state's variables.
ghost use Rattle.std.specs.Prelude.{◌≡◌, ◌<◌, ◌≤◌, ◌^◌, ℕ, List, length, IfOk};
ghost use Rattle.abs_reach.specs.Keys.{AreKeysRising};
ghost use Rattle.term_graph.specs.Edges.{is_size_variable};
ghost use Rattle.path_rules.specs.Rules.{is_variable, place_of, variables};
ghost use Rattle.path_rules.specs.Sizing.{numbered};

use abs_cells::{AbsState, Cell, Id, Pairs};
use abs_reach::place_of;
use jvm_values::Shape;
use list_views::Seq;
use std::alloc::{AllocError, Global};

/// Whether the size of a cell's id is a variable.
pub(crate) fn is_size_variable(cell: &Cell) -> bool
    ensures { result ≡ is_size_variable cell.now }
{
    matches!(cell, Cell::Unk(_, _, Shape::Tree | Shape::Dag))
}

/// Whether the id of a cell is a variable: an int, or one whose size is.
fn is_variable(cell: &Cell) -> bool
    ensures { result ≡ is_variable cell.now }
{
    cell.is_int() || is_size_variable(cell)
}

/// The ids of a state that are variables, each with its number among them.
pub(crate) fn numbers<P: Pairs>(
    alloc: Global,
    state: &AbsState<P>,
) -> Result<Seq<(Id, u32)>, AllocError>
    requires { length state.now.cells < 2 ^ 32 }
    ensures { IfOk result (λ numbers. numbers ≡ numbered 0 (variables state.now)) }
{
    let mut numbers = Seq::new(alloc);
    let mut number: u32 = 0;
    for (id, cell) in state.cells() {
        if is_variable(cell) {
            numbers.push((*id, number))?;
            number += 1;
        }
    }
    Ok(numbers)
}

/// The number of an id among those that have one, in as many steps as their count has digits.
#[tactic(auto, using(crate::proofs::Numbering::number_there, crate::proofs::Numbering::number_missing))]
pub(crate) fn number_of(numbers: &[(Id, u32)], id: Id) -> u32
    requires rising { AreKeysRising 0 numbers.now }
    requires few { length numbers.now < 2 ^ 32 }
    ensures number { (ids : List ℕ) → numbers.now ≡ numbered 0 ids → result ≡ place_of ids id }
    ensures low { (ids : List ℕ) → numbers.now ≡ numbered 0 ids → result ≤ length ids }
{
    match place_of(numbers, id) {
        Some(place) => numbers[place].1,
        None => numbers.len() as u32,
    }
}
