//! Ids and types of items in words, and what calls of the heap say.
ghost use Rattle.std.specs.Prelude.{◌≡◌, ◌≢◌, IfOk};
ghost use Rattle.abs_cells.specs.Cells.{HasCell, AreEqual};
ghost use Rattle.abs_cells.specs.Sound.{IsWellFormed};
ghost use Rattle.abs_heap.specs.Answers.{IsNullable, IsObjectBelow};
ghost use Rattle.abs_heap.specs.Writing.{is_array_of_references};

use abs_cells::{AbsState, Cell, Id, Pairs};
use abs_heap::{HeapFault, SplitFault};
use abs_reach::cell_of;
use anyhow::{Result, bail};
use class_world::World;
use jvm_values::{Base, Slot, Ty};
use std::alloc::{AllocError, Global};
use table_cases::state_cases::{put_child, ty};
use table_cases::{numbered, said, short};
use term_graph::Child;

/// An id of a state whose object may be null.
pub fn nullable<P: Pairs>(state: &AbsState<P>, word: &str) -> Result<Id>
    requires { IsWellFormed state.now }
    ensures { IfOk result (λ id. IsNullable state.now id) }
{
    let id = short(word)?;
    match cell_of(state.cells(), id) {
        Some(Cell::Unk(_, true, _)) => Ok(id),
        _ => bail!("the id can't be null"),
    }
}

/// An id of a state that stands for an object, of which a bound is known.
pub fn object<P: Pairs>(state: &AbsState<P>, word: &str) -> Result<Id>
    requires { IsWellFormed state.now }
    ensures { IfOk result (λ id. IsObjectBelow state.now id) }
{
    let id = short(word)?;
    match cell_of(state.cells(), id) {
        Some(Cell::Unk(_, false, _)) => Ok(id),
        _ => bail!("the id is no object of a bound"),
    }
}

/// Two ids that may stand for one object.
pub fn equals<P: Pairs>(state: &AbsState<P>, word: &str, other: &str) -> Result<(Id, Id)>
    ensures differ { IfOk result (λ p. p.0 ≢ p.1) }
    ensures pair { IfOk result (λ p. AreEqual state.now p.0 p.1) }
{
    let x = short(word)?;
    let y = short(other)?;
    if x == y || x >= 2048 || y >= 2048 || !state.eq().has(x, y) {
        bail!("the ids are no pair");
    }
    Ok((x, y))
}

/// Whether a cell is that of an array of references.
fn is_array(cell: &Cell) -> bool
    ensures { result ≡ is_array_of_references cell.now }
{
    matches!(cell, Cell::Refs(_, _, _))
}

/// An id of a state that is an array of references.
pub fn array<P: Pairs>(state: &AbsState<P>, word: &str) -> Result<Id>
    requires { IsWellFormed state.now }
    ensures { IfOk result (λ id. HasCell is_array_of_references state.now id) }
{
    let id = short(word)?;
    match cell_of(state.cells(), id) {
        Some(cell) => {
            if !is_array(cell) {
                bail!("the id is no array of references");
            }
            Ok(id)
        }
        None => bail!("the id has no cell"),
    }
}

/// What a descriptor says that items of an array are.
pub fn slot(alloc: Global, world: &World<'_>, word: &str) -> Result<Slot> {
    let mut text = String::from_str(alloc, "[")?;
    text.push_str(word)?;
    let array = ty(world, text.as_str())?;
    match array.base {
        Base::Num(kind) if array.dims == 1 => Ok(Slot::Num(kind)),
        _ if array.dims == 0 => bail!("a descriptor is wanted"),
        base => Ok(Slot::Ref(Ty {
            dims: array.dims - 1,
            base,
        })),
    }
}

/// What a call says that has one child and an id.
pub fn told_with<P: Pairs>(
    alloc: Global,
    world: &World<'_>,
    answer: &std::result::Result<(Child<P>, Id), HeapFault>,
) -> Result<String> {
    match answer {
        Ok((child, id)) => Ok(child_line(alloc, world, child, "Id ", *id)?),
        Err(fault) => told_fault(alloc, *fault),
    }
}

/// What a call says that has one child.
pub fn told<P: Pairs>(
    alloc: Global,
    world: &World<'_>,
    answer: &std::result::Result<Child<P>, HeapFault>,
) -> Result<String> {
    match answer {
        Ok(child) => Ok(child_line(alloc, world, child, "Children ", 1)?),
        Err(fault) => told_fault(alloc, *fault),
    }
}

/// A word, a number and a child.
fn child_line<P: Pairs>(
    alloc: Global,
    world: &World<'_>,
    child: &Child<P>,
    word: &str,
    number: u16,
) -> Result<String, AllocError> {
    let mut line = numbered(alloc, word, i64::from(number))?;
    put_child(&mut line, world, child)?;
    Ok(line)
}

/// The words of a fault of a split by class. Which child it is the table doesn't tell.
pub fn told_split_fault(alloc: Global, fault: SplitFault) -> Result<String> {
    match fault {
        SplitFault::TooManyIds { .. } => said(alloc, "TooManyIds"),
        SplitFault::Memory => bail!("memory is wanted"),
    }
}

/// The word of a fault.
pub fn told_fault(alloc: Global, fault: HeapFault) -> Result<String> {
    match fault {
        HeapFault::TooManyIds => said(alloc, "TooManyIds"),
        HeapFault::Memory => bail!("memory is wanted"),
    }
}
