//! Copies of what a state names, with some ids under other numbers.
ghost use Rattle.std.specs.Prelude.{◌≡◌, IfOk, map};
ghost use Rattle.std.specs.Option.{option_map};
ghost use Rattle.abs_heap.specs.Names.{name_in, frame_named, cell_named};

use abs_cells::{AbsFrame, Cell, Id, Ids};
use list_views::Seq;
use std::alloc::{AllocError, AllocFailed, Global};

/// The number that an id has under names: its own where they have none for it.
pub(crate) fn name_of(names: &[(Id, Id)], id: Id) -> Id
    ensures { result ≡ name_in names.now id }
{
    for (old, new) in names {
        if *old == id {
            return *new;
        }
    }
    id
}

/// The same of the id of a local variable or of the thrown object, where there is one.
pub(crate) fn name_of_given(names: &[(Id, Id)], given: Option<Id>) -> Option<Id>
    ensures { result ≡ option_map (name_in names.now) given }
{
    match given {
        Some(id) => Some(name_of(names, id)),
        None => None,
    }
}

/// Ids under their names.
pub(crate) fn named_ids(alloc: Global, names: &[(Id, Id)], ids: &[Id]) -> Result<Ids, AllocError>
    ensures { IfOk result (λ named. named ≡ map (name_in names.now) ids.now) }
{
    let mut named = Ids::new(alloc);
    for id in ids {
        named.push(name_of(names, *id))?;
    }
    Ok(named)
}

/// A cell whose ids are under their names.
pub(crate) fn named_cell(alloc: Global, names: &[(Id, Id)], cell: &Cell) -> Result<Cell, AllocError>
    ensures { IfOk result (λ named. named ≡ cell_named (name_in names.now) cell.now) }
{
    Ok(match cell {
        Cell::Int(interval) => Cell::Int(*interval),
        Cell::Null => Cell::Null,
        Cell::Obj(class, ids) => Cell::Obj(*class, named_ids(alloc, names, ids.as_slice())?),
        Cell::Nums(kind, len) => Cell::Nums(*kind, name_of(names, *len)),
        Cell::Refs(element, len, shape) => Cell::Refs(*element, name_of(names, *len), *shape),
        Cell::Unk(bound, nullable, shape) => Cell::Unk(*bound, *nullable, *shape),
    })
}

/// The ids of a stack under their names.
fn named_stack(alloc: Global, names: &[(Id, Id)], stack: &[Id]) -> Result<Seq<Id>, AllocError>
    ensures { IfOk result (λ named. named ≡ map (name_in names.now) stack.now) }
{
    let mut named = Seq::with_capacity(alloc, stack.len())?;
    for id in stack {
        named.push(name_of(names, *id))?;
    }
    Ok(named)
}

/// The ids of local variables under their names.
fn named_locals(
    alloc: Global,
    names: &[(Id, Id)],
    locals: &[Option<Id>],
) -> Result<Seq<Option<Id>>, AllocError>
    ensures { IfOk result (λ named. named ≡ map (option_map (name_in names.now)) locals.now) }
{
    let mut named = Seq::with_capacity(alloc, locals.len())?;
    for local in locals {
        named.push(name_of_given(names, *local))?;
    }
    Ok(named)
}

/// A frame whose ids are under their names.
fn named_frame(alloc: Global, names: &[(Id, Id)], frame: &AbsFrame) -> Result<AbsFrame, AllocError>
    ensures { IfOk result (λ named. named ≡ frame_named (name_in names.now) frame.now) }
{
    let locals = named_locals(alloc, names, frame.locals())?;
    let stack = named_stack(alloc, names, frame.stack())?;
    Ok(AbsFrame::new(frame.method(), frame.pc(), locals, stack))
}

/// Frames whose ids are under their names.
pub(crate) fn named_frames(
    alloc: Global,
    names: &[(Id, Id)],
    frames: &[AbsFrame],
) -> Result<Seq<AbsFrame>, AllocError>
    ensures { IfOk result (λ named. named ≡ map (frame_named (name_in names.now)) frames.now) }
{
    let mut named = Seq::with_capacity(alloc, frames.len())?;
    for frame in frames {
        named.push(named_frame(alloc, names, frame)?)?;
    }
    Ok(named)
}
