//! Copies of cells and of frames.
ghost use Rattle.std.specs.Prelude.{◌≡◌, IfOk};

use crate::cells::Cell;
use crate::ids::{Id, Ids};
use crate::states::AbsFrame;
use jvm_values::list_views::Seq;
use std::alloc::{AllocError, AllocFailed, Global};

/// The same cell once more.
///
/// # Errors
///
/// Want of memory.
pub fn copied_cell(alloc: Global, cell: &Cell) -> Result<Cell, AllocError>
    ensures { IfOk result (λ copy. copy ≡ cell.now) }
{
    Ok(match cell {
        Cell::Int(interval) => Cell::Int(*interval),
        Cell::Null => Cell::Null,
        Cell::Obj(class, ids) => Cell::Obj(*class, Ids::from_slice(alloc, ids.as_slice())?),
        Cell::Nums(kind, len) => Cell::Nums(*kind, *len),
        Cell::Refs(element, len, shape) => Cell::Refs(*element, *len, *shape),
        Cell::Unk(bound, nullable, shape) => Cell::Unk(*bound, *nullable, *shape),
    })
}

/// The same cells once more.
///
/// # Errors
///
/// Want of memory.
pub fn copied_cells(alloc: Global, cells: &[(Id, Cell)]) -> Result<Seq<(Id, Cell)>, AllocError>
    ensures { IfOk result (λ copy. copy ≡ cells.now) }
{
    let mut copy = Seq::with_capacity(alloc, cells.len())?;
    for (id, cell) in cells {
        copy.push((*id, copied_cell(alloc, cell)?))?;
    }
    Ok(copy)
}

/// The same frame once more.
fn copied_frame(alloc: Global, frame: &AbsFrame) -> Result<AbsFrame, AllocError>
    ensures { IfOk result (λ copy. copy ≡ frame.now) }
{
    let locals = Seq::from_slice(alloc, frame.locals())?;
    let stack = Seq::from_slice(alloc, frame.stack())?;
    Ok(AbsFrame::new(frame.method(), frame.pc(), locals, stack))
}

/// The same frames once more.
///
/// # Errors
///
/// Want of memory.
pub fn copied_frames(alloc: Global, frames: &[AbsFrame]) -> Result<Seq<AbsFrame>, AllocError>
    ensures { IfOk result (λ copy. copy ≡ frames.now) }
{
    let mut copy = Seq::with_capacity(alloc, frames.len())?;
    for frame in frames {
        copy.push(copied_frame(alloc, frame)?)?;
    }
    Ok(copy)
}
