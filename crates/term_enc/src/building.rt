//! The pattern of an id, built.
ghost use Rattle.std.specs.Prelude.{◌<◌, ◌^◌, IfOk};
ghost use Rattle.abs_cells.specs.Sound.{AreIdsRising};
ghost use Rattle.term_enc.specs.inner.Counting.{IsAnswer, IsSmallAnswer};

use crate::terms::PatternTerm;
use abs_cells::{Cell, Id};
use abs_reach::cell_of;
use std::alloc::{AllocError, Global};

/// The pattern of an id, none for an int, where there is one that is at most so deep.
fn pattern(
    alloc: Global,
    cells: &[(Id, Cell)],
    id: Id,
    depth: u32,
) -> Result<Option<PatternTerm>, AllocError>
    requires { AreIdsRising 0 cells.now }
    ensures { IfOk result (λ term. IsAnswer depth cells.now id term) }
{
    if depth == 0 {
        return Ok(None);
    }
    match cell_of(cells, id) {
        None => Ok(None),
        Some(cell) => match cell {
            Cell::Int(_) => Ok(None),
            Cell::Null => Ok(Some(PatternTerm::Null)),
            Cell::Nums(_, _) | Cell::Refs(_, _, _) => Ok(Some(PatternTerm::Leaf)),
            Cell::Unk(_, _, _) => Ok(Some(PatternTerm::Var(id))),
            Cell::Obj(class, ids) => {
                let mut children = Vec::new(alloc);
                for child in ids.as_slice() {
                    if let Some(term) = pattern(alloc, cells, *child, depth - 1)? {
                        children.push(term)?;
                    }
                }
                Ok(Some(PatternTerm::Node(*class, children)))
            }
        },
    }
}

/// The pattern of an id, none for an int, where it has one of at most so many parts.
///
/// # Errors
///
/// Want of memory.
pub(crate) fn built(
    alloc: Global,
    cells: &[(Id, Cell)],
    id: Id,
    most: u32,
) -> Result<Option<PatternTerm>, AllocError>
    requires rising { AreIdsRising 0 cells.now }
    requires room { most < 2 ^ 31 }
    ensures { IfOk result (λ term. IsSmallAnswer most cells.now id term) }
{
    pattern(alloc, cells, id, most + 1)
}
