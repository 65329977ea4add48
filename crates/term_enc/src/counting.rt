//! Whether the pattern of an id has at most so many parts.
ghost use Rattle.std.specs.Prelude.{◌≡◌, ◌<◌, ◌^◌, ◌↔◌, IsTrue};
ghost use Rattle.abs_cells.specs.Sound.{AreIdsRising};
ghost use Rattle.term_enc.specs.inner.Counting.{one_less, left_after, IsSmall};

use abs_cells::{Cell, Id};
use abs_reach::cell_of;

/// One less, if there is one.
fn one_less(left: u32) -> Option<u32>
    ensures { result ≡ one_less left }
{
    if left == 0 { None } else { Some(left - 1) }
}

/// What is left of a number of parts after the pattern of an id, if there are as many and the pattern is at most so deep. It stops
/// as soon as none is left, so it takes at most one step for each part and for each int among the fields of instances.
fn left_after(cells: &[(Id, Cell)], id: Id, depth: u32, left: u32) -> Option<u32>
    requires { AreIdsRising 0 cells.now }
    ensures { result ≡ left_after depth cells.now id left }
{
    if depth == 0 {
        return None;
    }
    match cell_of(cells, id) {
        None => None,
        Some(cell) => match cell {
            Cell::Int(_) => Some(left),
            Cell::Obj(_, ids) => {
                let mut left = one_less(left)?;
                for child in ids.as_slice() {
                    left = left_after(cells, *child, depth - 1, left)?;
                }
                Some(left)
            }
            Cell::Null | Cell::Nums(_, _) | Cell::Refs(_, _, _) | Cell::Unk(_, _, _) => {
                one_less(left)
            }
        },
    }
}

/// Whether an id is an int's or has a pattern of at most so many parts.
pub(crate) fn is_small(cells: &[(Id, Cell)], id: Id, most: u32) -> bool
    requires rising { AreIdsRising 0 cells.now }
    requires room { most < 2 ^ 31 }
    ensures { IsTrue result ↔ IsSmall most cells.now id }
{
    left_after(cells, id, most + 1, most).is_some()
}
