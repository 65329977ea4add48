//! The least numbers that are no ids.
ghost use Rattle.std.specs.Prelude.{◌≡◌, ◌+◌, ◌<◌, ◌≤◌, [], ◌∷◌, All, length, IfOk};
ghost use Rattle.abs_cells.specs.Sound.{AreIdsRising};
ghost use Rattle.abs_cells.specs.Limits.{most_ids};
ghost use Rattle.abs_heap.specs.Given.{AreFresh};

use crate::putting::stands_at;
use abs_cells::{AbsState, Id, Pairs};
use list_views::Seq;
use std::alloc::{AllocError, AllocFailed, Global};

/// So many fresh ids of a state: the least numbers that have no cell, rising.
pub(crate) fn fresh_ids<P: Pairs>(
    alloc: Global,
    state: &AbsState<P>,
    count: usize,
) -> Result<Seq<Id>, AllocError>
    requires rising { AreIdsRising 0 state.now.cells }
    requires room { length state.now.cells + count ≤ 2048 }
    ensures fresh { IfOk result (λ ids. AreFresh state.now ids) }
    ensures low { IfOk result (λ ids. All (λ id. id < 2048) ids) }
    ensures count { IfOk result (λ ids. length ids ≡ count) }
{
    let cells = state.cells();
    let mut ids = Seq::with_capacity(alloc, count)?;
    let mut passed = 0;
    let mut next: Id = 0;
    while ids.len() < count {
        if stands_at(cells, passed, next) {
            passed += 1;
            next += 1;
        } else {
            ids.push(next)?;
            next += 1;
        }
    }
    Ok(ids)
}

/// The least number that has no cell.
pub(crate) fn fresh_id<P: Pairs>(alloc: Global, state: &AbsState<P>) -> Result<Id, AllocError>
    requires rising { AreIdsRising 0 state.now.cells }
    requires room { length state.now.cells + 1 ≤ most_ids }
    ensures fresh { IfOk result (λ id. AreFresh state.now (id ∷ [])) }
    ensures low { IfOk result (λ id. id < 2048) }
{
    let ids = fresh_ids(alloc, state, 1)?;
    Ok(*ids.at(0))
}
