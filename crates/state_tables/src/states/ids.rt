//! Ids of states in words.
ghost use Rattle.std.specs.Prelude.{IfOk, true};
ghost use Rattle.abs_cells.specs.Cells.{HasCell};
ghost use Rattle.abs_cells.specs.Sound.{IsWellFormed};

use abs_cells::{AbsState, Id, Pairs};
use abs_reach::has_cell;
use anyhow::{Result, bail};
use table_cases::short;

/// An id of a state.
pub fn id<P: Pairs>(state: &AbsState<P>, word: &str) -> Result<Id>
    requires { IsWellFormed state.now }
    ensures { IfOk result (λ id. HasCell (λ _. true) state.now id) }
{
    let id = short(word)?;
    if !has_cell(state, id) {
        bail!("the id has no cell");
    }
    Ok(id)
}
