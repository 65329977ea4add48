//! The pattern of an id, where the id is sized.
ghost use Rattle.std.specs.Prelude.{not, IfOk};
ghost use Rattle.abs_cells.specs.Cells.{is_int, HasCell};
ghost use Rattle.abs_cells.specs.Sound.{IsWellFormed};
ghost use Rattle.term_enc.specs.Encoding.{Encodes};

use crate::building::built;
use crate::counting::is_small;
use crate::limits::MOST_PARTS;
use crate::terms::PatternTerm;
use abs_cells::{AbsState, Id, Pairs};
use abs_reach::{Marks, is_finite};
use std::alloc::{AllocError, Global};

/// The pattern of an id of a reference or null, exactly where the id is sized: no cycle is in its region, and its pattern is of
/// at most `MOST_PARTS` parts. The parts are counted first, and the count stops where there are too many, so that nothing is
/// built of a pattern that is refused.
///
/// # Errors
///
/// Want of memory.
pub fn encode<P: Pairs>(
    alloc: Global,
    state: &AbsState<P>,
    x: Id,
    marks: &mut Marks,
) -> Result<Option<PatternTerm>, AllocError>
    requires good { IsWellFormed state.now }
    requires there { HasCell (λ cell. not (is_int cell)) state.now x }
    ensures { IfOk result (λ answer. Encodes state.now x answer) }
{
    if !is_finite(state, x, marks) {
        return Ok(None);
    }
    let cells = state.cells();
    if is_small(cells, x, MOST_PARTS) {
        return built(alloc, cells, x, MOST_PARTS);
    }
    Ok(None)
}
