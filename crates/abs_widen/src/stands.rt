//! Whether two states stand alike, as a widening asks.
ghost use Rattle.std.specs.Prelude.{◌≡◌, ◌↔◌, IsTrue, true, length};
ghost use Rattle.std.specs.List.{AllZip};
ghost use Rattle.abs_cells.specs.Sound.{IsWellFormed};
ghost use Rattle.abs_widen.specs.Visits.{are_alike};
ghost use Rattle.abs_widen.specs.Widening.{AreFramesAlike, AreAlike};

use crate::positions::are_alike;
use abs_cells::{AbsFrame, AbsState, Id, Pairs};
use abs_reach::{is_same_head, is_same_mode};

/// Whether ids stand beside ids of their sort, place by place: ints beside ints.
fn are_ids_alike<P: Pairs>(a: &AbsState<P>, b: &AbsState<P>, ids: &[Id], others: &[Id]) -> bool
    requires first { IsWellFormed a.now }
    requires second { IsWellFormed b.now }
    ensures { IsTrue result ↔ AllZip (λ x y. are_alike a.now b.now x y ≡ true) ids.now others.now }
{
    if ids.len() != others.len() {
        return false;
    }
    for n in 0..ids.len() {
        if !are_alike(a, b, ids[n], others[n]) {
            return false;
        }
    }
    true
}

/// Whether two frames have as many locals.
fn is_as_wide(frame: &AbsFrame, other: &AbsFrame) -> bool
    ensures { IsTrue result ↔ (length frame.now.locals ≡ length other.now.locals) }
{
    frame.locals().len() == other.locals().len()
}

/// Whether two frames stand alike.
fn is_frame_alike<P: Pairs>(
    a: &AbsState<P>,
    b: &AbsState<P>,
    frame: &AbsFrame,
    other: &AbsFrame,
) -> bool
    requires first { IsWellFormed a.now }
    requires second { IsWellFormed b.now }
    ensures { IsTrue result ↔ AreFramesAlike a.now b.now frame.now other.now }
{
    if !is_same_head(frame, other) {
        return false;
    }
    if !is_as_wide(frame, other) {
        return false;
    }
    are_ids_alike(a, b, frame.stack(), other.stack())
}

/// Whether frames stand alike, place by place.
fn are_frames_alike<P: Pairs>(
    a: &AbsState<P>,
    b: &AbsState<P>,
    frames: &[AbsFrame],
    others: &[AbsFrame],
) -> bool
    requires first { IsWellFormed a.now }
    requires second { IsWellFormed b.now }
    ensures { IsTrue result ↔ AllZip (AreFramesAlike a.now b.now) frames.now others.now }
{
    if frames.len() != others.len() {
        return false;
    }
    for n in 0..frames.len() {
        if !is_frame_alike(a, b, &frames[n], &others[n]) {
            return false;
        }
    }
    true
}

/// Whether two well-formed states stand alike, as `widen` asks: the same methods, places of instructions, numbers of locals and
/// depths of stacks, ints beside ints in the stacks, and in both an object is thrown or in none. It takes no memory.
pub fn stand_alike<P: Pairs>(a: &AbsState<P>, b: &AbsState<P>) -> bool
    requires first { IsWellFormed a.now }
    requires second { IsWellFormed b.now }
    ensures { IsTrue result ↔ AreAlike a.now b.now }
{
    if !is_same_mode(a.throwing(), b.throwing()) {
        return false;
    }
    are_frames_alike(a, b, a.frames(), b.frames())
}
