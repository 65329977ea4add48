//! Whether the places of frames have the images of ids.
ghost use Rattle.std.specs.Prelude.{◌≡◌, length, slice_get};
ghost use Rattle.abs_reach.specs.Keys.{AreKeysRising};
ghost use Rattle.abs_match.specs.inner.Matching.{IsLeastOf, PlacesMeet, FrameMeets, FirstMeet, FramesMeet, local_at};

use crate::least::lower_of;
use crate::maps::unmet;
use abs_cells::{AbsFrame, Id};

/// The id of a local variable, if it is there and has one.
pub(crate) fn local_at(locals: &[Option<Id>], n: usize) -> Option<Id>
    ensures { result ≡ local_at locals.now n }
{
    match locals.get(n) {
        Some(local) => *local,
        None => None,
    }
}

/// The id of a stack's entry, if it is there.
pub(crate) fn entry_at(stack: &[Id], n: usize) -> Option<Id>
    ensures { result ≡ slice_get stack.now n }
{
    stack.get(n).copied()
}

/// The least id of the one frame's locals whose place in the other frame doesn't have its image.
fn least_local(entries: &[(Id, Id)], theirs: &[Option<Id>], ours: &[Option<Id>]) -> Option<Id>
    requires { AreKeysRising 0 entries.now }
    ensures { IsLeastOf (PlacesMeet entries.now (local_at theirs.now) (local_at ours.now)) result }
{
    let mut least = None;
    for n in 0..theirs.len() {
        least = lower_of(least, unmet(entries, theirs[n], local_at(ours, n)));
    }
    least
}

/// The same of the entries of stacks.
fn least_entry(entries: &[(Id, Id)], theirs: &[Id], ours: &[Id]) -> Option<Id>
    requires { AreKeysRising 0 entries.now }
    ensures { IsLeastOf (PlacesMeet entries.now (slice_get theirs.now) (slice_get ours.now)) result }
{
    let mut least = None;
    for n in 0..theirs.len() {
        least = lower_of(least, unmet(entries, Some(theirs[n]), entry_at(ours, n)));
    }
    least
}

/// The same of all places of a frame.
fn least_in_frame(entries: &[(Id, Id)], theirs: &AbsFrame, ours: &AbsFrame) -> Option<Id>
    requires { AreKeysRising 0 entries.now }
    ensures { IsLeastOf (FrameMeets entries.now theirs.now ours.now) result }
{
    lower_of(
        least_local(entries, theirs.locals(), ours.locals()),
        least_entry(entries, theirs.stack(), ours.stack()),
    )
}

/// The least id whose place in some frame doesn't have its image. The frames go from the bottom up.
pub(crate) fn least_place(
    entries: &[(Id, Id)],
    theirs: &[AbsFrame],
    ours: &[AbsFrame],
) -> Option<Id>
    requires keys { AreKeysRising 0 entries.now }
    requires count { length ours.now ≡ length theirs.now }
    ensures { IsLeastOf (FirstMeet (FramesMeet entries.now theirs.now ours.now) (length theirs.now)) result }
{
    let mut least = None;
    for f in 0..theirs.len() {
        least = lower_of(least, least_in_frame(entries, &theirs[f], &ours[f]));
    }
    least
}
