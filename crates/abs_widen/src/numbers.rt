//! The frames of a widening: the numbers of the pairs that stand at the positions.
ghost use Rattle.std.specs.Prelude.{◌≡◌, ◌≤◌, length, map, zip, reverse, position, IfOk};
ghost use Rattle.std.specs.List.{AllZip};
ghost use Rattle.std.specs.Option.{option_map};
ghost use Rattle.abs_cells.specs.PairLists.{is_same};
ghost use Rattle.abs_cells.specs.Sound.{IsWellFormed};
ghost use Rattle.abs_cells.specs.Limits.{most_ids};
ghost use Rattle.abs_widen.specs.Widening.{number_of, merged_locals, merged_frame, merged_frames};
ghost use Rattle.abs_widen.specs.inner.Visiting.{AreAsLong};

use crate::positions::local_pair;
use abs_cells::{AbsFrame, AbsState, Id, Pairs};
use list_views::Seq;
use std::alloc::{AllocError, Global};

/// The place of a pair among pairs.
fn place_of(pairs: &[(Id, Id)], pair: (Id, Id)) -> Option<usize>
    ensures { result ≡ position (is_same pair) pairs.now }
{
    pairs
        .iter()
        .position(|other| pair.0 == other.0 && pair.1 == other.1)
}

/// A pair's number: its place among the pairs, or their count.
pub(crate) fn number_of(pairs: &[(Id, Id)], pair: (Id, Id)) -> Id
    requires { length pairs.now ≤ most_ids }
    ensures { result ≡ number_of pairs.now pair }
{
    match place_of(pairs, pair) {
        Some(n) => n as Id,
        None => pairs.len() as Id,
    }
}

/// The number of a pair, if there is one.
pub(crate) fn number_of_some(pairs: &[(Id, Id)], pair: Option<(Id, Id)>) -> Option<Id>
    requires { length pairs.now ≤ most_ids }
    ensures { result ≡ option_map (number_of pairs.now) pair }
{
    match pair {
        Some(pair) => Some(number_of(pairs, pair)),
        None => None,
    }
}

/// The local variables that two frames' become.
fn merged_locals<P: Pairs>(
    alloc: Global,
    a: &AbsState<P>,
    b: &AbsState<P>,
    pairs: &[(Id, Id)],
    locals: &[Option<Id>],
    others: &[Option<Id>],
) -> Result<Seq<Option<Id>>, AllocError>
    requires first { IsWellFormed a.now }
    requires second { IsWellFormed b.now }
    requires few { length pairs.now ≤ most_ids }
    requires long { length locals.now ≡ length others.now }
    ensures { IfOk result (λ merged. merged ≡ merged_locals a.now b.now pairs.now locals.now others.now) }
{
    let mut merged = Vec::with_capacity(alloc, locals.len())?;
    for n in 0..locals.len() {
        merged.push(number_of_some(pairs, local_pair(a, b, locals[n], others[n])))?;
    }
    Ok(Seq::from_vec(merged))
}

/// The numbers of the pairs of two lists of ids.
pub(crate) fn numbers_of(
    alloc: Global,
    pairs: &[(Id, Id)],
    ids: &[Id],
    others: &[Id],
) -> Result<Vec<Id>, AllocError>
    requires few { length pairs.now ≤ most_ids }
    requires long { length ids.now ≡ length others.now }
    ensures { IfOk result (λ numbers. numbers.items ≡ map (number_of pairs.now) (zip ids.now others.now)) }
{
    let mut numbers = Vec::with_capacity(alloc, ids.len())?;
    for n in 0..ids.len() {
        numbers.push(number_of(pairs, (ids[n], others[n])))?;
    }
    Ok(numbers)
}

/// The frame that two frames become.
fn merged_frame<P: Pairs>(
    alloc: Global,
    a: &AbsState<P>,
    b: &AbsState<P>,
    pairs: &[(Id, Id)],
    frame: &AbsFrame,
    other: &AbsFrame,
) -> Result<AbsFrame, AllocError>
    requires first { IsWellFormed a.now }
    requires second { IsWellFormed b.now }
    requires few { length pairs.now ≤ most_ids }
    requires long { AreAsLong frame.now other.now }
    ensures { IfOk result (λ merged. merged ≡ merged_frame a.now b.now pairs.now frame.now other.now) }
{
    let locals = merged_locals(alloc, a, b, pairs, frame.locals(), other.locals())?;
    let stack = numbers_of(alloc, pairs, frame.stack(), other.stack())?;
    Ok(AbsFrame::new(frame.method(), frame.pc(), locals, Seq::from_vec(stack)))
}

/// The frames that two lists of frames become.
fn merged_frames<P: Pairs>(
    alloc: Global,
    a: &AbsState<P>,
    b: &AbsState<P>,
    pairs: &[(Id, Id)],
    frames: &[AbsFrame],
    others: &[AbsFrame],
) -> Result<Seq<AbsFrame>, AllocError>
    requires first { IsWellFormed a.now }
    requires second { IsWellFormed b.now }
    requires few { length pairs.now ≤ most_ids }
    requires long { AllZip AreAsLong frames.now others.now }
    ensures { IfOk result (λ merged. merged ≡ merged_frames a.now b.now pairs.now frames.now others.now) }
{
    let mut merged = Vec::with_capacity(alloc, frames.len())?;
    for n in 0..frames.len() {
        merged.push(merged_frame(alloc, a, b, pairs, &frames[n], &others[n])?)?;
    }
    Ok(Seq::from_vec(merged))
}

/// The frames that two states' become.
pub(crate) fn frames_of<P: Pairs>(
    alloc: Global,
    a: &AbsState<P>,
    b: &AbsState<P>,
    pairs: &[(Id, Id)],
) -> Result<Seq<AbsFrame>, AllocError>
    requires first { IsWellFormed a.now }
    requires second { IsWellFormed b.now }
    requires few { length pairs.now ≤ most_ids }
    requires long { AllZip AreAsLong a.now.frames b.now.frames }
    ensures { IfOk result (λ frames. reverse frames ≡ merged_frames a.now b.now pairs.now a.now.frames b.now.frames) }
{
    merged_frames(alloc, a, b, pairs, a.frames(), b.frames())
}
