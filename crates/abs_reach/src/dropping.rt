//! Dropping the ids that nothing reaches.
ghost use Rattle.std.specs.Prelude.{◌≡◌, ◌<◌, ◌==◌, ◌||◌, ◌∷◌, [], ℕ};
ghost use Rattle.std.specs.List.{list_any};
ghost use Rattle.abs_cells.specs.IdSets.{has_id};
ghost use Rattle.abs_cells.specs.Sound.{IsWellFormed, given_ids, ids_of_frame};
ghost use Rattle.abs_reach.specs.Reached.{positions, IsDropped, IsRestricted};

use crate::find::Names;
use crate::marks::Marks;
use abs_cells::{AbsFrame, AbsState, Id, IdSet, Pairs};

/// Puts a number in, if a set can hold it.
fn put_id(set: &mut IdSet, id: Id)
    ensures { (n : ℕ) → n < 2048 → has_id set.new n ≡ (has_id set.old n || (id == n)) }
{
    if id < 2048 {
        set.put(id);
    }
}

/// Puts ids in.
fn put_ids(set: &mut IdSet, ids: &[Id])
    ensures { (n : ℕ) → n < 2048 → has_id set.new n ≡ (has_id set.old n || list_any (λ x. x == n) ids.now) }
{
    for id in ids {
        put_id(set, *id);
    }
}

/// Puts the id of a local variable in, where it has one.
fn put_local(set: &mut IdSet, local: Option<Id>)
    ensures { (n : ℕ) → n < 2048 → has_id set.new n ≡ (has_id set.old n || list_any (λ x. x == n) (given_ids (local ∷ []))) }
{
    if let Some(id) = local {
        put_id(set, id);
    }
}

/// Puts the ids of local variables in, where they have one.
fn put_locals(set: &mut IdSet, locals: &[Option<Id>])
    ensures { (n : ℕ) → n < 2048 → has_id set.new n ≡ (has_id set.old n || list_any (λ x. x == n) (given_ids locals.now)) }
{
    for local in locals {
        put_local(set, *local);
    }
}

/// Puts the ids of a frame in.
fn put_frame(set: &mut IdSet, frame: &AbsFrame)
    ensures { (n : ℕ) → n < 2048 → has_id set.new n ≡ (has_id set.old n || list_any (λ x. x == n) (ids_of_frame frame.now)) }
{
    put_locals(set, frame.locals());
    put_ids(set, frame.stack());
}

/// Puts the ids of frames in.
fn put_frames(set: &mut IdSet, frames: &[AbsFrame])
    ensures { (n : ℕ) → n < 2048
        → has_id set.new n ≡ (has_id set.old n || list_any (λ frame. list_any (λ x. x == n) (ids_of_frame frame)) frames.now) }
{
    for frame in frames {
        put_frame(set, frame);
    }
}

/// The ids at a state's positions, and the thrown one.
fn positions<P: Pairs>(state: &AbsState<P>) -> IdSet
    ensures { (n : ℕ) → n < 2048 → has_id result n ≡ list_any (λ x. x == n) (positions state.now) }
{
    let mut set = IdSet::new();
    put_frames(&mut set, state.frames());
    put_local(&mut set, state.throwing());
    set
}

/// A well-formed state without the ids that its positions don't reach, along known cells and to the lengths of arrays of
/// references, and without their pairs. It takes no memory. What fitted before fits still (`restricted_states_fit`).
pub fn drop_unreached<P: Pairs>(state: AbsState<P>, marks: &mut Marks) -> AbsState<P>
    requires { IsWellFormed state }
    ensures dropped { IsDropped state result }
    ensures restricted { IsRestricted state result }
    ensures good { IsWellFormed result }
{
    let starts = positions(&state);
    let reached = marks.walk_names(&state, &starts);
    state.kept(&reached.met)
}
