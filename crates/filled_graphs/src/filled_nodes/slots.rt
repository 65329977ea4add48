//! Slots of states, one for each node of a graph: empty where none is held.
ghost use Rattle.std.specs.Prelude.{◌≡◌, ◌<◌, length, Some, None, slice_get, slice_set, IfOk};
ghost use Rattle.filled_graphs.specs.filled_nodes.inner.Slots.{IsFull, AreEmpty, has_state};

use abs_cells::{AbsState, Pairs};
use list_views::Seq;
use std::alloc::{AllocError, Global};

/// So many empty slots.
#[tactic(auto, using(crate::proofs::SlotStates::none_empty, crate::proofs::SlotStates::more_empty, crate::proofs::SlotStates::all_empty))]
pub(crate) fn empty_slots<P: Pairs>(
    alloc: Global,
    count: u32,
) -> Result<Seq<Option<AbsState<P>>>, AllocError>
    ensures { IfOk result (λ slots. AreEmpty slots count) }
{
    let mut slots = Seq::new(alloc);
    for _ in 0..count {
        slots.push(None)?;
    }
    Ok(slots)
}

/// Whether a slot has a state.
#[tactic(auto, using(crate::proofs::SlotStates::state_there, crate::proofs::SlotStates::state_past))]
pub(crate) fn is_full<P: Pairs>(slots: &Seq<Option<AbsState<P>>>, n: u32) -> bool
    ensures { result ≡ has_state (slice_get slots.now n) }
{
    match slots.get(n as usize) {
        Some(slot) => slot.is_some(),
        None => false,
    }
}

/// Puts a state into a slot.
pub(crate) fn put_state<P: Pairs>(slots: &mut Seq<Option<AbsState<P>>>, n: u32, state: AbsState<P>)
    requires { n < length slots.old }
    ensures { slots.new ≡ slice_set slots.old n (Some state) }
{
    *slots.at_mut(n as usize) = Some(state);
}

/// Empties a slot.
pub(crate) fn drop_state<P: Pairs>(slots: &mut Seq<Option<AbsState<P>>>, n: u32)
    requires { n < length slots.old }
    ensures { slots.new ≡ slice_set slots.old n None }
{
    *slots.at_mut(n as usize) = None;
}

/// Takes what a slot has.
#[tactic(auto, using(crate::proofs::SlotStates::slot_there))]
fn take_slot<P: Pairs>(slots: &mut Seq<Option<AbsState<P>>>, n: usize) -> Option<AbsState<P>>
    requires { n < length slots.old }
    ensures was { slice_get slots.old n ≡ Some result }
    ensures left { slots.new ≡ slice_set slots.old n None }
{
    slots.at_mut(n).take()
}

/// Takes a state out of its slot.
#[tactic(auto, using(crate::proofs::SlotStates::full_there))]
pub(crate) fn take_state<P: Pairs>(slots: &mut Seq<Option<AbsState<P>>>, n: u32) -> AbsState<P>
    requires { IsFull slots.old n }
    ensures was { slice_get slots.old n ≡ Some (Some result) }
    ensures left { slots.new ≡ slice_set slots.old n None }
{
    match take_slot(slots, n as usize) {
        Some(state) => state,
        None => unreachable!(),
    }
}

/// The state in a slot.
#[tactic(auto, using(crate::proofs::SlotStates::full_there, crate::proofs::SlotStates::full_some, crate::proofs::SlotStates::state_is))]
pub(crate) fn state_in<P: Pairs>(slots: &Seq<Option<AbsState<P>>>, n: u32) -> &AbsState<P>
    requires { IsFull slots.now n }
    ensures { slice_get slots.now n ≡ Some (Some result.now) }
{
    match slots.at(n as usize) {
        Some(state) => state,
        None => unreachable!(),
    }
}
