//! What both orders rank by: forms of cuts, the weights of classes, and whether sizes count.
ghost use Rattle.std.specs.Prelude.{◌≡◌, ℕ, ◌≤◌, ◌<◌, ◌^◌, ◌*ℤ◌, ℤ, pos, negsuc, true, false, None, Some, MatchOption, unsigned_abs};
ghost use Rattle.std.specs.Prelude.{if◌then◌else◌};
ghost use Rattle.lin_core.specs.Sums.{variables, IsWithin};
ghost use Rattle.lin_core.specs.Weights.{AreWeights, weight_in};
ghost use Rattle.descent.specs.Conditions.{AreMultiples, AreSlots, IsSlot};
ghost use Rattle.descent.specs.Rankings.{form_at, slot_at, is_slot_of, have_slots, entry_terms, entry_constant};
ghost use Rattle.descent.specs.inner.Lines.{AddsLine};
ghost use Rattle.descent.specs.Valuations.{slot_constant};

use crate::proof::CutForm;
use crate::rules::SlotForm;
use lin_core::{Scratch, weighed};

/// The form of a cut, the first that is listed.
pub(crate) fn form_at(forms: &[CutForm], cut: u32) -> Option<&CutForm>
    ensures { MatchOption result (form_at forms.now cut ≡ None) (λ form. form_at forms.now cut ≡ Some form.now) }
{
    for form in forms {
        if form.cut == cut {
            return Some(form);
        }
    }
    None
}

/// Whether the slot is of this id and kind.
fn is_slot_of(size: bool, id: u16, slot: &SlotForm) -> bool
    ensures { result ≡ is_slot_of size id slot.now }
{
    slot.id == id && (if size { slot.size } else { !slot.size })
}

/// The slot of an id, the first of the kind.
fn slot_at(slots: &[SlotForm], size: bool, id: u16) -> Option<&SlotForm>
    ensures { MatchOption result (slot_at slots.now size id ≡ None) (λ slot. slot_at slots.now size id ≡ Some slot.now) }
{
    for slot in slots {
        if is_slot_of(size, id, slot) {
            return Some(slot);
        }
    }
    None
}

/// The constant of a slot's form, where these weights are listed.
fn slot_constant(slot: &SlotForm, weights: &[(u32, i64)]) -> i64
    requires slot { (end : ℕ) × IsSlot end slot.now }
    requires weights { AreWeights weights.now }
    ensures { result ≡ slot_constant (weight_in weights.now) slot.now }
{
    slot.constant + weighed(slot.weights.as_slice(), weights)
}

/// Whether each id that has a multiple has a slot.
pub(crate) fn have_slots(slots: &[SlotForm], size: bool, entries: &[(u16, i64)]) -> bool
    ensures { result ≡ have_slots slots.now size entries.now }
{
    for (id, _) in entries {
        if slot_at(slots, size, *id).is_none() {
            return false;
        }
    }
    true
}

/// The number, or its negative.
fn signed(number: &i64, negative: bool) -> i64
    requires { unsigned_abs number.now ≤ 2 ^ 31 }
    ensures value { result ≡ (if negative then negsuc 0 else pos 1) *ℤ number.now }
    ensures size { unsigned_abs result ≤ 2 ^ 31 }
{
    if negative { -*number } else { *number }
}

/// Adds multiples of ids to a sum, or takes them away.
pub(crate) fn add_entries(
    scratch: &mut Scratch,
    weights: &[(u32, i64)],
    slots: &[SlotForm],
    size: bool,
    entries: &[(u16, i64)],
    negative: bool,
)
    requires weights { AreWeights weights.now }
    requires slots { AreSlots (variables scratch.old) slots.now }
    requires entries { AreMultiples entries.now }
    requires room { IsWithin (2 ^ 113) scratch.old }
    ensures { AddsLine (2 ^ 110) (entry_terms slots.now size entries.now)
        (entry_constant (weight_in weights.now) slots.now size entries.now) (if negative then negsuc 0 else pos 1) scratch.old
        scratch.new }
{
    for (id, multiple) in entries {
        if let Some(slot) = slot_at(slots, size, *id) {
            scratch.add(
                slot.terms.as_slice(),
                &slot_constant(slot, weights),
                &signed(multiple, negative),
            );
        }
    }
}
