//! The variables at places of a rule's two ends.
ghost use Rattle.std.specs.Prelude.{◌≡◌, None, Some, MatchOption};
ghost use Rattle.std.specs.List.{list_any};
ghost use Rattle.descent.specs.declared.rules.Place.{Place};
ghost use Rattle.rank_forms.specs.rule_links.Positions.{same, is_place, is_at, slot_at};
ghost use Rattle.rank_forms.specs.rule_links.Ties.{only_variable, variable_of, variable_at};

use descent::{Place, SlotForm};

/// Whether both are so or both are not.
pub fn same(one: bool, other: bool) -> bool
    ensures { result ≡ same one other }
{
    if one { other } else { !other }
}

/// Whether two places are one.
pub fn is_place(one: &Place, other: &Place) -> bool
    ensures { result ≡ is_place one.now other.now }
{
    one.frame == other.frame && (same(one.stack, other.stack) && one.index == other.index)
}

/// Whether the place is among these.
fn is_among(places: &[Place], place: &Place) -> bool
    ensures { result ≡ list_any (λ (other : Place). is_place other place.now) places.now }
{
    for other in places {
        if is_place(other, place) {
            return true;
        }
    }
    false
}

/// Whether the slot is of the kind and stands at the place.
fn is_at(slot: &SlotForm, size: bool, place: &Place) -> bool
    ensures { result ≡ is_at size place.now slot.now }
{
    same(slot.size, size) && is_among(slot.places.as_slice(), place)
}

/// The first slot of the kind at the place.
pub fn slot_at<'a>(slots: &'a [SlotForm], size: bool, place: &Place) -> Option<&'a SlotForm>
    ensures { MatchOption result (slot_at slots.now size place.now ≡ None) (λ slot. slot_at slots.now size place.now ≡ Some slot.now) }
{
    for slot in slots {
        if is_at(slot, size, place) {
            return Some(slot);
        }
    }
    None
}

/// The variable of terms that are one variable alone.
fn only_variable(terms: &[(u32, i64)]) -> Option<u32>
    ensures { result ≡ only_variable terms.now }
{
    match terms {
        [term] => { if term.1 == 1 { Some(term.0) } else { None } }
        _ => None,
    }
}

/// The variable of a slot that is one variable alone.
pub fn variable_of(slot: &SlotForm) -> Option<u32>
    ensures { result ≡ variable_of (Some slot.now) }
{
    if slot.constant == 0 && slot.weights.is_empty() {
        only_variable(slot.terms.as_slice())
    } else {
        None
    }
}

/// The variable at a place, where the slot there is one variable alone.
pub fn variable_at(slots: &[SlotForm], size: bool, place: &Place) -> Option<u32>
    ensures { result ≡ variable_at slots.now size place.now }
{
    match slot_at(slots, size, place) {
        Some(slot) => variable_of(slot),
        None => None,
    }
}
