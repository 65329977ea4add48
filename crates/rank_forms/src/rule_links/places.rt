//! The places that come into question.
ghost use Rattle.std.specs.Prelude.{◌≡◌, ◌++◌, IfOk, OnOk, if◌then◌else◌, MatchOption, None, Some, slice_get};
ghost use Rattle.rank_forms.specs.rule_links.Positions.{same};
ghost use Rattle.rank_forms.specs.rule_links.Falls.{ArePlacesOf, places_at_start, places_in, places_of};

use crate::rule_links::positions::same;
use descent::{PathRule, Place, SlotForm};
use list_views::Seq;
use std::alloc::{AllocError, Global};

/// Adds the places of a slot, if it is of the kind.
fn add_places(slot: &SlotForm, size: bool, places: &mut Seq<Place>) -> Result<(), AllocError>
    ensures { OnOk result (places.new ≡ places.old ++ places_of size slot.now) }
{
    if same(slot.size, size) {
        places.extend_from_slice(slot.places.as_slice())?;
    }
    Ok(())
}

/// The places of the slots of the kind.
fn places_in(alloc: Global, slots: &[SlotForm], size: bool) -> Result<Seq<Place>, AllocError>
    ensures { IfOk result (λ places. places ≡ places_in size slots.now) }
{
    let mut places = Seq::new(alloc);
    for slot in slots {
        add_places(slot, size, &mut places)?;
    }
    Ok(places)
}

/// The first rule, if there is one.
fn first_rule(rules: &[PathRule]) -> Option<&PathRule>
    ensures { MatchOption result (slice_get rules.now 0 ≡ None) (λ rule. slice_get rules.now 0 ≡ Some rule.now) }
{
    rules.get(0)
}

/// The places at which one variable may stand alone at the start of each rule: those of the first rule.
///
/// # Errors
///
/// Want of memory.
pub fn first_places(alloc: Global, rules: &[PathRule], size: bool) -> Result<Seq<Place>, AllocError>
    ensures all { IfOk result (λ places. ArePlacesOf rules.now size places) }
    ensures is { IfOk result (λ places. places ≡ places_at_start size rules.now) }
{
    match first_rule(rules) {
        Some(rule) => places_in(alloc, rule.first.as_slice(), size),
        None => Ok(Seq::new(alloc)),
    }
}
