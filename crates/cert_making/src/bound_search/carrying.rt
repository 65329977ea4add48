//! The form of a cut, carried to other cuts by the places at which its ids stand.
use crate::bound_search::stop::Stop;
use crate::bound_search::sums::{put, rising};
use descent::{CutForm, PathRule, Place, SlotForm};
use list_views::Seq;
use rank_forms::slots_for;
use std::alloc::{AllocError, Global};

/// The first place of an id's slot.
fn place_of(slots: &[SlotForm], size: bool, id: u16) -> Option<Place> {
    for slot in slots {
        if slot.id == id && slot.size == size {
            return slot.places.get(0).copied();
        }
    }
    None
}

/// The id that stands at a place.
fn id_at(slots: &[SlotForm], size: bool, place: Place) -> Option<u16> {
    for slot in slots {
        if slot.size == size && slot.places.as_slice().contains(&place) {
            return Some(slot.id);
        }
    }
    None
}

/// Multiples of ids, carried from the slots of one cut to those of another.
fn carried_entries(
    alloc: Global,
    from: &[SlotForm],
    to: &[SlotForm],
    size: bool,
    entries: &[(u16, i64)],
) -> Result<Seq<(u16, i64)>, Stop> {
    let mut sum = Vec::new(alloc);
    for (id, times) in entries {
        let place = place_of(from, size, *id).ok_or(Stop::None)?;
        let there = id_at(to, size, place).ok_or(Stop::None)?;
        put(&mut sum, u32::from(there), *times)?;
    }
    let mut list = Seq::new(alloc);
    for (id, times) in rising(alloc, &mut sum)?.as_slice() {
        let Ok(id) = u16::try_from(*id) else {
            return Err(Stop::None);
        };
        list.push((id, *times))?;
    }
    Ok(list)
}

/// A form, carried to another cut.
fn carried(alloc: Global, rules: &[PathRule], form: &CutForm, cut: u32) -> Result<CutForm, Stop> {
    let from = slots_for(rules, form.cut);
    let to = slots_for(rules, cut);
    Ok(CutForm {
        cut,
        constant: form.constant,
        ints: carried_entries(alloc, from, to, false, form.ints.as_slice())?,
        sizes: carried_entries(alloc, from, to, true, form.sizes.as_slice())?,
    })
}

/// A form, carried to each of these cuts.
pub(crate) fn all_carried(
    alloc: Global,
    rules: &[PathRule],
    form: &CutForm,
    cuts: &[u32],
) -> Result<Seq<CutForm>, Stop> {
    let mut forms = Seq::new(alloc);
    for cut in cuts {
        forms.push(carried(alloc, rules, form, *cut)?)?;
    }
    Ok(forms)
}

/// A copy of a form.
fn copied(alloc: Global, form: &CutForm) -> Result<CutForm, AllocError> {
    Ok(CutForm {
        cut: form.cut,
        constant: form.constant,
        ints: Seq::from_slice(alloc, form.ints.as_slice())?,
        sizes: Seq::from_slice(alloc, form.sizes.as_slice())?,
    })
}

/// Forms of a step and others.
pub(crate) fn joined(
    alloc: Global,
    own: &[CutForm],
    more: &[CutForm],
) -> Result<Seq<CutForm>, AllocError> {
    let mut forms = Seq::new(alloc);
    for form in own {
        forms.push(copied(alloc, form)?)?;
    }
    for form in more {
        forms.push(copied(alloc, form)?)?;
    }
    Ok(forms)
}
