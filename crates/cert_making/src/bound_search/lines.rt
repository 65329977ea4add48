//! The form of a cut in the variables of a rule.
use crate::bound_search::stop::Stop;
use crate::bound_search::sums::{plus_times, put, rising, weighed};
use descent::{CutForm, Place, RankStep, SlotForm};
use list_views::Seq;
use std::alloc::{AllocError, Global};

/// The form of a cut; a cut without one has none.
pub(crate) fn form_at(forms: &[CutForm], cut: u32) -> Option<&CutForm> {
    for form in forms {
        if form.cut == cut {
            return Some(form);
        }
    }
    None
}

/// The weights by which a step counts sizes.
pub(crate) fn weights_of(step: &RankStep) -> &[(u32, i64)] {
    if step.size {
        step.weights.as_slice()
    } else {
        &[]
    }
}

/// The slot of an id.
fn slot_of(slots: &[SlotForm], size: bool, id: u16) -> Option<&SlotForm> {
    for slot in slots {
        if slot.id == id && slot.size == size {
            return Some(slot);
        }
    }
    None
}

/// A sum of variables and a constant.
#[derive(Drop)]
struct Line {
    terms: Vec<(u32, i64)>,
    constant: i64,
}

/// Adds so much of a slot.
fn add_slot(
    line: &mut Line,
    weights: &[(u32, i64)],
    slot: &SlotForm,
    times: i64,
) -> Result<(), Stop> {
    for (variable, number) in slot.terms.as_slice() {
        let so_many = number.checked_mul(times).ok_or(Stop::None)?;
        put(&mut line.terms, *variable, so_many)?;
    }
    line.constant = plus_times(line.constant, slot.constant, times)?;
    let more = weighed(slot.weights.as_slice(), weights)?;
    line.constant = plus_times(line.constant, more, times)?;
    Ok(())
}

/// Adds multiples of ids.
fn add_entries(
    line: &mut Line,
    weights: &[(u32, i64)],
    slots: &[SlotForm],
    size: bool,
    entries: &[(u16, i64)],
) -> Result<(), Stop> {
    for (id, times) in entries {
        let slot = slot_of(slots, size, *id).ok_or(Stop::None)?;
        add_slot(line, weights, slot, *times)?;
    }
    Ok(())
}

/// A position.
pub(crate) fn any_place() -> Place {
    Place {
        frame: 0,
        stack: false,
        index: 0,
    }
}

/// An int that is so much.
pub(crate) fn int_slot(
    alloc: Global,
    terms: Seq<(u32, i64)>,
    constant: i64,
) -> Result<SlotForm, AllocError> {
    Ok(SlotForm {
        id: 0,
        size: false,
        places: Seq::from_slice(alloc, &[any_place()])?,
        terms,
        constant,
        weights: Seq::new(alloc),
    })
}

/// The form of a cut over these slots, as one int; none where an id of the form has no slot.
pub(crate) fn line_slot(
    alloc: Global,
    step: &RankStep,
    form: Option<&CutForm>,
    slots: &[SlotForm],
) -> Result<SlotForm, Stop> {
    let mut line = Line {
        terms: Vec::new(alloc),
        constant: 0,
    };
    let weights = weights_of(step);
    if let Some(form) = form {
        line.constant = form.constant;
        add_entries(&mut line, weights, slots, false, form.ints.as_slice())?;
        if step.size {
            add_entries(&mut line, weights, slots, true, form.sizes.as_slice())?;
        }
    }
    let terms = rising(alloc, &mut line.terms)?;
    Ok(int_slot(alloc, terms, line.constant)?)
}
