//! The forms of cuts that parts make.
ghost use Rattle.std.specs.Prelude.{◌<◌, IfSome, length};

use crate::rule_links::{Part, counts_size, slot_at};
use descent::{CutForm, PathRule, SlotForm};
use list_views::Seq;
use std::alloc::{AllocError, Global};

/// An end of a rule at a cut.
#[derive(Clone, Copy, PartialEq, Eq)]
struct End {
    cut: u32,
    rule: usize,
    last: bool,
}

/// Where an id stands.
fn place_of(entries: &[(u16, i64)], id: u16) -> Option<usize>
    ensures { IfSome result (λ n. n < length entries.now) }
{
    for (n, entry) in entries.iter().enumerate() {
        if entry.0 == id {
            return Some(n);
        }
    }
    None
}

/// Counts an id so many times more; false past 64 bits.
fn count(entries: &mut Vec<(u16, i64)>, id: u16, times: i64) -> Result<bool, AllocError> {
    let Some(n) = place_of(entries.as_slice(), id) else {
        entries.push((id, times))?;
        return Ok(true);
    };
    match entries[n].1.checked_add(times) {
        Some(sum) => {
            entries[n] = (id, sum);
            Ok(true)
        }
        None => Ok(false),
    }
}

/// The entries that count, by id.
fn in_order(alloc: Global, mut entries: Vec<(u16, i64)>) -> Result<Seq<(u16, i64)>, AllocError> {
    entries.sort_by_key(|entry| entry.0)?;
    let mut list = Seq::new(alloc);
    for entry in &entries {
        if entry.1 != 0 {
            list.push(*entry)?;
        }
    }
    Ok(list)
}

/// The multiples of ints or of sizes that parts make of a cut's slots; None where a place has no slot, or past 64 bits.
fn entries_of(
    alloc: Global,
    slots: &[SlotForm],
    size: bool,
    parts: &[Part],
) -> Result<Option<Seq<(u16, i64)>>, AllocError> {
    let mut entries = Vec::new(alloc);
    for part in parts {
        if counts_size(part.course) == size {
            let Some(slot) = slot_at(slots, size, &part.place) else {
                return Ok(None);
            };
            if !count(&mut entries, slot.id, part.times)? {
                return Ok(None);
            }
        }
    }
    Ok(Some(in_order(alloc, entries)?))
}

/// The ends of the rules, by their cuts.
fn ends_of(alloc: Global, rules: &[PathRule]) -> Result<Vec<End>, AllocError> {
    let mut ends = Vec::new(alloc);
    for (n, rule) in rules.iter().enumerate() {
        ends.push(End {
            cut: rule.from,
            rule: n,
            last: false,
        })?;
        ends.push(End {
            cut: rule.to,
            rule: n,
            last: true,
        })?;
    }
    ends.sort_by_key(|end| end.cut)?;
    Ok(ends)
}

/// The slots of an end.
fn slots_at<'a>(rules: &'a [PathRule], end: &End) -> &'a [SlotForm] {
    match rules.get(end.rule) {
        Some(rule) => {
            if end.last {
                rule.last.as_slice()
            } else {
                rule.first.as_slice()
            }
        }
        None => &[],
    }
}

/// The form of a cut that has these slots.
fn form_by_parts(
    alloc: Global,
    cut: u32,
    slots: &[SlotForm],
    parts: &[Part],
    constant: i64,
) -> Result<Option<CutForm>, AllocError> {
    let Some(ints) = entries_of(alloc, slots, false, parts)? else {
        return Ok(None);
    };
    let Some(sizes) = entries_of(alloc, slots, true, parts)? else {
        return Ok(None);
    };
    Ok(Some(CutForm {
        cut,
        constant,
        ints,
        sizes,
    }))
}

/// The forms of all cuts of the rules, with this constant; None where a cut has no slot at a place, or past 64 bits.
///
/// # Errors
///
/// Want of memory.
pub(crate) fn forms_by_parts(
    alloc: Global,
    rules: &[PathRule],
    parts: &[Part],
    constant: i64,
) -> Result<Option<Seq<CutForm>>, AllocError> {
    let ends = ends_of(alloc, rules)?;
    let mut forms = Seq::new(alloc);
    let mut before = None;
    for end in &ends {
        if before != Some(end.cut) {
            let slots = slots_at(rules, end);
            match form_by_parts(alloc, end.cut, slots, parts, constant)? {
                Some(form) => forms.push(form)?,
                None => return Ok(None),
            }
        }
        before = Some(end.cut);
    }
    Ok(Some(forms))
}
