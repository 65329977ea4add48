//! The form of each cut that is made of multiples of what stands at places.
ghost use Rattle.std.specs.Prelude.{◌≡◌, ◌≤◌, ◌∷◌, ◌++◌, [], ℕ, suc, List, None, IfOk, OnOk};
ghost use Rattle.rank_forms.specs.Forms.{AreCuts, alone, form_of, forms_over, id_of, ids_at, joined};
ghost use Rattle.rank_forms.specs.inner.Forms.{less_of, lesser, next_from};
ghost use Rattle.rank_forms.specs.Forms.{pair_of, slots_for};
ghost use Rattle.rank_forms.specs.rule_links.Positions.{slot_at};

use crate::rule_links::{slot_at, sum};
use descent::{CutForm, PathRule, Place, SlotForm};
use list_views::Seq;
use std::alloc::{AllocError, Global};

/// The lesser of a cut that may be there and another one.
fn less_of(best: Option<u32>, cut: u32) -> Option<u32>
    ensures { result ≡ less_of best cut }
{
    match best {
        Some(least) => { if cut < least { Some(cut) } else { Some(least) } }
        None => Some(cut),
    }
}

/// The same, where the other one counts from a number on.
fn lesser(best: Option<u32>, cut: u32, low: u64) -> Option<u32>
    ensures { result ≡ lesser best cut low }
{
    if u64::from(cut) < low {
        best
    } else {
        less_of(best, cut)
    }
}

/// The least cut of the rules from a number on.
fn next_cut(rules: &[PathRule], low: u64) -> Option<u32>
    ensures { result ≡ next_from low None rules.now }
{
    let mut best = None;
    for rule in rules {
        best = lesser(lesser(best, rule.from, low), rule.to, low);
    }
    best
}

/// The number after a cut.
fn after(cut: u32) -> u64
    ensures next { result ≡ suc cut }
    ensures small { result ≤ 4294967296 }
{
    u64::from(cut) + 1
}

/// The cuts of the rules, rising.
fn cuts_of(alloc: Global, rules: &[PathRule]) -> Result<Seq<u32>, AllocError>
    ensures { IfOk result (λ cuts. AreCuts rules.now cuts) }
{
    let mut cuts = Seq::new(alloc);
    let mut low: u64 = 0;
    while let Some(cut) = next_cut(rules, low) {
        cuts.push(cut)?;
        low = after(cut);
    }
    Ok(cuts)
}

/// The slots of the first end of a rule at a cut.
pub fn slots_for(rules: &[PathRule], cut: u32) -> &[SlotForm]
    ensures { result.now ≡ slots_for rules.now cut }
{
    for rule in rules {
        if rule.from == cut {
            return rule.first.as_slice();
        }
        if rule.to == cut {
            return rule.last.as_slice();
        }
    }
    &[]
}

/// The ids of the slots at these places, with their multiples.
fn ids_at(
    alloc: Global,
    slots: &[SlotForm],
    size: bool,
    parts: &[(Place, i64)],
) -> Result<Seq<(u16, i64)>, AllocError>
    ensures { IfOk result (λ ids. ids ≡ ids_at slots.now size parts.now) }
{
    let mut ids = Seq::new(alloc);
    for part in parts {
        add_id(slots, size, part, &mut ids)?;
    }
    Ok(ids)
}

/// Adds the id of the slot at a place.
fn add_id(
    slots: &[SlotForm],
    size: bool,
    part: &(Place, i64),
    ids: &mut Seq<(u16, i64)>,
) -> Result<(), AllocError>
    ensures { OnOk result (ids.new ≡ ids.old ++ id_of (slot_at slots.now size part.now.0) part.now.1) }
{
    if let Some(slot) = slot_at(slots, size, &part.0) {
        ids.push((slot.id, part.1))?;
    }
    Ok(())
}

/// An id with its multiple, unless this is 0.
fn alone(alloc: Global, id: u16, times: &i64) -> Result<Seq<(u16, i64)>, AllocError>
    ensures { IfOk result (λ ids. ids ≡ alone id times.now) }
{
    let mut ids = Seq::new(alloc);
    if *times != 0 {
        ids.push((id, *times))?;
    }
    Ok(ids)
}

/// Two ids with their multiples.
fn two(alloc: Global, one: &(u16, i64), other: &(u16, i64)) -> Result<Seq<(u16, i64)>, AllocError>
    ensures { IfOk result (λ ids. ids ≡ one.now ∷ other.now ∷ []) }
{
    Seq::from_slice(alloc, &[*one, *other])
}

/// Two ids in their order; the multiples of one id add up.
fn pair_of(
    alloc: Global,
    one: &(u16, i64),
    other: &(u16, i64),
) -> Result<Seq<(u16, i64)>, AllocError>
    ensures { IfOk result (λ ids. ids ≡ pair_of one.now other.now) }
{
    if one.0 < other.0 {
        return two(alloc, one, other);
    }
    if other.0 < one.0 {
        return two(alloc, other, one);
    }
    match sum(&one.1, &other.1) {
        Some(times) => alone(alloc, one.0, &times),
        None => Err(AllocError),
    }
}

/// At most two ids in their order.
fn joined(alloc: Global, ids: &[(u16, i64)]) -> Result<Seq<(u16, i64)>, AllocError>
    ensures { IfOk result (λ list. list ≡ joined ids.now) }
{
    match ids {
        [one, other] => pair_of(alloc, one, other),
        _ => Seq::from_slice(alloc, ids),
    }
}

/// The form of a cut that has these slots.
fn form_of(
    alloc: Global,
    cut: u32,
    slots: &[SlotForm],
    size: bool,
    parts: &[(Place, i64)],
    constant: &i64,
) -> Result<CutForm, AllocError>
    ensures { IfOk result (λ form. form ≡ form_of cut slots.now size parts.now constant.now) }
{
    let ids = ids_at(alloc, slots, size, parts)?;
    let multiples = joined(alloc, ids.as_slice())?;
    if size {
        Ok(CutForm {
            cut,
            constant: *constant,
            ints: Seq::new(alloc),
            sizes: multiples,
        })
    } else {
        Ok(CutForm {
            cut,
            constant: *constant,
            ints: multiples,
            sizes: Seq::new(alloc),
        })
    }
}

/// The forms of these cuts.
fn forms_over(
    alloc: Global,
    rules: &[PathRule],
    size: bool,
    parts: &[(Place, i64)],
    constant: &i64,
    cuts: &[u32],
) -> Result<Seq<CutForm>, AllocError>
    ensures { IfOk result (λ forms. forms ≡ forms_over rules.now size parts.now constant.now cuts.now) }
{
    let mut forms = Seq::new(alloc);
    for cut in cuts {
        let slots = slots_for(rules, *cut);
        forms.push(form_of(alloc, *cut, slots, size, parts, constant)?)?;
    }
    Ok(forms)
}

/// The form of each cut of the rules: multiples of what stands at at most two places, and a constant. A place without a slot of the
/// kind at a cut is left out there; more than two multiples stand in the order of the parts, each id as often as it comes.
///
/// # Errors
///
/// Want of memory, which also answers a number of more than 64 bits.
pub fn forms_of(
    alloc: Global,
    rules: &[PathRule],
    size: bool,
    parts: &[(Place, i64)],
    constant: &i64,
) -> Result<Seq<CutForm>, AllocError>
    ensures { IfOk result (λ forms. (cuts : List ℕ) × AreCuts rules.now cuts
        × (forms ≡ forms_over rules.now size parts.now constant.now cuts)) }
{
    let cuts = cuts_of(alloc, rules)?;
    forms_over(alloc, rules, size, parts, constant, cuts.as_slice())
}
