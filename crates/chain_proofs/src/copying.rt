//! The rules of a set, as values of their own, and with their cuts.
ghost use Rattle.std.specs.Prelude.{◌≡◌, ◌<◌, All, IfOk, Some, length, slice_get};
ghost use Rattle.chain_proofs.specs.Sets.{AreOwn};
ghost use Rattle.chain_proofs.specs.inner.Sets.{IsLeftOf, AreLeft};

use crate::proving::LeftRule;
use descent::{PathRule, SlotForm, WRow};
use list_views::Seq;
use std::alloc::{AllocError, Global};

/// The same row.
fn copied_row(alloc: Global, row: &WRow) -> Result<WRow, AllocError>
    ensures { IfOk result (λ copy. copy ≡ row.now) }
{
    Ok(WRow {
        kind: row.kind,
        terms: Seq::from_slice(alloc, row.terms.as_slice())?,
        constant: row.constant,
        weights: Seq::from_slice(alloc, row.weights.as_slice())?,
    })
}

/// The same rows.
fn copied_rows(alloc: Global, rows: &[WRow]) -> Result<Seq<WRow>, AllocError>
    ensures { IfOk result (λ copy. copy ≡ rows.now) }
{
    let mut copy = Seq::with_capacity(alloc, rows.len())?;
    for row in rows {
        copy.push(copied_row(alloc, row)?)?;
    }
    Ok(copy)
}

/// The same slot.
fn copied_slot(alloc: Global, slot: &SlotForm) -> Result<SlotForm, AllocError>
    ensures { IfOk result (λ copy. copy ≡ slot.now) }
{
    Ok(SlotForm {
        id: slot.id,
        size: slot.size,
        places: Seq::from_slice(alloc, slot.places.as_slice())?,
        terms: Seq::from_slice(alloc, slot.terms.as_slice())?,
        constant: slot.constant,
        weights: Seq::from_slice(alloc, slot.weights.as_slice())?,
    })
}

/// The same slots.
fn copied_slots(alloc: Global, slots: &[SlotForm]) -> Result<Seq<SlotForm>, AllocError>
    ensures { IfOk result (λ copy. copy ≡ slots.now) }
{
    let mut copy = Seq::with_capacity(alloc, slots.len())?;
    for slot in slots {
        copy.push(copied_slot(alloc, slot)?)?;
    }
    Ok(copy)
}

/// The same rule.
fn copied_rule(alloc: Global, rule: &PathRule) -> Result<PathRule, AllocError>
    ensures { IfOk result (λ copy. copy ≡ rule.now) }
{
    Ok(PathRule {
        from: rule.from,
        to: rule.to,
        vars: rule.vars,
        rows: copied_rows(alloc, rule.rows.as_slice())?,
        first: copied_slots(alloc, rule.first.as_slice())?,
        last: copied_slots(alloc, rule.last.as_slice())?,
    })
}

/// The rule of a number.
fn rule_at(rules: &[PathRule], number: u32) -> &PathRule
    requires { number < length rules.now }
    ensures { slice_get rules.now number ≡ Some result.now }
{
    &rules[number as usize]
}

/// The rules of these numbers.
///
/// # Errors
///
/// Want of memory.
pub(crate) fn own_rules(
    alloc: Global,
    rules: &[PathRule],
    set: &[u32],
) -> Result<Seq<PathRule>, AllocError>
    requires { All (λ number. number < length rules.now) set.now }
    ensures { IfOk result (AreOwn rules.now set.now) }
{
    let mut own = Seq::with_capacity(alloc, set.len())?;
    for number in set {
        own.push(copied_rule(alloc, rule_at(rules, *number))?)?;
    }
    Ok(own)
}

/// A rule by its number, with its cuts.
fn left_rule(rules: &[PathRule], number: u32) -> LeftRule
    requires { number < length rules.now }
    ensures { IsLeftOf rules.now number result }
{
    let found = rule_at(rules, number);
    LeftRule {
        rule: number,
        from: found.from,
        to: found.to,
    }
}

/// The rules of a set with their cuts.
///
/// # Errors
///
/// Want of memory.
pub(crate) fn left_rules(
    alloc: Global,
    rules: &[PathRule],
    set: &[u32],
) -> Result<Seq<LeftRule>, AllocError>
    requires { All (λ number. number < length rules.now) set.now }
    ensures { IfOk result (AreLeft rules.now set.now) }
{
    let mut left = Seq::with_capacity(alloc, set.len())?;
    for number in set {
        left.push(left_rule(rules, *number))?;
    }
    Ok(left)
}
