//! Rules and faults as answers.
use anyhow::{Result, bail};
use descent::{PathRule, Place, RowKind, SlotForm, WRow};
use path_rules::PathFault;
use std::alloc::{AllocError, Global};
use table_cases::{numbered, put_numbered, said};

/// What is first in the way of rules.
pub fn fault_text(alloc: Global, fault: PathFault) -> Result<String> {
    match fault {
        PathFault::Uncut { node } => Ok(numbered(alloc, "Uncut node=", i64::from(node))?),
        PathFault::TooManyPaths => said(alloc, "TooManyPaths"),
        PathFault::TooManyRows { path } => {
            Ok(numbered(alloc, "TooManyRows path=", i64::from(path))?)
        }
        PathFault::Memory => bail!("memory is wanting"),
    }
}

/// Rules as JSON without spaces.
pub fn rules_text(alloc: Global, rules: &[PathRule]) -> Result<String, AllocError> {
    let mut text = String::from_str(alloc, "OK [")?;
    for (n, rule) in rules.iter().enumerate() {
        put_rule(&mut text, bracket_before(n), rule)?;
    }
    text.push(']')?;
    Ok(text)
}

/// The bracket that opens an item, behind a comma for each item but the first.
fn bracket_before(n: usize) -> &'static str {
    if n > 0 { ",[" } else { "[" }
}

fn put_rule(text: &mut String, head: &str, rule: &PathRule) -> Result<(), AllocError> {
    put_numbered(text, head, i64::from(rule.from))?;
    put_numbered(text, ",", i64::from(rule.to))?;
    put_numbered(text, ",", i64::from(rule.vars))?;
    put_rows(text, rule.rows.as_slice())?;
    put_slots(text, rule.first.as_slice())?;
    put_slots(text, rule.last.as_slice())?;
    text.push(']')
}

/// A comma and the rows.
fn put_rows(text: &mut String, rows: &[WRow]) -> Result<(), AllocError> {
    text.push_str(",[")?;
    for (n, row) in rows.iter().enumerate() {
        put_row(text, bracket_before(n), row)?;
    }
    text.push(']')
}

fn put_row(text: &mut String, head: &str, row: &WRow) -> Result<(), AllocError> {
    text.push_str(head)?;
    put_sum(
        text,
        kind_word(row.kind),
        row.terms.as_slice(),
        row.constant,
        row.weights.as_slice(),
    )?;
    text.push(']')
}

/// The word of a kind of rows, with the bracket behind it that opens the row's terms.
fn kind_word(kind: RowKind) -> &'static str {
    match kind {
        RowKind::AtLeastZero => "\">=\",[",
        RowKind::IsZero => "\"=\",[",
    }
}

/// A head, which ends with the bracket that opens the terms; the terms, a constant and weights.
fn put_sum(
    text: &mut String,
    head: &str,
    terms: &[(u32, i64)],
    constant: i64,
    weights: &[(u32, i64)],
) -> Result<(), AllocError> {
    put_pairs(text, head, terms)?;
    put_numbered(text, ",", constant)?;
    put_pairs(text, ",[", weights)
}

fn put_pairs(text: &mut String, head: &str, pairs: &[(u32, i64)]) -> Result<(), AllocError> {
    text.push_str(head)?;
    for (n, (name, number)) in pairs.iter().enumerate() {
        put_pair(text, bracket_before(n), *name, *number)?;
    }
    text.push(']')
}

fn put_pair(text: &mut String, head: &str, name: u32, number: i64) -> Result<(), AllocError> {
    put_numbered(text, head, i64::from(name))?;
    put_numbered(text, ",", number)?;
    text.push(']')
}

/// A comma and the slots.
fn put_slots(text: &mut String, slots: &[SlotForm]) -> Result<(), AllocError> {
    text.push_str(",[")?;
    for (n, slot) in slots.iter().enumerate() {
        put_slot(text, bracket_before(n), slot)?;
    }
    text.push(']')
}

fn put_slot(text: &mut String, head: &str, slot: &SlotForm) -> Result<(), AllocError> {
    put_numbered(text, head, i64::from(slot.id))?;
    put_places(text, size_word(slot.size), slot.places.as_slice())?;
    put_sum(
        text,
        ",[",
        slot.terms.as_slice(),
        slot.constant,
        slot.weights.as_slice(),
    )?;
    text.push(']')
}

/// What a slot counts, with the bracket behind it that opens the slot's places.
fn size_word(size: bool) -> &'static str {
    if size { ",\"size\",[" } else { ",\"int\",[" }
}

fn put_places(text: &mut String, head: &str, places: &[Place]) -> Result<(), AllocError> {
    text.push_str(head)?;
    for (n, place) in places.iter().enumerate() {
        put_place(text, bracket_before(n), place)?;
    }
    text.push(']')
}

fn put_place(text: &mut String, head: &str, place: &Place) -> Result<(), AllocError> {
    let kind = if place.stack {
        ",\"stack\","
    } else {
        ",\"local\","
    };
    put_numbered(text, head, i64::from(place.frame))?;
    put_numbered(text, kind, i64::from(place.index))?;
    text.push(']')
}
