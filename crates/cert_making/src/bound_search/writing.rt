//! The text of a bound.
use bound_text::{BoundEntry, BoundRule};
use descent::CutForm;
use list_views::Seq;
use std::alloc::{AllocError, Global};

/// Puts a whole number.
fn put_number(alloc: Global, text: &mut Seq<u8>, number: i64) -> Result<(), AllocError> {
    let digits = format!(in alloc; "{number}")?;
    text.extend_from_slice(digits.as_bytes())
}

/// Puts a comma, but before the first item.
fn put_comma(text: &mut Seq<u8>, n: usize) -> Result<(), AllocError> {
    if n > 0 {
        text.extend_from_slice(b",")?;
    }
    Ok(())
}

/// Puts a pair of numbers.
fn put_pair(alloc: Global, text: &mut Seq<u8>, one: u32, other: i64) -> Result<(), AllocError> {
    text.extend_from_slice(b"[")?;
    put_number(alloc, text, i64::from(one))?;
    text.extend_from_slice(b",")?;
    put_number(alloc, text, other)?;
    text.extend_from_slice(b"]")
}

/// Puts multiples of ids.
fn put_multiples(
    alloc: Global,
    text: &mut Seq<u8>,
    entries: &[(u16, i64)],
) -> Result<(), AllocError> {
    text.extend_from_slice(b"[")?;
    for (n, (id, times)) in entries.iter().enumerate() {
        put_comma(text, n)?;
        put_pair(alloc, text, u32::from(*id), *times)?;
    }
    text.extend_from_slice(b"]")
}

/// Puts multipliers of rows.
fn put_multipliers(
    alloc: Global,
    text: &mut Seq<u8>,
    entries: &[(u32, i64)],
) -> Result<(), AllocError> {
    text.extend_from_slice(b"[")?;
    for (n, (row, times)) in entries.iter().enumerate() {
        put_comma(text, n)?;
        put_pair(alloc, text, *row, *times)?;
    }
    text.extend_from_slice(b"]")
}

/// Puts the form of a cut.
fn put_form(alloc: Global, text: &mut Seq<u8>, form: &CutForm) -> Result<(), AllocError> {
    text.extend_from_slice(b"[")?;
    put_number(alloc, text, i64::from(form.cut))?;
    text.extend_from_slice(b",")?;
    put_number(alloc, text, form.constant)?;
    text.extend_from_slice(b",")?;
    put_multiples(alloc, text, form.ints.as_slice())?;
    text.extend_from_slice(b",")?;
    put_multiples(alloc, text, form.sizes.as_slice())?;
    text.extend_from_slice(b"]")
}

/// Puts a rule with its multipliers.
fn put_rule(alloc: Global, text: &mut Seq<u8>, rule: &BoundRule) -> Result<(), AllocError> {
    text.extend_from_slice(b"[")?;
    put_number(alloc, text, i64::from(rule.rule))?;
    text.extend_from_slice(b",")?;
    put_multipliers(alloc, text, rule.fall.as_slice())?;
    text.extend_from_slice(b"]")
}

/// Puts an entry.
fn put_entry(alloc: Global, text: &mut Seq<u8>, entry: &BoundEntry) -> Result<(), AllocError> {
    text.extend_from_slice(b"[")?;
    put_number(alloc, text, i64::from(entry.step))?;
    text.extend_from_slice(b",[")?;
    for (n, form) in entry.forms.as_slice().iter().enumerate() {
        put_comma(text, n)?;
        put_form(alloc, text, form)?;
    }
    text.extend_from_slice(b"],[")?;
    for (n, rule) in entry.rules.as_slice().iter().enumerate() {
        put_comma(text, n)?;
        put_rule(alloc, text, rule)?;
    }
    text.extend_from_slice(b"]]")
}

/// The text of a bound with these entries, and a newline.
///
/// # Errors
///
/// Want of memory.
pub(crate) fn text_of(alloc: Global, entries: &[BoundEntry]) -> Result<Seq<u8>, AllocError> {
    let mut text = Seq::from_slice(alloc, b"{\"form\":1,\"ranks\":[")?;
    for (n, entry) in entries.iter().enumerate() {
        put_comma(&mut text, n)?;
        put_entry(alloc, &mut text, entry)?;
    }
    text.extend_from_slice(b"]}\n")?;
    Ok(text)
}
