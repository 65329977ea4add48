//! Numbers, words and flags of JSON values as they stand in the cases of tables.

use anyhow::{Context, Result, bail};
use json_view::{View, parse};
use list_views::Seq;
use serde_json::Value;
use std::alloc::Global;

/// The value that a text of JSON says.
pub fn value(alloc: Global, text: &str) -> Result<Value> {
    parse(alloc, text.as_bytes()).ok().context("JSON is wanted")
}

/// The number of items of a list.
pub fn count(alloc: Global, list: &View<'_, '_>) -> Result<usize> {
    list.items(alloc).ok().context("a list is wanted")
}

/// The item `n` of a list.
pub fn item<'v, 'q>(alloc: Global, list: &'q View<'v, '_>, n: usize) -> Result<View<'v, 'q>> {
    match list.items(alloc) {
        Ok(count) if n < count => Ok(list.item(n)),
        _ => bail!("a longer list is wanted"),
    }
}

/// The item `n` of a list as a number.
pub fn integer(alloc: Global, list: &View<'_, '_>, n: usize) -> Result<i64> {
    let inner = item(alloc, list, n)?;
    inner
        .int(alloc, i64::MIN, i64::MAX)
        .ok()
        .context("a number is wanted")
}

/// The item `n` of a list as an int of the machine.
pub fn int(alloc: Global, list: &View<'_, '_>, n: usize) -> Result<i32> {
    i32::try_from(integer(alloc, list, n)?)
        .ok()
        .context("an int is wanted")
}

/// The item `n` of a list as a number of 32 bits.
pub fn natural(alloc: Global, list: &View<'_, '_>, n: usize) -> Result<u32> {
    u32::try_from(integer(alloc, list, n)?)
        .ok()
        .context("the number is too large")
}

/// The item `n` of a list as an id.
pub fn id(alloc: Global, list: &View<'_, '_>, n: usize) -> Result<u16> {
    u16::try_from(integer(alloc, list, n)?)
        .ok()
        .context("the id is too large")
}

/// The item `n` of a list as a word.
pub fn word<'v>(alloc: Global, list: &View<'v, '_>, n: usize) -> Result<&'v str> {
    let inner = item(alloc, list, n)?;
    inner.text(alloc).ok().context("a word is wanted")
}

/// The item `n` of a list as a flag.
pub fn flag(alloc: Global, list: &View<'_, '_>, n: usize) -> Result<bool> {
    let inner = item(alloc, list, n)?;
    inner.flag(alloc).ok().context("a flag is wanted")
}

/// The field `name` of an object.
pub fn field<'v, 'q>(
    alloc: Global,
    object: &'q View<'v, '_>,
    name: &'q str,
) -> Result<View<'v, 'q>> {
    object.field(alloc, name).ok().context("a field is wanted")
}

/// The field `name` of an object as a number.
pub fn number(alloc: Global, object: &View<'_, '_>, name: &str) -> Result<i64> {
    let inner = field(alloc, object, name)?;
    inner
        .int(alloc, i64::MIN, i64::MAX)
        .ok()
        .context("a number is wanted")
}

/// The item `n` of a list as a list of numbers.
pub fn naturals(alloc: Global, list: &View<'_, '_>, n: usize) -> Result<Seq<u32>> {
    naturals_of(alloc, &item(alloc, list, n)?)
}

/// A list of numbers.
pub fn naturals_of(alloc: Global, list: &View<'_, '_>) -> Result<Seq<u32>> {
    let mut numbers = Seq::new(alloc);
    for n in 0..count(alloc, list)? {
        numbers.push(natural(alloc, list, n)?)?;
    }
    Ok(numbers)
}

/// A list of pairs of ids.
pub fn id_pairs(alloc: Global, list: &View<'_, '_>) -> Result<Seq<(u16, u16)>> {
    let mut pairs = Seq::new(alloc);
    for n in 0..count(alloc, list)? {
        pairs.push(id_pair(alloc, &item(alloc, list, n)?)?)?;
    }
    Ok(pairs)
}

fn id_pair(alloc: Global, pair: &View<'_, '_>) -> Result<(u16, u16)> {
    Ok((id(alloc, pair, 0)?, id(alloc, pair, 1)?))
}
