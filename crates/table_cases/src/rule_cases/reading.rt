//! Lists of pairs as they stand in a case.
use crate::json_cases::{count, id, integer, item, natural};
use anyhow::Result;
use json_view::View;
use list_views::Seq;
use std::alloc::Global;

/// The item `n` of a list as a list of pairs of a number and a coefficient.
pub fn pairs(alloc: Global, list: &View<'_, '_>, n: usize) -> Result<Seq<(u32, i64)>> {
    let inner = item(alloc, list, n)?;
    let mut pairs = Seq::new(alloc);
    for k in 0..count(alloc, &inner)? {
        pairs.push(pair(alloc, &item(alloc, &inner, k)?)?)?;
    }
    Ok(pairs)
}

/// The item `n` of a list as a list of pairs of an id and a coefficient.
pub fn multiples(alloc: Global, list: &View<'_, '_>, n: usize) -> Result<Seq<(u16, i64)>> {
    let inner = item(alloc, list, n)?;
    let mut pairs = Seq::new(alloc);
    for k in 0..count(alloc, &inner)? {
        pairs.push(multiple(alloc, &item(alloc, &inner, k)?)?)?;
    }
    Ok(pairs)
}

fn pair(alloc: Global, parts: &View<'_, '_>) -> Result<(u32, i64)> {
    Ok((natural(alloc, parts, 0)?, integer(alloc, parts, 1)?))
}

fn multiple(alloc: Global, parts: &View<'_, '_>) -> Result<(u16, i64)> {
    Ok((id(alloc, parts, 0)?, integer(alloc, parts, 1)?))
}
