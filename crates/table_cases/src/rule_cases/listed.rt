//! Rules as they stand in a case.
use crate::json_cases::{count, id, integer, item, natural, word};
use crate::rule_cases::reading::pairs;
use anyhow::{Result, bail};
use descent::{PathRule, Place, RowKind, SlotForm, WRow};
use json_view::View;
use list_views::Seq;
use std::alloc::Global;

/// A list of rules.
pub fn rules(alloc: Global, list: &View<'_, '_>) -> Result<Vec<PathRule>> {
    let mut rules = Vec::new(alloc);
    for n in 0..count(alloc, list)? {
        rules.push(rule(alloc, &item(alloc, list, n)?)?)?;
    }
    Ok(rules)
}

/// Rules of which the case has the cuts alone.
pub fn ends(alloc: Global, list: &View<'_, '_>) -> Result<Vec<PathRule>> {
    let mut rules = Vec::new(alloc);
    for n in 0..count(alloc, list)? {
        rules.push(rule_of_ends(alloc, &item(alloc, list, n)?)?)?;
    }
    Ok(rules)
}

fn rule_of_ends(alloc: Global, pair: &View<'_, '_>) -> Result<PathRule> {
    let from = natural(alloc, pair, 0)?;
    let to = natural(alloc, pair, 1)?;
    Ok(PathRule {
        from,
        to,
        vars: 0,
        rows: Seq::new(alloc),
        first: Seq::new(alloc),
        last: Seq::new(alloc),
    })
}

fn rule(alloc: Global, parts: &View<'_, '_>) -> Result<PathRule> {
    Ok(PathRule {
        from: natural(alloc, parts, 0)?,
        to: natural(alloc, parts, 1)?,
        vars: natural(alloc, parts, 2)?,
        rows: rows(alloc, &item(alloc, parts, 3)?)?,
        first: slots(alloc, &item(alloc, parts, 4)?)?,
        last: slots(alloc, &item(alloc, parts, 5)?)?,
    })
}

fn rows(alloc: Global, list: &View<'_, '_>) -> Result<Seq<WRow>> {
    let mut rows = Seq::new(alloc);
    for n in 0..count(alloc, list)? {
        rows.push(row(alloc, &item(alloc, list, n)?)?)?;
    }
    Ok(rows)
}

fn row(alloc: Global, parts: &View<'_, '_>) -> Result<WRow> {
    let kind = match word(alloc, parts, 0)? {
        ">=" => RowKind::AtLeastZero,
        "=" => RowKind::IsZero,
        _ => bail!("the kind of a row is wanted"),
    };
    let (constant, terms, weights) = sum(alloc, parts, 1)?;
    Ok(WRow {
        kind,
        terms,
        constant,
        weights,
    })
}

/// The terms in the item `n`, the constant and the weights behind them; the constant first.
fn sum(
    alloc: Global,
    parts: &View<'_, '_>,
    n: u8,
) -> Result<(i64, Seq<(u32, i64)>, Seq<(u32, i64)>)> {
    let constant = integer(alloc, parts, usize::from(n) + 1)?;
    let terms = pairs(alloc, parts, usize::from(n))?;
    let weights = pairs(alloc, parts, usize::from(n) + 2)?;
    Ok((constant, terms, weights))
}

fn slots(alloc: Global, list: &View<'_, '_>) -> Result<Seq<SlotForm>> {
    let mut slots = Seq::new(alloc);
    for n in 0..count(alloc, list)? {
        slots.push(slot(alloc, &item(alloc, list, n)?)?)?;
    }
    Ok(slots)
}

fn slot(alloc: Global, parts: &View<'_, '_>) -> Result<SlotForm> {
    let id = id(alloc, parts, 0)?;
    let size = word(alloc, parts, 1)? == "size";
    let places = places(alloc, &item(alloc, parts, 2)?)?;
    let (constant, terms, weights) = sum(alloc, parts, 3)?;
    Ok(SlotForm {
        id,
        size,
        places,
        terms,
        constant,
        weights,
    })
}

fn places(alloc: Global, list: &View<'_, '_>) -> Result<Seq<Place>> {
    let mut places = Seq::new(alloc);
    for n in 0..count(alloc, list)? {
        places.push(place(alloc, &item(alloc, list, n)?)?)?;
    }
    Ok(places)
}

fn place(alloc: Global, parts: &View<'_, '_>) -> Result<Place> {
    Ok(Place {
        frame: natural(alloc, parts, 0)?,
        stack: word(alloc, parts, 1)? == "stack",
        index: natural(alloc, parts, 2)?,
    })
}
