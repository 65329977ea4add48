//! What the rows of a rule say of the differences of two of its variables.
use crate::numbers::number_of;
use descent::{PathRule, RowKind, WRow};
use list_views::Seq;
use std::alloc::{AllocError, Global};

/// Says that one variable, less another one, plus a length is at least 0 where some rows hold, each so many times. The number behind the
/// last variable stands for 0.
#[derive(Drop)]
pub(crate) struct Edge {
    /// The variable that is taken away.
    pub(crate) from: u32,
    /// The variable that counts.
    pub(crate) to: u32,
    /// What is added.
    pub(crate) length: i64,
    /// The rows that say it, by their numbers, with how often each counts.
    pub(crate) shown: Seq<(u32, i64)>,
}

/// A bound of a variable by a row: the variable, or its negative, plus a constant is at least 0.
#[derive(Clone, Copy)]
struct Bound {
    constant: i64,
    row: u32,
}

/// The best bound of each variable from below, and from above.
#[derive(Drop)]
struct Bounds {
    low: Vec<Option<Bound>>,
    high: Vec<Option<Bound>>,
}

/// How many terms a row has at most from which edges are made.
const MOST_TERMS: usize = 4;

/// Keeps the bound that says more.
fn keep(bounds: &mut Vec<Option<Bound>>, variable: u32, bound: Bound) {
    let place = variable as usize;
    if place < bounds.len() {
        let better = match bounds[place] {
            Some(old) => bound.constant < old.constant,
            None => true,
        };
        if better {
            bounds[place] = Some(bound);
        }
    }
}

/// Keeps the bound that an inequality of one variable says.
fn keep_row(bounds: &mut Bounds, number: u32, row: &WRow) {
    if matches!(row.kind, RowKind::IsZero) || row.terms.len() != 1 {
        return;
    }
    let Some(term) = row.terms.get(0) else {
        return;
    };
    let bound = Bound {
        constant: row.constant,
        row: number,
    };
    if term.1 == 1 {
        keep(&mut bounds.low, term.0, bound);
    }
    if term.1 == -1 {
        keep(&mut bounds.high, term.0, bound);
    }
}

/// The bounds of all variables.
fn bounds_of(alloc: Global, rule: &PathRule) -> Result<Bounds, AllocError> {
    let mut bounds = Bounds {
        low: vec![in alloc; None; rule.vars as usize]?,
        high: vec![in alloc; None; rule.vars as usize]?,
    };
    for (number, row) in rule.rows.as_slice().iter().enumerate() {
        keep_row(&mut bounds, number_of(number), row);
    }
    Ok(bounds)
}

/// The bound of a variable, if it has one.
fn bound_in(bounds: &[Option<Bound>], variable: u32) -> Option<Bound> {
    let place = variable as usize;
    if place < bounds.len() {
        bounds[place]
    } else {
        None
    }
}

/// The bound that takes so many times a variable away from a sum.
fn bound_against(bounds: &Bounds, variable: u32, times: i64) -> Option<Bound> {
    if times > 0 {
        bound_in(&bounds.high, variable)
    } else {
        bound_in(&bounds.low, variable)
    }
}

/// The variables of a row that count so many times, and None for 0.
fn ends_of(
    alloc: Global,
    row: &WRow,
    sign: i64,
    times: i64,
) -> Result<Seq<Option<u32>>, AllocError> {
    let mut ends = Seq::new(alloc);
    ends.push(None)?;
    for term in row.terms.as_slice() {
        if term.1.wrapping_mul(sign) == times {
            ends.push(Some(term.0))?;
        }
    }
    Ok(ends)
}

/// What a row, or its negative, says of two variables where bounds take the others away.
fn edge_of(
    alloc: Global,
    bounds: &Bounds,
    row: &WRow,
    number: u32,
    sign: i64,
    to: Option<u32>,
    from: Option<u32>,
    zero: u32,
) -> Result<Option<Edge>, AllocError> {
    let mut shown = Seq::new(alloc);
    shown.push((number, sign))?;
    let mut length = row.constant.wrapping_mul(sign);
    for term in row.terms.as_slice() {
        let variable = term.0;
        let times = term.1.wrapping_mul(sign);
        if (to == Some(variable) && times == 1) || (from == Some(variable) && times == -1) {
            continue;
        }
        let Some(bound) = bound_against(bounds, variable, times) else {
            return Ok(None);
        };
        let often = if times > 0 {
            times
        } else {
            times.wrapping_neg()
        };
        length = length.wrapping_add(bound.constant.wrapping_mul(often));
        shown.push((bound.row, often))?;
    }
    Ok(Some(Edge {
        from: from.unwrap_or(zero),
        to: to.unwrap_or(zero),
        length,
        shown,
    }))
}

/// Adds what a row, or its negative, says.
fn add_signed(
    alloc: Global,
    edges: &mut Seq<Edge>,
    bounds: &Bounds,
    row: &WRow,
    number: u32,
    sign: i64,
    zero: u32,
) -> Result<(), AllocError> {
    let ups = ends_of(alloc, row, sign, 1)?;
    let downs = ends_of(alloc, row, sign, -1)?;
    for to in ups.as_slice() {
        for from in downs.as_slice() {
            if let Some(edge) = edge_of(alloc, bounds, row, number, sign, *to, *from, zero)? {
                edges.push(edge)?;
            }
        }
    }
    Ok(())
}

/// Adds what a row says.
fn add_row(
    alloc: Global,
    edges: &mut Seq<Edge>,
    bounds: &Bounds,
    row: &WRow,
    number: u32,
    zero: u32,
) -> Result<(), AllocError> {
    if row.terms.len() > MOST_TERMS {
        return Ok(());
    }
    add_signed(alloc, edges, bounds, row, number, 1, zero)?;
    if matches!(row.kind, RowKind::IsZero) {
        add_signed(alloc, edges, bounds, row, number, -1, zero)?;
    }
    Ok(())
}

/// What the rows of a rule say of two of its variables each.
pub(crate) fn edges_of(alloc: Global, rule: &PathRule) -> Result<Seq<Edge>, AllocError> {
    let bounds = bounds_of(alloc, rule)?;
    let mut edges = Seq::new(alloc);
    for (number, row) in rule.rows.as_slice().iter().enumerate() {
        add_row(
            alloc,
            &mut edges,
            &bounds,
            row,
            number_of(number),
            rule.vars,
        )?;
    }
    Ok(edges)
}
