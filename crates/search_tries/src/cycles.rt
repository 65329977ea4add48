//! Cycles whose lengths together are below 0: what they say of their variables contradicts itself.
use crate::edges::Edge;
use crate::numbers::number_of;
use list_views::Seq;
use std::alloc::{AllocError, Global};

/// How often all edges are looked at, there and back.
const ROUNDS: usize = 20;

/// The least length found to each variable, and the edge by which it was found.
#[derive(Drop)]
struct Found {
    best: Vec<i64>,
    by: Vec<Option<u32>>,
}

/// Takes an edge that leads to less than was found. Whether it does.
fn relax(found: &mut Found, edges: &[Edge], number: usize) -> bool {
    let Some(edge) = edges.get(number) else {
        return false;
    };
    let (from, to) = (edge.from as usize, edge.to as usize);
    if from == to || from >= found.best.len() || to >= found.best.len() || to >= found.by.len() {
        return false;
    }
    let there = found.best[from].wrapping_add(edge.length);
    if there < found.best[to] {
        found.best[to] = there;
        found.by[to] = Some(number_of(number));
        true
    } else {
        false
    }
}

/// Takes all edges, in their order and back. Whether something changed.
fn round(found: &mut Found, edges: &[Edge]) -> bool {
    let mut changed = false;
    for number in 0..edges.len() {
        if relax(found, edges, number) {
            changed = true;
        }
    }
    for number in (0..edges.len()).rev() {
        if relax(found, edges, number) {
            changed = true;
        }
    }
    changed
}

/// The edge by which a variable was found.
fn edge_to<'a>(found: &Found, edges: &'a [Edge], variable: u32) -> Option<(u32, &'a Edge)> {
    let place = variable as usize;
    if place >= found.by.len() {
        return None;
    }
    let number = found.by[place]?;
    let edge = edges.get(number as usize)?;
    Some((number, edge))
}

/// A variable on a cycle of the edges by which variables were found, which lead back from a variable. Marks say from where a variable
/// was met first.
fn on_cycle(found: &Found, edges: &[Edge], start: u32, marks: &mut Vec<u32>) -> Option<u32> {
    let mut at = start;
    for _ in 0..edges.len() {
        let place = at as usize;
        if place >= marks.len() {
            return None;
        }
        if marks[place] == start {
            return Some(at);
        }
        if marks[place] != u32::MAX {
            return None;
        }
        marks[place] = start;
        let (_, edge) = edge_to(found, edges, at)?;
        at = edge.from;
    }
    None
}

/// The edges around the cycle on which a variable is, by their numbers.
fn around(
    alloc: Global,
    found: &Found,
    edges: &[Edge],
    start: u32,
) -> Result<Option<Seq<u32>>, AllocError> {
    let mut cycle = Seq::new(alloc);
    let mut at = start;
    for _ in 0..edges.len() {
        let Some((number, edge)) = edge_to(found, edges, at) else {
            return Ok(None);
        };
        cycle.push(number)?;
        at = edge.from;
        if at == start {
            return Ok(Some(cycle));
        }
    }
    Ok(None)
}

/// A cycle of the edges by which variables were found.
fn cycle_in(
    alloc: Global,
    found: &Found,
    edges: &[Edge],
    count: u32,
) -> Result<Option<Seq<u32>>, AllocError> {
    let mut marks = vec![in alloc; u32::MAX; count as usize]?;
    for start in 0..count {
        if let Some(at) = on_cycle(found, edges, start, &mut marks) {
            return around(alloc, found, edges, at);
        }
    }
    Ok(None)
}

/// An edge that leads back at once, and is shorter than 0.
fn at_once(alloc: Global, edges: &[Edge]) -> Result<Option<Seq<u32>>, AllocError> {
    for (number, edge) in edges.iter().enumerate() {
        if edge.from == edge.to && edge.length < 0 {
            return Ok(Some(Seq::from_slice(alloc, &[number_of(number)])?));
        }
    }
    Ok(None)
}

/// Edges around a cycle whose lengths together are below 0, by their numbers; variables are below a count.
pub(crate) fn falling_cycle(
    alloc: Global,
    edges: &[Edge],
    count: u32,
) -> Result<Option<Seq<u32>>, AllocError> {
    if let Some(cycle) = at_once(alloc, edges)? {
        return Ok(Some(cycle));
    }
    let mut found = Found {
        best: vec![in alloc; 0; count as usize]?,
        by: vec![in alloc; None; count as usize]?,
    };
    for _ in 0..ROUNDS {
        if !round(&mut found, edges) {
            return Ok(None);
        }
        if let Some(cycle) = cycle_in(alloc, &found, edges, count)? {
            return Ok(Some(cycle));
        }
    }
    Ok(None)
}
