//! The most steps between cuts: on a path from a cut to the next one, or on a way from a cut to an End node.
ghost use Rattle.std.specs.Prelude.{◌≡◌, ◌≤◌, ◌<◌, ◌+◌, ◌-◌, ◌^◌, map, All, IfOk, IsTrue, length, pred, slice_get, slice_index_or, false};
ghost use Rattle.number_graphs.specs.Lists.{Fall};
ghost use Rattle.path_rules.specs.Successors.{inner_row, most_of};
ghost use Rattle.bound_check.specs.Bounds.{step_of_link, IsMostSteps};
ghost use Rattle.bound_check.specs.inner.Walking.{is_end, ends_of, greater, onward, over, best_on, links_of, steps_here, most_of_node};
ghost use Rattle.bound_check.specs.inner.Walking.{next_most, AreRight};
ghost use Rattle.bound_check.specs.inner.Walking.{most_from};

use crate::parts::added;
use abs_cells::Pairs;
use list_views::Seq;
use number_graphs::{Ranking, rank};
use path_rules::{cut_marks, has_mark, inner_lists, successor_lists};
use std::alloc::{AllocError, Global};
use term_graph::{By, Link, Links, NodeSource};

// ---- a graph as lists

/// Whether a run ends with the next step.
fn is_end(by: &By) -> bool
    ensures { result ≡ is_end by.now }
{
    match by {
        By::End => true,
        By::Expand(_) | By::Instance { .. } | By::Todo => false,
    }
}

/// Whether each node is an End node.
#[tactic(auto, using(crate::proofs::Ending::one_ended, crate::proofs::Ending::all_ended))]
fn end_marks<P: Pairs, S: NodeSource<P>>(
    alloc: Global,
    source: &mut S,
) -> Result<Seq<bool>, AllocError>
    ensures ends { IfOk result (λ ends. ends ≡ ends_of (S.graph source.old)) }
    ensures same { S.graph source.new ≡ S.graph source.old }
{
    let mut ends = Seq::new(alloc);
    for n in 0..source.count() {
        let by = source.by(alloc, n)?;
        ends.push(is_end(&by))?;
    }
    Ok(ends)
}

// ---- steps. A number of steps is kept with one added; it is 0 where no way leads on.

/// The number of a node; nodes past the end have 0.
fn most_at(most: &[u64], node: u32) -> u64
    ensures { result ≡ slice_index_or most.now node 0 }
{
    match most.get(node as usize) {
        Some(steps) => *steps,
        None => 0,
    }
}

/// 1 for an edge that is a step of the machine.
fn step_at(own: &[Link], place: usize) -> u64
    ensures { result ≡ step_of_link (slice_get own.now place) }
{
    match own.get(place) {
        Some(link) => { if link.step { 1 } else { 0 } }
        None => 0,
    }
}

/// So many steps more, where a way leads on.
fn onward(rest: u64, step: u64) -> Result<u64, AllocError>
    ensures { IfOk result (λ steps. steps ≡ onward rest step) }
{
    if rest == 0 { Ok(0) } else { added(rest, step) }
}

/// The most steps over an edge to a node.
fn over(marks: &[bool], most: &[u64], to: u32, step: u64) -> Result<u64, AllocError>
    ensures { IfOk result (λ steps. steps ≡ over marks.now most.now to step) }
{
    if has_mark(marks, to) {
        onward(1, step)
    } else {
        onward(most_at(most, to), step)
    }
}

/// The greater of two numbers.
fn greater(number: u64, other: u64) -> u64
    ensures { result ≡ greater number other }
{
    if number < other { other } else { number }
}

/// The most steps over the edges of a row, or so many as there are without an edge.
fn best_of(
    marks: &[bool],
    most: &[u64],
    own: &[Link],
    none: u64,
    row: &[u32],
) -> Result<u64, AllocError>
    ensures { IfOk result (λ best. best ≡ best_on marks.now most.now own.now 0 none row.now) }
{
    let mut best = none;
    for (place, to) in row.iter().enumerate() {
        let here = over(marks, most, *to, step_at(own, place))?;
        best = greater(best, here);
    }
    Ok(best)
}

/// The links of a node.
fn links_of(links: &Links, node: usize) -> &[Link]
    ensures { result.now ≡ links_of links.now.nodes node }
{
    match links.nodes.get(node) {
        Some(own) => own.as_slice(),
        None => &[],
    }
}

/// The steps without an edge: none at an End node, and no way elsewhere.
fn steps_here(ends: &[bool], node: usize) -> u64
    ensures { result ≡ steps_here ends.now node }
{
    match ends.get(node) {
        Some(end) => { if *end { 1 } else { 0 } }
        None => 0,
    }
}

/// The most steps of a node, from those of the nodes that it leads to.
fn most_of_node(
    marks: &[bool],
    ends: &[bool],
    links: &Links,
    most: &[u64],
    node: usize,
    row: &[u32],
) -> Result<u64, AllocError>
    ensures { IfOk result
        (λ best. best ≡ most_of_node marks.now ends.now links.now.nodes most.now node row.now) }
{
    best_of(
        marks,
        most,
        links_of(links, node),
        steps_here(ends, node),
        row,
    )
}

/// The most steps of all nodes that follow from others.
fn next_most(
    alloc: Global,
    lists: &[Seq<u32>],
    marks: &[bool],
    ends: &[bool],
    links: &Links,
    most: &[u64],
) -> Result<Seq<u64>, AllocError>
    ensures { IfOk result
        (λ next. next ≡ next_most marks.now ends.now links.now.nodes most.now 0 lists.now) }
{
    let mut next = Seq::new(alloc);
    for (n, row) in lists.iter().enumerate() {
        next.push(most_of_node(marks, ends, links, most, n, row.as_slice())?)?;
    }
    Ok(next)
}

/// Whether two lists of numbers are the same.
fn are_same(most: &[u64], others: &[u64]) -> bool
    ensures { IsTrue result → most.now ≡ others.now }
{
    most == others
}

/// One more than the greatest rank.
fn above(ranks: &[u32]) -> u64
    ensures { result ≡ most_of 0 ranks.now + 1 }
{
    let mut most: u32 = 0;
    for rank in ranks {
        if most < *rank {
            most = *rank;
        }
    }
    most as u64 + 1
}

/// The nodes in the order of their ranks, where these are the numbers from 1 on. Nothing is claimed of it.
fn order(alloc: Global, ranks: &[u32]) -> Result<Vec<u32>, AllocError> {
    let mut order = vec![in alloc; 0; ranks.len()]?;
    let mut node: u32 = 0;
    for rank in ranks {
        let place = *rank as usize;
        if place > 0 && place <= order.len() {
            order[place - 1] = node;
        }
        node = node.saturating_add(1);
    }
    Ok(order)
}

/// The most steps of each node, each found once, in the order of ranks. Nothing is claimed of them: they are tested.
fn quick_most(
    alloc: Global,
    lists: &[Seq<u32>],
    marks: &[bool],
    ends: &[bool],
    links: &Links,
    ranks: &[u32],
) -> Result<Seq<u64>, AllocError> {
    let mut most = vec![in alloc; 0; lists.len()]?;
    for node in order(alloc, ranks)? {
        let place = node as usize;
        if place < lists.len() && place < most.len() {
            let row = lists[place].as_slice();
            most[place] = most_of_node(marks, ends, links, most.as_slice(), place, row)?;
        }
    }
    Ok(Seq::from_vec(most))
}

/// The most steps from each node to the next cut or to an End node, where ranks fall along the edges to nodes that are no cuts. Found
/// once in the order of ranks, they are tested by finding them again.
#[tactic(auto, using(crate::proofs::Walking::no_round, crate::proofs::Walking::one_round, crate::proofs::Walking::settled, crate::proofs::Walking::enough))]
fn most(
    alloc: Global,
    lists: &[Seq<u32>],
    marks: &[bool],
    ends: &[bool],
    links: &Links,
    ranks: &[u32],
) -> Result<Seq<u64>, AllocError>
    requires long { length ends.now ≡ length lists.now }
    requires fall { Fall (map (inner_row marks.now) lists.now) ranks.now }
    ensures { IfOk result (AreRight links.now.nodes lists.now marks.now ends.now) }
{
    let mut most = quick_most(alloc, lists, marks, ends, links, ranks)?;
    for _round in 0..above(ranks) {
        let next = next_most(alloc, lists, marks, ends, links, most.as_slice())?;
        if are_same(next.as_slice(), most.as_slice()) {
            return Ok(most);
        }
        most = next;
    }
    Ok(most)
}

/// One less than a number, or 0.
fn less(number: u64) -> u64
    ensures { result ≡ pred number }
{
    if number == 0 { 0 } else { number - 1 }
}

/// The most steps from one of the cuts.
fn most_from(most: &[u64], cuts: &[u32]) -> u64
    ensures { result ≡ most_from most.now 0 cuts.now }
{
    let mut best = 0;
    for cut in cuts {
        best = greater(best, less(most_at(most, *cut)));
    }
    best
}

/// The greatest number of steps on a path from a cut to the next one, or on a way from a cut to an End node without a further cut; 0
/// where there is neither. It costs a few steps for each edge.
///
/// # Errors
///
/// Want of memory, which also answers a graph with a cycle without a cut.
#[tactic(auto, using(path_rules::proofs::Answering::inner_short, path_rules::proofs::Answering::cuts_there, path_rules::proofs::Answering::inner_falls, crate::proofs::Longest::most_steps))]
pub(crate) fn most_steps<P: Pairs, S: NodeSource<P>>(
    alloc: Global,
    source: &mut S,
    links: &Links,
    cuts: &[u32],
) -> Result<u64, AllocError>
    requires cuts { All (λ cut. cut < length (S.graph source.old)) cuts.now }
    requires few { length (S.graph source.old) ≤ 2 ^ 32 - 16 }
    ensures most { IfOk result (λ steps. IsMostSteps (S.graph source.old) links.now.nodes cuts.now steps) }
    ensures same { S.graph source.new ≡ S.graph source.old }
{
    let lists = successor_lists(alloc, source)?;
    let ends = end_marks(alloc, source)?;
    let marks = cut_marks(alloc, lists.len(), cuts)?;
    let inner = inner_lists(alloc, marks.as_slice(), lists.as_slice())?;
    match rank(alloc, inner.as_slice())? {
        Ranking::Cycle(_) => Err(AllocError),
        Ranking::Ranks(ranks) => {
            let most = most(
                alloc,
                lists.as_slice(),
                marks.as_slice(),
                ends.as_slice(),
                links,
                ranks.as_slice(),
            )?;
            Ok(most_from(most.as_slice(), cuts))
        }
    }
}
