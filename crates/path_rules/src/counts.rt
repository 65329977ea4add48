//! How many ways lead from each node to the next cuts.
ghost use Rattle.std.specs.Prelude.{◌≡◌, ◌+◌, map, IfOk, IsTrue, slice_index_or};
ghost use Rattle.number_graphs.specs.Lists.{Fall};
ghost use Rattle.path_rules.specs.inner.Ways.{counted, count_over, count_row, AreCounts};
ghost use Rattle.path_rules.specs.Successors.{inner_row, most_of};

use crate::limits::MOST_PATHS;
use crate::successors::has_mark;
use list_views::Seq;
use std::alloc::{AllocError, Global};

/// One more than the paths that there may be. Numbers of ways are counted up to it.
pub(crate) const TOO_MANY: u32 = MOST_PATHS + 1;

/// The sum of two numbers, counted up to `TOO_MANY`.
pub(crate) fn added(count: u32, more: u32) -> u32
    ensures { result ≡ counted (count + more) }
{
    if count < TOO_MANY && more < TOO_MANY - count {
        count + more
    } else {
        TOO_MANY
    }
}

/// The count of a node; nodes past the end have 0.
pub(crate) fn count_at(counts: &[u32], node: u32) -> u32
    ensures { result ≡ slice_index_or counts.now node 0 }
{
    match counts.get(node as usize) {
        Some(count) => *count,
        None => 0,
    }
}

/// How many ways go on over an edge to a node.
pub(crate) fn count_over(marks: &[bool], counts: &[u32], to: u32) -> u32
    ensures { result ≡ count_over marks.now counts.now to }
{
    if has_mark(marks, to) {
        1
    } else {
        count_at(counts, to)
    }
}

/// How many ways leave a node by a row of edges.
fn count_row(marks: &[bool], counts: &[u32], row: &[u32]) -> u32
    ensures { result ≡ count_row marks.now counts.now row.now }
{
    let mut count = 0;
    for to in row {
        count = added(count, count_over(marks, counts, *to));
    }
    count
}

/// The counts that follow from others, edge by edge.
fn next_counts(
    alloc: Global,
    lists: &[Seq<u32>],
    marks: &[bool],
    counts: &[u32],
) -> Result<Seq<u32>, AllocError>
    ensures { IfOk result (λ next. next ≡ map (count_row marks.now counts.now) lists.now) }
{
    let mut next = Seq::new(alloc);
    for row in lists {
        next.push(count_row(marks, counts, row.as_slice()))?;
    }
    Ok(next)
}

/// Whether two lists of counts are the same.
fn are_same(counts: &[u32], others: &[u32]) -> bool
    ensures { IsTrue result → counts.now ≡ others.now }
{
    counts == others
}

/// One more than the greatest rank.
pub(crate) fn above(ranks: &[u32]) -> u64
    ensures { result ≡ most_of 0 ranks.now + 1 }
{
    let mut most: u32 = 0;
    for rank in ranks {
        if most < *rank {
            most = *rank;
        }
    }
    most as u64 + 1
}

/// The nodes in the order of their ranks, where these are the numbers from 1 on. Nothing is claimed of it.
fn order(alloc: Global, ranks: &[u32]) -> Result<Vec<u32>, AllocError> {
    let mut order = vec![in alloc; 0; ranks.len()]?;
    let mut node: u32 = 0;
    for rank in ranks {
        let place = *rank as usize;
        if place > 0 && place <= order.len() {
            order[place - 1] = node;
        }
        node = node.saturating_add(1);
    }
    Ok(order)
}

/// Counts, each found once, in the order of ranks. Nothing is claimed of them: they are tested.
fn quick_counts(
    alloc: Global,
    lists: &[Seq<u32>],
    marks: &[bool],
    ranks: &[u32],
) -> Result<Seq<u32>, AllocError> {
    let mut counts = vec![in alloc; 0; lists.len()]?;
    for node in order(alloc, ranks)? {
        let place = node as usize;
        if place < lists.len() && place < counts.len() {
            counts[place] = count_row(marks, counts.as_slice(), lists[place].as_slice());
        }
    }
    Ok(Seq::from_vec(counts))
}

/// How many ways lead from each node to the next cuts, where ranks fall along the edges to nodes that are no cuts.
///
/// # Errors
///
/// Want of memory.
#[tactic(auto, using(crate::proofs::Counted::no_round, crate::proofs::Counted::one_round, crate::proofs::Counted::settled, crate::proofs::Counted::enough))]
pub(crate) fn counts(
    alloc: Global,
    lists: &[Seq<u32>],
    marks: &[bool],
    ranks: &[u32],
) -> Result<Seq<u32>, AllocError>
    requires { Fall (map (inner_row marks.now) lists.now) ranks.now }
    ensures { IfOk result (AreCounts lists.now marks.now) }
{
    let mut counts = quick_counts(alloc, lists, marks, ranks)?;
    for _round in 0..above(ranks) {
        let next = next_counts(alloc, lists, marks, counts.as_slice())?;
        if are_same(next.as_slice(), counts.as_slice()) {
            return Ok(counts);
        }
        counts = next;
    }
    Ok(counts)
}
