//! Paths by their numbers.
ghost use Rattle.std.specs.Prelude.{◌≡◌, ◌+◌, ◌<◌, map, slice_index_or, IfOk};
ghost use Rattle.number_graphs.specs.Lists.{Fall, row_at};
ghost use Rattle.path_rules.specs.Limits.{most_paths};
ghost use Rattle.path_rules.specs.Successors.{has_mark, inner_row};
ghost use Rattle.path_rules.specs.inner.Ways.{count_over, counted_on, picked, AreCounts, IsWayOf};

use crate::counts::{added, count_at, count_over};
use crate::successors::has_mark;
use list_views::Seq;
use std::alloc::{AllocError, Global};

/// The successors of all nodes, the marks of cuts, ranks that fall along the edges to nodes that are no cuts, and how many ways lead
/// from each node to the next cuts.
#[derive(Drop)]
pub(crate) struct Ways {
    /// The nodes that each node leads to.
    pub(crate) lists: Seq<Seq<u32>>,
    /// Whether each node is a cut.
    pub(crate) marks: Seq<bool>,
    /// Ranks of the nodes.
    pub(crate) ranks: Seq<u32>,
    /// How many ways lead from each node.
    pub(crate) counts: Seq<u32>,
}

/// A way to a cut.
#[derive(Drop)]
pub(crate) struct Way {
    /// Its edges by their numbers.
    pub(crate) places: Seq<usize>,
    /// The cut.
    pub(crate) to: u32,
}

/// The nodes that a node leads to.
fn row_of(lists: &[Seq<u32>], node: u32) -> &[u32]
    ensures { result.now ≡ row_at lists.now node }
{
    match lists.get(node as usize) {
        Some(row) => row.as_slice(),
        None => &[],
    }
}

/// The edge of a row by which the way of a number goes on, the node to which it leads, and the number of that way among those over
/// the edge.
fn picked_edge(
    marks: &[bool],
    counts: &[u32],
    row: &[u32],
    number: u32,
) -> Option<(usize, u32, u32)>
    ensures { result ≡ picked (count_over marks.now counts.now) 0 row.now number }
{
    let mut left = number;
    for (place, to) in row.iter().enumerate() {
        let here = count_over(marks, counts, *to);
        if left < here {
            return Some((place, *to, left));
        }
        left -= here;
    }
    None
}

/// The place of the cut from which the path of a number starts, the cut, and the number of its way among those from that cut.
fn picked_cut(counts: &[u32], cuts: &[u32], number: u32) -> Option<(usize, u32, u32)>
    ensures { result ≡ picked (λ cut. slice_index_or counts.now cut 0) 0 cuts.now number }
{
    let mut left = number;
    for (place, cut) in cuts.iter().enumerate() {
        let here = count_at(counts, *cut);
        if left < here {
            return Some((place, *cut, left));
        }
        left -= here;
    }
    None
}

/// How many paths there are, counted up to `TOO_MANY`.
fn total(counts: &[u32], cuts: &[u32]) -> u32
    ensures { result ≡ counted_on (λ cut. slice_index_or counts.now cut 0) 0 cuts.now }
{
    let mut count = 0;
    for cut in cuts {
        count = added(count, count_at(counts, *cut));
    }
    count
}

impl Ways {
    /// The edge by which the way of a number goes on from a node, the node to which it leads, and the number of that way among
    /// those over the edge.
    fn next_edge(&self, node: u32, number: u32) -> Option<(usize, u32, u32)>
        ensures { result ≡ picked (count_over self.now.marks self.now.counts) 0 (row_at self.now.lists node) number }
    {
        let row = row_of(self.lists.as_slice(), node);
        picked_edge(self.marks.as_slice(), self.counts.as_slice(), row, number)
    }

    /// How many paths there are, counted up to `TOO_MANY`.
    pub(crate) fn total(&self, cuts: &[u32]) -> u32
        ensures { result ≡ counted_on (λ cut. slice_index_or self.now.counts cut 0) 0 cuts.now }
    {
        total(self.counts.as_slice(), cuts)
    }

    /// The place of the cut from which the path of a number starts, the cut, and the number of its way among those from that cut.
    pub(crate) fn start(&self, cuts: &[u32], number: u32) -> Option<(usize, u32, u32)>
        ensures { result ≡ picked (λ cut. slice_index_or self.now.counts cut 0) 0 cuts.now number }
    {
        picked_cut(self.counts.as_slice(), cuts, number)
    }

    /// Whether a node is a cut.
    fn is_cut(&self, node: u32) -> bool
        ensures { result ≡ has_mark self.now.marks node }
    {
        has_mark(self.marks.as_slice(), node)
    }
}

/// The way of a number from a node to the next cut.
///
/// # Errors
///
/// Want of memory.
pub(crate) fn way_of(alloc: Global, ways: &Ways, from: u32, number: u32) -> Result<Way, AllocError>
    requires ranks { Fall (map (inner_row ways.now.marks) ways.now.lists) ways.now.ranks }
    requires counts { AreCounts ways.now.lists ways.now.marks ways.now.counts }
    requires number { number < most_paths + 1 }
    ensures { IfOk result (λ way. IsWayOf ways.now.lists ways.now.marks from number way.places way.to) }
{
    let mut places = Seq::new(alloc);
    let mut node = from;
    let mut left = number;
    loop {
        let Some((place, to, rest)) = ways.next_edge(node, left) else {
            return Ok(Way { places, to: node });
        };
        places.push(place)?;
        if ways.is_cut(to) {
            return Ok(Way { places, to });
        }
        node = to;
        left = rest;
    }
}
