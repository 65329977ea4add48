//! Orders in which everything stands behind what it leads to.
ghost use Rattle.std.specs.Prelude.{◌≡◌, IsTrue, nat_lt, slice_index_or, false};
ghost use Rattle.std.specs.List.{list_all};
ghost use Rattle.number_graphs.specs.Lists.{Fall};

use crate::marking::row_of;
use list_views::Seq;
use std::alloc::{AllocError, Global};

/// What a walk over a graph, into the depth, keeps.
#[derive(Drop)]
struct Walk {
    /// The numbers on the way from the start to where the walk is.
    path: Vec<u32>,
    /// How many of each number's list were taken.
    taken: Vec<u32>,
    /// Whether the walk has come to each number.
    seen: Vec<bool>,
    /// The place of each number in the order in which the walk left them, counted from 1.
    ranks: Vec<u32>,
    /// How many the walk has left.
    left: u32,
    /// The least number from which no walk has started.
    root: u32,
}

impl Walk {
    /// Goes on to a number, where the walk hasn't come to it.
    fn enter(&mut self, number: u32) -> Result<(), AllocError> {
        let place = number as usize;
        if place < self.seen.len() && !self.seen[place] {
            self.seen[place] = true;
            self.path.push(number)?;
        }
        Ok(())
    }

    /// Leaves the last number on the way.
    fn leave(&mut self, number: u32) {
        self.path.pop();
        self.left = self.left.saturating_add(1);
        let place = number as usize;
        if place < self.ranks.len() {
            self.ranks[place] = self.left;
        }
    }

    /// Takes the next number of the list of `number`.
    fn take(&mut self, row: &[u32], number: u32) -> Option<u32> {
        let place = number as usize;
        if place < self.taken.len() {
            let next = row.get(self.taken[place] as usize)?;
            self.taken[place] = self.taken[place].saturating_add(1);
            Some(*next)
        } else {
            None
        }
    }

    /// Starts a walk from the next number.
    fn start(&mut self) -> Result<(), AllocError> {
        let number = self.root;
        self.root = self.root.saturating_add(1);
        self.enter(number)
    }

    /// One step: to the next number, or back, or to another start.
    fn step(&mut self, graph: &[Seq<u32>]) -> Result<(), AllocError> {
        let Some(number) = self.path.last().copied() else {
            return self.start();
        };
        match self.take(row_of(graph, number), number) {
            Some(next) => self.enter(next),
            None => {
                self.leave(number);
                Ok(())
            }
        }
    }
}

/// How many steps a walk has at most.
fn most_steps(graph: &[Seq<u32>]) -> usize {
    let mut steps: usize = 0;
    for row in graph {
        steps = steps.saturating_add(row.len()).saturating_add(2);
    }
    steps
}

/// A rank for each number: where there is no cycle, one that is greater than the ranks of what the number leads to. Nothing is
/// claimed of it: `falls` tests it.
pub(crate) fn quick_ranks(alloc: Global, graph: &[Seq<u32>]) -> Result<Seq<u32>, AllocError> {
    let mut walk = Walk {
        path: Vec::new(alloc),
        taken: vec![in alloc; 0; graph.len()]?,
        seen: vec![in alloc; false; graph.len()]?,
        ranks: vec![in alloc; 0; graph.len()]?,
        left: 0,
        root: 0,
    };
    for _ in 0..most_steps(graph) {
        walk.step(graph)?;
    }
    Ok(Seq::from_vec(walk.ranks))
}

/// The rank at a place; past the end it is 0.
fn rank_at(ranks: &[u32], place: usize) -> u32
    ensures { result ≡ slice_index_or ranks.now place 0 }
{
    match ranks.get(place) {
        Some(rank) => *rank,
        None => 0,
    }
}

/// Whether all numbers of a list have lower ranks.
fn are_lower(row: &[u32], ranks: &[u32], rank: u32) -> bool
    ensures { result ≡ list_all (λ b. nat_lt (slice_index_or ranks.now b 0) rank) row.now }
{
    for number in row {
        if rank_at(ranks, *number as usize) >= rank {
            return false;
        }
    }
    true
}

/// Whether everything leads to lower ranks alone.
pub(crate) fn falls(graph: &[Seq<u32>], ranks: &[u32]) -> bool
    ensures { IsTrue result → Fall graph.now ranks.now }
{
    for (place, row) in graph.iter().enumerate() {
        let rank = rank_at(ranks, place);
        if !are_lower(row.as_slice(), ranks, rank) {
            return false;
        }
    }
    true
}
