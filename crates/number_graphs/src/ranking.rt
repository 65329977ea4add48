//! Ranks of the numbers of a graph.
ghost use Rattle.std.specs.Prelude.{◌≡◌, ◌<◌, ◌+◌, ◌^◌, length, IfOk};
ghost use Rattle.number_graphs.specs.Lists.{Ranked};
ghost use Rattle.number_graphs.specs.Marking.{marked_count};

use crate::marking::{is_marked, marked_count, reached};
use crate::order::{falls, quick_ranks};
use list_views::Seq;
use std::alloc::{AllocError, Global};

/// Ranks, or a cycle.
#[derive(Drop)]
pub enum Ranking {
    /// A rank for each number.
    Ranks(Seq<u32>),
    /// A number on a cycle.
    Cycle(u32),
}

/// The ranks, found number by number: one more than how many numbers each leads to.
fn exact_ranks(alloc: Global, graph: &[Seq<u32>]) -> Result<Ranking, AllocError>
    requires { length graph.now + 1 < 2 ^ 32 }
    ensures { IfOk result (Ranked graph.now) }
{
    let mut ranks = Seq::new(alloc);
    for place in 0..graph.len() {
        let number = place as u32;
        let marks = reached(alloc, graph, number)?;
        if is_marked(marks.as_slice(), number) {
            return Ok(Ranking::Cycle(number));
        }
        ranks.push(rank_of(marks.as_slice()))?;
    }
    Ok(Ranking::Ranks(ranks))
}

/// One more than how many marks are set.
fn rank_of(marks: &[bool]) -> u32
    requires { length marks.now + 1 < 2 ^ 32 }
    ensures { result ≡ marked_count marks.now + 1 }
{
    marked_count(marks) as u32 + 1
}

/// Gives each number a rank, so that every edge leads to a lower one; or the least number on a cycle.
///
/// A graph is a list of successors for each number. Successors past the end have none of their own.
///
/// # Errors
///
/// Want of memory.
pub fn rank(alloc: Global, graph: &[Seq<u32>]) -> Result<Ranking, AllocError>
    requires { length graph.now + 1 < 2 ^ 32 }
    ensures { IfOk result (Ranked graph.now) }
{
    let ranks = quick_ranks(alloc, graph)?;
    if falls(graph, ranks.as_slice()) {
        return Ok(Ranking::Ranks(ranks));
    }
    exact_ranks(alloc, graph)
}
