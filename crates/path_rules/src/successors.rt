//! The nodes that nodes lead to, and which of them are cuts.
ghost use Rattle.std.specs.Prelude.{◌≡◌, ◌<◌, map, All, IfOk, false};
ghost use Rattle.term_graph.specs.Graphs.{successors};
ghost use Rattle.path_rules.specs.Successors.{has_mark, AreMarks, inner_row, lists_of};

use abs_cells::Pairs;
use list_views::Seq;
use std::alloc::{AllocError, Global};
use term_graph::{By, NodeSource};

/// The nodes that a node leads to, in the order of its edges.
fn successors_of(alloc: Global, by: &By) -> Result<Seq<u32>, AllocError>
    ensures { IfOk result (λ list. list ≡ successors by.now) }
{
    match by {
        By::Expand(children) => Seq::from_slice(alloc, children.as_slice()),
        By::Instance { target, .. } => Seq::from_slice(alloc, &[*target]),
        By::End | By::Todo => Ok(Seq::new(alloc)),
    }
}

/// The nodes that each node leads to.
///
/// # Errors
///
/// Want of memory.
#[tactic(auto, using(crate::proofs::Following::one_listed, crate::proofs::Following::all_listed))]
pub fn successor_lists<P: Pairs, S: NodeSource<P>>(
    alloc: Global,
    source: &mut S,
) -> Result<Seq<Seq<u32>>, AllocError>
    ensures lists { IfOk result (λ lists. lists ≡ lists_of (S.graph source.old)) }
    ensures same { S.graph source.new ≡ S.graph source.old }
{
    let mut lists = Seq::new(alloc);
    for n in 0..source.count() {
        let by = source.by(alloc, n)?;
        lists.push(successors_of(alloc, &by)?)?;
    }
    Ok(lists)
}

/// Whether a node is marked as a cut.
pub fn has_mark(marks: &[bool], node: u32) -> bool
    ensures { result ≡ has_mark marks.now node }
{
    match marks.get(node as usize) {
        Some(mark) => *mark,
        None => false,
    }
}

/// Marks the nodes that are cuts, of `count` nodes.
///
/// # Errors
///
/// Want of memory.
pub fn cut_marks(alloc: Global, count: usize, cuts: &[u32]) -> Result<Seq<bool>, AllocError>
    requires { All (λ cut. cut < count) cuts.now }
    ensures { IfOk result (AreMarks cuts.now) }
{
    let mut marks = vec![in alloc; false; count]?;
    for cut in cuts {
        marks[*cut as usize] = true;
    }
    Ok(Seq::from_vec(marks))
}

/// The successors that are no cuts.
fn inner_row(alloc: Global, marks: &[bool], row: &[u32]) -> Result<Seq<u32>, AllocError>
    ensures { IfOk result (λ inner. inner ≡ inner_row marks.now row.now) }
{
    let mut inner = Seq::new(alloc);
    for to in row {
        if !has_mark(marks, *to) {
            inner.push(*to)?;
        }
    }
    Ok(inner)
}

/// The successors of each node that are no cuts.
///
/// # Errors
///
/// Want of memory.
pub fn inner_lists(
    alloc: Global,
    marks: &[bool],
    lists: &[Seq<u32>],
) -> Result<Seq<Seq<u32>>, AllocError>
    ensures { IfOk result (λ inner. inner ≡ map (inner_row marks.now) lists.now) }
{
    let mut inner = Seq::new(alloc);
    for row in lists {
        inner.push(inner_row(alloc, marks, row.as_slice())?)?;
    }
    Ok(inner)
}
