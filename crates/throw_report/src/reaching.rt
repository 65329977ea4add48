//! The nodes of a graph that edges reach from node 0.
ghost use Rattle.std.specs.Prelude.{◌≡◌, IfOk, OnOk};
ghost use Rattle.number_graphs.specs.Lists.{row_at};
ghost use Rattle.number_graphs.specs.Marking.{AreReached, come, visit};
ghost use Rattle.term_graph.specs.Graphs.{successors};
ghost use Rattle.throw_report.specs.Reports.{rows_of};
ghost use Rattle.throw_report.specs.inner.Words.{AreMarked, is_marked};

use abs_cells::Pairs;
use list_views::Seq;
use std::alloc::{AllocError, Global};
use term_graph::{By, NodeSource};

/// The nodes that a node leads to, in the order of its edges.
fn successors_of(alloc: Global, by: &By) -> Result<Seq<u32>, AllocError>
    ensures { IfOk result (λ row. row ≡ successors by.now) }
{
    match by {
        By::Expand(children) => Seq::from_slice(alloc, children.as_slice()),
        By::Instance { target, .. } => Seq::from_slice(alloc, &[*target]),
        By::End | By::Todo => Ok(Seq::new(alloc)),
    }
}

/// The nodes that each node leads to.
#[tactic(auto, using(path_rules::proofs::Following::one_listed, path_rules::proofs::Following::all_listed))]
fn rows_of<P: Pairs, S: NodeSource<P>>(
    alloc: Global,
    source: &mut S,
) -> Result<Seq<Seq<u32>>, AllocError>
    ensures rows { IfOk result (λ rows. rows ≡ rows_of (S.graph source.old)) }
    ensures same { S.graph source.new ≡ S.graph source.old }
{
    let mut rows = Seq::new(alloc);
    for n in 0..source.count() {
        let by = source.by(alloc, n)?;
        rows.push(successors_of(alloc, &by)?)?;
    }
    Ok(rows)
}

/// Marks a number that is come to, and notes it as one to go on from.
fn come_to(number: u32, marks: &mut Vec<bool>, todo: &mut Seq<u32>) -> Result<(), AllocError>
    ensures { OnOk result
        (record { marks = marks.new.items; todo = todo.new } ≡ come number (record { marks = marks.old.items; todo = todo.old })) }
{
    let place = number as usize;
    if place < marks.len() && !marks[place] {
        marks[place] = true;
        todo.push(number)?;
    }
    Ok(())
}

/// Marks the numbers of a list.
fn go_on_from(row: &[u32], marks: &mut Vec<bool>, todo: &mut Seq<u32>) -> Result<(), AllocError>
    ensures { OnOk result
        (record { marks = marks.new.items; todo = todo.new } ≡ visit row.now (record { marks = marks.old.items; todo = todo.old })) }
{
    for number in row {
        come_to(*number, marks, todo)?;
    }
    Ok(())
}

/// The list of a number.
fn row_of(rows: &[Seq<u32>], number: u32) -> &[u32]
    ensures { result.now ≡ row_at rows.now number }
{
    match rows.get(number as usize) {
        Some(row) => row.as_slice(),
        None => &[],
    }
}

/// Marks exactly the numbers to which ways of one edge or more lead from a number.
fn reached(alloc: Global, rows: &[Seq<u32>], start: u32) -> Result<Vec<bool>, AllocError>
    ensures { IfOk result (λ marks. AreReached rows.now start marks.items) }
{
    let mut marks = vec![in alloc; false; rows.len()]?;
    let mut todo = Seq::new(alloc);
    todo.push(start)?;
    while let Some(number) = todo.pop() {
        go_on_from(row_of(rows, number), &mut marks, &mut todo)?;
    }
    Ok(marks)
}

/// Whether a node is node 0, or marked.
pub(crate) fn is_marked(marks: &[bool], number: u32) -> bool
    ensures { result ≡ is_marked marks.now number }
{
    if number == 0 {
        return true;
    }
    match marks.get(number as usize) {
        Some(mark) => *mark,
        None => false,
    }
}

/// Marks of the nodes that edges reach from node 0.
#[tactic(auto, using(crate::proofs::Reached::marked_are))]
pub(crate) fn reached_nodes<P: Pairs, S: NodeSource<P>>(
    alloc: Global,
    source: &mut S,
) -> Result<Vec<bool>, AllocError>
    ensures marks { IfOk result (λ marks. AreMarked (S.graph source.old) marks.items) }
    ensures same { S.graph source.new ≡ S.graph source.old }
{
    let rows = rows_of(alloc, source)?;
    reached(alloc, rows.as_slice(), 0)
}
