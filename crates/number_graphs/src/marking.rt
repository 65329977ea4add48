//! What lists of successors lead to.
ghost use Rattle.std.specs.Prelude.{◌≡◌, ◌≤◌, length, IfOk, OnOk, slice_index_or, false};
ghost use Rattle.number_graphs.specs.Lists.{row_at};
ghost use Rattle.number_graphs.specs.Marking.{AreReached, come, visit, marked_count};

use list_views::Seq;
use std::alloc::{AllocError, Global};

/// Marks a number that is come to, and notes it as one to go on from.
fn come_to(number: u32, marks: &mut Vec<bool>, todo: &mut Seq<u32>) -> Result<(), AllocError>
    ensures { OnOk result
        (record { marks = marks.new.items; todo = todo.new } ≡ come number (record { marks = marks.old.items; todo = todo.old })) }
{
    let place = number as usize;
    if place < marks.len() && !marks[place] {
        marks[place] = true;
        todo.push(number)?;
    }
    Ok(())
}

/// Marks the numbers of a list.
fn go_on_from(row: &[u32], marks: &mut Vec<bool>, todo: &mut Seq<u32>) -> Result<(), AllocError>
    ensures { OnOk result
        (record { marks = marks.new.items; todo = todo.new } ≡ visit row.now (record { marks = marks.old.items; todo = todo.old })) }
{
    for number in row {
        come_to(*number, marks, todo)?;
    }
    Ok(())
}

/// The list of a number.
pub(crate) fn row_of(graph: &[Seq<u32>], number: u32) -> &[u32]
    ensures { result.now ≡ row_at graph.now number }
{
    match graph.get(number as usize) {
        Some(row) => row.as_slice(),
        None => &[],
    }
}

/// Whether a number is marked.
pub(crate) fn is_marked(marks: &[bool], number: u32) -> bool
    ensures { result ≡ slice_index_or marks.now number false }
{
    match marks.get(number as usize) {
        Some(mark) => *mark,
        None => false,
    }
}

/// Marks exactly the numbers to which ways lead from a number.
pub(crate) fn reached(
    alloc: Global,
    graph: &[Seq<u32>],
    start: u32,
) -> Result<Vec<bool>, AllocError>
    ensures { IfOk result (λ marks. AreReached graph.now start marks.items) }
{
    let mut marks = vec![in alloc; false; graph.len()]?;
    let mut todo = Seq::new(alloc);
    todo.push(start)?;
    while let Some(number) = todo.pop() {
        go_on_from(row_of(graph, number), &mut marks, &mut todo)?;
    }
    Ok(marks)
}

/// How many marks are set.
pub(crate) fn marked_count(marks: &[bool]) -> usize
    ensures count { result ≡ marked_count marks.now }
    ensures few { result ≤ length marks.now }
{
    let mut count = 0;
    for mark in marks {
        if *mark {
            count += 1;
        }
    }
    count
}
