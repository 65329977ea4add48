//! What is above each class.
ghost use Rattle.std.specs.Prelude.{◌≡◌, ◌<◌, [], length, All, IfOk, OnOk};
ghost use Rattle.class_world.specs.inner.Once.{supers_once};
ghost use Rattle.class_world.specs.inner.Tables.{above_table, values_to};
ghost use Rattle.class_world.specs.inner.Marking.{marks_after, todo_after, listed_at, IsRow, IsClosed};

use crate::roster::Roster;
use code_forms::list_views::Seq;
use std::alloc::{AllocError, Global};

/// Marks the classes of `supers`, and puts those that were not marked on the list of what is to be gone through.
fn mark_all(supers: &[u32], marks: &mut Vec<bool>, todo: &mut Vec<u32>) -> Result<(), AllocError>
    requires { All (λ b. b < length marks.old.items) supers.now }
    ensures marks { OnOk result (marks.new.items ≡ marks_after marks.old.items supers.now) }
    ensures todo { OnOk result (todo.new.items ≡ todo_after marks.old.items todo.old.items supers.now) }
{
    for class in supers {
        let index = *class as usize;
        if !marks[index] {
            todo.push(*class)?;
        }
        marks[index] = true;
    }
    Ok(())
}

/// What the table lists for `class`.
fn row_at<'t>(table: &'t [Seq<u32>], class: usize) -> &'t [u32]
    requires { class < length table.now }
    ensures { result.now ≡ listed_at table.now class }
{
    table[class].as_slice()
}

/// A mark for each class: whether it is above `class`.
fn above_row(alloc: Global, supers: &[Seq<u32>], class: usize) -> Result<Seq<bool>, AllocError>
    requires within { class < length supers.now }
    requires closed { IsClosed supers.now }
    ensures { IfOk result (λ row. IsRow supers.now class row) }
{
    let mut marks = vec![in alloc; false; supers.len()]?;
    let mut todo = Vec::new(alloc);
    mark_all(row_at(supers, class), &mut marks, &mut todo)?;
    while let Some(next) = todo.pop() {
        mark_all(row_at(supers, next as usize), &mut marks, &mut todo)?;
    }
    Ok(Seq::from_vec(marks))
}

/// Puts the row of each class into a table that is empty before.
#[tactic(auto, using(crate::proofs::Tables::values_more), unfolding(crate::specs::inner::Tables::values_to))]
fn put_rows(
    alloc: Global,
    roster: &Roster<'_>,
    supers: &[Seq<u32>],
    table: &mut Seq<Seq<bool>>,
) -> Result<(), AllocError>
    requires supers { supers.now ≡ values_to (supers_once roster.now.classes) (length roster.now.classes) }
    requires empty { table.old ≡ [] }
    ensures { OnOk result (table.new ≡ above_table roster.now.classes) }
{
    for class in 0..roster.classes.len() {
        table.push(above_row(alloc, supers, class)?)?;
    }
    Ok(())
}

/// For each class a mark for each class: whether it is above the first.
pub(crate) fn above_table(alloc: Global, roster: &Roster<'_>) -> Result<Seq<Seq<bool>>, AllocError>
    ensures { IfOk result (λ table. table ≡ above_table roster.now.classes) }
{
    let supers = roster.supers_table(alloc)?;
    let mut table = Seq::new(alloc);
    put_rows(alloc, roster, supers.as_slice(), &mut table)?;
    Ok(table)
}
