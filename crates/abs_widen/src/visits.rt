//! The pairs of ids that stand beside one another in two states, in the order in which a visit depth first meets them.
ghost use Rattle.std.specs.Prelude.{◌≡◌, ◌<◌, ◌++◌, ◌∷◌, [], OnOk, Err};
ghost use Rattle.abs_cells.specs.Sound.{IsWellFormed};
ghost use Rattle.abs_widen.specs.declared.fault.WidenFault.TheVariants.{TooManyIds};
ghost use Rattle.abs_widen.specs.Visits.{is_among, Visits, AreTooMany, IsPaired, pairs_below};
ghost use Rattle.abs_widen.specs.inner.Visiting.{Continues, IsNextOf, AreFew, ArePaired};

use crate::fault::WidenFault;
use crate::rows::{Todo, push_named, push_pair};
use abs_cells::{AbsState, Id, MOST_IDS, Pairs};
use abs_reach::cell_of;
use list_views::Stack;
use std::alloc::{AllocError, Global};

/// Whether a pair was met.
pub(crate) fn is_met(met: &[(Id, Id)], pair: (Id, Id)) -> bool
    ensures { result ≡ is_among pair met.now }
{
    met.iter()
        .any(|other| pair.0 == other.0 && pair.1 == other.1)
}

/// Takes the next pair that was not met.
fn next_new(todo: &mut Todo, met: &[(Id, Id)]) -> Option<(Id, Id)>
    ensures { IsNextOf met.now todo.old.0 todo.new.0 result }
{
    while let Some(pair) = todo.pop() {
        if !is_met(met, pair) {
            return Some(pair);
        }
    }
    None
}

/// Adds the pairs that the cells of a pair name, the first of them on top.
fn push_below<P: Pairs>(
    todo: &mut Todo,
    a: &AbsState<P>,
    b: &AbsState<P>,
    pair: (Id, Id),
) -> Result<(), AllocError>
    requires first { IsWellFormed a.now }
    requires second { IsWellFormed b.now }
    ensures { OnOk result (todo.new.0 ≡ pairs_below a.now b.now pair ++ todo.old.0) }
{
    let Some(cell) = cell_of(a.cells(), pair.0) else {
        return Ok(());
    };
    let Some(other) = cell_of(b.cells(), pair.1) else {
        return Ok(());
    };
    push_named(todo, cell, other)
}

/// Visits pairs and all that they lead to.
fn visit_all<P: Pairs>(
    a: &AbsState<P>,
    b: &AbsState<P>,
    met: &mut Vec<(Id, Id)>,
    todo: &mut Todo,
) -> Result<(), WidenFault>
    requires first { IsWellFormed a.now }
    requires second { IsWellFormed b.now }
    requires few { AreFew a.now b.now met.old.items }
    requires paired { ArePaired a.now b.now todo.old.0 }
    ensures ok { OnOk result (AreFew a.now b.now met.new.items × Visits a.now b.now met.old.items todo.old.0 met.new.items) }
    ensures err { result ≡ Err TooManyIds → AreTooMany a.now b.now }
{
    while let Some(pair) = next_new(todo, met) {
        if met.len() >= MOST_IDS {
            return Err(WidenFault::TooManyIds);
        }
        met.push(pair)?;
        push_below(todo, a, b, pair)?;
    }
    Ok(())
}

/// Visits a pair and all that it leads to.
pub(crate) fn visit<P: Pairs>(
    alloc: Global,
    a: &AbsState<P>,
    b: &AbsState<P>,
    met: &mut Vec<(Id, Id)>,
    id: Id,
    other: Id,
) -> Result<(), WidenFault>
    requires first { IsWellFormed a.now }
    requires second { IsWellFormed b.now }
    requires few { AreFew a.now b.now met.old.items }
    requires paired { IsPaired a.now b.now (id, other) }
    ensures ok { OnOk result (AreFew a.now b.now met.new.items × Continues a.now b.now met.old.items ((id, other) ∷ []) met.new.items) }
    ensures err { result ≡ Err TooManyIds → AreTooMany a.now b.now }
{
    let mut todo = Stack::new(alloc);
    push_pair(&mut todo, id, other)?;
    visit_all(a, b, met, &mut todo)
}
