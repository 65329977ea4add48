//! The pairs that stand at the positions of two states, one after another.
ghost use Rattle.std.specs.Prelude.{◌≡◌, false, length, zip, OnOk, Err, Ok, IfOk};
ghost use Rattle.std.specs.List.{AllZip};
ghost use Rattle.abs_cells.specs.Sound.{IsWellFormed};
ghost use Rattle.abs_widen.specs.declared.fault.WidenFault.TheVariants.{TooManyIds};
ghost use Rattle.abs_widen.specs.Visits.{AreTooMany, are_alike, local_pair, local_pairs, frame_pairs, frames_pairs, thrown_pair};
ghost use Rattle.abs_widen.specs.Visits.{some_in, ArePairs};
ghost use Rattle.abs_widen.specs.inner.Visiting.{Continues, AreAsLong, AreFew, ArePaired};

use crate::fault::WidenFault;
use crate::visits::visit;
use abs_cells::{AbsFrame, AbsState, Id, Pairs};
use abs_reach::cell_of;
use std::alloc::Global;

/// Whether the id of the one state is an int's and that of the other one too, or neither is.
pub(crate) fn are_alike<P: Pairs>(a: &AbsState<P>, b: &AbsState<P>, x: Id, y: Id) -> bool
    requires first { IsWellFormed a.now }
    requires second { IsWellFormed b.now }
    ensures { result ≡ are_alike a.now b.now x y }
{
    let Some(cell) = cell_of(a.cells(), x) else {
        return false;
    };
    let Some(other) = cell_of(b.cells(), y) else {
        return false;
    };
    cell.is_int() == other.is_int()
}

/// The pair of two locals: none where one is unset, or an int stands beside a reference.
pub(crate) fn local_pair<P: Pairs>(
    a: &AbsState<P>,
    b: &AbsState<P>,
    x: Option<Id>,
    y: Option<Id>,
) -> Option<(Id, Id)>
    requires first { IsWellFormed a.now }
    requires second { IsWellFormed b.now }
    ensures { result ≡ local_pair a.now b.now x y }
{
    let Some(id) = x else {
        return None;
    };
    let Some(other) = y else {
        return None;
    };
    if are_alike(a, b, id, other) {
        Some((id, other))
    } else {
        None
    }
}

/// The pair of two thrown ids.
pub(crate) fn thrown_pair(x: Option<Id>, y: Option<Id>) -> Option<(Id, Id)>
    ensures { result ≡ thrown_pair x y }
{
    let Some(id) = x else {
        return None;
    };
    let Some(other) = y else {
        return None;
    };
    Some((id, other))
}

/// Visits a pair, if there is one.
fn visit_some<P: Pairs>(
    alloc: Global,
    a: &AbsState<P>,
    b: &AbsState<P>,
    met: &mut Vec<(Id, Id)>,
    pair: Option<(Id, Id)>,
) -> Result<(), WidenFault>
    requires first { IsWellFormed a.now }
    requires second { IsWellFormed b.now }
    requires few { AreFew a.now b.now met.old.items }
    requires paired { ArePaired a.now b.now (some_in pair) }
    ensures ok { OnOk result (AreFew a.now b.now met.new.items × Continues a.now b.now met.old.items (some_in pair) met.new.items) }
    ensures err { result ≡ Err TooManyIds → AreTooMany a.now b.now }
{
    let Some((id, other)) = pair else {
        return Ok(());
    };
    visit(alloc, a, b, met, id, other)
}

/// Visits the pairs of local variables.
fn visit_locals<P: Pairs>(
    alloc: Global,
    a: &AbsState<P>,
    b: &AbsState<P>,
    met: &mut Vec<(Id, Id)>,
    locals: &[Option<Id>],
    others: &[Option<Id>],
) -> Result<(), WidenFault>
    requires first { IsWellFormed a.now }
    requires second { IsWellFormed b.now }
    requires few { AreFew a.now b.now met.old.items }
    requires paired { ArePaired a.now b.now (local_pairs a.now b.now locals.now others.now) }
    requires long { length locals.now ≡ length others.now }
    ensures ok { OnOk result (AreFew a.now b.now met.new.items
        × Continues a.now b.now met.old.items (local_pairs a.now b.now locals.now others.now) met.new.items) }
    ensures err { result ≡ Err TooManyIds → AreTooMany a.now b.now }
{
    for n in 0..locals.len() {
        visit_some(alloc, a, b, met, local_pair(a, b, locals[n], others[n]))?;
    }
    Ok(())
}

/// Visits the pairs of the entries of operand stacks, the bottom first.
fn visit_entries<P: Pairs>(
    alloc: Global,
    a: &AbsState<P>,
    b: &AbsState<P>,
    met: &mut Vec<(Id, Id)>,
    ids: &[Id],
    others: &[Id],
) -> Result<(), WidenFault>
    requires first { IsWellFormed a.now }
    requires second { IsWellFormed b.now }
    requires few { AreFew a.now b.now met.old.items }
    requires paired { ArePaired a.now b.now (zip ids.now others.now) }
    requires long { length ids.now ≡ length others.now }
    ensures ok { OnOk result (AreFew a.now b.now met.new.items × Continues a.now b.now met.old.items (zip ids.now others.now)
        met.new.items) }
    ensures err { result ≡ Err TooManyIds → AreTooMany a.now b.now }
{
    for n in 0..ids.len() {
        visit(alloc, a, b, met, ids[n], others[n])?;
    }
    Ok(())
}

/// Visits the pairs of two frames.
fn visit_frame<P: Pairs>(
    alloc: Global,
    a: &AbsState<P>,
    b: &AbsState<P>,
    met: &mut Vec<(Id, Id)>,
    frame: &AbsFrame,
    other: &AbsFrame,
) -> Result<(), WidenFault>
    requires first { IsWellFormed a.now }
    requires second { IsWellFormed b.now }
    requires few { AreFew a.now b.now met.old.items }
    requires paired { ArePaired a.now b.now (frame_pairs a.now b.now frame.now other.now) }
    requires long { (length frame.now.locals ≡ length other.now.locals) × (length frame.now.stack ≡ length other.now.stack) }
    ensures ok { OnOk result (AreFew a.now b.now met.new.items
        × Continues a.now b.now met.old.items (frame_pairs a.now b.now frame.now other.now) met.new.items) }
    ensures err { result ≡ Err TooManyIds → AreTooMany a.now b.now }
{
    visit_locals(alloc, a, b, met, frame.locals(), other.locals())?;
    visit_entries(alloc, a, b, met, frame.stack(), other.stack())
}

/// Visits the pairs of all frames, the bottom frame's first.
fn visit_frames<P: Pairs>(
    alloc: Global,
    a: &AbsState<P>,
    b: &AbsState<P>,
    met: &mut Vec<(Id, Id)>,
    frames: &[AbsFrame],
    others: &[AbsFrame],
) -> Result<(), WidenFault>
    requires first { IsWellFormed a.now }
    requires second { IsWellFormed b.now }
    requires few { AreFew a.now b.now met.old.items }
    requires paired { ArePaired a.now b.now (frames_pairs a.now b.now frames.now others.now) }
    requires long { AllZip AreAsLong frames.now others.now }
    ensures ok { OnOk result (AreFew a.now b.now met.new.items
        × Continues a.now b.now met.old.items (frames_pairs a.now b.now frames.now others.now) met.new.items) }
    ensures err { result ≡ Err TooManyIds → AreTooMany a.now b.now }
{
    for n in 0..frames.len() {
        visit_frame(alloc, a, b, met, &frames[n], &others[n])?;
    }
    Ok(())
}

/// The pairs of ids that stand beside one another in two states, in the order in which they are met.
pub(crate) fn pairs_of<P: Pairs>(
    alloc: Global,
    a: &AbsState<P>,
    b: &AbsState<P>,
) -> Result<Vec<(Id, Id)>, WidenFault>
    requires first { IsWellFormed a.now }
    requires second { IsWellFormed b.now }
    requires long { AllZip AreAsLong a.now.frames b.now.frames }
    ensures ok { IfOk result (λ pairs. AreFew a.now b.now pairs.items × ArePairs a.now b.now pairs.items) }
    ensures err { result ≡ Err TooManyIds → AreTooMany a.now b.now }
{
    let mut met = Vec::new(alloc);
    visit_frames(alloc, a, b, &mut met, a.frames(), b.frames())?;
    visit_some(
        alloc,
        a,
        b,
        &mut met,
        thrown_pair(a.throwing(), b.throwing()),
    )?;
    Ok(met)
}
