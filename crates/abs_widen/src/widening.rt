//! The widening of a state by another one.
ghost use Rattle.std.specs.Prelude.{◌≡◌, ◌≤◌, length, Err, IfOk};
ghost use Rattle.std.specs.List.{AllZip, AllByRecursion};
ghost use Rattle.jvm_values.specs.TypedHeaps.{world_types};
ghost use Rattle.abs_cells.specs.Sound.{IsWellFormed, IsSound};
ghost use Rattle.abs_cells.specs.Limits.{most_ids};
ghost use Rattle.abs_widen.specs.declared.fault.WidenFault.TheVariants.{TooManyIds};
ghost use Rattle.abs_widen.specs.Visits.{AreTooMany};
ghost use Rattle.abs_widen.specs.inner.Visiting.{AreAsLong, ArePairCells};
ghost use Rattle.abs_widen.specs.inner.Pairing.{IsWithin, IsPaired};
ghost use Rattle.abs_widen.specs.Widening.{AreAlike, IsMerged, IsWidening};
ghost use Rattle.abs_widen.specs.Laws.{IsInstance};

use crate::fault::WidenFault;
use crate::merged::merged_cells;
use crate::numbers::{frames_of, number_of_some};
use crate::pairing::joined;
use crate::positions::{pairs_of, thrown_pair};
use abs_cells::{AbsState, Id, Pairs, copied_cells};
use abs_reach::{Marks, drop_unreached};
use jvm_values::Types;
use std::alloc::{AllocError, AllocFailed, Global};

/// The state of all pairs, in which no two ids are a pair yet.
fn bare_state<T: Types, P: Pairs>(
    alloc: Global,
    types: &T,
    a: &AbsState<P>,
    b: &AbsState<P>,
    pairs: &[(Id, Id)],
    marks: &mut Marks,
) -> Result<AbsState<P>, AllocError>
    requires first { IsWellFormed a.now }
    requires second { IsWellFormed b.now }
    requires long { AllZip AreAsLong a.now.frames b.now.frames }
    requires few { length pairs.now ≤ most_ids }
    requires cells { AllByRecursion
        (ArePairCells (world_types (T.sub types.now) (T.erase types.now) (T.classes types.now) (T.fields types.now)
        (T.can_be_made types.now)) a.now b.now) pairs.now }
    ensures { IfOk result
        (λ bare. IsMerged (world_types (T.sub types.now) (T.erase types.now) (T.classes types.now) (T.fields types.now)
        (T.can_be_made types.now)) a.now b.now pairs.now bare) }
{
    let frames = frames_of(alloc, a, b, pairs)?;
    let thrown = number_of_some(pairs, thrown_pair(a.throwing(), b.throwing()));
    let cells = merged_cells(alloc, types, a, b, pairs, marks)?;
    Ok(AbsState::new(frames, thrown, cells, P::empty(alloc), P::empty(alloc)))
}

/// The state of all pairs that are left where ids that nothing reaches are dropped, with the pairs of its ids that have one
/// object, and those that share.
fn paired<P: Pairs>(
    alloc: Global,
    a: &AbsState<P>,
    b: &AbsState<P>,
    pairs: &[(Id, Id)],
    left: &AbsState<P>,
    marks: &mut Marks,
) -> Result<AbsState<P>, AllocError>
    requires first { IsWellFormed a.now }
    requires second { IsWellFormed b.now }
    requires long { AllZip AreAsLong a.now.frames b.now.frames }
    requires within { AllByRecursion (IsWithin a.now b.now) pairs.now }
    requires few { length pairs.now ≤ most_ids }
    requires left { IsWellFormed left.now }
    ensures { IfOk result (λ paired. IsPaired a.now b.now pairs.now left.now paired) }
{
    let frames = frames_of(alloc, a, b, pairs)?;
    let cells = copied_cells(alloc, left.cells())?;
    let both = joined(alloc, a, b, pairs, left.cells(), marks)?;
    Ok(AbsState::new(frames, left.throwing(), cells, both.0, both.1))
}

/// The widening of a sound state by another one that stands alike.
fn widening_of<T: Types, P: Pairs>(
    alloc: Global,
    types: &T,
    a: &AbsState<P>,
    b: &AbsState<P>,
    marks: &mut Marks,
) -> Result<AbsState<P>, WidenFault>
    requires first { IsSound (world_types (T.sub types.now) (T.erase types.now) (T.classes types.now) (T.fields types.now)
        (T.can_be_made types.now)) a.now }
    requires second { IsSound (world_types (T.sub types.now) (T.erase types.now) (T.classes types.now) (T.fields types.now)
        (T.can_be_made types.now)) b.now }
    requires alike { AreAlike a.now b.now }
    ensures ok { IfOk result
        (λ wide. IsWidening (world_types (T.sub types.now) (T.erase types.now) (T.classes types.now) (T.fields types.now)
        (T.can_be_made types.now)) a.now b.now wide) }
    ensures err { result ≡ Err TooManyIds → AreTooMany a.now b.now }
{
    let pairs = pairs_of(alloc, a, b)?;
    let bare = bare_state(alloc, types, a, b, &pairs, marks)?;
    let left = drop_unreached(bare, marks);
    Ok(paired(alloc, a, b, &pairs, &left, marks)?)
}

/// The widening of a sound state by another one that stands alike: the same methods, places of instructions, numbers of
/// locals and depths of stacks, ints beside ints in the stacks, and in both an object is thrown or in none. Both are instances
/// of it, and it is sound.
///
/// Its ids stand for pairs of ids of the two, numbered as a visit depth first meets them (Otto, Brockschmidt, von Essen,
/// Giesl 2010). An int's bound that would move goes on to the next of five, so that bounds move only so often. It looks at
/// each two pairs, and asks for each two ids of the result what they reach; the marks are scratch.
///
/// # Errors
///
/// `TooManyIds` exactly where there are more than 512 pairs, those counted too that nothing reaches at the end
/// (`widenings_are_few`); want of memory.
pub fn widen<T: Types, P: Pairs>(
    alloc: Global,
    types: &T,
    a: &AbsState<P>,
    b: &AbsState<P>,
    marks: &mut Marks,
) -> Result<AbsState<P>, WidenFault>
    requires first { IsSound (world_types (T.sub types.now) (T.erase types.now) (T.classes types.now) (T.fields types.now)
        (T.can_be_made types.now)) a.now }
    requires second { IsSound (world_types (T.sub types.now) (T.erase types.now) (T.classes types.now) (T.fields types.now)
        (T.can_be_made types.now)) b.now }
    requires alike { AreAlike a.now b.now }
    ensures ok { IfOk result
        (λ wide. IsWidening (world_types (T.sub types.now) (T.erase types.now) (T.classes types.now) (T.fields types.now)
        (T.can_be_made types.now)) a.now b.now wide) }
    ensures wider { IfOk result
        (λ wide. IsInstance (world_types (T.sub types.now) (T.erase types.now) (T.classes types.now) (T.fields types.now)
        (T.can_be_made types.now)) a.now wide
        × IsInstance (world_types (T.sub types.now) (T.erase types.now) (T.classes types.now) (T.fields types.now)
        (T.can_be_made types.now)) b.now wide) }
    ensures sound { IfOk result
        (λ wide. IsSound (world_types (T.sub types.now) (T.erase types.now) (T.classes types.now) (T.fields types.now)
        (T.can_be_made types.now)) wide) }
    ensures err { result ≡ Err TooManyIds → AreTooMany a.now b.now }
{
    a.eq().rise();
    b.eq().rise();
    widening_of(alloc, types, a, b, marks)
}
