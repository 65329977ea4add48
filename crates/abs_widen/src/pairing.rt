//! Which ids of a widening may have one object, and which share.
ghost use Rattle.std.specs.Prelude.{◌≡◌, ◌⊎◌, ◌↔◌, ◌+◌, ◌<◌, ◌≤◌, ℕ, List, true, length, if◌then◌else◌, IsTrue, None, Some, OnOk};
ghost use Rattle.std.specs.Prelude.{IfOk, MatchOption};
ghost use Rattle.std.specs.List.{AllByRecursion};
ghost use Rattle.abs_cells.specs.PairLists.{added};
ghost use Rattle.abs_cells.specs.Cells.{cell_in, AreEqual};
ghost use Rattle.abs_cells.specs.Closures.{MayMeet, MayBeIn};
ghost use Rattle.abs_cells.specs.Sound.{AreIdsRising, IsWellFormed};
ghost use Rattle.abs_cells.specs.Limits.{most_ids};
ghost use Rattle.abs_reach.specs.Instances.{MayBeOne};
ghost use Rattle.abs_widen.specs.inner.Pairing.{IsWithin, AreOne, may_join_cells, IsPairedAs, WantsOne, WantsShare, IsPut, AreJoinedTo};
ghost use Rattle.abs_widen.specs.inner.Pairing.{AreJoined};

use abs_cells::{AbsState, Cell, Id, Pairs};
use abs_reach::{Marks, cell_of, has_reference, may_be_in, may_meet};
use std::alloc::{AllocError, Global};

/// Whether two ids are a pair with one object. The pairs rise, so that no id is one with itself.
fn are_equal<P: Pairs>(state: &AbsState<P>, x: Id, y: Id) -> bool
    requires low { (x < 2048) × (y < 2048) }
    ensures { IsTrue result ↔ AreEqual state.now x y }
{
    let pairs = state.eq();
    pairs.rise();
    x != y && pairs.has(x, y)
}

/// Whether two ids may stand for one object.
fn may_be_one<P: Pairs>(state: &AbsState<P>, x: Id, y: Id) -> bool
    requires good { IsWellFormed state.now }
    requires low { (x < 2048) × (y < 2048) }
    ensures { IsTrue result ↔ MayBeOne state.now x y }
{
    (x == y && has_reference(state, x)) || are_equal(state, x, y)
}

/// Whether two pairs may stand for one object on one side.
fn are_one<P: Pairs>(a: &AbsState<P>, b: &AbsState<P>, p: (Id, Id), q: (Id, Id)) -> bool
    requires first { IsWellFormed a.now }
    requires second { IsWellFormed b.now }
    requires p_within { IsWithin a.now b.now p }
    requires q_within { IsWithin a.now b.now q }
    ensures { IsTrue result ↔ (MayBeOne a.now p.0 q.0 ⊎ MayBeOne b.now p.1 q.1) }
{
    may_be_one(a, p.0, q.0) || may_be_one(b, p.1, q.1)
}

/// Whether two pairs may meet on one side.
fn meet<P: Pairs>(
    a: &AbsState<P>,
    b: &AbsState<P>,
    p: (Id, Id),
    q: (Id, Id),
    marks: &mut Marks,
) -> bool
    requires first { IsWellFormed a.now }
    requires second { IsWellFormed b.now }
    requires p_within { IsWithin a.now b.now p }
    requires q_within { IsWithin a.now b.now q }
    ensures { IsTrue result ↔ (MayMeet a.now p.0 q.0 ⊎ MayMeet b.now p.1 q.1) }
{
    may_meet(a, p.0, q.0, marks) || may_meet(b, p.1, q.1, marks)
}

/// Whether a pair may be in another one's region on one side.
fn is_in<P: Pairs>(
    a: &AbsState<P>,
    b: &AbsState<P>,
    p: (Id, Id),
    q: (Id, Id),
    marks: &mut Marks,
) -> bool
    requires first { IsWellFormed a.now }
    requires second { IsWellFormed b.now }
    requires p_within { IsWithin a.now b.now p }
    requires q_within { IsWithin a.now b.now q }
    ensures { IsTrue result ↔ (MayBeIn a.now p.0 q.0 ⊎ MayBeIn b.now p.1 q.1) }
{
    may_be_in(a, p.0, q.0, marks) || may_be_in(b, p.1, q.1, marks)
}

/// Whether two cells are those of references, and not both known.
fn may_join_cells(first: &Cell, second: &Cell) -> bool
    ensures { result ≡ may_join_cells first.now second.now }
{
    first.is_reference() && second.is_reference() && !(first.is_known() && second.is_known())
}

/// Whether two pairs share, beside those that may be one: two hazy ones may meet, a known one may be in a hazy one's region.
fn share<P: Pairs>(
    a: &AbsState<P>,
    b: &AbsState<P>,
    p: (Id, Id),
    q: (Id, Id),
    first: &Cell,
    second: &Cell,
    marks: &mut Marks,
) -> bool
    requires first { IsWellFormed a.now }
    requires second { IsWellFormed b.now }
    requires p_within { IsWithin a.now b.now p }
    requires q_within { IsWithin a.now b.now q }
    requires joins { may_join_cells first.now second.now ≡ true }
    ensures { IsTrue result ↔ IsPairedAs a.now b.now p q first.now second.now }
{
    if first.is_known() {
        is_in(a, b, p, q, marks)
    } else if second.is_known() {
        is_in(a, b, q, p, marks)
    } else {
        meet(a, b, p, q, marks)
    }
}

/// Whether two pairs are to have one object.
fn is_one<P: Pairs>(
    a: &AbsState<P>,
    b: &AbsState<P>,
    p: (Id, Id),
    q: (Id, Id),
    first: &Cell,
    second: &Cell,
) -> bool
    requires first { IsWellFormed a.now }
    requires second { IsWellFormed b.now }
    requires p_within { IsWithin a.now b.now p }
    requires q_within { IsWithin a.now b.now q }
    ensures { IsTrue result ↔ ((may_join_cells first.now second.now ≡ true) × AreOne a.now b.now p q) }
{
    may_join_cells(first, second) && are_one(a, b, p, q)
}

/// Whether two pairs that may join share.
fn are_sharing<P: Pairs>(
    a: &AbsState<P>,
    b: &AbsState<P>,
    p: (Id, Id),
    q: (Id, Id),
    first: &Cell,
    second: &Cell,
    marks: &mut Marks,
) -> bool
    requires first { IsWellFormed a.now }
    requires second { IsWellFormed b.now }
    requires p_within { IsWithin a.now b.now p }
    requires q_within { IsWithin a.now b.now q }
    requires joins { may_join_cells first.now second.now ≡ true }
    ensures { IsTrue result ↔ (AreOne a.now b.now p q ⊎ IsPairedAs a.now b.now p q first.now second.now) }
{
    are_one(a, b, p, q) || share(a, b, p, q, first, second, marks)
}

/// Whether two pairs are to share.
fn is_shared<P: Pairs>(
    a: &AbsState<P>,
    b: &AbsState<P>,
    p: (Id, Id),
    q: (Id, Id),
    first: &Cell,
    second: &Cell,
    marks: &mut Marks,
) -> bool
    requires first { IsWellFormed a.now }
    requires second { IsWellFormed b.now }
    requires p_within { IsWithin a.now b.now p }
    requires q_within { IsWithin a.now b.now q }
    ensures { IsTrue result ↔ ((may_join_cells first.now second.now ≡ true)
        × (AreOne a.now b.now p q ⊎ IsPairedAs a.now b.now p q first.now second.now)) }
{
    may_join_cells(first, second) && are_sharing(a, b, p, q, first, second, marks)
}

/// Puts two ids among others, where that is wanted.
fn put_if<P: Pairs>(list: &mut P, wanted: bool, m: usize, n: usize) -> Result<(), AllocError>
    requires order { m < n }
    requires low { n < most_ids }
    ensures { OnOk result (P.pairs list.new ≡ (if wanted then added m n (P.pairs list.old) else P.pairs list.old)) }
{
    if wanted {
        list.add(m as Id, n as Id)?;
    }
    Ok(())
}

/// Puts two ids with their cells among those with one object, and among those that share, where they are to be.
fn join_cells<P: Pairs>(
    a: &AbsState<P>,
    b: &AbsState<P>,
    pairs: &[(Id, Id)],
    m: usize,
    n: usize,
    first: &Cell,
    second: &Cell,
    eq: &mut P,
    shared: &mut P,
    marks: &mut Marks,
) -> Result<(), AllocError>
    requires first { IsWellFormed a.now }
    requires second { IsWellFormed b.now }
    requires within { AllByRecursion (IsWithin a.now b.now) pairs.now }
    requires few { length pairs.now ≤ most_ids }
    requires order { m < n }
    requires there { n < length pairs.now }
    ensures { OnOk result ((cells : List (ℕ × Cell)) → cell_in cells m ≡ Some first.now → cell_in cells n ≡ Some second.now
        → IsPut (WantsOne a.now b.now pairs.now cells) m n (P.pairs eq.old) (P.pairs eq.new)
        × IsPut (WantsShare a.now b.now pairs.now cells) m n (P.pairs shared.old) (P.pairs shared.new)) }
{
    let one = is_one(a, b, pairs[m], pairs[n], first, second);
    let share = is_shared(a, b, pairs[m], pairs[n], first, second, marks);
    put_if(eq, one, m, n)?;
    put_if(shared, share, m, n)
}

/// The cell of a number among cells that rise, if it has one.
fn cell_at(cells: &[(Id, Cell)], n: usize) -> Option<&Cell>
    requires rising { AreIdsRising 0 cells.now }
    requires low { n < most_ids }
    ensures { MatchOption result (cell_in cells.now n ≡ None) (λ cell. cell_in cells.now n ≡ Some cell.now) }
{
    cell_of(cells, n as Id)
}

/// The same of two ids of which the lower one may have no cell.
fn join_one<P: Pairs>(
    a: &AbsState<P>,
    b: &AbsState<P>,
    pairs: &[(Id, Id)],
    cells: &[(Id, Cell)],
    m: usize,
    n: usize,
    second: &Cell,
    eq: &mut P,
    shared: &mut P,
    marks: &mut Marks,
) -> Result<(), AllocError>
    requires first { IsWellFormed a.now }
    requires second { IsWellFormed b.now }
    requires within { AllByRecursion (IsWithin a.now b.now) pairs.now }
    requires few { length pairs.now ≤ most_ids }
    requires rising { AreIdsRising 0 cells.now }
    requires cell { cell_in cells.now n ≡ Some second.now }
    requires order { m < n }
    requires there { n < length pairs.now }
    ensures { OnOk result (IsPut (WantsOne a.now b.now pairs.now cells.now) m n (P.pairs eq.old) (P.pairs eq.new)
        × IsPut (WantsShare a.now b.now pairs.now cells.now) m n (P.pairs shared.old) (P.pairs shared.new)) }
{
    match cell_at(cells, m) {
        None => Ok(()),
        Some(first) => join_cells(a, b, pairs, m, n, first, second, eq, shared, marks),
    }
}

/// The same of an id with its cell and each lower one.
fn join_below<P: Pairs>(
    a: &AbsState<P>,
    b: &AbsState<P>,
    pairs: &[(Id, Id)],
    cells: &[(Id, Cell)],
    n: usize,
    second: &Cell,
    eq: &mut P,
    shared: &mut P,
    marks: &mut Marks,
) -> Result<(), AllocError>
    requires first { IsWellFormed a.now }
    requires second { IsWellFormed b.now }
    requires within { AllByRecursion (IsWithin a.now b.now) pairs.now }
    requires few { length pairs.now ≤ most_ids }
    requires rising { AreIdsRising 0 cells.now }
    requires cell { cell_in cells.now n ≡ Some second.now }
    requires there { n < length pairs.now }
    requires eq { AreJoinedTo (WantsOne a.now b.now pairs.now cells.now) n 0 (P.pairs eq.old) }
    requires shared { AreJoinedTo (WantsShare a.now b.now pairs.now cells.now) n 0 (P.pairs shared.old) }
    ensures { OnOk result (AreJoinedTo (WantsOne a.now b.now pairs.now cells.now) (n + 1) 0 (P.pairs eq.new)
        × AreJoinedTo (WantsShare a.now b.now pairs.now cells.now) (n + 1) 0 (P.pairs shared.new)) }
{
    for m in 0..n {
        join_one(a, b, pairs, cells, m, n, second, eq, shared, marks)?;
    }
    Ok(())
}

/// The same of an id that may have no cell.
fn join_row<P: Pairs>(
    a: &AbsState<P>,
    b: &AbsState<P>,
    pairs: &[(Id, Id)],
    cells: &[(Id, Cell)],
    n: usize,
    eq: &mut P,
    shared: &mut P,
    marks: &mut Marks,
) -> Result<(), AllocError>
    requires first { IsWellFormed a.now }
    requires second { IsWellFormed b.now }
    requires within { AllByRecursion (IsWithin a.now b.now) pairs.now }
    requires few { length pairs.now ≤ most_ids }
    requires rising { AreIdsRising 0 cells.now }
    requires there { n < length pairs.now }
    requires eq { AreJoinedTo (WantsOne a.now b.now pairs.now cells.now) n 0 (P.pairs eq.old) }
    requires shared { AreJoinedTo (WantsShare a.now b.now pairs.now cells.now) n 0 (P.pairs shared.old) }
    ensures { OnOk result (AreJoinedTo (WantsOne a.now b.now pairs.now cells.now) (n + 1) 0 (P.pairs eq.new)
        × AreJoinedTo (WantsShare a.now b.now pairs.now cells.now) (n + 1) 0 (P.pairs shared.new)) }
{
    match cell_at(cells, n) {
        None => Ok(()),
        Some(second) => join_below(a, b, pairs, cells, n, second, eq, shared, marks),
    }
}

/// Of the ids that have cells, the pairs with one object, and those that share. It costs as many steps as there are pairs of
/// such ids, each with the tests of what ids reach.
pub(crate) fn joined<P: Pairs>(
    alloc: Global,
    a: &AbsState<P>,
    b: &AbsState<P>,
    pairs: &[(Id, Id)],
    cells: &[(Id, Cell)],
    marks: &mut Marks,
) -> Result<(P, P), AllocError>
    requires first { IsWellFormed a.now }
    requires second { IsWellFormed b.now }
    requires within { AllByRecursion (IsWithin a.now b.now) pairs.now }
    requires few { length pairs.now ≤ most_ids }
    requires rising { AreIdsRising 0 cells.now }
    ensures { IfOk result (λ both. AreJoined (WantsOne a.now b.now pairs.now cells.now) (P.pairs both.0)
        × AreJoined (WantsShare a.now b.now pairs.now cells.now) (P.pairs both.1)) }
{
    let mut eq = P::empty(alloc);
    let mut shared = P::empty(alloc);
    for n in 0..pairs.len() {
        join_row(a, b, pairs, cells, n, &mut eq, &mut shared, marks)?;
    }
    eq.rise();
    shared.rise();
    Ok((eq, shared))
}
