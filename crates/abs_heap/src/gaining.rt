//! Pairs put among others: of the wanted ones those that may stand.
ghost use Rattle.std.specs.Prelude.{◌≡◌, ◌≢◌, ◌↔◌, ℕ, true, IsTrue, OnOk, slice_get};
ghost use Rattle.abs_cells.specs.Cells.{is_known, is_of_sort, cell_in};
ghost use Rattle.abs_cells.specs.IdSets.{has_id};
ghost use Rattle.abs_cells.specs.PairLists.{IsRising, has};
ghost use Rattle.abs_cells.specs.Sound.{AreIdsRising, may_join};
ghost use Rattle.abs_heap.specs.inner.Building.{Gains, IsThis};
ghost use Rattle.abs_heap.specs.Names.{name_in, IsImage};

use crate::compatible::put_if;
use crate::naming::name_of;
use abs_cells::{Cell, Id, IdSet, Pairs, is_pair};
use abs_reach::{cell_of, is_reference_in};
use std::alloc::AllocError;

/// Whether an id has a known cell.
fn is_known_in(cells: &[(Id, Cell)], id: Id) -> bool
    requires { AreIdsRising 0 cells.now }
    ensures { result ≡ is_of_sort is_known (cell_in cells.now id) }
{
    match cell_of(cells, id) {
        Some(cell) => cell.is_known(),
        None => false,
    }
}

/// Whether two ids may be a pair.
fn may_join(cells: &[(Id, Cell)], a: Id, b: Id) -> bool
    requires { AreIdsRising 0 cells.now }
    ensures { result ≡ may_join cells.now a b }
{
    is_reference_in(cells, a)
        && is_reference_in(cells, b)
        && !(is_known_in(cells, a) && is_known_in(cells, b))
}

/// Whether a pair may stand: its ids differ and may join.
fn may_be_pair(cells: &[(Id, Cell)], a: Id, b: Id) -> bool
    requires { AreIdsRising 0 cells.now }
    ensures { IsTrue result ↔ ((a ≢ b) × (may_join cells.now a b ≡ true)) }
{
    a != b && may_join(cells, a, b)
}

/// Adds a pair if it may stand.
pub(crate) fn put_pair<P: Pairs>(
    cells: &[(Id, Cell)],
    a: Id,
    b: Id,
    pairs: &mut P,
) -> Result<(), AllocError>
    requires { AreIdsRising 0 cells.now }
    ensures { OnOk result (Gains cells.now (IsThis a b) (P.pairs pairs.old) (P.pairs pairs.new)) }
{
    if may_be_pair(cells, a, b) {
        pairs.add(a, b)?;
    }
    Ok(())
}

/// The pair at a place of a list.
pub(crate) fn pair_at(listed: &[(Id, Id)], n: usize) -> Option<(Id, Id)>
    ensures { result ≡ slice_get listed.now n }
{
    listed.get(n).copied()
}

/// Adds those of some pairs that may stand, each under its names.
pub(crate) fn put_named<P: Pairs>(
    names: &[(Id, Id)],
    old: &[(Id, Id)],
    cells: &[(Id, Cell)],
    pairs: &mut P,
) -> Result<(), AllocError>
    requires cells { AreIdsRising 0 cells.now }
    requires pairs { IsRising old.now }
    ensures { OnOk result (Gains cells.now (IsImage (name_in names.now) (λ x y. has x y old.now ≡ true)) (P.pairs pairs.old)
        (P.pairs pairs.new)) }
{
    let mut n = 0;
    while let Some((a, b)) = pair_at(old, n) {
        put_pair(cells, name_of(names, a), name_of(names, b), pairs)?;
        n += 1;
    }
    Ok(())
}

/// Adds a pair if its other id is in a set and it may stand.
fn put_pair_in<P: Pairs>(
    cells: &[(Id, Cell)],
    id: Id,
    other: Id,
    others: &IdSet,
    pairs: &mut P,
) -> Result<(), AllocError>
    requires { AreIdsRising 0 cells.now }
    ensures { OnOk result (Gains cells.now (λ c d. (c ≡ id) × ((has_id others.now d ≡ true) × (d ≡ other))) (P.pairs pairs.old)
        (P.pairs pairs.new)) }
{
    if others.has(other) {
        put_pair(cells, id, other, pairs)?;
    }
    Ok(())
}

/// Adds the pairs of an id with each id of a set that may stand.
pub(crate) fn put_with<P: Pairs>(
    cells: &[(Id, Cell)],
    id: Id,
    others: &IdSet,
    pairs: &mut P,
) -> Result<(), AllocError>
    requires { AreIdsRising 0 cells.now }
    ensures { OnOk result (Gains cells.now (λ c d. (c ≡ id) × (has_id others.now d ≡ true)) (P.pairs pairs.old) (P.pairs pairs.new)) }
{
    for (other, _cell) in cells {
        put_pair_in(cells, id, *other, others, pairs)?;
    }
    Ok(())
}

/// Adds the pairs of an id with each id of a set that may stand, if it is in a set itself.
fn put_with_in<P: Pairs>(
    cells: &[(Id, Cell)],
    id: Id,
    ids: &IdSet,
    others: &IdSet,
    pairs: &mut P,
) -> Result<(), AllocError>
    requires { AreIdsRising 0 cells.now }
    ensures { OnOk result (Gains cells.now (λ c d. ((has_id ids.now c ≡ true) × (c ≡ id)) × (has_id others.now d ≡ true))
        (P.pairs pairs.old) (P.pairs pairs.new)) }
{
    if ids.has(id) {
        put_with(cells, id, others, pairs)?;
    }
    Ok(())
}

/// Adds the pairs of each id of one set with each of another that may stand.
pub(crate) fn put_between<P: Pairs>(
    cells: &[(Id, Cell)],
    ids: &IdSet,
    others: &IdSet,
    pairs: &mut P,
) -> Result<(), AllocError>
    requires { AreIdsRising 0 cells.now }
    ensures { OnOk result (Gains cells.now (λ c d. (has_id ids.now c ≡ true) × (has_id others.now d ≡ true)) (P.pairs pairs.old)
        (P.pairs pairs.new)) }
{
    for (id, _cell) in cells {
        put_with_in(cells, *id, ids, others, pairs)?;
    }
    Ok(())
}

/// The ids that are a pair with an id.
pub(crate) fn partners<P: Pairs>(pairs: &P, id: Id) -> IdSet
    ensures { (n : ℕ) → has_id result n ≡ has id n (P.pairs pairs.now) }
{
    let mut set = IdSet::new();
    pairs.rise();
    for other in 0..2048 {
        let wanted = is_pair(pairs, id, other);
        put_if(&mut set, wanted, other);
    }
    set
}
