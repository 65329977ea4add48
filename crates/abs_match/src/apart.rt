//! The images of the ids that are no pair with an id.
ghost use Rattle.std.specs.Prelude.{◌≡◌, ◌<◌, ◌==◌, ◌&&◌, ◌||◌, ◌↔◌, ℕ, true, map, length, slice_index_or};
ghost use Rattle.abs_cells.specs.IdSets.{has_id};
ghost use Rattle.abs_cells.specs.Sound.{AreIdsRising};
ghost use Rattle.abs_reach.specs.Keys.{AreKeysRising};
ghost use Rattle.abs_match.specs.inner.Matching.{is_wanted, is_other, IsApartImage};

use crate::clauses::OtherSort;
use abs_cells::{Cell, Id, IdSet, Pairs};

/// Whether a cell is of a sort.
fn is_wanted(sort: OtherSort, cell: &Cell) -> bool
    ensures { result ≡ is_wanted sort cell.now }
{
    match sort {
        OtherSort::NoInt => !cell.is_int(),
        OtherSort::Known => cell.is_known(),
        OtherSort::Hazy => cell.is_hazy(),
    }
}

/// Whether a cell is of a sort, its id is another one than `id`, and the two are no pair.
fn is_other<P: Pairs>(pairs: &P, sort: OtherSort, id: Id, other: Id, cell: &Cell) -> bool
    requires { (id < 2048) × (other < 2048) }
    ensures { result ≡ is_other sort id (P.pairs pairs.now) (other, cell.now) }
{
    is_wanted(sort, cell) && other != id && !pairs.has(id, other)
}

/// Puts a number into a set if it is wanted there.
fn put_if(images: &mut IdSet, wanted: bool, image: Id)
    requires { image < 2048 }
    ensures { (n : ℕ) → has_id images.new n ≡ ((wanted && (n == image)) || has_id images.old n) }
{
    if wanted {
        images.put(image);
    }
}

/// The images of the ids of a sort that are no pair with an id.
pub(crate) fn apart_images<P: Pairs>(
    cells: &[(Id, Cell)],
    entries: &[(Id, Id)],
    pairs: &P,
    sort: OtherSort,
    id: Id,
) -> IdSet
    requires keys { map (λ entry. entry.0) entries.now ≡ map (λ c. c.0) cells.now }
    requires rising { AreIdsRising 0 cells.now }
    requires entries_rise { AreKeysRising 0 entries.now }
    requires low { id < 2048 }
    requires images { (n : ℕ) → n < length entries.now → (slice_index_or entries.now n (0, 0)).1 < 2048 }
    ensures { (image : ℕ) → (has_id result image ≡ true) ↔ IsApartImage cells.now entries.now (P.pairs pairs.now) (is_wanted sort)
        id image }
{
    let mut images = IdSet::new();
    for (place, (other, cell)) in cells.iter().enumerate() {
        let wanted = is_other(pairs, sort, id, *other, cell);
        put_if(&mut images, wanted, entries[place].1);
    }
    images
}
