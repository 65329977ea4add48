//! Maps of ids to ids, as lists of ids with their images.
ghost use Rattle.std.specs.Prelude.{◌≡◌, ◌<◌, ◌↔◌, ℕ, IsTrue, true, map, Some, None};
ghost use Rattle.abs_cells.specs.Cells.{cell_in, is_of_sort};
ghost use Rattle.abs_cells.specs.Sound.{AreIdsRising};
ghost use Rattle.abs_reach.specs.Instances.{image_in};
ghost use Rattle.abs_reach.specs.Keys.{AreKeysRising};
ghost use Rattle.abs_match.specs.inner.Matching.{HasImage, IsLeastOf};

use crate::least::lower_of;
use abs_cells::{Cell, Id, ids_rise};
use abs_reach::{cell_of, place_of};

/// Whether the keys of a map are the ids of cells, in their order.
fn has_keys(cells: &[(Id, Cell)], entries: &[(Id, Id)]) -> bool
    ensures { IsTrue result ↔ (map (λ entry. entry.0) entries.now ≡ map (λ c. c.0) cells.now) }
{
    if cells.len() != entries.len() {
        return false;
    }
    for (place, (id, _cell)) in cells.iter().enumerate() {
        if entries[place].0 != *id {
            return false;
        }
    }
    true
}

/// Whether a map lists the ids of cells, each once and rising.
pub(crate) fn lists_ids(cells: &[(Id, Cell)], entries: &[(Id, Id)]) -> bool
    ensures { IsTrue result ↔ ((map (λ entry. entry.0) entries.now ≡ map (λ c. c.0) cells.now) × AreIdsRising 0 cells.now) }
{
    has_keys(cells, entries) && ids_rise(cells)
}

/// The image of an id.
pub(crate) fn image_of(entries: &[(Id, Id)], id: Id) -> Option<Id>
    requires { AreKeysRising 0 entries.now }
    ensures { result ≡ image_in entries.now id }
{
    match place_of(entries, id) {
        Some(place) => Some(entries[place].1),
        None => None,
    }
}

/// The id, if what is found in its place is not its image.
pub(crate) fn unmet(entries: &[(Id, Id)], id: Option<Id>, found: Option<Id>) -> Option<Id>
    requires { AreKeysRising 0 entries.now }
    ensures { IsLeastOf (λ n. id ≡ Some n → HasImage entries.now n found) result }
{
    let key = id?;
    let image = image_of(entries, key);
    if image.is_some() && image == found {
        None
    } else {
        Some(key)
    }
}

/// The id, if its image has no cell.
fn without_cell(cells: &[(Id, Cell)], id: Id, image: Id) -> Option<Id>
    requires { AreIdsRising 0 cells.now }
    ensures { IsLeastOf (λ n. n ≡ id → is_of_sort (λ _. true) (cell_in cells.now image) ≡ true) result }
{
    match cell_of(cells, image) {
        Some(_) => None,
        None => Some(id),
    }
}

/// The least id whose image has no cell.
pub(crate) fn least_unmapped(cells: &[(Id, Cell)], entries: &[(Id, Id)]) -> Option<Id>
    requires keys { AreKeysRising 0 entries.now }
    requires rising { AreIdsRising 0 cells.now }
    ensures { IsLeastOf (λ id. (image : ℕ) → image_in entries.now id ≡ Some image
        → is_of_sort (λ _. true) (cell_in cells.now image) ≡ true) result }
{
    let mut least = None;
    for (id, image) in entries {
        least = lower_of(least, without_cell(cells, *id, *image));
    }
    least
}
