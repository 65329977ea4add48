//! Whether a cell describes whatever another one does.
ghost use Rattle.std.specs.Prelude.{◌≡◌, ◌↔◌, ℕ, List, IsTrue, Some, map};
ghost use Rattle.jvm_values.specs.declared.types.Ty.{Ty};
ghost use Rattle.abs_cells.specs.declared.cells.Cell.TheVariants.{Int, Null, Obj, Nums, Refs};
ghost use Rattle.abs_cells.specs.Cells.{type_of_cell};
ghost use Rattle.jvm_values.specs.Subtyping.{array_of};
ghost use Rattle.abs_cells.specs.Sound.{AreIdsRising};
ghost use Rattle.abs_reach.specs.Instances.{image_in, IsOver, IsArrayUnder, HasImageUnder};
ghost use Rattle.abs_reach.specs.Keys.{AreKeysRising};
ghost use Rattle.abs_match.specs.inner.Matching.{image_is, over_int, is_type_below, over_unknown};

use crate::maps::image_of;
use abs_cells::lin_core::Interval;
use abs_cells::{AbsState, Cell, Id, Ids, Pairs};
use abs_reach::cell_of;
use jvm_values::{Kind, Ty, Types, array_of_numbers, class_type};

/// Whether an id's image is this one.
fn has_image(entries: &[(Id, Id)], id: Id, image: Id) -> bool
    requires { AreKeysRising 0 entries.now }
    ensures { result ≡ image_is (image_in entries.now id) image }
{
    match image_of(entries, id) {
        Some(found) => found == image,
        None => false,
    }
}

/// Whether the images of ids are these.
fn have_images(entries: &[(Id, Id)], ids: &[Id], images: &[Id]) -> bool
    requires { AreKeysRising 0 entries.now }
    ensures { IsTrue result ↔ (map (image_in entries.now) ids.now ≡ map Some images.now) }
{
    if ids.len() != images.len() {
        return false;
    }
    for (place, id) in ids.iter().enumerate() {
        if !has_image(entries, *id, images[place]) {
            return false;
        }
    }
    true
}

/// Whether a cell is that of an int of the interval.
fn is_int_within(outer: &Interval, cell: &Cell) -> bool
    ensures { result ≡ over_int outer.now cell.now }
{
    match cell {
        Cell::Int(inner) => outer.lo() <= inner.lo() && inner.hi() <= outer.hi(),
        _ => false,
    }
}

/// Whether a cell is that of an instance of the class whose fields have the images of these ids.
fn is_instance_over(entries: &[(Id, Id)], class: u32, ids: &Ids, cell: &Cell) -> bool
    requires { AreKeysRising 0 entries.now }
    ensures { IsTrue result ↔
        ((images : List ℕ) × ((cell.now ≡ Obj class images) × (map (image_in entries.now) ids.now ≡ map Some images))) }
{
    match cell {
        Cell::Obj(other, images) => {
            *other == class && have_images(entries, ids.as_slice(), images.as_slice())
        }
        _ => false,
    }
}

/// Whether a cell is that of an array of numbers of the kind, whose length has the image of this one.
fn is_numbers_over(entries: &[(Id, Id)], kind: Kind, len: Id, cell: &Cell) -> bool
    requires { AreKeysRising 0 entries.now }
    ensures { IsTrue result ↔ ((image : ℕ) × ((cell.now ≡ Nums kind image) × (image_in entries.now len ≡ Some image))) }
{
    match cell {
        Cell::Nums(other, image) => *other == kind && has_image(entries, len, *image),
        _ => false,
    }
}

/// Whether a cell is that of an array of references below the element type, whose length has the image of this one.
fn is_array_over<T: Types>(
    types: &T,
    entries: &[(Id, Id)],
    element: Ty,
    len: Id,
    cell: &Cell,
) -> bool
    requires { AreKeysRising 0 entries.now }
    ensures { IsTrue result ↔ IsArrayUnder (T.sub types.now) entries.now element len cell.now }
{
    match cell {
        Cell::Refs(item, image, _) => types.sub(*item, element) && has_image(entries, len, *image),
        _ => false,
    }
}

/// Whether a cell tells of its object a type below a bound.
fn is_below<T: Types>(types: &T, bound: Ty, cell: &Cell) -> bool
    ensures { result ≡ is_type_below (T.sub types.now) bound (type_of_cell cell.now) }
{
    match cell {
        Cell::Int(_) | Cell::Null => false,
        Cell::Obj(class, _) => types.sub(class_type(*class), bound),
        Cell::Nums(kind, _) => types.sub(array_of_numbers(*kind), bound),
        Cell::Refs(element, _, _) => is_array_below(types, *element, bound),
        Cell::Unk(other, _, _) => types.sub(*other, bound),
    }
}

/// Whether the arrays of a type are below a bound. An array has at most 255 dimensions.
fn is_array_below<T: Types>(types: &T, element: Ty, bound: Ty) -> bool
    ensures { result ≡ T.sub types.now (array_of element) bound }
{
    if element.dims == 255 {
        return false;
    }
    let array = Ty {
        dims: element.dims + 1,
        base: element.base,
    };
    types.sub(array, bound)
}

/// Whether a cell is `Null` or of a type below a bound, and may describe null only where that is allowed.
fn is_under_bound<T: Types>(types: &T, bound: Ty, nullable: bool, cell: &Cell) -> bool
    ensures { result ≡ over_unknown (T.sub types.now) bound nullable cell.now }
{
    (!cell.can_be_null() || nullable) && (cell.is_null() || is_below(types, bound, cell))
}

/// Whether a cell of the target describes whatever another one does.
fn is_over<T: Types>(types: &T, entries: &[(Id, Id)], cell: &Cell, below: &Cell) -> bool
    requires { AreKeysRising 0 entries.now }
    ensures { IsTrue result ↔ IsOver (T.sub types.now) entries.now cell.now below.now }
{
    match cell {
        Cell::Int(outer) => is_int_within(outer, below),
        Cell::Null => below.is_null(),
        Cell::Obj(class, ids) => is_instance_over(entries, *class, ids, below),
        Cell::Nums(kind, len) => is_numbers_over(entries, *kind, *len, below),
        Cell::Refs(element, len, _) => is_array_over(types, entries, *element, *len, below),
        Cell::Unk(bound, nullable, _) => is_under_bound(types, *bound, *nullable, below),
    }
}

/// Whether the image of an id has a cell under the id's own.
pub(crate) fn is_covered<T: Types, P: Pairs>(
    types: &T,
    state: &AbsState<P>,
    entries: &[(Id, Id)],
    id: Id,
    cell: &Cell,
) -> bool
    requires keys { AreKeysRising 0 entries.now }
    requires rising { AreIdsRising 0 state.now.cells }
    ensures { IsTrue result ↔ HasImageUnder (T.sub types.now) state.now entries.now id cell.now }
{
    match image_of(entries, id) {
        Some(image) => match cell_of(state.cells(), image) {
            Some(below) => is_over(types, entries, cell, below),
            None => false,
        },
        None => false,
    }
}
