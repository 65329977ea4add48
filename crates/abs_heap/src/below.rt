//! What lies below a type.
ghost use Rattle.std.specs.Prelude.{◌≡◌, ◌<◌, ◌&&◌};
ghost use Rattle.jvm_values.specs.Subtyping.{class_type, array_of_numbers};
ghost use Rattle.jvm_values.specs.TypedHeaps.{world_types};
ghost use Rattle.abs_cells.specs.Cells.{is_comparable};
ghost use Rattle.abs_heap.specs.Refining.{lower_of, element_below};

use jvm_values::{Kind, Ty, Types, array_of_numbers, class_type, item_of};

/// The lower one of two types of which one is below the other.
pub(crate) fn lower_of<T: Types>(types: &T, a: Ty, b: Ty) -> Ty
    ensures { result ≡ lower_of (T.sub types.now) a b }
{
    if types.sub(a, b) { a } else { b }
}

/// Whether one of two types is below the other.
pub(crate) fn is_comparable<T: Types>(types: &T, a: Ty, b: Ty) -> bool
    ensures { result ≡ is_comparable (T.sub types.now) a b }
{
    types.sub(a, b) || types.sub(b, a)
}

/// The element type above those of all arrays of references below a type, if it has such arrays.
pub(crate) fn element_below<T: Types>(types: &T, bound: Ty) -> Option<Ty>
    ensures { result ≡ element_below (world_types (T.sub types.now) (T.erase types.now) (T.classes types.now) (T.fields types.now)
        (T.can_be_made types.now)) bound }
{
    let object = class_type(0);
    if types.sub(object, bound) {
        Some(object)
    } else {
        item_of(bound)
    }
}

/// Whether instances of a class may be below a type.
pub(crate) fn is_instance_below<T: Types>(types: &T, bound: Ty, class: u32) -> bool
    requires { class < T.classes types.now }
    ensures { result ≡ (T.can_be_made types.now class && T.sub types.now (class_type class) bound) }
{
    types.can_be_made(class) && types.sub(class_type(class), bound)
}

/// Whether arrays of numbers of a kind are below a type.
pub(crate) fn is_numbers_below<T: Types>(types: &T, bound: Ty, kind: Kind) -> bool
    ensures { result ≡ T.sub types.now (array_of_numbers kind) bound }
{
    types.sub(array_of_numbers(kind), bound)
}
