//! The join of two reference types.
ghost use Rattle.std.specs.Prelude.{◌≡◌, ◌<◌, ◌-◌, ◌↔◌, IsTrue, None, Some};
ghost use Rattle.jvm_values.specs.Subtyping.{IsReference};
ghost use Rattle.jvm_values.specs.Joins.{IsErasedAbove, IsJoin, AreApart, item_of};

use crate::types::{Base, Ty};
use crate::world_types::Types;

/// The type of the items of an array of references, or None where the type is no such array.
pub fn item_of(t: Ty) -> Option<Ty>
    ensures { result ≡ item_of t }
{
    match t.base {
        Base::Class(_) if t.dims > 0 => Some(under_one(t)),
        Base::Num(_) if t.dims > 1 => Some(under_one(t)),
        _ => None,
    }
}

/// The type with one dimension less.
fn under_one(t: Ty) -> Ty
    requires { 0 < t.dims }
    ensures { result ≡ record { dims = t.dims - 1; base = t.base } }
{
    Ty {
        dims: t.dims - 1,
        base: t.base,
    }
}

/// Whether a type is its own erasure and both types are below it.
fn is_erased_above<T: Types>(types: &T, a: Ty, b: Ty, top: Ty) -> bool
    ensures { IsTrue result ↔ IsErasedAbove (T.sub types.now) (T.erase types.now) a b top }
{
    types.sub(a, top) && types.sub(b, top) && types.erase(top) == top
}

/// The least class that is its own erasure and that both types are below.
fn least_class<T: Types>(types: &T, a: Ty, b: Ty) -> Ty
    requires left { IsReference (T.classes types.now) a }
    requires right { IsReference (T.classes types.now) b }
    requires class { a.dims ≡ 0 }
    ensures { IsJoin (T.sub types.now) (T.erase types.now) a b result }
{
    let mut least = Ty {
        dims: 0,
        base: Base::Class(0),
    };
    for class in 0..types.classes() {
        let top = Ty {
            dims: 0,
            base: Base::Class(class),
        };
        if is_erased_above(types, a, b, top) && types.sub(top, least) {
            least = top;
        }
    }
    least
}

/// The join of two types that are not both arrays of references.
fn join_apart<T: Types>(types: &T, a: Ty, b: Ty) -> Ty
    requires left { IsReference (T.classes types.now) a }
    requires right { IsReference (T.classes types.now) b }
    requires apart { AreApart a b }
    ensures { IsJoin (T.sub types.now) (T.erase types.now) a b result }
{
    if is_erased_above(types, a, b, a) {
        a
    } else if is_erased_above(types, a, b, b) {
        b
    } else if a.dims == 0 {
        least_class(types, a, b)
    } else if b.dims == 0 {
        least_class(types, b, a)
    } else {
        Ty {
            dims: 0,
            base: Base::Class(0),
        }
    }
}

/// The least type that is its own erasure and that both types are below. There is one, since the erased types above
/// one type form a chain and `java/lang/Object` is above all.
///
/// It costs one look at each class of the world where neither type is above the other and its own erasure.
pub fn join<T: Types>(types: &T, a: Ty, b: Ty) -> Ty
    requires left { IsReference (T.classes types.now) a }
    requires right { IsReference (T.classes types.now) b }
    ensures { IsJoin (T.sub types.now) (T.erase types.now) a b result }
{
    if let (Some(x), Some(y)) = (item_of(a), item_of(b)) {
        let items = join(types, x, y);
        Ty {
            dims: items.dims + 1,
            base: items.base,
        }
    } else {
        join_apart(types, a, b)
    }
}
