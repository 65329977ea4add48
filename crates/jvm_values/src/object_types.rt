//! The types of objects.
ghost use Rattle.std.specs.Prelude.{◌≡◌, ◌<◌, MatchOption};
ghost use Rattle.jvm_values.specs.TypedHeaps.{type_of};

use crate::heap::Object;
use crate::types::{Base, Ty};
use crate::world_types::Types;

/// The exact type of an object; None for an array of more than 255 dimensions, which no world has.
fn type_of(object: &Object) -> Option<Ty>
    ensures { MatchOption result (255 < (type_of object.now).dims) (λ t. t ≡ type_of object.now) }
{
    match object {
        Object::Instance { class, fields: _ } => Some(Ty {
            dims: 0,
            base: Base::Class(*class),
        }),
        Object::Nums { kind, items: _ } => Some(Ty {
            dims: 1,
            base: Base::Num(*kind),
        }),
        Object::Refs { element, items: _ } => {
            if element.dims == 255 {
                None
            } else {
                Some(Ty {
                    dims: element.dims + 1,
                    base: element.base,
                })
            }
        }
    }
}

/// Whether an object is of a type or one below it.
pub fn is_object_below<T: Types>(types: &T, object: &Object, t: Ty) -> bool
    ensures { result ≡ T.sub types.now (type_of object.now) t }
{
    match type_of(object) {
        Some(own) => types.sub(own, t),
        None => false,
    }
}
