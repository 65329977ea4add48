//! Types by their texts.
ghost use Rattle.std.specs.Prelude.{◌≡◌};
ghost use Rattle.class_world.specs.Worlds.{classes_of};
ghost use Rattle.input_desc.specs.TypeNames.{array_of_type, type_named};

use class_base::{FieldType, field_type, is_class_name};
use class_world::{Meaning, World};
use jvm_values::{Base, Slot, Ty};

/// The type of an array's descriptor.
#[tactic(auto, unfolding(crate::specs::TypeNames::array_of_type))]
fn array_of_type(world: &World<'_>, found: &FieldType<'_>) -> Option<Ty>
    ensures { result ≡ array_of_type (classes_of world.now) found.now }
{
    if found.dims == 0 {
        return None;
    }
    match world.meaning_of(found) {
        Meaning::Known(Slot::Ref(t)) => Some(t),
        Meaning::Known(Slot::Num(_)) => None,
        Meaning::Unsupported => None,
        Meaning::Missing(_) => None,
    }
}

/// The type that a text names: a class by its name, or an array type by its descriptor.
#[tactic(auto, unfolding(crate::specs::TypeNames::type_named))]
pub(crate) fn type_named(world: &World<'_>, text: &[u8]) -> Option<Ty>
    ensures { result ≡ type_named (classes_of world.now) text.now }
{
    if is_class_name(text) {
        let class = world.class_of(text)?;
        Some(Ty {
            dims: 0,
            base: Base::Class(class),
        })
    } else {
        let found = field_type(text)?;
        array_of_type(world, &found)
    }
}
