//! Values and objects that a state gives, tested.
ghost use Rattle.std.specs.Prelude.{◌≡◌, ◌<◌, length};
ghost use Rattle.std.specs.List.{list_all, position_from};
ghost use Rattle.std.specs.Option.{option_copied};
ghost use Rattle.jvm_values.specs.declared.heap.Object.TheVariants.{Instance, Refs};
ghost use Rattle.class_world.specs.Worlds.{classes_of};
ghost use Rattle.class_world.specs.WorldTypes.{types_of};
ghost use Rattle.input_desc.specs.Typed.{object_of, object_at, first_unfit, has_type, is_of_kind, is_held, all_fit, is_typed, is_bad};

use crate::names::type_named;
use class_world::World;
use input_text::ObjectText;
use jvm_values::{Kind, Object, Slot, Ty, Types, Value, is_object_below};

/// The object that a text says, where its names are there.
#[tactic(auto, unfolding(crate::specs::Typed::object_of))]
pub(crate) fn object(world: &World<'_>, text: ObjectText) -> Option<Object>
    ensures { result ≡ object_of (classes_of world.now) text }
{
    match text {
        ObjectText::Instance { class, fields } => match world.class_of(class.as_slice()) {
            Some(class) => Some(Object::Instance { class, fields }),
            None => None,
        },
        ObjectText::Nums { kind, items } => Some(Object::Nums { kind, items }),
        ObjectText::Refs { element, items } => match type_named(world, element.as_slice()) {
            Some(element) => Some(Object::Refs { element, items }),
            None => None,
        },
    }
}

/// The object of a number, where it is there.
fn object_at(objects: &[Option<Object>], number: u32) -> Option<&Object>
    ensures { option_copied result ≡ object_at objects.now number }
{
    match objects.get(number as usize) {
        Some(Some(object)) => Some(object),
        Some(None) => None,
        None => None,
    }
}

/// Whether a value is null, or an object of a type or below it.
fn has_type(world: &World<'_>, objects: &[Option<Object>], t: Ty, value: Value) -> bool
    ensures { result ≡ has_type (types_of (classes_of world.now)) objects.now t value }
{
    match value {
        Value::Int(_) => false,
        Value::Null => true,
        Value::Ref(r) => match object_at(objects, r) {
            Some(object) => is_object_below(world, object, t),
            None => false,
        },
    }
}

/// Whether a number is of a kind.
fn is_of_kind(kind: Kind, number: &i32) -> bool
    ensures { result ≡ is_of_kind kind number.now }
{
    kind.least() <= *number && *number <= kind.greatest()
}

/// Whether a value may stand in a field.
fn is_held(world: &World<'_>, objects: &[Option<Object>], slot: Slot, value: Value) -> bool
    ensures { result ≡ is_held (types_of (classes_of world.now)) objects.now slot value }
{
    match slot {
        Slot::Num(kind) => match value {
            Value::Int(number) => is_of_kind(kind, &number),
            Value::Null => false,
            Value::Ref(_) => false,
        },
        Slot::Ref(t) => has_type(world, objects, world.erase(t), value),
    }
}

/// The number of the first value that may not stand in its field.
pub(crate) fn first_held(
    world: &World<'_>,
    objects: &[Option<Object>],
    slots: &[Slot],
    values: &[Value],
) -> Option<usize>
    requires { length values.now ≡ length slots.now }
    ensures { result ≡ first_unfit (is_held (types_of (classes_of world.now)) objects.now) 0 slots.now values.now }
{
    for n in 0..slots.len() {
        if !is_held(world, objects, slots[n], values[n]) {
            return Some(n);
        }
    }
    None
}

/// Whether each value is one that may stand in its field, and there are as many.
fn all_held(world: &World<'_>, objects: &[Option<Object>], slots: &[Slot], values: &[Value]) -> bool
    ensures { result ≡ all_fit (is_held (types_of (classes_of world.now)) objects.now) slots.now values.now }
{
    if slots.len() != values.len() {
        return false;
    }
    first_held(world, objects, slots, values).is_none()
}

/// Whether all numbers are of a kind.
fn are_of_kind(kind: Kind, numbers: &[i32]) -> bool
    ensures { result ≡ list_all (is_of_kind kind) numbers.now }
{
    for number in numbers {
        if !is_of_kind(kind, number) {
            return false;
        }
    }
    true
}

/// Whether all values have a type.
fn have_type(world: &World<'_>, objects: &[Option<Object>], t: Ty, values: &[Value]) -> bool
    ensures { result ≡ list_all (has_type (types_of (classes_of world.now)) objects.now t) values.now }
{
    for value in values {
        if !has_type(world, objects, t, *value) {
            return false;
        }
    }
    true
}

/// The most items of an array.
const MOST_ITEMS: usize = 2_147_483_647;

/// Whether an instance is typed.
fn is_typed_instance(
    world: &World<'_>,
    objects: &[Option<Object>],
    class: u32,
    fields: &[Value],
) -> bool
    ensures { result ≡ is_typed (types_of (classes_of world.now)) objects.now (Instance class fields.now) }
{
    class < world.classes()
        && world.can_be_made(class)
        && all_held(world, objects, world.fields(class), fields)
}

/// Whether an array of references is typed.
fn is_typed_array(
    world: &World<'_>,
    objects: &[Option<Object>],
    element: Ty,
    items: &[Value],
) -> bool
    ensures { result ≡ is_typed (types_of (classes_of world.now)) objects.now (Refs element items.now) }
{
    items.len() <= MOST_ITEMS && element.dims < 255 && have_type(world, objects, element, items)
}

/// Whether an object is typed.
fn is_typed(world: &World<'_>, objects: &[Option<Object>], object: &Object) -> bool
    ensures { result ≡ is_typed (types_of (classes_of world.now)) objects.now object.now }
{
    match object {
        Object::Instance { class, fields } => {
            is_typed_instance(world, objects, *class, fields.as_slice())
        }
        Object::Nums { kind, items } => {
            items.len() <= MOST_ITEMS && are_of_kind(*kind, items.as_slice())
        }
        Object::Refs { element, items } => {
            is_typed_array(world, objects, *element, items.as_slice())
        }
    }
}

/// Whether an object isn't there, or not typed.
fn is_bad(world: &World<'_>, objects: &[Option<Object>], object: &Option<Object>) -> bool
    ensures { result ≡ is_bad (types_of (classes_of world.now)) objects.now object.now }
{
    match object {
        Some(object) => !is_typed(world, objects, object),
        None => true,
    }
}

/// The number of the first object that isn't there, or not typed.
pub(crate) fn first_bad(world: &World<'_>, objects: &[Option<Object>]) -> Option<usize>
    ensures { result ≡ position_from (is_bad (types_of (classes_of world.now)) objects.now) 0 objects.now }
{
    for (n, object) in objects.iter().enumerate() {
        if is_bad(world, objects, object) {
            return Some(n);
        }
    }
    None
}
