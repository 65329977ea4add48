//! Instructions that write to objects or to static fields.
ghost use Rattle.std.specs.Prelude.{◌≡◌, ◌<◌, length, slice_set, IfSome};
ghost use Rattle.std.specs.Option.{option_map};
ghost use Rattle.jvm_values.specs.States.{frame_of};
ghost use Rattle.jvm_values.specs.TypedHeaps.{WorldTypes};
ghost use Rattle.jvm_values.specs.Writes.{with_value};
ghost use Rattle.jvm_step.specs.Acts.{Acts, with_number_in, with_number_of};
ghost use Rattle.jvm_step.specs.Operands.{object_at, kept};
ghost use Rattle.jvm_step.specs.Effects.{with_item, numbers_in, index_below, putfield_effect, putstatic_effect, number_store_effect};

use crate::after::After;
use crate::built_ins::{ARRAY_INDEX_OUT_OF_BOUNDS_EXCEPTION, NULL_POINTER_EXCEPTION};
use crate::operands::{int_at, reference_at, take, value_at};
use crate::reads::{is_for, object_at};
use class_program::{FieldUse, StaticField};
use jvm_values::{Frame, Heap, Kind, Object, Slot, Value};
use list_views::Seq;
use op_forms::ItemKind;
use std::alloc::Global;
use std::mem;

/// What a field keeps of a value.
fn kept(slot: Slot, value: Value) -> Value
    ensures { result ≡ kept slot value }
{
    match (slot, value) {
        (Slot::Num(kind), Value::Int(n)) => Value::Int(kind.narrow(n)),
        _ => value,
    }
}

/// Sets a value of a list, where it has one there.
fn set_value(values: &mut Seq<Value>, place: usize, value: Value)
    ensures { values.new ≡ slice_set values.old place value }
{
    if place < values.len() {
        *values.at_mut(place) = value;
    }
}

/// Sets a field or an item of an object.
fn set_in(object: &mut Object, place: usize, value: Value)
    ensures { object.new ≡ with_value place value object.old }
{
    match object {
        Object::Instance { class: _, fields } => set_value(fields, place, value),
        Object::Nums { kind: _, items: _ } => {}
        Object::Refs { element: _, items } => set_value(items, place, value),
    }
}

/// Sets a number of an array.
fn set_number(object: &mut Object, i: usize, n: i32)
    ensures { object.new ≡ with_number_in i n object.old }
{
    match object {
        Object::Instance {
            class: _,
            fields: _,
        } => {}
        Object::Nums { kind: _, items } => {
            if i < items.len() {
                *items.at_mut(i) = n;
            }
        }
        Object::Refs {
            element: _,
            items: _,
        } => {}
    }
}

/// Sets a field or an item of the object of a number.
pub(crate) fn set_item(alloc: Global, heap: &mut Heap, r: u32, place: usize, value: Value)
    ensures { IfSome (object_at heap.old r) (λ object. heap.new ≡ with_item heap.old r place value object) }
{
    let mut objects = mem::replace(&mut heap.objects, Seq::new(alloc)).into_vec();
    if (r as usize) < objects.len() {
        set_in(&mut objects[r as usize], place, value);
    }
    heap.objects = Seq::from_vec(objects);
}

/// Sets a number of the array of a number.
fn set_number_of(alloc: Global, heap: &mut Heap, r: u32, i: usize, n: i32)
    ensures { IfSome (object_at heap.old r) (λ object. heap.new ≡ with_number_of heap.old r i n object) }
{
    let mut objects = mem::replace(&mut heap.objects, Seq::new(alloc)).into_vec();
    if (r as usize) < objects.len() {
        set_number(&mut objects[r as usize], i, n);
    }
    heap.objects = Seq::from_vec(objects);
}

/// Puts the top value into the field of a reference's object.
#[tactic(auto, unfolding(crate::specs::Effects::putfield_effect))]
pub fn putfield(alloc: Global, frame: &mut Frame, heap: &mut Heap, used: FieldUse) -> After
    ensures effect { (types : WorldTypes)
        → Acts (putfield_effect types used (frame_of frame.old) heap.old) result (frame_of frame.old, heap.old)
        (frame_of frame.new, heap.new) }
    ensures room { frame.new.stack.1 ≡ frame.old.stack.1 }
    ensures method { frame.new.method ≡ frame.old.method }
{
    let Some(value) = value_at(&frame.stack, 0) else {
        return After::Next;
    };
    let Some(reference) = reference_at(&frame.stack, 1) else {
        return After::Next;
    };
    match reference {
        Value::Int(_) => After::Next,
        Value::Null => After::Raise(NULL_POINTER_EXCEPTION),
        Value::Ref(r) => {
            set_item(alloc, heap, r, used.place as usize, kept(used.slot, value));
            take(&mut frame.stack, 2);
            After::Next
        }
    }
}

/// Puts the top value into a static field.
#[tactic(auto, unfolding(crate::specs::Effects::putstatic_effect))]
pub fn putstatic(
    frame: &mut Frame,
    statics: &mut Seq<Value>,
    fields: &[StaticField<'_>],
    place: u32,
) -> After
    ensures effect { (types : WorldTypes) (heap : Heap)
        → Acts (putstatic_effect types fields.now place heap (frame_of frame.old) statics.old) result
        (frame_of frame.old, statics.old) (frame_of frame.new, statics.new) }
    ensures room { frame.new.stack.1 ≡ frame.old.stack.1 }
    ensures method { frame.new.method ≡ frame.old.method }
{
    let Some(field) = fields.get(place as usize) else {
        return After::Next;
    };
    let Some(value) = value_at(&frame.stack, 0) else {
        return After::Next;
    };
    set_value(statics, place as usize, kept(field.slot, value));
    take(&mut frame.stack, 1);
    After::Next
}

/// The kind and the number of items of an array of numbers that an instruction is for.
fn array_for(kinds: ItemKind, object: &Object) -> Option<(Kind, usize)>
    ensures { result ≡ option_map (λ x. (x.0, length x.1)) (numbers_in kinds object.now) }
{
    match object {
        Object::Instance {
            class: _,
            fields: _,
        } => None,
        Object::Nums { kind, items } => {
            if is_for(kinds, *kind) {
                Some((*kind, items.len()))
            } else {
                None
            }
        }
        Object::Refs {
            element: _,
            items: _,
        } => None,
    }
}

/// The place of an index among so many items.
pub(crate) fn index_below(count: usize, i: &i32) -> Option<usize>
    ensures { result ≡ index_below count i.now }
{
    if *i < 0 {
        return None;
    }
    if (*i as usize) < count {
        Some(*i as usize)
    } else {
        None
    }
}

/// Puts the top int into an array of numbers.
#[tactic(auto, unfolding(crate::specs::Effects::number_store_effect))]
pub fn number_store(alloc: Global, frame: &mut Frame, heap: &mut Heap, kinds: ItemKind) -> After
    ensures effect { Acts (number_store_effect kinds (frame_of frame.old) heap.old) result (frame_of frame.old, heap.old)
        (frame_of frame.new, heap.new) }
    ensures room { frame.new.stack.1 ≡ frame.old.stack.1 }
    ensures method { frame.new.method ≡ frame.old.method }
{
    let Some(value) = int_at(&frame.stack, 0) else {
        return After::Next;
    };
    let Some(index) = int_at(&frame.stack, 1) else {
        return After::Next;
    };
    let Some(reference) = reference_at(&frame.stack, 2) else {
        return After::Next;
    };
    match reference {
        Value::Int(_) => After::Next,
        Value::Null => After::Raise(NULL_POINTER_EXCEPTION),
        Value::Ref(r) => {
            let Some(object) = object_at(heap, r) else {
                return After::Next;
            };
            let Some((kind, count)) = array_for(kinds, object) else {
                return After::Next;
            };
            let Some(i) = index_below(count, &index) else {
                return After::Raise(ARRAY_INDEX_OUT_OF_BOUNDS_EXCEPTION);
            };
            set_number_of(alloc, heap, r, i, kind.narrow(value));
            take(&mut frame.stack, 3);
            After::Next
        }
    }
}
