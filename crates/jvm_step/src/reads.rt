//! Instructions that read the heap or the static fields, and change their frame alone.
ghost use Rattle.std.specs.Prelude.{◌≡◌, ◌<◌, ◌≤◌, length, true, false, OnErr, option_and_then, slice_get};
ghost use Rattle.std.specs.Option.{option_map};
ghost use Rattle.jvm_values.specs.States.{frame_of};
ghost use Rattle.jvm_values.specs.TypedHeaps.{WorldTypes};
ghost use Rattle.jvm_step.specs.Acts.{Acts, Tries};
ghost use Rattle.jvm_step.specs.Operands.{object_at};
ghost use Rattle.jvm_step.specs.Effects.{fields_in, length_of, item_at, is_for, numbers_in, references_in, constant_effect};
ghost use Rattle.jvm_step.specs.Effects.{getfield_effect, arraylength_effect, number_load_effect, aaload_effect, getstatic_effect};

use crate::after::After;
use crate::built_ins::{ARRAY_INDEX_OUT_OF_BOUNDS_EXCEPTION, NULL_POINTER_EXCEPTION};
use crate::frames::push;
use crate::operands::{int_at, reference_at, replace};
use class_program::FieldUse;
use jvm_values::{Frame, Heap, Kind, Object, Value};
use list_views::Seq;
use op_forms::ItemKind;
use std::alloc::AllocError;

/// The object of a number.
pub(crate) fn object_at(heap: &Heap, r: u32) -> Option<&Object>
    ensures { option_map (λ object. object.now) result ≡ object_at heap.now r }
{
    heap.objects.get(r as usize)
}

/// The field of an instance.
fn field_in(object: &Object, place: u32) -> Option<Value>
    ensures { result ≡ option_and_then (λ fields. slice_get fields place) (fields_in object.now) }
{
    match object {
        Object::Instance { class: _, fields } => fields.as_slice().get(place as usize).copied(),
        Object::Nums { kind: _, items: _ } => None,
        Object::Refs {
            element: _,
            items: _,
        } => None,
    }
}

/// Puts the field of a reference's object in the reference's place.
#[tactic(auto, unfolding(crate::specs::Effects::getfield_effect))]
pub fn getfield(frame: &mut Frame, heap: &Heap, used: FieldUse) -> After
    ensures effect { (types : WorldTypes)
        → Acts (getfield_effect types used heap.now (frame_of frame.old)) result (frame_of frame.old) (frame_of frame.new) }
    ensures room { frame.new.stack.1 ≡ frame.old.stack.1 }
    ensures method { frame.new.method ≡ frame.old.method }
{
    let Some(reference) = reference_at(&frame.stack, 0) else {
        return After::Next;
    };
    match reference {
        Value::Int(_) => After::Next,
        Value::Null => After::Raise(NULL_POINTER_EXCEPTION),
        Value::Ref(r) => {
            let Some(object) = object_at(heap, r) else {
                return After::Next;
            };
            if let Some(value) = field_in(object, used.place) {
                replace(&mut frame.stack, 0, value);
            }
            After::Next
        }
    }
}

/// The number of an array's items.
fn length_of(object: &Object) -> Option<usize>
    ensures { result ≡ length_of object.now }
{
    match object {
        Object::Instance {
            class: _,
            fields: _,
        } => None,
        Object::Nums { kind: _, items } => Some(items.len()),
        Object::Refs { element: _, items } => Some(items.len()),
    }
}

/// Puts the number of an array's items in the array's place.
#[tactic(auto, unfolding(crate::specs::Effects::arraylength_effect))]
pub fn arraylength(frame: &mut Frame, heap: &Heap) -> After
    ensures effect { Acts (arraylength_effect heap.now (frame_of frame.old)) result (frame_of frame.old) (frame_of frame.new) }
    ensures room { frame.new.stack.1 ≡ frame.old.stack.1 }
    ensures method { frame.new.method ≡ frame.old.method }
{
    let Some(reference) = reference_at(&frame.stack, 0) else {
        return After::Next;
    };
    match reference {
        Value::Int(_) => After::Next,
        Value::Null => After::Raise(NULL_POINTER_EXCEPTION),
        Value::Ref(r) => {
            let Some(object) = object_at(heap, r) else {
                return After::Next;
            };
            let Some(count) = length_of(object) else {
                return After::Next;
            };
            if count < 2_147_483_648 {
                replace(&mut frame.stack, 0, Value::Int(count as i32));
            }
            After::Next
        }
    }
}

/// What is at an index, counted from 0.
fn item_at<T: Copy>(items: &[T], i: &i32) -> Option<T>
    ensures { result ≡ item_at items.now i.now }
{
    if *i < 0 {
        return None;
    }
    items.get(*i as usize).copied()
}

/// Whether an instruction is for arrays of a kind.
pub(crate) fn is_for(kinds: ItemKind, kind: Kind) -> bool
    ensures { result ≡ is_for kinds kind }
{
    match (kinds, kind) {
        (ItemKind::Int, Kind::Int) => true,
        (ItemKind::Byte, Kind::Boolean) => true,
        (ItemKind::Byte, Kind::Byte) => true,
        (ItemKind::Char, Kind::Char) => true,
        (ItemKind::Short, Kind::Short) => true,
        _ => false,
    }
}

/// Puts the value of a static field on the stack.
#[tactic(auto, unfolding(crate::specs::Effects::getstatic_effect, crate::specs::Effects::constant_effect))]
pub fn getstatic(frame: &mut Frame, statics: &Seq<Value>, place: u32) -> Result<After, AllocError>
    ensures effect { Tries (getstatic_effect place statics.now (frame_of frame.old)) result (frame_of frame.old) (frame_of frame.new) }
    ensures room { frame.old.stack.1 ≤ frame.new.stack.1 }
    ensures method { frame.new.method ≡ frame.old.method }
    ensures memory { OnErr result (frame.old.stack.1 ≤ length frame.old.stack.0) }
{
    match statics.as_slice().get(place as usize).copied() {
        Some(value) => push(frame, value),
        None => Ok(After::Next),
    }
}

/// The items of an array of numbers that an instruction is for.
fn numbers_in(kinds: ItemKind, object: &Object) -> Option<&[i32]>
    ensures { option_map (λ items. items.now) result ≡ option_map (λ x. x.1) (numbers_in kinds object.now) }
{
    match object {
        Object::Instance {
            class: _,
            fields: _,
        } => None,
        Object::Nums { kind, items } => {
            if is_for(kinds, *kind) {
                Some(items.as_slice())
            } else {
                None
            }
        }
        Object::Refs {
            element: _,
            items: _,
        } => None,
    }
}

/// The items of an array of references.
fn references_in(object: &Object) -> Option<&[Value]>
    ensures { option_map (λ items. items.now) result ≡ option_map (λ x. x.1) (references_in object.now) }
{
    match object {
        Object::Instance {
            class: _,
            fields: _,
        } => None,
        Object::Nums { kind: _, items: _ } => None,
        Object::Refs { element: _, items } => Some(items.as_slice()),
    }
}

/// Puts a number of an array in the place of the array and the index.
#[tactic(auto, unfolding(crate::specs::Effects::number_load_effect))]
pub fn number_load(frame: &mut Frame, heap: &Heap, kinds: ItemKind) -> After
    ensures effect { Acts (number_load_effect kinds heap.now (frame_of frame.old)) result (frame_of frame.old) (frame_of frame.new) }
    ensures room { frame.new.stack.1 ≡ frame.old.stack.1 }
    ensures method { frame.new.method ≡ frame.old.method }
{
    let Some(index) = int_at(&frame.stack, 0) else {
        return After::Next;
    };
    let Some(reference) = reference_at(&frame.stack, 1) else {
        return After::Next;
    };
    match reference {
        Value::Int(_) => After::Next,
        Value::Null => After::Raise(NULL_POINTER_EXCEPTION),
        Value::Ref(r) => {
            let Some(object) = object_at(heap, r) else {
                return After::Next;
            };
            let Some(items) = numbers_in(kinds, object) else {
                return After::Next;
            };
            let Some(n) = item_at(items, &index) else {
                return After::Raise(ARRAY_INDEX_OUT_OF_BOUNDS_EXCEPTION);
            };
            replace(&mut frame.stack, 1, Value::Int(n));
            After::Next
        }
    }
}

/// Puts a reference of an array in the place of the array and the index.
#[tactic(auto, unfolding(crate::specs::Effects::aaload_effect))]
pub fn aaload(frame: &mut Frame, heap: &Heap) -> After
    ensures effect { Acts (aaload_effect heap.now (frame_of frame.old)) result (frame_of frame.old) (frame_of frame.new) }
    ensures room { frame.new.stack.1 ≡ frame.old.stack.1 }
    ensures method { frame.new.method ≡ frame.old.method }
{
    let Some(index) = int_at(&frame.stack, 0) else {
        return After::Next;
    };
    let Some(reference) = reference_at(&frame.stack, 1) else {
        return After::Next;
    };
    match reference {
        Value::Int(_) => After::Next,
        Value::Null => After::Raise(NULL_POINTER_EXCEPTION),
        Value::Ref(r) => {
            let Some(object) = object_at(heap, r) else {
                return After::Next;
            };
            let Some(items) = references_in(object) else {
                return After::Next;
            };
            let Some(value) = item_at(items, &index) else {
                return After::Raise(ARRAY_INDEX_OUT_OF_BOUNDS_EXCEPTION);
            };
            replace(&mut frame.stack, 1, value);
            After::Next
        }
    }
}
