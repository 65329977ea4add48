//! Instructions that ask for the type of an object.
ghost use Rattle.std.specs.Prelude.{◌≡◌, ◌<◌, true, false, length, pos, if◌then◌else◌};
ghost use Rattle.std.specs.Option.{option_map};
ghost use Rattle.jvm_values.specs.States.{frame_of};
ghost use Rattle.jvm_values.specs.TypedHeaps.{world_types};
ghost use Rattle.jvm_step.specs.Acts.{Acts};
ghost use Rattle.jvm_step.specs.Operands.{is_null_or_below, is_below};
ghost use Rattle.jvm_step.specs.Effects.{references_in, checkcast_effect, instanceof_effect, aastore_effect};

use crate::after::After;
use crate::built_ins::{
    ARRAY_INDEX_OUT_OF_BOUNDS_EXCEPTION, ARRAY_STORE_EXCEPTION, CLASS_CAST_EXCEPTION,
    NULL_POINTER_EXCEPTION,
};
use crate::operands::{int_at, reference_at, replace, take};
use crate::reads::object_at;
use crate::writes::{index_below, set_item};
use jvm_values::{Frame, Heap, Object, Ty, Types, Value, is_object_below};
use std::alloc::Global;

/// Whether a reference is null or to an object of a type or one below it; None where its object isn't there.
fn is_null_or_below<T: Types>(types: &T, heap: &Heap, t: Ty, reference: Value) -> Option<bool>
    ensures { result ≡ is_null_or_below
        (world_types (T.sub types.now) (T.erase types.now) (T.classes types.now) (T.fields types.now) (T.can_be_made types.now))
        heap.now t reference }
{
    match reference {
        Value::Int(_) => None,
        Value::Null => Some(true),
        Value::Ref(r) => match object_at(heap, r) {
            Some(object) => Some(is_object_below(types, object, t)),
            None => None,
        },
    }
}

/// Whether a reference is to an object of a type or one below it; None where its object isn't there.
fn is_below<T: Types>(types: &T, heap: &Heap, t: Ty, reference: Value) -> Option<bool>
    ensures { result ≡ is_below (world_types (T.sub types.now) (T.erase types.now) (T.classes types.now) (T.fields types.now)
        (T.can_be_made types.now)) heap.now t reference }
{
    match reference {
        Value::Int(_) => None,
        Value::Null => Some(false),
        Value::Ref(r) => match object_at(heap, r) {
            Some(object) => Some(is_object_below(types, object, t)),
            None => None,
        },
    }
}

/// Lets null and references to objects of a type pass.
#[tactic(auto, unfolding(crate::specs::Effects::checkcast_effect))]
pub fn checkcast<T: Types>(types: &T, frame: &Frame, heap: &Heap, t: Ty) -> After
    ensures { Acts (checkcast_effect (world_types (T.sub types.now) (T.erase types.now) (T.classes types.now) (T.fields types.now)
        (T.can_be_made types.now)) t heap.now (frame_of frame.now)) result (frame_of frame.now) (frame_of frame.now) }
{
    let Some(reference) = reference_at(&frame.stack, 0) else {
        return After::Next;
    };
    match is_null_or_below(types, heap, t, reference) {
        Some(true) => After::Next,
        Some(false) => After::Raise(CLASS_CAST_EXCEPTION),
        None => After::Next,
    }
}

/// One or zero.
fn one_or_zero(test: bool) -> i32
    ensures { result ≡ (if test then pos 1 else pos 0) }
{
    if test { 1 } else { 0 }
}

/// Puts 1 in a reference's place where it is to an object of a type, else 0.
#[tactic(auto, unfolding(crate::specs::Effects::instanceof_effect))]
pub fn instanceof<T: Types>(types: &T, frame: &mut Frame, heap: &Heap, t: Ty) -> After
    ensures effect { Acts
        (instanceof_effect (world_types (T.sub types.now) (T.erase types.now) (T.classes types.now) (T.fields types.now)
        (T.can_be_made types.now)) t heap.now (frame_of frame.old)) result (frame_of frame.old) (frame_of frame.new) }
    ensures room { frame.new.stack.1 ≡ frame.old.stack.1 }
    ensures method { frame.new.method ≡ frame.old.method }
{
    let Some(reference) = reference_at(&frame.stack, 0) else {
        return After::Next;
    };
    if let Some(test) = is_below(types, heap, t, reference) {
        replace(&mut frame.stack, 0, Value::Int(one_or_zero(test)));
    }
    After::Next
}

/// Puts the top reference into an array of references.
#[tactic(auto, unfolding(crate::specs::Effects::aastore_effect))]
pub fn aastore<T: Types>(types: &T, alloc: Global, frame: &mut Frame, heap: &mut Heap) -> After
    ensures effect { Acts
        (aastore_effect (world_types (T.sub types.now) (T.erase types.now) (T.classes types.now) (T.fields types.now)
        (T.can_be_made types.now)) (frame_of frame.old) heap.old) result (frame_of frame.old, heap.old)
        (frame_of frame.new, heap.new) }
    ensures room { frame.new.stack.1 ≡ frame.old.stack.1 }
    ensures method { frame.new.method ≡ frame.old.method }
{
    let Some(value) = reference_at(&frame.stack, 0) else {
        return After::Next;
    };
    let Some(index) = int_at(&frame.stack, 1) else {
        return After::Next;
    };
    let Some(reference) = reference_at(&frame.stack, 2) else {
        return After::Next;
    };
    match reference {
        Value::Int(_) => After::Next,
        Value::Null => After::Raise(NULL_POINTER_EXCEPTION),
        Value::Ref(r) => {
            let Some(object) = object_at(heap, r) else {
                return After::Next;
            };
            let Some((element, count)) = array_of_references(object) else {
                return After::Next;
            };
            let Some(i) = index_below(count, &index) else {
                return After::Raise(ARRAY_INDEX_OUT_OF_BOUNDS_EXCEPTION);
            };
            match is_null_or_below(types, heap, element, value) {
                Some(true) => {
                    set_item(alloc, heap, r, i, value);
                    take(&mut frame.stack, 3);
                    After::Next
                }
                Some(false) => After::Raise(ARRAY_STORE_EXCEPTION),
                None => After::Next,
            }
        }
    }
}

/// The type of the items of an array of references, and their number.
fn array_of_references(object: &Object) -> Option<(Ty, usize)>
    ensures { result ≡ option_map (λ x. (x.0, length x.1)) (references_in object.now) }
{
    match object {
        Object::Instance {
            class: _,
            fields: _,
        } => None,
        Object::Nums { kind: _, items: _ } => None,
        Object::Refs { element, items } => Some((*element, items.len())),
    }
}
