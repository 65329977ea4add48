//! Instructions that make objects.
ghost use Rattle.std.specs.Prelude.{◌≡◌, ◌<◌, ◌≤◌, length, replicate, drop, pos, IfOk, Some};
ghost use Rattle.jvm_values.specs.States.{frame_of};
ghost use Rattle.jvm_values.specs.declared.heap.Value.TheVariants as values;
ghost use Rattle.jvm_values.specs.declared.types.Base.TheVariants as bases;
ghost use Rattle.class_program.specs.class_world.Worlds.{classes_of};
ghost use Rattle.jvm_step.specs.Acts.{Tries};
ghost use Rattle.jvm_step.specs.Effects.{types_of, instance_of, new_effect, zeros, nulls, makes, newarray_effect, anewarray_effect};

use crate::after::After;
use crate::built_ins::NEGATIVE_ARRAY_SIZE_EXCEPTION;
use crate::operands::{int_at, replace};
use class_program::class_world::World;
use jvm_values::{Base, Frame, Heap, Kind, Object, Ty, Types, Value, initial_values};
use list_views::Seq;
use std::alloc::{AllocError, Global};

/// So many zeros.
fn zero_items(alloc: Global, count: usize) -> Result<Seq<i32>, AllocError>
    ensures { IfOk result (λ items. items ≡ replicate count (pos 0)) }
{
    Ok(Seq::from_vec(vec![in alloc; 0; count]?))
}

/// So many nulls.
fn null_items(alloc: Global, count: usize) -> Result<Seq<Value>, AllocError>
    ensures { IfOk result (λ items. items ≡ replicate count values.Null) }
{
    Ok(Seq::from_vec(vec![in alloc; Value::Null; count]?))
}

/// An array of so many zeros.
fn number_array(alloc: Global, kind: Kind, count: &i32) -> Result<Option<Object>, AllocError>
    ensures { IfOk result (λ array. array ≡ zeros kind count.now) }
{
    if *count < 0 {
        return Ok(None);
    }
    let items = zero_items(alloc, *count as usize)?;
    Ok(Some(Object::Nums { kind, items }))
}

/// An array of so many nulls.
fn reference_array(alloc: Global, element: Ty, count: &i32) -> Result<Option<Object>, AllocError>
    ensures { IfOk result (λ array. array ≡ nulls element count.now) }
{
    if *count < 0 {
        return Ok(None);
    }
    let items = null_items(alloc, *count as usize)?;
    Ok(Some(Object::Refs { element, items }))
}

/// The number of the next object. A heap with as many objects as there are numbers wants memory.
pub(crate) fn next_number(heap: &Heap) -> Result<u32, AllocError>
    ensures { IfOk result (λ number. number ≡ length heap.now.objects) }
{
    if heap.objects.len() < 4_294_967_296 {
        Ok(heap.objects.len() as u32)
    } else {
        Err(AllocError)
    }
}

/// Puts an object at the heap's end, and a reference to it in the place of the top value.
fn put(frame: &mut Frame, heap: &mut Heap, object: Object) -> Result<After, AllocError>
    requires top { 0 < length frame.old.stack.0 }
    ensures effect { Tries (Some (makes object (drop 1 frame.old.stack.0) (frame_of frame.old) heap.old)) result
        (frame_of frame.old, heap.old) (frame_of frame.new, heap.new) }
    ensures room { frame.new.stack.1 ≡ frame.old.stack.1 }
    ensures method { frame.new.method ≡ frame.old.method }
{
    let number = next_number(heap)?;
    match heap.objects.push(object) {
        Ok(()) => {
            replace(&mut frame.stack, 0, Value::Ref(number));
            Ok(After::Next)
        }
        Err(_) => Err(AllocError),
    }
}

/// Makes an array of numbers, whose number of items is on the top.
#[tactic(auto, unfolding(crate::specs::Effects::newarray_effect))]
pub fn newarray(
    alloc: Global,
    frame: &mut Frame,
    heap: &mut Heap,
    kind: Kind,
) -> Result<After, AllocError>
    ensures effect { Tries (newarray_effect kind (frame_of frame.old) heap.old) result (frame_of frame.old, heap.old)
        (frame_of frame.new, heap.new) }
    ensures room { frame.new.stack.1 ≡ frame.old.stack.1 }
    ensures method { frame.new.method ≡ frame.old.method }
{
    let Some(count) = int_at(&frame.stack, 0) else {
        return Ok(After::Next);
    };
    match number_array(alloc, kind, &count)? {
        Some(array) => put(frame, heap, array),
        None => Ok(After::Raise(NEGATIVE_ARRAY_SIZE_EXCEPTION)),
    }
}

/// Makes an array of references, whose number of items is on the top.
#[tactic(auto, unfolding(crate::specs::Effects::anewarray_effect))]
pub fn anewarray(
    alloc: Global,
    frame: &mut Frame,
    heap: &mut Heap,
    element: Ty,
) -> Result<After, AllocError>
    ensures effect { Tries (anewarray_effect element (frame_of frame.old) heap.old) result (frame_of frame.old, heap.old)
        (frame_of frame.new, heap.new) }
    ensures room { frame.new.stack.1 ≡ frame.old.stack.1 }
    ensures method { frame.new.method ≡ frame.old.method }
{
    let Some(count) = int_at(&frame.stack, 0) else {
        return Ok(After::Next);
    };
    match reference_array(alloc, element, &count)? {
        Some(array) => put(frame, heap, array),
        None => Ok(After::Raise(NEGATIVE_ARRAY_SIZE_EXCEPTION)),
    }
}

/// A new instance of a class that can be made; None of another type.
#[tactic(auto, unfolding(crate::specs::Unfolded::can_be_made), using(std::proofs::lemmas::Option::slice_get_past))]
fn instance(alloc: Global, world: &World<'_>, t: Ty) -> Result<Option<Object>, AllocError>
    ensures { IfOk result (λ object. object ≡ instance_of (types_of (classes_of world.now)) t.dims t.base) }
{
    match t.base {
        Base::Class(class) if t.dims == 0 => made(alloc, world, class),
        _ => Ok(None),
    }
}

/// A new instance of a class; None where it can't be made.
#[tactic(auto, unfolding(crate::specs::Unfolded::can_be_made), using(std::proofs::lemmas::Option::slice_get_past))]
fn made(alloc: Global, world: &World<'_>, class: u32) -> Result<Option<Object>, AllocError>
    ensures { IfOk result (λ object. object ≡ instance_of (types_of (classes_of world.now)) 0 (bases.Class class)) }
{
    if class >= world.classes() || !world.can_be_made(class) {
        return Ok(None);
    }
    let fields = initial_values(alloc, world.fields(class))?;
    Ok(Some(Object::Instance { class, fields }))
}

/// Makes an instance of a class.
#[tactic(auto, unfolding(crate::specs::Effects::new_effect))]
pub fn new_object(
    alloc: Global,
    world: &World<'_>,
    frame: &mut Frame,
    heap: &mut Heap,
    t: Ty,
) -> Result<After, AllocError>
    ensures effect { Tries (new_effect (types_of (classes_of world.now)) t (frame_of frame.old) heap.old) result
        (frame_of frame.old, heap.old) (frame_of frame.new, heap.new) }
    ensures room { frame.old.stack.1 ≤ frame.new.stack.1 }
    ensures method { frame.new.method ≡ frame.old.method }
{
    let Some(object) = instance(alloc, world, t)? else {
        return Ok(After::Next);
    };
    let number = next_number(heap)?;
    if frame.stack.push(Value::Ref(number)).is_err() {
        return Err(AllocError);
    }
    if heap.objects.push(object).is_err() {
        frame.stack.pop();
        return Err(AllocError);
    }
    Ok(After::Next)
}
