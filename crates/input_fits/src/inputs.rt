//! Whether values are what is described of inputs.
ghost use Rattle.std.specs.Prelude.{◌≡◌, ◌≢◌, ◌↔◌, ℤ, length, All, IfOk, IsTrue};
ghost use Rattle.std.specs.List.{AllZip};
ghost use Rattle.lin_core.specs.Intervals.{IsIn};
ghost use Rattle.jvm_values.specs.declared.heap.Value.TheVariants as values;
ghost use Rattle.jvm_values.specs.declared.shape.Shape.TheVariants.{Any};
ghost use Rattle.jvm_values.specs.Heaps.{HasShape, IsInHeap, IsClosed};
ghost use Rattle.jvm_values.specs.TypedHeaps.{HasType};
ghost use Rattle.class_world.specs.Worlds.{classes_of};
ghost use Rattle.class_world.specs.WorldTypes.{types_of};
ghost use Rattle.input_desc.specs.Fitting.{FitsInput};

use class_world::World;
use input_desc::Input;
use jvm_heaps::{is_tree, shape};
use jvm_values::{Heap, Shape, Ty, Value, is_object_below};
use lin_core::Interval;
use std::alloc::{AllocError, Global};

/// Whether an int lies in an interval.
fn is_in(interval: Interval, n: &i32) -> bool
    ensures { IsTrue result ↔ IsIn n.now interval }
{
    interval.lo() <= *n && *n <= interval.hi()
}

/// Whether a value is an int of an interval.
fn is_int_in(interval: Interval, value: Value) -> bool
    ensures { IsTrue result ↔ ((n : ℤ) × ((value ≡ values.Int n) × IsIn n interval)) }
{
    match value {
        Value::Int(n) => is_in(interval, &n),
        Value::Null => false,
        Value::Ref(_) => false,
    }
}

/// Whether a value is null, or names an object of a type or of one below it.
fn has_type(world: &World<'_>, heap: &Heap, value: Value, t: Ty) -> bool
    ensures { IsTrue result ↔ HasType (types_of (classes_of world.now)) heap.now value t }
{
    match value {
        Value::Int(_) => false,
        Value::Null => true,
        Value::Ref(r) => match heap.objects.get(r as usize) {
            Some(object) => is_object_below(world, object, t),
            None => false,
        },
    }
}

/// Whether a shape says that there are no cycles.
fn is_acyclic(shape: Shape) -> bool
    ensures { IsTrue result ↔ (shape ≢ Any) }
{
    match shape {
        Shape::Tree => true,
        Shape::Dag => true,
        Shape::Any => false,
    }
}

/// Whether a shape holds of the region of a value.
fn has_shape(alloc: Global, heap: &Heap, value: Value, wanted: Shape) -> Result<bool, AllocError>
    requires closed { IsClosed heap.now }
    requires in_heap { IsInHeap (length heap.now.objects) value }
    ensures { IfOk result (λ answer. IsTrue answer ↔ HasShape wanted heap.now value) }
{
    match wanted {
        Shape::Any => Ok(true),
        Shape::Tree => is_tree(alloc, heap, value),
        Shape::Dag => Ok(is_acyclic(shape(alloc, heap, value)?)),
    }
}

/// Whether a value may be null where it is.
fn is_allowed(null: bool, value: Value) -> bool
    ensures { IsTrue result ↔ (value ≡ values.Null → IsTrue null) }
{
    match value {
        Value::Int(_) => true,
        Value::Null => null,
        Value::Ref(_) => true,
    }
}

/// Whether a value is what is described of an input.
fn fits_input(
    alloc: Global,
    world: &World<'_>,
    heap: &Heap,
    input: &Input,
    value: Value,
) -> Result<bool, AllocError>
    requires closed { IsClosed heap.now }
    requires in_heap { IsInHeap (length heap.now.objects) value }
    ensures { IfOk result (λ answer. IsTrue answer ↔ FitsInput (types_of (classes_of world.now)) heap.now input.now value) }
{
    match input {
        Input::Int(interval) => Ok(is_int_in(*interval, value)),
        Input::Ref(t, null, shape) => {
            if is_allowed(*null, value) && has_type(world, heap, value, *t) {
                has_shape(alloc, heap, value, *shape)
            } else {
                Ok(false)
            }
        }
    }
}

/// Whether there are as many values as inputs, and each is what is described of its input.
pub(crate) fn all_fit(
    alloc: Global,
    world: &World<'_>,
    heap: &Heap,
    inputs: &[Input],
    values: &[Value],
) -> Result<bool, AllocError>
    requires closed { IsClosed heap.now }
    requires in_heap { All (IsInHeap (length heap.now.objects)) values.now }
    ensures { IfOk result (λ answer. IsTrue answer ↔ AllZip (FitsInput (types_of (classes_of world.now)) heap.now) inputs.now values.now) }
{
    if inputs.len() != values.len() {
        return Ok(false);
    }
    for n in 0..inputs.len() {
        let fits = fits_input(alloc, world, heap, &inputs[n], values[n])?;
        if !fits {
            return Ok(false);
        }
    }
    Ok(true)
}
