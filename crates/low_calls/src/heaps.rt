//! Shapes of small heaps.
use jvm_heaps::{is_closed, is_in_heap, shape};
use jvm_values::{Heap, Object, Shape, Value};
use list_views::Seq;
use std::alloc::{AllocError, Global};
use std::test::Fail;

/// A heap of instances of class 16, each with these fields.
fn heap_of(alloc: Global, fields: &[[Value; 2]]) -> Result<Heap, AllocError> {
    let mut objects = Seq::new(alloc);
    for pair in fields {
        objects.push(Object::Instance {
            class: 16,
            fields: Seq::from_slice(alloc, pair)?,
        })?;
    }
    Ok(Heap { objects })
}

/// The shape of a value; None where a reference leads past the heap's end.
fn shape_of(alloc: Global, heap: &Heap, value: Value) -> Result<Option<Shape>, AllocError> {
    if is_closed(heap) && is_in_heap(heap, value) {
        Ok(Some(shape(alloc, heap, value)?))
    } else {
        Ok(None)
    }
}

/// Whether the values have these shapes.
fn have_shapes(
    alloc: Global,
    heap: &Heap,
    wanted: &[(Value, Option<Shape>)],
) -> Result<bool, AllocError> {
    for (value, shape) in wanted {
        if shape_of(alloc, heap, *value)? != *shape {
            return Ok(false);
        }
    }
    Ok(true)
}

/// Three instances, of which the first two name each other and the third names nothing.
fn ring(alloc: Global) -> Result<Heap, AllocError> {
    heap_of(
        alloc,
        &[
            [Value::Ref(1), Value::Int(7)],
            [Value::Ref(0), Value::Int(7)],
            [Value::Null, Value::Int(7)],
        ],
    )
}

/// The shapes of the values of a ring: none for what is in the cycle, and a tree for what it leaves out.
static IN_RING: [(Value, Option<Shape>); 5] = [
    (Value::Ref(0), Some(Shape::Any)),
    (Value::Ref(1), Some(Shape::Any)),
    (Value::Ref(2), Some(Shape::Tree)),
    (Value::Null, Some(Shape::Tree)),
    (Value::Ref(3), None),
];

#[test]
fn a_cycle_has_no_shape(rt: HostRuntime) -> Result<(), Fail> {
    let heap = ring(rt.alloc())?;
    assert!(rt; have_shapes(rt.alloc(), &heap, &IN_RING)?);
    Ok(())
}

/// Three instances, of which the first names the others, and the second the third.
fn named_twice(alloc: Global) -> Result<Heap, AllocError> {
    heap_of(
        alloc,
        &[
            [Value::Ref(1), Value::Ref(2)],
            [Value::Ref(2), Value::Null],
            [Value::Null, Value::Null],
        ],
    )
}

#[test]
fn what_is_named_twice_is_no_tree(rt: HostRuntime) -> Result<(), Fail> {
    let heap = named_twice(rt.alloc())?;
    let wanted = [
        (Value::Ref(0), Some(Shape::Dag)),
        (Value::Ref(1), Some(Shape::Tree)),
    ];
    assert!(rt; have_shapes(rt.alloc(), &heap, &wanted)?);
    Ok(())
}

#[test]
fn a_heap_may_name_what_is_not_there(rt: HostRuntime) -> Result<(), Fail> {
    let heap = heap_of(rt.alloc(), &[[Value::Ref(1), Value::Null]])?;
    assert!(rt; !is_closed(&heap));
    Ok(())
}
