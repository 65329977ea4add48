//! The shape of the region of a value.
ghost use Rattle.std.specs.Prelude.{length, IfOk};
ghost use Rattle.jvm_values.specs.Heaps.{IsInHeap, IsClosed};
ghost use Rattle.jvm_heaps.specs.Shapes.{IsBestShape};

use crate::dags::is_dag;
use crate::trees::is_tree;
use jvm_values::{Heap, Shape, Value};
use std::alloc::{AllocError, Global};

/// The shape that says most of the region of a value: `Tree` where one path leads to each of its objects, else `Dag` where no
/// cycle lies in it, else `Any`. Null has the shape `Tree`. It costs as many steps as the heap has objects and the region
/// references.
///
/// # Errors
///
/// Want of memory.
pub fn shape(alloc: Global, heap: &Heap, value: Value) -> Result<Shape, AllocError>
    requires closed { IsClosed heap.now }
    requires in_heap { IsInHeap (length heap.now.objects) value }
    ensures { IfOk result (λ best. IsBestShape heap.now value best) }
{
    if is_tree(alloc, heap, value)? {
        return Ok(Shape::Tree);
    }
    if is_dag(alloc, heap, value)? {
        Ok(Shape::Dag)
    } else {
        Ok(Shape::Any)
    }
}
