//! Whether references lead past the heap's end.
ghost use Rattle.std.specs.Prelude.{◌≡◌, ◌<◌, ◌↔◌, true, length, All};
ghost use Rattle.jvm_values.specs.Heaps.{IsInHeap, IsClosed};

use crate::marking::values;
use jvm_values::{Heap, Value};

/// Whether a value names no object past the end of a heap of so many objects.
fn is_below(count: usize, value: Value) -> bool
    ensures { (result ≡ true) ↔ IsInHeap count value }
{
    match value {
        Value::Int(_) => true,
        Value::Null => true,
        Value::Ref(object) => (object as usize) < count,
    }
}

/// The same of some values.
fn are_below(count: usize, values: &[Value]) -> bool
    ensures { (result ≡ true) ↔ All (IsInHeap count) values.now }
{
    for value in values {
        if !is_below(count, *value) {
            return false;
        }
    }
    true
}

/// Whether a value names no object past the heap's end.
pub fn is_in_heap(heap: &Heap, value: Value) -> bool
    ensures { (result ≡ true) ↔ IsInHeap (length heap.now.objects) value }
{
    is_below(heap.objects.len(), value)
}

/// Whether no object of the heap holds a reference past the heap's end. It looks at each value of each object once.
pub fn is_closed(heap: &Heap) -> bool
    ensures { (result ≡ true) ↔ IsClosed heap.now }
{
    for object in heap.objects.as_slice() {
        if !are_below(heap.objects.len(), values(object)) {
            return false;
        }
    }
    true
}
