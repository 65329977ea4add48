//! Marking the objects that a value reaches.
ghost use Rattle.std.specs.Prelude.{◌≡◌, ◌<◌, ◌↔◌, ℕ, length, All, OnOk, IfOk};
ghost use Rattle.jvm_values.specs.declared.heap.Value.TheVariants.{Ref};
ghost use Rattle.jvm_values.specs.Heaps.{values_of, Region, IsInHeap, IsClosed};
ghost use Rattle.jvm_heaps.specs.Marks.{marks_after, todo_after, all_marks, all_todo, IsMarked};

use jvm_values::{Heap, Object, Value};
use std::alloc::{AllocError, Global};

/// The values that an object holds, by field or item.
pub(crate) fn values(object: &Object) -> &[Value]
    ensures { result.now ≡ values_of object.now }
{
    match object {
        Object::Instance { class: _, fields } => fields.as_slice(),
        Object::Nums { kind: _, items: _ } => &[],
        Object::Refs { element: _, items } => items.as_slice(),
    }
}

/// Marks an object, and notes it where it was not marked.
fn mark_object(marks: &mut Vec<bool>, todo: &mut Vec<u32>, object: u32) -> Result<(), AllocError>
    requires { object < length marks.old.items }
    ensures marks { OnOk result (marks.new.items ≡ marks_after (Ref object) marks.old.items) }
    ensures todo { OnOk result (todo.new.items ≡ todo_after (Ref object) marks.old.items todo.old.items) }
{
    if !marks[object as usize] {
        todo.push(object)?;
        marks[object as usize] = true;
    }
    Ok(())
}

/// Marks the object that a value names, if it names one.
fn mark(marks: &mut Vec<bool>, todo: &mut Vec<u32>, value: Value) -> Result<(), AllocError>
    requires { IsInHeap (length marks.old.items) value }
    ensures marks { OnOk result (marks.new.items ≡ marks_after value marks.old.items) }
    ensures todo { OnOk result (todo.new.items ≡ todo_after value marks.old.items todo.old.items) }
{
    match value {
        Value::Int(_) => Ok(()),
        Value::Null => Ok(()),
        Value::Ref(object) => mark_object(marks, todo, object),
    }
}

/// Marks the objects that some values name, and notes those that were not marked.
fn mark_all(marks: &mut Vec<bool>, todo: &mut Vec<u32>, values: &[Value]) -> Result<(), AllocError>
    requires { All (IsInHeap (length marks.old.items)) values.now }
    ensures marks { OnOk result (marks.new.items ≡ all_marks values.now marks.old.items) }
    ensures todo { OnOk result (todo.new.items ≡ all_todo values.now marks.old.items todo.old.items) }
{
    for value in values {
        mark(marks, todo, *value)?;
    }
    Ok(())
}

/// For each object of the heap, whether the value reaches it. It costs as many steps as the heap has objects, and
/// those of the region references.
///
/// # Errors
///
/// Want of memory.
pub(crate) fn marked(alloc: Global, heap: &Heap, value: Value) -> Result<Vec<bool>, AllocError>
    requires closed { IsClosed heap.now }
    requires in_heap { IsInHeap (length heap.now.objects) value }
    ensures exact { IfOk result (λ marks. (b : ℕ) → IsMarked marks.items b ↔ Region heap.now value b) }
    ensures size { IfOk result (λ marks. length marks.items ≡ length heap.now.objects) }
{
    let mut marks = vec![in alloc; false; heap.objects.len()]?;
    let mut todo = Vec::new(alloc);
    mark(&mut marks, &mut todo, value)?;
    while let Some(a) = todo.pop() {
        mark_all(&mut marks, &mut todo, values(heap.objects.at(a as usize)))?;
    }
    Ok(marks)
}
