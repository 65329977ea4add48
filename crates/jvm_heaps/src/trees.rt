//! Whether the region of a value is a tree.
ghost use Rattle.std.specs.Prelude.{◌≡◌, ◌<◌, ◌↔◌, ℕ, true, false, length, replicate, All, IfOk};
ghost use Rattle.jvm_values.specs.Heaps.{values_of, Region, IsInHeap, IsClosed, IsTree};
ghost use Rattle.jvm_heaps.specs.Marks.{marks_after, all_marks, IsMarked};
ghost use Rattle.jvm_heaps.specs.Trees.{new_after, all_new, values_if};
ghost use Rattle.jvm_values.specs.declared.heap.Value.TheVariants.{Ref};

use crate::marking::{marked, values};
use jvm_values::{Heap, Object, Value};
use std::alloc::{AllocError, Global};

/// Marks an object; says no where it was marked, and else what was said.
fn mark_new_object(named: &mut Vec<bool>, new: bool, object: u32) -> bool
    requires { object < length named.old.items }
    ensures marks { named.new.items ≡ marks_after (Ref object) named.old.items }
    ensures new { result ≡ new_after (Ref object) named.old.items new }
{
    if named[object as usize] {
        false
    } else {
        named[object as usize] = true;
        new
    }
}

/// The same of the object that a value names, if it names one.
fn mark_new(named: &mut Vec<bool>, new: bool, value: Value) -> bool
    requires { IsInHeap (length named.old.items) value }
    ensures marks { named.new.items ≡ marks_after value named.old.items }
    ensures new { result ≡ new_after value named.old.items new }
{
    match value {
        Value::Int(_) => new,
        Value::Null => new,
        Value::Ref(object) => mark_new_object(named, new, object),
    }
}

/// The same of some values, one after another.
fn mark_all_new(named: &mut Vec<bool>, first: bool, values: &[Value]) -> bool
    requires { All (IsInHeap (length named.old.items)) values.now }
    ensures marks { named.new.items ≡ all_marks values.now named.old.items }
    ensures new { result ≡ all_new values.now named.old.items first }
{
    let mut new = first;
    for value in values {
        new = mark_new(named, new, *value);
    }
    new
}

/// The same of what an object of the region holds; other objects are passed over.
fn mark_held(named: &mut Vec<bool>, new: bool, is_inside: bool, object: &Object) -> bool
    requires { All (IsInHeap (length named.old.items)) (values_of object.now) }
    ensures marks { named.new.items ≡ all_marks (values_if is_inside object.now) named.old.items }
    ensures new { result ≡ all_new (values_if is_inside object.now) named.old.items new }
{
    if is_inside {
        mark_all_new(named, new, values(object))
    } else {
        new
    }
}

/// Whether a value and the objects of its region name no object twice.
fn names_none_twice(named: &mut Vec<bool>, heap: &Heap, value: Value, region: &[bool]) -> bool
    requires closed { IsClosed heap.now }
    requires in_heap { IsInHeap (length heap.now.objects) value }
    requires fresh { named.old.items ≡ replicate (length heap.now.objects) false }
    requires exact { (b : ℕ) → IsMarked region.now b ↔ Region heap.now value b }
    requires size { length region.now ≡ length heap.now.objects }
    ensures { (result ≡ true) ↔ IsTree heap.now value }
{
    let mut new = mark_new(named, true, value);
    for (a, is_inside) in region.iter().enumerate() {
        new = mark_held(named, new, *is_inside, heap.objects.at(a));
    }
    new
}

/// Whether the region of a value is a tree: one path leads to each of its objects. It costs as many steps as the heap has
/// objects and the region references.
///
/// # Errors
///
/// Want of memory.
pub fn is_tree(alloc: Global, heap: &Heap, value: Value) -> Result<bool, AllocError>
    requires closed { IsClosed heap.now }
    requires in_heap { IsInHeap (length heap.now.objects) value }
    ensures { IfOk result (λ answer. (answer ≡ true) ↔ IsTree heap.now value) }
{
    let region = marked(alloc, heap, value)?;
    let mut named = vec![in alloc; false; heap.objects.len()]?;
    Ok(names_none_twice(&mut named, heap, value, &region))
}
