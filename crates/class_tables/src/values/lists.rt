//! `list`: a number; how many objects the first of a list of so many objects reaches, and whether they are a tree.
use anyhow::{Result, bail};
use jvm_heaps::{is_closed, is_in_heap, region, shape};
use jvm_values::{Heap, Object, Shape, Value};
use list_views::Seq;
use std::alloc::Global;
use table_cases::{Case, natural, put_count};

/// An instance of class 0 with one field.
fn instance(alloc: Global, next: Value) -> Result<Object> {
    let mut fields = Seq::new(alloc);
    fields.push(next)?;
    Ok(Object::Instance { class: 0, fields })
}

/// A list of so many instances, and of at least one, of which each has the next one in its field, and the last null.
fn list_of(alloc: Global, count: u32) -> Result<Heap> {
    let mut objects = Seq::new(alloc);
    for next in 1..count {
        objects.push(instance(alloc, Value::Ref(next))?)?;
    }
    objects.push(instance(alloc, Value::Null)?)?;
    Ok(Heap { objects })
}

/// How many objects the first one of a heap reaches, and their shape.
fn told(alloc: Global, heap: &Heap) -> Result<String> {
    let first = Value::Ref(0);
    if !is_closed(heap) || !is_in_heap(heap, first) || heap.objects.len() > 0xffff_ffff {
        bail!("the heap isn't closed");
    }
    let reached = region(alloc, heap, first)?.len();
    told_of(alloc, reached, shape(alloc, heap, first)?)
}

fn told_of(alloc: Global, reached: usize, shape: Shape) -> Result<String> {
    let mut line = String::new(alloc);
    put_count(&mut line, reached)?;
    line.push_str(match shape {
        Shape::Tree => " tree",
        Shape::Dag => " dag",
        Shape::Any => " any",
    })?;
    Ok(line)
}

/// The answer to a case.
pub fn answer(alloc: Global, case: &Case<'_>) -> Result<String> {
    let heap = list_of(alloc, natural(case.text(0)?)?)?;
    told(alloc, &heap)
}
