//! The region of a value.
ghost use Rattle.std.specs.Prelude.{◌≡◌, ◌<◌, ◌^◌, length, IfOk};
ghost use Rattle.jvm_values.specs.Heaps.{IsInHeap, IsClosed};
ghost use Rattle.jvm_heaps.specs.Regions.{IsRegion, marked_from};

use crate::marking::marked;
use jvm_values::{Heap, Value};
use list_views::Seq;
use std::alloc::{AllocError, Global};

/// The places that are marked, rising.
fn places(alloc: Global, marks: &[bool]) -> Result<Seq<u32>, AllocError>
    requires { length marks.now < 2 ^ 32 }
    ensures { IfOk result (λ numbers. numbers ≡ marked_from 0 marks.now) }
{
    let mut numbers = Seq::new(alloc);
    for (a, is_marked) in marks.iter().enumerate() {
        if *is_marked {
            numbers.push(a as u32)?;
        }
    }
    Ok(numbers)
}

/// The numbers of the objects that a value reaches, rising: its own object and all that paths from it lead to. It costs
/// as many steps as the heap has objects and the region references.
///
/// # Errors
///
/// Want of memory.
pub fn region(alloc: Global, heap: &Heap, value: Value) -> Result<Seq<u32>, AllocError>
    requires closed { IsClosed heap.now }
    requires in_heap { IsInHeap (length heap.now.objects) value }
    requires count { length heap.now.objects < 2 ^ 32 }
    ensures { IfOk result (λ numbers. IsRegion heap.now value numbers) }
{
    let marks = marked(alloc, heap, value)?;
    let numbers = places(alloc, &marks)?;
    Ok(numbers)
}
