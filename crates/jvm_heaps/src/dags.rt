//! Whether a cycle lies in the region of a value.
ghost use Rattle.std.specs.Prelude.{◌≡◌, ◌<◌, ◌↔◌, ◌∷◌, true, length, OnOk, IfOk};
ghost use Rattle.jvm_values.specs.Paths.{IsDagFrom};
ghost use Rattle.jvm_values.specs.Heaps.{heap_steps, IsInHeap, IsClosed, IsDag};
ghost use Rattle.jvm_heaps.specs.declared.dags.Turn.TheVariants.{Leave};
ghost use Rattle.jvm_heaps.specs.Searches.{place_of, enter_after, all_enter, values_in, turned, goes_on};

use crate::marking::values;
use jvm_values::{Heap, Value};
use list_views::Stack;
use std::alloc::{AllocError, Global};

/// What is to be done in a search for cycles.
#[derive(Clone, Copy)]
enum Turn {
    /// The object of this number is entered, where it was not before.
    Enter(u32),
    /// The object of this number is left: all that it leads to has been left.
    Leave(u32),
}

/// Notes that the object that a value names, if it names one, is to be entered.
fn enter(todo: &mut Stack<Turn>, value: Value) -> Result<(), AllocError>
    ensures { OnOk result (todo.new.0 ≡ enter_after value todo.old.0) }
{
    match value {
        Value::Int(_) => Ok(()),
        Value::Null => Ok(()),
        Value::Ref(object) => {
            todo.push(Turn::Enter(object))?;
            Ok(())
        }
    }
}

/// The same of some values, one after another.
fn enter_all(todo: &mut Stack<Turn>, values: &[Value]) -> Result<(), AllocError>
    ensures { OnOk result (todo.new.0 ≡ all_enter values.now todo.old.0) }
{
    for value in values {
        enter(todo, *value)?;
    }
    Ok(())
}

/// Notes that what an object leads to is to be entered, and that the object is left then.
fn enter_from(todo: &mut Stack<Turn>, heap: &Heap, a: u32) -> Result<(), AllocError>
    requires { a < length heap.now.objects }
    ensures { OnOk result (todo.new.0 ≡ all_enter (values_in heap.now a) (Leave a ∷ todo.old.0)) }
{
    todo.push(Turn::Leave(a))?;
    enter_all(todo, values(heap.objects.at(a as usize)))
}

/// One turn of the search. Says no where it came to an object that was entered and not left.
#[tactic(auto, unfolding(crate::specs::Searches::turned))]
fn take_turn(
    entered: &mut Vec<bool>,
    left: &mut Vec<bool>,
    todo: &mut Stack<Turn>,
    heap: &Heap,
    turn: Turn,
) -> Result<bool, AllocError>
    requires place { place_of turn < length heap.now.objects }
    requires entered { length entered.old.items ≡ length heap.now.objects }
    requires left { length left.old.items ≡ length heap.now.objects }
    ensures { IfOk result (λ on. goes_on on (record { entered = entered.new.items; left = left.new.items; todo = todo.new.0 })
        ≡ turned heap.now turn (record { entered = entered.old.items; left = left.old.items; todo = todo.old.0 })) }
{
    match turn {
        Turn::Leave(a) => {
            left[a as usize] = true;
            Ok(true)
        }
        Turn::Enter(a) => {
            if entered[a as usize] {
                Ok(left[a as usize])
            } else {
                entered[a as usize] = true;
                enter_from(todo, heap, a)?;
                Ok(true)
            }
        }
    }
}

/// Whether no cycle lies in what an object leads to, itself included.
fn is_acyclic(alloc: Global, heap: &Heap, start: u32) -> Result<bool, AllocError>
    requires closed { IsClosed heap.now }
    requires in_heap { start < length heap.now.objects }
    ensures { IfOk result (λ answer. (answer ≡ true) ↔ IsDagFrom (heap_steps heap.now) start) }
{
    let mut entered = vec![in alloc; false; heap.objects.len()]?;
    let mut left = vec![in alloc; false; heap.objects.len()]?;
    let mut todo = Stack::new(alloc);
    todo.push(Turn::Enter(start))?;
    while let Some(next) = todo.pop() {
        if !take_turn(&mut entered, &mut left, &mut todo, heap, next)? {
            return Ok(false);
        }
    }
    Ok(true)
}

/// Whether no cycle lies in the region of a value. It costs as many steps as the heap has objects and the region references,
/// and no depth of calls.
///
/// # Errors
///
/// Want of memory.
pub(crate) fn is_dag(alloc: Global, heap: &Heap, value: Value) -> Result<bool, AllocError>
    requires closed { IsClosed heap.now }
    requires in_heap { IsInHeap (length heap.now.objects) value }
    ensures { IfOk result (λ answer. (answer ≡ true) ↔ IsDag heap.now value) }
{
    match value {
        Value::Int(_) => Ok(true),
        Value::Null => Ok(true),
        Value::Ref(start) => is_acyclic(alloc, heap, start),
    }
}
