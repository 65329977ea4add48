//! Frames of methods that begin.
ghost use Rattle.std.specs.Prelude.{◌≡◌, ◌-◌, ◌++◌, map, reverse, take, replicate, Some, None, OnOk, IfOk};
ghost use Rattle.jvm_values.specs.States.{frame_of, locals_from};
ghost use Rattle.jvm_step.specs.Running.{new_frame};

use class_program::Method;
use jvm_values::{Frame, Value};
use list_views::{Seq, Stack};
use std::alloc::{AllocError, Global};

/// How many of so many are left without some others.
fn without(all: usize, some: usize) -> usize
    ensures { result ≡ all - some }
{
    if some < all { all - some } else { 0 }
}

/// Adds so many unset locals.
fn add_unset(locals: &mut Seq<Option<Value>>, count: usize) -> Result<(), AllocError>
    ensures { OnOk result (locals.new ≡ locals.old ++ replicate count None) }
{
    for place in 0..count {
        locals.push(None)?;
    }
    Ok(())
}

/// Adds locals that are set.
fn add_set(locals: &mut Seq<Option<Value>>, values: &[Value]) -> Result<(), AllocError>
    ensures { OnOk result (locals.new ≡ locals.old ++ map Some values.now) }
{
    for value in values {
        locals.push(Some(*value))?;
    }
    Ok(())
}

/// The locals of a method that begins: its arguments, and unset ones up to so many.
fn first_locals(
    alloc: Global,
    arguments: &[Value],
    most: u16,
) -> Result<Seq<Option<Value>>, AllocError>
    ensures { IfOk result (λ locals. locals ≡ locals_from Some None most arguments.now) }
{
    let mut locals = Seq::with_capacity(alloc, most as usize)?;
    add_set(&mut locals, arguments)?;
    add_unset(&mut locals, without(most as usize, arguments.len()))?;
    Ok(locals)
}

/// The frame of a method that begins, whose stack has room for as many values as the method says.
pub(crate) fn new_frame(
    alloc: Global,
    number: u32,
    method: &Method<'_>,
    arguments: &[Value],
) -> Result<Frame, AllocError>
    ensures frame { IfOk result (λ frame. frame_of frame ≡ new_frame number method.now arguments.now) }
    ensures room { IfOk result (λ frame. frame.stack.1 ≡ method.now.max_stack) }
{
    let locals = first_locals(alloc, arguments, method.max_locals)?;
    let stack = Stack::with_room(alloc, method.max_stack as usize)?;
    Ok(Frame {
        method: number,
        pc: 0,
        locals,
        stack,
    })
}

/// So many values from the top of a stack, the top last.
fn last_ones(stack: &Stack<Value>, count: usize) -> &[Value]
    ensures { result.now ≡ reverse (take count stack.now.0) }
{
    &stack.as_slice()[without(stack.len(), count)..]
}

/// The frame of a method that is called with so many values from the top of its caller's stack.
pub(crate) fn called_frame(
    alloc: Global,
    number: u32,
    method: &Method<'_>,
    stack: &Stack<Value>,
    count: usize,
) -> Result<Frame, AllocError>
    ensures frame { IfOk result (λ frame. frame_of frame ≡ new_frame number method.now (reverse (take count stack.now.0))) }
    ensures room { IfOk result (λ frame. frame.stack.1 ≡ method.now.max_stack) }
{
    new_frame(alloc, number, method, last_ones(stack, count))
}
