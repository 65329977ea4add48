//! Frames once more.
ghost use Rattle.std.specs.Prelude.{◌≡◌, IfOk};
ghost use Rattle.jvm_values.specs.States.{types_of};

use jvm_values::list_views::{Seq, Stack};
use jvm_values::{FrameType, PlaceType};
use std::alloc::{AllocError, Global};

/// The same stack once more.
fn stack_copy(alloc: Global, stack: &Stack<PlaceType>) -> Result<Stack<PlaceType>, AllocError>
    ensures { IfOk result (λ copy. copy.0 ≡ stack.now.0) }
{
    let mut copy = Stack::with_room(alloc, stack.len())?;
    for place in stack.as_slice() {
        copy.push(*place)?;
    }
    Ok(copy)
}

/// The same types once more.
///
/// # Errors
///
/// Want of memory.
pub fn copy_of(alloc: Global, frame: &FrameType) -> Result<FrameType, AllocError>
    ensures { IfOk result (λ copy. types_of copy ≡ types_of frame.now) }
{
    Ok(FrameType {
        locals: Seq::from_slice(alloc, frame.locals.as_slice())?,
        stack: stack_copy(alloc, &frame.stack)?,
    })
}
