//! Changes of the running frame and of its caller.
ghost use Rattle.std.specs.Prelude.{◌≡◌, ◌<◌, ◌≤◌, List, All, length, map, OnErr, MatchResult};
ghost use Rattle.class_program.specs.declared.program.Method.{Method};
ghost use Rattle.jvm_values.specs.States.{frame_of};
ghost use Rattle.jvm_step.specs.Memory.{CallerLacks, TopLacks};
ghost use Rattle.jvm_step.specs.Steps.{HasRoom, below_of, frames_with, callers_with, at_place, emptied, without_top, given, handling};

use crate::operands::replace;
use jvm_values::{Frame, Value};
use list_views::Stack;
use std::alloc::AllocError;

/// Lets a frame go on at a place.
fn set_place(frame: &mut Frame, place: u16)
    ensures frame { frame_of frame.new ≡ at_place place (frame_of frame.old) }
    ensures room { frame.new.stack.1 ≡ frame.old.stack.1 }
{
    frame.pc = place;
}

/// Empties the stack of a frame.
fn empty_stack(frame: &mut Frame)
    ensures frame { frame_of frame.new ≡ emptied (frame_of frame.old) }
    ensures room { frame.new.stack.1 ≡ frame.old.stack.1 }
{
    frame.stack.clear();
}

/// Takes so many values from the stack of a frame.
fn take_values(frame: &mut Frame, count: usize)
    ensures frame { frame_of frame.new ≡ without_top count (frame_of frame.old) }
    ensures room { frame.new.stack.1 ≡ frame.old.stack.1 }
{
    if count < frame.stack.len() {
        let left = frame.stack.len() - count;
        frame.stack.truncate(left);
    } else {
        frame.stack.clear();
    }
}

/// Lets a frame go on at a place, with the result of its call on its stack.
fn give(frame: &mut Frame, place: u16, value: Option<Value>) -> Result<(), AllocError>
    ensures frame { MatchResult result (λ _. frame_of frame.new ≡ given place value (frame_of frame.old))
        (λ _. frame_of frame.new ≡ frame_of frame.old) }
    ensures room { frame.old.stack.1 ≤ frame.new.stack.1 }
    ensures memory { OnErr result (frame.old.stack.1 < length (given place value (frame_of frame.old)).stack) }
{
    match value {
        Some(value) => {
            if frame.stack.push(value).is_err() {
                return Err(AllocError);
            }
        }
        None => {}
    }
    frame.pc = place;
    Ok(())
}

/// Lets a handler of a frame begin at a place with the thrown object.
fn begin_handler(frame: &mut Frame, place: u16, r: u32) -> Result<(), AllocError>
    ensures frame { MatchResult result (λ _. frame_of frame.new ≡ handling place r (frame_of frame.old))
        (λ _. frame_of frame.new ≡ frame_of frame.old) }
    ensures room { frame.old.stack.1 ≤ frame.new.stack.1 }
    ensures memory { OnErr result (frame.old.stack.1 ≡ 0) }
{
    let count = frame.stack.len();
    if count == 0 {
        if frame.stack.push(Value::Ref(r)).is_err() {
            return Err(AllocError);
        }
    } else {
        replace(&mut frame.stack, count - 1, Value::Ref(r));
    }
    frame.pc = place;
    Ok(())
}

/// Lets the running frame go on at a place.
pub(crate) fn set_top_place(frames: &mut Stack<Frame>, place: u16)
    requires { 0 < length frames.old.0 }
    ensures frames { map frame_of frames.new.0 ≡ frames_with (at_place place) (map frame_of frames.old.0) }
    ensures room { (methods : List Method) → All (HasRoom methods) frames.old.0 → All (HasRoom methods) frames.new.0 }
    ensures count { length frames.new.0 ≡ length frames.old.0 }
{
    set_place(frames.at_mut(0), place);
}

/// Empties the stack of the running frame.
pub(crate) fn empty_top(frames: &mut Stack<Frame>)
    requires { 0 < length frames.old.0 }
    ensures frames { map frame_of frames.new.0 ≡ frames_with emptied (map frame_of frames.old.0) }
    ensures room { (methods : List Method) → All (HasRoom methods) frames.old.0 → All (HasRoom methods) frames.new.0 }
    ensures count { length frames.new.0 ≡ length frames.old.0 }
{
    empty_stack(frames.at_mut(0));
}

/// Takes so many values from the stack of the running frame's caller.
pub(crate) fn take_from_caller(frames: &mut Stack<Frame>, count: usize)
    requires { 1 < length frames.old.0 }
    ensures frames { map frame_of frames.new.0 ≡ callers_with (without_top count) (map frame_of frames.old.0) }
    ensures room { (methods : List Method) → All (HasRoom methods) frames.old.0 → All (HasRoom methods) frames.new.0 }
    ensures count { length frames.new.0 ≡ length frames.old.0 }
{
    take_values(frames.at_mut(1), count);
}

/// Lets the running frame's caller go on at a place, with a result on its stack.
pub(crate) fn give_to_caller(
    frames: &mut Stack<Frame>,
    place: u16,
    value: Option<Value>,
) -> Result<(), AllocError>
    requires { 1 < length frames.old.0 }
    ensures frames { MatchResult result
        (λ _. map frame_of frames.new.0 ≡ callers_with (given place value) (map frame_of frames.old.0))
        (λ _. map frame_of frames.new.0 ≡ map frame_of frames.old.0) }
    ensures room { (methods : List Method) → All (HasRoom methods) frames.old.0 → All (HasRoom methods) frames.new.0 }
    ensures count { length frames.new.0 ≡ length frames.old.0 }
    ensures memory { OnErr result (CallerLacks value frames.old.0) }
{
    give(frames.at_mut(1), place, value)
}

/// Lets a handler of the running frame begin at a place with the thrown object.
pub(crate) fn handle_in_top(frames: &mut Stack<Frame>, place: u16, r: u32) -> Result<(), AllocError>
    requires { 0 < length frames.old.0 }
    ensures frames { MatchResult result
        (λ _. map frame_of frames.new.0 ≡ frames_with (handling place r) (map frame_of frames.old.0))
        (λ _. map frame_of frames.new.0 ≡ map frame_of frames.old.0) }
    ensures room { (methods : List Method) → All (HasRoom methods) frames.old.0 → All (HasRoom methods) frames.new.0 }
    ensures count { length frames.new.0 ≡ length frames.old.0 }
    ensures memory { OnErr result (TopLacks frames.old.0) }
{
    begin_handler(frames.at_mut(0), place, r)
}

/// Lets the running frame go.
pub(crate) fn drop_top(frames: &mut Stack<Frame>)
    ensures frames { map frame_of frames.new.0 ≡ below_of (map frame_of frames.old.0) }
    ensures room { (methods : List Method) → All (HasRoom methods) frames.old.0 → All (HasRoom methods) frames.new.0 }
{
    frames.pop();
}
