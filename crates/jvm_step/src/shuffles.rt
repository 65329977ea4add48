//! Reorderings of the operand stack.
ghost use Rattle.std.specs.Prelude.{◌≡◌, ◌+◌, ◌<◌, ◌≤◌, ◌∷◌, List, Some, length, slice_set, MatchResult, OnErr};
ghost use Rattle.jvm_values.specs.States.{frame_of};
ghost use Rattle.jvm_step.specs.Acts.{Acts, Tries};
ghost use Rattle.jvm_step.specs.Operands.{top};
ghost use Rattle.jvm_step.specs.Effects.{shuffle_effect};
ghost use Rattle.jvm_values.specs.declared.heap.Value.{Value as ValueSeen};
ghost use Rattle.op_forms.specs.declared.form.Shuffle.TheVariants as shuffles;
ghost use Rattle.op_forms.specs.Forms.{shuffled};

use crate::after::After;
use crate::operands::{take, value_at};
use jvm_values::{Frame, Value};
use list_views::Stack;
use op_forms::Shuffle;
use std::alloc::AllocError;

/// Sets the value under so many others.
fn set(stack: &mut Stack<Value>, depth: usize, value: Value)
    requires { depth < length stack.old.0 }
    ensures items { stack.new.0 ≡ slice_set stack.old.0 depth value }
    ensures room { stack.new.1 ≡ stack.old.1 }
{
    *stack.at_mut(depth) = value;
}

/// Puts two values on the top, or none.
fn push_two(stack: &mut Stack<Value>, a: Value, b: Value) -> Result<(), AllocError>
    ensures items { MatchResult result (λ _. stack.new.0 ≡ a ∷ b ∷ stack.old.0) (λ _. stack.new.0 ≡ stack.old.0) }
    ensures room { stack.old.1 ≤ stack.new.1 }
    ensures memory { OnErr result (stack.old.1 ≤ length stack.old.0 + 1) }
{
    if stack.push(b).is_err() {
        return Err(AllocError);
    }
    if stack.push(a).is_err() {
        stack.pop();
        return Err(AllocError);
    }
    Ok(())
}

/// Takes the top value.
#[tactic(auto, unfolding(crate::specs::Effects::shuffle_effect))]
fn pop(frame: &mut Frame) -> After
    ensures effect { Acts (shuffle_effect shuffles.Pop (frame_of frame.old)) result (frame_of frame.old) (frame_of frame.new) }
    ensures room { frame.new.stack.1 ≡ frame.old.stack.1 }
    ensures method { frame.new.method ≡ frame.old.method }
{
    if !frame.stack.is_empty() {
        take(&mut frame.stack, 1);
    }
    After::Next
}

/// Takes the two top values.
#[tactic(auto, unfolding(crate::specs::Effects::shuffle_effect))]
fn pop2(frame: &mut Frame) -> After
    ensures effect { Acts (shuffle_effect shuffles.Pop2 (frame_of frame.old)) result (frame_of frame.old) (frame_of frame.new) }
    ensures room { frame.new.stack.1 ≡ frame.old.stack.1 }
    ensures method { frame.new.method ≡ frame.old.method }
{
    if frame.stack.len() >= 2 {
        take(&mut frame.stack, 2);
    }
    After::Next
}

/// Lets the two top values change places.
#[tactic(auto, unfolding(crate::specs::Effects::shuffle_effect))]
fn swap(frame: &mut Frame) -> After
    ensures effect { Acts (shuffle_effect shuffles.Swap (frame_of frame.old)) result (frame_of frame.old) (frame_of frame.new) }
    ensures room { frame.new.stack.1 ≡ frame.old.stack.1 }
    ensures method { frame.new.method ≡ frame.old.method }
{
    if let Some((a, b)) = frame.stack.top_two() {
        set(&mut frame.stack, 0, b);
        set(&mut frame.stack, 1, a);
    }
    After::Next
}

/// Puts a copy of the top value above it.
#[tactic(auto, unfolding(crate::specs::Effects::shuffle_effect))]
fn dup(frame: &mut Frame) -> Result<After, AllocError>
    ensures effect { Tries (shuffle_effect shuffles.Dup (frame_of frame.old)) result (frame_of frame.old) (frame_of frame.new) }
    ensures room { frame.old.stack.1 ≤ frame.new.stack.1 }
    ensures method { frame.new.method ≡ frame.old.method }
    ensures memory { OnErr result (frame.old.stack.1 ≤ length frame.old.stack.0) }
{
    let Some(a) = value_at(&frame.stack, 0) else {
        return Ok(After::Next);
    };
    match frame.stack.push(a) {
        Ok(()) => { Ok(After::Next) }
        Err(_) => Err(AllocError),
    }
}

/// Puts a copy of the top value below the second one.
#[tactic(auto, unfolding(crate::specs::Effects::shuffle_effect))]
fn dup_x1(frame: &mut Frame) -> Result<After, AllocError>
    ensures effect { Tries (shuffle_effect shuffles.DupX1 (frame_of frame.old)) result (frame_of frame.old) (frame_of frame.new) }
    ensures room { frame.old.stack.1 ≤ frame.new.stack.1 }
    ensures method { frame.new.method ≡ frame.old.method }
    ensures memory { OnErr result (frame.old.stack.1 ≤ length frame.old.stack.0) }
{
    let Some((a, b)) = frame.stack.top_two() else {
        return Ok(After::Next);
    };
    match frame.stack.push(a) {
        Ok(()) => {
            set(&mut frame.stack, 1, b);
            set(&mut frame.stack, 2, a);
            Ok(After::Next)
        }
        Err(_) => Err(AllocError),
    }
}

/// Puts a copy of the top value below the third one.
#[tactic(auto, unfolding(crate::specs::Effects::shuffle_effect))]
fn dup_x2(frame: &mut Frame) -> Result<After, AllocError>
    ensures effect { Tries (shuffle_effect shuffles.DupX2 (frame_of frame.old)) result (frame_of frame.old) (frame_of frame.new) }
    ensures room { frame.old.stack.1 ≤ frame.new.stack.1 }
    ensures method { frame.new.method ≡ frame.old.method }
    ensures memory { OnErr result (frame.old.stack.1 ≤ length frame.old.stack.0) }
{
    let Some((a, b, c)) = frame.stack.top_three() else {
        return Ok(After::Next);
    };
    match frame.stack.push(a) {
        Ok(()) => {
            set(&mut frame.stack, 1, b);
            set(&mut frame.stack, 2, c);
            set(&mut frame.stack, 3, a);
            Ok(After::Next)
        }
        Err(_) => Err(AllocError),
    }
}

/// Puts copies of the two top values above them.
#[tactic(auto, unfolding(crate::specs::Effects::shuffle_effect))]
fn dup2(frame: &mut Frame) -> Result<After, AllocError>
    ensures effect { Tries (shuffle_effect shuffles.Dup2 (frame_of frame.old)) result (frame_of frame.old) (frame_of frame.new) }
    ensures room { frame.old.stack.1 ≤ frame.new.stack.1 }
    ensures method { frame.new.method ≡ frame.old.method }
    ensures memory { OnErr result (frame.old.stack.1 ≤ length frame.old.stack.0 + 1) }
{
    let Some((a, b)) = frame.stack.top_two() else {
        return Ok(After::Next);
    };
    push_two(&mut frame.stack, a, b)?;
    Ok(After::Next)
}

/// Puts copies of the two top values below the third one.
#[tactic(auto, unfolding(crate::specs::Effects::shuffle_effect))]
fn dup2_x1(frame: &mut Frame) -> Result<After, AllocError>
    ensures effect { Tries (shuffle_effect shuffles.Dup2X1 (frame_of frame.old)) result (frame_of frame.old) (frame_of frame.new) }
    ensures room { frame.old.stack.1 ≤ frame.new.stack.1 }
    ensures method { frame.new.method ≡ frame.old.method }
    ensures memory { OnErr result (frame.old.stack.1 ≤ length frame.old.stack.0 + 1) }
{
    let Some((a, b, c)) = frame.stack.top_three() else {
        return Ok(After::Next);
    };
    push_two(&mut frame.stack, a, b)?;
    set(&mut frame.stack, 2, c);
    set(&mut frame.stack, 3, a);
    set(&mut frame.stack, 4, b);
    Ok(After::Next)
}

/// Puts copies of the two top values below the fourth one.
#[tactic(auto, unfolding(crate::specs::Effects::shuffle_effect))]
fn dup2_x2(frame: &mut Frame) -> Result<After, AllocError>
    ensures effect { Tries (shuffle_effect shuffles.Dup2X2 (frame_of frame.old)) result (frame_of frame.old) (frame_of frame.new) }
    ensures room { frame.old.stack.1 ≤ frame.new.stack.1 }
    ensures method { frame.new.method ≡ frame.old.method }
    ensures memory { OnErr result (frame.old.stack.1 ≤ length frame.old.stack.0 + 1) }
{
    let Some((a, b, c, d)) = frame.stack.top_four() else {
        return Ok(After::Next);
    };
    push_two(&mut frame.stack, a, b)?;
    set(&mut frame.stack, 2, c);
    set(&mut frame.stack, 3, d);
    set(&mut frame.stack, 4, a);
    set(&mut frame.stack, 5, b);
    Ok(After::Next)
}

/// Reorders the top of the stack. Memory is wanting only where the stack has no room for what stands on it afterwards.
pub fn shuffle(frame: &mut Frame, shuffle: Shuffle) -> Result<After, AllocError>
    ensures effect { Tries (shuffle_effect shuffle (frame_of frame.old)) result (frame_of frame.old) (frame_of frame.new) }
    ensures room { frame.old.stack.1 ≤ frame.new.stack.1 }
    ensures method { frame.new.method ≡ frame.old.method }
    ensures memory { OnErr result (frame.old.stack.1 ≤ length frame.old.stack.0 + 1) }
    ensures full { OnErr result ((after : List ValueSeen) → shuffled shuffle frame.old.stack.0 ≡ Some after
        → frame.old.stack.1 < length after) }
{
    match shuffle {
        Shuffle::Pop => Ok(pop(frame)),
        Shuffle::Pop2 => Ok(pop2(frame)),
        Shuffle::Dup => dup(frame),
        Shuffle::DupX1 => dup_x1(frame),
        Shuffle::DupX2 => dup_x2(frame),
        Shuffle::Dup2 => dup2(frame),
        Shuffle::Dup2X1 => dup2_x1(frame),
        Shuffle::Dup2X2 => dup2_x2(frame),
        Shuffle::Swap => Ok(swap(frame)),
    }
}
