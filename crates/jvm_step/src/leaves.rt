//! Instructions that leave their frame: throws and returns.
ghost use Rattle.std.specs.Prelude.{Option};
ghost use Rattle.jvm_values.specs.declared.heap.Heap.{Heap};
ghost use Rattle.jvm_values.specs.declared.types.Slot.{Slot};
ghost use Rattle.jvm_values.specs.States.{frame_of};
ghost use Rattle.jvm_values.specs.TypedHeaps.{WorldTypes};
ghost use Rattle.jvm_step.specs.Acts.{Acts};
ghost use Rattle.jvm_step.specs.Effects.{athrow_effect, ireturn_effect, areturn_effect, return_effect};

use crate::after::After;
use crate::built_ins::NULL_POINTER_EXCEPTION;
use crate::operands::{int_at, reference_at};
use jvm_values::{Frame, Value};

/// Throws the object of the top reference.
#[tactic(auto, unfolding(crate::specs::Effects::athrow_effect))]
pub fn athrow(frame: &Frame) -> After
    ensures { (types : WorldTypes) (heap : Heap) → Acts (athrow_effect types heap (frame_of frame.now)) result (frame_of frame.now)
        (frame_of frame.now) }
{
    match reference_at(&frame.stack, 0) {
        None => After::Next,
        Some(Value::Int(_)) => After::Next,
        Some(Value::Null) => After::Raise(NULL_POINTER_EXCEPTION),
        Some(Value::Ref(r)) => After::Throw(r),
    }
}

/// Returns the top int.
#[tactic(auto, unfolding(crate::specs::Effects::ireturn_effect))]
pub fn ireturn(frame: &Frame) -> After
    ensures { (slot : Option Slot) → Acts (ireturn_effect slot (frame_of frame.now)) result (frame_of frame.now) (frame_of frame.now) }
{
    match int_at(&frame.stack, 0) {
        Some(n) => After::Return(Some(Value::Int(n))),
        None => After::Next,
    }
}

/// Returns the top reference.
#[tactic(auto, unfolding(crate::specs::Effects::areturn_effect))]
pub fn areturn(frame: &Frame) -> After
    ensures { (types : WorldTypes) (slot : Option Slot) (heap : Heap)
        → Acts (areturn_effect types slot heap (frame_of frame.now)) result (frame_of frame.now) (frame_of frame.now) }
{
    match reference_at(&frame.stack, 0) {
        Some(reference) => After::Return(Some(reference)),
        None => After::Next,
    }
}

/// Returns nothing.
pub fn return_nothing(frame: &Frame) -> After
    ensures { (slot : Option Slot) → Acts (return_effect slot (frame_of frame.now)) result (frame_of frame.now) (frame_of frame.now) }
{
    After::Return(None)
}
