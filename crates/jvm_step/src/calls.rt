//! Calls.
ghost use Rattle.std.specs.Prelude.{◌≡◌, ◌+◌, ℕ, Some, IfSome, drop};
ghost use Rattle.std.specs.Option.{option_map};
ghost use Rattle.jvm_values.specs.declared.heap.Heap.{Heap};
ghost use Rattle.jvm_values.specs.States.{frame_of};
ghost use Rattle.jvm_values.specs.TypedHeaps.{WorldTypes};
ghost use Rattle.class_program.specs.class_world.World.{World};
ghost use Rattle.class_program.specs.declared.op.Op.{Op};
ghost use Rattle.class_program.specs.Programs.{op_at};
ghost use Rattle.class_program.specs.Selected.{selected_at, can_receive_at};
ghost use Rattle.class_program.specs.Views.{program_of};
ghost use Rattle.jvm_step.specs.Acts.{Acts};
ghost use Rattle.jvm_step.specs.Operands.{top_reference};
ghost use Rattle.jvm_step.specs.Effects.{class_of_object, answer_of, invokestatic_effect, invokespecial_effect, selecting_effect};

use crate::after::After;
use crate::built_ins::{
    ABSTRACT_METHOD_ERROR, INCOMPATIBLE_CLASS_CHANGE_ERROR, NULL_POINTER_EXCEPTION,
};
use crate::operands::reference_at;
use crate::reads::object_at;
use class_program::{Call, Program, Selected};
use jvm_values::{Frame, Heap, Object, Value};
use list_views::Stack;

/// Calls a static method.
#[tactic(auto, unfolding(crate::specs::Effects::invokestatic_effect, crate::specs::Effects::below_arguments))]
pub fn invokestatic(frame: &Frame, call: &Call) -> After
    ensures { (types : WorldTypes) (heap : Heap)
        → Acts (invokestatic_effect types call.now heap (frame_of frame.now)) result (frame_of frame.now) (frame_of frame.now) }
{
    match call.target {
        Some(number) => After::Invoke(number, call.params.len()),
        None => After::Next,
    }
}

/// The receiver under so many arguments, and how many values it is with them.
fn receiver_under(stack: &Stack<Value>, count: usize) -> Option<(Value, usize)>
    ensures receiver { option_map (λ x. (x.0, drop (count + 1) stack.now.0)) result ≡ top_reference (drop count stack.now.0) }
    ensures taken { IfSome result (λ x. x.1 ≡ count + 1) }
{
    if count < stack.len() {
        match reference_at(stack, count) {
            Some(receiver) => Some((receiver, count + 1)),
            None => None,
        }
    } else {
        None
    }
}

/// Calls a method on the receiver below its arguments; a method without a body throws.
#[tactic(auto, unfolding(crate::specs::Effects::invokespecial_effect, crate::specs::Effects::below_arguments))]
pub fn invokespecial(frame: &Frame, call: &Call) -> After
    ensures { (world : World) (current : ℕ) (heap : Heap)
        → Acts (invokespecial_effect world current call.now heap (frame_of frame.now)) result (frame_of frame.now) (frame_of frame.now) }
{
    let Some((receiver, taken)) = receiver_under(&frame.stack, call.params.len()) else {
        return After::Next;
    };
    match receiver {
        Value::Int(_) => After::Next,
        Value::Null => After::Raise(NULL_POINTER_EXCEPTION),
        Value::Ref(_) => match call.target {
            Some(number) => After::Invoke(number, taken),
            None => After::Raise(ABSTRACT_METHOD_ERROR),
        },
    }
}

/// The class whose methods an object has.
fn class_of_object(object: &Object) -> u32
    ensures { result ≡ class_of_object object.now }
{
    match object {
        Object::Instance { class, fields: _ } => *class,
        Object::Nums { kind: _, items: _ } => 0,
        Object::Refs {
            element: _,
            items: _,
        } => 0,
    }
}

/// Calls the method that the class of the receiver selects; the receiver is below the arguments. The call is the instruction
/// at the frame's place.
#[tactic(auto, unfolding(crate::specs::Effects::selecting_effect, crate::specs::Effects::below_arguments, crate::specs::Effects::answer_of, class_program::specs::Selected::selected_at, class_program::specs::Selected::can_receive_at))]
pub fn invoke_selected(program: &Program<'_>, frame: &Frame, heap: &Heap, call: &Call) -> After
    ensures { (op : Op) → op_at (program_of program.now).methods frame.now.method frame.now.pc ≡ Some op
        → Acts (selecting_effect (program_of program.now) op call.now heap.now (frame_of frame.now)) result (frame_of frame.now)
        (frame_of frame.now) }
{
    let Some((receiver, taken)) = receiver_under(&frame.stack, call.params.len()) else {
        return After::Next;
    };
    match receiver {
        Value::Int(_) => After::Next,
        Value::Null => After::Raise(NULL_POINTER_EXCEPTION),
        Value::Ref(r) => {
            let Some(object) = object_at(heap, r) else {
                return After::Next;
            };
            let class = class_of_object(object);
            if !program.can_receive(frame.method, frame.pc, class) {
                return After::Next;
            }
            match program.select(frame.method, frame.pc, class) {
                Selected::Method(number) => After::Invoke(number, taken),
                Selected::Abstract => After::Raise(ABSTRACT_METHOD_ERROR),
                Selected::NoInterface => After::Raise(INCOMPATIBLE_CLASS_CHANGE_ERROR),
            }
        }
    }
}
