//! The instruction of a form, done.
ghost use Rattle.std.specs.Prelude.{◌≡◌, ◌≤◌, Some, length, OnErr};
ghost use Rattle.jvm_values.specs.declared.heap.Value.TheVariants as values;
ghost use Rattle.jvm_values.specs.States.{frame_of};
ghost use Rattle.class_program.specs.Views.{program_of};
ghost use Rattle.op_forms.specs.Forms.{form_seen};
ghost use Rattle.jvm_step.specs.Acts.{Acts, Tries};
ghost use Rattle.jvm_step.specs.Effects.{constant_effect, iinc_effect, tableswitch_effect};
ghost use Rattle.jvm_step.specs.Table.{effect_of};
ghost use Rattle.jvm_step.specs.Steps.{work_seen, form_at};
ghost use Rattle.jvm_step.specs.Memory.{Wants};

use crate::after::After;
use crate::calls::{invoke_selected, invokespecial, invokestatic};
use crate::casts::{aastore, checkcast, instanceof};
use crate::frames::{
    aload, arith, astore, goto, iinc, iload, ineg, istore, jump_if, jump_if_ints, jump_if_null,
    jump_if_same, lookupswitch, narrow, push, tableswitch,
};
use crate::leaves::{areturn, athrow, ireturn, return_nothing};
use crate::objects::{anewarray, new_object, newarray};
use crate::reads::{aaload, arraylength, getfield, getstatic, number_load};
use crate::shuffles::shuffle;
use crate::writes::{number_store, putfield, putstatic};
use class_program::{Method, Program};
use jvm_values::{Frame, Heap, Value};
use list_views::Seq;
use op_forms::Form;
use std::alloc::{AllocError, Global};

/// Pushes an int.
fn push_int(frame: &mut Frame, n: &i32) -> Result<After, AllocError>
    ensures effect { Tries (constant_effect (values.Int n.now) (frame_of frame.old)) result (frame_of frame.old) (frame_of frame.new) }
    ensures room { frame.old.stack.1 ≤ frame.new.stack.1 }
    ensures method { frame.new.method ≡ frame.old.method }
    ensures memory { OnErr result (frame.old.stack.1 ≤ length frame.old.stack.0) }
{
    push(frame, Value::Int(*n))
}

/// Adds a number to the int of a local.
fn add_to_local(frame: &mut Frame, n: u16, by: &i16) -> After
    ensures effect { Acts (iinc_effect n by.now (frame_of frame.old)) result (frame_of frame.old) (frame_of frame.new) }
    ensures room { frame.new.stack.1 ≡ frame.old.stack.1 }
    ensures method { frame.new.method ≡ frame.old.method }
{
    iinc(frame, n, *by)
}

/// A jump to the target of the top int, in a table that begins with an int.
fn switch_from(frame: &mut Frame, default: u16, low: &i32, targets: &[u16]) -> After
    ensures effect { Acts (tableswitch_effect default low.now targets.now (frame_of frame.old)) result (frame_of frame.old)
        (frame_of frame.new) }
    ensures room { frame.new.stack.1 ≡ frame.old.stack.1 }
    ensures method { frame.new.method ≡ frame.old.method }
{
    tableswitch(frame, default, *low, targets)
}

/// Does the effect of the form of the instruction at the frame's place, in a method of the program.
pub(crate) fn perform(
    alloc: Global,
    program: &Program<'_>,
    method: &Method<'_>,
    frame: &mut Frame,
    statics: &mut Seq<Value>,
    heap: &mut Heap,
    form: &Form<'_>,
) -> Result<After, AllocError>
    requires here { form_at (program_of program.now) frame.old.method frame.old.pc ≡ Some (form_seen form.now) }
    ensures effect { Tries
        (effect_of (program_of program.now) method.now (form_seen form.now) (work_seen frame.old statics.old heap.old)) result
        (work_seen frame.old statics.old heap.old) (work_seen frame.new statics.new heap.new) }
    ensures room { frame.old.stack.1 ≤ frame.new.stack.1 }
    ensures method { frame.new.method ≡ frame.old.method }
    ensures memory { OnErr result
        (Wants frame.old.stack.1 (work_seen frame.old statics.old heap.old)
        (effect_of (program_of program.now) method.now (form_seen form.now) (work_seen frame.old statics.old heap.old))) }
{
    match form {
        Form::Nop => Ok(After::Next),
        Form::AconstNull => push(frame, Value::Null),
        Form::Iconst(n) => push_int(frame, n),
        Form::Iload(n) => iload(frame, *n),
        Form::Aload(n) => aload(frame, *n),
        Form::Istore(n) => Ok(istore(frame, *n)),
        Form::Astore(n) => Ok(astore(frame, *n)),
        Form::Iinc(n, by) => Ok(add_to_local(frame, *n, by)),
        Form::Shuffle(reordering) => shuffle(frame, *reordering),
        Form::Arith(op) => Ok(arith(frame, *op)),
        Form::Ineg => Ok(ineg(frame)),
        Form::Narrow(kind) => Ok(narrow(frame, *kind)),
        Form::If(cond, place) => Ok(jump_if(frame, *cond, *place)),
        Form::IfIcmp(cond, place) => Ok(jump_if_ints(frame, *cond, *place)),
        Form::IfAcmpeq(place) => Ok(jump_if_same(frame, true, *place)),
        Form::IfAcmpne(place) => Ok(jump_if_same(frame, false, *place)),
        Form::Ifnull(place) => Ok(jump_if_null(frame, true, *place)),
        Form::Ifnonnull(place) => Ok(jump_if_null(frame, false, *place)),
        Form::Goto(place) => Ok(goto(frame, *place)),
        Form::Tableswitch {
            default,
            low,
            targets,
        } => Ok(switch_from(frame, *default, low, *targets)),
        Form::Lookupswitch { default, cases } => Ok(lookupswitch(frame, *default, *cases)),
        Form::Ireturn => Ok(ireturn(frame)),
        Form::Areturn => Ok(areturn(frame)),
        Form::Return => Ok(return_nothing(frame)),
        Form::Getstatic(place) => getstatic(frame, statics, *place),
        Form::Putstatic(place) => Ok(putstatic(frame, statics, program.statics.as_slice(), *place)),
        Form::Getfield(used) => Ok(getfield(frame, heap, *used)),
        Form::Putfield(used) => Ok(putfield(alloc, frame, heap, *used)),
        Form::Invokevirtual(call) => Ok(invoke_selected(program, frame, heap, *call)),
        Form::Invokespecial(call) => Ok(invokespecial(frame, *call)),
        Form::Invokestatic(call) => Ok(invokestatic(frame, *call)),
        Form::Invokeinterface(call) => Ok(invoke_selected(program, frame, heap, *call)),
        Form::New(t) => new_object(alloc, &program.world, frame, heap, *t),
        Form::Newarray(kind) => newarray(alloc, frame, heap, *kind),
        Form::Anewarray(t) => anewarray(alloc, frame, heap, *t),
        Form::Arraylength => Ok(arraylength(frame, heap)),
        Form::NumberLoad(kinds) => Ok(number_load(frame, heap, *kinds)),
        Form::Aaload => Ok(aaload(frame, heap)),
        Form::NumberStore(kinds) => Ok(number_store(alloc, frame, heap, *kinds)),
        Form::Aastore => Ok(aastore(&program.world, alloc, frame, heap)),
        Form::Athrow => Ok(athrow(frame)),
        Form::Checkcast(t) => Ok(checkcast(&program.world, frame, heap, *t)),
        Form::Instanceof(t) => Ok(instanceof(&program.world, frame, heap, *t)),
    }
}
