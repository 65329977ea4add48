//! The types after an instruction.
ghost use Rattle.class_program.specs.class_world.WorldTypes.{types_of};
ghost use Rattle.std.specs.Prelude.{◌≡◌, Some, None, IfOk, MatchBool};
ghost use Rattle.jvm_values.specs.States.{types_of as seen};
ghost use Rattle.class_program.specs.Views.{program_of};
ghost use Rattle.op_forms.specs.Forms.{form_seen};
ghost use Rattle.code_verify.specs.Answers.{IsGoodForm};
ghost use Rattle.code_verify.specs.Rows.{shuffle_types, types_after};

use crate::operands::{place_of, want_of};
use crate::rows::{
    THROWABLE, aaload, acts, aload, anewarray, areturn, astore, getstatic, iinc, iload, invoke,
    invokestatic, ireturn, istore, putstatic, special_receiver,
};
use crate::shuffles::shuffle;
use crate::want::Want;
use class_program::{Method, Program};
use jvm_values::{FrameType, PlaceType, Types, array_of_numbers, class_type};
use op_forms::{Form, Shuffle};
use std::alloc::AllocError;

#[tactic(auto, unfolding(crate::specs::Rows::shuffle_types))]
fn shuffled(kind: Shuffle, frame: &mut FrameType) -> Result<bool, AllocError>
    ensures { IfOk result (λ ok. MatchBool ok (shuffle_types kind (seen frame.old) ≡ Some (seen frame.new))
        (shuffle_types kind (seen frame.old) ≡ None)) }
{
    shuffle(kind, &mut frame.stack)
}

/// Makes the types of a frame those after an instruction, where it finds what it needs, and says so (JVM specification,
/// section 4.10.1.9).
///
/// # Errors
///
/// Want of memory; then, and where it does not find what it needs, the frame is of no use.
pub fn types_after(
    program: &Program<'_>,
    method: &Method<'_>,
    form: Form<'_>,
    frame: &mut FrameType,
) -> Result<bool, AllocError>
    requires { IsGoodForm (program_of program.now) (form_seen form) }
    ensures { IfOk result
        (λ ok. MatchBool ok (types_after (program_of program.now) method.now (form_seen form.entry) (seen frame.old) ≡ Some
        (seen frame.new)) (types_after (program_of program.now) method.now (form_seen form.entry) (seen frame.old) ≡ None)) }
{
    let world = &program.world;
    match form {
        Form::Nop | Form::Goto(_) => Ok(true),
        Form::AconstNull => acts(world, &[], Some(PlaceType::Null), frame),
        Form::Iconst(_) => acts(world, &[], Some(PlaceType::Int), frame),
        Form::Iload(n) => iload(n, frame),
        Form::Aload(n) => aload(n, frame),
        Form::Istore(n) => Ok(istore(world, n, frame)),
        Form::Astore(n) => Ok(astore(n, frame)),
        Form::Iinc(n, _) => Ok(iinc(n, frame)),
        Form::Shuffle(kind) => shuffled(kind, frame),
        Form::Arith(_) => acts(world, &[Want::Int, Want::Int], Some(PlaceType::Int), frame),
        Form::Ineg => acts(world, &[Want::Int], Some(PlaceType::Int), frame),
        Form::Narrow(_) => acts(world, &[Want::Int], Some(PlaceType::Int), frame),
        Form::If(_, _) => acts(world, &[Want::Int], None, frame),
        Form::IfIcmp(_, _) => acts(world, &[Want::Int, Want::Int], None, frame),
        Form::IfAcmpeq(_) => acts(world, &[Want::Reference, Want::Reference], None, frame),
        Form::IfAcmpne(_) => acts(world, &[Want::Reference, Want::Reference], None, frame),
        Form::Ifnull(_) => acts(world, &[Want::Reference], None, frame),
        Form::Ifnonnull(_) => acts(world, &[Want::Reference], None, frame),
        Form::Tableswitch { .. } => acts(world, &[Want::Int], None, frame),
        Form::Lookupswitch { .. } => acts(world, &[Want::Int], None, frame),
        Form::Ireturn => ireturn(world, method.result, frame),
        Form::Areturn => areturn(world, method.result, frame),
        Form::Return => Ok(method.result.is_none()),
        Form::Getstatic(place) => getstatic(program, place, frame),
        Form::Putstatic(place) => putstatic(program, place, frame),
        Form::Getfield(used) => acts(
            world,
            &[Want::Below(class_type(used.class))],
            Some(place_of(world, used.slot)),
            frame,
        ),
        Form::Putfield(used) => acts(
            world,
            &[want_of(used.slot), Want::Below(class_type(used.class))],
            None,
            frame,
        ),
        Form::Invokevirtual(call) => invoke(
            world,
            call,
            Want::Below(class_type(call.class)),
            frame,
        ),
        Form::Invokespecial(call) => invoke(
            world,
            call,
            special_receiver(world, method.class, call),
            frame,
        ),
        Form::Invokestatic(call) => invokestatic(world, call, frame),
        Form::Invokeinterface(call) => invoke(world, call, Want::Reference, frame),
        Form::New(t) => acts(world, &[], Some(PlaceType::Ref(world.erase(t))), frame),
        Form::Newarray(kind) => acts(
            world,
            &[Want::Int],
            Some(PlaceType::Ref(array_of_numbers(kind))),
            frame,
        ),
        Form::Anewarray(t) => anewarray(world, t, frame),
        Form::Arraylength => acts(world, &[Want::Array], Some(PlaceType::Int), frame),
        Form::NumberLoad(items) => acts(
            world,
            &[Want::Int, Want::Numbers(items)],
            Some(PlaceType::Int),
            frame,
        ),
        Form::Aaload => aaload(world, frame),
        Form::NumberStore(items) => acts(
            world,
            &[Want::Int, Want::Int, Want::Numbers(items)],
            None,
            frame,
        ),
        Form::Aastore => acts(
            world,
            &[Want::Reference, Want::Int, Want::References],
            None,
            frame,
        ),
        Form::Athrow => acts(world, &[Want::Below(class_type(THROWABLE))], None, frame),
        Form::Checkcast(t) => acts(
            world,
            &[Want::Reference],
            Some(PlaceType::Ref(world.erase(t))),
            frame,
        ),
        Form::Instanceof(_) => acts(world, &[Want::Reference], Some(PlaceType::Int), frame),
    }
}
