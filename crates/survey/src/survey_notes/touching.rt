//! The premises that a program touches (docs/MACHINE.md, "What is left as a premise").

use crate::survey_notes::sources::Sources;
use class_program::{CatchRange, Method, Op, Program, StaticField};
use class_world::World;
use class_world::built_ins::{
    ABSTRACT_METHOD_ERROR, ARITHMETIC_EXCEPTION, ARRAY_INDEX_OUT_OF_BOUNDS_EXCEPTION,
    ARRAY_STORE_EXCEPTION, CLASS_CAST_EXCEPTION, ERROR, NEGATIVE_ARRAY_SIZE_EXCEPTION,
    NULL_POINTER_EXCEPTION, THROWABLE,
};
use code_forms::Insn;
use code_verify::Typing;
use input_steps::{Refused, typings};
use jvm_values::{Base, FrameType, PlaceType, Ty};
use std::alloc::{AllocError, Global};

/// The premises that a program touches.
#[derive(Clone, Copy, PartialEq, Eq)]
pub struct Touched {
    /// A handler can take an Error: a JVM may throw one where the machine goes on.
    pub errors: bool,
    /// Two references are compared that can be exceptions which the machine itself raised: a JVM may raise one object twice.
    pub exceptions: bool,
    /// A static field has a constant as its first value, which the machine doesn't look at.
    pub constants: bool,
}

/// The exceptions that instructions raise.
const RAISED: [u32; 7] = [
    NULL_POINTER_EXCEPTION,
    ARITHMETIC_EXCEPTION,
    ARRAY_INDEX_OUT_OF_BOUNDS_EXCEPTION,
    NEGATIVE_ARRAY_SIZE_EXCEPTION,
    CLASS_CAST_EXCEPTION,
    ARRAY_STORE_EXCEPTION,
    ABSTRACT_METHOD_ERROR,
];

/// Whether class `a` is class `b` or below it; false where one of them isn't there.
fn is_below(world: &World<'_>, a: u32, b: u32) -> bool {
    (a as usize) < world.len() && world.is_below(a, b)
}

/// Whether an exception that an instruction raises is of a class.
fn is_raised(world: &World<'_>, class: u32) -> bool {
    RAISED.iter().any(|raised| is_below(world, *raised, class))
}

/// Whether a handler can take an Error.
fn takes_errors(world: &World<'_>, range: &CatchRange) -> bool {
    match range.catch {
        Some(class) => class == THROWABLE || is_below(world, class, ERROR),
        None => true,
    }
}

/// Whether a handler can take an exception that an instruction raises.
fn takes_raised(world: &World<'_>, range: &CatchRange) -> bool {
    match range.catch {
        Some(class) => is_raised(world, class),
        None => true,
    }
}

/// Whether some handler of a method can take an Error.
fn has_error_handler(world: &World<'_>, method: &Method<'_>) -> bool {
    for range in method.table.as_slice() {
        if takes_errors(world, range) {
            return true;
        }
    }
    false
}

/// Whether some handler of a method can take an exception that an instruction raises.
fn has_raised_handler(world: &World<'_>, method: &Method<'_>) -> bool {
    for range in method.table.as_slice() {
        if takes_raised(world, range) {
            return true;
        }
    }
    false
}

/// Whether an exception that an instruction raises can stand at a place of these types.
fn can_be_raised(world: &World<'_>, types: PlaceType) -> bool {
    match types {
        PlaceType::Ref(
            Ty {
                dims: 0,
                base: Base::Class(class),
            },
        ) => is_raised(world, class),
        _ => false,
    }
}

/// Whether both references on top can be such exceptions.
fn both_can_be_raised(world: &World<'_>, frame: &FrameType) -> bool {
    match frame.stack.top_two() {
        Some((one, other)) => can_be_raised(world, one) && can_be_raised(world, other),
        None => false,
    }
}

/// Whether an instruction compares two references.
fn is_comparison(op: &Op) -> bool {
    matches!(
        op,
        Op::Plain(Insn::IfAcmpeq(_)) | Op::Plain(Insn::IfAcmpne(_))
    )
}

/// Whether a method compares two such exceptions.
fn compares_raised(world: &World<'_>, typing: &Typing, number: u32, method: &Method<'_>) -> bool {
    for (pc, op) in method.insns.as_slice() {
        if is_comparison(op) {
            match typing.at(number, *pc) {
                Some(frame) if both_can_be_raised(world, frame) => return true,
                _ => {}
            }
        }
    }
    false
}

/// Whether the method of a number compares two such exceptions.
fn numbered_compares(
    world: &World<'_>,
    typing: &Typing,
    number: usize,
    method: &Method<'_>,
) -> bool {
    match u32::try_from(number) {
        Ok(number) => compares_raised(world, typing, number, method),
        Err(_) => false,
    }
}

/// Whether some method of a program compares two such exceptions.
fn program_compares(program: &Program<'_>, typing: &Typing) -> bool {
    for (number, method) in program.methods.as_slice().iter().enumerate() {
        if numbered_compares(&program.world, typing, number, method) {
            return true;
        }
    }
    false
}

/// Whether a program can take two exceptions that the machine raised, and compares such.
fn touches_exceptions(alloc: Global, program: &Program<'_>) -> Result<bool, Refused> {
    for method in program.methods.as_slice() {
        if has_raised_handler(&program.world, method) {
            let typing = typings(alloc, program)?;
            return Ok(program_compares(program, &typing));
        }
    }
    Ok(false)
}

/// Whether some handler of a program can take an Error.
fn touches_errors(program: &Program<'_>) -> bool {
    for method in program.methods.as_slice() {
        if has_error_handler(&program.world, method) {
            return true;
        }
    }
    false
}

/// Whether a static field has a constant.
fn has_constant(
    alloc: Global,
    sources: &Sources<'_, '_>,
    world: &World<'_>,
    field: &StaticField<'_>,
) -> Result<bool, AllocError> {
    if (field.class as usize) >= world.len() {
        return Ok(false);
    }
    match sources.java_of(alloc, world.view(field.class).name)? {
        Some(java) => Ok(java.has_constant(field.name.as_slice(), field.desc.as_slice())),
        None => Ok(false),
    }
}

/// Whether some static field of a program has a constant.
fn touches_constants(
    alloc: Global,
    sources: &Sources<'_, '_>,
    program: &Program<'_>,
) -> Result<bool, AllocError> {
    for field in program.statics.as_slice() {
        if has_constant(alloc, sources, &program.world, field)? {
            return Ok(true);
        }
    }
    Ok(false)
}

/// The premises that a program touches.
///
/// # Errors
///
/// Where the program has no typing; want of memory.
pub fn premises_of(
    alloc: Global,
    sources: &Sources<'_, '_>,
    program: &Program<'_>,
) -> Result<Touched, Refused> {
    Ok(Touched {
        errors: touches_errors(program),
        exceptions: touches_exceptions(alloc, program)?,
        constants: touches_constants(alloc, sources, program)?,
    })
}
