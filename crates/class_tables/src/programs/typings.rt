//! `typing`: the entry method and class files, and the types of each place that can be reached, or the first reached method without a
//! typing.
use anyhow::{Context, Result, bail};
use class_program::{Method, Program};
use class_world::World;
use code_verify::{Typing, VerifyFault, verify};
use jvm_values::{FrameType, PlaceType};
use std::alloc::{AllocError, Global};
use table_cases::entry_cases::{ProgramAnswers, put_descriptor, put_method};
use table_cases::{Case, put_comma, put_numbered};

/// The cases of typings.
pub struct Typings;

impl ProgramAnswers for Typings {
    fn answer(alloc: Global, program: &Program<'_>, _case: &Case<'_>) -> Result<String> {
        match verify(alloc, program) {
            Ok(typing) => Ok(places_line(alloc, program, &typing)?),
            Err(VerifyFault::NoTyping { method }) => untyped(alloc, program, method),
            Err(VerifyFault::Memory) => bail!("want of memory"),
        }
    }
}

fn untyped(alloc: Global, program: &Program<'_>, number: u32) -> Result<String> {
    let method = program.methods.get(number as usize);
    Ok(untyped_line(alloc, program, method.context("the method is not there")?)?)
}

fn untyped_line(
    alloc: Global,
    program: &Program<'_>,
    method: &Method<'_>,
) -> Result<String, AllocError> {
    let mut line = String::from_str(alloc, "verify: NoTyping method=")?;
    put_method(&mut line, program, method)?;
    Ok(line)
}

fn places_line(
    alloc: Global,
    program: &Program<'_>,
    typing: &Typing,
) -> Result<String, AllocError> {
    let mut line = String::from_str(alloc, "OK")?;
    for (index, method) in program.methods.as_slice().iter().enumerate() {
        let number = u32::try_from(index).unwrap_or(u32::MAX);
        put_places(&mut line, program, typing, number, method)?;
    }
    Ok(line)
}

/// The types of the places of a method.
fn put_places(
    line: &mut String,
    program: &Program<'_>,
    typing: &Typing,
    number: u32,
    method: &Method<'_>,
) -> Result<(), AllocError> {
    for (pc, _) in method.insns.as_slice() {
        if let Some(frame) = typing.at(number, *pc) {
            put_place(line, number, *pc)?;
            put_frame(line, &program.world, frame)?;
        }
    }
    Ok(())
}

fn put_place(line: &mut String, method: u32, pc: u16) -> Result<(), AllocError> {
    put_numbered(line, " ", i64::from(method))?;
    put_numbered(line, "@", i64::from(pc))
}

/// The locals' types and the stack's, from the bottom up.
fn put_frame(line: &mut String, world: &World<'_>, frame: &FrameType) -> Result<(), AllocError> {
    line.push('[')?;
    put_types(line, world, frame.locals.as_slice())?;
    line.push('|')?;
    put_types(line, world, frame.stack.as_slice())?;
    line.push(']')
}

fn put_types(line: &mut String, world: &World<'_>, types: &[PlaceType]) -> Result<(), AllocError> {
    for (place, t) in types.iter().enumerate() {
        put_comma(line, place)?;
        put_type(line, world, *t)?;
    }
    Ok(())
}

fn put_type(line: &mut String, world: &World<'_>, place: PlaceType) -> Result<(), AllocError> {
    match place {
        PlaceType::Unset => line.push('-'),
        PlaceType::Int => line.push('I'),
        PlaceType::Null => line.push_str("null"),
        PlaceType::Ref(t) => put_descriptor(line, world, t),
    }
}
