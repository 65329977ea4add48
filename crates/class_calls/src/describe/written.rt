//! The text of a description that leaves no input out.
use crate::describe::inputs::{Listed, class_name, put_inputs, put_pairs};
use crate::describe::json::{put, put_string};
use class_program::Program;
use input_desc::{has_receiver, inputs};
use jvm_values::{Slot, Types};
use std::alloc::{AllocError, Global};

/// Puts the form of a description and the names of the entry method behind a text.
fn put_entry(text: &mut Vec<u8>, program: &Program<'_>) -> Result<(), AllocError> {
    program.is_good();
    let method = program.methods.at(0);
    let class = class_name(&program.world, method.class);
    put_string(text, b"{\"form\":2,\n \"class\":\"", class)?;
    put_string(text, b",\"method\":\"", method.name.as_slice())?;
    put_string(text, b",\"desc\":\"", method.desc.as_slice())
}

/// Puts a description of a program with these inputs behind a text.
fn put_description(
    text: &mut Vec<u8>,
    alloc: Global,
    program: &Program<'_>,
    inputs: &[Slot],
) -> Result<(), AllocError> {
    let world = &program.world;
    program.is_good();
    let (params, statics) = inputs.split_at(program.methods.at(0).params.len().min(inputs.len()));
    put_entry(text, program)?;
    put_inputs(
        text,
        alloc,
        b",\n \"params\":[",
        world,
        has_receiver(program),
        params,
    )?;
    put_pairs(text, alloc, b",\n \"same\":[", world, Listed::Same, inputs)?;
    put_pairs(
        text,
        alloc,
        b",\n \"share\":[",
        world,
        Listed::Share,
        inputs,
    )?;
    put_inputs(text, alloc, b",\n \"statics\":[", world, false, statics)?;
    put(text, b"}\n")
}

/// The text of a description that leaves no input of a program out, in form 2, if each name is UTF-8.
pub(crate) fn text_of(alloc: Global, program: &Program<'_>) -> Result<Vec<u8>, AllocError> {
    let inputs = inputs(alloc, program)?;
    let mut text = Vec::new(alloc);
    put_description(&mut text, alloc, program, inputs.as_slice())?;
    Ok(text)
}
