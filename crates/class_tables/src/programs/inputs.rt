//! `states-52` and `descriptions-52`: a text and class files, and the first fault of the text, if any.
ghost use Rattle.std.specs.Prelude.{IsTrue};
ghost use Rattle.class_world.specs.Worlds.{classes_of};
ghost use Rattle.class_world.specs.Resolve.{has_body};

use anyhow::{Context, Result};
use class_program::Program;
use class_world::{MethodRef, World};
use input_desc::{Desc, DescFault, DescText, StateText, entry, state_entry, state_of};
use std::alloc::{AllocError, Global};
use table_cases::entry_cases::{class_files, linked, put_bytes};
use table_cases::{Case, said};

/// What is said of a state.
pub fn state(alloc: Global, case: &Case<'_>) -> Result<String> {
    let bytes = case.bytes(alloc, 0)?;
    match StateText::read(alloc, bytes.as_slice()) {
        Ok(text) => read_state(alloc, case, text),
        Err(fault) => refused(alloc, "state", &fault),
    }
}

fn read_state(alloc: Global, case: &Case<'_>, text: StateText) -> Result<String> {
    let files = class_files(alloc, case, 1)?;
    state_in(alloc, text, linked(alloc, files.as_slice())?)
}

fn state_in(alloc: Global, text: StateText, world: World<'_>) -> Result<String> {
    match state_entry(&text, &world) {
        Ok(entry) => state_at(alloc, text, world, entry),
        Err(fault) => refused(alloc, "state", &fault),
    }
}

fn state_at(alloc: Global, text: StateText, world: World<'_>, entry: MethodRef) -> Result<String>
    requires { IsTrue (has_body (classes_of world) entry) }
{
    let program = program(alloc, world, entry)?;
    told(alloc, "state", &state_of(alloc, text, &program).err())
}

/// What is said of a description.
pub fn description(alloc: Global, case: &Case<'_>) -> Result<String> {
    let bytes = case.bytes(alloc, 0)?;
    match DescText::read(alloc, bytes.as_slice()) {
        Ok(text) => read_description(alloc, case, text),
        Err(fault) => refused(alloc, "description", &fault),
    }
}

fn read_description(alloc: Global, case: &Case<'_>, text: DescText) -> Result<String> {
    let files = class_files(alloc, case, 1)?;
    description_in(alloc, text, linked(alloc, files.as_slice())?)
}

fn description_in(alloc: Global, text: DescText, world: World<'_>) -> Result<String> {
    match entry(&text, &world) {
        Ok(entry) => description_at(alloc, text, world, entry),
        Err(fault) => refused(alloc, "description", &fault),
    }
}

fn description_at(
    alloc: Global,
    text: DescText,
    world: World<'_>,
    entry: MethodRef,
) -> Result<String>
    requires { IsTrue (has_body (classes_of world) entry) }
{
    let program = program(alloc, world, entry)?;
    told(
        alloc,
        "description",
        &Desc::fit(alloc, text, &program).err(),
    )
}

/// The program of a method.
fn program(alloc: Global, world: World<'_>, entry: MethodRef) -> Result<Program<'_>>
    requires { IsTrue (has_body (classes_of world) entry) }
{
    Program::close(alloc, world, entry)
        .ok()
        .context("the program isn't closed")
}

/// What is said of an input.
fn told(alloc: Global, place: &str, fault: &Option<DescFault>) -> Result<String> {
    match fault {
        Some(fault) => refused(alloc, place, fault),
        None => said(alloc, "OK"),
    }
}

/// The line that names a fault at a place.
fn refused(alloc: Global, place: &str, fault: &DescFault) -> Result<String> {
    let text = fault.text(alloc)?;
    Ok(refused_line(alloc, place, text.as_slice())?)
}

fn refused_line(alloc: Global, place: &str, text: &[u8]) -> Result<String, AllocError> {
    let mut line = String::from_str(alloc, "jterm: ")?;
    line.push_str(place)?;
    line.push_str(": ")?;
    put_bytes(&mut line, text)?;
    Ok(line)
}
