//! States of the machine as text.
//!
//! A frame is the number of its method, `@`, the place of its instruction, its locals and its stack from the bottom up; the
//! running frame is the last one. An unset local is `-`.
use class_program::Program;
use class_world::World;
use jvm_values::{Base, Frame, Kind, Mode, Object, State, Ty, Value};
use std::alloc::AllocError;
use table_cases::entry_cases::put_class;
use table_cases::{put_number, put_numbered};

/// Adds the text of a state.
pub fn put_state(
    line: &mut String,
    program: &Program<'_>,
    state: &State,
) -> Result<(), AllocError> {
    for frame in state.frames.as_slice() {
        put_frame(line, frame)?;
    }
    for object in state.heap.objects.as_slice() {
        put_object(line, &program.world, object)?;
    }
    for value in state.statics.as_slice() {
        put_told(line, " static ", *value)?;
    }
    match state.mode {
        Mode::Normal => Ok(()),
        Mode::Throwing(r) => put_told(line, " throwing ", Value::Ref(r)),
    }
}

/// Adds words and a value.
pub fn put_told(line: &mut String, words: &str, value: Value) -> Result<(), AllocError> {
    line.push_str(words)?;
    put_value(line, value)
}

fn put_frame(line: &mut String, frame: &Frame) -> Result<(), AllocError> {
    put_numbered(line, " ", i64::from(frame.method))?;
    put_numbered(line, "@", i64::from(frame.pc))?;
    line.push_str(" [")?;
    put_locals(line, frame.locals.as_slice())?;
    line.push_str(" ] [")?;
    put_values(line, frame.stack.as_slice())?;
    line.push_str(" ]")
}

fn put_locals(line: &mut String, locals: &[Option<Value>]) -> Result<(), AllocError> {
    for local in locals {
        put_local(line, *local)?;
    }
    Ok(())
}

fn put_local(line: &mut String, local: Option<Value>) -> Result<(), AllocError> {
    match local {
        Some(value) => put_told(line, " ", value),
        None => line.push_str(" -"),
    }
}

fn put_values(line: &mut String, values: &[Value]) -> Result<(), AllocError> {
    for value in values {
        put_told(line, " ", *value)?;
    }
    Ok(())
}

fn put_value(line: &mut String, value: Value) -> Result<(), AllocError> {
    match value {
        Value::Int(n) => put_number(line, i64::from(n)),
        Value::Null => line.push_str("null"),
        Value::Ref(r) => put_numbered(line, "#", i64::from(r)),
    }
}

fn put_object(line: &mut String, world: &World<'_>, object: &Object) -> Result<(), AllocError> {
    line.push(' ')?;
    match object {
        Object::Instance { class, fields } => put_instance(line, world, *class, fields.as_slice()),
        Object::Nums { kind, items } => put_nums(line, *kind, items.as_slice()),
        Object::Refs { element, items } => put_refs(line, world, *element, items.as_slice()),
    }
}

fn put_instance(
    line: &mut String,
    world: &World<'_>,
    class: u32,
    fields: &[Value],
) -> Result<(), AllocError> {
    put_class(line, world, class)?;
    line.push('(')?;
    put_values(line, fields)?;
    line.push_str(" )")
}

fn put_nums(line: &mut String, kind: Kind, items: &[i32]) -> Result<(), AllocError> {
    line.push_str(kind_name(kind))?;
    line.push_str("[](")?;
    for n in items {
        put_told(line, " ", Value::Int(*n))?;
    }
    line.push_str(" )")
}

fn put_refs(
    line: &mut String,
    world: &World<'_>,
    element: Ty,
    items: &[Value],
) -> Result<(), AllocError> {
    put_type(line, world, element)?;
    line.push_str("[](")?;
    put_values(line, items)?;
    line.push_str(" )")
}

fn put_type(line: &mut String, world: &World<'_>, t: Ty) -> Result<(), AllocError> {
    match t.base {
        Base::Class(class) => put_class(line, world, class)?,
        Base::Num(kind) => line.push_str(kind_name(kind))?,
    }
    for _ in 0..t.dims {
        line.push_str("[]")?;
    }
    Ok(())
}

fn kind_name(kind: Kind) -> &'static str {
    match kind {
        Kind::Boolean => "boolean",
        Kind::Char => "char",
        Kind::Byte => "byte",
        Kind::Short => "short",
        Kind::Int => "int",
    }
}
