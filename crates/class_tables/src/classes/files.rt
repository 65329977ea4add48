//! `classes-52`: the bytes of a class file, and the class that they spell as a digest, or the fault. The table `read`, which is
//! for measuring alone, has no digest.
use crate::classes::sums::{entry_sum, handler_sum, sum_of};
use anyhow::{Result, bail};
use class_base::Handler;
use class_pool::Pool;
use class_read::{ClassFault, ClassView, CodeView, FieldView, MethodView};
use std::alloc::{AllocError, Global};
use table_cases::{Case, ascii, put_count, put_number, put_numbered};

/// The answer to a case: the class as a digest, or the fault.
pub fn answer(alloc: Global, case: &Case<'_>) -> Result<String> {
    let bytes = case.bytes(alloc, 0)?;
    let read = ClassView::read(alloc, bytes.as_slice());
    read_line(alloc, case.table(), &read)
}

fn read_line(
    alloc: Global,
    table: &str,
    read: &std::result::Result<ClassView<'_>, ClassFault>,
) -> Result<String> {
    match read {
        Ok(class) => Ok(class_line(alloc, table, class)?),
        Err(fault) => fault_line(alloc, fault),
    }
}

fn fault_line(alloc: Global, fault: &ClassFault) -> Result<String> {
    if let ClassFault::Memory = fault {
        bail!("out of memory");
    }
    ascii(alloc, fault.text(alloc)?.as_slice())
}

fn class_line(alloc: Global, table: &str, class: &ClassView<'_>) -> Result<String, AllocError> {
    let mut line = String::from_str(alloc, "OK")?;
    if table != "read" {
        put_class(alloc, &mut line, class)?;
    }
    Ok(line)
}

fn put_class(alloc: Global, line: &mut String, class: &ClassView<'_>) -> Result<(), AllocError> {
    put_numbered(line, " major=", i64::from(class.major))?;
    put_numbered(line, " flags=", i64::from(class.flags))?;
    put_digits(alloc, line, " name=", class.name)?;
    put_digits(alloc, line, " super=", class.super_name)?;
    put_members(alloc, line, class)?;
    put_pool(line, &class.pool)
}

fn put_members(alloc: Global, line: &mut String, class: &ClassView<'_>) -> Result<(), AllocError> {
    put_interfaces(alloc, line, class.interfaces.as_slice())?;
    put_fields(alloc, line, class.fields.as_slice())?;
    put_methods(alloc, line, class.methods.as_slice())
}

/// Words, and the hexadecimal digits of bytes.
fn put_digits(
    alloc: Global,
    line: &mut String,
    words: &str,
    bytes: &[u8],
) -> Result<(), AllocError> {
    line.push_str(words)?;
    line.push_str(hex::encode(alloc, bytes)?.as_str())
}

/// The words before a list, with `-` for a list without items.
fn words_before(words: &'static str, dash: &'static str, count: usize) -> &'static str {
    if count == 0 { dash } else { words }
}

/// What stands in front of an item of a list.
fn comma_before(place: usize) -> &'static str {
    if place > 0 { "," } else { "" }
}

fn put_interfaces(
    alloc: Global,
    line: &mut String,
    interfaces: &[&[u8]],
) -> Result<(), AllocError> {
    line.push_str(words_before(" interfaces=", " interfaces=-", interfaces.len()))?;
    for (place, interface) in interfaces.iter().enumerate() {
        put_digits(alloc, line, comma_before(place), *interface)?;
    }
    Ok(())
}

fn put_fields(
    alloc: Global,
    line: &mut String,
    fields: &[FieldView<'_>],
) -> Result<(), AllocError> {
    line.push_str(words_before(" fields=", " fields=-", fields.len()))?;
    for (place, field) in fields.iter().enumerate() {
        line.push_str(comma_before(place))?;
        put_name(alloc, line, field.flags, field.name, field.desc)?;
    }
    Ok(())
}

/// The flags, the name and the descriptor of a field or a method.
fn put_name(
    alloc: Global,
    line: &mut String,
    flags: u16,
    name: &[u8],
    desc: &[u8],
) -> Result<(), AllocError> {
    put_number(line, i64::from(flags))?;
    put_digits(alloc, line, ":", name)?;
    put_digits(alloc, line, ":", desc)
}

fn put_methods(
    alloc: Global,
    line: &mut String,
    methods: &[MethodView<'_>],
) -> Result<(), AllocError> {
    line.push_str(words_before(" methods=", " methods=-", methods.len()))?;
    for (place, method) in methods.iter().enumerate() {
        line.push_str(comma_before(place))?;
        put_name(alloc, line, method.flags, method.name, method.desc)?;
        put_code(line, &method.code)?;
    }
    Ok(())
}

fn put_code(line: &mut String, code: &Option<CodeView<'_>>) -> Result<(), AllocError> {
    match code {
        Some(code) => put_parts(line, code),
        None => line.push_str(":-"),
    }
}

fn put_parts(line: &mut String, code: &CodeView<'_>) -> Result<(), AllocError> {
    put_numbered(line, ":", i64::from(code.max_stack))?;
    put_numbered(line, ":", i64::from(code.max_locals))?;
    put_length(line, code.code.len())?;
    put_numbered(line, ":", i64::from(sum_of(0, code.code)))?;
    put_length(line, code.table.len())?;
    put_numbered(line, ":", i64::from(table_sum(code.table.as_slice())))
}

fn put_length(line: &mut String, count: usize) -> Result<(), AllocError> {
    line.push(':')?;
    put_count(line, count)
}

fn table_sum(table: &[Handler]) -> u32 {
    let mut sum = 0;
    for entry in table {
        sum = handler_sum(sum, entry);
    }
    sum
}

fn put_pool(line: &mut String, pool: &Pool<'_>) -> Result<(), AllocError> {
    let places = pool.count().saturating_sub(1);
    let mut sum = 0;
    for i in 1..pool.count() {
        sum = entry_sum(sum, pool, i);
    }
    put_numbered(line, " pool=", i64::from(places))?;
    put_numbered(line, ":", i64::from(sum))
}
