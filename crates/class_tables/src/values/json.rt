//! `json`: bytes that are read as JSON, and the value that was read, written compactly. The tables `parse` and `numbers`, which
//! are for measuring alone, read a value, and go through a list of numbers.
use anyhow::{Result, bail};
use json_view::{JsonFault, View, parse};
use serde_json::Value;
use std::alloc::Global;
use table_cases::{Case, ascii, numbered, said};

/// The answer to a case: the value, or the fault.
pub fn answer(alloc: Global, case: &Case<'_>) -> Result<String> {
    let bytes = case.bytes(alloc, 0)?;
    let read = parse(alloc, bytes.as_slice());
    read_line(alloc, case.table(), &read)
}

fn read_line(
    alloc: Global,
    table: &str,
    read: &std::result::Result<Value, JsonFault>,
) -> Result<String> {
    match read {
        Ok(value) => value_line(alloc, table, value),
        Err(fault) => fault_line(alloc, fault),
    }
}

fn value_line(alloc: Global, table: &str, value: &Value) -> Result<String> {
    match table {
        "parse" => said(alloc, "OK"),
        "numbers" => numbers_line(alloc, value),
        _ => digits_line(alloc, value),
    }
}

fn digits_line(alloc: Global, value: &Value) -> Result<String> {
    let mut line = String::from_str(alloc, "OK ")?;
    line.push_str(hex::encode(alloc, value.to_vec(alloc)?)?.as_str())?;
    Ok(line)
}

fn numbers_line(alloc: Global, value: &Value) -> Result<String> {
    match greatest(alloc, value) {
        Ok(number) => Ok(numbered(alloc, "OK ", number)?),
        Err(fault) => fault_line(alloc, &fault),
    }
}

/// The greatest of a list of numbers from 0 on, and 0 for none.
fn greatest(alloc: Global, value: &Value) -> Result<i64, JsonFault> {
    let list = View::root(value);
    let mut greatest = 0;
    for n in 0..list.items(alloc)? {
        let number = list.item(n).int(alloc, 0, i64::MAX)?;
        if number > greatest {
            greatest = number;
        }
    }
    Ok(greatest)
}

fn fault_line(alloc: Global, fault: &JsonFault) -> Result<String> {
    if let JsonFault::Memory = fault {
        bail!("out of memory");
    }
    ascii(alloc, fault.text(alloc)?.as_slice())
}
