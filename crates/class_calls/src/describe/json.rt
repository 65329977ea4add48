//! The parts of a JSON text (RFC 8259).
use std::alloc::{AllocError, Global};

/// Puts bytes behind a text.
pub(crate) fn put(text: &mut Vec<u8>, bytes: &[u8]) -> Result<(), AllocError> {
    text.extend_from_slice(bytes)
}

/// Puts bytes and an int behind a text.
pub(crate) fn put_int(
    text: &mut Vec<u8>,
    alloc: Global,
    head: &[u8],
    value: &i32,
) -> Result<(), AllocError> {
    put(text, head)?;
    let digits = format!(in alloc; "{value}")?;
    put(text, digits.as_bytes())
}

/// Puts bytes and a number behind a text.
pub(crate) fn put_number(
    text: &mut Vec<u8>,
    alloc: Global,
    head: &[u8],
    value: usize,
) -> Result<(), AllocError> {
    put(text, head)?;
    let digits = format!(in alloc; "{value}")?;
    put(text, digits.as_bytes())
}

/// Puts a byte of UTF-8 behind a text as it stands between quotes (section 7).
fn put_byte(text: &mut Vec<u8>, byte: u8) -> Result<(), AllocError> {
    match byte {
        b'"' => put(text, b"\\\""),
        b'\\' => put(text, b"\\\\"),
        byte if byte < 0x20 => put_escaped(text, byte),
        byte => put(text, &[byte]),
    }
}

/// Puts bytes of UTF-8 behind a text as they stand between quotes (section 7).
pub(crate) fn put_inside(text: &mut Vec<u8>, bytes: &[u8]) -> Result<(), AllocError> {
    for byte in bytes {
        put_byte(text, *byte)?;
    }
    Ok(())
}

/// Puts a head, which ends with a quote, behind a text, and bytes of UTF-8 and a quote behind it.
pub(crate) fn put_string(text: &mut Vec<u8>, head: &[u8], bytes: &[u8]) -> Result<(), AllocError> {
    put(text, head)?;
    put_inside(text, bytes)?;
    put(text, b"\"")
}

/// Puts a byte below 0x20 behind a text, by its number.
fn put_escaped(text: &mut Vec<u8>, byte: u8) -> Result<(), AllocError> {
    let digits = [digit(byte / 16), digit(byte % 16)];
    put(text, b"\\u00")?;
    put(text, &digits)
}

/// The hexadecimal digit of a value below 16.
fn digit(value: u8) -> u8 {
    if value < 10 {
        b'0' + value
    } else {
        b'a' + (value.min(15) - 10)
    }
}
