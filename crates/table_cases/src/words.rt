//! Numbers in words, and words as answers.
use anyhow::{Context, Result};
use std::alloc::{AllocError, Global};
use std::fmt::Write;

/// The number that a text says in decimal digits.
pub fn number(text: &str) -> Result<i64> {
    text.parse::<i64>().ok().context("a number is wanted")
}

/// The number of 32 bits that a text says in decimal digits.
pub fn natural(text: &str) -> Result<u32> {
    u32::try_from(number(text)?)
        .ok()
        .context("the number is too large")
}

/// The number of 16 bits that a text says in decimal digits.
pub fn short(text: &str) -> Result<u16> {
    u16::try_from(number(text)?)
        .ok()
        .context("the number is too large")
}

/// Adds a number in decimal digits.
pub fn put_number(line: &mut String, number: i64) -> Result<(), AllocError> {
    write!(line, "{number}").map_err(|_| AllocError)
}

/// Adds a count in decimal digits.
pub fn put_count(line: &mut String, count: usize) -> Result<(), AllocError> {
    write!(line, "{count}").map_err(|_| AllocError)
}

/// Adds words and a number in decimal digits.
pub fn put_numbered(line: &mut String, words: &str, number: i64) -> Result<(), AllocError> {
    line.push_str(words)?;
    put_number(line, number)
}

/// Adds a comma in front of each item of a list but the first.
pub fn put_comma(line: &mut String, place: usize) -> Result<(), AllocError> {
    if place > 0 { line.push(',') } else { Ok(()) }
}

/// Words and a number as an answer.
pub fn numbered(alloc: Global, words: &str, number: i64) -> Result<String, AllocError> {
    let mut line = String::from_str(alloc, words)?;
    put_number(&mut line, number)?;
    Ok(line)
}

/// A text as an answer.
pub fn said(alloc: Global, text: &str) -> Result<String> {
    Ok(String::from_str(alloc, text)?)
}

/// Words of ASCII as an answer.
pub fn ascii(alloc: Global, words: &[u8]) -> Result<String> {
    said(
        alloc,
        str::from_utf8(words).ok().context("the words are no text")?,
    )
}
