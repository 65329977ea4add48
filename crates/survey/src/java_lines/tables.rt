//! Tables of a code: its lines and its local variables.

use crate::java_lines::fields::u2;

/// The line of the last entry that begins at a place or before it, by a table of lines (section 4.7.12).
pub(crate) fn line_at(table: &[u8], pc: u16) -> Option<u16> {
    let (count, mut rest) = u2(table)?;
    let mut best = None;
    let mut from = 0;
    for _ in 0..count {
        let (start, next) = u2(rest)?;
        let (line, next) = u2(next)?;
        if start <= pc && start >= from {
            best = Some(line);
            from = start;
        }
        rest = next;
    }
    best
}

/// An entry of a table of local variables (section 4.7.13).
#[derive(Clone, Copy)]
struct Variable {
    /// The first place at which it has its value.
    start: u16,
    /// How many places from there on.
    length: u16,
    /// The number of the Utf8 entry of its name.
    name: u16,
    /// The number of the local variable.
    index: u16,
}

/// The entry at the front, and what stands behind it.
fn first_variable(bytes: &[u8]) -> Option<(Variable, &[u8])> {
    let (start, rest) = u2(bytes)?;
    let (length, rest) = u2(rest)?;
    let (name, rest) = u2(rest)?;
    let (_desc, rest) = u2(rest)?;
    let (index, rest) = u2(rest)?;
    let found = Variable {
        start,
        length,
        name,
        index,
    };
    Some((found, rest))
}

/// Whether an entry is of a local variable at a place.
fn is_at(found: Variable, index: u16, pc: u16) -> bool {
    found.index == index && found.start <= pc && pc - found.start < found.length
}

/// The number of the Utf8 entry that names a local variable at a place.
pub(crate) fn name_at(table: &[u8], index: u16, pc: u16) -> Option<u16> {
    let (count, mut rest) = u2(table)?;
    for _ in 0..count {
        let (found, next) = first_variable(rest)?;
        if is_at(found, index, pc) {
            return Some(found.name);
        }
        rest = next;
    }
    None
}
