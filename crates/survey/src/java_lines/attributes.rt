//! Lists of attributes and of members, looked through from the front.

use crate::java_lines::fields::{behind, part, u2, u4};
use class_pool::Pool;

/// An attribute (section 4.7).
#[derive(Clone, Copy)]
pub(crate) struct Attribute<'a> {
    /// The number of the Utf8 entry of its name.
    name: u16,
    /// What it says.
    content: &'a [u8],
}

/// The attribute at the front, and what stands behind it.
fn first_attribute(bytes: &[u8]) -> Option<(Attribute<'_>, &[u8])> {
    let (name, rest) = u2(bytes)?;
    let (size, rest) = u4(rest)?;
    let (content, rest) = part(rest, size as usize)?;
    Some((Attribute { name, content }, rest))
}

/// Whether the entry of a number is this text.
fn is_text(pool: &Pool<'_>, entry: u16, text: &[u8]) -> bool {
    match pool.utf8(entry) {
        Some(found) => found == text,
        None => false,
    }
}

/// The content of the first attribute of a name in the list at the front.
pub(crate) fn content_named<'a>(pool: &Pool<'_>, list: &'a [u8], name: &[u8]) -> Option<&'a [u8]> {
    let (count, mut rest) = u2(list)?;
    for _ in 0..count {
        let (found, next) = first_attribute(rest)?;
        if is_text(pool, found.name, name) {
            return Some(found.content);
        }
        rest = next;
    }
    None
}

/// What stands behind the list of attributes at the front.
fn behind_attributes(list: &[u8]) -> Option<&[u8]> {
    let (count, mut rest) = u2(list)?;
    for _ in 0..count {
        let (_, next) = first_attribute(rest)?;
        rest = next;
    }
    Some(rest)
}

/// A field or a method (sections 4.5 and 4.6).
#[derive(Clone, Copy)]
struct Member<'a> {
    /// The number of the Utf8 entry of its name.
    name: u16,
    /// That of its descriptor.
    desc: u16,
    /// Its list of attributes, and what stands behind it.
    attributes: &'a [u8],
}

/// The member at the front.
fn first_member(bytes: &[u8]) -> Option<Member<'_>> {
    let (_flags, rest) = u2(bytes)?;
    let (name, rest) = u2(rest)?;
    let (desc, attributes) = u2(rest)?;
    Some(Member {
        name,
        desc,
        attributes,
    })
}

/// The attributes of the member of that name and descriptor in the list at the front.
pub(crate) fn attributes_of<'a>(
    pool: &Pool<'_>,
    list: &'a [u8],
    name: &[u8],
    desc: &[u8],
) -> Option<&'a [u8]> {
    let (count, mut rest) = u2(list)?;
    for _ in 0..count {
        let found = first_member(rest)?;
        if is_text(pool, found.name, name) && is_text(pool, found.desc, desc) {
            return Some(found.attributes);
        }
        rest = behind_attributes(found.attributes)?;
    }
    None
}

/// What stands behind the list of members at the front.
pub(crate) fn behind_members(list: &[u8]) -> Option<&[u8]> {
    let (count, mut rest) = u2(list)?;
    for _ in 0..count {
        let found = first_member(rest)?;
        rest = behind_attributes(found.attributes)?;
    }
    Some(rest)
}

/// The attributes of a code, from the content of its own attribute (section 4.7.3).
pub(crate) fn code_attributes(content: &[u8]) -> Option<&[u8]> {
    let rest = behind(content, 4)?;
    let (length, rest) = u4(rest)?;
    let rest = behind(rest, length as usize)?;
    let (entries, rest) = u2(rest)?;
    behind(rest, usize::from(entries) * 8)
}
