//! Types of methods as descriptors write them (JVM specification, SE 8, section 4.3.3).
ghost use Rattle.std.specs.Prelude.{◌≡◌, ◌↔◌, ℕ, ◌+◌, ◌≤◌, length, Option, Some, None, IfOk};
ghost use Rattle.list_views.specs.Options.{Finds};
ghost use Rattle.class_base.specs.declared.methods.MethodType.{MethodType as MethodTypeOf};
ghost use Rattle.class_base.specs.Types.{element_words, type_words};
ghost use Rattle.class_base.specs.MethodTypes.{types_at, words_at, returned_at, method_type, method_words, IsMethodType, HasWords};

use crate::types::{Element, FieldType, field_type, type_at};
use list_views::Seq;
use std::alloc::{AllocError, Global};

/// The types of a method's parameters, without a receiver, and of its result.
#[derive(Drop)]
pub struct MethodType<'t> {
    /// The parameters, from left to right.
    pub params: Seq<FieldType<'t>>,
    /// The result; none for `V`.
    pub returned: Option<FieldType<'t>>,
}

/// The types up to the `)`, and the bytes after it.
fn types_at(alloc: Global, bytes: &[u8]) -> Result<Option<(Seq<FieldType<'_>>, &[u8])>, AllocError>
    ensures { IfOk result (λ read. Finds (λ x. (x.0, x.1.now)) read (types_at (length bytes.now) bytes.now)) }
{
    let mut types = Seq::new(alloc);
    let mut rest = bytes;
    'turns: for _ in 0..bytes.len() {
        let Some((first, after)) = rest.split_first() else {
            return Ok(None);
        };
        if *first == b')' {
            return Ok(Some((types, after)));
        }
        let Some((found, after)) = type_at(rest) else {
            return Ok(None);
        };
        types.push(found)?;
        rest = after;
    }
    Ok(None)
}

/// What a method returns: nothing for `V`, else a type.
#[tactic(auto, unfolding(crate::specs::MethodTypes::returned_at))]
fn returned_at(bytes: &[u8]) -> Option<Option<FieldType<'_>>>
    ensures { result ≡ returned_at bytes.now }
{
    let (first, after) = bytes.split_first()?;
    if *first != b'V' {
        let found = field_type(bytes)?;
        return Some(Some(found));
    }
    if after.len() != 0 {
        return None;
    }
    Some(None)
}

#[tactic(auto, unfolding(crate::specs::MethodTypes::method_type))]
fn whole_method(alloc: Global, bytes: &[u8]) -> Result<Option<MethodType<'_>>, AllocError>
    ensures { IfOk result (λ read. read ≡ method_type bytes.now) }
{
    let Some((first, bytes)) = bytes.split_first() else {
        return Ok(None);
    };
    if *first != b'(' {
        return Ok(None);
    }
    let Some((params, rest)) = types_at(alloc, bytes)? else {
        return Ok(None);
    };
    match returned_at(rest) {
        Some(returned) => Ok(Some(MethodType { params, returned })),
        None => Ok(None),
    }
}

/// The types of a method; none where the bytes are no method's descriptor. That the parameters have at most 255 words is
/// not asked.
///
/// # Errors
///
/// Want of memory.
pub fn method_type(alloc: Global, bytes: &[u8]) -> Result<Option<MethodType<'_>>, AllocError>
    ensures computed { IfOk result (λ read. read ≡ method_type bytes.now) }
    ensures exact { IfOk result (λ read. (m : MethodTypeOf) → (read ≡ Some m) ↔ IsMethodType m bytes.now) }
{
    whole_method(alloc, bytes)
}

fn element_words(element: &Element<'_>) -> usize
    ensures words { result ≡ element_words element.now }
    ensures few { result ≤ 2 }
{
    match element {
        Element::Primitive(b'D' | b'J') => 2,
        _ => 1,
    }
}

fn type_words(found: &FieldType<'_>) -> usize
    ensures words { result ≡ type_words found.now }
    ensures few { result ≤ 2 }
{
    if found.dims == 0 {
        element_words(&found.element)
    } else {
        1
    }
}

/// The words of the types up to the `)`, and the bytes after it.
fn words_at(bytes: &[u8]) -> Option<(usize, &[u8])>
    ensures { Finds (λ x. (x.0, x.1.now)) result (words_at bytes.now) }
{
    let mut words = 0;
    let mut rest = bytes;
    'turns: for _ in 0..bytes.len() {
        let (first, after) = rest.split_first()?;
        if *first == b')' {
            return Some((words, after));
        }
        let (found, after) = type_at(rest)?;
        words += type_words(&found);
        rest = after;
    }
    None
}

#[tactic(auto, unfolding(crate::specs::MethodTypes::method_type))]
fn whole_words(bytes: &[u8]) -> Option<usize>
    ensures { result ≡ method_words bytes.now }
{
    let (first, bytes) = bytes.split_first()?;
    if *first != b'(' {
        return None;
    }
    let (words, rest) = words_at(bytes)?;
    let _returned = returned_at(rest)?;
    Some(words)
}

/// The words of a method's parameters, without the receiver: two for a long and a double, one for every other type. None
/// exactly where the bytes are no method's descriptor. That the parameters have at most 255 words is not asked.
pub fn method_words(bytes: &[u8]) -> Option<usize>
    ensures computed { result ≡ method_words bytes.now }
    ensures exact { (words : ℕ) → (result ≡ Some words) ↔ HasWords words bytes.now }
{
    whole_words(bytes)
}
