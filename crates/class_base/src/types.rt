//! Types as descriptors write them (JVM specification, SE 8, section 4.3.2).
ghost use Rattle.std.specs.Prelude.{◌≡◌, ◌↔◌, ◌≤◌, ◌==◌, position, length, Option, Some, None};
ghost use Rattle.list_views.specs.Options.{Finds};
ghost use Rattle.class_base.specs.declared.types.FieldType.{FieldType as TypeOf};
ghost use Rattle.class_base.specs.Types.{is_primitive, array_depth, object_at, element_at, type_at, field_type, IsFieldType};

use crate::class_name::is_class_name;
use list_views::Bytes;

/// What stands under the dimensions of a type.
#[derive(Drop)]
pub enum Element<'t> {
    /// A primitive type by its letter: `B`, `C`, `D`, `F`, `I`, `J`, `S` or `Z`.
    Primitive(u8),
    /// A class by its name.
    Object(Bytes<'t>),
}

/// A type as a descriptor writes it.
#[derive(Drop)]
pub struct FieldType<'t> {
    /// The number of array dimensions, 0 where it is no array.
    pub dims: u8,
    /// The innermost items of an array, or the type itself.
    pub element: Element<'t>,
}

fn is_primitive(b: u8) -> bool
    ensures { result ≡ is_primitive b }
{
    (b == b'B' || b == b'C' || b == b'D' || b == b'F')
        || (b == b'I' || b == b'J' || b == b'S' || b == b'Z')
}

fn array_depth(bytes: &[u8]) -> usize
    ensures depth { result ≡ array_depth bytes.now }
    ensures within { result ≤ length bytes.now }
{
    for (depth, b) in bytes.iter().enumerate() {
        if *b != b'[' {
            return depth;
        }
    }
    bytes.len()
}

fn semicolon(bytes: &[u8]) -> Option<usize>
    ensures { result ≡ position (λ b. b == 59) bytes.now }
{
    bytes.iter().position(|b| *b == b';')
}

/// A class name up to its `;`, and the bytes after it.
#[tactic(auto, unfolding(crate::specs::Types::object_at))]
fn object_at(bytes: &[u8]) -> Option<(Element<'_>, &[u8])>
    ensures { Finds (λ x. (x.0, x.1.now)) result (object_at bytes.now) }
{
    let end = semicolon(bytes)?;
    let (name, rest) = bytes.split_at(end);
    if !is_class_name(name) {
        return None;
    }
    let (_, rest) = rest.split_at(1);
    Some((Element::Object(Bytes::new(name)), rest))
}

#[tactic(auto, unfolding(crate::specs::Types::element_at))]
fn element_at(bytes: &[u8]) -> Option<(Element<'_>, &[u8])>
    ensures { Finds (λ x. (x.0, x.1.now)) result (element_at bytes.now) }
{
    let (first, rest) = bytes.split_first()?;
    if *first == b'L' {
        return object_at(rest);
    }
    if !is_primitive(*first) {
        return None;
    }
    Some((Element::Primitive(*first), rest))
}

/// The type that the bytes begin with, and the bytes after it.
///
/// None where they begin with none; an array has at most 255 dimensions.
#[tactic(auto, unfolding(crate::specs::Types::type_at))]
pub fn type_at(bytes: &[u8]) -> Option<(FieldType<'_>, &[u8])>
    ensures { Finds (λ x. (x.0, x.1.now)) result (type_at bytes.now) }
{
    let depth = array_depth(bytes);
    if depth > 255 {
        return None;
    }
    let (_, front) = bytes.split_at(depth);
    let (element, rest) = element_at(front)?;
    Some((
        FieldType {
            dims: depth as u8,
            element,
        },
        rest,
    ))
}

#[tactic(auto, unfolding(crate::specs::Types::field_type))]
fn whole_type(bytes: &[u8]) -> Option<FieldType<'_>>
    ensures { result ≡ field_type bytes.now }
{
    let (found, rest) = type_at(bytes)?;
    if rest.len() != 0 {
        return None;
    }
    Some(found)
}

/// The type that the bytes write as a whole; none where they write none.
pub fn field_type(bytes: &[u8]) -> Option<FieldType<'_>>
    ensures computed { result ≡ field_type bytes.now }
    ensures exact { (t : TypeOf) → (result ≡ Some t) ↔ IsFieldType t bytes.now }
{
    whole_type(bytes)
}
